//! What the workers go by.

use call_script::Plan;
use net_units::ActorNo;
use std::alloc::Global;

// What stays the same in all rounds that the workers make of a plan.
#[derive(Drop)]
pub(crate) struct Job<'a, R, G> {
    pub(crate) rt: &'a R,
    pub(crate) alloc: Global,
    pub(crate) plan: &'a Plan,
    pub(crate) gate: &'a G,
    // The plane.
    pub(crate) actor: ActorNo,
    // What leaves a link reaches the next one later by more than so many rounds.
    pub(crate) gap: u64,
    // How many rounds there are.
    pub(crate) rounds: u64,
}
