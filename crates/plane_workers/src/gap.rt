//! The least time that a packet is on its way.
ghost use Rattle.std.specs.Prelude.{◌≡◌, ◌^◌, ◌<◌, ◌≤◌};
ghost use Rattle.link_steps.specs.Lists.{Each};
ghost use Rattle.plane_workers.specs.Gaps.{IsSpaced, PacketsTakeTheirTime};

use call_script::Plan;
use hop_reservation::Route;

// A window has at most one round more than this: longer ones take memory, and are no faster.
const MOST_GAP: u64 = 2_047;

/// What leaves a link in a run and goes on reaches the next link more than `gap` rounds later, where each hop from which a route goes
/// on has a propagation of at least `gap`.
pub fn packets_take_their_time()
    ensures { PacketsTakeTheirTime }
{}

/// The least propagation of a hop from which a request's route goes on, but at most 2,047.
pub fn least_gap(plan: &Plan) -> u64
    ensures spaced { Each (λ entry. IsSpaced result entry.request.route) plan.now.requests }
    ensures small { result < 2 ^ 60 }
{
    let mut gap = MOST_GAP;
    for entry in plan.requests() {
        gap = gap_over(&entry.request.route, gap);
    }
    gap
}

// The least of this number and the propagations of the hops from which the route goes on.
fn gap_over(route: &Route, most: u64) -> u64
    ensures spaced { IsSpaced result route.now }
    ensures less { result ≤ most }
{
    let mut gap = most;
    for place in 1..route.len() {
        gap = gap.min(u64::from(route.hop(place).prop));
    }
    gap
}
