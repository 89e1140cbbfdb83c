//! What the network of a plan is opened with.
ghost use Rattle.std.specs.Prelude.{◌≡◌, suc, ◌+◌, IfOk, length, map};
ghost use Rattle.step_stamp.specs.Opening.{AreLinks, ArePasses};
ghost use Rattle.step_stamp.specs.Seats.{stamps_table};
ghost use Rattle.call_script.specs.Plans.{IsPlan};
ghost use Rattle.race_run.specs.Callers.{caller_of};
ghost use Rattle.tick_plane.specs.Planes.{plane_start};

use call_script::Plan;
use net_units::{ActorNo, OutOfMemory};
use std::alloc::Global;
use step_stamp::{LinkSeat, PassSeat, Stamps};
use tick_plane::Plane;

/// The owner of each channel: the caller that opens its request.
pub(crate) fn owners_of(alloc: Global, plan: &Plan) -> Result<Vec<ActorNo>, OutOfMemory>
    ensures { IfOk result (λ owners. owners.items ≡ map caller_of plan.now.requests) }
{
    let entries = plan.requests();
    let mut owners = Vec::with_capacity(alloc, entries.len())?;
    for entry in entries {
        owners.push(entry.caller)?;
    }
    Ok(owners)
}

/// The stamps of a plan's network, with a seat for each link and for each actor: the callers and the plane.
pub(crate) fn stamps_of(
    alloc: Global,
    plan: &Plan,
) -> Result<(Stamps, Vec<LinkSeat>, Vec<PassSeat>), OutOfMemory>
    ensures links { IfOk result (λ r. AreLinks (stamps_table r.0) (suc (length plan.now.callers)) (length plan.now.links) r.1.items) }
    ensures passes { IfOk result (λ r. ArePasses (stamps_table r.0) (suc (length plan.now.callers)) (suc (length plan.now.callers)) r.2.items) }
    ensures plan { IsPlan plan.now }
{
    let links = plan.links().len() as u32;
    let actors = plan.callers().len() as u32 + 1;
    Stamps::open(alloc, links, actors)
}

/// The plane of a plan, before its first round.
pub(crate) fn plane_of(alloc: Global, plan: &Plan) -> Result<Plane, OutOfMemory>
    ensures { IfOk result (λ plane. plane ≡ record { links = length plan.now.links; rounds = plan.now.rounds + plan.now.tail; at = plane_start; spare = 0 }) }
{
    let links = plan.links().len() as u32;
    Plane::new(alloc, links, plan.rounds() + plan.tail())
}
