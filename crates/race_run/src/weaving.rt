//! The run that journals and passes tell.
ghost use Rattle.std.specs.Prelude.{◌≡◌, ◌<◌, ◌++◌, [], List, ℕ, IfOk, OnOk, None, true, length, reverse};
ghost use Rattle.call_script.specs.Tasks.{network_of};
ghost use Rattle.run_engine.specs.runs.Runs.{next_for, IsRun};
ghost use Rattle.run_engine.specs.schedules.Schedules.{IsActorOf, IsPlayed};
ghost use Rattle.run_engine.specs.schedules.Standing.{CallersStand};
ghost use Rattle.run_engine.specs.schedules.Watching.{IsSeen};
ghost use Rattle.link_steps.specs.Lists.{Each};
ghost use Rattle.race_run.specs.Order.{IsOrder};
ghost use Rattle.race_run.specs.Turns.{AreMaximalRuns, IsWritable, actors_of};
ghost use Rattle.race_run.specs.Whole.{IsWhole, weave_of};

use crate::order::order_of;
use crate::tail::latest_of_all;
use crate::telling::tell;
use call_script::{Dos, Plan, Schedule};
use net_units::OutOfMemory;
use run_engine::{Callers, Watch, replay};
use run_record::Record;
use shared_network::Closed;
use std::alloc::Global;

/// The run that has happened, and the schedule that it followed.
#[derive(Drop)]
pub struct Raced {
    /// The entries of all journals, in order of stamp.
    pub run: Record,
    /// Their actors in maximal runs.
    pub schedule: Schedule,
}

/// The run that a closed network's journals tell: all their entries in order of stamp, with the schedule of their actors in maximal
/// runs, written, with no line numbers. The journals and passes are whole for the plan. Then this is the run of the plan by that
/// schedule, and in it every actor makes all its steps. As a run of the plan it has the whole guarantee at its beginning and after each
/// of its entries (`every_run_of_a_plan_is_guaranteed` of `interleave_core`).
/// The scenario's language can write the schedule: its actors are the plan's, and each item has 1 to 1,048,576 steps (`language`). An
/// `Err` comes only for want of memory. The call waits for nobody.
pub fn woven(alloc: Global, plan: &Plan, closed: &Closed) -> Result<Raced, OutOfMemory>
    requires whole { IsWhole (network_of plan.now) closed.now.passes closed.now.journals }
    ensures weave { IfOk result (λ raced. reverse raced.run.entries ≡ weave_of closed.now.journals) }
    ensures runs { IfOk result (λ raced. AreMaximalRuns (actors_of raced.run.entries) raced.schedule.items) }
    ensures written { IfOk result (λ raced. raced.schedule.written ≡ true) }
    ensures actors { IfOk result (λ raced. Each (IsActorOf plan.now) raced.schedule.items) }
    ensures language { IfOk result (λ raced. Each (IsWritable (length plan.now.callers)) raced.schedule.items) }
    ensures played { IfOk result (λ raced. IsPlayed (network_of plan.now) raced.schedule (reverse raced.run.entries)) }
    ensures over { IfOk result (λ raced. (actor : ℕ) → next_for (network_of plan.now) actor (reverse raced.run.entries) ≡ None) }
    ensures run { IfOk result (λ raced. IsRun (network_of plan.now) (reverse raced.run.entries)) }
{
    // Read for what it says of every plan.
    let _valid = plan.links();
    let journals = closed.journals.as_slice();
    let order = order_of(alloc, journals)?;
    let mut run = Record::new(alloc);
    let items = tell(alloc, plan, journals, order.as_slice(), &mut run)?;
    let schedule = Schedule {
        written: true,
        items: Dos::new(items),
    };
    Ok(Raced { run, schedule })
}

/// What is left of a race's run once a watcher has been told of it.
#[derive(Drop)]
pub struct Told {
    /// The callers after it.
    pub callers: Callers,
    /// Its actors in maximal runs.
    pub schedule: Schedule,
}

/// Shows the run that a closed network's journals tell, which [`woven`] records, to a watcher, entry by entry in order of stamp. The
/// watcher has seen nothing before. Answers the callers after the run, and the schedule that it followed, as `woven` does. An `Err`
/// comes only for want of memory, and then nothing is said of the watcher. The call waits for nobody.
///
/// It takes a byte a stamp, and a record of the run up to the last step of a caller, which it gives up before the watcher is told.
pub fn woven_watched<W: Watch>(
    alloc: Global,
    plan: &Plan,
    closed: &Closed,
    watch: &mut W,
) -> Result<Told, OutOfMemory>
    requires whole { IsWhole (network_of plan.now) closed.now.passes closed.now.journals }
    requires fresh { W.saw watch.old plan.now [] }
    ensures seen { IfOk result (λ told. IsSeen W.saw plan.now told.callers watch.new (weave_of closed.now.journals)) }
    ensures runs { IfOk result (λ told. AreMaximalRuns (actors_of (reverse (weave_of closed.now.journals))) told.schedule.items) }
    ensures written { IfOk result (λ told. told.schedule.written ≡ true) }
    ensures actors { IfOk result (λ told. Each (IsActorOf plan.now) told.schedule.items) }
    ensures language { IfOk result (λ told. Each (IsWritable (length plan.now.callers)) told.schedule.items) }
    ensures played { IfOk result (λ told. IsPlayed (network_of plan.now) told.schedule (weave_of closed.now.journals)) }
    ensures over { OnOk result ((actor : ℕ) → next_for (network_of plan.now) actor (weave_of closed.now.journals) ≡ None) }
    ensures run { OnOk result (IsRun (network_of plan.now) (weave_of closed.now.journals)) }
    ensures table { OnOk result (W.has_table watch.new ≡ W.has_table watch.old) }
{
    // Read for what it says of every plan.
    let _valid = plan.links();
    let journals = closed.journals.as_slice();
    let order = order_of(alloc, journals)?;
    let callers = callers_after(alloc, plan, closed, order.as_slice())?;
    let items = tell(alloc, plan, journals, order.as_slice(), watch)?;
    let schedule = Schedule {
        written: true,
        items: Dos::new(items),
    };
    Ok(Told { callers, schedule })
}

// The callers after the run that has this order. Its steps after the last one of a caller are the plane's.
fn callers_after(
    alloc: Global,
    plan: &Plan,
    closed: &Closed,
    order: &[u8],
) -> Result<Callers, OutOfMemory>
    requires whole { IsWhole (network_of plan.now) closed.now.passes closed.now.journals }
    requires order { IsOrder closed.now.journals order.now }
    ensures { IfOk result (λ callers. CallersStand plan.now callers (weave_of closed.now.journals)) }
{
    let passes = closed.passes.as_slice();
    let latest = latest_of_all(&passes[..plan.callers().len()]);
    let front = front_to(order, latest);
    let mut run = Record::new(alloc);
    tell(alloc, plan, closed.journals.as_slice(), front, &mut run)?;
    let callers = replay(alloc, plan, &run)?;
    Ok(callers)
}

// The table up to this stamp, or to its end.
fn front_to(order: &[u8], stamp: u64) -> &[u8]
    ensures front { (more : List ℕ) × (order.now ≡ result.now ++ more) }
    ensures long { length result.now < length order.now → stamp < length result.now }
{
    let count = (stamp as usize).saturating_add(1).min(order.len());
    &order[..count]
}
