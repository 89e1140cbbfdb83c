//! Runs that are played by a schedule, and recorded.
ghost use Rattle.std.specs.Prelude.{IfOk, IfErr, reverse};
ghost use Rattle.call_script.specs.Tasks.{network_of};
ghost use Rattle.interleave_core.specs.channels.Laws.{IsGuaranteedRun};
ghost use Rattle.link_steps.specs.Lists.{Each};
ghost use Rattle.run_engine.specs.schedules.Schedules.{IsActorOf, IsFaultOf, IsPlayed};

use call_script::{Plan, Schedule};
use run_engine::{PlayFault, play_watched};
use run_record::Record;
use std::alloc::Global;

/// Plays a schedule of a plan, and answers the record of its run. A written schedule's items are played in their order, each of them
/// a number of steps of its actor in a row. Where none is written, the callers in their order, and then the plane, each make their
/// steps until none is left.
///
/// `Step` comes exactly where a written item asks for a step that isn't left, and names the first such line. The run has the
/// whole guarantee at its beginning and after each of its entries. Each item's actor is a caller of the plan or the plane.
pub fn play(alloc: Global, plan: &Plan, schedule: &Schedule) -> Result<Record, PlayFault>
    requires { Each (IsActorOf plan.now) schedule.now.items }
    ensures played { IfOk result (λ made. IsPlayed (network_of plan.now) schedule.now (reverse made.entries)) }
    ensures guaranteed { IfOk result (λ made. IsGuaranteedRun plan.now (reverse made.entries)) }
    ensures fault { IfErr result (IsFaultOf (network_of plan.now) schedule.now) }
{
    let mut record = Record::new(alloc);
    play_watched(alloc, plan, schedule, &mut record)?;
    Ok(record)
}
