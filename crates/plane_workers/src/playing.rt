//! Runs that are played by a schedule, with the plane's rounds made by several workers.
ghost use Rattle.std.specs.Prelude.{◌≡◌, ◌+◌, ◌<◌, ◌≤◌, [], List, IfOk, IfErr, OnOk, length, reverse};
ghost use Rattle.call_script.specs.Tasks.{network_of};
ghost use Rattle.run_engine.specs.schedules.Schedules.{IsActorOf, IsFaultOf, IsPlayed};
ghost use Rattle.run_engine.specs.runs.Runs.{IsRun};
ghost use Rattle.run_engine.specs.schedules.Watching.{HavePlayedOut, IsPlayedSeen, PlaysOut, WatchStands};
ghost use Rattle.link_steps.specs.Lists.{Each};
ghost use Rattle.run_record.specs.declared.done.Done.{Done as Step};

use crate::rounds::make_rounds;
use call_script::{Plan, Schedule};
use net_units::{ActorNo, Gate, OutOfMemory};
use run_engine::{Callers, Engine, PlayFault, Watch, actor_of, make_watched, play_watched};
use run_record::Record;
use std::alloc::Global;
use std::thread::Threads;

/// Plays a schedule of a plan, and answers the record of its run: that to which [`play_watched`](run_engine::play_watched) comes,
/// whatever the number of workers, with the same fault. Where no schedule is written the plane's rounds are made by 1 to 16 workers: by
/// several where that pays, and otherwise by the thread of the call, as `play_watched` makes them. A written one is played step by step.
/// As a run of the plan it has the whole guarantee after each of its entries (`every_run_of_a_plan_is_guaranteed` of
/// `interleave_core`).
///
/// Where no schedule is written, whoever makes an ask of the plane calls the gate's `within` before it and `after` after it, once each,
/// with the ask's link and the plane. The ticks in which a link rests are made at once, after the calls for all of them.
pub fn played<R: Threads + Sync, G: Gate + Sync>(
    rt: &R,
    alloc: Global,
    plan: &Plan,
    schedule: &Schedule,
    workers: u32,
    gate: &G,
) -> Result<Record, PlayFault>
    requires workers { (1 ≤ workers) × (workers ≤ 16) }
    requires actors { Each (IsActorOf plan.now) schedule.now.items }
    ensures played { IfOk result (λ made. IsPlayed (network_of plan.now) schedule.now (reverse made.entries)) }
    ensures run { IfOk result (λ made. IsRun (network_of plan.now) (reverse made.entries)) }
    ensures fault { IfErr result (IsFaultOf (network_of plan.now) schedule.now) }
{
    let mut record = Record::new(alloc);
    played_watched(rt, alloc, plan, schedule, workers, gate, &mut record)?;
    Ok(record)
}

/// Plays a schedule of a plan as [`played`] does, shows the run to its watcher, and answers the callers after it: what
/// [`play_watched`](run_engine::play_watched) comes to, whatever the number of workers. The watcher sees the steps in the order
/// in which the plane asks for them, on the thread of the call. It has seen nothing before, and after an `Err` nothing is said of it.
pub fn played_watched<R: Threads + Sync, W: Watch, G: Gate + Sync>(
    rt: &R,
    alloc: Global,
    plan: &Plan,
    schedule: &Schedule,
    workers: u32,
    gate: &G,
    watch: &mut W,
) -> Result<Callers, PlayFault>
    requires workers { (1 ≤ workers) × (workers ≤ 16) }
    requires fresh { W.saw watch.old plan.now [] }
    requires actors { Each (IsActorOf plan.now) schedule.now.items }
    ensures played { IfOk result (λ callers. IsPlayedSeen W.saw plan.now schedule.now callers watch.new) }
    ensures table { OnOk result (W.has_table watch.new ≡ W.has_table watch.old) }
    ensures fault { IfErr result (IsFaultOf (network_of plan.now) schedule.now) }
{
    if schedule.written {
        return play_watched(alloc, plan, schedule, watch);
    }
    let mut engine = Engine::new(alloc, plan)?;
    play_callers(&mut engine, plan, watch)?;
    let engine = make_rounds(rt, alloc, plan, engine, workers as usize, gate, watch)?;
    Ok(engine.into_callers())
}

// Lets the callers in their order each make their steps.
fn play_callers<W: Watch>(
    engine: &mut Engine,
    plan: &Plan,
    watch: &mut W,
) -> Result<(), OutOfMemory>
    requires { WatchStands W.saw plan.now engine.old watch.old [] }
    ensures played { OnOk result (HavePlayedOut W.saw plan.now engine.new watch.new (length plan.now.callers)) }
    ensures table { OnOk result (W.has_table watch.new ≡ W.has_table watch.old) }
{
    for number in 0..plan.callers().len() {
        play_caller(engine, plan, watch, actor_of(number))?;
    }
    Ok(())
}

// Lets the caller make its steps until it has none left.
fn play_caller<W: Watch>(
    engine: &mut Engine,
    plan: &Plan,
    watch: &mut W,
    actor: ActorNo,
) -> Result<(), OutOfMemory>
    requires { (run : List Step) × WatchStands W.saw plan.now engine.old watch.old run }
    ensures out { OnOk result ((past : List Step) → WatchStands W.saw plan.now engine.old watch.old past → PlaysOut W.saw plan.now engine.new watch.new past actor) }
    ensures table { OnOk result (W.has_table watch.new ≡ W.has_table watch.old) }
{
    // a run has fewer steps
    for _ in 0..u64::MAX {
        match engine.next_ask(plan, actor) {
            Some((link, ask)) => make_watched(engine, watch, plan, actor, link, ask)?,
            None => return Ok(()),
        }
    }
    unreachable!()
}
