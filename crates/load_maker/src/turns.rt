//! The run of a plan by turns.
ghost use Rattle.std.specs.Prelude.{◌≡◌, ◌+◌, ◌%◌, ◌≤◌, ◌<◌, true, [], List, IfOk, IfSome, IfNone, OnOk, length, reverse};
ghost use Rattle.net_units.specs.Numbers.{actor_number};
ghost use Rattle.call_script.specs.Tasks.{network_of};
ghost use Rattle.run_engine.specs.schedules.Watching.{WatchStands};
ghost use Rattle.load_maker.specs.TurnRuns.{IsTurnsRun, NobodyIsLeft, TurnsMakeOneRun};
ghost use Rattle.load_maker.specs.SeenTurns.{HaveTurned, IsCircleAt, IsTurnOf, IsTurnsSeen};
ghost use Rattle.run_record.specs.declared.done.Done.{Done as Entry};

use call_script::Plan;
use link_steps::Ask;
use net_units::{ActorNo, LinkNo, OutOfMemory};
use run_engine::{Callers, Engine, Watch, actor_of, make_watched, play_plane};
use run_record::Record;
use std::alloc::Global;

/// Lets the callers of a plan, in their order, and then the plane make one step each, again and again until nobody has a step left,
/// and answers the record of that run. An actor that has no step left is passed over. An `Err` comes only for want of memory.
///
/// As a run of the plan it has the whole guarantee at its beginning and after each of its entries
/// (`every_run_of_a_plan_is_guaranteed` of `interleave_core`).
pub fn take_turns(alloc: Global, plan: &Plan) -> Result<Record, OutOfMemory>
    ensures { IfOk result (λ made. IsTurnsRun (network_of plan.now) (reverse made.entries)) }
{
    let mut record = Record::new(alloc);
    take_watched_turns(alloc, plan, &mut record)?;
    Ok(record)
}

/// Lets the actors of a plan make their steps in turn as [`take_turns`] does, shows each step to the watcher of the run, and answers
/// the callers after it. The watcher has seen nothing before. After an `Err`, which comes only for want of memory, nothing is said of
/// it.
pub fn take_watched_turns<W: Watch>(
    alloc: Global,
    plan: &Plan,
    watch: &mut W,
) -> Result<Callers, OutOfMemory>
    requires { W.saw watch.old plan.now [] }
    ensures turns { IfOk result (λ callers. IsTurnsSeen W.saw plan.now callers watch.new) }
    ensures table { OnOk result (W.has_table watch.new ≡ W.has_table watch.old) }
{
    let mut engine = Engine::new(alloc, plan)?;
    make_turns(&mut engine, watch, plan)?;
    Ok(engine.into_callers())
}

// Lets the actors make their steps in turn, until nobody has one left.
fn make_turns<W: Watch>(engine: &mut Engine, watch: &mut W, plan: &Plan) -> Result<(), OutOfMemory>
    requires { WatchStands W.saw plan.now engine.old watch.old [] }
    ensures turns { OnOk result (HaveTurned W.saw plan.now engine.new watch.new) }
    ensures table { OnOk result (W.has_table watch.new ≡ W.has_table watch.old) }
{
    let mut next = 0;
    // a run has fewer steps
    for _ in 0..u64::MAX {
        match turn(engine, plan, next) {
            Some((actor, link, ask)) => {
                if is_plane_alone(plan, next, actor) {
                    return play_plane(engine, watch, plan);
                }
                make_watched(engine, watch, plan, actor, link, ask)?;
                next = usize::from(actor.get()) + 1;
            }
            None => return Ok(()),
        }
    }
    unreachable!()
}

// The actor whose turn it is, where the circle goes on at this number, and what it asks of which link.
fn turn(engine: &Engine, plan: &Plan, next: usize) -> Option<(ActorNo, LinkNo, Ask)>
    requires stands { (run : List Entry) × IsCircleAt plan.now engine.now next run }
    requires within { next ≤ 65 }
    ensures some { IfSome result (λ turn. (run : List Entry) → IsCircleAt plan.now engine.now next run → IsTurnOf plan.now run turn.0 turn.1 turn.2) }
    ensures none { IfNone result ((run : List Entry) → IsCircleAt plan.now engine.now next run → NobodyIsLeft (network_of plan.now) run) }
{
    let actors = plan.callers().len() + 1;
    for passed in 0..actors {
        let actor = actor_of((next + passed) % actors);
        if let Some((link, ask)) = engine.next_ask(plan, actor) {
            return Some((actor, link, ask));
        }
    }
    None
}

// Whether the plane alone has steps left, where the circle goes on at this number and the turn is this actor's: then all callers are
// passed over.
fn is_plane_alone(plan: &Plan, next: usize, actor: ActorNo) -> bool
    ensures plane { result ≡ true → actor_number actor ≡ length plan.now.callers }
    ensures first { result ≡ true → next % (length plan.now.callers + 1) ≡ 0 }
{
    let callers = plan.callers().len();
    usize::from(actor.get()) == callers && next % (callers + 1) == 0
}

/// A plan has a run by turns, and only one.
pub fn turns_make_one_run()
    ensures { TurnsMakeOneRun }
{}
