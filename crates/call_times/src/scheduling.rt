//! The schedule in which each operation comes at its tick.
ghost use Rattle.std.specs.Prelude.{◌≡◌, ◌≤◌, ◌⊎◌, ℕ, None, Some, List, IfOk, IfSome, OnOk, length};
ghost use Rattle.call_script.specs.Tasks.{network_of};
ghost use Rattle.run_engine.specs.runs.Runs.{next_for};
ghost use Rattle.run_engine.specs.schedules.Standing.{EngineStands};
ghost use Rattle.run_record.specs.declared.done.Done.{Done as Entry};
ghost use Rattle.call_times.specs.Makings.{IsBetween, IsDue, IsOperationAt};
ghost use Rattle.call_times.specs.OnTime.{IsScheduleAt};
ghost use Rattle.call_times.specs.declared.times.Times.{Times as Given};

use crate::making::Making;
use crate::operations::{Established, make_operation};
use crate::times::{Times, TimesFault};
use call_script::{Dos, Op, Plan, Schedule};
use net_units::OutOfMemory;
use run_engine::{Engine, actor_of};
use std::alloc::Global;

/// A schedule of operations that have ticks.
#[derive(Drop)]
pub struct Made {
    /// It is written, and its items have no lines. No item has more steps than one may have.
    pub schedule: Schedule,
    /// For each item the tick before whose round it begins.
    pub ticks: Vec<u64>,
    /// For each request whether it was accepted.
    pub accepted: Vec<bool>,
}

// An operation whose turn it is.
#[derive(Clone, Copy)]
pub(crate) struct Due {
    pub(crate) tick: u64,
    pub(crate) caller: usize,
    pub(crate) place: usize,
}

/// The schedule of a plan in which each operation of a caller comes just before the plane's round of its tick, whole: the rounds before
/// that one are complete, and none of its steps is made. Operations of one tick come in the order of the callers, and those of one caller
/// in its own. After the last one the plane makes the rounds that are left.
///
/// There is a list of ticks for each caller, one for each of its operations, which don't fall and don't exceed the plan's rounds with its
/// tail; otherwise the first operation that breaks this is refused.
pub fn schedule_at(alloc: Global, plan: &Plan, times: &[Times]) -> Result<Made, TimesFault>
    ensures { IfOk result (λ made. IsScheduleAt plan.now times.now made.schedule) }
{
    let mut making = Making::new(alloc, plan)?;
    let mut established = Established::none(alloc, plan.requests().len())?;
    let mut places = vec![in alloc; 0usize; plan.callers().len()]?;
    // there are fewer operations
    for _ in 0..u64::MAX {
        match next_due(plan, times, places.as_slice())? {
            Some(due) => {
                make_due(&mut making, plan, &due, &mut established)?;
                go_on(&mut places, due.caller);
            }
            None => break,
        }
    }
    finished(making, established, plan)
}

// The caller has made one more operation.
fn go_on(places: &mut Vec<usize>, caller: usize) {
    if let Some(place) = places.get_mut(caller) {
        *place = place.saturating_add(1);
    }
}

// The operation that comes next: of the callers' next ones the first of those with the least tick.
fn next_due(plan: &Plan, times: &[Times], places: &[usize]) -> Result<Option<Due>, TimesFault>
    ensures { IfOk result (λ next. IfSome next (IsDue times.now)) }
{
    let mut next: Option<Due> = None;
    for caller in 0..plan.callers().len() {
        if let Some(due) = due_of(plan, times, caller, place_of(places, caller))? {
            next = Some(earlier(next, due));
        }
    }
    Ok(next)
}

// The place of a caller's next operation.
fn place_of(places: &[usize], caller: usize) -> usize {
    match places.get(caller) {
        Some(place) => *place,
        None => 0,
    }
}

// The operation of a caller at this place with its tick: None where it has no more.
fn due_of(
    plan: &Plan,
    times: &[Times],
    caller: usize,
    place: usize,
) -> Result<Option<Due>, TimesFault>
    ensures { IfOk result (λ next. IfSome next (IsDue times.now)) }
{
    match plan.callers().get(caller) {
        Some(entry) if place < entry.ops.as_slice().len() => match times.get(caller) {
            Some(own) => match own.ticks.get(place) {
                Some(tick) => Ok(Some(Due {
                    tick: *tick,
                    caller,
                    place,
                })),
                None => Err(TimesFault::Missing { caller, place }),
            },
            None => Err(TimesFault::Missing { caller, place }),
        },
        _ => Ok(None),
    }
}

// The earlier of two, the first where they have one tick.
fn earlier(first: Option<Due>, other: Due) -> Due
    ensures { (first ≡ Some result) ⊎ (result ≡ other) }
{
    match first {
        Some(due) if due.tick <= other.tick => due,
        _ => other,
    }
}

// Makes an operation before the round of its tick.
fn make_due(
    making: &mut Making,
    plan: &Plan,
    due: &Due,
    established: &mut Established,
) -> Result<(), TimesFault>
    requires { (times : List Given) × IsBetween plan.now times making.old × IsDue times due.now }
    ensures { OnOk result ((times : List Given) → IsBetween plan.now times making.old → IsDue times due.now → IsBetween plan.now times making.new) }
{
    let Due {
        tick,
        caller,
        place,
    } = *due;
    if !making.play_to(plan, tick)? {
        let rounds = making.engine.round();
        return Err(TimesFault::Late {
            caller,
            place,
            rounds,
        });
    }
    if making.engine.round() != tick {
        return Err(TimesFault::Falls { caller, place });
    }
    match operation_at(plan, caller, place) {
        Some(op) => {
            make_operation(making, plan, actor_of(caller), &op, established)?;
            Ok(())
        }
        None => Err(TimesFault::Missing { caller, place }),
    }
}

// The operation of a caller at this place.
fn operation_at(plan: &Plan, caller: usize, place: usize) -> Option<Op>
    ensures { IfSome result (IsOperationAt plan.now caller place) }
{
    match plan.callers().get(caller) {
        Some(entry) => match entry.ops.as_slice().get(place) {
            Some(op) => Some(*op),
            None => None,
        },
        None => None,
    }
}

// The schedule after the last operation: the plane makes the rounds that are left, and then nobody has a step left.
fn finished(making: Making, established: Established, plan: &Plan) -> Result<Made, TimesFault>
    requires { (times : List Given) × IsBetween plan.now times making }
    ensures { IfOk result (λ made. (times : List Given) → IsBetween plan.now times making → IsScheduleAt plan.now times made.schedule) }
{
    let mut making = making;
    making.play_to(plan, u64::MAX)?;
    making.end_item()?;
    check_over(&making.engine, plan)?;
    let Making { items, ticks, .. } = making;
    let Established { accepted, .. } = established;
    Ok(Made {
        schedule: Schedule {
            written: true,
            items: Dos::new(items),
        },
        ticks,
        accepted,
    })
}

// Refuses an actor that has a step left.
fn check_over(engine: &Engine, plan: &Plan) -> Result<(), TimesFault>
    requires { (run : List Entry) × EngineStands plan.now engine.now run }
    ensures { OnOk result ((run : List Entry) → EngineStands plan.now engine.now run → (actor : ℕ) → actor ≤ length plan.now.callers → next_for (network_of plan.now) actor run ≡ None) }
{
    for number in 0..plan.callers().len() + 1 {
        if engine.next_ask(plan, actor_of(number)).is_some() {
            return Err(TimesFault::Left { actor: number });
        }
    }
    Ok(())
}
