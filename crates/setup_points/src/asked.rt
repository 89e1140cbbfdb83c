//! What a request comes to where it is asked at a point of a schedule.
ghost use Rattle.std.specs.Prelude.{◌≡◌, ◌<◌, ◌++◌, [], IfOk, length, map};
ghost use Rattle.net_units.specs.Numbers.{level_number};
ghost use Rattle.call_script.specs.Tasks.{network_of};
ghost use Rattle.question_plans.specs.Kept.{changed_plan};
ghost use Rattle.run_engine.specs.schedules.Schedules.{FollowsTurns, repeated, turns_of};
ghost use Rattle.setup_protocol.specs.State.{outcome_of};
ghost use Rattle.setup_points.specs.Points.{GoesOn, IsAskedAt};
ghost use Rattle.setup_points.specs.Runs.{IsRunFor, run_in};

use crate::fault::PointFault;
use crate::front::items_until;
use crate::run::ScheduledRun;
use answer_tables::{HopRow, hop_rows};
use call_script::{Do, Dos, Plan, Schedule};
use net_units::{ActorNo, Level, OutOfMemory};
use question_plans::{Change, with_change};
use run_engine::PlayFault;
use setup_protocol::Verdict;
use std::alloc::Global;

/// What a request comes to, and the levels that its hops offer it, from the first on.
#[derive(Drop)]
pub struct Decided {
    pub verdict: Verdict,
    pub offers: Vec<Level>,
}

/// What the request of a number comes to, with what is wanted for one of the plan's requests, where it is asked after so many steps of these
/// items of a schedule: `start` is mostly what [`ScheduledRun::start_of`] answers. From there on its caller alone makes steps, until
/// the request is decided.
pub fn asked_at(
    alloc: Global,
    plan: &Plan,
    items: &[Do],
    start: usize,
    change: &Change,
    number: usize,
) -> Result<Decided, PointFault>
    requires inside { number < length plan.now.requests }
    ensures { IfOk result (λ decided. IsAskedAt (changed_plan change.now plan.now) items.now start number (outcome_of decided.verdict) (map level_number decided.offers.items)) }
{
    let changed = with_change(alloc, plan, change)?;
    decided_at(alloc, &changed, items, start, number)
}

// The hops of a request that is asked so, with what they offer there.
pub(crate) fn hops_at(
    alloc: Global,
    plan: &Plan,
    items: &[Do],
    start: usize,
    change: &Change,
    number: usize,
) -> Result<Vec<HopRow>, PointFault>
    requires inside { number < length plan.now.requests }
{
    let decided = asked_at(alloc, plan, items, start, change, number)?;
    let entry = &plan.requests()[number];
    Ok(hop_rows(alloc, entry, decided.offers.as_slice(), &None)?)
}

// The same, as the plan says.
fn decided_at(
    alloc: Global,
    plan: &Plan,
    items: &[Do],
    start: usize,
    number: usize,
) -> Result<Decided, PointFault>
    requires inside { number < length plan.now.requests }
    ensures { IfOk result (λ decided. IsAskedAt plan.now items.now start number (outcome_of decided.verdict) (map level_number decided.offers.items)) }
{
    let entry = &plan.requests()[number];
    let most = 2 * u64::from(entry.request.route.len());
    let front = items_until(alloc, items, start)?;
    let run = play_on(alloc, plan, &front, entry.caller, most)?;
    let Some(verdict) = run.verdict(plan, number) else {
        return Err(PointFault::Undecided);
    };
    let offers = run.offers(alloc, plan, number)?;
    Ok(Decided { verdict, offers })
}

// The run of these items, after which an actor makes so many steps, or as many as it has left.
fn play_on(
    alloc: Global,
    plan: &Plan,
    front: &[Do],
    actor: ActorNo,
    most: u64,
) -> Result<ScheduledRun, PointFault>
    ensures goes { IfOk result (λ run. GoesOn plan.now (turns_of front.now) actor (run_in run)) }
    ensures run { IfOk result (IsRunFor plan.now) }
{
    match play_front(alloc, plan, front, actor, most) {
        Ok(run) => Ok(run),
        Err(PlayFault::Memory) => Err(PointFault::Memory),
        Err(PlayFault::Step { made, .. }) => {
            let left = made.saturating_sub(steps_of(front, actor));
            let run = play_front(alloc, plan, front, actor, left)?;
            Ok(run)
        }
    }
}

// The run of these items, and then of so many steps of an actor.
pub(crate) fn play_front(
    alloc: Global,
    plan: &Plan,
    front: &[Do],
    actor: ActorNo,
    more: u64,
) -> Result<ScheduledRun, PlayFault>
    ensures follows { IfOk result (λ run. FollowsTurns (network_of plan.now) [] (turns_of front.now ++ repeated more actor) (run_in run)) }
    ensures run { IfOk result (IsRunFor plan.now) }
{
    let schedule = Schedule {
        written: true,
        items: Dos::new(followed(alloc, front, actor, more)?),
    };
    ScheduledRun::play(alloc, plan, &schedule)
}

// These items, and then so many steps of an actor.
fn followed(alloc: Global, front: &[Do], actor: ActorNo, more: u64) -> Result<Vec<Do>, OutOfMemory>
    ensures { IfOk result (λ items. turns_of items.items ≡ turns_of front.now ++ repeated more actor) }
{
    let mut items = Vec::new(alloc);
    items.extend_from_slice(front)?;
    items.push(Do {
        line: 0,
        actor,
        count: more,
    })?;
    Ok(items)
}

// How many steps these items ask of an actor.
pub(crate) fn steps_of(items: &[Do], actor: ActorNo) -> u64 {
    let mut steps: u64 = 0;
    for item in items {
        if item.actor.get() == actor.get() {
            steps = steps.saturating_add(item.count);
        }
    }
    steps
}
