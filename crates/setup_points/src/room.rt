//! How many more like some of a plan's requests there is room for at the end of a schedule.
ghost use Rattle.std.specs.Prelude.{◌≡◌, ◌+◌, ◌<◌, ◌≤◌, ◌++◌, ◌∷◌, [], IfOk, IfSome, OnOk, length, map, reverse};
ghost use Rattle.answer_tables.specs.Together.{first_refused};
ghost use Rattle.run_engine.specs.schedules.Schedules.{turns_of};
ghost use Rattle.setup_points.specs.Rooms.{AreFollowedBy, GoOn, IsRoomAfter, IsTriedTogetherAfter, IsWithEachAfter, actor_among, openers, refused_in, steps_by};
ghost use Rattle.setup_points.specs.Runs.{IsRunFor, run_in};

use crate::asked::{play_front, steps_of};
use crate::fault::PointFault;
use crate::front::copied;
use crate::run::ScheduledRun;
use answer_tables::{
    Refusal, RoomTogether, Tried, TriesMore, hop_rows, number_of, room_tried, tight_link_of,
};
use call_script::{Do, Dos, Plan, Schedule};
use net_units::limits::MOST_CALLERS;
use net_units::{ActorNo, LinkNo, OutOfMemory};
use plan_answers::is_acceptance;
use question_plans::{Change, with_change, with_more_after};
use run_engine::{PlayFault, actor_of};
use setup_protocol::Verdict;
use std::alloc::Global;

/// How many more like the requests of these numbers, as many of each, are accepted once all of these items of a schedule are played: first all
/// copies of the first, then those of the second, and so on, each kind opened by one more caller. `Rule` tells 7 where there is no number or
/// one of no request, and 9 where the plan has no room for the callers.
pub fn room_after(
    alloc: Global,
    plan: &Plan,
    items: &[Do],
    numbers: &[usize],
) -> Result<RoomTogether, PointFault>
    ensures { IfOk result (IsRoomAfter plan.now items.now numbers.now) }
{
    let after = AfterItems {
        items: copied(alloc, items)?,
    };
    room_tried(alloc, plan, numbers, &after)
}

// Once these items of a schedule are played.
#[derive(Drop)]
pub(crate) struct AfterItems {
    items: Vec<Do>,
}

impl TriesMore<PointFault> for AfterItems {
    ghost use Rattle.setup_points.specs.Rooms.{IsTriedTogetherAfter};

    ghost tries = { λ after parts numbers count tried. IsTriedTogetherAfter parts after.items.items numbers count tried };

    fn tried(
        &self,
        alloc: Global,
        plan: &Plan,
        numbers: &[usize],
        count: usize,
    ) -> Result<Tried, PointFault> {
        tried_with(alloc, plan, self.items.as_slice(), numbers, count)
    }
}

// A request of a run that isn't accepted.
#[derive(Clone, Copy)]
pub(crate) struct Refused {
    // Its number.
    at: usize,
    // What it has come to.
    verdict: Option<Verdict>,
}

// What this many more of each come to.
fn tried_with(
    alloc: Global,
    plan: &Plan,
    items: &[Do],
    numbers: &[usize],
    count: usize,
) -> Result<Tried, PointFault>
    requires some { 0 < count }
    ensures { IfOk result (IsTriedTogetherAfter plan.now items.now numbers.now count) }
{
    let own = plan.requests().len();
    let made = with_each(alloc, plan, numbers, count)?;
    let run = run_after(alloc, plan, &made, items, numbers.len())?;
    match first_refused(&run, &made, own) {
        None => Ok(Tried::Accepted),
        Some(refused) => {
            let tight = tight_in(alloc, &made, &run, &refused)?;
            Ok(Tried::Refused(Refusal {
                number: number_of(numbers, refused.at - own, count),
                verdict: refused.verdict,
                tight,
            }))
        }
    }
}

// ---- the plan

// The plan with this many more like each of these, after all that its callers do.
fn with_each(
    alloc: Global,
    plan: &Plan,
    numbers: &[usize],
    count: usize,
) -> Result<Plan, PointFault>
    ensures { IfOk result (IsWithEachAfter plan.now (reverse numbers.now) count) }
{
    let mut made = with_change(alloc, plan, &Change::Nothing)?;
    for number in numbers {
        if *number >= plan.requests().len() {
            return Err(PointFault::Rule { rule: 7 });
        }
        made = with_more_after(alloc, &made, *number, count)?;
    }
    Ok(made)
}

// ---- the run

// The run of these items among so many callers more than a plan has, after which these make their steps, one after the other.
fn run_after(
    alloc: Global,
    plan: &Plan,
    made: &Plan,
    items: &[Do],
    kinds: usize,
) -> Result<ScheduledRun, PointFault>
    ensures goes { IfOk result (λ run. GoOn made.now (map (actor_among (length plan.now.callers) kinds) (turns_of items.now)) (openers (length plan.now.callers) kinds) (run_in run)) }
    ensures run { IfOk result (IsRunFor made.now) }
{
    let callers = plan.callers().len();
    if callers > MOST_CALLERS || kinds > MOST_CALLERS - callers {
        return Err(PointFault::Rule { rule: 9 });
    }
    let front = items_among(alloc, items, callers, kinds)?;
    let all = with_openers(alloc, made, front, callers, kinds)?;
    let schedule = Schedule {
        written: true,
        items: Dos::new(all),
    };
    Ok(ScheduledRun::play(alloc, made, &schedule)?)
}

// These items, and after them the steps that so many callers, from a number on, have left, one after the other.
fn with_openers(
    alloc: Global,
    plan: &Plan,
    front: Vec<Do>,
    first: usize,
    kinds: usize,
) -> Result<Vec<Do>, OutOfMemory>
    requires few { first + kinds ≤ 64 }
    ensures { IfOk result (λ items. AreFollowedBy (turns_of front.items) (openers first kinds) (turns_of items.items)) }
{
    let mut items = front;
    for kind in 0..kinds {
        let actor = actor_of(first + kind);
        let steps = steps_left(alloc, plan, items.as_slice(), actor)?;
        add_item(&mut items, actor, steps)?;
    }
    Ok(items)
}

// How many steps an actor has left after these items, at most as many as opening all requests of a plan takes.
fn steps_left(
    alloc: Global,
    plan: &Plan,
    items: &[Do],
    actor: ActorNo,
) -> Result<u64, OutOfMemory> {
    match play_front(alloc, plan, items, actor, MOST_STEPS) {
        Ok(_) => Ok(MOST_STEPS),
        Err(PlayFault::Memory) => Err(OutOfMemory),
        Err(PlayFault::Step { made, .. }) => Ok(made.saturating_sub(steps_of(items, actor))),
    }
}

// The most steps that opening takes: two at each of 16 hops, for each of 1,024 requests.
const MOST_STEPS: u64 = 32_768;

// These items among so many callers more than there are: the plane's number is higher by as many there.
fn items_among(
    alloc: Global,
    items: &[Do],
    callers: usize,
    more: usize,
) -> Result<Vec<Do>, OutOfMemory>
    requires few { callers + more ≤ 64 }
    ensures { IfOk result (λ made. turns_of made.items ≡ map (actor_among callers more) (turns_of items.now)) }
{
    let mut made = Vec::new(alloc);
    for item in items {
        add_item(
            &mut made,
            actor_among(item.actor, callers, more),
            item.count,
        )?;
    }
    Ok(made)
}

// Adds an item: so many steps of an actor.
fn add_item(items: &mut Vec<Do>, actor: ActorNo, count: u64) -> Result<(), OutOfMemory>
    ensures { OnOk result (items.new.items ≡ items.old.items ++ steps_by actor count ∷ []) }
{
    items.push(Do {
        line: 0,
        actor,
        count,
    })?;
    Ok(())
}

// An actor among so many callers more than there are.
fn actor_among(actor: ActorNo, callers: usize, more: usize) -> ActorNo
    requires few { callers + more ≤ 64 }
    ensures { result ≡ actor_among callers more actor }
{
    if usize::from(actor.get()) == callers {
        actor_of(callers + more)
    } else {
        actor
    }
}

// ---- the first that isn't accepted

// The first request, from this number on, that isn't accepted in a run.
fn first_refused(run: &ScheduledRun, plan: &Plan, first: usize) -> Option<Refused>
    requires run { IsRunFor plan.now run.now }
    ensures is { refused_in result ≡ first_refused (run_in run.now) first plan.now.requests }
    ensures from { IfSome result (λ refused. first ≤ refused.at) }
    ensures inside { IfSome result (λ refused. refused.at < length plan.now.requests) }
{
    for at in first..plan.requests().len() {
        let verdict = run.verdict(plan, at);
        if !is_acceptance(&verdict) {
            return Some(Refused { at, verdict });
        }
    }
    None
}

// The tight link of a request that isn't accepted in a run.
fn tight_in(
    alloc: Global,
    plan: &Plan,
    run: &ScheduledRun,
    refused: &Refused,
) -> Result<Option<LinkNo>, OutOfMemory>
    requires inside { refused.now.at < length plan.now.requests }
{
    let entry = &plan.requests()[refused.at];
    let offers = run.offers(alloc, plan, refused.at)?;
    let hops = hop_rows(alloc, entry, offers.as_slice(), &refused.verdict)?;
    Ok(tight_link_of(hops.as_slice(), &refused.verdict))
}
