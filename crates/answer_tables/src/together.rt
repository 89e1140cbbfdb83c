//! How many more like several requests together there is room for.
ghost use Rattle.std.specs.Prelude.{◌≡◌, ℕ, ◌+◌, ◌-◌, ◌*◌, ◌/◌, ◌<◌, ◌≤◌, List, Some, IfOk, IfSome, length, reverse};
ghost use Rattle.std.specs.List.{slice_get};
ghost use Rattle.call_script.specs.Parts.{PlanParts};
ghost use Rattle.plan_answers.specs.Trials.{IsTrial, run_in};
ghost use Rattle.answer_tables.specs.Together.{IsRoomOf, IsRoomTogether, IsTriedTogether, IsWithEach, LiesBetween, first_refused, refused_in};
ghost use Rattle.answer_tables.specs.declared.together.NextTogether.TheVariants.{Full};

use crate::asked::AmongRequests;
use crate::hops::hop_rows;
use crate::rows::tight_link_of;
use call_script::{BadPlan, Plan};
use net_units::limits::MOST_REQUESTS;
use net_units::{LinkNo, OutOfMemory};
use plan_answers::{Trial, is_acceptance};
use question_plans::{Change, requests_alone, with_more};
use setup_protocol::Verdict;
use std::alloc::Global;

/// Why there is no room for one more of each.
#[derive(Clone, Copy, Debug)]
pub enum NextTogether {
    /// The first copy that isn't accepted is one of this request, by its number, and comes to this: None where its setup doesn't end.
    /// Its tight link is this one.
    Refused {
        number: usize,
        verdict: Option<Verdict>,
        tight: Option<LinkNo>,
    },
    /// A plan has no more requests.
    Full,
}

/// How many more like several requests together there is room for.
#[derive(Clone, Copy, Debug)]
pub struct RoomTogether {
    /// That many of each are accepted after the plan's own requests.
    pub count: usize,
    /// Why one more of each isn't.
    pub next: NextTogether,
}

/// The first copy that isn't accepted.
#[derive(Clone, Copy, Debug)]
pub struct Refusal {
    /// The number of the request that it is a copy of.
    pub number: usize,
    /// What it has come to: None where its setup doesn't end.
    pub verdict: Option<Verdict>,
    /// Its tight link.
    pub tight: Option<LinkNo>,
}

/// What trying some more of each comes to.
#[derive(Clone, Copy, Debug)]
pub enum Tried {
    /// All of them are accepted.
    Accepted,
    /// This is the first that isn't.
    Refused(Refusal),
}

/// Where more requests like some of a plan's are tried.
pub trait TriesMore<F>: Drop {
    ghost use Rattle.answer_tables.specs.declared.together.Tried.{Tried};

    /// What as many more of each, of a plan's requests of these numbers, come to.
    ghost tries: { Self → PlanParts → List ℕ → ℕ → Tried → Type 0 };

    /// What this many more of each come to.
    fn tried(&self, alloc: Global, plan: &Plan, numbers: &[usize], count: usize) -> Result<Tried, F>
        requires some { 0 < count }
        ensures { IfOk result (tries self.now plan.now numbers.now count) };
}

impl TriesMore<BadPlan> for AmongRequests {
    ghost use Rattle.answer_tables.specs.Together.{IsTriedTogether};

    ghost tries = { λ _ parts numbers count tried. IsTriedTogether parts numbers count tried };

    fn tried(
        &self,
        alloc: Global,
        plan: &Plan,
        numbers: &[usize],
        count: usize,
    ) -> Result<Tried, BadPlan> {
        tried_with(alloc, plan, numbers, count)
    }
}

// A request of a trial that isn't accepted.
#[derive(Clone, Copy)]
pub(crate) struct Refused {
    // Its number.
    at: usize,
    // What it has come to.
    verdict: Option<Verdict>,
}

// Numbers between which the answer lies: this many more of each are all accepted, and of that many more of each `why` is the first that isn't.
#[derive(Clone, Copy)]
pub(crate) struct Between {
    accepted: usize,
    refused: usize,
    why: Refusal,
}

/// How many more like the requests of these numbers, as many of each, are accepted after the plan's own: first all copies of the first, then
/// those of the second, and so on, each kind opened by one more caller. `Broken` tells rule 7 where there is no number or one of no
/// request, and rule 9 where the plan has no room for the callers.
pub fn room_together(alloc: Global, plan: &Plan, numbers: &[usize]) -> Result<RoomTogether, BadPlan>
    ensures { IfOk result (IsRoomTogether plan.now numbers.now) }
{
    room_tried(alloc, plan, numbers, &AmongRequests)
}

/// The same of copies that are tried elsewhere.
pub fn room_tried<F: From<BadPlan>, T: TriesMore<F>>(
    alloc: Global,
    plan: &Plan,
    numbers: &[usize],
    more: &T,
) -> Result<RoomTogether, F>
    ensures { IfOk result (IsRoomOf (T.tries more.now plan.now numbers.now) plan.now numbers.now) }
{
    if numbers.is_empty() {
        return Err(F::from(NO_REQUEST));
    }
    let left = MOST_REQUESTS.saturating_sub(plan.requests().len());
    let most = left / numbers.len();
    if most == 0 {
        return Ok(full(most));
    }
    match more.tried(alloc, plan, numbers, most)? {
        Tried::Accepted => Ok(full(most)),
        Tried::Refused(why) => {
            let between = Between {
                accepted: 0,
                refused: most,
                why,
            };
            room_between(alloc, plan, numbers, more, between)
        }
    }
}

// No request has such a number.
const NO_REQUEST: BadPlan = BadPlan::Broken { rule: 7 };

// Room for all requests that a plan may have.
fn full(count: usize) -> RoomTogether
    ensures { result ≡ record { count = count; next = Full } }
{
    RoomTogether {
        count,
        next: NextTogether::Full,
    }
}

// The room between two numbers.
fn room_between<F, T: TriesMore<F>>(
    alloc: Global,
    plan: &Plan,
    numbers: &[usize],
    more: &T,
    between: Between,
) -> Result<RoomTogether, F>
    requires between { LiesBetween (T.tries more.now plan.now numbers.now) between }
    ensures { IfOk result (IsRoomOf (T.tries more.now plan.now numbers.now) plan.now numbers.now) }
{
    let mut left = between;
    while left.refused - left.accepted > 1 {
        left = halved(alloc, plan, numbers, more, left)?;
    }
    Ok(RoomTogether {
        count: left.accepted,
        next: NextTogether::Refused {
            number: left.why.number,
            verdict: left.why.verdict,
            tight: left.why.tight,
        },
    })
}

// What is left of these numbers once the one in their middle is tried.
fn halved<F, T: TriesMore<F>>(
    alloc: Global,
    plan: &Plan,
    numbers: &[usize],
    more: &T,
    between: Between,
) -> Result<Between, F>
    requires between { LiesBetween (T.tries more.now plan.now numbers.now) between }
    requires apart { between.accepted + 1 < between.refused }
    ensures between { IfOk result (LiesBetween (T.tries more.now plan.now numbers.now)) }
    ensures less { IfOk result (λ left. left.refused - left.accepted < between.refused - between.accepted) }
{
    let middle = between.accepted + (between.refused - between.accepted) / 2;
    match more.tried(alloc, plan, numbers, middle)? {
        Tried::Accepted => Ok(Between {
            accepted: middle,
            refused: between.refused,
            why: between.why,
        }),
        Tried::Refused(why) => Ok(Between {
            accepted: between.accepted,
            refused: middle,
            why,
        }),
    }
}

// What this many more of each come to.
fn tried_with(alloc: Global, plan: &Plan, numbers: &[usize], count: usize) -> Result<Tried, BadPlan>
    requires some { 0 < count }
    ensures { IfOk result (IsTriedTogether plan.now numbers.now count) }
{
    let own = plan.requests().len();
    let trial = Trial::play(alloc, with_each(alloc, plan, numbers, count)?)?;
    match first_refused(&trial, own) {
        None => Ok(Tried::Accepted),
        Some(refused) => {
            let tight = tight_in(alloc, &trial, &refused)?;
            Ok(Tried::Refused(Refusal {
                number: number_of(numbers, refused.at - own, count),
                verdict: refused.verdict,
                tight,
            }))
        }
    }
}

// The plan's requests alone, with this many more like each of these.
fn with_each(alloc: Global, plan: &Plan, numbers: &[usize], count: usize) -> Result<Plan, BadPlan>
    ensures { IfOk result (IsWithEach plan.now (reverse numbers.now) count) }
{
    let mut made = requests_alone(alloc, plan, &Change::Nothing)?;
    for number in numbers {
        if *number >= plan.requests().len() {
            return Err(NO_REQUEST);
        }
        made = with_more(alloc, &made, *number, count)?;
    }
    Ok(made)
}

// The first request of a trial, from this number on, that isn't accepted.
fn first_refused(trial: &Trial, first: usize) -> Option<Refused>
    requires trial { IsTrial trial.now }
    ensures is { refused_in result ≡ first_refused (run_in trial.now) first trial.now.plan.requests }
    ensures from { IfSome result (λ refused. first ≤ refused.at) }
    ensures inside { IfSome result (λ refused. refused.at < length trial.now.plan.requests) }
{
    for at in first..trial.plan.requests().len() {
        let verdict = trial.verdict(at);
        if !is_acceptance(&verdict) {
            return Some(Refused { at, verdict });
        }
    }
    None
}

/// Which of these requests the copy at a place, from 0, is like, where there are this many copies of each.
pub fn number_of(numbers: &[usize], place: usize, count: usize) -> usize
    requires some { 0 < count }
    requires inside { place < length numbers.now * count }
    ensures { slice_get numbers.now (place / count) ≡ Some result }
{
    numbers[place / count]
}

// The tight link of a request that isn't accepted in a trial.
fn tight_in(alloc: Global, trial: &Trial, refused: &Refused) -> Result<Option<LinkNo>, OutOfMemory>
    requires inside { refused.now.at < length trial.now.plan.requests }
{
    let entry = &trial.plan.requests()[refused.at];
    let offers = trial.offers(alloc, refused.at)?;
    let hops = hop_rows(alloc, entry, offers.as_slice(), &refused.verdict)?;
    Ok(tight_link_of(hops.as_slice(), &refused.verdict))
}
