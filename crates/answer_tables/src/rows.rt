//! The row of a request.
ghost use Rattle.std.specs.Prelude.{◌≡◌, ◌<◌, IfOk, length};
ghost use Rattle.question_plans.specs.Alone.{alone_of};
ghost use Rattle.plan_answers.specs.Delays.{IsLeast};
ghost use Rattle.plan_answers.specs.Trials.{IsTrial};
ghost use Rattle.answer_tables.specs.Jitters.{IsLeastJitter};
ghost use Rattle.answer_tables.specs.Rows.{IsRow, loosened, shortened};

use crate::hops::{HopRow, hop_rows};
use crate::nearest::{LeastJitter, least_delay_near, least_jitter_near};
use call_script::{BadPlan, Plan};
use net_units::limits::MOST_DELAY;
use net_units::{Level, LinkNo};
use plan_answers::{Least, Trial};
use question_plans::{Change, requests_alone};
use setup_protocol::{Control, Deny, Verdict};
use std::alloc::Global;

/// What a request comes to among a plan's requests alone, and what it could have.
#[derive(Drop)]
pub struct RequestRow {
    /// The request's number.
    pub number: usize,
    /// What it comes to: None where its setup doesn't end.
    pub verdict: Option<Verdict>,
    /// The levels that its hops offer, from the first on.
    pub offers: Vec<Level>,
    /// Its hops.
    pub hops: Vec<HopRow>,
    /// With what delay it would be accepted, whatever its jitter.
    pub least: Least,
    /// With what jitter it would be accepted with that delay, or with the delay that is wanted where there is none.
    pub jitter: LeastJitter,
}

impl RequestRow {
    /// The sum of the bounds that its hops offer and the propagations, in ticks, where all of them offer one.
    pub fn offered(&self) -> Option<u64> {
        sum_of(self.hops.as_slice())
    }

    /// Its tight hop, by its place from 0: the one that refuses it, or else the first of those that offer the largest bound.
    pub fn tight(&self) -> Option<usize> {
        tight_hop(self.hops.as_slice(), &self.verdict)
    }

    /// The link of that hop.
    pub fn tight_link(&self) -> Option<LinkNo> {
        tight_link_of(self.hops.as_slice(), &self.verdict)
    }
}

// The place of the tight hop of these, whose request has come to this.
fn tight_hop(hops: &[HopRow], verdict: &Option<Verdict>) -> Option<usize> {
    if let Some(Verdict::Denied(Deny::Hop { hop, .. })) = verdict {
        return usize::from(*hop).checked_sub(1);
    }
    largest_of(hops)
}

/// The link of the tight hop of these, whose request has come to this ([`RequestRow::tight_link`]).
pub fn tight_link_of(hops: &[HopRow], verdict: &Option<Verdict>) -> Option<LinkNo> {
    let hop = hops.get(tight_hop(hops, verdict)?)?;
    Some(hop.link)
}

// The sum of what is offered, where every hop offers.
fn sum_of(hops: &[HopRow]) -> Option<u64> {
    let last = hops.last()?;
    let offer = last.offer?;
    Some(offer.sum)
}

// The place of the first of the hops with the largest bound.
fn largest_of(hops: &[HopRow]) -> Option<usize> {
    let mut best = None;
    let mut most: u64 = 0;
    for place in 0..hops.len() {
        let bound = bound_of(&hops[place]);
        if bound > most {
            most = bound;
            best = Some(place);
        }
    }
    best
}

// The bound that a hop offers, or 0.
fn bound_of(hop: &HopRow) -> u64 {
    match &hop.offer {
        Some(offer) => offer.bound,
        None => 0,
    }
}

/// The row of the request of a number, in a trial of the plan's requests alone.
pub fn request_row(
    alloc: Global,
    plan: &Plan,
    trial: &Trial,
    number: usize,
) -> Result<RequestRow, BadPlan>
    requires trial { IsTrial trial.now }
    requires tried { number < length trial.now.plan.requests }
    requires inside { number < length plan.now.requests }
    ensures { IfOk result (IsRow plan.now trial.now number) }
{
    let verdict = trial.verdict(number);
    let offers = trial.offers(alloc, number)?;
    let hops = hop_rows(
        alloc,
        &trial.plan.requests()[number],
        offers.as_slice(),
        &verdict,
    )?;
    let near = near_offer(alloc, plan, number, hops.as_slice())?;
    let least = least_of(alloc, plan, number, near)?;
    let jitter = jitter_of(alloc, plan, number, near, &least)?;
    Ok(RequestRow {
        number,
        verdict,
        offers,
        hops,
        least,
        jitter,
    })
}

// With what delay it would be accepted, whatever its jitter.
fn least_of(alloc: Global, plan: &Plan, number: usize, near: Near) -> Result<Least, BadPlan>
    requires inside { number < length plan.now.requests }
    ensures { IfOk result (IsLeast (alone_of (loosened number plan.now.requests) plan.now) number) }
{
    let loose = with_any_jitter(alloc, plan, number)?;
    least_delay_near(alloc, &loose, number, near.sum)
}

/// A plan's requests alone, in which the request of a number, if it has jitter control, wants the largest jitter that may be asked for. So of this
/// plan all questions about its delay are answered whatever its jitter.
pub fn with_any_jitter(alloc: Global, plan: &Plan, number: usize) -> Result<Plan, BadPlan>
    requires inside { number < length plan.now.requests }
    ensures { IfOk result (λ made. made ≡ alone_of (loosened number plan.now.requests) plan.now) }
{
    requests_alone(alloc, plan, &loosened(plan, number))
}

/// The change by which a request whose jitter is controlled wants none that is short; none for another.
pub fn loosened(plan: &Plan, number: usize) -> Change
    requires inside { number < length plan.now.requests }
    ensures { result ≡ loosened number plan.now.requests }
{
    match plan.requests()[number].request.control {
        Control::Jitter(_) => Change::Jitter {
            number,
            jitter: MOST_DELAY,
        },
        Control::Rate => Change::Nothing,
    }
}

// With what jitter it would be accepted with its least delay, or with the delay that is wanted where there is none.
fn jitter_of(
    alloc: Global,
    plan: &Plan,
    number: usize,
    near: Near,
    least: &Least,
) -> Result<LeastJitter, BadPlan>
    requires inside { number < length plan.now.requests }
    ensures { IfOk result (IsLeastJitter (alone_of (shortened number least.now) plan.now) number) }
{
    let short = requests_alone(alloc, plan, &shortened(number, least))?;
    least_jitter_near(alloc, &short, number, near.last)
}

/// The change by which the request of a number wants its least delay; none where it has none.
pub fn shortened(number: usize, least: &Least) -> Change
    ensures { result ≡ shortened number least.now }
{
    match least {
        Least::Delay(delay) => Change::Delay {
            number,
            delay: *delay,
        },
        Least::Refused(_) => Change::Nothing,
    }
}

// The bound that the last hop offers, or 0.
fn last_bound(hops: &[HopRow]) -> u64 {
    match hops.last() {
        Some(hop) => bound_of(hop),
        None => 0,
    }
}

// What lies near a least delay and a least jitter: the sum of what the hops offer, and what the last offers; 0 where a hop offers nothing.
#[derive(Clone, Copy)]
pub(crate) struct Near {
    pub(crate) sum: u64,
    last: u64,
}

// What the hops of a request offer, with the delay that it wants or, where one refuses that, with a delay of a tick.
fn near_offer(alloc: Global, plan: &Plan, number: usize, hops: &[HopRow]) -> Result<Near, BadPlan> {
    if let Some(sum) = sum_of(hops) {
        let last = last_bound(hops);
        return Ok(Near { sum, last });
    }
    near_with(alloc, plan, number, 1)
}

// What the hops of a request offer with this delay.
pub(crate) fn near_with(
    alloc: Global,
    plan: &Plan,
    number: usize,
    delay: u64,
) -> Result<Near, BadPlan> {
    let change = Change::Delay { number, delay };
    let trial = Trial::play(alloc, requests_alone(alloc, plan, &change)?)?;
    if number >= trial.plan.requests().len() {
        return Ok(Near { sum: 0, last: 0 });
    }
    let offers = trial.offers(alloc, number)?;
    let hops = hop_rows(
        alloc,
        &trial.plan.requests()[number],
        offers.as_slice(),
        &None,
    )?;
    Ok(Near {
        sum: sum_of(hops.as_slice()).unwrap_or(0),
        last: last_bound(hops.as_slice()),
    })
}
