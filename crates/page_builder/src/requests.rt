//! The facts of a request.
ghost use Rattle.std.specs.Prelude.{◌<◌, length};
ghost use Rattle.plan_answers.specs.Trials.{IsTrial};

use crate::trouble::Trouble;
use answer_tables::{
    HopRow, LeastJitter, Offer, RequestRow, hop_rows, least_delay_near, with_any_jitter,
};
use call_script::{Plan, RequestEntry};
use link_steps::Refusal;
use net_units::LinkNo;
use network_pictures::{Denial, Help, HopFacts, Outcome, RequestFacts, Terms};
use plan_answers::{Least, Trial};
use relaxation::EndDenial;
use setup_protocol::{Deny, Verdict};
use std::alloc::{AllocError, Global};

/// The facts of the request of a number, in a trial of the plan's requests alone. Where it is denied, the delay with which it would be accepted
/// is asked for only where that is wanted, since it takes further runs.
pub(crate) fn request_facts(
    alloc: Global,
    plan: &Plan,
    trial: &Trial,
    number: usize,
    wants_help: bool,
) -> Result<RequestFacts, Trouble>
    requires trial { IsTrial trial.now }
    requires tried { number < length trial.now.plan.requests }
    requires inside { number < length plan.now.requests }
{
    let row = row_of(alloc, trial, number)?;
    let hops = hops_of(alloc, plan, row.hops.as_slice())?;
    let outcome = outcome_of(alloc, plan, &row, number, wants_help)?;
    let entry = &plan.requests()[number];
    let tight = row.tight_link();
    Ok(RequestFacts {
        name: String::from_str(alloc, entry.name.as_str())?,
        terms: terms_of(entry),
        outcome,
        offered: row.offered(),
        tight: tight.map(|link: LinkNo| usize::from(link.get())),
        hops,
        packets: None,
        written: None,
    })
}

// The row of a request, without what it could have.
fn row_of(alloc: Global, trial: &Trial, number: usize) -> Result<RequestRow, Trouble>
    requires trial { IsTrial trial.now }
    requires tried { number < length trial.now.plan.requests }
{
    let verdict = trial.verdict(number);
    let offers = trial.offers(alloc, number)?;
    let entry = &trial.plan.requests()[number];
    let hops = hop_rows(alloc, entry, offers.as_slice(), &verdict)?;
    Ok(RequestRow {
        number,
        verdict,
        offers,
        hops,
        least: Least::Refused(None),
        jitter: LeastJitter::Refused(None),
    })
}

// What a request asks for.
fn terms_of(entry: &RequestEntry) -> Terms {
    let contract = &entry.request.contract;
    Terms {
        xmin: u64::from(contract.xmin()),
        xave: u64::from(contract.xave()),
        interval: u64::from(contract.interval()),
        smax: u64::from(contract.smax()),
        delay: entry.request.delay,
        jitter: entry.request.control.jitter(),
    }
}

// What it came to.
fn outcome_of(
    alloc: Global,
    plan: &Plan,
    row: &RequestRow,
    number: usize,
    wants_help: bool,
) -> Result<Outcome, Trouble>
    requires inside { number < length plan.now.requests }
{
    match &row.verdict {
        Some(Verdict::Accepted { delay, .. }) => Ok(Outcome::Accepted(*delay)),
        Some(Verdict::Denied(deny)) => {
            let help = if wants_help {
                help_for(alloc, plan, number, row.offered())?
            } else {
                Help::Unasked
            };
            Ok(Outcome::Denied {
                why: denial_of(deny),
                help,
            })
        }
        None => Ok(Outcome::Pending),
    }
}

// With what delay the request of a number would be accepted, whatever its jitter; what its hops offer in all is tried first.
fn help_for(
    alloc: Global,
    plan: &Plan,
    number: usize,
    offered: Option<u64>,
) -> Result<Help, Trouble>
    requires inside { number < length plan.now.requests }
{
    let loose = with_any_jitter(alloc, plan, number)?;
    if number >= loose.requests().len() {
        return Ok(Help::Unasked);
    }
    let near = offered.unwrap_or(0);
    match least_delay_near(alloc, &loose, number, near)? {
        Least::Delay(delay) => Ok(Help::Delay(delay)),
        Least::Refused(_) => Ok(Help::NoDelay),
    }
}

// Why it is denied.
fn denial_of(deny: &Deny) -> Denial {
    match deny {
        Deny::End(EndDenial::Delay { sum, .. }) => Denial::Delay { sum: *sum },
        Deny::End(EndDenial::Jitter { last, .. }) => Denial::Jitter { last: *last },
        Deny::Hop { hop, refusal } => refusal_of(u64::from(*hop), refusal),
    }
}

// Why a hop refuses it.
fn refusal_of(hop: u64, refusal: &Refusal) -> Denial {
    match refusal {
        Refusal::NoLevel { sum, bound } => Denial::Schedule {
            hop,
            sum: *sum,
            bound: *bound,
        },
        Refusal::NoBuffer { need, free } => Denial::Buffer {
            hop,
            need: *need,
            free: *free,
        },
        Refusal::TooWide { smax, cap } => Denial::Wide {
            hop,
            smax: *smax,
            cap: *cap,
        },
        _ => Denial::Hop { hop },
    }
}

// The hops.
fn hops_of(alloc: Global, plan: &Plan, rows: &[HopRow]) -> Result<Vec<HopFacts>, AllocError> {
    let mut hops = Vec::new(alloc);
    for row in rows {
        hops.push(HopFacts {
            link: usize::from(row.link.get()),
            offered: row
                .offer
                .map(|offer: Offer| (u64::from(offer.level.get()), offer.bound)),
            given: given_at(plan, row),
            prop: row.prop,
            worst: None,
        })?;
    }
    Ok(hops)
}

// The level that a hop gives, and its bound.
fn given_at(plan: &Plan, row: &HopRow) -> Option<(u64, u64)> {
    let level = row.gets?;
    let entry = plan.links().get(usize::from(row.link.get()))?;
    let bounds = &entry.shape.bounds;
    if level.get() > bounds.len() {
        return None;
    }
    Some((u64::from(level.get()), u64::from(bounds.at(level))))
}
