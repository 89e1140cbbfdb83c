//! Pairs of requests of which both are accepted, or neither is kept.
use crate::at::BadLine;
use crate::cut::{Closed, Closing, Pair};
use crate::refused::BadTimed;
use call_script::Plan;

/// The first pair, by its tick, of which one request alone was accepted, and of which none is closed yet, with the one to close. `accepted` says
/// of each request of the plan whether it was accepted.
pub fn next_broken(
    plan: &Plan,
    pairs: &[Pair],
    accepted: &[bool],
) -> Result<Option<Closing>, BadTimed> {
    let mut next: Option<Closing> = None;
    let mut least: u64 = 0;
    for pair in pairs {
        let Some(which) = one_alone(plan, pair, accepted)? else {
            continue;
        };
        if pair.closed.is_none() && (next.is_none() || pair.tick < least) {
            least = pair.tick;
            next = Some(Closing {
                line: pair.line,
                which,
            });
        }
    }
    Ok(next)
}

// The one request of a pair that was accepted, if the other wasn't.
fn one_alone(plan: &Plan, pair: &Pair, accepted: &[bool]) -> Result<Option<Closed>, BadTimed> {
    let first = is_accepted(plan, pair, pair.first.as_slice(), accepted)?;
    let second = is_accepted(plan, pair, pair.second.as_slice(), accepted)?;
    Ok(match (first, second) {
        (true, false) => Some(Closed::First),
        (false, true) => Some(Closed::Second),
        _ => None,
    })
}

// Whether the request of this name, which the pair's caller opens, was accepted.
fn is_accepted(plan: &Plan, pair: &Pair, name: &[u8], accepted: &[bool]) -> Result<bool, BadTimed> {
    for (entry, is) in plan.requests().iter().zip(accepted.iter()) {
        if entry.name.as_bytes() == name && usize::from(entry.caller.get()) == pair.caller {
            return Ok(*is);
        }
    }
    Err(BadTimed::Line {
        line: pair.line,
        why: BadLine::Pair,
    })
}
