//! Denials, in the words of a report.
use link_steps::Refusal;
use relaxation::EndDenial;
use setup_protocol::{Deny, Verdict};
use std::alloc::{AllocError, Global};

/// The word of a verdict.
pub fn verdict_word(verdict: &Option<Verdict>) -> &'static str {
    match verdict {
        Some(Verdict::Accepted { .. }) => "accept",
        Some(Verdict::Denied(_)) => "deny",
        None => "pending",
    }
}

/// Why a request is denied, or nothing.
pub fn denial_text(alloc: Global, verdict: &Option<Verdict>) -> Result<String, AllocError> {
    match verdict {
        Some(Verdict::Denied(deny)) => deny_text(alloc, deny),
        _ => Ok(String::new(alloc)),
    }
}

// Why it is denied.
fn deny_text(alloc: Global, deny: &Deny) -> Result<String, AllocError> {
    match deny {
        Deny::End(EndDenial::Delay { sum, bound }) => format!(in alloc; "end delay {sum} {bound}"),
        Deny::End(EndDenial::Jitter { last, bound }) => {
            format!(in alloc; "end jitter {last} {bound}")
        }
        Deny::Hop { hop, refusal } => refusal_text(alloc, *hop, refusal),
    }
}

// Why a hop refuses it.
fn refusal_text(alloc: Global, hop: u8, refusal: &Refusal) -> Result<String, AllocError> {
    match refusal {
        Refusal::NoLevel { sum, bound } => format!(in alloc; "hop {hop} schedule {sum} {bound}"),
        Refusal::NoBuffer { need, free } => format!(in alloc; "hop {hop} buffer {need} {free}"),
        Refusal::TooWide { smax, cap } => format!(in alloc; "hop {hop} wide {smax} {cap}"),
        _ => format!(in alloc; "hop {hop}"),
    }
}

/// The place from 1 of the hop that refuses a request.
pub fn refusing_hop(verdict: &Option<Verdict>) -> Option<u8> {
    match verdict {
        Some(Verdict::Denied(Deny::Hop { hop, .. })) => Some(*hop),
        _ => None,
    }
}

/// Whether a hop refuses it since its buffer is too small.
pub(crate) fn is_for_buffer(verdict: &Option<Verdict>) -> bool {
    matches!(
        verdict,
        Some(Verdict::Denied(Deny::Hop {
            refusal: Refusal::NoBuffer { .. },
            ..
        }))
    )
}
