//! Where a scenario's lines have their numbers.
use crate::fields::{Span, is_field};
use crate::wanted::{Where, has_pattern};
use std::alloc::Global;

/// The kinds of lines that a change may name.
pub(crate) const KINDS: [&'static str; 5] = ["link", "open", "send", "quota", "pour"];

/// Some fields of a line, by their numbers from 0; `last` is one of them.
#[derive(Clone, Copy)]
pub(crate) struct Run {
    pub(crate) first: usize,
    pub(crate) last: usize,
}

/// Whether a line is of the kind and the name that are wanted. A share of a link and a pour are wanted by their kind alone.
pub(crate) fn is_named(line: &[u8], fields: &[Span], wanted: &Where) -> bool {
    let Some(name) = wanted.name else {
        return is_field(line, fields, 0, wanted.field.as_bytes());
    };
    let is_kind = match wanted.kind {
        Some(kind) => is_field(line, fields, 0, kind.as_bytes()),
        None => is_field(line, fields, 0, b"link")
            || is_field(line, fields, 0, b"open")
            || is_field(line, fields, 0, b"send"),
    };
    is_kind && has_name(line, fields, name)
}

// Whether a line has a name of this pattern: its second field, or of a share of a link LINK.GROUP.
fn has_name(line: &[u8], fields: &[Span], pattern: &str) -> bool {
    let Some(field) = fields.get(1) else {
        return false;
    };
    match pattern.split_once('.') {
        Some((link, group)) => match fields.get(2) {
            Some(share) => is_field(line, fields, 0, b"quota")
                && has_pattern(field.of(line), link)
                && has_pattern(share.of(line), group),
            None => false,
        },
        None => has_pattern(field.of(line), pattern),
    }
}

/// Where a line has the numbers of a field.
pub(crate) fn run_of(line: &[u8], fields: &[Span], wanted: &Where) -> Option<Run> {
    let field = wanted.field;
    let run = if wanted.name.is_none() {
        if field == "rounds" || field == "tail" {
            Some(one(1))
        } else {
            None
        }
    } else if is_field(line, fields, 0, b"link") {
        run_of_link(line, fields, field)
    } else if is_field(line, fields, 0, b"quota") {
        run_of_quota(fields, field)
    } else if is_field(line, fields, 0, b"open") {
        run_of_open(line, fields, field)
    } else {
        run_of_send(field)
    };
    let run = run?;
    if run.first <= run.last && run.last < fields.len() {
        Some(run)
    } else {
        None
    }
}

// One field.
fn one(number: usize) -> Run {
    Run {
        first: number,
        last: number,
    }
}

// A field of a link.
fn run_of_link(line: &[u8], fields: &[Span], field: &str) -> Option<Run> {
    let has_best = is_field(line, fields, 12, b"best");
    let levels = if has_best { 15 } else { 13 };
    match field {
        "rate" => Some(one(5)),
        "cap" => Some(one(7)),
        "prop" => Some(one(9)),
        "buffer" => Some(one(11)),
        "best" if has_best => Some(one(13)),
        "levels" => all_after(fields, levels),
        _ => level_of(field, b'D', b'd', levels),
    }
}

// A field of a group's share of a link.
fn run_of_quota(fields: &[Span], field: &str) -> Option<Run> {
    match field {
        "buffer" => Some(one(4)),
        "levels" => all_after(fields, 6),
        _ => level_of(field, b'Q', b'q', 6),
    }
}

// All fields from one on.
fn all_after(fields: &[Span], first: usize) -> Option<Run> {
    let last = fields.len().checked_sub(1)?;
    Some(Run { first, last })
}

// The field of a level, whose letter is this one, where the first level has this field.
fn level_of(field: &str, letter: u8, small: u8, first: usize) -> Option<Run> {
    let [head, digit] = field.as_bytes() else {
        return None;
    };
    if (*head != letter && *head != small) || *digit < b'1' || *digit > b'8' {
        return None;
    }
    let number = usize::from(digit.saturating_sub(b'1'));
    Some(one(first.saturating_add(number)))
}

// A field of a request.
fn run_of_open(line: &[u8], fields: &[Span], field: &str) -> Option<Run> {
    let contract = contract_in(line, fields)?;
    match field {
        "xmin" | "XMIN" => Some(one(contract.saturating_add(1))),
        "xave" | "XAVE" => Some(one(contract.saturating_add(2))),
        "i" | "I" => Some(one(contract.saturating_add(3))),
        "smax" | "SMAX" => Some(one(contract.saturating_add(4))),
        "delay" => Some(one(contract.saturating_add(6))),
        "jitter" if is_field(line, fields, contract.saturating_add(7), b"jitter") => Some(one(
            contract.saturating_add(8),
        )),
        _ => None,
    }
}

// The number of the word `contract`, which no name is.
fn contract_in(line: &[u8], fields: &[Span]) -> Option<usize> {
    for number in 2..fields.len() {
        if is_field(line, fields, number, b"contract") {
            return Some(number);
        }
    }
    None
}

// A field of a send or of a pour.
fn run_of_send(field: &str) -> Option<Run> {
    match field {
        "count" => Some(one(2)),
        "gap" => Some(one(3)),
        "size" => Some(one(4)),
        _ => None,
    }
}

/// The fields of a line, in words.
pub(crate) fn fields_text(line: &[u8], fields: &[Span]) -> &'static str {
    if is_field(line, fields, 0, b"link") {
        LINK_FIELDS
    } else if is_field(line, fields, 0, b"quota") {
        QUOTA_FIELDS
    } else if is_field(line, fields, 0, b"open") {
        REQUEST_FIELDS
    } else {
        SEND_FIELDS
    }
}

const LINK_FIELDS: &str =
    "a link has rate, cap, prop, buffer, best (where it has one), levels and D1 to D8";

const QUOTA_FIELDS: &str = "a quota has buffer, levels and Q1 to Q8";

const REQUEST_FIELDS: &str =
    "a request has xmin, xave, i, smax, delay and jitter (where it has one)";

const SEND_FIELDS: &str = "a send or a pour has count, gap and size";
