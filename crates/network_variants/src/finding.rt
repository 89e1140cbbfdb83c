//! Where the changes of a file have their places.
use crate::bad::{BadChange, refused, refused_word};
use crate::fields::{Span, fields_of, is_field};
use crate::scenario::{KINDS, fields_text, is_named, run_of};
use crate::values::Kind;
use crate::wanted::{Where, sides_of, where_of};
use std::alloc::{AllocError, Global};

/// A place of a change, of a number, in the line of a number, both from 0.
#[derive(Clone, Copy, Debug)]
pub(crate) struct Mark {
    pub(crate) line: usize,
    pub(crate) span: Span,
    pub(crate) change: usize,
}

/// The places of all changes, by their lines and in each from left to right, and what each change puts there.
#[derive(Drop)]
pub(crate) struct Found {
    pub(crate) marks: Vec<Mark>,
    pub(crate) kinds: Vec<Kind>,
}

/// The places of all changes of a scenario.
pub(crate) fn found_in_scenario(
    alloc: Global,
    lines: &[Vec<u8>],
    words: &[String],
) -> Result<Found, BadChange> {
    let mut marks = Vec::new(alloc);
    let mut kinds = Vec::new(alloc);
    let mut change: usize = 0;
    for word in words {
        let (left, _) = sides_of(alloc, change, word.as_str())?;
        let wanted = where_of(left, &KINDS);
        let before = marks.len();
        add_marks(alloc, &mut marks, lines, &wanted, change)?;
        if marks.len() == before {
            return Err(nothing_named(alloc, lines, &wanted, change));
        }
        let is_levels = wanted.field == "levels";
        kinds.push(if is_levels {
            Kind::Levels
        } else {
            Kind::Number
        })?;
        change = change.saturating_add(1);
    }
    let marks = in_order(alloc, marks, words)?;
    Ok(Found { marks, kinds })
}

// Adds the places of a change.
fn add_marks(
    alloc: Global,
    marks: &mut Vec<Mark>,
    lines: &[Vec<u8>],
    wanted: &Where,
    change: usize,
) -> Result<(), AllocError> {
    let mut number: usize = 0;
    for line in lines {
        let line = line.as_slice();
        let fields = fields_of(alloc, line)?;
        if let Some(span) = span_of(line, fields.as_slice(), wanted) {
            marks.push(Mark {
                line: number,
                span,
                change,
            })?;
        }
        number = number.saturating_add(1);
    }
    Ok(())
}

// What a line has of a change.
fn span_of(line: &[u8], fields: &[Span], wanted: &Where) -> Option<Span> {
    if !is_named(line, fields, wanted) {
        return None;
    }
    let run = run_of(line, fields, wanted)?;
    let first = fields.get(run.first)?;
    let last = fields.get(run.last)?;
    Some(Span {
        start: first.start,
        end: last.end,
    })
}

/// Marks in the order of their places, none of which has a part of another one.
pub(crate) fn in_order(
    alloc: Global,
    marks: Vec<Mark>,
    words: &[String],
) -> Result<Vec<Mark>, BadChange> {
    let mut marks = marks;
    marks.sort_by_key(|mark| (mark.line, mark.span.start))?;
    let mut line: usize = 0;
    let mut end: usize = 0;
    let mut change: usize = 0;
    for mark in &marks {
        if mark.line == line && mark.span.start < end {
            return Err(changed_twice(alloc, words, change.max(mark.change)));
        }
        line = mark.line;
        end = mark.span.end;
        change = mark.change;
    }
    Ok(marks)
}

// Two changes have the same place.
fn changed_twice(alloc: Global, words: &[String], change: usize) -> BadChange {
    let word = match words.get(change) {
        Some(word) => word.as_str(),
        None => "",
    };
    refused_word(
        alloc,
        change,
        "another change has a place of ",
        word,
        " already; one of them has to go, or to name less",
    )
}

// A change names nothing in the file.
fn nothing_named(alloc: Global, lines: &[Vec<u8>], wanted: &Where, change: usize) -> BadChange {
    if wanted.name.is_none() {
        return refused_word(
            alloc,
            change,
            "the scenario has no line ",
            wanted.field,
            " with a number; wanted is NAME.FIELD, as in L34.D1, or rounds or tail",
        );
    }
    match why_nothing(alloc, lines, wanted) {
        Ok(why) => refused(alloc, change, why.as_str()),
        Err(AllocError) => BadChange::Memory,
    }
}

// Why it names nothing: what has the name has no such field, or nothing has the name.
fn why_nothing(alloc: Global, lines: &[Vec<u8>], wanted: &Where) -> Result<String, AllocError> {
    let (name, field) = (wanted.name.unwrap_or(""), wanted.field);
    for line in lines {
        let line = line.as_slice();
        let fields = fields_of(alloc, line)?;
        if is_named(line, fields.as_slice(), wanted) {
            let has = fields_text(line, fields.as_slice());
            return format!(in alloc; "{name} has no {field}; {has}");
        }
    }
    let kind = wanted.kind.unwrap_or("link or request");
    let mut text = format!(in alloc; "the scenario has no {kind} {name}; it has ")?;
    add_names(alloc, &mut text, lines)?;
    Ok(text)
}

// The most names that are shown.
const MOST_NAMES: usize = 16;

// Adds the names of links and requests.
fn add_names(alloc: Global, text: &mut String, lines: &[Vec<u8>]) -> Result<(), AllocError> {
    let mut count: usize = 0;
    for line in lines {
        let line = line.as_slice();
        let fields = fields_of(alloc, line)?;
        let fields = fields.as_slice();
        if !is_field(line, fields, 0, b"link") && !is_field(line, fields, 0, b"open") {
            continue;
        }
        if count > 0 {
            text.push_str(", ")?;
        }
        if count == MOST_NAMES {
            text.push_str("..")?;
            return Ok(());
        }
        count = count.saturating_add(1);
        if let Some(field) = fields.get(1) {
            let name = String::from_utf8_lossy(alloc, field.of(line))?;
            text.push_str(name.as_str())?;
        }
    }
    if count == 0 {
        text.push_str("none")?;
    }
    Ok(())
}
