//! A file as lines, and a line with its places.
ghost use Rattle.std.specs.Prelude.{◌≡◌, ◌<◌, ◌≤◌, IfOk, length, map};
ghost use Rattle.network_variants.specs.Joined.{joined};
ghost use Rattle.network_variants.specs.Variants.{own_of, line_in};

use crate::finding::Mark;
use crate::variants::{Line, Place};
use std::alloc::{AllocError, Global};

/// The lines of a file, each with its line feed.
pub(crate) fn lines_of(alloc: Global, file: &[u8]) -> Result<Vec<Vec<u8>>, AllocError>
    ensures { IfOk result (λ lines. joined (map (λ line. line.items) lines.items) ≡ file.now) }
{
    let mut lines = Vec::new(alloc);
    let mut rest = file;
    while !rest.is_empty() {
        let (line, tail) = rest.split_at(first_line(rest));
        lines.push(Vec::from_slice(alloc, line)?)?;
        rest = tail;
    }
    Ok(lines)
}

// How long the first line is, with its line feed.
fn first_line(bytes: &[u8]) -> usize
    ensures most { result ≤ length bytes.now }
    ensures some { 0 < length bytes.now → 1 ≤ result }
{
    for at in 0..bytes.len() {
        if bytes[at] == b'\n' {
            return at + 1;
        }
    }
    bytes.len()
}

/// A line with a place for each of these marks that is on the line of this number. The marks of a line stand from left to right.
pub(crate) fn cut(
    alloc: Global,
    line: &[u8],
    number: usize,
    marks: &[Mark],
) -> Result<Line, AllocError>
    ensures { IfOk result (λ made. line_in own_of made ≡ line.now) }
{
    let mut places = Vec::new(alloc);
    let mut rest = line;
    let mut at: usize = 0;
    for mark in marks {
        if mark.line != number {
            continue;
        }
        let (Some(before), Some(long)) = (
            mark.span.start.checked_sub(at),
            mark.span.end.checked_sub(mark.span.start),
        ) else {
            continue;
        };
        if before > rest.len() {
            continue;
        }
        let (front, tail) = rest.split_at(before);
        if long > tail.len() {
            continue;
        }
        let (own, back) = tail.split_at(long);
        places.push(place_of(alloc, front, own, mark.change)?)?;
        rest = back;
        at = mark.span.end;
    }
    Ok(Line {
        places,
        back: Vec::from_slice(alloc, rest)?,
    })
}

// The place of a change.
fn place_of(alloc: Global, front: &[u8], own: &[u8], change: usize) -> Result<Place, AllocError>
    ensures front { IfOk result (λ place. place.front.items ≡ front.now) }
    ensures own { IfOk result (λ place. place.own.items ≡ own.now) }
{
    Ok(Place {
        front: Vec::from_slice(alloc, front)?,
        own: Vec::from_slice(alloc, own)?,
        change,
    })
}
