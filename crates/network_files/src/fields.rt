//! Which field of a refused line it is, where the line alone shows it: the first that isn't a name, isn't a number, or is out of its range.
use net_units::Name;
use scenario_reader::Cause;
use scenario_reader::values::number;

/// What a field of a line has to be.
#[derive(Clone, Copy)]
enum Kind {
    Word,
    Name(&'static str),
    Number(&'static str, u64, u64),
}

/// The field for which a line is refused.
#[derive(Clone, Copy)]
pub struct Fault<'a> {
    /// Its place, from 1.
    pub place: usize,
    pub field: &'a [u8],
    /// What it is.
    pub label: &'static str,
    /// From where to where its numbers go.
    pub range: Option<(u64, u64)>,
}

/// The field for which a line is refused for this cause.
pub fn fault_in(line: &[u8], cause: Cause) -> Option<Fault<'_>> {
    let first = first_field(line);
    let mut place: usize = 0;
    let mut back: usize = 0;
    for field in line.split(is_space) {
        place = place.saturating_add(1);
        back = next_back(field, place, back);
        if let Some(fault) = judged(field, kind_at(first, place, back), cause) {
            return Some(Fault {
                place,
                field,
                label: fault.0,
                range: fault.1,
            });
        }
    }
    None
}

// How far a field stands from the word `contract` or `levels` on, which is 1 there; 0 before it. A name before it may be spelt `levels`.
fn next_back(field: &[u8], place: usize, back: usize) -> usize {
    if field == b"contract".as_slice() || (field == b"levels".as_slice() && place > 5) {
        1
    } else if back > 0 {
        back.saturating_add(1)
    } else {
        0
    }
}

fn is_space(byte: &u8) -> bool {
    *byte == b' '
}

fn first_field(line: &[u8]) -> &[u8] {
    line.split(is_space).next().unwrap_or(&[])
}

// What is said of a field that has the cause.
fn judged(field: &[u8], kind: Kind, cause: Cause) -> Option<(&'static str, Option<(u64, u64)>)> {
    match kind {
        Kind::Word => None,
        Kind::Name(label) => {
            if cause == Cause::Name && Name::new(field).is_none() {
                Some((label, None))
            } else {
                None
            }
        }
        Kind::Number(label, least, most) => {
            let is_number = number(field, 0, u64::MAX).is_ok();
            if cause == Cause::Number && !is_number {
                Some((label, None))
            } else if cause == Cause::Range && is_number && number(field, least, most).is_err() {
                Some((label, Some((least, most))))
            } else {
                None
            }
        }
    }
}

// What the field at a place of a line of this word has to be. `back` is its place from the word `contract` or `levels` on, or 0 before it.
fn kind_at(word: &[u8], place: usize, back: usize) -> Kind {
    match word {
        b"link" => link_kind(place, back),
        b"open" => open_kind(place, back),
        b"quota" => quota_kind(place, back),
        b"send" | b"pour" => sent_kind(place),
        b"rounds" | b"tail" if place == 2 => Kind::Number("the number of rounds", 0, 524_288),
        b"do" if place == 3 => Kind::Number("the count", 1, 1_048_576),
        b"caller" | b"group" | b"close" | b"move" if place == 2 => Kind::Name("the name"),
        _ => Kind::Word,
    }
}

// Of a link.
fn link_kind(place: usize, back: usize) -> Kind {
    if back > 1 {
        return Kind::Number("a level's bound", 1, 1_048_576);
    }
    match place {
        2 => Kind::Name("the link's name"),
        3 | 4 => Kind::Name("a node"),
        6 => Kind::Number("the rate", 1, 65_536),
        8 => Kind::Number("cap", 1, 65_536),
        10 => Kind::Number("prop", 0, 1_048_576),
        12 => Kind::Number("buffer", 0, 262_144),
        14 => Kind::Number("best", 1, 1_024),
        _ => Kind::Word,
    }
}

// Of an open.
fn open_kind(place: usize, back: usize) -> Kind {
    match (place, back) {
        (2, _) => Kind::Name("the request's name"),
        (_, 2) => Kind::Number("XMIN", 1, 1_048_576),
        (_, 3) => Kind::Number("XAVE", 1, 1_048_576),
        (_, 4) => Kind::Number("I", 1, 16_777_216),
        (_, 5) => Kind::Number("SMAX", 1, 65_536),
        (_, 7) => Kind::Number("the delay", 1, 67_108_864),
        (_, 9) => Kind::Number("the jitter", 1, 67_108_864),
        _ => Kind::Word,
    }
}

// Of a quota.
fn quota_kind(place: usize, back: usize) -> Kind {
    if back > 1 {
        return Kind::Number("a level's load", 0, 1_048_576);
    }
    match place {
        2 => Kind::Name("the link"),
        3 => Kind::Name("the group"),
        5 => Kind::Number("buffer", 0, 262_144),
        _ => Kind::Word,
    }
}

// Of a send or a pour.
fn sent_kind(place: usize) -> Kind {
    match place {
        2 => Kind::Name("the name"),
        3 => Kind::Number("the count", 1, 262_144),
        4 => Kind::Number("the gap", 1, 1_048_576),
        5 => Kind::Number("the size", 1, 65_536),
        _ => Kind::Word,
    }
}
