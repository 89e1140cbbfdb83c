//! The columns of the table of variants.
use crate::outcome::{Judged, Outcome};
use net_units::Name;
use network_variants::Variants;
use std::alloc::{AllocError, Global};

/// The most requests that have columns of their own.
pub(crate) const MOST_COLUMNS: usize = 64;

/// The names of all requests of these outcomes, in the order in which they come up; none where they are too many for columns.
pub(crate) fn names_in(alloc: Global, outcomes: &[Outcome]) -> Result<Vec<Name>, AllocError> {
    let mut names = Vec::new(alloc);
    for outcome in outcomes {
        if let Outcome::Judged(judged) = outcome {
            add_names(&mut names, judged)?;
        }
        if names.len() > MOST_COLUMNS {
            return Ok(Vec::new(alloc));
        }
    }
    Ok(names)
}

// Adds the names that aren't there yet.
fn add_names(names: &mut Vec<Name>, judged: &Judged) -> Result<(), AllocError> {
    let mut place: usize = 0;
    for name in judged.names.as_slice() {
        if !is_at(names, place, name) && !is_among(names, name) && names.len() <= MOST_COLUMNS {
            names.push(*name)?;
        }
        place = place.saturating_add(1);
    }
    Ok(())
}

// Whether the name at a place is this one.
fn is_at(names: &[Name], place: usize, name: &Name) -> bool {
    match names.get(place) {
        Some(one) => *one == *name,
        None => false,
    }
}

// Whether a name is among these.
fn is_among(names: &[Name], name: &Name) -> bool {
    for one in names {
        if *one == *name {
            return true;
        }
    }
    false
}

/// The place of a name among these, which is mostly this one.
pub(crate) fn place_of(names: &[Name], name: &Name, mostly: usize) -> Option<usize> {
    if is_at(names, mostly, name) {
        return Some(mostly);
    }
    names.iter().position(|one: &Name| *one == *name)
}

/// Whether an outcome has least delays.
pub(crate) fn has_least(outcomes: &[Outcome]) -> bool {
    for outcome in outcomes {
        if let Outcome::Judged(judged) = outcome {
            if !judged.least.is_empty() {
                return true;
            }
        }
    }
    false
}

/// The heads of the columns: the changes, what the requests come to, and each request's delays.
pub(crate) fn heads_of(
    alloc: Global,
    variants: &Variants,
    names: &[Name],
    with_least: bool,
) -> Result<Vec<String>, AllocError> {
    let mut heads = Vec::new(alloc);
    for change in &variants.changes {
        heads.push(String::from_str(alloc, change.name.as_str())?)?;
    }
    heads.push(String::from_str(alloc, "accepted")?)?;
    heads.push(String::from_str(alloc, "denied")?)?;
    heads.push(String::from_str(alloc, "tight")?)?;
    heads.push(String::from_str(alloc, "refused")?)?;
    add_heads(alloc, &mut heads, "promised_", names)?;
    if with_least {
        add_heads(alloc, &mut heads, "least_", names)?;
    }
    Ok(heads)
}

// Adds a head for each request.
fn add_heads(
    alloc: Global,
    heads: &mut Vec<String>,
    front: &str,
    names: &[Name],
) -> Result<(), AllocError> {
    for name in names {
        let mut head = String::from_str(alloc, front)?;
        head.push_str(name.as_str())?;
        heads.push(head)?;
    }
    Ok(())
}
