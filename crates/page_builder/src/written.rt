//! What a design's file says of its links and streams, in its own words and units.
use design_text::{Design, File, Row, read_design};
use network_files::is_scenario;
use network_pictures::{LinkFacts, NetworkFacts, RequestFacts};
use std::alloc::{AllocError, Global};
use std::str;

/// Adds to the facts of a network what its file says, where that is a design. A scenario's numbers are ticks and units as they stand.
pub fn add_written(
    alloc: Global,
    facts: &mut NetworkFacts,
    name: &str,
    bytes: &[u8],
) -> Result<(), AllocError> {
    if is_scenario(bytes) {
        return Ok(());
    }
    let Ok(text) = str::from_utf8(bytes) else {
        return Ok(());
    };
    match read_design(alloc, &File { name, text }, &[]) {
        Ok(design) => add_design(alloc, facts, &design),
        Err(_) => Ok(()),
    }
}

// Adds what a design says.
fn add_design(alloc: Global, facts: &mut NetworkFacts, design: &Design) -> Result<(), AllocError> {
    facts.written = Some(row_text(alloc, &design.network)?);
    for link in &mut facts.links {
        link.written = link_text(alloc, design, link)?;
    }
    for request in &mut facts.requests {
        request.written = request_text(alloc, design, request)?;
    }
    Ok(())
}

// What is said of a link.
fn link_text(
    alloc: Global,
    design: &Design,
    link: &LinkFacts,
) -> Result<Option<String>, AllocError> {
    for written in &design.links {
        if written.name.as_str() == link.name.as_str() {
            return text_at(alloc, design, written.row);
        }
    }
    Ok(None)
}

// What is said of a request's stream.
fn request_text(
    alloc: Global,
    design: &Design,
    request: &RequestFacts,
) -> Result<Option<String>, AllocError> {
    for written in &design.streams {
        if written.name.as_str() == request.name.as_str() {
            return text_at(alloc, design, written.row);
        }
    }
    Ok(None)
}

// The text of the row at a place.
fn text_at(alloc: Global, design: &Design, place: usize) -> Result<Option<String>, AllocError> {
    match design.rows.get(place) {
        Some(row) => Ok(Some(row_text(alloc, row)?)),
        None => Ok(None),
    }
}

// The fields of a row that are quantities, with their keys.
fn row_text(alloc: Global, row: &Row) -> Result<String, AllocError> {
    let mut text = String::new(alloc);
    for field in &row.fields {
        let key = field.key.as_str();
        if key == "name" || key == "from" || key == "to" || key == "route" || key == "class" {
            continue;
        }
        if !text.is_empty() {
            text.push_str(", ")?;
        }
        text.push_str(key)?;
        text.push(' ')?;
        text.push_str(field.text.as_str())?;
    }
    Ok(text)
}
