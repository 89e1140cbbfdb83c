//! The fields of a line.
use std::alloc::{AllocError, Global};

/// A part of a line, in bytes.
#[derive(Clone, Copy, Debug)]
pub(crate) struct Span {
    pub(crate) start: usize,
    pub(crate) end: usize,
}

impl Span {
    /// What stands there in a line.
    pub(crate) fn of(self, line: &[u8]) -> &[u8] {
        line.get(self.start..self.end).unwrap_or(&[])
    }
}

/// The fields of a line, as spaces part them. The line feed is in none.
pub(crate) fn fields_of(alloc: Global, line: &[u8]) -> Result<Vec<Span>, AllocError> {
    let mut fields = Vec::new(alloc);
    let mut start: usize = 0;
    let mut at: usize = 0;
    for byte in line {
        if *byte == b' ' || *byte == b'\n' {
            fields.push(Span { start, end: at })?;
            start = at.saturating_add(1);
        }
        at = at.saturating_add(1);
    }
    if start < at {
        fields.push(Span { start, end: at })?;
    }
    Ok(fields)
}

/// Whether the field of a number is this word.
pub(crate) fn is_field(line: &[u8], fields: &[Span], number: usize, word: &[u8]) -> bool {
    match fields.get(number) {
        Some(field) => field.of(line) == word,
        None => false,
    }
}
