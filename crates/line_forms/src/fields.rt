//! The fields of a line.
ghost use Rattle.std.specs.Prelude.{◌≡◌, length, map, set};
ghost use Rattle.std.specs.List.{list_all};
ghost use Rattle.line_forms.specs.Fields.{is_graphic, is_field, are_fields, fields_of, field_at};

use std::marker::Model;

// How many parts of a line are at hand. The longest form, that of a request over 16 links, has 28 fields.
const AT_HAND: usize = 32;

/// A line, cut at its spaces once.
///
/// A contract sees the list of the parts into which they divide it.
#[derive(Drop)]
pub struct Fields<'a> {
    line: &'a [u8],
    // The first parts, and no bytes after the last.
    cells: [&'a [u8]; AT_HAND],
    count: usize,
    // Whether each part is a field.
    written: bool,
}

impl<'a> Model for Fields<'a> {
    ghost use Rattle.std.specs.Prelude.{◌≡◌, ℕ, List, length, map};
    ghost use Rattle.line_forms.specs.Fields.{are_fields, fields_of};
    ghost use Rattle.line_forms.specs.FieldCells.{AreAtHand};

    ghost Value = { List (List ℕ) };

    ghost view = { λ f. fields_of f.line.now };

    ghost invariant = { λ f. AreAtHand (map (λ cell. cell.now) f.cells) (fields_of f.line.now)
        × (f.count ≡ length (fields_of f.line.now)) × (f.written ≡ are_fields (fields_of f.line.now)) };
}

impl<'a> Fields<'a> {
    /// The fields of a line.
    pub fn of(line: &'a [u8]) -> Fields<'a>
        ensures { result ≡ fields_of line.now }
    {
        let mut cells: [&'a [u8]; AT_HAND] = [&[]; AT_HAND];
        let mut count = 0;
        let mut written = true;
        for part in line.split(|byte| *byte == b' ') {
            keep(&mut cells, count, part);
            written &= is_graphic_text(part);
            count += 1;
        }
        Fields {
            line,
            cells,
            count,
            written,
        }
    }

    /// Whether each part is a field: one or more bytes from 0x21 to 0x7E.
    pub fn are_written(&self) -> bool
        ensures { result ≡ are_fields self.now }
    {
        self.written
    }

    /// The field at a place, from 0, or no bytes where there is none.
    pub fn at(&self, place: usize) -> &'a [u8]
        ensures { result.now ≡ field_at self.now place }
    {
        match self.cells.get(place) {
            Some(cell) => cell,
            // No form has a field so far behind.
            None => field(self.line, place),
        }
    }

    /// How many parts there are.
    pub fn count(&self) -> usize
        ensures { result ≡ length self.now }
    {
        self.count
    }
}

// Puts a part into the cell of its place, where there is one.
#[tactic(auto, using(crate::proofs::CutFields::put_there, crate::proofs::CutFields::put_past))]
fn keep<'a>(cells: &mut [&'a [u8]; AT_HAND], place: usize, part: &'a [u8])
    ensures { map (λ cell. cell.now) cells.new ≡ set (map (λ cell. cell.now) cells.old) place part.now }
{
    if place < cells.len() {
        cells[place] = part;
    }
}

// The part at a place, from 0, or no bytes where there is none.
fn field(line: &[u8], place: usize) -> &[u8]
    ensures { result.now ≡ field_at (fields_of line.now) place }
{
    match line.split(|byte| *byte == b' ').nth(place) {
        Some(part) => part,
        None => &[],
    }
}

fn is_graphic_text(part: &[u8]) -> bool
    ensures { result ≡ is_field part.now }
{
    !part.is_empty() && are_graphic(part)
}

fn are_graphic(part: &[u8]) -> bool
    ensures { result ≡ list_all is_graphic part.now }
{
    part.iter().all(|byte| byte.is_ascii_graphic())
}
