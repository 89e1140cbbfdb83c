//! From a file and changes to its variants.
ghost use Rattle.std.specs.Prelude.{◌≡◌, ◌≤◌, IfOk, IfSome, length, map};
ghost use Rattle.network_variants.specs.Joined.{joined};
ghost use Rattle.network_variants.specs.Variants.{AreCounted, own_of, text_in};

use crate::bad::{BadChange, refused};
use crate::cutting::{cut, lines_of};
use crate::design::found_in_design;
use crate::finding::{Mark, found_in_scenario};
use crate::values::{Kind, values_of, words_of};
use crate::variants::{Change, Line, Variants};
use crate::wanted::sides_of;
use std::alloc::{AllocError, Global};

/// The most variants of a file.
pub const MOST_VARIANTS: usize = 100_000;

/// What a file is.
#[derive(Clone, Copy, Debug, PartialEq, Eq)]
pub enum Form {
    /// A scenario.
    Scenario,
    /// A design.
    Design,
}

// A change before it has its place among the others.
#[derive(Drop)]
struct Made {
    name: String,
    shown: Vec<String>,
    words: Vec<Vec<u8>>,
}

/// The variants of a file with these changes. A change that names nothing in the file, or a bad value, is refused with its place among
/// the words and what would do; so are more than 100,000 variants.
pub fn variants_of(
    alloc: Global,
    form: Form,
    file: &[u8],
    words: &[String],
) -> Result<Variants, BadChange>
    ensures own { IfOk result (λ made. text_in own_of made.lines.items ≡ file.now) }
    ensures counted { IfOk result (λ made. AreCounted made.changes.items made.count) }
    ensures few { IfOk result (λ made. made.count ≤ 100000) }
{
    let lines = lines_of(alloc, file)?;
    let found = match form {
        Form::Scenario => found_in_scenario(alloc, lines.as_slice(), words)?,
        Form::Design => found_in_design(alloc, lines.as_slice(), words)?,
    };
    let made = changes_of(alloc, words, found.kinds.as_slice())?;
    let Some((changes, count)) = counted(alloc, made)? else {
        return Err(too_many(alloc, words.len()));
    };
    let lines = cut_all(alloc, lines.as_slice(), found.marks.as_slice())?;
    Ok(Variants {
        lines,
        changes,
        count,
    })
}

// Lines with their places.
fn cut_all(alloc: Global, lines: &[Vec<u8>], marks: &[Mark]) -> Result<Vec<Line>, AllocError>
    ensures { IfOk result (λ cuts. text_in own_of cuts.items ≡ joined (map (λ line. line.items) lines.now)) }
{
    let mut cuts = Vec::new(alloc);
    let mut number: usize = 0;
    for line in lines {
        cuts.push(cut(alloc, line.as_slice(), number, marks)?)?;
        number = number.saturating_add(1);
    }
    Ok(cuts)
}

// The changes that these words say, which put this into their places.
fn changes_of(alloc: Global, words: &[String], kinds: &[Kind]) -> Result<Vec<Made>, BadChange> {
    let mut changes = Vec::new(alloc);
    let mut place: usize = 0;
    for word in words {
        let kind = kinds.get(place).copied().unwrap_or(Kind::Number);
        changes.push(change_of(alloc, place, word.as_str(), kind)?)?;
        place = place.saturating_add(1);
    }
    Ok(changes)
}

// The change that a word says.
fn change_of(alloc: Global, place: usize, word: &str, kind: Kind) -> Result<Made, BadChange> {
    let (left, right) = sides_of(alloc, place, word)?;
    let shown = values_of(alloc, place, right)?;
    let words = words_of(alloc, place, kind, shown.as_slice())?;
    Ok(Made {
        name: String::from_str(alloc, left)?,
        shown,
        words,
    })
}

// There are too many variants.
fn too_many(alloc: Global, words: usize) -> BadChange {
    refused(
        alloc,
        words.saturating_sub(1),
        "with this change there are more than 100,000 variants; wanted are fewer values",
    )
}

// The changes with their numbers of variants, and how many there are of all together: None where there are too many.
fn counted(alloc: Global, made: Vec<Made>) -> Result<Option<(Vec<Change>, usize)>, AllocError>
    ensures counted { IfOk result (λ some. IfSome some (λ both. AreCounted both.0.items both.1)) }
    ensures few { IfOk result (λ some. IfSome some (λ both. both.1 ≤ 100000)) }
{
    let mut left = made;
    let mut changes = Vec::new(alloc);
    let mut count: usize = 1;
    for _ in 0..left.len() {
        let Some(made) = left.pop() else {
            break;
        };
        let every = count;
        match made.words.as_slice().len().checked_mul(every) {
            Some(more) if more <= MOST_VARIANTS => count = more,
            _ => return Ok(None),
        }
        changes.insert(
            0,
            Change {
                name: made.name,
                shown: made.shown,
                words: made.words,
                every,
            },
        )?;
    }
    Ok(Some((changes, count)))
}
