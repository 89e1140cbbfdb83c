//! The lines of a file with the places of its changes, and the text of each variant.
ghost use Rattle.std.specs.Prelude.{◌≡◌, ◌++◌, IfOk, OnOk};
ghost use Rattle.std.specs.List.{slice_get};
ghost use Rattle.network_variants.specs.Variants.{line_in, picked, text_in, word_at, word_of, word_of_any};

use std::alloc::{AllocError, Global};

/// A place in a line at which a change puts its words.
#[derive(Debug, Drop)]
pub struct Place {
    /// What stands between the place before it and this one; nothing changes it.
    pub front: Vec<u8>,
    /// What stands there in the file.
    pub own: Vec<u8>,
    /// The number of the change, from 0.
    pub change: usize,
}

/// A line of the file, with its line feed.
#[derive(Debug, Drop)]
pub struct Line {
    /// The places of the changes, from left to right.
    pub places: Vec<Place>,
    /// What stands after them; nothing changes it.
    pub back: Vec<u8>,
}

/// A change of some places.
#[derive(Debug, Drop)]
pub struct Change {
    /// Where, as it was written.
    pub name: String,
    /// Its values, as they were written.
    pub shown: Vec<String>,
    /// What it puts in its places: a word for each value.
    pub words: Vec<Vec<u8>>,
    /// For how many variants it keeps a value.
    pub every: usize,
}

/// A file's variants.
#[derive(Debug, Drop)]
pub struct Variants {
    /// The lines of the file.
    pub lines: Vec<Line>,
    /// The changes, in their order.
    pub changes: Vec<Change>,
    /// How many variants there are.
    pub count: usize,
}

impl Change {
    /// The number of its value in the variant of a number, both from 0.
    pub fn pick(&self, number: usize) -> usize
        ensures { result ≡ picked self.now number }
    {
        (number / self.every.max(1)) % self.words.len().max(1)
    }

    /// What it puts in its places in the variant of a number.
    pub fn word(&self, number: usize) -> &[u8]
        ensures { result.now ≡ word_of self.now number }
    {
        match self.words.get(self.pick(number)) {
            Some(word) => word.as_slice(),
            None => &[],
        }
    }
}

impl Variants {
    /// The text of the variant of a number, from 0: the file, with the words of that variant in the places of the changes.
    pub fn text(&self, alloc: Global, number: usize) -> Result<Vec<u8>, AllocError>
        ensures { IfOk result (λ text. text.items ≡ text_in (word_at self.now.changes.items number) self.now.lines.items) }
    {
        let mut text = Vec::new(alloc);
        for line in &self.lines {
            self.add_line(&mut text, line, number)?;
        }
        Ok(text)
    }

    // Adds a line.
    fn add_line(&self, text: &mut Vec<u8>, line: &Line, number: usize) -> Result<(), AllocError>
        ensures { OnOk result (text.new.items ≡ text.old.items ++ line_in (word_at self.now.changes.items number) line.now) }
    {
        for place in &line.places {
            text.extend_from_slice(place.front.as_slice())?;
            text.extend_from_slice(self.word_at(place.change, number))?;
        }
        text.extend_from_slice(line.back.as_slice())?;
        Ok(())
    }

    // What the change of a number puts in its places.
    fn word_at(&self, change: usize, number: usize) -> &[u8]
        ensures { result.now ≡ word_of_any (slice_get self.now.changes.items change) number }
    {
        match self.changes.get(change) {
            Some(change) => change.word(number),
            None => &[],
        }
    }
}
