//! The values that a design gives to its keys, as texts, and where they stand.

use crate::keys::{excludes, is_excluded};
use std::alloc::{AllocError, Global};

/// A place: the file, by its number from 0, and the line, from 1. The design itself is file 0.
#[derive(Clone, Copy, Debug, PartialEq, Eq)]
pub struct Place {
    pub file: usize,
    pub line: u64,
}

/// A value at a key, as text. The items of a list have commas between them.
#[derive(Debug, Drop)]
pub struct Field {
    pub key: String,
    pub text: String,
    pub place: Place,
}

/// What the fields of a row are about.
#[derive(Clone, Copy, Debug, PartialEq, Eq)]
pub enum Kind {
    /// The network as a whole: the keys at the top of the file.
    Network,
    /// A link.
    Link,
    /// A stream.
    Stream,
    /// A share of a link.
    Quota,
}

/// What a design says of the network, of a link, of a stream or of a share.
#[derive(Debug, Drop)]
pub struct Row {
    pub kind: Kind,
    pub place: Place,
    pub fields: Vec<Field>,
}

impl Row {
    /// A row that says nothing yet.
    pub fn new(alloc: Global, kind: Kind, place: Place) -> Row {
        Row {
            kind,
            place,
            fields: Vec::new(alloc),
        }
    }

    /// The field at this key.
    pub fn field(&self, key: &str) -> Option<&Field> {
        self.fields
            .iter()
            .find(|field| is_same_key(field.key.as_str(), key))
    }

    /// The text at this key.
    pub fn text(&self, key: &str) -> Option<&str> {
        match self.field(key) {
            Some(field) => Some(field.text.as_str()),
            None => None,
        }
    }

    /// Whether something stands at this key.
    pub fn has(&self, key: &str) -> bool {
        self.field(key).is_some()
    }

    /// The same row.
    pub(crate) fn copy(&self, alloc: Global) -> Result<Row, AllocError> {
        let mut row = Row::new(alloc, self.kind, self.place);
        for field in &self.fields {
            row.push(alloc, field.key.as_str(), field.text.clone()?, field.place)?;
        }
        Ok(row)
    }

    /// Takes from another row what this one lacks, and what may stand beside its own keys.
    pub(crate) fn complete(&mut self, alloc: Global, other: &Row) -> Result<(), AllocError> {
        let own = self.fields.len();
        for field in &other.fields {
            if !self.has(field.key.as_str()) && !self.shuts_out(own, field.key.as_str()) {
                self.push(alloc, field.key.as_str(), field.text.clone()?, field.place)?;
            }
        }
        Ok(())
    }

    /// Whether one of so many fields of the row doesn't stand beside this key.
    fn shuts_out(&self, count: usize, key: &str) -> bool {
        self.fields.iter().take(count).any(|field| excludes(field, key)
            || is_excluded(field.key.as_str(), key))
    }

    /// The copy of this number: its number stands for each `{}`, the next one for each `{+1}`, and its number behind a name that has none.
    pub(crate) fn numbered(&self, alloc: Global, number: u64) -> Result<Row, AllocError> {
        let digits = number.to_string(alloc)?;
        let next = number.saturating_add(1).to_string(alloc)?;
        let mut row = Row::new(alloc, self.kind, self.place);
        for field in &self.fields {
            let text = field.text.as_str().replace(alloc, "{+1}", next.as_str())?;
            let mut text = text.as_str().replace(alloc, "{}", digits.as_str())?;
            if is_same_key(field.key.as_str(), "name") && text.as_str() == field.text.as_str() {
                text.push_str(digits.as_str())?;
            }
            row.push(alloc, field.key.as_str(), text, field.place)?;
        }
        Ok(row)
    }

    /// The row of a link in the other direction: its ends change places, and its name is the one at `back`, or has `_back` behind it.
    pub(crate) fn reversed(&self, alloc: Global) -> Result<Row, AllocError> {
        let mut row = Row::new(alloc, self.kind, self.place);
        for field in &self.fields {
            let key = reversed_key(field.key.as_str());
            let mut text = field.text.clone()?;
            if key == "name" {
                text = self.back_name(alloc, text)?;
            }
            row.push(alloc, key, text, field.place)?;
        }
        Ok(row)
    }

    /// The name of a link in the other direction.
    fn back_name(&self, alloc: Global, name: String) -> Result<String, AllocError> {
        match self.text("back") {
            Some(back) => String::from_str(alloc, back),
            None => {
                let mut name = name;
                name.push_str("_back")?;
                Ok(name)
            }
        }
    }

    /// Adds a field.
    pub(crate) fn push(
        &mut self,
        alloc: Global,
        key: &str,
        text: String,
        place: Place,
    ) -> Result<(), AllocError> {
        let key = String::from_str(alloc, key)?;
        self.fields.push(Field { key, text, place })?;
        Ok(())
    }
}

/// The key of the same value in the other direction.
fn reversed_key(key: &str) -> &str {
    match key {
        "from" => "to",
        "to" => "from",
        _ => key,
    }
}

/// Whether two texts are one key: a space, a `_` and a `-` are alike in keys.
pub fn is_same_key(one: &str, other: &str) -> bool {
    one.len() == other.len()
        && one
            .bytes()
            .zip(other.bytes())
            .all(|(a, b)| folded(a) == folded(b))
}

/// A byte of a key, with `-` for a space and for `_`.
fn folded(byte: u8) -> u8 {
    match byte {
        b' ' | b'_' => b'-',
        _ => byte,
    }
}
