//! Where the keys of a TOML text stand, by their lines.
//!
//! The reader of TOML gives values without their places. So the lines are looked through once more: for headers of tables, for keys before a
//! `=`, and for the items of a list of tables at the top of the file. A key that isn't found there has the line of its table.

use std::alloc::{AllocError, Global};

/// A key and its line, in the table of this name; of a list of tables, in the one of this number, from 0. The table itself has no key.
#[derive(Debug, Drop)]
struct Mark {
    table: String,
    number: usize,
    key: String,
    line: u64,
}

/// The keys of a text.
#[derive(Debug, Drop)]
pub(crate) struct Marks {
    alloc: Global,
    marks: Vec<Mark>,
    /// The table in which the lines stand that come next, and its number.
    table: String,
    number: usize,
    /// At the top of the file the last key, whose list of tables may go on.
    list: String,
}

impl Marks {
    /// The keys of this text.
    pub(crate) fn new(alloc: Global, text: &str) -> Result<Marks, AllocError> {
        let mut marks = Marks {
            alloc,
            marks: Vec::new(alloc),
            table: String::new(alloc),
            number: 0,
            list: String::new(alloc),
        };
        let mut number: u64 = 0;
        for line in text.lines() {
            number = number.saturating_add(1);
            marks.read(line.trim(), number)?;
        }
        Ok(marks)
    }

    /// The line of a key in a table; that of the table where the key has none, and 1 where the table has none.
    pub(crate) fn line_of(&self, table: &str, number: usize, key: &str) -> u64 {
        self.find(table, number, key)
            .or_else(|| self.find(table, number, ""))
            .or_else(|| self.find("", 0, table))
            .unwrap_or(1)
    }

    fn find(&self, table: &str, number: usize, key: &str) -> Option<u64> {
        self.marks
            .iter()
            .find(|mark| {
                mark.number == number && mark.table.as_str() == table && mark.key.as_str() == key
            })
            .map(|mark| mark.line)
    }

    /// Looks at a line.
    fn read(&mut self, line: &str, number: u64) -> Result<(), AllocError> {
        if let Some(name) = between(line, "[[", "]]") {
            return self.open(name, true, number);
        }
        if let Some(name) = between(line, "[", "]") {
            return self.open(name, false, number);
        }
        if let Some((key, value)) = key_of(line) {
            self.mark(key, number)?;
            if self.table.is_empty() && value.starts_with('[') {
                self.list = String::from_str(self.alloc, key)?;
            }
        }
        if self.table.is_empty() {
            self.mark_items(items_in(line), number)?;
        }
        Ok(())
    }

    /// A table begins, which is one more of a list or stands alone.
    fn open(&mut self, name: &str, is_listed: bool, line: u64) -> Result<(), AllocError> {
        self.number = if is_listed { self.tables(name) } else { 0 };
        self.table = String::from_str(self.alloc, name)?;
        self.mark("", line)
    }

    /// How many tables of this name there are.
    fn tables(&self, name: &str) -> usize {
        self.marks
            .iter()
            .filter(|mark| mark.table.as_str() == name && mark.key.is_empty())
            .count()
    }

    /// A key of the table stands in this line.
    fn mark(&mut self, key: &str, line: u64) -> Result<(), AllocError> {
        self.marks.push(Mark {
            table: self.table.clone()?,
            number: self.number,
            key: String::from_str(self.alloc, key)?,
            line,
        })?;
        Ok(())
    }

    /// So many items of the last key's list begin in this line.
    fn mark_items(&mut self, count: usize, line: u64) -> Result<(), AllocError> {
        for _ in 0..count {
            let number = self.tables(self.list.as_str());
            self.marks.push(Mark {
                table: self.list.clone()?,
                number,
                key: String::new(self.alloc),
                line,
            })?;
        }
        Ok(())
    }
}

/// What stands between two brackets, the first of which begins the line.
fn between<'a>(line: &'a str, open: &str, close: &str) -> Option<&'a str> {
    let rest = line.strip_prefix(open)?;
    let (name, _) = rest.split_once(close)?;
    Some(name.trim())
}

/// The key that a line begins with, and what stands behind its `=`.
fn key_of(line: &str) -> Option<(&str, &str)> {
    let (key, value) = line.split_once('=')?;
    let key = key.trim().trim_matches('"');
    if key.is_empty() || !key.bytes().all(is_key_byte) {
        return None;
    }
    Some((key, value.trim()))
}

/// Whether this byte may stand in a key.
fn is_key_byte(byte: u8) -> bool {
    byte.is_ascii_alphanumeric() || byte == b'_' || byte == b'-' || byte == b' '
}

/// How many tables in braces a line begins. Braces in texts don't count.
fn items_in(line: &str) -> usize {
    let mut count: usize = 0;
    let mut is_text = false;
    for byte in line.bytes() {
        match byte {
            b'"' => is_text = !is_text,
            b'{' if !is_text => count = count.saturating_add(1),
            _ => {}
        }
    }
    count
}
