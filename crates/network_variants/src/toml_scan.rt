//! Where the values of a design stand.
//!
//! A reader of TOML gives values without their places, so the lines are looked through for headers, keys and values. Tables in braces
//! may stand in a list that goes over several lines; a list of texts has to stand on one.
use crate::fields::Span;
use std::alloc::{AllocError, Global};

/// How a value is written.
#[derive(Clone, Copy, Debug, PartialEq, Eq)]
pub(crate) enum Shape {
    /// Between quotes; the place is what stands between them.
    Text,
    /// A number, true or false.
    Bare,
    /// A list of texts; the place is what stands between the first quote and the last one.
    List,
}

/// A table of a design.
#[derive(Drop)]
pub(crate) struct Table {
    /// What it is: link, stream, quota, class, defaults, or top for what stands above all others.
    pub(crate) kind: Vec<u8>,
    /// The name in its header.
    pub(crate) name: Vec<u8>,
}

/// A value of a design.
#[derive(Drop)]
pub(crate) struct Item {
    /// The number of its table.
    pub(crate) table: usize,
    pub(crate) key: Vec<u8>,
    pub(crate) line: usize,
    pub(crate) span: Span,
    pub(crate) shape: Shape,
}

// What a part of a line is.
#[derive(Clone, Copy, Debug, PartialEq, Eq)]
enum Part {
    Mark(u8),
    Word,
    Text,
}

// What comes next in a table.
#[derive(Clone, Copy, Debug, PartialEq, Eq)]
enum Next {
    Key,
    Equals,
    Value,
    End,
}

// How far the reading of a table has come.
#[derive(Drop)]
struct Frame {
    next: Next,
    key: Vec<u8>,
    brackets: usize,
    // The texts of a list so far, and whether all of them stand on one line.
    list: Option<Span>,
    line: usize,
    is_whole: bool,
}

/// What was found in the lines so far.
#[derive(Drop)]
pub(crate) struct Scan {
    alloc: Global,
    pub(crate) tables: Vec<Table>,
    pub(crate) items: Vec<Item>,
    // The table of the lines, and whether one in braces is open.
    table: usize,
    is_inner: bool,
    // The brackets of a header, and its name.
    brackets: usize,
    outer: Frame,
    inner: Frame,
}

impl Frame {
    fn new(alloc: Global) -> Frame {
        Frame {
            next: Next::Key,
            key: Vec::new(alloc),
            brackets: 0,
            list: None,
            line: 0,
            is_whole: true,
        }
    }

    // Another text of a list.
    fn add(&mut self, span: Span, line: usize, is_text: bool) {
        match self.list {
            Some(list) => {
                self.is_whole = self.is_whole && is_text && self.line == line;
                self.list = Some(Span {
                    start: list.start,
                    end: span.end,
                });
            }
            None => {
                self.is_whole = is_text;
                self.line = line;
                self.list = Some(span);
            }
        }
    }
}

impl Scan {
    /// Nothing yet.
    pub(crate) fn new(alloc: Global) -> Result<Scan, AllocError> {
        let mut tables = Vec::new(alloc);
        tables.push(Table {
            kind: Vec::from_slice(alloc, b"top")?,
            name: Vec::new(alloc),
        })?;
        Ok(Scan {
            alloc,
            tables,
            items: Vec::new(alloc),
            table: 0,
            is_inner: false,
            brackets: 0,
            outer: Frame::new(alloc),
            inner: Frame::new(alloc),
        })
    }

    /// Looks through the line of a number, from 0.
    pub(crate) fn read(&mut self, line: &[u8], number: usize) -> Result<(), AllocError> {
        if !self.is_inner && self.outer.brackets == 0 {
            self.outer.next = Next::Key;
            self.brackets = 0;
        }
        let mut at: usize = 0;
        for _ in 0..line.len() {
            let Some((part, span, next)) = part_at(line, at) else {
                break;
            };
            self.take(line, number, part, span)?;
            at = next;
        }
        Ok(())
    }

    // Takes the next part of a line.
    fn take(
        &mut self,
        line: &[u8],
        number: usize,
        part: Part,
        span: Span,
    ) -> Result<(), AllocError> {
        if self.is_inner {
            return self.take_inner(line, number, part, span);
        }
        match self.outer.next {
            Next::Key => self.take_key(line, part, span),
            Next::Equals => {
                if part == Part::Mark(b'=') {
                    self.outer.next = Next::Value;
                }
                Ok(())
            }
            Next::Value => self.take_value(line, number, part, span),
            Next::End => Ok(()),
        }
    }

    // Takes what a line begins with: a header or a key.
    fn take_key(&mut self, line: &[u8], part: Part, span: Span) -> Result<(), AllocError> {
        match part {
            Part::Mark(b'[') => {
                self.brackets = self.brackets.saturating_add(1);
                Ok(())
            }
            Part::Mark(_) => Ok(()),
            Part::Word | Part::Text => {
                if self.brackets > 0 {
                    self.outer.next = Next::End;
                    self.open(span.of(line))
                } else {
                    self.outer.key = Vec::from_slice(self.alloc, span.of(line))?;
                    self.outer.next = Next::Equals;
                    Ok(())
                }
            }
        }
    }

    // A table with this header begins: KIND, or KIND.NAME.
    fn open(&mut self, header: &[u8]) -> Result<(), AllocError> {
        let (kind, name) = at_dot(header);
        self.table = self.tables.len();
        self.tables.push(Table {
            kind: Vec::from_slice(self.alloc, kind)?,
            name: Vec::from_slice(self.alloc, name)?,
        })?;
        Ok(())
    }

    // Takes a part of a value.
    fn take_value(
        &mut self,
        line: &[u8],
        number: usize,
        part: Part,
        span: Span,
    ) -> Result<(), AllocError> {
        if part == Part::Mark(b'{') {
            let key = Vec::from_slice(self.alloc, self.outer.key.as_slice())?;
            self.tables.push(Table {
                kind: key,
                name: Vec::new(self.alloc),
            })?;
            self.is_inner = true;
            self.inner = Frame::new(self.alloc);
            return Ok(());
        }
        let table = self.table;
        let ended = take_part(
            self.alloc,
            &mut self.outer,
            &mut self.items,
            table,
            number,
            part,
            span,
        );
        if ended? && line.len() > 0 {
            self.outer.next = Next::End;
        }
        Ok(())
    }

    // Takes a part of a table in braces.
    fn take_inner(
        &mut self,
        line: &[u8],
        number: usize,
        part: Part,
        span: Span,
    ) -> Result<(), AllocError> {
        if part == Part::Mark(b'}') {
            self.is_inner = false;
            if self.outer.brackets == 0 {
                self.outer.next = Next::End;
            }
            return Ok(());
        }
        match self.inner.next {
            Next::Key => {
                if part == Part::Word || part == Part::Text {
                    self.inner.key = Vec::from_slice(self.alloc, span.of(line))?;
                    self.inner.next = Next::Equals;
                }
            }
            Next::Equals => {
                if part == Part::Mark(b'=') {
                    self.inner.next = Next::Value;
                }
            }
            Next::Value => {
                let table = self.tables.len().saturating_sub(1);
                let ended = take_part(
                    self.alloc,
                    &mut self.inner,
                    &mut self.items,
                    table,
                    number,
                    part,
                    span,
                );
                if ended? {
                    self.inner.next = Next::End;
                }
            }
            Next::End => {
                if part == Part::Mark(b',') {
                    self.inner.next = Next::Key;
                }
            }
        }
        Ok(())
    }
}

// Takes a part of a value that isn't a table. Answers whether the value ends with it.
fn take_part(
    alloc: Global,
    frame: &mut Frame,
    items: &mut Vec<Item>,
    table: usize,
    line: usize,
    part: Part,
    span: Span,
) -> Result<bool, AllocError> {
    match part {
        Part::Mark(b'[') => {
            frame.brackets = frame.brackets.saturating_add(1);
            frame.list = None;
            Ok(false)
        }
        Part::Mark(b']') => {
            frame.brackets = frame.brackets.saturating_sub(1);
            if frame.brackets > 0 {
                return Ok(false);
            }
            if let Some(list) = frame.list {
                if frame.is_whole {
                    let line = frame.line;
                    add_item(alloc, items, table, frame, line, list, Shape::List)?;
                }
            }
            frame.list = None;
            Ok(true)
        }
        Part::Mark(_) => Ok(false),
        Part::Word | Part::Text => {
            let is_text = part == Part::Text;
            if frame.brackets > 0 {
                frame.add(span, line, is_text);
                return Ok(false);
            }
            let shape = if is_text { Shape::Text } else { Shape::Bare };
            add_item(alloc, items, table, frame, line, span, shape)?;
            Ok(true)
        }
    }
}

// Adds a value.
fn add_item(
    alloc: Global,
    items: &mut Vec<Item>,
    table: usize,
    frame: &Frame,
    line: usize,
    span: Span,
    shape: Shape,
) -> Result<(), AllocError> {
    items.push(Item {
        table,
        key: Vec::from_slice(alloc, frame.key.as_slice())?,
        line,
        span,
        shape,
    })?;
    Ok(())
}

// The two sides of the first dot.
fn at_dot(header: &[u8]) -> (&[u8], &[u8]) {
    let mut at: usize = 0;
    for byte in header {
        if *byte == b'.' {
            break;
        }
        at = at.saturating_add(1);
    }
    let front = header.get(..at).unwrap_or(header);
    let back = header.get(at.saturating_add(1)..).unwrap_or(&[]);
    (front, back)
}

// The next part of a line from a place on, where it stands, and where the part after it may begin: None at a note or the end.
fn part_at(line: &[u8], from: usize) -> Option<(Part, Span, usize)> {
    let start = after_spaces(line, from);
    let first = *line.get(start)?;
    let next = start.saturating_add(1);
    match first {
        b'#' => None,
        b'"' | b'\'' => {
            let end = end_of_text(line, next, first);
            Some((Part::Text, Span { start: next, end }, end.saturating_add(1)))
        }
        b'[' | b']' | b'{' | b'}' | b'=' | b',' => Some((
            Part::Mark(first),
            Span { start, end: next },
            next,
        )),
        _ => {
            let end = end_of_word(line, start);
            Some((Part::Word, Span { start, end }, end))
        }
    }
}

// The first place from this one on that is no space.
fn after_spaces(line: &[u8], from: usize) -> usize {
    let mut at = from;
    for _ in 0..line.len() {
        match line.get(at) {
            Some(b' ' | b'\t' | b'\r' | b'\n') => at = at.saturating_add(1),
            _ => return at,
        }
    }
    at
}

// Where the text ends that begins here.
fn end_of_text(line: &[u8], from: usize, quote: u8) -> usize {
    let mut at = from;
    let mut is_escaped = false;
    for _ in 0..line.len() {
        let Some(byte) = line.get(at) else {
            return line.len();
        };
        if is_escaped {
            is_escaped = false;
        } else if *byte == quote {
            return at;
        } else {
            is_escaped = *byte == b'\\' && quote == b'"';
        }
        at = at.saturating_add(1);
    }
    line.len()
}

// Where the word ends that begins here.
fn end_of_word(line: &[u8], from: usize) -> usize {
    let mut at = from;
    for _ in 0..line.len() {
        match line.get(at) {
            Some(byte) if is_word_byte(*byte) => at = at.saturating_add(1),
            _ => return at,
        }
    }
    at
}

// Whether a byte may stand in a word without quotes.
fn is_word_byte(byte: u8) -> bool {
    byte.is_ascii_alphanumeric()
        || byte == b'_'
        || byte == b'-'
        || byte == b'.'
        || byte == b'+'
        || byte == b':'
}
