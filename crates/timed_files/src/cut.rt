//! A scenario whose operations have ticks, cut into a scenario without them and the ticks.
use crate::at::{At, BadLine, Moment, at_in, is_operation};
use crate::refused::BadTimed;
use call_times::Times;
use field_units::Time;
use std::alloc::{AllocError, Global};

/// An operation's line.
#[derive(Clone, Copy)]
pub struct OpLine {
    /// The number of its caller, from 0.
    pub caller: usize,
    pub tick: u64,
    /// The line's number, from 1.
    pub line: u64,
    /// The time that was rounded up to the tick, if one was.
    pub rounded: Option<Time>,
}

/// A line `at TIME both FIRST SECOND`: of these requests of a caller both are to be accepted, or neither is kept.
#[derive(Drop)]
pub struct Pair {
    pub caller: usize,
    pub tick: u64,
    pub line: u64,
    pub first: Vec<u8>,
    pub second: Vec<u8>,
    /// Which one of them is closed there, if one is.
    pub closed: Option<Closed>,
}

/// Which request of a pair is closed.
#[derive(Clone, Copy, Debug, PartialEq, Eq)]
pub enum Closed {
    First,
    Second,
}

/// That at this line one request of a pair is closed.
#[derive(Clone, Copy)]
pub struct Closing {
    pub line: u64,
    pub which: Closed,
}

/// Such a scenario, cut.
#[derive(Drop)]
pub struct Cut {
    /// Its lines without ticks, with the numbers that they had.
    pub plain: Vec<u8>,
    /// Its operations, in their order.
    pub operations: Vec<OpLine>,
    /// Its pairs, in their order.
    pub pairs: Vec<Pair>,
    // The requests of this caller that pairs have closed so far.
    gone: Vec<Vec<u8>>,
    // Where the first operation stands, and its line's number, if no caller stands before it.
    nobodys: Option<(usize, u64)>,
    // The line with which it ends, if that has a tick.
    end: Option<u64>,
    // So many lines and callers so far, and the tick of the last operation of this caller.
    lines: u64,
    callers: usize,
    clock: u64,
}

/// Cuts a scenario, in which a tick is so long. At these lines a request of a pair is closed.
pub fn cut_scenario(
    alloc: Global,
    bytes: &[u8],
    tick: Option<Time>,
    closings: &[Closing],
) -> Result<Cut, BadTimed> {
    let mut cut = Cut {
        plain: Vec::with_capacity(alloc, bytes.len())?,
        operations: Vec::new(alloc),
        pairs: Vec::new(alloc),
        gone: Vec::new(alloc),
        nobodys: None,
        end: None,
        lines: 0,
        callers: 0,
        clock: 0,
    };
    for line in bytes.split(|byte| *byte == b'\n') {
        cut.take(alloc, line, tick, closings)?;
    }
    Ok(cut)
}

impl Cut {
    // Takes the next line.
    fn take(
        &mut self,
        alloc: Global,
        line: &[u8],
        tick: Option<Time>,
        closings: &[Closing],
    ) -> Result<(), BadTimed> {
        if self.lines > 0 {
            self.plain.push(b'\n')?;
        }
        self.lines = self.lines.saturating_add(1);
        if line.is_empty() || line.starts_with(b"#") {
            self.plain.extend_from_slice(line)?;
            return Ok(());
        }
        if self.end.is_some() {
            return Err(self.bad(BadLine::AfterEnd));
        }
        match line.strip_prefix(b"at ") {
            Some(rest) => match at_in(rest, tick) {
                Ok(at) => self.take_at(alloc, &at, closings),
                Err(why) => Err(self.bad(why)),
            },
            None => self.take_plain(alloc, line, closings),
        }
    }

    // This line is refused.
    fn bad(&self, why: BadLine) -> BadTimed {
        BadTimed::Line {
            line: self.lines,
            why,
        }
    }

    // Takes a line with a tick.
    fn take_at(
        &mut self,
        alloc: Global,
        at: &At<'_>,
        closings: &[Closing],
    ) -> Result<(), BadTimed> {
        if at.operation.starts_with(b"end") {
            return self.take_end(alloc, at);
        }
        if at.moment.tick < self.clock {
            return Err(self.bad(BadLine::Falls { before: self.clock }));
        }
        match at.operation.strip_prefix(b"both ") {
            Some(names) => self.take_pair(alloc, names, at.moment, closings),
            None => {
                self.take_operation(at.operation, at.moment)?;
                Ok(())
            }
        }
    }

    // Takes a pair: the line closes one of its requests, or is a note.
    fn take_pair(
        &mut self,
        alloc: Global,
        names: &[u8],
        moment: Moment,
        closings: &[Closing],
    ) -> Result<(), BadTimed> {
        let mut fields = names.split(|byte| *byte == b' ');
        let (Some(first), Some(second), None) = (fields.next(), fields.next(), fields.next()) else {
            return Err(self.bad(BadLine::Pair));
        };
        let closed = closed_at(closings, self.lines);
        let name = match closed {
            Some(Closed::Second) => second,
            _ => first,
        };
        let mut text = Vec::from_slice(alloc, b"close ")?;
        text.extend_from_slice(name)?;
        if closed.is_some() {
            self.take_operation(text.as_slice(), moment)?;
            self.gone.push(Vec::from_slice(alloc, name)?)?;
        } else {
            self.plain.extend_from_slice(b"# both")?;
        }
        self.clock = moment.tick;
        self.pairs.push(Pair {
            caller: self.callers.saturating_sub(1),
            tick: moment.tick,
            line: self.lines,
            first: Vec::from_slice(alloc, first)?,
            second: Vec::from_slice(alloc, second)?,
            closed,
        })?;
        Ok(())
    }

    // Takes the line with which it ends: so many rounds are made.
    fn take_end(&mut self, alloc: Global, at: &At<'_>) -> Result<(), BadTimed> {
        if at.operation != b"end".as_slice() {
            return Err(self.bad(BadLine::Operation));
        }
        let tick = at.moment.tick;
        let rounds = format!(in alloc; "rounds {tick}")?;
        self.plain.extend_from_slice(rounds.as_bytes())?;
        self.end = Some(self.lines);
        Ok(())
    }

    // Takes an operation at a tick. One on a request that a pair has closed is a note.
    fn take_operation(&mut self, text: &[u8], moment: Moment) -> Result<(), AllocError> {
        if self.is_on_gone(text) {
            self.clock = moment.tick;
            self.plain.extend_from_slice(b"# ")?;
            return self.plain.extend_from_slice(text);
        }
        if self.callers == 0 {
            self.nobodys = Some((self.plain.len(), self.lines));
            self.callers = 1;
        }
        self.operations.push(OpLine {
            caller: self.callers.saturating_sub(1),
            tick: moment.tick,
            line: self.lines,
            rounded: moment.rounded,
        })?;
        self.clock = moment.tick;
        self.plain.extend_from_slice(text)
    }

    // Whether an operation is on a request that a pair has closed.
    fn is_on_gone(&self, text: &[u8]) -> bool {
        let Some(name) = text.split(|byte| *byte == b' ').nth(1) else {
            return false;
        };
        self.gone
            .iter()
            .any(|gone: &Vec<u8>| gone.as_slice() == name)
    }

    // Takes a line without a tick: an operation has that of the one above it.
    fn take_plain(
        &mut self,
        alloc: Global,
        line: &[u8],
        closings: &[Closing],
    ) -> Result<(), BadTimed> {
        let word = line.split(|byte| *byte == b' ').next().unwrap_or(&[]);
        if word == b"schedule".as_slice() || word == b"do".as_slice() {
            return Err(self.bad(BadLine::Schedule));
        }
        let moment = Moment {
            tick: self.clock,
            rounded: None,
        };
        if let Some(names) = line.strip_prefix(b"both ") {
            return self.take_pair(alloc, names, moment, closings);
        }
        if is_operation(word) {
            self.take_operation(line, moment)?;
            return Ok(());
        }
        if word == b"caller".as_slice() {
            self.callers = self.callers.saturating_add(1);
            self.clock = 0;
            self.gone.clear();
        }
        self.plain.extend_from_slice(line)?;
        Ok(())
    }

    /// The scenario without ticks: a caller `calls` stands before operations that are nobody's, and a tail at the end where that has a tick.
    pub fn scenario(&self, alloc: Global) -> Result<Vec<u8>, AllocError> {
        let mut text = Vec::with_capacity(alloc, self.plain.len().saturating_add(32))?;
        let place = match self.nobodys {
            Some((place, _)) => place,
            None => 0,
        };
        let (front, back) = match (self.plain.get(..place), self.plain.get(place..)) {
            (Some(front), Some(back)) => (front, back),
            _ => (self.plain.as_slice(), self.plain.get(..0).unwrap_or(&[])),
        };
        text.extend_from_slice(front)?;
        if self.nobodys.is_some() {
            text.extend_from_slice(b"caller calls\n")?;
        }
        text.extend_from_slice(back)?;
        if self.end.is_some() {
            if !ends_line(back) {
                text.push(b'\n')?;
            }
            text.extend_from_slice(b"tail 0\n")?;
        }
        Ok(text)
    }

    /// The number that a line of the scenario without ticks has in the file.
    pub fn line_in_file(&self, line: u64) -> u64 {
        let line = match self.nobodys {
            Some((_, place)) if line > place => line.saturating_sub(1),
            _ => line,
        };
        match self.end {
            Some(end) => line.min(end),
            None => line,
        }
    }

    /// The ticks of the operations of so many callers.
    pub fn times(&self, alloc: Global, callers: usize) -> Result<Vec<Times>, AllocError> {
        let mut times = Vec::new(alloc);
        for caller in 0..callers {
            times.push(Times {
                ticks: self.ticks_of(alloc, caller)?,
            })?;
        }
        Ok(times)
    }

    // The ticks of a caller's operations.
    fn ticks_of(&self, alloc: Global, caller: usize) -> Result<Vec<u64>, AllocError> {
        let mut ticks = Vec::new(alloc);
        for operation in &self.operations {
            if operation.caller == caller {
                ticks.push(operation.tick)?;
            }
        }
        Ok(ticks)
    }

    /// The number of the line of a caller's operation at this place, or 0 where there is none.
    pub fn line_of(&self, caller: usize, place: usize) -> u64 {
        let mut passed: usize = 0;
        for operation in &self.operations {
            if operation.caller == caller {
                if passed == place {
                    return operation.line;
                }
                passed = passed.saturating_add(1);
            }
        }
        0
    }
}

// Whether the bytes are empty or end with a line feed.
fn ends_line(bytes: &[u8]) -> bool {
    match bytes.last() {
        Some(byte) => *byte == b'\n',
        None => true,
    }
}

// Which request is closed at this line, if one is.
fn closed_at(closings: &[Closing], line: u64) -> Option<Closed> {
    for closing in closings {
        if closing.line == line {
            return Some(closing.which);
        }
    }
    None
}
