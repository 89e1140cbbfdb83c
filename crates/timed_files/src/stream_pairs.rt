//! A design with pairs of streams, as a scenario whose operations have ticks: a note `# both FIRST SECOND` of a design says that of these two
//! streams both are to be accepted, or neither is kept.
use crate::at::{BadLine, is_operation};
use crate::refused::BadTimed;
use byte_ends::MemSink;
use call_script::{CallerEntry, Dos, Op, Plan, Schedule};
use design_file::CallerTimes;
use network_files::Network;
use scenario_reader::write_plan;
use std::alloc::{AllocError, Global};
use std::str;

// The most bytes of a scenario.
const MOST_BYTES: usize = 4_194_304;

/// A pair of streams.
#[derive(Drop)]
pub struct StreamPair {
    /// The caller that asks for both.
    pub caller: usize,
    /// The tick by which both are asked for.
    pub tick: u64,
    pub first: Vec<u8>,
    pub second: Vec<u8>,
}

// Where a stream is asked for.
#[derive(Clone, Copy)]
struct Begin {
    caller: usize,
    tick: u64,
}

/// The pairs of a design with these bytes, in the order of its lines.
pub fn stream_pairs(
    alloc: Global,
    network: &Network,
    bytes: &[u8],
) -> Result<Vec<StreamPair>, BadTimed> {
    let mut pairs = Vec::new(alloc);
    let mut number: u64 = 0;
    for line in bytes.split(|byte| *byte == b'\n') {
        number = number.saturating_add(1);
        if let Some(names) = line.strip_prefix(b"# both ") {
            match pair_of(alloc, network, names.trim_ascii())? {
                Some(pair) => pairs.push(pair)?,
                None => {
                    return Err(BadTimed::Line {
                        line: number,
                        why: BadLine::Streams,
                    });
                }
            }
        }
    }
    Ok(pairs)
}

// The pair of these names: None where they aren't two streams of one group.
fn pair_of(
    alloc: Global,
    network: &Network,
    names: &[u8],
) -> Result<Option<StreamPair>, AllocError> {
    let mut fields = names.split(|byte| *byte == b' ');
    let (Some(first), Some(second), None) = (fields.next(), fields.next(), fields.next()) else {
        return Ok(None);
    };
    let (Some(one), Some(other)) = (begin_of(network, first), begin_of(network, second)) else {
        return Ok(None);
    };
    if one.caller != other.caller {
        return Ok(None);
    }
    Ok(Some(StreamPair {
        caller: one.caller,
        tick: one.tick.max(other.tick),
        first: Vec::from_slice(alloc, first)?,
        second: Vec::from_slice(alloc, second)?,
    }))
}

// Where the stream of this name is asked for.
fn begin_of(network: &Network, name: &[u8]) -> Option<Begin> {
    for entry in network.plan.requests() {
        if entry.name.as_bytes() == name {
            let caller = usize::from(entry.caller.get());
            let asking = network.plan.callers().get(caller)?;
            let place = place_of_open(asking, entry.request.chan.get())?;
            let operation = network.times.get(caller)?.operations.get(place)?;
            return Some(Begin {
                caller,
                tick: operation.tick,
            });
        }
    }
    None
}

// The place among a caller's operations at which it opens the channel of a number.
fn place_of_open(caller: &CallerEntry, number: u32) -> Option<usize> {
    caller
        .ops
        .as_slice()
        .iter()
        .position(|op: &Op| opens(op, number))
}

fn opens(op: &Op, number: u32) -> bool {
    match op {
        Op::Open(chan) => chan.get() == number,
        _ => false,
    }
}

/// The scenario of a design whose operations have these ticks, with a line `at TIME both FIRST SECOND` for each of these pairs, once all of that tick
/// is done. A note on its tick stands first.
pub fn paired_text(
    alloc: Global,
    network: &Network,
    pairs: &[StreamPair],
) -> Result<String, BadTimed> {
    let mut text = match network.tick {
        Some(tick) => format!(in alloc; "# tick {tick}\n")?,
        None => String::new(alloc),
    };
    let mut sink = MemSink::new(alloc, MOST_BYTES, MOST_BYTES, Vec::new(alloc))?;
    let schedule = Schedule {
        written: false,
        items: Dos::new(Vec::new(alloc)),
    };
    if write_plan(alloc, &network.plan, &schedule, &mut sink).is_err() {
        return Err(BadTimed::TooLong);
    }
    let mut callers = Callers {
        number: 0,
        place: 0,
        tick: 0,
    };
    for line in str::from_utf8(sink.bytes()).unwrap_or("").lines() {
        callers.push_line(alloc, &mut text, line, network.times.as_slice(), pairs)?;
    }
    Ok(text)
}

// How far the callers' lines are written: so many callers have begun, and so many operations of the last one are written, the last at this tick.
#[derive(Clone, Copy)]
struct Callers {
    number: usize,
    place: usize,
    tick: u64,
}

impl Callers {
    // Adds the next line of a scenario, with its tick if it is an operation's. Pairs whose tick is over come before it.
    fn push_line(
        &mut self,
        alloc: Global,
        text: &mut String,
        line: &str,
        times: &[CallerTimes],
        pairs: &[StreamPair],
    ) -> Result<(), AllocError> {
        let word = line.split(' ').next().unwrap_or("");
        if is_operation(word.as_bytes()) {
            let tick = self.tick_of(times);
            self.push_pairs(alloc, text, pairs, tick)?;
            text.push_str(format!(in alloc; "at {tick} ")?.as_str())?;
            self.place = self.place.saturating_add(1);
        } else if word == "caller" || word == "rounds" {
            self.push_pairs(alloc, text, pairs, u64::MAX)?;
            self.number = self.number.saturating_add(1);
            self.place = 0;
            self.tick = 0;
        }
        text.push_str(line)?;
        text.push('\n')
    }

    // The tick of the next operation.
    fn tick_of(&self, times: &[CallerTimes]) -> u64 {
        match times.get(self.number.saturating_sub(1)) {
            Some(own) => match own.operations.get(self.place) {
                Some(operation) => operation.tick,
                None => self.tick,
            },
            None => self.tick,
        }
    }

    // Adds the pairs of this caller whose ticks are before this one, and not before the last.
    fn push_pairs(
        &mut self,
        alloc: Global,
        text: &mut String,
        pairs: &[StreamPair],
        before: u64,
    ) -> Result<(), AllocError> {
        for pair in pairs {
            let is_own = pair.caller.saturating_add(1) == self.number;
            if is_own && self.tick <= pair.tick && pair.tick < before {
                push_pair(alloc, text, pair)?;
            }
        }
        self.tick = before;
        Ok(())
    }
}

// Adds the line of a pair.
fn push_pair(alloc: Global, text: &mut String, pair: &StreamPair) -> Result<(), AllocError> {
    let tick = pair.tick;
    let first = str::from_utf8(pair.first.as_slice()).unwrap_or("?");
    let second = str::from_utf8(pair.second.as_slice()).unwrap_or("?");
    text.push_str(format!(in alloc; "at {tick} both {first} {second}\n")?.as_str())
}
