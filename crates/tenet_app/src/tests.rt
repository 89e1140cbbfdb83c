//! Runs over ends in memory, which may fail, and runs whose threads are held at a gate. What the program writes for a scenario stands in
//! cases/, with reports worked by hand.

use crate::status::Status;
use crate::top::top;
use byte_ends::{MemSink, MemSource, Sink, Source};
use net_units::{Gate, NoGate};
use scenario_reader::Cause;
use std::alloc::Global;
use std::process::Abort;
use std::sync::Wait;
use std::test::Fail;
use std::thread::Threads;

mod audits;
mod faults;
mod loads;
mod many;
mod meeting;
mod races;
mod stops;
mod workers;

const FIRST: &str = "tenet 1
link A n1 n2 rate 1 cap 4 prop 2 buffer 100 levels 10 20 40
caller k1
open r1 route A contract 5 10 20 2 delay 12 rate
rounds 0
tail 0
";

const FIRST_REPORT: &str = "accept r1 delay 12 levels 1
channel r1 offered 0 keeps delivered 0 least - worst - refused 0
link A clock 0 sent 0 full 0
end steps 2
";

// How the ends of a run behave: the bytes that a read gives and a write takes at most, and the read and the write
// that fail, counted from 1.
#[derive(Clone, Copy)]
struct Ends {
    block: usize,
    piece: usize,
    failing_read: u64,
    failing_write: u64,
}

const SOUND: Ends = Ends {
    block: 65_536,
    piece: 65_536,
    failing_read: 0,
    failing_write: 0,
};

const FAILING_SOURCE: Ends = Ends {
    failing_read: 1,
    ..SOUND
};

const SHORT_SINK: Ends = Ends {
    piece: 4,
    failing_write: 2,
    ..SOUND
};

// How the program ends, and whether it hands back a race. What `top` ensures is long, and isn't known after this.
fn ended<R: Threads + Wait + Sync, S: Source, K: Sink, G: Gate + Sync>(
    rt: &R,
    alloc: Global,
    words: &[String],
    source: &mut S,
    sink: &mut K,
    gate: &G,
) -> (Status, bool) {
    let ended = top(rt, alloc, words, source, sink, gate);
    (ended.status, ended.raced.is_some())
}

fn strings(alloc: Global, words: &[&str]) -> Result<Vec<String>, Fail> {
    let mut strings = Vec::new(alloc);
    for word in words {
        strings.push(String::from_str(alloc, word)?)?;
    }
    Ok(strings)
}

// What a run of the program in memory has come to.
#[derive(Drop)]
struct Outcome {
    status: Status,
    raced: bool,
    bytes: Vec<u8>,
}

fn source(alloc: Global, input: &[u8], ends: Ends) -> Result<MemSource, Fail> {
    if ends.block == 0 {
        return Err(Fail::from("a read of no bytes"));
    }
    let input = Vec::from_slice(alloc, input)?;
    let failing = Vec::from_slice(alloc, &[ends.failing_read])?;
    Ok(MemSource::new(input, ends.block, failing))
}

fn sink(alloc: Global, ends: Ends) -> Result<MemSink, Fail> {
    if ends.piece == 0 {
        return Err(Fail::from("a write of no bytes"));
    }
    let failing = Vec::from_slice(alloc, &[ends.failing_write])?;
    Ok(MemSink::new(alloc, 200_000, ends.piece, failing)?)
}

fn run<R: Threads + Wait + Sync, G: Gate + Sync>(
    rt: &R,
    alloc: Global,
    words: &[&str],
    input: &[u8],
    ends: Ends,
    gate: &G,
) -> Result<Outcome, Fail> {
    let words = strings(alloc, words)?;
    let mut source = source(alloc, input, ends)?;
    let mut sink = sink(alloc, ends)?;
    let (status, raced) = ended(rt, alloc, words.as_slice(), &mut source, &mut sink, gate);
    let bytes = Vec::from_slice(alloc, sink.bytes())?;
    Ok(Outcome {
        status,
        raced,
        bytes,
    })
}

// A run of the program in memory ends with this status and has written this text.
fn ends_with<R: Threads + Wait + Abort + Sync>(
    rt: &R,
    alloc: Global,
    words: &[&str],
    input: &[u8],
    ends: Ends,
    (status, text): (Status, &str),
) -> Result<(), Fail> {
    let run = run(rt, alloc, words, input, ends, &NoGate)?;
    assert_eq!(rt; run.status, status);
    assert_eq!(rt; run.bytes.as_slice(), text.as_bytes());
    Ok(())
}

// The word `play` over this input ends with this status and has written this text.
fn plays<R: Threads + Wait + Abort + Sync>(
    rt: &R,
    alloc: Global,
    input: &[u8],
    status: Status,
    text: &str,
) -> Result<(), Fail> {
    ends_with(rt, alloc, &["play"], input, SOUND, (status, text))
}

fn refused(line: u64, cause: Cause) -> Status {
    Status::Refused { line, cause }
}

// The words, the input, how the ends behave, the status and what is written.
type Row = (
    &'static [&'static str],
    &'static str,
    Ends,
    Status,
    &'static str,
);

// Each run ends like this. A table is gone through where its rows aren't known, which keeps them out of the facts of each step.
fn end_so<R: Threads + Wait + Abort + Sync>(
    rt: &R,
    alloc: Global,
    rows: &[Row],
) -> Result<(), Fail> {
    for (words, input, ends, status, text) in rows {
        let told = (*status, *text);
        ends_with(rt, alloc, words, input.as_bytes(), *ends, told)?;
    }
    Ok(())
}

#[test]
fn it_reads_and_writes_in_pieces(rt: HostRuntime) -> Result<(), Fail> {
    let ends = Ends {
        block: 7,
        piece: 7,
        ..SOUND
    };
    let told = (Status::Done, FIRST_REPORT);
    ends_with(&rt, rt.alloc(), &["play"], FIRST.as_bytes(), ends, told)
}
