//! What the adapters ask of a reader and a writer, over one that notes it and whose first calls fail.
use super::puts;
use crate::due::{are_due, is_due};
use byte_ends::{Put, Sink, Source, StdSink, StdSource, Took, WriteFault};
use std::alloc::Global;
use std::io::{self, Error, ErrorKind, Read, Write};
use std::process::Abort;

// This many calls fail in this way before one succeeds.
#[derive(Clone, Copy)]
struct Trouble {
    times: u32,
    kind: ErrorKind,
}

const NONE: Trouble = Trouble {
    times: 0,
    kind: ErrorKind::Other,
};

const ONE_FAILURE: Trouble = Trouble { times: 1, ..NONE };

const INTERRUPTED_ONCE: Trouble = Trouble {
    times: 1,
    kind: ErrorKind::Interrupted,
};

const INTERRUPTED_OFTEN: Trouble = Trouble {
    times: 64,
    kind: ErrorKind::Interrupted,
};

const INTERRUPTED_TOO_OFTEN: Trouble = Trouble {
    times: 65,
    kind: ErrorKind::Interrupted,
};

impl Trouble {
    fn meet(&mut self) -> io::Result<()> {
        if self.times == 0 {
            return Ok(());
        }
        self.times -= 1;
        Err(Error::from(self.kind))
    }
}

#[derive(Clone, Copy, Debug, PartialEq, Eq)]
enum Call {
    Write,
    Flush,
}

// A reader of the byte `a`, and a writer that keeps the bytes and the order of the calls that succeed. A call moves at most
// `most` bytes.
#[derive(Drop)]
struct Fake {
    most: usize,
    calls: Trouble,
    flushes: Trouble,
    bytes: Vec<u8>,
    order: Vec<Call>,
}

impl Fake {
    fn new(alloc: Global, most: usize, calls: Trouble, flushes: Trouble) -> Fake {
        Fake {
            most,
            calls,
            flushes,
            bytes: Vec::new(alloc),
            order: Vec::new(alloc),
        }
    }
}

impl Read for Fake {
    fn read(&mut self, room: &mut [u8]) -> io::Result<usize> {
        self.calls.meet()?;
        let count = room.len().min(self.most);
        room[..count].fill(b'a');
        Ok(count)
    }
}

impl Write for Fake {
    fn write(&mut self, piece: &[u8]) -> io::Result<usize> {
        self.calls.meet()?;
        let count = piece.len().min(self.most);
        self.bytes.extend_from_slice(&piece[..count])?;
        self.order.push(Call::Write)?;
        Ok(count)
    }

    fn flush(&mut self) -> io::Result<()> {
        self.flushes.meet()?;
        self.order.push(Call::Flush)?;
        Ok(())
    }
}

// How many bytes a call moves at most and how the first calls fail; then what a read of four bytes answers, the bytes after it, and the faults.
type Reading = (usize, Trouble, Took, [u8; 4], u64);

const READINGS: [Reading; 5] = [
    (2, NONE, Took::Taken(2), *b"aa..", 0),
    (2, INTERRUPTED_OFTEN, Took::Taken(2), *b"aa..", 0),
    (2, INTERRUPTED_TOO_OFTEN, Took::Failed, *b"....", 1),
    (2, ONE_FAILURE, Took::Failed, *b"....", 1),
    (0, INTERRUPTED_ONCE, Took::End, *b"....", 0),
];

fn reads_so(rt: &impl Abort, alloc: Global, (most, calls, took, room_after, faults): &Reading) {
    let mut room = *b"....";
    let mut source = StdSource::new(Fake::new(alloc, *most, *calls, NONE));
    is_due(rt, &source.read(&mut room), took);
    is_due(rt, &room, room_after);
    is_due(rt, &source.faults(), faults);
}

#[test]
fn an_interrupted_read_is_tried_again_64_times(rt: HostRuntime) {
    for reading in &READINGS {
        reads_so(&rt, rt.alloc(), reading);
    }
}

const WRITTEN: [Call; 2] = [Call::Write, Call::Flush];

// How many bytes a call moves at most, and how the first writes and the first flushes fail; then what a write of three bytes answers, the
// bytes written, and the calls that succeed.
type Writing = (usize, Trouble, Trouble, Put, &'static str, &'static [Call]);

const WRITINGS: [Writing; 8] = [
    (2, NONE, NONE, Put::Wrote(2), "ab", &WRITTEN),
    (2, INTERRUPTED_OFTEN, NONE, Put::Wrote(2), "ab", &WRITTEN),
    (2, INTERRUPTED_TOO_OFTEN, NONE, Put::Failed, "", &[]),
    (2, ONE_FAILURE, NONE, Put::Failed, "", &[]),
    (2, NONE, INTERRUPTED_OFTEN, Put::Wrote(2), "ab", &WRITTEN),
    (
        2,
        NONE,
        INTERRUPTED_TOO_OFTEN,
        Put::Failed,
        "ab",
        &[Call::Write],
    ),
    (2, NONE, ONE_FAILURE, Put::Failed, "ab", &[Call::Write]),
    (0, INTERRUPTED_ONCE, NONE, Put::Failed, "", &[Call::Write]),
];

// The fake has these bytes, after these calls.
fn has_met(rt: &impl Abort, fake: &Fake, bytes: &str, order: &[Call]) {
    are_due(rt, fake.bytes.as_slice(), bytes.as_bytes());
    are_due(rt, fake.order.as_slice(), order);
}

fn writes_so(rt: &impl Abort, alloc: Global, (most, calls, flushes, put, bytes, order): &Writing) {
    let mut fake = Fake::new(alloc, *most, *calls, *flushes);
    let mut sink = StdSink::new(&mut fake);
    is_due(rt, &sink.write(b"abc"), put);
    let faults = if *put == Put::Failed { 1 } else { 0 };
    is_due(rt, &sink.faults(), &faults);
    has_met(rt, &fake, bytes, order);
}

#[test]
fn a_write_is_flushed_and_both_are_tried_again_64_times(rt: HostRuntime) {
    for writing in &WRITINGS {
        writes_so(&rt, rt.alloc(), writing);
    }
}

#[test]
fn the_call_after_a_fault_goes_on(rt: HostRuntime) {
    let mut source = StdSource::new(Fake::new(rt.alloc(), 1, ONE_FAILURE, NONE));
    let mut room = [0];
    is_due(&rt, &source.read(&mut room), &Took::Failed);
    is_due(&rt, &source.read(&mut room), &Took::Taken(1));
    is_due(&rt, &source.faults(), &1);
    let mut fake = Fake::new(rt.alloc(), 2, ONE_FAILURE, NONE);
    let mut sink = StdSink::new(&mut fake);
    puts(&rt, &mut sink, b"abc", Err(WriteFault));
    puts(&rt, &mut sink, b"abc", Ok(()));
    is_due(&rt, &sink.faults(), &1);
    let order = [Call::Write, Call::Flush, Call::Write, Call::Flush];
    has_met(&rt, &fake, "abc", &order);
}
