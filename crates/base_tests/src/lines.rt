//! A text that is told is written whole, and nothing is written of a line that there was no memory for.
//!
//! What a call ensures stays known after it, so each stands in a function of its own.
use crate::due::{are_due, is_due};
use byte_ends::{Gather, MemSink, Sink, WriteFault};
use net_units::OutOfMemory;
use std::process::Abort;
use std::test::Fail;
use text_writer::{ReportFault, do_line, finish, tell, tell_line};

// The text is told.
fn tells<K: Sink>(rt: &impl Abort, gather: &mut Gather, sink: &mut K, text: &[u8]) {
    is_due(rt, &tell(gather, sink, text), &Ok(()));
}

// The line is answered so.
fn answers<K: Sink>(
    rt: &impl Abort,
    gather: &mut Gather,
    sink: &mut K,
    line: Result<String, OutOfMemory>,
    answer: Result<(), ReportFault>,
) {
    is_due(rt, &tell_line(gather, sink, line), &answer);
}

// Writing what is still gathered is answered so.
fn ends<K: Sink>(rt: &impl Abort, gather: Gather, sink: &mut K, answer: Result<(), WriteFault>) {
    is_due(rt, &finish(gather, sink), &answer);
}

#[test]
fn a_text_is_told_line_by_line(rt: HostRuntime) -> Result<(), Fail> {
    let mut sink = MemSink::new(rt.alloc(), 100, 7, Vec::new(rt.alloc()))?;
    let mut gather = Gather::new(rt.alloc())?;
    tells(&rt, &mut gather, &mut sink, b"schedule\n");
    let line = do_line(rt.alloc(), "plane", 3);
    answers(&rt, &mut gather, &mut sink, line, Ok(()));
    let none = Err(OutOfMemory);
    answers(&rt, &mut gather, &mut sink, none, Err(ReportFault::Memory));
    ends(&rt, gather, &mut sink, Ok(()));
    are_due(&rt, sink.bytes(), b"schedule\ndo plane 3\n");
    Ok(())
}

#[test]
fn a_sink_that_fails_is_a_write_fault(rt: HostRuntime) -> Result<(), Fail> {
    let fails = Vec::from_slice(rt.alloc(), &[2])?;
    let mut sink = MemSink::new(rt.alloc(), 100, 7, fails)?;
    let mut gather = Gather::new(rt.alloc())?;
    tells(&rt, &mut gather, &mut sink, b"schedule\n");
    ends(&rt, gather, &mut sink, Err(WriteFault));
    are_due(&rt, sink.bytes(), b"schedul");
    Ok(())
}
