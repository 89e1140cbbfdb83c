//! Lines that are cut from a source, and pieces that a sink takes.
//!
//! What a call ensures stays known after it. So each call stands in a function of its own, which is proved once, and a test hands it what is
//! called and what is due.
use crate::due::{are_due, is_due};
use byte_ends::{
    Cut, Gather, LineRefusal, Lines, MemSink, MemSource, Sink, Source, SureSink, SureSource,
    WriteFault, put_all,
};
use std::process::Abort;
use std::test::Fail;

mod standard;

// The next call answers so.
fn answers<S: Source>(
    rt: &impl Abort,
    lines: &mut Lines,
    source: &mut S,
    answer: Result<Cut, LineRefusal>,
) {
    is_due(rt, &lines.read_line(source), &answer);
}

// The next call gives this line, with this number.
fn gives<S: Source>(rt: &impl Abort, lines: &mut Lines, source: &mut S, line: &[u8], number: u64) {
    answers(rt, lines, source, Ok(Cut::Line));
    are_due(rt, lines.line(), line);
    is_due(rt, &lines.number(), &number);
}

// The next call answers so, and so does the one after it; no line is in hand.
fn answers_twice<S: Source>(
    rt: &impl Abort,
    lines: &mut Lines,
    source: &mut S,
    answer: Result<Cut, LineRefusal>,
) {
    for _ in 0..2 {
        answers(rt, lines, source, answer);
        are_due(rt, lines.line(), b"");
    }
}

// The piece is gathered.
fn gathers<K: Sink>(rt: &impl Abort, gather: &mut Gather, sink: &mut K, piece: &[u8]) {
    is_due(rt, &gather.push(sink, piece), &Ok(()));
}

// The sink answers so to the piece.
fn puts<K: Sink>(rt: &impl Abort, sink: &mut K, piece: &[u8], answer: Result<(), WriteFault>) {
    is_due(rt, &put_all(sink, piece), &answer);
}

// The sink has these bytes, after so many faults.
fn has_taken(rt: &impl Abort, sink: &MemSink, bytes: &[u8], faults: u64) {
    are_due(rt, sink.bytes(), bytes);
    is_due(rt, &sink.faults(), &faults);
}

#[test]
fn gathered_pieces_are_written_when_there_is_no_room_and_at_the_end(
    rt: HostRuntime,
) -> Result<(), Fail> {
    let piece = vec![in rt.alloc(); b'x'; 65_535]?;
    let mut sink = MemSink::new(rt.alloc(), 70_000, 70_000, Vec::new(rt.alloc()))?;
    let mut gather = Gather::new(rt.alloc())?;
    gathers(&rt, &mut gather, &mut sink, piece.as_slice());
    is_due(&rt, &sink.bytes().len(), &0);
    gathers(&rt, &mut gather, &mut sink, b"abc");
    is_due(&rt, &sink.bytes().len(), &65_536);
    is_due(&rt, &gather.finish(&mut sink), &Ok(()));
    is_due(&rt, &sink.bytes().len(), &65_538);
    let mut all = piece;
    all.extend_from_slice(b"abc")?;
    assert!(rt; sink.bytes() == all.as_slice());
    Ok(())
}

#[test]
fn the_last_line_has_no_line_feed(rt: HostRuntime) -> Result<(), Fail> {
    let mut source = SureSource::new(Vec::from_slice(rt.alloc(), b"a\nb")?, 100);
    let mut lines = Lines::new(rt.alloc(), 1000)?;
    gives(&rt, &mut lines, &mut source, b"a", 1);
    answers_twice(
        &rt,
        &mut lines,
        &mut source,
        Err(LineRefusal::NoLineEnd { line: 2 }),
    );
    is_due(&rt, &lines.number(), &1);
    Ok(())
}

#[test]
fn all_bytes_are_given_at_the_end(rt: HostRuntime) -> Result<(), Fail> {
    let mut source = SureSource::new(Vec::from_slice(rt.alloc(), b"\nab\r\n")?, 2);
    let mut lines = Lines::new(rt.alloc(), 5)?;
    gives(&rt, &mut lines, &mut source, b"", 1);
    gives(&rt, &mut lines, &mut source, b"ab\r", 2);
    answers_twice(&rt, &mut lines, &mut source, Ok(Cut::End));
    Ok(())
}

#[test]
fn the_call_after_a_fault_goes_on(rt: HostRuntime) -> Result<(), Fail> {
    let bytes = Vec::from_slice(rt.alloc(), b"ab\nc\n")?;
    let fails = Vec::from_slice(rt.alloc(), &[2, 7])?;
    let mut source = MemSource::new(bytes, 1, fails);
    let mut lines = Lines::new(rt.alloc(), 1000)?;
    answers(&rt, &mut lines, &mut source, Err(LineRefusal::ReadFault));
    is_due(&rt, &source.faults(), &1);
    gives(&rt, &mut lines, &mut source, b"ab", 1);
    gives(&rt, &mut lines, &mut source, b"c", 2);
    answers(&rt, &mut lines, &mut source, Err(LineRefusal::ReadFault));
    is_due(&rt, &source.faults(), &2);
    answers_twice(&rt, &mut lines, &mut source, Ok(Cut::End));
    Ok(())
}

#[test]
fn a_byte_too_many_is_refused_after_the_whole_lines(rt: HostRuntime) -> Result<(), Fail> {
    let mut source = SureSource::new(Vec::from_slice(rt.alloc(), b"ab\ncd\nef\n")?, 100);
    let mut lines = Lines::new(rt.alloc(), 5)?;
    gives(&rt, &mut lines, &mut source, b"ab", 1);
    answers_twice(
        &rt,
        &mut lines,
        &mut source,
        Err(LineRefusal::TooLong { taken: 6 }),
    );
    Ok(())
}

#[test]
fn a_line_may_be_longer_than_a_block(rt: HostRuntime) -> Result<(), Fail> {
    let line = vec![in rt.alloc(); b'x'; 200_000]?;
    let mut bytes = line.clone()?;
    bytes.extend_from_slice(b"\ny\n")?;
    let mut source = SureSource::new(bytes, 100_000);
    let mut lines = Lines::new(rt.alloc(), 200_003)?;
    gives(&rt, &mut lines, &mut source, line.as_slice(), 1);
    gives(&rt, &mut lines, &mut source, b"y", 2);
    answers_twice(&rt, &mut lines, &mut source, Ok(Cut::End));
    Ok(())
}

#[test]
fn a_piece_is_written_whole_or_up_to_a_fault(rt: HostRuntime) -> Result<(), Fail> {
    let mut sink = MemSink::new(rt.alloc(), 9, 2, Vec::from_slice(rt.alloc(), &[5])?)?;
    puts(&rt, &mut sink, b"abcde", Ok(()));
    puts(&rt, &mut sink, b"", Ok(()));
    puts(&rt, &mut sink, b"fgh", Err(WriteFault));
    has_taken(&rt, &sink, b"abcdefg", 1);
    puts(&rt, &mut sink, b"hij", Err(WriteFault));
    has_taken(&rt, &sink, b"abcdefghi", 2);
    Ok(())
}

#[test]
fn a_sure_sink_counts(rt: HostRuntime) {
    let mut sink = SureSink::new();
    puts(&rt, &mut sink, b"abc", Ok(()));
    puts(&rt, &mut sink, b"de", Ok(()));
    is_due(&rt, &sink.count(), &5);
}
