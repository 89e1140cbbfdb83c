//! Runs that stop, each with why, and inputs that are refused.
use super::{Ends, FAILING_SOURCE, FIRST, Row, SHORT_SINK, SOUND, end_so, plays, refused};
use crate::status::Status;
use scenario_reader::Cause;
use std::alloc::Global;
use std::process::Abort;
use std::sync::Wait;
use std::test::Fail;
use std::thread::Threads;

const STOPS: [Row; 9] = [
    (&["play"], FIRST, SHORT_SINK, Status::WriteFault, "acce"),
    (&["play"], FIRST, FAILING_SOURCE, Status::ReadFault, ""),
    // The first read gives all bytes, and the second fails where it would tell their end.
    (&["play"], FIRST, FAILING_END, Status::ReadFault, ""),
    // The first read gives a whole line that is refused, so there is no second one to fail.
    (
        &["play"],
        "tenet 9\nlink",
        FAILING_AFTER,
        Status::Refused {
            line: 1,
            cause: Cause::Header,
        },
        "refused 1 header\n",
    ),
    (&[], FIRST, SOUND, Status::Words, ""),
    (&["fly"], FIRST, SOUND, Status::Words, ""),
    (&["play", "play"], FIRST, SOUND, Status::Words, ""),
    (&["--packets"], FIRST, SOUND, Status::Words, ""),
    (
        &["play", "--packets", "--packets"],
        FIRST,
        SOUND,
        Status::Words,
        "",
    ),
];

const FAILING_END: Ends = Ends {
    failing_read: 2,
    ..SOUND
};

const FAILING_AFTER: Ends = Ends {
    block: 8,
    ..FAILING_END
};

#[test]
fn a_run_that_stops_says_why(rt: HostRuntime) -> Result<(), Fail> {
    end_so(&rt, rt.alloc(), &STOPS)
}

// Inputs, each with the line that is refused.
const BAD_INPUTS: [(&str, u64, Cause, &str); 5] = [
    ("", 1, Cause::End, "refused 1 end\n"),
    ("tenet 01\n", 1, Cause::Header, "refused 1 header\n"),
    // A caller sends on the request of another.
    (
        "tenet 1
link A n1 n2 rate 1 cap 4 prop 2 buffer 100 levels 10 20 40
caller k1
open r1 route A contract 5 10 20 2 delay 12 rate
caller k2
send r1 1 1 1
rounds 0
tail 0
",
        6,
        Cause::Unknown,
        "refused 6 unknown\n",
    ),
    // The sends plan a packet too many.
    (
        "tenet 1
link A n1 n2 rate 1 cap 4 prop 2 buffer 100 levels 10 20 40
caller k1
open r1 route A contract 5 10 20 2 delay 12 rate
send r1 262144 1 1
send r1 1 1 1
rounds 0
tail 0
",
        6,
        Cause::Load,
        "refused 6 load\n",
    ),
    // The last line has no line feed.
    (
        "tenet 1
link A n1 n2 rate 1 cap 4 prop 2 buffer 100 levels 10 20 40
caller k1
open r1 route A contract 5 10 20 2 delay 12 rate
rounds 0
tail 0",
        6,
        Cause::Cut,
        "refused 6 cut\n",
    ),
];

fn are_refused<R: Threads + Wait + Abort + Sync>(
    rt: &R,
    alloc: Global,
    inputs: &[(&str, u64, Cause, &str)],
) -> Result<(), Fail> {
    for (input, line, cause, text) in inputs {
        plays(rt, alloc, input.as_bytes(), refused(*line, *cause), text)?;
    }
    Ok(())
}

#[test]
fn the_first_bad_line_is_refused(rt: HostRuntime) -> Result<(), Fail> {
    are_refused(&rt, rt.alloc(), &BAD_INPUTS)
}

// A header, and after it a line of this many bytes that doesn't end.
fn header_and(alloc: Global, second: &[u8], bytes: usize) -> Result<Vec<u8>, Fail> {
    let mut input = Vec::from_slice(alloc, b"tenet 1\n")?;
    input.extend_from_slice(second)?;
    input.resize(bytes, b'#')?;
    Ok(input)
}

#[test]
fn too_many_bytes_are_refused_after_the_whole_lines(rt: HostRuntime) -> Result<(), Fail> {
    let alloc = rt.alloc();
    let word = b"caller k1\n".as_slice();
    for (second, bytes, status, text) in [
        (
            b"".as_slice(),
            4_194_304,
            refused(2, Cause::Cut),
            "refused 2 cut\n",
        ),
        (b"".as_slice(), 4_194_305, Status::TooLong, ""),
        (word, 4_194_305, refused(2, Cause::Word), "refused 2 word\n"),
    ] {
        let input = header_and(alloc, second, bytes)?;
        plays(&rt, alloc, input.as_slice(), status, text)?;
    }
    Ok(())
}
