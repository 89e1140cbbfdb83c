//! A plan of 1,024 requests, the most that there may be. Each brings one packet of 2 ticks into any 2,048, and all of them
//! and a packet of 12 ticks, 2,060 in all, fit the 2,100 ticks of level 1.
use super::{Ends, SOUND, ends_with, plays};
use crate::status::Status;
use std::alloc::{AllocError, Global};
use std::fmt::Write;
use std::process::Abort;
use std::sync::Wait;
use std::test::Fail;
use std::thread::Threads;

// The lines up to the last request.
fn requests(alloc: Global) -> Result<String, AllocError> {
    let mut text = String::new(alloc);
    writeln!(
        text,
        "tenet 1\nlink A n1 n2 rate 125 cap 1500 prop 50 buffer 262144 levels 2100 4000 8000\ncaller k1"
    )?;
    for place in 1..1025_u32 {
        writeln!(
            text,
            "open r{place} route A contract 8000 8000 8000 200 delay 2150 rate"
        )?;
    }
    Ok(text)
}

fn report(alloc: Global) -> Result<String, AllocError> {
    let mut text = String::new(alloc);
    for place in 1..1025_u32 {
        writeln!(text, "accept r{place} delay 2150 levels 1")?;
    }
    for place in 1..1025_u32 {
        writeln!(
            text,
            "channel r{place} offered 0 keeps delivered 0 least - worst - refused 0"
        )?;
    }
    writeln!(text, "link A clock 1 sent 0 full 0\nend steps 2049")?;
    Ok(text)
}

const LATE_READ: Ends = Ends {
    block: 4_096,
    failing_read: 15,
    ..SOUND
};

const FIRST_WRITE: Ends = Ends {
    failing_write: 1,
    ..SOUND
};

// Want of memory is told for none of the other ends.
fn ends_alike<R: Threads + Wait + Abort + Sync>(
    rt: &R,
    alloc: Global,
    input: &[u8],
    report: &str,
) -> Result<(), Fail> {
    let words = ["play"];
    ends_with(rt, alloc, &words, input, SOUND, (Status::Done, report))?;
    ends_with(rt, alloc, &words, input, LATE_READ, (Status::ReadFault, ""))?;
    ends_with(
        rt,
        alloc,
        &words,
        input,
        FIRST_WRITE,
        (Status::WriteFault, ""),
    )
}

// These bytes are too many where more come after them.
fn is_too_long<R: Threads + Wait + Abort + Sync>(
    rt: &R,
    alloc: Global,
    front: &[u8],
) -> Result<(), Fail> {
    let mut over = Vec::from_slice(alloc, front)?;
    over.resize(4_194_305, b'#')?;
    plays(rt, alloc, over.as_slice(), Status::TooLong, "")
}

#[test]
fn a_plan_of_1024_requests_ends_as_smaller_ones_do(rt: HostRuntime) -> Result<(), Fail> {
    let alloc = rt.alloc();
    let front = requests(alloc)?;
    is_too_long(&rt, alloc, front.as_bytes())?;
    let input = format!(in alloc; "{front}rounds 1\ntail 0\n")?;
    let report = report(alloc)?;
    ends_alike(&rt, alloc, input.as_bytes(), report.as_str())
}
