//! A source and a sink that fail at each of their calls in turn. The scenario is the one of three packets whose report is worked by
//! hand; what may have been written before a fault is counted off that report, seven bytes a write.
use super::{Ends, SOUND, ends_with};
use crate::status::Status;
use std::test::Fail;

const TABLE: &[&str] = &["play", "--packets"];

const INPUT: &str = "tenet 1
link A n1 n2 rate 1 cap 4 prop 2 buffer 100 levels 10 20 40
caller k1
open r1 route A contract 5 10 20 2 delay 12 rate
send r1 3 10 2
rounds 30
tail 0
";

const REPORT: &str = "accept r1 delay 12 levels 1
channel r1 offered 3 keeps delivered 3 least 4 worst 4 refused 0
link A clock 30 sent 3 full 0
end steps 33
channel,packet,hop,link,size,at,eligible,departed
r1,1,1,A,2,0,0,2
r1,2,1,A,2,10,10,12
r1,3,1,A,2,20,20,22
";

// Each read gives one byte; the last one that may fail would tell the end.
#[test]
fn a_source_that_fails_at_any_read_has_nothing_written(rt: HostRuntime) -> Result<(), Fail> {
    for failing_read in 1..INPUT.len() as u64 + 2 {
        let ends = Ends {
            block: 1,
            failing_read,
            ..SOUND
        };
        let told = (Status::ReadFault, "");
        ends_with(&rt, rt.alloc(), TABLE, INPUT.as_bytes(), ends, told)?;
    }
    Ok(())
}

// Each write takes seven bytes, so those before the one that fails have taken seven each.
#[test]
fn a_sink_that_fails_at_any_write_has_the_front(rt: HostRuntime) -> Result<(), Fail> {
    for failing_write in 1..REPORT.len().div_ceil(7) as u64 + 1 {
        let ends = Ends {
            piece: 7,
            failing_write,
            ..SOUND
        };
        let front = REPORT.get(..7 * (failing_write as usize - 1)).unwrap_or("");
        let told = (Status::WriteFault, front);
        ends_with(&rt, rt.alloc(), TABLE, INPUT.as_bytes(), ends, told)?;
    }
    Ok(())
}

#[test]
fn a_source_may_give_one_byte_a_read(rt: HostRuntime) -> Result<(), Fail> {
    let slow = Ends { block: 1, ..SOUND };
    let told = (Status::Done, REPORT);
    ends_with(&rt, rt.alloc(), TABLE, INPUT.as_bytes(), slow, told)
}

#[test]
fn a_sink_may_take_one_byte_a_write(rt: HostRuntime) -> Result<(), Fail> {
    let slow = Ends { piece: 1, ..SOUND };
    let told = (Status::Done, REPORT);
    ends_with(&rt, rt.alloc(), TABLE, INPUT.as_bytes(), slow, told)
}
