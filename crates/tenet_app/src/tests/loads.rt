//! Loads that are made from a number and a size. The summaries were worked by hand from the draws: of the number 1 the first request goes over three
//! links and sends 12 packets, and the second over the other three and sends 16.
use super::{FAILING_SOURCE, Row, SHORT_SINK, end_so};
use crate::status::Status;
use byte_ends::MemSink;
use call_script::{Dos, Plan, Schedule};
use load_maker::made;
use scenario_reader::write_plan;
use std::alloc::Global;
use std::process::Abort;
use std::test::Fail;

// Nothing is read, so no read fails.
const LOADS: [Row; 2] = [
    (
        &["make", "1", "2"],
        "",
        FAILING_SOURCE,
        Status::Done,
        "made 1 2 accepted 2 denied 0 delivered 28 steps 20070\n",
    ),
    (
        &["make", "1", "1"],
        "",
        SHORT_SINK,
        Status::WriteFault,
        "made",
    ),
];

#[test]
fn a_load_tells_its_summary(rt: HostRuntime) -> Result<(), Fail> {
    end_so(&rt, rt.alloc(), &LOADS)
}

// The lines of a plan without a schedule.
fn lines(alloc: Global, plan: &Plan) -> Result<Vec<u8>, Fail> {
    let schedule = Schedule {
        written: false,
        items: Dos::new(Vec::new(alloc)),
    };
    let mut sink = MemSink::new(alloc, 4_096, 4_096, Vec::new(alloc))?;
    write_plan(alloc, plan, &schedule, &mut sink)?;
    Ok(Vec::from_slice(alloc, sink.bytes())?)
}

// The lines of the load that is made from the number 2 and the size 10.
fn made_lines(alloc: Global) -> Result<Vec<u8>, Fail> {
    let plan = made(alloc, 2, 10)?;
    lines(alloc, &plan)
}

// The draws from 2 on, line by line, by a program of its own: each of the four contracts and of the lengths of a route, a caller's third
// request with the close of its first, and both kinds of jitter control.
#[test]
fn a_load_has_these_lines(rt: HostRuntime) -> Result<(), Fail> {
    let text = "tenet 1
link L1 n1 n2 rate 10 cap 100 prop 5 buffer 65536 levels 100 400 1600
link L2 n2 n3 rate 10 cap 100 prop 5 buffer 65536 levels 100 400 1600
link L3 n3 n4 rate 10 cap 100 prop 5 buffer 65536 levels 100 400 1600
link L4 n4 n5 rate 10 cap 100 prop 5 buffer 65536 levels 100 400 1600
caller k1
open r1 route L2 contract 10 50 500 30 delay 905 jitter 400
send r1 8 50 30
open r5 route L1 L2 contract 200 200 200 20 delay 610 jitter 400
send r5 3 200 20
open r9 route L3 L4 contract 50 100 400 100 delay 210 rate
send r9 13 100 100
close r1
caller k2
open r2 route L2 contract 200 200 200 20 delay 1305 jitter 400
send r2 4 200 20
open r6 route L3 L4 contract 200 200 200 20 delay 210 jitter 400
send r6 13 200 20
open r10 route L1 L2 L3 L4 contract 10 50 500 30 delay 1620 rate
send r10 4 50 30
close r2
caller k3
open r3 route L4 contract 10 50 500 30 delay 105 jitter 400
send r3 7 50 30
open r7 route L1 L2 L3 L4 contract 200 200 200 20 delay 1220 rate
send r7 2 200 20
caller k4
open r4 route L2 L3 L4 contract 20 40 200 50 delay 715 rate
send r4 1 40 50
open r8 route L2 L3 contract 20 40 200 50 delay 1410 jitter 400
send r8 13 40 50
rounds 4000
tail 1000
";
    assert_eq!(rt; made_lines(rt.alloc())?.as_slice(), text.as_bytes());
    Ok(())
}
