//! Moves that are read and written again, and those that are refused.
use crate::reading::{planned, writes};
use crate::refusing::refuses_all;
use call_script::{Op, Plan};
use net_units::ChanNo;
use scenario_reader::Cause;
use std::alloc::Global;
use std::process::Abort;
use std::test::Fail;

// Requests from n1 to n3 over one link and over two; of the last three, two end or begin elsewhere, and one has another contract.
const OPENED: &str = "tenet 6
link A n1 n2 rate 1 cap 4 prop 2 buffer 100 levels 10 20 40
link B n2 n3 rate 1 cap 4 prop 2 buffer 100 levels 10 20 40
link C n1 n3 rate 1 cap 4 prop 2 buffer 100 levels 10 20 40
caller k1
open east route C contract 5 10 20 2 delay 50 rate
open west route A B contract 5 10 20 2 delay 50 jitter 15
open again route C contract 5 10 20 2 delay 50 rate
open near route A contract 5 10 20 2 delay 50 rate
open far route B contract 5 10 20 2 delay 50 rate
open small route C contract 5 10 20 1 delay 50 rate
";

// As many packets as may be sent over one link, moved to two and moved back to one.
const MOVED: &str = "send east 65536 1 1
move east west
close east
move west again
close west
rounds 0
tail 0
";

fn channel(number: u32) -> Result<ChanNo, Fail> {
    Ok(ChanNo::new(number).ok_or("channel")?)
}

// What the first caller does once it has opened the six requests.
fn after_opens(plan: &Plan) -> &[Op] {
    match plan.callers() {
        [first, ..] => match first.ops.as_slice() {
            [_, _, _, _, _, _, after @ ..] => after,
            _ => &[],
        },
        [] => &[],
    }
}

// Whether it moves from the first channel to the second, closes the first, and moves back to the third.
fn has_moves(plan: &Plan) -> Result<bool, Fail> {
    let (east, west, again) = (channel(0)?, channel(1)?, channel(2)?);
    let there = Op::Move {
        old: east,
        new: west,
    };
    let back = Op::Move {
        old: west,
        new: again,
    };
    Ok(match after_opens(plan) {
        [_, moved, closed, moved_back, _] => {
            *moved == there && *closed == Op::Close(east) && *moved_back == back
        }
        _ => false,
    })
}

#[test]
fn moves_are_read_and_written_again(rt: HostRuntime) -> Result<(), Fail> {
    let alloc = rt.alloc();
    let text = format!(in alloc; "{OPENED}{MOVED}")?;
    let (plan, _) = planned(alloc, text.as_str())?;
    assert!(rt; has_moves(&plan)?);
    writes(&rt, alloc, &plan, text.as_str())
}

// The lines after the opens, a line, and its first cause. `.ci/refusals` has more.
const REFUSED: [(&str, &str, Cause); 16] = [
    ("", "move far gone", Cause::Unknown),
    ("caller k2\n", "move east west", Cause::Unknown),
    ("close east\n", "move east west", Cause::Closed),
    ("move east west\n", "move east east", Cause::Closed),
    ("move east west\n", "send east 1 1 1", Cause::Closed),
    ("move east west\nclose east\n", "close east", Cause::Closed),
    ("", "move east east", Cause::Move),
    ("", "move east small", Cause::Move),
    ("", "move near west", Cause::Move),
    ("", "move far west", Cause::Move),
    ("send west 1 1 1\n", "move east west", Cause::Move),
    ("close west\n", "move east west", Cause::Move),
    ("move west again\n", "move east west", Cause::Move),
    ("move again west\n", "move east west", Cause::Move),
    // over one link and then two: 3 · 87,382 = 262,146
    ("send east 87382 1 1\n", "move east west", Cause::Load),
    // what was moved onto it is moved on: 4 · 65,537 = 262,148
    (
        "send east 65537 1 1\nmove east west\n",
        "move west again",
        Cause::Load,
    ),
];

#[test]
fn a_move_is_refused_by_its_first_cause(rt: HostRuntime) -> Result<(), Fail> {
    refuses_all(&rt, rt.alloc(), OPENED, &REFUSED)
}
