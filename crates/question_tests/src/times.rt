//! Schedules that were worked out by hand: the steps of each item, with its actor and the tick at which it begins.
use crate::due::is_due;
use byte_ends::SureSource;
use call_script::Plan;
use call_times::{Made, Times, TimesFault, schedule_at};
use scenario_reader::read_plan;
use std::alloc::Global;
use std::test::Fail;

// Three links in a row, and requests that each link offers 10 ticks.
const THREE: &str = "\
tenet 1
link A n1 n2 rate 1 cap 4 prop 2 buffer 100 levels 10 20 40
link B n2 n3 rate 1 cap 4 prop 2 buffer 100 levels 10 20 40
link C n3 n4 rate 1 cap 4 prop 2 buffer 100 levels 10 20 40
caller calls
open r1 route A B C contract 5 10 20 2 delay 36 jitter 10
send r1 5 10 2
close r1
open r2 route A B C contract 5 10 20 2 delay 36 jitter 10
open r3 route A B C contract 5 10 20 2 delay 36 jitter 10
rounds 100
tail 0
";

fn plan_of(alloc: Global, text: &str) -> Result<Plan, Fail> {
    let mut source = SureSource::new(Vec::from_slice(alloc, text.as_bytes())?, 65_536);
    match read_plan(alloc, &mut source) {
        Ok((plan, _)) => Ok(plan),
        Err(refusal) => Err(Fail::new(format!(in alloc; "{refusal}")?.as_str())),
    }
}

// The ticks of callers, whose lists are separated by `/`.
fn times_of(alloc: Global, text: &str) -> Result<Vec<Times>, Fail> {
    let mut times = Vec::new(alloc);
    for list in text.split('/') {
        let mut ticks = Vec::new(alloc);
        for word in list.split(' ') {
            if let Ok(tick) = word.parse::<u64>() {
                ticks.push(tick)?;
            }
        }
        times.push(Times { ticks })?;
    }
    Ok(times)
}

// The items of a schedule as `TICK ACTOR COUNT`, or why there is none.
fn items_of(rt: &HostRuntime, text: &str, times: &str) -> Result<String, Fail> {
    let alloc = rt.alloc();
    let plan = plan_of(alloc, text)?;
    let times = times_of(alloc, times)?;
    let made = match schedule_at(alloc, &plan, times.as_slice()) {
        Ok(made) => made,
        Err(fault) => return Ok(format!(in alloc; "{fault:?}")?),
    };
    shown(alloc, &made)
}

fn shown(alloc: Global, made: &Made) -> Result<String, Fail> {
    let mut text = String::new(alloc);
    for (item, tick) in made.schedule.items.as_slice().iter().zip(made.ticks.iter()) {
        let actor = item.actor.get();
        let count = item.count;
        text.push_str(format!(in alloc; "{tick} {actor} {count}, ")?.as_str())?;
    }
    Ok(text)
}

// A setup over three links takes 6 steps, a send 1 and a close 3. The plane has 3 ticks a round. A packet is sent at 0, 10 and 20, arrives
// at B 4 ticks later and is held there until 12 ticks after it came to A, so it arrives at C 4 ticks after that: 3 arrivals before round 21
// (4, 14, 16), and 3 after it (24, 26, 36), when the others are cancelled. The hold of r1 ends before 85.
#[test]
fn calls_that_come_and_go(rt: HostRuntime) -> Result<(), Fail> {
    let text = items_of(&rt, THREE, "0 0 21 21 85")?;
    is_due(
        &rt,
        text.as_str(),
        "0 0 7, 0 1 66, 21 0 9, 21 1 195, 85 0 6, 85 1 45, ",
    );
    Ok(())
}

#[test]
fn ticks_that_make_no_schedule(rt: HostRuntime) -> Result<(), Fail> {
    let fault = items_of(&rt, THREE, "0 0 21 20 85")?;
    is_due(&rt, fault.as_str(), "Falls { caller: 0, place: 3 }");
    let fault = items_of(&rt, THREE, "0 0 21 21 101")?;
    is_due(
        &rt,
        fault.as_str(),
        "Late { caller: 0, place: 4, rounds: 100 }",
    );
    let fault = items_of(&rt, THREE, "0 0 21 21")?;
    is_due(&rt, fault.as_str(), "Missing { caller: 0, place: 4 }");
    Ok(())
}

// A ring of four switches: a channel goes over to the other side.
const RING: &str = "\
tenet 6
link NE north east rate 1 cap 4 prop 2 buffer 100 levels 10 20 40
link ES east south rate 1 cap 4 prop 2 buffer 100 levels 10 20 40
link NW north west rate 1 cap 4 prop 2 buffer 100 levels 10 20 40
link WS west south rate 1 cap 4 prop 2 buffer 100 levels 10 20 40
caller site
open day route NE ES contract 5 10 20 2 delay 24 rate
send day 6 10 2
open spare route NW WS contract 5 10 20 2 delay 24 rate
move day spare
close day
rounds 60
tail 0
";

// A setup takes 4 steps, and a round 4 ticks. Packets come every 10 ticks from 0 on, and arrive at the second link 4 ticks later. At 21 three
// are sent, and two have arrived; the move takes 2 releases and a submit, and the close none. One more arrives at ES and three at WS.
#[test]
fn packets_that_move(rt: HostRuntime) -> Result<(), Fail> {
    let text = items_of(&rt, RING, "0 0 21 21 21")?;
    is_due(&rt, text.as_str(), "0 0 5, 0 1 86, 21 0 7, 21 1 160, ");
    Ok(())
}

// At 55 all six are sent and have arrived: the move has nothing to submit.
#[test]
fn a_move_of_nothing(rt: HostRuntime) -> Result<(), Fail> {
    let text = items_of(&rt, RING, "0 0 55 55 55")?;
    is_due(&rt, text.as_str(), "0 0 5, 0 1 226, 55 0 6, 55 1 20, ");
    Ok(())
}

// The other side offers 24 ticks, so with 23 it is denied: the move takes no step at 21, and the close 2 at 30. One more packet arrives at ES
// before it, at 24, and a fourth has been sent by then, at 30 not yet: so none comes after it.
#[test]
fn a_move_that_is_not_made(rt: HostRuntime) -> Result<(), Fail> {
    let alloc = rt.alloc();
    let text = RING.replace(
        alloc,
        "NW WS contract 5 10 20 2 delay 24",
        "NW WS contract 5 10 20 2 delay 23",
    )?;
    let text = items_of(&rt, text.as_str(), "0 0 21 21 30")?;
    is_due(
        &rt,
        text.as_str(),
        "0 0 5, 0 1 86, 21 0 4, 21 1 37, 30 0 2, 30 1 120, ",
    );
    Ok(())
}

// Two equal sends, on a channel over one link, each at its own tick: a setup takes 2 steps, and a round 1.
#[test]
fn two_equal_sends(rt: HostRuntime) -> Result<(), Fail> {
    let text = items_of(
        &rt,
        "\
tenet 1
link A n1 n2 rate 1 cap 4 prop 2 buffer 100 levels 10 20 40
caller k1
caller k2
open r1 route A contract 5 10 20 2 delay 12 rate
send r1 1 1 2
send r1 1 1 2
rounds 20
tail 5
",
        "/3 3 15",
    )?;
    is_due(
        &rt,
        text.as_str(),
        "0 2 3, 3 1 3, 3 2 12, 15 1 1, 15 2 10, ",
    );
    Ok(())
}
