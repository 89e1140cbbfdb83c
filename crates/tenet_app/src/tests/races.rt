//! Races. Where one caller alone makes steps, or a gate orders them, what is printed is worked by hand. Elsewhere the printed schedule
//! is played, and the report of that is the race's.
use super::meeting::Meeting;
use super::{FAILING_SOURCE, FIRST, Row, SHORT_SINK, SOUND, end_so, run};
use crate::status::Status;
use net_units::{ActorNo, Gate, LinkNo, NoGate};
use scenario_reader::Cause;
use std::alloc::{AllocError, Global};
use std::fmt::Write;
use std::process::Abort;
use std::str;
use std::sync::Wait;
use std::sync::atomic::{AtomicU64, Ordering};
use std::test::Fail;
use std::thread::Threads;

// ---- one order of steps

const FIRST_RACE: &str = "schedule
do k1 2
report
accept r1 delay 12 levels 1
channel r1 offered 0 keeps delivered 0 least - worst - refused 0
link A clock 0 sent 0 full 0
end steps 2
";

const FIRST_TABLE: &str = "schedule
do k1 2
report
accept r1 delay 12 levels 1
channel r1 offered 0 keeps delivered 0 least - worst - refused 0
link A clock 0 sent 0 full 0
end steps 2
channel,packet,hop,link,size,at,eligible,departed
";

const EMPTY: &str = "tenet 1
link A n1 n2 rate 1 cap 4 prop 2 buffer 100 levels 10 20 40
rounds 0
tail 0
";

// A schedule that asks for a step that isn't left.
const MISSING: &str = "tenet 1
link A n1 n2 rate 1 cap 4 prop 2 buffer 100 levels 10 20 40
caller k1
open r1 route A contract 5 10 20 2 delay 12 rate
rounds 0
tail 0
schedule
do plane 1
do k1 9
";

const RACES: [Row; 5] = [
    (&["race"], FIRST, SOUND, Status::Done, FIRST_RACE),
    (
        &["race", "--packets"],
        FIRST,
        SOUND,
        Status::Done,
        FIRST_TABLE,
    ),
    (
        &["--packets", "race"],
        FIRST,
        SOUND,
        Status::Done,
        FIRST_TABLE,
    ),
    (
        &["race"],
        EMPTY,
        SOUND,
        Status::Done,
        "schedule\nreport\nlink A clock 0 sent 0 full 0\nend steps 0\n",
    ),
    (&["race"], MISSING, SOUND, Status::Done, FIRST_RACE),
];

#[test]
fn a_race_of_one_caller_has_one_order(rt: HostRuntime) -> Result<(), Fail> {
    end_so(&rt, rt.alloc(), &RACES)
}

const STOPS: [Row; 4] = [
    (&["race"], FIRST, SHORT_SINK, Status::WriteFault, "sche"),
    (&["race"], FIRST, FAILING_SOURCE, Status::ReadFault, ""),
    (
        &["race"],
        "",
        SOUND,
        Status::Refused {
            line: 1,
            cause: Cause::End,
        },
        "refused 1 end\n",
    ),
    (&["races"], FIRST, SOUND, Status::Words, ""),
];

#[test]
fn a_race_that_stops_says_why(rt: HostRuntime) -> Result<(), Fail> {
    end_so(&rt, rt.alloc(), &STOPS)
}

// ---- any order

// What one word makes of a scenario, where nothing fails.
fn written<R: Threads + Wait + Abort + Sync, G: Gate + Sync>(
    rt: &R,
    alloc: Global,
    word: &str,
    input: &str,
    gate: &G,
) -> Result<String, Fail> {
    let run = run(rt, alloc, &[word], input.as_bytes(), SOUND, gate)?;
    assert_eq!(rt; run.status, Status::Done);
    assert_eq!(rt; run.raced, word == "race");
    let text = str::from_utf8(run.bytes.as_slice()).ok().ok_or("text")?;
    Ok(String::from_str(alloc, text)?)
}

// A race's schedule, put after the scenario, is played to the report that the race has printed.
fn replays<R: Threads + Wait + Abort + Sync, G: Gate + Sync>(
    rt: &R,
    alloc: Global,
    input: &str,
    gate: &G,
) -> Result<(), Fail> {
    let text = written(rt, alloc, "race", input, gate)?;
    let (schedule, report) = text.as_str().split_once("report\n").ok_or("a report")?;
    let again = format!(in alloc; "{input}{schedule}")?;
    let played = written(rt, alloc, "play", again.as_str(), gate)?;
    assert_eq!(rt; played.as_str(), report);
    Ok(())
}

#[test]
fn a_race_with_pours_is_the_run_of_its_schedule(rt: HostRuntime) -> Result<(), Fail> {
    let input = "tenet 3
link A n1 n2 rate 1 cap 4 prop 2 buffer 100 best 4 levels 10 20 40
link B n2 n3 rate 1 cap 4 prop 2 buffer 100 best 4 levels 10 20 40
caller k1
open r1 route A B contract 5 10 20 2 delay 50 rate
send r1 2 10 2
pour A 5 1 3
caller k2
pour B 3 2 2
pour A 2 1 4
rounds 6
tail 30
";
    replays(&rt, rt.alloc(), input, &NoGate)
}

#[test]
fn a_race_with_moves_is_the_run_of_its_schedule(rt: HostRuntime) -> Result<(), Fail> {
    let input = "tenet 6
link A n1 n2 rate 1 cap 4 prop 2 buffer 100 levels 10 20 40
link B n1 n2 rate 1 cap 4 prop 2 buffer 100 levels 10 20 40
caller k1
open r1 route A contract 5 10 20 2 delay 12 rate
open r2 route B contract 5 10 20 2 delay 22 rate
send r1 4 10 2
move r1 r2
close r1
caller k2
open r3 route B contract 5 10 20 2 delay 22 rate
open r4 route A contract 5 10 20 2 delay 22 rate
send r3 3 5 1
move r3 r4
close r4
rounds 12
tail 60
";
    replays(&rt, rt.alloc(), input, &NoGate)
}

// A chain of four links, and callers that each open a channel over it, send on it and close it.
fn chain(alloc: Global, callers: u32) -> Result<String, AllocError> {
    let mut text = String::new(alloc);
    writeln!(text, "tenet 1")?;
    for (name, from, to) in [("A", 1, 2), ("B", 2, 3), ("C", 3, 4), ("D", 4, 5)] {
        writeln!(
            text,
            "link {name} n{from} n{to} rate 1 cap 4 prop 2 buffer 100 levels 10 20 40"
        )?;
    }
    for caller in 1..=callers {
        writeln!(
            text,
            "caller k{caller}\nopen r{caller} route A B C D contract 5 10 20 2 delay 100 rate\nsend r{caller} 2 10 2\nclose r{caller}"
        )?;
    }
    writeln!(text, "rounds 100\ntail 200")?;
    Ok(text)
}

// Lets each step last a number of turns that depends on the link and the actor, under the lock and after it.
#[derive(Drop)]
struct Turning {
    watched: AtomicU64,
}

impl Turning {
    fn turn(&self, link: LinkNo, actor: ActorNo) {
        let turns = (u64::from(link.get()) * 7 + u64::from(actor.get()) * 13) % 17 * 1_000;
        for _ in 0..turns {
            self.watched.load(Ordering::SeqCst);
        }
    }
}

impl Gate for Turning {
    fn within(&self, link: LinkNo, actor: ActorNo) {
        self.turn(link, actor);
    }

    fn after(&self, link: LinkNo, actor: ActorNo) {
        self.turn(link, actor);
    }
}

#[test]
fn a_race_of_eight_callers_is_the_run_of_its_schedule(rt: HostRuntime) -> Result<(), Fail> {
    let input = chain(rt.alloc(), 8)?;
    replays(&rt, rt.alloc(), input.as_str(), &NoGate)?;
    let gate = Turning {
        watched: AtomicU64::new(0),
    };
    replays(&rt, rt.alloc(), input.as_str(), &gate)
}

#[test]
fn a_race_of_64_callers_is_the_run_of_its_schedule(rt: HostRuntime) -> Result<(), Fail> {
    let input = chain(rt.alloc(), 64)?;
    let gate = Turning {
        watched: AtomicU64::new(0),
    };
    replays(&rt, rt.alloc(), input.as_str(), &gate)
}

// ---- an order by a gate

const TWO_LINKS: &str = "tenet 1
link A n1 n2 rate 1 cap 4 prop 2 buffer 100 levels 10 20 40
link B n2 n3 rate 1 cap 4 prop 2 buffer 100 levels 10 20 40
caller k1
open r1 route A contract 5 10 20 2 delay 12 rate
caller k2
open r2 route B contract 5 10 20 2 delay 12 rate
rounds 0
tail 0
";

const TWO_LINKS_REPORT: &str = "report
accept r1 delay 12 levels 1
accept r2 delay 12 levels 1
channel r1 offered 0 keeps delivered 0 least - worst - refused 0
channel r2 offered 0 keeps delivered 0 least - worst - refused 0
link A clock 0 sent 0 full 0
link B clock 0 sent 0 full 0
end steps 4
";

#[test]
fn the_caller_that_waits_comes_last_in_the_schedule(rt: HostRuntime) -> Result<(), Fail> {
    for (late, schedule) in [
        (0, "schedule\ndo k2 2\ndo k1 2\n"),
        (1, "schedule\ndo k1 2\ndo k2 2\n"),
    ] {
        let gate = Meeting::new(late);
        let text = written(&rt, rt.alloc(), "race", TWO_LINKS, &gate)?;
        assert_eq!(rt; gate.met(), 2);
        let due = format!(in rt.alloc(); "{schedule}{TWO_LINKS_REPORT}")?;
        assert_eq!(rt; text.as_str(), due.as_str());
    }
    Ok(())
}
