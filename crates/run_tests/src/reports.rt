//! Reports of runs over one link, worked by hand.
//!
//! A plan and a run keep many facts true, and each step of a proof puts them all among what is known. So few functions hold one, each for
//! a few steps, and what is written is compared where neither is known.
ghost use Rattle.std.specs.Prelude.{◌≤◌, IfOk, OnOk, reverse};
ghost use Rattle.call_script.specs.Tasks.{network_of};
ghost use Rattle.run_engine.specs.runs.Runs.{IsRun};
ghost use Rattle.interleave_core.specs.Cores.{CoreStands};

use byte_ends::MemSink;
use call_script::{Do, Dos, Plan, Schedule, Version};
use channel_report::{
    Tally, write_report, write_schedule, write_summary, write_tallied, write_tallied_summary,
};
use interleave_core::Core;
use net_units::{ActorNo, Name};
use one_link_plans as plans;
use one_link_plans::{link, name, request, sender};
use run_engine::{Watch, replay_watched};
use run_record::Record;
use setup_protocol::Control;
use std::alloc::Global;
use std::process::Abort;
use std::test::Fail;

mod moves;
mod summaries;

// A plan in which the caller opens the request, whose route is given or was found between these nodes, and sends three packets, over 30 rounds.
fn plan(alloc: Global, version: Version, found: Option<(Name, Name)>) -> Result<Plan, Fail> {
    let link = link(alloc, version.test(), 0)?;
    let request = request(Control::Rate, found)?;
    let caller = sender(alloc, 3)?;
    Ok(plans::plan(alloc, version, link, Vec::new(alloc), request, caller, 30)??)
}

// This many steps of one actor.
fn steps(core: &mut Core, plan: &Plan, actor: u8, count: u64) -> Result<(), Fail>
    requires { CoreStands plan.now core.old }
    ensures { OnOk result (CoreStands plan.now core.new) }
{
    let actor = ActorNo::new(actor).ok_or("actor")?;
    for _step in 0..count {
        core.step(plan, actor).ok().ok_or("step")?;
    }
    Ok(())
}

// The run in which each of these actors in turn, the caller 0 or the plane 1, makes this many steps.
fn run(alloc: Global, plan: &Plan, turns: &[(u8, u64)]) -> Result<Record, Fail>
    ensures { IfOk result (λ made. IsRun (network_of plan.now) (reverse made.entries)) }
{
    let mut core = Core::new(alloc, plan)?;
    for (actor, count) in turns {
        steps(&mut core, plan, *actor, *count)?;
    }
    Ok(core.finish())
}

// A sink that takes at most this many bytes at a time.
fn sink(alloc: Global, piece: usize) -> Result<MemSink, Fail>
    requires { 1 ≤ piece }
{
    Ok(MemSink::new(alloc, 65_536, piece, Vec::new(alloc))?)
}

// The sink was given this text.
fn holds<R: Abort>(rt: &R, sink: &MemSink, text: &str) {
    assert_eq!(rt; sink.bytes(), text.as_bytes());
}

// The run of these turns has this report, with the table of packets or without it, which is written in pieces of at most this many bytes.
fn reports<R: Abort>(
    rt: &R,
    alloc: Global,
    plan: &Plan,
    turns: &[(u8, u64)],
    packets: bool,
    piece: usize,
    text: &str,
) -> Result<(), Fail>
    requires { 1 ≤ piece }
{
    let run = run(alloc, plan, turns)?;
    let mut sink = sink(alloc, piece)?;
    write_report(alloc, plan, &run, packets, &mut sink)?;
    holds(rt, &sink, text);
    Ok(())
}

#[test]
fn a_channel_that_carries_three_packets(rt: HostRuntime) -> Result<(), Fail> {
    let alloc = rt.alloc();
    let plan = plan(alloc, Version::One, None)?;
    let text = "accept r1 delay 12 levels 1\n\
        channel r1 offered 3 keeps delivered 3 least 4 worst 4 refused 0\n\
        link A clock 30 sent 3 full 0\n\
        end steps 33\n\
        channel,packet,hop,link,size,at,eligible,departed\n\
        r1,1,1,A,2,0,0,2\n\
        r1,2,1,A,2,10,10,12\n\
        r1,3,1,A,2,20,20,22\n";
    reports(&rt, alloc, &plan, &[(0, 3), (1, 30)], true, 65_536, text)
}

#[test]
fn a_setup_that_has_not_ended(rt: HostRuntime) -> Result<(), Fail> {
    let alloc = rt.alloc();
    let plan = plan(alloc, Version::One, None)?;
    let text = "pending r1\nlink A clock 0 sent 0 full 0\nend steps 1\n";
    reports(&rt, alloc, &plan, &[(0, 1)], false, 4, text)
}

#[test]
fn a_route_that_was_found_has_a_line(rt: HostRuntime) -> Result<(), Fail> {
    let alloc = rt.alloc();
    let nodes = (name("n1")?, name("n2")?);
    let plan = plan(alloc, Version::Four, Some(nodes))?;
    let text = "pending r1\nroute r1 A prop 2\nlink A clock 0 sent 0 full 0\nend steps 1\n";
    reports(&rt, alloc, &plan, &[(0, 1)], false, 4, text)
}

// A tally that saw this run tells that the caller made this many steps, and its report, without the record.
fn tallies<R: Abort>(
    rt: &R,
    alloc: Global,
    plan: &Plan,
    run: &Record,
    made: u64,
    text: &str,
) -> Result<(), Fail>
    requires { IsRun (network_of plan.now) (reverse run.now.entries) }
{
    let mut tally = Tally::new(alloc, plan, false)?;
    let callers = replay_watched(alloc, plan, run, &mut tally)?;
    let caller = ActorNo::new(0).ok_or("caller")?;
    if tally.steps_of(caller) != made {
        return Err(Fail::from("other steps of the caller"));
    }
    let mut sink = sink(alloc, 65_536)?;
    write_tallied(alloc, plan, callers, tally, &mut sink)?;
    holds(rt, &sink, text);
    Ok(())
}

// It tells its summary, too, under the number 7 and the size 1.
fn tallies_sums<R: Abort>(
    rt: &R,
    alloc: Global,
    plan: &Plan,
    run: &Record,
    text: &str,
) -> Result<(), Fail>
    requires { IsRun (network_of plan.now) (reverse run.now.entries) }
{
    let mut tally = Tally::new(alloc, plan, false)?;
    let callers = replay_watched(alloc, plan, run, &mut tally)?;
    let mut sink = sink(alloc, 65_536)?;
    write_tallied_summary(alloc, 7, 1, plan, callers, tally, &mut sink)?;
    holds(rt, &sink, text);
    Ok(())
}

#[test]
fn a_run_that_was_tallied(rt: HostRuntime) -> Result<(), Fail> {
    let alloc = rt.alloc();
    let plan = plan(alloc, Version::One, None)?;
    let run = run(alloc, &plan, &[(0, 3), (1, 30)])?;
    let text = "accept r1 delay 12 levels 1\n\
        channel r1 offered 3 keeps delivered 3 least 4 worst 4 refused 0\n\
        link A clock 30 sent 3 full 0\n\
        end steps 33\n";
    tallies(&rt, alloc, &plan, &run, 3, text)?;
    let text = "made 7 1 accepted 1 denied 0 delivered 3 steps 33\n";
    tallies_sums(&rt, alloc, &plan, &run, text)
}

// Three steps of the caller and 30 of the plane have this text.
fn schedules<R: Abort>(rt: &R, alloc: Global, plan: &Plan, text: &str) -> Result<(), Fail> {
    if plan.callers().is_empty() {
        return Err(Fail::from("a caller"));
    }
    let (line, caller, plane) = (
        0,
        ActorNo::new(0).ok_or("caller")?,
        ActorNo::new(1).ok_or("plane")?,
    );
    let items = vec![in alloc;
        Do {
            line,
            actor: caller,
            count: 3
        },
        Do {
            line,
            actor: plane,
            count: 30
        },
    ]?;
    let schedule = Schedule {
        written: true,
        items: Dos::new(items),
    };
    let mut sink = sink(alloc, 65_536)?;
    write_schedule(alloc, plan, &schedule, &mut sink)?;
    holds(rt, &sink, text);
    Ok(())
}

#[test]
fn the_text_of_a_schedule(rt: HostRuntime) -> Result<(), Fail> {
    let alloc = rt.alloc();
    let plan = plan(alloc, Version::One, None)?;
    schedules(&rt, alloc, &plan, "do k1 3\ndo plane 30\n")
}
