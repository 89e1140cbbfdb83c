//! A file whose operations have ticks, as a scenario with a schedule.
ghost use Rattle.std.specs.Prelude.{IfOk};
ghost use Rattle.link_steps.specs.Lists.{Each};
ghost use Rattle.run_engine.specs.schedules.Schedules.{IsActorOf};

use crate::at::BadLine;
use crate::cut::{Cut, cut_scenario};
use crate::notes::{Naming, noted_tick, push_closed, push_noted, push_rounded, push_scale};
use crate::pairs::next_broken;
use crate::refused::BadTimed;
use crate::stream_pairs::{paired_text, stream_pairs};
use byte_ends::MemSink;
use call_script::Plan;
use call_times::{Made, Times, TimesFault, schedule_at};
use design_file::CallerTimes;
use network_files::{BadNetwork, Network, is_scenario, read_network};
use scenario_reader::write_plan;
use std::alloc::{AllocError, Global};
use std::str;

// The most bytes of a scenario.
const MOST_BYTES: usize = 4_194_304;

/// The scenario that the bytes of a file of this name become: with a schedule in which each operation comes at its tick. The file is a
/// scenario whose operations may begin with `at TIME `, or a design, whose streams begin and end.
pub fn schedule_text(alloc: Global, name: &str, bytes: &[u8]) -> Result<String, BadTimed> {
    if is_scenario(bytes) {
        of_scenario(alloc, name, bytes, Naming::Lines)
    } else {
        of_design(alloc, name, bytes)
    }
}

// Of a scenario. Each pair of which one request is to be closed takes one run more, from the beginning.
fn of_scenario(
    alloc: Global,
    name: &str,
    bytes: &[u8],
    naming: Naming,
) -> Result<String, BadTimed> {
    let mut closings = Vec::new(alloc);
    // a scenario has fewer pairs
    for _ in 0..MOST_BYTES {
        let cut = cut_scenario(alloc, bytes, noted_tick(bytes), closings.as_slice())?;
        let plan = plan_of(alloc, name, &cut)?;
        let made = scheduled(alloc, &plan, &cut)?;
        match next_broken(&plan, cut.pairs.as_slice(), made.accepted.as_slice())? {
            Some(closing) => closings.push(closing)?,
            None => return text_of(alloc, bytes, &plan, &cut, &made, naming),
        }
    }
    Err(BadTimed::TooLong)
}

// The text of a scenario that was cut, and its schedule.
fn text_of(
    alloc: Global,
    bytes: &[u8],
    plan: &Plan,
    cut: &Cut,
    made: &Made,
    naming: Naming,
) -> Result<String, BadTimed>
    requires { Each (IsActorOf plan.now) made.now.schedule.items }
{
    let mut text = String::new(alloc);
    push_scale(&mut text, bytes)?;
    push_rounded(alloc, &mut text, cut.operations.as_slice())?;
    push_closed(alloc, &mut text, cut.pairs.as_slice(), naming)?;
    written(alloc, text, plan, made)
}

// The plan of a scenario that was cut.
fn plan_of(alloc: Global, name: &str, cut: &Cut) -> Result<Plan, BadTimed> {
    let scenario = cut.scenario(alloc)?;
    match read_network(alloc, name, scenario.as_slice()) {
        Ok(network) => {
            let Network { plan, .. } = network;
            Ok(plan)
        }
        Err(BadNetwork::Line { line, cause }) => {
            let line = cut.line_in_file(line);
            Err(BadTimed::Network(BadNetwork::Line { line, cause }))
        }
        Err(bad) => Err(BadTimed::Network(bad)),
    }
}

// Its schedule.
fn scheduled(alloc: Global, plan: &Plan, cut: &Cut) -> Result<Made, BadTimed>
    ensures { IfOk result (λ made. Each (IsActorOf plan.now) made.schedule.items) }
{
    let times = cut.times(alloc, plan.callers().len())?;
    match schedule_at(alloc, plan, times.as_slice()) {
        Ok(made) => Ok(made),
        Err(fault) => Err(line_fault(cut, fault)),
    }
}

// Of a design. Where it has pairs, it goes by way of a scenario with ticks.
fn of_design(alloc: Global, name: &str, bytes: &[u8]) -> Result<String, BadTimed> {
    let network = read_network(alloc, name, bytes)?;
    let times = ticks_of(alloc, network.times.as_slice())?;
    let made = schedule_at(alloc, &network.plan, times.as_slice())?;
    let pairs = stream_pairs(alloc, &network, bytes)?;
    if !pairs.is_empty() {
        let text = paired_text(alloc, &network, pairs.as_slice())?;
        return of_scenario(alloc, name, text.as_bytes(), Naming::Names);
    }
    let text = match network.tick {
        Some(tick) => format!(in alloc; "# tick {tick}\n")?,
        None => String::new(alloc),
    };
    written(alloc, text, &network.plan, &made)
}

// The ticks of a design's operations.
fn ticks_of(alloc: Global, callers: &[CallerTimes]) -> Result<Vec<Times>, AllocError> {
    let mut times = Vec::new(alloc);
    for caller in callers {
        let mut ticks = Vec::new(alloc);
        for operation in &caller.operations {
            ticks.push(operation.tick)?;
        }
        times.push(Times { ticks })?;
    }
    Ok(times)
}

// A fault at an operation is one of its line.
fn line_fault(cut: &Cut, fault: TimesFault) -> BadTimed {
    match fault {
        TimesFault::Late {
            caller,
            place,
            rounds,
        } => BadTimed::Line {
            line: cut.line_of(caller, place),
            why: BadLine::Late { rounds },
        },
        other => BadTimed::from(other),
    }
}

// The text of a plan and its schedule, behind this one.
fn written(alloc: Global, notes: String, plan: &Plan, made: &Made) -> Result<String, BadTimed>
    requires { Each (IsActorOf plan.now) made.now.schedule.items }
{
    let mut text = notes;
    let mut sink = MemSink::new(alloc, MOST_BYTES, MOST_BYTES, Vec::new(alloc))?;
    if write_plan(alloc, plan, &made.schedule, &mut sink).is_err() {
        return Err(BadTimed::TooLong);
    }
    let scenario = str::from_utf8(sink.bytes()).unwrap_or("");
    push_noted(alloc, &mut text, scenario, made, plan.callers().len())?;
    Ok(text)
}
