//! The words `play --workers N`: as `play`, with the rounds of the plane made by several workers.
ghost use Rattle.std.specs.Prelude.{◌≡◌, ◌≤◌, IfErr, IfOk, IfSome, map, string_bytes};
ghost use Rattle.call_script.specs.Tasks.{network_of};
ghost use Rattle.run_engine.specs.schedules.Schedules.{IsActorOf, IsFaultOf};
ghost use Rattle.link_steps.specs.Lists.{Each};
ghost use Rattle.tenet_app.specs.Making.{number_from};
ghost use Rattle.tenet_app.specs.Playing.{AnswersPlan, CountsRise, Plays};
ghost use Rattle.tenet_app.specs.Tallying.{IsTalliedPlay};
ghost use Rattle.tenet_app.specs.Working.{are_to_work, work_of, work_with_table, work_words};

use crate::playing::{refuse, refuse_reading, report_tallied};
use crate::status::Status;
use crate::words::{is_word, number_from};
use byte_ends::{Sink, Source};
use call_script::{Plan, Schedule};
use channel_report::Tally;
use net_units::Gate;
use plane_workers::played_watched;
use run_engine::{Callers, PlayFault};
use scenario_reader::{Cause, read_plan};
use std::alloc::Global;
use std::thread::Threads;

// The most workers.
const MOST_WORKERS: u64 = 16;

// Whether the words ask to play by workers, and if so, whether they ask for the table of packets, and by how many workers.
pub(crate) fn to_work(words: &[String]) -> Option<(bool, u32)>
    ensures asked { result ≡ work_words (map string_bytes words.now) }
    ensures range { IfSome result (λ work. (1 ≤ work.1) × (work.1 ≤ 16)) }
{
    match words {
        [first, second, third] => {
            if are_to_work(first.as_str(), second.as_str()) {
                work_of(false, third.as_str())
            } else {
                None
            }
        }
        [first, second, third, fourth] => with_table(
            first.as_str(),
            second.as_str(),
            third.as_str(),
            fourth.as_str(),
        ),
        _ => None,
    }
}

// The same of four words, one of which asks for the table.
fn with_table(first: &str, second: &str, third: &str, fourth: &str) -> Option<(bool, u32)>
    ensures asked { result ≡ work_with_table first.now second.now third.now fourth.now }
    ensures range { IfSome result (λ work. (1 ≤ work.1) × (work.1 ≤ 16)) }
{
    if is_word(first, "--packets") && are_to_work(second, third) {
        work_of(true, fourth)
    } else if is_word(second, "--packets") && are_to_work(first, third) {
        work_of(true, fourth)
    } else if is_word(fourth, "--packets") && are_to_work(first, second) {
        work_of(true, third)
    } else {
        None
    }
}

fn are_to_work(first: &str, second: &str) -> bool
    ensures { result ≡ are_to_work first.now second.now }
{
    is_word(first, "play") && is_word(second, "--workers")
}

// With this number of workers, where it is one.
fn work_of(packets: bool, number: &str) -> Option<(bool, u32)>
    ensures asked { result ≡ work_of packets (number_from 1 16 number.now) }
    ensures range { IfSome result (λ work. (1 ≤ work.1) × (work.1 ≤ 16)) }
{
    let workers = number_from(number, 1, MOST_WORKERS)?;
    Some((packets, workers as u32))
}

/// Reads a scenario, plays its schedule by this many workers, and writes the report of its run, with the table of packets where
/// `packets` is set: what [`play`](crate::playing::play) writes. It joins threads. The gate is called round each ask of a round.
pub fn work<R: Threads + Sync, S: Source, K: Sink, G: Gate + Sync>(
    rt: &R,
    alloc: Global,
    packets: bool,
    workers: u32,
    source: &mut S,
    sink: &mut K,
    gate: &G,
) -> Status
    requires { (1 ≤ workers) × (workers ≤ 16) }
    ensures plays { Plays packets result
        (record { left = S.left source.old; read_faults = S.faults source.old; written = K.written sink.old; write_faults = K.faults sink.old })
        (record { left = S.left source.new; read_faults = S.faults source.new; written = K.written sink.new; write_faults = K.faults sink.new }) }
    ensures counts { CountsRise
        (record { left = S.left source.old; read_faults = S.faults source.old; written = K.written sink.old; write_faults = K.faults sink.old })
        (record { left = S.left source.new; read_faults = S.faults source.new; written = K.written sink.new; write_faults = K.faults sink.new }) }
{
    match read_plan(alloc, source) {
        Ok((plan, schedule)) => answer(rt, alloc, packets, workers, &plan, &schedule, sink, gate),
        Err(refusal) => refuse_reading(alloc, refusal, sink),
    }
}

// Plays the schedule of a plan, and writes the report of its run, or the line that asks for a step that isn't left.
fn answer<R: Threads + Sync, K: Sink, G: Gate + Sync>(
    rt: &R,
    alloc: Global,
    packets: bool,
    workers: u32,
    plan: &Plan,
    schedule: &Schedule,
    sink: &mut K,
    gate: &G,
) -> Status
    requires workers { (1 ≤ workers) × (workers ≤ 16) }
    requires actors { Each (IsActorOf plan.now) schedule.now.items }
    ensures answers { AnswersPlan packets plan.now schedule.now result (K.written sink.old) (K.written sink.new) (K.faults sink.old) (K.faults sink.new) }
    ensures counts { K.faults sink.old ≤ K.faults sink.new }
{
    match tallied(rt, alloc, packets, workers, plan, schedule, gate) {
        Ok((callers, tally)) => report_tallied(alloc, plan, callers, tally, sink),
        Err(PlayFault::Memory) => Status::Memory,
        Err(PlayFault::Step { line, .. }) => refuse(alloc, line, Cause::Step, sink),
    }
}

// Plays the schedule of a plan by this many workers while a tally sees its run.
fn tallied<R: Threads + Sync, G: Gate + Sync>(
    rt: &R,
    alloc: Global,
    packets: bool,
    workers: u32,
    plan: &Plan,
    schedule: &Schedule,
    gate: &G,
) -> Result<(Callers, Tally), PlayFault>
    requires workers { (1 ≤ workers) × (workers ≤ 16) }
    requires actors { Each (IsActorOf plan.now) schedule.now.items }
    ensures played { IfOk result (λ told. IsTalliedPlay plan.now schedule.now told.0 told.1) }
    ensures table { IfOk result (λ told. told.1.packets ≡ packets) }
    ensures fault { IfErr result (IsFaultOf (network_of plan.now) schedule.now) }
{
    let mut tally = Tally::new(alloc, plan, packets)?;
    let callers = played_watched(rt, alloc, plan, schedule, workers, gate, &mut tally)?;
    Ok((callers, tally))
}
