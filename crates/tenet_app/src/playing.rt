//! The word `play`: from the bytes of a scenario to the bytes of its report.
ghost use Rattle.std.specs.Prelude.{◌≡◌, ◌≤◌, List, IfOk, IfErr, reverse, string_bytes};
ghost use Rattle.call_script.specs.Tasks.{network_of};
ghost use Rattle.run_engine.specs.schedules.Schedules.{IsActorOf, IsFaultOf};
ghost use Rattle.link_steps.specs.Lists.{Each};
ghost use Rattle.tenet_app.specs.Playing.{AnswersPlan, CountsRise, Plays, TellsRefusal, TellsWhyUnread, WritesReport, refusal_line};
ghost use Rattle.tenet_app.specs.Tallying.{IsTalliedPlay};
ghost use Rattle.channel_report.specs.Report.{report_of};
ghost use Rattle.channel_report.specs.Tallied.{IsTalliedRun};
ghost use Rattle.run_record.specs.declared.done.Done.{Done as Step};

use crate::status::Status;
use byte_ends::{Sink, Source, put_all};
use call_script::{Plan, Schedule};
use channel_report::{ReportFault, Tally, write_tallied};
use run_engine::{Callers, PlayFault, play_watched};
use scenario_reader::{Cause, ReadRefusal, read_plan};
use std::alloc::{AllocError, Global};

/// Reads a scenario, plays its schedule, and writes the report of its run, with the table of packets where `packets` is set. It
/// waits for nobody.
pub fn play<S: Source, K: Sink>(
    alloc: Global,
    packets: bool,
    source: &mut S,
    sink: &mut K,
) -> Status
    ensures plays { Plays packets result
        (record { left = S.left source.old; read_faults = S.faults source.old; written = K.written sink.old; write_faults = K.faults sink.old })
        (record { left = S.left source.new; read_faults = S.faults source.new; written = K.written sink.new; write_faults = K.faults sink.new }) }
    ensures counts { CountsRise
        (record { left = S.left source.old; read_faults = S.faults source.old; written = K.written sink.old; write_faults = K.faults sink.old })
        (record { left = S.left source.new; read_faults = S.faults source.new; written = K.written sink.new; write_faults = K.faults sink.new }) }
{
    match read_plan(alloc, source) {
        Ok((plan, schedule)) => answer(alloc, packets, &plan, &schedule, sink),
        Err(refusal) => refuse_reading(alloc, refusal, sink),
    }
}

// Plays the schedule of a plan, and writes the report of its run, or the line that asks for a step that isn't left.
fn answer<K: Sink>(
    alloc: Global,
    packets: bool,
    plan: &Plan,
    schedule: &Schedule,
    sink: &mut K,
) -> Status
    requires { Each (IsActorOf plan.now) schedule.now.items }
    ensures answers { AnswersPlan packets plan.now schedule.now result (K.written sink.old) (K.written sink.new) (K.faults sink.old) (K.faults sink.new) }
    ensures counts { K.faults sink.old ≤ K.faults sink.new }
{
    match tallied(alloc, packets, plan, schedule) {
        Ok((callers, tally)) => report_tallied(alloc, plan, callers, tally, sink),
        Err(PlayFault::Memory) => Status::Memory,
        Err(PlayFault::Step { line, .. }) => refuse(alloc, line, Cause::Step, sink),
    }
}

// Plays the schedule of a plan while a tally sees its run.
fn tallied(
    alloc: Global,
    packets: bool,
    plan: &Plan,
    schedule: &Schedule,
) -> Result<(Callers, Tally), PlayFault>
    requires { Each (IsActorOf plan.now) schedule.now.items }
    ensures played { IfOk result (λ told. IsTalliedPlay plan.now schedule.now told.0 told.1) }
    ensures table { IfOk result (λ told. told.1.packets ≡ packets) }
    ensures fault { IfErr result (IsFaultOf (network_of plan.now) schedule.now) }
{
    let mut tally = Tally::new(alloc, plan, packets)?;
    let callers = play_watched(alloc, plan, schedule, &mut tally)?;
    Ok((callers, tally))
}

// Writes the report of a run that was tallied.
pub(crate) fn report_tallied<K: Sink>(
    alloc: Global,
    plan: &Plan,
    callers: Callers,
    tally: Tally,
    sink: &mut K,
) -> Status
    requires { (run : List Step) × IsTalliedRun plan.now callers tally run }
    ensures reports { (run : List Step) → IsTalliedRun plan.now callers tally run → WritesReport result (report_of plan.now (reverse run) tally.packets) (K.written sink.old) (K.written sink.new) (K.faults sink.old) (K.faults sink.new) }
    ensures counts { K.faults sink.old ≤ K.faults sink.new }
{
    match write_tallied(alloc, plan, callers, tally, sink) {
        Ok(()) => Status::Done,
        Err(ReportFault::Memory) => Status::Memory,
        Err(ReportFault::WriteFault) => Status::WriteFault,
    }
}

// Answers why a scenario wasn't read, and writes the line that tells which line is refused, where that is why.
pub(crate) fn refuse_reading<K: Sink>(alloc: Global, refusal: ReadRefusal, sink: &mut K) -> Status
    ensures tells { TellsWhyUnread refusal result (K.written sink.old) (K.written sink.new) (K.faults sink.old) (K.faults sink.new) }
    ensures counts { K.faults sink.old ≤ K.faults sink.new }
{
    match refusal {
        ReadRefusal::Memory => Status::Memory,
        ReadRefusal::ReadFault => Status::ReadFault,
        ReadRefusal::TooLong { .. } => Status::TooLong,
        ReadRefusal::Refused { line, cause } => refuse(alloc, line, cause, sink),
    }
}

// Writes the line that tells which line is refused, and why.
pub(crate) fn refuse<K: Sink>(alloc: Global, line: u64, cause: Cause, sink: &mut K) -> Status
    ensures tells { TellsRefusal line cause result (K.written sink.old) (K.written sink.new) (K.faults sink.old) (K.faults sink.new) }
    ensures counts { K.faults sink.old ≤ K.faults sink.new }
{
    let text = match refusal_text(alloc, line, cause) {
        Ok(text) => text,
        Err(AllocError) => return Status::Memory,
    };
    match put_all(sink, text.as_bytes()) {
        Ok(()) => Status::Refused { line, cause },
        Err(_) => Status::WriteFault,
    }
}

// That line.
fn refusal_text(alloc: Global, line: u64, cause: Cause) -> Result<String, AllocError>
    ensures { IfOk result (λ text. string_bytes text ≡ refusal_line line cause) }
{
    let text = format!(in alloc; "refused {line} {cause}\n")?;
    Ok(text)
}
