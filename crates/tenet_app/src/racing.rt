//! The word `race`: from the bytes of a scenario to a race of its plan, the schedule that the race has followed, and the report of
//! its run.
ghost use Rattle.std.specs.Prelude.{◌≡◌, ◌≤◌, ◌↔◌, List, IfOk, IsSome, OnOk, reverse};
ghost use Rattle.call_script.specs.Tasks.{network_of};
ghost use Rattle.text_writer.specs.Telling.{WritesText};
ghost use Rattle.run_engine.specs.schedules.Schedules.{IsActorOf};
ghost use Rattle.run_record.specs.declared.done.Done.{Done as Step};
ghost use Rattle.channel_report.specs.Tallied.{IsTalliedRun};
ghost use Rattle.link_steps.specs.Lists.{Each};
ghost use Rattle.race_run.specs.Whole.{IsWhole, weave_of};
ghost use Rattle.tenet_app.specs.Playing.{CountsRise};
ghost use Rattle.tenet_app.specs.Racing.{AnswersRace, IsRaceOf, Races, ReadsForRace, race_text};
ghost use Rattle.tenet_app.specs.declared.status.Status.TheVariants.{Done};

use crate::playing::refuse_reading;
use crate::status::{Ended, Status};
use byte_ends::{Sink, Source, put_all};
use call_script::Plan;
use channel_report::{ReportFault, Tally, write_schedule, write_tallied};
use net_units::{Gate, OutOfMemory};
use race_run::{Told, woven_watched};
use scenario_reader::read_plan;
use shared_network::Closed;
use std::alloc::Global;
use std::sync::Wait;
use std::thread::Threads;

/// Reads a scenario, makes a race of its plan, and writes the schedule that the race has followed and the report of its run, with the
/// table of packets where `packets` is set. A written schedule is judged for its form and not used. Where the work was
/// done, it hands back the journals and passes of the race. The race may wait.
pub fn race<R: Threads + Wait + Sync, S: Source, K: Sink, G: Gate + Sync>(
    rt: &R,
    alloc: Global,
    packets: bool,
    source: &mut S,
    sink: &mut K,
    gate: &G,
) -> Ended
    ensures races { Races packets result.status result.raced
        (record { left = S.left source.old; read_faults = S.faults source.old; written = K.written sink.old; write_faults = K.faults sink.old })
        (record { left = S.left source.new; read_faults = S.faults source.new; written = K.written sink.new; write_faults = K.faults sink.new }) }
    ensures handed { IsSome result.raced ↔ (result.status ≡ Done) }
    ensures counts { CountsRise
        (record { left = S.left source.old; read_faults = S.faults source.old; written = K.written sink.old; write_faults = K.faults sink.old })
        (record { left = S.left source.new; read_faults = S.faults source.new; written = K.written sink.new; write_faults = K.faults sink.new }) }
{
    match read(alloc, source, sink) {
        Ok(plan) => race_plan(rt, alloc, packets, &plan, sink, gate),
        Err(status) => Ended {
            status,
            raced: None,
        },
    }
}

// Reads the plan of a scenario, or writes which line is refused, and why. It waits for nobody.
fn read<S: Source, K: Sink>(alloc: Global, source: &mut S, sink: &mut K) -> Result<Plan, Status>
    ensures reads { ReadsForRace result
        (record { left = S.left source.old; read_faults = S.faults source.old; written = K.written sink.old; write_faults = K.faults sink.old })
        (record { left = S.left source.new; read_faults = S.faults source.new; written = K.written sink.new; write_faults = K.faults sink.new }) }
    ensures unwritten { OnOk result (sink.new ≡ sink.old) }
    ensures counts { CountsRise
        (record { left = S.left source.old; read_faults = S.faults source.old; written = K.written sink.old; write_faults = K.faults sink.old })
        (record { left = S.left source.new; read_faults = S.faults source.new; written = K.written sink.new; write_faults = K.faults sink.new }) }
{
    match read_plan(alloc, source) {
        Ok((plan, _unused)) => Ok(plan),
        Err(refusal) => Err(refuse_reading(alloc, refusal, sink)),
    }
}

// Makes a race of a plan, and writes its schedule and the report of its run.
fn race_plan<R: Threads + Wait + Sync, K: Sink, G: Gate + Sync>(
    rt: &R,
    alloc: Global,
    packets: bool,
    plan: &Plan,
    sink: &mut K,
    gate: &G,
) -> Ended
    ensures answers { AnswersRace packets plan.now result.status result.raced (K.written sink.old) (K.written sink.new) (K.faults sink.old) (K.faults sink.new) }
    ensures handed { IsSome result.raced ↔ (result.status ≡ Done) }
    ensures counts { K.faults sink.old ≤ K.faults sink.new }
{
    match race_run::race(rt, alloc, plan, gate) {
        Ok(closed) => tell(alloc, packets, plan, closed, sink),
        Err(_) => Ended {
            status: Status::Memory,
            raced: None,
        },
    }
}

// Writes the schedule of a race and the report of its run, and hands back its journals and passes. It waits for nobody.
fn tell<K: Sink>(alloc: Global, packets: bool, plan: &Plan, closed: Closed, sink: &mut K) -> Ended
    requires whole { IsWhole (network_of plan.now) closed.passes closed.journals }
    ensures answers { AnswersRace packets plan.now result.status result.raced (K.written sink.old) (K.written sink.new) (K.faults sink.old) (K.faults sink.new) }
    ensures handed { IsSome result.raced ↔ (result.status ≡ Done) }
    ensures counts { K.faults sink.old ≤ K.faults sink.new }
{
    let Ok((told, tally)) = tallied(alloc, packets, plan, &closed) else {
        return Ended {
            status: Status::Memory,
            raced: None,
        };
    };
    match write_race(alloc, plan, told, tally, sink) {
        Ok(()) => Ended {
            status: Status::Done,
            raced: Some(closed),
        },
        Err(ReportFault::Memory) => Ended {
            status: Status::Memory,
            raced: None,
        },
        Err(ReportFault::WriteFault) => Ended {
            status: Status::WriteFault,
            raced: None,
        },
    }
}

// What is left of the run of a race, which a tally has seen, with that tally.
fn tallied(
    alloc: Global,
    packets: bool,
    plan: &Plan,
    closed: &Closed,
) -> Result<(Told, Tally), OutOfMemory>
    requires whole { IsWhole (network_of plan.now) closed.now.passes closed.now.journals }
    ensures race { IfOk result (λ told. IsRaceOf plan.now closed.now told.0.schedule (reverse (weave_of closed.now.journals))) }
    ensures tallied { IfOk result (λ told. IsTalliedRun plan.now told.0.callers told.1 (weave_of closed.now.journals)) }
    ensures table { IfOk result (λ told. told.1.packets ≡ packets) }
{
    // Read for what it says of every plan.
    let _valid = plan.links();
    let mut tally = Tally::new(alloc, plan, packets)?;
    let told = woven_watched(alloc, plan, closed, &mut tally)?;
    Ok((told, tally))
}

// Writes the line `schedule` and the schedule of a race, and the line `report` and the report of its run.
fn write_race<K: Sink>(
    alloc: Global,
    plan: &Plan,
    told: Told,
    tally: Tally,
    sink: &mut K,
) -> Result<(), ReportFault>
    requires actors { Each (IsActorOf plan.now) told.schedule.items }
    requires tallied { (run : List Step) × IsTalliedRun plan.now told.callers tally run }
    ensures { (run : List Step) → IsTalliedRun plan.now told.callers tally run → WritesText result (K.written sink.old) (K.written sink.new) (K.faults sink.old) (K.faults sink.new) (race_text plan.now told.schedule.items (reverse run) tally.packets) }
{
    let Told { callers, schedule } = told;
    write_line(sink, "schedule\n")?;
    write_schedule(alloc, plan, &schedule, sink)?;
    write_line(sink, "report\n")?;
    write_tallied(alloc, plan, callers, tally, sink)
}

// Writes a line.
fn write_line<K: Sink>(sink: &mut K, line: &str) -> Result<(), ReportFault>
    ensures { WritesText result (K.written sink.old) (K.written sink.new) (K.faults sink.old) (K.faults sink.new) line.now }
{
    match put_all(sink, line.as_bytes()) {
        Ok(()) => Ok(()),
        Err(_) => Err(ReportFault::WriteFault),
    }
}
