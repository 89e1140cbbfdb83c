//! The lines of the requests.
ghost use Rattle.std.specs.Prelude.{◌≡◌, ◌++◌, ◌∷◌, [], ℕ, List, Some, OnOk, flat_map, option_map, string_bytes};
ghost use Rattle.std.specs.Fmt.{decimal};
ghost use Rattle.net_units.specs.Allotted.{levels_of};
ghost use Rattle.setup_protocol.specs.Setup.{Accepts, Denies};
ghost use Rattle.setup_protocol.specs.State.{outcome_of};
ghost use Rattle.setup_protocol.specs.declared.verdict.Deny.TheVariants.{Hop, End};
ghost use Rattle.call_script.specs.Tasks.{network_of};
ghost use Rattle.run_engine.specs.runs.Runs.{IsRun};
ghost use Rattle.run_engine.specs.schedules.Standing.{CallersStand};
ghost use Rattle.run_record.specs.declared.done.Done.{Done as Step};
ghost use Rattle.channel_report.specs.Report.{request_lines};
ghost use Rattle.text_writer.specs.Telling.{Tells};
ghost use Rattle.channel_report.specs.Verdicts.{verdict_line};

use byte_ends::{Gather, Sink};
use call_script::Plan;
use link_steps::Refusal;
use net_units::{Levels, Name};
use relaxation::EndDenial;
use run_engine::Callers;
use setup_protocol::{Deny, Verdict};
use std::alloc::{AllocError, Global};
use text_writer::{ReportFault, tell};

// Tells the lines of all requests, by what the callers know of them.
pub(crate) fn tell_requests<K: Sink>(
    alloc: Global,
    plan: &Plan,
    callers: &Callers,
    gather: &mut Gather,
    sink: &mut K,
) -> Result<(), ReportFault>
    requires { (run : List Step) × (IsRun (network_of plan.now) run × CallersStand plan.now callers.now run) }
    ensures { (run : List Step) → IsRun (network_of plan.now) run → CallersStand plan.now callers.now run
        → Tells result (K.written sink.old) (K.written sink.new) gather.old gather.new (K.faults sink.old) (K.faults sink.new) (request_lines plan.now run) }
{
    for (number, entry) in plan.requests().iter().enumerate() {
        let verdict = callers.verdict(plan, number);
        tell_verdict(alloc, entry.name, &verdict, gather, sink)?;
    }
    Ok(())
}

// Tells the line of a request with its verdict.
fn tell_verdict<K: Sink>(
    alloc: Global,
    name: Name,
    verdict: &Option<Verdict>,
    gather: &mut Gather,
    sink: &mut K,
) -> Result<(), ReportFault>
    ensures { Tells result (K.written sink.old) (K.written sink.new) gather.old gather.new (K.faults sink.old) (K.faults sink.new) (verdict_line name (option_map outcome_of verdict.now)) }
{
    let mut line = String::new(alloc);
    push_verdict(&mut line, name, verdict)?;
    Ok(tell(gather, sink, line.as_bytes())?)
}

// The line of a request with its verdict.
fn push_verdict(text: &mut String, name: Name, verdict: &Option<Verdict>) -> Result<(), AllocError>
    ensures { OnOk result (string_bytes text.new ≡ string_bytes text.old ++ verdict_line name (option_map outcome_of verdict.now)) }
{
    match verdict {
        None => writeln!(text, "pending {name}"),
        Some(Verdict::Denied(deny)) => push_denied(text, name, deny),
        Some(Verdict::Accepted { levels, delay }) => push_accepted(text, name, levels, *delay),
    }
}

// The line of a request that was accepted.
fn push_accepted(
    text: &mut String,
    name: Name,
    levels: &Levels,
    delay: u64,
) -> Result<(), AllocError>
    ensures { OnOk result (string_bytes text.new ≡ string_bytes text.old ++ verdict_line name (Some (Accepts (levels_of levels.now) delay))) }
{
    write!(text, "accept {name} delay {delay} levels")?;
    push_levels(text, levels)?;
    writeln!(text)
}

// The line of a request that was denied.
fn push_denied(text: &mut String, name: Name, deny: &Deny) -> Result<(), AllocError>
    ensures { OnOk result (string_bytes text.new ≡ string_bytes text.old ++ verdict_line name (Some (Denies deny.now))) }
{
    match deny {
        Deny::Hop { hop, refusal } => push_refused(text, name, *hop, refusal),
        Deny::End(denial) => push_late(text, name, denial),
    }
}

// The line of a request that a hop refused.
fn push_refused(text: &mut String, name: Name, hop: u8, refusal: &Refusal) -> Result<(), AllocError>
    ensures { OnOk result (string_bytes text.new ≡ string_bytes text.old ++ verdict_line name (Some (Denies (Hop hop refusal.now)))) }
{
    match refusal {
        Refusal::NoLevel { sum, bound } => {
            writeln!(text, "deny {name} hop {hop} schedule {sum} {bound}")
        }
        Refusal::NoBuffer { need, free } => {
            writeln!(text, "deny {name} hop {hop} buffer {need} {free}")
        }
        Refusal::TooWide { smax, cap } => writeln!(text, "deny {name} hop {hop} wide {smax} {cap}"),
        _ => writeln!(text, "deny {name} hop {hop}"),
    }
}

// The line of a request that the destination denied.
fn push_late(text: &mut String, name: Name, denial: &EndDenial) -> Result<(), AllocError>
    ensures { OnOk result (string_bytes text.new ≡ string_bytes text.old ++ verdict_line name (Some (Denies (End denial.now)))) }
{
    match denial {
        EndDenial::Delay { sum, bound } => writeln!(text, "deny {name} end delay {sum} {bound}"),
        EndDenial::Jitter { last, bound } => {
            writeln!(text, "deny {name} end jitter {last} {bound}")
        }
    }
}

// The numbers of the levels, each after a space.
fn push_levels(text: &mut String, levels: &Levels) -> Result<(), AllocError>
    ensures { OnOk result (string_bytes text.new ≡ string_bytes text.old ++ flat_map (λ level. 32 ∷ decimal level) (levels_of levels.now)) }
{
    for place in 1..=levels.len() {
        let level = levels.at(place).get();
        write!(text, " {level}")?;
    }
    Ok(())
}
