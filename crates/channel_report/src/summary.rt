//! The summary of a run.
ghost use Rattle.std.specs.Prelude.{◌≡◌, ◌<◌, ◌^◌, List, IfOk, Some, length, option_map, reverse, string_bytes};
ghost use Rattle.std.specs.List.{slice_get};
ghost use Rattle.call_script.specs.Parts.{PlanParts as Parts};
ghost use Rattle.call_script.specs.Tasks.{network_of};
ghost use Rattle.call_script.specs.declared.entries.RequestEntry.{RequestEntry as Asked};
ghost use Rattle.run_engine.specs.runs.Runs.{IsRun};
ghost use Rattle.run_record.specs.declared.done.Done.{Done as Step};
ghost use Rattle.setup_protocol.specs.State.{outcome_of};
ghost use Rattle.channel_report.specs.Delays.{departures_of};
ghost use Rattle.channel_report.specs.Findings.{AreFound};
ghost use Rattle.channel_report.specs.Summary.{delivers, summary_of, sums_of, told_summary, with_request};
ghost use Rattle.channel_report.specs.Tallied.{IsTalliedRun};
ghost use Rattle.text_writer.specs.Telling.{WritesText};

use crate::findings::Findings;
use crate::tally::Tally;
use byte_ends::Sink;
use call_script::Plan;
use run_engine::{Callers, replay_watched};
use run_record::Record;
use setup_protocol::Verdict;
use std::alloc::{AllocError, Global};
use text_writer::{ReportFault, write_line};

// What the requests of a plan have come to in a run.
#[derive(Clone, Copy)]
pub(crate) struct Sums {
    // How many were accepted.
    pub(crate) accepted: u64,
    // How many were denied.
    pub(crate) denied: u64,
    // How many packets of their channels were delivered.
    pub(crate) delivered: u128,
}

impl Sums {
    // Of no request.
    const NOTHING: Sums = Sums {
        accepted: 0,
        denied: 0,
        delivered: 0,
    };

    // Adds a request with its verdict and its delivered packets.
    fn add(&mut self, verdict: &Option<Verdict>, delivered: u64)
        requires accepted { self.old.accepted < 2 ^ 63 }
        requires denied { self.old.denied < 2 ^ 63 }
        requires delivered { self.old.delivered < 2 ^ 127 }
        ensures { self.new ≡ with_request (option_map outcome_of verdict.now) delivered self.old }
    {
        match verdict {
            None => {}
            Some(Verdict::Accepted { .. }) => self.accepted += 1,
            Some(Verdict::Denied(_)) => self.denied += 1,
        }
        self.delivered += u128::from(delivered);
    }
}

/// Writes the summary of a run of this plan, which was made from this number with this many requests: how many requests were accepted
/// and how many denied, how many packets were delivered, and how many steps the run has. A write fault comes only where the sink's
/// count of faults rose in this call. Where the line isn't written whole, a prefix of it is.
pub fn write_summary<K: Sink>(
    alloc: Global,
    number: u32,
    size: u32,
    plan: &Plan,
    run: &Record,
    sink: &mut K,
) -> Result<(), ReportFault>
    requires { IsRun (network_of plan.now) (reverse run.now.entries) }
    ensures { WritesText result (K.written sink.old) (K.written sink.new) (K.faults sink.old) (K.faults sink.new) (summary_of number size plan.now run.now.entries) }
{
    let mut tally = Tally::new(alloc, plan, false)?;
    let callers = replay_watched(alloc, plan, run, &mut tally)?;
    write_tallied_summary(alloc, number, size, plan, callers, tally, sink)
}

/// Writes the summary of a run of this plan that wasn't recorded, by its tally and the callers after it: the bytes that
/// [`write_summary`] writes of the same run.
pub fn write_tallied_summary<K: Sink>(
    alloc: Global,
    number: u32,
    size: u32,
    plan: &Plan,
    callers: Callers,
    tally: Tally,
    sink: &mut K,
) -> Result<(), ReportFault>
    requires { (run : List Step) × IsTalliedRun plan.now callers tally run }
    ensures { (run : List Step) → IsTalliedRun plan.now callers tally run → WritesText result (K.written sink.old) (K.written sink.new) (K.faults sink.old) (K.faults sink.new) (summary_of number size plan.now (reverse run)) }
{
    let findings = Findings::new(alloc, plan, callers, tally)?;
    let sums = sum_up(plan, &findings);
    let line = summary_line(alloc, number, size, &sums, findings.steps)?;
    Ok(write_line(sink, line.as_bytes())?)
}

// What all requests have come to.
fn sum_up(plan: &Plan, findings: &Findings) -> Sums
    requires { (entries : List Step) × AreFound plan.now entries findings.now }
    ensures { (entries : List Step) → AreFound plan.now entries findings.now → result ≡ sums_of (departures_of entries) (reverse entries) plan.now.requests }
{
    let mut sums = Sums::NOTHING;
    for number in 0..plan.requests().len() {
        let verdict = findings.callers.verdict(plan, number);
        sums.add(&verdict, delivered_on(findings, number));
    }
    sums
}

// How many packets of the channel of a request were delivered.
fn delivered_on(findings: &Findings, number: usize) -> u64
    requires { number < length findings.now.delays.items }
    ensures small { result < 18446744073709551616 }
    ensures told { (parts : Parts) (entries : List Step) (entry : Asked) → AreFound parts entries findings.now → slice_get parts.requests number ≡ Some entry → result ≡ delivers (departures_of entries) entry }
{
    findings.delays[number].delivered
}

// The line that tells them.
fn summary_line(
    alloc: Global,
    number: u32,
    size: u32,
    sums: &Sums,
    steps: usize,
) -> Result<String, AllocError>
    ensures { IfOk result (λ line. string_bytes line ≡ told_summary number size sums.now steps) }
{
    let Sums {
        accepted,
        denied,
        delivered,
    } = *sums;
    let line = format!(in alloc;
        "made {number} {size} accepted {accepted} denied {denied} delivered {delivered} steps {steps}\n"
    )?;
    Ok(line)
}
