//! The lines of the channels.
ghost use Rattle.std.specs.Prelude.{◌≡◌, ◌++◌, ◌∷◌, ◌<◌, ◌≤◌, ◌^◌, [], List, IfOk, OnOk, Some, length, option_map, reverse, slice_index_or, string_bytes};
ghost use Rattle.std.specs.List.{slice_get};
ghost use Rattle.call_script.specs.declared.entries.RequestEntry.{RequestEntry as Asked};
ghost use Rattle.setup_protocol.specs.State.{outcome_of};
ghost use Rattle.run_record.specs.declared.done.Done.{Done as Step};
ghost use Rattle.channel_report.specs.Channels.{channel_line, channel_lines, established_line, was_accepted, told_channel};
ghost use Rattle.channel_report.specs.Delays.{departures_of};
ghost use Rattle.channel_report.specs.Findings.{AreFound};
ghost use Rattle.channel_report.specs.Sources.{first_link};
ghost use Rattle.text_writer.specs.Telling.{Tells};
ghost use Rattle.channel_report.specs.declared.link_tally.LinkTally.{LinkTally as Counted};

use crate::channel_tally::made;
use crate::delay_tally::DelayTally;
use crate::findings::Findings;
use crate::link_tally::LinkTally;
use crate::words::{Keeping, NumberOrDash};
use byte_ends::{Gather, Sink};
use call_script::Plan;
use hop_reservation::Route;
use net_units::{Name, OutOfMemory};
use setup_protocol::Verdict;
use std::alloc::{AllocError, Global};
use text_writer::{ReportFault, tell_line};

// Tells the lines of all channels that were established.
pub(crate) fn tell_channels<K: Sink>(
    alloc: Global,
    plan: &Plan,
    findings: &Findings,
    gather: &mut Gather,
    sink: &mut K,
) -> Result<(), ReportFault>
    requires { (entries : List Step) × AreFound plan.now entries findings.now }
    ensures { (entries : List Step) → AreFound plan.now entries findings.now
        → Tells result (K.written sink.old) (K.written sink.new) gather.old gather.new (K.faults sink.old) (K.faults sink.new) (channel_lines plan.now (departures_of entries) (reverse entries)) }
{
    for number in 0..plan.requests().len() {
        tell_request(alloc, plan, findings, number, gather, sink)?;
    }
    Ok(())
}

// Tells the line of a request's channel, if it was established.
fn tell_request<K: Sink>(
    alloc: Global,
    plan: &Plan,
    findings: &Findings,
    number: usize,
    gather: &mut Gather,
    sink: &mut K,
) -> Result<(), ReportFault>
    requires found { (entries : List Step) × AreFound plan.now entries findings.now }
    requires inside { number < length plan.now.requests }
    ensures { (entries : List Step) (entry : Asked) → AreFound plan.now entries findings.now → slice_get plan.now.requests number ≡ Some entry
        → Tells result (K.written sink.old) (K.written sink.new) gather.old gather.new (K.faults sink.old) (K.faults sink.new) (channel_line (departures_of entries) (reverse entries) entry) }
{
    if was_accepted(&findings.callers.verdict(plan, number)) {
        tell_channel(alloc, plan, findings, number, gather, sink)
    } else {
        Ok(())
    }
}

// Tells the line of an established channel.
fn tell_channel<K: Sink>(
    alloc: Global,
    plan: &Plan,
    findings: &Findings,
    number: usize,
    gather: &mut Gather,
    sink: &mut K,
) -> Result<(), ReportFault>
    requires found { (entries : List Step) × AreFound plan.now entries findings.now }
    requires inside { number < length plan.now.requests }
    ensures { (entries : List Step) (entry : Asked) → AreFound plan.now entries findings.now → slice_get plan.now.requests number ≡ Some entry
        → Tells result (K.written sink.old) (K.written sink.new) gather.old gather.new (K.faults sink.old) (K.faults sink.new) (established_line (departures_of entries) (reverse entries) entry) }
{
    let line = established_line(alloc, plan, findings, number);
    tell_line(gather, sink, line)
}

// The line of an established channel.
fn established_line(
    alloc: Global,
    plan: &Plan,
    findings: &Findings,
    number: usize,
) -> Result<String, OutOfMemory>
    requires found { (entries : List Step) × AreFound plan.now entries findings.now }
    requires inside { number < length plan.now.requests }
    ensures { (entries : List Step) (entry : Asked) → AreFound plan.now entries findings.now → slice_get plan.now.requests number ≡ Some entry
        → IfOk result (λ line. string_bytes line ≡ established_line (departures_of entries) (reverse entries) entry) }
{
    let entry = plan.requests()[number];
    let tally = &findings.channels[number];
    let clock = first_clock(findings.links.as_slice(), &entry.request.route);
    let ticks = made(alloc, tally.ticks.as_slice(), clock)?;
    let keeps = entry.request.contract.keeps(ticks.as_slice());
    let mut line = String::new(alloc);
    let refused = tally.refused;
    push_channel(
        &mut line,
        entry.name,
        ticks.as_slice(),
        keeps,
        &findings.delays[number],
        refused,
    )?;
    Ok(line)
}

// The clock of a route's first link.
fn first_clock(links: &[LinkTally], route: &Route) -> u64
    requires { 1 ≤ length route.now }
    ensures { (d : Counted) → first_link route.now < length links.now → result ≡ (slice_index_or links.now (first_link route.now) d).clock }
{
    match links.get(usize::from(route.hop(1).link.get())) {
        Some(tally) => tally.clock,
        None => 0,
    }
}

// The line of an established channel.
fn push_channel(
    text: &mut String,
    name: Name,
    ticks: &[u64],
    keeps: bool,
    delays: &DelayTally,
    refused: u64,
) -> Result<(), AllocError>
    ensures { OnOk result (string_bytes text.new ≡ string_bytes text.old ++ told_channel name (length ticks.now) keeps delays.now.delivered delays.now.least delays.now.worst refused) }
{
    let offered = ticks.len();
    let keeping = Keeping { keeps };
    let delivered = delays.delivered;
    let least = NumberOrDash {
        number: delays.least,
    };
    let worst = NumberOrDash {
        number: delays.worst,
    };
    write!(text, "channel {name} offered {offered} {keeping} ")?;
    writeln!(
        text,
        "delivered {delivered} least {least} worst {worst} refused {refused}"
    )
}

// Whether a request was accepted.
fn was_accepted(verdict: &Option<Verdict>) -> bool
    ensures { result ≡ was_accepted (option_map outcome_of verdict.now) }
{
    match verdict {
        Some(verdict) => verdict.is_accepted(),
        None => false,
    }
}
