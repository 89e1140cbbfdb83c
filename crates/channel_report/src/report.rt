//! The report of a run.
ghost use Rattle.std.specs.Prelude.{◌++◌, List, length, reverse};
ghost use Rattle.call_script.specs.Tasks.{network_of};
ghost use Rattle.run_engine.specs.runs.Runs.{IsRun};
ghost use Rattle.run_record.specs.declared.done.Done.{Done as Step};
ghost use Rattle.channel_report.specs.Channels.{channel_lines};
ghost use Rattle.channel_report.specs.Delays.{departures_of};
ghost use Rattle.channel_report.specs.Findings.{AreFound};
ghost use Rattle.channel_report.specs.Moves.{move_lines};
ghost use Rattle.channel_report.specs.Report.{end_line, link_lines, report_of, request_lines, table_if};
ghost use Rattle.channel_report.specs.Routes.{route_lines};
ghost use Rattle.channel_report.specs.Tallied.{IsTalliedRun};
ghost use Rattle.text_writer.specs.Telling.{Tells, WritesText};

use crate::channel_lines::tell_channels;
use crate::end_line::tell_end;
use crate::findings::Findings;
use crate::link_lines::tell_links;
use crate::move_lines::tell_moves;
use crate::request_lines::tell_requests;
use crate::route_lines::tell_routes;
use crate::table::tell_table;
use crate::tally::Tally;
use byte_ends::{Gather, Sink};
use call_script::Plan;
use run_engine::{Callers, replay_watched};
use run_record::Record;
use std::alloc::Global;
use text_writer::{ReportFault, finish};

/// Writes the report of a run of this plan: its requests, the routes that were found, the moves that were made, its established
/// channels, its links, the number of its steps, and, where it is asked for, the table of its packets. A write fault comes only where
/// the sink's count of faults rose in this call. Where the report isn't written whole, a prefix of it is.
pub fn write_report<K: Sink>(
    alloc: Global,
    plan: &Plan,
    run: &Record,
    packets: bool,
    sink: &mut K,
) -> Result<(), ReportFault>
    requires { IsRun (network_of plan.now) (reverse run.now.entries) }
    ensures { WritesText result (K.written sink.old) (K.written sink.new) (K.faults sink.old) (K.faults sink.new) (report_of plan.now run.now.entries packets) }
{
    let mut tally = Tally::new(alloc, plan, packets)?;
    let callers = replay_watched(alloc, plan, run, &mut tally)?;
    write_tallied(alloc, plan, callers, tally, sink)
}

/// Writes the report of a run of this plan that wasn't recorded, by its tally and the callers after it: the bytes that
/// [`write_report`] writes of the same run, with the table of packets where the tally has it.
pub fn write_tallied<K: Sink>(
    alloc: Global,
    plan: &Plan,
    callers: Callers,
    tally: Tally,
    sink: &mut K,
) -> Result<(), ReportFault>
    requires { (run : List Step) × IsTalliedRun plan.now callers tally run }
    ensures { (run : List Step) → IsTalliedRun plan.now callers tally run → WritesText result (K.written sink.old) (K.written sink.new) (K.faults sink.old) (K.faults sink.new) (report_of plan.now (reverse run) tally.packets) }
{
    let findings = Findings::new(alloc, plan, callers, tally)?;
    let mut gather = Gather::new(alloc)?;
    tell_report(alloc, plan, &findings, &mut gather, sink)?;
    Ok(finish(gather, sink)?)
}

// Tells the lines of the requests, and those after them.
fn tell_report<K: Sink>(
    alloc: Global,
    plan: &Plan,
    findings: &Findings,
    gather: &mut Gather,
    sink: &mut K,
) -> Result<(), ReportFault>
    requires { (entries : List Step) × AreFound plan.now entries findings.now }
    ensures { (entries : List Step) → AreFound plan.now entries findings.now → Tells result (K.written sink.old) (K.written sink.new) gather.old gather.new (K.faults sink.old) (K.faults sink.new) (report_of plan.now entries findings.now.packets) }
{
    tell_requests(alloc, plan, &findings.callers, gather, sink)?;
    tell_found(alloc, plan, findings, gather, sink)
}

// Tells the lines of the routes that were found, and those after them.
fn tell_found<K: Sink>(
    alloc: Global,
    plan: &Plan,
    findings: &Findings,
    gather: &mut Gather,
    sink: &mut K,
) -> Result<(), ReportFault>
    requires { (entries : List Step) × AreFound plan.now entries findings.now }
    ensures { (entries : List Step) → AreFound plan.now entries findings.now → Tells result (K.written sink.old) (K.written sink.new) gather.old gather.new (K.faults sink.old) (K.faults sink.new) (route_lines plan.now.links plan.now.requests ++ (move_lines plan.now (reverse entries) ++ (channel_lines plan.now (departures_of entries) (reverse entries) ++ (link_lines plan.now (reverse entries) ++ (end_line (length entries) ++ table_if findings.now.packets plan.now entries))))) }
{
    tell_routes(alloc, plan.links(), plan.requests(), gather, sink)?;
    tell_moved(alloc, plan, findings, gather, sink)
}

// Tells the lines of the moves that were made, and those after them.
fn tell_moved<K: Sink>(
    alloc: Global,
    plan: &Plan,
    findings: &Findings,
    gather: &mut Gather,
    sink: &mut K,
) -> Result<(), ReportFault>
    requires { (entries : List Step) × AreFound plan.now entries findings.now }
    ensures { (entries : List Step) → AreFound plan.now entries findings.now → Tells result (K.written sink.old) (K.written sink.new) gather.old gather.new (K.faults sink.old) (K.faults sink.new) (move_lines plan.now (reverse entries) ++ (channel_lines plan.now (departures_of entries) (reverse entries) ++ (link_lines plan.now (reverse entries) ++ (end_line (length entries) ++ table_if findings.now.packets plan.now entries)))) }
{
    tell_moves(alloc, plan, &findings.callers, gather, sink)?;
    tell_carried(alloc, plan, findings, gather, sink)
}

// Tells the lines of the channels, and those after them.
fn tell_carried<K: Sink>(
    alloc: Global,
    plan: &Plan,
    findings: &Findings,
    gather: &mut Gather,
    sink: &mut K,
) -> Result<(), ReportFault>
    requires { (entries : List Step) × AreFound plan.now entries findings.now }
    ensures { (entries : List Step) → AreFound plan.now entries findings.now → Tells result (K.written sink.old) (K.written sink.new) gather.old gather.new (K.faults sink.old) (K.faults sink.new) (channel_lines plan.now (departures_of entries) (reverse entries) ++ (link_lines plan.now (reverse entries) ++ (end_line (length entries) ++ table_if findings.now.packets plan.now entries))) }
{
    tell_channels(alloc, plan, findings, gather, sink)?;
    tell_network(alloc, plan, findings, gather, sink)
}

// Tells the lines of the links, and those after them.
fn tell_network<K: Sink>(
    alloc: Global,
    plan: &Plan,
    findings: &Findings,
    gather: &mut Gather,
    sink: &mut K,
) -> Result<(), ReportFault>
    requires { (entries : List Step) × AreFound plan.now entries findings.now }
    ensures { (entries : List Step) → AreFound plan.now entries findings.now → Tells result (K.written sink.old) (K.written sink.new) gather.old gather.new (K.faults sink.old) (K.faults sink.new) (link_lines plan.now (reverse entries) ++ (end_line (length entries) ++ table_if findings.now.packets plan.now entries)) }
{
    tell_links(alloc, plan, findings.links.as_slice(), gather, sink)?;
    tell_steps(alloc, plan, findings, gather, sink)
}

// Tells how many steps there were, and the table where it is asked for.
fn tell_steps<K: Sink>(
    alloc: Global,
    plan: &Plan,
    findings: &Findings,
    gather: &mut Gather,
    sink: &mut K,
) -> Result<(), ReportFault>
    ensures { (entries : List Step) → AreFound plan.now entries findings.now → Tells result (K.written sink.old) (K.written sink.new) gather.old gather.new (K.faults sink.old) (K.faults sink.new) (end_line (length entries) ++ table_if findings.now.packets plan.now entries) }
{
    tell_end(alloc, findings.steps, gather, sink)?;
    if findings.packets {
        tell_table(alloc, plan, findings.rows.as_slice(), gather, sink)
    } else {
        Ok(())
    }
}
