//! Writing a plan.
ghost use Rattle.std.specs.Prelude.{◌≤◌, length};
ghost use Rattle.std.specs.List.{flat_map};
ghost use Rattle.net_units.specs.Numbers.{actor_number};
ghost use Rattle.link_steps.specs.Lists.{Each};
ghost use Rattle.call_script.specs.declared.schedule.Do.{Do as Item};
ghost use Rattle.scenario_reader.specs.PlanText.{plan_text, head_text, split_text, rest_text, caller_text, end_text};
ghost use Rattle.scenario_reader.specs.line.Link.{link_text};
ghost use Rattle.scenario_reader.specs.line.Operation.{op_text};
ghost use Rattle.scenario_reader.specs.line.Group.{group_text};
ghost use Rattle.scenario_reader.specs.line.Quota.{quota_text, quotas_text};
ghost use Rattle.scenario_reader.specs.line.Schedule.{do_text, schedule_text};
ghost use Rattle.scenario_reader.specs.line.Rounds.{rounds_text};
ghost use Rattle.text_writer.specs.Telling.{Tells, WritesText};

use crate::line::caller::caller_line;
use crate::line::group::group_line;
use crate::line::header::header_line;
use crate::line::link::link_line;
use crate::line::operation::op_line;
use crate::line::quota::quota_line;
use crate::line::rounds::{rounds_line, tail_line};
use crate::line::schedule::{do_line, schedule_line};
use byte_ends::{Gather, Sink};
use call_script::{CallerEntry, Do, LinkEntry, Op, Plan, RequestEntry, Schedule};
use link_steps::Quota;
use net_units::Name;
use std::alloc::Global;
use text_writer::{ReportFault, finish, tell_line};

/// Writes the one text of the plan: the header, the links, the groups, the quotas link by link, the callers each with its operations
/// in their order, `rounds` and `tail`, and, where the schedule is written, `schedule` and its `do` lines. A request whose route was
/// found has its two nodes in place of the links. The schedule's actors are those of the plan.
///
/// The text is gathered and written in pieces of at most 65,536 bytes. `WriteFault` comes only where the sink's count of
/// faults rose in this call. After a refusal a prefix of the text was written.
pub fn write_plan<K: Sink>(
    alloc: Global,
    plan: &Plan,
    schedule: &Schedule,
    sink: &mut K,
) -> Result<(), ReportFault>
    requires actors { Each (λ (item : Item). actor_number item.actor ≤ length plan.now.callers) schedule.now.items }
    ensures { WritesText result (K.written sink.old) (K.written sink.new) (K.faults sink.old) (K.faults sink.new) (plan_text plan.now schedule.now) }
{
    let mut out = Gather::new(alloc)?;
    write_lines(alloc, &mut out, sink, plan, schedule)?;
    Ok(finish(out, sink)?)
}

// All lines.
fn write_lines<K: Sink>(
    alloc: Global,
    out: &mut Gather,
    sink: &mut K,
    plan: &Plan,
    schedule: &Schedule,
) -> Result<(), ReportFault>
    ensures { Tells result (K.written sink.old) (K.written sink.new) out.old out.new (K.faults sink.old) (K.faults sink.new) (plan_text plan.now schedule.now) }
{
    write_head(alloc, out, sink, plan)?;
    write_split(alloc, out, sink, plan.groups(), plan.links())?;
    write_rest(alloc, out, sink, plan, schedule)
}

// The callers, and what stands after them.
fn write_rest<K: Sink>(
    alloc: Global,
    out: &mut Gather,
    sink: &mut K,
    plan: &Plan,
    schedule: &Schedule,
) -> Result<(), ReportFault>
    ensures { Tells result (K.written sink.old) (K.written sink.new) out.old out.new (K.faults sink.old) (K.faults sink.new) (rest_text plan.now schedule.now) }
{
    write_callers(alloc, out, sink, plan, plan.callers())?;
    write_end(alloc, out, sink, plan, schedule)
}

// The header and the links.
fn write_head<K: Sink>(
    alloc: Global,
    out: &mut Gather,
    sink: &mut K,
    plan: &Plan,
) -> Result<(), ReportFault>
    ensures { Tells result (K.written sink.old) (K.written sink.new) out.old out.new (K.faults sink.old) (K.faults sink.new) (head_text plan.now) }
{
    tell_line(out, sink, header_line(alloc, plan.version()))?;
    write_links(alloc, out, sink, plan.links())
}

// What stands after the callers.
fn write_end<K: Sink>(
    alloc: Global,
    out: &mut Gather,
    sink: &mut K,
    plan: &Plan,
    schedule: &Schedule,
) -> Result<(), ReportFault>
    ensures { Tells result (K.written sink.old) (K.written sink.new) out.old out.new (K.faults sink.old) (K.faults sink.new) (end_text plan.now schedule.now) }
{
    write_rounds(alloc, out, sink, plan.rounds(), plan.tail())?;
    write_schedule(alloc, out, sink, plan.callers(), schedule)
}

fn write_links<K: Sink>(
    alloc: Global,
    out: &mut Gather,
    sink: &mut K,
    links: &[LinkEntry],
) -> Result<(), ReportFault>
    ensures { Tells result (K.written sink.old) (K.written sink.new) out.old out.new (K.faults sink.old) (K.faults sink.new) (flat_map link_text links.now) }
{
    for entry in links {
        tell_line(out, sink, link_line(alloc, entry))?;
    }
    Ok(())
}

// The groups, and the quotas of the links.
fn write_split<K: Sink>(
    alloc: Global,
    out: &mut Gather,
    sink: &mut K,
    groups: &[Name],
    links: &[LinkEntry],
) -> Result<(), ReportFault>
    ensures { Tells result (K.written sink.old) (K.written sink.new) out.old out.new (K.faults sink.old) (K.faults sink.new) (split_text groups.now links.now) }
{
    write_groups(alloc, out, sink, groups)?;
    write_shares(alloc, out, sink, groups, links)
}

fn write_groups<K: Sink>(
    alloc: Global,
    out: &mut Gather,
    sink: &mut K,
    groups: &[Name],
) -> Result<(), ReportFault>
    ensures { Tells result (K.written sink.old) (K.written sink.new) out.old out.new (K.faults sink.old) (K.faults sink.new) (flat_map group_text groups.now) }
{
    for name in groups {
        tell_line(out, sink, group_line(alloc, *name))?;
    }
    Ok(())
}

// The quotas of all links.
fn write_shares<K: Sink>(
    alloc: Global,
    out: &mut Gather,
    sink: &mut K,
    groups: &[Name],
    links: &[LinkEntry],
) -> Result<(), ReportFault>
    ensures { Tells result (K.written sink.old) (K.written sink.new) out.old out.new (K.faults sink.old) (K.faults sink.new) (flat_map (quotas_text groups.now) links.now) }
{
    for entry in links {
        write_quotas(alloc, out, sink, groups, entry)?;
    }
    Ok(())
}

// The quotas of a link.
#[tactic(auto, unfolding(crate::specs::line::Quota::quotas_text))]
fn write_quotas<K: Sink>(
    alloc: Global,
    out: &mut Gather,
    sink: &mut K,
    groups: &[Name],
    entry: &LinkEntry,
) -> Result<(), ReportFault>
    ensures { Tells result (K.written sink.old) (K.written sink.new) out.old out.new (K.faults sink.old) (K.faults sink.new) (quotas_text groups.now entry.now) }
{
    write_some_quotas(alloc, out, sink, groups, entry, entry.quotas.as_slice())
}

// These quotas of a link.
fn write_some_quotas<K: Sink>(
    alloc: Global,
    out: &mut Gather,
    sink: &mut K,
    groups: &[Name],
    entry: &LinkEntry,
    quotas: &[Quota],
) -> Result<(), ReportFault>
    ensures { Tells result (K.written sink.old) (K.written sink.new) out.old out.new (K.faults sink.old) (K.faults sink.new) (flat_map (quota_text groups.now entry.now) quotas.now) }
{
    for quota in quotas {
        tell_line(out, sink, quota_line(alloc, groups, entry, quota))?;
    }
    Ok(())
}

// These callers of the plan.
fn write_callers<K: Sink>(
    alloc: Global,
    out: &mut Gather,
    sink: &mut K,
    plan: &Plan,
    callers: &[CallerEntry],
) -> Result<(), ReportFault>
    ensures { Tells result (K.written sink.old) (K.written sink.new) out.old out.new (K.faults sink.old) (K.faults sink.new) (flat_map (caller_text plan.now.links plan.now.groups plan.now.requests) callers.now) }
{
    for caller in callers {
        write_caller(alloc, out, sink, plan, caller)?;
    }
    Ok(())
}

fn write_caller<K: Sink>(
    alloc: Global,
    out: &mut Gather,
    sink: &mut K,
    plan: &Plan,
    caller: &CallerEntry,
) -> Result<(), ReportFault>
    ensures { Tells result (K.written sink.old) (K.written sink.new) out.old out.new (K.faults sink.old) (K.faults sink.new) (caller_text plan.now.links plan.now.groups plan.now.requests caller.now) }
{
    tell_line(
        out,
        sink,
        caller_line(alloc, plan.groups(), caller.name, caller.group),
    )?;
    write_ops(
        alloc,
        out,
        sink,
        plan.links(),
        plan.requests(),
        caller.ops.as_slice(),
    )
}

fn write_ops<K: Sink>(
    alloc: Global,
    out: &mut Gather,
    sink: &mut K,
    links: &[LinkEntry],
    requests: &[RequestEntry],
    ops: &[Op],
) -> Result<(), ReportFault>
    ensures { Tells result (K.written sink.old) (K.written sink.new) out.old out.new (K.faults sink.old) (K.faults sink.new) (flat_map (op_text links.now requests.now) ops.now) }
{
    for op in ops {
        write_op(alloc, out, sink, links, requests, op)?;
    }
    Ok(())
}

fn write_op<K: Sink>(
    alloc: Global,
    out: &mut Gather,
    sink: &mut K,
    links: &[LinkEntry],
    requests: &[RequestEntry],
    op: &Op,
) -> Result<(), ReportFault>
    ensures { Tells result (K.written sink.old) (K.written sink.new) out.old out.new (K.faults sink.old) (K.faults sink.new) (op_text links.now requests.now op.now) }
{
    match op_line(alloc, links, requests, op) {
        Some(line) => tell_line(out, sink, line),
        None => Ok(()),
    }
}

fn write_rounds<K: Sink>(
    alloc: Global,
    out: &mut Gather,
    sink: &mut K,
    rounds: u64,
    tail: u64,
) -> Result<(), ReportFault>
    ensures { Tells result (K.written sink.old) (K.written sink.new) out.old out.new (K.faults sink.old) (K.faults sink.new) (rounds_text rounds tail) }
{
    tell_line(out, sink, rounds_line(alloc, rounds))?;
    tell_line(out, sink, tail_line(alloc, tail))
}

fn write_schedule<K: Sink>(
    alloc: Global,
    out: &mut Gather,
    sink: &mut K,
    callers: &[CallerEntry],
    schedule: &Schedule,
) -> Result<(), ReportFault>
    ensures { Tells result (K.written sink.old) (K.written sink.new) out.old out.new (K.faults sink.old) (K.faults sink.new) (schedule_text callers.now schedule.now) }
{
    if !schedule.written {
        return Ok(());
    }
    tell_line(out, sink, schedule_line(alloc))?;
    write_items(alloc, out, sink, callers, schedule.items.as_slice())
}

fn write_items<K: Sink>(
    alloc: Global,
    out: &mut Gather,
    sink: &mut K,
    callers: &[CallerEntry],
    items: &[Do],
) -> Result<(), ReportFault>
    ensures { Tells result (K.written sink.old) (K.written sink.new) out.old out.new (K.faults sink.old) (K.faults sink.new) (flat_map (do_text callers.now) items.now) }
{
    for item in items {
        tell_line(out, sink, do_line(alloc, callers, item))?;
    }
    Ok(())
}
