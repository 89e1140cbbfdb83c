//! The text of a schedule.
ghost use Rattle.std.specs.Prelude.{◌≡◌, ◌≤◌, IfOk, length, string_bytes};
ghost use Rattle.net_units.specs.Numbers.{actor_number};
ghost use Rattle.link_steps.specs.Lists.{Each};
ghost use Rattle.channel_report.specs.Schedule.{item_line, schedule_of};
ghost use Rattle.text_writer.specs.Telling.{Tells, WritesText};

use byte_ends::{Gather, Sink};
use call_script::{Do, Plan, Schedule, actor_name};
use net_units::OutOfMemory;
use std::alloc::Global;
use text_writer::{ReportFault, do_line, finish, tell_line};

/// Writes the `do` lines of a schedule whose actors are those of the plan. A write fault comes only where the sink's count of
/// faults rose in this call. Where the lines aren't all written, a prefix of them is.
pub fn write_schedule<K: Sink>(
    alloc: Global,
    plan: &Plan,
    schedule: &Schedule,
    sink: &mut K,
) -> Result<(), ReportFault>
    requires { Each (λ item. actor_number item.actor ≤ length plan.now.callers) schedule.now.items }
    ensures { WritesText result (K.written sink.old) (K.written sink.new) (K.faults sink.old) (K.faults sink.new) (schedule_of plan.now.callers schedule.now.items) }
{
    let mut gather = Gather::new(alloc)?;
    tell_items(alloc, plan, schedule.items.as_slice(), &mut gather, sink)?;
    Ok(finish(gather, sink)?)
}

// Tells the lines of all items.
fn tell_items<K: Sink>(
    alloc: Global,
    plan: &Plan,
    items: &[Do],
    gather: &mut Gather,
    sink: &mut K,
) -> Result<(), ReportFault>
    ensures { Tells result (K.written sink.old) (K.written sink.new) gather.old gather.new (K.faults sink.old) (K.faults sink.new) (schedule_of plan.now.callers items.now) }
{
    for item in items {
        tell_item(alloc, plan, item, gather, sink)?;
    }
    Ok(())
}

// Tells the line of an item.
fn tell_item<K: Sink>(
    alloc: Global,
    plan: &Plan,
    item: &Do,
    gather: &mut Gather,
    sink: &mut K,
) -> Result<(), ReportFault>
    ensures { Tells result (K.written sink.old) (K.written sink.new) gather.old gather.new (K.faults sink.old) (K.faults sink.new) (item_line plan.now.callers item.now) }
{
    tell_line(gather, sink, item_line(alloc, plan, item))
}

// The line of an item, whose actor is a caller or the plane.
fn item_line(alloc: Global, plan: &Plan, item: &Do) -> Result<String, OutOfMemory>
    ensures { IfOk result (λ line. string_bytes line ≡ item_line plan.now.callers item.now) }
{
    do_line(alloc, actor_name(plan.callers(), item.actor), item.count)
}
