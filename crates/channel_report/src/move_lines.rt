//! The lines of the moves that were made.
ghost use Rattle.std.specs.Prelude.{◌≡◌, ◌++◌, List, OnOk, string_bytes};
ghost use Rattle.std.specs.List.{slice_get};
ghost use Rattle.net_units.specs.Numbers.{channel_number};
ghost use Rattle.run_engine.specs.schedules.Standing.{CallersStand};
ghost use Rattle.run_record.specs.declared.done.Done.{Done as Step};
ghost use Rattle.channel_report.specs.Moves.{made_line, line_between, op_line, script_lines, move_lines};
ghost use Rattle.text_writer.specs.Telling.{Tells};

use byte_ends::{Gather, Sink};
use call_script::{Op, Plan};
use channel_move::Shifted;
use net_units::{ChanNo, Name};
use run_engine::Callers;
use std::alloc::{AllocError, Global};
use text_writer::{ReportFault, tell};

// Tells the lines of the moves of all callers, by what these know of them.
pub(crate) fn tell_moves<K: Sink>(
    alloc: Global,
    plan: &Plan,
    callers: &Callers,
    gather: &mut Gather,
    sink: &mut K,
) -> Result<(), ReportFault>
    requires { (run : List Step) × CallersStand plan.now callers.now run }
    ensures { (run : List Step) → CallersStand plan.now callers.now run → Tells result (K.written sink.old) (K.written sink.new) gather.old gather.new (K.faults sink.old) (K.faults sink.new) (move_lines plan.now run) }
{
    for caller in plan.callers() {
        tell_script(alloc, plan, callers, caller.ops.as_slice(), gather, sink)?;
    }
    Ok(())
}

// Tells those of one script.
fn tell_script<K: Sink>(
    alloc: Global,
    plan: &Plan,
    callers: &Callers,
    ops: &[Op],
    gather: &mut Gather,
    sink: &mut K,
) -> Result<(), ReportFault>
    requires { (run : List Step) × CallersStand plan.now callers.now run }
    ensures { (run : List Step) → CallersStand plan.now callers.now run → Tells result (K.written sink.old) (K.written sink.new) gather.old gather.new (K.faults sink.old) (K.faults sink.new) (script_lines plan.now run ops.now) }
{
    for op in ops {
        tell_op(alloc, plan, callers, op, gather, sink)?;
    }
    Ok(())
}

// Tells the line of an operation, if it is a move that was made.
fn tell_op<K: Sink>(
    alloc: Global,
    plan: &Plan,
    callers: &Callers,
    op: &Op,
    gather: &mut Gather,
    sink: &mut K,
) -> Result<(), ReportFault>
    requires { (run : List Step) × CallersStand plan.now callers.now run }
    ensures { (run : List Step) → CallersStand plan.now callers.now run → Tells result (K.written sink.old) (K.written sink.new) gather.old gather.new (K.faults sink.old) (K.faults sink.new) (op_line plan.now run op.now) }
{
    let mut line = String::new(alloc);
    push_op(&mut line, plan, callers, op)?;
    Ok(tell(gather, sink, line.as_bytes())?)
}

// The line of an operation.
fn push_op(text: &mut String, plan: &Plan, callers: &Callers, op: &Op) -> Result<(), AllocError>
    requires { (run : List Step) × CallersStand plan.now callers.now run }
    ensures { OnOk result ((run : List Step) → CallersStand plan.now callers.now run → string_bytes text.new ≡ string_bytes text.old ++ op_line plan.now run op.now) }
{
    match op {
        Op::Move { old, new } => push_move(text, plan, callers, *old, *new),
        _ => Ok(()),
    }
}

// The line of a move between two channels.
fn push_move(
    text: &mut String,
    plan: &Plan,
    callers: &Callers,
    old: ChanNo,
    new: ChanNo,
) -> Result<(), AllocError>
    requires { (run : List Step) × CallersStand plan.now callers.now run }
    ensures { OnOk result ((run : List Step) → CallersStand plan.now callers.now run → string_bytes text.new ≡ string_bytes text.old ++ line_between plan.now run (slice_get plan.now.requests (channel_number old)) (slice_get plan.now.requests (channel_number new))) }
{
    let requests = plan.requests();
    let number = old.get() as usize;
    match requests.get(number) {
        None => Ok(()),
        Some(from) => match requests.get(new.get() as usize) {
            None => Ok(()),
            Some(to) => push_made(text, from.name, to.name, &callers.moved(plan, number)),
        },
    }
}

// The line of a move, where it was made.
fn push_made(
    text: &mut String,
    old: Name,
    new: Name,
    told: &Option<Shifted>,
) -> Result<(), AllocError>
    ensures { OnOk result (string_bytes text.new ≡ string_bytes text.old ++ made_line old new told.now) }
{
    match told {
        None => Ok(()),
        Some(told) => {
            let (kept, shifted) = (told.kept, told.shifted);
            writeln!(text, "move {old} {new} kept {kept} shifted {shifted}")
        }
    }
}
