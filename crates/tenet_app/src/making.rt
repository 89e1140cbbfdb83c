//! The word `make`: from a number and a size to the summary of a run.
ghost use Rattle.std.specs.Prelude.{◌≤◌};
ghost use Rattle.tenet_app.specs.Making.{Makes, Summarizes};

use crate::status::Status;
use byte_ends::Sink;
use channel_report::{ReportFault, Tally, write_tallied_summary};
use load_maker::{made, take_watched_turns};
use std::alloc::Global;

/// Makes the plan of a number with this many requests, lets its actors make their steps in turn, and writes the summary of that run.
/// It reads nothing, and waits for nobody.
pub fn make<K: Sink>(alloc: Global, number: u32, size: u32, sink: &mut K) -> Status
    requires number { number ≤ 2147483647 }
    requires least { 1 ≤ size }
    requires most { size ≤ 1024 }
    ensures makes { Makes number size result (K.written sink.old) (K.written sink.new) (K.faults sink.old) (K.faults sink.new) }
    ensures counts { K.faults sink.old ≤ K.faults sink.new }
{
    match summarize(alloc, number, size, sink) {
        Ok(()) => Status::Done,
        Err(ReportFault::Memory) => Status::Memory,
        Err(ReportFault::WriteFault) => Status::WriteFault,
    }
}

// Writes the summary of that run.
fn summarize<K: Sink>(
    alloc: Global,
    number: u32,
    size: u32,
    sink: &mut K,
) -> Result<(), ReportFault>
    requires number { number ≤ 2147483647 }
    requires least { 1 ≤ size }
    requires most { size ≤ 1024 }
    ensures summarizes { Summarizes number size result (K.written sink.old) (K.written sink.new) (K.faults sink.old) (K.faults sink.new) }
    ensures counts { K.faults sink.old ≤ K.faults sink.new }
{
    let plan = made(alloc, number, size)?;
    let mut tally = Tally::new(alloc, &plan, false)?;
    let callers = take_watched_turns(alloc, &plan, &mut tally)?;
    write_tallied_summary(alloc, number, size, &plan, callers, tally, sink)
}
