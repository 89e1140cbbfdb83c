//! The last line of a report.
ghost use Rattle.channel_report.specs.Report.{end_line};
ghost use Rattle.text_writer.specs.Telling.{Tells};

use byte_ends::{Gather, Sink};
use std::alloc::Global;
use text_writer::{ReportFault, tell};

// Tells how many steps there were.
pub(crate) fn tell_end<K: Sink>(
    alloc: Global,
    steps: usize,
    gather: &mut Gather,
    sink: &mut K,
) -> Result<(), ReportFault>
    ensures { Tells result (K.written sink.old) (K.written sink.new) gather.old gather.new (K.faults sink.old) (K.faults sink.new) (end_line steps) }
{
    let mut line = String::new(alloc);
    writeln!(line, "end steps {steps}")?;
    Ok(tell(gather, sink, line.as_bytes())?)
}
