//! The table of a run's packets.
ghost use Rattle.std.specs.Prelude.{◌≡◌, List, ℕ, IfOk};
ghost use Rattle.channel_report.specs.Table.{table_of};
ghost use Rattle.text_writer.specs.Telling.{Tells};

mod page;

use self::page::{header_page, rows_page};
use byte_ends::{Gather, Sink};
use call_script::Plan;
use net_units::OutOfMemory;
use run_record::HopRow;
use std::alloc::Global;
use text_writer::{ReportFault, tell};

// How many rows stand in memory at a time, some 40,000 bytes.
const ROWS_ON_A_PAGE: usize = 1024;

// Tells the header, and a line for each row, page by page.
pub(crate) fn tell_table<K: Sink>(
    alloc: Global,
    plan: &Plan,
    rows: &[HopRow],
    gather: &mut Gather,
    sink: &mut K,
) -> Result<(), ReportFault>
    ensures { Tells result (K.written sink.old) (K.written sink.new) gather.old gather.new (K.faults sink.old) (K.faults sink.new) (table_of plan.now rows.now) }
{
    tell_page(header_page(alloc), gather, sink)?;
    for page in rows.chunks(ROWS_ON_A_PAGE) {
        tell_page(rows_page(alloc, plan, page), gather, sink)?;
    }
    Ok(())
}

// Tells a page, if there was memory for it.
fn tell_page<K: Sink>(
    page: Result<Vec<u8>, OutOfMemory>,
    gather: &mut Gather,
    sink: &mut K,
) -> Result<(), ReportFault>
    ensures { (text : List ℕ) → IfOk page (λ p. p.items ≡ text)
        → Tells result (K.written sink.old) (K.written sink.new) gather.old gather.new (K.faults sink.old) (K.faults sink.new) text }
{
    let page = page?;
    Ok(tell(gather, sink, page.as_slice())?)
}
