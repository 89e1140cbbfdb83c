//! The scenario of a design.

use byte_ends::{Sink, put_all};
use call_script::{Dos, Plan, Schedule};
use field_units::{Scale, Size};
use scenario_reader::{ReportFault, write_plan};
use std::alloc::Global;

/// Writes the plan's scenario, with notes on the tick and the unit before it.
pub fn write_design<K: Sink>(
    alloc: Global,
    scale: &Scale,
    plan: &Plan,
    sink: &mut K,
) -> Result<(), ReportFault> {
    let tick = scale.tick();
    let (count, word) = counted(scale.unit());
    let notes = format!(in alloc; "# tick {tick}\n# unit {count} {word}\n")?;
    put_all(sink, notes.as_bytes())?;
    let schedule = Schedule {
        written: false,
        items: Dos::new(Vec::new(alloc)),
    };
    write_plan(alloc, plan, &schedule, sink)
}

/// A unit in bytes, or in bits where it isn't whole bytes, with a word that the scripts of `ask/` and `plot/` know.
fn counted(unit: Size) -> (u64, &'static str) {
    match (unit.bits / 8, unit.bits % 8) {
        (1, 0) => (1, "byte"),
        (bytes, 0) => (bytes, "bytes"),
        _ => (unit.bits, "bits"),
    }
}
