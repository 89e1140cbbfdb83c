//! The word `audit`: from the bytes of a scenario, a report and its table of packets to what is found in the table.
ghost use Rattle.std.specs.Prelude.{◌≡◌, ◌≤◌, IfOk, string_bytes};
ghost use Rattle.call_script.specs.Accepted.{AreAccepted};
ghost use Rattle.run_record.specs.SmallRows.{AreSmall};
ghost use Rattle.tenet_app.specs.Auditing.{AnswersTable, Audits, TellsFinding, finding_line};
ghost use Rattle.tenet_app.specs.Playing.{CountsRise};

use crate::playing::refuse_reading;
use crate::status::Status;
use byte_ends::{Sink, Source, put_all};
use call_script::Plan;
use net_units::{Levels, OutOfMemory};
use run_record::HopRow;
use scenario_reader::read_audit;
use std::alloc::{AllocError, Global};
use trace_audit::Finding;

/// Reads a scenario, the line `report`, a report and its table of packets, audits the table, and writes what is found in one line. It waits
/// for nobody.
pub fn audit<S: Source, K: Sink>(alloc: Global, source: &mut S, sink: &mut K) -> Status
    ensures audits { Audits result
        (record { left = S.left source.old; read_faults = S.faults source.old; written = K.written sink.old; write_faults = K.faults sink.old })
        (record { left = S.left source.new; read_faults = S.faults source.new; written = K.written sink.new; write_faults = K.faults sink.new }) }
    ensures counts { CountsRise
        (record { left = S.left source.old; read_faults = S.faults source.old; written = K.written sink.old; write_faults = K.faults sink.old })
        (record { left = S.left source.new; read_faults = S.faults source.new; written = K.written sink.new; write_faults = K.faults sink.new }) }
{
    match read_audit(alloc, source) {
        Ok((plan, levels, table)) => {
            answer(alloc, &plan, levels.as_slice(), table.as_slice(), sink)
        }
        Err(refusal) => refuse_reading(alloc, refusal, sink),
    }
}

// Audits a table, and writes what is found.
fn answer<K: Sink>(
    alloc: Global,
    plan: &Plan,
    levels: &[Option<Levels>],
    table: &[HopRow],
    sink: &mut K,
) -> Status
    requires accepted { AreAccepted plan.now levels.now }
    requires small { AreSmall table.now }
    ensures answers { AnswersTable plan.now levels.now table.now result (K.written sink.old) (K.written sink.new) (K.faults sink.old) (K.faults sink.new) }
    ensures counts { K.faults sink.old ≤ K.faults sink.new }
{
    match trace_audit::audit(alloc, plan, levels, table) {
        Ok(finding) => tell(alloc, &finding, sink),
        Err(OutOfMemory) => Status::Memory,
    }
}

// Writes what is found.
fn tell<K: Sink>(alloc: Global, finding: &Finding, sink: &mut K) -> Status
    ensures tells { TellsFinding finding.now result (K.written sink.old) (K.written sink.new) (K.faults sink.old) (K.faults sink.new) }
    ensures counts { K.faults sink.old ≤ K.faults sink.new }
{
    let text = match text_of(alloc, finding) {
        Ok(text) => text,
        Err(AllocError) => return Status::Memory,
    };
    match put_all(sink, text.as_bytes()) {
        Ok(()) => Status::Done,
        Err(_) => Status::WriteFault,
    }
}

// Its line.
fn text_of(alloc: Global, finding: &Finding) -> Result<String, AllocError>
    ensures { IfOk result (λ text. string_bytes text ≡ finding_line finding.now) }
{
    let text = format!(in alloc; "{finding}\n")?;
    Ok(text)
}
