//! Reading an audit's input, line by line.
ghost use Rattle.std.specs.Prelude.{◌≡◌, ◌≤◌, ℕ, Err, IfErr, IfOk, OnOk};
ghost use Rattle.std.specs.Io.KnownBytes.{IsAtEnd};
ghost use Rattle.byte_ends.specs.Faults.{FaultsRise};
ghost use Rattle.call_script.specs.Accepted.{AreAccepted};
ghost use Rattle.run_record.specs.SmallRows.{AreSmall};
ghost use Rattle.scenario_reader.specs.AuditKept.{levels_given};
ghost use Rattle.scenario_reader.specs.AuditReading.{AuditRead, LetsAuditPass};
ghost use Rattle.scenario_reader.specs.AuditSteps.{AuditBytes, RefusesReading};
ghost use Rattle.scenario_reader.specs.ReadSteps.{TakesTooMany};

use crate::audit::draft::AuditDraft;
use crate::by_line::read_lines;
use crate::reader::{MOST_BYTES, ReadRefusal};
use byte_ends::Source;
use call_script::Plan;
use net_units::Levels;
use run_record::HopRow;
use std::alloc::Global;

/// Reads an audit's input to its end, or up to the line that is refused: a scenario, the line `report`, the lines of a report, and
/// its table of packets. The answer is the plan; one entry a request, with the levels with which an `accept` line tells that it was
/// accepted; and the rows of the table.
///
/// The schedule is judged for its form and not used.
pub fn read_audit<S: Source>(
    alloc: Global,
    source: &mut S,
) -> Result<(Plan, Vec<Option<Levels>>, Vec<HopRow>), ReadRefusal>
    // Where the source tells its bytes, they determine the answer.
    ensures told { IfOk result (λ read. AuditBytes (S.left source.old) (λ r. r ≡ AuditRead read.0 (levels_given read.1.items) read.2.items)) }
    ensures refused { IfErr result (λ why. AuditBytes (S.left source.old) (RefusesReading why)) }
    ensures accepted { IfOk result (λ read. AreAccepted read.0 read.1.items) }
    ensures small { IfOk result (λ read. AreSmall read.2.items) }
    ensures ended { OnOk result (IsAtEnd (S.left source.new)) }
    ensures fault { result ≡ Err ReadRefusal.ReadFault → FaultsRise (S.faults source.old) (S.faults source.new) }
    ensures passing { result ≡ Err ReadRefusal.ReadFault → LetsAuditPass MOST_BYTES (S.left source.old) (S.left source.new) }
    ensures over { (taken : ℕ) → result ≡ Err (ReadRefusal.TooLong taken) → TakesTooMany taken MOST_BYTES (S.left source.old) (S.left source.new) }
    ensures counts { S.faults source.old ≤ S.faults source.new }
{
    let mut draft = AuditDraft::new(alloc)?;
    read_lines(alloc, &mut draft, source)?;
    Ok(draft.into_parts())
}
