//! An audit of a table.
ghost use Rattle.std.specs.Prelude.{◌≡◌, ℕ, length, IfOk};
ghost use Rattle.call_script.specs.Accepted.{AreAccepted};
ghost use Rattle.run_record.specs.SmallRows.{AreSmall};
ghost use Rattle.trace_audit.specs.Bounds.{TableKept};
ghost use Rattle.trace_audit.specs.Checks.{finding_of, IsSound};

use crate::finding::Finding;
use crate::trail::Trail;
use call_script::Plan;
use net_units::{Levels, OutOfMemory};
use run_record::HopRow;
use std::alloc::Global;

/// Audits a table of rows against a plan and the levels of its accepted requests: one entry a request. It tells the first row that
/// fails, numbered from 1, and the first check that it fails, or that none does. It answers `Sound` exactly where the table is sound, and
/// then the packets of the table keep the bounds of their hops and of their requests.
///
/// An `Err` comes only for want of memory. The audit keeps only what the rows of one channel leave, so the time that a table takes
/// grows as its length.
pub fn audit(
    alloc: Global,
    plan: &Plan,
    levels: &[Option<Levels>],
    table: &[HopRow],
) -> Result<Finding, OutOfMemory>
    requires accepted { AreAccepted plan.now levels.now }
    requires small { AreSmall table.now }
    ensures value { IfOk result (λ finding. finding ≡ finding_of plan.now levels.now table.now) }
    ensures sound { IfOk result (λ finding. (rows : ℕ) → finding ≡ Finding.Sound rows → IsSound plan.now levels.now table.now) }
    ensures complete { IfOk result (λ finding. IsSound plan.now levels.now table.now → finding ≡ Finding.Sound (length table.now)) }
    ensures kept { IfOk result (λ finding. (rows : ℕ) → finding ≡ Finding.Sound rows → TableKept plan.now levels.now table.now) }
{
    let _valid = plan.requests();
    let mut trail = Trail::new(alloc);
    for (index, row) in table.iter().enumerate() {
        if let Some(word) = trail.take(alloc, plan, levels, row)? {
            return Ok(Finding::Fault {
                row: index as u64 + 1,
                word,
            });
        }
    }
    Ok(Finding::Sound {
        rows: table.len() as u64,
    })
}
