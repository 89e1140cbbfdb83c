//! What an audit keeps of the rows above.
ghost use Rattle.std.specs.Prelude.{◌≡◌, ◌≤◌, None, Some, List, [], ◌∷◌, true, IfOk, IfSome, OnOk, replicate};
ghost use Rattle.call_script.specs.Accepted.{AreAccepted};
ghost use Rattle.run_record.specs.SmallRows.{IsSmall};
ghost use Rattle.trace_audit.specs.Checks.{begins as is_beginning, fault_of, follows_row};
ghost use Rattle.trace_audit.specs.Kept.{fresh_hop, hops_after, hops_for, is_kept_order, kept_fault, near_kept, number_kept, IsReady};
ghost use Rattle.trace_audit.specs.Standing.{Stands};
ghost use Rattle.run_record.specs.declared.rows.HopRow.{HopRow as Row};

use crate::finding::Check;
use crate::hop_trail::HopTrail;
use crate::terms::{Terms, terms_of};
use call_script::Plan;
use net_units::{Levels, OutOfMemory};
use run_record::HopRow;
use std::alloc::Global;

// What is kept of the rows above: the last of them, and what those of its channel leave at each hop.
#[derive(Drop)]
pub(crate) struct Trail {
    pub(crate) last: Option<HopRow>,
    pub(crate) hops: Vec<HopTrail>,
}

impl Trail {
    // What is kept before the first row. It takes no memory.
    pub(crate) fn new(alloc: Global) -> Trail
        ensures last { result.last ≡ None }
        ensures hops { result.hops.items ≡ [] }
    {
        Trail {
            last: None,
            hops: Vec::new(alloc),
        }
    }

    // The first check that a row fails below these. Where it fails none, it is the last of them from here on.
    pub(crate) fn take(
        &mut self,
        alloc: Global,
        plan: &Plan,
        levels: &[Option<Levels>],
        row: &HopRow,
    ) -> Result<Option<Check>, OutOfMemory>
        requires accepted { AreAccepted plan.now levels.now }
        requires small { IsSmall row.now }
        requires stands { (rows : List Row) × Stands plan.now levels.now self.old rows }
        ensures fault { IfOk result (λ word. (rows : List Row) → Stands plan.now levels.now self.old rows → word ≡ fault_of plan.now levels.now rows row.now) }
        ensures stands { IfOk result (λ word. (rows : List Row) → Stands plan.now levels.now self.old rows → word ≡ None → Stands plan.now levels.now self.new (row.now ∷ rows)) }
    {
        match terms_of(plan, levels, row) {
            Some(terms) => self.take_known(alloc, &terms, row),
            None => Ok(Some(Check::Known)),
        }
    }

    // Of a row with these terms.
    fn take_known(
        &mut self,
        alloc: Global,
        terms: &Terms,
        row: &HopRow,
    ) -> Result<Option<Check>, OutOfMemory>
        requires hop { 1 ≤ row.now.hop }
        requires rate { 1 ≤ terms.now.rate }
        requires small { IsSmall row.now }
        requires last_small { IfSome self.old.last IsSmall }
        requires ready { is_kept_order self.old.last self.old.hops.items row.now ≡ true → IsReady terms.now (hops_for terms.now self.old.hops.items row.now) row.now }
        ensures fault { IfOk result (λ word. word ≡ kept_fault terms.now self.old row.now) }
        ensures last { IfOk result (λ word. word ≡ None → self.new.last ≡ Some row.now) }
        ensures hops { IfOk result (λ word. word ≡ None → self.new.hops.items ≡ hops_after terms.now self.old.hops.items row.now) }
    {
        if !self.is_in_order(row) {
            return Ok(Some(Check::Order));
        }
        self.turn(alloc, terms, row)?;
        let near = self.near(row);
        let word = self.hops[row.hop as usize - 1].check(terms, near, row);
        if word.is_none() {
            self.last = Some(*row);
        }
        Ok(word)
    }

    // Turns to the hops of a new channel, where a row begins one.
    fn turn(&mut self, alloc: Global, terms: &Terms, row: &HopRow) -> Result<(), OutOfMemory>
        ensures last { self.new.last ≡ self.old.last }
        ensures hops { OnOk result (self.new.hops.items ≡ hops_for terms.now self.old.hops.items row.now) }
    {
        if begins(row) {
            self.hops = fresh_hops(alloc, terms)?;
        }
        Ok(())
    }

    // Whether a row stands in its order below these.
    fn is_in_order(&self, row: &HopRow) -> bool
        requires { 1 ≤ row.now.hop }
        ensures { result ≡ is_kept_order self.now.last self.now.hops.items row.now }
    {
        match self.last {
            None => begins(row),
            Some(last) => {
                follows(&last, row)
                    && (row.number <= 1 || row.number - 1 <= self.number_at(row.hop))
            }
        }
    }

    // The number of the newest packet at a hop of the last row's channel, or 0.
    fn number_at(&self, hop: u8) -> u64
        requires { 1 ≤ hop }
        ensures { result ≡ number_kept self.now.hops.items hop }
    {
        match self.hops.get(hop as usize - 1) {
            Some(kept) => kept.number,
            None => 0,
        }
    }

    // The packet's row at the hop before, where the last row is that one.
    fn near(&self, row: &HopRow) -> Option<HopRow>
        ensures { result ≡ near_kept self.now.last row.now }
    {
        if row.hop == 1 { None } else { self.last }
    }
}

// The hops of a channel without rows.
fn fresh_hops(alloc: Global, terms: &Terms) -> Result<Vec<HopTrail>, OutOfMemory>
    ensures { IfOk result (λ hops. hops.items ≡ replicate terms.now.hops (fresh_hop terms.now.contract terms.now.kind)) }
{
    let mut hops = Vec::new(alloc);
    for _ in 0..terms.hops {
        hops.push(HopTrail::new(alloc, terms.contract, terms.kind)?)?;
    }
    Ok(hops)
}

// Whether it is hop 1 of packet 1.
fn begins(row: &HopRow) -> bool
    ensures { result ≡ is_beginning row.now }
{
    row.hop == 1 && row.number == 1
}

// Whether a row may stand below this one, as far as these two tell.
fn follows(last: &HopRow, row: &HopRow) -> bool
    ensures { result ≡ follows_row last.now row.now }
{
    if row.chan.get() == last.chan.get() {
        let goes_on = row.number == last.number && u16::from(row.hop) == u16::from(last.hop) + 1;
        let is_next = row.number >= 1 && row.number - 1 == last.number && row.hop == 1;
        goes_on || is_next
    } else {
        last.chan.get() < row.chan.get() && begins(row)
    }
}
