//! What an audit keeps of the rows of a channel at a hop.
ghost use Rattle.std.specs.Prelude.{◌≡◌, ◌+◌, ◌^◌, ◌<◌, ◌≤◌, None, IfOk, IfSome};
ghost use Rattle.traffic_contract.specs.Eligible.{newest};
ghost use Rattle.run_record.specs.SmallRows.{IsSmall};
ghost use Rattle.trace_audit.specs.Checks.{is_within_bound};
ghost use Rattle.trace_audit.specs.Kept.{arrival_fits, due_of, fresh_hop, hop_fault, hop_with, size_fits};
ghost use Rattle.trace_audit.specs.Checks.{has_size_of as size_before};

use crate::finding::Check;
use crate::terms::Terms;
use net_units::{Kind, OutOfMemory, ceil_div};
use regulator_core::Regulator;
use run_record::HopRow;
use std::alloc::Global;
use traffic_contract::Contract;

// What is kept of the rows of a channel at a hop: the number of the newest packet and the tick at which it arrived, both 0 before
// the first, and the regulator.
#[derive(Drop)]
pub(crate) struct HopTrail {
    pub(crate) number: u64,
    pub(crate) at: u64,
    pub(crate) regulator: Regulator,
}

impl HopTrail {
    // What is kept before the first row. It takes all the memory that it will ever need.
    pub(crate) fn new(
        alloc: Global,
        contract: Contract,
        kind: Kind,
    ) -> Result<HopTrail, OutOfMemory>
        ensures { IfOk result (λ hop. hop ≡ fresh_hop contract kind) }
    {
        let regulator = Regulator::new(alloc, contract, kind)?;
        Ok(HopTrail {
            number: 0,
            at: 0,
            regulator,
        })
    }

    // Checks a row of this hop, with the packet's row at the hop before, if there is one, and keeps it where it passes.
    pub(crate) fn check(
        &mut self,
        terms: &Terms,
        near: Option<HopRow>,
        row: &HopRow,
    ) -> Option<Check>
        requires small { IsSmall row.now }
        requires near_small { IfSome near IsSmall }
        requires rate { 1 ≤ terms.now.rate }
        requires contract { self.old.regulator.contract ≡ terms.now.contract }
        requires kind { self.old.regulator.kind ≡ terms.now.kind }
        requires last { newest self.old.regulator.recent < 2 ^ 63 }
        ensures fault { result ≡ hop_fault terms.now self.old near row.now }
        ensures kept { result ≡ None → self.new ≡ hop_with self.old row.now }
    {
        if !fits_size(terms, near, row) {
            return Some(Check::Size);
        }
        if !self.fits_arrival(terms, near, row) {
            return Some(Check::Arrive);
        }
        if self.regulator.admit(row.at, due(terms, near)) != row.eligible {
            return Some(Check::Eligible);
        }
        if !is_in_time(terms, row) {
            return Some(Check::Bound);
        }
        self.number = row.number;
        self.at = row.at;
        None
    }

    // Whether it arrived when it could.
    fn fits_arrival(&self, terms: &Terms, near: Option<HopRow>, row: &HopRow) -> bool
        requires { IfSome near IsSmall }
        ensures { result ≡ arrival_fits terms.now self.now near row.now }
    {
        match near {
            Some(near) => row.at == near.departed + u64::from(terms.prop_before),
            None => self.at <= row.at,
        }
    }
}

// Whether its size is within the contract, and that of the hop before.
fn fits_size(terms: &Terms, near: Option<HopRow>, row: &HopRow) -> bool
    ensures { result ≡ size_fits terms.now near row.now }
{
    1 <= row.size && row.size <= terms.contract.smax() && has_size_of(near, row)
}

// Whether its size is that of the hop before.
fn has_size_of(near: Option<HopRow>, row: &HopRow) -> bool
    ensures { result ≡ size_before near row.now }
{
    match near {
        Some(near) => row.size == near.size,
        None => true,
    }
}

// When a packet that left the hop before is due, 0 at the first hop.
fn due(terms: &Terms, near: Option<HopRow>) -> u64
    requires { IfSome near IsSmall }
    ensures value { result ≡ due_of terms.now near }
    ensures most { result < 2 ^ 62 }
{
    let bound = u64::from(terms.bound_before);
    let prop = u64::from(terms.prop_before);
    match near {
        Some(near) => near.eligible + bound + prop,
        None => 0,
    }
}

#[tactic(auto, unfolding(crate::specs::Checks::is_within_bound))]
// Whether it departed once it can have been sent, and within its bound.
fn is_in_time(terms: &Terms, row: &HopRow) -> bool
    requires rate { 1 ≤ terms.now.rate }
    requires small { IsSmall row.now }
    ensures { result ≡ is_within_bound terms.now row.now }
{
    let work = ceil_div(u64::from(row.size), u64::from(terms.rate));
    row.eligible + work <= row.departed && row.departed <= row.eligible + u64::from(terms.bound)
}
