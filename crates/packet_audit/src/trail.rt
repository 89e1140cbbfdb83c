//! What is kept of the rows of one channel.
ghost use Rattle.std.specs.Prelude.{◌≡◌, ◌+◌, ◌-◌, ◌≤◌, ◌∷◌, [], List, OnOk, drop, nat_le, reverse};
ghost use Rattle.traffic_contract.specs.Keeping.{may_follow, starts_before};
ghost use Rattle.packet_audit.specs.Promises.{apart, delay_fault_after, is_kept, jitter_fault_after, late_by, uneven_by, widened};
ghost use Rattle.packet_audit.specs.Trails.{TrailStands};
ghost use Rattle.packet_audit.specs.declared.rows.Promise.{Promise as Promised};
ghost use Rattle.packet_audit.specs.declared.rows.Row.{Row as Measured};

use crate::rows::{Fault, Promise, Row, Spread};
use net_units::OutOfMemory;
use std::alloc::Global;
use traffic_contract::Contract;

// The rows of a channel so far: when its packets were sent, whether they keep the contract, and the least and the largest delay.
#[derive(Drop)]
pub(crate) struct Trail {
    pub(crate) sent: Vec<u64>,
    pub(crate) keeps: bool,
    pub(crate) spread: Option<Spread>,
}

impl Trail {
    // Of no row.
    pub(crate) fn new(alloc: Global) -> Trail
        ensures { (promise : Promised) → TrailStands promise result [] }
    {
        Trail {
            sent: Vec::new(alloc),
            keeps: true,
            spread: None,
        }
    }

    // What is found of the delay of the next row.
    pub(crate) fn delay_fault(&self, promise: &Promise, row: &Row) -> Option<Fault>
        requires { row.now.sent ≤ row.now.arrived }
        ensures { (own : List Measured) → TrailStands promise.now self.now own → result ≡ delay_fault_after promise.now own row.now }
    {
        if !self.keeps {
            return None;
        }
        if !follows(&promise.contract, &self.sent, row.sent) {
            return Some(Fault::BreaksContract);
        }
        late_by(promise.delay, row.arrived - row.sent)
    }

    // What is found of its jitter.
    pub(crate) fn jitter_fault(&self, promise: &Promise, row: &Row) -> Option<Fault>
        requires { row.now.sent ≤ row.now.arrived }
        ensures { (own : List Measured) → TrailStands promise.now self.now own → result ≡ jitter_fault_after promise.now own row.now }
    {
        if !self.keeps_with(promise, row.sent) {
            return None;
        }
        uneven_by(promise.jitter, apart(row.arrived - row.sent, &self.spread))
    }

    // Takes the next row.
    pub(crate) fn take(&mut self, promise: &Promise, row: &Row) -> Result<(), OutOfMemory>
        requires { row.now.sent ≤ row.now.arrived }
        ensures { OnOk result ((own : List Measured) → TrailStands promise.now self.old own → TrailStands promise.now self.new (row.now ∷ own)) }
    {
        let keeps = self.keeps_with(promise, row.sent);
        let spread = widened(row.arrived - row.sent, &self.spread);
        self.sent.push(row.sent)?;
        self.keeps = keeps;
        self.spread = Some(spread);
        Ok(())
    }

    // Whether its source keeps the contract with one packet more.
    fn keeps_with(&self, promise: &Promise, sent: u64) -> bool
        ensures { (own : List Measured) (row : Measured) → TrailStands promise.now self.now own → row.sent ≡ sent → result ≡ is_kept promise.now.contract (row ∷ own) }
    {
        follows(&promise.contract, &self.sent, sent) && self.keeps
    }
}

// The least and the largest of these delays and one more.
fn widened(delay: u64, spread: &Option<Spread>) -> Spread
    ensures { result ≡ widened delay spread.now }
{
    match spread {
        None => Spread {
            least: delay,
            most: delay,
        },
        Some(spread) => Spread {
            least: delay.min(spread.least),
            most: delay.max(spread.most),
        },
    }
}

// The most by which a delay differs from these.
fn apart(delay: u64, spread: &Option<Spread>) -> u64
    ensures { result ≡ apart delay spread.now }
{
    match spread {
        None => 0,
        Some(spread) => delay
            .saturating_sub(spread.least)
            .max(spread.most.saturating_sub(delay)),
    }
}

// What is found of a delay, where this is promised.
fn late_by(promised: u64, delay: u64) -> Option<Fault>
    ensures { result ≡ late_by promised delay }
{
    if delay <= promised {
        return None;
    }
    Some(Fault::Late {
        by: delay - promised,
    })
}

// What is found of a delay that differs from others by this much.
fn uneven_by(promised: Option<u64>, apart: u64) -> Option<Fault>
    ensures { result ≡ uneven_by promised apart }
{
    match promised {
        Some(jitter) if apart >= jitter => Some(Fault::Uneven { apart }),
        _ => None,
    }
}

// Whether a packet that is sent at this tick may follow these, in order of time, by the contract.
fn follows(contract: &Contract, ticks: &[u64], sent: u64) -> bool
    ensures { result ≡ may_follow contract.now (reverse ticks.now) sent }
{
    is_after(ticks, 1, contract.xmin(), sent)
        && is_after(ticks, contract.burst() as usize, contract.interval(), sent)
}

// Whether the tick is at least this much after the one that stands so many places from the end, where there is one.
fn is_after(ticks: &[u64], back: usize, least: u32, sent: u64) -> bool
    requires { 1 ≤ back }
    ensures { result ≡ starts_before sent least (drop (back - 1) (reverse ticks.now)) }
{
    if ticks.len() < back {
        return true;
    }
    is_apart(ticks[ticks.len() - back], least, sent)
}

// Whether a tick is at least this much after an earlier one.
fn is_apart(earlier: u64, least: u32, sent: u64) -> bool
    ensures { result ≡ nat_le (earlier + least) sent }
{
    if sent < earlier {
        return false;
    }
    sent - earlier >= u64::from(least)
}
