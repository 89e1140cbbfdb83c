//! The requests over a link.
ghost use Rattle.std.specs.Prelude.{◌≡◌, ◌≤◌, ◌+◌, ◌*◌, ◌^◌, IfOk, length};
ghost use Rattle.traffic_contract.specs.Admission.{total};
ghost use Rattle.link_steps.specs.Buffer.{units_for};
ghost use Rattle.link_fill.specs.Fills.{AreAsked, held_in, kept_by, row_of};

use load_table::LinkRow;
use net_units::Level;
use std::alloc::{AllocError, Global};
use traffic_contract::Contract;

/// What an accepted request has at a link.
#[derive(Clone, Copy, Debug)]
pub struct Held {
    /// Its level.
    pub level: Level,
    /// The bound of its level at the hop before, in ticks: 0 at its first hop.
    pub before: u32,
    /// The bound of its level here, in ticks.
    pub here: u32,
}

/// A request over a link.
#[derive(Clone, Copy, Debug)]
pub struct Crossing {
    /// Its contract.
    pub contract: Contract,
    /// What it has there: None where it isn't accepted.
    pub held: Option<Held>,
}

/// The rows of those that are accepted, with the levels that they have.
pub fn held_rows(alloc: Global, crossings: &[Crossing]) -> Result<Vec<LinkRow>, AllocError>
    ensures value { IfOk result (λ rows. rows.items ≡ held_in crossings.now) }
    ensures few { IfOk result (λ rows. length rows.items ≤ length crossings.now) }
{
    see_few(crossings);
    Ok(
        crossings
            .iter()
            .filter_map(|crossing| row_of(crossing))
            .collect(alloc)?,
    )
}

// No more are accepted than are asked for.
fn see_few(crossings: &[Crossing])
    ensures { length (held_in crossings.now) ≤ length crossings.now }
{}

// The row of an accepted request.
fn row_of(crossing: &Crossing) -> Option<LinkRow>
    ensures { result ≡ row_of crossing.now }
{
    match &crossing.held {
        Some(held) => Some(LinkRow {
            contract: crossing.contract,
            level: held.level,
        }),
        None => None,
    }
}

/// Rows of all of them, at level 1.
pub fn asked_rows(alloc: Global, crossings: &[Crossing]) -> Result<Vec<LinkRow>, AllocError>
    ensures value { IfOk result (λ rows. AreAsked crossings.now rows.items) }
    ensures number { IfOk result (λ rows. length rows.items ≡ length crossings.now) }
{
    let mut rows = Vec::new(alloc);
    for crossing in crossings {
        rows.push(LinkRow {
            contract: crossing.contract,
            level: Level::LEAST,
        })?;
    }
    Ok(rows)
}

/// The units of buffer that those keep which are accepted: as many packets as each contract allows in a window as long as the bounds of its levels
/// at the hop before and here together.
pub fn kept_units(crossings: &[Crossing]) -> u64
    requires few { length crossings.now ≤ 1024 }
    ensures { result ≡ total kept_by crossings.now }
{
    let mut sum = 0;
    for crossing in crossings {
        sum += kept_by(crossing);
    }
    sum
}

// The units that one keeps.
fn kept_by(crossing: &Crossing) -> u64
    ensures value { result ≡ kept_by crossing.now }
    ensures small { result ≤ 2 ^ 52 }
{
    match &crossing.held {
        Some(held) => units_for(&crossing.contract, held),
        None => 0,
    }
}

// The units that an accepted one keeps.
fn units_for(contract: &Contract, held: &Held) -> u64
    ensures value { result ≡ units_for contract.now (held.now.before + held.now.here) }
    ensures small { result ≤ 2 ^ 52 }
{
    let stay = u64::from(held.before) + u64::from(held.here);
    contract.bound(stay) * u64::from(contract.smax())
}
