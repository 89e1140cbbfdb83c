//! Tables over one link, worked by hand. The link sends a unit in a tick, has levels of 10, 20 and 40 ticks and a propagation of 2;
//! the channel may send packets of up to 2 units, 5 ticks apart and two in any 20, and was accepted at level 1.
ghost use Rattle.std.specs.Prelude.{◌≡◌, ◌<◌, ◌^◌, [], ◌∷◌, IfOk};
ghost use Rattle.net_units.specs.Allotted.{levels_of};
ghost use Rattle.run_record.specs.SmallRows.{IsSmall};

use net_units::{ChanNo, Level, Levels};
use one_link_plans::{link_no, opened};
use run_record::HopRow;
use std::alloc::Global;
use std::test::Fail;
use trace_audit::{Check, Finding, audit};

mod recorded;

// Level 1 at the one hop.
fn level_one() -> Result<Levels, Fail>
    ensures { IfOk result (λ given. levels_of given ≡ 1 ∷ []) }
{
    let mut given = Levels::new();
    given.push(Level::new(1).ok_or("level")?);
    Ok(given)
}

// A row of the channel at its hop: the packet's number and size, and when it arrived, was eligible and departed.
fn row(number: u64, size: u32, at: u64, eligible: u64, departed: u64) -> Result<HopRow, Fail>
    requires number { number < 2 ^ 40 }
    requires at { at < 2 ^ 40 }
    requires eligible { eligible < 2 ^ 40 }
    requires departed { departed < 2 ^ 40 }
    ensures { IfOk result IsSmall }
{
    Ok(HopRow {
        chan: ChanNo::new(0).ok_or("channel")?,
        number,
        hop: 1,
        link: link_no()?,
        size,
        at,
        eligible,
        departed,
    })
}

// What is found in a table of packet 1, which takes the link from 0 to 2, and of these two rows.
fn found(alloc: Global, second: HopRow, third: HopRow) -> Result<Finding, Fail>
    requires second { IsSmall second }
    requires third { IsSmall third }
{
    let plan = opened(alloc, 30)?;
    let levels = [Some(level_one()?)];
    let first = row(1, 2, 0, 0, 2)?;
    Ok(audit(alloc, &plan, &levels, &[first, second, third])?)
}

#[test]
fn three_packets_in_turn_are_sound(rt: HostRuntime) -> Result<(), Fail> {
    let alloc = rt.alloc();
    let finding = found(alloc, row(2, 2, 10, 10, 12)?, row(3, 2, 20, 20, 22)?)?;
    assert_eq!(rt; finding, Finding::Sound { rows: 3 });
    let text = format!(in alloc; "{finding}")?;
    assert_eq!(rt; text.as_str(), "audit ok 3");
    Ok(())
}

#[test]
fn a_packet_that_leaves_late_is_found(rt: HostRuntime) -> Result<(), Fail> {
    let alloc = rt.alloc();
    let finding = found(alloc, row(2, 2, 10, 10, 12)?, row(3, 2, 20, 20, 31)?)?;
    let word = Check::Bound;
    assert_eq!(rt; finding, Finding::Fault { row: 3, word });
    let text = format!(in alloc; "{finding}")?;
    assert_eq!(rt; text.as_str(), "audit row 3 bound");
    Ok(())
}

#[test]
fn a_tick_that_is_told_too_early_is_found(rt: HostRuntime) -> Result<(), Fail> {
    let alloc = rt.alloc();
    let finding = found(alloc, row(2, 2, 10, 9, 12)?, row(3, 2, 20, 20, 22)?)?;
    let word = Check::Eligible;
    assert_eq!(rt; finding, Finding::Fault { row: 2, word });
    Ok(())
}

#[test]
fn a_packet_that_is_missing_is_found(rt: HostRuntime) -> Result<(), Fail> {
    let alloc = rt.alloc();
    let finding = found(alloc, row(3, 2, 20, 20, 22)?, row(4, 2, 30, 30, 32)?)?;
    let word = Check::Order;
    assert_eq!(rt; finding, Finding::Fault { row: 2, word });
    Ok(())
}

#[test]
fn a_packet_over_the_contract_is_found(rt: HostRuntime) -> Result<(), Fail> {
    let alloc = rt.alloc();
    let finding = found(alloc, row(2, 2, 10, 10, 12)?, row(3, 3, 20, 20, 23)?)?;
    let word = Check::Size;
    assert_eq!(rt; finding, Finding::Fault { row: 3, word });
    Ok(())
}

#[test]
fn a_packet_that_overtakes_is_found(rt: HostRuntime) -> Result<(), Fail> {
    let alloc = rt.alloc();
    let finding = found(alloc, row(2, 2, 10, 10, 12)?, row(3, 2, 9, 20, 22)?)?;
    let word = Check::Arrive;
    assert_eq!(rt; finding, Finding::Fault { row: 3, word });
    Ok(())
}
