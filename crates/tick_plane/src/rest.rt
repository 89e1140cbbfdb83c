//! What is left of a round.
ghost use Rattle.std.specs.Prelude.{◌≡◌, ◌-◌, ◌≤◌, ◌++◌, OnOk, map, filter};
ghost use Rattle.tick_plane.specs.Planes.{is_due};
ghost use Rattle.tick_plane.specs.Rounds.{arrival_of, ticks_from};

use crate::flight::Flight;
use link_steps::Ask;
use net_units::{LinkNo, OutOfMemory};

// Adds the arrivals of the flights that are due in the round, in their order.
pub(crate) fn add_arrivals(
    flights: &[Flight],
    round: u64,
    asks: &mut Vec<(LinkNo, Ask)>,
) -> Result<(), OutOfMemory>
    ensures { OnOk result (asks.new.items ≡ asks.old.items ++ map arrival_of (filter (is_due round) flights.now)) }
{
    for flight in flights {
        if flight.round == round {
            let packet = flight.packet;
            asks.push((flight.to, Ask::Arrive { packet }))?;
        }
    }
    Ok(())
}

// Adds the ticks of the links from one number until another.
pub(crate) fn add_ticks(
    from: u32,
    until: u32,
    asks: &mut Vec<(LinkNo, Ask)>,
) -> Result<(), OutOfMemory>
    requires { (from ≤ until) × (until ≤ 32) }
    ensures { OnOk result (asks.new.items ≡ asks.old.items ++ ticks_from from (until - from)) }
{
    for number in from..until {
        asks.push((LinkNo::numbered(number), Ask::Tick))?;
    }
    Ok(())
}
