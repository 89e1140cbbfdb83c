//! What a source sends, and the contract that it keeps.
ghost use Rattle.std.specs.Prelude.{◌≡◌, ◌≤◌, ◌-◌};
ghost use Rattle.net_units.specs.Limits.{most_burst, most_gap, most_size};
ghost use Rattle.traffic_contract.specs.Contract.{IsContract, terms_of};
ghost use Rattle.field_units.specs.Rounding.{gap_in, mean_in, most_mean, held_to as held_to_lem};
ghost use Rattle.field_units.specs.Scales.{IsFrom, Scales};
ghost use Rattle.field_units.specs.Streams.{Contracts};

use crate::quantity::{Size, Time};
use crate::scale::{Misfit, Scale, shorter};
use net_units::limits::{MOST_BURST, MOST_GAP, MOST_INTERVAL};
use traffic_contract::Contract;

/// What a source sends: at most `packets` in any `window`, any two at least `apart`, each released up to `jitter` after the moment for
/// which it is planned, and none larger than `size`.
#[derive(Clone, Copy, Debug, PartialEq, Eq)]
pub struct Stream {
    pub packets: u32,
    pub window: Time,
    pub apart: Time,
    pub jitter: Time,
    pub size: Size,
}

/// Why a stream has no contract at a scale.
#[derive(Clone, Copy, Debug, PartialEq, Eq)]
pub enum BadStream {
    /// The packets of a window aren't from 1 to 256.
    Packets,
    /// The packets are too large, or empty.
    Size(Misfit),
    /// What the jitter leaves of the gap between packets is shorter than a tick.
    Gap(Misfit),
}

impl Scale {
    /// The contract of a stream. Whatever moments its packets are released at, the ticks to which they are rounded up keep it
    /// (`a_stream_keeps_its_contract`). An `Err` comes exactly where the packets of a window aren't from 1 to 256, the size isn't from
    /// 1 to 65,536 units, rounded up, or what the jitter leaves of the gap isn't a tick.
    #[tactic(auto, unfolding(crate::specs::Rounding::traffic_of))]
    pub fn contract(&self, stream: &Stream) -> Result<Contract, BadStream>
        ensures { Contracts result self.now.tick self.now.unit stream.now }
    {
        if stream.packets < 1 || stream.packets > MOST_BURST {
            return Err(BadStream::Packets);
        }
        let size = self.size(stream.size).map_err(BadStream::Size)?;
        let gap = self.least_gap(stream).map_err(BadStream::Gap)?;
        Ok(held_to(gap, self.mean_gap(stream), stream.packets, size))
    }

    /// The ticks that the jitter leaves of the gap between packets, rounded down and at most 1,048,576.
    #[tactic(auto, unfolding(crate::specs::Rounding::gap_in))]
    fn least_gap(&self, stream: &Stream) -> Result<u32, Misfit>
        ensures { Scales result (λ tick unit. gap_in tick stream.now) 1 most_gap self.now.tick self.now.unit }
    {
        let time = left_by(stream.jitter, stream.apart);
        match time / self.tick().picoseconds {
            0 => Err(shorter(time)),
            ticks => Ok(ticks.min(u64::from(MOST_GAP)) as u32),
        }
    }

    /// The ticks that the jitter leaves of the window for each of its packets, rounded down and as few as a contract has.
    #[tactic(auto, unfolding(crate::specs::Rounding::mean_in))]
    pub(crate) fn mean_gap(&self, stream: &Stream) -> u32
        requires { 1 ≤ stream.now.packets }
        ensures value { result ≡ mean_in self.now.tick stream.now }
        ensures most { result ≤ most_mean stream.now.packets }
    {
        let time = left_by(stream.jitter, stream.window);
        let share = time / self.tick().picoseconds / u64::from(stream.packets);
        let most = MOST_GAP.min(MOST_INTERVAL / stream.packets);
        share.min(u64::from(most)) as u32
    }
}

/// What a jitter leaves of a time, in picoseconds.
pub(crate) fn left_by(jitter: Time, time: Time) -> u64
    ensures { result ≡ time.picoseconds - jitter.picoseconds }
{
    time.picoseconds.saturating_sub(jitter.picoseconds)
}

/// The contract of a least gap, a mean gap, the packets of a window and a size.
#[tactic(auto, using(crate::proofs::TermsWithinLimits::mean_is_contract, crate::proofs::TermsWithinLimits::gap_is_contract))]
fn held_to(gap: u32, mean: u32, packets: u32, size: u32) -> Contract
    requires gap { IsFrom 1 most_gap gap }
    requires mean { mean ≤ most_mean packets }
    requires packets { IsFrom 1 most_burst packets }
    requires size { IsFrom 1 most_size size }
    ensures { result ≡ held_to_lem gap mean packets size }
{
    if gap <= mean {
        known(gap, mean, packets * mean, size)
    } else {
        known(gap, gap, gap, size)
    }
}

/// The contract of four numbers that are one.
fn known(xmin: u32, xave: u32, interval: u32, smax: u32) -> Contract
    requires { IsContract (terms_of xmin xave interval smax) }
    ensures { result ≡ terms_of xmin xave interval smax }
{
    match Contract::new(xmin, xave, interval, smax) {
        Ok(contract) => contract,
        Err(_) => unreachable!(),
    }
}
