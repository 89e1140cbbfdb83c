//! What a caller asks for.
ghost use Rattle.std.specs.Prelude.{◌≡◌};
ghost use Rattle.setup_protocol.specs.Requests.{kind_of, jitter_of};

use hop_reservation::Route;
use net_units::{ChanNo, Kind};
use traffic_contract::Contract;

/// How a channel's jitter is controlled (Zhang & Ferrari 1993).
#[derive(Clone, Copy, Debug, PartialEq, Eq)]
pub enum Control {
    /// Rate-jitter control: nothing is promised of the jitter.
    Rate,
    /// Delay-jitter control, with the bound on the jitter in ticks.
    Jitter(u64),
}

/// A request for a channel.
#[derive(Clone, Copy)]
pub struct Request {
    /// The number of the channel.
    pub chan: ChanNo,
    /// The way of its packets.
    pub route: Route,
    /// What its source may send.
    pub contract: Contract,
    /// How its jitter is controlled.
    pub control: Control,
    /// The bound on its end-to-end delay, in ticks.
    pub delay: u64,
}

impl Control {
    /// The control that each hop has.
    pub fn kind(&self) -> Kind
        ensures { result ≡ kind_of self.now }
    {
        match self {
            Control::Rate => Kind::Rate,
            Control::Jitter(_) => Kind::Jitter,
        }
    }

    /// The bound on the jitter in ticks, where there is one.
    pub fn jitter(&self) -> Option<u64>
        ensures { result ≡ jitter_of self.now }
    {
        match self {
            Control::Rate => None,
            Control::Jitter(bound) => Some(*bound),
        }
    }
}
