//! What a request comes to.
ghost use Rattle.std.specs.Prelude.{◌≡◌};
ghost use Rattle.setup_protocol.specs.Laws.{is_accepted};
ghost use Rattle.setup_protocol.specs.State.{outcome_of};

use link_steps::Refusal;
use net_units::Levels;
use relaxation::EndDenial;

/// Why a request is denied.
#[derive(Clone, Copy, Debug, PartialEq, Eq)]
pub enum Deny {
    /// A hop refused its reserve.
    Hop {
        /// Its place in the route, from 1.
        hop: u8,
        /// No level, no buffer, or too large packets.
        refusal: Refusal,
    },
    /// The destination denied what the hops offered.
    End(EndDenial),
}

/// What a request comes to.
#[derive(Clone, Copy, Debug)]
pub enum Verdict {
    /// The channel is established.
    Accepted {
        /// The level that each hop is allotted, in route order.
        levels: Levels,
        /// The bound on the end-to-end delay: the sum of the allotted bounds and the propagations, in ticks.
        delay: u64,
    },
    /// The request is denied, and each hop that had offered was asked to give its row back.
    Denied(Deny),
}

impl Verdict {
    /// Whether the channel is established.
    pub fn is_accepted(&self) -> bool
        ensures { result ≡ is_accepted (outcome_of self.now) }
    {
        matches!(self, Verdict::Accepted { .. })
    }
}
