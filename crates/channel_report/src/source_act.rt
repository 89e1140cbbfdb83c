//! What an entry of a run does for the source of a channel.
ghost use Rattle.std.specs.Prelude.{◌≡◌};
ghost use Rattle.channel_report.specs.Sources.{act_of, chan_of};

use link_steps::{Ask, Reply};
use net_units::ChanNo;

// What an entry does for the source of a channel.
#[derive(Clone, Copy)]
pub(crate) enum Act {
    // This many packets are planned, the first at a tick and then one every gap.
    Plans {
        chan: ChanNo,
        tick: u64,
        gap: u64,
        count: u64,
    },
    // A send is refused.
    Refuses {
        chan: ChanNo,
    },
    // The packets whose tick isn't made yet are cancelled.
    Cancels {
        chan: ChanNo,
    },
    // Nothing.
    Nothing,
}

// What an ask and its reply do.
pub(crate) fn act_of(ask: &Ask, reply: &Reply) -> Act
    ensures { result ≡ act_of ask.now reply.now }
{
    match (ask, reply) {
        (
            Ask::Submit {
                chan,
                count,
                gap,
                ..
            },
            Reply::Planned { clock },
        ) => Act::Plans {
            chan: *chan,
            tick: *clock,
            gap: *gap,
            count: *count,
        },
        (Ask::Submit { chan, .. }, Reply::Refused(_)) => Act::Refuses { chan: *chan },
        (Ask::Release { chan, .. }, Reply::Closing { .. }) => Act::Cancels { chan: *chan },
        _ => Act::Nothing,
    }
}

impl Act {
    // The channel whose source it is for.
    pub(crate) fn chan(&self) -> Option<ChanNo>
        ensures { result ≡ chan_of self.now }
    {
        match self {
            Act::Plans { chan, .. } => Some(*chan),
            Act::Refuses { chan } => Some(*chan),
            Act::Cancels { chan } => Some(*chan),
            Act::Nothing => None,
        }
    }
}
