//! The delays of the packets of a channel.
ghost use Rattle.std.specs.Prelude.{◌≡◌, ◌<◌, ◌^◌};

// How many packets of a channel were delivered, and how late.
#[derive(Clone, Copy)]
pub(crate) struct DelayTally {
    // How many packets.
    pub(crate) delivered: u64,
    // The least delay, in ticks.
    pub(crate) least: Option<u128>,
    // The greatest delay, in ticks.
    pub(crate) worst: Option<u128>,
}

impl DelayTally {
    ghost use Rattle.channel_report.specs.DelayTallies.{with_delay};

    // Before the first packet.
    pub(crate) const NOTHING: DelayTally = DelayTally {
        delivered: 0,
        least: None,
        worst: None,
    };

    // Adds a packet with its delay.
    pub(crate) fn deliver(&mut self, delay: u128)
        requires { self.old.delivered < 2 ^ 63 }
        ensures { self.new ≡ with_delay delay self.old }
    {
        let least = match self.least {
            None => delay,
            Some(least) => delay.min(least),
        };
        let worst = match self.worst {
            None => delay,
            Some(worst) => delay.max(worst),
        };
        *self = DelayTally {
            delivered: self.delivered + 1,
            least: Some(least),
            worst: Some(worst),
        };
    }
}
