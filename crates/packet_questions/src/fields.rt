//! The fields of a row: a packet's number, and moments in ticks or in time.
use field_units::Time;
use packet_audit::Row;
use scenario_reader::values::number;

// A moment, in parts of a tick.
#[derive(Clone, Copy)]
pub(crate) struct Moment(pub(crate) u128);

// Into how many parts moments are told: those that a tick has, where its length is known.
#[derive(Clone, Copy)]
pub(crate) struct Clock {
    // How many picoseconds a tick has, or 1 where that isn't known.
    pub(crate) tick: u64,
    // Whether it is.
    pub(crate) known: bool,
}

// Why a field is no moment.
#[derive(Clone, Copy, Debug, PartialEq, Eq)]
pub(crate) enum BadMoment {
    // It is neither a number nor a time.
    Text,
    // It is a time, and the length of a tick isn't known.
    NoTick,
}

impl Clock {
    // The clock of a network with this tick.
    pub(crate) fn new(tick: Option<Time>) -> Clock {
        match tick {
            Some(time) if time.picoseconds > 0 => Clock {
                tick: time.picoseconds,
                known: true,
            },
            _ => Clock {
                tick: 1,
                known: false,
            },
        }
    }

    // The moment that a field tells.
    pub(crate) fn moment(&self, field: &str) -> Result<Moment, BadMoment> {
        if let Some(ticks) = whole_number(field) {
            return Ok(Moment(u128::from(ticks).saturating_mul(u128::from(self.tick))));
        }
        match Time::parse(field) {
            Ok(time) if self.known => Ok(Moment(u128::from(time.picoseconds))),
            Ok(_) => Err(BadMoment::NoTick),
            Err(_) => Err(BadMoment::Text),
        }
    }

    // Whether a moment is that of a tick.
    pub(crate) fn is_whole(&self, moment: Moment) -> bool {
        moment.0 % u128::from(self.tick.max(1)) == 0
    }

    // The row of a packet of a channel that was sent and arrived at these moments.
    pub(crate) fn row(&self, channel: usize, sent: Moment, arrived: Moment) -> Row {
        let tick = u128::from(self.tick.max(1));
        let from = narrow(sent.0.div_ceil(tick));
        if arrived.0 < sent.0 {
            return Row {
                channel,
                sent: from,
                arrived: from.saturating_sub(1),
            };
        }
        Row {
            channel,
            sent: from,
            arrived: from.saturating_add(narrow((arrived.0 - sent.0) / tick)),
        }
    }
}

// The number that a field holds: at most 18 digits, without a sign.
pub(crate) fn whole_number(field: &str) -> Option<u64> {
    number(field.as_bytes(), 0, u64::MAX).ok()
}

// A number of ticks, or the most that fits.
fn narrow(ticks: u128) -> u64 {
    u64::try_from(ticks).unwrap_or(u64::MAX)
}
