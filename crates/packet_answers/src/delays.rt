//! The delays of a channel's packets, by the rows of a run.
ghost use Rattle.std.specs.Prelude.{◌≡◌, ◌+◌, ◌∷◌, ◌<◌, ◌≤◌, ◌^◌, [], List, IfNone, IfSome, Some, length, reverse};
ghost use Rattle.setup_protocol.specs.declared.request.Request.{Request as Asked};
ghost use Rattle.run_record.specs.declared.rows.HopRow.{HopRow as Row};
ghost use Rattle.report_laws.specs.RowDelays.{delay_by, delay_from, first_in, is_same_packet, nearer, row_delays_of};
ghost use Rattle.packet_answers.specs.ChannelDelays.{IsEndOf, delays_as};

use crate::rows::end_of;
use net_units::{ChanNo, LinkNo};
use run_record::HopRow;
use setup_protocol::Request;

// The end of a channel's route.
#[derive(Clone, Copy)]
pub(crate) struct End {
    pub(crate) chan: ChanNo,
    // How many hops there are.
    pub(crate) hops: u8,
    // The propagation of the last one.
    pub(crate) prop: u32,
}

// How many packets have arrived, and the greatest delay.
#[derive(Clone, Copy)]
pub(crate) struct Delays {
    pub(crate) arrived: u64,
    pub(crate) worst: Option<u128>,
}

impl Delays {
    ghost use Rattle.packet_answers.specs.ChannelDelays.{with_delay};

    // Before the first packet.
    const NONE: Delays = Delays {
        arrived: 0,
        worst: None,
    };

    // Adds a packet with its delay.
    fn add(&mut self, delay: u128)
        requires { self.old.arrived < 2 ^ 63 }
        ensures { self.new ≡ with_delay delay self.old }
    {
        let worst = match self.worst {
            None => delay,
            Some(worst) => delay.max(worst),
        };
        *self = Delays {
            arrived: self.arrived + 1,
            worst: Some(worst),
        };
    }
}

// Adds the delay that a row tells, if it tells one, after this row of a first hop.
fn deliver(delays: &mut Delays, end: &End, first: &Option<HopRow>, row: &HopRow)
    requires { delays.old.arrived < 2 ^ 63 }
    ensures few { delays.new.arrived ≤ delays.old.arrived + 1 }
    ensures told { (request : Asked) (before : List Row) → IsEndOf request end.now → first.now ≡ first_in (row.now ∷ before) → delays.old ≡ delays_as (row_delays_of request before)
        → delays.new ≡ delays_as (row_delays_of request (row.now ∷ before)) }
{
    match delay_by(end, first, row) {
        Some(delay) => delays.add(delay),
        None => {}
    }
}

// The delays that these rows tell, in their order.
pub(crate) fn delays_in(end: &End, rows: &[HopRow]) -> Delays
    requires { length rows.now < 2 ^ 62 }
    ensures { (request : Asked) → IsEndOf request end.now → result ≡ delays_as (row_delays_of request (reverse rows.now)) }
{
    let mut delays = Delays::NONE;
    let mut first = None;
    for row in rows {
        first = nearer(first, row);
        deliver(&mut delays, end, &first, row);
    }
    delays
}

// The nearest row of a first hop, of this row and the one found before.
fn nearer(first: Option<HopRow>, row: &HopRow) -> Option<HopRow>
    ensures { result ≡ nearer row.now first }
{
    if row.hop == 1 { Some(*row) } else { first }
}

// The delay of the packet of a row, where that is a row of the last hop.
fn delay_by(end: &End, first: &Option<HopRow>, row: &HopRow) -> Option<u128>
    ensures some { IfSome result (λ delay. (request : Asked) → IsEndOf request end.now → delay_by request first.now row.now ≡ delay ∷ []) }
    ensures none { IfNone result ((request : Asked) → IsEndOf request end.now → delay_by request first.now row.now ≡ []) }
{
    if row.chan.get() != end.chan.get() {
        return None;
    }
    if row.hop != end.hops {
        return None;
    }
    delay_from(first, row, end.prop)
}

// The delay of the packet of a row, after this row of a first hop, with the last link's propagation.
fn delay_from(first: &Option<HopRow>, row: &HopRow, prop: u32) -> Option<u128>
    ensures some { IfSome result (λ delay. delay_from prop row.now first.now ≡ delay ∷ []) }
    ensures none { IfNone result (delay_from prop row.now first.now ≡ []) }
{
    match first {
        Some(first) => delay_after(first, row, prop),
        None => None,
    }
}

// The same, where there is such a row.
fn delay_after(first: &HopRow, row: &HopRow, prop: u32) -> Option<u128>
    ensures some { IfSome result (λ delay. delay_from prop row.now (Some first.now) ≡ delay ∷ []) }
    ensures none { IfNone result (delay_from prop row.now (Some first.now) ≡ []) }
{
    if is_same_packet(row, first) {
        let arrived = u128::from(row.departed) + u128::from(prop);
        Some(arrived.saturating_sub(u128::from(first.at)))
    } else {
        None
    }
}

// Whether two rows are of one packet.
fn is_same_packet(row: &HopRow, other: &HopRow) -> bool
    ensures { result ≡ is_same_packet row.now other.now }
{
    row.chan.get() == other.chan.get() && row.number == other.number
}

/// The link at which the first packet of a request with this delay, of those that have arrived, stood longest, from its arrival there to its
/// departure. The rows are those of a run, in their order.
pub fn longest_at(request: &Request, rows: &[HopRow], delay: u128) -> Option<LinkNo> {
    let end = end_of(request.chan, &request.route);
    let number = first_with(&end, rows, delay)?;
    let mut most: u64 = 0;
    let mut link = None;
    for row in rows {
        if row.chan.get() == request.chan.get() && row.number == number {
            let stood = row.departed.saturating_sub(row.at);
            if stood > most {
                most = stood;
                link = Some(row.link);
            }
        }
    }
    link
}

// The number of the first packet with this delay.
fn first_with(end: &End, rows: &[HopRow], delay: u128) -> Option<u64> {
    let mut first = None;
    for row in rows {
        first = nearer(first, row);
        if let Some(own) = delay_by(end, &first, row) {
            if own == delay {
                return Some(row.number);
            }
        }
    }
    None
}
