//! What safe rounding keeps, each law as the contract of a function that does nothing.
//!
//! Ticks, times and moments are whole numbers of parts of a picosecond in these laws: `parts` is how many parts a picosecond
//! has, and holds for any number, so the laws speak of all moments that are fractions.
ghost use Rattle.std.specs.Prelude.{◌≡◌, ◌≤◌, ◌<◌, ◌+◌, ◌*◌, ◌/◌, ℕ, List};
ghost use Rattle.net_units.specs.Quotient.{ceil_quotient};
ghost use Rattle.traffic_contract.specs.Contract.{IsContract};
ghost use Rattle.traffic_contract.specs.Keeping.{Keeps};
ghost use Rattle.field_units.specs.declared.stream.Stream.{Stream};
ghost use Rattle.field_units.specs.Moments.{IsPlanned, IsReleased, tick_of, ticks_of};
ghost use Rattle.field_units.specs.Rounding.{second, units_a_tick, traffic_of, delay_in, jitter_in};

/// Whatever moments a stream is released at, the ticks to which they are rounded up keep the contract that `traffic_of` gives,
/// where that is a contract.
pub fn a_stream_keeps_its_contract()
    ensures { (tick unit parts : ℕ) (stream : Stream) (planned released : List ℕ) → 1 ≤ tick → 1 ≤ parts
        → IsContract (traffic_of tick unit stream) → IsPlanned stream parts planned → IsReleased stream parts planned released
        → Keeps (traffic_of tick unit stream) (ticks_of (tick * parts) released) }
{}

/// A packet of so many bits is on the link for no longer than the ticks that it takes there, with its size rounded up and the
/// link's rate rounded down: its bits over the rate are at most the ticks' time.
pub fn a_packet_takes_no_longer_than_its_ticks()
    ensures { (tick unit rate bits : ℕ) → 1 ≤ unit → 1 ≤ units_a_tick tick unit rate
        → bits * second ≤ ceil_quotient (ceil_quotient bits unit) (units_a_tick tick unit rate) * tick * rate }
{}

/// What is promised in ticks is kept in the field: a packet that is released at any moment, and reaches its destination within
/// `delay_in` ticks of the tick to which that moment is rounded up, is there within the time that is wanted.
pub fn a_promise_in_ticks_is_kept()
    ensures { (tick parts wanted moment arrival : ℕ) → 1 ≤ tick → 1 ≤ parts → tick ≤ wanted
        → arrival ≤ tick_of (tick * parts) moment + delay_in tick wanted
        → arrival * (tick * parts) ≤ moment + wanted * parts }
{}

/// Two delays that differ by less than a jitter in ticks, rounded down, differ by less than the jitter that is wanted: of a packet
/// that is released at `moment` and arrives with tick `arrival`, and another one.
pub fn a_jitter_in_ticks_is_kept()
    ensures { (tick parts wanted moment arrival other_moment other_arrival : ℕ) → 1 ≤ tick → 1 ≤ parts
        → arrival + tick_of (tick * parts) other_moment < other_arrival + tick_of (tick * parts) moment + jitter_in tick wanted
        → arrival * (tick * parts) + other_moment < other_arrival * (tick * parts) + moment + wanted * parts }
{}
