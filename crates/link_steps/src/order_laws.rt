//! Laws of what a link's rules come to, in plain numbers, each as the contract of a function that does nothing.
ghost use Rattle.link_steps.specs.BufferHolds.{BufferAlwaysHolds};
ghost use Rattle.link_steps.specs.ServiceOrder.{PacketsStartInOrder};
ghost use Rattle.link_steps.specs.Ticks.{ATickIsMadeInOrder};

/// Whatever packets a link is to serve, each that starts is eligible, and ahead of all others that are eligible by then and
/// haven't started: by level, then by eligible tick, then by arrival number. So within a level packets start by eligible
/// tick, and then by arrival number. (Static-priority service: Zhang & Ferrari 1993; the order within a tick is *ours*.)
pub fn packets_start_in_order()
    ensures { PacketsStartInOrder }
{}

/// After every entry of every admissible history the held rows keep no more units than the buffer has, the packets here of
/// each held row take no more than it keeps, and all channels' packets that are here take no more than the buffer has.
pub fn the_buffer_always_holds()
    ensures { BufferAlwaysHolds }
{}

/// A tick is made in this order: rows expire, source packets arrive, the best-effort packet joins, a packet starts, and one
/// departs.
pub fn a_tick_is_made_in_order()
    ensures { ATickIsMadeInOrder }
{}
