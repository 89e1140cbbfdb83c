//! Which asks are a part of an operation.
ghost use Rattle.std.specs.Prelude.{◌≡◌};
ghost use Rattle.call_times.specs.Parts.{is_part, pours, releases, sets_up, submits, submits_on};

use call_script::Op;
use link_steps::Ask;
use net_units::{ChanNo, LinkNo};

// Whether this ask of a link is a part of an operation.
#[tactic(auto, unfolding(crate::specs::Parts::is_part))]
pub(crate) fn is_part(op: &Op, link: LinkNo, ask: &Ask) -> bool
    ensures { result ≡ is_part op.now link ask.now }
{
    match op {
        Op::Open(chan) => sets_up(*chan, ask),
        Op::Send {
            chan,
            count,
            gap,
            size,
        } => submits(*chan, *count, *gap, *size, ask),
        Op::Close(chan) => releases(*chan, ask),
        Op::Pour {
            link: own,
            count,
            gap,
            size,
        } => link.get() == own.get() && pours(*count, *gap, *size, ask),
        Op::Move { old, new } => releases(*old, ask) || submits_on(*new, ask),
    }
}

// Whether it is one of the setup of a channel.
#[tactic(auto, unfolding(crate::specs::Parts::sets_up))]
fn sets_up(chan: ChanNo, ask: &Ask) -> bool
    ensures { result ≡ sets_up chan ask.now }
{
    match ask {
        Ask::Reserve { chan: own, .. } => own.get() == chan.get(),
        Ask::Relax { chan: own, .. } => own.get() == chan.get(),
        Ask::Deny { chan: own } => own.get() == chan.get(),
        _ => false,
    }
}

// Whether it plans these packets of a channel.
#[tactic(auto, unfolding(crate::specs::Parts::submits))]
fn submits(chan: ChanNo, count: u64, gap: u64, size: u32, ask: &Ask) -> bool
    ensures { result ≡ submits chan count gap size ask.now }
{
    match ask {
        Ask::Submit {
            chan: own,
            count: packets,
            gap: apart,
            size: units,
        } => own.get() == chan.get() && *packets == count && *apart == gap && *units == size,
        _ => false,
    }
}

// Whether it plans any packets of a channel.
#[tactic(auto, unfolding(crate::specs::Parts::submits_on))]
fn submits_on(chan: ChanNo, ask: &Ask) -> bool
    ensures { result ≡ submits_on chan ask.now }
{
    match ask {
        Ask::Submit { chan: own, .. } => own.get() == chan.get(),
        _ => false,
    }
}

// Whether it releases a channel.
#[tactic(auto, unfolding(crate::specs::Parts::releases))]
fn releases(chan: ChanNo, ask: &Ask) -> bool
    ensures { result ≡ releases chan ask.now }
{
    match ask {
        Ask::Release { chan: own, .. } => own.get() == chan.get(),
        _ => false,
    }
}

// Whether it plans these best-effort packets.
#[tactic(auto, unfolding(crate::specs::Parts::pours))]
fn pours(count: u64, gap: u64, size: u32, ask: &Ask) -> bool
    ensures { result ≡ pours count gap size ask.now }
{
    match ask {
        Ask::Pour {
            count: packets,
            gap: apart,
            size: units,
        } => *packets == count && *apart == gap && *units == size,
        _ => false,
    }
}
