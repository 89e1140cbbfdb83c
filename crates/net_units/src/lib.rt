//! The numbers, names and bounds of a network of real-time channels, with their limits; and lists of anything.
//!
//! Each type is checked where it is made, so what holds one needs no test of its own. Time counts in whole
//! ticks, sizes and buffer in units. Only a list that grows takes memory.
#![tactic(auto)]

ghost use Rattle.std.specs.Prelude.{◌≡◌, ◌≤◌};
ghost use Rattle.net_units.specs.Quotient.{ceil_quotient};

pub mod bounds;
pub mod gate;
pub mod levels;
pub mod limits;
pub mod listed;
pub mod name;
pub mod numbers;

pub use bounds::Bounds;
pub use gate::{Gate, NoGate};
pub use levels::Levels;
pub use listed::Listed;
pub use name::Name;
pub use numbers::{ActorNo, ChanNo, Level, LinkNo};

/// Out of memory. What the call was to change is unchanged, unless the call says otherwise.
#[derive(Clone, Copy, Debug, PartialEq, Eq)]
pub struct OutOfMemory;

impl From<std::alloc::AllocError> for OutOfMemory {
    fn from(_refused: std::alloc::AllocError) -> OutOfMemory {
        OutOfMemory
    }
}

impl<T: Drop> From<std::alloc::AllocFailed<T>> for OutOfMemory {
    fn from(_refused: std::alloc::AllocFailed<T>) -> OutOfMemory {
        OutOfMemory
    }
}

/// How a channel's regulators past the first hop treat early packets (Zhang & Ferrari 1993).
#[derive(Clone, Copy, Debug, PartialEq, Eq)]
pub enum Kind {
    /// Rate-jitter control: a packet is eligible as soon as the contract allows.
    Rate,
    /// Delay-jitter control: a packet also waits until it is due by the delay bound of the hop before.
    Jitter,
}

/// The quotient rounded up, for `b` of at least 1. A packet of `a` units on a link of `b` units a tick takes that many
/// ticks.
pub fn ceil_div(a: u64, b: u64) -> u64
    requires { 1 ≤ b }
    ensures { result ≡ ceil_quotient a b }
{
    a.div_ceil(b)
}
