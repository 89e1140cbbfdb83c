//! What a link is asked in a window, with its ticks counted.
use link_steps::Packet;

/// What a link is asked next in a window.
#[derive(Clone, Copy, Debug)]
pub enum Asked {
    /// This packet arrives.
    Arrives(Packet),
    /// It makes so many ticks.
    Ticks(u64),
}
