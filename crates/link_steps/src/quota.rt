//! The quota of a group of channels on a link.

/// What the channels of one group may hold together on a link.
#[derive(Clone, Copy, Debug, PartialEq, Eq)]
pub struct Quota {
    /// The group, from 1 to 4.
    pub group: u8,
    /// Units of the link's buffer, up to 262,144.
    pub buffer: u32,
    /// Ticks of load of the levels up to each one, from level 1 on; 0 in the places after the link's last level.
    pub levels: [u32; 8],
}
