//! The numbers of links, actors, channels and levels.
ghost use Rattle.std.specs.Prelude.{◌≡◌, ◌<◌, ◌≤◌, ◌↔◌, IsSome, IfSome};
ghost use Rattle.net_units.specs.Limits.{most_channels};

use crate::limits::{MOST_ACTORS, MOST_CHANNELS, MOST_LEVELS, MOST_LINKS};

/// The number of a link, below 32: its place among the links of the network, from 0.
#[derive(Clone, Copy, Debug, PartialEq, Eq, PartialOrd, Ord, Hash)]
pub struct LinkNo {
    number: u8,
    ghost small: { number < 32 },
}

/// The number of an actor, below 65: the callers in the order of the scenario from 0, and then the plane.
#[derive(Clone, Copy, Debug, PartialEq, Eq, PartialOrd, Ord, Hash)]
pub struct ActorNo {
    number: u8,
    ghost small: { number < 65 },
}

/// The number of a channel, below 2^20: the place of its request in the scenario, from 0.
#[derive(Clone, Copy, Debug, PartialEq, Eq, PartialOrd, Ord, Hash)]
pub struct ChanNo {
    number: u32,
    ghost small: { number < most_channels },
}

/// A priority level of a link, from 1 to 8. Level 1 has the smallest delay bound and is served first.
#[derive(Clone, Copy, Debug, PartialEq, Eq, PartialOrd, Ord, Hash)]
pub struct Level {
    number: u8,
    ghost least: { 1 ≤ number },
    ghost most: { number ≤ 8 },
}

impl LinkNo {
    ghost use Rattle.net_units.specs.Numbers.{link_number, link_at};

    /// The link of this number, None exactly where it isn't below 32.
    pub fn new(n: u8) -> Option<LinkNo>
        ensures found { IsSome result ↔ (n < 32) }
        ensures value { IfSome result (λ link. link_number link ≡ n) }
    {
        if n < MOST_LINKS {
            Some(LinkNo { number: n })
        } else {
            None
        }
    }

    /// The link of a number that is known to be one of a link.
    pub fn numbered(number: u32) -> LinkNo
        requires { number < 32 }
        ensures { result ≡ link_at number }
    {
        LinkNo {
            number: number as u8,
        }
    }

    /// The number.
    pub fn get(&self) -> u8
        ensures value { result ≡ link_number self.now }
        ensures small { result < 32 }
    {
        self.number
    }
}

impl ActorNo {
    ghost use Rattle.net_units.specs.Numbers.{actor_number};

    /// The actor of this number, None exactly where it isn't below 65.
    pub fn new(n: u8) -> Option<ActorNo>
        ensures found { IsSome result ↔ (n < 65) }
        ensures value { IfSome result (λ actor. actor_number actor ≡ n) }
    {
        if n < MOST_ACTORS {
            Some(ActorNo { number: n })
        } else {
            None
        }
    }

    /// The number.
    pub fn get(&self) -> u8
        ensures value { result ≡ actor_number self.now }
        ensures small { result < 65 }
    {
        self.number
    }
}

impl ChanNo {
    ghost use Rattle.net_units.specs.Numbers.{channel_number};

    /// The channel of this number, None exactly where it isn't below 2^20.
    pub fn new(n: u32) -> Option<ChanNo>
        ensures found { IsSome result ↔ (n < most_channels) }
        ensures value { IfSome result (λ channel. channel_number channel ≡ n) }
    {
        if n < MOST_CHANNELS {
            Some(ChanNo { number: n })
        } else {
            None
        }
    }

    /// The number.
    pub fn get(&self) -> u32
        ensures value { result ≡ channel_number self.now }
        ensures small { result < most_channels }
    {
        self.number
    }
}

impl Level {
    ghost use Rattle.net_units.specs.Numbers.{level_number};

    /// Level 1, with the smallest delay bound.
    pub const LEAST: Level = Level { number: 1 };

    /// The level of this number, None exactly where it isn't from 1 to 8.
    pub fn new(n: u8) -> Option<Level>
        ensures found { IsSome result ↔ ((1 ≤ n) × (n ≤ 8)) }
        ensures value { IfSome result (λ level. level_number level ≡ n) }
    {
        if 1 <= n && n <= MOST_LEVELS {
            Some(Level::known(n))
        } else {
            None
        }
    }

    pub(crate) fn known(n: u8) -> Level
        requires least { 1 ≤ n }
        requires most { n ≤ 8 }
        ensures { level_number result ≡ n }
    {
        Level { number: n }
    }

    /// The number.
    pub fn get(&self) -> u8
        ensures value { result ≡ level_number self.now }
        ensures least { 1 ≤ result }
        ensures most { result ≤ 8 }
    {
        self.number
    }
}
