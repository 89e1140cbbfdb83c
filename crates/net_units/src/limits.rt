//! The limits of a network, a plan and a scenario, as the code uses them. `specs/Limits.antt` has the same for definitions.

/// Links of a network.
pub const MOST_LINKS: u8 = 32;

/// Actors of a run: 64 callers, and the plane.
pub const MOST_ACTORS: u8 = 65;

/// Callers of a plan.
pub const MOST_CALLERS: usize = 64;

/// Requests of a plan.
pub const MOST_REQUESTS: usize = 1_024;

/// Numbers of channels.
pub const MOST_CHANNELS: u32 = 1_048_576;

/// Levels of a link.
pub const MOST_LEVELS: u8 = 8;

/// Ticks of a level's bound.
pub const MOST_BOUND: u32 = 1_048_576;

/// Ticks of a link's propagation.
pub const MOST_PROPAGATION: u32 = 1_048_576;

/// Units that a link sends in a tick.
pub const MOST_RATE: u32 = 65_536;

/// Units of a packet: of the largest that a link carries, of the largest of a contract, and of each.
pub const MOST_SIZE: u32 = 65_536;

/// Units of a link's buffer.
pub const MOST_BUFFER: u32 = 262_144;

/// Best-effort packets that may wait at a link.
pub const MOST_BEST: u32 = 1_024;

/// Ticks from one packet to the next: of a contract's gaps, and of a send or a pour.
pub const MOST_GAP: u32 = 1_048_576;

/// Ticks of a contract's interval.
pub const MOST_INTERVAL: u32 = 16_777_216;

/// Packets of a contract's burst.
pub const MOST_BURST: u32 = 256;

/// Hops of a route.
pub const MOST_HOPS: u8 = 16;

/// Ticks of a request's delay bound and of its jitter bound.
pub const MOST_DELAY: u64 = 67_108_864;

/// Packets of a send or a pour; also the packets of all of them together, each counted once for each hop that it crosses.
pub const MOST_PACKETS: u64 = 262_144;

/// Rounds of the plane beside the callers, and those after them; also the ticks that all links make together.
pub const MOST_ROUNDS: u64 = 524_288;

/// Steps that an item of a schedule asks for.
pub const MOST_STEPS: u64 = 1_048_576;

/// Bytes of a name.
pub const MOST_NAME: usize = 16;
