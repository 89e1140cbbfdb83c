//! Why a core makes no step.
use net_units::OutOfMemory;

/// Why a core makes no step, by the first reason that holds.
#[derive(Clone, Copy, Debug, PartialEq, Eq)]
pub enum CoreRefusal {
    /// The run has this many actors, and none of that number.
    NoSuchActor { actors: u32 },
    /// The actor has made this many steps, and has none left.
    NoStepLeft { made: u64 },
    /// Out of memory.
    Memory,
}

impl From<OutOfMemory> for CoreRefusal {
    ghost use Rattle.std.specs.Prelude.{◌≡◌};
    ghost use Rattle.interleave_core.specs.declared.refusal.CoreRefusal.TheVariants.{Memory};

    ghost from_gives = { λ _ refusal. refusal ≡ Memory };

    fn from(_wanted: OutOfMemory) -> CoreRefusal {
        CoreRefusal::Memory
    }
}
