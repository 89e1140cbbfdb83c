//! Why there is no page.
use call_script::BadPlan;
use net_units::OutOfMemory;
use std::alloc::{AllocError, AllocFailed};

/// Why there is no page.
#[derive(Clone, Copy, Debug, PartialEq, Eq)]
pub enum Trouble {
    /// Out of memory.
    Memory,
    /// The plan of a trial breaks a rule, by its number.
    Rule(u8),
}

impl From<AllocError> for Trouble {
    fn from(_refused: AllocError) -> Trouble {
        Trouble::Memory
    }
}

impl<T: Drop> From<AllocFailed<T>> for Trouble {
    fn from(_refused: AllocFailed<T>) -> Trouble {
        Trouble::Memory
    }
}

impl From<OutOfMemory> for Trouble {
    fn from(_wanted: OutOfMemory) -> Trouble {
        Trouble::Memory
    }
}

impl From<BadPlan> for Trouble {
    fn from(bad: BadPlan) -> Trouble {
        match bad {
            BadPlan::Memory => Trouble::Memory,
            BadPlan::Broken { rule } => Trouble::Rule(rule),
        }
    }
}
