//! Why there is no answer.
use net_units::OutOfMemory;
use run_engine::PlayFault;
use std::alloc::{AllocError, AllocFailed};

/// Why there is no answer.
#[derive(Clone, Copy, Debug, PartialEq, Eq)]
pub enum Trouble {
    /// Out of memory.
    Memory,
    /// The schedule's item on this line asks for a step that isn't left. Lines count from 1.
    Step { line: u64 },
}

impl From<AllocError> for Trouble {
    fn from(_refused: AllocError) -> Trouble {
        Trouble::Memory
    }
}

impl<T: Drop> From<AllocFailed<T>> for Trouble {
    fn from(_refused: AllocFailed<T>) -> Trouble {
        Trouble::Memory
    }
}

impl From<OutOfMemory> for Trouble {
    fn from(_wanted: OutOfMemory) -> Trouble {
        Trouble::Memory
    }
}

impl From<PlayFault> for Trouble {
    fn from(fault: PlayFault) -> Trouble {
        match fault {
            PlayFault::Memory => Trouble::Memory,
            PlayFault::Step { line, .. } => Trouble::Step { line },
        }
    }
}
