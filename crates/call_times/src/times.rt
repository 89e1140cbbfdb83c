//! The ticks of operations, and why none of them make a schedule.
use net_units::OutOfMemory;
use std::alloc::{AllocError, AllocFailed};

/// When a caller makes its operations.
#[derive(Debug, Drop)]
pub struct Times {
    /// The tick of each of its operations, in their order. They don't fall.
    pub ticks: Vec<u64>,
}

/// Why there is no schedule. An operation is named by its caller's number and its place among the caller's operations, both from 0.
#[derive(Clone, Copy, Debug, PartialEq, Eq)]
pub enum TimesFault {
    /// Out of memory.
    Memory,
    /// This operation has no tick.
    Missing {
        caller: usize,
        place: usize,
    },
    /// Its tick is before that of an operation above it.
    Falls {
        caller: usize,
        place: usize,
    },
    /// Its tick comes after the last round of the plan, which has `rounds` of them with its tail.
    Late {
        caller: usize,
        place: usize,
        rounds: u64,
    },
    /// An actor has steps left after all operations and rounds. That never comes.
    Left {
        actor: usize,
    },
}

impl From<AllocError> for TimesFault {
    fn from(_refused: AllocError) -> TimesFault {
        TimesFault::Memory
    }
}

impl<T: Drop> From<AllocFailed<T>> for TimesFault {
    fn from(_refused: AllocFailed<T>) -> TimesFault {
        TimesFault::Memory
    }
}

impl From<OutOfMemory> for TimesFault {
    fn from(_refused: OutOfMemory) -> TimesFault {
        TimesFault::Memory
    }
}
