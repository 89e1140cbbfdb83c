//! Why there is no answer.
use call_script::BadPlan;
use net_units::OutOfMemory;
use run_engine::PlayFault;
use setup_points::PointFault;
use std::alloc::{AllocError, AllocFailed};

/// Why there is no answer.
#[derive(Clone, Copy, Debug, PartialEq, Eq)]
pub enum Trouble {
    /// Out of memory.
    Memory,
    /// The plan of the question breaks a rule, by its number.
    Rule(u8),
    /// The schedule's item on this line asks for a step that its actor doesn't have left.
    Step { line: u64 },
    /// The request isn't decided where its setup begins in the schedule. That never comes.
    Undecided,
}

impl From<AllocError> for Trouble {
    fn from(_refused: AllocError) -> Trouble {
        Trouble::Memory
    }
}

impl<T: Drop> From<AllocFailed<T>> for Trouble {
    fn from(_refused: AllocFailed<T>) -> Trouble {
        Trouble::Memory
    }
}

impl From<OutOfMemory> for Trouble {
    fn from(_wanted: OutOfMemory) -> Trouble {
        Trouble::Memory
    }
}

impl From<BadPlan> for Trouble {
    fn from(bad: BadPlan) -> Trouble {
        match bad {
            BadPlan::Memory => Trouble::Memory,
            BadPlan::Broken { rule } => Trouble::Rule(rule),
        }
    }
}

impl From<PlayFault> for Trouble {
    fn from(fault: PlayFault) -> Trouble {
        match fault {
            PlayFault::Memory => Trouble::Memory,
            PlayFault::Step { line, .. } => Trouble::Step { line },
        }
    }
}

impl From<PointFault> for Trouble {
    fn from(fault: PointFault) -> Trouble {
        match fault {
            PointFault::Memory => Trouble::Memory,
            PointFault::Rule { rule } => Trouble::Rule(rule),
            PointFault::Step { line, .. } => Trouble::Step { line },
            PointFault::Undecided => Trouble::Undecided,
        }
    }
}
