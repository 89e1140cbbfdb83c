//! Why a question about a scheduled run has no answer.
use call_script::BadPlan;
use net_units::OutOfMemory;
use run_engine::PlayFault;

/// Why a question about a scheduled run has no answer.
#[derive(Clone, Copy, Debug, PartialEq, Eq)]
pub enum PointFault {
    /// Out of memory.
    Memory,
    /// The plan of the question breaks this rule, such as 8 for a number out of its range.
    Rule { rule: u8 },
    /// The item on this line asks for a step that isn't left: its actor has made `made` by then, and has no other.
    Step { line: u64, made: u64 },
    /// The request isn't decided by the steps that its caller makes from there. So it is where its setup doesn't begin there.
    Undecided,
}

impl From<OutOfMemory> for PointFault {
    fn from(_wanted: OutOfMemory) -> PointFault {
        PointFault::Memory
    }
}

impl From<BadPlan> for PointFault {
    fn from(bad: BadPlan) -> PointFault {
        match bad {
            BadPlan::Memory => PointFault::Memory,
            BadPlan::Broken { rule } => PointFault::Rule { rule },
        }
    }
}

impl From<PlayFault> for PointFault {
    fn from(fault: PlayFault) -> PointFault {
        match fault {
            PlayFault::Memory => PointFault::Memory,
            PlayFault::Step { line, made } => PointFault::Step { line, made },
        }
    }
}
