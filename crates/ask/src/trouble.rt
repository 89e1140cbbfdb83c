//! Why there is no answer.
use byte_ends::WriteFault;
use net_units::OutOfMemory;
use network_questions::Trouble as Unanswered;
use page_builder::Trouble as NoPage;
use std::alloc::{AllocError, AllocFailed};
use variant_answers::Trouble as Unjudged;

/// Why there is no answer.
#[derive(Clone, Copy, Debug, PartialEq, Eq)]
pub enum Trouble {
    /// Out of memory.
    Memory,
    /// What is written to failed.
    Write,
    /// The plan of the question breaks a rule, by its number.
    Rule(u8),
    /// The schedule's item on this line asks for a step that its actor doesn't have left.
    Step { line: u64 },
    /// The request isn't decided where its setup begins in the schedule. That never comes.
    Undecided,
}

impl From<AllocError> for Trouble {
    fn from(_refused: AllocError) -> Trouble {
        Trouble::Memory
    }
}

impl<T: Drop> From<AllocFailed<T>> for Trouble {
    fn from(_refused: AllocFailed<T>) -> Trouble {
        Trouble::Memory
    }
}

impl From<OutOfMemory> for Trouble {
    fn from(_wanted: OutOfMemory) -> Trouble {
        Trouble::Memory
    }
}

impl From<NoPage> for Trouble {
    fn from(trouble: NoPage) -> Trouble {
        match trouble {
            NoPage::Memory => Trouble::Memory,
            NoPage::Rule(rule) => Trouble::Rule(rule),
        }
    }
}

impl From<WriteFault> for Trouble {
    fn from(_fault: WriteFault) -> Trouble {
        Trouble::Write
    }
}

impl From<Unanswered> for Trouble {
    fn from(trouble: Unanswered) -> Trouble {
        match trouble {
            Unanswered::Memory => Trouble::Memory,
            Unanswered::Rule(rule) => Trouble::Rule(rule),
            Unanswered::Step { line } => Trouble::Step { line },
            Unanswered::Undecided => Trouble::Undecided,
        }
    }
}

impl From<Unjudged> for Trouble {
    fn from(trouble: Unjudged) -> Trouble {
        match trouble {
            Unjudged::Memory => Trouble::Memory,
            Unjudged::Rule(rule) => Trouble::Rule(rule),
        }
    }
}
