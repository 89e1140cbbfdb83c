//! Why a text wasn't written whole.
use net_units::OutOfMemory;
use std::alloc::AllocError;
use thiserror::Error;

/// Why a text wasn't written whole. A prefix of it may have been.
#[derive(Clone, Copy, Debug, PartialEq, Eq, Error)]
pub enum ReportFault {
    /// Out of memory.
    #[error("out of memory")]
    Memory,
    /// The sink failed, as its count of faults shows.
    #[error("a write failed")]
    WriteFault,
}

impl From<OutOfMemory> for ReportFault {
    ghost use Rattle.std.specs.Prelude.{◌≡◌};
    ghost use Rattle.text_writer.specs.declared.fault.ReportFault.TheVariants.{Memory};

    ghost from_gives = { λ _ fault. fault ≡ Memory };

    fn from(_wanted: OutOfMemory) -> ReportFault {
        ReportFault::Memory
    }
}

impl From<AllocError> for ReportFault {
    ghost use Rattle.std.specs.Prelude.{◌≡◌};
    ghost use Rattle.text_writer.specs.declared.fault.ReportFault.TheVariants.{Memory};

    ghost from_gives = { λ _ fault. fault ≡ Memory };

    fn from(_refused: AllocError) -> ReportFault {
        ReportFault::Memory
    }
}

impl From<byte_ends::WriteFault> for ReportFault {
    ghost use Rattle.std.specs.Prelude.{◌≡◌};
    ghost use Rattle.text_writer.specs.declared.fault.ReportFault.TheVariants.{WriteFault};

    ghost from_gives = { λ _ fault. fault ≡ WriteFault };

    fn from(_failed: byte_ends::WriteFault) -> ReportFault {
        ReportFault::WriteFault
    }
}
