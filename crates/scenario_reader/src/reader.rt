//! Reading a scenario, line by line.
ghost use Rattle.std.specs.Prelude.{◌≡◌, ◌≤◌, ℕ, Err, Some, IfOk, OnOk};
ghost use Rattle.std.specs.Io.KnownBytes.{IsAtEnd};
ghost use Rattle.byte_ends.specs.Faults.{FaultsRise};
ghost use Rattle.scenario_reader.specs.Kept.{IsScheduleOf};
ghost use Rattle.scenario_reader.specs.ReadSteps.{TakesTooMany, TellsReading};
ghost use Rattle.scenario_reader.specs.Reading.{LetsPass};
ghost use Rattle.scenario_reader.specs.Words.{refusal_text};

use crate::by_line::read_lines;
use crate::cause::Cause;
use crate::draft::Draft;
use byte_ends::Source;
use call_script::{Plan, Schedule};
use net_units::OutOfMemory;
use std::alloc::Global;
use std::fmt::{self, Display};
use thiserror::Error;

/// The most bytes that a scenario may have.
pub const MOST_BYTES: u64 = 4_194_304;

/// Why no scenario was read.
#[derive(Clone, Copy, Debug, PartialEq, Eq, Error)]
pub enum ReadRefusal {
    /// Out of memory.
    Memory,
    /// The source failed, as its count of faults shows.
    ReadFault,
    /// There are more than 4,194,304 bytes, and no whole line within the first 4,194,304 is refused.
    TooLong {
        /// How many bytes were taken from the source in this call: 4,194,305.
        taken: u64,
    },
    /// A line is refused.
    Refused {
        /// The line's number, from 1.
        line: u64,
        /// Why.
        cause: Cause,
    },
}

impl From<OutOfMemory> for ReadRefusal {
    ghost use Rattle.std.specs.Prelude.{◌≡◌};
    ghost use Rattle.scenario_reader.specs.declared.reader.ReadRefusal.TheVariants.{Memory};

    ghost from_gives = { λ _ refusal. refusal ≡ Memory };

    fn from(_want: OutOfMemory) -> ReadRefusal {
        ReadRefusal::Memory
    }
}

impl Display for ReadRefusal {
    ghost output = { λ refusal. Some (refusal_text refusal) };

    fn fmt<W: fmt::Write>(&self, f: &mut fmt::Formatter<W>) -> fmt::Result {
        match self {
            ReadRefusal::Memory => write!(f, "out of memory"),
            ReadRefusal::ReadFault => write!(f, "the source failed"),
            ReadRefusal::TooLong { taken } => write!(f, "over the limit after {taken} bytes"),
            ReadRefusal::Refused { line, cause } => write!(f, "refused {line} {cause}"),
        }
    }
}

/// Reads a scenario to its end, or up to the line that is refused.
pub fn read_plan<S: Source>(alloc: Global, source: &mut S) -> Result<(Plan, Schedule), ReadRefusal>
    // Where the source tells its bytes, they determine the answer.
    ensures told { TellsReading result (S.left source.old) }
    ensures schedule { IfOk result (λ read. IsScheduleOf read.0.callers read.1) }
    ensures ended { OnOk result (IsAtEnd (S.left source.new)) }
    ensures fault { result ≡ Err ReadRefusal.ReadFault → FaultsRise (S.faults source.old) (S.faults source.new) }
    ensures passing { result ≡ Err ReadRefusal.ReadFault → LetsPass MOST_BYTES (S.left source.old) (S.left source.new) }
    ensures over { (taken : ℕ) → result ≡ Err (ReadRefusal.TooLong taken) → TakesTooMany taken MOST_BYTES (S.left source.old) (S.left source.new) }
    ensures counts { S.faults source.old ≤ S.faults source.new }
{
    let mut draft = Draft::new(alloc)?;
    read_lines(alloc, &mut draft, source)?;
    Ok(draft.into_plan())
}
