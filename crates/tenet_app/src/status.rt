//! How a run of the program ended.
use scenario_reader::Cause;
use shared_network::Closed;

/// How a run of the program ended.
#[derive(Clone, Copy, Debug, PartialEq, Eq)]
pub enum Status {
    /// The work was done and its text was written.
    Done,
    /// Out of memory.
    Memory,
    /// The words aren't among those that are accepted.
    Words,
    /// The source failed, as its count of faults shows.
    ReadFault,
    /// The sink failed, as its count of faults shows. A prefix of the text was written.
    WriteFault,
    /// A line of the scenario is refused, or asks for a step that isn't left, and one line that tells it was written.
    Refused {
        /// The line's number, from 1.
        line: u64,
        /// Why.
        cause: Cause,
    },
    /// The scenario has more than 4,194,304 bytes, and no whole line within the first 4,194,304 is refused.
    TooLong,
}

impl Status {
    ghost use Rattle.std.specs.Prelude.{◌≡◌};
    ghost use Rattle.tenet_app.specs.Codes.{code_of};

    /// The program's exit status.
    pub fn code(&self) -> u8
        ensures { result ≡ code_of self.now }
    {
        match self {
            Status::Done => 0,
            Status::Memory => 1,
            Status::Words => 2,
            Status::ReadFault => 3,
            Status::WriteFault => 4,
            Status::Refused { .. } => 5,
            Status::TooLong => 6,
        }
    }
}

/// What `top` answers.
#[derive(Drop)]
pub struct Ended {
    /// How the run ended.
    pub status: Status,
    /// The journals and passes of a race that was told.
    pub raced: Option<Closed>,
}
