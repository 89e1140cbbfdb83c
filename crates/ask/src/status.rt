//! How a run of the program ends.
use network_files::Refused;

/// How a run of the program ends.
#[derive(Clone, Copy, Debug, PartialEq, Eq)]
pub enum Status {
    /// The answer is a yes, or help was asked for.
    Yes,
    /// The answer is a no.
    No,
    /// The words are wrong, or name what isn't in the file.
    Words,
    /// A file can't be read, or the answer can't be written.
    File,
    /// Out of memory.
    Memory,
    /// A line of the file is refused.
    Refused,
}

impl Status {
    /// The program's exit status.
    pub fn code(&self) -> u8 {
        match self {
            Status::Yes => 0,
            Status::No => 1,
            Status::Words => 2,
            Status::File => 3,
            Status::Memory => 4,
            Status::Refused => 5,
        }
    }
}

impl From<Refused> for Status {
    fn from(refused: Refused) -> Status {
        match refused {
            Refused::File => Status::File,
            Refused::Line => Status::Refused,
        }
    }
}
