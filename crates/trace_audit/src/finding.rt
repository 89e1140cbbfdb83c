//! What an audit finds.
ghost use Rattle.std.specs.Prelude.{◌≡◌, Some};
ghost use Rattle.trace_audit.specs.Words.{check_word, finding_text};

use std::fmt::{self, Display};

/// A check of a row, in the order in which a row is checked.
#[derive(Clone, Copy, Debug, PartialEq, Eq)]
pub enum Check {
    /// Its channel was accepted, and goes over its link at its hop.
    Known,
    /// It is the next hop of the packet above, or hop 1 of its channel's next packet, or of packet 1 of a later channel; and
    /// the packet before has a row at its hop.
    Order,
    /// Its size is from 1 to the contract's, and that of the hop before.
    Size,
    /// At hop 1 it arrives no sooner than the packet before, and at a later hop a propagation after its departure from the hop before.
    Arrive,
    /// It is eligible at the tick that its regulator says.
    Eligible,
    /// It departs once it can have been sent, and within its bound.
    Bound,
}

/// What an audit finds in a table.
#[derive(Clone, Copy, Debug, PartialEq, Eq)]
pub enum Finding {
    /// Each row passes every check.
    Sound { rows: u64 },
    /// The first row that fails, numbered from 1, and the first check that it fails.
    Fault { row: u64, word: Check },
}

impl Check {
    /// The word that is printed.
    pub fn word(&self) -> &'static str
        ensures { result.now ≡ check_word self.now }
    {
        match self {
            Check::Known => "known",
            Check::Order => "order",
            Check::Size => "size",
            Check::Arrive => "arrive",
            Check::Eligible => "eligible",
            Check::Bound => "bound",
        }
    }
}

impl Display for Check {
    ghost output = { λ check. Some (check_word check) };

    fn fmt<W: fmt::Write>(&self, f: &mut fmt::Formatter<W>) -> fmt::Result {
        Display::fmt(self.word(), f)
    }
}

/// `audit ok ROWS`, or `audit row N WORD`.
impl Display for Finding {
    ghost output = { λ finding. Some (finding_text finding) };

    fn fmt<W: fmt::Write>(&self, f: &mut fmt::Formatter<W>) -> fmt::Result {
        match self {
            Finding::Sound { rows } => write!(f, "audit ok {rows}"),
            Finding::Fault { row, word } => write!(f, "audit row {row} {word}"),
        }
    }
}
