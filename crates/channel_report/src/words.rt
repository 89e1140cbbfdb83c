//! Words of a report.
use std::fmt;

// A number, or a dash where there is none.
#[derive(Clone, Copy)]
pub(crate) struct NumberOrDash {
    pub(crate) number: Option<u128>,
}

impl fmt::Display for NumberOrDash {
    ghost use Rattle.std.specs.Prelude.{Some};
    ghost use Rattle.channel_report.specs.Channels.{number_or_dash};

    ghost output = { λ shown. Some (number_or_dash shown.number) };

    fn fmt<W: fmt::Write>(&self, f: &mut fmt::Formatter<W>) -> fmt::Result {
        match self.number {
            None => write!(f, "-"),
            Some(number) => write!(f, "{number}"),
        }
    }
}

// The word for a source that keeps its contract, or doesn't.
#[derive(Clone, Copy)]
pub(crate) struct Keeping {
    pub(crate) keeps: bool,
}

impl fmt::Display for Keeping {
    ghost use Rattle.std.specs.Prelude.{Some};
    ghost use Rattle.channel_report.specs.Channels.{keeping};

    ghost output = { λ shown. Some (keeping shown.keeps) };

    fn fmt<W: fmt::Write>(&self, f: &mut fmt::Formatter<W>) -> fmt::Result {
        if self.keeps {
            write!(f, "keeps")
        } else {
            write!(f, "breaks")
        }
    }
}
