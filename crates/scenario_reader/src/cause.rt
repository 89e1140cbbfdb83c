//! Why a line of a scenario is refused.
ghost use Rattle.std.specs.Prelude.{◌≡◌, Some};
ghost use Rattle.scenario_reader.specs.Words.{cause_word};

use line_forms::FieldCause;
use net_units::OutOfMemory;
use std::fmt::{self, Display};

/// Why a scenario is refused: by the cause of a line, or for a step that isn't left. Where several causes apply to a line, the first
/// in the order of judging is given: bytes and spacing, the header or the first word, the form, the fields from left to right by
/// `Name` to `Range`, and then the causes from `Many` on in their order.
#[derive(Clone, Copy, Debug, PartialEq, Eq)]
pub enum Cause {
    /// The first line isn't a known header.
    Header,
    /// The first field isn't a word that may stand here.
    Word,
    /// A byte or a spacing isn't allowed, or the line doesn't have the form of its word.
    Shape,
    /// A field that has to be a name isn't one.
    Name,
    /// A field that has to be a number isn't one.
    Number,
    /// A new name is known already, or the link already has a quota of the group.
    Known,
    /// A used name isn't known.
    Unknown,
    /// A number is out of its range.
    Range,
    /// There are too many links, groups, callers or requests.
    Many,
    /// The numbers aren't a contract.
    Contract,
    /// The bounds don't rise, or the link's largest packet takes longer than the first bound.
    Levels,
    /// A link stands twice in a route, or doesn't begin where the one before it ends; or a route is to be found from a node to itself.
    Route,
    /// The request was closed above, or a move has left it.
    Closed,
    /// The run would have too many packets or ticks.
    Load,
    /// The input ended before the `tail` line.
    End,
    /// The input ended inside the line.
    Cut,
    /// A `do` line asks for a step that isn't left.
    Step,
    /// The link takes no best-effort packets.
    Best,
    /// No walk of at most 16 links leads from the first node to the second.
    Reach,
    /// In an audit's input, a line that begins with `accept ` isn't one of a report for a request of the scenario, or is the second
    /// one for it.
    Accept,
    /// In an audit's input, a line of the table isn't a row, or the input ended before the table's header.
    Table,
    /// The loads of a quota aren't those of the link's levels, or with it the link's quotas come to more than the link has.
    Quota,
    /// A move is between requests whose contracts or whose ends differ, or to a request that was used above.
    Move,
}

/// Why a line is refused: the cause of this name in `Cause`.
#[derive(Clone, Copy, Debug, PartialEq, Eq)]
pub enum LineCause {
    Header,
    Word,
    Shape,
    Name,
    Number,
    Known,
    Unknown,
    Range,
    Many,
    Contract,
    Levels,
    Route,
    Closed,
    Load,
    End,
    Cut,
    Best,
    Reach,
    Accept,
    Table,
    Quota,
    Move,
}

impl From<LineCause> for Cause {
    ghost use Rattle.std.specs.Prelude.{◌≡◌};
    ghost use Rattle.scenario_reader.specs.Words.{cause_of};

    ghost from_gives = { λ cause told. told ≡ cause_of cause };

    fn from(cause: LineCause) -> Cause {
        match cause {
            LineCause::Header => Cause::Header,
            LineCause::Word => Cause::Word,
            LineCause::Shape => Cause::Shape,
            LineCause::Name => Cause::Name,
            LineCause::Number => Cause::Number,
            LineCause::Known => Cause::Known,
            LineCause::Unknown => Cause::Unknown,
            LineCause::Range => Cause::Range,
            LineCause::Many => Cause::Many,
            LineCause::Contract => Cause::Contract,
            LineCause::Levels => Cause::Levels,
            LineCause::Route => Cause::Route,
            LineCause::Closed => Cause::Closed,
            LineCause::Load => Cause::Load,
            LineCause::End => Cause::End,
            LineCause::Cut => Cause::Cut,
            LineCause::Best => Cause::Best,
            LineCause::Reach => Cause::Reach,
            LineCause::Accept => Cause::Accept,
            LineCause::Table => Cause::Table,
            LineCause::Quota => Cause::Quota,
            LineCause::Move => Cause::Move,
        }
    }
}

impl From<FieldCause> for LineCause {
    ghost use Rattle.std.specs.Prelude.{◌≡◌};
    ghost use Rattle.scenario_reader.specs.Words.{field_cause};

    ghost from_gives = { λ cause told. told ≡ field_cause cause };

    fn from(cause: FieldCause) -> LineCause {
        match cause {
            FieldCause::Shape => LineCause::Shape,
            FieldCause::Name => LineCause::Name,
            FieldCause::Number => LineCause::Number,
            FieldCause::Known => LineCause::Known,
            FieldCause::Unknown => LineCause::Unknown,
            FieldCause::Range => LineCause::Range,
        }
    }
}

/// Why a line doesn't pass.
#[derive(Clone, Copy, Debug, PartialEq, Eq)]
pub enum LineFault {
    /// Out of memory while its route was searched for; whether it is refused isn't known.
    Memory,
    /// The line is refused.
    Refused(LineCause),
}

impl From<LineCause> for LineFault {
    ghost use Rattle.std.specs.Prelude.{◌≡◌};
    ghost use Rattle.scenario_reader.specs.declared.cause.LineFault.TheVariants.{Refused};

    ghost from_gives = { λ cause fault. fault ≡ Refused cause };

    fn from(cause: LineCause) -> LineFault {
        LineFault::Refused(cause)
    }
}

impl From<FieldCause> for LineFault {
    ghost use Rattle.std.specs.Prelude.{◌≡◌};
    ghost use Rattle.scenario_reader.specs.Words.{field_cause};
    ghost use Rattle.scenario_reader.specs.declared.cause.LineFault.TheVariants.{Refused};

    ghost from_gives = { λ cause fault. fault ≡ Refused (field_cause cause) };

    fn from(cause: FieldCause) -> LineFault {
        LineFault::Refused(cause.into())
    }
}

impl From<OutOfMemory> for LineFault {
    ghost use Rattle.std.specs.Prelude.{◌≡◌};
    ghost use Rattle.scenario_reader.specs.declared.cause.LineFault.TheVariants.{Memory};

    ghost from_gives = { λ _ fault. fault ≡ Memory };

    fn from(_error: OutOfMemory) -> LineFault {
        LineFault::Memory
    }
}

impl Cause {
    /// The word that is printed.
    pub fn word(&self) -> &'static str
        ensures { result.now ≡ cause_word self.now }
    {
        match self {
            Cause::Header => "header",
            Cause::Word => "word",
            Cause::Shape => "shape",
            Cause::Name => "name",
            Cause::Number => "number",
            Cause::Known => "known",
            Cause::Unknown => "unknown",
            Cause::Range => "range",
            Cause::Many => "many",
            Cause::Contract => "contract",
            Cause::Levels => "levels",
            Cause::Route => "route",
            Cause::Closed => "closed",
            Cause::Load => "load",
            Cause::End => "end",
            Cause::Cut => "cut",
            Cause::Step => "step",
            Cause::Best => "best",
            Cause::Reach => "reach",
            Cause::Accept => "accept",
            Cause::Table => "table",
            Cause::Quota => "quota",
            Cause::Move => "move",
        }
    }
}

impl Display for Cause {
    ghost output = { λ cause. Some (cause_word cause) };

    fn fmt<W: fmt::Write>(&self, f: &mut fmt::Formatter<W>) -> fmt::Result {
        Display::fmt(self.word(), f)
    }
}
