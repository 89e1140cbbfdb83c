//! Why a link or a stream of a design has no place in a plan.

use design_text::{Mistakes, Row};
use field_units::Misfit;
use net_units::OutOfMemory;
use std::alloc::{AllocError, AllocFailed, Global};

/// Why, and at which key.
#[derive(Clone, Copy, Debug, PartialEq, Eq)]
pub enum Refusal {
    /// Out of memory.
    Memory,
    /// The number at a key has none in the scenario.
    Misfit { key: Key, misfit: Misfit },
    /// What stands there won't do.
    Wrong(Wrong),
}

/// A key whose number is rounded.
#[derive(Clone, Copy, Debug, PartialEq, Eq)]
pub enum Key {
    Rate,
    Largest,
    Latency,
    Levels,
    Every,
    Apart,
    Size,
    Within,
    Jitter,
    Start,
    End,
}

/// What won't do.
#[derive(Clone, Copy, Debug, PartialEq, Eq)]
pub enum Wrong {
    /// There are too many links.
    ManyLinks,
    /// There are too many streams.
    ManyStreams,
    /// The first bound is too short for the largest packet.
    FirstBound,
    /// The bounds don't rise, or are too many or none.
    Bounds,
    /// A stream's packets of a window are too many or none.
    Packets,
    /// No link has a name of a route.
    UnknownLink,
    /// Two links of a route don't meet.
    Disjoined,
    /// The links of a route are too many or none, or one comes twice.
    Twice,
    /// No route leads from one node to the other.
    Unreached,
    /// The caller has no name.
    Nameless,
    /// The streams don't stand in the order of their groups.
    Order,
    /// A share has another number of levels than its link.
    ShareLevels,
    /// The shares of a link are more than it has.
    Shares,
    /// A stream ends in the tick in which it begins.
    Instant,
    /// The plan breaks a rule, by its number.
    Rule(u8),
}

impl From<AllocError> for Refusal {
    fn from(_refused: AllocError) -> Refusal {
        Refusal::Memory
    }
}

impl<T: Drop> From<AllocFailed<T>> for Refusal {
    fn from(_refused: AllocFailed<T>) -> Refusal {
        Refusal::Memory
    }
}

impl From<OutOfMemory> for Refusal {
    fn from(_wanted: OutOfMemory) -> Refusal {
        Refusal::Memory
    }
}

impl Refusal {
    /// Tells of it, in the row of the link or the stream.
    pub(crate) fn tell(
        &self,
        alloc: Global,
        row: &Row,
        told: &mut Mistakes,
    ) -> Result<(), AllocError> {
        match self {
            Refusal::Memory => Err(AllocError),
            Refusal::Misfit { key, misfit } => {
                let wanted = cure(alloc, misfit)?;
                told.refuse_at(row, text_in(row, *key), wanted.as_str())
            }
            Refusal::Wrong(wrong) => told.refuse_at(row, place_of(*wrong), wanted(*wrong)),
        }
    }
}

/// With which tick or unit a number would do.
fn cure(alloc: Global, misfit: &Misfit) -> Result<String, AllocError> {
    match misfit {
        Misfit::ShorterTick(tick) => {
            format!(in alloc; "too short for the tick; one of {tick} would do")
        }
        Misfit::LongerTick(tick) => {
            format!(in alloc; "out of range with this tick; one of {tick} would do")
        }
        Misfit::LargerUnit(unit) => {
            format!(in alloc; "too large for the unit; one of {unit} would do")
        }
        Misfit::Never => String::from_str(alloc, "no tick and no unit would do"),
    }
}

/// The key in a row: `every` says what `apart` says, and `in` what `every` says.
fn text_in(row: &Row, key: Key) -> &'static str {
    match key {
        Key::Apart if row.has("apart") => "apart",
        Key::Every if !row.has("every") => "in",
        Key::Apart | Key::Every => "every",
        Key::Rate => "rate",
        Key::Largest => "largest",
        Key::Latency => "latency",
        Key::Levels => "levels",
        Key::Size => "size",
        Key::Within => "within",
        Key::Jitter => "jitter",
        Key::Start => "start",
        Key::End => "end",
    }
}

/// The key at which something won't do.
fn place_of(wrong: Wrong) -> &'static str {
    match wrong {
        Wrong::FirstBound | Wrong::Bounds | Wrong::ShareLevels | Wrong::Shares => "levels",
        Wrong::Instant => "end",
        Wrong::Packets => "packets",
        Wrong::UnknownLink | Wrong::Disjoined | Wrong::Twice => "route",
        Wrong::Unreached => "to",
        _ => "name",
    }
}

/// What would do in its place.
pub(crate) fn wanted(wrong: Wrong) -> &'static str {
    match wrong {
        Wrong::ManyLinks => "a network has at most 32 links",
        Wrong::ManyStreams => "a plan has at most 1,024 streams",
        Wrong::FirstBound => "a first bound in which the link sends its largest packet",
        Wrong::Bounds => "1 to 8 bounds, each longer by a tick at least than the one before",
        Wrong::Packets => "from 1 to 256 packets in a window",
        Wrong::UnknownLink => "links that the design has",
        Wrong::Disjoined => "links of which each begins where the one before it ends",
        Wrong::Twice => "1 to 16 links, none of them twice",
        Wrong::Unreached => "another node, to which at most 16 links lead",
        Wrong::Nameless => "a caller with a name",
        Wrong::Order => "the streams of each group one after the other",
        Wrong::ShareLevels => "a time for each level of its link",
        Wrong::Shares =>
            "less: the shares of a level come to at most its bound less the time of the largest packet, and those of the buffer to the buffer",
        Wrong::Instant => "a time that is later than its start by a tick at least",
        Wrong::Rule(rule) => wanted_by_rule(rule),
    }
}

/// What a plan has to keep, by the number of the rule.
fn wanted_by_rule(rule: u8) -> &'static str {
    match rule {
        2 => "a design needs a link",
        6 => "each link and each stream needs a name of its own",
        9 => "there are at most 32 links and 1,024 streams",
        12 => "each link of a route begins where the one before it ends",
        14 =>
            "too much is sent: the counts times the links of their routes come to at most 262,144, and the ticks of the run times the links to at most 524,288",
        _ => "the design breaks a rule of scenarios",
    }
}
