//! The network that a file describes: a scenario, or a design.
use byte_ends::SureSource;
use call_script::{Dos, Plan, Schedule};
use design_file::{BadDesign, CallerTimes, DesignPlan, File, Mistake, plan_of, read_design};
use design_scale::{Choice, ONE_PERCENT, choose};
use field_units::{Scale, Time};
use scenario_reader::{Cause, ReadRefusal, read_plan};
use std::alloc::{AllocError, AllocFailed, Global};
use std::str;

/// A network that is asked about.
#[derive(Drop)]
pub struct Network {
    pub plan: Plan,
    /// The schedule of a scenario; a design has none.
    pub schedule: Schedule,
    /// For each caller of a design the tick of each of its operations, in their order; empty for a scenario.
    pub times: Vec<CallerTimes>,
    /// How long a tick is, where the file says it.
    pub tick: Option<Time>,
}

/// Why a file describes no network.
#[derive(Drop)]
pub enum BadNetwork {
    /// Out of memory.
    Memory,
    /// A scenario of more than 4,194,304 bytes.
    TooLong,
    /// A line of a scenario is refused.
    Line { line: u64, cause: Cause },
    /// A design that isn't UTF-8.
    NotText,
    /// A design that names no tick, and for which none is found.
    NoScale,
    /// All that is wrong with a design.
    Mistakes(Vec<Mistake>),
}

impl From<AllocError> for BadNetwork {
    fn from(_refused: AllocError) -> BadNetwork {
        BadNetwork::Memory
    }
}

impl<T: Drop> From<AllocFailed<T>> for BadNetwork {
    fn from(_refused: AllocFailed<T>) -> BadNetwork {
        BadNetwork::Memory
    }
}

impl From<BadDesign> for BadNetwork {
    fn from(bad: BadDesign) -> BadNetwork {
        match bad {
            BadDesign::Memory => BadNetwork::Memory,
            BadDesign::Mistakes(list) => BadNetwork::Mistakes(list),
        }
    }
}

impl From<ReadRefusal> for BadNetwork {
    fn from(refusal: ReadRefusal) -> BadNetwork {
        match refusal {
            ReadRefusal::Refused { line, cause } => BadNetwork::Line { line, cause },
            ReadRefusal::TooLong { .. } => BadNetwork::TooLong,
            ReadRefusal::Memory | ReadRefusal::ReadFault => BadNetwork::Memory,
        }
    }
}

/// The network that the bytes of a file of this name describe.
pub fn read_network(alloc: Global, name: &str, bytes: &[u8]) -> Result<Network, BadNetwork> {
    if is_scenario(bytes) {
        of_scenario(alloc, bytes)
    } else {
        of_design(alloc, name, bytes)
    }
}

/// Whether the first line, empty ones and notes aside, begins as a scenario's, or there is none.
pub fn is_scenario(bytes: &[u8]) -> bool {
    for line in bytes.split(is_line_feed) {
        if !line.is_empty() && !line.starts_with(b"#") {
            return without_mark(line).starts_with(b"tenet");
        }
    }
    true
}

// The line without a byte order mark before it.
fn without_mark(line: &[u8]) -> &[u8] {
    match line {
        [0xef, 0xbb, 0xbf, rest @ ..] => rest,
        _ => line,
    }
}

fn is_line_feed(byte: &u8) -> bool {
    *byte == b'\n'
}

// The network of a scenario.
fn of_scenario(alloc: Global, bytes: &[u8]) -> Result<Network, BadNetwork> {
    let mut source = SureSource::new(Vec::from_slice(alloc, bytes)?, 65_536);
    let (plan, schedule) = read_plan(alloc, &mut source)?;
    Ok(Network {
        plan,
        schedule,
        times: Vec::new(alloc),
        tick: noted_tick(bytes),
    })
}

// The tick of the first note that says one.
fn noted_tick(bytes: &[u8]) -> Option<Time> {
    for line in bytes.split(is_line_feed) {
        let Some(rest) = line.strip_prefix(b"# tick ") else {
            continue;
        };
        let text = str::from_utf8(rest).ok()?;
        let time = Time::parse(text).ok()?;
        return if time.picoseconds > 0 {
            Some(time)
        } else {
            None
        };
    }
    None
}

// The network of a design.
fn of_design(alloc: Global, name: &str, bytes: &[u8]) -> Result<Network, BadNetwork> {
    let Ok(text) = str::from_utf8(bytes) else {
        return Err(BadNetwork::NotText);
    };
    let design = read_design(alloc, &File { name, text }, &[])?;
    let scale = match choose(alloc, ONE_PERCENT, &design)? {
        Choice::Named(scale) | Choice::Serving(scale) | Choice::Verdicts(scale) => scale,
        Choice::Nothing => return Err(BadNetwork::NoScale),
    };
    let DesignPlan { plan, times } = plan_of(alloc, &scale, &design)?;
    let tick = tick_of(&scale);
    Ok(Network {
        plan,
        schedule: Schedule {
            written: false,
            items: Dos::new(Vec::new(alloc)),
        },
        times,
        tick: Some(tick),
    })
}

fn tick_of(scale: &Scale) -> Time {
    scale.tick()
}
