//! What was read of a scenario so far.
ghost use Rattle.std.specs.Prelude.{◌≡◌, ◌≤◌, IfOk, IsTrue};
ghost use Rattle.net_units.specs.Limits.{most_rounds};
ghost use Rattle.scenario_reader.specs.Drafts.{nothing_said, is_complete, parts_said, schedule_said, rounds_of};
ghost use Rattle.scenario_reader.specs.Kept.{IsScheduleOf};

use crate::by_line::TakesLines;
use crate::cause::{LineCause, LineFault};
use crate::judge::LineKind;
use crate::names::Names;
use crate::uses::Uses;
use crate::values::require;
use call_script::{CallerEntry, Do, Dos, LinkEntry, Plan, RequestEntry, Schedule, Version};
use line_forms::Reader;
use net_units::{Name, OutOfMemory};
use std::alloc::Global;
use std::marker::Model;

/// What was read of a scenario so far, where no line was refused.
///
/// A contract sees the record `Said`.
#[derive(Drop)]
pub struct Draft {
    pub(crate) version: Option<Version>,
    pub(crate) links: Vec<LinkEntry>,
    pub(crate) groups: Vec<Name>,
    pub(crate) requests: Vec<RequestEntry>,
    pub(crate) callers: Vec<CallerEntry>,
    pub(crate) rounds: Option<u64>,
    pub(crate) tail: Option<u64>,
    pub(crate) written: bool,
    pub(crate) items: Vec<Do>,
    // What follows is kept so that no line goes over all lines before it.
    pub(crate) link_names: Names,
    pub(crate) request_names: Names,
    pub(crate) caller_names: Names,
    // What was done with each request.
    pub(crate) uses: Vec<Uses>,
    // How many packets are sent and moved, once for each hop that they may cross, and poured.
    pub(crate) load: u64,
}

impl Model for Draft {
    ghost use Rattle.scenario_reader.specs.Drafts.{Said, said_of};
    ghost use Rattle.scenario_reader.specs.Kept.{IsDraft, IsKeptBeside};

    ghost Value = { Said };

    ghost view = { λ d. said_of d.version d.links.items d.groups.items d.requests.items d.callers.items d.rounds d.tail d.written d.items.items };

    ghost invariant = { λ d. IsDraft (said_of d.version d.links.items d.groups.items d.requests.items d.callers.items d.rounds d.tail d.written d.items.items)
        × IsKeptBeside (said_of d.version d.links.items d.groups.items d.requests.items d.callers.items d.rounds d.tail d.written d.items.items)
        d.link_names d.request_names d.caller_names d.uses.items d.load };
}

impl TakesLines for Draft {
    ghost use Rattle.scenario_reader.specs.ByLine.{scenarios_by_line};
    ghost use Rattle.scenario_reader.specs.Reading.{Reading};
    ghost use Rattle.scenario_reader.specs.ReadSteps.{scenarios};

    ghost Whole = { Reading };

    ghost language = { scenarios };

    fn add_line(
        &mut self,
        alloc: Global,
        reader: &mut Reader,
        number: u64,
        line: &[u8],
        _ahead: &[u8],
    ) -> Result<(), LineFault> {
        // What may be added goes by what a draft keeps, which is known where a part of it is seen.
        let _ = &self.version;
        match self.read(reader, line)? {
            LineKind::Nothing => {}
            LineKind::Header(version) => self.put_header(version),
            LineKind::Values(word, version) => {
                let item = self.say(alloc, word, version, number, reader.values())?;
                self.put(alloc, item)?;
            }
        }
        Ok(())
    }

    fn judge_end(&self) -> Result<(), LineCause> {
        require(self.is_complete(), LineCause::End)
    }

    ghost by_line = { scenarios_by_line };
}

impl Draft {
    /// Nothing has been read yet. An `Err` comes only for want of memory.
    pub fn new(alloc: Global) -> Result<Draft, OutOfMemory>
        ensures { IfOk result (λ draft. draft ≡ nothing_said) }
    {
        Ok(Draft {
            version: None,
            links: Vec::new(alloc),
            groups: Vec::new(alloc),
            requests: Vec::new(alloc),
            callers: Vec::new(alloc),
            rounds: None,
            tail: None,
            written: false,
            items: Vec::new(alloc),
            link_names: Names::new(alloc)?,
            request_names: Names::new(alloc)?,
            caller_names: Names::new(alloc)?,
            uses: Vec::new(alloc),
            load: 0,
        })
    }

    /// Whether the last line that a plan needs was read.
    pub fn is_complete(&self) -> bool
        ensures { result ≡ is_complete self.now }
    {
        self.tail.is_some()
    }

    // How many rounds the plane makes beside the callers.
    pub(crate) fn rounds(&self) -> u64
        ensures value { result ≡ rounds_of self.now }
        ensures most { result ≤ most_rounds }
    {
        self.rounds.unwrap_or(0)
    }

    /// The plan and the schedule that were read, once the last line that a plan needs was.
    pub fn into_plan(self) -> (Plan, Schedule)
        requires { IsTrue (is_complete self) }
        ensures plan { result.0 ≡ parts_said self }
        ensures items { result.1 ≡ schedule_said self }
        ensures schedule { IsScheduleOf result.0.callers result.1 }
    {
        let version = self.version.unwrap_or(Version::One);
        let rounds = self.rounds.unwrap_or(0);
        let tail = self.tail.unwrap_or(0);
        let schedule = Schedule {
            written: self.written,
            items: Dos::new(self.items),
        };
        let plan = Plan::of_kept(
            version,
            self.links,
            self.groups,
            self.requests,
            self.callers,
            rounds,
            tail,
        );
        (plan, schedule)
    }
}
