//! A link on its own in a window of rounds, with what it has replied.
ghost use Rattle.std.specs.Prelude.{◌≡◌, ◌+◌, ◌^◌, ◌<◌, ◌≤◌, [], ◌∷◌, false, None, Some, IfSome, IsNone, IfOk, map};
ghost use Rattle.link_quota.specs.Any.{any_clock, any_rules, AnyStands};
ghost use Rattle.link_steps.specs.Legal.{AskFits};
ghost use Rattle.link_steps.specs.Lists.{Each};
ghost use Rattle.link_steps.specs.Quiet.{quiet_reply};
ghost use Rattle.plane_workers.specs.Answered.{IsAnswered, ticks_in};
ghost use Rattle.plane_workers.specs.Lanes.{HasHanded, HasLeft, IsNextSaid, IsQuietNext, lane_left, next_run};
ghost use Rattle.plane_workers.specs.Said.{quiets};
ghost use Rattle.tick_plane.specs.Windows.{window_at};

use crate::answering::answer_asks;
use crate::desk::link_of;
use crate::quiet_run::QuietRun;
use link_quota::AnyLink;
use link_steps::{Ask, Reply};
use net_units::{ActorNo, Gate, OutOfMemory};
use std::alloc::Global;
use tick_plane::Window;

// What a link has replied: quiet ticks, or another reply.
#[derive(Clone, Copy)]
pub(crate) enum Said {
    Quiet(QuietRun),
    Replied(Reply),
}

// A link, what it is asked in a window, and what it has replied to that.
#[derive(Drop)]
pub(crate) struct Lane {
    pub(crate) link: AnyLink,
    pub(crate) asks: Vec<Ask>,
    pub(crate) said: Vec<Said>,
    // How much of what it has said is handed on.
    pub(crate) told: usize,
    // Whether it ran out of memory. The link is given up then.
    pub(crate) wanted: bool,
}

impl Lane {
    // Answers what its link, of this number, is asked in a window.
    pub(crate) fn answer_window<G: Gate>(
        &mut self,
        alloc: Global,
        window: &Window,
        number: usize,
        gate: &G,
        actor: ActorNo,
    )
        requires number { number < 32 }
        requires fits { Each (AskFits (any_rules self.old.link).shape) (window_at number window.now.until window.now.at) }
        requires early { any_clock self.old.link + ticks_in (window_at number window.now.until window.now.at) < 2 ^ 61 }
        ensures { self.new.wanted ≡ false → IsAnswered any_rules AnyStands self.old.link self.new.link (window_at number window.now.until window.now.at) (lane_left self.new) }
    {
        self.told = 0;
        self.asks.clear();
        self.said.clear();
        let asked = window.asks(alloc, link_of(number), &mut self.asks);
        if asked.is_err() {
            self.wanted = true;
            return;
        }
        let answered = answer_asks(
            gate,
            actor,
            &mut self.link,
            self.asks.as_slice(),
            &mut self.said,
        );
        self.wanted = answered.is_err();
    }

    // The next of its replies that isn't handed on yet. It is written out.
    pub(crate) fn next_reply(&self) -> &Reply
        requires left { HasLeft self.now }
        requires written { next_run self.now ≡ None }
        ensures { IsNextSaid result.now self.now }
    {
        match &self.said[self.told] {
            Said::Replied(reply) => reply,
            Said::Quiet(_) => unreachable!(),
        }
    }

    // The clock of the quiet tick that it hands on next, where it does; then it has handed it on.
    pub(crate) fn next_quiet(&mut self) -> Option<u64>
        ensures stays { IsNone result → self.new ≡ self.old }
        ensures written { IsNone result → next_run self.old ≡ None }
        ensures told { IfSome result (λ clock. HasHanded (quiet_reply clock ∷ []) self.old self.new) }
    {
        match self.said.get(self.told) {
            Some(Said::Quiet(run)) => {
                let run = *run;
                self.pass(&run, 1);
                Some(run.clock)
            }
            _ => None,
        }
    }

    // At least how many quiet ticks it hands on next, the first of them at this clock.
    pub(crate) fn quiet_from(&self, clock: u64) -> u64
        ensures { 1 ≤ result → IsQuietNext clock result self.now }
    {
        match self.next_run() {
            Some(run) if run.clock == clock => run.ticks,
            _ => 0,
        }
    }

    // The quiet ticks that it hands on next, where it does.
    fn next_run(&self) -> Option<QuietRun>
        ensures { result ≡ next_run self.now }
    {
        match self.said.get(self.told) {
            Some(Said::Quiet(run)) => Some(*run),
            _ => None,
        }
    }

    // Hands on so many quiet ticks, the first of them at this clock.
    pub(crate) fn pass_quiet(&mut self, clock: u64, ticks: u64)
        requires some { 1 ≤ ticks }
        requires quiet { IsQuietNext clock ticks self.old }
        ensures { HasHanded (quiets clock ticks) self.old self.new }
    {
        match self.said[self.told] {
            Said::Quiet(run) => self.pass(&run, ticks),
            Said::Replied(_) => unreachable!(),
        }
    }

    // Hands on so many of the quiet ticks that come next, which are these.
    fn pass(&mut self, run: &QuietRun, ticks: u64)
        requires some { 1 ≤ ticks }
        requires within { ticks ≤ run.now.ticks }
        requires next { next_run self.old ≡ Some run.now }
        ensures { HasHanded (quiets run.now.clock ticks) self.old self.new }
    {
        if ticks == run.ticks {
            self.told += 1;
        } else {
            self.said[self.told] = Said::Quiet(run.after(ticks));
        }
    }
}

// A lane for each link, in their order. An `Err` comes only for want of memory.
pub(crate) fn lanes_of(alloc: Global, links: Vec<AnyLink>) -> Result<Vec<Lane>, OutOfMemory>
    ensures { IfOk result (λ lanes. map (λ l. l.link) lanes.items ≡ links.items) }
{
    let mut lanes = Vec::with_capacity(alloc, links.len())?;
    for link in links {
        lanes.push(Lane {
            link,
            asks: Vec::new(alloc),
            said: Vec::new(alloc),
            told: 0,
            wanted: false,
        })?;
    }
    Ok(lanes)
}

// The links of these lanes, in their order. An `Err` comes only for want of memory.
pub(crate) fn links_in(alloc: Global, lanes: Vec<Lane>) -> Result<Vec<AnyLink>, OutOfMemory>
    ensures { IfOk result (λ links. links.items ≡ map (λ l. l.link) lanes.items) }
{
    let mut links = Vec::with_capacity(alloc, lanes.len())?;
    for lane in lanes {
        links.push(lane.link)?;
    }
    Ok(links)
}
