//! What the accepted channels of a run were promised.
ghost use Rattle.std.specs.Prelude.{◌≡◌, ◌++◌, IfOk, OnOk, map, option_map};
ghost use Rattle.net_units.specs.Allotted.{levels_of};
ghost use Rattle.net_units.specs.LevelBounds.{bound_at};
ghost use Rattle.net_units.specs.Numbers.{level_number};
ghost use Rattle.relaxation.specs.Allotment.{bound_at_end};
ghost use Rattle.setup_protocol.specs.State.{outcome_of};
ghost use Rattle.packet_answers.specs.Plays.{StandsAfter, run_in};
ghost use Rattle.packet_answers.specs.PromisesOfRuns.{jitter_promised, listed, promised_to, promises_in, widened_by, wider};

use crate::playing::Played;
use call_script::Plan;
use hop_reservation::{Hop, Route};
use net_units::{Level, Levels, OutOfMemory};
use packet_audit::Promise;
use setup_protocol::{Control, Request, Verdict};
use std::alloc::Global;

// The place of a request that isn't accepted, past all promises.
const NOWHERE: usize = usize::MAX;

/// What the channels of a plan were promised in a run.
#[derive(Drop)]
pub struct Promises {
    /// What those that are accepted were promised, in the order of their requests.
    pub list: Vec<Promise>,
    // The place of each request's among them.
    pub(crate) places: Vec<usize>,
}

impl Promises {
    /// What the requests of a plan were promised in a run of it. An `Err` comes only for want of memory.
    pub fn new(alloc: Global, plan: &Plan, played: &Played) -> Result<Promises, OutOfMemory>
        requires { StandsAfter plan.now played.now }
        ensures { IfOk result (λ promises. promises.list.items ≡ promises_in plan.now.requests (run_in played.now)) }
    {
        let mut promises = Promises {
            list: Vec::new(alloc),
            places: Vec::new(alloc),
        };
        for number in 0..plan.requests().len() {
            let entry = &plan.requests()[number];
            let verdict = played.callers.verdict(plan, number);
            promises.add(promise_of(&entry.request, &verdict))?;
        }
        Ok(promises)
    }

    // Adds what the next request was promised.
    fn add(&mut self, promise: Option<Promise>) -> Result<(), OutOfMemory>
        ensures { OnOk result (self.new.list.items ≡ self.old.list.items ++ listed promise) }
    {
        match promise {
            Some(promise) => {
                self.places.push(self.list.len())?;
                self.list.push(promise)?;
            }
            None => self.places.push(NOWHERE)?,
        }
        Ok(())
    }

    /// The place of the promise of the request of this number, from 0, or one past all where it was promised nothing.
    pub fn place(&self, number: usize) -> usize {
        match self.places.get(number) {
            Some(place) => *place,
            None => NOWHERE,
        }
    }

    // The promises where delays are known but for so many ticks.
    pub(crate) fn widened(&self, alloc: Global, by: u64) -> Result<Vec<Promise>, OutOfMemory>
        ensures { IfOk result (λ list. list.items ≡ map (widened_by by) self.now.list.items) }
    {
        let mut list = Vec::new(alloc);
        for promise in &self.list {
            list.push(widened(promise, by))?;
        }
        Ok(list)
    }
}

// A promise where delays are known but for so many ticks.
fn widened(promise: &Promise, by: u64) -> Promise
    ensures { result ≡ widened_by by promise.now }
{
    Promise {
        contract: promise.contract,
        delay: promise.delay,
        jitter: wider(promise.jitter, by),
    }
}

// A jitter where delays are known but for so many ticks.
fn wider(jitter: Option<u64>, by: u64) -> Option<u64>
    ensures { result ≡ option_map (wider by) jitter }
{
    match jitter {
        Some(jitter) => Some(jitter.saturating_add(by)),
        None => None,
    }
}

// What a request with this verdict was promised.
fn promise_of(request: &Request, verdict: &Option<Verdict>) -> Option<Promise>
    ensures { result ≡ promised_to request.now (option_map outcome_of verdict.now) }
{
    match verdict {
        Some(Verdict::Accepted { levels, delay }) => Some(Promise {
            contract: request.contract,
            delay: *delay,
            jitter: jitter_of(request, levels),
        }),
        _ => None,
    }
}

// The jitter that it was promised: the bound of its last hop, under delay-jitter control.
fn jitter_of(request: &Request, levels: &Levels) -> Option<u64>
    ensures { result ≡ jitter_promised request.now.control request.now.route (levels_of levels.now) }
{
    match request.control {
        Control::Rate => None,
        Control::Jitter(_) => Some(bound_at_end(&request.route, levels)),
    }
}

// The bound of the last hop that has a level.
fn bound_at_end(route: &Route, levels: &Levels) -> u64
    ensures { result ≡ bound_at_end route.now (levels_of levels.now) }
{
    let count = levels.len();
    if count == 0 {
        return 0;
    }
    if count > route.len() {
        return 0;
    }
    bound_of(&route.hop(count), levels.at(count))
}

// The bound of a level of a hop.
fn bound_of(hop: &Hop, level: Level) -> u64
    ensures { result ≡ bound_at hop.now.bounds (level_number level) }
{
    if level.get() > hop.bounds.len() {
        return 0;
    }
    u64::from(hop.bounds.at(level))
}
