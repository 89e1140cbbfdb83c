//! The run of a plan by a schedule, what its requests come to, and where their setups begin.
ghost use Rattle.std.specs.Prelude.{◌≡◌, ◌-◌, ◌^◌, ◌<◌, None, Some, IfOk, length, map, max, option_map, reverse};
ghost use Rattle.std.specs.List.{slice_get};
ghost use Rattle.net_units.specs.Numbers.{channel_number, level_number};
ghost use Rattle.link_steps.specs.Lists.{Each};
ghost use Rattle.call_script.specs.Tasks.{network_of};
ghost use Rattle.call_script.specs.declared.entries.RequestEntry.{RequestEntry as Entry};
ghost use Rattle.run_engine.specs.replies.Verdicts.{is_setup_ask};
ghost use Rattle.run_engine.specs.schedules.Schedules.{IsActorOf, IsPlayed};
ghost use Rattle.setup_protocol.specs.State.{outcome_of};
ghost use Rattle.plan_answers.specs.Trials.{levels_offered, outcome_in};
ghost use Rattle.setup_points.specs.Starts.{end_in, end_of_all, later_end, setup_end, setup_start};
ghost use Rattle.setup_points.specs.Runs.{IsRunFor, run_in};

use call_script::{Do, Plan, Schedule};
use link_steps::Ask;
use net_units::{ChanNo, Level, OutOfMemory};
use plan_answers::offers_among;
use run_engine::{Callers, PlayFault, play_watched};
use run_record::{Done, Record};
use setup_protocol::Verdict;
use std::alloc::Global;

/// A run of a plan by a schedule. The plan is handed to each call; it is the one that was played.
#[derive(Drop)]
pub struct ScheduledRun {
    /// The callers after the run.
    pub callers: Callers,
    /// Its entries.
    pub record: Record,
}

impl ScheduledRun {
    /// Plays a schedule of a plan. `Step` comes where an item asks for a step that isn't left, or for one of an actor that the plan
    /// doesn't have.
    pub fn play(alloc: Global, plan: &Plan, schedule: &Schedule) -> Result<ScheduledRun, PlayFault>
        ensures played { IfOk result (λ run. IsPlayed (network_of plan.now) schedule.now (run_in run)) }
        ensures run { IfOk result (IsRunFor plan.now) }
    {
        if let Some(line) = unknown_actor(plan, schedule.items.as_slice()) {
            return Err(PlayFault::Step { line, made: 0 });
        }
        let mut record = Record::new(alloc);
        let callers = play_watched(alloc, plan, schedule, &mut record)?;
        Ok(ScheduledRun { callers, record })
    }

    /// What the request of this number has come to: None where its setup hasn't ended.
    pub fn verdict(&self, plan: &Plan, number: usize) -> Option<Verdict>
        requires run { IsRunFor plan.now self.now }
        requires inside { number < length plan.now.requests }
        ensures { (entry : Entry) → slice_get plan.now.requests number ≡ Some entry → option_map outcome_of result ≡ outcome_in (run_in self.now) entry.request }
    {
        self.callers.verdict(plan, number)
    }

    /// The levels that the hops of the request of this number have offered, from the first hop on.
    pub fn offers(
        &self,
        alloc: Global,
        plan: &Plan,
        number: usize,
    ) -> Result<Vec<Level>, OutOfMemory>
        requires inside { number < length plan.now.requests }
        ensures { IfOk result (λ levels. (entry : Entry) → slice_get plan.now.requests number ≡ Some entry → map level_number levels.items ≡ levels_offered (run_in self.now) entry.request) }
    {
        let entry = &plan.requests()[number];
        offers_among(alloc, self.record.entries(), entry.request.chan)
    }

    /// How many steps of the run come before the first ask of the setup of the request of this number: None where it hasn't begun.
    pub fn start_of(&self, plan: &Plan, number: usize) -> Option<usize>
        requires inside { number < length plan.now.requests }
        ensures { (entry : Entry) → slice_get plan.now.requests number ≡ Some entry → result ≡ setup_start (channel_number entry.request.chan) self.now.record.entries }
    {
        let entry = &plan.requests()[number];
        start_among(self.record.entries(), entry.request.chan)
    }

    /// How many steps of the run there are up to the last ask of the setup of the request of this number, with that: None where it hasn't begun.
    pub fn end_of(&self, plan: &Plan, number: usize) -> Option<usize>
        requires inside { number < length plan.now.requests }
        ensures { (entry : Entry) → slice_get plan.now.requests number ≡ Some entry → result ≡ setup_end (channel_number entry.request.chan) (run_in self.now) }
    {
        let entry = &plan.requests()[number];
        end_among(self.record.entries(), entry.request.chan)
    }

    /// After how many steps of the run the setups of the requests of these numbers have all ended; after all of them, where one never begins.
    pub fn end_of_all(&self, plan: &Plan, numbers: &[usize]) -> usize
        ensures { result ≡ end_of_all plan.now.requests (run_in self.now) numbers.now }
    {
        latest_end(plan, self.record.entries(), numbers)
    }
}

// The latest of these ends.
fn latest_end(plan: &Plan, entries: &[Done], numbers: &[usize]) -> usize
    ensures { result ≡ end_of_all plan.now.requests (reverse entries.now) numbers.now }
{
    let mut latest = 0;
    for number in numbers {
        latest = later(latest, end_in(plan, entries, *number));
    }
    latest
}

// The later of two.
fn later(one: usize, other: usize) -> usize
    ensures { result ≡ max one other }
{
    if one < other { other } else { one }
}

// The step at which the setup of the request of a number has ended; the last one, where it never begins or there is no such request.
fn end_in(plan: &Plan, entries: &[Done], number: usize) -> usize
    ensures { result ≡ end_in plan.now.requests (reverse entries.now) number }
{
    match plan.requests().get(number) {
        Some(entry) => end_among(entries, entry.request.chan).unwrap_or(entries.len()),
        None => entries.len(),
    }
}

// How many of these entries come up to the last ask of a setup of the channel.
fn end_among(entries: &[Done], chan: ChanNo) -> Option<usize>
    ensures { result ≡ setup_end (channel_number chan) (reverse entries.now) }
{
    let mut end = None;
    for place in 0..entries.len() {
        end = later_end(end, &entries[place], chan, place);
    }
    end
}

// The end so far, once one more entry is seen, behind so many.
fn later_end(end: Option<usize>, done: &Done, chan: ChanNo, steps: usize) -> Option<usize>
    requires { steps < 2 ^ 64 - 1 }
    ensures { result ≡ later_end (channel_number chan) done.now steps end }
{
    if is_of_setup(&done.ask, chan) {
        Some(steps + 1)
    } else {
        end
    }
}

// How many of these entries come before the first ask of a setup of the channel.
fn start_among(entries: &[Done], chan: ChanNo) -> Option<usize>
    ensures { result ≡ setup_start (channel_number chan) entries.now }
{
    entries.iter().position(|done| is_of_setup(&done.ask, chan))
}

// Whether a setup of the channel asks so.
fn is_of_setup(ask: &Ask, of: ChanNo) -> bool
    ensures { result ≡ is_setup_ask (channel_number of) ask.now }
{
    match ask {
        Ask::Reserve { chan, .. } | Ask::Relax { chan, .. } | Ask::Deny { chan } => {
            chan.get() == of.get()
        }
        _ => false,
    }
}

// The line of the first item whose actor is no caller of the plan, and not the plane.
fn unknown_actor(plan: &Plan, items: &[Do]) -> Option<u64>
    ensures { result ≡ None → Each (IsActorOf plan.now) items.now }
{
    for item in items {
        if usize::from(item.actor.get()) > plan.callers().len() {
            return Some(item.line);
        }
    }
    None
}
