//! The callers of a run, as they are kept, and how a record brings them through it.
ghost use Rattle.std.specs.Prelude.{◌≡◌, ◌<◌, ◌∷◌, [], Some, List, IfOk, OnOk, length, option_map, reverse};
ghost use Rattle.std.specs.List.{slice_get};
ghost use Rattle.net_units.specs.Numbers.{channel_number};
ghost use Rattle.setup_protocol.specs.Setup.{verdict_of};
ghost use Rattle.setup_protocol.specs.State.{outcome_of};
ghost use Rattle.call_script.specs.Plans.{IsPlan};
ghost use Rattle.call_script.specs.Tasks.{network_of};
ghost use Rattle.call_script.specs.declared.entries.RequestEntry.{RequestEntry as Asked};
ghost use Rattle.run_engine.specs.channels.Moves.{moved_in};
ghost use Rattle.run_engine.specs.runs.Runs.{IsRun};
ghost use Rattle.run_engine.specs.replies.Verdicts.{setup_replies};
ghost use Rattle.run_engine.specs.schedules.Standing.{CallersStand, IsNextStep};
ghost use Rattle.run_engine.specs.schedules.Watching.{IsSeen};
ghost use Rattle.run_record.specs.declared.done.Done.{Done as Entry};

use crate::actors::actor_of;
use crate::watching::Watch;
use call_script::{Actor, Plan};
use channel_move::Shifted;
use net_units::OutOfMemory;
use run_record::{Done, Record};
use setup_protocol::Verdict;
use std::alloc::Global;

/// The callers of a plan on their way through a run.
#[derive(Drop)]
pub struct Callers {
    pub(crate) by_number: Vec<Actor>,
}

impl Callers {
    // The callers of a plan, before they have asked anything.
    pub(crate) fn new(alloc: Global, plan: &Plan) -> Result<Callers, OutOfMemory>
        ensures stand { IfOk result (λ callers. CallersStand plan.now callers []) }
        ensures valid { IfOk result (λ callers. IsPlan plan.now) }
    {
        let count = plan.callers().len();
        let mut by_number = Vec::with_capacity(alloc, count)?;
        for number in 0..count {
            by_number.push(Actor::new(alloc, plan, actor_of(number))?)?;
        }
        Ok(Callers { by_number })
    }

    /// What the request of this number has come to in the run so far: None while its setup has an ask left. The plan is the
    /// one that the callers were made for.
    pub fn verdict(&self, plan: &Plan, number: usize) -> Option<Verdict>
        requires stands { (run : List Entry) × CallersStand plan.now self.now run }
        requires inside { number < length plan.now.requests }
        ensures { (run : List Entry) (entry : Asked) → IsRun (network_of plan.now) run → CallersStand plan.now self.now run → slice_get plan.now.requests number ≡ Some entry → option_map outcome_of result ≡ verdict_of entry.request (setup_replies (channel_number entry.request.chan) run) }
    {
        let entry = &plan.requests()[number];
        let owner = usize::from(entry.caller.get());
        self.by_number[owner].verdict(entry.request.chan)
    }

    /// What the move from the channel of the request of this number has come to in the run so far: None where none was made, or
    /// one is under way. The plan is the one that the callers were made for.
    pub fn moved(&self, plan: &Plan, number: usize) -> Option<Shifted>
        requires stands { (run : List Entry) × CallersStand plan.now self.now run }
        requires inside { number < length plan.now.requests }
        ensures { (run : List Entry) (entry : Asked) → CallersStand plan.now self.now run → slice_get plan.now.requests number ≡ Some entry → result ≡ moved_in plan.now run entry }
    {
        let entry = &plan.requests()[number];
        let owner = usize::from(entry.caller.get());
        self.by_number[owner].moved(entry.request.chan)
    }

    // Hands the reply of the next step to the caller that made it. The reply to a step of the plane goes to none of them.
    pub(crate) fn take(&mut self, plan: &Plan, done: &Done)
        requires { (past : List Entry) × IsNextStep plan.now self.old past done.now }
        ensures { (past : List Entry) → IsNextStep plan.now self.old past done.now → CallersStand plan.now self.new (done.now ∷ past) }
    {
        let number = usize::from(done.actor.get());
        if number != self.by_number.len() {
            self.by_number[number].take(plan, done.reply).unwrap();
        }
    }
}

/// The callers of a plan after a run of it. The plane isn't asked, so a packet on its way costs nothing. An `Err` comes only for
/// want of memory.
pub fn replay(alloc: Global, plan: &Plan, run: &Record) -> Result<Callers, OutOfMemory>
    requires { IsRun (network_of plan.now) (reverse run.now.entries) }
    ensures { IfOk result (λ callers. CallersStand plan.now callers (reverse run.now.entries)) }
{
    let mut callers = Callers::new(alloc, plan)?;
    for done in run.entries() {
        callers.take(plan, done);
    }
    Ok(callers)
}

/// The callers of a plan after a run of it, as [`replay`] answers them. Each entry is shown to the watcher, which has seen nothing
/// before. An `Err` comes only for want of memory, and then nothing is said of the watcher.
pub fn replay_watched<W: Watch>(
    alloc: Global,
    plan: &Plan,
    run: &Record,
    watch: &mut W,
) -> Result<Callers, OutOfMemory>
    requires run { IsRun (network_of plan.now) (reverse run.now.entries) }
    requires fresh { W.saw watch.old plan.now [] }
    ensures seen { IfOk result (λ callers. IsSeen W.saw plan.now callers watch.new (reverse run.now.entries)) }
    ensures table { OnOk result (W.has_table watch.new ≡ W.has_table watch.old) }
{
    let mut callers = Callers::new(alloc, plan)?;
    for done in run.entries() {
        callers.take(plan, done);
        watch.see(plan, done)?;
    }
    Ok(callers)
}
