//! A watcher of a run as it is made.
ghost use Rattle.std.specs.Prelude.{◌≡◌, ◌*◌, ◌∷◌, Bool, true, List, OnOk, length, reverse};
ghost use Rattle.net_units.specs.Numbers.{actor_number};
ghost use Rattle.call_script.specs.Parts.{PlanParts};
ghost use Rattle.call_script.specs.Tasks.{network_of};
ghost use Rattle.run_engine.specs.schedules.Lagging.{IsNextTold, LagsBy, MayLag};
ghost use Rattle.run_engine.specs.schedules.PlaneSteps.{plane_step};
ghost use Rattle.run_engine.specs.schedules.Quiet.{rested, the_plane};
ghost use Rattle.run_engine.specs.schedules.Resting.{EngineRests};
ghost use Rattle.run_engine.specs.schedules.Schedules.{repeated};
ghost use Rattle.run_engine.specs.schedules.Watching.{GoesOn, IsAsked, IsNextSeen, IsRestSeen, PlaysOn, WatchStands};
ghost use Rattle.link_steps.specs.declared.asks.Ask.TheVariants.{Tick as AskTick};
ghost use Rattle.link_steps.specs.Quiet.{quiet_reply};
ghost use Rattle.run_record.specs.Runs.{replies_to};
ghost use Rattle.run_record.specs.declared.done.Done.{Done as Entry};

use crate::engine::Engine;
use crate::quiet::{plane_of, record_rounds};
use call_script::Plan;
use link_steps::{Ask, Reply};
use net_units::{ActorNo, LinkNo, OutOfMemory};
use run_record::{Done, Record};

/// A watcher of a run of a plan as it is made: it sees each step, in the order of time, and keeps what it wants of it.
pub trait Watch: Drop {
    /// Whether it has seen this run of a plan, newest first.
    ghost saw: { Self → PlanParts → List Entry → Type 0 };

    /// Whether it has seen the first of these runs whole, and what the plane's steps have told from there to the second. One that never
    /// lags has seen the second whole.
    ghost lags: { Self → PlanParts → List Entry → List Entry → Type 0 };

    /// Whether it keeps what a table of the run's packets tells. That never changes.
    ghost has_table: { Self → Bool };

    /// Sees the next step of the run. An `Err` comes only for want of memory, and then nothing more is said of the watcher.
    fn see(&mut self, plan: &Plan, done: &Done) -> Result<(), OutOfMemory>
        requires { (past : List Entry) × IsNextSeen saw plan.now self.old past done.now }
        ensures seen { OnOk result ((past : List Entry) → IsNextSeen saw plan.now self.old past done.now → saw self.new plan.now (done.now ∷ past)) }
        ensures table { OnOk result (has_table self.new ≡ has_table self.old) };

    /// Sees the plane's next step, which asks this link this and gets this reply, as [`Watch::see`] does its entry.
    fn see_plane(
        &mut self,
        plan: &Plan,
        link: LinkNo,
        ask: &Ask,
        reply: &Reply,
    ) -> Result<(), OutOfMemory>
        requires { (past : List Entry) × IsNextSeen saw plan.now self.old past (plane_step (network_of plan.now) link ask.now reply.now) }
        ensures seen { OnOk result ((past : List Entry) → IsNextSeen saw plan.now self.old past (plane_step (network_of plan.now) link ask.now reply.now) → saw self.new plan.now (plane_step (network_of plan.now) link ask.now reply.now ∷ past)) }
        ensures table { OnOk result (has_table self.new ≡ has_table self.old) }
    {
        let done = Done {
            actor: plane_of(plan),
            link,
            ask: *ask,
            reply: *reply,
        };
        self.see(plan, &done)
    }

    /// Sees the plane's next step, the tick of this link at this clock, in which nothing happens, as [`Watch::see`] does its entry.
    fn passed(&mut self, plan: &Plan, link: LinkNo, clock: u64) -> Result<(), OutOfMemory>
        requires { (past : List Entry) × IsNextSeen saw plan.now self.old past (plane_step (network_of plan.now) link AskTick (quiet_reply clock)) }
        ensures seen { OnOk result ((past : List Entry) → IsNextSeen saw plan.now self.old past (plane_step (network_of plan.now) link AskTick (quiet_reply clock)) → saw self.new plan.now (plane_step (network_of plan.now) link AskTick (quiet_reply clock) ∷ past)) }
        ensures table { OnOk result (has_table self.new ≡ has_table self.old) }
    {
        let reply = Reply::Ticked {
            clock,
            full: 0,
            sent: None,
            best_sent: false,
            best_lost: false,
        };
        self.see_plane(plan, link, &Ask::Tick, &reply)
    }

    /// Sees the next rounds of the run at once: this many quiet ones, the first of which has this number. An `Err` comes only for
    /// want of memory, and then nothing more is said of the watcher.
    fn rested(&mut self, plan: &Plan, first: u64, rounds: u64) -> Result<(), OutOfMemory>
        requires { (past : List Entry) × IsRestSeen saw plan.now self.old past first rounds }
        ensures seen { OnOk result ((past : List Entry) → IsRestSeen saw plan.now self.old past first rounds → saw self.new plan.now (rested (network_of plan.now) rounds past)) }
        ensures table { OnOk result (has_table self.new ≡ has_table self.old) };

    /// Whether it may lag: of the plane's steps it need only see the ticks that tell something ([`Watch::see_told`]), and catches up with
    /// the others later ([`Watch::catch_up`]).
    fn may_lag(&self) -> bool
        ensures { result ≡ true → MayLag saw lags };

    /// Sees the plane's tick of this link, which tells this, while it lags. An `Err` comes only for want of memory, and then nothing
    /// more is said of the watcher.
    fn see_told(&mut self, plan: &Plan, link: LinkNo, reply: &Reply) -> Result<(), OutOfMemory>
        requires { (past : List Entry) × ((run : List Entry) × IsNextTold lags plan.now self.old past run link reply.now) }
        ensures seen { OnOk result ((past run : List Entry) → IsNextTold lags plan.now self.old past run link reply.now → lags self.new plan.now past (plane_step (network_of plan.now) link AskTick reply.now ∷ run)) }
        ensures table { OnOk result (has_table self.new ≡ has_table self.old) };

    /// Catches up with so many of the plane's steps, after which each link's clock is this.
    fn catch_up(&mut self, plan: &Plan, clock: u64, steps: u64)
        requires { (past : List Entry) × ((run : List Entry) × LagsBy lags plan.now self.old past run clock steps) }
        ensures seen { (past run : List Entry) → LagsBy lags plan.now self.old past run clock steps → saw self.new plan.now run }
        ensures table { has_table self.new ≡ has_table self.old };

    /// How many steps this actor made in the run that it has seen.
    fn steps_of(&self, actor: ActorNo) -> u64
        ensures { (parts : PlanParts) (run : List Entry) → saw self.now parts run → result ≡ length (replies_to (actor_number actor) run) };
}

// A record sees a run by recording it.
impl Watch for Record {
    ghost saw = { λ kept parts run. reverse kept.entries ≡ run };

    ghost lags = { λ kept parts past run. reverse kept.entries ≡ run };

    ghost has_table = { λ kept. true };

    fn see(&mut self, _plan: &Plan, done: &Done) -> Result<(), OutOfMemory> {
        self.reserve(1)?;
        self.push(*done);
        Ok(())
    }

    fn rested(&mut self, plan: &Plan, first: u64, rounds: u64) -> Result<(), OutOfMemory> {
        let links = plan.links().len() as u32;
        record_rounds(self, plane_of(plan), links, first, rounds)
    }

    fn may_lag(&self) -> bool {
        false
    }

    fn see_told(&mut self, plan: &Plan, link: LinkNo, reply: &Reply) -> Result<(), OutOfMemory> {
        self.see_plane(plan, link, &Ask::Tick, reply)
    }

    // It has seen all of them.
    fn catch_up(&mut self, _plan: &Plan, _clock: u64, _steps: u64) {}

    fn steps_of(&self, actor: ActorNo) -> u64 {
        steps_among(self.entries(), actor)
    }
}

// How many of these steps the actor has made.
pub(crate) fn steps_among(entries: &[Done], actor: ActorNo) -> u64
    ensures { result ≡ length (replies_to (actor_number actor) (reverse entries.now)) }
{
    let mut made = 0;
    for done in entries {
        if done.actor.get() == actor.get() {
            made += 1;
        }
    }
    made
}

/// Makes the step that the actor asks for next, and shows it to the watcher. An `Err` comes only for want of memory.
pub fn make_watched<W: Watch>(
    engine: &mut Engine,
    watch: &mut W,
    plan: &Plan,
    actor: ActorNo,
    link: LinkNo,
    ask: Ask,
) -> Result<(), OutOfMemory>
    requires { (run : List Entry) × IsAsked W.saw plan.now engine.old watch.old run actor link ask }
    ensures goes_on { OnOk result ((past : List Entry) → IsAsked W.saw plan.now engine.old watch.old past actor link ask → GoesOn W.saw plan.now engine.new watch.new past actor) }
    ensures table { OnOk result (W.has_table watch.new ≡ W.has_table watch.old) }
{
    let done = engine.make(plan, actor, link, ask)?;
    watch.see(plan, &done)?;
    Ok(())
}

/// Makes this many rounds, for which the engine rests, in one stride, and shows them to the watcher. An `Err` comes only for want of
/// memory.
pub fn stride_watched<W: Watch>(
    engine: &mut Engine,
    watch: &mut W,
    plan: &Plan,
    rounds: u64,
) -> Result<(), OutOfMemory>
    requires stand { (run : List Entry) × WatchStands W.saw plan.now engine.old watch.old run }
    requires rests { EngineRests engine.old rounds }
    ensures plays { OnOk result ((past : List Entry) → WatchStands W.saw plan.now engine.old watch.old past → PlaysOn W.saw plan.now engine.new watch.new past (repeated (rounds * length plan.now.links) (the_plane (network_of plan.now)))) }
    ensures table { OnOk result (W.has_table watch.new ≡ W.has_table watch.old) }
{
    let first = engine.round();
    engine.stride(rounds);
    watch.rested(plan, first, rounds)?;
    Ok(())
}
