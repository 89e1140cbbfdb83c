//! A run that is made step by step, and the schedule that counts its steps.
ghost use Rattle.std.specs.Prelude.{◌≡◌, ◌*◌, ◌^◌, ◌<◌, ◌≤◌, ◌++◌, true, List, [], IfOk, OnOk, length};
ghost use Rattle.net_units.specs.Numbers.{actor_number};
ghost use Rattle.call_script.specs.Parts.{PlanParts};
ghost use Rattle.run_engine.specs.schedules.Resting.{EngineRests};
ghost use Rattle.run_engine.specs.schedules.Schedules.{repeated};
ghost use Rattle.call_times.specs.Makings.{HasRun, HaveActors, IsBetween, IsInRound, IsTimeFor, turns_made};
ghost use Rattle.call_times.specs.declared.times.Times.{Times as Given};

use crate::parts::is_part;
use crate::times::TimesFault;
use call_script::{Do, Op, Plan};
use link_steps::Reply;
use net_units::{ActorNo, OutOfMemory};
use run_engine::{Engine, plane_of};
use std::alloc::Global;

// The most steps of an item.
const MOST_STEPS: u64 = 1_048_576;

// A run under way, and its schedule so far: the items that are complete, and one of so many steps of the last actor.
#[derive(Drop)]
pub(crate) struct Making {
    pub(crate) engine: Engine,
    pub(crate) items: Vec<Do>,
    // of each of these items the tick at which it began
    pub(crate) ticks: Vec<u64>,
    pub(crate) actor: ActorNo,
    pub(crate) count: u64,
    pub(crate) tick: u64,
}

impl Making {
    // The run before any step.
    pub(crate) fn new(alloc: Global, plan: &Plan) -> Result<Making, OutOfMemory>
        ensures { IfOk result (λ making. (times : List Given) → IsBetween plan.now times making) }
    {
        Ok(Making {
            engine: Engine::new(alloc, plan)?,
            items: Vec::new(alloc),
            ticks: Vec::new(alloc),
            actor: plane_of(plan),
            count: 0,
            tick: 0,
        })
    }

    // The actor makes its next step, where that is a part of this operation, and its reply is answered.
    pub(crate) fn make_part(
        &mut self,
        plan: &Plan,
        actor: ActorNo,
        op: &Op,
    ) -> Result<Option<Reply>, OutOfMemory>
        requires { (times : List Given) × IsTimeFor plan.now times self.old actor op.now }
        ensures { OnOk result ((times : List Given) → IsTimeFor plan.now times self.old actor op.now → IsTimeFor plan.now times self.new actor op.now) }
    {
        match self.engine.next_ask(plan, actor) {
            Some((link, ask)) => {
                if !is_part(op, link, &ask) {
                    return Ok(None);
                }
                let tick = self.engine.round();
                let done = self.engine.make(plan, actor, link, ask)?;
                self.add(actor, 1, tick)?;
                Ok(Some(done.reply))
            }
            None => Ok(None),
        }
    }

    // The plane makes all rounds before this one. Answers whether it has so many.
    pub(crate) fn play_to(&mut self, plan: &Plan, round: u64) -> Result<bool, OutOfMemory>
        requires { (times : List Given) × IsBetween plan.now times self.old }
        ensures made { OnOk result ((times : List Given) → IsBetween plan.now times self.old → HasRun plan.now times self.new) }
        ensures between { IfOk result (λ all. all ≡ true → (times : List Given) → IsBetween plan.now times self.old → IsBetween plan.now times self.new) }
    {
        // a plan has fewer rounds
        for _ in 0..u64::MAX {
            if self.engine.round() >= round {
                return Ok(true);
            }
            if !self.play_some(plan, round)? {
                return Ok(false);
            }
        }
        Ok(false)
    }

    // The plane makes rounds before this one at once where all rests, or else one whole round. Answers whether it has one left.
    fn play_some(&mut self, plan: &Plan, round: u64) -> Result<bool, OutOfMemory>
        requires { (times : List Given) × IsBetween plan.now times self.old }
        ensures made { OnOk result ((times : List Given) → IsBetween plan.now times self.old → HasRun plan.now times self.new) }
        ensures between { IfOk result (λ more. more ≡ true → (times : List Given) → IsBetween plan.now times self.old → IsBetween plan.now times self.new) }
    {
        let links = plan.links().len() as u64;
        let now = self.engine.round();
        let most = round.saturating_sub(now).min(MOST_STEPS / links);
        let rounds = rounds_at_most(&self.engine, most);
        if rounds > 0 {
            self.rest(plan, rounds, links, now)?;
            return Ok(true);
        }
        self.make_round(plan)
    }

    // The plane makes this many rounds, in which all rests, the first of them at this tick.
    fn rest(&mut self, plan: &Plan, rounds: u64, links: u64, now: u64) -> Result<(), OutOfMemory>
        requires between { (times : List Given) × IsBetween plan.now times self.old }
        requires rests { EngineRests self.old.engine rounds }
        requires links { links ≡ length plan.now.links }
        requires few { rounds * links < 2 ^ 64 }
        ensures { OnOk result ((times : List Given) → IsBetween plan.now times self.old → IsBetween plan.now times self.new) }
    {
        self.engine.stride(rounds);
        self.add(plane_of(plan), rounds * links, now)?;
        Ok(())
    }

    // The plane makes the steps of its round. Answers whether it has any.
    fn make_round(&mut self, plan: &Plan) -> Result<bool, OutOfMemory>
        requires { (times : List Given) × IsBetween plan.now times self.old }
        ensures made { OnOk result ((times : List Given) → IsBetween plan.now times self.old → HasRun plan.now times self.new) }
        ensures between { IfOk result (λ more. more ≡ true → (times : List Given) → IsBetween plan.now times self.old → IsBetween plan.now times self.new) }
    {
        let round = self.engine.round();
        // a round has fewer steps
        for _ in 0..u64::MAX {
            if !self.make_step(plan, round)? {
                return Ok(false);
            }
            if self.engine.round() != round {
                return Ok(true);
            }
        }
        Ok(false)
    }

    // The plane makes its next step. Answers whether it has one.
    fn make_step(&mut self, plan: &Plan, round: u64) -> Result<bool, OutOfMemory>
        requires stands { (times : List Given) × IsInRound plan.now times self.old round }
        requires round { self.old.engine.actors.plane.at.round ≡ round }
        ensures { OnOk result ((times : List Given) → IsInRound plan.now times self.old round → IsInRound plan.now times self.new round) }
    {
        let plane = plane_of(plan);
        match self.engine.next_ask(plan, plane) {
            Some((link, ask)) => {
                self.engine.make(plan, plane, link, ask)?;
                self.add(plane, 1, round)?;
                Ok(true)
            }
            None => Ok(false),
        }
    }

    // The schedule goes on by these steps of an actor, the first of them at this tick.
    fn add(&mut self, actor: ActorNo, steps: u64, tick: u64) -> Result<(), OutOfMemory>
        ensures engine { self.new.engine ≡ self.old.engine }
        ensures turns { OnOk result (turns_made self.new ≡ turns_made self.old ++ repeated steps actor) }
        ensures actors { OnOk result ((parts : PlanParts) → HaveActors parts self.old → actor_number actor ≤ length parts.callers → HaveActors parts self.new) }
    {
        if self.actor.get() == actor.get() && steps <= MOST_STEPS.saturating_sub(self.count) {
            self.count += steps;
            return Ok(());
        }
        self.end_item()?;
        self.actor = actor;
        self.count = steps;
        self.tick = tick;
        Ok(())
    }

    // The item under way is complete.
    pub(crate) fn end_item(&mut self) -> Result<(), OutOfMemory>
        ensures engine { self.new.engine ≡ self.old.engine }
        ensures turns { OnOk result (turns_made self.new ≡ turns_made self.old) }
        ensures none { OnOk result (self.new.count ≡ 0) }
        ensures actors { OnOk result ((parts : PlanParts) → HaveActors parts self.old → HaveActors parts self.new) }
    {
        if self.count > 0 {
            self.items.push(Do {
                line: 0,
                actor: self.actor,
                count: self.count,
            })?;
            self.ticks.push(self.tick)?;
            self.count = 0;
        }
        Ok(())
    }
}

// How many rounds the engine rests for, at most this many.
fn rounds_at_most(engine: &Engine, most: u64) -> u64
    ensures most { result ≤ most }
    ensures rests { 1 ≤ result → EngineRests engine.now result }
{
    engine.rounds_at_rest().min(most)
}
