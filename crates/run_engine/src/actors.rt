//! The actors of a run, as they are kept.
ghost use Rattle.std.specs.Prelude.{◌≡◌, ℕ, ◌-◌, ◌<◌, ◌≤◌, ◌∷◌, [], List, IfOk, OnOk};
ghost use Rattle.net_units.specs.Numbers.{actor_at, actor_number};
ghost use Rattle.link_steps.specs.Quiet.{quiet_reply};
ghost use Rattle.call_script.specs.Parts.{PlanParts};
ghost use Rattle.call_script.specs.Plans.{IsPlan};
ghost use Rattle.call_script.specs.Tasks.{network_of};
ghost use Rattle.run_engine.specs.runs.Runs.{next_for};
ghost use Rattle.run_engine.specs.schedules.PlaneSteps.{IsPlaneStep};
ghost use Rattle.run_engine.specs.schedules.Standing.{ActorsStand, IsDueStep};
ghost use Rattle.run_record.specs.declared.done.Done.{Done as Entry};

use crate::callers::Callers;
use call_script::Plan;
use link_steps::{Ask, Reply};
use net_units::{ActorNo, LinkNo, OutOfMemory};
use run_record::Done;
use std::alloc::Global;
use tick_plane::Plane;

// The callers of a plan and the plane, on their way through a run.
#[derive(Drop)]
pub(crate) struct Actors {
    pub(crate) callers: Callers,
    pub(crate) plane: Plane,
}

impl Actors {
    // The actors of a plan, before they have asked anything.
    pub(crate) fn new(alloc: Global, plan: &Plan) -> Result<Actors, OutOfMemory>
        ensures stand { IfOk result (λ actors. ActorsStand plan.now actors []) }
        ensures valid { IfOk result (λ actors. IsPlan plan.now) }
    {
        let callers = Callers::new(alloc, plan)?;
        let links = plan.links().len() as u32;
        let plane = Plane::new(alloc, links, plan.rounds() + plan.tail())?;
        Ok(Actors { callers, plane })
    }

    // What the actor asks next, and of which link.
    pub(crate) fn next_ask(&self, plan: &Plan, actor: ActorNo) -> Option<(LinkNo, Ask)>
        requires { (run : List Entry) × ActorsStand plan.now self.now run }
        ensures { (run : List Entry) → ActorsStand plan.now self.now run → result ≡ next_for (network_of plan.now) (actor_number actor) run }
    {
        let number = usize::from(actor.get());
        if number == self.callers.by_number.len() {
            return self.plane.next_ask();
        }
        self.callers.by_number.get(number)?.next_ask(plan)
    }

    // Makes room for what the next step sets on its way.
    pub(crate) fn ready(&mut self) -> Result<(), OutOfMemory>
        ensures room { OnOk result (self.new.plane.links - self.new.plane.at.ticked ≤ self.new.plane.spare) }
        ensures stand { (parts : PlanParts) (run : List Entry) → ActorsStand parts self.old run → ActorsStand parts self.new run }
    {
        self.plane.ready()
    }

    // Hands the reply of the next step to the actor that made it.
    pub(crate) fn take(&mut self, plan: &Plan, done: &Done)
        requires { (past : List Entry) × IsDueStep plan.now self.old past done.now }
        ensures { (past : List Entry) → IsDueStep plan.now self.old past done.now → ActorsStand plan.now self.new (done.now ∷ past) }
    {
        let number = usize::from(done.actor.get());
        if number == self.callers.by_number.len() {
            self.take_plane(&done.reply);
        } else {
            self.callers.take(plan, done);
        }
    }

    // Hands the plane the reply of its next step.
    pub(crate) fn take_plane(&mut self, reply: &Reply)
        requires { (parts : PlanParts) × (past : List Entry) × (done : Entry) × IsPlaneStep parts self.old past done reply.now }
        ensures { (parts : PlanParts) (past : List Entry) (done : Entry) → IsPlaneStep parts self.old past done reply.now → ActorsStand parts self.new (done ∷ past) }
    {
        self.plane.take_expected(reply);
    }

    // Lets the plane make its next step, a tick in which nothing happens.
    pub(crate) fn pass_plane(&mut self)
        requires { (parts : PlanParts) × (past : List Entry) × (done : Entry) × (clock : ℕ) × IsPlaneStep parts self.old past done (quiet_reply clock) }
        ensures { (parts : PlanParts) (past : List Entry) (done : Entry) (clock : ℕ) → IsPlaneStep parts self.old past done (quiet_reply clock) → ActorsStand parts self.new (done ∷ past) }
    {
        self.plane.pass();
    }
}

/// The actor with this number: the callers of a plan have the numbers from 0 on, in their order, and the plane has the next.
pub fn actor_of(number: usize) -> ActorNo
    requires { number < 65 }
    ensures { result ≡ actor_at number }
{
    match ActorNo::new(number as u8) {
        Some(actor) => actor,
        None => unreachable!(),
    }
}
