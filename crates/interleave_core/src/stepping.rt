//! The links and the actors of a plan, and the steps that they have made.
ghost use Rattle.std.specs.Prelude.{◌≡◌, ◌≤◌, ◌↔◌, [], ℕ, Some, IfOk, IfErr, OnErr, IsSome, IsTrue, length, reverse};
ghost use Rattle.net_units.specs.Numbers.{actor_number};
ghost use Rattle.call_script.specs.Parts.{PlanParts};
ghost use Rattle.call_script.specs.Tasks.{network_of};
ghost use Rattle.run_engine.specs.runs.Runs.{next_for};
ghost use Rattle.interleave_core.specs.channels.Laws.{IsGuaranteedRun};
ghost use Rattle.interleave_core.specs.Cores.{IsLeft, IsRightRefusal, CoreStands, run_in};
ghost use Rattle.run_engine.specs.schedules.Standing.{StepsTo};

use crate::refusal::CoreRefusal;
use call_script::Plan;
use link_steps::{Ask, Reply};
use net_units::{ActorNo, LinkNo, OutOfMemory};
use run_engine::{Engine, Watch};
use run_record::Record;
use std::alloc::Global;

/// The links and the actors of a plan, which each call is given, and the record of the steps that they have made.
///
/// What it keeps stands for the run that it has recorded (`CoreStands`): that is a run of the plan's network, so every law of
/// runs holds of it, in whatever order its actors make their steps.
#[derive(Drop)]
pub struct Core {
    pub(crate) engine: Engine,
    pub(crate) steps: Record,
}

impl Core {
    /// The links and the actors of a plan, before any step. An `Err` comes only for want of memory.
    pub fn new(alloc: Global, plan: &Plan) -> Result<Core, OutOfMemory>
        ensures stands { IfOk result (CoreStands plan.now) }
        ensures none { IfOk result (λ core. run_in core ≡ []) }
    {
        Ok(Core {
            engine: Engine::new(alloc, plan)?,
            steps: Record::new(alloc),
        })
    }

    /// Whether the actor has a step left: false where there is no such actor. The plan is the one that the core was made for.
    pub fn has_step(&self, plan: &Plan, actor: ActorNo) -> bool
        requires { CoreStands plan.now self.now }
        ensures { IsTrue result ↔ IsSome (next_for (network_of plan.now) (actor_number actor) (run_in self.now)) }
    {
        self.next_ask(plan, actor).is_some()
    }

    /// Makes the actor's next step, and records it: asks the link, and hands the actor the reply. The plan is the one that the core
    /// was made for. The run has the whole guarantee at its beginning and after each of its entries. A refusal leaves the run as it
    /// was: there is no such actor, or it has no step left, or memory ran out.
    pub fn step(&mut self, plan: &Plan, actor: ActorNo) -> Result<Reply, CoreRefusal>
        requires { CoreStands plan.now self.old }
        ensures stands { CoreStands plan.now self.new }
        ensures made { IfOk result (λ reply. StepsTo (network_of plan.now) actor (run_in self.old) reply (run_in self.new)) }
        ensures refused { IfErr result (IsRightRefusal plan.now (actor_number actor) (run_in self.old)) }
        ensures guaranteed { IsGuaranteedRun plan.now (run_in self.new) }
        ensures unchanged { OnErr result (run_in self.new ≡ run_in self.old) }
    {
        self.make_step(plan, actor)
    }

    /// The record of the core's steps. It is a run of the plan that the core was made for, with the whole guarantee at its beginning
    /// and after each of its entries.
    pub fn finish(self) -> Record
        ensures steps { result ≡ self.steps }
        ensures guaranteed { (parts : PlanParts) → CoreStands parts self → IsGuaranteedRun parts (reverse result.entries) }
    {
        self.steps
    }

    // The step, without what the laws of runs say of it.
    fn make_step(&mut self, plan: &Plan, actor: ActorNo) -> Result<Reply, CoreRefusal>
        requires { CoreStands plan.now self.old }
        ensures stands { CoreStands plan.now self.new }
        ensures made { IfOk result (λ reply. StepsTo (network_of plan.now) actor (run_in self.old) reply (run_in self.new)) }
        ensures refused { IfErr result (IsRightRefusal plan.now (actor_number actor) (run_in self.old)) }
        ensures unchanged { OnErr result (run_in self.new ≡ run_in self.old) }
    {
        match self.next_ask(plan, actor) {
            Some((link, ask)) => Ok(self.make(plan, actor, link, ask)?),
            None => Err(self.refusal(plan, actor)),
        }
    }

    // What the actor asks next, and of which link.
    fn next_ask(&self, plan: &Plan, actor: ActorNo) -> Option<(LinkNo, Ask)>
        requires { CoreStands plan.now self.now }
        ensures { result ≡ next_for (network_of plan.now) (actor_number actor) (run_in self.now) }
    {
        self.engine.next_ask(plan, actor)
    }

    // Makes the step that the actor asks for next, and records it.
    fn make(
        &mut self,
        plan: &Plan,
        actor: ActorNo,
        link: LinkNo,
        ask: Ask,
    ) -> Result<Reply, OutOfMemory>
        requires stands { CoreStands plan.now self.old }
        requires asks { next_for (network_of plan.now) (actor_number actor) (run_in self.old) ≡ Some (link, ask) }
        ensures stands { CoreStands plan.now self.new }
        ensures made { IfOk result (λ reply. StepsTo (network_of plan.now) actor (run_in self.old) reply (run_in self.new)) }
        ensures unchanged { OnErr result (run_in self.new ≡ run_in self.old) }
    {
        self.steps.reserve(1)?;
        let done = self.engine.make(plan, actor, link, ask)?;
        let reply = done.reply;
        self.steps.push(done);
        Ok(reply)
    }

    // Why there is no step of this actor.
    fn refusal(&self, plan: &Plan, actor: ActorNo) -> CoreRefusal
        ensures { IsLeft (length plan.now.callers) (actor_number actor) (run_in self.now) result }
    {
        let callers = plan.callers().len();
        if usize::from(actor.get()) > callers {
            return CoreRefusal::NoSuchActor {
                actors: callers as u32 + 1,
            };
        }
        CoreRefusal::NoStepLeft {
            made: self.steps.steps_of(actor),
        }
    }
}
