//! The links and the actors of a plan on their way through a run, which they don't record.
ghost use Rattle.std.specs.Prelude.{◌≡◌, ◌-◌, ◌≤◌, ◌∷◌, [], true, List, IfOk, OnErr, length, nat_eq};
ghost use Rattle.net_units.specs.Numbers.{actor_number};
ghost use Rattle.net_units.specs.declared.numbers.ActorNo.{ActorNo as Actor};
ghost use Rattle.link_server.specs.Asks.{IsArriveOrTick};
ghost use Rattle.link_steps.specs.declared.asks.Ask.TheVariants.{Tick as AskTick};
ghost use Rattle.link_steps.specs.Quiet.{quiet_reply};
ghost use Rattle.call_script.specs.Parts.{PlanParts};
ghost use Rattle.call_script.specs.Tasks.{network_of};
ghost use Rattle.run_engine.specs.schedules.PlaneSteps.{IsAnswered};
ghost use Rattle.run_engine.specs.schedules.Resting.{EngineRests, MakesStride, RestsAt};
ghost use Rattle.run_engine.specs.runs.Runs.{next_for};
ghost use Rattle.run_engine.specs.schedules.Standing.{EngineStands, IsAboutTo, MakesStep};
ghost use Rattle.run_record.specs.declared.done.Done.{Done as Entry};

use crate::actors::Actors;
use crate::callers::Callers;
use crate::links::{new_links, rest_link, rest_links, step_link, step_link_into, ticks_at_rest};
use call_script::Plan;
use link_quota::AnyLink;
use link_steps::{Ask, Reply};
use net_units::{ActorNo, LinkNo, OutOfMemory};
use run_record::Done;
use std::alloc::Global;
use tick_plane::Plane;

/// The links and the actors of a plan, which each call is given. The engine's clauses hold for every run that it stands for
/// (`EngineStands`), so whoever has it may record the run, tally it, or send its steps elsewhere.
#[derive(Drop)]
pub struct Engine {
    pub(crate) links: Vec<AnyLink>,
    pub(crate) actors: Actors,
}

impl Engine {
    /// The links and the actors of a plan, before any step. An `Err` comes only for want of memory.
    pub fn new(alloc: Global, plan: &Plan) -> Result<Engine, OutOfMemory>
        ensures { IfOk result (λ engine. EngineStands plan.now engine []) }
    {
        let links = new_links(alloc, plan)?;
        let actors = Actors::new(alloc, plan)?;
        Ok(Engine { links, actors })
    }

    /// What the actor asks next, and of which link: None where it has no step left.
    pub fn next_ask(&self, plan: &Plan, actor: ActorNo) -> Option<(LinkNo, Ask)>
        requires { (run : List Entry) × EngineStands plan.now self.now run }
        ensures { (run : List Entry) → EngineStands plan.now self.now run → result ≡ next_for (network_of plan.now) (actor_number actor) run }
    {
        self.actors.next_ask(plan, actor)
    }

    /// Makes the step that the actor asks for next. An `Err` comes only for want of memory, and then the engine stands for the runs
    /// that it stood for before.
    pub fn make(
        &mut self,
        plan: &Plan,
        actor: ActorNo,
        link: LinkNo,
        ask: Ask,
    ) -> Result<Done, OutOfMemory>
        requires { (run : List Entry) × IsAboutTo plan.now self.old run actor link ask }
        ensures made { IfOk result (λ done. (run : List Entry) → IsAboutTo plan.now self.old run actor link ask → MakesStep plan.now self.new run actor done) }
        ensures memory { OnErr result ((run : List Entry) → EngineStands plan.now self.old run → EngineStands plan.now self.new run) }
    {
        let reply = self.ask_link(link, &ask)?;
        let done = Done {
            actor,
            link,
            ask,
            reply,
        };
        self.actors.take(plan, &done);
        Ok(done)
    }

    // Asks the link what an actor asks next, whose reply the actor hasn't got then.
    #[inline(always)]
    pub(crate) fn ask_link(&mut self, link: LinkNo, ask: &Ask) -> Result<Reply, OutOfMemory>
        requires { (parts : PlanParts) × (run : List Entry) × (actor : Actor) × IsAboutTo parts self.old run actor link ask.now }
        ensures answered { IfOk result (λ reply. (parts : PlanParts) (run : List Entry) (actor : Actor) → IsAboutTo parts self.old run actor link ask.now → IsAnswered parts self.new run (record { actor = actor; link = link; ask = ask.now; reply = reply })) }
        ensures memory { OnErr result ((parts : PlanParts) (run : List Entry) → EngineStands parts self.old run → EngineStands parts self.new run) }
    {
        self.actors.ready()?;
        step_link(&mut self.links, usize::from(link.get()), ask)
    }

    // The same of an arrive or a tick, where the plane has room for what the step sets on its way. It never wants memory.
    #[inline(always)]
    pub(crate) fn ask_into(&mut self, link: LinkNo, ask: &Ask, reply: &mut Reply)
        requires about { (parts : PlanParts) × (run : List Entry) × (actor : Actor) × IsAboutTo parts self.old run actor link ask.now }
        requires sure { IsArriveOrTick ask.now }
        requires room { self.old.actors.plane.links - self.old.actors.plane.at.ticked ≤ self.old.actors.plane.spare }
        ensures { (parts : PlanParts) (run : List Entry) (actor : Actor) → IsAboutTo parts self.old run actor link ask.now → IsAnswered parts self.new run (record { actor = actor; link = link; ask = ask.now; reply = reply.new }) }
    {
        step_link_into(&mut self.links, usize::from(link.get()), ask, reply);
    }

    // Whether nothing falls due in the next tick of this link, as far as the link knows without a look at its rows and packets.
    #[inline(always)]
    pub(crate) fn rests_at(&self, link: LinkNo) -> bool
        ensures { result ≡ true → RestsAt self.now link }
    {
        match self.links.get(usize::from(link.get())) {
            Some(one) => one.rests(),
            None => false,
        }
    }

    // Has the link make the tick that an actor asks next, in which nothing falls due there. Its reply, that of a quiet tick, tells
    // the clock that this answers, and the actor hasn't got it then.
    #[inline(always)]
    pub(crate) fn pass_link(&mut self, link: LinkNo) -> Result<u64, OutOfMemory>
        requires about { (parts : PlanParts) × (run : List Entry) × (actor : Actor) × IsAboutTo parts self.old run actor link AskTick }
        requires rests { RestsAt self.old link }
        ensures { IfOk result (λ clock. (parts : PlanParts) (run : List Entry) (actor : Actor) → IsAboutTo parts self.old run actor link AskTick → IsAnswered parts self.new run (record { actor = actor; link = link; ask = AskTick; reply = quiet_reply clock })) }
    {
        self.actors.ready()?;
        Ok(rest_link(&mut self.links, usize::from(link.get())))
    }

    /// The number of the plane's round.
    pub fn round(&self) -> u64
        ensures { result ≡ self.now.actors.plane.at.round }
    {
        self.actors.plane.round()
    }

    /// Whether the plane's round hasn't begun: no link has made its tick.
    pub fn starts_round(&self) -> bool
        ensures { result ≡ nat_eq self.now.actors.plane.at.ticked 0 }
    {
        self.actors.plane.ticked() == 0
    }

    /// How many packets are on their way.
    pub fn flights(&self) -> usize
        ensures { result ≡ length self.now.actors.plane.at.flights }
    {
        self.actors.plane.flights()
    }

    /// For how many rounds it rests: in them no packet reaches a link, and nothing falls due in a link. It is 0 in the middle of a
    /// round, and where the engine can't tell.
    pub fn rounds_at_rest(&self) -> u64
        ensures { 1 ≤ result → EngineRests self.now result }
    {
        let quiet = self.actors.plane.quiet_rounds();
        if quiet == 0 {
            return 0;
        }
        ticks_at_rest(&self.links, quiet)
    }

    /// Makes this many rounds, for which it rests, in one stride: it then stands for its runs continued by as many quiet rounds, in
    /// each of which the plane makes one turn for each link. It takes no memory.
    pub fn stride(&mut self, rounds: u64)
        requires stands { (parts : PlanParts) × (run : List Entry) × EngineStands parts self.old run }
        requires rests { EngineRests self.old rounds }
        ensures { (parts : PlanParts) (run : List Entry) → EngineStands parts self.old run → MakesStride parts self.new run rounds }
    {
        rest_links(&mut self.links, rounds);
        self.actors.plane.stride(rounds);
    }

    /// Its links, its plane and its callers, each on its own, for whoever makes the plane's rounds in another way.
    pub fn into_parts(self) -> (Vec<AnyLink>, Plane, Callers)
        ensures links { result.0 ≡ self.links }
        ensures plane { result.1 ≡ self.actors.plane }
        ensures callers { result.2 ≡ self.actors.callers }
    {
        let Engine { links, actors } = self;
        let Actors { callers, plane } = actors;
        (links, plane, callers)
    }

    /// The engine of these links, this plane and these callers: what [`Engine::into_parts`] takes apart, put together again.
    pub fn from_parts(links: Vec<AnyLink>, plane: Plane, callers: Callers) -> Engine
        ensures links { result.links ≡ links }
        ensures plane { result.actors.plane ≡ plane }
        ensures callers { result.actors.callers ≡ callers }
    {
        Engine {
            links,
            actors: Actors { callers, plane },
        }
    }

    /// The callers after the steps that it has made. The links and the plane are given up.
    pub fn into_callers(self) -> Callers
        ensures { result ≡ self.actors.callers }
    {
        let Engine { actors, .. } = self;
        let Actors { callers, .. } = actors;
        callers
    }
}
