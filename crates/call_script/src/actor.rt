//! A caller on its way through its script.
ghost use Rattle.std.specs.Prelude.{◌≡◌, ◌↔◌, ◌+◌, ◌-◌, ◌<◌, ◌≤◌, ℕ, [], ◌∷◌, None, Some, true, List, IsTrue, IsOk, IfOk, IfErr, IfSome, IfNone, OnOk, OnErr, length, map, drop, option_map};
ghost use Rattle.std.specs.List.{slice_get};
ghost use Rattle.net_units.specs.Numbers.{actor_number, channel_number};
ghost use Rattle.hop_reservation.specs.Routes.{IsRoute};
ghost use Rattle.link_steps.specs.Lists.{Each};
ghost use Rattle.link_steps.specs.declared.replies.Reply.{Reply as Replied};
ghost use Rattle.setup_protocol.specs.State.{outcome_of};
ghost use Rattle.call_script.specs.Channels.{AreTold};
ghost use Rattle.call_script.specs.Parts.{PlanParts};
ghost use Rattle.call_script.specs.Plans.{HasTerms};
ghost use Rattle.call_script.specs.Scripts.{Learnt, ask_at, begun, expects, from_step, is_established, is_ready, moved_off, outcome_in, ready, takes_step};
ghost use Rattle.call_script.specs.Tasks.{request_of, send_on, task_of, tasks_of};
ghost use Rattle.call_script.specs.Work.{HasRoute};

use crate::channels::Channels;
use crate::entries::RequestEntry;
use crate::operations::Op;
use crate::plan::Plan;
use crate::tasks::Task;
use crate::work::{Turn, Work};
use channel_move::Shifted;
use link_steps::{Ask, Reply, Unexpected};
use net_units::{ActorNo, ChanNo, LinkNo, OutOfMemory};
use setup_protocol::{Request, Verdict};
use std::alloc::Global;

/// A caller on its way through its script. Each call is given the plan, which has the script.
///
/// It stands for the replies that it has taken.
#[derive(Drop)]
pub struct Actor {
    pub(crate) caller: ActorNo,
    // The operation after the one under way.
    pub(crate) next: usize,
    pub(crate) work: Work,
    // What was learnt so far.
    pub(crate) channels: Channels,
}

impl Actor {
    ghost use Rattle.call_script.specs.Standing.{CallerStands, StandsAt, HasAskLeft, if_step, standing_in};

    /// A caller of the plan that has asked nothing yet. It takes all the memory that it needs; an `Err` comes only for want of memory.
    pub fn new(alloc: Global, plan: &Plan, caller: ActorNo) -> Result<Actor, OutOfMemory>
        requires { actor_number caller < length plan.now.callers }
        ensures caller { IfOk result (λ actor. actor.caller ≡ caller) }
        ensures stands { IfOk result (λ actor. CallerStands plan.now actor []) }
    {
        let requests = plan.requests();
        let channels = Channels::new(alloc, requests.len())?;
        let mut actor = Actor {
            caller,
            next: 0,
            work: Work::Idle,
            channels,
        };
        actor.begin(requests, ops_of(plan, caller));
        Ok(actor)
    }

    /// The next ask, and the link that it goes to; None exactly at the end of the script. The plan is the one that the actor was made for.
    pub fn next_ask(&self, _plan: &Plan) -> Option<(LinkNo, Ask)>
        requires { (replies : List Replied) × CallerStands _plan.now self.now replies }
        ensures { (replies : List Replied) → CallerStands _plan.now self.now replies → result ≡ ask_at (standing_in _plan.now (actor_number self.now.caller) replies) }
    {
        self.work.next_ask()
    }

    /// What the request of this channel has come to by the replies taken: None while its setup has an ask left, and where
    /// this caller doesn't open it.
    pub fn verdict(&self, chan: ChanNo) -> Option<Verdict>
        ensures verdict { (parts : PlanParts) (replies : List Replied) → CallerStands parts self.now replies → option_map outcome_of result ≡ outcome_in chan (standing_in parts (actor_number self.now.caller) replies).outcomes }
    {
        self.channels.of(chan).verdict
    }

    /// What the move from this channel has come to by the replies taken: None where none was made, or one is under way.
    pub fn moved(&self, chan: ChanNo) -> Option<Shifted>
        ensures moved { (parts : PlanParts) (replies : List Replied) → CallerStands parts self.now replies → result ≡ moved_off chan (standing_in parts (actor_number self.now.caller) replies).outcomes }
    {
        self.channels.of(chan).moved
    }

    /// Takes the reply to the next ask. A reply that doesn't answer that ask changes nothing. An ask has to be left. The call takes
    /// no memory.
    pub fn take(&mut self, plan: &Plan, reply: Reply) -> Result<(), Unexpected>
        requires { (replies : List Replied) × HasAskLeft plan.now self.old replies }
        ensures caller { self.new.caller ≡ self.old.caller }
        ensures expected { (replies : List Replied) → CallerStands plan.now self.old replies → IsOk result ↔ IsTrue (expects (standing_in plan.now (actor_number self.old.caller) replies) reply) }
        ensures taken { OnOk result ((replies : List Replied) → CallerStands plan.now self.old replies → CallerStands plan.now self.new (reply ∷ replies)) }
        ensures unexpected { IfErr result (λ odd. (odd.reply ≡ reply) × ((replies : List Replied) → CallerStands plan.now self.old replies → option_map (λ to. to.1) (ask_at (standing_in plan.now (actor_number self.old.caller) replies)) ≡ Some odd.ask)) }
        ensures unchanged { OnErr result (self.new ≡ self.old) }
    {
        let ops = ops_of(plan, self.caller);
        let requests = plan.requests();
        match self.work.take(reply) {
            Err(odd) => Err(odd),
            Ok(turn) => match &turn {
                Turn::On => Ok(()),
                Turn::Over => {
                    self.begin(requests, ops);
                    Ok(())
                }
                Turn::Settled(known) => {
                    self.channels.note(known);
                    self.begin(requests, ops);
                    Ok(())
                }
            },
        }
    }

    // Begins the first task, from the next operation on, that takes a step.
    fn begin(&mut self, requests: &[RequestEntry], ops: &[Op])
        requires terms { Each HasTerms requests.now }
        requires within { self.old.next ≤ length ops.now }
        ensures caller { self.new.caller ≡ self.old.caller }
        ensures stands { (outcomes : List Learnt) → AreTold self.old.channels.by_number.items outcomes → length self.old.channels.by_number.items ≡ length requests.now → StandsAt (map request_of requests.now) ops.now self.new (begun outcomes (tasks_of (map request_of requests.now) (drop self.old.next ops.now))) }
    {
        match self.first_step(requests, ops) {
            Some(step) => {
                self.next = step.index + 1;
                self.work = Work::new(&step.task);
            }
            None => {
                self.next = ops.len();
                self.work = Work::Idle;
            }
        }
    }

    // The first task, from the next operation on, that takes a step.
    fn first_step(&self, requests: &[RequestEntry], ops: &[Op]) -> Option<Step>
        requires terms { Each HasTerms requests.now }
        requires within { self.now.next ≤ length ops.now }
        ensures within { IfSome result (λ step. (self.now.next ≤ step.index) × (step.index < length ops.now)) }
        ensures route { IfSome result (λ step. HasRoute step.task) }
        ensures some { IfSome result (λ step. (outcomes : List Learnt) → AreTold self.now.channels.by_number.items outcomes → from_step outcomes (tasks_of (map request_of requests.now) (drop self.now.next ops.now)) ≡ step.task ∷ tasks_of (map request_of requests.now) (drop (step.index + 1) ops.now)) }
        ensures none { IfNone result ((outcomes : List Learnt) → AreTold self.now.channels.by_number.items outcomes → from_step outcomes (tasks_of (map request_of requests.now) (drop self.now.next ops.now)) ≡ []) }
    {
        for index in self.next..ops.len() {
            if let Some(task) = self.step_of(requests, &ops[index]) {
                return Some(Step { index, task });
            }
        }
        None
    }

    // The task of an operation, if it takes a step.
    fn step_of(&self, requests: &[RequestEntry], op: &Op) -> Option<Task>
        requires { Each HasTerms requests.now }
        ensures task { (outcomes : List Learnt) → AreTold self.now.channels.by_number.items outcomes → result ≡ if_step outcomes (task_of (map request_of requests.now) op.now) }
        ensures route { IfSome result HasRoute }
    {
        match task_of(requests, op) {
            Some(task) if self.takes_step(&task) => Some(self.ready(task)),
            _ => None,
        }
    }

    // Whether a task takes a step.
    fn takes_step(&self, task: &Task) -> bool
        ensures { (outcomes : List Learnt) → AreTold self.now.channels.by_number.items outcomes → result ≡ takes_step outcomes task.now }
    {
        match task {
            Task::Opens(_) => true,
            Task::Sends { chan, .. } => self.is_ready(*chan),
            Task::Closes(request) => self.is_established(request.chan),
            Task::Moves { old, new, .. } => {
                self.is_established(old.chan) && self.is_established(new.chan)
            }
        }
    }

    // Whether the packets of this channel may be sent; best-effort ones, which have none, always may.
    fn is_ready(&self, chan: Option<ChanNo>) -> bool
        ensures { (outcomes : List Learnt) → AreTold self.now.channels.by_number.items outcomes → result ≡ is_ready chan outcomes }
    {
        match chan {
            Some(chan) => self.is_established(chan),
            None => true,
        }
    }

    // A task as it begins.
    fn ready(&self, task: Task) -> Task
        requires { HasRoute task }
        ensures ready { (outcomes : List Learnt) → AreTold self.now.channels.by_number.items outcomes → result ≡ ready outcomes task }
        ensures route { HasRoute result }
    {
        match task {
            Task::Moves { old, new, .. } => {
                let last = self.channels.of(old.chan);
                Task::Moves {
                    old,
                    new,
                    gap: last.gap,
                    size: last.size,
                }
            }
            other => other,
        }
    }

    // Whether the request of this channel was accepted, and no move has left it.
    fn is_established(&self, chan: ChanNo) -> bool
        ensures { (outcomes : List Learnt) → AreTold self.now.channels.by_number.items outcomes → result ≡ is_established chan outcomes }
    {
        self.channels.of(chan).established
    }
}

// A task that takes a step, and the place of its operation.
#[derive(Clone, Copy)]
struct Step {
    index: usize,
    task: Task,
}

// The operations of a caller.
fn ops_of(plan: &Plan, caller: ActorNo) -> &[Op]
    requires { actor_number caller < length plan.now.callers }
    ensures { option_map (λ entry. entry.ops) (slice_get plan.now.callers (actor_number caller)) ≡ Some result.now }
{
    plan.callers()[usize::from(caller.get())].ops.as_slice()
}

// An operation with the request of its channel.
fn task_of(requests: &[RequestEntry], op: &Op) -> Option<Task>
    requires { Each HasTerms requests.now }
    ensures task { result ≡ task_of (map request_of requests.now) op.now }
    ensures route { IfSome result HasRoute }
{
    match op {
        Op::Open(chan) => Some(Task::Opens(request_of(requests, *chan)?)),
        Op::Send {
            chan,
            count,
            gap,
            size,
        } => Some(send_on(&request_of(requests, *chan)?, *count, *gap, *size)),
        Op::Close(chan) => Some(Task::Closes(request_of(requests, *chan)?)),
        Op::Pour {
            link,
            count,
            gap,
            size,
        } => Some(Task::Sends {
            link: *link,
            chan: None,
            count: *count,
            gap: *gap,
            size: *size,
        }),
        Op::Move { old, new } => Some(Task::Moves {
            old: request_of(requests, *old)?,
            new: request_of(requests, *new)?,
            gap: 1,
            size: 1,
        }),
    }
}

// A send on the channel of this request, at the first hop of its route.
fn send_on(request: &Request, count: u64, gap: u64, size: u32) -> Task
    requires { IsRoute request.now.route }
    ensures task { Some result ≡ send_on count gap size request.now }
    ensures route { HasRoute result }
{
    Task::Sends {
        link: request.route.hop(1).link,
        chan: Some(request.chan),
        count,
        gap,
        size,
    }
}

// The request of a channel.
fn request_of(requests: &[RequestEntry], chan: ChanNo) -> Option<Request>
    requires { Each HasTerms requests.now }
    ensures request { result ≡ slice_get (map request_of requests.now) (channel_number chan) }
    ensures route { IfSome result (λ request. IsRoute request.route) }
{
    match requests.get(chan.get() as usize) {
        Some(entry) => Some(entry.request),
        None => None,
    }
}
