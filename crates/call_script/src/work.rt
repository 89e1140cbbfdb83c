//! The task of a caller that is under way.
ghost use Rattle.std.specs.Prelude.{◌≡◌, ◌↔◌, ◌<◌, ℕ, [], false, true, ◌∷◌, ◌++◌, None, Some, IsTrue, IsOk, IsNone, IfOk, IfErr, OnErr, List, length, option_map};
ghost use Rattle.link_steps.specs.declared.replies.Reply.{Reply as Replied};
ghost use Rattle.channel_move.specs.Moving.{answers_next};
ghost use Rattle.channel_move.specs.Stages.{ask_in, released_in};
ghost use Rattle.channel_move.specs.Standing.{move_of};
ghost use Rattle.setup_protocol.specs.Releases.{Releases};
ghost use Rattle.setup_protocol.specs.Setup.{asked, is_expected, settled_in};
ghost use Rattle.setup_protocol.specs.Standing.{progress_in};
ghost use Rattle.setup_protocol.specs.Teardown.{is_closing, next_release};
ghost use Rattle.setup_protocol.specs.declared.request.Request.{Request as Asking};
ghost use Rattle.call_script.specs.Scripts.{first_ask, first_expects, answers_submit, packets_ask};
ghost use Rattle.call_script.specs.Work.{WorkStands, TurnStands, HasRoute, IsOpening, IsClosing, IsMoving, is_under_way, is_over, once_tells, turn_tells};
ghost use Rattle.call_script.specs.declared.tasks.Task.{Task as Under};
ghost use Rattle.call_script.specs.declared.tasks.Task.TheVariants.{Opens, Closes, Moves};
ghost use Rattle.call_script.specs.declared.work.Turn.TheVariants as turns;
ghost use Rattle.call_script.specs.declared.work.Work.TheVariants as works;

use crate::tasks::Task;
use channel_move::{MoveOdd, Mover, Shifted};
use link_steps::{Ask, Refusal, Reply, Unexpected};
use net_units::{ChanNo, LinkNo};
use setup_protocol::{Setup, Teardown, Verdict};

// What a caller has learnt.
#[derive(Clone, Copy)]
pub(crate) struct Known {
    pub(crate) note: Note,
}

#[derive(Clone, Copy)]
pub(crate) enum Note {
    // What a request has come to.
    Settled {
        chan: ChanNo,
        verdict: Verdict,
    },
    // Packets were planned on a channel.
    Planned {
        chan: ChanNo,
        gap: u64,
        size: u32,
    },
    // What was planned on a channel has moved to another.
    Moved {
        old: ChanNo,
        new: ChanNo,
        told: Shifted,
        gap: u64,
        size: u32,
    },
}

// The task under way.
#[derive(Drop)]
pub(crate) enum Work {
    // A request is set up.
    Opening {
        chan: ChanNo,
        setup: Setup,
    },
    // One ask: a submit or a pour.
    Once {
        to: LinkNo,
        ask: Ask,
    },
    // A channel is released.
    Closing(Teardown),
    // What is planned on a channel moves to another.
    Moving {
        old: ChanNo,
        new: ChanNo,
        gap: u64,
        size: u32,
        mover: Mover,
    },
    // None: the script is at its end.
    Idle,
}

// What a reply makes of the task under way.
#[derive(Clone, Copy)]
pub(crate) enum Turn {
    // It goes on.
    On,
    // It is over.
    Over,
    // It is over, and has told this.
    Settled(Known),
}

impl Work {
    // The work of a task that begins.
    pub(crate) fn new(task: &Task) -> Work
        requires { HasRoute task.now }
        ensures { (tasks : List Under) → WorkStands result (task.now ∷ tasks) [] }
    {
        match task {
            Task::Opens(request) => Work::Opening {
                chan: request.chan,
                setup: Setup::new(request),
            },
            Task::Sends {
                link,
                chan,
                count,
                gap,
                size,
            } => Work::Once {
                to: *link,
                ask: packets_ask(*chan, *count, *gap, *size),
            },
            Task::Closes(request) => Work::Closing(Teardown::new(request.chan, request.route)),
            Task::Moves {
                old,
                new,
                gap,
                size,
            } => Work::Moving {
                old: old.chan,
                new: new.chan,
                gap: *gap,
                size: *size,
                mover: Mover::new(old.chan, old.route, new.chan, new.route, *gap, *size),
            },
        }
    }

    // What it asks next, and of which link.
    pub(crate) fn next_ask(&self) -> Option<(LinkNo, Ask)>
        ensures asked { (tasks : List Under) (replies : List Replied) → WorkStands self.now tasks replies → result ≡ first_ask tasks replies }
        ensures left { (tasks : List Under) (replies : List Replied) → WorkStands self.now tasks replies → IsNone result ↔ (is_under_way self.now ≡ false) }
    {
        match self {
            Work::Opening { setup, .. } => setup.next_ask(),
            Work::Once { to, ask } => Some((*to, *ask)),
            Work::Closing(teardown) => teardown.next_ask(),
            Work::Moving { mover, .. } => mover.next_ask(),
            Work::Idle => None,
        }
    }

    // Takes the reply to the next ask. A reply that doesn't answer that ask changes nothing. A task has to be under way.
    pub(crate) fn take(&mut self, reply: Reply) -> Result<Turn, Unexpected>
        requires left { is_under_way self.old ≡ true }
        requires stands { (tasks : List Under) × (replies : List Replied) × WorkStands self.old tasks replies }
        ensures expected { (tasks : List Under) (replies : List Replied) → WorkStands self.old tasks replies → IsOk result ↔ IsTrue (first_expects tasks replies reply) }
        ensures taken { IfOk result (λ turn. (tasks : List Under) (replies : List Replied) → WorkStands self.old tasks replies → TurnStands turn self.new tasks (replies ++ reply ∷ [])) }
        ensures unexpected { IfErr result (λ odd. (odd.reply ≡ reply) × ((tasks : List Under) (replies : List Replied) → WorkStands self.old tasks replies → option_map (λ to. to.1) (first_ask tasks replies) ≡ Some odd.ask)) }
        ensures unchanged { OnErr result (self.new ≡ self.old) }
    {
        match self {
            Work::Opening { chan, setup } => take_opening(*chan, setup, reply),
            Work::Once { ask, .. } => take_once(ask, reply),
            Work::Closing(teardown) => take_closing(teardown, reply),
            Work::Moving {
                old,
                new,
                gap,
                size,
                mover,
            } => {
                let (old, new, gap, size) = (*old, *new, *gap, *size);
                take_moving(old, new, gap, size, mover, reply)
            }
            Work::Idle => unreachable!(),
        }
    }
}

// Takes a reply to a setup.
fn take_opening(chan: ChanNo, setup: &mut Setup, reply: Reply) -> Result<Turn, Unexpected>
    requires left { settled_in (progress_in setup.old) ≡ None }
    ensures expected { IsOk result ↔ IsTrue (is_expected setup.old.request (progress_in setup.old) reply) }
    ensures taken { IfOk result (λ turn. (request : Asking) (tasks : List Under) (replies : List Replied) → IsOpening chan setup.old request replies → TurnStands turn (works.Opening chan setup.new) (Opens request ∷ tasks) (replies ++ reply ∷ [])) }
    ensures unexpected { IfErr result (λ odd. (odd.reply ≡ reply) × (option_map (λ to. to.1) (asked setup.old.request (progress_in setup.old)) ≡ Some odd.ask)) }
    ensures unchanged { OnErr result (setup.new ≡ setup.old) }
{
    match setup.take(reply) {
        Err(odd) => Err(odd),
        Ok(()) => match setup.verdict() {
            Some(verdict) => Ok(Turn::Settled(Known {
                note: Note::Settled { chan, verdict },
            })),
            None => Ok(Turn::On),
        },
    }
}

// Takes the reply to a submit or a pour.
fn take_once(ask: &Ask, reply: Reply) -> Result<Turn, Unexpected>
    ensures expected { IsOk result ↔ IsTrue (answers_submit reply) }
    ensures over { IfOk result (λ turn. is_over turn ≡ true) }
    ensures tells { IfOk result (λ turn. turn_tells turn ≡ once_tells ask.now reply) }
    ensures unexpected { IfErr result (λ odd. (odd.reply ≡ reply) × (odd.ask ≡ ask.now)) }
{
    match (ask, reply) {
        (
            Ask::Submit {
                chan,
                gap,
                size,
                ..
            },
            Reply::Planned { .. },
        ) => Ok(Turn::Settled(Known {
            note: Note::Planned {
                chan: *chan,
                gap: *gap,
                size: *size,
            },
        })),
        (_, Reply::Planned { .. }) => Ok(Turn::Over),
        (_, Reply::Refused(Refusal::Busy { .. } | Refusal::TooBig { .. })) => Ok(Turn::Over),
        _ => Err(Unexpected { ask: *ask, reply }),
    }
}

// Takes a reply to a teardown.
fn take_closing(teardown: &mut Teardown, reply: Reply) -> Result<Turn, Unexpected>
    requires left { teardown.old.made < length teardown.old.route }
    ensures expected { IsOk result ↔ IsTrue (is_closing reply) }
    ensures taken { IfOk result (λ turn. (request : Asking) (tasks : List Under) (replies : List Replied) → IsClosing teardown.old request replies → TurnStands turn (works.Closing teardown.new) (Closes request ∷ tasks) (replies ++ reply ∷ [])) }
    ensures unexpected { IfErr result (λ odd. (odd.reply ≡ reply) × ((replies : List Replied) → Releases teardown.old replies → option_map (λ to. to.1) (next_release teardown.old.chan teardown.old.route replies) ≡ Some odd.ask)) }
    ensures unchanged { OnErr result (teardown.new ≡ teardown.old) }
{
    match teardown.take(reply) {
        Err(odd) => Err(odd),
        Ok(()) => match teardown.next_ask() {
            Some(_) => Ok(Turn::On),
            None => Ok(Turn::Over),
        },
    }
}

// Takes a reply to a move.
fn take_moving(
    old: ChanNo,
    new: ChanNo,
    gap: u64,
    size: u32,
    mover: &mut Mover,
    reply: Reply,
) -> Result<Turn, Unexpected>
    requires left { released_in mover.old.stage < length mover.old.leaving_route }
    ensures expected { IsOk result ↔ IsTrue (answers_next (ask_in (move_of mover.old) mover.old.stage) reply) }
    ensures taken { IfOk result (λ turn. (one other : Asking) (own_gap own_size : ℕ) (tasks : List Under) (replies : List Replied) → IsMoving old new gap size mover.old one other own_gap own_size replies → TurnStands turn (works.Moving old new gap size mover.new) (Moves one other own_gap own_size ∷ tasks) (replies ++ reply ∷ [])) }
    ensures unexpected { IfErr result (λ odd. (odd.reply ≡ reply) × (option_map (λ to. to.1) (ask_in (move_of mover.old) mover.old.stage) ≡ Some odd.ask)) }
    ensures unchanged { OnErr result (mover.new ≡ mover.old) }
{
    match mover.take(reply) {
        Err(MoveOdd { ask, reply }) => Err(Unexpected { ask, reply }),
        Ok(()) => match mover.shifted() {
            Some(told) => Ok(Turn::Settled(Known {
                note: Note::Moved {
                    old,
                    new,
                    told,
                    gap,
                    size,
                },
            })),
            None => Ok(Turn::On),
        },
    }
}

// The ask for packets: a submit of a channel's, or a pour of best-effort ones.
fn packets_ask(chan: Option<ChanNo>, count: u64, gap: u64, size: u32) -> Ask
    ensures { result ≡ packets_ask chan count gap size }
{
    match chan {
        Some(chan) => Ask::Submit {
            chan,
            count,
            gap,
            size,
        },
        None => Ask::Pour { count, gap, size },
    }
}
