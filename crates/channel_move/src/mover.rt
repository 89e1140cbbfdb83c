//! The move of a channel's planned packets to another channel.
ghost use Rattle.std.specs.Prelude.{◌≡◌, ◌↔◌, ◌+◌, ◌-◌, ◌<◌, ◌≤◌, ◌++◌, ◌∷◌, [], List, None, Some, IsTrue, IsOk, IsNone, IfErr, OnOk, OnErr, length, option_map};
ghost use Rattle.link_steps.specs.declared.asks.Ask.{Ask as Asked};
ghost use Rattle.link_steps.specs.declared.asks.Ask.TheVariants.{Release as Releases};
ghost use Rattle.link_steps.specs.declared.replies.Reply.{Reply as Replied};
ghost use Rattle.hop_reservation.specs.Routes.{IsRoute};
ghost use Rattle.channel_move.specs.Moving.{answers_next, asked_at, at_end, next_of_move, shifted_of};
ghost use Rattle.channel_move.specs.Stages.{ask_in, released_in, told_in};

use crate::shifted::{MoveOdd, Shifted};
use hop_reservation::Route;
use link_steps::{Ask, Reply};
use net_units::{ChanNo, LinkNo};

// How far a move has come.
#[derive(Clone, Copy)]
pub(crate) enum Stage {
    // The first hop of the channel that is left is to be released.
    Leaving,
    // It has told this, and its cancelled packets are to be planned on the other channel.
    Joining(Shifted),
    // It has told this, and this many hops of the channel that is left have replied.
    Releasing { told: Shifted, made: u8 },
}

/// The move of a channel's planned packets to another channel. The rule is ours.
///
/// It stands for the replies that it has taken, in their order. None of its calls takes memory.
#[derive(Clone, Copy)]
pub struct Mover {
    pub(crate) leaving: ChanNo,
    pub(crate) leaving_route: Route,
    pub(crate) joining: ChanNo,
    pub(crate) joining_route: Route,
    pub(crate) gap: u64,
    pub(crate) size: u32,
    pub(crate) stage: Stage,
    ghost in_route: { released_in stage ≤ length leaving_route },
}

impl Mover {
    ghost use Rattle.channel_move.specs.Standing.{Moves, move_of};

    /// A move from one channel to another that has asked nothing yet. The packets that it shifts are of `size` units, one
    /// every `gap` ticks.
    pub fn new(
        leaving: ChanNo,
        leaving_route: Route,
        joining: ChanNo,
        joining_route: Route,
        gap: u64,
        size: u32,
    ) -> Mover
        ensures terms { move_of result ≡ record { leaving = leaving; leaving_route = leaving_route; joining = joining; joining_route = joining_route; gap = gap; size = size } }
        ensures stands { Moves result [] }
    {
        Mover {
            leaving,
            leaving_route,
            joining,
            joining_route,
            gap,
            size,
            stage: Stage::Leaving,
        }
    }

    /// The next ask, and the link that it goes to; None exactly where nothing of the move is left to ask.
    pub fn next_ask(&self) -> Option<(LinkNo, Ask)>
        ensures asked { result ≡ ask_in (move_of self.now) self.now.stage }
        ensures next { (replies : List Replied) → Moves self.now replies → result ≡ next_of_move (move_of self.now) replies }
        ensures done { IsNone result ↔ (released_in self.now.stage ≡ length self.now.leaving_route) }
        ensures within { released_in self.now.stage ≤ length self.now.leaving_route }
        ensures valid { IsRoute self.now.leaving_route }
    {
        let hops = self.leaving_route.len();
        match self.stage {
            Stage::Leaving => Some(self.release(1, None)),
            Stage::Joining(told) => {
                let ask = Ask::Submit {
                    chan: self.joining,
                    count: told.shifted,
                    gap: self.gap,
                    size: self.size,
                };
                Some((first_link(&self.joining_route), ask))
            }
            Stage::Releasing { told, made } => {
                if made == hops {
                    return None;
                }
                Some(self.release(made + 1, Some(told.kept)))
            }
        }
    }

    /// Takes the reply to the next ask. One that isn't a reply to it is refused and changes nothing. An ask has to be left.
    pub fn take(&mut self, reply: Reply) -> Result<(), MoveOdd>
        requires left { released_in self.old.stage < length self.old.leaving_route }
        ensures terms { move_of self.new ≡ move_of self.old }
        ensures expected { IsOk result ↔ IsTrue (answers_next (ask_in (move_of self.old) self.old.stage) reply) }
        ensures taken { OnOk result ((replies : List Replied) → Moves self.old replies → Moves self.new (replies ++ reply ∷ [])) }
        ensures odd { IfErr result (λ odd. (odd.reply ≡ reply) × (option_map (λ to. to.1) (ask_in (move_of self.old) self.old.stage) ≡ Some odd.ask)) }
        ensures unchanged { OnErr result (self.new ≡ self.old) }
    {
        let next = self.next_ask();
        match (self.stage, reply) {
            (Stage::Leaving, Reply::Closing { count, cancelled }) => {
                let told = Shifted {
                    kept: count,
                    shifted: cancelled,
                };
                self.stage = if cancelled == 0 {
                    Stage::Releasing { told, made: 1 }
                } else {
                    Stage::Joining(told)
                };
                Ok(())
            }
            (Stage::Joining(told), Reply::Planned { .. }) => {
                self.stage = Stage::Releasing { told, made: 1 };
                Ok(())
            }
            (Stage::Releasing { told, made }, Reply::Closing { .. }) => {
                self.stage = Stage::Releasing {
                    told,
                    made: made + 1,
                };
                Ok(())
            }
            (_, reply) => match next {
                Some((_, ask)) => Err(MoveOdd { ask, reply }),
                None => unreachable!(),
            },
        }
    }

    /// What the move has come to; None exactly while an ask is left.
    pub fn shifted(&self) -> Option<Shifted>
        ensures told { result ≡ at_end (ask_in (move_of self.now) self.now.stage) (told_in self.now.stage) }
        ensures shifted { (replies : List Replied) → Moves self.now replies → result ≡ shifted_of (move_of self.now) replies }
        ensures left { IsNone result ↔ (released_in self.now.stage < length self.now.leaving_route) }
    {
        match (self.next_ask(), self.stage) {
            (None, Stage::Releasing { told, .. }) => Some(told),
            _ => None,
        }
    }

    // The release of the hop at this place, from 1, of the channel that is left.
    fn release(&self, place: u8, upstream: Option<u64>) -> (LinkNo, Ask)
        requires first { 1 ≤ place }
        requires last { place ≤ length self.now.leaving_route }
        ensures { Some result ≡ asked_at self.now.leaving_route (place - 1) (Releases self.now.leaving upstream) }
    {
        let ask = Ask::Release {
            chan: self.leaving,
            upstream,
        };
        (self.leaving_route.hop(place).link, ask)
    }
}

// The link of the first hop. A route always has one.
fn first_link(route: &Route) -> LinkNo
    ensures { (ask : Asked) → Some (result, ask) ≡ asked_at route.now 0 ask }
{
    match route.len() {
        0 => unreachable!(),
        _ => route.hop(1).link,
    }
}
