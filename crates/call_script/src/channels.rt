//! What a caller has learnt of its channels.
ghost use Rattle.std.specs.Prelude.{◌≡◌, ◌<◌, [], ◌∷◌, ◌++◌, List, Some, IfOk, length, set};
ghost use Rattle.net_units.specs.Numbers.{channel_number};
ghost use Rattle.setup_protocol.specs.State.{outcome_of};
ghost use Rattle.call_script.specs.Channels.{AreTold, IsOfChannelsBelow, channel_in, blank, is_planned};
ghost use Rattle.call_script.specs.Scripts.{Learnt, MovedTo, PlannedOn, Settles, planned_as};
ghost use Rattle.call_script.specs.Work.{learnt_of};

use crate::work::{Known, Note};
use channel_move::Shifted;
use link_steps::Reply;
use net_units::{ChanNo, OutOfMemory};
use setup_protocol::Verdict;
use std::alloc::Global;

/// What a caller has learnt of one channel.
#[derive(Clone, Copy)]
pub struct Channel {
    /// What its request has come to; None while its setup has an ask left.
    pub verdict: Option<Verdict>,
    /// Whether it is established: accepted, and not left by a move.
    pub established: bool,
    /// The ticks from one packet to the next, of those that were planned on it last; 1 where none were.
    pub gap: u64,
    /// Their size; 1 where none were.
    pub size: u32,
    /// What the move that has left it has told.
    pub moved: Option<Shifted>,
}

/// What a caller has learnt of each channel, by the channels' numbers, so a look at one takes one step, whatever has been learnt.
#[derive(Drop)]
pub struct Channels {
    /// One for each channel.
    pub by_number: Vec<Channel>,
}

impl Channels {
    /// This many channels, of which nothing is learnt. An `Err` comes only for want of memory.
    pub fn new(alloc: Global, count: usize) -> Result<Channels, OutOfMemory>
        ensures count { IfOk result (λ channels. length channels.by_number.items ≡ count) }
        ensures none { IfOk result (λ channels. AreTold channels.by_number.items []) }
    {
        let by_number = vec![in alloc; blank(); count]?;
        Ok(Channels { by_number })
    }

    /// What is learnt of a channel: nothing where it isn't kept.
    pub fn of(&self, chan: ChanNo) -> Channel
        ensures { result ≡ channel_in self.now.by_number.items chan }
    {
        match self.by_number.get(chan.get() as usize) {
            Some(channel) => *channel,
            None => blank(),
        }
    }

    /// A channel's setup has come to this.
    pub fn settle(&mut self, chan: ChanNo, verdict: &Verdict)
        requires { channel_number chan < length self.old.by_number.items }
        ensures count { length self.new.by_number.items ≡ length self.old.by_number.items }
        ensures told { (outcomes : List Learnt) → AreTold self.old.by_number.items outcomes → AreTold self.new.by_number.items (Settles chan (outcome_of verdict.now) ∷ outcomes) }
    {
        let was = self.of(chan);
        let established = verdict.is_accepted();
        self.put(
            chan,
            Channel {
                verdict: Some(*verdict),
                established,
                ..was
            },
        );
    }

    /// A submit on a channel got this reply.
    pub fn answer(&mut self, chan: ChanNo, gap: u64, size: u32, reply: &Reply)
        requires { channel_number chan < length self.old.by_number.items }
        ensures count { length self.new.by_number.items ≡ length self.old.by_number.items }
        ensures told { (outcomes : List Learnt) → AreTold self.old.by_number.items outcomes → AreTold self.new.by_number.items (planned_as (Some chan) gap size (reply.now ∷ []) ++ outcomes) }
    {
        if is_planned(reply) {
            self.plan(chan, gap, size);
        }
    }

    /// Packets of this gap and size have moved from one channel to another, as many as `told` says.
    pub fn leave(&mut self, old: ChanNo, new: ChanNo, told: &Shifted, gap: u64, size: u32)
        requires old { channel_number old < length self.old.by_number.items }
        requires new { channel_number new < length self.old.by_number.items }
        ensures count { length self.new.by_number.items ≡ length self.old.by_number.items }
        ensures told { (outcomes : List Learnt) → AreTold self.old.by_number.items outcomes → AreTold self.new.by_number.items (MovedTo old new told.now gap size ∷ outcomes) }
    {
        let was = self.of(old);
        self.put(
            old,
            Channel {
                established: false,
                moved: Some(*told),
                ..was
            },
        );
        if told.shifted != 0 {
            let joined = self.of(new);
            self.put(
                new,
                Channel {
                    gap,
                    size,
                    ..joined
                },
            );
        }
    }

    // Notes one more thing, of channels that are kept.
    pub(crate) fn note(&mut self, known: &Known)
        requires { IsOfChannelsBelow (length self.old.by_number.items) (learnt_of known.now) }
        ensures count { length self.new.by_number.items ≡ length self.old.by_number.items }
        ensures noted { (outcomes : List Learnt) → AreTold self.old.by_number.items outcomes → AreTold self.new.by_number.items (learnt_of known.now ∷ outcomes) }
    {
        match &known.note {
            Note::Settled { chan, verdict } => self.settle(*chan, verdict),
            Note::Planned { chan, gap, size } => self.plan(*chan, *gap, *size),
            Note::Moved {
                old,
                new,
                told,
                gap,
                size,
            } => self.leave(*old, *new, told, *gap, *size),
        }
    }

    // Packets of this gap and size were planned on a channel.
    fn plan(&mut self, chan: ChanNo, gap: u64, size: u32)
        requires { channel_number chan < length self.old.by_number.items }
        ensures count { length self.new.by_number.items ≡ length self.old.by_number.items }
        ensures told { (outcomes : List Learnt) → AreTold self.old.by_number.items outcomes → AreTold self.new.by_number.items (PlannedOn chan gap size ∷ outcomes) }
    {
        let was = self.of(chan);
        self.put(chan, Channel { gap, size, ..was });
    }

    // Replaces what is learnt of a channel.
    fn put(&mut self, chan: ChanNo, channel: Channel)
        requires { channel_number chan < length self.old.by_number.items }
        ensures { self.new.by_number.items ≡ set self.old.by_number.items (channel_number chan) channel }
    {
        self.by_number[chan.get() as usize] = channel;
    }
}

// A channel of which nothing is learnt.
fn blank() -> Channel
    ensures { result ≡ blank }
{
    Channel {
        verdict: None,
        established: false,
        gap: 1,
        size: 1,
        moved: None,
    }
}

// Whether a reply plans the packets of its submit.
fn is_planned(reply: &Reply) -> bool
    ensures { result ≡ is_planned reply.now }
{
    matches!(reply, Reply::Planned { .. })
}
