//! What the source of a channel has done, by the entries of a run.
ghost use Rattle.std.specs.Prelude.{◌≡◌, ◌+◌, ◌<◌, ◌≤◌, ◌^◌, ◌++◌, ◌∷◌, ◌-◌, [], true, false, ℕ, List, Some, IfOk, OnOk, drop, filter, length, nat_le, reverse, take};
ghost use Rattle.net_units.specs.Numbers.{channel_number, link_number};
ghost use Rattle.traffic_contract.specs.Keeping.{may_follow, starts_before};
ghost use Rattle.link_steps.specs.Scan.{clock_with};
ghost use Rattle.link_steps.specs.declared.replies.Entry.{Entry};
ghost use Rattle.run_record.specs.Runs.{part_of};
ghost use Rattle.run_record.specs.declared.done.Done.{Done as Step};
ghost use Rattle.channel_report.specs.ChannelTallies.{never};
ghost use Rattle.channel_report.specs.Sources.{is_made, ticks_from};
ghost use Rattle.packet_answers.specs.SourceTallies.{BreaksFrom, KeepsSource, act_for, if_own, planned_with, refused_with};

use link_steps::{Ask, Reply};
use net_units::{ChanNo, LinkNo, OutOfMemory};
use run_record::Done;
use std::alloc::Global;
use traffic_contract::Contract;

// No clock of a run reaches this tick.
const NEVER: u64 = 1 << 62;

// What an entry does for the source of a channel.
#[derive(Clone, Copy)]
pub(crate) enum Act {
    // So many packets are planned, the first at a tick and then one every gap.
    Plans { tick: u64, gap: u64, count: u64 },
    // A send is refused.
    Refuses,
    // The packets whose tick isn't made yet are cancelled.
    Cancels,
    // Nothing.
    Nothing,
}

// What the source of a channel has planned, by the entries of the channel's first link.
#[derive(Drop)]
pub(crate) struct Source {
    // The link's clock.
    pub(crate) clock: u64,
    // The ticks for which packets are planned, without the cancelled ones, as far as they lie before `NEVER`.
    pub(crate) ticks: Vec<u64>,
    // How many sends were refused.
    pub(crate) refused: u64,
}

// What the source of a channel has done in a run, where this is the first link of its route.
pub(crate) fn source_of(
    alloc: Global,
    entries: &[Done],
    chan: ChanNo,
    first: LinkNo,
) -> Result<Source, OutOfMemory>
    requires { length entries.now < 2 ^ 60 }
    ensures { IfOk result (KeepsSource (channel_number chan) (part_of (link_number first) (reverse entries.now))) }
{
    let mut source = Source::new(alloc);
    for done in entries {
        source.see(alloc, chan, first, done)?;
    }
    Ok(source)
}

impl Source {
    // Before the first entry.
    fn new(alloc: Global) -> Source
        ensures { (number : ℕ) → KeepsSource number [] result }
    {
        Source {
            clock: 0,
            ticks: Vec::new(alloc),
            refused: 0,
        }
    }

    // Sees the next entry of the run, which may be one of the first link.
    fn see(
        &mut self,
        alloc: Global,
        chan: ChanNo,
        first: LinkNo,
        done: &Done,
    ) -> Result<(), OutOfMemory>
        requires { (past : List Step) × (KeepsSource (channel_number chan) (part_of (link_number first) past) self.old × (length past < 2 ^ 60)) }
        ensures { OnOk result ((past : List Step) → KeepsSource (channel_number chan) (part_of (link_number first) past) self.old → KeepsSource (channel_number chan) (part_of (link_number first) (done.now ∷ past)) self.new) }
    {
        if done.link.get() != first.get() {
            return Ok(());
        }
        self.take(alloc, chan, &done.ask, &done.reply)?;
        Ok(())
    }

    // Takes the next entry of the first link.
    fn take(
        &mut self,
        alloc: Global,
        chan: ChanNo,
        ask: &Ask,
        reply: &Reply,
    ) -> Result<(), OutOfMemory>
        requires { (h : List Entry) × (KeepsSource (channel_number chan) h self.old × (length h < 2 ^ 60)) }
        ensures { OnOk result ((h : List Entry) → KeepsSource (channel_number chan) h self.old → KeepsSource (channel_number chan) (record { ask = ask.now; reply = reply.now } ∷ h) self.new) }
    {
        self.keep(alloc, &act_for(chan, ask, reply))?;
        self.clock += ticks(ask);
        Ok(())
    }

    // Keeps what an entry does for it.
    fn keep(&mut self, alloc: Global, act: &Act) -> Result<(), OutOfMemory>
        requires few { self.old.refused < 2 ^ 62 }
        ensures ticks { OnOk result ((planned : List ℕ) → self.old.ticks.items ≡ filter (is_made never) planned → self.new.ticks.items ≡ filter (is_made never) (planned_with self.old.clock planned act.now)) }
        ensures refused { OnOk result (self.new.refused ≡ refused_with act.now + self.old.refused) }
        ensures clock { OnOk result (self.new.clock ≡ self.old.clock) }
    {
        match act {
            Act::Plans { tick, gap, count } => self.plan(*tick, *gap, *count),
            Act::Refuses => {
                self.refused += 1;
                Ok(())
            }
            Act::Cancels => {
                self.ticks = made(alloc, self.ticks.as_slice(), self.clock)?;
                Ok(())
            }
            Act::Nothing => Ok(()),
        }
    }

    // Plans so many packets, the first at a tick and then one every gap.
    fn plan(&mut self, tick: u64, gap: u64, count: u64) -> Result<(), OutOfMemory>
        ensures ticks { OnOk result (self.new.ticks.items ≡ self.old.ticks.items ++ filter (is_made never) (ticks_from tick gap count)) }
        ensures refused { self.new.refused ≡ self.old.refused }
        ensures clock { self.new.clock ≡ self.old.clock }
    {
        let mut next = tick;
        for _planned in 0..count {
            if next >= NEVER {
                return Ok(());
            }
            self.ticks.push(next)?;
            next = next.saturating_add(gap);
        }
        Ok(())
    }

    // The ticks at which it has offered a packet.
    pub(crate) fn offered(&self, alloc: Global) -> Result<Vec<u64>, OutOfMemory>
        ensures { IfOk result (λ offered. offered.items ≡ filter (is_made self.now.clock) self.now.ticks.items) }
    {
        made(alloc, self.ticks.as_slice(), self.clock)
    }
}

// What an ask and its reply do for the source of this channel.
fn act_for(chan: ChanNo, ask: &Ask, reply: &Reply) -> Act
    ensures { result ≡ act_for (channel_number chan) ask.now reply.now }
{
    match (ask, reply) {
        (
            Ask::Submit {
                chan: own,
                count,
                gap,
                ..
            },
            Reply::Planned { clock },
        ) => {
            let (tick, gap, count) = (*clock, *gap, *count);
            if_own(chan, *own, Act::Plans { tick, gap, count })
        }
        (Ask::Submit { chan: own, .. }, Reply::Refused(_)) => if_own(chan, *own, Act::Refuses),
        (Ask::Release { chan: own, .. }, Reply::Closing { .. }) => {
            if_own(chan, *own, Act::Cancels)
        }
        _ => Act::Nothing,
    }
}

// What is done for a source where its channel is this one.
fn if_own(chan: ChanNo, own: ChanNo, act: Act) -> Act
    ensures { result ≡ if_own (channel_number chan) own act }
{
    if own.get() == chan.get() {
        act
    } else {
        Act::Nothing
    }
}

// By how many ticks the link's clock goes on.
fn ticks(ask: &Ask) -> u64
    ensures value { (t : ℕ) → clock_with ask.now t ≡ result + t }
    ensures most { result ≤ 1 }
{
    match ask {
        Ask::Tick => 1,
        _ => 0,
    }
}

// The ticks below the clock.
fn made(alloc: Global, ticks: &[u64], clock: u64) -> Result<Vec<u64>, OutOfMemory>
    ensures { IfOk result (λ kept. kept.items ≡ filter (is_made clock) ticks.now) }
{
    let mut kept = Vec::new(alloc);
    for tick in ticks {
        if *tick < clock {
            kept.push(*tick)?;
        }
    }
    Ok(kept)
}

// The number from 1 of the first packet, at these ticks, with which a source breaks its contract, where it does.
pub(crate) fn first_break(contract: &Contract, ticks: &[u64]) -> Option<u64>
    ensures { BreaksFrom contract.now ticks.now result }
{
    let mut number = 0;
    for tick in ticks {
        if !follows(contract, &ticks[..number], *tick) {
            return Some(number as u64 + 1);
        }
        number += 1;
    }
    None
}

// Whether a packet that is sent at this tick may follow these, in order of time, by the contract.
fn follows(contract: &Contract, ticks: &[u64], sent: u64) -> bool
    ensures { result ≡ may_follow contract.now (reverse ticks.now) sent }
{
    is_after(ticks, 1, contract.xmin(), sent)
        && is_after(ticks, contract.burst() as usize, contract.interval(), sent)
}

// Whether the tick is at least this much after the one that stands so many places from the end, where there is one.
fn is_after(ticks: &[u64], back: usize, least: u32, sent: u64) -> bool
    requires { 1 ≤ back }
    ensures { result ≡ starts_before sent least (drop (back - 1) (reverse ticks.now)) }
{
    if ticks.len() < back {
        return true;
    }
    is_apart(ticks[ticks.len() - back], least, sent)
}

// Whether a tick is at least this much after an earlier one.
fn is_apart(earlier: u64, least: u32, sent: u64) -> bool
    ensures { result ≡ nat_le (earlier + least) sent }
{
    if sent < earlier {
        return false;
    }
    sent - earlier >= u64::from(least)
}
