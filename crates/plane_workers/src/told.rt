//! A link answers what it is asked in a window, and keeps those of its replies that tell something.
ghost use Rattle.std.specs.Prelude.{◌≡◌, ◌+◌, ◌^◌, ◌<◌, ◌≤◌, ◌∷◌, [], List, OnOk, IfOk};
ghost use Rattle.link_quota.specs.Any.{any_clock, any_rules, AnyStands};
ghost use Rattle.link_steps.specs.Legal.{AskFits};
ghost use Rattle.link_steps.specs.Lists.{Each};
ghost use Rattle.link_steps.specs.declared.asks.Ask.TheVariants.{Arrive as AskArrive};
ghost use Rattle.link_steps.specs.declared.replies.Entry.{Entry};
ghost use Rattle.plane_workers.specs.Answered.{ticks_in};
ghost use Rattle.plane_workers.specs.Tracks.{HasTold, TellsMore};
ghost use Rattle.run_engine.specs.schedules.Lagging.{is_told};
ghost use Rattle.run_engine.specs.schedules.Resting.{HasRested, RestsBy};
ghost use Rattle.tick_plane.specs.AskedRuns.{asks_in, ticks};

use link_quota::AnyLink;
use link_steps::{Ask, LinkStep, Packet, Reply};
use net_units::{ActorNo, Gate, OutOfMemory};
use tick_plane::Asked;

// Makes what is asked of a link, one after the other, and keeps what it tells. The gate is called round each arrival and tick.
pub(crate) fn answer_asked<G: Gate>(
    gate: &G,
    actor: ActorNo,
    link: &mut AnyLink,
    asked: &[Asked],
    told: &mut Vec<Reply>,
) -> Result<(), OutOfMemory>
    requires stands { (h : List Entry) × AnyStands link.old h }
    requires fits { Each (AskFits (any_rules link.old).shape) (asks_in asked.now) }
    requires early { any_clock link.old + ticks_in (asks_in asked.now) < 2 ^ 61 }
    requires none { told.old.items ≡ [] }
    ensures { OnOk result (HasTold any_rules AnyStands link.old link.new (asks_in asked.now) told.new.items) }
{
    for next in asked {
        match next {
            Asked::Arrives(packet) => arrive(gate, actor, link, packet),
            Asked::Ticks(count) => make_ticks(gate, actor, link, *count, told)?,
        }
    }
    Ok(())
}

// A packet arrives, which tells nothing.
#[inline(always)]
fn arrive<G: Gate>(gate: &G, actor: ActorNo, link: &mut AnyLink, packet: &Packet)
    requires fits { AskFits (any_rules link.old).shape (AskArrive packet.now) }
    requires early { any_clock link.old < 2 ^ 61 }
    ensures { HasTold any_rules AnyStands link.old link.new (AskArrive packet.now ∷ []) [] }
{
    let number = link.shape().link;
    let mut reply = NOTHING;
    gate.within(number, actor);
    link.step_into(&Ask::Arrive { packet: *packet }, &mut reply);
    gate.after(number, actor);
}

// So many ticks.
#[inline(always)]
fn make_ticks<G: Gate>(
    gate: &G,
    actor: ActorNo,
    link: &mut AnyLink,
    count: u64,
    told: &mut Vec<Reply>,
) -> Result<(), OutOfMemory>
    requires stands { (h : List Entry) × AnyStands link.old h }
    requires early { any_clock link.old + count < 2 ^ 61 }
    ensures { OnOk result (TellsMore link.old link.new (ticks count) told.old.items told.new.items) }
{
    let mut made = 0;
    while made < count {
        let more = make_some(gate, actor, link, count - made, told)?;
        made += more;
    }
    Ok(())
}

// Ticks, at most so many: those in which the link rests, or one. Answers how many.
#[inline(always)]
fn make_some<G: Gate>(
    gate: &G,
    actor: ActorNo,
    link: &mut AnyLink,
    most: u64,
    told: &mut Vec<Reply>,
) -> Result<u64, OutOfMemory>
    requires some { 1 ≤ most }
    requires early { any_clock link.old + most < 2 ^ 61 }
    ensures some { IfOk result (λ made. 1 ≤ made) }
    ensures most { IfOk result (λ made. made ≤ most) }
    ensures tells { IfOk result (λ made. TellsMore link.old link.new (ticks made) told.old.items told.new.items) }
{
    if link.rests() {
        let ticks = link.rests_until().saturating_sub(link.clock()).min(most);
        if ticks > 0 {
            rest(gate, actor, link, ticks);
            return Ok(ticks);
        }
    }
    tick(gate, actor, link, told)?;
    Ok(1)
}

// So many ticks in which the link rests.
fn rest<G: Gate>(gate: &G, actor: ActorNo, link: &mut AnyLink, ticks: u64)
    requires rests { RestsBy ticks link.old }
    requires early { any_clock link.old + ticks ≤ 2 ^ 61 }
    ensures { HasRested ticks link.old link.new }
{
    let number = link.shape().link;
    for _ in 0..ticks {
        gate.within(number, actor);
        gate.after(number, actor);
    }
    link.rest(ticks);
}

// A tick, whose reply is kept where it tells something.
#[inline(always)]
fn tick<G: Gate>(
    gate: &G,
    actor: ActorNo,
    link: &mut AnyLink,
    told: &mut Vec<Reply>,
) -> Result<(), OutOfMemory>
    requires early { any_clock link.old < 2 ^ 61 }
    ensures { OnOk result (TellsMore link.old link.new (ticks 1) told.old.items told.new.items) }
{
    let number = link.shape().link;
    let mut reply = NOTHING;
    gate.within(number, actor);
    link.step_into(&Ask::Tick, &mut reply);
    gate.after(number, actor);
    if is_told(&reply) {
        told.push(reply)?;
    }
    Ok(())
}

// A tick that tells nothing.
const NOTHING: Reply = Reply::Ticked {
    clock: 0,
    full: 0,
    sent: None,
    best_sent: false,
    best_lost: false,
};

// Whether a reply tells something: in the tick a packet finds no slot, leaves, or is lost.
#[inline(always)]
fn is_told(reply: &Reply) -> bool
    ensures { result ≡ is_told reply.now }
{
    match reply {
        Reply::Ticked {
            full,
            sent,
            best_sent,
            best_lost,
            ..
        } => *full > 0 || sent.is_some() || *best_sent || *best_lost,
        _ => false,
    }
}
