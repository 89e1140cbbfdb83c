//! A link answers what it is asked, and its quiet ticks in strides.
ghost use Rattle.std.specs.Prelude.{◌≡◌, ◌+◌, ◌^◌, ◌<◌, ◌≤◌, [], ◌∷◌, ◌++◌, true, length, take, drop, OnOk, IfOk, IfSome};
ghost use Rattle.link_quota.specs.Any.{any_clock, any_rules, AnyStands};
ghost use Rattle.link_quota.specs.declared.any_link.AnyLink.{AnyLink as Kept};
ghost use Rattle.link_steps.specs.Legal.{AskFits};
ghost use Rattle.link_steps.specs.declared.asks.Ask.TheVariants.{Tick as AskTick};
ghost use Rattle.link_steps.specs.Lists.{Each};
ghost use Rattle.link_steps.specs.Quiet.{quiet_reply};
ghost use Rattle.link_steps.specs.Scan.{clock_with};
ghost use Rattle.link_steps.specs.declared.replies.Reply.{Reply as Replies};
ghost use Rattle.plane_workers.specs.Answered.{HasStepped, IsAnswered, ticks_in};
ghost use Rattle.plane_workers.specs.Said.{quiets, said_in};
ghost use Rattle.tick_plane.specs.AskedRuns.{ticks};
ghost use Rattle.run_engine.specs.schedules.Resting.{HasRested, RestsBy};

use crate::lane::Said;
use crate::quiet_run::QuietRun;
use link_quota::AnyLink;
use link_steps::{Ask, LinkStep, Reply};
use net_units::{ActorNo, Gate, OutOfMemory};

// The clock of a link in a run is earlier.
const LATEST: u64 = 1 << 60;

// Makes these asks of a link, one after the other, and keeps what it says. The gate is called round each.
pub(crate) fn answer_asks<G: Gate>(
    gate: &G,
    actor: ActorNo,
    link: &mut AnyLink,
    asks: &[Ask],
    said: &mut Vec<Said>,
) -> Result<(), OutOfMemory>
    requires fits { Each (AskFits (any_rules link.old).shape) asks.now }
    requires early { any_clock link.old + ticks_in asks.now < 2 ^ 61 }
    requires none { said.old.items ≡ [] }
    ensures { OnOk result (IsAnswered any_rules AnyStands link.old link.new asks.now (said_in said.new.items)) }
{
    let mut made = 0;
    while made < asks.len() {
        let more = answer_some(gate, actor, link, asks, made, said)?;
        made += more;
    }
    Ok(())
}

// Makes the next of these asks, after so many, or all ticks that come next and in which the link rests. Answers how many it made.
fn answer_some<G: Gate>(
    gate: &G,
    actor: ActorNo,
    link: &mut AnyLink,
    asks: &[Ask],
    made: usize,
    said: &mut Vec<Said>,
) -> Result<usize, OutOfMemory>
    requires inside { made < length asks.now }
    requires fits { Each (AskFits (any_rules link.old).shape) asks.now }
    requires early { any_clock link.old + ticks_in (drop made asks.now) < 2 ^ 61 }
    ensures some { IfOk result (λ count. 1 ≤ count) }
    ensures within { IfOk result (λ count. made + count ≤ length asks.now) }
    ensures clock { IfOk result (λ count. any_clock link.new + ticks_in (drop (made + count) asks.now) ≡ any_clock link.old + ticks_in (drop made asks.now)) }
    ensures answered { IfOk result (λ count. (first : Kept) → IsAnswered any_rules AnyStands first link.old (take made asks.now) (said_in said.old.items) → IsAnswered any_rules AnyStands first link.new (take (made + count) asks.now) (said_in said.new.items)) }
{
    let ticks = ticks_at_rest(link, asks, made);
    if ticks > 0 {
        rest(gate, actor, link, ticks as u64, said)?;
        return Ok(ticks);
    }
    step(gate, actor, link, &asks[made], said)?;
    Ok(1)
}

// How many ticks come next among these asks, after so many, in which the link rests.
fn ticks_at_rest(link: &AnyLink, asks: &[Ask], made: usize) -> usize
    requires inside { made < length asks.now }
    ensures within { made + result ≤ length asks.now }
    ensures ticks { take (made + result) asks.now ≡ take made asks.now ++ ticks result }
    ensures rests { 1 ≤ result → RestsBy result link.now }
{
    if !link.rests() {
        return 0;
    }
    let most = link.rests_until().saturating_sub(link.clock());
    ticks_ahead(asks, made, most)
}

// How many ticks come next among these asks, after so many, and at most how many are asked for.
fn ticks_ahead(asks: &[Ask], made: usize, most: u64) -> usize
    requires inside { made < length asks.now }
    ensures within { made + result ≤ length asks.now }
    ensures ticks { take (made + result) asks.now ≡ take made asks.now ++ ticks result }
    ensures most { result ≤ most }
{
    for place in made..asks.len() {
        let count = place - made;
        if count as u64 == most {
            return count;
        }
        if !is_tick(&asks[place]) {
            return count;
        }
    }
    asks.len() - made
}

// Whether this is a tick.
fn is_tick(ask: &Ask) -> bool
    ensures { result ≡ true → ask.now ≡ AskTick }
{
    matches!(ask, Ask::Tick)
}

// Keeps a reply.
fn keep(said: &mut Vec<Said>, reply: &Reply) -> Result<(), OutOfMemory>
    ensures { OnOk result (said_in said.new.items ≡ said_in said.old.items ++ reply.now ∷ []) }
{
    said.reserve(1)?;
    match quiet_clock(reply) {
        Some(clock) if clock < LATEST => {
            let run = QuietRun::new(clock, 1);
            said.push_reserved(Said::Quiet(run));
        }
        _ => said.push_reserved(Said::Replied(*reply)),
    }
    Ok(())
}

// The clock of a quiet tick, where this is what one tells.
fn quiet_clock(reply: &Reply) -> Option<u64>
    ensures { IfSome result (λ clock. reply.now ≡ quiet_reply clock) }
{
    match reply {
        Reply::Ticked {
            clock,
            full: 0,
            sent: None,
            best_sent: false,
            best_lost: false,
        } => Some(*clock),
        _ => None,
    }
}

// Has the link make so many ticks, in which it rests, and keeps what it says.
fn rest<G: Gate>(
    gate: &G,
    actor: ActorNo,
    link: &mut AnyLink,
    ticks: u64,
    said: &mut Vec<Said>,
) -> Result<(), OutOfMemory>
    requires some { 1 ≤ ticks }
    requires rests { RestsBy ticks link.old }
    requires early { any_clock link.old + ticks ≤ 2 ^ 61 }
    ensures rested { OnOk result (HasRested ticks link.old link.new) }
    ensures clock { OnOk result (any_clock link.new ≡ any_clock link.old + ticks) }
    ensures said { OnOk result (said_in said.new.items ≡ said_in said.old.items ++ quiets (any_clock link.old) ticks) }
{
    said.reserve(1)?;
    let number = link.shape().link;
    for _ in 0..ticks {
        gate.within(number, actor);
        gate.after(number, actor);
    }
    let clock = link.clock();
    link.rest(ticks);
    let run = QuietRun::new(clock, ticks);
    said.push_reserved(Said::Quiet(run));
    Ok(())
}

// Asks the link this, and keeps what it says.
fn step<G: Gate>(
    gate: &G,
    actor: ActorNo,
    link: &mut AnyLink,
    ask: &Ask,
    said: &mut Vec<Said>,
) -> Result<(), OutOfMemory>
    requires fits { AskFits (any_rules link.old).shape ask.now }
    requires early { any_clock link.old < 2 ^ 61 }
    ensures stepped { OnOk result ((reply : Replies) × (HasStepped ask.now reply link.old link.new × (said_in said.new.items ≡ said_in said.old.items ++ reply ∷ []))) }
    ensures clock { OnOk result (any_clock link.new ≡ clock_with ask.now (any_clock link.old)) }
{
    let number = link.shape().link;
    gate.within(number, actor);
    let reply = link.step(ask)?;
    gate.after(number, actor);
    keep(said, &reply)
}
