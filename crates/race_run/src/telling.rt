//! The entries of journals, told to a watcher in order of stamp.
ghost use Rattle.std.specs.Prelude.{◌≡◌, ℕ, ◌+◌, ◌-◌, ◌^◌, ◌<◌, ◌∷◌, [], List, Some, IfOk, IfSome, OnOk, true, length, reverse};
ghost use Rattle.std.specs.List.{slice_get};
ghost use Rattle.call_script.specs.Tasks.{network_of};
ghost use Rattle.link_ledger.specs.Tokens.{Token};
ghost use Rattle.link_steps.specs.Quiet.{quiet_reply};
ghost use Rattle.link_steps.specs.declared.asks.Ask.TheVariants.{Tick as AskTick};
ghost use Rattle.run_engine.specs.schedules.PlaneSteps.{plane_step};
ghost use Rattle.run_engine.specs.schedules.Quiet.{the_plane};
ghost use Rattle.run_engine.specs.schedules.Schedules.{turns_of};
ghost use Rattle.run_engine.specs.schedules.Watching.{IsNextSeen};
ghost use Rattle.run_record.specs.declared.done.Done.{Done as Step};
ghost use Rattle.race_run.specs.Order.{HasOrder};
ghost use Rattle.race_run.specs.Telling.{HasTold, TellsNext, done_on, weave_below};
ghost use Rattle.race_run.specs.Turns.{AreMaximalRuns, actors_of};
ghost use Rattle.race_run.specs.Whole.{IsWhole};

use crate::turns::add_turn;
use call_script::{Do, Plan};
use link_ledger::{Entry, Journal};
use link_steps::{Ask, Reply};
use net_units::{ActorNo, LinkNo, OutOfMemory};
use run_engine::Watch;
use run_record::Done;
use std::alloc::Global;

/// Shows the entries of these journals to a watcher, which has seen nothing, in order of stamp: those with stamps within this table of
/// the order. Answers their actors in maximal runs. An `Err` comes only for want of memory.
pub(crate) fn tell<W: Watch>(
    alloc: Global,
    plan: &Plan,
    journals: &[Journal],
    order: &[u8],
    watch: &mut W,
) -> Result<Vec<Do>, OutOfMemory>
    requires whole { (passes : List Token) × IsWhole (network_of plan.now) passes journals.now }
    requires order { HasOrder journals.now order.now }
    requires fresh { W.saw watch.old plan.now [] }
    ensures runs { IfOk result (λ items. AreMaximalRuns (actors_of (reverse (weave_below (length order.now) journals.now))) items.items) }
    ensures seen { OnOk result (W.saw watch.new plan.now (weave_below (length order.now) journals.now)) }
    ensures table { OnOk result (W.has_table watch.new ≡ W.has_table watch.old) }
{
    // Read for what it says of every plan.
    let _valid = plan.links();
    let mut told = vec![in alloc; 0usize; journals.len()]?;
    let mut items = Vec::new(alloc);
    for number in order {
        let place = usize::from(*number);
        tell_next(plan, journals, place, &mut told, &mut items, watch)?;
    }
    Ok(items)
}

// Shows the next entry of the journal at this place, where there is one, to the watcher.
#[inline(always)]
fn tell_next<W: Watch>(
    plan: &Plan,
    journals: &[Journal],
    place: usize,
    told: &mut Vec<usize>,
    items: &mut Vec<Do>,
    watch: &mut W,
) -> Result<(), OutOfMemory>
    requires whole { (passes : List Token) × IsWhole (network_of plan.now) passes journals.now }
    requires next { (stamp : ℕ) × TellsNext W.saw plan.now journals.now told.old.items items.old.items watch.old place stamp }
    requires few { length (turns_of items.old.items) < 2 ^ 64 - 1 }
    ensures told { OnOk result ((stamp : ℕ) → TellsNext W.saw plan.now journals.now told.old.items items.old.items watch.old place stamp → HasTold W.saw plan.now journals.now told.new.items items.new.items watch.new (stamp + 1)) }
    ensures table { OnOk result (W.has_table watch.new ≡ W.has_table watch.old) }
{
    // Read for what it says of every plan.
    let _valid = plan.links();
    if place >= journals.len() {
        return Ok(());
    }
    let journal = &journals[place];
    let at = told[place];
    let entry = entry_at(journal, at);
    told[place] = at + 1;
    add_turn(items, entry.actor)?;
    see(plan, journal.link, entry, watch)?;
    Ok(())
}

// The entry at this place of the journal, from 0.
#[inline(always)]
fn entry_at(journal: &Journal, at: usize) -> &Entry
    requires { at < length journal.now.entries }
    ensures here { slice_get journal.now.entries at ≡ Some result.now }
    ensures small { at < 2 ^ 63 }
{
    &journal.entries.as_slice()[at]
}

// Shows an entry of the journal of this link to the watcher.
#[inline(always)]
fn see<W: Watch>(plan: &Plan, link: LinkNo, entry: &Entry, watch: &mut W) -> Result<(), OutOfMemory>
    requires { (past : List Step) × IsNextSeen W.saw plan.now watch.old past (done_on link entry.now) }
    ensures seen { OnOk result ((past : List Step) → IsNextSeen W.saw plan.now watch.old past (done_on link entry.now) → W.saw watch.new plan.now (done_on link entry.now ∷ past)) }
    ensures table { OnOk result (W.has_table watch.new ≡ W.has_table watch.old) }
{
    if is_plane(plan, entry.actor) {
        see_plane(plan, link, &entry.ask, &entry.reply, watch)?;
        return Ok(());
    }
    let done = Done {
        actor: entry.actor,
        link,
        ask: entry.ask,
        reply: entry.reply,
    };
    watch.see(plan, &done)?;
    Ok(())
}

// Whether the actor is the plane.
fn is_plane(plan: &Plan, actor: ActorNo) -> bool
    ensures { result ≡ true → actor ≡ the_plane (network_of plan.now) }
{
    usize::from(actor.get()) == plan.callers().len()
}

// Shows a step of the plane to the watcher.
#[inline(always)]
fn see_plane<W: Watch>(
    plan: &Plan,
    link: LinkNo,
    ask: &Ask,
    reply: &Reply,
    watch: &mut W,
) -> Result<(), OutOfMemory>
    requires { (past : List Step) × IsNextSeen W.saw plan.now watch.old past (plane_step (network_of plan.now) link ask.now reply.now) }
    ensures seen { OnOk result ((past : List Step) → IsNextSeen W.saw plan.now watch.old past (plane_step (network_of plan.now) link ask.now reply.now) → W.saw watch.new plan.now (plane_step (network_of plan.now) link ask.now reply.now ∷ past)) }
    ensures table { OnOk result (W.has_table watch.new ≡ W.has_table watch.old) }
{
    match quiet_clock(ask, reply) {
        Some(clock) => {
            watch.passed(plan, link, clock)?;
            Ok(())
        }
        None => {
            watch.see_plane(plan, link, ask, reply)?;
            Ok(())
        }
    }
}

// The clock of a tick in which nothing happens, where this is one.
#[inline(always)]
fn quiet_clock(ask: &Ask, reply: &Reply) -> Option<u64>
    ensures { IfSome result (λ clock. (ask.now ≡ AskTick) × (reply.now ≡ quiet_reply clock)) }
{
    match ask {
        Ask::Tick => quiet_tick(reply),
        _ => None,
    }
}

// The same of the reply to a tick.
#[inline(always)]
fn quiet_tick(reply: &Reply) -> Option<u64>
    ensures { IfSome result (λ clock. reply.now ≡ quiet_reply clock) }
{
    match reply {
        Reply::Ticked {
            clock,
            full: 0,
            sent: None,
            best_sent: false,
            best_lost: false,
        } => Some(*clock),
        _ => None,
    }
}
