//! Runs that are played by a schedule.
ghost use Rattle.std.specs.Prelude.{◌≡◌, ◌+◌, ◌<◌, ◌≤◌, [], true, List, IfOk, IfErr, OnOk, length, reverse};
ghost use Rattle.call_script.specs.Tasks.{network_of};
ghost use Rattle.run_engine.specs.schedules.Quiet.{the_plane};
ghost use Rattle.run_engine.specs.runs.Runs.{next_for};
ghost use Rattle.run_engine.specs.schedules.Schedules.{IsActorOf, IsFaultOf, IsPlayed, IsStop, IsWanted, lined_turns, repeated, turn_of, turns_of};
ghost use Rattle.run_engine.specs.schedules.Watching.{HavePlayedOut, IsPlayedSeen, PlaysOn, PlaysOut, WatchStands};
ghost use Rattle.link_steps.specs.Lists.{Each};
ghost use Rattle.net_units.specs.Numbers.{actor_number};
ghost use Rattle.run_record.specs.declared.done.Done.{Done as Entry};

use crate::actors::actor_of;
use crate::callers::Callers;
use crate::engine::Engine;
use crate::rounds::make_plane_steps;
use crate::watching::{Watch, make_watched};
use call_script::{Do, Plan, Schedule};
use net_units::{ActorNo, OutOfMemory};
use run_record::Record;
use std::alloc::Global;

/// Why a schedule isn't played to its end.
#[derive(Clone, Copy, Debug, PartialEq, Eq)]
pub enum PlayFault {
    /// Out of memory.
    Memory,
    /// The item on this line asks for a step that isn't left: its actor has made `made` by then, and has no other.
    Step { line: u64, made: u64 },
}

impl From<OutOfMemory> for PlayFault {
    ghost use Rattle.std.specs.Prelude.{◌≡◌};
    ghost use Rattle.run_engine.specs.declared.playing.PlayFault.TheVariants.{Memory};

    ghost from_gives = { λ _ fault. fault ≡ Memory };

    fn from(_wanted: OutOfMemory) -> PlayFault {
        PlayFault::Memory
    }
}

/// Plays a schedule of a plan, shows each step to the watcher of the run, and answers the callers after it. A written schedule's items
/// are played in their order, each of them a number of steps of its actor in a row. Where none is written, the callers in their order,
/// and then the plane, each make their steps until none is left.
///
/// `Step` comes exactly where a written item asks for a step that isn't left, and names the first such line. Each item's actor is a
/// caller of the plan or the plane. The watcher has seen nothing before. After an `Err` nothing is said of it.
pub fn play_watched<W: Watch>(
    alloc: Global,
    plan: &Plan,
    schedule: &Schedule,
    watch: &mut W,
) -> Result<Callers, PlayFault>
    requires fresh { W.saw watch.old plan.now [] }
    requires actors { Each (IsActorOf plan.now) schedule.now.items }
    ensures played { IfOk result (λ callers. IsPlayedSeen W.saw plan.now schedule.now callers watch.new) }
    ensures table { OnOk result (W.has_table watch.new ≡ W.has_table watch.old) }
    ensures fault { IfErr result (IsFaultOf (network_of plan.now) schedule.now) }
{
    let mut engine = Engine::new(alloc, plan)?;
    if schedule.written {
        play_items(&mut engine, watch, plan, schedule.items.as_slice())?;
    } else {
        play_all(&mut engine, watch, plan)?;
    }
    Ok(engine.into_callers())
}

// Plays the items of a schedule in their order.
fn play_items<W: Watch>(
    engine: &mut Engine,
    watch: &mut W,
    plan: &Plan,
    items: &[Do],
) -> Result<(), PlayFault>
    requires stand { WatchStands W.saw plan.now engine.old watch.old [] }
    requires actors { Each (IsActorOf plan.now) items.now }
    ensures follows { OnOk result (PlaysOn W.saw plan.now engine.new watch.new [] (turns_of items.now)) }
    ensures table { OnOk result (W.has_table watch.new ≡ W.has_table watch.old) }
    ensures fault { IfErr result (IsStop (network_of plan.now) [] (lined_turns items.now)) }
{
    for item in items {
        play_item(engine, watch, plan, item)?;
    }
    Ok(())
}

// Makes the steps of one item.
fn play_item<W: Watch>(
    engine: &mut Engine,
    watch: &mut W,
    plan: &Plan,
    item: &Do,
) -> Result<(), PlayFault>
    requires stand { (run : List Entry) × WatchStands W.saw plan.now engine.old watch.old run }
    requires actor { IsActorOf plan.now item.now }
    ensures follows { OnOk result ((past : List Entry) → WatchStands W.saw plan.now engine.old watch.old past → PlaysOn W.saw plan.now engine.new watch.new past (repeated item.now.count item.now.actor)) }
    ensures table { OnOk result (W.has_table watch.new ≡ W.has_table watch.old) }
    ensures fault { IfErr result (λ fault. (past : List Entry) → WatchStands W.saw plan.now engine.old watch.old past → IsStop (network_of plan.now) past (repeated item.now.count (turn_of item.now)) fault) }
{
    let mut left = item.count;
    while left > 0 {
        let made = make_some(engine, watch, plan, item.actor, left)?;
        if made == 0 {
            return Err(PlayFault::Step {
                line: item.line,
                made: watch.steps_of(item.actor),
            });
        }
        left -= made;
    }
    Ok(())
}

// Lets the callers in their order, and then the plane, each make their steps.
fn play_all<W: Watch>(engine: &mut Engine, watch: &mut W, plan: &Plan) -> Result<(), PlayFault>
    requires { WatchStands W.saw plan.now engine.old watch.old [] }
    ensures played { OnOk result (HavePlayedOut W.saw plan.now engine.new watch.new (length plan.now.callers + 1)) }
    ensures table { OnOk result (W.has_table watch.new ≡ W.has_table watch.old) }
    ensures fault { IfErr result IsWanted }
{
    for number in 0..plan.callers().len() + 1 {
        make_all(engine, watch, plan, actor_of(number))?;
    }
    Ok(())
}

// Lets the actor make its steps until it has none left.
fn make_all<W: Watch>(
    engine: &mut Engine,
    watch: &mut W,
    plan: &Plan,
    actor: ActorNo,
) -> Result<(), PlayFault>
    requires { (run : List Entry) × WatchStands W.saw plan.now engine.old watch.old run }
    ensures out { OnOk result ((past : List Entry) → WatchStands W.saw plan.now engine.old watch.old past → PlaysOut W.saw plan.now engine.new watch.new past actor) }
    ensures table { OnOk result (W.has_table watch.new ≡ W.has_table watch.old) }
    ensures fault { IfErr result IsWanted }
{
    // a run has fewer steps
    for _ in 0..u64::MAX {
        if make_some(engine, watch, plan, actor, u64::MAX)? == 0 {
            return Ok(());
        }
    }
    unreachable!()
}

// Makes steps of the actor, at most this many: some of the plane's at once, or else one step. Answers how many it made, which is 0
// exactly where the actor has none left.
fn make_some<W: Watch>(
    engine: &mut Engine,
    watch: &mut W,
    plan: &Plan,
    actor: ActorNo,
    most: u64,
) -> Result<u64, OutOfMemory>
    requires stand { (run : List Entry) × WatchStands W.saw plan.now engine.old watch.old run }
    requires some { 1 ≤ most }
    ensures most { IfOk result (λ made. made ≤ most) }
    ensures plays { IfOk result (λ made. (past : List Entry) → WatchStands W.saw plan.now engine.old watch.old past → PlaysOn W.saw plan.now engine.new watch.new past (repeated made actor)) }
    ensures over { IfOk result (λ made. made ≡ 0 → (past : List Entry) → WatchStands W.saw plan.now engine.old watch.old past → next_for (network_of plan.now) (actor_number actor) past ≡ None) }
    ensures table { OnOk result (W.has_table watch.new ≡ W.has_table watch.old) }
{
    if is_plane(plan, actor) {
        return make_plane_steps(engine, watch, plan, most);
    }
    match engine.next_ask(plan, actor) {
        Some((link, ask)) => {
            make_watched(engine, watch, plan, actor, link, ask)?;
            Ok(1)
        }
        None => Ok(0),
    }
}

// Whether the actor is the plane.
fn is_plane(plan: &Plan, actor: ActorNo) -> bool
    ensures { result ≡ true → actor ≡ the_plane (network_of plan.now) }
{
    usize::from(actor.get()) == plan.callers().len()
}
