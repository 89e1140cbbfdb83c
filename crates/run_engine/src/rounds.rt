//! The plane's steps, made and shown without the entries that they stand for, many of them at once.
ghost use Rattle.std.specs.Prelude.{◌≡◌, ◌≤◌, true, false, None, List, IfOk, OnOk};
ghost use Rattle.call_script.specs.Tasks.{network_of};
ghost use Rattle.link_server.specs.Asks.{IsArriveOrTick};
ghost use Rattle.link_steps.specs.declared.asks.Ask.TheVariants.{Tick as AskTick};
ghost use Rattle.net_units.specs.Numbers.{actor_number};
ghost use Rattle.run_engine.specs.runs.Runs.{next_for};
ghost use Rattle.run_engine.specs.schedules.PlaneSteps.{IsOver};
ghost use Rattle.run_engine.specs.schedules.Quiet.{the_plane};
ghost use Rattle.run_engine.specs.schedules.Resting.{EngineRests, RestsAt};
ghost use Rattle.run_engine.specs.schedules.Schedules.{repeated};
ghost use Rattle.run_engine.specs.schedules.Watching.{GoesOn, IsAsked, PlaysOn, PlaysOut, WatchStands};
ghost use Rattle.run_record.specs.declared.done.Done.{Done as Entry};

use crate::engine::Engine;
use crate::quiet::plane_of;
use crate::watching::{Watch, stride_watched};
use call_script::Plan;
use link_steps::{Ask, Reply};
use net_units::{Gate, LinkNo, NoGate, OutOfMemory};

/// Lets the plane make its steps until it has none left, and shows them to the watcher. An `Err` comes only for want of memory.
pub fn play_plane<W: Watch>(
    engine: &mut Engine,
    watch: &mut W,
    plan: &Plan,
) -> Result<(), OutOfMemory>
    requires { (run : List Entry) × WatchStands W.saw plan.now engine.old watch.old run }
    ensures out { OnOk result ((past : List Entry) → WatchStands W.saw plan.now engine.old watch.old past → PlaysOut W.saw plan.now engine.new watch.new past (the_plane (network_of plan.now))) }
    ensures table { OnOk result (W.has_table watch.new ≡ W.has_table watch.old) }
{
    // a run has fewer steps
    for _ in 0..u64::MAX {
        if make_plane_steps(engine, watch, plan, u64::MAX)? == 0 {
            return Ok(());
        }
    }
    unreachable!()
}

// Makes steps of the plane, at most this many: a stride of whole rounds where all rests, or else those that are left of a round.
// Answers how many it made, which is 0 exactly where the plane has none left.
pub(crate) fn make_plane_steps<W: Watch>(
    engine: &mut Engine,
    watch: &mut W,
    plan: &Plan,
    most: u64,
) -> Result<u64, OutOfMemory>
    requires stand { (run : List Entry) × WatchStands W.saw plan.now engine.old watch.old run }
    requires some { 1 ≤ most }
    ensures most { IfOk result (λ made. made ≤ most) }
    ensures plays { IfOk result (λ made. (past : List Entry) → WatchStands W.saw plan.now engine.old watch.old past → PlaysOn W.saw plan.now engine.new watch.new past (repeated made (the_plane (network_of plan.now)))) }
    ensures over { IfOk result (λ made. made ≡ 0 → (past : List Entry) → WatchStands W.saw plan.now engine.old watch.old past → next_for (network_of plan.now) (actor_number (the_plane (network_of plan.now))) past ≡ None) }
    ensures table { OnOk result (W.has_table watch.new ≡ W.has_table watch.old) }
{
    let links = plan.links().len() as u64;
    let rounds = rounds_at_most(engine, most / links);
    if rounds > 0 {
        stride_watched(engine, watch, plan, rounds)?;
        return Ok(rounds * links);
    }
    make_round(engine, watch, plan, most)
}

// How many rounds the engine rests for, at most this many.
fn rounds_at_most(engine: &Engine, most: u64) -> u64
    ensures most { result ≤ most }
    ensures rests { 1 ≤ result → EngineRests engine.now result }
{
    engine.rounds_at_rest().min(most)
}

// Makes the plane's steps until its round is over, at most this many.
fn make_round<W: Watch>(
    engine: &mut Engine,
    watch: &mut W,
    plan: &Plan,
    most: u64,
) -> Result<u64, OutOfMemory>
    requires stand { (run : List Entry) × WatchStands W.saw plan.now engine.old watch.old run }
    requires some { 1 ≤ most }
    ensures most { IfOk result (λ made. made ≤ most) }
    ensures plays { IfOk result (λ made. (past : List Entry) → WatchStands W.saw plan.now engine.old watch.old past → PlaysOn W.saw plan.now engine.new watch.new past (repeated made (the_plane (network_of plan.now)))) }
    ensures over { IfOk result (λ made. made ≡ 0 → (past : List Entry) → WatchStands W.saw plan.now engine.old watch.old past → next_for (network_of plan.now) (actor_number (the_plane (network_of plan.now))) past ≡ None) }
    ensures table { OnOk result (W.has_table watch.new ≡ W.has_table watch.old) }
{
    let round = engine.round();
    let mut made = 0;
    while made < most {
        if !make_plane_step(engine, watch, plan, &NoGate)? {
            return Ok(made);
        }
        made += 1;
        if engine.round() != round {
            return Ok(made);
        }
    }
    Ok(made)
}

/// Makes the plane's next step between two calls of the gate, and shows it to the watcher. Answers whether there is one; where there
/// is none the gate isn't called. An `Err` comes only for want of memory.
#[inline(always)]
pub fn make_plane_step<W: Watch, G: Gate>(
    engine: &mut Engine,
    watch: &mut W,
    plan: &Plan,
    gate: &G,
) -> Result<bool, OutOfMemory>
    requires { (run : List Entry) × WatchStands W.saw plan.now engine.old watch.old run }
    ensures goes_on { IfOk result (λ more. more ≡ true → (past : List Entry) → WatchStands W.saw plan.now engine.old watch.old past → GoesOn W.saw plan.now engine.new watch.new past (the_plane (network_of plan.now))) }
    ensures over { IfOk result (λ more. more ≡ false → (past : List Entry) → WatchStands W.saw plan.now engine.old watch.old past → IsOver W.saw plan.now engine.new watch.new past (the_plane (network_of plan.now))) }
    ensures table { OnOk result (W.has_table watch.new ≡ W.has_table watch.old) }
{
    match engine.actors.plane.next_tick() {
        Some(link) => {
            let actor = plane_of(plan);
            gate.within(link, actor);
            make_tick(engine, watch, plan, link)?;
            gate.after(link, actor);
            Ok(true)
        }
        None => make_asked(engine, watch, plan, gate),
    }
}

// The same of any step. Ticks are most of the plane's steps, and their ask needn't be made.
#[inline(always)]
fn make_asked<W: Watch, G: Gate>(
    engine: &mut Engine,
    watch: &mut W,
    plan: &Plan,
    gate: &G,
) -> Result<bool, OutOfMemory>
    requires { (run : List Entry) × WatchStands W.saw plan.now engine.old watch.old run }
    ensures goes_on { IfOk result (λ more. more ≡ true → (past : List Entry) → WatchStands W.saw plan.now engine.old watch.old past → GoesOn W.saw plan.now engine.new watch.new past (the_plane (network_of plan.now))) }
    ensures over { IfOk result (λ more. more ≡ false → (past : List Entry) → WatchStands W.saw plan.now engine.old watch.old past → IsOver W.saw plan.now engine.new watch.new past (the_plane (network_of plan.now))) }
    ensures table { OnOk result (W.has_table watch.new ≡ W.has_table watch.old) }
{
    match engine.actors.plane.next_ask() {
        None => Ok(false),
        Some((link, ask)) => {
            let actor = plane_of(plan);
            gate.within(link, actor);
            step_watched(engine, watch, plan, link, &ask)?;
            gate.after(link, actor);
            Ok(true)
        }
    }
}

// Makes the plane's next step, the tick of this link: nothing but its clock changes where the link rests.
#[inline(always)]
fn make_tick<W: Watch>(
    engine: &mut Engine,
    watch: &mut W,
    plan: &Plan,
    link: LinkNo,
) -> Result<(), OutOfMemory>
    requires { (run : List Entry) × IsAsked W.saw plan.now engine.old watch.old run (the_plane (network_of plan.now)) link AskTick }
    ensures goes_on { OnOk result ((past : List Entry) → IsAsked W.saw plan.now engine.old watch.old past (the_plane (network_of plan.now)) link AskTick → GoesOn W.saw plan.now engine.new watch.new past (the_plane (network_of plan.now))) }
    ensures table { OnOk result (W.has_table watch.new ≡ W.has_table watch.old) }
{
    if engine.rests_at(link) {
        pass_watched(engine, watch, plan, link)
    } else {
        step_watched(engine, watch, plan, link, &Ask::Tick)
    }
}

// Makes the plane's next step, the tick of this link, in which nothing falls due there, and shows it to the watcher.
#[inline(always)]
fn pass_watched<W: Watch>(
    engine: &mut Engine,
    watch: &mut W,
    plan: &Plan,
    link: LinkNo,
) -> Result<(), OutOfMemory>
    requires asked { (run : List Entry) × IsAsked W.saw plan.now engine.old watch.old run (the_plane (network_of plan.now)) link AskTick }
    requires rests { RestsAt engine.old link }
    ensures goes_on { OnOk result ((past : List Entry) → IsAsked W.saw plan.now engine.old watch.old past (the_plane (network_of plan.now)) link AskTick → GoesOn W.saw plan.now engine.new watch.new past (the_plane (network_of plan.now))) }
    ensures table { OnOk result (W.has_table watch.new ≡ W.has_table watch.old) }
{
    let clock = engine.pass_link(link)?;
    engine.actors.pass_plane();
    watch.passed(plan, link, clock)?;
    Ok(())
}

// Makes the plane's next step, which asks this link this, and shows it to the watcher. The plane asks for arrivals and ticks alone.
#[inline(always)]
fn step_watched<W: Watch>(
    engine: &mut Engine,
    watch: &mut W,
    plan: &Plan,
    link: LinkNo,
    ask: &Ask,
) -> Result<(), OutOfMemory>
    requires asked { (run : List Entry) × IsAsked W.saw plan.now engine.old watch.old run (the_plane (network_of plan.now)) link ask.now }
    requires sure { IsArriveOrTick ask.now }
    ensures goes_on { OnOk result ((past : List Entry) → IsAsked W.saw plan.now engine.old watch.old past (the_plane (network_of plan.now)) link ask.now → GoesOn W.saw plan.now engine.new watch.new past (the_plane (network_of plan.now))) }
    ensures table { OnOk result (W.has_table watch.new ≡ W.has_table watch.old) }
{
    engine.actors.ready()?;
    // it is written there, whatever it is now
    let mut reply = Reply::Denied;
    engine.ask_into(link, ask, &mut reply);
    engine.actors.take_plane(&reply);
    watch.see_plane(plan, link, ask, &reply)?;
    Ok(())
}
