//! The plane's rounds, by several workers where that pays.
ghost use Rattle.std.specs.Prelude.{◌≡◌, ◌+◌, ◌<◌, ◌≤◌, List, IfOk, OnOk, length};
ghost use Rattle.net_units.specs.Numbers.{actor_at};
ghost use Rattle.call_script.specs.Tasks.{network_of};
ghost use Rattle.run_engine.specs.schedules.Lagging.{MayLag};
ghost use Rattle.run_engine.specs.schedules.Watching.{PlaysOut, WatchStands};
ghost use Rattle.plane_workers.specs.Seen.{PlaysMore};
ghost use Rattle.plane_workers.specs.Windows.{IsJobOf};
ghost use Rattle.run_record.specs.declared.done.Done.{Done as Step};

use crate::alone::make_alone;
use crate::gap::least_gap;
use crate::job::Job;
use crate::lane::{lanes_of, links_in};
use crate::pace::{Pace, Part};
use crate::showing::show_windows;
use crate::track::{links_on, tracks_of};
use crate::window::make_windows;
use call_script::Plan;
use net_units::{Gate, OutOfMemory};
use run_engine::{Engine, Watch, actor_of};
use std::alloc::Global;
use std::thread::Threads;

// Lets the plane make its rounds until none is left.
pub(crate) fn make_rounds<R: Threads + Sync, W: Watch, G: Gate + Sync>(
    rt: &R,
    alloc: Global,
    plan: &Plan,
    engine: Engine,
    workers: usize,
    gate: &G,
    watch: &mut W,
) -> Result<Engine, OutOfMemory>
    requires stand { (run : List Step) × WatchStands W.saw plan.now engine watch.old run }
    ensures out { IfOk result (λ made. (past : List Step) → WatchStands W.saw plan.now engine watch.old past → PlaysOut W.saw plan.now made watch.new past (actor_at (length plan.now.callers))) }
    ensures table { OnOk result (W.has_table watch.new ≡ W.has_table watch.old) }
{
    let gap = least_gap(plan);
    let rounds = plan.rounds() + plan.tail();
    let actor = actor_of(plan.callers().len());
    let job = Job {
        rt,
        alloc,
        plan,
        gate,
        actor,
        gap,
        rounds,
    };
    let mut pace = Pace::new(plan.links().len(), gap, workers);
    let mut engine = engine;
    while engine.round() < rounds {
        let round = engine.round();
        let part = pace.next(round, rounds, engine.flights());
        let made = make_part(&job, engine, watch, &part, &mut pace)?;
        engine = made;
    }
    Ok(engine)
}

// The rounds until that of the part begins, and where several workers make them, more of them as long as that pays.
fn make_part<R: Threads + Sync, W: Watch, G: Gate + Sync>(
    job: &Job<R, G>,
    engine: Engine,
    watch: &mut W,
    part: &Part,
    pace: &mut Pace,
) -> Result<Engine, OutOfMemory>
    requires job { IsJobOf job.now.plan.now job.now.actor job.now.gap job.now.rounds }
    requires stand { (run : List Step) × WatchStands W.saw job.now.plan.now engine watch.old run }
    requires early { engine.actors.plane.at.round < part.now.until }
    requires all { part.now.until ≤ job.now.rounds }
    requires near { 1 < part.now.workers → part.now.until ≤ engine.actors.plane.at.round + job.now.gap + 1 }
    requires gap { pace.old.gap ≡ job.now.gap }
    ensures plays { IfOk result (λ made. (past : List Step) → WatchStands W.saw job.now.plan.now engine watch.old past → PlaysMore W.saw job.now.plan.now made watch.new past job.now.actor 0) }
    ensures at { IfOk result (λ made. part.now.until ≤ made.actors.plane.at.round) }
    ensures gap { OnOk result (pace.new.gap ≡ job.now.gap) }
    ensures table { OnOk result (W.has_table watch.new ≡ W.has_table watch.old) }
{
    if part.workers > 1 {
        return make_apart(job, engine, watch, part, pace);
    }
    let mut engine = engine;
    let round = engine.round();
    let busy = make_alone(
        &mut engine,
        job.plan,
        watch,
        job.gate,
        job.actor,
        part.until,
    )?;
    pace.note(part.until.saturating_sub(round), busy);
    Ok(engine)
}

// The same by several workers. A watcher that may lag is shown the ticks that tell something, and another one all steps.
fn make_apart<R: Threads + Sync, W: Watch, G: Gate + Sync>(
    job: &Job<R, G>,
    engine: Engine,
    watch: &mut W,
    part: &Part,
    pace: &mut Pace,
) -> Result<Engine, OutOfMemory>
    requires job { IsJobOf job.now.plan.now job.now.actor job.now.gap job.now.rounds }
    requires stand { (run : List Step) × WatchStands W.saw job.now.plan.now engine watch.old run }
    requires workers { 0 < part.now.workers }
    requires early { engine.actors.plane.at.round < part.now.until }
    requires all { part.now.until ≤ job.now.rounds }
    requires near { part.now.until ≤ engine.actors.plane.at.round + job.now.gap + 1 }
    requires gap { pace.old.gap ≡ job.now.gap }
    ensures plays { IfOk result (λ made. (past : List Step) → WatchStands W.saw job.now.plan.now engine watch.old past → PlaysMore W.saw job.now.plan.now made watch.new past job.now.actor 0) }
    ensures at { IfOk result (λ made. part.now.until ≤ made.actors.plane.at.round) }
    ensures gap { OnOk result (pace.new.gap ≡ job.now.gap) }
    ensures table { OnOk result (W.has_table watch.new ≡ W.has_table watch.old) }
{
    if watch.may_lag() && engine.starts_round() {
        return make_lagging(job, engine, watch, part, pace);
    }
    make_seen(job, engine, watch, part, pace)
}

// The same for a watcher that may lag, from the start of a round. The links are taken out of the engine.
fn make_lagging<R: Threads + Sync, W: Watch, G: Gate + Sync>(
    job: &Job<R, G>,
    engine: Engine,
    watch: &mut W,
    part: &Part,
    pace: &mut Pace,
) -> Result<Engine, OutOfMemory>
    requires laws { MayLag W.saw W.lags }
    requires starts { engine.actors.plane.at.ticked ≡ 0 }
    requires job { IsJobOf job.now.plan.now job.now.actor job.now.gap job.now.rounds }
    requires stand { (run : List Step) × WatchStands W.saw job.now.plan.now engine watch.old run }
    requires workers { 0 < part.now.workers }
    requires early { engine.actors.plane.at.round < part.now.until }
    requires all { part.now.until ≤ job.now.rounds }
    requires near { part.now.until ≤ engine.actors.plane.at.round + job.now.gap + 1 }
    requires gap { pace.old.gap ≡ job.now.gap }
    ensures plays { IfOk result (λ made. (past : List Step) → WatchStands W.saw job.now.plan.now engine watch.old past → PlaysMore W.saw job.now.plan.now made watch.new past job.now.actor 0) }
    ensures at { IfOk result (λ made. part.now.until ≤ made.actors.plane.at.round) }
    ensures gap { OnOk result (pace.new.gap ≡ job.now.gap) }
    ensures table { OnOk result (W.has_table watch.new ≡ W.has_table watch.old) }
{
    let (links, mut plane, callers) = engine.into_parts();
    let mut tracks = tracks_of(job.alloc, links)?;
    show_windows(job, &mut plane, &mut tracks, watch, part, pace)?;
    let links = links_on(job.alloc, tracks)?;
    Ok(Engine::from_parts(links, plane, callers))
}

// The same for a watcher that is shown all steps. The links are taken out of the engine.
fn make_seen<R: Threads + Sync, W: Watch, G: Gate + Sync>(
    job: &Job<R, G>,
    engine: Engine,
    watch: &mut W,
    part: &Part,
    pace: &mut Pace,
) -> Result<Engine, OutOfMemory>
    requires job { IsJobOf job.now.plan.now job.now.actor job.now.gap job.now.rounds }
    requires stand { (run : List Step) × WatchStands W.saw job.now.plan.now engine watch.old run }
    requires workers { 0 < part.now.workers }
    requires early { engine.actors.plane.at.round < part.now.until }
    requires all { part.now.until ≤ job.now.rounds }
    requires near { part.now.until ≤ engine.actors.plane.at.round + job.now.gap + 1 }
    requires gap { pace.old.gap ≡ job.now.gap }
    ensures plays { IfOk result (λ made. (past : List Step) → WatchStands W.saw job.now.plan.now engine watch.old past → PlaysMore W.saw job.now.plan.now made watch.new past job.now.actor 0) }
    ensures at { IfOk result (λ made. part.now.until ≤ made.actors.plane.at.round) }
    ensures gap { OnOk result (pace.new.gap ≡ job.now.gap) }
    ensures table { OnOk result (W.has_table watch.new ≡ W.has_table watch.old) }
{
    let (links, mut plane, callers) = engine.into_parts();
    let mut lanes = lanes_of(job.alloc, links)?;
    make_windows(job, &mut plane, &mut lanes, watch, part, pace)?;
    let links = links_in(job.alloc, lanes)?;
    Ok(Engine::from_parts(links, plane, callers))
}
