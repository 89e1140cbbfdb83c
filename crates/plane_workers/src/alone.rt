//! Rounds that one thread makes, as a play without workers does.
ghost use Rattle.std.specs.Prelude.{◌≡◌, ◌+◌, ◌<◌, ◌≤◌, List, OnOk};
ghost use Rattle.call_script.specs.Tasks.{network_of};
ghost use Rattle.run_engine.specs.schedules.Quiet.{the_plane};
ghost use Rattle.run_engine.specs.schedules.Watching.{WatchStands};
ghost use Rattle.plane_workers.specs.Seen.{PlaysMore};
ghost use Rattle.run_record.specs.declared.done.Done.{Done as Step};

use crate::desk::link_of;
use call_script::Plan;
use net_units::{ActorNo, Gate, OutOfMemory};
use run_engine::{Engine, Watch, make_plane_step, stride_watched};

// Lets the plane make its steps until a round begins: rounds at rest in strides, and the others step by step. Answers how many of the
// rounds weren't at rest.
pub(crate) fn make_alone<W: Watch, G: Gate>(
    engine: &mut Engine,
    plan: &Plan,
    watch: &mut W,
    gate: &G,
    actor: ActorNo,
    until: u64,
) -> Result<u64, OutOfMemory>
    requires actor { actor ≡ the_plane (network_of plan.now) }
    requires stand { (run : List Step) × WatchStands W.saw plan.now engine.old watch.old run }
    requires all { until ≤ (network_of plan.now).rounds }
    ensures plays { OnOk result ((past : List Step) → WatchStands W.saw plan.now engine.old watch.old past → PlaysMore W.saw plan.now engine.new watch.new past actor 0) }
    ensures at { OnOk result (until ≤ engine.new.actors.plane.at.round) }
    ensures table { OnOk result (W.has_table watch.new ≡ W.has_table watch.old) }
{
    let from = engine.round();
    let mut rested = 0u64;
    // a run has fewer steps
    for _ in 0..u64::MAX {
        let round = engine.round();
        if round >= until {
            return Ok(until.saturating_sub(from).saturating_sub(rested));
        }
        let more = make_some(engine, plan, watch, gate, actor, until - round)?;
        rested = rested.saturating_add(more);
    }
    unreachable!()
}

// Lets the plane make a stride of at most this many rounds where all rests, or else one step. Answers how many rounds it made at rest.
fn make_some<W: Watch, G: Gate>(
    engine: &mut Engine,
    plan: &Plan,
    watch: &mut W,
    gate: &G,
    actor: ActorNo,
    most: u64,
) -> Result<u64, OutOfMemory>
    requires actor { actor ≡ the_plane (network_of plan.now) }
    requires stand { (run : List Step) × WatchStands W.saw plan.now engine.old watch.old run }
    requires left { engine.old.actors.plane.at.round < (network_of plan.now).rounds }
    ensures plays { OnOk result ((past : List Step) → WatchStands W.saw plan.now engine.old watch.old past → PlaysMore W.saw plan.now engine.new watch.new past actor 1) }
    ensures table { OnOk result (W.has_table watch.new ≡ W.has_table watch.old) }
{
    let rest = engine.rounds_at_rest().min(most);
    if rest > 0 {
        pass_gate(gate, plan.links().len(), rest, actor);
        stride_watched(engine, watch, plan, rest)?;
        return Ok(rest);
    }
    let more = make_plane_step(engine, watch, plan, gate)?;
    if more {
        return Ok(0);
    }
    unreachable!()
}

// Calls the gate for each tick of this many rounds of this many links.
fn pass_gate<G: Gate>(gate: &G, links: usize, rounds: u64, actor: ActorNo)
    requires { links ≤ 32 }
{
    for _ in 0..rounds {
        for number in 0..links {
            let link = link_of(number);
            gate.within(link, actor);
            gate.after(link, actor);
        }
    }
}
