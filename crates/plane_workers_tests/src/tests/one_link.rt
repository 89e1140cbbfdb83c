//! A plan of one link, whose caller opens a channel, played by workers.
ghost use Rattle.std.specs.Prelude.{◌≤◌};

use call_script::{Do, Dos, Plan, Schedule};
use net_units::{ActorNo, NoGate};
use one_link_plans::opened;
use plane_workers::{played, played_watched};
use run_engine::PlayFault;
use run_record::Record;
use std::alloc::Global;
use std::process::Abort;
use std::test::Fail;
use std::thread::Threads;

// How many steps the run of a schedule has.
fn steps_of<R: Threads + Sync>(
    rt: &R,
    alloc: Global,
    plan: &Plan,
    count: Option<u64>,
    workers: u32,
) -> Result<Result<usize, PlayFault>, Fail>
    requires { (1 ≤ workers) × (workers ≤ 16) }
{
    let actor = ActorNo::new(0).ok_or("caller")?;
    let mut items = Vec::new(alloc);
    if let Some(count) = count {
        items.push(Do {
            line: 8,
            actor,
            count,
        })?;
    }
    let schedule = Schedule {
        written: count.is_some(),
        items: Dos::new(items),
    };
    match played(rt, alloc, plan, &schedule, workers, &NoGate) {
        Ok(record) => Ok(Ok(record.entries().len())),
        Err(fault) => Ok(Err(fault)),
    }
}

// The caller's two steps, and then the plane's three ticks.
#[test]
fn a_plan_is_played_to_its_end(rt: HostRuntime) -> Result<(), Fail> {
    let alloc = rt.alloc();
    let plan = opened(alloc, 3)?;
    assert_eq!(rt; steps_of(&rt, alloc, &plan, None, 1)?, Ok(5));
    assert_eq!(rt; steps_of(&rt, alloc, &plan, None, 16)?, Ok(5));
    Ok(())
}

// The actor of each step that a record sees, where no schedule is written and two workers make the rounds.
fn actors_seen<R: Threads + Sync>(rt: &R, alloc: Global, plan: &Plan) -> Result<Vec<u8>, Fail> {
    let schedule = Schedule {
        written: false,
        items: Dos::new(Vec::new(alloc)),
    };
    let mut seen = Record::new(alloc);
    let played = played_watched(rt, alloc, plan, &schedule, 2, &NoGate, &mut seen);
    if played.is_err() {
        return Err(Fail::from("a plan that isn't played"));
    }
    let mut actors = Vec::new(alloc);
    for done in seen.entries() {
        actors.push(done.actor.get())?;
    }
    Ok(actors)
}

#[test]
fn what_watches_sees_the_plan_played(rt: HostRuntime) -> Result<(), Fail> {
    let alloc = rt.alloc();
    let plan = opened(alloc, 3)?;
    let actors = actors_seen(&rt, alloc, &plan)?;
    assert_eq!(rt; actors.as_slice(), [0, 0, 1, 1, 1].as_slice());
    Ok(())
}

// The schedule's line 8 asks for steps of the caller.
#[test]
fn a_written_schedule_is_played_as_far_as_it_asks(rt: HostRuntime) -> Result<(), Fail> {
    let alloc = rt.alloc();
    let plan = opened(alloc, 3)?;
    assert_eq!(rt; steps_of(&rt, alloc, &plan, Some(2), 2)?, Ok(2));
    assert_eq!(rt;
        steps_of(&rt, alloc, &plan, Some(9), 2)?,
        Err(PlayFault::Step { line: 8, made: 2 })
    );
    Ok(())
}
