//! Runs of a plan over one link, in which the caller opens its request, worked by hand.
use call_script::{Do, Dos, Plan, Schedule};
use interleave_core::{Core, CoreRefusal, play};
use link_steps::Reply;
use net_units::{ActorNo, Level};
use one_link_plans::opened;
use run_engine::{PlayFault, Watch, play_watched};
use run_record::Record;
use setup_protocol::Verdict;
use std::alloc::Global;
use std::process::Abort;
use std::test::Fail;

mod moves;

#[test]
fn a_caller_makes_its_steps(rt: HostRuntime) -> Result<(), Fail> {
    let alloc = rt.alloc();
    let plan = opened(alloc, 1)?;
    let mut core = Core::new(alloc, &plan)?;
    let caller = ActorNo::new(0).ok_or("caller")?;
    let plane = ActorNo::new(1).ok_or("plane")?;
    let nobody = ActorNo::new(9).ok_or("actor")?;
    let offer = Reply::Offer {
        level: Level::LEAST,
        reach: Level::LEAST,
    };
    assert_eq!(rt;
        core.step(&plan, nobody),
        Err(CoreRefusal::NoSuchActor { actors: 2 })
    );
    assert!(rt; core.has_step(&plan, caller));
    assert_eq!(rt; core.step(&plan, caller), Ok(offer));
    assert_eq!(rt; core.step(&plan, caller), Ok(Reply::Relaxed { clock: 0 }));
    assert!(rt; !core.has_step(&plan, caller));
    // the plane's steps aren't the caller's
    assert!(rt; core.step(&plan, plane).is_ok());
    assert_eq!(rt;
        core.step(&plan, caller),
        Err(CoreRefusal::NoStepLeft { made: 2 })
    );
    assert_eq!(rt; core.finish().entries().len(), 3);
    Ok(())
}

// How many steps the run of a schedule has whose line 8 asks for this many steps of the caller, or where it asks too much.
fn steps_of_written(
    alloc: Global,
    plan: &Plan,
    count: u64,
) -> Result<Result<usize, PlayFault>, Fail> {
    let actor = ActorNo::new(0).ok_or("caller")?;
    let mut items = Vec::new(alloc);
    items.push(Do {
        line: 8,
        actor,
        count,
    })?;
    let schedule = Schedule {
        written: true,
        items: Dos::new(items),
    };
    Ok(steps_of_played(play(alloc, plan, &schedule)))
}

fn steps_of_played(played: Result<Record, PlayFault>) -> Result<usize, PlayFault> {
    match played {
        Ok(record) => Ok(record.entries().len()),
        Err(fault) => Err(fault),
    }
}

#[test]
fn a_written_schedule_is_played_as_far_as_it_asks(rt: HostRuntime) -> Result<(), Fail> {
    let alloc = rt.alloc();
    let plan = opened(alloc, 1)?;
    assert_eq!(rt; steps_of_written(alloc, &plan, 1)?, Ok(1));
    assert_eq!(rt; steps_of_written(alloc, &plan, 2)?, Ok(2));
    assert_eq!(rt;
        steps_of_written(alloc, &plan, 9)?,
        Err(PlayFault::Step { line: 8, made: 2 })
    );
    Ok(())
}

// A watcher sees each step: a record that watches a run has the run's steps, and tells how many each actor made.
#[test]
fn what_watches_sees_each_step(rt: HostRuntime) -> Result<(), Fail> {
    let alloc = rt.alloc();
    let plan = opened(alloc, 1)?;
    let caller = ActorNo::new(0).ok_or("caller")?;
    let plane = ActorNo::new(1).ok_or("plane")?;
    let schedule = Schedule {
        written: false,
        items: Dos::new(Vec::new(alloc)),
    };
    let mut seen = Record::new(alloc);
    let callers = match play_watched(alloc, &plan, &schedule, &mut seen) {
        Ok(callers) => callers,
        Err(_) => return Err("played")?,
    };
    assert_eq!(rt; seen.entries().len(), 3);
    assert_eq!(rt; seen.steps_of(caller), 2);
    assert_eq!(rt; seen.steps_of(plane), 1);
    let verdict = match plan.requests() {
        [] => None,
        _ => callers.verdict(&plan, 0),
    };
    assert!(rt; matches!(verdict, Some(Verdict::Accepted { .. })));
    Ok(())
}

// The caller's two steps, and then the plane's tick.
#[test]
fn without_a_schedule_each_plays_to_its_end(rt: HostRuntime) -> Result<(), Fail> {
    let alloc = rt.alloc();
    let plan = opened(alloc, 1)?;
    let schedule = Schedule {
        written: false,
        items: Dos::new(Vec::new(alloc)),
    };
    assert_eq!(rt; steps_of_played(play(alloc, &plan, &schedule)), Ok(3));
    Ok(())
}

// A link that was never asked has nothing due: each item, of three and of two ticks, is one stride, and the watcher has seen five ticks.
#[test]
fn a_stride_is_seen_as_its_ticks(rt: HostRuntime) -> Result<(), Fail> {
    let alloc = rt.alloc();
    let plan = opened(alloc, 5)?;
    let plane = ActorNo::new(1).ok_or("plane")?;
    let mut items = Vec::new(alloc);
    items.push(Do {
        line: 4,
        actor: plane,
        count: 3,
    })?;
    items.push(Do {
        line: 5,
        actor: plane,
        count: 2,
    })?;
    let schedule = Schedule {
        written: true,
        items: Dos::new(items),
    };
    let mut seen = Record::new(alloc);
    if play_watched(alloc, &plan, &schedule, &mut seen).is_err() {
        return Err("played")?;
    }
    assert_eq!(rt; seen.entries().len(), 5);
    for (done, clock) in seen.entries().iter().zip(0..5) {
        let told = Reply::Ticked {
            clock,
            full: 0,
            sent: None,
            best_sent: false,
            best_lost: false,
        };
        assert_eq!(rt; done.reply, told);
    }
    Ok(())
}

// Nine rounds of a schedule that asks for seven ticks, and then for three more, of which two are left.
#[test]
fn items_of_the_plane_stop_where_its_rounds_end(rt: HostRuntime) -> Result<(), Fail> {
    let alloc = rt.alloc();
    let plan = opened(alloc, 9)?;
    let plane = ActorNo::new(1).ok_or("plane")?;
    let mut items = Vec::new(alloc);
    items.push(Do {
        line: 4,
        actor: plane,
        count: 7,
    })?;
    items.push(Do {
        line: 5,
        actor: plane,
        count: 3,
    })?;
    let schedule = Schedule {
        written: true,
        items: Dos::new(items),
    };
    assert_eq!(rt;
        steps_of_played(play(alloc, &plan, &schedule)),
        Err(PlayFault::Step { line: 5, made: 9 })
    );
    Ok(())
}
