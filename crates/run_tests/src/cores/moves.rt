//! Moves between two channels over that link, and what the callers of a run tell of them.
ghost use Rattle.std.specs.Prelude.{OnOk};
ghost use Rattle.interleave_core.specs.Cores.{CoreStands};

use call_script::Plan;
use channel_move::Shifted;
use interleave_core::Core;
use net_units::ActorNo;
use one_link_plans as plans;
use run_engine::replay;
use std::alloc::Global;
use std::process::Abort;
use std::test::Fail;

// This many steps of one actor.
fn steps(core: &mut Core, plan: &Plan, actor: u8, count: u64) -> Result<(), Fail>
    requires { CoreStands plan.now core.old }
    ensures { OnOk result (CoreStands plan.now core.new) }
{
    let actor = ActorNo::new(actor).ok_or("actor")?;
    for _step in 0..count {
        core.step(plan, actor).ok().ok_or("step")?;
    }
    Ok(())
}

// What is told of the move from the channel of the request of this number, after this many ticks between the send and the move, and
// this many steps of the move.
fn moved(alloc: Global, ticks: u64, moving: u64, number: usize) -> Result<Option<Shifted>, Fail> {
    let plan = plans::moved(alloc, 50)?;
    let mut core = Core::new(alloc, &plan)?;
    steps(&mut core, &plan, 0, 5)?;
    steps(&mut core, &plan, 1, ticks)?;
    steps(&mut core, &plan, 0, moving)?;
    let run = core.finish();
    let callers = replay(alloc, &plan, &run)?;
    if number >= plan.requests().len() {
        return Err(Fail::from("no such request"));
    }
    Ok(callers.moved(&plan, number))
}

// A move has two steps, a release and a submit, or the first alone where no packet is left. In 15 ticks the packets of ticks 0 and
// 10 were taken, in 31 all four.
#[test]
fn a_move_tells_what_was_kept_and_what_was_shifted(rt: HostRuntime) -> Result<(), Fail> {
    for (ticks, moving, number, told) in [
        (0, 0, 0, None),
        (0, 1, 0, None),
        (0, 2, 0, Some((0, 4))),
        (15, 1, 0, None),
        (15, 2, 0, Some((2, 2))),
        (15, 2, 1, None),
        (31, 1, 0, Some((4, 0))),
    ] {
        let told = told.map(|(kept, shifted)| Shifted { kept, shifted });
        assert_eq!(rt;
            moved(rt.alloc(), ticks, moving, number)?,
            told,
            "{ticks} ticks, {moving} steps"
        );
    }
    Ok(())
}
