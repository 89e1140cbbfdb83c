//! The rows of a run that a core has recorded. Each tick of a run comes early enough for them, so they can be made.
use interleave_core::{Core, CoreRefusal};
use link_steps::Reply;
use net_units::{ActorNo, Level};
use one_link_plans::opened;
use std::process::Abort;
use std::test::Fail;

// The caller opens its request by a reserve and a relax, and has no step left then. No packet has left.
#[test]
fn a_run_that_opens_a_channel_has_no_rows(rt: HostRuntime) -> Result<(), Fail> {
    let alloc = rt.alloc();
    let plan = opened(alloc, 1)?;
    let mut core = Core::new(alloc, &plan)?;
    let caller = ActorNo::new(0).ok_or("caller")?;
    let nobody = ActorNo::new(9).ok_or("actor")?;
    let offer = Reply::Offer {
        level: Level::LEAST,
        reach: Level::LEAST,
    };
    assert_eq!(rt;
        core.step(&plan, nobody),
        Err(CoreRefusal::NoSuchActor { actors: 2 })
    );
    assert_eq!(rt; core.step(&plan, caller), Ok(offer));
    assert_eq!(rt; core.step(&plan, caller), Ok(Reply::Relaxed { clock: 0 }));
    assert_eq!(rt;
        core.step(&plan, caller),
        Err(CoreRefusal::NoStepLeft { made: 2 })
    );
    let run = core.finish();
    assert_eq!(rt; run.entries().len(), 2);
    let rows = run.rows(alloc)?;
    assert_eq!(rt; rows.as_slice().len(), 0);
    Ok(())
}
