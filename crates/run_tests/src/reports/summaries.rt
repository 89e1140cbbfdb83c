//! Summaries of those runs, under a number and a size.
use super::{holds, plan, run, sink};
use call_script::Version;
use channel_report::write_summary;
use std::alloc::Global;
use std::process::Abort;
use std::test::Fail;

// The run with this many steps of the caller and of the plane has this summary.
fn sums_up<R: Abort>(
    rt: &R,
    alloc: Global,
    caller: u64,
    plane: u64,
    text: &str,
) -> Result<(), Fail> {
    let plan = plan(alloc, Version::One, None)?;
    let run = run(alloc, &plan, &[(0, caller), (1, plane)])?;
    let mut sink = sink(alloc, 65_536)?;
    write_summary(alloc, 2_147_483_647, 1, &plan, &run, &mut sink)?;
    holds(rt, &sink, text);
    Ok(())
}

#[test]
fn a_request_is_accepted_or_still_pending(rt: HostRuntime) -> Result<(), Fail> {
    let alloc = rt.alloc();
    let carried = "made 2147483647 1 accepted 1 denied 0 delivered 3 steps 33\n";
    sums_up(&rt, alloc, 3, 30, carried)?;
    // the third packet departs in the tick after this run
    let early = "made 2147483647 1 accepted 1 denied 0 delivered 2 steps 24\n";
    sums_up(&rt, alloc, 3, 21, early)?;
    let pending = "made 2147483647 1 accepted 0 denied 0 delivered 0 steps 1\n";
    sums_up(&rt, alloc, 1, 0, pending)
}
