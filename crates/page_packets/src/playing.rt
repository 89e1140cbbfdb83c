//! The run of a file.
ghost use Rattle.std.specs.Prelude.{IfOk};
ghost use Rattle.packet_answers.specs.Plays.{StandsAfter};

use call_times::{Times, TimesFault, schedule_at};
use design_file::CallerTimes;
use network_files::Network;
use packet_answers::{Played, Trouble, play};
use std::alloc::{AllocError, Global};

/// The run of a network by its schedule, or by the one in which its operations come at their ticks.
pub(crate) fn played_of(alloc: Global, network: &Network) -> Result<Played, Trouble>
    ensures { IfOk result (StandsAfter network.now.plan) }
{
    if !have_own_ticks(network.times.as_slice()) {
        return play(alloc, &network.plan, &network.schedule);
    }
    let times = times_in(alloc, network.times.as_slice())?;
    match schedule_at(alloc, &network.plan, times.as_slice()) {
        Ok(made) => play(alloc, &network.plan, &made.schedule),
        Err(TimesFault::Memory) => Err(Trouble::Memory),
        Err(_) => Err(Trouble::Step { line: 0 }),
    }
}

// Whether a call comes or goes at a tick after the first.
fn have_own_ticks(times: &[CallerTimes]) -> bool {
    for caller in times {
        for operation in &caller.operations {
            if operation.tick > 0 {
                return true;
            }
        }
    }
    false
}

// The ticks of the operations.
fn times_in(alloc: Global, callers: &[CallerTimes]) -> Result<Vec<Times>, AllocError> {
    let mut times = Vec::new(alloc);
    for caller in callers {
        let mut ticks = Vec::new(alloc);
        for operation in &caller.operations {
            ticks.push(operation.tick)?;
        }
        times.push(Times { ticks })?;
    }
    Ok(times)
}
