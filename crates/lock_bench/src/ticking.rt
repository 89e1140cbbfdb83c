//! Ticks of one link, made by passes in threads of their own.
ghost use Rattle.std.specs.Prelude.{◌≡◌, ◌+◌, ◌^◌, ◌≤◌, length};
ghost use Rattle.net_units.specs.Numbers.{link_number};
ghost use Rattle.link_steps.specs.Lists.{Each};
ghost use Rattle.step_stamp.specs.Seats.{stamps_table};
ghost use Rattle.lock_bench.specs.Ready.{MayTick, IsUnused};

use link_ledger::{Home, LockedLink, Pass, StepFault};
use link_server::LinkState;
use link_steps::Ask;
use net_units::NoGate;
use std::alloc::Global;
use std::sync::Wait;
use std::thread;
use std::thread::Threads;
use step_stamp::{PassSeat, Stamps};

/// Makes this number of ticks of the link by a pass with this seat.
pub fn make_ticks<H: Home, W: Wait>(
    rt: &W,
    alloc: Global,
    link: &LockedLink<LinkState, H>,
    stamps: &Stamps,
    seat: PassSeat,
    ticks: u64,
) -> Result<(), StepFault>
    requires table { stamps_table stamps.now ≡ H.table }
    requires unused { IsUnused H.table seat }
    requires few { ticks ≤ 2 ^ 40 }
{
    let mut pass = Pass::new(alloc, seat);
    for _ in 0..ticks {
        link.step(rt, stamps, &mut pass, &NoGate, &Ask::Tick)?;
    }
    Ok(())
}

/// The same by each of these seats at once, each in a thread of its own.
pub fn make_ticks_by_all<H: Home + Send + Sync, R: Threads + Wait + Sync>(
    rt: &R,
    alloc: Global,
    link: &LockedLink<LinkState, H>,
    stamps: &Stamps,
    seats: Vec<PassSeat>,
    ticks: u64,
) -> Result<(), StepFault>
    requires table { stamps_table stamps.now ≡ H.table }
    requires unused { Each (IsUnused H.table) seats.items }
    requires few { ticks ≤ 2 ^ 40 }
{
    let made = thread::map_vec(
        rt,
        seats,
        &move |seat: PassSeat| -> Result<(), StepFault>
            requires { (stamps_table stamps.now ≡ H.table) × IsUnused H.table seat × (ticks ≤ 2 ^ 40) }
        { make_ticks(rt, alloc, link, stamps, seat, ticks) },
    );
    let Ok(made) = made else {
        return Err(StepFault::Memory);
    };
    for one in made {
        one?;
    }
    Ok(())
}
