//! A network of one link, and what the passes of its actors make of the link.
ghost use Rattle.std.specs.Prelude.{◌≡◌, ◌^◌, ◌≤◌, [], ◌∷◌, IfOk, IfSome};
ghost use Rattle.link_steps.specs.Lists.{Each};
ghost use Rattle.link_steps.specs.Split.{whole};
ghost use Rattle.link_server.specs.State.{LinkStands};
ghost use Rattle.step_stamp.specs.Seats.{stamps_table, link_table, list_of};
ghost use Rattle.lock_bench.specs.Ready.{IsUnused};

use crate::ticking::make_ticks_by_all;
use link_ledger::{Home, Journal, LockedLink, StepFault};
use link_server::LinkState;
use link_steps::LinkShape;
use net_units::{Bounds, LinkNo, OutOfMemory};
use std::alloc::Global;
use std::marker::Brand;
use std::sync::Wait;
use std::thread::Threads;
use step_stamp::{LinkSeat, PassSeat, Stamps};
use traffic_contract::Test;

/// A link of one level that has made no step, where there is memory for it.
pub fn link(alloc: Global) -> Option<LinkState>
    ensures { IfSome result (λ link. LinkStands link []) }
{
    let number = LinkNo::new(0)?;
    let bounds = Bounds::new(&[10])?;
    let shape = LinkShape::new(number, 1, 4, 2, 100, bounds, Test::Whole, 0).ok()?;
    LinkState::new(alloc, shape).ok()
}

/// The stamps of one link and of a number of actors, with the link's seat and a seat for each actor.
pub fn opened(alloc: Global, actors: u32) -> Result<(Stamps, LinkSeat, Vec<PassSeat>), OutOfMemory>
    requires { (1 ≤ actors) × (actors ≤ 65) }
    ensures link { IfOk result (λ r. (link_table r.1 ≡ stamps_table r.0) × (list_of r.1 ≡ [])) }
    ensures passes { IfOk result (λ r. Each (IsUnused (stamps_table r.0)) r.2.items) }
{
    let (stamps, mut links, passes) = Stamps::open(alloc, 1, actors)?;
    let Some(link) = links.pop() else {
        return Err(OutOfMemory);
    };
    Ok((stamps, link, passes))
}

/// The journal of a link behind a lock, after as many threads as there are seats have each made the same number of its ticks.
pub fn journal_of<H: Home + Send + Sync, R: Threads + Wait + Sync>(
    rt: &R,
    alloc: Global,
    stamps: &Stamps,
    link: LinkState,
    seat: LinkSeat,
    seats: Vec<PassSeat>,
    ticks: u64,
) -> Result<Journal, StepFault>
    requires table { stamps_table stamps.now ≡ H.table }
    requires links { H.links ≡ whole link.shape ∷ [] }
    requires owners { H.owners ≡ [] }
    requires stands { LinkStands link [] }
    requires seat { (link_table seat ≡ H.table) × (list_of seat ≡ []) }
    requires seats { Each (IsUnused H.table) seats.items }
    requires few { ticks ≤ 2 ^ 40 }
{
    if seat.link().get() != 0 {
        return Err(StepFault::Memory);
    }
    let Ok(locked) = LockedLink::<LinkState, H>::open(alloc, link, seat, Vec::new(alloc), 1) else {
        return Err(StepFault::Memory);
    };
    make_ticks_by_all(rt, alloc, &locked, stamps, seats, ticks)?;
    let (journal, _seat) = locked.into_journal();
    Ok(journal)
}

/// The journal of a new link after each of the threads has made the same number of its ticks, where there was memory for all.
pub fn ticked<R: Threads + Wait + Sync>(
    rt: &R,
    alloc: Global,
    threads: u32,
    ticks: u64,
) -> Option<Journal>
    requires threads { (1 ≤ threads) × (threads ≤ 65) }
    requires few { ticks ≤ 2 ^ 40 }
{
    let Ok((stamps, seat, seats)) = opened(alloc, threads) else {
        return None;
    };
    let state = link(alloc)?;
    journal_of::<Brand, _>(rt, alloc, &stamps, state, seat, seats, ticks).ok()
}
