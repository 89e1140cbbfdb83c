//! The network by `Network`: each link is behind a lock, and each actor calls from a thread of its own, with its pass.
ghost use Rattle.std.specs.Prelude.{◌≡◌, ◌≤◌, ◌∷◌, [], IfOk, length, map};
ghost use Rattle.link_server.specs.State.{LinkStands};
ghost use Rattle.link_steps.specs.Lists.{Each};
ghost use Rattle.link_steps.specs.Split.{whole};
ghost use Rattle.step_stamp.specs.Opening.{AreLinks, ArePasses};
ghost use Rattle.step_stamp.specs.Seats.{stamps_table};
ghost use Rattle.network_tour.specs.Tour.{IsTour, IsNewOf, MayClose, PlaneGoes};

use crate::parts::{link, request};
use crate::told::{Told, note};
use link_ledger::{Home, Pass};
use link_server::LinkState;
use link_steps::Ask;
use net_units::{ActorNo, LinkNo, NoGate, OutOfMemory};
use setup_protocol::Verdict;
use shared_network::Network;
use std::alloc::Global;
use std::marker::Brand;
use std::sync::Wait;
use std::thread;
use std::thread::Threads;
use step_stamp::{LinkSeat, PassSeat, Stamps};
use tick_plane::Plane;

// How many rounds the plane makes beside the caller, and in all.
const ROUNDS_AT_ONCE: u64 = 20;

const ROUNDS: u64 = 50;

// The stamps that the plane's pass may draw, one a step. It has 2^40, and 50 rounds draw some hundred.
const MOST_STAMPS: u64 = 1_000_000;

/// Runs the network: the caller and the plane make their steps at once, in whatever order the machine runs their threads, and then
/// the plane goes on until both packets have arrived. An `Err` comes only for want of memory. It may wait.
pub fn run<R: Threads + Wait + Sync>(rt: &R, alloc: Global) -> Result<Told, OutOfMemory> {
    let opened = Stamps::open(alloc, 2, 2)?; // with seats of two links and two actors
    let links = Vec::from_array(alloc, [link(alloc, 0)?, link(alloc, 1)?])?; // by their numbers
    let owners = Vec::from_array(alloc, [ActorNo::new(0).unwrap()])?; // of each channel
    run_over::<Brand, R>(rt, alloc, opened, links, owners)
}

// Opens a network of these links, lets both actors make their steps, and closes it. `H` names its stamps, its links and its owners
// for the contracts alone; `run` picks it, by passing `Brand`.
fn run_over<H: Home + Send + Sync, R: Threads + Wait + Sync>(
    rt: &R,
    alloc: Global,
    opened: (Stamps, Vec<LinkSeat>, Vec<PassSeat>),
    links: Vec<LinkState>,
    owners: Vec<ActorNo>,
) -> Result<Told, OutOfMemory>
    requires tour { IsTour H.links H.owners }
    requires table { stamps_table opened.0 ≡ H.table }
    requires seats { AreLinks H.table 2 2 opened.1.items }
    requires passes { ArePasses H.table 2 2 opened.2.items }
    requires links { map (λ link. whole link.shape) links.items ≡ H.links }
    requires stand { Each (λ link. LinkStands link []) links.items }
    requires owners { owners.items ≡ H.owners }
{
    let (network, passes) = Network::<LinkState, H>::open(alloc, opened, links, owners)?;
    let (first, second) = pair(passes);
    let (verdict, first, second) = make(rt, alloc, &network, first, second)?;
    let passes = Vec::from_array(alloc, [first, second])?;
    let Ok(closed) = network.close(alloc, passes) else {
        return Err(OutOfMemory);
    };
    tell(alloc, verdict, closed.passes.as_slice())
}

// The caller's pass and the plane's, in the order of their actors.
fn pair(passes: Vec<Pass>) -> (Pass, Pass)
    requires { length passes.items ≡ 2 }
    ensures { passes.items ≡ result.0 ∷ result.1 ∷ [] }
{
    let mut passes = passes.into_iter();
    let Some(first) = passes.next() else {
        unreachable!()
    };
    let Some(second) = passes.next() else {
        unreachable!()
    };
    (first, second)
}

// The steps of both actors. Each begins in a thread of its own, where the machine can start one; when both have ended, the plane
// makes the rest of its rounds. Each gives its pass back.
fn make<H: Home + Send + Sync, R: Threads + Wait + Sync>(
    rt: &R,
    alloc: Global,
    network: &Network<LinkState, H>,
    first: Pass,
    second: Pass,
) -> Result<(Verdict, Pass, Pass), OutOfMemory>
    requires tour { IsTour H.links H.owners }
    requires first { IsNewOf H.table H.owners H.links 0 first }
    requires second { IsNewOf H.table H.owners H.links 1 second }
    ensures first { IfOk result (λ made. MayClose H.table H.owners H.links 0 made.1) }
    ensures second { IfOk result (λ made. MayClose H.table H.owners H.links 1 made.2) }
{
    let plane = Plane::new(alloc, 2, ROUNDS)?;
    let (called, went) = thread::join(
        rt,
        move || -> Result<(Verdict, Pass), OutOfMemory>
            requires { IsTour H.links H.owners × IsNewOf H.table H.owners H.links 0 first }
            ensures { IfOk result (λ made. MayClose H.table H.owners H.links 0 made.1) }
        { call(rt, network, first) },
        move || -> Result<(Plane, Pass), OutOfMemory>
            requires { PlaneGoes H.table H.owners H.links plane second }
            ensures { IfOk result (λ made. PlaneGoes H.table H.owners H.links made.0 made.1) }
        { go_on(rt, network, plane, second, ROUNDS_AT_ONCE) },
    );
    let ((verdict, first), (plane, second)) = (called?, went?);
    let (_, second) = go_on(rt, network, plane, second, ROUNDS)?;
    Ok((verdict, first, second))
}

// The caller's part: it sets its channel up and, where that is accepted, sends two packets of 2 units, 10 ticks apart. They are
// planned at the first link, and the plane carries them on.
fn call<H: Home, W: Wait>(
    rt: &W,
    network: &Network<LinkState, H>,
    mut pass: Pass,
) -> Result<(Verdict, Pass), OutOfMemory>
    requires tour { IsTour H.links H.owners }
    requires new { IsNewOf H.table H.owners H.links 0 pass }
    ensures { IfOk result (λ made. MayClose H.table H.owners H.links 0 made.1) }
{
    let (request, first) = (request(), LinkNo::new(0).unwrap());
    let Ok(verdict) = network.setup(rt, &mut pass, &NoGate, &request) else {
        return Err(OutOfMemory);
    };
    let Verdict::Accepted { .. } = verdict else {
        return Ok((verdict, pass));
    };
    let packets = Ask::Submit {
        chan: request.chan,
        count: 2,
        gap: 10,
        size: 2,
    };
    let Ok(_planned) = network.submit(rt, &mut pass, &NoGate, first, &packets) else {
        return Err(OutOfMemory);
    };
    Ok((verdict, pass))
}

// The plane's part: it goes on until it has made this many rounds. It tests that its pass has stamps left for each step, so the loop
// is seen to end.
fn go_on<H: Home, W: Wait>(
    rt: &W,
    network: &Network<LinkState, H>,
    mut plane: Plane,
    mut pass: Pass,
    until: u64,
) -> Result<(Plane, Pass), OutOfMemory>
    requires goes { PlaneGoes H.table H.owners H.links plane pass }
    requires until { until ≤ ROUNDS }
    ensures { IfOk result (λ made. PlaneGoes H.table H.owners H.links made.0 made.1) }
{
    while plane.round() < until && pass.drawn() < MOST_STAMPS {
        plane.ready()?;
        let Ok(_reply) = network.plane_step(rt, &mut pass, &NoGate, &mut plane) else {
            return Err(OutOfMemory);
        };
    }
    Ok((plane, pass))
}

// The verdict, and what the passes' own entries tell.
fn tell(alloc: Global, verdict: Verdict, passes: &[Pass]) -> Result<Told, OutOfMemory> {
    let mut sents = Vec::new(alloc);
    for pass in passes {
        for entry in pass.own() {
            note(&mut sents, &entry.reply)?;
        }
    }
    Ok(Told {
        verdict: Some(verdict),
        sents,
    })
}
