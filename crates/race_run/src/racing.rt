//! A race: a plan made over locked links, by threads.
ghost use Rattle.std.specs.Prelude.{◌≡◌, suc, [], IfOk, length, map};
ghost use Rattle.link_steps.specs.Lists.{Each};
ghost use Rattle.step_stamp.specs.Lists.{up_to};
ghost use Rattle.step_stamp.specs.Opening.{AreLinks, ArePasses};
ghost use Rattle.step_stamp.specs.Seats.{stamps_table};
ghost use Rattle.call_script.specs.Plans.{IsPlan};
ghost use Rattle.call_script.specs.Tasks.{network_of};
ghost use Rattle.run_engine.specs.runs.Runs.{plane_no};
ghost use Rattle.shared_network.specs.Gathering.{AreAll, token_actor};
ghost use Rattle.race_run.specs.Callers.{IsNetworkOf};
ghost use Rattle.race_run.specs.Pieces.{AreNew};
ghost use Rattle.race_run.specs.Tail.{TailIsLast, own_in};
ghost use Rattle.race_run.specs.Whole.{HasMadeAll, IsWhole};

use crate::opening::{owners_of, plane_of, stamps_of};
use crate::pieces::{make_pieces, passes_of, pieces_of};
use crate::tail::make_tail;
use call_script::Plan;
use link_ledger::{Home, Pass};
use link_quota::AnyLink;
use link_steps::LinkStep;
use net_units::{ActorNo, Gate, OutOfMemory};
use run_engine::new_links;
use shared_network::{Closed, Network};
use std::alloc::Global;
use std::marker::Brand;
use std::sync::Wait;
use std::thread::Threads;
use step_stamp::{LinkSeat, PassSeat, Stamps};

/// Makes the plan over a network of its links. The owners of its channels are the callers of the plan's requests. The callers'
/// scripts and the plane's first `rounds` rounds run as pieces of one parallel call, each on a thread of its own where the
/// machine can start one; the plane's last `tail` rounds follow once all have ended, with stamps above all of theirs
/// (`tail`). Then the network is closed. Ok answers the journals of its links and the passes of its actors, which are whole
/// for the plan (`whole`).
///
/// The gate is called round each step. An `Err` comes only for want of memory, and the network is given up then. The call may
/// wait.
pub fn race<R: Threads + Wait + Sync, G: Gate + Sync>(
    rt: &R,
    alloc: Global,
    plan: &Plan,
    gate: &G,
) -> Result<Closed, OutOfMemory>
    ensures whole { IfOk result (λ closed. IsWhole (network_of plan.now) closed.passes closed.journals) }
    ensures tail { IfOk result (λ closed. TailIsLast plan.now (map own_in closed.passes)) }
{
    let links = new_links(alloc, plan)?;
    let owners = owners_of(alloc, plan)?;
    let opened = stamps_of(alloc, plan)?;
    race_over::<AnyLink, Brand, R, G>(rt, alloc, plan, gate, opened, links, owners)
}

// The race over a network that is opened with these stamps and seats, links and owners.
fn race_over<L: LinkStep + Send, H: Home + Send + Sync, R: Threads + Wait + Sync, G: Gate + Sync>(
    rt: &R,
    alloc: Global,
    plan: &Plan,
    gate: &G,
    opened: (Stamps, Vec<LinkSeat>, Vec<PassSeat>),
    links: Vec<L>,
    owners: Vec<ActorNo>,
) -> Result<Closed, OutOfMemory>
    requires plan { IsPlan plan.now }
    requires network { IsNetworkOf plan.now H.links H.owners }
    requires table { stamps_table opened.0 ≡ H.table }
    requires seats { AreLinks H.table (suc (length plan.now.callers)) (length plan.now.links) opened.1.items }
    requires passes { ArePasses H.table (suc (length plan.now.callers)) (suc (length plan.now.callers)) opened.2.items }
    requires links { map L.link_of links.items ≡ H.links }
    requires stand { Each (λ link. L.stands_for link []) links.items }
    requires owners { owners.items ≡ H.owners }
    ensures whole { IfOk result (λ closed. IsWhole (network_of plan.now) closed.passes closed.journals) }
    ensures tail { IfOk result (λ closed. TailIsLast plan.now (map own_in closed.passes)) }
{
    let (network, passes) = Network::<L, H>::open(alloc, opened, links, owners)?;
    let passes = make_all(rt, alloc, &network, plan, gate, passes)?;
    match network.close(alloc, passes) {
        Ok(closed) => Ok(closed),
        Err(_) => Err(OutOfMemory),
    }
}

// All steps of all actors, by these passes, which are theirs in their order.
fn make_all<L: LinkStep + Send, H: Home + Send + Sync, R: Threads + Wait + Sync, G: Gate + Sync>(
    rt: &R,
    alloc: Global,
    network: &Network<L, H>,
    plan: &Plan,
    gate: &G,
    passes: Vec<Pass>,
) -> Result<Vec<Pass>, OutOfMemory>
    requires network { IsNetworkOf plan.now H.links H.owners }
    requires new { AreNew H.table H.owners H.links plan.now passes.items }
    ensures all { IfOk result (λ made. AreAll H.table H.owners H.links made.items) }
    ensures actors { IfOk result (λ made. map token_actor made.items ≡ up_to (suc (plane_no (network_of plan.now)))) }
    ensures made { IfOk result (λ made. Each (HasMadeAll (network_of plan.now)) made.items) }
    ensures tail { IfOk result (λ made. TailIsLast plan.now (map own_in made.items)) }
{
    let mut passes = passes;
    let Some(last) = passes.pop() else {
        unreachable!()
    };
    let plane = plane_of(alloc, plan)?;
    let pieces = pieces_of(alloc, passes, plane, last)?;
    let made = make_pieces(rt, alloc, network, plan, gate, pieces)?;
    let (callers, plane, last) = passes_of(alloc, made)?;
    let mut callers = callers;
    let last = make_tail(rt, network, plan, gate, &callers, plane, last)?;
    callers.push(last)?;
    Ok(callers)
}
