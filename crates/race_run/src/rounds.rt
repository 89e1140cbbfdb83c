//! The rounds of the plane over a shared network.
ghost use Rattle.std.specs.Prelude.{◌≡◌, ◌+◌, ◌<◌, ◌≤◌, OnOk};
ghost use Rattle.call_script.specs.Tasks.{network_of};
ghost use Rattle.race_run.specs.Callers.{IsNetworkOf};
ghost use Rattle.race_run.specs.Rounds.{AddsOne, PlaneIsAt, PlaneIsOn, IsStepped};
ghost use Rattle.link_ledger.specs.Tokens.{last_seen};
ghost use Rattle.shared_network.specs.Added.{AddsAbove};
ghost use Rattle.shared_network.specs.Ready.{MayStep, PassGoesOn};

use call_script::Plan;
use link_ledger::{Home, Pass};
use link_steps::LinkStep;
use net_units::{Gate, OutOfMemory};
use shared_network::Network;
use std::sync::Wait;
use tick_plane::Plane;

/// Makes rounds of the plane with its pass, until `until` rounds are made in all. In each round each packet that reaches its next
/// link arrives there, and then each link makes one tick. The network's links are the plan's, and its owners the callers of the
/// plan's requests (`network`). The plane stands between two rounds, and its pass has made its steps so far and no others (`stands`),
/// before the call and after it.
///
/// An `Err` comes only for want of memory, and nothing further is claimed of the plane and the pass then. It may wait for each
/// link.
pub(crate) fn make_rounds<L: LinkStep + Send, H: Home, W: Wait, G: Gate>(
    rt: &W,
    network: &Network<L, H>,
    plan: &Plan,
    gate: &G,
    plane: &mut Plane,
    until: u64,
    pass: &mut Pass,
) -> Result<(), OutOfMemory>
    requires network { IsNetworkOf plan.now H.links H.owners }
    requires pass { MayStep H.table H.owners H.links pass.old }
    requires stands { PlaneIsAt (network_of plan.now) plane.old pass.old }
    requires until { (plane.old.at.round ≤ until) × (until ≤ plane.old.rounds) }
    ensures stands { OnOk result (PlaneIsAt (network_of plan.now) plane.new pass.new) }
    ensures round { OnOk result (plane.new.at.round ≡ until) }
    ensures ready { OnOk result (PassGoesOn H.table H.owners H.links pass.old pass.new) }
    ensures actor { OnOk result (pass.new.actor ≡ pass.old.actor) }
    ensures later { OnOk result (AddsAbove (last_seen pass.old) pass.old pass.new) }
{
    while plane.round() < until {
        make_round(rt, network, plan, gate, plane, pass)?;
    }
    Ok(())
}

// Makes one round.
fn make_round<L: LinkStep + Send, H: Home, W: Wait, G: Gate>(
    rt: &W,
    network: &Network<L, H>,
    plan: &Plan,
    gate: &G,
    plane: &mut Plane,
    pass: &mut Pass,
) -> Result<(), OutOfMemory>
    requires network { IsNetworkOf plan.now H.links H.owners }
    requires pass { MayStep H.table H.owners H.links pass.old }
    requires stands { PlaneIsAt (network_of plan.now) plane.old pass.old }
    requires left { plane.old.at.round < plane.old.rounds }
    ensures stands { OnOk result (PlaneIsAt (network_of plan.now) plane.new pass.new) }
    ensures round { OnOk result (plane.new.at.round ≡ plane.old.at.round + 1) }
    ensures ready { OnOk result (PassGoesOn H.table H.owners H.links pass.old pass.new) }
    ensures actor { OnOk result (pass.new.actor ≡ pass.old.actor) }
    ensures later { OnOk result (AddsAbove (last_seen pass.old) pass.old pass.new) }
{
    let round = plane.round();
    while plane.round() == round {
        make_step(rt, network, plan, gate, plane, pass)?;
    }
    Ok(())
}

/// Makes one step: a packet arrives, or a link ticks.
pub(crate) fn make_step<L: LinkStep + Send, H: Home, W: Wait, G: Gate>(
    rt: &W,
    network: &Network<L, H>,
    plan: &Plan,
    gate: &G,
    plane: &mut Plane,
    pass: &mut Pass,
) -> Result<(), OutOfMemory>
    requires network { IsNetworkOf plan.now H.links H.owners }
    requires pass { MayStep H.table H.owners H.links pass.old }
    requires on { PlaneIsOn (network_of plan.now) plane.old pass.old }
    requires left { plane.old.at.round < plane.old.rounds }
    ensures on { OnOk result (PlaneIsOn (network_of plan.now) plane.new pass.new) }
    ensures stepped { OnOk result (IsStepped plane.old plane.new) }
    ensures one { OnOk result (AddsOne pass.old pass.new) }
    ensures ready { OnOk result (PassGoesOn H.table H.owners H.links pass.old pass.new) }
    ensures actor { OnOk result (pass.new.actor ≡ pass.old.actor) }
    ensures later { OnOk result (AddsAbove (last_seen pass.old) pass.old pass.new) }
{
    // Read for what it says of every plan.
    let _valid = plan.links();
    plane.ready()?;
    match network.plane_step(rt, pass, gate, plane) {
        Ok(_) => Ok(()),
        Err(_) => Err(OutOfMemory),
    }
}
