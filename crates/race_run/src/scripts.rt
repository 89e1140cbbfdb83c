//! A caller's whole script over a shared network.
ghost use Rattle.std.specs.Prelude.{◌≡◌, ◌<◌, [], OnOk, length};
ghost use Rattle.net_units.specs.Numbers.{actor_number};
ghost use Rattle.call_script.specs.Tasks.{network_of};
ghost use Rattle.race_run.specs.Callers.{CallerIsAt, HasOps, IsNetworkOf};
ghost use Rattle.race_run.specs.Whole.{HasMadeAll};
ghost use Rattle.link_ledger.specs.Tokens.{stamps_drawn};
ghost use Rattle.shared_network.specs.Ready.{MayStep, PassGoesOn};

use crate::callers::make_op;
use call_script::{Channels, Plan};
use link_ledger::{Home, Pass};
use link_steps::LinkStep;
use net_units::{Gate, OutOfMemory};
use shared_network::Network;
use std::alloc::Global;
use std::sync::Wait;

/// Makes all operations of a caller, in their order, with its pass, which has made no step yet (`new`). `caller` is the
/// caller's number, which is the pass's actor (`is`). The network's links are the plan's, and its owners the callers of the
/// plan's requests (`network`).
///
/// An `Err` comes only for want of memory, and nothing further is claimed of the pass then. It may wait for each link.
pub(crate) fn make_script<L: LinkStep + Send, H: Home, W: Wait, G: Gate>(
    rt: &W,
    alloc: Global,
    network: &Network<L, H>,
    plan: &Plan,
    gate: &G,
    caller: usize,
    pass: &mut Pass,
) -> Result<(), OutOfMemory>
    requires network { IsNetworkOf plan.now H.links H.owners }
    requires is { (caller < length plan.now.callers) × (actor_number pass.old.actor ≡ caller) }
    requires new { (pass.old.own ≡ []) × (stamps_drawn pass.old ≡ 0) × MayStep H.table H.owners H.links pass.old }
    ensures made { OnOk result (HasMadeAll (network_of plan.now) pass.new) }
    ensures ready { OnOk result (PassGoesOn H.table H.owners H.links pass.old pass.new) }
    ensures actor { OnOk result (pass.new.actor ≡ pass.old.actor) }
{
    let mut channels = Channels::new(alloc, plan.requests().len())?;
    let count = plan.callers()[caller].ops.as_slice().len();
    make_ops(
        rt,
        network,
        plan,
        gate,
        (caller, count),
        pass,
        &mut channels,
    )
}

// Makes the operations of a caller. `all` is the caller's number, and how many operations it has.
fn make_ops<L: LinkStep + Send, H: Home, W: Wait, G: Gate>(
    rt: &W,
    network: &Network<L, H>,
    plan: &Plan,
    gate: &G,
    all: (usize, usize),
    pass: &mut Pass,
    channels: &mut Channels,
) -> Result<(), OutOfMemory>
    requires network { IsNetworkOf plan.now H.links H.owners }
    requires pass { MayStep H.table H.owners H.links pass.old }
    requires drawn { stamps_drawn pass.old ≡ 0 }
    requires all { HasOps plan.now all.0 all.1 }
    requires at { CallerIsAt plan.now all.0 0 pass.old channels.old.by_number.items }
    ensures made { OnOk result (HasMadeAll (network_of plan.now) pass.new) }
    ensures ready { OnOk result (PassGoesOn H.table H.owners H.links pass.old pass.new) }
    ensures actor { OnOk result (pass.new.actor ≡ pass.old.actor) }
{
    for place in 0..all.1 {
        make_op(rt, network, plan, gate, (all.0, place), pass, channels)?;
    }
    Ok(())
}
