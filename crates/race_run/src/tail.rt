//! The plane's rounds once all callers have ended.
ghost use Rattle.std.specs.Prelude.{◌≡◌, ◌≤◌, IfOk, map};
ghost use Rattle.call_script.specs.Tasks.{network_of};
ghost use Rattle.link_ledger.specs.Tokens.{last_seen};
ghost use Rattle.link_steps.specs.Lists.{Each};
ghost use Rattle.race_run.specs.Callers.{IsNetworkOf};
ghost use Rattle.race_run.specs.Pieces.{IsAtRound};
ghost use Rattle.race_run.specs.Tail.{AreUpTo, GoesLast, own_in};
ghost use Rattle.race_run.specs.Whole.{HasMadeAll};
ghost use Rattle.shared_network.specs.Ready.{MayStep, PassGoesOn};

use crate::rounds::make_rounds;
use call_script::Plan;
use link_ledger::{Home, OwnEntry, Pass};
use link_steps::LinkStep;
use net_units::{Gate, OutOfMemory};
use shared_network::Network;
use std::sync::Wait;
use tick_plane::Plane;

/// Makes the plane's rounds after the callers, which have ended, with its pass: their stamps are above all of the callers'
/// (`last`). An `Err` comes only for want of memory. It may wait for each link.
pub(crate) fn make_tail<L: LinkStep + Send, H: Home, W: Wait, G: Gate>(
    rt: &W,
    network: &Network<L, H>,
    plan: &Plan,
    gate: &G,
    callers: &[Pass],
    plane: Plane,
    pass: Pass,
) -> Result<Pass, OutOfMemory>
    requires network { IsNetworkOf plan.now H.links H.owners }
    requires may_step { MayStep H.table H.owners H.links pass }
    requires at { IsAtRound plan.now plan.now.rounds plane pass }
    ensures made { IfOk result (HasMadeAll (network_of plan.now)) }
    ensures ready { IfOk result (PassGoesOn H.table H.owners H.links pass) }
    ensures actor { IfOk result (λ made. made.actor ≡ pass.actor) }
    ensures last { IfOk result (GoesLast (map own_in callers.now) pass) }
{
    let (mut plane, mut pass) = (plane, pass);
    see_up_to(rt, network, &mut pass, latest_of_all(callers));
    let all = plan.rounds() + plan.tail();
    make_rounds(rt, network, plan, gate, &mut plane, all, &mut pass)?;
    Ok(pass)
}

// Loads the count of stamps until the pass has seen as many as this. Where that many were drawn, that is at once, since the count
// never falls.
fn see_up_to<L: LinkStep + Send, H: Home, W: Wait>(
    rt: &W,
    network: &Network<L, H>,
    pass: &mut Pass,
    stamp: u64,
)
    requires pass { MayStep H.table H.owners H.links pass.old }
    ensures seen { stamp ≤ last_seen pass.new }
    ensures ready { PassGoesOn H.table H.owners H.links pass.old pass.new }
    ensures same { (pass.new.actor ≡ pass.old.actor) × (pass.new.own ≡ pass.old.own) }
{
    for _ in rt.forever() {
        if network.steps_seen(pass) >= stamp {
            return;
        }
    }
    unreachable!()
}

// The largest stamp of all own entries of these passes, 0 where there is none.
pub(crate) fn latest_of_all(passes: &[Pass]) -> u64
    ensures { Each (AreUpTo result) (map own_in passes.now) }
{
    let mut stamp = 0;
    for pass in passes {
        stamp = latest_of(pass.own(), stamp);
    }
    stamp
}

// The largest stamp of these entries, or this one where it is larger.
fn latest_of(entries: &[OwnEntry], stamp: u64) -> u64
    ensures least { stamp ≤ result }
    ensures all { AreUpTo result entries.now }
{
    let mut latest = stamp;
    for entry in entries {
        latest = latest.max(entry.stamp);
    }
    latest
}
