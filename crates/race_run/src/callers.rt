//! What a caller does over a shared network: its operations, one at a time.
ghost use Rattle.std.specs.Prelude.{◌≡◌, ◌+◌, ◌*◌, ◌<◌, ◌≤◌, ◌^◌, ◌-◌, OnOk};
ghost use Rattle.call_script.specs.declared.operations.Op.TheVariants.{Open, Send, Close, Pour, Move};
ghost use Rattle.race_run.specs.Callers.{CallerIsAt, HasLeft, HasOp, IsNetworkOf};
ghost use Rattle.link_ledger.specs.Tokens.{stamps_drawn};
ghost use Rattle.shared_network.specs.Ready.{MayStep, PassGoesOn};

use call_script::{Channels, Op, Plan};
use channel_move::Mover;
use link_ledger::{Home, Pass};
use link_steps::{Ask, LinkStep};
use net_units::{ChanNo, Gate, LinkNo, OutOfMemory};
use shared_network::Network;
use std::sync::Wait;

/// Makes the operation of a caller at a place of its script, from 0 on, with its pass. An open sets its channel up. A send and a
/// close of a channel that is established send on it and tear it down, a move between two such channels moves what is planned on the
/// one to the other, and sends, closes and moves of other channels make no step. Best-effort packets are sent over a link. `at` is
/// the caller's number and the place.
/// the place.
///
/// The network's links are the plan's, and its owners the callers of the plan's requests (`network`). The pass has made the
/// operations before this one and no others; `channels` is what the caller has learnt from them of each channel, and is kept so
/// (`at`). Each operation draws at most 32 stamps (`few`, `drew`). An `Err` comes only for want of memory; nothing further is claimed
/// of the pass then. It may wait for each link.
pub(crate) fn make_op<L: LinkStep + Send, H: Home, W: Wait, G: Gate>(
    rt: &W,
    network: &Network<L, H>,
    plan: &Plan,
    gate: &G,
    at: (usize, usize),
    pass: &mut Pass,
    channels: &mut Channels,
) -> Result<(), OutOfMemory>
    requires network { IsNetworkOf plan.now H.links H.owners }
    requires pass { MayStep H.table H.owners H.links pass.old }
    requires at { CallerIsAt plan.now at.0 at.1 pass.old channels.old.by_number.items }
    requires left { HasLeft plan.now at.0 at.1 }
    requires few { stamps_drawn pass.old ≤ 32 * at.1 }
    ensures at { OnOk result (CallerIsAt plan.now at.0 (at.1 + 1) pass.new channels.new.by_number.items) }
    ensures drew { OnOk result (stamps_drawn pass.new ≤ stamps_drawn pass.old + 32) }
    ensures ready { OnOk result (PassGoesOn H.table H.owners H.links pass.old pass.new) }
    ensures actor { OnOk result (pass.new.actor ≡ pass.old.actor) }
{
    match plan.callers()[at.0].ops.as_slice()[at.1] {
        Op::Open(chan) => open_channel(rt, network, plan, gate, at, chan, pass, channels),
        Op::Send {
            chan,
            count,
            gap,
            size,
        } => {
            let packets = (chan, count, gap, size);
            send_on(rt, network, plan, gate, at, packets, pass, channels)
        }
        Op::Close(chan) => close_channel(rt, network, plan, gate, at, chan, pass, channels),
        Op::Pour {
            link,
            count,
            gap,
            size,
        } => {
            let packets = (link, count, gap, size);
            send_best_effort(rt, network, plan, gate, at, packets, pass, channels)
        }
        Op::Move { old, new } => {
            move_packets(rt, network, plan, gate, at, (old, new), pass, channels)
        }
    }
}

// Opens a channel.
fn open_channel<L: LinkStep + Send, H: Home, W: Wait, G: Gate>(
    rt: &W,
    network: &Network<L, H>,
    plan: &Plan,
    gate: &G,
    at: (usize, usize),
    chan: ChanNo,
    pass: &mut Pass,
    channels: &mut Channels,
) -> Result<(), OutOfMemory>
    requires network { IsNetworkOf plan.now H.links H.owners }
    requires pass { MayStep H.table H.owners H.links pass.old }
    requires few { stamps_drawn pass.old < 2 ^ 40 - 64 }
    requires at { CallerIsAt plan.now at.0 at.1 pass.old channels.old.by_number.items }
    requires op { HasOp plan.now at.0 at.1 (Open chan) }
    ensures at { OnOk result (CallerIsAt plan.now at.0 (at.1 + 1) pass.new channels.new.by_number.items) }
    ensures drew { OnOk result (stamps_drawn pass.new ≤ stamps_drawn pass.old + 32) }
    ensures ready { OnOk result (PassGoesOn H.table H.owners H.links pass.old pass.new) }
    ensures actor { OnOk result (pass.new.actor ≡ pass.old.actor) }
{
    let Some(entry) = plan.requests().get(chan.get() as usize) else {
        return Ok(());
    };
    let Ok(verdict) = network.setup(rt, pass, gate, &entry.request) else {
        return Err(OutOfMemory);
    };
    channels.settle(entry.request.chan, &verdict);
    Ok(())
}

// Sends packets on a channel, if it is established.
fn send_on<L: LinkStep + Send, H: Home, W: Wait, G: Gate>(
    rt: &W,
    network: &Network<L, H>,
    plan: &Plan,
    gate: &G,
    at: (usize, usize),
    packets: (ChanNo, u64, u64, u32),
    pass: &mut Pass,
    channels: &mut Channels,
) -> Result<(), OutOfMemory>
    requires network { IsNetworkOf plan.now H.links H.owners }
    requires pass { MayStep H.table H.owners H.links pass.old }
    requires few { stamps_drawn pass.old < 2 ^ 40 - 64 }
    requires at { CallerIsAt plan.now at.0 at.1 pass.old channels.old.by_number.items }
    requires op { HasOp plan.now at.0 at.1 (Send packets.0 packets.1 packets.2 packets.3) }
    ensures at { OnOk result (CallerIsAt plan.now at.0 (at.1 + 1) pass.new channels.new.by_number.items) }
    ensures drew { OnOk result (stamps_drawn pass.new ≤ stamps_drawn pass.old + 32) }
    ensures ready { OnOk result (PassGoesOn H.table H.owners H.links pass.old pass.new) }
    ensures actor { OnOk result (pass.new.actor ≡ pass.old.actor) }
{
    let (chan, count, gap, size) = packets;
    let Some(entry) = plan.requests().get(chan.get() as usize) else {
        return Ok(());
    };
    if !channels.of(entry.request.chan).established {
        return Ok(());
    }
    let ask = Ask::Submit {
        chan: entry.request.chan,
        count,
        gap,
        size,
    };
    let first = entry.request.route.hop(1).link;
    let Ok(reply) = network.submit(rt, pass, gate, first, &ask) else {
        return Err(OutOfMemory);
    };
    channels.answer(entry.request.chan, gap, size, &reply);
    Ok(())
}

// Closes a channel, if it is established.
fn close_channel<L: LinkStep + Send, H: Home, W: Wait, G: Gate>(
    rt: &W,
    network: &Network<L, H>,
    plan: &Plan,
    gate: &G,
    at: (usize, usize),
    chan: ChanNo,
    pass: &mut Pass,
    channels: &Channels,
) -> Result<(), OutOfMemory>
    requires network { IsNetworkOf plan.now H.links H.owners }
    requires pass { MayStep H.table H.owners H.links pass.old }
    requires few { stamps_drawn pass.old < 2 ^ 40 - 64 }
    requires at { CallerIsAt plan.now at.0 at.1 pass.old channels.now.by_number.items }
    requires op { HasOp plan.now at.0 at.1 (Close chan) }
    ensures at { OnOk result (CallerIsAt plan.now at.0 (at.1 + 1) pass.new channels.now.by_number.items) }
    ensures drew { OnOk result (stamps_drawn pass.new ≤ stamps_drawn pass.old + 32) }
    ensures ready { OnOk result (PassGoesOn H.table H.owners H.links pass.old pass.new) }
    ensures actor { OnOk result (pass.new.actor ≡ pass.old.actor) }
{
    let Some(entry) = plan.requests().get(chan.get() as usize) else {
        return Ok(());
    };
    if !channels.of(entry.request.chan).established {
        return Ok(());
    }
    match network.teardown(rt, pass, gate, &entry.request) {
        Ok(_) => Ok(()),
        Err(_) => Err(OutOfMemory),
    }
}

// Sends best-effort packets over a link.
fn send_best_effort<L: LinkStep + Send, H: Home, W: Wait, G: Gate>(
    rt: &W,
    network: &Network<L, H>,
    plan: &Plan,
    gate: &G,
    at: (usize, usize),
    packets: (LinkNo, u64, u64, u32),
    pass: &mut Pass,
    channels: &Channels,
) -> Result<(), OutOfMemory>
    requires network { IsNetworkOf plan.now H.links H.owners }
    requires pass { MayStep H.table H.owners H.links pass.old }
    requires few { stamps_drawn pass.old < 2 ^ 40 - 64 }
    requires at { CallerIsAt plan.now at.0 at.1 pass.old channels.now.by_number.items }
    requires op { HasOp plan.now at.0 at.1 (Pour packets.0 packets.1 packets.2 packets.3) }
    ensures at { OnOk result (CallerIsAt plan.now at.0 (at.1 + 1) pass.new channels.now.by_number.items) }
    ensures drew { OnOk result (stamps_drawn pass.new ≤ stamps_drawn pass.old + 32) }
    ensures ready { OnOk result (PassGoesOn H.table H.owners H.links pass.old pass.new) }
    ensures actor { OnOk result (pass.new.actor ≡ pass.old.actor) }
{
    // Read for what it says of every plan.
    let _valid = plan.links();
    let (link, count, gap, size) = packets;
    match network.submit(rt, pass, gate, link, &Ask::Pour { count, gap, size }) {
        Ok(_) => Ok(()),
        Err(_) => Err(OutOfMemory),
    }
}

// Moves what is planned on a channel to another one, if both are established. The packets are like the last ones that were
// planned on it.
fn move_packets<L: LinkStep + Send, H: Home, W: Wait, G: Gate>(
    rt: &W,
    network: &Network<L, H>,
    plan: &Plan,
    gate: &G,
    at: (usize, usize),
    chans: (ChanNo, ChanNo),
    pass: &mut Pass,
    channels: &mut Channels,
) -> Result<(), OutOfMemory>
    requires network { IsNetworkOf plan.now H.links H.owners }
    requires pass { MayStep H.table H.owners H.links pass.old }
    requires few { stamps_drawn pass.old < 2 ^ 40 - 64 }
    requires at { CallerIsAt plan.now at.0 at.1 pass.old channels.old.by_number.items }
    requires op { HasOp plan.now at.0 at.1 (Move chans.0 chans.1) }
    ensures at { OnOk result (CallerIsAt plan.now at.0 (at.1 + 1) pass.new channels.new.by_number.items) }
    ensures drew { OnOk result (stamps_drawn pass.new ≤ stamps_drawn pass.old + 32) }
    ensures ready { OnOk result (PassGoesOn H.table H.owners H.links pass.old pass.new) }
    ensures actor { OnOk result (pass.new.actor ≡ pass.old.actor) }
{
    let Some(leaving) = plan.requests().get(chans.0.get() as usize) else {
        return Ok(());
    };
    let Some(joining) = plan.requests().get(chans.1.get() as usize) else {
        return Ok(());
    };
    let (old, new) = (&leaving.request, &joining.request);
    let last = channels.of(old.chan);
    if !last.established {
        return Ok(());
    }
    if !channels.of(new.chan).established {
        return Ok(());
    }
    let mut mover = Mover::new(
        old.chan, old.route, new.chan, new.route, last.gap, last.size,
    );
    let Ok(told) = network.shift(rt, pass, gate, &mut mover) else {
        return Err(OutOfMemory);
    };
    channels.leave(old.chan, new.chan, &told, last.gap, last.size);
    Ok(())
}
