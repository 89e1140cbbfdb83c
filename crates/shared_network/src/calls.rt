//! Setups and teardowns over a network.
ghost use Rattle.std.specs.Prelude.{◌≡◌, ℕ, ◌^◌, ◌+◌, ◌<◌, ◌≤◌, ◌-◌, IfOk, OnOk, OnErr, true};
ghost use Rattle.link_steps.specs.Lists.{Each};
ghost use Rattle.setup_protocol.specs.Hops.{IsHopOf};
ghost use Rattle.setup_protocol.specs.Laws.{is_accepted};
ghost use Rattle.setup_protocol.specs.State.{outcome_of};
ghost use Rattle.setup_protocol.specs.Setup.{next_ask};
ghost use Rattle.setup_protocol.specs.Teardown.{next_release, told_count};
ghost use Rattle.link_ledger.specs.Owners.{IsOwner};
ghost use Rattle.link_ledger.specs.Tokens.{last_seen, stamps_drawn};
ghost use Rattle.shared_network.specs.Added.{AddsAbove, IsSamePass, IsLost};
ghost use Rattle.shared_network.specs.Calls.{HasNone, IsEstablished, OthersStay, SetsUp, StepsStand, TearsDown};
ghost use Rattle.shared_network.specs.Ready.{MayStep, PassGoesOn};

use crate::network::Network;
use link_ledger::{Home, Pass, StepFault};
use link_steps::{LinkStep, Reply};
use net_units::Gate;
use setup_protocol::{Request, Setup, Teardown, Verdict};
use std::sync::Wait;

impl<L: LinkStep + Send, H: Home> Network<L, H> {
    /// Sets a channel up over its route, from its first reserve to its verdict, which is that of the replies that the pass then
    /// holds. Each hop of the route is over a link of the network, with its bounds and its propagation (`hops`), the pass's actor
    /// owns the channel, and the pass has no entry of it (`new`). An accepted channel is then established, and each other channel of
    /// the pass is as it was. The stamps of its entries are above all that the pass had seen (`later`). The call may wait for each
    /// link.
    ///
    /// The pass has its seat, isn't spent (`pass`) and has drawn fewer than 2^40 - 64 stamps. After want of memory it is
    /// spent, the steps made so far stand in the journals and among its own entries (`stand`), and nothing further is claimed of
    /// the channel.
    pub fn setup<W: Wait, G: Gate>(
        &self,
        rt: &W,
        pass: &mut Pass,
        gate: &G,
        request: &Request,
    ) -> Result<Verdict, StepFault>
        requires pass { MayStep H.table H.owners H.links pass.old }
        requires few { stamps_drawn pass.old < 2 ^ 40 - 64 }
        requires owned { IsOwner H.owners pass.old.actor request.now.chan }
        requires new { HasNone request.now.chan pass.old.own }
        requires hops { Each (IsHopOf H.links) request.now.route }
        ensures made { IfOk result (λ verdict. SetsUp request.now pass.old pass.new (outcome_of verdict)) }
        ensures established { IfOk result (λ verdict. is_accepted (outcome_of verdict) ≡ true → IsEstablished request.now pass.new.own) }
        ensures others { OnOk result (OthersStay request.now.chan pass.old.own pass.new.own) }
        ensures drew { OnOk result (stamps_drawn pass.new ≤ stamps_drawn pass.old + 32) }
        ensures later { OnOk result (AddsAbove (last_seen pass.old) pass.old pass.new) }
        ensures ready { OnOk result (PassGoesOn H.table H.owners H.links pass.old pass.new) }
        ensures lost { OnErr result (IsLost pass.new) }
        ensures stand { OnErr result (StepsStand (next_ask request.now) pass.old pass.new) }
        ensures same { IsSamePass pass.old pass.new }
    {
        // Read for what they say of every contract and route.
        let _valid = (request.contract.smax(), request.route.len());
        let mut setup = Setup::new(request);
        while let Some((link, ask)) = setup.next_ask() {
            let reply = self.step_at(rt, pass, gate, link, &ask)?;
            if setup.take(reply).is_err() {
                unreachable!()
            }
        }
        match setup.verdict() {
            Some(verdict) => Ok(verdict),
            None => unreachable!(),
        }
    }

    /// Releases an established channel at all hops of its route, in their order, and answers the count of packets that the first hop
    /// has taken or still takes. The pass's actor owns the channel, this pass's setup of the request was accepted, and it has neither
    /// torn it down nor moved its packets off it (`established`). Each other channel of the pass stays as it was. The stamps of the
    /// entries are above all that the pass had seen (`later`). The call may wait for each link.
    ///
    /// The pass has its seat, isn't spent (`pass`) and has drawn fewer than 2^40 - 64 stamps. After want of memory it is
    /// spent, the steps made so far stand in the journals and among its own entries (`stand`), and nothing further is claimed of
    /// the channel.
    pub fn teardown<W: Wait, G: Gate>(
        &self,
        rt: &W,
        pass: &mut Pass,
        gate: &G,
        request: &Request,
    ) -> Result<u64, StepFault>
        requires pass { MayStep H.table H.owners H.links pass.old }
        requires few { stamps_drawn pass.old < 2 ^ 40 - 64 }
        requires owned { IsOwner H.owners pass.old.actor request.now.chan }
        requires hops { Each (IsHopOf H.links) request.now.route }
        requires established { IsEstablished request.now pass.old.own }
        ensures torn { IfOk result (λ count. TearsDown request.now pass.old pass.new count) }
        ensures others { OnOk result (OthersStay request.now.chan pass.old.own pass.new.own) }
        ensures drew { OnOk result (stamps_drawn pass.new ≤ stamps_drawn pass.old + 16) }
        ensures later { OnOk result (AddsAbove (last_seen pass.old) pass.old pass.new) }
        ensures ready { OnOk result (PassGoesOn H.table H.owners H.links pass.old pass.new) }
        ensures lost { OnErr result (IsLost pass.new) }
        ensures stand { OnErr result (StepsStand (next_release request.now.chan request.now.route) pass.old pass.new) }
        ensures same { IsSamePass pass.old pass.new }
    {
        // Read for what it says of every route.
        let _valid = request.route.len();
        let mut teardown = Teardown::new(request.chan, request.route);
        let mut count = None;
        while let Some((link, ask)) = teardown.next_ask() {
            let reply = self.step_at(rt, pass, gate, link, &ask)?;
            count = Some(count.unwrap_or(count_told(&reply)));
            if teardown.take(reply).is_err() {
                unreachable!()
            }
        }
        match count {
            Some(count) => Ok(count),
            None => unreachable!(),
        }
    }
}

// The count of packets that a release was answered with.
fn count_told(reply: &Reply) -> u64
    ensures { result ≡ told_count reply.now }
{
    match reply {
        Reply::Closing { count, .. } => *count,
        _ => 0,
    }
}
