//! The plane's steps over a network.
ghost use Rattle.std.specs.Prelude.{◌≡◌, ℕ, ◌^◌, ◌+◌, ◌<◌, ◌≤◌, ◌-◌, length, IfOk, OnOk, OnErr};
ghost use Rattle.net_units.specs.declared.numbers.ChanNo.{ChanNo};
ghost use Rattle.setup_protocol.specs.declared.request.Request.{Request};
ghost use Rattle.link_ledger.specs.Tokens.{last_seen, stamps_drawn};
ghost use Rattle.shared_network.specs.Added.{AddsAbove, IsSamePass, IsLost};
ghost use Rattle.shared_network.specs.Calls.{HasNone, IsEstablished};
ghost use Rattle.shared_network.specs.Planes.{IsPlanes, MakesRound};
ghost use Rattle.shared_network.specs.Ready.{MayStep, PassGoesOn};

use crate::network::Network;
use link_ledger::{Home, Pass, StepFault};
use link_steps::{LinkStep, Reply};
use net_units::Gate;
use std::sync::Wait;
use tick_plane::Plane;

impl<L: LinkStep + Send, H: Home> Network<L, H> {
    /// Makes the plane's next ask with its pass: a packet arrives at a link, or a link ticks. The answer is the link's reply, which
    /// the plane has then taken (`made`), with a stamp above all that the pass had seen (`later`). The arrives and ticks among the
    /// pass's entries are those of this plane, of as many links as the network has (`planes`), and remain so. Channels of the pass
    /// stay as they were. The call may wait for the link.
    ///
    /// The plane has a step left (`left`), and room for the flights of this round (`room`), which `Plane::ready` makes. The pass has
    /// its seat, isn't spent (`pass`) and has drawn fewer than 2^40 - 64 stamps. After want of memory it is spent, the plane is as it
    /// was, and the link's journal may have the entry.
    pub fn plane_step<W: Wait, G: Gate>(
        &self,
        rt: &W,
        pass: &mut Pass,
        gate: &G,
        plane: &mut Plane,
    ) -> Result<Reply, StepFault>
        requires pass { MayStep H.table H.owners H.links pass.old }
        requires few { stamps_drawn pass.old < 2 ^ 40 - 64 }
        requires links { plane.old.links ≡ length H.links }
        requires left { plane.old.at.round < plane.old.rounds }
        requires room { plane.old.links - plane.old.at.ticked ≤ plane.old.spare }
        requires planes { IsPlanes (length H.links) plane.old pass.old.own }
        ensures made { IfOk result (λ reply. MakesRound plane.old plane.new pass.old pass.new reply) }
        ensures later { OnOk result (AddsAbove (last_seen pass.old) pass.old pass.new) }
        ensures planes { OnOk result (IsPlanes (length H.links) plane.new pass.new.own) }
        ensures room { OnOk result (plane.new.at.round ≡ plane.old.at.round → plane.new.links - plane.new.at.ticked ≤ plane.new.spare) }
        ensures established { OnOk result ((request : Request) → IsEstablished request pass.old.own → IsEstablished request pass.new.own) }
        ensures unopened { OnOk result ((chan : ChanNo) → HasNone chan pass.old.own → HasNone chan pass.new.own) }
        ensures drew { OnOk result (stamps_drawn pass.new ≡ stamps_drawn pass.old + 1) }
        ensures ready { OnOk result (PassGoesOn H.table H.owners H.links pass.old pass.new) }
        ensures lost { OnErr result (IsLost pass.new) }
        ensures kept { OnErr result ((pass.new.own ≡ pass.old.own) × (plane.new ≡ plane.old)) }
        ensures same { IsSamePass pass.old pass.new }
    {
        // Read for what it says of every network.
        let _valid = self.links.len();
        let Some((link, ask)) = plane.next_ask() else {
            unreachable!()
        };
        let reply = self.step_at(rt, pass, gate, link, &ask)?;
        if plane.take(reply).is_err() {
            unreachable!()
        }
        Ok(reply)
    }
}
