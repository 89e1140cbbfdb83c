//! Moves of planned packets over a network.
ghost use Rattle.std.specs.Prelude.{◌≡◌, ℕ, ◌^◌, ◌+◌, ◌<◌, ◌≤◌, ◌-◌, [], IfOk, OnOk, OnErr};
ghost use Rattle.channel_move.specs.Moving.{next_of_move};
ghost use Rattle.channel_move.specs.Standing.{Moves, move_of};
ghost use Rattle.link_ledger.specs.Tokens.{stamps_drawn};
ghost use Rattle.shared_network.specs.Added.{IsSamePass, IsLost};
ghost use Rattle.shared_network.specs.Calls.{StepsStand};
ghost use Rattle.shared_network.specs.Shifts.{HasShifted, MayShift};
ghost use Rattle.shared_network.specs.Ready.{MayStep};

use crate::network::Network;
use channel_move::{Mover, Shifted};
use link_ledger::{Home, Pass, StepFault};
use link_steps::LinkStep;
use net_units::Gate;
use std::sync::Wait;

impl<L: LinkStep + Send, H: Home> Network<L, H> {
    /// Moves the packets that are planned on one channel, and not taken by its first hop yet, to another channel: makes all asks of
    /// the mover, and answers how many packets stay and how many go (`moved`). The channel that is left is released at all hops of its
    /// route, and can be neither torn down nor left again; each other channel of the pass stays as it was, and so does the one that is
    /// joined. The stamps of the entries are above all that the pass had seen. The call may wait for each link.
    ///
    /// The mover has taken no reply (`start`), and the pass may make its move (`may`): the two channels differ, and the pass's actor owns
    /// both. This pass's setups of both were accepted over the mover's routes, and it has neither torn them down nor moved packets off
    /// them. It has submitted nothing on the one that is joined, whose contract allows the mover's size. Where packets were planned on
    /// the one that is left, the mover's gap and size are those of the last ones.
    ///
    /// The pass has its seat, isn't spent (`pass`) and has drawn fewer than 2^40 - 64 stamps. After want of memory it is
    /// spent, the steps made so far stand in the journals and among its own entries (`stand`), and nothing further is claimed of
    /// the two channels.
    pub fn shift<W: Wait, G: Gate>(
        &self,
        rt: &W,
        pass: &mut Pass,
        gate: &G,
        mover: &mut Mover,
    ) -> Result<Shifted, StepFault>
        requires pass { MayStep H.table H.owners H.links pass.old }
        requires few { stamps_drawn pass.old < 2 ^ 40 - 64 }
        requires start { Moves mover.old [] }
        requires may { MayShift H.owners H.links pass.old (move_of mover.old) }
        ensures moved { IfOk result (λ told. HasShifted H.table H.owners H.links (move_of mover.old) mover.new pass.old pass.new told) }
        ensures drew { OnOk result (stamps_drawn pass.new ≤ stamps_drawn pass.old + 17) }
        ensures lost { OnErr result (IsLost pass.new) }
        ensures stand { OnErr result (StepsStand (next_of_move (move_of mover.old)) pass.old pass.new) }
        ensures terms { move_of mover.new ≡ move_of mover.old }
        ensures same { IsSamePass pass.old pass.new }
    {
        while let Some((link, ask)) = mover.next_ask() {
            let reply = self.step_at(rt, pass, gate, link, &ask)?;
            if mover.take(reply).is_err() {
                unreachable!()
            }
        }
        match mover.shifted() {
            Some(told) => Ok(told),
            None => unreachable!(),
        }
    }
}
