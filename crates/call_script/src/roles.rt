//! What an operation is to a channel.
ghost use Rattle.std.specs.Prelude.{◌≡◌};
ghost use Rattle.call_script.specs.Rules.{named};

use crate::attributes::{attributes_of, channel_of};
use crate::operations::Op;

/// What an operation is to a channel.
#[derive(Clone, Copy, Debug, PartialEq, Eq)]
pub enum Role {
    /// The operation opens the channel.
    Opens,
    /// It uses it, as a send, a close and a move from it do.
    Uses,
    /// It closes it.
    Closes,
    /// It leaves it, as a move from it does.
    Leaves,
    /// It keeps the channel in use, as a send and a move from it do.
    Keeps,
    /// It joins it, as a move onto it does.
    Joins,
}

// Where an operation that asks for a channel may stand.
#[derive(Clone, Copy)]
pub(crate) enum Order {
    // After one that adds it.
    After,
    // After none that does.
    Apart,
}

// The number of the channel to which an operation is this, if there is one.
pub(crate) fn named(role: Role, op: &Op) -> Option<u32>
    ensures { result ≡ named role op.now }
{
    let own = attributes_of(op);
    match channel_of(role, &own) {
        Some(chan) => Some(chan.get()),
        None => None,
    }
}
