//! The order in which the actors of a run make their steps.

use net_units::{ActorNo, Listed};

/// An item of a schedule: how many steps one actor makes in a row.
#[derive(Clone, Copy, Debug, PartialEq, Eq)]
pub struct Do {
    /// The number of its line in the scenario, from 1, or 0 where it has none.
    pub line: u64,
    /// The actor.
    pub actor: ActorNo,
    /// How many steps it makes, from 1 to 1,048,576.
    pub count: u64,
}

/// The items of a schedule, in their order.
pub type Dos = Listed<Do>;

/// The order in which the actors of a run make their steps.
#[derive(Drop)]
pub struct Schedule {
    /// Whether the scenario has a schedule. One that isn't written has no items.
    pub written: bool,
    /// Its items.
    pub items: Dos,
}
