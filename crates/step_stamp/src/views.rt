//! What a seat knows, for contracts alone: no value of these types is made.
use crate::marks::{Drawn, Mark};
use std::collections::LinkedList;

/// What a view knows of one link, and the two lists of it that the view's last join brought together.
pub struct Shelf {
    /// The number of the link.
    pub link: u64,
    /// The marks that it knows, a beginning of the link's list.
    pub known: LinkedList<Mark>,
    /// What it knew before the join.
    pub first: LinkedList<Mark>,
    /// What the other knew.
    pub second: LinkedList<Mark>,
}

/// What a seat knows.
pub struct View {
    /// The largest stamp that it has seen, 0 for none.
    pub seen: u64,
    /// The number of actors of the opening, 0 of a seat that has joined another.
    pub among: u64,
    /// The links whose lists it has.
    pub links: LinkedList<u64>,
    /// Its actors.
    pub actors: LinkedList<u64>,
    /// The marks that these have drawn.
    pub drawn: LinkedList<Drawn>,
    /// The marks on their way into a link's list.
    pub hand: LinkedList<Drawn>,
    /// What it knows of each link: the newest shelf of a link counts.
    pub shelves: LinkedList<Shelf>,
}

/// How many links and actors there are.
#[derive(Clone, Copy, Debug)]
pub struct Opening {
    /// The number of links.
    pub links: u64,
    /// The number of actors.
    pub actors: u64,
}
