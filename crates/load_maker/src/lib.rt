//! Plans of large loads, made from a number and a size.
//!
//! [`made`] draws the requests of a plan from its number: their routes over four links in a row, their contracts, bounds and packets.
//! The same number and size always give the same plan. [`take_turns`] lets the actors of a plan make their steps in turn. Times are
//! in ticks, sizes in units.
#![tactic(auto)]

mod draws;
mod links;
pub mod load;
pub mod making;
mod script;
pub mod turns;

pub use making::made;
pub use turns::{take_turns, take_watched_turns};
