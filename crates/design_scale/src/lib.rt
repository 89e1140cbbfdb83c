//! A tick and a unit for a design that names none, and what they lose of its numbers.
//!
//! [`choose`] finds the coarsest pair of those that are tried that loses at most a stated part of any number, and lets the design's run fit into
//! a scenario. [`losses`] tells what a pair loses, number by number.
#![tactic(auto)]

pub mod choice;
pub mod keeping;
pub mod lost;

pub use choice::{Choice, ONE_PERCENT, choose};
pub use lost::{Loss, losses};
