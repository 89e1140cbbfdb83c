//! A race: the callers and the plane of a plan step its links at once, each on a thread of its own.
//!
//! [`race`] opens a network of a plan's links, lets its actors make all their steps, and closes it: that leaves a journal for each
//! link and a pass for each actor. [`woven`] merges the journals by their stamps into the record of the run that has happened,
//! with the schedule that it followed, and [`woven_watched`] shows that run to a watcher and keeps no record. Nothing is claimed
//! of which order comes about, of waiting, fairness or deadlock.
#![tactic(auto)]

pub mod callers;
pub mod opening;
pub mod order;
pub mod pieces;
pub mod racing;
pub mod rounds;
pub mod scripts;
pub mod tail;
pub mod telling;
pub mod turns;
pub mod weaving;

pub use racing::race;
pub use weaving::{Raced, Told, woven, woven_watched};
