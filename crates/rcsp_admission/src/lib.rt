//! The admission test of one link.
//!
//! A link is a rate-controlled static-priority server (Zhang & Ferrari 1993). It keeps the channels that it has admitted as a
//! list of rows, and beside them an index of their keys and a running load for each level. After every call the rows pass the
//! test. The running loads are public, for a link that also keeps the loads of parts of its rows.
#![tactic(auto)]

mod key_index;
mod level_sums;
mod lines;
pub mod loads;
mod rows;

pub use level_sums::{LevelSums, NoLevel};
