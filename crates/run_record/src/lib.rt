//! What was done in a run of a network: one entry for each step, who asked which link what, and what it replied.
//!
//! The actors of a run are the callers and the plane. [`Record`] keeps the entries in the order of time. `specs/` says of
//! a run, which lists them newest first, what its part on a link is (the history of that link), and which replies an
//! actor has got. Nothing here knows of a plan.
#![tactic(auto)]

pub(crate) mod departures;
pub mod done;
pub mod hop_table;
pub(crate) mod hops;
pub mod record;
pub mod rows;

pub use done::Done;
pub use hop_table::HopTable;
pub use record::Record;
pub use rows::{HopRow, HopRows};
