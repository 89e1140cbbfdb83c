//! An audit of packets that were measured against what their channels were promised.
//!
//! A table says of each packet its channel, when it was sent and when it arrived. The audit lists each row that breaks a promise, or
//! to which none applies, with how far it is off. Times are in ticks.
#![tactic(auto)]

mod auditing;
mod rows;
mod trail;

pub use auditing::audit;
pub use rows::{Fault, Found, Promise, Row};
