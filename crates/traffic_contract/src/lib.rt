//! Traffic contracts of real-time channels, and what a link's admission test makes of them.
//!
//! A contract bounds the packets of a channel in every window of ticks. The definitions that several crates
//! cite stand in `specs/`: when a list of ticks keeps a contract, which tick is eligible, and which rows a link
//! admits. Nothing here takes memory.
#![tactic(auto)]

pub mod admission;
pub mod contract;
pub mod laws;

pub use admission::Test;
pub use contract::{BadContract, Contract, ContractField};
