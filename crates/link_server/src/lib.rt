//! One link of a network of real-time channels, as a state that is asked one step at a time.
//!
//! A link is a rate-controlled static-priority server (Zhang & Ferrari 1993). Its state keeps what the rules of
//! `link_steps` need of its history, and answers each ask by them. Time counts in ticks, sizes and buffer in units. Of
//! the asks, only a reserve takes memory.
#![tactic(auto)]

mod asks;
mod held_row;
mod keyed_list;
pub mod laws;
mod link_state;
mod planned;
mod queue;
mod table;
mod tick;

pub use held_row::HeldRow;
pub use link_state::LinkState;
