//! A network, and what its requests came to, as one HTML page that needs no other file.
#![tactic(auto)]

mod cells;
mod facts_table;
mod hops;
mod inputs;
mod links;
mod packets;
mod page;
mod requests;
mod sentences;
mod style;
mod tightness;

pub use page::page_of;
pub use tightness::tight_first;
