//! Questions about packets: what came of each channel of a network, and which rows of a table of measured packets break a promise.
#![tactic(auto)]

mod audit;
mod channels;
mod faults;
mod fields;
mod table;

pub use audit::{Audit, audit_of};
pub use channels::channels_of;
pub use packet_answers::Trouble;
pub use table::{BadLine, MOST_TOLD};
