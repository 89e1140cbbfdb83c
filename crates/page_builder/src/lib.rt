//! What a page shows of a network that a file describes, from runs that are played, and the page and its pictures themselves.
#![tactic(auto)]

mod fills;
mod links;
mod network;
mod page;
mod requests;
mod trouble;
mod written;

pub use network::facts_of;
pub use page::{Picture, page_text, picture_named, picture_text};
pub use trouble::Trouble;
pub use written::add_written;
