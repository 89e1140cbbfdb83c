//! A designer's questions about a network, and their answers as tables and sentences.
#![tactic(auto)]

mod asking;
mod crossings;
mod denials;
mod fit;
mod held;
mod least;
mod links;
mod once_more;
mod parts;
mod route;
mod table;
mod tight;
mod trouble;

pub use asking::{Asking, asking_of, row_of, rows_of};
pub use denials::{denial_text, verdict_word};
pub use fit::fit_of;
pub use least::least_of;
pub use links::links_of;
pub use parts::{link_name, request_named, time_cell};
pub use route::route_of;
pub use table::table_of;
pub use trouble::Trouble;
