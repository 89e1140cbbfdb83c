//! An audit of a packet table: the checks of a table that was made elsewhere, by a simulator, a capture or another switch.
//!
//! The table has a row for each packet and hop. It is checked against a plan and the levels with which the requests of the plan were
//! accepted, row by row. A sound table keeps every bound; that the table of every run is sound is a law of `report_laws`.
#![tactic(auto)]

pub(crate) mod auditing;
pub mod finding;
pub(crate) mod hop_trail;
pub mod laws;
pub mod terms;
pub(crate) mod trail;

pub use auditing::audit;
pub use finding::{Check, Finding};
pub use laws::sound_tables_keep_the_bounds;
