//! Laws of the table of a run, each as the contract of a function that does nothing: its rows are those of packets that left the hops of
//! accepted channels, and an audit of it finds nothing.
#![tactic(auto)]

pub mod laws;

pub use laws::{
    audits_of_runs_find_nothing, every_tick_is_early, levels_of_runs_are_accepted,
    rows_of_runs_are_small, tables_of_runs_are_sound,
};
