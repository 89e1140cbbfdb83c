//! Laws of a run's report, each as the contract of a function that does nothing: the numbers that it tells are those that the whole
//! guarantee speaks of.
#![tactic(auto)]

pub mod laws;

pub use audit_laws::{
    audits_of_runs_find_nothing, every_tick_is_early, levels_of_runs_are_accepted,
    rows_of_runs_are_small, tables_of_runs_are_sound,
};
pub use laws::{
    every_departure_has_one_row, reports_keep_their_bounds, reports_show_every_delay,
    reports_show_refused_sends, reports_show_the_steps, reports_show_what_links_did,
    reports_show_what_sources_offer, reports_tell_the_delays_of_rows, rows_show_departures,
};
