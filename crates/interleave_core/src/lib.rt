//! The guarantee of a network, after every step of every run.
//!
//! The actors of a run are the callers of a plan and the plane, and `run_engine` says what a run is. The laws say what holds of every
//! run of a network whose parts fit. They speak of no calendar, queue or running sum. [`Core`] makes such a run, one step of one actor
//! at a time, and records it; [`play`] plays a schedule.
#![tactic(auto)]

pub mod laws;
pub mod linked_laws;
pub mod playing;
pub mod refusal;
pub mod stepping;

pub use playing::play;
pub use refusal::CoreRefusal;
pub use run_engine::PlayFault;
pub use stepping::Core;
