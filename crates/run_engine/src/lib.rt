//! The engine of runs: every order in which the actors of a network make their steps, as it is made and watched.
//!
//! The actors are the callers of a plan and the plane. Each asks what its own replies so far tell it to ask, and each link
//! replies by its own history. `specs/` defines a run and its parts. [`Engine`] makes such a run, one step of one actor at a time,
//! and [`play_watched`] plays a schedule of a plan; who watches it sees each step.
#![tactic(auto)]

mod actors;
pub mod callers;
pub mod engine;
mod links;
pub mod playing;
mod quiet;
pub mod rounds;
pub mod watching;

pub use actors::actor_of;
pub use callers::{Callers, replay, replay_watched};
pub use engine::Engine;
pub use links::new_links;
pub use playing::{PlayFault, play_watched};
pub use quiet::plane_of;
pub use rounds::{make_plane_step, play_plane};
pub use watching::{Watch, make_watched, stride_watched};
