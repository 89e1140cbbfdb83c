//! The plane of a network: the one actor that makes the links' ticks and carries packets from link to link.
//!
//! It makes rounds. In each, every packet that reaches its next link in that round arrives there, in the order in which the
//! packets departed, and then each link makes one tick, in the order of the links. What [`Plane`] asks next follows from the
//! replies that it has got so far. A round is a tick of every link.
#![tactic(auto)]

pub mod asked;
pub mod flight;
mod flights;
pub mod laws;
pub mod plane;
mod rest;
pub mod window;

pub use asked::Asked;
pub use flight::Flight;
pub use plane::Plane;
pub use window::Window;
