//! Stamps that threads draw, and what each thread knows of each link.
//!
//! One word counts the stamps. Each link has a seat, with the list of the marks entered there; each actor has a pass,
//! which knows a beginning of every link's list. What seats know exists in the proofs alone and takes no memory: a seat
//! is a token. A pass meets a link under the link's lock, draws a stamp, and the link enters the ticket, so that the
//! stamps of each list rise and no two steps of a network have the same stamp. The stamps and seats of a call come from
//! one [`Stamps::open`].
#![tactic(auto)]

pub mod laws;
pub mod marks;
pub mod rule;
pub mod seats;
pub mod stamps;
pub mod views;

pub use marks::Mark;
pub use seats::{LinkSeat, PassSeat, Ticket};
pub use stamps::Stamps;
