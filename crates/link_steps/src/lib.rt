//! What one link of a network of real-time channels does, as rules over its history.
//!
//! A link is a rate-controlled static-priority server (Zhang & Ferrari 1993): each channel has a regulator, and
//! after the regulators one queue for each level is served in order of priority, without interruption. The link is
//! asked to reserve, relax, deny, submit, release, arrive, tick or pour, and replies. Its history is the list of
//! these asks and replies. `specs/` says, over the whole history, which reply each ask gets. A type that replies so
//! implements the trait [`LinkStep`]. Time counts in ticks, sizes and buffer in units. Nothing here takes memory
//! but a step.
#![tactic(auto)]

pub mod asks;
pub mod laws;
pub mod link_step;
pub mod order_laws;
pub mod quota;
pub mod replies;
pub mod row_laws;
pub mod shape;
pub mod split;

pub use asks::{Ask, Packet};
pub use link_step::LinkStep;
pub use quota::Quota;
pub use replies::{Entry, Phase, Refusal, Reply, Sent, Unexpected, Why};
pub use shape::{BadShape, LinkShape, ShapeField};
pub use split::Split;
