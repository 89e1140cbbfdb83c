//! A link that is split between groups of channels.
#![tactic(auto)]

pub mod any_link;
mod closing;
mod groups;
pub mod laws;
mod offer;
pub mod quota_link;
mod resting;
mod share;

pub use any_link::AnyLink;
pub use quota_link::QuotaLink;
