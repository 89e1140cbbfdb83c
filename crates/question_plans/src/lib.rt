//! The plans that a designer's questions are put to: a plan's requests alone, with what a question wants for one of them, or with more
//! like one of them after all others.
#![tactic(auto)]

mod alone;
mod change;
mod kept;
mod more;
mod names;

pub use alone::requests_alone;
pub use change::Change;
pub use kept::{with_change, with_more_after};
pub use more::with_more;
