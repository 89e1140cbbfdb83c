//! Links behind locks, each with its journal, which any number of threads may step.
//!
//! A [`LockedLink`] keeps a link, its journal and its seat in one lock. A caller steps it with a [`Pass`], which keeps an
//! entry of its own for each step that it has made. Whenever the lock is free, the journal is one legal history that holds
//! each answered call once, and its stamps rise (`IsInOrder` in `specs/Order.antt`); a call that ended out of memory may stand
//! in it or not. A call's reply is that of the rules after the journal so far, which begins with all that the pass had seen of
//! the link; and its stamp is above every stamp that the pass had seen. Nothing is claimed of waiting, fairness or deadlock.
#![tactic(auto)]

pub mod entries;
mod held;
pub mod home;
pub mod locked;
pub mod pass;

pub use entries::{Entries, Entry, Journal, OwnEntry};
pub use home::Home;
pub use locked::{LockedLink, StepFault};
pub use pass::Pass;
