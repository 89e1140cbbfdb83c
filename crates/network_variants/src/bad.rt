//! What is wrong with a change.
use std::alloc::{AllocError, AllocFailed, Global};

/// Why there are no variants.
#[derive(Debug, Drop)]
pub enum BadChange {
    /// Out of memory.
    Memory,
    /// A change is refused.
    Word {
        /// Its place among the words, from 0.
        place: usize,
        /// What is wrong with it, and what would do.
        why: String,
    },
}

impl From<AllocError> for BadChange {
    fn from(_refused: AllocError) -> BadChange {
        BadChange::Memory
    }
}

impl<T: Drop> From<AllocFailed<T>> for BadChange {
    fn from(_refused: AllocFailed<T>) -> BadChange {
        BadChange::Memory
    }
}

/// The refusal of the change at a place, for this reason.
pub(crate) fn refused(alloc: Global, place: usize, why: &str) -> BadChange {
    match String::from_str(alloc, why) {
        Ok(why) => BadChange::Word { place, why },
        Err(AllocError) => BadChange::Memory,
    }
}

/// The same with a word between two parts of the reason.
pub(crate) fn refused_word(
    alloc: Global,
    place: usize,
    front: &str,
    word: &str,
    back: &str,
) -> BadChange {
    match format!(in alloc; "{front}{word}{back}") {
        Ok(why) => BadChange::Word { place, why },
        Err(AllocError) => BadChange::Memory,
    }
}
