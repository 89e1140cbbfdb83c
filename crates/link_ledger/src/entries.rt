//! The entries of journals and passes.

use link_steps::{Ask, Reply};
use net_units::{ActorNo, LinkNo, Listed};

/// One step of a link, as its journal has it.
#[derive(Clone, Copy, Debug, PartialEq, Eq)]
pub struct Entry {
    /// Its stamp, which no other step of the network has.
    pub stamp: u64,
    /// The actor that asked.
    pub actor: ActorNo,
    /// What was asked.
    pub ask: Ask,
    /// What the link replied.
    pub reply: Reply,
}

/// One step that a pass has made.
#[derive(Clone, Copy, Debug, PartialEq, Eq)]
pub struct OwnEntry {
    /// The link that was asked.
    pub link: LinkNo,
    /// The place of the entry in that link's journal, from 1.
    pub place: u64,
    /// Its stamp.
    pub stamp: u64,
    /// What was asked.
    pub ask: Ask,
    /// What the link replied.
    pub reply: Reply,
}

/// Entries in their order.
pub type Entries = Listed<Entry>;

/// The steps of a link, in the order in which they were made.
#[derive(Drop)]
pub struct Journal {
    /// The link.
    pub link: LinkNo,
    /// Its steps.
    pub entries: Entries,
}
