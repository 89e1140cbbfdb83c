//! One step of a run.
use link_steps::{Ask, Reply};
use net_units::{ActorNo, LinkNo};

/// One step of a run.
#[derive(Clone, Copy, Debug, PartialEq, Eq)]
pub struct Done {
    /// Who made it.
    pub actor: ActorNo,
    /// The link that was asked.
    pub link: LinkNo,
    /// What it was asked.
    pub ask: Ask,
    /// What it replied.
    pub reply: Reply,
}
