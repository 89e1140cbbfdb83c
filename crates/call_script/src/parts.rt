//! The parts of a plan, before they are known to keep its rules.
use crate::entries::{CallerEntry, LinkEntry, RequestEntry};
use crate::version::Version;
use net_units::Name;

// The parts of a plan.
#[derive(Drop)]
pub(crate) struct Parts {
    pub(crate) version: Version,
    pub(crate) links: Vec<LinkEntry>,
    pub(crate) groups: Vec<Name>,
    pub(crate) requests: Vec<RequestEntry>,
    pub(crate) callers: Vec<CallerEntry>,
    pub(crate) rounds: u64,
    pub(crate) tail: u64,
}
