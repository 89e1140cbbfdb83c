//! An operation with what it needs of the plan.
use net_units::{ChanNo, LinkNo};
use setup_protocol::Request;

/// An operation of a caller, with the request of its channel in place of the channel's number.
#[derive(Clone, Copy)]
pub enum Task {
    /// Set the request up.
    Opens(Request),
    /// Ask a link once for packets: to submit those of a channel, at the first hop of its route, or best-effort ones.
    Sends {
        link: LinkNo,
        chan: Option<ChanNo>,
        count: u64,
        gap: u64,
        size: u32,
    },
    /// Release the request's channel, hop by hop.
    Closes(Request),
    /// Move what is planned on one request's channel to the other's. The packets have this size, one every gap.
    Moves {
        old: Request,
        new: Request,
        gap: u64,
        size: u32,
    },
}
