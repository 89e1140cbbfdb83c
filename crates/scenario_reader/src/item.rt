//! What a line of a scenario says.
use call_script::{Do, LinkEntry, Op, RequestEntry, Version};
use link_steps::Quota;
use net_units::{LinkNo, Name};

/// What a line says, where no rule refuses it.
#[derive(Drop)]
pub enum Item {
    /// Nothing: the line is passed over.
    Nothing,
    /// The header, with the version of the language.
    Header(Version),
    /// A link.
    Link(LinkEntry),
    /// A group, by its name.
    Group(Name),
    /// A quota of the link of this number.
    Quota { link: LinkNo, quota: Quota },
    /// A caller begins, by its name, with the number of its group, 0 for none.
    Caller { name: Name, group: u8 },
    /// The caller opens a request.
    Open(RequestEntry),
    /// The caller sends on a request, closes one, moves the packets of one to another, or pours.
    Op(Op),
    /// How many rounds the plane makes beside the callers, at most 524,288.
    Rounds(u64),
    /// How many rounds the plane makes after them, at most 524,288.
    Tail(u64),
    /// A schedule begins.
    Schedule,
    /// An item of the schedule.
    Do(Do),
}
