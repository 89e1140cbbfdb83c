//! What each operation is to channels and links: a table with one line for each.
ghost use Rattle.std.specs.Prelude.{◌≡◌};
ghost use Rattle.call_script.specs.Operations.{attributes_of, channel_of, plain};

use crate::operations::Op;
use crate::roles::Role;
use net_units::{ChanNo, LinkNo};

// What an operation is to channels and links.
#[derive(Clone, Copy)]
pub(crate) struct Attributes {
    // The channels to which it is what a role says.
    pub(crate) opens: Option<ChanNo>,
    pub(crate) uses: Option<ChanNo>,
    pub(crate) closes: Option<ChanNo>,
    pub(crate) leaves: Option<ChanNo>,
    pub(crate) keeps: Option<ChanNo>,
    pub(crate) joins: Option<ChanNo>,
    // The packets that it plans, and over which hops.
    pub(crate) amount: Amount,
    pub(crate) way: Way,
    // What a version needs to have it.
    pub(crate) needs: Feature,
}

// How many packets an operation plans.
#[derive(Clone, Copy)]
pub(crate) enum Amount {
    // None.
    Nothing,
    // This many, one every gap, of this size.
    Fresh { count: u64, gap: u64, size: u32 },
    // As many as the request of a channel has to carry.
    Carried(ChanNo),
}

// Over which hops they go.
#[derive(Clone, Copy)]
pub(crate) enum Way {
    // Over none.
    Nowhere,
    // Over those of a channel's route.
    OverRoute(ChanNo),
    // Over one link, which is asked for best-effort packets.
    OverLink(LinkNo),
}

// What not every version of the language has.
#[derive(Clone, Copy)]
pub(crate) enum Feature {
    Always,
    BestEffort,
    Moves,
}

// The table.
pub(crate) fn attributes_of(op: &Op) -> Attributes
    ensures { result ≡ attributes_of op.now }
{
    match *op {
        Op::Open(chan) => Attributes {
            opens: Some(chan),
            ..plain()
        },
        Op::Send {
            chan,
            count,
            gap,
            size,
        } => Attributes {
            uses: Some(chan),
            keeps: Some(chan),
            amount: Amount::Fresh { count, gap, size },
            way: Way::OverRoute(chan),
            ..plain()
        },
        Op::Close(chan) => Attributes {
            uses: Some(chan),
            closes: Some(chan),
            ..plain()
        },
        Op::Pour {
            link,
            count,
            gap,
            size,
        } => Attributes {
            amount: Amount::Fresh { count, gap, size },
            way: Way::OverLink(link),
            needs: Feature::BestEffort,
            ..plain()
        },
        Op::Move { old, new } => Attributes {
            uses: Some(old),
            keeps: Some(old),
            leaves: Some(old),
            joins: Some(new),
            amount: Amount::Carried(old),
            way: Way::OverRoute(new),
            needs: Feature::Moves,
            ..plain()
        },
    }
}

// An operation that is nothing to any channel, and plans no packets.
fn plain() -> Attributes
    ensures { result ≡ plain }
{
    Attributes {
        opens: None,
        uses: None,
        closes: None,
        leaves: None,
        keeps: None,
        joins: None,
        amount: Amount::Nothing,
        way: Way::Nowhere,
        needs: Feature::Always,
    }
}

// The channel to which it is this.
pub(crate) fn channel_of(role: Role, own: &Attributes) -> Option<ChanNo>
    ensures { result ≡ channel_of role own.now }
{
    match role {
        Role::Opens => own.opens,
        Role::Uses => own.uses,
        Role::Closes => own.closes,
        Role::Leaves => own.leaves,
        Role::Keeps => own.keeps,
        Role::Joins => own.joins,
    }
}
