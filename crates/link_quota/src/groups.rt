//! The groups of a split link: whose a channel is, where a group's quota stands, and its share.
ghost use Rattle.std.specs.Prelude.{◌≡◌, ◌^◌, ◌<◌, IfNone, IfSome, length};
ghost use Rattle.std.specs.List.{AllPairs};
ghost use Rattle.link_steps.specs.Split.{group_of, AreOfOtherGroups};
ghost use Rattle.link_quota.specs.Places.{HasNoQuota, IsQuotaPlace, HaveRoomFor, HavePart, AreRaisedBy, AreSmall, AreChangedBy};

use crate::share::Share;
use link_server::HeldRow;
use link_steps::{LinkShape, Quota, Split};
use net_units::ChanNo;

// The group of a channel, 0 for none.
pub(crate) fn group_of(split: &Split, chan: ChanNo) -> u8
    ensures { result ≡ group_of split.now chan }
{
    match split.groups().get(chan.get() as usize) {
        Some(group) => *group,
        None => 0,
    }
}

// The place of a group's quota.
pub(crate) fn place_of(quotas: &[Quota], group: u8) -> Option<usize>
    ensures none { IfNone result (HasNoQuota quotas.now group) }
    ensures some { IfSome result (IsQuotaPlace quotas.now group) }
{
    for place in 0..quotas.len() {
        if quotas[place].group == group {
            return Some(place);
        }
    }
    None
}

// A row holds its part of its group's share.
pub(crate) fn hold_row(shares: &mut [Share], split: &Split, shape: &LinkShape, row: &HeldRow)
    requires long { length shares.old ≡ length split.now.quotas }
    requires apart { AllPairs AreOfOtherGroups split.now.quotas }
    requires room { HaveRoomFor (record { shape = shape.now; split = split.now }) row.now shares.old }
    ensures { AreRaisedBy (record { shape = shape.now; split = split.now }) row.now shares.old shares.new }
{
    let group = group_of(split, row.chan);
    if let Some(place) = place_of(split.quotas(), group) {
        shares[place].hold(shape, row);
    }
}

// It gives its part back.
pub(crate) fn give_back_row(shares: &mut [Share], split: &Split, shape: &LinkShape, row: &HeldRow)
    requires long { length shares.old ≡ length split.now.quotas }
    requires apart { AllPairs AreOfOtherGroups split.now.quotas }
    requires part { HavePart (record { shape = shape.now; split = split.now }) row.now shares.old }
    ensures { AreRaisedBy (record { shape = shape.now; split = split.now }) row.now shares.new shares.old }
{
    let group = group_of(split, row.chan);
    if let Some(place) = place_of(split.quotas(), group) {
        shares[place].give_back(shape, row);
    }
}

// The row of a channel has changed, or come, or gone: its group's share follows.
pub(crate) fn change_row(
    shares: &mut [Share],
    split: &Split,
    shape: &LinkShape,
    before: Option<HeldRow>,
    after: Option<HeldRow>,
)
    requires long { length shares.old ≡ length split.now.quotas }
    requires apart { AllPairs AreOfOtherGroups split.now.quotas }
    requires part { IfSome before (λ row. HavePart (record { shape = shape.now; split = split.now }) row shares.old) }
    requires few { AreSmall (record { shape = shape.now; split = split.now }) shares.old }
    requires small { IfSome after (λ row. row.kept < 2 ^ 61) }
    ensures { AreChangedBy (record { shape = shape.now; split = split.now }) before after shares.old shares.new }
{
    if let Some(row) = before {
        give_back_row(shares, split, shape, &row);
    }
    if let Some(row) = after {
        hold_row(shares, split, shape, &row);
    }
}
