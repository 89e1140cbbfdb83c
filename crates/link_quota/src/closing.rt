//! The closing rows of a split link, which are the only ones that expire: they are listed, so that a tick in which rows do looks at
//! no others.
ghost use Rattle.std.specs.Prelude.{◌≡◌, ℕ, ◌+◌, ◌<◌, true, false, List, length, filter};
ghost use Rattle.std.specs.List.{AllPairs};
ghost use Rattle.std.specs.Vec.{vec_capacity};
ghost use Rattle.traffic_contract.specs.Admission.{total};
ghost use Rattle.link_steps.specs.Split.{AreOfOtherGroups};
ghost use Rattle.link_server.specs.declared.held_row.HeldRow as Row;
ghost use Rattle.link_server.specs.Held.{reservations_held};
ghost use Rattle.link_quota.specs.Closing.{is_closing, if_closing, is_held, HaveGone, AreLowered};
ghost use Rattle.link_quota.specs.Places.{value_of};

use crate::groups::give_back_row;
use crate::share::Share;
use link_server::{HeldRow, LinkState};
use link_steps::{LinkStep, Phase, Split};
use std::vec::Vec;

// Whether there is a row, and it is closing.
pub(crate) fn is_closing(row: &Option<HeldRow>) -> bool
    ensures { result ≡ is_closing row.now }
{
    match row {
        Some(row) => row.phase == Phase::Closing,
        None => false,
    }
}

// Lists the row of a channel, if it is closing and wasn't before. There is room for it then.
pub(crate) fn list_released(
    closing: &mut Vec<HeldRow>,
    before: &Option<HeldRow>,
    after: &Option<HeldRow>,
)
    requires room { is_closing before.now ≡ false → is_closing after.now ≡ true → length closing.old.items < vec_capacity closing.old }
    ensures new { is_closing before.now ≡ false → (f : Row.HeldRow → ℕ) → total f closing.new.items ≡ total f closing.old.items + value_of (if_closing f) after.now }
    ensures old { is_closing before.now ≡ true → closing.new.items ≡ closing.old.items }
    ensures capacity { vec_capacity closing.new ≡ vec_capacity closing.old }
{
    if is_closing(before) {
        return;
    }
    if let Some(row) = after {
        if row.phase == Phase::Closing {
            closing.push_reserved(*row);
        }
    }
}

// Takes what the expired ones of these rows held off their groups' shares.
pub(crate) fn give_back_expired(
    shares: &mut [Share],
    split: &Split,
    link: &LinkState,
    rows: &[HeldRow],
)
    requires long { length shares.old ≡ length split.now.quotas }
    requires apart { AllPairs AreOfOtherGroups split.now.quotas }
    requires parts { HaveGone (record { shape = link.now.shape; split = split.now }) (reservations_held link.now) rows.now shares.old }
    ensures { AreLowered (record { shape = link.now.shape; split = split.now }) (reservations_held link.now) rows.now shares.old shares.new }
{
    let shape = link.shape();
    for place in 0..rows.len() {
        let row = rows[place];
        if link.held_of(row.chan).is_none() {
            give_back_row(shares, split, &shape, &row);
        }
    }
}

// Takes the expired ones of these rows off their list.
pub(crate) fn drop_expired(closing: &mut Vec<HeldRow>, link: &LinkState)
    ensures items { closing.new.items ≡ filter (is_held link.now.shape.bounds (reservations_held link.now)) closing.old.items }
    ensures capacity { vec_capacity closing.new ≡ vec_capacity closing.old }
{
    closing.retain(|row| link.held_of(row.chan).is_some());
}
