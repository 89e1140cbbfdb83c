//! Moves between requests with the same contract, whose routes begin and end at the same nodes.
ghost use Rattle.std.specs.Prelude.{◌≡◌, ◌&&◌, nat_eq, not};
ghost use Rattle.std.specs.List.{list_all, slice_get};
ghost use Rattle.net_units.specs.Numbers.{channel_number};
ghost use Rattle.call_script.specs.Rules.{all_ops, fits_between, may_move, move_is_fit};

use crate::attributes::attributes_of;
use crate::entries::{CallerEntry, LinkEntry, RequestEntry};
use crate::moves::may_move;
use crate::operations::Op;
use net_units::ChanNo;

pub(crate) fn are_fit(
    links: &[LinkEntry],
    requests: &[RequestEntry],
    callers: &[CallerEntry],
) -> bool
    ensures { result ≡ all_ops (move_is_fit links.now requests.now) callers.now }
{
    callers.iter().all(|caller| ops_are_fit(links, requests, caller.ops.as_slice()))
}

fn ops_are_fit(links: &[LinkEntry], requests: &[RequestEntry], ops: &[Op]) -> bool
    ensures { result ≡ list_all (move_is_fit links.now requests.now) ops.now }
{
    ops.iter().all(|op| is_fit(links, requests, op))
}

fn is_fit(links: &[LinkEntry], requests: &[RequestEntry], op: &Op) -> bool
    ensures { result ≡ move_is_fit links.now requests.now op.now }
{
    let own = attributes_of(op);
    fits_between(links, requests, own.leaves, own.joins)
}

// Whether packets may move from the channel that is left to the one that is joined, where there are two.
fn fits_between(
    links: &[LinkEntry],
    requests: &[RequestEntry],
    leaves: Option<ChanNo>,
    joins: Option<ChanNo>,
) -> bool
    ensures { result ≡ fits_between links.now requests.now leaves joins }
{
    match leaves {
        Some(old) => match joins {
            Some(new) => fit(links, requests, old, new),
            None => true,
        },
        None => true,
    }
}

fn fit(links: &[LinkEntry], requests: &[RequestEntry], old: ChanNo, new: ChanNo) -> bool
    ensures { result ≡ (may_move links.now (slice_get requests.now (channel_number old)) (slice_get requests.now (channel_number new)) && not (nat_eq (channel_number old) (channel_number new))) }
{
    match requests.get(old.get() as usize) {
        Some(from) => match requests.get(new.get() as usize) {
            Some(to) => may_move(links, from, to) && old.get() != new.get(),
            None => false,
        },
        None => false,
    }
}
