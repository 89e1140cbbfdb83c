//! Between which requests packets may move.
ghost use Rattle.std.specs.Prelude.{◌≡◌, Some};
ghost use Rattle.call_script.specs.Rules.{may_move, same_contract, same_ends, start_of, end_of};
ghost use Rattle.std.specs.List.{slice_get};
ghost use Rattle.net_units.specs.Numbers.{link_number};

use crate::entries::{LinkEntry, RequestEntry};
use hop_reservation::Route;
use net_units::LinkNo;
use traffic_contract::Contract;

/// Whether packets may move from the channel of one request to that of the other: they have the same contract, and their routes begin
/// and end at the same nodes.
pub fn may_move(links: &[LinkEntry], old: &RequestEntry, new: &RequestEntry) -> bool
    ensures { result ≡ may_move links.now (Some old.now) (Some new.now) }
{
    same_contract(&old.request.contract, &new.request.contract)
        && same_ends(links, &old.request.route, &new.request.route)
}

fn same_contract(one: &Contract, other: &Contract) -> bool
    ensures { result ≡ same_contract one.now other.now }
{
    one.xmin() == other.xmin()
        && one.xave() == other.xave()
        && one.interval() == other.interval()
        && one.smax() == other.smax()
}

// Whether two routes begin at one node, and end at one.
fn same_ends(links: &[LinkEntry], route: &Route, other: &Route) -> bool
    ensures { result ≡ same_ends links.now route.now other.now }
{
    let count = route.len();
    let others = other.len();
    start_of(links, route.hop(1).link) == start_of(links, other.hop(1).link)
        && end_of(links, route.hop(count).link) == end_of(links, other.hop(others).link)
}

// The node where a link begins, and the one where it ends; no name where it isn't there.
pub(crate) fn start_of(links: &[LinkEntry], link: LinkNo) -> &[u8]
    ensures { result.now ≡ start_of (slice_get links.now (link_number link)) }
{
    match links.get(usize::from(link.get())) {
        Some(entry) => entry.from.as_bytes(),
        None => &[],
    }
}

pub(crate) fn end_of(links: &[LinkEntry], link: LinkNo) -> &[u8]
    ensures { result.now ≡ end_of (slice_get links.now (link_number link)) }
{
    match links.get(usize::from(link.get())) {
        Some(entry) => entry.to.as_bytes(),
        None => &[],
    }
}
