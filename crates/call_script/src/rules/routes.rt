//! Routes over the links that are there.
ghost use Rattle.std.specs.Prelude.{◌≡◌};
ghost use Rattle.std.specs.List.{list_all};
ghost use Rattle.call_script.specs.Rules.{has_link, route_is_there, meets, is_joined};
ghost use Rattle.call_script.specs.declared.entries.RequestEntry.{RequestEntry as Asked};

use crate::entries::{LinkEntry, RequestEntry};
use crate::moves::{end_of, start_of};
use hop_reservation::Route;
use net_units::LinkNo;

pub(crate) fn are_there(links: &[LinkEntry], requests: &[RequestEntry]) -> bool
    ensures { result ≡ list_all (route_is_there links.now) requests.now }
{
    requests
        .iter()
        .all(|entry| is_there(links, &entry.request.route))
}

fn is_there(links: &[LinkEntry], route: &Route) -> bool
    ensures { result ≡ list_all (λ hop. has_link links.now hop.link) route.now }
{
    for index in 0..route.len() {
        if !has_link(links, route.hop(index + 1).link) {
            return false;
        }
    }
    true
}

pub(crate) fn has_link(links: &[LinkEntry], link: LinkNo) -> bool
    ensures { result ≡ has_link links.now link }
{
    usize::from(link.get()) < links.len()
}

pub(crate) fn are_joined(links: &[LinkEntry], requests: &[RequestEntry]) -> bool
    ensures { result ≡ list_all (λ (entry : Asked). is_joined links.now entry.request.route) requests.now }
{
    requests
        .iter()
        .all(|entry| is_joined(links, &entry.request.route))
}

// Whether each hop begins at the node where the one before it ends.
fn is_joined(links: &[LinkEntry], route: &Route) -> bool
    ensures { result ≡ is_joined links.now route.now }
{
    for index in 0..route.len() - 1 {
        if !meets(links, route.hop(index + 1).link, route.hop(index + 2).link) {
            return false;
        }
    }
    true
}

// Whether one link ends at the node where the other begins.
fn meets(links: &[LinkEntry], link: LinkNo, next: LinkNo) -> bool
    ensures { result ≡ meets links.now link next }
{
    end_of(links, link) == start_of(links, next)
}
