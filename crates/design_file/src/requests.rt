//! The requests of a plan.
ghost use Rattle.std.specs.Prelude.{◌≡◌, ◌≤◌, IfOk, IfSome, OnOk, length};
ghost use Rattle.net_units.specs.Numbers.{channel_number};
ghost use Rattle.design_file.specs.Planned.{AddsRequest, AreRequestsOf};
ghost use Rattle.scenario_reader.specs.Nodes.{LinksAreNumbered};

use crate::refusal::{Refusal, Wrong};
use crate::terms::terms_of;
use crate::ways::route_of;
use call_script::{LinkEntry, RequestEntry, push_request};
use design_text::{DesignStream, Way};
use field_units::Scale;
use net_units::{ActorNo, ChanNo, Name};
use setup_protocol::Request;
use std::alloc::Global;

/// The plan's requests, one for each stream, in their order.
pub fn request_entries(
    alloc: Global,
    scale: &Scale,
    links: &[LinkEntry],
    streams: &[DesignStream],
) -> Result<Vec<RequestEntry>, Refusal>
    requires numbered { LinksAreNumbered links.now }
    requires few { length links.now ≤ 32 }
    ensures { IfOk result (λ entries. AreRequestsOf scale.now.tick scale.now.unit links.now streams.now entries.items) }
{
    let mut entries = Vec::new(alloc);
    for stream in streams {
        add_request(alloc, scale, links, stream, &mut entries)?;
    }
    Ok(entries)
}

// Adds the request of a stream.
fn add_request(
    alloc: Global,
    scale: &Scale,
    links: &[LinkEntry],
    stream: &DesignStream,
    entries: &mut Vec<RequestEntry>,
) -> Result<(), Refusal>
    requires numbered { LinksAreNumbered links.now }
    requires few { length links.now ≤ 32 }
    ensures { OnOk result (AddsRequest scale.now.tick scale.now.unit links.now stream.now entries.old.items entries.new.items) }
{
    let terms = terms_of(scale, stream)?;
    let route = route_of(alloc, links, &stream.way)?;
    let chan = chan_at(entries.len()).ok_or(Refusal::Wrong(Wrong::ManyStreams))?;
    let caller = ActorNo::new(stream.group).ok_or(Refusal::Wrong(Wrong::Order))?;
    let entry = RequestEntry {
        name: stream.name,
        caller,
        request: Request {
            chan,
            route,
            contract: terms.contract,
            control: terms.control,
            delay: terms.delay,
        },
        found: found_between(&stream.way),
    };
    push_request(entries, entry)?;
    Ok(())
}

// The nodes between which a way is found.
fn found_between(way: &Way) -> Option<(Name, Name)> {
    match way {
        Way::Over(_) => None,
        Way::Between(from, to) => Some((*from, *to)),
    }
}

// The channel of this number.
fn chan_at(number: usize) -> Option<ChanNo>
    ensures { IfSome result (λ chan. channel_number chan ≡ number) }
{
    match u32::try_from(number) {
        Ok(number) => ChanNo::new(number),
        Err(_) => None,
    }
}
