//! The lines of the routes that were found.
ghost use Rattle.std.specs.Prelude.{◌≡◌, ◌++◌, ◌∷◌, ◌+◌, ◌*◌, ◌^◌, ◌≤◌, OnOk, string_bytes};
ghost use Rattle.std.specs.List.{flat_map, slice_get};
ghost use Rattle.net_units.specs.Numbers.{link_number};
ghost use Rattle.channel_report.specs.Routes.{found_line, hop_word, prop_over, route_line, route_lines};
ghost use Rattle.channel_report.specs.Table.{name_of_link};
ghost use Rattle.text_writer.specs.Telling.{Tells};

use byte_ends::{Gather, Sink};
use call_script::{LinkEntry, RequestEntry};
use hop_reservation::Route;
use net_units::LinkNo;
use std::alloc::{AllocError, Global};
use text_writer::{ReportFault, tell};

// Tells a line for each request whose route was found.
pub(crate) fn tell_routes<K: Sink>(
    alloc: Global,
    links: &[LinkEntry],
    requests: &[RequestEntry],
    gather: &mut Gather,
    sink: &mut K,
) -> Result<(), ReportFault>
    ensures { Tells result (K.written sink.old) (K.written sink.new) gather.old gather.new (K.faults sink.old) (K.faults sink.new) (route_lines links.now requests.now) }
{
    for entry in requests {
        tell_route(alloc, links, entry, gather, sink)?;
    }
    Ok(())
}

// Tells the line of a request, where its route was found.
fn tell_route<K: Sink>(
    alloc: Global,
    links: &[LinkEntry],
    entry: &RequestEntry,
    gather: &mut Gather,
    sink: &mut K,
) -> Result<(), ReportFault>
    ensures { Tells result (K.written sink.old) (K.written sink.new) gather.old gather.new (K.faults sink.old) (K.faults sink.new) (found_line links.now entry.now) }
{
    let mut line = String::new(alloc);
    if entry.found.is_some() {
        push_route(&mut line, links, entry)?;
    }
    Ok(tell(gather, sink, line.as_bytes())?)
}

// The line of a route.
fn push_route(
    text: &mut String,
    links: &[LinkEntry],
    entry: &RequestEntry,
) -> Result<(), AllocError>
    ensures { OnOk result (string_bytes text.new ≡ string_bytes text.old ++ route_line links.now entry.now) }
{
    let name = entry.name;
    let prop = prop_over(&entry.request.route);
    write!(text, "route {name}")?;
    push_links(text, links, &entry.request.route)?;
    writeln!(text, " prop {prop}")
}

// The names of the links, each after a space.
fn push_links(text: &mut String, links: &[LinkEntry], route: &Route) -> Result<(), AllocError>
    ensures { OnOk result (string_bytes text.new ≡ string_bytes text.old ++ flat_map (hop_word links.now) route.now) }
{
    for index in 0..route.len() {
        let name = link_name(links, route.hop(index + 1).link);
        write!(text, " {name}")?;
    }
    Ok(())
}

// The name of a link.
fn link_name(links: &[LinkEntry], link: LinkNo) -> &str
    ensures { result.now ≡ name_of_link (slice_get links.now (link_number link)) }
{
    match links.get(usize::from(link.get())) {
        Some(entry) => entry.name.as_str(),
        None => "",
    }
}

// The sum of the propagations, in ticks.
fn prop_over(route: &Route) -> u64
    ensures { result ≡ prop_over route.now }
{
    let mut place = route.len();
    let mut prop = 0;
    while place > 0 {
        prop += u64::from(route.hop(place).prop);
        place -= 1;
    }
    prop
}
