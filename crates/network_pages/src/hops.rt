//! The hops of a request.
use crate::cells::{begin_row, number_cell, ticks_cell};
use crate::sentences::link_name;
use network_pictures::{HopFacts, NetworkFacts, RequestFacts};
use std::alloc::AllocError;
use svg_charts::Markup;

/// Adds the table of a request's hops.
pub(crate) fn put_hops(
    markup: &mut Markup,
    facts: &NetworkFacts,
    request: &RequestFacts,
) -> Result<(), AllocError> {
    markup.put(
        "<div class=\"scroll\"><table class=\"hops\"><thead><tr><th class=\"n\">hop<th>link<th class=\"n\">offers<th class=\"n\">at level<th class=\"n\">gets<th class=\"n\">at level<th class=\"n\">propagation",
    )?;
    if request.packets.is_some() {
        markup.put("<th class=\"n\">worst packet")?;
    }
    markup.put("</thead><tbody>")?;
    for place in 0..request.hops.len() {
        put_hop(markup, facts, request, place, &request.hops[place])?;
    }
    markup.put("</tbody></table></div>")
}

// Adds the row of a hop.
fn put_hop(
    markup: &mut Markup,
    facts: &NetworkFacts,
    request: &RequestFacts,
    place: usize,
    hop: &HopFacts,
) -> Result<(), AllocError> {
    begin_row(markup, "data-hop-of", request.name.as_str())?;
    number_cell(markup, "hop", Some((place as u64).saturating_add(1)))?;
    markup.put("<td data-column=\"link\">")?;
    markup.text(link_name(facts, hop.link))?;
    if request.tight == Some(hop.link) {
        markup.put(" <em>tight</em>")?;
    }
    markup.put("</td>")?;
    ticks_cell(markup, "offers", bound_in(hop.offered), facts.tick)?;
    number_cell(markup, "level", level_in(hop.offered))?;
    ticks_cell(markup, "gets_bound", bound_in(hop.given), facts.tick)?;
    number_cell(markup, "gets", level_in(hop.given))?;
    ticks_cell(markup, "propagation", Some(hop.prop), facts.tick)?;
    if request.packets.is_some() {
        ticks_cell(markup, "worst", hop.worst, facts.tick)?;
    }
    markup.put("</tr>")
}

// The bound of a level.
fn bound_in(level: Option<(u64, u64)>) -> Option<u64> {
    level.map(|pair: (u64, u64)| pair.1)
}

// Its number.
fn level_in(level: Option<(u64, u64)>) -> Option<u64> {
    level.map(|pair: (u64, u64)| pair.0)
}
