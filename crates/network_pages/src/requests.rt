//! The table of requests.
use crate::cells::{begin_row, text_cell, ticks_cell};
use crate::hops::put_hops;
use crate::packets::have_packets;
use crate::sentences::{link_name, put_denial, put_help};
use crate::tightness::{spare_of, tight_first};
use network_pictures::{
    Help, NetworkFacts, Outcome, RequestFacts, delay_axis, draw_axis, draw_request, put_lines,
};
use std::alloc::AllocError;
use svg_charts::{Axis, Markup};

/// Adds the table of requests, the tight ones first.
pub(crate) fn put_requests(markup: &mut Markup, facts: &NetworkFacts) -> Result<(), AllocError> {
    let axis = delay_axis(facts);
    let has_packets = have_packets(facts);
    markup.put(
        "<section id=\"requests\"><h2>Requests</h2><p class=\"note\">Denied requests come first, then those with the least to spare. All bars share one scale.",
    )?;
    put_scale(markup, axis)?;
    markup.put(" Open a route for its hops.")?;
    if has_packets {
        markup.put(
            " All are asked for at once; the worst packet is of the run that the file describes, in which calls may come and go.",
        )?;
    }
    put_unasked(markup, facts)?;
    markup.put("</p>")?;
    put_key(markup, facts, has_packets)?;
    markup.put("<table class=\"wide flow\" style=\"--lines:")?;
    put_lines(markup.alloc(), markup, axis)?;
    markup.put("\">")?;
    put_head(markup, facts, axis, has_packets)?;
    for place in &tight_first(markup.alloc(), facts)? {
        if let Some(request) = facts.requests.get(*place) {
            put_request(markup, facts, request, axis, has_packets)?;
        }
    }
    markup.put("\n</tbody></table></section>")
}

// Adds of how many denied requests it isn't told what would do, where there are such.
fn put_unasked(markup: &mut Markup, facts: &NetworkFacts) -> Result<(), AllocError> {
    let count = unasked_in(facts);
    if count == 0 {
        return Ok(());
    }
    markup.put(" Of ")?;
    markup.number(count)?;
    markup.put(
        " denied requests it isn't told with what delay they would be accepted, since that takes a few runs of the whole network for each.",
    )
}

// How many denied requests weren't asked about.
fn unasked_in(facts: &NetworkFacts) -> u64 {
    let mut count: u64 = 0;
    for request in &facts.requests {
        if let Outcome::Denied {
            help: Help::Unasked,
            ..
        } = request.outcome
        {
            count = count.saturating_add(1);
        }
    }
    count
}

/// Adds that the scale is logarithmic, where it is.
pub(crate) fn put_scale(markup: &mut Markup, axis: Axis) -> Result<(), AllocError> {
    if axis.is_logarithmic() {
        markup.put(" The scale is logarithmic: equal steps are equal factors.")
    } else {
        Ok(())
    }
}

// Adds what the parts of a bar are.
fn put_key(markup: &mut Markup, facts: &NetworkFacts, has_packets: bool) -> Result<(), AllocError> {
    markup.put(
        "<p class=\"key\"><span><i class=\"k promised\"></i>promised</span><span><i class=\"k spare\"></i>to spare</span><span><i class=\"k wanted\"></i>wanted</span>",
    )?;
    if !facts.are_all_accepted() {
        markup.put("<span><i class=\"k offered\"></i>offered, but denied</span>")?;
    }
    if has_packets {
        markup.put("<span><i class=\"k worst\"></i>worst packet</span>")?;
    }
    markup.put("</p>")
}

// Adds the head, with the axis of the bars.
fn put_head(
    markup: &mut Markup,
    facts: &NetworkFacts,
    axis: Axis,
    has_packets: bool,
) -> Result<(), AllocError> {
    markup.put(
        "<thead><tr><th>request<th>verdict<th class=\"n\">wanted<th class=\"n\">promised<th class=\"n\">to spare",
    )?;
    if has_packets {
        markup.put("<th class=\"n\">worst packet")?;
    }
    markup.put(
        "<th>tight link<th class=\"bar\"><svg class=\"axis\" width=\"100%\" height=\"16\">",
    )?;
    draw_axis(markup.alloc(), markup, axis, facts.tick)?;
    markup.put("</svg></thead><tbody>")
}

// Adds the row of a request.
fn put_request(
    markup: &mut Markup,
    facts: &NetworkFacts,
    request: &RequestFacts,
    axis: Axis,
    has_packets: bool,
) -> Result<(), AllocError> {
    begin_row(markup, "data-request", request.name.as_str())?;
    markup.put("<th scope=\"row\" data-column=\"request\">")?;
    markup.text(request.name.as_str())?;
    markup.put("</th>")?;
    put_verdict(markup, request)?;
    put_numbers(markup, facts, request, has_packets)?;
    markup.put("<td class=\"bar\"><svg width=\"100%\" height=\"24\" aria-hidden=\"true\">")?;
    draw_request(markup, request, axis, facts.tick)?;
    markup.put("</svg>")?;
    put_why(markup, facts, request)?;
    put_route(markup, facts, request)?;
    markup.put("</td></tr>")
}

// Adds the numbers of a request.
fn put_numbers(
    markup: &mut Markup,
    facts: &NetworkFacts,
    request: &RequestFacts,
    has_packets: bool,
) -> Result<(), AllocError> {
    let tick = facts.tick;
    let promised = match request.outcome {
        Outcome::Accepted(promised) => Some(promised),
        _ => None,
    };
    ticks_cell(markup, "wanted", Some(request.terms.delay), tick)?;
    ticks_cell(markup, "promised", promised, tick)?;
    ticks_cell(markup, "to_spare", spare_of(request), tick)?;
    if has_packets {
        ticks_cell(markup, "worst", request.worst(), tick)?;
    }
    let tight = match request.tight {
        Some(link) => link_name(facts, link),
        None => "",
    };
    text_cell(markup, "tight", tight)
}

// Adds the verdict, as a sign and a word.
fn put_verdict(markup: &mut Markup, request: &RequestFacts) -> Result<(), AllocError> {
    markup.put(match request.outcome {
        Outcome::Accepted(_) =>
            "<td data-column=\"verdict\" data-value=\"accept\"><span class=\"yes\">✓ accepted</span></td>",
        Outcome::Denied { .. } =>
            "<td data-column=\"verdict\" data-value=\"deny\"><span class=\"no\">✕ denied</span></td>",
        Outcome::Pending =>
            "<td data-column=\"verdict\" data-value=\"pending\"><span class=\"no\">… pending</span></td>",
    })
}

// Adds why a request isn't accepted, and what would help.
fn put_why(
    markup: &mut Markup,
    facts: &NetworkFacts,
    request: &RequestFacts,
) -> Result<(), AllocError> {
    match request.outcome {
        Outcome::Accepted(_) => Ok(()),
        Outcome::Pending => markup.put("<p class=\"why\">Its setup doesn't end.</p>"),
        Outcome::Denied { why, help } => {
            markup.put("<p class=\"why\">")?;
            put_denial(markup, facts, request, why)?;
            put_help(markup, facts, request, why, help)?;
            markup.put("</p>")
        }
    }
}

// Adds the links of the route, which open to the hops.
fn put_route(
    markup: &mut Markup,
    facts: &NetworkFacts,
    request: &RequestFacts,
) -> Result<(), AllocError> {
    markup.put("<details><summary data-column=\"route\">")?;
    let mut is_first = true;
    for hop in &request.hops {
        if !is_first {
            markup.put(" → ")?;
        }
        is_first = false;
        markup.text(link_name(facts, hop.link))?;
    }
    markup.put("</summary>")?;
    put_hops(markup, facts, request)?;
    markup.put("</details>")
}
