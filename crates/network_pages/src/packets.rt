//! The packets that were played.
use crate::cells::{begin_row, number_cell, ticks_cell};
use crate::requests::put_scale;
use crate::tightness::tight_first;
use network_pictures::{
    NetworkFacts, PacketFacts, RequestFacts, delay_axis, draw_axis, draw_delays, put_lines,
};
use std::alloc::AllocError;
use svg_charts::{Axis, Markup};

/// Whether packets of any request arrived.
pub(crate) fn have_packets(facts: &NetworkFacts) -> bool {
    for request in &facts.requests {
        if request.packets.is_some() {
            return true;
        }
    }
    false
}

/// Adds the table of packets, where some arrived.
pub(crate) fn put_packets(markup: &mut Markup, facts: &NetworkFacts) -> Result<(), AllocError> {
    if !have_packets(facts) {
        return Ok(());
    }
    let axis = delay_axis(facts);
    markup.put(
        "<section id=\"packets\"><h2>Packets</h2><p class=\"note\">What became of the packets when the file was played. Bars show how many packets had which delay; the line is the promise, which no packet of a source that keeps its contract passes.",
    )?;
    put_scale(markup, axis)?;
    markup.put("</p><table class=\"wide flow\" style=\"--lines:")?;
    put_lines(markup.alloc(), markup, axis)?;
    markup.put(
        "\"><thead><tr><th>request<th class=\"n\">arrived<th class=\"n\">shortest<th class=\"n\">worst<th class=\"n\">promised<th class=\"n\">left<th class=\"bar\"><svg class=\"axis\" width=\"100%\" height=\"16\">",
    )?;
    draw_axis(markup.alloc(), markup, axis, facts.tick)?;
    markup.put("</svg></thead><tbody>")?;
    for place in &tight_first(markup.alloc(), facts)? {
        if let Some(request) = facts.requests.get(*place) {
            put_row(markup, facts, request, axis)?;
        }
    }
    markup.put("\n</tbody></table></section>")
}

// Adds the row of a request, where packets of it arrived.
fn put_row(
    markup: &mut Markup,
    facts: &NetworkFacts,
    request: &RequestFacts,
    axis: Axis,
) -> Result<(), AllocError> {
    match &request.packets {
        Some(packets) => {
            begin_row(markup, "data-packets-of", request.name.as_str())?;
            markup.put("<th scope=\"row\" data-column=\"request\">")?;
            markup.text(request.name.as_str())?;
            markup.put("</th>")?;
            put_numbers(markup, facts, packets, axis)?;
            markup.put("</tr>")
        }
        None => Ok(()),
    }
}

// Adds its numbers.
fn put_numbers(
    markup: &mut Markup,
    facts: &NetworkFacts,
    packets: &PacketFacts,
    axis: Axis,
) -> Result<(), AllocError> {
    let tick = facts.tick;
    let left = packets
        .promised
        .map(|promised: u64| promised.saturating_sub(packets.worst));
    number_cell(markup, "arrived", Some(packets.arrived))?;
    ticks_cell(markup, "least", Some(packets.least), tick)?;
    ticks_cell(markup, "worst", Some(packets.worst), tick)?;
    ticks_cell(markup, "promised", packets.promised, tick)?;
    ticks_cell(markup, "left", left, tick)?;
    markup.put("<td class=\"bar\"><svg width=\"100%\" height=\"30\" aria-hidden=\"true\">")?;
    draw_delays(markup.alloc(), markup, packets, axis, tick)?;
    markup.put("</svg>")?;
    put_delays(markup, packets)?;
    markup.put("</td>")
}

// Adds how many packets had each delay.
fn put_delays(markup: &mut Markup, packets: &PacketFacts) -> Result<(), AllocError> {
    let mut delays = Vec::from_slice(markup.alloc(), packets.delays.as_slice())?;
    delays.sort()?;
    markup.put("<details><summary>each delay</summary><span data-column=\"delays\">")?;
    let mut first: usize = 0;
    for place in 0..delays.len() {
        if delays.get(place.saturating_add(1)) != delays.get(place) {
            let count = place.saturating_sub(first).saturating_add(1);
            put_delay(markup, first > 0, delays[place], count as u64)?;
            first = place.saturating_add(1);
        }
    }
    markup.put("</span></details>")
}

// Adds that so many packets had this delay.
fn put_delay(
    markup: &mut Markup,
    has_more: bool,
    delay: u64,
    count: u64,
) -> Result<(), AllocError> {
    if has_more {
        markup.put(", ")?;
    }
    markup.number(delay)?;
    markup.put(" ×")?;
    markup.number(count)
}
