//! What a page says first, in a few numbers.
use crate::cells::put_ticks;
use crate::sentences::link_name;
use crate::tightness::{accepted_in, spare_of, tight_first};
use answer_grids::time_text;
use network_pictures::{LinkFacts, NetworkFacts, fullest, load_word};
use std::alloc::AllocError;
use svg_charts::Markup;

/// Adds the tiles at the head of a page.
pub(crate) fn put_summary(markup: &mut Markup, facts: &NetworkFacts) -> Result<(), AllocError> {
    markup.put("<div class=\"tiles\">")?;
    put_accepted(markup, facts)?;
    put_tightest(markup, facts)?;
    put_fullest(markup, facts)?;
    put_size(markup, facts)?;
    markup.put("\n</div>")
}

// Begins a tile: what it is about, and its class.
fn begin_tile(
    markup: &mut Markup,
    tile: &'static str,
    class: &'static str,
    title: &'static str,
) -> Result<(), AllocError> {
    markup.put("\n<div data-tile=\"")?;
    markup.put(tile)?;
    markup.put("\" class=\"tile ")?;
    markup.put(class)?;
    markup.put("\"><p>")?;
    markup.put(title)?;
    markup.put("</p><p class=\"large\">")
}

// Adds a number with the name of its column.
fn put_number(markup: &mut Markup, column: &'static str, number: u64) -> Result<(), AllocError> {
    markup.put("<span data-column=\"")?;
    markup.put(column)?;
    markup.put("\">")?;
    markup.number(number)?;
    markup.put("</span>")
}

// Adds the tile of how many requests are accepted.
fn put_accepted(markup: &mut Markup, facts: &NetworkFacts) -> Result<(), AllocError> {
    let accepted = accepted_in(facts);
    let all = facts.requests.len() as u64;
    let class = if accepted == all { "good" } else { "bad" };
    begin_tile(markup, "requests", class, "accepted")?;
    put_number(markup, "accepted", accepted)?;
    markup.put(" of ")?;
    put_number(markup, "asked", all)?;
    markup.put("</p><p>")?;
    markup.put(if accepted == all {
        "every request is accepted"
    } else {
        "the others are denied"
    })?;
    markup.put("</p></div>")
}

// Adds the tile of the request with the least to spare.
fn put_tightest(markup: &mut Markup, facts: &NetworkFacts) -> Result<(), AllocError> {
    for place in &tight_first(markup.alloc(), facts)? {
        let Some(request) = facts.requests.get(*place) else {
            continue;
        };
        let Some(spare) = spare_of(request) else {
            continue;
        };
        begin_tile(markup, "tightest", "", "least to spare")?;
        markup.put("<span data-column=\"request\">")?;
        markup.text(request.name.as_str())?;
        markup.put("</span></p><p data-column=\"to_spare\">")?;
        put_ticks(markup, spare, facts.tick)?;
        return markup.put("</p></div>");
    }
    Ok(())
}

// Adds the tile of the link that is fullest.
fn put_fullest(markup: &mut Markup, facts: &NetworkFacts) -> Result<(), AllocError> {
    let place = fullest_link(facts.links.as_slice());
    let Some(link) = facts.links.get(place) else {
        return Ok(());
    };
    let (level, part) = fullest(&link.fill);
    begin_tile(markup, "fullest", "", "fullest link")?;
    markup.put("<span data-column=\"link\">")?;
    markup.text(link_name(facts, place))?;
    markup.put("</span></p><p>")?;
    put_number(markup, "percent", part.div_ceil(10))?;
    markup.put("% of level ")?;
    put_number(markup, "level", (level as u64).saturating_add(1))?;
    markup.put(", ")?;
    markup.put(load_word(link))?;
    markup.put("</p></div>")
}

// The first of the fullest links.
fn fullest_link(links: &[LinkFacts]) -> usize {
    let mut best = 0;
    let mut most = 0;
    for place in 0..links.len() {
        let part = fullest(&links[place].fill).1;
        if part > most {
            most = part;
            best = place;
        }
    }
    best
}

// Adds the tile of the network's size, and of the tick.
fn put_size(markup: &mut Markup, facts: &NetworkFacts) -> Result<(), AllocError> {
    let links = facts.links.len() as u64;
    let nodes = facts.nodes.len() as u64;
    begin_tile(markup, "network", "", "network")?;
    put_number(markup, "links", links)?;
    markup.put(if links == 1 { " link" } else { " links" })?;
    markup.put("</p><p>")?;
    put_number(markup, "nodes", nodes)?;
    markup.put(if nodes == 1 { " node" } else { " nodes" })?;
    if let Some(tick) = facts.tick {
        let text = time_text(markup.alloc(), 1, tick)?;
        markup.put("; a tick is <span data-column=\"tick\">")?;
        markup.text(text.as_str())?;
        markup.put("</span>")?;
    }
    markup.put("</p></div>")
}
