//! The table of links.
use crate::cells::{begin, begin_row, number_cell, small_time, ticks_cell};
use crate::inputs::{put_written, put_written_head};
use network_pictures::{
    FillFacts, LevelFacts, LinkFacts, NetworkFacts, ShareFacts, draw_load, fill_word, fullest,
    load_word,
};
use std::alloc::AllocError;
use svg_charts::Markup;

/// Adds the table of links.
pub(crate) fn put_links(markup: &mut Markup, facts: &NetworkFacts) -> Result<(), AllocError> {
    markup.put(
        "<section id=\"links\"><h2>Links</h2><p class=\"note\">At each level stands the work that the accepted requests up to that level may bring, of what it may be, both in ticks. Room is for so many more like the smallest request that crosses the link, as far as the schedule goes; a level without room is full, whatever its bar shows.",
    )?;
    if are_split(facts) {
        markup.put(
            " Below a link that is split stand the groups that have a share of it; a group may bring no more than its quota.",
        )?;
    }
    markup.put(
        "</p><table class=\"wide flow\"><thead><tr><th>link<th>from, to<th>load<th class=\"bar\">work at each level, its bound and the room<th class=\"n\">long run<th class=\"n\">buffer free<th class=\"n\">of<th>accepted</thead><tbody>",
    )?;
    for link in &facts.links {
        put_link(markup, facts, link)?;
        for share in &link.shares {
            put_share(markup, facts, link, share)?;
        }
    }
    markup.put("\n</tbody></table></section>")
}

// Whether a link is split between groups.
fn are_split(facts: &NetworkFacts) -> bool {
    for link in &facts.links {
        if !link.shares.is_empty() {
            return true;
        }
    }
    false
}

// Adds the row of a link.
fn put_link(markup: &mut Markup, facts: &NetworkFacts, link: &LinkFacts) -> Result<(), AllocError> {
    begin_row(markup, "data-link", link.name.as_str())?;
    markup.put("<th scope=\"row\" data-column=\"link\">")?;
    markup.text(link.name.as_str())?;
    markup.put("</th><td data-column=\"ends\">")?;
    markup.text(node_name(facts, link.from))?;
    markup.put(" → ")?;
    markup.text(node_name(facts, link.to))?;
    markup.put("</td>")?;
    put_fill(markup, facts, &link.fill, load_word(link))
}

// Adds the row of a group's share of a link.
fn put_share(
    markup: &mut Markup,
    facts: &NetworkFacts,
    link: &LinkFacts,
    share: &ShareFacts,
) -> Result<(), AllocError> {
    markup.put("\n<tr class=\"share\"")?;
    markup.attribute("data-share-of", link.name.as_str())?;
    markup.attribute("data-group", share.group.as_str())?;
    markup.put("><th scope=\"row\" data-column=\"group\">")?;
    markup.text(share.group.as_str())?;
    markup.put("</th><td data-column=\"ends\">group</td>")?;
    put_fill(markup, facts, &share.fill, fill_word(&share.fill))
}

// Adds how full a link or a share is, in a word and in numbers, and who uses it.
fn put_fill(
    markup: &mut Markup,
    facts: &NetworkFacts,
    fill: &FillFacts,
    word: &'static str,
) -> Result<(), AllocError> {
    put_word(markup, fill, word)?;
    markup.put("<td class=\"bar levels\">")?;
    for place in 0..fill.levels.len() {
        put_level(markup, place, &fill.levels[place])?;
    }
    markup.put("</td>")?;
    begin(markup, "long_run")?;
    markup.tenths(fill.long_run.div_ceil(1000))?;
    markup.put("%</td>")?;
    number_cell(markup, "buffer_free", Some(fill.free))?;
    number_cell(markup, "buffer", Some(fill.buffer))?;
    put_users(markup, facts, fill)
}

// Adds how full it is, as a number and a word.
fn put_word(markup: &mut Markup, fill: &FillFacts, word: &'static str) -> Result<(), AllocError> {
    markup.put("<td class=\"loaded\"><span data-column=\"load\" class=\"load ")?;
    markup.put(word)?;
    markup.put("\">")?;
    markup.number(fullest(fill).1.div_ceil(10))?;
    markup.put("% ")?;
    markup.put(word)?;
    markup.put("</span></td>")
}

// Adds the work of a level, what it may be, its bar and its room.
fn put_level(markup: &mut Markup, place: usize, level: &LevelFacts) -> Result<(), AllocError> {
    markup.put("<div data-level=\"")?;
    markup.number((place as u64).saturating_add(1))?;
    markup.put("\"><span><b data-column=\"work\">")?;
    markup.number(level.work)?;
    markup.put("</b> of <b data-column=\"bounds\">")?;
    markup.number(level.bound)?;
    markup.put("</b></span><svg width=\"100%\" height=\"16\" aria-hidden=\"true\">")?;
    draw_load(markup, level)?;
    markup.put("</svg>")?;
    put_room(markup, level.room)?;
    markup.put("</div>")
}

// Adds for how many more a level has room.
fn put_room(markup: &mut Markup, room: Option<u64>) -> Result<(), AllocError> {
    let Some(room) = room else {
        return Ok(());
    };
    markup.put("<span class=\"room\">room ")?;
    markup.put("<b data-column=\"room\">")?;
    markup.number(room)?;
    markup.put("</b></span>")
}

// Adds who uses a link or a share, and how many of them are accepted.
fn put_users(
    markup: &mut Markup,
    facts: &NetworkFacts,
    fill: &FillFacts,
) -> Result<(), AllocError> {
    markup.put("<td class=\"users\"><details><summary><b data-column=\"accepted\">")?;
    markup.number(fill.accepted)?;
    markup.put("</b> of <b data-column=\"asked\">")?;
    markup.number(fill.users.len() as u64)?;
    markup.put("</b></summary><span data-column=\"requests\">")?;
    let mut is_first = true;
    for place in &fill.users {
        if !is_first {
            markup.put(", ")?;
        }
        is_first = false;
        if let Some(request) = facts.requests.get(*place) {
            markup.text(request.name.as_str())?;
        }
    }
    markup.put("</span></details></td></tr>")
}

/// The name of the node at a place.
pub(crate) fn node_name(facts: &NetworkFacts, node: usize) -> &str {
    match facts.nodes.get(node) {
        Some(name) => name.as_str(),
        None => "",
    }
}

/// Adds the parameters of the links.
pub(crate) fn put_parameters(markup: &mut Markup, facts: &NetworkFacts) -> Result<(), AllocError> {
    markup.put(
        "<h3>Links</h3><div class=\"scroll\"><table><thead><tr><th>link<th class=\"n\">rate, units a tick<th class=\"n\">largest packet, units<th class=\"n\">propagation, ticks<th class=\"n\">buffer, units<th class=\"n\">bounds, ticks",
    )?;
    put_written_head(markup, facts)?;
    markup.put("</thead><tbody>")?;
    for link in &facts.links {
        begin_row(markup, "data-input-link", link.name.as_str())?;
        markup.put("<th scope=\"row\" data-column=\"link\">")?;
        markup.text(link.name.as_str())?;
        markup.put("</th>")?;
        number_cell(markup, "rate", Some(link.rate))?;
        number_cell(markup, "cap", Some(link.cap))?;
        ticks_cell(markup, "propagation", Some(link.prop), facts.tick)?;
        number_cell(markup, "buffer", Some(link.fill.buffer))?;
        put_bounds(markup, facts, link)?;
        put_written(markup, facts, &link.written)?;
        markup.put("</tr>")?;
    }
    markup.put("\n</tbody></table></div>")
}

// Adds the bounds of a link's levels.
fn put_bounds(
    markup: &mut Markup,
    facts: &NetworkFacts,
    link: &LinkFacts,
) -> Result<(), AllocError> {
    markup.put("<td class=\"n\">")?;
    for level in &link.fill.levels {
        markup.put("<span class=\"pair\" data-column=\"bounds\">")?;
        markup.number(level.bound)?;
        small_time(markup, level.bound, facts.tick)?;
        markup.put("</span> ")?;
    }
    markup.put("</td>")
}
