//! The whole page.
use crate::facts_table::put_summary;
use crate::inputs::put_inputs;
use crate::links::put_links;
use crate::packets::put_packets;
use crate::requests::put_requests;
use crate::style::put_style;
use network_pictures::{Direction, NetworkFacts, draw_network};
use std::alloc::{AllocError, Global};
use svg_charts::{Extent, Markup};

/// The page of a network, in UTF-8. It holds all that it shows, and names no other file.
pub fn page_of(alloc: Global, facts: &NetworkFacts) -> Result<Vec<u8>, AllocError> {
    let mut markup = Markup::new(alloc);
    markup.put(
        "<!doctype html>\n<html lang=\"en\"><head><meta charset=\"utf-8\"><meta name=\"viewport\" content=\"width=device-width, initial-scale=1\"><title>",
    )?;
    markup.text(facts.title.as_str())?;
    markup.put("</title><style>")?;
    put_style(&mut markup)?;
    markup.put("</style></head><body><header><h1>")?;
    markup.text(facts.title.as_str())?;
    markup.put("</h1>")?;
    put_summary(&mut markup, facts)?;
    markup.put("</header><main>")?;
    put_network(&mut markup, facts)?;
    put_requests(&mut markup, facts)?;
    put_packets(&mut markup, facts)?;
    put_links(&mut markup, facts)?;
    put_inputs(&mut markup, facts)?;
    markup.put("</main></body></html>\n")?;
    Ok(markup.into_bytes())
}

// Adds the drawing of the network, once for a wide page and once for a narrow one.
fn put_network(markup: &mut Markup, facts: &NetworkFacts) -> Result<(), AllocError> {
    markup.put(
        "<section id=\"network\"><h2>Network</h2><p class=\"note\">An arrow is as wide as its link is full: the work at its fullest level, as a part of that level's bound.</p>",
    )?;
    let (wide, size) = draw_network(markup.alloc(), facts, Direction::Right)?;
    let (narrow, narrow_size) = draw_network(markup.alloc(), facts, Direction::Down)?;
    if narrow_size.width < size.width {
        put_drawing(markup, "for-wide", &wide, size)?;
        put_drawing(markup, "for-narrow", &narrow, narrow_size)?;
    } else {
        put_drawing(markup, "for-all", &wide, size)?;
    }
    markup.put("</section>")
}

// Adds a drawing of this size.
fn put_drawing(
    markup: &mut Markup,
    class: &'static str,
    drawing: &Markup,
    size: Extent,
) -> Result<(), AllocError> {
    markup.put("<figure class=\"scroll ")?;
    markup.put(class)?;
    markup.put(
        "\"><svg class=\"net\" role=\"img\" aria-label=\"the nodes and links of the network\"",
    )?;
    markup.put(" viewBox=\"0 0 ")?;
    markup.tenths(u64::from(size.width))?;
    markup.put(" ")?;
    markup.tenths(u64::from(size.height))?;
    markup.put("\" style=\"max-width:")?;
    markup.tenths(u64::from(size.width / 5).saturating_mul(6))?;
    markup.put("px;min-width:")?;
    markup.tenths(u64::from(size.width / 4).saturating_mul(3))?;
    markup.put("px\">")?;
    markup.add(drawing)?;
    markup.put("</svg></figure>")
}
