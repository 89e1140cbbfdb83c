//! The network as a drawing: its nodes in layers, and its links as arrows that are as wide as they are full.
use crate::facts::{LinkFacts, NetworkFacts};
use crate::labels::label_middles;
use crate::layers::layer_at;
use crate::layout::{Direction, Layout, layout_of, width_of};
use crate::words::{fullest, load_word};
use std::alloc::{AllocError, Global};
use svg_charts::{
    Anchor, Extent, Markup, Point, Shift, arrow, between, edge_point, frame, label, scaled,
    shift_between, shifted,
};

/// Draws the network. The picture has a size of its own in pixels; it is answered, width first.
pub fn draw_network(
    alloc: Global,
    facts: &NetworkFacts,
    direction: Direction,
) -> Result<(Markup, Extent), AllocError> {
    let layout = layout_of(alloc, facts, direction)?;
    let mut markup = Markup::new(alloc);
    for place in 0..facts.links.len() {
        draw_link(alloc, &mut markup, facts.links.as_slice(), place, &layout)?;
    }
    for node in 0..facts.nodes.len() {
        draw_node(&mut markup, facts.nodes[node].as_str(), node, &layout)?;
    }
    let middles = label_middles(alloc, facts.links.as_slice(), &layout)?;
    for (link, middle) in facts.links.iter().zip(&middles) {
        name_link(alloc, &mut markup, link, *middle, &layout)?;
    }
    Ok((markup, layout.size))
}

// Draws a node.
fn draw_node(
    markup: &mut Markup,
    name: &str,
    node: usize,
    layout: &Layout,
) -> Result<(), AllocError> {
    let middle = middle_at(layout, node);
    let extent = box_at(layout, node);
    let corner = Point {
        x: middle.x.saturating_sub(extent.width / 2),
        y: middle.y.saturating_sub(extent.height / 2),
    };
    frame(markup, "node", corner, extent, 80)?;
    let base = Point {
        x: middle.x,
        y: middle.y.saturating_add(45),
    };
    label(markup, "name", base, Anchor::Middle, name)
}

/// The middle of a node's box.
pub(crate) fn middle_at(layout: &Layout, node: usize) -> Point {
    match layout.middles.get(node) {
        Some(middle) => *middle,
        None => Point { x: 0, y: 0 },
    }
}

/// How large it is.
pub(crate) fn box_at(layout: &Layout, node: usize) -> Extent {
    match layout.boxes.get(node) {
        Some(extent) => *extent,
        None => Extent {
            width: 0,
            height: 0,
        },
    }
}

// Draws a link. Its numbers are shown where a mouse rests on it.
fn draw_link(
    alloc: Global,
    markup: &mut Markup,
    links: &[LinkFacts],
    place: usize,
    layout: &Layout,
) -> Result<(), AllocError> {
    let Some(link) = links.get(place) else {
        return Ok(());
    };
    let bend = bend_of(links, place, layout);
    let from = end_of(layout, link.from, bend);
    let to = end_of(layout, link.to, bend);
    let text = numbers_text(alloc, link, fullest(&link.fill).0)?;
    markup.put("<g><title>")?;
    markup.text(text.as_str())?;
    markup.put("</title>")?;
    arrow(markup, class_of(link), from, bend, to, width_of_line(link))?;
    markup.put("</g>")
}

/// How wide a link's line is, in tenths of a pixel.
pub(crate) fn width_of_line(link: &LinkFacts) -> u64 {
    (fullest(&link.fill).1.min(1000) / 16).saturating_add(16)
}

// The numbers of a link: its name, and the load of the level at a place.
fn numbers_text(alloc: Global, link: &LinkFacts, place: usize) -> Result<String, AllocError> {
    let name = link.name.as_str();
    match link.fill.levels.get(place) {
        Some(level) => {
            let (work, bound) = (level.work, level.bound);
            let number = place.saturating_add(1);
            format!(in alloc; "{name}: {work} of {bound} ticks at level {number}")
        }
        None => String::from_str(alloc, name),
    }
}

/// Where a link that comes from this point touches the box of a node: at the box's side where nodes stand close above one another, spread over it
/// by where the links come from.
pub(crate) fn end_of(layout: &Layout, node: usize, bend: Point) -> Point {
    let middle = middle_at(layout, node);
    let extent = box_at(layout, node);
    if !layout.is_crowded || layout.direction == Direction::Down {
        return edge_point(middle, extent, bend);
    }
    let half = extent.width / 2;
    Point {
        x: if bend.x >= middle.x {
            middle.x.saturating_add(half)
        } else {
            middle.x.saturating_sub(half)
        },
        y: spread(middle.y, extent.height, bend.y, layout.size.height),
    }
}

// How far up or down on the side of a box of this height a link ends that comes from there, in a picture of this height.
fn spread(middle: u32, height: u32, from: u32, whole: u32) -> u32 {
    let room = u64::from((height / 2).saturating_sub(100));
    let far = u64::from(from.abs_diff(middle)).saturating_mul(4);
    let part = far
        .saturating_mul(room)
        .checked_div(u64::from(whole))
        .unwrap_or(0);
    let part = u32::try_from(part.min(room)).unwrap_or(0);
    if from >= middle {
        middle.saturating_add(part)
    } else {
        middle.saturating_sub(part)
    }
}

// The class of a link's arrow.
fn class_of(link: &LinkFacts) -> &'static str {
    match load_word(link) {
        "refuses" => "link refuses",
        "full" => "link full",
        "busy" => "link busy",
        _ => "link",
    }
}

/// Toward which point a link is bent.
pub(crate) fn bend_of(links: &[LinkFacts], place: usize, layout: &Layout) -> Point {
    let Some(link) = links.get(place) else {
        return Point { x: 0, y: 0 };
    };
    let (from, to) = (middle_at(layout, link.from), middle_at(layout, link.to));
    let along = shift_between(from, to);
    let left = Shift {
        x: along.y,
        y: along.x.saturating_neg(),
    };
    shifted(
        between(from, to),
        scaled(left, bow_of(links, place, layout)),
    )
}

// How far the bend of a link is from the straight line: links between the same nodes go round one another, and a link round the nodes
// between its ends.
fn bow_of(links: &[LinkFacts], place: usize, layout: &Layout) -> i64 {
    let Some(link) = links.get(place) else {
        return 0;
    };
    let (before, others) = beside(links, place);
    let unit: i64 = match layout.direction {
        Direction::Right if layout.is_crowded => 180,
        Direction::Right => 420,
        Direction::Down => 700,
    };
    let layers = layout.layers.as_slice();
    let span = layer_at(layers, link.from).abs_diff(layer_at(layers, link.to));
    let steps = i64::try_from(before).unwrap_or(0);
    if others > 0 {
        unit.saturating_mul(steps.saturating_mul(2).saturating_add(1))
    } else if span == 1 {
        0
    } else {
        i64::try_from(span)
            .unwrap_or(0)
            .saturating_mul(300)
            .saturating_add(500)
    }
}

// How many links before one lead the same way, and how many others have the same ends.
fn beside(links: &[LinkFacts], place: usize) -> (usize, usize) {
    let mut before: usize = 0;
    let mut others: usize = 0;
    let Some(link) = links.get(place) else {
        return (0, 0);
    };
    for number in 0..links.len() {
        let other = &links[number];
        let is_along = other.from == link.from && other.to == link.to;
        let is_back = other.from == link.to && other.to == link.from;
        if number != place && (is_along || is_back) {
            others = others.saturating_add(1);
        }
        if number < place && is_along {
            before = before.saturating_add(1);
        }
    }
    (before, others)
}

// Writes the name of a link beside it, and how full it is, with the middle of both at a point.
fn name_link(
    alloc: Global,
    markup: &mut Markup,
    link: &LinkFacts,
    middle: Point,
    layout: &Layout,
) -> Result<(), AllocError> {
    let load = load_text(alloc, link)?;
    if layout.is_crowded && layout.direction == Direction::Right {
        let name = link.name.as_str();
        let load = load.as_str();
        let text = format!(in alloc; "{name} {load}")?;
        put_under(markup, middle, width_of(text.as_str(), 64))?;
        let base = lowered(middle, 40);
        return label(markup, "load", base, Anchor::Middle, text.as_str());
    }
    let top = Point {
        x: middle.x,
        y: middle.y.saturating_sub(45),
    };
    label(markup, "linkname", top, Anchor::Middle, link.name.as_str())?;
    label(
        markup,
        "load",
        lowered(middle, 105),
        Anchor::Middle,
        load.as_str(),
    )
}

// Covers a link under a label of one line, which is so wide.
fn put_under(markup: &mut Markup, middle: Point, width: u32) -> Result<(), AllocError> {
    let corner = Point {
        x: middle.x.saturating_sub(width / 2),
        y: middle.y.saturating_sub(75),
    };
    let extent = Extent { width, height: 150 };
    frame(markup, "under", corner, extent, 30)
}

// A point so far below another.
fn lowered(point: Point, by: u32) -> Point {
    Point {
        x: point.x,
        y: point.y.saturating_add(by),
    }
}

// How full a link is, as a number and a word.
fn load_text(alloc: Global, link: &LinkFacts) -> Result<String, AllocError> {
    let percent = fullest(&link.fill).1.div_ceil(10);
    let word = load_word(link);
    if word == "free" {
        format!(in alloc; "{percent}%")
    } else {
        format!(in alloc; "{percent}% {word}")
    }
}
