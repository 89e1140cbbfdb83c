//! Where the labels of links stand: beside their links, and where they can clear of nodes and of one another.
use crate::drawing::{bend_of, box_at, end_of, middle_at, width_of_line};
use crate::facts::LinkFacts;
use crate::layers::layer_at;
use crate::layout::{Direction, Layout, label_width, width_of};
use std::alloc::{AllocError, Global};
use svg_charts::{Extent, Point, Shift, between, on_curve, scaled, shift_between, shifted};

// A rectangle that is taken, by its middle.
#[derive(Clone, Copy)]
struct Block {
    middle: Point,
    extent: Extent,
}

// How high a label of two lines is, and one of one line.
const TWO_LINES: u32 = 320;

const ONE_LINE: u32 = 160;

// How far a label is from its link.
const APART: i64 = 70;

// How much it counts that a label meets a node or another label, and that it leaves the picture; that it lies on a link counts 1.
const MEETS: usize = 10;

const LEAVES: usize = 1_000;

// What is tried for a label, in this order: how many eighths farther on the link than its first place, and whether it stands outside of the
// link's bend (1), within it (-1) or on it (0).
const TRIED: [(i64, i64); 9] = [
    (0, 1),
    (0, -1),
    (-1, 1),
    (1, 1),
    (-1, -1),
    (1, -1),
    (0, 0),
    (-1, 0),
    (1, 0),
];

/// The middle of each link's label.
pub(crate) fn label_middles(
    alloc: Global,
    links: &[LinkFacts],
    layout: &Layout,
) -> Result<Vec<Point>, AllocError> {
    let mut taken = Vec::new(alloc);
    for node in 0..layout.middles.len() {
        taken.push(Block {
            middle: middle_at(layout, node),
            extent: box_at(layout, node),
        })?;
    }
    let mut middles = Vec::new(alloc);
    for place in 0..links.len() {
        let block = best_block(links, place, layout, taken.as_slice());
        middles.push(block.middle)?;
        taken.push(block)?;
    }
    Ok(middles)
}

// The first of the best blocks that are tried.
fn best_block(links: &[LinkFacts], place: usize, layout: &Layout, taken: &[Block]) -> Block {
    let mut best = block_at(links, place, layout, first_try(links, place, layout));
    let mut least = cost_of(&best, links, place, layout, taken);
    for number in 0..TRIED.len() {
        if least == 0 {
            break;
        }
        let block = block_at(links, place, layout, TRIED[number]);
        let cost = cost_of(&block, links, place, layout, taken);
        if cost < least {
            least = cost;
            best = block;
        }
    }
    best
}

// How bad a block is for the label of the link at a place. Where nodes stand close, links do, too, and don't count.
fn cost_of(
    block: &Block,
    links: &[LinkFacts],
    place: usize,
    layout: &Layout,
    taken: &[Block],
) -> usize {
    let met = meetings(block, layout, taken);
    if layout.is_crowded {
        met
    } else {
        met.saturating_add(lines_in(block, links, place, layout))
    }
}

// Over how many other links a block lies.
fn lines_in(block: &Block, links: &[LinkFacts], place: usize, layout: &Layout) -> usize {
    let mut count: usize = 0;
    for number in 0..links.len() {
        if number != place && is_on(block, links, number, layout) {
            count = count.saturating_add(1);
        }
    }
    count
}

// Whether one of a link's eighths lies in a block.
fn is_on(block: &Block, links: &[LinkFacts], place: usize, layout: &Layout) -> bool {
    let Some(link) = links.get(place) else {
        return false;
    };
    let bend = bend_of(links, place, layout);
    let (from, to) = (
        end_of(layout, link.from, bend),
        end_of(layout, link.to, bend),
    );
    for eighths in 0..=8u32 {
        let point = Block {
            middle: on_curve(from, bend, to, eighths),
            extent: Extent {
                width: 40,
                height: 40,
            },
        };
        if do_meet(block, &point) {
            return true;
        }
    }
    false
}

// What is tried first: on the link where there is little room beside it, and else outside of it.
fn first_try(links: &[LinkFacts], place: usize, layout: &Layout) -> (i64, i64) {
    let is_bent = match links.get(place) {
        Some(link) => {
            let straight = between(middle_at(layout, link.from), middle_at(layout, link.to));
            bend_of(links, place, layout) != straight
        }
        None => false,
    };
    let is_tight = layout.direction == Direction::Down && is_bent && !layout.is_column;
    if layout.is_crowded || is_tight {
        (0, 0)
    } else {
        (0, 1)
    }
}

// How many nodes and labels a block meets, and whether it leaves the picture.
fn meetings(block: &Block, layout: &Layout, taken: &[Block]) -> usize {
    let mut count: usize = 0;
    for other in taken {
        if do_meet(block, other) {
            count = count.saturating_add(MEETS);
        }
    }
    let (wide, high) = (block.extent.width / 2, block.extent.height / 2);
    let is_inside = block.middle.x >= wide
        && block.middle.y >= high
        && block.middle.x.saturating_add(wide) <= layout.size.width
        && block.middle.y.saturating_add(high) <= layout.size.height;
    if is_inside {
        count
    } else {
        count.saturating_add(LEAVES)
    }
}

// Whether two blocks lie over one another.
fn do_meet(one: &Block, other: &Block) -> bool {
    let across = one.middle.x.abs_diff(other.middle.x);
    let down = one.middle.y.abs_diff(other.middle.y);
    across.saturating_mul(2) < one.extent.width.saturating_add(other.extent.width)
        && down.saturating_mul(2) < one.extent.height.saturating_add(other.extent.height)
}

// The block of a link's label at a place that is tried.
fn block_at(links: &[LinkFacts], place: usize, layout: &Layout, tried: (i64, i64)) -> Block {
    let Some(link) = links.get(place) else {
        return Block {
            middle: Point { x: 0, y: 0 },
            extent: Extent {
                width: 0,
                height: 0,
            },
        };
    };
    let bend = bend_of(links, place, layout);
    let (from, to) = (
        end_of(layout, link.from, bend),
        end_of(layout, link.to, bend),
    );
    let eighths = i64::from(label_place(links, link, layout)).saturating_add(tried.0);
    let eighths = u32::try_from(eighths.clamp(1, 7)).unwrap_or(4);
    let extent = extent_of(link, layout);
    let outward = outward_of(
        middle_at(layout, link.from),
        bend,
        middle_at(layout, link.to),
    );
    let far = far_from(outward, extent, width_of_line(link)).saturating_mul(tried.1);
    Block {
        middle: shifted(on_curve(from, bend, to, eighths), scaled(outward, far)),
        extent,
    }
}

// How large a link's label is.
fn extent_of(link: &LinkFacts, layout: &Layout) -> Extent {
    let width = label_width(link);
    if layout.is_crowded && layout.direction == Direction::Right {
        Extent {
            width: width.saturating_add(width_of(link.name.as_str(), 68)),
            height: ONE_LINE,
        }
    } else {
        Extent {
            width,
            height: TWO_LINES,
        }
    }
}

// The direction in which the outside of a link is: that of its bend, or the right hand where it is straight.
fn outward_of(from: Point, bend: Point, to: Point) -> Shift {
    let middle = between(from, to);
    if bend != middle {
        return shift_between(middle, bend);
    }
    let along = shift_between(from, to);
    Shift {
        x: along.y.saturating_neg(),
        y: along.x,
    }
}

// How far the middle of a label of this size is from its link, so that it doesn't lie on the link's line.
fn far_from(outward: Shift, extent: Extent, line: u64) -> i64 {
    let unit = scaled(outward, 1000);
    let wide = unit
        .x
        .saturating_abs()
        .saturating_mul(i64::from(extent.width / 2));
    let high = unit
        .y
        .saturating_abs()
        .saturating_mul(i64::from(extent.height / 2));
    let reach = wide.saturating_add(high).checked_div(1000).unwrap_or(0);
    let half = i64::try_from(line / 2).unwrap_or(0);
    reach.saturating_add(half).saturating_add(APART)
}

// At which eighth of a link its label stands.
fn label_place(links: &[LinkFacts], link: &LinkFacts, layout: &Layout) -> u32 {
    let layers = layout.layers.as_slice();
    let at_from = ends_at(links, layers, link.from, layer_at(layers, link.to));
    let at_to = ends_at(links, layers, link.to, layer_at(layers, link.from));
    let step: u32 = if layout.is_crowded { 2 } else { 1 };
    if at_to >= at_from.saturating_add(2) {
        4 - step
    } else if at_from >= at_to.saturating_add(2) {
        4 + step
    } else {
        4
    }
}

// How many links there are between a node and those of a layer.
fn ends_at(links: &[LinkFacts], layers: &[usize], node: usize, layer: usize) -> usize {
    let mut count: usize = 0;
    for link in links {
        let is_from = link.from == node && layer_at(layers, link.to) == layer;
        let is_to = link.to == node && layer_at(layers, link.from) == layer;
        if is_from || is_to {
            count = count.saturating_add(1);
        }
    }
    count
}
