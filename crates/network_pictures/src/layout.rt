//! Where the nodes of a network stand in its picture.
use crate::facts::{LinkFacts, NetworkFacts};
use crate::layers::layers_of;
use crate::order::rows_of;
use crate::words::load_word;
use std::alloc::{AllocError, Global};
use svg_charts::{Extent, Point};

/// In which direction a picture goes on from layer to layer.
#[derive(Clone, Copy, Debug, PartialEq, Eq)]
pub enum Direction {
    /// To the right, for a wide page.
    Right,
    /// Downward, for a narrow one.
    Down,
}

/// The nodes' middles and boxes, and how large the picture is.
#[derive(Drop)]
pub(crate) struct Layout {
    pub(crate) direction: Direction,
    pub(crate) middles: Vec<Point>,
    pub(crate) boxes: Vec<Extent>,
    pub(crate) layers: Vec<usize>,
    /// Whether a layer has so many nodes that labels have to be short.
    pub(crate) is_crowded: bool,
    /// Whether each layer has one node.
    pub(crate) is_column: bool,
    pub(crate) size: Extent,
}

// How far layers, and the nodes of one, are apart.
#[derive(Clone, Copy)]
struct Pitch {
    along: u32,
    across: u32,
}

// How high a node's box is, and how much is left free around all of them.
const BOX_HEIGHT: u32 = 300;

const MARGIN: u32 = 240;

// How high a box is for each end of a link, where they are spread.
const END_HEIGHT: u32 = 70;

// How many nodes a layer may have before they move together.
const MANY: usize = 6;

/// The layout of a network.
pub(crate) fn layout_of(
    alloc: Global,
    facts: &NetworkFacts,
    direction: Direction,
) -> Result<Layout, AllocError> {
    let layers = layers_of(alloc, facts.nodes.len(), facts.links.as_slice())?;
    let rows = rows_of(alloc, layers.as_slice(), facts.links.as_slice())?;
    let widest = widest_of(rows.as_slice());
    let is_spread = widest > MANY && direction == Direction::Right;
    let boxes = boxes_of(alloc, facts, is_spread)?;
    let pitch = pitch_of(facts, boxes.as_slice(), direction, widest);
    let mut middles = vec![in alloc; Point { x: 0, y: 0 }; facts.nodes.len()]?;
    for layer in 0..rows.len() {
        stand(
            &mut middles,
            rows[layer].as_slice(),
            layer,
            widest,
            pitch,
            direction,
        );
    }
    let size = turned(
        Point {
            x: span_of(rows.len(), pitch.along),
            y: span_of(widest, pitch.across),
        },
        direction,
    );
    Ok(Layout {
        direction,
        middles,
        boxes,
        layers,
        is_crowded: widest > MANY,
        is_column: widest == 1,
        size: Extent {
            width: size.x,
            height: size.y,
        },
    })
}

// How many nodes the largest layer has.
fn widest_of(rows: &[Vec<usize>]) -> usize {
    let mut most = 0;
    for row in rows {
        most = most.max(row.len());
    }
    most
}

// So many steps of a pitch, and the margins.
fn span_of(count: usize, pitch: u32) -> u32 {
    let steps = u32::try_from(count).unwrap_or(u32::MAX);
    steps.saturating_mul(pitch).saturating_add(MARGIN)
}

// The boxes of the nodes, as wide as their names, and higher where the ends of many links are spread over their sides.
fn boxes_of(
    alloc: Global,
    facts: &NetworkFacts,
    is_spread: bool,
) -> Result<Vec<Extent>, AllocError> {
    let mut boxes = Vec::new(alloc);
    for node in 0..facts.nodes.len() {
        let height = if is_spread {
            ends_at(facts.links.as_slice(), node).saturating_mul(END_HEIGHT)
        } else {
            BOX_HEIGHT
        };
        boxes.push(Extent {
            width: width_of(facts.nodes[node].as_str(), 82).saturating_add(220),
            height: height.max(BOX_HEIGHT),
        })?;
    }
    Ok(boxes)
}

// How many links begin or end at a node.
fn ends_at(links: &[LinkFacts], node: usize) -> u32 {
    let mut count: u32 = 0;
    for link in links {
        if link.from == node || link.to == node {
            count = count.saturating_add(1);
        }
    }
    count
}

/// About how wide a text is, in tenths of a pixel, with so many to a character: to a capital a fifth more, and to the widest letters three fifths.
pub(crate) fn width_of(text: &str, character: u32) -> u32 {
    let mut tenths: u32 = 0;
    for byte in text.as_bytes() {
        let part = if is_wide(*byte) {
            16
        } else if byte.is_ascii_uppercase() {
            12
        } else {
            10
        };
        tenths = tenths.saturating_add(part);
    }
    tenths.saturating_mul(character) / 10
}

// Whether it is one of the widest letters.
fn is_wide(byte: u8) -> bool {
    byte == b'W' || byte == b'M' || byte == b'w' || byte == b'm'
}

// The pitch by the widest node and the widest label of a link, where the largest layer has so many nodes.
fn pitch_of(facts: &NetworkFacts, boxes: &[Extent], direction: Direction, widest: usize) -> Pitch {
    let mut node: u32 = 0;
    for extent in boxes {
        node = node.max(extent.width);
    }
    let mut label: u32 = 0;
    for link in &facts.links {
        label = label.max(label_width(link));
    }
    match direction {
        Direction::Right => right_pitch(node, label, has_pairs(facts), widest),
        Direction::Down => Pitch {
            along: 1080,
            across: down_pitch(node, label, has_pairs(facts), widest),
        },
    }
}

// How far nodes of a layer are apart in a picture that goes down. A single column has room for labels on both sides.
fn down_pitch(node: u32, label: u32, has_pairs: bool, widest: usize) -> u32 {
    let between = if has_pairs { 1100 } else { 420 };
    let beside = node.max(label).saturating_add(between);
    if widest == 1 {
        beside.max(label.saturating_mul(2).saturating_add(between))
    } else {
        beside
    }
}

// The pitch of a picture that goes to the right. Layers stand farther apart where one is high.
fn right_pitch(node: u32, label: u32, has_pairs: bool, widest: usize) -> Pitch {
    let across: u32 = match (widest > MANY, has_pairs) {
        (true, true) => 600,
        (true, false) => 440,
        (false, true) => 1240,
        (false, false) => 860,
    };
    let along = node.saturating_add(label).saturating_add(420);
    let height = span_of(widest, across);
    Pitch {
        along: along.max(height / 3),
        across,
    }
}

/// About how wide the label of a link is: its name, and how full it is in a number and a word.
pub(crate) fn label_width(link: &LinkFacts) -> u32 {
    let word = load_word(link);
    let load = match word {
        "free" => 4 * 68,
        _ => width_of(word, 68).saturating_add(5 * 68),
    };
    load.max(width_of(link.name.as_str(), 76))
}

// Whether two links have the same ends.
fn has_pairs(facts: &NetworkFacts) -> bool {
    for link in &facts.links {
        if facts.links.iter().any(|other: &LinkFacts| other.from == link.to
            && other.to == link.from)
        {
            return true;
        }
    }
    false
}

// Puts the nodes of a layer into their places.
fn stand(
    middles: &mut Vec<Point>,
    row: &[usize],
    layer: usize,
    widest: usize,
    pitch: Pitch,
    direction: Direction,
) {
    let along = half_step(layer, pitch.along);
    let spare = u32::try_from(widest.saturating_sub(row.len())).unwrap_or(0);
    let first = spare.saturating_mul(pitch.across / 2);
    for place in 0..row.len() {
        let across = half_step(place, pitch.across).saturating_add(first);
        if let Some(middle) = middles.get_mut(row[place]) {
            *middle = turned(
                Point {
                    x: along,
                    y: across,
                },
                direction,
            );
        }
    }
}

// The middle of the step of a number, behind the margin.
fn half_step(number: usize, pitch: u32) -> u32 {
    let steps = u32::try_from(number).unwrap_or(u32::MAX);
    steps
        .saturating_mul(pitch)
        .saturating_add(pitch / 2)
        .saturating_add(MARGIN / 2)
}

// A point of a picture that goes to the right, in one of this direction.
fn turned(point: Point, direction: Direction) -> Point {
    match direction {
        Direction::Right => point,
        Direction::Down => Point {
            x: point.y,
            y: point.x,
        },
    }
}
