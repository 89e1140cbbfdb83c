//! Lines, frames, labels and arrows.
use crate::geometry::{Extent, Point, Shift, scaled, shift_between, shifted};
use crate::markup::Markup;
use std::alloc::AllocError;

/// Where a label stands, seen from its point.
#[derive(Clone, Copy, Debug, PartialEq, Eq)]
pub enum Anchor {
    /// It begins there.
    Start,
    /// Its middle is there.
    Middle,
    /// It ends there.
    End,
}

/// Adds a straight line of this class.
pub fn rule(
    markup: &mut Markup,
    class: &'static str,
    from: Point,
    to: Point,
) -> Result<(), AllocError> {
    markup.put("<line class=\"")?;
    markup.put(class)?;
    markup.put("\"")?;
    markup.place("x1", u64::from(from.x))?;
    markup.place("y1", u64::from(from.y))?;
    markup.place("x2", u64::from(to.x))?;
    markup.place("y2", u64::from(to.y))?;
    markup.put("/>")
}

/// Adds a rectangle of this class, with corners that are rounded by so many tenths of a pixel.
pub fn frame(
    markup: &mut Markup,
    class: &'static str,
    corner: Point,
    extent: Extent,
    round: u32,
) -> Result<(), AllocError> {
    markup.put("<rect class=\"")?;
    markup.put(class)?;
    markup.put("\"")?;
    markup.place("x", u64::from(corner.x))?;
    markup.place("y", u64::from(corner.y))?;
    markup.place("width", u64::from(extent.width))?;
    markup.place("height", u64::from(extent.height))?;
    if round > 0 {
        markup.place("rx", u64::from(round))?;
    }
    markup.put("/>")
}

/// Adds a label of this class.
pub fn label(
    markup: &mut Markup,
    class: &'static str,
    at: Point,
    anchor: Anchor,
    text: &str,
) -> Result<(), AllocError> {
    markup.put("<text class=\"")?;
    markup.put(class)?;
    markup.put(match anchor {
        Anchor::Start => "\"",
        Anchor::Middle => "\" text-anchor=\"middle\"",
        Anchor::End => "\" text-anchor=\"end\"",
    })?;
    markup.place("x", u64::from(at.x))?;
    markup.place("y", u64::from(at.y))?;
    markup.put(">")?;
    markup.text(text)?;
    markup.put("</text>")
}

/// Adds an arrow of this class from one point to another, bent toward a third, with a line of so many tenths of a pixel.
pub fn arrow(
    markup: &mut Markup,
    class: &'static str,
    from: Point,
    bend: Point,
    to: Point,
    width: u64,
) -> Result<(), AllocError> {
    let wide = i64::try_from(width).unwrap_or(i64::MAX);
    let back = scaled(shift_between(to, bend), wide.saturating_add(70));
    let neck = shifted(to, back);
    markup.put("<path class=\"")?;
    markup.put(class)?;
    markup.put("\" fill=\"none\"")?;
    markup.place("stroke-width", width)?;
    markup.put(" d=\"M")?;
    pair(markup, from)?;
    markup.put("Q")?;
    pair(markup, bend)?;
    pair(markup, neck)?;
    markup.put("\"/>")?;
    head(markup, class, neck, back, to)
}

// Adds the head of an arrow.
fn head(
    markup: &mut Markup,
    class: &'static str,
    neck: Point,
    back: Shift,
    to: Point,
) -> Result<(), AllocError> {
    let left = Shift {
        x: halved(back.y),
        y: halved(back.x).saturating_neg(),
    };
    let right = Shift {
        x: left.x.saturating_neg(),
        y: left.y.saturating_neg(),
    };
    markup.put("<path class=\"")?;
    markup.put(class)?;
    markup.put(" head\" d=\"M")?;
    pair(markup, to)?;
    markup.put("L")?;
    pair(markup, shifted(neck, left))?;
    markup.put("L")?;
    pair(markup, shifted(neck, right))?;
    markup.put("Z\"/>")
}

// Half of a length, and a little more.
fn halved(length: i64) -> i64 {
    length.saturating_mul(6).checked_div(10).unwrap_or(0)
}

// Adds the two numbers of a point.
fn pair(markup: &mut Markup, point: Point) -> Result<(), AllocError> {
    markup.tenths(u64::from(point.x))?;
    markup.put(" ")?;
    markup.tenths(u64::from(point.y))?;
    markup.put(" ")
}
