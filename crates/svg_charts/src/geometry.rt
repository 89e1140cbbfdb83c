//! Points of a picture, in tenths of a pixel, and the shifts between them.

/// A point: tenths of a pixel from the left, and from the top.
#[derive(Clone, Copy, Debug, PartialEq, Eq)]
pub struct Point {
    pub x: u32,
    pub y: u32,
}

/// How wide and how high something is, in tenths of a pixel.
#[derive(Clone, Copy, Debug, PartialEq, Eq)]
pub struct Extent {
    pub width: u32,
    pub height: u32,
}

/// A shift to the right and downward, in tenths of a pixel.
#[derive(Clone, Copy, Debug, PartialEq, Eq)]
pub struct Shift {
    pub x: i64,
    pub y: i64,
}

/// The shift from one point to another.
pub fn shift_between(from: Point, to: Point) -> Shift {
    Shift {
        x: i64::from(to.x).saturating_sub(i64::from(from.x)),
        y: i64::from(to.y).saturating_sub(i64::from(from.y)),
    }
}

/// A point after a shift; a picture begins at 0.
pub fn shifted(point: Point, shift: Shift) -> Point {
    Point {
        x: moved(point.x, shift.x),
        y: moved(point.y, shift.y),
    }
}

// A place after a shift.
fn moved(place: u32, shift: i64) -> u32 {
    let sum = i64::from(place).saturating_add(shift);
    u32::try_from(sum.max(0)).unwrap_or(u32::MAX)
}

/// The point in the middle of two.
pub fn between(one: Point, other: Point) -> Point {
    Point {
        x: one.x / 2 + other.x / 2,
        y: one.y / 2 + other.y / 2,
    }
}

/// The point of a curve at so many eighths of its way, from one point to another and bent toward a third between them.
pub fn on_curve(from: Point, bend: Point, to: Point, eighths: u32) -> Point {
    let gone = u64::from(eighths.min(8));
    let left = 8 - gone;
    let parts = [left * left, 2 * left * gone, gone * gone];
    Point {
        x: mean([from.x, bend.x, to.x], parts),
        y: mean([from.y, bend.y, to.y], parts),
    }
}

// The mean of three places by their parts of 64.
fn mean(places: [u32; 3], parts: [u64; 3]) -> u32 {
    let mut sum: u64 = 0;
    for (place, part) in places.iter().zip(&parts) {
        sum = sum.saturating_add(u64::from(*place).saturating_mul(*part));
    }
    u32::try_from(sum / 64).unwrap_or(u32::MAX)
}

/// A shift in the same direction of about this length: a twentieth too long or too short at most.
pub fn scaled(shift: Shift, length: i64) -> Shift {
    let whole = length_of(shift).max(1);
    Shift {
        x: shift
            .x
            .saturating_mul(length)
            .checked_div(whole)
            .unwrap_or(0),
        y: shift
            .y
            .saturating_mul(length)
            .checked_div(whole)
            .unwrap_or(0),
    }
}

/// About how long a shift is: its longer side and three eighths of the shorter one.
pub fn length_of(shift: Shift) -> i64 {
    let (x, y) = (shift.x.saturating_abs(), shift.y.saturating_abs());
    let rest = x.min(y).saturating_mul(3).checked_div(8).unwrap_or(0);
    x.max(y).saturating_add(rest)
}

/// Where a line from the middle of a box toward a point leaves the box.
pub fn edge_point(middle: Point, extent: Extent, toward: Point) -> Point {
    let shift = shift_between(middle, toward);
    let (wide, high) = (i64::from(extent.width / 2), i64::from(extent.height / 2));
    let (x, y) = (shift.x.saturating_abs(), shift.y.saturating_abs());
    if x.saturating_mul(high) > y.saturating_mul(wide) {
        shifted(middle, cut(shift, wide, x))
    } else {
        shifted(middle, cut(shift, high, y))
    }
}

// The part of a shift that is so long of the whole.
fn cut(shift: Shift, part: i64, whole: i64) -> Shift {
    let whole = whole.max(1);
    Shift {
        x: shift.x.saturating_mul(part).checked_div(whole).unwrap_or(0),
        y: shift.y.saturating_mul(part).checked_div(whole).unwrap_or(0),
    }
}
