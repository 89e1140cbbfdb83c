//! Markup for pictures: texts that can't break out of their place, whole numbers, an axis with round steps, and the points of arrows.
#![tactic(auto)]

mod axis;
mod geometry;
pub mod laws;
mod markup;
mod shapes;

pub use axis::{Axis, round_above, round_below};
pub use geometry::{
    Extent, Point, Shift, between, edge_point, length_of, on_curve, scaled, shift_between, shifted,
};
pub use markup::Markup;
pub use shapes::{Anchor, arrow, frame, label, rule};
