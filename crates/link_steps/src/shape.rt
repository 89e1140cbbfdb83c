//! What a link is, apart from what it does.
ghost use Rattle.std.specs.Prelude.{◌≡◌, ◌≤◌, IsTrue, IfOk, MatchResult, None, Some};
ghost use Rattle.net_units.specs.Quotient.{ceil_quotient};
ghost use Rattle.net_units.specs.LevelBounds.{are_bounds, bound_at};
ghost use Rattle.net_units.specs.Limits.{most_best, most_buffer, most_propagation, most_rate, most_size};

use net_units::limits::{MOST_BEST, MOST_BUFFER, MOST_PROPAGATION, MOST_RATE, MOST_SIZE};
use net_units::{Bounds, Level, LinkNo, ceil_div};
use traffic_contract::Test;

/// A number of a link's shape, or its bounds.
#[derive(Clone, Copy, Debug, PartialEq, Eq)]
pub enum ShapeField {
    /// The rate, in units a tick.
    Rate,
    /// The largest packet, in units.
    Cap,
    /// The propagation, in ticks.
    Prop,
    /// The buffer, in units.
    Buffer,
    /// The best-effort packets that may wait.
    Best,
    /// The bounds of the levels, in ticks.
    Bounds,
}

/// Numbers that aren't a link's, with the first field that fails.
#[derive(Clone, Copy, Debug, PartialEq, Eq)]
pub struct BadShape {
    pub field: ShapeField,
}

/// A link: its place in the network and its numbers, each within its limit. A packet of the largest size fits the first bound.
#[derive(Clone, Copy)]
pub struct LinkShape {
    /// Its place among the links of the network.
    pub link: LinkNo,
    /// What it sends in a tick, from 1 to 65,536 units.
    pub rate: u32,
    /// The largest packet that it carries, from 1 to 65,536 units.
    pub cap: u32,
    /// Its propagation: the ticks between a departure here and the arrival after it, up to 1,048,576.
    pub prop: u32,
    /// Its buffer, up to 262,144 units.
    pub buffer: u32,
    /// The delay bounds of its levels, in ticks.
    pub bounds: Bounds,
    /// Which windows count when its admission test compares the load of a level.
    pub test: Test,
    /// The best-effort packets that may wait, up to 1,024; 0 where there are none.
    pub best: u32,
    ghost rate_least: { 1 ≤ rate },
    ghost rate_most: { rate ≤ most_rate },
    ghost cap_least: { 1 ≤ cap },
    ghost cap_most: { cap ≤ most_size },
    ghost prop_most: { prop ≤ most_propagation },
    ghost buffer_most: { buffer ≤ most_buffer },
    ghost best_most: { best ≤ most_best },
    ghost bounds_rise: { IsTrue (are_bounds bounds) },
    ghost blocking_fits: { ceil_quotient cap rate ≤ bound_at bounds 1 },
}

impl LinkShape {
    ghost use Rattle.link_steps.specs.Shape.{first_bad_field, blocking_of, IsShapeOf};

    /// A link of these numbers, refused for the first field, in this order, that is out of its limit: a rate or a cap
    /// from 1 to 65,536 units, a propagation of at most 1,048,576 ticks, a buffer of at most 262,144 units, at most
    /// 1,024 best-effort packets, and bounds of which the first is at least the ticks of the largest packet.
    pub fn new(
        link: LinkNo,
        rate: u32,
        cap: u32,
        prop: u32,
        buffer: u32,
        bounds: Bounds,
        test: Test,
        best: u32,
    ) -> Result<LinkShape, BadShape>
        ensures refusal { MatchResult result
            (λ _. first_bad_field rate cap prop buffer best bounds ≡ None)
            (λ bad. first_bad_field rate cap prop buffer best bounds ≡ Some bad.field) }
        ensures value { IfOk result (IsShapeOf link rate cap prop buffer bounds test best) }
    {
        if !(1..=MOST_RATE).contains(&rate) {
            return Err(BadShape {
                field: ShapeField::Rate,
            });
        }
        if !(1..=MOST_SIZE).contains(&cap) {
            return Err(BadShape {
                field: ShapeField::Cap,
            });
        }
        if prop > MOST_PROPAGATION {
            return Err(BadShape {
                field: ShapeField::Prop,
            });
        }
        if buffer > MOST_BUFFER {
            return Err(BadShape {
                field: ShapeField::Buffer,
            });
        }
        if best > MOST_BEST {
            return Err(BadShape {
                field: ShapeField::Best,
            });
        }
        if ceil_div(u64::from(cap), u64::from(rate)) > u64::from(bounds.at(Level::LEAST)) {
            return Err(BadShape {
                field: ShapeField::Bounds,
            });
        }
        Ok(LinkShape {
            link,
            rate,
            cap,
            prop,
            buffer,
            bounds,
            test,
            best,
        })
    }

    /// The blocking: the ticks that a packet of the largest size occupies the link, from 1 to 65,536.
    pub fn blocking(&self) -> u32
        ensures value { result ≡ blocking_of self.now }
        ensures least { 1 ≤ result }
        ensures most { result ≤ most_size }
    {
        self.cap.div_ceil(self.rate)
    }
}
