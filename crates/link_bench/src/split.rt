//! The split of a link that is one group's.
ghost use Rattle.std.specs.Prelude.{◌≡◌, ◌+◌, ◌≤◌, IfSome, length};
ghost use Rattle.net_units.specs.LevelBounds.{bound_at};
ghost use Rattle.link_steps.specs.Shape.{blocking_of};
ghost use Rattle.link_steps.specs.Split.{SplitFits};

use link_steps::{LinkShape, Quota, Split};
use net_units::Level;
use std::alloc::Global;

/// One group has the first `channels` channel numbers, and all that a link of this shape with three levels can carry: at each
/// what the blocking leaves of its bound, and the whole buffer. None where there aren't three levels, or not enough memory.
pub fn split_of(alloc: Global, shape: &LinkShape, channels: u32) -> Option<Split>
    ensures { IfSome result (λ split. SplitFits (record { shape = shape.now; split = split })) }
{
    if shape.bounds.len() != 3 {
        return None;
    }
    let first = load_at(shape, 1)?;
    let second = load_at(shape, 2)?;
    let third = load_at(shape, 3)?;
    let quota = Quota {
        group: 1,
        buffer: shape.buffer,
        levels: [first, second, third, 0, 0, 0, 0, 0],
    };
    let groups = vec![in alloc; 1; channels as usize].ok()?;
    let Ok(split) = Split::new(alloc, shape.bounds, &[quota], &groups) else {
        return None;
    };
    Some(split)
}

// What the blocking leaves of a level's bound.
fn load_at(shape: &LinkShape, number: u8) -> Option<u32>
    requires least { 1 ≤ number }
    requires most { number ≤ length shape.now.bounds }
    ensures { IfSome result (λ load. blocking_of shape.now + load ≡ bound_at shape.now.bounds number) }
{
    let level = Level::new(number)?;
    shape.bounds.at(level).checked_sub(shape.blocking())
}
