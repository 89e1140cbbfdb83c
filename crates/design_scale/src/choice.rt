//! The tick and the unit of a design.
ghost use Rattle.std.specs.Prelude.{◌≡◌, IfOk, map};
ghost use Rattle.std.specs.Option.{option_map};
ghost use Rattle.field_units.specs.Serving.{pair_of, tried_pairs};
ghost use Rattle.design_scale.specs.Serving.{serves as serves_pair, IsChoice, IsFirst};

use crate::keeping::serves;
use design_text::Design;
use field_units::serving::tried_scales;
use field_units::{Scale, Time};
use std::alloc::{AllocError, Global};

/// A number that loses at most one part in a hundred loses at most one percent.
pub const ONE_PERCENT: u64 = 100;

/// The tick and the unit of a design.
#[derive(Clone, Copy, Debug)]
pub enum Choice {
    /// Those that the design names.
    Named(Scale),
    /// The coarsest that serve the design.
    Serving(Scale),
    /// The coarsest that serve it without its run: with no rounds, a report has the verdicts alone.
    Verdicts(Scale),
    /// None of those that are tried.
    Nothing,
}

/// The tick and the unit of a design: those that it names, or the coarsest of those that are tried at which each number loses at most one part
/// in `parts`, with its run or, where none does, without.
pub fn choose(alloc: Global, parts: u64, design: &Design) -> Result<Choice, AllocError>
    ensures { IfOk result (IsChoice parts design.now) }
{
    if let Some(scale) = design.scale {
        return Ok(Choice::Named(scale));
    }
    if let Some(scale) = coarsest(alloc, parts, design.run, design)? {
        return Ok(Choice::Serving(scale));
    }
    match coarsest(alloc, parts, Time { picoseconds: 0 }, design)? {
        Some(scale) => Ok(Choice::Verdicts(scale)),
        None => Ok(Choice::Nothing),
    }
}

/// The coarsest scale of those that are tried that serves a design with a run of this time.
pub fn coarsest(
    alloc: Global,
    parts: u64,
    run: Time,
    design: &Design,
) -> Result<Option<Scale>, AllocError>
    ensures { IfOk result (λ found. IsFirst (serves_pair parts run design.now) tried_pairs (option_map pair_of found)) }
{
    let scales = tried_scales(alloc)?;
    Ok(first_serving(&scales, parts, run, design))
}

// The first of these scales that serves.
fn first_serving(scales: &[Scale], parts: u64, run: Time, design: &Design) -> Option<Scale>
    ensures { IsFirst (serves_pair parts run design.now) (map pair_of scales.now) (option_map pair_of result) }
{
    for scale in scales {
        if serves(scale, parts, run, design) {
            return Some(*scale);
        }
    }
    None
}
