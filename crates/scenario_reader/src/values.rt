//! The names and numbers in a line's fields.
ghost use Rattle.std.specs.Prelude.{◌≤◌, IfOk};
ghost use Rattle.scenario_reader.specs.Causes.{Judges, unless};
ghost use Rattle.scenario_reader.specs.Decimal.{value_of};
ghost use Rattle.scenario_reader.specs.Forms.{name_rule, number_rule};

use crate::cause::LineCause;
use line_forms::number::{is_number, value_of};
use net_units::Name;

/// Nothing where the condition holds, or else this cause.
pub fn require(holds: bool, cause: LineCause) -> Result<(), LineCause>
    ensures { Judges result (unless holds cause) tt }
{
    if holds { Ok(()) } else { Err(cause) }
}

/// The name that a field holds, or the cause `Name`.
pub fn name(field: &[u8]) -> Result<Name, LineCause>
    ensures { Judges result (name_rule field.now) field.now }
{
    Name::new(field).ok_or(LineCause::Name)
}

/// The number from `low` to `high` that a field holds, or the cause `Number` or `Range`.
pub fn number(field: &[u8], low: u64, high: u64) -> Result<u64, LineCause>
    ensures judged { Judges result (number_rule low high field.now) (value_of field.now) }
    ensures range { IfOk result (λ value. (low ≤ value) × (value ≤ high)) }
{
    require(is_number(field), LineCause::Number)?;
    let value = value_of(field);
    require(low <= value && value <= high, LineCause::Range)?;
    Ok(value)
}
