//! What a design says of the network as a whole.

use crate::field::Row;
use crate::mistake::Mistakes;
use crate::values::{A_SIZE, A_TIME};
use field_units::Scale;
use std::alloc::{AllocError, Global};

/// The tick and the unit, where the design names them. It names both or neither.
pub(crate) fn scale_of(
    alloc: Global,
    row: &Row,
    told: &mut Mistakes,
) -> Result<Option<Scale>, AllocError> {
    if !row.has("tick") && !row.has("unit") {
        return Ok(None);
    }
    let tick = told.time(alloc, row, "tick")?;
    let unit = told.size(alloc, row, "unit")?;
    told.need(row, "tick", A_TIME)?;
    told.need(row, "unit", A_SIZE)?;
    let (Some(tick), Some(unit)) = (tick, unit) else {
        return Ok(None);
    };
    let scale = Scale::new(tick, unit);
    if scale.is_none() {
        told.tell_at(
            row.place,
            "a tick is at least 1 ps, and a unit from 1 bit to 1 MiB",
        )?;
    }
    Ok(scale)
}

/// Whether the test is the whole one.
pub(crate) fn is_whole_test(row: &Row, told: &mut Mistakes) -> Result<bool, AllocError> {
    let Some(field) = row.field("test") else {
        return Ok(false);
    };
    match field.text.as_str() {
        "whole" => Ok(true),
        "least" => Ok(false),
        _ => {
            told.refuse(field, "whole or least")?;
            Ok(false)
        }
    }
}
