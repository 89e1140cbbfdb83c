//! The link that a row says.

use crate::design::DesignLink;
use crate::field::Row;
use crate::mistake::Mistakes;
use crate::quotas::{Share, quotas_of};
use crate::values::{A_NAME, A_RATE, A_TIME};
use field_units::{Size, Time};
use net_units::Name;
use net_units::limits::MOST_BEST;
use std::alloc::{AllocError, Global};

/// The largest packet where none is told, in bits: an Ethernet frame of 1,500 bytes of data with all that goes round it.
const LARGEST: u64 = 12_304;

/// The buffer where none is told, in bits: 64 KiB.
const BUFFER: u64 = 524_288;

/// The numbers of a link that may be left out.
#[derive(Clone, Copy)]
struct Numbers {
    largest: Size,
    latency: Time,
    buffer: Size,
    best: u32,
}

/// The link of a row, where it says all that is needed.
pub(crate) fn link_of(
    alloc: Global,
    row: &Row,
    place: usize,
    shares: &[Share],
    told: &mut Mistakes,
) -> Result<Option<DesignLink>, AllocError> {
    judge_needs(row, told)?;
    let from = told.name(row, "from")?;
    let to = told.name(row, "to")?;
    let rate = told.rate(alloc, row, "rate")?;
    let levels = told.times(alloc, row, "levels")?;
    let numbers = numbers_of(alloc, row, told)?;
    let name = link_name(alloc, row, told)?;
    let (Some(from), Some(to)) = (from, to) else {
        return Ok(None);
    };
    let (Some(name), Some(rate)) = (name, rate) else {
        return Ok(None);
    };
    let Some(levels) = levels else {
        return Ok(None);
    };
    let quotas = quotas_of(alloc, &name, shares)?;
    Ok(Some(DesignLink {
        name,
        from,
        to,
        rate,
        largest: numbers.largest,
        latency: numbers.latency,
        buffer: numbers.buffer,
        levels,
        best: numbers.best,
        quotas,
        row: place,
    }))
}

/// Tells what every link needs and this row lacks.
fn judge_needs(row: &Row, told: &mut Mistakes) -> Result<(), AllocError> {
    told.need(row, "from", A_NAME)?;
    told.need(row, "to", A_NAME)?;
    told.need(row, "rate", A_RATE)?;
    told.need(row, "levels", A_TIME)
}

/// The numbers that may be left out.
fn numbers_of(alloc: Global, row: &Row, told: &mut Mistakes) -> Result<Numbers, AllocError> {
    let largest = told.size(alloc, row, "largest")?;
    let latency = told.time(alloc, row, "latency")?;
    let buffer = told.size(alloc, row, "buffer")?;
    let best = told.number(alloc, row, "best", u64::from(MOST_BEST))?;
    Ok(Numbers {
        largest: largest.unwrap_or(Size { bits: LARGEST }),
        latency: latency.unwrap_or(Time { picoseconds: 0 }),
        buffer: buffer.unwrap_or(Size { bits: BUFFER }),
        best: u32::try_from(best.unwrap_or(0)).unwrap_or(MOST_BEST),
    })
}

/// The name of a link: the one that is told, or that of its nodes with a `_` between them.
fn link_name(alloc: Global, row: &Row, told: &mut Mistakes) -> Result<Option<Name>, AllocError> {
    if row.has("name") {
        return told.name(row, "name");
    }
    let (Some(from), Some(to)) = (row.text("from"), row.text("to")) else {
        return Ok(None);
    };
    let text = format!(in alloc; "{from}_{to}")?;
    let name = Name::new(text.as_bytes());
    if name.is_none() {
        told.lack(row, "name", A_NAME)?;
    }
    Ok(name)
}
