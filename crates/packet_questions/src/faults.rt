//! The faults of a table, as rows.
use crate::table::{Measured, Table};
use answer_grids::{Answer, Cell, Column, Grid};
use call_script::Plan;
use field_units::Time;
use network_questions::{request_named, time_cell};
use packet_answers::Promises;
use packet_audit::{Fault, Found, Promise};
use std::alloc::{AllocError, Global};

// What is told of a fault.
#[derive(Clone, Copy)]
struct Told {
    word: &'static str,
    // By how many ticks.
    by: Option<u64>,
    // What was promised, in ticks.
    limit: Option<u64>,
}

// The faults that were found of a table, as an answer.
pub(crate) fn answer_of(
    alloc: Global,
    plan: &Plan,
    tick: Option<Time>,
    promises: &Promises,
    table: &Table,
    found: &[Found],
) -> Result<Answer, AllocError> {
    let mut rows = Vec::new(alloc);
    for fault in found {
        if let Some(measured) = table.measured.get(fault.row.saturating_sub(1)) {
            let told = told_of(plan, promises, measured, &fault.fault);
            rows.push(cells_of(alloc, tick, measured, &told)?)?;
        }
    }
    let mut lines = Vec::new(alloc);
    lines.push(sentence(alloc, table.rows.len(), found)?)?;
    if table.is_rounded {
        lines.push(String::from_str(alloc, ROUNDED)?)?;
    }
    Ok(Answer {
        grid: Grid {
            columns: columns_of(alloc, tick)?,
            rows,
        },
        shows_grid: !found.is_empty(),
        lines,
        holds: found.is_empty(),
    })
}

// What is said where moments aren't whole ticks.
const ROUNDED: &'static str =
    "not all moments are whole ticks: a delay counts in whole ticks, and two may differ by 2 ticks more than promised";

// How many rows have a fault.
fn sentence(alloc: Global, rows: usize, found: &[Found]) -> Result<String, AllocError> {
    let faulty = count_rows(found);
    let noun = if rows == 1 { "packet" } else { "packets" };
    if faulty == 0 {
        format!(in alloc; "{rows} {noun}: all keep what was promised")
    } else {
        format!(in alloc; "{rows} {noun}: {faulty} at fault")
    }
}

// How many rows these faults are of. Those of a row stand together.
fn count_rows(found: &[Found]) -> usize {
    let mut count: usize = 0;
    let mut last: usize = 0;
    for fault in found {
        if fault.row != last {
            count = count.saturating_add(1);
            last = fault.row;
        }
    }
    count
}

// The columns, with times where the tick is known.
fn columns_of(alloc: Global, tick: Option<Time>) -> Result<Vec<Column>, AllocError> {
    let mut columns = Vec::new(alloc);
    columns.push(Column::of_numbers("line", "line"))?;
    columns.push(Column::of_words("channel", "channel"))?;
    columns.push(Column::of_numbers("packet", "packet"))?;
    columns.push(Column::of_words("fault", "fault"))?;
    columns.push(Column::of_numbers("by", "by"))?;
    columns.push(Column::of_numbers("limit", "limit"))?;
    if tick.is_some() {
        columns.push(Column::of_numbers("by_time", "by"))?;
        columns.push(Column::of_numbers("limit_time", "limit"))?;
    }
    Ok(columns)
}

// The cells of a fault.
fn cells_of(
    alloc: Global,
    tick: Option<Time>,
    measured: &Measured,
    told: &Told,
) -> Result<Vec<Cell>, AllocError> {
    let mut cells = Vec::new(alloc);
    cells.push(Cell::Number(measured.line))?;
    cells.push(Cell::text(alloc, measured.name.as_str())?)?;
    cells.push(Cell::Number(measured.packet))?;
    cells.push(Cell::text(alloc, told.word)?)?;
    cells.push(Cell::number(told.by))?;
    cells.push(Cell::number(told.limit))?;
    if let Some(tick) = tick {
        cells.push(time_cell(alloc, told.by, tick)?)?;
        cells.push(time_cell(alloc, told.limit, tick)?)?;
    }
    Ok(cells)
}

// What is told of a fault of a packet.
fn told_of(plan: &Plan, promises: &Promises, measured: &Measured, fault: &Fault) -> Told {
    let number = request_named(plan, &measured.name);
    let promise = match number {
        Some(number) => promises.list.get(promises.place(number)),
        None => None,
    };
    match fault {
        Fault::Unknown if number.is_some() => word_alone("not accepted"),
        Fault::Unknown => word_alone("unknown channel"),
        Fault::BeforeSent => word_alone("arrived before it was sent"),
        Fault::BreaksContract => word_alone("breaks the contract"),
        Fault::Late { by } => Told {
            word: "late",
            by: Some(*by),
            limit: promise.map(|promise: &Promise| promise.delay),
        },
        Fault::Uneven { apart } => {
            let jitter = promise.and_then(|promise: &Promise| promise.jitter);
            Told {
                word: "uneven",
                by: Some(*apart),
                limit: jitter,
            }
        }
    }
}

// A fault without numbers.
fn word_alone(word: &'static str) -> Told {
    Told {
        word,
        by: None,
        limit: None,
    }
}
