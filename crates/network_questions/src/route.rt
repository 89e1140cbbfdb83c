//! What each link of a request's route offers it.
ghost use Rattle.std.specs.Prelude.{IfOk};
ghost use Rattle.network_questions.specs.Asked.{AnswersOf};

use crate::asking::{Asking, Point, asking_of, point_of, row_of};
use crate::denials::{denial_text, is_for_buffer, refusing_hop};
use crate::least::joined;
use crate::once_more::{Shortest, shortest_of};
use crate::parts::{add_cell, add_column, add_line, link_name};
use crate::table::{promised_of, wanted_of};
use crate::trouble::Trouble;
use answer_grids::{Answer, Cell, Column, Grid, ticks_text};
use answer_tables::{HopRow, RequestRow};
use network_files::Network;
use plan_answers::is_acceptance;
use std::alloc::{AllocError, Global};

/// The answer for the request of a number, where it is asked.
pub fn route_of(alloc: Global, network: &Network, number: usize) -> Result<Answer, Trouble>
    ensures { IfOk result (AnswersOf network.now number) }
{
    let asking = asking_of(alloc, network)?;
    let row = row_of(alloc, network, &asking, number)?;
    let lines = lines_of(alloc, network, &asking, &row)?;
    Ok(Answer {
        grid: grid_of(alloc, network, &row)?,
        shows_grid: true,
        lines,
        holds: is_acceptance(&row.verdict),
    })
}

// A row for each hop.
fn grid_of(alloc: Global, network: &Network, row: &RequestRow) -> Result<Grid, AllocError> {
    let mut rows = Vec::new(alloc);
    for place in 0..row.hops.len() {
        rows.push(cells_of(alloc, network, row, place, &row.hops[place])?)?;
    }
    Ok(Grid {
        columns: columns_of(alloc)?,
        rows,
    })
}

// The sentences.
fn lines_of(
    alloc: Global,
    network: &Network,
    asking: &Asking,
    row: &RequestRow,
) -> Result<Vec<String>, Trouble> {
    let mut lines = Vec::new(alloc);
    let point = point_of(network, asking, row.number);
    push_offered(alloc, &mut lines, network, point, row)?;
    push_verdict(alloc, &mut lines, network, row)?;
    Ok(lines)
}

// The columns.
fn columns_of(alloc: Global) -> Result<Vec<Column>, AllocError> {
    let mut columns = Vec::new(alloc);
    add_column(&mut columns, Column::of_numbers("hop", "hop"))?;
    add_column(&mut columns, Column::of_words("link", "link"))?;
    add_column(&mut columns, Column::of_numbers("offers", "offers"))?;
    add_column(&mut columns, Column::of_numbers("level", "level"))?;
    add_column(&mut columns, Column::of_numbers("propagation", "prop"))?;
    add_column(&mut columns, Column::of_numbers("sum", "sum"))?;
    add_column(&mut columns, Column::of_numbers("gets", "gets"))?;
    add_column(&mut columns, Column::of_words("note", ""))?;
    Ok(columns)
}

// The cells of the hop at a place.
fn cells_of(
    alloc: Global,
    network: &Network,
    row: &RequestRow,
    place: usize,
    hop: &HopRow,
) -> Result<Vec<Cell>, AllocError> {
    let mut cells = Vec::new(alloc);
    add_cell(&mut cells, Cell::Number((place as u64).saturating_add(1)))?;
    add_cell(
        &mut cells,
        Cell::text(alloc, link_name(&network.plan, hop.link))?,
    )?;
    add_cell(&mut cells, Cell::number(hop.offer.map(|offer| offer.bound)))?;
    add_cell(
        &mut cells,
        Cell::number(hop.offer.map(|offer| u64::from(offer.level.get()))),
    )?;
    add_cell(&mut cells, Cell::Number(hop.prop))?;
    add_cell(&mut cells, Cell::number(hop.offer.map(|offer| offer.sum)))?;
    add_cell(
        &mut cells,
        Cell::number(hop.gets.map(|level| u64::from(level.get()))),
    )?;
    add_cell(&mut cells, Cell::text(alloc, note_of(row, place))?)?;
    Ok(cells)
}

// What is noted of a hop.
fn note_of(row: &RequestRow, place: usize) -> &'static str {
    if row.tight() != Some(place) {
        ""
    } else if refusing_hop(&row.verdict).is_some() {
        "refuses"
    } else {
        "tight"
    }
}

// Adds what is offered in all, if need be with no more kept at any hop than the shortest delay takes. Where a buffer is too small even then,
// that is told.
fn push_offered(
    alloc: Global,
    lines: &mut Vec<String>,
    network: &Network,
    point: Point,
    row: &RequestRow,
) -> Result<(), Trouble> {
    let wanted = wanted_of(network, row.number).unwrap_or(0);
    if let Some(sum) = row.offered() {
        add_line(lines, offered_line(alloc, network, sum, wanted)?)?;
        return Ok(());
    }
    match shortest_of(alloc, network, point, row.number)? {
        Shortest::Offered(sum) => {
            let mut line = offered_line(alloc, network, sum, wanted)?;
            line.push_str(", if nothing were kept for relaxing")?;
            add_line(lines, line)?;
        }
        Shortest::Refused(verdict) if is_for_buffer(&verdict) => {
            let why = denial_text(alloc, &verdict)?;
            add_line(lines, joined(alloc, EVEN_THEN, why.as_str())?)?;
        }
        Shortest::Refused(_) => {}
    }
    Ok(())
}

// Of a request that a buffer refuses with any delay.
const EVEN_THEN: &str = "denied even if nothing were kept for relaxing: ";

// Adds what the request comes to, and its tight link.
fn push_verdict(
    alloc: Global,
    lines: &mut Vec<String>,
    network: &Network,
    row: &RequestRow,
) -> Result<(), AllocError> {
    if let Some(promised) = promised_of(&row.verdict) {
        let ticks = ticks_text(alloc, promised, network.tick)?;
        add_line(lines, joined(alloc, "accepted with ", ticks.as_str())?)?;
    } else if row.verdict.is_some() {
        let why = denial_text(alloc, &row.verdict)?;
        add_line(lines, joined(alloc, "denied: ", why.as_str())?)?;
    } else {
        add_line(lines, String::from_str(alloc, "pending")?)?;
    }
    if let Some(link) = row.tight_link() {
        add_line(
            lines,
            joined(alloc, "tight link ", link_name(&network.plan, link))?,
        )?;
    }
    Ok(())
}

// What is offered in all, what is wanted, and how much that is apart.
fn offered_line(
    alloc: Global,
    network: &Network,
    sum: u64,
    wanted: u64,
) -> Result<String, AllocError> {
    let tick = network.tick;
    let offered = ticks_text(alloc, sum, tick)?;
    let want = ticks_text(alloc, wanted, tick)?;
    let apart = ticks_text(alloc, sum.abs_diff(wanted), tick)?;
    let which = if sum <= wanted {
        "to spare"
    } else {
        "too many"
    };
    let (offered, want, apart) = (offered.as_str(), want.as_str(), apart.as_str());
    format!(in alloc; "offered {offered}, wanted {want}: {apart} {which}")
}
