//! The table of all requests.
ghost use Rattle.std.specs.Prelude.{◌≡◌, IfOk};
ghost use Rattle.network_questions.specs.Asked.{AskingStands, IsTableOf, are_accepted, is_accepted_row};

use crate::asking::{Asking, asking_of, rows_of};
use crate::denials::{denial_text, verdict_word};
use crate::parts::{
    add_cell, add_column, link_name, percent_cell, push_pair, runs_text, time_cell,
};
use crate::tight::{Tight, tight_of};
use crate::trouble::Trouble;
use answer_grids::{Answer, Cell, Column, Grid};
use answer_tables::{HopRow, LeastJitter, RequestRow};
use field_units::Time;
use network_files::Network;
use plan_answers::{Least, is_acceptance};
use setup_protocol::Verdict;
use std::alloc::{AllocError, Global};

/// The table. Each request is asked among the requests alone or, where the network has a schedule, where its own setup begins in its run.
pub fn table_of(alloc: Global, network: &Network) -> Result<Answer, Trouble>
    ensures { IfOk result (IsTableOf network.now) }
{
    let asking = asking_of(alloc, network)?;
    let rows = rows_of(alloc, network, &asking)?;
    Ok(Answer {
        grid: grid_of(alloc, network, &asking, rows.as_slice())?,
        shows_grid: true,
        lines: Vec::new(alloc),
        holds: all_accepted(&rows),
    })
}

// Whether all requests are accepted.
fn all_accepted(rows: &Vec<RequestRow>) -> bool
    ensures { result ≡ are_accepted rows.now.items }
{
    are_accepted(rows.as_slice())
}

// Whether all of these requests are accepted.
fn are_accepted(rows: &[RequestRow]) -> bool
    ensures { result ≡ are_accepted rows.now }
{
    rows.iter().all(|row| is_accepted(row))
}

// Whether a request is accepted.
fn is_accepted(row: &RequestRow) -> bool
    ensures { result ≡ is_accepted_row row.now }
{
    is_acceptance(&row.verdict)
}

// A row for each of them.
fn grid_of(
    alloc: Global,
    network: &Network,
    asking: &Asking,
    rows: &[RequestRow],
) -> Result<Grid, Trouble>
    requires stands { AskingStands network.now asking.now }
{
    let mut cells = Vec::new(alloc);
    for row in rows {
        let tight = tight_of(alloc, network, asking, row)?;
        cells.push(cells_of(alloc, network, row, &tight)?)?;
    }
    Ok(Grid {
        columns: columns_of(alloc, network.tick)?,
        rows: cells,
    })
}

// The columns, with times where the tick is known. In text the verdict is a denial's words, and of the times that stands which is to spare.
fn columns_of(alloc: Global, tick: Option<Time>) -> Result<Vec<Column>, AllocError> {
    let mut columns = Vec::new(alloc);
    add_column(&mut columns, Column::of_words("request", "request"))?;
    add_column(&mut columns, Column::of_words("", "verdict").in_text())?;
    add_column(&mut columns, Column::of_words("verdict", "").in_data())?;
    add_column(&mut columns, Column::of_words("", "offers").in_text())?;
    add_column(&mut columns, Column::of_words("offers", "").in_data())?;
    add_column(&mut columns, Column::of_words("", "gets").in_text())?;
    add_column(&mut columns, Column::of_words("gets", "").in_data())?;
    push_delays(&mut columns, tick)?;
    add_column(&mut columns, Column::of_words("why", "").in_data())?;
    push_tight_columns(&mut columns)?;
    Ok(columns)
}

// Adds the columns of delays and of the jitter.
fn push_delays(columns: &mut Vec<Column>, tick: Option<Time>) -> Result<(), AllocError> {
    add_column(columns, Column::of_numbers("wanted", "wanted"))?;
    push_time(columns, tick, "wanted_time")?;
    add_column(columns, Column::of_numbers("promised", "promised"))?;
    push_time(columns, tick, "promised_time")?;
    add_column(columns, Column::of_numbers("to_spare", "to spare"))?;
    if tick.is_some() {
        add_column(columns, Column::of_numbers("to_spare_time", ""))?;
    }
    add_column(columns, Column::of_numbers("least_delay", "least delay"))?;
    push_time(columns, tick, "least_delay_time")?;
    add_column(columns, Column::of_numbers("least_jitter", "least jitter"))?;
    push_time(columns, tick, "least_jitter_time")
}

// Adds a column of times, where the tick is known. Text has none.
fn push_time(
    columns: &mut Vec<Column>,
    tick: Option<Time>,
    name: &'static str,
) -> Result<(), AllocError> {
    if tick.is_some() {
        add_column(columns, Column::of_numbers(name, "").in_data())?;
    }
    Ok(())
}

// Adds the columns of the tight link.
fn push_tight_columns(columns: &mut Vec<Column>) -> Result<(), AllocError> {
    add_column(columns, Column::of_words("tight", "tight"))?;
    add_column(columns, Column::of_numbers("", "work").in_text())?;
    add_column(columns, Column::of_numbers("tight_work", "").in_data())?;
    add_column(columns, Column::of_numbers("tight_bound", "").in_data())?;
    add_column(columns, Column::of_numbers("tight_least_bound", "least"))?;
    add_column(
        columns,
        Column::of_numbers("tight_long_run_percent", "run %"),
    )?;
    add_column(columns, Column::of_numbers("", "buffer free").in_text())?;
    add_column(
        columns,
        Column::of_numbers("tight_buffer_free", "").in_data(),
    )?;
    add_column(columns, Column::of_numbers("tight_buffer", "").in_data())?;
    Ok(())
}

// The cells of a request.
fn cells_of(
    alloc: Global,
    network: &Network,
    row: &RequestRow,
    tight: &Option<Tight>,
) -> Result<Vec<Cell>, AllocError> {
    let mut cells = Vec::new(alloc);
    push_name(alloc, &mut cells, network, row)?;
    let wanted = wanted_of(network, row.number);
    let promised = promised_of(&row.verdict);
    let spare = spare_of(wanted, promised);
    let tick = network.tick;
    push_both(alloc, &mut cells, wanted, tick)?;
    push_both(alloc, &mut cells, promised, tick)?;
    push_both(alloc, &mut cells, spare, tick)?;
    push_both(alloc, &mut cells, delay_in(&row.least), tick)?;
    push_both(alloc, &mut cells, jitter_in(&row.jitter), tick)?;
    add_cell(&mut cells, Cell::Text(denial_text(alloc, &row.verdict)?))?;
    match tight {
        Some(tight) => push_tight(alloc, &mut cells, network, tight)?,
        None => push_nothing(&mut cells, 9)?,
    }
    Ok(cells)
}

// Adds the cells of the tight link.
fn push_tight(
    alloc: Global,
    cells: &mut Vec<Cell>,
    network: &Network,
    tight: &Tight,
) -> Result<(), AllocError> {
    add_cell(
        cells,
        Cell::text(alloc, link_name(&network.plan, tight.link))?,
    )?;
    push_pair(alloc, cells, tight.load.work, tight.load.bound)?;
    match tight.least {
        Some(least) => add_cell(cells, Cell::Number(least))?,
        None => add_cell(cells, Cell::text(alloc, "none")?)?,
    }
    add_cell(cells, percent_cell(alloc, tight.long_run)?)?;
    push_pair(alloc, cells, tight.free, tight.buffer)
}

// Adds so many empty cells.
fn push_nothing(cells: &mut Vec<Cell>, count: usize) -> Result<(), AllocError> {
    for _ in 0..count {
        add_cell(cells, Cell::Nothing)?;
    }
    Ok(())
}

// Adds the name of a request, what it comes to, and the levels of its hops.
fn push_name(
    alloc: Global,
    cells: &mut Vec<Cell>,
    network: &Network,
    row: &RequestRow,
) -> Result<(), AllocError> {
    let name = match network.plan.requests().get(row.number) {
        Some(entry) => entry.name.as_str(),
        None => "",
    };
    add_cell(cells, Cell::text(alloc, name)?)?;
    add_cell(cells, Cell::Text(outcome_text(alloc, &row.verdict)?))?;
    add_cell(cells, Cell::text(alloc, verdict_word(&row.verdict))?)?;
    let (offers, gets) = levels_of(alloc, row.hops.as_slice())?;
    push_levels(alloc, cells, offers)?;
    push_levels(alloc, cells, gets)
}

// Adds levels, for text in a short form, and each for itself.
fn push_levels(alloc: Global, cells: &mut Vec<Cell>, levels: Vec<u64>) -> Result<(), AllocError> {
    add_cell(cells, Cell::Text(runs_text(alloc, levels.as_slice())?))?;
    add_cell(cells, Cell::Numbers(levels))?;
    Ok(())
}

// What a request comes to: why it is denied, or the word of its verdict.
fn outcome_text(alloc: Global, verdict: &Option<Verdict>) -> Result<String, AllocError> {
    match verdict {
        Some(Verdict::Denied(_)) => denial_text(alloc, verdict),
        _ => String::from_str(alloc, verdict_word(verdict)),
    }
}

// The levels that hops offer and give.
fn levels_of(alloc: Global, hops: &[HopRow]) -> Result<(Vec<u64>, Vec<u64>), AllocError> {
    let mut offers = Vec::new(alloc);
    let mut gets = Vec::new(alloc);
    for hop in hops {
        if let Some(offer) = &hop.offer {
            offers.push(u64::from(offer.level.get()))?;
        }
        if let Some(level) = &hop.gets {
            gets.push(u64::from(level.get()))?;
        }
    }
    Ok((offers, gets))
}

// Adds ticks, and how long they are.
fn push_both(
    alloc: Global,
    cells: &mut Vec<Cell>,
    ticks: Option<u64>,
    tick: Option<Time>,
) -> Result<(), AllocError> {
    add_cell(cells, Cell::number(ticks))?;
    if let Some(tick) = tick {
        add_cell(cells, time_cell(alloc, ticks, tick)?)?;
    }
    Ok(())
}

// What is left of the delay that is wanted.
fn spare_of(wanted: Option<u64>, promised: Option<u64>) -> Option<u64> {
    wanted?.checked_sub(promised?)
}

/// The delay that a request wants.
pub(crate) fn wanted_of(network: &Network, number: usize) -> Option<u64> {
    let entry = network.plan.requests().get(number)?;
    Some(entry.request.delay)
}

/// The delay that is promised.
pub(crate) fn promised_of(verdict: &Option<Verdict>) -> Option<u64> {
    match verdict {
        Some(Verdict::Accepted { delay, .. }) => Some(*delay),
        _ => None,
    }
}

/// The least delay, where there is one.
pub(crate) fn delay_in(least: &Least) -> Option<u64> {
    match least {
        Least::Delay(delay) => Some(*delay),
        Least::Refused(_) => None,
    }
}

/// The least jitter, where there is one.
pub(crate) fn jitter_in(least: &LeastJitter) -> Option<u64> {
    match least {
        LeastJitter::Jitter(jitter) => Some(*jitter),
        LeastJitter::Refused(_) => None,
    }
}
