//! How full each link is, and each group's share of a link that is split.
ghost use Rattle.plan_answers.specs.Trials.{IsTrial};

use crate::crossings::{crossings_of, share_of_group, share_of_link};
use crate::least::joined;
use crate::parts::{
    add_cell, add_column, link_name, pair_text, percent_cell, push_pair, time_cell,
};
use crate::trouble::Trouble;
use answer_grids::{Answer, Cell, Column, Grid};
use call_script::Plan;
use field_units::Time;
use link_fill::{Fill, LevelFill, fill_of};
use net_units::LinkNo;
use net_units::limits::MOST_LINKS;
use network_files::Network;
use plan_answers::Trial;
use question_plans::{Change, requests_alone};
use std::alloc::{AllocError, Global};

// The most groups of a plan.
const MOST_GROUPS: u8 = 4;

/// The answer: a row for each link, and behind that of a link that is split one for each group with a share of it.
pub fn links_of(alloc: Global, network: &Network) -> Result<Answer, Trouble> {
    let trial = Trial::play(
        alloc,
        requests_alone(alloc, &network.plan, &Change::Nothing)?,
    )?;
    let mut rows = Vec::new(alloc);
    let mut holds = true;
    for number in 0..MOST_LINKS {
        if let Some(link) = LinkNo::new(number) {
            holds = push_link(alloc, &mut rows, &trial, link, network.tick)? && holds;
        }
    }
    Ok(Answer {
        grid: Grid {
            columns: columns_of(alloc, network.tick)?,
            rows,
        },
        shows_grid: true,
        lines: Vec::new(alloc),
        holds,
    })
}

// Adds the rows of a link, and answers whether all requests over it are accepted.
fn push_link(
    alloc: Global,
    rows: &mut Vec<Vec<Cell>>,
    trial: &Trial,
    link: LinkNo,
    tick: Option<Time>,
) -> Result<bool, Trouble>
    requires trial { IsTrial trial.now }
{
    let Some(share) = share_of_link(&trial.plan, link) else {
        return Ok(true);
    };
    let crossings = crossings_of(alloc, trial, link, None)?;
    let fill = fill_of(alloc, &share, crossings.as_slice())?;
    rows.push(cells_of(alloc, link_name(&trial.plan, link), "", &fill, tick)?)?;
    for group in 1..=MOST_GROUPS {
        push_group(alloc, rows, trial, link, group, tick)?;
    }
    Ok(fill.accepted == fill.asked)
}

// Adds the row of a group, where it has a share of the link.
fn push_group(
    alloc: Global,
    rows: &mut Vec<Vec<Cell>>,
    trial: &Trial,
    link: LinkNo,
    group: u8,
    tick: Option<Time>,
) -> Result<(), Trouble>
    requires trial { IsTrial trial.now }
{
    if let Some(share) = share_of_group(&trial.plan, link, group) {
        let crossings = crossings_of(alloc, trial, link, Some(group))?;
        let fill = fill_of(alloc, &share, crossings.as_slice())?;
        let name = group_name(&trial.plan, group);
        rows.push(cells_of(alloc, link_name(&trial.plan, link), name, &fill, tick)?)?;
    }
    Ok(())
}

// The name of a group, by its number from 1.
fn group_name(plan: &Plan, group: u8) -> &str {
    match usize::from(group).checked_sub(1) {
        Some(place) => match plan.groups().get(place) {
            Some(name) => name.as_str(),
            None => "",
        },
        None => "",
    }
}

// The columns.
fn columns_of(alloc: Global, tick: Option<Time>) -> Result<Vec<Column>, AllocError> {
    let mut columns = Vec::new(alloc);
    add_column(&mut columns, Column::of_words("", "link").in_text())?;
    add_column(&mut columns, Column::of_words("link", "").in_data())?;
    add_column(&mut columns, Column::of_words("group", "").in_data())?;
    push_counts(&mut columns)?;
    add_column(
        &mut columns,
        Column::of_numbers("long_run_percent", "long run %"),
    )?;
    add_column(
        &mut columns,
        Column::of_numbers("long_run_percent_asked", "asked %"),
    )?;
    push_bounds(&mut columns, tick)?;
    push_buffer(&mut columns)?;
    add_column(
        &mut columns,
        Column::of_words("", "work at each level").in_text(),
    )?;
    add_column(&mut columns, Column::of_words("work", "").in_data())?;
    add_column(&mut columns, Column::of_words("bounds", "").in_data())?;
    add_column(&mut columns, Column::of_words("room", "room"))?;
    Ok(columns)
}

// Adds the columns of the counts.
fn push_counts(columns: &mut Vec<Column>) -> Result<(), AllocError> {
    add_column(columns, Column::of_numbers("", "accepted").in_text())?;
    add_column(columns, Column::of_numbers("accepted", "").in_data())?;
    add_column(columns, Column::of_numbers("asked", "").in_data())?;
    Ok(())
}

// Adds the columns of the buffer.
fn push_buffer(columns: &mut Vec<Column>) -> Result<(), AllocError> {
    add_column(columns, Column::of_numbers("", "buffer free").in_text())?;
    add_column(columns, Column::of_numbers("buffer_free", "").in_data())?;
    add_column(columns, Column::of_numbers("buffer", "").in_data())?;
    Ok(())
}

// Adds the columns of the least bounds.
fn push_bounds(columns: &mut Vec<Column>, tick: Option<Time>) -> Result<(), AllocError> {
    add_column(columns, Column::of_numbers("least_bound", "least"))?;
    if tick.is_some() {
        add_column(columns, Column::of_numbers("least_bound_time", ""))?;
    }
    add_column(
        columns,
        Column::of_numbers("least_bound_asked", "for asked"),
    )?;
    if tick.is_some() {
        add_column(columns, Column::of_numbers("least_bound_asked_time", ""))?;
    }
    Ok(())
}

// The cells of a row.
fn cells_of(
    alloc: Global,
    link: &str,
    group: &str,
    fill: &Fill,
    tick: Option<Time>,
) -> Result<Vec<Cell>, AllocError> {
    let mut cells = Vec::new(alloc);
    push_names(alloc, &mut cells, link, group)?;
    push_pair(alloc, &mut cells, fill.accepted as u64, fill.asked as u64)?;
    add_cell(&mut cells, percent_cell(alloc, fill.long_run)?)?;
    add_cell(&mut cells, percent_cell(alloc, fill.long_run_asked)?)?;
    push_ticks(alloc, &mut cells, fill.least, tick)?;
    push_ticks(alloc, &mut cells, fill.least_asked, tick)?;
    let free = fill.buffer.saturating_sub(fill.kept);
    push_pair(alloc, &mut cells, free, fill.buffer)?;
    push_levels(alloc, &mut cells, fill.levels.as_slice())?;
    Ok(cells)
}

// Adds the names: in text that of a group stands below its link's.
fn push_names(
    alloc: Global,
    cells: &mut Vec<Cell>,
    link: &str,
    group: &str,
) -> Result<(), AllocError> {
    if group.is_empty() {
        add_cell(cells, Cell::text(alloc, link)?)?;
    } else {
        add_cell(cells, Cell::Text(joined(alloc, "  ", group)?))?;
    }
    add_cell(cells, Cell::text(alloc, link)?)?;
    add_cell(cells, Cell::text(alloc, group)?)?;
    Ok(())
}

// Adds ticks, and how long they are; `none` where there are none that will do.
fn push_ticks(
    alloc: Global,
    cells: &mut Vec<Cell>,
    ticks: Option<u64>,
    tick: Option<Time>,
) -> Result<(), AllocError> {
    match ticks {
        Some(ticks) => add_cell(cells, Cell::Number(ticks))?,
        None => add_cell(cells, Cell::text(alloc, "none")?)?,
    }
    if let Some(tick) = tick {
        add_cell(cells, time_cell(alloc, ticks, tick)?)?;
    }
    Ok(())
}

// Adds the levels.
fn push_levels(
    alloc: Global,
    cells: &mut Vec<Cell>,
    levels: &[LevelFill],
) -> Result<(), AllocError> {
    let mut text = String::new(alloc);
    let mut work = Vec::new(alloc);
    let mut bounds = Vec::new(alloc);
    let mut room = Vec::new(alloc);
    for level in levels {
        push_level(alloc, &mut text, level)?;
        work.push(level.work)?;
        bounds.push(level.bound)?;
        if let Some(count) = level.room {
            room.push(count as u64)?;
        }
    }
    add_cell(cells, Cell::Text(text))?;
    add_cell(cells, Cell::Numbers(work))?;
    add_cell(cells, Cell::Numbers(bounds))?;
    add_cell(cells, Cell::Numbers(room))?;
    Ok(())
}

// Adds the work of a level beside its bound.
fn push_level(alloc: Global, text: &mut String, level: &LevelFill) -> Result<(), AllocError> {
    if !text.is_empty() {
        text.push_str("  ")?;
    }
    let pair = pair_text(alloc, level.work, level.bound)?;
    text.push_str(pair.as_str())
}
