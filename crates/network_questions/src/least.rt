//! With what delay and what jitter a request would be accepted.
ghost use Rattle.std.specs.Prelude.{IfOk};
ghost use Rattle.network_questions.specs.Asked.{AnswersOf};

use crate::asking::{Asking, Point, asking_of, point_of, row_of};
use crate::denials::denial_text;
use crate::once_more::Loose;
use crate::parts::{add_cell, add_column, add_line, link_name, time_cell};
use crate::table::{delay_in, jitter_in, wanted_of};
use crate::trouble::Trouble;
use answer_grids::{Answer, Cell, Column, Grid, ticks_text};
use answer_tables::{LeastJitter, Range, RequestRow};
use net_units::limits::MOST_DELAY;
use network_files::Network;
use plan_answers::is_acceptance;
use relaxation::EndDenial;
use setup_protocol::{Control, Deny, Verdict};
use std::alloc::{AllocError, Global};

/// The answer for the request of a number, where it is asked.
pub fn least_of(alloc: Global, network: &Network, number: usize) -> Result<Answer, Trouble>
    ensures { IfOk result (AnswersOf network.now number) }
{
    let asking = asking_of(alloc, network)?;
    let row = row_of(alloc, network, &asking, number)?;
    let lines = lines_of(alloc, network, &asking, &row)?;
    Ok(Answer {
        grid: grid_of(alloc, network, &row)?,
        shows_grid: false,
        lines,
        holds: is_acceptance(&row.verdict),
    })
}

// The sentences.
fn lines_of(
    alloc: Global,
    network: &Network,
    asking: &Asking,
    row: &RequestRow,
) -> Result<Vec<String>, Trouble> {
    let point = point_of(network, asking, row.number);
    if let Point::Never = point {
        let mut lines = Vec::new(alloc);
        add_line(&mut lines, String::from_str(alloc, NEVER)?)?;
        add_line(&mut lines, wanted_line(alloc, network, row.number)?)?;
        return Ok(lines);
    }
    let mut lines = delay_lines(alloc, network, point, row.number)?;
    add_lines(alloc, network, row, &mut lines)?;
    Ok(lines)
}

// Of a request that isn't asked.
const NEVER: &str = "its setup never begins in the schedule";

// The sentences of the delays with which it is accepted, whatever its jitter.
fn delay_lines(
    alloc: Global,
    network: &Network,
    point: Point,
    number: usize,
) -> Result<Vec<String>, Trouble> {
    let loose = Loose::of(alloc, network, point, number)?;
    let mut lines = Vec::new(alloc);
    let ranges = loose.ranges(alloc, network)?;
    match ranges.first() {
        Some(range) => add_line(&mut lines, first_line(alloc, network, range)?)?,
        None => add_line(&mut lines, denied_line(alloc, network, &loose)?)?,
    }
    if ranges.len() == 1 {
        add_longest(alloc, network, &loose, &ranges[0], &mut lines)?;
    } else {
        for range in &ranges {
            add_line(&mut lines, range_line(alloc, network, &loose, range)?)?;
        }
    }
    Ok(lines)
}

// The least delay.
fn first_line(alloc: Global, network: &Network, range: &Range) -> Result<String, AllocError> {
    let ticks = ticks_text(alloc, range.first, network.tick)?;
    joined(alloc, "least delay ", ticks.as_str())
}

// It is denied, whatever delay it asks for. Where the links offer something, the delay that they offer says why.
fn denied_line(alloc: Global, network: &Network, loose: &Loose) -> Result<String, Trouble> {
    let with_least = loose.verdict(alloc, network, 1)?;
    let Some(Verdict::Denied(Deny::End(EndDenial::Delay { sum, .. }))) = &with_least else {
        let why = denial_text(alloc, &with_least)?;
        return Ok(joined(alloc, "denied with any delay: ", why.as_str())?);
    };
    let sum = *sum;
    let why = denial_text(alloc, &loose.verdict(alloc, network, sum)?)?;
    let ticks = ticks_text(alloc, sum, network.tick)?;
    let (ticks, why) = (ticks.as_str(), why.as_str());
    Ok(format!(in alloc;
        "denied with any delay: the links offer {ticks}, and with that delay or a longer one it is denied: {why}"
    )?)
}

// The longest delay, where a longer one is denied.
fn add_longest(
    alloc: Global,
    network: &Network,
    loose: &Loose,
    range: &Range,
    lines: &mut Vec<String>,
) -> Result<(), Trouble> {
    if range.last >= MOST_DELAY {
        return Ok(());
    }
    let ticks = ticks_text(alloc, range.last, network.tick)?;
    let why = denial_text(alloc, &loose.verdict(alloc, network, range.last + 1)?)?;
    let (ticks, why) = (ticks.as_str(), why.as_str());
    let line = format!(in alloc; "longest delay {ticks}; a longer one is denied: {why}")?;
    add_line(lines, line)?;
    Ok(())
}

// The delays of one of several ranges.
fn range_line(
    alloc: Global,
    network: &Network,
    loose: &Loose,
    range: &Range,
) -> Result<String, Trouble> {
    let first = ticks_text(alloc, range.first, network.tick)?;
    let first = first.as_str();
    if range.last >= MOST_DELAY {
        return Ok(format!(in alloc; "accepted with {first} or more")?);
    }
    let last = ticks_text(alloc, range.last, network.tick)?;
    let why = denial_text(alloc, &loose.verdict(alloc, network, range.last + 1)?)?;
    let (last, why) = (last.as_str(), why.as_str());
    Ok(format!(in alloc; "accepted with {first} to {last}; a tick more is denied: {why}")?)
}

// The other sentences.
fn add_lines(
    alloc: Global,
    network: &Network,
    row: &RequestRow,
    lines: &mut Vec<String>,
) -> Result<(), AllocError> {
    match &row.jitter {
        LeastJitter::Jitter(jitter) => {
            let ticks = ticks_text(alloc, *jitter, network.tick)?;
            add_line(lines, joined(alloc, "least jitter ", ticks.as_str())?)?;
        }
        LeastJitter::Refused(verdict) => {
            let why = denial_text(alloc, verdict)?;
            add_line(
                lines,
                joined(alloc, "denied with any jitter: ", why.as_str())?,
            )?;
        }
    }
    add_line(lines, wanted_line(alloc, network, row.number)?)?;
    if !is_acceptance(&row.verdict) {
        let why = denial_text(alloc, &row.verdict)?;
        add_line(lines, joined(alloc, "denied as it stands: ", why.as_str())?)?;
    }
    if let Some(link) = row.tight_link() {
        add_line(
            lines,
            joined(alloc, "tight link ", link_name(&network.plan, link))?,
        )?;
    }
    Ok(())
}

// Two texts, one after the other.
pub(crate) fn joined(alloc: Global, front: &str, back: &str) -> Result<String, AllocError> {
    let mut text = String::from_str(alloc, front)?;
    text.push_str(back)?;
    Ok(text)
}

// What it wants.
fn wanted_line(alloc: Global, network: &Network, number: usize) -> Result<String, AllocError> {
    let wanted = wanted_of(network, number).unwrap_or(0);
    let delay = ticks_text(alloc, wanted, network.tick)?;
    let mut text = joined(alloc, "wanted delay ", delay.as_str())?;
    if let Some(jitter) = wanted_jitter(network, number) {
        let jitter = ticks_text(alloc, jitter, network.tick)?;
        text.push_str(", jitter ")?;
        text.push_str(jitter.as_str())?;
    }
    Ok(text)
}

// The jitter that a request wants.
fn wanted_jitter(network: &Network, number: usize) -> Option<u64> {
    let entry = network.plan.requests().get(number)?;
    match entry.request.control {
        Control::Jitter(jitter) => Some(jitter),
        Control::Rate => None,
    }
}

// The same as a table.
fn grid_of(alloc: Global, network: &Network, row: &RequestRow) -> Result<Grid, AllocError> {
    let mut columns = Vec::new(alloc);
    let mut cells = Vec::new(alloc);
    add_column(
        &mut columns,
        Column::of_numbers("least_delay", "least delay"),
    )?;
    add_cell(&mut cells, Cell::number(delay_in(&row.least)))?;
    add_column(
        &mut columns,
        Column::of_numbers("least_jitter", "least jitter"),
    )?;
    add_cell(&mut cells, Cell::number(jitter_in(&row.jitter)))?;
    add_column(
        &mut columns,
        Column::of_numbers("wanted_delay", "wanted delay"),
    )?;
    add_cell(&mut cells, Cell::number(wanted_of(network, row.number)))?;
    add_column(
        &mut columns,
        Column::of_numbers("wanted_jitter", "wanted jitter"),
    )?;
    add_cell(&mut cells, Cell::number(wanted_jitter(network, row.number)))?;
    if let Some(tick) = network.tick {
        add_column(&mut columns, Column::of_words("least_delay_time", ""))?;
        add_cell(&mut cells, time_cell(alloc, delay_in(&row.least), tick)?)?;
        add_column(&mut columns, Column::of_words("least_jitter_time", ""))?;
        add_cell(&mut cells, time_cell(alloc, jitter_in(&row.jitter), tick)?)?;
    }
    add_column(&mut columns, Column::of_words("tight", "tight"))?;
    let link = row
        .tight_link()
        .map_or("", |link| link_name(&network.plan, link));
    add_cell(&mut cells, Cell::text(alloc, link)?)?;
    let mut rows = Vec::new(alloc);
    rows.push(cells)?;
    Ok(Grid { columns, rows })
}
