//! The table of channels.
ghost use Rattle.packet_answers.specs.Plays.{StandsAfter};

use answer_grids::{Answer, Cell, Column, Grid, time_text};
use call_script::RequestEntry;
use field_units::Time;
use network_files::Network;
use network_questions::{denial_text, link_name, time_cell, verdict_word};
use packet_answers::{ChannelRow, Played, Trouble, longest_at, play, rows_told};
use run_record::HopRow;
use std::alloc::{AllocError, Global};

// The columns that a table has only where a row has something there.
#[derive(Clone, Copy)]
struct Extras {
    // From which packet on a source breaks its contract.
    breaks: bool,
    // How many sends were refused.
    refused: bool,
    // How many packets haven't arrived.
    missing: bool,
}

/// What came of the channel of each request, in the run of the network by its schedule: what its source did, how many packets arrived,
/// the delay that it wants, that it was promised, and the worst of a packet, in ticks and, where the tick is known, as times. It is a
/// yes where every request is accepted and no packet of a source that keeps its contract is later than was promised.
pub fn channels_of(alloc: Global, network: &Network) -> Result<Answer, Trouble> {
    let played = play(alloc, &network.plan, &network.schedule)?;
    let hops = played.rows(alloc)?;
    let told = rows_told(alloc, &network.plan, &played, hops.as_slice())?;
    let extras = extras_of(told.as_slice());
    let mut rows = Vec::new(alloc);
    for (number, row) in told.iter().enumerate() {
        rows.push(cells_of(
            alloc,
            network,
            &played,
            hops.as_slice(),
            &extras,
            number,
            row,
        )?)?;
    }
    Ok(Answer {
        grid: Grid {
            columns: columns_of(alloc, network.tick, &extras)?,
            rows,
        },
        shows_grid: true,
        lines: Vec::new(alloc),
        holds: told.iter().all(is_kept),
    })
}

// Whether a request is accepted, and no packet is later than was promised as long as its source keeps its contract.
fn is_kept(row: &ChannelRow) -> bool {
    match (row.promised, row.worst) {
        (Some(promised), Some(worst)) => !row.keeps || worst <= u128::from(promised),
        (promised, _) => promised.is_some(),
    }
}

// Which of the columns have something in a row.
fn extras_of(rows: &[ChannelRow]) -> Extras {
    Extras {
        breaks: rows.iter().any(|row| row.breaks_from.is_some()),
        refused: rows.iter().any(|row| row.refused > 0),
        missing: rows.iter().any(|row| missing_in(row) > 0),
    }
}

// How many packets that were sent haven't arrived: they were dropped, or are still on their way.
fn missing_in(row: &ChannelRow) -> u64 {
    (row.sent as u64).saturating_sub(row.arrived)
}

// The columns, with times where the tick is known.
fn columns_of(
    alloc: Global,
    tick: Option<Time>,
    extras: &Extras,
) -> Result<Vec<Column>, AllocError> {
    let mut columns = Vec::new(alloc);
    columns.push(Column::of_words("request", "request"))?;
    columns.push(Column::of_words("verdict", "verdict"))?;
    columns.push(Column::of_words("source", "source"))?;
    push_if(&mut columns, extras.breaks, "breaks_from", "from packet")?;
    push_if(&mut columns, extras.refused, "refused", "refused")?;
    push_if(&mut columns, extras.missing, "missing", "missing")?;
    columns.push(Column::of_numbers("arrived", "arrived"))?;
    columns.push(Column::of_numbers("wanted", "wanted"))?;
    columns.push(Column::of_numbers("promised", "promised"))?;
    columns.push(Column::of_numbers("worst", "worst"))?;
    columns.push(Column::of_numbers("to_spare", "to spare"))?;
    columns.push(Column::of_numbers("left", "left"))?;
    let timed = tick.is_some();
    push_if(&mut columns, timed, "wanted_time", "wanted")?;
    push_if(&mut columns, timed, "promised_time", "promised")?;
    push_if(&mut columns, timed, "worst_time", "worst")?;
    push_if(&mut columns, timed, "to_spare_time", "to spare")?;
    push_if(&mut columns, timed, "left_time", "left")?;
    columns.push(Column::of_words("longest_at", "longest at"))?;
    columns.push(Column::of_words("why", "why"))?;
    Ok(columns)
}

// Adds a column of numbers where it is wanted.
fn push_if(
    columns: &mut Vec<Column>,
    wanted: bool,
    name: &'static str,
    head: &'static str,
) -> Result<(), AllocError> {
    if wanted {
        columns.push(Column::of_numbers(name, head))?;
    }
    Ok(())
}

// The cells of the request of this number.
fn cells_of(
    alloc: Global,
    network: &Network,
    played: &Played,
    hops: &[HopRow],
    extras: &Extras,
    number: usize,
    row: &ChannelRow,
) -> Result<Vec<Cell>, AllocError>
    requires { StandsAfter network.now.plan played.now }
{
    let Some(entry) = network.plan.requests().get(number) else {
        return Ok(Vec::new(alloc));
    };
    let verdict = played.callers.verdict(&network.plan, number);
    let mut cells = Vec::new(alloc);
    cells.push(Cell::text(alloc, entry.name.as_str())?)?;
    cells.push(Cell::text(alloc, verdict_word(&verdict))?)?;
    push_source(alloc, &mut cells, extras, row)?;
    push_delays(alloc, &mut cells, network.tick, entry.request.delay, row)?;
    let slowest = slowest_of(network, entry, hops, row);
    cells.push(Cell::text(alloc, slowest)?)?;
    cells.push(Cell::Text(denial_text(alloc, &verdict)?))?;
    Ok(cells)
}

// Adds what a source did.
fn push_source(
    alloc: Global,
    cells: &mut Vec<Cell>,
    extras: &Extras,
    row: &ChannelRow,
) -> Result<(), AllocError> {
    cells.push(Cell::text(alloc, source_word(row))?)?;
    if extras.breaks {
        cells.push(Cell::number(row.breaks_from))?;
    }
    if extras.refused {
        cells.push(Cell::Number(row.refused))?;
    }
    if extras.missing {
        cells.push(Cell::Number(missing_in(row)))?;
    }
    Ok(())
}

// The word for what a source did. One that isn't accepted may not send.
fn source_word(row: &ChannelRow) -> &'static str {
    if row.promised.is_none() {
        ""
    } else if row.sent == 0 {
        "none"
    } else if row.keeps {
        "keeps"
    } else {
        "breaks"
    }
}

// Adds the packets that arrived and the delays, in ticks and as times.
fn push_delays(
    alloc: Global,
    cells: &mut Vec<Cell>,
    tick: Option<Time>,
    wanted: u64,
    row: &ChannelRow,
) -> Result<(), AllocError> {
    let wanted = Some(wanted);
    let promised = row.promised;
    let worst = worst_of(row);
    let arrived = promised.map(|_| row.arrived);
    cells.push(Cell::number(arrived))?;
    cells.push(Cell::number(wanted))?;
    cells.push(Cell::number(promised))?;
    cells.push(Cell::number(worst))?;
    cells.push(less_cell(alloc, wanted, promised, None)?)?;
    cells.push(less_cell(alloc, promised, worst, None)?)?;
    if let Some(tick) = tick {
        cells.push(time_cell(alloc, wanted, tick)?)?;
        cells.push(time_cell(alloc, promised, tick)?)?;
        cells.push(time_cell(alloc, worst, tick)?)?;
        cells.push(less_cell(alloc, wanted, promised, Some(tick))?)?;
        cells.push(less_cell(alloc, promised, worst, Some(tick))?)?;
    }
    Ok(())
}

// The worst delay, as a number that fits.
fn worst_of(row: &ChannelRow) -> Option<u64> {
    match row.worst {
        Some(worst) => Some(u64::try_from(worst).unwrap_or(u64::MAX)),
        None => None,
    }
}

// One number less another, where there are both: of ticks, or as a time where the tick is given.
fn less_cell(
    alloc: Global,
    number: Option<u64>,
    other: Option<u64>,
    tick: Option<Time>,
) -> Result<Cell, AllocError> {
    let (Some(number), Some(other)) = (number, other) else {
        return Ok(Cell::Nothing);
    };
    let apart = number.abs_diff(other);
    let sign = if number < other { "-" } else { "" };
    match tick {
        Some(tick) => {
            let time = time_text(alloc, apart, tick)?;
            let time = time.as_str();
            Ok(Cell::Text(format!(in alloc; "{sign}{time}")?))
        }
        None if number < other => Ok(Cell::Text(format!(in alloc; "-{apart}")?)),
        None => Ok(Cell::Number(apart)),
    }
}

// The name of the link at which the packet with the worst delay stood longest.
fn slowest_of<'a>(
    network: &'a Network,
    entry: &RequestEntry,
    hops: &[HopRow],
    row: &ChannelRow,
) -> &'a str {
    let Some(worst) = row.worst else {
        return "";
    };
    match longest_at(&entry.request, hops, worst) {
        Some(link) => link_name(&network.plan, link),
        None => "",
    }
}
