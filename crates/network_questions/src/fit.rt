//! How many more like some requests there is room for.
ghost use Rattle.std.specs.Prelude.{◌≡◌, true, Some, IfOk};
ghost use Rattle.std.specs.List.{slice_get};
ghost use Rattle.answer_grids.specs.declared.grid.Cell.TheVariants.{Number};
ghost use Rattle.network_questions.specs.Asked.{IsFrontOf, IsRoomIn, IsRoomScheduled, ShowsCount, ShowsRoom};
ghost use Rattle.setup_points.specs.Rooms.{IsRoomAfter};

use crate::denials::denial_text;
use crate::parts::{add_cell, add_column, add_line, link_name};
use crate::trouble::Trouble;
use answer_grids::{Answer, Cell, Column, Grid};
use answer_tables::{NextTogether, RoomTogether, room_together};
use call_script::{Do, Plan};
use net_units::{LinkNo, OutOfMemory};
use network_files::Network;
use setup_points::{ScheduledRun, items_until, room_after};
use setup_protocol::Verdict;
use std::alloc::{AllocError, Global};

/// The room for more like the requests of these numbers: after all requests of the network or, where it has a schedule, once the setups of
/// these have ended there.
pub fn fit_of(alloc: Global, network: &Network, numbers: &[usize]) -> Result<Answer, Trouble>
    ensures { IfOk result (ShowsRoom network.now numbers.now) }
{
    let room = room_in(alloc, network, numbers)?;
    let shown = answer_of(alloc, &network.plan, &room, numbers)?;
    Ok(shown)
}

// The room, as a number and why there is no more.
fn room_in(alloc: Global, network: &Network, numbers: &[usize]) -> Result<RoomTogether, Trouble>
    ensures { IfOk result (IsRoomIn network.now numbers.now) }
{
    if network.schedule.written {
        room_scheduled(alloc, network, numbers)
    } else {
        Ok(room_together(alloc, &network.plan, numbers)?)
    }
}

// The same once the setups of these have ended in the schedule's run.
fn room_scheduled(
    alloc: Global,
    network: &Network,
    numbers: &[usize],
) -> Result<RoomTogether, Trouble>
    requires written { network.now.schedule.written ≡ true }
    ensures { IfOk result (IsRoomScheduled network.now numbers.now) }
{
    let played = ScheduledRun::play(alloc, &network.plan, &network.schedule)?;
    let front = front_of(alloc, network, &played, numbers)?;
    let room = room_behind(alloc, &network.plan, &front, numbers)?;
    Ok(room)
}

// The schedule up to where the setups of these have ended in its run.
fn front_of(
    alloc: Global,
    network: &Network,
    run: &ScheduledRun,
    numbers: &[usize],
) -> Result<Vec<Do>, OutOfMemory>
    ensures { IfOk result (λ front. IsFrontOf network.now run.now numbers.now front.items) }
{
    let steps = run.end_of_all(&network.plan, numbers);
    items_until(alloc, network.schedule.items.as_slice(), steps)
}

// The room behind these items.
fn room_behind(
    alloc: Global,
    plan: &Plan,
    front: &Vec<Do>,
    numbers: &[usize],
) -> Result<RoomTogether, Trouble>
    ensures { IfOk result (IsRoomAfter plan.now front.now.items numbers.now) }
{
    let room = room_after(alloc, plan, front.as_slice(), numbers)?;
    Ok(room)
}

// The answer that shows it.
fn answer_of(
    alloc: Global,
    plan: &Plan,
    room: &RoomTogether,
    numbers: &[usize],
) -> Result<Answer, Trouble>
    ensures { IfOk result (λ answer. ShowsCount room.now.count answer) }
{
    let names = names_text(alloc, plan, numbers)?;
    let mut columns = Vec::new(alloc);
    add_column(&mut columns, Column::of_numbers("count", "count"))?;
    add_column(&mut columns, Column::of_words("requests", "requests"))?;
    add_column(&mut columns, Column::of_words("next", "next"))?;
    add_column(&mut columns, Column::of_words("tight", "tight"))?;
    add_column(&mut columns, Column::of_words("why", "why"))?;
    let mut lines = Vec::new(alloc);
    add_line(&mut lines, sentence(alloc, plan, room, names.as_str())?)?;
    let mut rows = Vec::new(alloc);
    rows.push(cells_of(alloc, plan, room, names.as_str())?)?;
    Ok(Answer {
        grid: Grid { columns, rows },
        shows_grid: false,
        lines,
        holds: room.count > 0,
    })
}

// The names of these requests.
fn names_text(alloc: Global, plan: &Plan, numbers: &[usize]) -> Result<String, AllocError> {
    let mut text = String::new(alloc);
    for number in numbers {
        if !text.is_empty() {
            text.push(' ')?;
        }
        text.push_str(name_at(plan, *number))?;
    }
    Ok(text)
}

// The name of a request.
fn name_at(plan: &Plan, number: usize) -> &str {
    match plan.requests().get(number) {
        Some(entry) => entry.name.as_str(),
        None => "",
    }
}

// The answer as a sentence.
fn sentence(
    alloc: Global,
    plan: &Plan,
    room: &RoomTogether,
    names: &str,
) -> Result<String, AllocError> {
    let count = room.count;
    match &room.next {
        NextTogether::Full => {
            format!(in alloc; "{count} more like {names}; a network has room for no more requests")
        }
        NextTogether::Refused {
            number,
            verdict,
            tight,
        } => {
            let why = why_text(alloc, plan, verdict, *tight)?;
            let (next, why) = (name_at(plan, *number), why.as_str());
            if names.contains(' ') {
                format!(in alloc; "{count} more like {names}; of the next, {next} is denied: {why}")
            } else {
                format!(in alloc; "{count} more like {names}; the next is denied: {why}")
            }
        }
    }
}

// Why a request is denied, with the link that is tight.
fn why_text(
    alloc: Global,
    plan: &Plan,
    verdict: &Option<Verdict>,
    tight: Option<LinkNo>,
) -> Result<String, AllocError> {
    let mut text = denial_text(alloc, verdict)?;
    if let Some(link) = tight {
        text.push_str(", link ")?;
        text.push_str(link_name(plan, link))?;
    }
    Ok(text)
}

// The answer as a row: first how many of each there is room for.
fn cells_of(
    alloc: Global,
    plan: &Plan,
    room: &RoomTogether,
    names: &str,
) -> Result<Vec<Cell>, AllocError>
    ensures { IfOk result (λ cells. slice_get cells.items 0 ≡ Some (Number room.now.count)) }
{
    let mut others = other_cells(alloc, plan, room, names)?;
    let mut cells = Vec::new(alloc);
    cells.push(Cell::Number(room.count as u64))?;
    cells.append(&mut others)?;
    Ok(cells)
}

// The cells behind that.
fn other_cells(
    alloc: Global,
    plan: &Plan,
    room: &RoomTogether,
    names: &str,
) -> Result<Vec<Cell>, AllocError> {
    let mut cells = Vec::new(alloc);
    add_cell(&mut cells, Cell::text(alloc, names)?)?;
    match &room.next {
        NextTogether::Full => {
            add_cell(&mut cells, Cell::Nothing)?;
            add_cell(&mut cells, Cell::Nothing)?;
            add_cell(&mut cells, Cell::text(alloc, "full")?)?;
        }
        NextTogether::Refused {
            number,
            verdict,
            tight,
        } => {
            let link = tight.map_or("", |link| link_name(plan, link));
            add_cell(&mut cells, Cell::text(alloc, name_at(plan, *number))?)?;
            add_cell(&mut cells, Cell::text(alloc, link)?)?;
            add_cell(&mut cells, Cell::Text(denial_text(alloc, verdict)?))?;
        }
    }
    Ok(cells)
}
