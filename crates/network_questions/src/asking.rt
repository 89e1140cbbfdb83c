//! Where the requests of a network are asked: among its requests alone or, where it has a schedule, where their own setups begin in its run.
ghost use Rattle.std.specs.Prelude.{◌<◌, IfOk, length};
ghost use Rattle.plan_answers.specs.Trials.{IsTrial};
ghost use Rattle.answer_tables.specs.Rows.{IsRow};
ghost use Rattle.network_questions.specs.Asked.{AreRowsOf, AskingStands, IsRowOf};

use crate::trouble::Trouble;
use answer_tables::{RequestRow, request_row};
use call_script::Plan;
use network_files::Network;
use plan_answers::Trial;
use question_plans::{Change, requests_alone};
use setup_points::{ScheduledRun, row_at};
use std::alloc::Global;

/// The requests of a network, which were asked.
#[derive(Drop)]
pub enum Asking {
    /// Among its requests alone.
    Alone(Trial),
    /// In the run of its schedule.
    Scheduled(ScheduledRun),
}

/// Where a request is asked once more.
#[derive(Clone, Copy)]
pub(crate) enum Point {
    /// In its place among the requests alone.
    Alone,
    /// After so many steps of the schedule.
    After(usize),
    /// Its setup never begins in the schedule.
    Never,
}

/// Asks the requests of a network.
pub fn asking_of(alloc: Global, network: &Network) -> Result<Asking, Trouble>
    ensures { IfOk result (AskingStands network.now) }
{
    let plan = &network.plan;
    if network.schedule.written {
        let run = ScheduledRun::play(alloc, plan, &network.schedule)?;
        return Ok(Asking::Scheduled(run));
    }
    let trial = Trial::play(alloc, requests_alone(alloc, plan, &Change::Nothing)?)?;
    Ok(Asking::Alone(trial))
}

/// The rows of all requests, in their order.
pub fn rows_of(
    alloc: Global,
    network: &Network,
    asking: &Asking,
) -> Result<Vec<RequestRow>, Trouble>
    requires stands { AskingStands network.now asking.now }
    ensures { IfOk result (λ rows. AreRowsOf network.now asking.now rows.items) }
{
    let mut rows = Vec::new(alloc);
    for number in 0..network.plan.requests().len() {
        rows.push(row_of(alloc, network, asking, number)?)?;
    }
    Ok(rows)
}

/// The row of the request of a number. `Rule` tells 7 where there is no such request.
pub fn row_of(
    alloc: Global,
    network: &Network,
    asking: &Asking,
    number: usize,
) -> Result<RequestRow, Trouble>
    requires stands { AskingStands network.now asking.now }
    ensures { IfOk result (IsRowOf network.now asking.now number) }
{
    let plan = &network.plan;
    if number >= plan.requests().len() {
        return Err(Trouble::Rule(7));
    }
    match asking {
        Asking::Alone(trial) => row_alone(alloc, plan, trial, number),
        Asking::Scheduled(run) => {
            let items = network.schedule.items.as_slice();
            Ok(row_at(alloc, plan, items, run, number)?)
        }
    }
}

// The same, among the requests alone.
fn row_alone(
    alloc: Global,
    plan: &Plan,
    trial: &Trial,
    number: usize,
) -> Result<RequestRow, Trouble>
    requires trial { IsTrial trial.now }
    requires inside { number < length plan.now.requests }
    ensures { IfOk result (IsRow plan.now trial.now number) }
{
    if number >= trial.plan.requests().len() {
        return Err(Trouble::Rule(7));
    }
    Ok(request_row(alloc, plan, trial, number)?)
}

/// Where the request of a number is asked once more.
pub(crate) fn point_of(network: &Network, asking: &Asking, number: usize) -> Point {
    match asking {
        Asking::Alone(_) => Point::Alone,
        Asking::Scheduled(run) => {
            if number >= network.plan.requests().len() {
                return Point::Never;
            }
            match run.start_of(&network.plan, number) {
                Some(start) => Point::After(start),
                None => Point::Never,
            }
        }
    }
}
