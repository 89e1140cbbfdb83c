//! What one variant comes to.
ghost use Rattle.std.specs.Prelude.{◌≡◌, IfOk, map, option_map};
ghost use Rattle.plan_answers.specs.Trials.{IsTrial, run_in};
ghost use Rattle.scenario_reader.specs.Reading.{reading};
ghost use Rattle.scenario_reader.specs.declared.reader.TheConstants.{MOST_BYTES};
ghost use Rattle.setup_protocol.specs.State.{outcome_of};
ghost use Rattle.variant_answers.specs.Outcomes.{ComesTo, IsJudged, IsJudgedBy, IsOutcome, IsRefusedAt, promised_by, promised_in};

use crate::tight::tight_of;
use crate::trouble::Trouble;
use answer_tables::request_row;
use byte_ends::SureSource;
use call_script::{LinkEntry, Plan, RequestEntry};
use net_units::{LinkNo, Name};
use network_files::{BadNetwork, read_network};
use network_variants::Form;
use plan_answers::{Least, Trial};
use question_plans::{Change, requests_alone};
use scenario_reader::{Cause, ReadRefusal, read_plan};
use setup_protocol::Verdict;
use std::alloc::{AllocError, Global};

/// What the requests of a network come to, in the order of their lines.
#[derive(Drop)]
pub struct Judged {
    /// Their names.
    pub names: Vec<Name>,
    /// The delay that each is promised, in ticks: None where it isn't accepted.
    pub promised: Vec<Option<u64>>,
    /// With what delay each would be accepted, in ticks, whatever its jitter; empty where that isn't asked.
    pub least: Vec<Option<u64>>,
    /// The links that are tight for those that are denied, each once, in the order of these requests.
    pub tight: Vec<Name>,
}

/// What a variant comes to.
#[derive(Drop)]
pub enum Outcome {
    /// Its requests are judged.
    Judged(Judged),
    /// It describes no network.
    Refused {
        /// The first line that is refused, from 1.
        line: u64,
        /// Why.
        cause: String,
    },
}

/// What is asked of each variant.
#[derive(Clone, Copy, Debug, PartialEq, Eq)]
pub struct Wanted {
    /// What its text is.
    pub form: Form,
    /// Whether the least delays are asked for, too.
    pub least: bool,
}

/// What the text of a network comes to.
pub fn outcome_of(alloc: Global, wanted: Wanted, bytes: &[u8]) -> Result<Outcome, Trouble>
    ensures { IfOk result (IsOutcome wanted bytes.now) }
{
    match wanted.form {
        Form::Scenario => of_scenario(alloc, wanted.least, bytes),
        Form::Design => of_design(alloc, wanted.least, bytes),
    }
}

// What a scenario comes to.
fn of_scenario(alloc: Global, with_least: bool, bytes: &[u8]) -> Result<Outcome, Trouble>
    ensures { IfOk result (ComesTo (reading MOST_BYTES bytes.now)) }
{
    let mut source = SureSource::new(Vec::from_slice(alloc, bytes)?, 65_536);
    match read_plan(alloc, &mut source) {
        Ok(read) => of_plan(alloc, with_least, &read.0),
        Err(ReadRefusal::Refused { line, cause }) => refused_line(alloc, line, cause),
        Err(ReadRefusal::TooLong { .. }) => whole_refused(alloc, "too long"),
        Err(ReadRefusal::Memory | ReadRefusal::ReadFault) => Err(Trouble::Memory),
    }
}

// What a plan comes to.
fn of_plan(alloc: Global, with_least: bool, plan: &Plan) -> Result<Outcome, Trouble>
    ensures { IfOk result (IsJudgedBy plan.now) }
{
    let judged = judged_of(alloc, with_least, plan)?;
    Ok(Outcome::Judged(judged))
}

// A line is refused for this cause.
fn refused_line(alloc: Global, line: u64, cause: Cause) -> Result<Outcome, Trouble>
    ensures { IfOk result (IsRefusedAt line) }
{
    let cause = format!(in alloc; "{cause}")?;
    Ok(Outcome::Refused { line, cause })
}

// The file is refused as a whole.
fn whole_refused(alloc: Global, cause: &str) -> Result<Outcome, Trouble>
    ensures { IfOk result (IsRefusedAt 1) }
{
    Ok(Outcome::Refused {
        line: 1,
        cause: String::from_str(alloc, cause)?,
    })
}

// What a design comes to.
fn of_design(alloc: Global, with_least: bool, bytes: &[u8]) -> Result<Outcome, Trouble> {
    match read_network(alloc, "design", bytes) {
        Ok(network) => of_plan(alloc, with_least, &network.plan),
        Err(bad) => refused_design(alloc, &bad),
    }
}

// Why a design is refused: its first mistake.
fn refused_design(alloc: Global, bad: &BadNetwork) -> Result<Outcome, Trouble> {
    match bad {
        BadNetwork::Memory => Err(Trouble::Memory),
        BadNetwork::TooLong => whole_refused(alloc, "too long"),
        BadNetwork::NotText => whole_refused(alloc, "not UTF-8"),
        BadNetwork::NoScale => whole_refused(alloc, "no tick and unit were found"),
        BadNetwork::Line { line, cause } => refused_line(alloc, *line, *cause),
        BadNetwork::Mistakes(list) => match list.first() {
            Some(mistake) => {
                let text = format!(in alloc; "{mistake}")?;
                let cause = match text.as_str().split_once(": ") {
                    Some((_, rest)) => String::from_str(alloc, rest)?,
                    None => text,
                };
                Ok(Outcome::Refused {
                    line: mistake.line,
                    cause,
                })
            }
            None => whole_refused(alloc, "not a design"),
        },
    }
}

/// What the requests of a plan come to among themselves.
pub(crate) fn judged_of(alloc: Global, with_least: bool, plan: &Plan) -> Result<Judged, Trouble>
    ensures { IfOk result (IsJudged plan.now) }
{
    let trial = Trial::play(alloc, requests_alone(alloc, plan, &Change::Nothing)?)?;
    let names = names_of(alloc, trial.plan.requests())?;
    let promised = promised_in(alloc, &trial)?;
    let tight = tight_in(alloc, &trial)?;
    let least = least_if(alloc, with_least, plan, &trial)?;
    Ok(Judged {
        names,
        promised,
        least,
        tight,
    })
}

// The names of these requests.
fn names_of(alloc: Global, entries: &[RequestEntry]) -> Result<Vec<Name>, AllocError>
    ensures { IfOk result (λ names. names.items ≡ map (λ entry. entry.name) entries.now) }
{
    let mut names = Vec::new(alloc);
    for entry in entries {
        names.push(entry.name)?;
    }
    Ok(names)
}

// The delays that are promised.
fn promised_in(alloc: Global, trial: &Trial) -> Result<Vec<Option<u64>>, AllocError>
    requires trial { IsTrial trial.now }
    ensures { IfOk result (λ delays. delays.items ≡ promised_in (run_in trial.now) trial.now.plan.requests) }
{
    let entries = trial.plan.requests();
    let mut delays = Vec::new(alloc);
    for number in 0..entries.len() {
        delays.push(promised_by(&trial.verdict(number)))?;
    }
    Ok(delays)
}

// The delay that a verdict promises.
fn promised_by(verdict: &Option<Verdict>) -> Option<u64>
    ensures { result ≡ promised_by (option_map outcome_of verdict.now) }
{
    match verdict {
        Some(Verdict::Accepted { delay, .. }) => Some(*delay),
        Some(Verdict::Denied(_)) => None,
        None => None,
    }
}

// The links that are tight for the requests that are denied.
fn tight_in(alloc: Global, trial: &Trial) -> Result<Vec<Name>, Trouble>
    requires trial { IsTrial trial.now }
{
    let mut names = Vec::new(alloc);
    for number in 0..trial.plan.requests().len() {
        let verdict = trial.verdict(number);
        if let Some(link) = tight_of(alloc, trial, number, &verdict)? {
            add_link(&mut names, trial.plan.links(), link)?;
        }
    }
    Ok(names)
}

// Adds the name of a link that isn't there yet.
fn add_link(names: &mut Vec<Name>, links: &[LinkEntry], link: LinkNo) -> Result<(), AllocError> {
    let Some(entry) = links.get(usize::from(link.get())) else {
        return Ok(());
    };
    for name in names.as_slice() {
        if *name == entry.name {
            return Ok(());
        }
    }
    names.push(entry.name)?;
    Ok(())
}

// The delays with which the requests would be accepted, where they are asked for.
fn least_if(
    alloc: Global,
    with_least: bool,
    plan: &Plan,
    trial: &Trial,
) -> Result<Vec<Option<u64>>, Trouble>
    requires trial { IsTrial trial.now }
{
    if with_least {
        least_in(alloc, plan, trial)
    } else {
        Ok(Vec::new(alloc))
    }
}

// The delays with which the requests would be accepted.
fn least_in(alloc: Global, plan: &Plan, trial: &Trial) -> Result<Vec<Option<u64>>, Trouble>
    requires trial { IsTrial trial.now }
{
    let mut delays = Vec::new(alloc);
    for number in 0..plan.requests().len() {
        if number >= trial.plan.requests().len() {
            break;
        }
        let row = request_row(alloc, plan, trial, number)?;
        delays.push(match row.least {
            Least::Delay(delay) => Some(delay),
            Least::Refused(_) => None,
        })?;
    }
    Ok(delays)
}
