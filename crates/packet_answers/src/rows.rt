//! What a run tells of each channel, as numbers.
ghost use Rattle.std.specs.Prelude.{◌≡◌, ◌<◌, ◌≤◌, IfOk, Some, length, option_map, reverse};
ghost use Rattle.std.specs.List.{slice_get};
ghost use Rattle.call_script.specs.declared.entries.RequestEntry.{RequestEntry as Asked};
ghost use Rattle.setup_protocol.specs.State.{outcome_of};
ghost use Rattle.setup_protocol.specs.declared.request.Request.{Request as Wanted};
ghost use Rattle.run_record.specs.Rows.{rows_of};
ghost use Rattle.packet_answers.specs.ChannelDelays.{IsEndOf};
ghost use Rattle.packet_answers.specs.ChannelRows.{AreChannelsOf, TellChannels, TellsChannel, promised_in};
ghost use Rattle.packet_answers.specs.Plays.{StandsAfter, run_in};

use crate::delays::{Delays, End, delays_in};
use crate::playing::{Played, play};
use crate::sources::{first_break, source_of};
use crate::trouble::Trouble;
use call_script::{Plan, Schedule};
use hop_reservation::Route;
use net_units::{ChanNo, OutOfMemory};
use report_laws::reports_keep_their_bounds;
use run_record::HopRow;
use setup_protocol::Verdict;
use std::alloc::Global;

/// What a run tells of the channel of a request. Ticks and packets are those of the report (docs/SCENARIO.md).
#[derive(Clone, Copy, Debug, PartialEq, Eq)]
pub struct ChannelRow {
    /// The delay that it was promised, in ticks: None where it isn't accepted.
    pub promised: Option<u64>,
    /// How many packets its source has sent, dropped ones included.
    pub sent: usize,
    /// Whether these keep its contract.
    pub keeps: bool,
    /// The number, from 1, of the first packet with which its source breaks the contract, where it does.
    pub breaks_from: Option<u64>,
    /// How many packets have arrived at the destination.
    pub arrived: u64,
    /// The greatest delay of these, in ticks: None where none has arrived.
    pub worst: Option<u128>,
    /// How many sends were refused.
    pub refused: u64,
}

/// What the run of a plan by its schedule tells of the channel of each request, in the order of the requests. `Memory` comes only for
/// want of memory, and `Step` where a line of the schedule asks for a step that isn't left.
pub fn channel_rows(
    alloc: Global,
    plan: &Plan,
    schedule: &Schedule,
) -> Result<Vec<ChannelRow>, Trouble>
    ensures { IfOk result (λ rows. AreChannelsOf plan.now schedule.now rows.items) }
{
    let played = play(alloc, plan, schedule)?;
    let rows = played.rows(alloc)?;
    let told = rows_told(alloc, plan, &played, rows.as_slice())?;
    Ok(told)
}

/// The same, of a run of the plan and the rows of its departures. An `Err` comes only for want of memory.
pub fn rows_told(
    alloc: Global,
    plan: &Plan,
    played: &Played,
    rows: &[HopRow],
) -> Result<Vec<ChannelRow>, OutOfMemory>
    requires stands { StandsAfter plan.now played.now }
    requires rows { rows.now ≡ rows_of (reverse (run_in played.now)) }
    ensures { IfOk result (λ told. TellChannels plan.now.requests (run_in played.now) told.items) }
{
    let mut told = Vec::new(alloc);
    for number in 0..plan.requests().len() {
        told.push(row_of(alloc, plan, played, rows, number)?)?;
    }
    Ok(told)
}

// What a run tells of the channel of the request of this number.
fn row_of(
    alloc: Global,
    plan: &Plan,
    played: &Played,
    rows: &[HopRow],
    number: usize,
) -> Result<ChannelRow, OutOfMemory>
    requires stands { StandsAfter plan.now played.now }
    requires rows { rows.now ≡ rows_of (reverse (run_in played.now)) }
    requires inside { number < length plan.now.requests }
    ensures { IfOk result (λ row. (entry : Asked) → slice_get plan.now.requests number ≡ Some entry → TellsChannel (run_in played.now) entry row) }
{
    reports_keep_their_bounds();
    let entry = &plan.requests()[number];
    let verdict = played.callers.verdict(plan, number);
    let end = end_of(entry.request.chan, &entry.request.route);
    let Delays { arrived, worst } = delays_in(&end, rows);
    let first = entry.request.route.hop(1).link;
    let source = source_of(alloc, played.record.entries(), entry.request.chan, first)?;
    let offered = source.offered(alloc)?;
    let keeps = entry.request.contract.keeps(offered.as_slice());
    Ok(ChannelRow {
        promised: promised_by(&verdict),
        sent: offered.len(),
        keeps,
        breaks_from: first_break(&entry.request.contract, offered.as_slice()),
        arrived,
        worst,
        refused: source.refused,
    })
}

// The end of the route of a channel.
pub(crate) fn end_of(chan: ChanNo, route: &Route) -> End
    ensures { (request : Wanted) → request.chan ≡ chan → request.route ≡ route.now → IsEndOf request result }
{
    let hops = route.len();
    End {
        chan,
        hops,
        prop: route.hop(hops).prop,
    }
}

// The delay that is promised.
pub(crate) fn promised_by(verdict: &Option<Verdict>) -> Option<u64>
    ensures { result ≡ promised_in (option_map outcome_of verdict.now) }
{
    match verdict {
        Some(Verdict::Accepted { delay, .. }) => Some(*delay),
        _ => None,
    }
}
