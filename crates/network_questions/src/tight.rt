//! A request at its tight link: what the link holds at its level, and what it would take to hold it.
ghost use Rattle.std.specs.Prelude.{◌≤◌, IfOk, IfSome, length};
ghost use Rattle.net_units.specs.Numbers.{level_number};
ghost use Rattle.network_questions.specs.Asked.{AskingStands};

use crate::asking::Asking;
use crate::crossings::{crossings_of, group_of, place_of, share_of_group, share_of_link};
use crate::held::crossings_at;
use answer_tables::RequestRow;
use call_script::{Plan, RequestEntry};
use link_fill::{Crossing, Share, held_rows, kept_units, share_load};
use load_table::{LevelLoad, LinkRow, least_bound, long_run};
use net_units::limits::MOST_REQUESTS;
use net_units::{Bounds, Level, LinkNo};
use network_files::Network;
use run_record::Done;
use setup_points::ScheduledRun;
use std::alloc::{AllocError, Global};

/// What the tight link of a request holds.
#[derive(Clone, Copy)]
pub(crate) struct Tight {
    /// The link.
    pub link: LinkNo,
    /// The load of the accepted channels at the request's level, beside what the level may hold.
    pub load: LevelLoad,
    /// The least bound with which the level would hold these and the request.
    pub least: Option<u64>,
    /// The part of the link that these and the request take in the long run, in millionths.
    pub long_run: u64,
    /// The units of buffer that are free.
    pub free: u64,
    /// The units of buffer that there are.
    pub buffer: u64,
}

/// The tight link of a request, where it has one. On a link that is split all of it is of the share of the request's group. In a schedule it is told
/// of the moment at which the setup of the request has ended.
pub(crate) fn tight_of(
    alloc: Global,
    network: &Network,
    asking: &Asking,
    row: &RequestRow,
) -> Result<Option<Tight>, AllocError>
    requires stands { AskingStands network.now asking.now }
{
    let plan = &network.plan;
    let Some(link) = row.tight_link() else {
        return Ok(None);
    };
    let Some(entry) = plan.requests().get(row.number) else {
        return Ok(None);
    };
    let group = group_of(plan, entry);
    let (share, group) = match share_of_group(plan, link, group) {
        Some(share) => (share, Some(group)),
        None => match share_of_link(plan, link) {
            Some(share) => (share, None),
            None => return Ok(None),
        },
    };
    let crossings = crossings_then(alloc, network, asking, row.number, link, group)?;
    tight_at(alloc, &share, crossings.as_slice(), link, entry, row)
}

// The requests over a link with what they have come to, or with what they hold once the setup of the request of a number has ended.
fn crossings_then(
    alloc: Global,
    network: &Network,
    asking: &Asking,
    number: usize,
    link: LinkNo,
    group: Option<u8>,
) -> Result<Vec<Crossing>, AllocError>
    requires stands { AskingStands network.now asking.now }
    ensures { IfOk result (λ crossings. length crossings.items ≤ 1024) }
{
    match asking {
        Asking::Alone(trial) => crossings_of(alloc, trial, link, group),
        Asking::Scheduled(run) => {
            let entries = entries_until(&network.plan, run, number);
            crossings_at(alloc, &network.plan, entries, link, group)
        }
    }
}

// The entries of a run up to the end of a setup.
fn entries_until<'a>(plan: &Plan, run: &'a ScheduledRun, number: usize) -> &'a [Done] {
    let entries = run.record.entries();
    if number >= plan.requests().len() {
        return entries;
    }
    match run.end_of(plan, number) {
        Some(end) => entries.get(..end).unwrap_or(entries),
        None => entries,
    }
}

// The same, with the link or the share, and the requests there.
fn tight_at(
    alloc: Global,
    share: &Share,
    crossings: &[Crossing],
    link: LinkNo,
    entry: &RequestEntry,
    row: &RequestRow,
) -> Result<Option<Tight>, AllocError>
    requires rate { 1 ≤ share.now.numbers.rate }
    requires few { length crossings.now ≤ 1024 }
{
    let Some(level) = level_there(entry, row, link, &share.bounds) else {
        return Ok(None);
    };
    let held = held_rows(alloc, crossings)?;
    let load = share_load(share, held.as_slice(), level);
    let all = with_request(held, entry, level, is_held(entry, row, link))?;
    let buffer = share.units();
    Ok(Some(Tight {
        link,
        load,
        least: least_bound(&share.numbers, all.as_slice(), level),
        long_run: long_run(all.as_slice(), share.numbers.rate),
        free: buffer.saturating_sub(kept_units(crossings)),
        buffer,
    }))
}

// These rows and that of the request at a level, where it isn't one of them.
fn with_request(
    held: Vec<LinkRow>,
    entry: &RequestEntry,
    level: Level,
    is_held: bool,
) -> Result<Vec<LinkRow>, AllocError>
    requires few { length held.items ≤ 1024 }
    ensures { IfOk result (λ rows. length rows.items ≤ 1024) }
{
    let mut rows = held;
    if !is_held && rows.len() < MOST_REQUESTS {
        rows.push(LinkRow {
            contract: entry.request.contract,
            level,
        })?;
    }
    Ok(rows)
}

// Whether the request has a level at the link.
fn is_held(entry: &RequestEntry, row: &RequestRow, link: LinkNo) -> bool {
    match place_of(&entry.request.route, link) {
        Some(place) => given_at(row, place).is_some(),
        None => false,
    }
}

// The level that a request has at its link, or was offered, or else the link's last.
fn level_there(
    entry: &RequestEntry,
    row: &RequestRow,
    link: LinkNo,
    bounds: &Bounds,
) -> Option<Level>
    ensures { IfSome result (λ level. level_number level ≤ length bounds.now) }
{
    let place = place_of(&entry.request.route, link)?;
    let level = match given_at(row, place) {
        Some(level) => level,
        None => match offered_at(row, place) {
            Some(level) => level,
            None => Level::new(bounds.len())?,
        },
    };
    if level.get() <= bounds.len() {
        Some(level)
    } else {
        None
    }
}

// The level that a request gets at a place of its route, from 1.
fn given_at(row: &RequestRow, place: u8) -> Option<Level> {
    row.hops.get(usize::from(place).checked_sub(1)?)?.gets
}

// The level that it was offered there.
fn offered_at(row: &RequestRow, place: u8) -> Option<Level> {
    let hop = row.hops.get(usize::from(place).checked_sub(1)?)?;
    let offer = hop.offer?;
    Some(offer.level)
}
