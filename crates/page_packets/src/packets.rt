//! What became of the packets when the file was played.
ghost use Rattle.packet_answers.specs.Plays.{StandsAfter};

use crate::playing::played_of;
use call_script::Plan;
use net_units::OutOfMemory;
use network_files::Network;
use network_pictures::{HopFacts, NetworkFacts, PacketFacts, RequestFacts};
use packet_answers::{Played, Trouble};
use run_record::HopRow;
use setup_protocol::Verdict;
use std::alloc::{AllocError, Global};

// A packet that arrived.
#[derive(Clone, Copy)]
struct Arrival {
    // The number of its request, and its own among the packets of that.
    request: usize,
    number: u64,
    // Its delay from the tick in which it came to the first link, in ticks.
    delay: u64,
}

/// Adds to each request what became of its packets, where some arrived: of a scenario by its schedule, and of a design whose calls come and go
/// at ticks by the schedule in which they do (`call_times`). Nothing is added where neither can be played.
pub fn add_packets(
    alloc: Global,
    network: &Network,
    facts: &mut NetworkFacts,
) -> Result<(), OutOfMemory> {
    match played_of(alloc, network) {
        Ok(played) => add_played(alloc, &network.plan, &played, facts),
        Err(Trouble::Memory) => Err(OutOfMemory),
        Err(Trouble::Step { .. }) => Ok(()),
    }
}

// Adds what became of the packets of a run.
fn add_played(
    alloc: Global,
    plan: &Plan,
    played: &Played,
    facts: &mut NetworkFacts,
) -> Result<(), OutOfMemory>
    requires { StandsAfter plan.now played.now }
{
    let requests = &mut facts.requests;
    let rows = played.rows(alloc)?;
    let arrivals = arrivals_of(alloc, plan, rows.as_slice())?;
    for number in 0..plan.requests().len() {
        let promised = promised_by(&played.callers.verdict(plan, number));
        if let Some(request) = requests.get_mut(number) {
            request.packets = packets_of(alloc, arrivals.as_slice(), number, promised)?;
        }
    }
    for row in rows.as_slice() {
        add_hop(plan, requests, row);
    }
    Ok(())
}

// The delay that a verdict promises.
fn promised_by(verdict: &Option<Verdict>) -> Option<u64> {
    match verdict {
        Some(Verdict::Accepted { delay, .. }) => Some(*delay),
        _ => None,
    }
}

// The packets that arrived, by the rows of all departures in the order of channel, packet and hop.
fn arrivals_of(alloc: Global, plan: &Plan, rows: &[HopRow]) -> Result<Vec<Arrival>, AllocError> {
    let mut arrivals = Vec::new(alloc);
    let mut first = None;
    for row in rows {
        if row.hop == 1 {
            first = Some(*row);
        }
        if let Some(arrival) = arrival_of(plan, &first, row) {
            arrivals.push(arrival)?;
        }
    }
    Ok(arrivals)
}

// The arrival that a row tells, where it is of the last hop, after this row of a first hop.
fn arrival_of(plan: &Plan, first: &Option<HopRow>, row: &HopRow) -> Option<Arrival> {
    let request = usize::try_from(row.chan.get()).ok()?;
    let entry = plan.requests().get(request)?;
    let route = &entry.request.route;
    let first = (*first)?;
    if row.hop != route.len() || first.chan.get() != row.chan.get() || first.number != row.number {
        return None;
    }
    let arrived = row
        .departed
        .saturating_add(u64::from(route.hop(route.len()).prop));
    Some(Arrival {
        request,
        number: row.number,
        delay: arrived.saturating_sub(first.at),
    })
}

// What became of the packets of the request of a number, where some arrived. The arrivals stand in the order of the requests.
fn packets_of(
    alloc: Global,
    arrivals: &[Arrival],
    number: usize,
    promised: Option<u64>,
) -> Result<Option<PacketFacts>, AllocError> {
    let start = arrivals.partition_point(|arrival: &Arrival| arrival.request < number);
    let mut delays = Vec::new(alloc);
    let mut least = u64::MAX;
    let mut worst: u64 = 0;
    let mut worst_packet: u64 = 0;
    for arrival in arrivals.get(start..).unwrap_or(&[]) {
        if arrival.request != number {
            break;
        }
        delays.push(arrival.delay)?;
        least = least.min(arrival.delay);
        if arrival.delay > worst || worst_packet == 0 {
            worst = arrival.delay;
            worst_packet = arrival.number;
        }
    }
    if worst_packet == 0 {
        return Ok(None);
    }
    Ok(Some(PacketFacts {
        arrived: delays.len() as u64,
        least,
        worst,
        worst_packet,
        promised,
        delays,
    }))
}

// Adds to a hop how long the worst packet was there, where this row is of it.
fn add_hop(plan: &Plan, requests: &mut Vec<RequestFacts>, row: &HopRow) {
    let place = usize::try_from(row.chan.get()).unwrap_or(usize::MAX);
    let Some(request) = requests.get_mut(place) else {
        return;
    };
    let is_worst = match &request.packets {
        Some(packets) => packets.worst_packet == row.number,
        None => false,
    };
    let hop = usize::from(row.hop).saturating_sub(1);
    if is_worst {
        if let Some(facts) = request.hops.get_mut(hop) {
            facts.worst = Some(time_at(facts, row));
        }
    }
}

// How long a packet was at a hop, with the propagation behind it.
fn time_at(hop: &HopFacts, row: &HopRow) -> u64 {
    row.departed.saturating_add(hop.prop).saturating_sub(row.at)
}
