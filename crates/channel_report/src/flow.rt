//! The packets of a channel, paired as they leave: the delay of each that is delivered.
ghost use Rattle.std.specs.Prelude.{◌≡◌, ℕ, suc, ◌+◌, ◌-◌, ◌<◌, ◌∷◌, ◌++◌, ◌^◌, nat_eq, [], List, IfOk, IfSome, IfNone, OnOk, length, map};
ghost use Rattle.std.specs.List.{slice_get};
ghost use Rattle.net_units.specs.Numbers.{channel_number, link_number};
ghost use Rattle.run_record.specs.Rows.{row_by, row_of, rows_by};
ghost use Rattle.run_record.specs.declared.done.Done.{Done as Step};
ghost use Rattle.run_record.specs.declared.rows.HopRow.{HopRow as Row};
ghost use Rattle.call_script.specs.declared.entries.RequestEntry.{RequestEntry as Asked};
ghost use Rattle.setup_protocol.specs.declared.request.Request.{Request as Asking};
ghost use Rattle.channel_report.specs.DelayTallies.{delay_tally_of};
ghost use Rattle.channel_report.specs.Flows.{AreFlows, KeepsFlow};
ghost use Rattle.channel_report.specs.Delays.{delay_if};
ghost use Rattle.channel_report.specs.Pairing.{arrival_if};

use crate::delay_tally::DelayTally;
use call_script::Plan;
use hop_reservation::Route;
use link_steps::{Reply, Sent};
use net_units::{LinkNo, OutOfMemory};
use std::alloc::Global;

// What is kept of the packets of a request's channel.
#[derive(Drop)]
pub(crate) struct Flow {
    // The links of the first hop and of the last hop of its route.
    pub(crate) first: LinkNo,
    pub(crate) last: LinkNo,
    // The last link's propagation, in ticks.
    pub(crate) prop: u32,
    // The ticks at which its packets arrived at the first hop, by their numbers, from 1, of those that have left it.
    pub(crate) arrivals: Vec<u64>,
    // The delays of those that have left the last hop.
    pub(crate) delays: DelayTally,
}

impl Flow {
    // Before the first packet.
    fn new(alloc: Global, route: &Route) -> Flow
        ensures { (c : ℕ) (request : Asking) → request.route ≡ route.now → KeepsFlow c request [] result }
    {
        let last = route.hop(route.len());
        Flow {
            first: route.hop(1).link,
            last: last.link,
            prop: last.prop,
            arrivals: Vec::new(alloc),
            delays: DelayTally::NOTHING,
        }
    }

    // A packet of the channel leaves a link, by a tick at this clock.
    #[inline(always)]
    fn depart(&mut self, link: LinkNo, clock: u64, sent: &Sent) -> Result<(), OutOfMemory>
        requires { self.old.delays.delivered < 2 ^ 63 }
        ensures { OnOk result ((c : ℕ) (request : Asking) (rows : List Row) (links : List ℕ) → channel_number sent.now.packet.chan ≡ c → KeepsFlow c request rows self.old → KeepsFlow c request (row_of links link clock sent.now ∷ rows) self.new) }
    {
        self.arrive(link, sent.at)?;
        self.deliver(link, clock, sent.packet.number);
        Ok(())
    }

    // Keeps when a packet arrived, if the link that it leaves is the first.
    #[inline(always)]
    fn arrive(&mut self, link: LinkNo, at: u64) -> Result<(), OutOfMemory>
        ensures first { self.new.first ≡ self.old.first }
        ensures last { self.new.last ≡ self.old.last }
        ensures prop { self.new.prop ≡ self.old.prop }
        ensures delays { self.new.delays ≡ self.old.delays }
        ensures arrivals { OnOk result (self.new.arrivals.items ≡ self.old.arrivals.items ++ arrival_if (nat_eq (link_number link) (link_number self.old.first)) at) }
    {
        if link.get() == self.first.get() {
            self.arrivals.push(at)?;
        }
        Ok(())
    }

    // Adds the delay of the packet of this number, if the link that it leaves is the last.
    #[inline(always)]
    fn deliver(&mut self, link: LinkNo, clock: u64, number: u64)
        requires { self.old.delays.delivered < 2 ^ 63 }
        ensures first { self.new.first ≡ self.old.first }
        ensures last { self.new.last ≡ self.old.last }
        ensures prop { self.new.prop ≡ self.old.prop }
        ensures arrivals { self.new.arrivals.items ≡ self.old.arrivals.items }
        ensures delays { (delays : List ℕ) → self.old.delays ≡ delay_tally_of delays
            → self.new.delays ≡ delay_tally_of (delay_if (nat_eq (link_number link) (link_number self.old.last)) self.old.prop (suc clock) (slice_get self.old.arrivals.items (number - 1)) ++ delays) }
    {
        match self.delay(link, clock, number) {
            Some(delay) => self.delays.deliver(delay),
            None => {}
        }
    }

    // That delay, where there is one.
    #[inline(always)]
    fn delay(&self, link: LinkNo, clock: u64, number: u64) -> Option<u128>
        ensures some { IfSome result (λ delay. delay_if (nat_eq (link_number link) (link_number self.now.last)) self.now.prop (suc clock) (slice_get self.now.arrivals.items (number - 1)) ≡ delay ∷ []) }
        ensures none { IfNone result (delay_if (nat_eq (link_number link) (link_number self.now.last)) self.now.prop (suc clock) (slice_get self.now.arrivals.items (number - 1)) ≡ []) }
    {
        if link.get() != self.last.get() {
            return None;
        }
        match self.arrivals.get(number.saturating_sub(1) as usize) {
            Some(at) => Some(delay_since(*at, clock, self.prop)),
            None => None,
        }
    }
}

// The ticks from an arrival to the end of the tick at this clock and of a propagation after it.
#[inline(always)]
fn delay_since(at: u64, clock: u64, prop: u32) -> u128
    ensures { result ≡ suc clock + prop - at }
{
    let arrived = u128::from(clock) + 1 + u128::from(prop);
    arrived.saturating_sub(u128::from(at))
}

// Before the first packet.
pub(crate) fn new_flows(alloc: Global, plan: &Plan) -> Result<Vec<Flow>, OutOfMemory>
    ensures { IfOk result (λ flows. AreFlows plan.now.requests [] flows.items) }
{
    let mut flows = Vec::with_capacity(alloc, plan.requests().len())?;
    for entry in plan.requests() {
        flows.push(Flow::new(alloc, &entry.request.route))?;
    }
    Ok(flows)
}

// Pairs the packet that a reply of a link tells as sent, if it tells one.
#[inline(always)]
pub(crate) fn pair(flows: &mut Vec<Flow>, link: LinkNo, reply: &Reply) -> Result<(), OutOfMemory>
    requires { (requests : List Asked) × (rows : List Row) × (AreFlows requests rows flows.old.items × (length rows < 2 ^ 62)) }
    ensures { OnOk result ((requests : List Asked) (rows : List Row) (whole : List Step) → AreFlows requests rows flows.old.items → AreFlows requests (rows_by whole link reply.now ++ rows) flows.new.items) }
{
    match reply {
        Reply::Ticked { clock, sent, .. } => pair_left(flows, link, *clock, sent),
        _ => Ok(()),
    }
}

// The same of the packet that a tick at this clock tells as sent, if it tells one.
#[inline(always)]
fn pair_left(
    flows: &mut Vec<Flow>,
    link: LinkNo,
    clock: u64,
    sent: &Option<Sent>,
) -> Result<(), OutOfMemory>
    requires { (requests : List Asked) × (rows : List Row) × (AreFlows requests rows flows.old.items × (length rows < 2 ^ 62)) }
    ensures { OnOk result ((requests : List Asked) (rows : List Row) (whole : List Step) → AreFlows requests rows flows.old.items → AreFlows requests (row_by whole link clock sent.now ++ rows) flows.new.items) }
{
    match sent {
        Some(sent) => pair_sent(flows, link, clock, sent),
        None => Ok(()),
    }
}

// The same of this packet.
#[inline(always)]
fn pair_sent(
    flows: &mut Vec<Flow>,
    link: LinkNo,
    clock: u64,
    sent: &Sent,
) -> Result<(), OutOfMemory>
    requires { (requests : List Asked) × (rows : List Row) × (AreFlows requests rows flows.old.items × (length rows < 2 ^ 62)) }
    ensures { OnOk result ((requests : List Asked) (rows : List Row) (links : List ℕ) → AreFlows requests rows flows.old.items → AreFlows requests (row_of links link clock sent.now ∷ rows) flows.new.items) }
{
    let place = sent.packet.chan.get() as usize;
    if place < flows.len() {
        flows[place].depart(link, clock, sent)
    } else {
        Ok(())
    }
}

// The delays of the flows, in their order.
pub(crate) fn delays_of(alloc: Global, flows: &[Flow]) -> Result<Vec<DelayTally>, OutOfMemory>
    ensures { IfOk result (λ tallies. tallies.items ≡ map (λ (flow : Flow). flow.delays) flows.now) }
{
    let mut tallies = Vec::with_capacity(alloc, flows.len())?;
    for flow in flows {
        tallies.push(flow.delays)?;
    }
    Ok(tallies)
}
