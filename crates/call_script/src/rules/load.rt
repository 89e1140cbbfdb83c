//! The packets that are sent, moved and poured.
ghost use Rattle.std.specs.Prelude.{◌≡◌, ◌+◌, ◌≤◌, IfOk, IsSome, IsTrue, OnOk, nat_le};
ghost use Rattle.std.specs.List.{list_all, slice_get};
ghost use Rattle.link_steps.specs.Lists.{Each};
ghost use Rattle.net_units.specs.Numbers.{link_number, channel_number};
ghost use Rattle.net_units.specs.Limits.{most_packets};
ghost use Rattle.call_script.specs.Loads.{IsFew, within_load};
ghost use Rattle.call_script.specs.Rules.{all_ops, pour_is_there, amount_in_range, op_in_range, hops_of, load_at, raised, amount_in, with_opened, raised_over, loads_with, loads_after, load_over, load_of, ops_load, load_in, takes_best_effort, pour_is_taken};

use crate::attributes::{Amount, Way, attributes_of};
use crate::entries::{CallerEntry, LinkEntry, RequestEntry};
use crate::operations::Op;
use crate::rules::routes::has_link;
use net_units::limits::MOST_PACKETS;
use net_units::{ChanNo, LinkNo, OutOfMemory};
use std::alloc::Global;

// Whether all packets, once for each hop, are within the limit.
pub(crate) fn is_small(
    alloc: Global,
    requests: &[RequestEntry],
    callers: &[CallerEntry],
) -> Result<bool, OutOfMemory>
    requires { IsTrue (all_ops op_in_range callers.now) }
    ensures { IfOk result (λ small. small ≡ nat_le (load_in requests.now callers.now) most_packets) }
{
    let mut loads = Vec::new(alloc);
    let mut load = 0;
    for caller in callers {
        match load_with(load, requests, caller.ops.as_slice(), &mut loads)? {
            Some(sum) => load = sum,
            None => return Ok(false),
        }
    }
    Ok(true)
}

// The load with that of these operations added, where it is within the limit. `loads` tells what each request has to carry so far.
fn load_with(
    before: u64,
    requests: &[RequestEntry],
    ops: &[Op],
    loads: &mut Vec<u64>,
) -> Result<Option<u64>, OutOfMemory>
    requires within { before ≤ most_packets }
    requires range { IsTrue (list_all op_in_range ops.now) }
    requires few { Each IsFew loads.old.items }
    ensures load { IfOk result (λ sum. sum ≡ within_load (before + ops_load requests.now loads.old.items ops.now)) }
    ensures loads { IfOk result (λ sum. IsSome sum → loads.new.items ≡ loads_after loads.old.items ops.now) }
    ensures few { OnOk result (Each IsFew loads.new.items) }
{
    let mut load = before;
    for op in ops {
        load += load_of(requests, loads, op);
        if load > MOST_PACKETS {
            return Ok(None);
        }
        put_load(loads, op)?;
    }
    Ok(Some(load))
}

// The packets of an operation, once for each hop.
fn load_of(requests: &[RequestEntry], loads: &[u64], op: &Op) -> u64
    requires range { IsTrue (op_in_range op.now) }
    requires few { Each IsFew loads.now }
    ensures value { result ≡ load_of requests.now loads.now op.now }
    ensures most { result ≤ 4194304 }
{
    let own = attributes_of(op);
    let packets = amount_in(loads, &own.amount);
    load_over(requests, &own.way, packets)
}

// The packets of an operation.
fn amount_in(loads: &[u64], amount: &Amount) -> u64
    requires range { IsTrue (amount_in_range amount.now) }
    requires few { Each IsFew loads.now }
    ensures value { result ≡ amount_in loads.now amount.now }
    ensures most { IsFew result }
{
    match amount {
        Amount::Nothing => 0,
        Amount::Fresh { count, .. } => *count,
        Amount::Carried(chan) => load_at(loads, *chan),
    }
}

// This many packets, once for each hop.
fn load_over(requests: &[RequestEntry], way: &Way, packets: u64) -> u64
    requires { IsFew packets }
    ensures value { result ≡ load_over requests.now way.now packets }
    ensures most { result ≤ 4194304 }
{
    match way {
        Way::Nowhere => 0,
        Way::OverRoute(chan) => packets * hops_of(requests, *chan),
        Way::OverLink(_) => packets,
    }
}

// How many hops a request has, 0 where it isn't there.
fn hops_of(requests: &[RequestEntry], chan: ChanNo) -> u64
    ensures value { result ≡ hops_of (slice_get requests.now (channel_number chan)) }
    ensures most { result ≤ 16 }
{
    match requests.get(chan.get() as usize) {
        Some(entry) => u64::from(entry.request.route.len()),
        None => 0,
    }
}

// What a request has to carry so far, 0 where it isn't there.
fn load_at(loads: &[u64], chan: ChanNo) -> u64
    requires { Each IsFew loads.now }
    ensures value { result ≡ load_at loads.now chan }
    ensures most { IsFew result }
{
    match loads.get(chan.get() as usize) {
        Some(load) => *load,
        None => 0,
    }
}

// What the requests have to carry with one more operation.
fn put_load(loads: &mut Vec<u64>, op: &Op) -> Result<(), OutOfMemory>
    requires range { IsTrue (op_in_range op.now) }
    requires few { Each IsFew loads.old.items }
    ensures loads { OnOk result (loads.new.items ≡ loads_with loads.old.items op.now) }
    ensures few { OnOk result (Each IsFew loads.new.items) }
{
    let own = attributes_of(op);
    let packets = amount_in(loads, &own.amount);
    put_opened(loads, own.opens)?;
    raise_over(loads, &own.way, packets);
    Ok(())
}

// A request that is opened has nothing to carry yet.
fn put_opened(loads: &mut Vec<u64>, opens: Option<ChanNo>) -> Result<(), OutOfMemory>
    requires { Each IsFew loads.old.items }
    ensures loads { OnOk result (loads.new.items ≡ with_opened opens loads.old.items) }
    ensures few { OnOk result (Each IsFew loads.new.items) }
{
    match opens {
        Some(_) => loads.push(0)?,
        None => {}
    }
    Ok(())
}

// The request over whose hops packets go has to carry at least this many.
fn raise_over(loads: &mut Vec<u64>, way: &Way, packets: u64)
    requires load { IsFew packets }
    requires few { Each IsFew loads.old.items }
    ensures value { loads.new.items ≡ raised_over way.now packets loads.old.items }
    ensures few { Each IsFew loads.new.items }
{
    match way {
        Way::OverRoute(chan) => raise(loads, *chan, packets),
        Way::Nowhere | Way::OverLink(_) => {}
    }
}

// A request has to carry at least this many packets.
fn raise(loads: &mut Vec<u64>, chan: ChanNo, load: u64)
    requires load { IsFew load }
    requires few { Each IsFew loads.old.items }
    ensures value { loads.new.items ≡ raised chan load loads.old.items }
    ensures few { Each IsFew loads.new.items }
{
    let place = chan.get() as usize;
    if place < loads.len() {
        loads[place] = loads[place].max(load);
    }
}

pub(crate) fn pours_are_there(links: &[LinkEntry], callers: &[CallerEntry]) -> bool
    ensures { result ≡ all_ops (pour_is_there links.now) callers.now }
{
    callers
        .iter()
        .all(|caller| ops_are_there(links, caller.ops.as_slice()))
}

fn ops_are_there(links: &[LinkEntry], ops: &[Op]) -> bool
    ensures { result ≡ list_all (pour_is_there links.now) ops.now }
{
    ops.iter().all(|op| pour_is_there(links, op))
}

fn pour_is_there(links: &[LinkEntry], op: &Op) -> bool
    ensures { result ≡ pour_is_there links.now op.now }
{
    match attributes_of(op).way {
        Way::OverLink(link) => has_link(links, link),
        Way::Nowhere | Way::OverRoute(_) => true,
    }
}

pub(crate) fn pours_are_taken(links: &[LinkEntry], callers: &[CallerEntry]) -> bool
    ensures { result ≡ all_ops (pour_is_taken links.now) callers.now }
{
    callers
        .iter()
        .all(|caller| ops_are_taken(links, caller.ops.as_slice()))
}

fn ops_are_taken(links: &[LinkEntry], ops: &[Op]) -> bool
    ensures { result ≡ list_all (pour_is_taken links.now) ops.now }
{
    ops.iter().all(|op| pour_is_taken(links, op))
}

fn pour_is_taken(links: &[LinkEntry], op: &Op) -> bool
    ensures { result ≡ pour_is_taken links.now op.now }
{
    match attributes_of(op).way {
        Way::OverLink(link) => takes_best_effort(links, link),
        Way::Nowhere | Way::OverRoute(_) => true,
    }
}

fn takes_best_effort(links: &[LinkEntry], link: LinkNo) -> bool
    ensures { result ≡ takes_best_effort (slice_get links.now (link_number link)) }
{
    match links.get(usize::from(link.get())) {
        Some(entry) => 1 <= entry.shape.best,
        None => false,
    }
}
