//! How an operation is made whole.
ghost use Rattle.std.specs.Prelude.{List, OnOk};
ghost use Rattle.call_times.specs.Makings.{IsTimeFor};
ghost use Rattle.call_times.specs.declared.times.Times.{Times as Given};

use crate::making::Making;
use call_script::{Op, Plan};
use link_steps::Reply;
use net_units::{ActorNo, ChanNo, OutOfMemory};
use std::alloc::Global;

// A setup takes two steps a hop.
const MOST_OF_SETUP: usize = 32;

// Which requests were accepted, and of which of these the channels are established: not left by a move.
#[derive(Drop)]
pub(crate) struct Established {
    by_number: Vec<bool>,
    pub(crate) accepted: Vec<bool>,
}

impl Established {
    // None of so many.
    pub(crate) fn none(alloc: Global, count: usize) -> Result<Established, OutOfMemory> {
        Ok(Established {
            by_number: vec![in alloc; false; count]?,
            accepted: vec![in alloc; false; count]?,
        })
    }

    fn has(&self, chan: ChanNo) -> bool {
        match self.by_number.get(chan.get() as usize) {
            Some(is) => *is,
            None => false,
        }
    }

    // A request's setup is over.
    fn settle(&mut self, chan: ChanNo, is_accepted: bool) {
        put(&mut self.by_number, chan, is_accepted);
        put(&mut self.accepted, chan, is_accepted);
    }

    // A move has left a channel.
    fn leave(&mut self, chan: ChanNo) {
        put(&mut self.by_number, chan, false);
    }
}

// Keeps what is so of a channel, if it is kept.
fn put(by_number: &mut Vec<bool>, chan: ChanNo, is: bool) {
    if let Some(place) = by_number.get_mut(chan.get() as usize) {
        *place = is;
    }
}

// Makes an operation of an actor: all its steps, one after the other. It may take none.
pub(crate) fn make_operation(
    making: &mut Making,
    plan: &Plan,
    actor: ActorNo,
    op: &Op,
    established: &mut Established,
) -> Result<(), OutOfMemory>
    requires { (times : List Given) × IsTimeFor plan.now times making.old actor op.now }
    ensures { OnOk result ((times : List Given) → IsTimeFor plan.now times making.old actor op.now → IsTimeFor plan.now times making.new actor op.now) }
{
    if !takes_step(op, established) {
        return Ok(());
    }
    match op {
        Op::Open(chan) => {
            let last = make_parts(making, plan, actor, op, MOST_OF_SETUP)?;
            established.settle(*chan, matches!(last, Some(Reply::Relaxed { .. })));
        }
        Op::Close(chan) => {
            make_parts(making, plan, actor, op, hops_of(plan, *chan))?;
        }
        Op::Move { old, .. } => {
            make_move(making, plan, actor, op, hops_of(plan, *old))?;
            established.leave(*old);
        }
        Op::Send { .. } | Op::Pour { .. } => {
            making.make_part(plan, actor, op)?;
        }
    }
    Ok(())
}

// Whether an operation takes a step.
fn takes_step(op: &Op, established: &Established) -> bool {
    match op {
        Op::Open(_) | Op::Pour { .. } => true,
        Op::Send { chan, .. } | Op::Close(chan) => established.has(*chan),
        Op::Move { old, new } => established.has(*old) && established.has(*new),
    }
}

// The steps of a move over so many hops: a release each, and after the first a submit where packets were cancelled there.
fn make_move(
    making: &mut Making,
    plan: &Plan,
    actor: ActorNo,
    op: &Op,
    hops: usize,
) -> Result<(), OutOfMemory>
    requires { (times : List Given) × IsTimeFor plan.now times making.old actor op.now }
    ensures { OnOk result ((times : List Given) → IsTimeFor plan.now times making.old actor op.now → IsTimeFor plan.now times making.new actor op.now) }
{
    let first = making.make_part(plan, actor, op)?;
    let rest = match first {
        Some(Reply::Closing { cancelled: 0, .. }) => hops.saturating_sub(1),
        _ => hops,
    };
    make_parts(making, plan, actor, op, rest)?;
    Ok(())
}

// Makes steps of an operation, as many as it has left, at most this many. Answers the last reply.
fn make_parts(
    making: &mut Making,
    plan: &Plan,
    actor: ActorNo,
    op: &Op,
    most: usize,
) -> Result<Option<Reply>, OutOfMemory>
    requires { (times : List Given) × IsTimeFor plan.now times making.old actor op.now }
    ensures { OnOk result ((times : List Given) → IsTimeFor plan.now times making.old actor op.now → IsTimeFor plan.now times making.new actor op.now) }
{
    let mut last = None;
    for _ in 0..most {
        match making.make_part(plan, actor, op)? {
            Some(reply) => last = Some(reply),
            None => return Ok(last),
        }
    }
    Ok(last)
}

// How many hops the route of a request has.
fn hops_of(plan: &Plan, chan: ChanNo) -> usize {
    match plan.requests().get(chan.get() as usize) {
        Some(entry) => usize::from(entry.request.route.len()),
        None => 0,
    }
}
