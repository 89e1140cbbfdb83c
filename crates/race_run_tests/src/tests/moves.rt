//! A race with a move. A caller opens two channels over links between the same nodes, sends 4 packets on the first, one every 10
//! ticks, moves what is left of them to the second, and closes the first.
ghost use Rattle.std.specs.Prelude.{◌≡◌, IfOk, length};
ghost use Rattle.race_run_tests.specs.Worked.{AreMovers, EachWithNumber, IsMovedRequest, IsMover, IsWorkedLink};

use super::{link, name, rises, route, run_of};
use call_script::{CallerEntry, Do, LinkEntry, Op, Ops, Plan, RequestEntry, Version, push_request};
use link_ledger::{Journal, OwnEntry};
use link_steps::{Ask, Reply};
use net_units::{ActorNo, ChanNo, Gate, LinkNo, Name, NoGate};
use setup_protocol::{Control, Request};
use shared_network::Closed;
use std::alloc::Global;
use std::process::Abort;
use std::sync::atomic::{AtomicU64, Ordering};
use std::test::Fail;
use traffic_contract::{Contract, Test};

// Two links between the same nodes.
fn links(alloc: Global) -> Result<Vec<LinkEntry>, Fail>
    ensures { IfOk result (λ made. EachWithNumber IsWorkedLink 0 made.items) }
{
    let mut links = Vec::new(alloc);
    for number in 0..2 {
        links.push(link(alloc, number, 1, Test::Least)?)?;
    }
    Ok(links)
}

// The request of a number, over the other link. The one caller opens it. Its route is given, or was found between these nodes.
fn request(number: u8, delay: u64, found: Option<(Name, Name)>) -> Result<RequestEntry, Fail>
    ensures { IfOk result (IsMovedRequest number) }
{
    Ok(RequestEntry {
        name: name(b'r', number)?,
        caller: ActorNo::new(0).ok_or("a caller")?,
        request: Request {
            chan: ChanNo::new(u32::from(number)).ok_or("a channel")?,
            route: route(1_u8.wrapping_sub(number), false)?,
            contract: Contract::new(5, 10, 20, 2)?,
            control: Control::Rate,
            delay,
        },
        found,
    })
}

// Two of these; the second one has this end-to-end bound.
fn requests(alloc: Global, delay: u64) -> Result<Vec<RequestEntry>, Fail>
    ensures all { IfOk result (λ made. EachWithNumber IsMovedRequest 0 made.items) }
    ensures count { IfOk result (λ made. length made.items ≡ 2) }
{
    let mut requests = Vec::new(alloc);
    for number in 0..2 {
        let delay = if number == 0 { 12 } else { delay };
        push_request(&mut requests, request(number, delay, None)?)?;
    }
    Ok(requests)
}

#[tactic(auto, unfolding(call_script::specs::Parts::openings_in))]
fn mover(alloc: Global) -> Result<CallerEntry, Fail>
    ensures { IfOk result IsMover }
{
    let old = ChanNo::new(0).ok_or("a channel")?;
    let new = ChanNo::new(1).ok_or("a channel")?;
    let mut ops = Vec::new(alloc);
    ops.push(Op::Open(old))?;
    ops.push(Op::Open(new))?;
    ops.push(Op::Send {
        chan: old,
        count: 4,
        gap: 10,
        size: 2,
    })?;
    ops.push(Op::Move { old, new })?;
    ops.push(Op::Close(old))?;
    Ok(CallerEntry {
        name: name(b'k', 0)?,
        group: 0,
        ops: Ops::new(ops),
    })
}

fn callers(alloc: Global) -> Result<Vec<CallerEntry>, Fail>
    ensures { IfOk result (λ made. AreMovers made.items) }
{
    let mut callers = Vec::new(alloc);
    callers.push(mover(alloc)?)?;
    Ok(callers)
}

// The plan of these, with 80 rounds.
fn plan(alloc: Global, delay: u64) -> Result<Plan, Fail> {
    let links = links(alloc)?;
    let requests = requests(alloc, delay)?;
    let callers = callers(alloc)?;
    let groups = Vec::new(alloc);
    Ok(Plan::new(alloc, Version::Six, links, groups, requests, callers, 80, 0)?)
}

// The plane makes a step, the caller five, the plane 29 more, which end its 15th round, the caller two, and then the plane makes
// the rest.
#[derive(Drop)]
struct Turns {
    caller: AtomicU64,
    plane: AtomicU64,
    missed: AtomicU64,
}

impl Turns {
    fn new() -> Turns {
        Turns {
            caller: AtomicU64::new(0),
            plane: AtomicU64::new(0),
            missed: AtomicU64::new(0),
        }
    }

    fn wait(&self, number: &AtomicU64, least: u64) {
        if !rises(number, least) {
            self.missed.fetch_add(1, Ordering::SeqCst);
        }
    }
}

impl Gate for Turns {
    fn within(&self, _link: LinkNo, actor: ActorNo) {
        if actor.get() == 0 {
            self.wait(&self.plane, 1);
        }
    }

    fn after(&self, _link: LinkNo, actor: ActorNo) {
        if actor.get() == 0 {
            if self.caller.fetch_add(1, Ordering::SeqCst) == 4 {
                self.wait(&self.plane, 30);
            }
            return;
        }
        match self.plane.fetch_add(1, Ordering::SeqCst) {
            0 => self.wait(&self.caller, 5),
            29 => self.wait(&self.caller, 7),
            _ => {}
        }
    }
}

// How many packets a link has sent.
fn sent(journal: &Journal) -> usize {
    let entries = journal.entries.as_slice().iter();
    entries
        .filter(|entry| matches!(entry.reply, Reply::Ticked { sent: Some(_), .. }))
        .count()
}

// The replies to the last two of seven steps of a caller, and how many packets the last one asks for.
fn last_steps(own: &[OwnEntry]) -> Option<(Reply, Reply, Ask)> {
    match own {
        [_, _, _, _, _, release, submit] => Some((release.reply, submit.reply, submit.ask)),
        _ => None,
    }
}

// Whether these are the actors and the steps of a schedule's items.
fn are_turns(items: &[Do], turns: &[(u8, u64)]) -> bool {
    let mut pairs = items.iter().zip(turns.iter());
    items.len() == turns.len()
        && pairs.all(|(item, turn)| item.actor.get() == turn.0 && item.count == turn.1)
}

// Whether the caller's last two steps release its first channel, of which two packets stay and two go, and submit those on the second.
fn has_moved(closed: &Closed) -> Result<bool, Fail> {
    let [caller, _plane] = closed.passes.as_slice() else {
        return Ok(false);
    };
    let ask = Ask::Submit {
        chan: ChanNo::new(1).ok_or("a channel")?,
        count: 2,
        gap: 10,
        size: 2,
    };
    let closing = Reply::Closing {
        count: 2,
        cancelled: 2,
    };
    let planned = Reply::Planned { clock: 15 };
    Ok(last_steps(caller.own()) == Some((closing, planned, ask)))
}

// How many packets each of two links has sent.
fn both_sent(closed: &Closed) -> Option<(usize, usize)> {
    match closed.journals.as_slice() {
        [first, second] => Some((sent(first), sent(second))),
        _ => None,
    }
}

// The packets of the ticks 0 and 10 were taken, and those of the ticks 20 and 30 move. Of each of the two links two packets leave.
#[test]
fn a_move_takes_what_is_left(rt: HostRuntime) -> Result<(), Fail> {
    let alloc = rt.alloc();
    let plan = plan(alloc, 12)?;
    let gate = Turns::new();
    let (closed, raced) = run_of(&rt, alloc, &plan, &gate)?;
    assert!(rt; gate.missed.load(Ordering::SeqCst) == 0);
    let turns = [(1, 1), (0, 5), (1, 29), (0, 2), (1, 130)];
    assert!(rt; are_turns(raced.schedule.items.as_slice(), &turns));
    assert!(rt; has_moved(&closed)?);
    assert!(rt; both_sent(&closed) == Some((2, 2)));
    Ok(())
}

// How many steps the caller has made, beside the plane.
fn steps_of_caller(closed: &Closed) -> Option<usize> {
    match closed.passes.as_slice() {
        [caller, _plane] => Some(caller.own().len()),
        _ => None,
    }
}

// The least bound of the second channel is 12, so it is denied, and the first one is closed instead.
#[test]
fn a_move_to_a_denied_channel_makes_no_step(rt: HostRuntime) -> Result<(), Fail> {
    let alloc = rt.alloc();
    let plan = plan(alloc, 11)?;
    let (closed, raced) = run_of(&rt, alloc, &plan, &NoGate)?;
    assert!(rt; steps_of_caller(&closed) == Some(6));
    assert!(rt; raced.run.entries().len() == 166);
    Ok(())
}
