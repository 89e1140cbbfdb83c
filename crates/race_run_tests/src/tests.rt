//! Races of plans over links with the levels 10, 20 and 40 and a propagation of 2, worked by hand.
ghost use Rattle.std.specs.Prelude.{◌≡◌, ◌<◌, [], ◌∷◌, IfOk, length};
ghost use Rattle.net_units.specs.Numbers.{link_number};
ghost use Rattle.link_steps.specs.Legal.{AskFits};
ghost use Rattle.link_steps.specs.Lists.{Each};
ghost use Rattle.call_script.specs.Tasks.{network_of};
ghost use Rattle.race_run.specs.Whole.{IsWhole};
ghost use Rattle.race_run_tests.specs.Worked.{EachWithNumber, IsWorkedCaller, IsWorkedHop, IsWorkedLink, IsWorkedRequest};

mod moves;
mod orders;

use call_script::{
    CallerEntry, LinkEntry, Op, Ops, Plan, Quotas, RequestEntry, Version, push_request,
};
use hop_reservation::{Hop, Route};
use link_ledger::{Entry, OwnEntry};
use link_server::LinkState;
use link_steps::{LinkShape, LinkStep, Reply};
use net_units::{ActorNo, Bounds, ChanNo, Gate, LinkNo, Name, NoGate, OutOfMemory};
use race_run::{Raced, race, woven};
use setup_protocol::{Control, Request};
use shared_network::Closed;
use std::alloc::Global;
use std::process::Abort;
use std::sync::Wait;
use std::sync::atomic::{AtomicU64, Ordering};
use std::test::Fail;
use std::thread;
use std::thread::Threads;
use traffic_contract::{Contract, Test};

// ---- plans

// A name of a letter and a number.
fn name(letter: u8, number: u8) -> Result<Name, Fail> {
    Ok(Name::new(&[letter, b'0'.wrapping_add(number)]).ok_or("name")?)
}

fn bounds() -> Result<Bounds, Fail>
    ensures { IfOk result (λ made. made ≡ 10 ∷ 20 ∷ 40 ∷ []) }
{
    Ok(Bounds::new(&[10, 20, 40]).ok_or("bounds")?)
}

fn link_no(number: u8) -> Result<LinkNo, Fail>
    ensures { IfOk result (λ made. link_number made ≡ number) }
{
    Ok(LinkNo::new(number).ok_or("a link")?)
}

// A link of rate 1 with this test, from this node to the next.
fn link(alloc: Global, number: u8, node: u8, test: Test) -> Result<LinkEntry, Fail>
    ensures { IfOk result (IsWorkedLink number) }
{
    Ok(LinkEntry {
        name: name(b'l', number)?,
        from: name(b'n', node)?,
        to: name(b'n', node.wrapping_add(1))?,
        shape: LinkShape::new(link_no(number)?, 1, 4, 2, 100, bounds()?, test, 0)?,
        quotas: Quotas::none(alloc),
    })
}

fn links(alloc: Global, count: u8) -> Result<Vec<LinkEntry>, Fail>
    ensures { IfOk result (λ made. EachWithNumber IsWorkedLink 0 made.items) }
{
    let mut links = Vec::new(alloc);
    for number in 0..count {
        links.push(link(alloc, number, number, Test::Whole)?)?;
    }
    Ok(links)
}

fn hop(number: u8) -> Result<Hop, Fail>
    ensures { IfOk result IsWorkedHop }
{
    Ok(Hop {
        link: link_no(number)?,
        bounds: bounds()?,
        prop: 2,
    })
}

// A route over the link of this number, or over the four links from 0 on.
fn route(number: u8, whole: bool) -> Result<Route, Fail>
    ensures { IfOk result (λ made. Each IsWorkedHop made) }
{
    if whole {
        Ok(Route::new(&[hop(0)?, hop(1)?, hop(2)?, hop(3)?])?)
    } else {
        Ok(Route::new(&[hop(number)?])?)
    }
}

// The request of a number, which the caller of that number opens. Its route is given, or was found between these nodes.
fn request(number: u8, whole: bool, found: Option<(Name, Name)>) -> Result<RequestEntry, Fail>
    ensures { IfOk result (IsWorkedRequest number) }
{
    Ok(RequestEntry {
        name: name(b'r', number)?,
        caller: ActorNo::new(number).ok_or("a caller")?,
        request: Request {
            chan: ChanNo::new(u32::from(number)).ok_or("a channel")?,
            route: route(number, whole)?,
            contract: Contract::new(5, 10, 20, 2)?,
            control: Control::Rate,
            delay: if whole { 100 } else { 12 },
        },
        found,
    })
}

fn requests(alloc: Global, count: u8, whole: bool) -> Result<Vec<RequestEntry>, Fail>
    ensures all { IfOk result (λ made. EachWithNumber IsWorkedRequest 0 made.items) }
    ensures count { IfOk result (λ made. length made.items ≡ count) }
{
    let mut requests = Vec::new(alloc);
    for number in 0..count {
        push_request(&mut requests, request(number, whole, None)?)?;
    }
    Ok(requests)
}

// The caller opens the request of its number, and then it sends on it and closes it or it doesn't.
#[tactic(auto, unfolding(call_script::specs::Parts::openings_in))]
fn caller(alloc: Global, number: u8, closes: bool) -> Result<CallerEntry, Fail>
    ensures { IfOk result (IsWorkedCaller number) }
{
    let chan = ChanNo::new(u32::from(number)).ok_or("a channel")?;
    let mut ops = Vec::new(alloc);
    ops.push(Op::Open(chan))?;
    if closes {
        ops.push(Op::Send {
            chan,
            count: 2,
            gap: 10,
            size: 2,
        })?;
        ops.push(Op::Close(chan))?;
    }
    Ok(CallerEntry {
        name: name(b'k', number)?,
        group: 0,
        ops: Ops::new(ops),
    })
}

fn callers(alloc: Global, count: u8, closes: bool) -> Result<Vec<CallerEntry>, Fail>
    ensures all { IfOk result (λ made. EachWithNumber IsWorkedCaller 0 made.items) }
    ensures count { IfOk result (λ made. length made.items ≡ count) }
{
    let mut callers = Vec::new(alloc);
    for number in 0..count {
        callers.push(caller(alloc, number, closes)?)?;
    }
    Ok(callers)
}

// A plan of this many links and callers, each of which opens a channel over the link of its number, or over four links.
fn plan(
    alloc: Global,
    count: u8,
    callers_count: u8,
    whole: bool,
    rounds: (u64, u64),
) -> Result<Plan, Fail> {
    let links = links(alloc, count)?;
    let requests = requests(alloc, callers_count, whole)?;
    let callers = callers(alloc, callers_count, whole)?;
    let groups = Vec::new(alloc);
    Ok(Plan::new(
        alloc,
        Version::One,
        links,
        groups,
        requests,
        callers,
        rounds.0,
        rounds.1,
    )?)
}

// ---- nothing to do

// The race of a plan, and the run that it is. What they ensure is long, and isn't known after this.
fn run_of<R: Threads + Wait + Sync, G: Gate + Sync>(
    rt: &R,
    alloc: Global,
    plan: &Plan,
    gate: &G,
) -> Result<(Closed, Raced), Fail> {
    let closed = race(rt, alloc, plan, gate)?;
    let raced = woven(alloc, plan, &closed)?;
    Ok((closed, raced))
}

// Whether it has one journal and one pass, without steps.
fn is_empty(closed: &Closed) -> bool {
    match (closed.journals.as_slice(), closed.passes.as_slice()) {
        ([journal], [pass]) => journal.entries.as_slice().is_empty() && pass.own().is_empty(),
        _ => false,
    }
}

#[test]
fn a_race_of_nothing_leaves_nothing(rt: HostRuntime) -> Result<(), Fail> {
    let alloc = rt.alloc();
    let plan = plan(alloc, 1, 0, false, (0, 0))?;
    let (closed, raced) = run_of(&rt, alloc, &plan, &NoGate)?;
    assert!(rt; is_empty(&closed));
    assert!(rt; raced.run.entries().is_empty());
    assert!(rt; raced.schedule.items.as_slice().is_empty());
    Ok(())
}

// ---- two callers, each over a link of its own

// The most turns that a step waits.
const MOST_TURNS: u64 = 10_000_000;

// Whether the number rises to this one before long.
fn rises(number: &AtomicU64, least: u64) -> bool {
    for _ in 0..MOST_TURNS {
        if number.load(Ordering::SeqCst) >= least {
            return true;
        }
        thread::yield_now();
    }
    false
}

// Each link's step waits until the other link's has come.
#[derive(Drop)]
struct Meet {
    first: AtomicU64,
    second: AtomicU64,
    missed: AtomicU64,
}

impl Gate for Meet {
    fn within(&self, link: LinkNo, _actor: ActorNo) {
        let (own, other) = if link.get() == 0 {
            (&self.first, &self.second)
        } else {
            (&self.second, &self.first)
        };
        own.store(1, Ordering::SeqCst);
        if !rises(other, 1) {
            self.missed.fetch_add(1, Ordering::SeqCst);
        }
    }

    fn after(&self, _link: LinkNo, _actor: ActorNo) {}
}

// Each step of one link waits until two steps of the other are made.
#[derive(Drop)]
struct Waits {
    link: u8,
    made: AtomicU64,
    missed: AtomicU64,
}

impl Gate for Waits {
    fn within(&self, link: LinkNo, _actor: ActorNo) {
        if link.get() == self.link && !rises(&self.made, 2) {
            self.missed.fetch_add(1, Ordering::SeqCst);
        }
    }

    fn after(&self, link: LinkNo, _actor: ActorNo) {
        if link.get() != self.link {
            self.made.fetch_add(1, Ordering::SeqCst);
        }
    }
}

// The race of two callers, each over a link of its own.
fn two_callers<R: Threads + Wait + Sync, G: Gate + Sync>(
    rt: &R,
    alloc: Global,
    gate: &G,
) -> Result<Closed, Fail> {
    let plan = plan(alloc, 2, 2, false, (0, 0))?;
    Ok(race(rt, alloc, &plan, gate)?)
}

#[test]
fn two_callers_stand_in_their_steps_at_once(rt: HostRuntime) -> Result<(), Fail> {
    let gate = Meet {
        first: AtomicU64::new(0),
        second: AtomicU64::new(0),
        missed: AtomicU64::new(0),
    };
    let closed = two_callers(&rt, rt.alloc(), &gate)?;
    assert!(rt; gate.missed.load(Ordering::SeqCst) == 0);
    assert!(rt; closed.passes.as_slice().len() == 3);
    Ok(())
}

// The stamps of a pass whose actor was offered a level of one link and has relaxed it.
fn stamps(own: &[OwnEntry]) -> Option<(u64, u64)> {
    match own {
        [first, second] if matches!(second.reply, Reply::Relaxed { .. }) => {
            Some((first.stamp, second.stamp))
        }
        _ => None,
    }
}

// Those of both callers, beside the plane.
fn both_stamps(closed: &Closed) -> Option<((u64, u64), (u64, u64))> {
    match closed.passes.as_slice() {
        [first, second, _plane] => Some((stamps(first.own())?, stamps(second.own())?)),
        _ => None,
    }
}

// The stamps of two callers, where each step of this link waits for those of the other.
fn waits_for<R: Threads + Wait + Abort + Sync>(
    rt: &R,
    alloc: Global,
    link: u8,
    due: ((u64, u64), (u64, u64)),
) -> Result<(), Fail> {
    let gate = Waits {
        link,
        made: AtomicU64::new(0),
        missed: AtomicU64::new(0),
    };
    let closed = two_callers(rt, alloc, &gate)?;
    assert!(rt; gate.missed.load(Ordering::SeqCst) == 0);
    assert_eq!(rt; both_stamps(&closed), Some(due));
    Ok(())
}

#[test]
fn the_second_caller_goes_first(rt: HostRuntime) -> Result<(), Fail> {
    waits_for(&rt, rt.alloc(), 0, ((3, 4), (1, 2)))
}

#[test]
fn the_first_caller_goes_first(rt: HostRuntime) -> Result<(), Fail> {
    waits_for(&rt, rt.alloc(), 1, ((1, 2), (3, 4)))
}

// ---- many races

// Each step yields before and after it, for as many turns as a generator draws.
#[derive(Drop)]
struct Shuffles {
    state: AtomicU64,
}

impl Shuffles {
    fn pause(&self) {
        let state = self
            .state
            .fetch_add(0x9e37_79b9_7f4a_7c15, Ordering::SeqCst);
        for _ in 0..drawn(state) {
            thread::yield_now();
        }
    }
}

// A number below 8, of a state of the generator.
fn drawn(state: u64) -> u64 {
    (state ^ (state >> 30)).wrapping_mul(0xbf58_476d_1ce4_e5b9) >> 61
}

impl Gate for Shuffles {
    fn within(&self, _link: LinkNo, _actor: ActorNo) {
        self.pause();
    }

    fn after(&self, _link: LinkNo, _actor: ActorNo) {
        self.pause();
    }
}

// Whether a new link of this shape answers these asks with these replies.
fn replays(alloc: Global, shape: LinkShape, entries: &[Entry]) -> Result<bool, OutOfMemory>
    requires { Each (λ e. AskFits shape e.ask) entries.now }
{
    all_answered(LinkState::new(alloc, shape)?, entries)
}

// Whether the link answers all of them. It is generic in the link, of which it knows what each link owes, and no more.
fn all_answered<L: LinkStep>(link: L, entries: &[Entry]) -> Result<bool, OutOfMemory>
    requires { Each (λ e. AskFits (L.link_of link).shape e.ask) entries.now }
{
    let mut link = link;
    for entry in entries {
        if !answers(&mut link, entry)? {
            return Ok(false);
        }
    }
    Ok(true)
}

// Whether the link answers the entry's ask with its reply.
fn answers<L: LinkStep>(link: &mut L, entry: &Entry) -> Result<bool, OutOfMemory>
    requires { AskFits (L.link_of link.old).shape entry.now.ask }
    ensures { L.link_of link.new ≡ L.link_of link.old }
{
    if link.clock() >= 1 << 61 {
        return Ok(false);
    }
    Ok(link.step(&entry.ask)? == entry.reply)
}

// Whether the journal of this number replays.
fn replays_at(
    alloc: Global,
    plan: &Plan,
    closed: &Closed,
    number: usize,
) -> Result<bool, OutOfMemory>
    requires whole { IsWhole (network_of plan.now) closed.now.passes closed.now.journals }
    requires inside { number < length closed.now.journals }
{
    let entry = &plan.links()[number];
    let journals = closed.journals.as_slice();
    let journal = &journals[number];
    replays(alloc, entry.shape, journal.entries.as_slice())
}

// Whether each journal replays.
fn all_replay(alloc: Global, plan: &Plan, closed: &Closed) -> Result<bool, OutOfMemory>
    requires { IsWhole (network_of plan.now) closed.now.passes closed.now.journals }
{
    for number in 0..closed.journals.as_slice().len() {
        if !replays_at(alloc, plan, closed, number)? {
            return Ok(false);
        }
    }
    Ok(true)
}

// Whether the journals of a race replay where its gate begins at this state.
fn shuffled<R: Threads + Wait + Sync>(
    rt: &R,
    alloc: Global,
    plan: &Plan,
    state: u64,
) -> Result<bool, OutOfMemory> {
    let gate = Shuffles {
        state: AtomicU64::new(state),
    };
    let closed = race(rt, alloc, plan, &gate)?;
    all_replay(alloc, plan, &closed)
}

#[test]
fn the_journals_of_many_races_replay(rt: HostRuntime) -> Result<(), Fail> {
    let alloc = rt.alloc();
    let plan = plan(alloc, 4, 4, true, (2, 14))?;
    for state in 0..1_000 {
        assert!(rt; shuffled(&rt, alloc, &plan, state)?);
    }
    Ok(())
}
