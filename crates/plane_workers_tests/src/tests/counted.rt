//! A gate that counts its calls: `within` before each ask and `after` after it, once each, with the ask's link and the actor given.
ghost use Rattle.std.specs.Prelude.{◌≡◌, ◌≤◌, [], IfOk};
ghost use Rattle.net_units.specs.Numbers.{link_number};

use super::{link, shape, ticks};
use call_script::{Dos, LinkEntry, Plan, Quotas, Schedule, Version};
use net_units::{ActorNo, Gate, LinkNo};
use one_link_plans::name;
use plane_workers::played;
use std::alloc::Global;
use std::process::Abort;
use std::sync::atomic::{AtomicBool, AtomicU64, Ordering};
use std::test::Fail;
use std::thread::Threads;

// What it was told of one link: how often an ask began and ended, and whether one is under way.
#[derive(Drop)]
struct Calls {
    within: AtomicU64,
    after: AtomicU64,
    inside: AtomicBool,
}

impl Calls {
    fn none() -> Calls {
        Calls {
            within: AtomicU64::new(0),
            after: AtomicU64::new(0),
            inside: AtomicBool::new(false),
        }
    }

    fn counts(&self) -> (u64, u64) {
        let within = self.within.load(Ordering::SeqCst);
        let after = self.after.load(Ordering::SeqCst);
        (within, after)
    }
}

// The calls for the links 0 and 1, and how many were wrong: of another link or actor, a `within` while an ask is under way, or an
// `after` without one.
#[derive(Drop)]
struct Counting {
    actor: u8,
    first: Calls,
    second: Calls,
    wrong: AtomicU64,
}

impl Counting {
    fn new(actor: u8) -> Counting {
        Counting {
            actor,
            first: Calls::none(),
            second: Calls::none(),
            wrong: AtomicU64::new(0),
        }
    }

    fn of(&self, link: LinkNo) -> &Calls {
        if link.get() == 0 {
            &self.first
        } else {
            &self.second
        }
    }

    fn note_wrong_unless(&self, right: bool) {
        if !right {
            self.wrong.fetch_add(1, Ordering::SeqCst);
        }
    }

    fn wrong_calls(&self) -> u64 {
        self.wrong.load(Ordering::SeqCst)
    }
}

impl Gate for Counting {
    fn within(&self, link: LinkNo, actor: ActorNo) {
        let calls = self.of(link);
        calls.within.fetch_add(1, Ordering::SeqCst);
        self.note_wrong_unless(!calls.inside.swap(true, Ordering::SeqCst));
        self.note_wrong_unless(link.get() < 2 && actor.get() == self.actor);
    }

    fn after(&self, link: LinkNo, actor: ActorNo) {
        let calls = self.of(link);
        calls.after.fetch_add(1, Ordering::SeqCst);
        self.note_wrong_unless(calls.inside.swap(false, Ordering::SeqCst));
        self.note_wrong_unless(link.get() < 2 && actor.get() == self.actor);
    }
}

// Three ticks by two workers, one of link 0 and two of link 1, asked by actor 0.
#[test]
fn a_batch_calls_the_gate_around_each_ask(rt: HostRuntime) -> Result<(), Fail> {
    let alloc = rt.alloc();
    let gate = Counting::new(0);
    let replies = ticks(&rt, alloc, link(alloc, 0)?, link(alloc, 1)?, &gate)?;
    assert_eq!(rt; replies.len(), 3);
    assert_eq!(rt; gate.first.counts(), (1, 1));
    assert_eq!(rt; gate.second.counts(), (2, 2));
    assert_eq!(rt; gate.wrong_calls(), 0);
    Ok(())
}

// The link of this number, with this name, between these nodes. It isn't split.
fn entry(alloc: Global, number: u8, called: &str, from: &str, to: &str) -> Result<LinkEntry, Fail>
    ensures number { IfOk result (λ made. link_number made.shape.link ≡ number) }
    ensures unsplit { IfOk result (λ made. made.quotas ≡ []) }
{
    Ok(LinkEntry {
        name: name(called)?,
        from: name(from)?,
        to: name(to)?,
        shape: shape(number)?,
        quotas: Quotas::none(alloc),
    })
}

// A plan of both links, without callers, over this many rounds.
fn two_links(alloc: Global, rounds: u64) -> Result<Plan, Fail> {
    let mut links = Vec::new(alloc);
    links.push(entry(alloc, 0, "A", "n1", "n2")?)?;
    links.push(entry(alloc, 1, "B", "n2", "n3")?)?;
    Ok(Plan::new(
        alloc,
        Version::One,
        links,
        Vec::new(alloc),
        Vec::new(alloc),
        Vec::new(alloc),
        rounds,
        0,
    )?)
}

// The gate after a play of the plan by so many workers. Its plane has the number 0.
fn gate_of_a_play<R: Threads + Sync>(
    rt: &R,
    alloc: Global,
    plan: &Plan,
    workers: u32,
) -> Result<Counting, Fail>
    requires { (1 ≤ workers) × (workers ≤ 16) }
{
    let schedule = Schedule {
        written: false,
        items: Dos::new(Vec::new(alloc)),
    };
    let gate = Counting::new(0);
    match played(rt, alloc, plan, &schedule, workers, &gate) {
        Ok(_) => Ok(gate),
        Err(_) => Err(Fail::from("a plan that isn't played")),
    }
}

// Three rounds. Alone a worker makes their ticks in one stride, and calls the gate for each; two make the first round beside each other.
#[test]
fn a_play_calls_the_gate_around_each_tick(rt: HostRuntime) -> Result<(), Fail> {
    let alloc = rt.alloc();
    let plan = two_links(alloc, 3)?;
    let alone = gate_of_a_play(&rt, alloc, &plan, 1)?;
    assert_eq!(rt; alone.first.counts(), (3, 3));
    assert_eq!(rt; alone.second.counts(), (3, 3));
    assert_eq!(rt; alone.wrong_calls(), 0);
    let beside = gate_of_a_play(&rt, alloc, &plan, 2)?;
    assert_eq!(rt; beside.first.counts(), (3, 3));
    assert_eq!(rt; beside.second.counts(), (3, 3));
    assert_eq!(rt; beside.wrong_calls(), 0);
    Ok(())
}
