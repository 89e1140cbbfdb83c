//! Two links that make ticks beside each other, worked by hand. They have the levels 10, 20 and 40, and nothing to do.
ghost use Rattle.std.specs.Prelude.{◌≡◌, IfOk};
ghost use Rattle.net_units.specs.Numbers.{link_number};

use link_server::LinkState;
use link_steps::{Ask, LinkShape, LinkStep, Reply};
use net_units::{ActorNo, Bounds, Gate, LinkNo};
use plane_workers::{batch, played};
use std::alloc::Global;
use std::process::Abort;
use std::sync::atomic::{AtomicBool, AtomicU64, Ordering};
use std::test::Fail;
use std::thread;
use std::thread::Threads;
use traffic_contract::Test;

mod counted;
mod one_link;

// A link of this number.
fn shape(number: u8) -> Result<LinkShape, Fail>
    ensures { IfOk result (λ made. link_number made.link ≡ number) }
{
    let link = LinkNo::new(number).ok_or("a link")?;
    let bounds = Bounds::new(&[10, 20, 40]).ok_or("bounds")?;
    Ok(LinkShape::new(link, 1, 4, 2, 100, bounds, Test::Whole, 0)?)
}

// It has made no step.
fn link(alloc: Global, number: u8) -> Result<LinkState, Fail> {
    Ok(LinkState::new(alloc, shape(number)?)?)
}

// The replies to a tick of the second of two links, one of the first, and another of the second, by two workers.
fn ticks<R: Threads + Sync, L: LinkStep + Send, G: Gate + Sync>(
    rt: &R,
    alloc: Global,
    first: L,
    second: L,
    gate: &G,
) -> Result<Vec<Reply>, Fail> {
    let zero = LinkNo::new(0).ok_or("a link")?;
    let one = LinkNo::new(1).ok_or("a link")?;
    let plane = ActorNo::new(0).ok_or("an actor")?;
    if first.shape().link.get() != 0 || second.shape().link.get() != 1 {
        return Err(Fail::from("a link of another number"));
    }
    if first.clock() != 0 || second.clock() != 0 {
        return Err(Fail::from("a link that has made a tick"));
    }
    let mut links = Vec::new(alloc);
    links.push(first)?;
    links.push(second)?;
    let asks = [(one, Ask::Tick), (zero, Ask::Tick), (one, Ask::Tick)];
    let (_links, replies) = batch(rt, alloc, links, &asks, 2, gate, plane)?;
    Ok(replies)
}

fn ticked(clock: u64) -> Reply {
    Reply::Ticked {
        clock,
        full: 0,
        sent: None,
        best_sent: false,
        best_lost: false,
    }
}

// Each of the links waits, within its first tick, until the other is within its own.
#[derive(Drop)]
struct Meeting {
    first_came: AtomicBool,
    second_came: AtomicBool,
    missed: AtomicU64,
}

impl Gate for Meeting {
    fn within(&self, link: LinkNo, _actor: ActorNo) {
        let (own, other) = if link.get() == 0 {
            (&self.first_came, &self.second_came)
        } else {
            (&self.second_came, &self.first_came)
        };
        own.store(true, Ordering::SeqCst);
        for _ in 0..10_000_000 {
            if other.load(Ordering::SeqCst) {
                return;
            }
            thread::yield_now();
        }
        self.missed.fetch_add(1, Ordering::SeqCst);
    }

    fn after(&self, _link: LinkNo, _actor: ActorNo) {}
}

#[test]
fn links_answer_their_own_asks(rt: HostRuntime) -> Result<(), Fail> {
    let alloc = rt.alloc();
    let gate = Meeting {
        first_came: AtomicBool::new(false),
        second_came: AtomicBool::new(false),
        missed: AtomicU64::new(0),
    };
    let replies = ticks(&rt, alloc, link(alloc, 0)?, link(alloc, 1)?, &gate)?;
    assert_eq!(rt;
        replies.as_slice(),
        [ticked(0), ticked(0), ticked(1)].as_slice()
    );
    assert_eq!(rt; gate.missed.load(Ordering::SeqCst), 0);
    Ok(())
}
