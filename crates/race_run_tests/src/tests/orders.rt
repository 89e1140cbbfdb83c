//! Which order a race keeps: the plane's last rounds come after all callers, and a link's steps one after the other.
use super::{plan, rises, run_of};
use call_script::Do;
use link_steps::Ask;
use net_units::{ActorNo, Gate, LinkNo, NoGate};
use race_run::race;
use shared_network::Closed;
use std::process::Abort;
use std::sync::atomic::{AtomicU64, Ordering};
use std::test::Fail;
use std::thread;

// Whether the last item is the plane's, of the number 2, for this many steps, and those before it are the callers'.
fn ends_with_plane(items: &[Do], steps: u64) -> bool {
    match items.split_last() {
        Some((last, callers)) => {
            (last.actor.get(), last.count) == (2, steps)
                && callers.iter().all(|item| item.actor.get() < 2)
        }
        None => false,
    }
}

// Two callers make two steps each, and then the plane makes three rounds of two links.
#[test]
fn the_last_rounds_come_after_all_callers(rt: HostRuntime) -> Result<(), Fail> {
    let alloc = rt.alloc();
    let plan = plan(alloc, 2, 2, false, (0, 3))?;
    let (_closed, raced) = run_of(&rt, alloc, &plan, &NoGate)?;
    assert!(rt; ends_with_plane(raced.schedule.items.as_slice(), 6));
    assert!(rt; raced.run.entries().len() == 10);
    Ok(())
}

// How long a step of the first link stands, or a caller after it, in turns.
const STAND: u64 = 1_000;

fn stand() {
    for _ in 0..STAND {
        thread::yield_now();
    }
}

// The caller opens its channel. Once the plane has made a step, it sends; once the plane has made its rounds beside it, it stands for a
// while, and then it closes. The plane goes on once the caller has sent.
#[derive(Drop)]
struct SendsEarly {
    caller: AtomicU64,
    plane: AtomicU64,
    missed: AtomicU64,
}

impl SendsEarly {
    fn wait(&self, number: &AtomicU64, least: u64) {
        if !rises(number, least) {
            self.missed.fetch_add(1, Ordering::SeqCst);
        }
    }

    fn caller_has_made(&self, steps: u64) {
        if steps == 8 {
            self.wait(&self.plane, 1);
        }
        if steps == 9 {
            self.wait(&self.plane, 20);
            stand();
        }
    }
}

impl Gate for SendsEarly {
    fn within(&self, _link: LinkNo, _actor: ActorNo) {}

    fn after(&self, _link: LinkNo, actor: ActorNo) {
        if actor.get() == 0 {
            let before = self.caller.fetch_add(1, Ordering::SeqCst);
            self.caller_has_made(before.wrapping_add(1));
        } else if self.plane.fetch_add(1, Ordering::SeqCst) == 0 {
            self.wait(&self.caller, 9);
        }
    }
}

// Whether the plane's entry after this many is an arrival, with a stamp above all of the caller's, of which there are 13.
fn arrives_last(closed: &Closed, before: usize) -> bool {
    let [caller, plane] = closed.passes.as_slice() else {
        return false;
    };
    match (caller.own().last(), plane.own().get(before)) {
        (Some(last), Some(next)) => {
            caller.own().len() == 13
                && matches!(next.ask, Ask::Arrive { .. })
                && last.stamp < next.stamp
        }
        _ => false,
    }
}

// A packet that is planned for the second tick reaches the second link in round 5, the first one after those beside the caller.
#[test]
fn a_packet_due_in_the_tail_arrives_after_all_callers(rt: HostRuntime) -> Result<(), Fail> {
    let alloc = rt.alloc();
    let plan = plan(alloc, 4, 1, true, (5, 3))?;
    let gate = SendsEarly {
        caller: AtomicU64::new(0),
        plane: AtomicU64::new(0),
        missed: AtomicU64::new(0),
    };
    let closed = race(&rt, alloc, &plan, &gate)?;
    assert!(rt; gate.missed.load(Ordering::SeqCst) == 0);
    assert!(rt; arrives_last(&closed, 20));
    Ok(())
}

// Counts the steps of the first link, and those that another one came into while they stood.
#[derive(Drop)]
struct Alone {
    inside: AtomicU64,
    made: AtomicU64,
    met: AtomicU64,
}

impl Gate for Alone {
    fn within(&self, link: LinkNo, _actor: ActorNo) {
        if link.get() != 0 {
            return;
        }
        let before = self.inside.fetch_add(1, Ordering::SeqCst);
        stand();
        let after = self.inside.fetch_sub(1, Ordering::SeqCst);
        if before != 0 || after != 1 {
            self.met.fetch_add(1, Ordering::SeqCst);
        }
        self.made.fetch_add(1, Ordering::SeqCst);
    }

    fn after(&self, _link: LinkNo, _actor: ActorNo) {}
}

// Each of two callers reserves, relaxes, submits and releases at the first link.
#[test]
fn no_step_of_a_link_comes_into_another(rt: HostRuntime) -> Result<(), Fail> {
    let alloc = rt.alloc();
    let plan = plan(alloc, 4, 2, true, (0, 0))?;
    let gate = Alone {
        inside: AtomicU64::new(0),
        made: AtomicU64::new(0),
        met: AtomicU64::new(0),
    };
    race(&rt, alloc, &plan, &gate)?;
    assert!(rt; gate.made.load(Ordering::SeqCst) == 8);
    assert!(rt; gate.met.load(Ordering::SeqCst) == 0);
    Ok(())
}
