//! A gate at which two actors, each on a link of its own, meet.
use net_units::{ActorNo, Gate, LinkNo};
use std::sync::atomic::{AtomicBool, AtomicU64, Ordering};
use std::thread;

// At its first step each of two actors, the one of link 0 and the one of link 1, waits until the other is at its own. Then the
// one of the link `late`, if there is such a link, waits until the other has made two steps.
#[derive(Drop)]
pub(super) struct Meeting {
    late: u8,
    first_came: AtomicBool,
    second_came: AtomicBool,
    met: AtomicU64,
    early_steps: AtomicU64,
}

impl Meeting {
    pub(super) fn new(late: u8) -> Meeting {
        Meeting {
            late,
            first_came: AtomicBool::new(false),
            second_came: AtomicBool::new(false),
            met: AtomicU64::new(0),
            early_steps: AtomicU64::new(0),
        }
    }

    // How many have seen that the other has come.
    pub(super) fn met(&self) -> u64 {
        self.met.load(Ordering::SeqCst)
    }

    // Waits until the other has come.
    fn meet(&self, mine: &AtomicBool, other: &AtomicBool) {
        if mine.swap(true, Ordering::SeqCst) {
            return;
        }
        for _ in 0..10_000_000 {
            if other.load(Ordering::SeqCst) {
                self.met.fetch_add(1, Ordering::SeqCst);
                return;
            }
            thread::yield_now();
        }
    }

    // Waits until the one that goes first has made two steps.
    fn wait(&self) {
        for _ in 0..10_000_000 {
            if self.early_steps.load(Ordering::SeqCst) >= 2 {
                return;
            }
            thread::yield_now();
        }
    }
}

impl Gate for Meeting {
    fn within(&self, link: LinkNo, _actor: ActorNo) {
        if link.get() == 0 {
            self.meet(&self.first_came, &self.second_came);
        } else {
            self.meet(&self.second_came, &self.first_came);
        }
        if link.get() == self.late {
            self.wait();
        }
    }

    fn after(&self, link: LinkNo, _actor: ActorNo) {
        if link.get() != self.late {
            self.early_steps.fetch_add(1, Ordering::SeqCst);
        }
    }
}
