//! The keys of the packets that are ready to start, in a queue for each level.
ghost use Rattle.std.specs.Prelude.{◌≡◌, ◌+◌, ◌-◌, ◌<◌, ◌≤◌, ◌∷◌, ◌++◌, [], true, length, replicate, IfOk, OnOk};
ghost use Rattle.std.specs.VecDeque.{deque_capacity};
ghost use Rattle.link_server.specs.Queues.{joined};

use net_units::limits::MOST_LEVELS;
use net_units::{Level, OutOfMemory};
use static_priority::LevelQueues;
use std::alloc::Global;
use std::collections::VecDeque;

// A queue of keys for each level from 1 to 9. The ninth is that of the best-effort packets of a link with eight levels.
#[derive(Drop)]
pub(crate) struct Ready {
    pub(crate) levels: LevelQueues,
    pub(crate) ninth: VecDeque<u32>,
    // For how many keys there is room.
    pub(crate) room: usize,
    ghost eight: { length levels.queues ≡ 8 },
    ghost levels_hold: { room ≤ length (joined levels.queues) + levels.spare },
    ghost ninth_holds: { room ≤ deque_capacity ninth },
}

impl Ready {
    ghost use Rattle.link_server.specs.Queues.{first_of, after_first, pushed};
    ghost use Rattle.link_server.specs.Ready.{queues_of};

    // Nobody is ready, and there is no room.
    pub(crate) fn new(alloc: Global) -> Result<Ready, OutOfMemory>
        ensures queues { IfOk result (λ made. queues_of made ≡ replicate 9 []) }
        ensures room { IfOk result (λ made. made.room ≡ 0) }
    {
        Ok(Ready {
            levels: LevelQueues::new(alloc, MOST_LEVELS)?,
            ninth: VecDeque::new(alloc),
            room: 0,
        })
    }

    // Makes room for `room` keys in all.
    pub(crate) fn reserve(&mut self, room: usize) -> Result<(), OutOfMemory>
        ensures room { OnOk result (room ≤ self.new.room) }
        ensures grows { self.old.room ≤ self.new.room }
        ensures queues { queues_of self.new ≡ queues_of self.old }
    {
        self.levels.reserve(room)?;
        self.ninth.reserve(room.saturating_sub(self.ninth.len()))?;
        self.room = self.room.max(room);
        Ok(())
    }

    // Whether no key is ready.
    pub(crate) fn is_empty(&self) -> bool
        ensures { result ≡ true → joined (queues_of self.now) ≡ [] }
    {
        self.levels.is_empty() && self.ninth.is_empty()
    }

    // Puts a key at the end of the queue of its level. There is room for it, so it takes no memory.
    pub(crate) fn push(&mut self, level: u8, key: u32)
        requires least { 1 ≤ level }
        requires most { level ≤ 9 }
        requires room { length (joined (queues_of self.old)) < self.old.room }
        ensures queues { queues_of self.new ≡ pushed (queues_of self.old) (level - 1) key }
        ensures room { self.new.room ≡ self.old.room }
    {
        match Level::new(level) {
            Some(level) => self.levels.push(level, key),
            None => self.ninth.push_back_reserved(key),
        }
    }

    // Takes out the head of the least level whose queue isn't empty. It takes no memory.
    pub(crate) fn pick(&mut self) -> Option<u32>
        ensures first { result ≡ first_of (queues_of self.old) }
        ensures left { queues_of self.new ≡ after_first (queues_of self.old) }
        ensures room { self.new.room ≡ self.old.room }
    {
        match self.levels.pick() {
            Some((_, key)) => Some(key),
            None => self.ninth.pop_front(),
        }
    }
}
