//! The queues of a link's static-priority scheduler: one a level, first come first served.
#![tactic(auto)]

ghost use Rattle.std.specs.Prelude.{◌≡◌, ℕ, ◌+◌, ◌-◌, ◌<◌, ◌≤◌, ◌↔◌, [], length, IsTrue, IsOk, OnOk, OnErr, IfOk, IsNone, IfSome, IfNone, is_some, if◌then◌else◌, All, map, replicate};
ghost use Rattle.std.specs.List.{AllWithin, HoldsAt};
ghost use Rattle.std.specs.VecDeque.{deque_len};
ghost use Rattle.net_units.specs.Numbers.{level_number};
ghost use Rattle.static_priority.specs.Room.{keys_of, HoldsEach};
ghost use Rattle.static_priority.specs.Queues.{PicksHead, with_pushed, numbered, head_of, left_of};

use net_units::{Level, OutOfMemory};
use std::alloc::Global;
use std::collections::VecDeque;
use std::marker::Model;

/// Keys that wait at the levels of a link, each level's in the order in which they came. The least level is
/// served first (Zhang & Ferrari 1993).
///
/// A contract sees the list of the queues, level 1 first, each as the list of its keys from the head on; and
/// for how many more keys there is room at every level, as `spare`.
#[derive(Debug, Drop)]
pub struct LevelQueues {
    queues: Vec<VecDeque<u32>>,
    // How many keys wait, at all levels together.
    waiting: usize,
    // For how many keys each queue has room, those that wait at any level included.
    room: usize,
}

impl Model for LevelQueues {
    ghost use Rattle.std.specs.Prelude.{◌-◌, map};
    ghost use Rattle.static_priority.specs.Queues.{Queues};
    ghost use Rattle.static_priority.specs.Room.{keys_of, HasRoomFor};

    ghost Value = { Queues };

    ghost view = { λ s. record { queues = map keys_of s.queues.items; spare = s.room - s.waiting } };

    ghost invariant = { λ s. HasRoomFor s.queues.items s.waiting s.room };
}

impl LevelQueues {
    /// Empty queues for `levels` levels, without room for a key. An `Err` comes only for want of memory.
    pub fn new(alloc: Global, levels: u8) -> Result<LevelQueues, OutOfMemory>
        ensures { IfOk result (λ made. made ≡ record { queues = replicate levels []; spare = 0 }) }
    {
        let queues = empty_queues(alloc, levels)?;
        Ok(LevelQueues {
            queues,
            waiting: 0,
            room: 0,
        })
    }

    /// Makes room for `more` more keys at every level at least. Where there is that room already it takes no
    /// memory. An `Err` changes nothing.
    pub fn reserve(&mut self, more: usize) -> Result<(), OutOfMemory>
        ensures room { OnOk result (more ≤ self.new.spare) }
        ensures had_room { more ≤ self.old.spare → IsOk result }
        ensures grows { self.old.spare ≤ self.new.spare }
        ensures kept { self.new ≡ record self.old { spare = self.new.spare } }
        ensures err { OnErr result (self.new ≡ self.old) }
    {
        if more <= self.room - self.waiting {
            return Ok(());
        }
        let room = self.waiting.checked_add(more).ok_or(OutOfMemory)?;
        reserve_each(&mut self.queues, room)?;
        self.room = room;
        Ok(())
    }

    /// Puts a key at the end of the queue of one of these levels. Room for it was reserved, so it takes no memory.
    pub fn push(&mut self, level: Level, key: u32)
        requires room { 1 ≤ self.old.spare }
        requires one_of { level_number level ≤ length self.old.queues }
        ensures { self.new ≡ record { queues = with_pushed self.old.queues (level_number level) key; spare = self.old.spare - 1 } }
    {
        let place = level.get() as usize - 1;
        self.queues[place].push_back_reserved(key);
        self.waiting += 1;
    }

    /// Whether no key waits.
    pub fn is_empty(&self) -> bool
        ensures { IsTrue result ↔ All (λ queue. queue ≡ []) self.now.queues }
    {
        self.waiting == 0
    }

    /// Takes the head of the least level whose queue isn't empty, with that level. None comes exactly where
    /// all are empty. It takes no memory.
    pub fn pick(&mut self) -> Option<(Level, u32)>
        ensures head { numbered result ≡ head_of self.old.queues }
        ensures left { self.new.queues ≡ left_of self.old.queues }
        ensures spare { self.new.spare ≡ self.old.spare + (if is_some result then 1 else 0) }

        ensures none { IsNone result ↔ All (λ queue. queue ≡ []) self.old.queues }
        ensures picked { IfSome result (λ picked. PicksHead self.old.queues self.new.queues (level_number picked.0) picked.1) }
    {
        let place = first_waiting(&self.queues)?;
        let level = Level::new(place as u8 + 1).unwrap();
        let key = self.queues[place].pop_front().unwrap();
        self.waiting -= 1;
        Some((level, key))
    }
}

// This many empty queues.
fn empty_queues(alloc: Global, levels: u8) -> Result<Vec<VecDeque<u32>>, OutOfMemory>
    ensures { IfOk result (λ queues. map keys_of queues.items ≡ replicate levels []) }
{
    let mut queues = Vec::with_capacity(alloc, levels as usize)?;
    for _level in 0..levels {
        queues.push(VecDeque::new(alloc))?;
    }
    Ok(queues)
}

// Makes each queue able to hold this number of keys.
fn reserve_each(queues: &mut [VecDeque<u32>], room: usize) -> Result<(), OutOfMemory>
    ensures keys { map keys_of queues.new ≡ map keys_of queues.old }
    ensures grows { (least : ℕ) → HoldsEach queues.old least → HoldsEach queues.new least }
    ensures room { OnOk result (HoldsEach queues.new room) }
{
    for queue in queues.iter_mut() {
        queue.reserve(room.saturating_sub(queue.len()))?;
    }
    Ok(())
}

// The place of the first queue that isn't empty.
fn first_waiting(queues: &[VecDeque<u32>]) -> Option<usize>
    ensures none { IfNone result (All (λ queue. deque_len queue ≡ 0) queues.now) }
    ensures within { IfSome result (λ place. place < length queues.now) }
    ensures found { IfSome result (HoldsAt (λ queue. 0 < deque_len queue) queues.now) }
    ensures first { IfSome result (AllWithin (λ queue. deque_len queue ≡ 0) queues.now 0) }
{
    queues.iter().position(|queue| !queue.is_empty())
}
