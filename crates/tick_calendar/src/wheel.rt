//! The wheel of a calendar: its entries in the order of their puts, with chains of those that are due soon.
ghost use Rattle.std.specs.Prelude.{◌≡◌, ℕ, ◌+◌, ◌-◌, ◌^◌, ◌<◌, ◌≤◌, ◌++◌, ◌∷◌, [], suc, true, Some, None, is_some, IfOk, OnOk, IfNone, IfSome, All, length, get_or, drop};
ghost use Rattle.std.specs.Vec.{vec_capacity};
ghost use Rattle.tick_calendar.specs.Wheel.{entries_in, IsWheel, IsWheelFrom, AreAllFrom, IsLeastBy, Stands};

use crate::place::Place;
use net_units::OutOfMemory;
use std::alloc::Global;

// The entries, and a slot for each of the 1,024 ticks from `base` on, with the first and the last place of its chain.
#[derive(Debug, Drop)]
pub(crate) struct Wheel<T> {
    pub(crate) places: Vec<Place<T>>,
    pub(crate) firsts: Vec<Option<usize>>,
    pub(crate) lasts: Vec<usize>,
    pub(crate) base: u64,
    // No entry is due before this slot's tick.
    pub(crate) slot: usize,
}

impl<T: Copy> Wheel<T> {
    ghost use Rattle.tick_calendar.specs.Wheel.{RemovesFirst, StandsFirst};

    // A wheel with no entry, whose turn begins at tick 0.
    pub(crate) fn new(alloc: Global) -> Result<Wheel<T>, OutOfMemory>
        ensures wheel { IfOk result (λ made. IsWheel made.places.items made.firsts.items made.lasts.items made.base) }
        ensures empty { IfOk result (λ made. made.places.items ≡ []) }
        ensures base { IfOk result (λ made. made.base ≡ 0) }
        ensures slot { IfOk result (λ made. made.slot ≡ 0) }
    {
        Ok(Wheel {
            places: Vec::new(alloc),
            firsts: vec![in alloc; None; 1_024]?,
            lasts: vec![in alloc; 0; 1_024]?,
            base: 0,
            slot: 0,
        })
    }

    // The entries, in the order in which they were put.
    pub(crate) fn entries(&self, alloc: Global) -> Result<Vec<(u64, T)>, OutOfMemory>
        ensures { IfOk result (λ all. all.items ≡ entries_in self.now.places.items) }
    {
        let mut entries = Vec::new(alloc);
        for place in &self.places {
            if place.waits {
                entries.push((place.tick, place.key))?;
            }
        }
        Ok(entries)
    }

    // Takes memory for two places an entry, and for a turn's slots, so that few turns are made to clear places.
    pub(crate) fn reserve(&mut self, room: usize) -> Result<(), OutOfMemory>
        ensures room { OnOk result (room ≤ vec_capacity self.new.places) }
        ensures grows { vec_capacity self.old.places ≤ vec_capacity self.new.places }
        ensures places { self.new.places.items ≡ self.old.places.items }
        ensures firsts { self.new.firsts ≡ self.old.firsts }
        ensures lasts { self.new.lasts ≡ self.old.lasts }
        ensures base { self.new.base ≡ self.old.base }
        ensures slot { self.new.slot ≡ self.old.slot }
    {
        let places = room
            .checked_mul(2)
            .and_then(|places| places.checked_add(1_024))
            .ok_or(OutOfMemory)?;
        self.places
            .reserve(places.saturating_sub(self.places.len()))?;
        Ok(())
    }

    // How many entries its places are for: two places an entry, beside one for each slot of a turn.
    pub(crate) fn room(&self) -> usize
        ensures { result ≤ vec_capacity self.now.places }
    {
        self.places.capacity().saturating_sub(1_024) / 2
    }

    // Clears the places that keys have left where no other place is free.
    pub(crate) fn clear_if_full(&mut self)
        requires wheel { IsWheel self.old.places.items self.old.firsts.items self.old.lasts.items self.old.base }
        requires slot { self.old.slot < 1024 }
        requires ahead { AreAllFrom (self.old.base + self.old.slot) (entries_in self.old.places.items) }
        requires fits { self.old.base + self.old.slot < 2 ^ 64 }
        requires room { length (entries_in self.old.places.items) < vec_capacity self.old.places }
        ensures wheel { IsWheel self.new.places.items self.new.firsts.items self.new.lasts.items self.new.base }
        ensures slot { self.new.slot < 1024 }
        ensures entries { entries_in self.new.places.items ≡ entries_in self.old.places.items }
        ensures capacity { vec_capacity self.new.places ≡ vec_capacity self.old.places }
        ensures room { length self.new.places.items < vec_capacity self.new.places }
        ensures begun { self.new.base + self.new.slot ≡ self.old.base + self.old.slot }
    {
        if self.places.len() < self.places.capacity() {
            return;
        }
        self.turn(self.base + self.slot as u64);
    }

    // Puts an entry after the others. It takes no memory.
    pub(crate) fn append(&mut self, tick: u64, key: T)
        requires wheel { IsWheel self.old.places.items self.old.firsts.items self.old.lasts.items self.old.base }
        requires ahead { self.old.base ≤ tick }
        requires room { length self.old.places.items < vec_capacity self.old.places }
        ensures wheel { IsWheel self.new.places.items self.new.firsts.items self.new.lasts.items self.new.base }
        ensures entries { entries_in self.new.places.items ≡ entries_in self.old.places.items ++ (tick, key) ∷ [] }
        ensures capacity { vec_capacity self.new.places ≡ vec_capacity self.old.places }
        ensures base { self.new.base ≡ self.old.base }
        ensures slot { self.new.slot ≡ self.old.slot }
    {
        let place = self.places.len();
        self.places.push_reserved(Place {
            tick,
            key,
            waits: true,
            next: None,
        });
        if tick - self.base >= 1_024 {
            return;
        }
        let slot = (tick - self.base) as usize;
        if self.firsts[slot].is_none() {
            self.firsts[slot] = Some(place);
            self.lasts[slot] = place;
            return;
        }
        let last = self.lasts[slot];
        self.places[last].next = Some(place);
        self.lasts[slot] = place;
    }

    // Takes out the entry that was put first among those of the slot. It takes no memory.
    pub(crate) fn take(&mut self, first: usize) -> T
        requires wheel { IsWheel self.old.places.items self.old.firsts.items self.old.lasts.items self.old.base }
        requires slot { self.old.slot < 1024 }
        requires first { get_or self.old.firsts.items self.old.slot None ≡ Some first }
        ensures wheel { IsWheel self.new.places.items self.new.firsts.items self.new.lasts.items self.new.base }
        ensures entries { RemovesFirst (self.old.base + self.old.slot) self.old.places.items self.new.places.items result }
        ensures capacity { vec_capacity self.new.places ≡ vec_capacity self.old.places }
        ensures base { self.new.base ≡ self.old.base }
        ensures slot { self.new.slot ≡ self.old.slot }
    {
        let Place { key, next, .. } = self.places[first];
        self.places[first].waits = false;
        self.firsts[self.slot] = next;
        key
    }

    // The place of the entry that was put first among those of the slot.
    #[inline(always)]
    pub(crate) fn standing(&self) -> Option<usize>
        requires slots { length self.now.firsts.items ≡ 1024 }
        requires slot { self.now.slot < 1024 }
        ensures { result ≡ get_or self.now.firsts.items self.now.slot None }
    {
        self.firsts[self.slot]
    }

    // The key of the entry that was put first among those of the slot.
    #[inline(always)]
    pub(crate) fn first_key(&self, first: usize) -> &T
        requires wheel { IsWheel self.now.places.items self.now.firsts.items self.now.lasts.items self.now.base }
        requires slot { self.now.slot < 1024 }
        requires first { get_or self.now.firsts.items self.now.slot None ≡ Some first }
        ensures { StandsFirst (self.now.base + self.now.slot) self.now.places.items result.now }
    {
        &self.places[first].key
    }

    // Goes on to a tick before which no entry is due, as far as the turn goes, so that the slots between aren't looked at.
    #[inline(always)]
    pub(crate) fn skip_to(&mut self, tick: u64)
        requires wheel { IsWheel self.old.places.items self.old.firsts.items self.old.lasts.items self.old.base }
        requires slot { self.old.slot < 1024 }
        requires ahead { AreAllFrom (self.old.base + self.old.slot) (entries_in self.old.places.items) }
        requires from { AreAllFrom tick (entries_in self.old.places.items) }
        ensures wheel { IsWheel self.new.places.items self.new.firsts.items self.new.lasts.items self.new.base }
        ensures slot { self.new.slot < 1024 }
        ensures begun { (now : ℕ) → tick ≤ now → self.old.base + self.old.slot ≤ now → self.new.base + self.new.slot ≤ now }
        ensures ahead { AreAllFrom (self.new.base + self.new.slot) (entries_in self.new.places.items) }
        ensures entries { entries_in self.new.places.items ≡ entries_in self.old.places.items }
        ensures capacity { vec_capacity self.new.places ≡ vec_capacity self.old.places }
    {
        let slot = tick.saturating_sub(self.base).min(1_023) as usize;
        if slot > self.slot {
            self.slot = slot;
        }
    }

    // Goes on to the first tick with an entry, where that is at most `now`, or else to one from which on nothing is due up to `now`.
    // Answers a tick before which no entry is due. It takes no memory.
    pub(crate) fn stand(&mut self, now: u64) -> u64
        requires wheel { IsWheel self.old.places.items self.old.firsts.items self.old.lasts.items self.old.base }
        requires slot { self.old.slot < 1024 }
        requires begun { self.old.base + self.old.slot ≤ now }
        requires ahead { AreAllFrom (self.old.base + self.old.slot) (entries_in self.old.places.items) }
        ensures wheel { IsWheel self.new.places.items self.new.firsts.items self.new.lasts.items self.new.base }
        ensures slot { self.new.slot < 1024 }
        ensures begun { self.new.base + self.new.slot ≤ now }
        ensures ahead { AreAllFrom (self.new.base + self.new.slot) (entries_in self.new.places.items) }
        ensures entries { entries_in self.new.places.items ≡ entries_in self.old.places.items }
        ensures capacity { vec_capacity self.new.places ≡ vec_capacity self.old.places }
        ensures stands { Stands self.new.base self.new.slot now (entries_in self.new.places.items) }
        ensures next { AreAllFrom result (entries_in self.new.places.items) }
    {
        if self.standing().is_some() {
            return self.base + self.slot as u64;
        }
        if self.first_due(now).is_some() {
            return self.base + self.slot as u64;
        }
        self.first_from()
    }

    // Goes on to the first tick with an entry, where that is at most `now`, by a new turn where this one is over. Answers
    // the place of the entry that was put first among those of that tick. It takes no memory.
    fn first_due(&mut self, now: u64) -> Option<usize>
        requires wheel { IsWheel self.old.places.items self.old.firsts.items self.old.lasts.items self.old.base }
        requires slot { self.old.slot < 1024 }
        requires begun { self.old.base + self.old.slot ≤ now }
        requires ahead { AreAllFrom (self.old.base + self.old.slot) (entries_in self.old.places.items) }
        ensures wheel { IsWheel self.new.places.items self.new.firsts.items self.new.lasts.items self.new.base }
        ensures slot { self.new.slot < 1024 }
        ensures begun { self.new.base + self.new.slot ≤ now }
        ensures ahead { AreAllFrom (self.new.base + self.new.slot) (entries_in self.new.places.items) }
        ensures entries { entries_in self.new.places.items ≡ entries_in self.old.places.items }
        ensures capacity { vec_capacity self.new.places ≡ vec_capacity self.old.places }
        ensures none { result ≡ None → AreAllFrom (suc now) (entries_in self.new.places.items) }
        ensures found { result ≡ get_or self.new.firsts.items self.new.slot None }
    {
        self.slot = self.next_slot((now - self.base).min(1_023) as usize);
        let first = self.firsts[self.slot];
        if first.is_some() || now - self.base < 1_024 {
            return first;
        }
        let base = least_tick(&self.places, now);
        self.turn(base);
        self.firsts[0]
    }

    // The first slot with an entry, or the slot `last` where that comes first.
    fn next_slot(&self, last: usize) -> usize
        requires wheel { IsWheel self.now.places.items self.now.firsts.items self.now.lasts.items self.now.base }
        requires last { last < 1024 }
        requires slot { self.now.slot ≤ last }
        requires ahead { AreAllFrom (self.now.base + self.now.slot) (entries_in self.now.places.items) }
        ensures within { result ≤ last }
        ensures ahead { AreAllFrom (self.now.base + result) (entries_in self.now.places.items) }
        ensures found { result < last → is_some (get_or self.now.firsts.items result None) ≡ true }
    {
        for slot in self.skip_empty(last)..last {
            if self.firsts[slot].is_some() {
                return slot;
            }
        }
        last
    }

    // A slot up to `last`, before which none from the slot at hand on has an entry. Most slots have none, so four are looked at
    // in one step; where it stops, one of the next four may be the first with an entry.
    fn skip_empty(&self, last: usize) -> usize
        requires wheel { IsWheel self.now.places.items self.now.firsts.items self.now.lasts.items self.now.base }
        requires last { last < 1024 }
        requires slot { self.now.slot ≤ last }
        requires ahead { AreAllFrom (self.now.base + self.now.slot) (entries_in self.now.places.items) }
        ensures from { self.now.slot ≤ result }
        ensures within { result ≤ last }
        ensures ahead { AreAllFrom (self.now.base + result) (entries_in self.now.places.items) }
    {
        let mut slot = self.slot;
        while slot + 4 <= last && self.four_are_empty(slot) {
            slot += 4;
        }
        slot
    }

    // Whether this slot and the three after it have no entry. It looks at all four, which is quicker than to decide after each.
    #[inline(always)]
    fn four_are_empty(&self, slot: usize) -> bool
        requires wheel { IsWheel self.now.places.items self.now.firsts.items self.now.lasts.items self.now.base }
        requires slot { slot + 4 ≤ 1024 }
        requires ahead { AreAllFrom (self.now.base + slot) (entries_in self.now.places.items) }
        ensures { result ≡ true → AreAllFrom (self.now.base + (slot + 4)) (entries_in self.now.places.items) }
    {
        self.firsts[slot].is_none()
            & self.firsts[slot + 1].is_none()
            & self.firsts[slot + 2].is_none()
            & self.firsts[slot + 3].is_none()
    }

    // A tick before which no entry is due: that of the first slot from `slot` on with an entry, or of the last slot.
    fn first_from(&self) -> u64
        requires wheel { IsWheel self.now.places.items self.now.firsts.items self.now.lasts.items self.now.base }
        requires slot { self.now.slot < 1024 }
        requires ahead { AreAllFrom (self.now.base + self.now.slot) (entries_in self.now.places.items) }
        ensures { AreAllFrom result (entries_in self.now.places.items) }
    {
        self.base.saturating_add(self.next_slot(1_023) as u64)
    }

    // Begins a turn: the slots are those of the ticks from `base` on. The places that keys have left are gone.
    fn turn(&mut self, base: u64)
        requires wheel { IsWheel self.old.places.items self.old.firsts.items self.old.lasts.items self.old.base }
        requires slot { self.old.slot < 1024 }
        requires past { AreAllFrom (self.old.base + self.old.slot) (entries_in self.old.places.items) }
        requires ahead { AreAllFrom base (entries_in self.old.places.items) }
        ensures wheel { IsWheel self.new.places.items self.new.firsts.items self.new.lasts.items self.new.base }
        ensures entries { entries_in self.new.places.items ≡ entries_in self.old.places.items }
        ensures capacity { vec_capacity self.new.places ≡ vec_capacity self.old.places }
        ensures full { length self.new.places.items ≡ length (entries_in self.new.places.items) }
        ensures base { self.new.base ≡ base }
        ensures slot { self.new.slot ≡ 0 }
    {
        self.places.retain(|place| place.waits);
        // those before the slot at hand name none already
        clear_from(&mut self.firsts, self.slot);
        self.base = base;
        self.slot = 0;
        let mut index = self.places.len();
        while index > 0 {
            index -= 1;
            self.link(index);
        }
    }

    // Puts the place at an index before the chain of its tick, where that tick is one of the turn. Those after it are in
    // their chains.
    fn link(&mut self, index: usize)
        requires wheel { IsWheelFrom (suc index) (drop (suc index) self.old.places.items) self.old.firsts.items self.old.lasts.items self.old.base }
        requires within { index < length self.old.places.items }
        requires waits { All (λ place. place.waits ≡ true) self.old.places.items }
        requires ahead { All (λ place. self.old.base ≤ place.tick) self.old.places.items }
        ensures wheel { IsWheelFrom index (drop index self.new.places.items) self.new.firsts.items self.new.lasts.items self.new.base }
        ensures waits { All (λ place. place.waits ≡ true) self.new.places.items }
        ensures ahead { All (λ place. self.new.base ≤ place.tick) self.new.places.items }
        ensures entries { entries_in self.new.places.items ≡ entries_in self.old.places.items }
        ensures capacity { vec_capacity self.new.places ≡ vec_capacity self.old.places }
        ensures len { length self.new.places.items ≡ length self.old.places.items }
        ensures base { self.new.base ≡ self.old.base }
        ensures slot { self.new.slot ≡ self.old.slot }
    {
        let tick = self.places[index].tick;
        if tick - self.base >= 1_024 {
            return;
        }
        let slot = (tick - self.base) as usize;
        let first = self.firsts[slot];
        self.places[index].next = first;
        self.firsts[slot] = Some(index);
        if first.is_some() {
            return;
        }
        self.lasts[slot] = index;
    }
}

// Clears these slots from one on.
fn clear_from(firsts: &mut Vec<Option<usize>>, from: usize)
    requires { from ≤ length firsts.old.items }
    ensures slots { length firsts.new.items ≡ length firsts.old.items }
    ensures cleared { (slot : ℕ) → from ≤ slot → get_or firsts.new.items slot None ≡ None }
    ensures before { (slot : ℕ) → slot < from → get_or firsts.new.items slot None ≡ get_or firsts.old.items slot None }
{
    for slot in from..firsts.len() {
        firsts[slot] = None;
    }
}

// The least tick of an entry, or `now` where that is less.
fn least_tick<T>(places: &[Place<T>], now: u64) -> u64
    ensures { IsLeastBy (entries_in places.now) now result }
{
    let mut least = now;
    for place in places {
        if place.waits {
            least = least.min(place.tick);
        }
    }
    least
}
