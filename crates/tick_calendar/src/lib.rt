//! A calendar of keys that fall due at ticks to come.
#![tactic(auto)]

ghost use Rattle.std.specs.Prelude.{◌≡◌, ◌+◌, ◌-◌, ◌<◌, ◌≤◌, ◌↔◌, ◌++◌, ◌∷◌, [], IsOk, OnOk, OnErr, IfOk, IsNone, IfNone, IfSome, is_some, if◌then◌else◌, option_copied, All, length};
ghost use Rattle.tick_calendar.specs.Calendar.{PunctualIsFirst, TakesDue, due_key, left_after};

mod place;
mod wheel;

use crate::wheel::Wheel;
use net_units::OutOfMemory;
use std::alloc::Global;
use std::marker::Model;

/// Keys, each put for a tick, which are taken out as their ticks come: the least tick first, and of equal
/// ticks the one that was put earliest.
///
/// A contract sees the list of the entries, a tick and a key each, in the order in which they were put; how
/// many more entries there is room for, as `spare`; and the tick to which it has gone on, 0 at first, as `clock`.
#[derive(Debug, Drop)]
pub struct Calendar<T = u32> {
    wheel: Wheel<T>,
    // How many entries there are, and how many there is room for: half as many as places, so that a turn that is made
    // to clear the places is paid for by the keys that were taken.
    waiting: usize,
    room: usize,
    clock: u64,
    // No key is due before this tick.
    next: u64,
}

/// Where no key is late, the first that was put for this very tick is taken.
pub fn the_punctual_are_taken_in_their_order<T>()
    ensures { PunctualIsFirst T }
{}

impl<T> Model for Calendar<T> {
    ghost use Rattle.std.specs.Prelude.{◌-◌, vec_capacity};
    ghost use Rattle.tick_calendar.specs.Calendar.{TimetableOf, timetable_code};
    ghost use Rattle.tick_calendar.specs.Wheel.{entries_in, AreAllFrom, IsKeptWheel};

    ghost Value = { TimetableOf T };

    ghost coded = { timetable_code T.code };

    ghost view = { λ c. record { entries = entries_in c.wheel.places.items; spare = c.room - c.waiting; clock = c.clock } };

    ghost invariant = { λ c. IsKeptWheel c.wheel.places.items c.wheel.firsts.items c.wheel.lasts.items c.wheel.base c.wheel.slot c.waiting c.room c.clock (vec_capacity c.wheel.places) × AreAllFrom c.next (entries_in c.wheel.places.items) };
}

impl<T: Copy> Calendar<T> {
    /// A calendar with no entry, without room for one. An `Err` comes only for want of memory.
    pub fn new(alloc: Global) -> Result<Calendar<T>, OutOfMemory>
        ensures { IfOk result (λ made. made ≡ record { entries = []; spare = 0; clock = 0 }) }
    {
        Ok(Calendar {
            wheel: Wheel::new(alloc)?,
            waiting: 0,
            room: 0,
            clock: 0,
            next: u64::MAX,
        })
    }

    /// Makes room for `more` more entries at least. Where there is that room already it does nothing. An `Err` changes
    /// nothing.
    #[inline(always)]
    pub fn reserve(&mut self, more: usize) -> Result<(), OutOfMemory>
        ensures room { OnOk result (more ≤ self.new.spare) }
        ensures had_room { more ≤ self.old.spare → IsOk result }
        ensures nothing { more ≤ self.old.spare → self.new ≡ self.old }
        ensures grows { self.old.spare ≤ self.new.spare }
        ensures kept { self.new ≡ record self.old { spare = self.new.spare } }
        ensures err { OnErr result (self.new ≡ self.old) }
    {
        if more <= self.room - self.waiting {
            return Ok(());
        }
        self.reserve_more(more)
    }

    // The same, where there isn't that room. Memory comes in larger pieces than were asked for, and the room is that of all
    // the places, so that a caller which asks for a few more before each put seldom comes here. It stands apart, so that the
    // test alone is made where it is called.
    #[inline(never)]
    fn reserve_more(&mut self, more: usize) -> Result<(), OutOfMemory>
        requires { self.old.spare < more }
        ensures room { OnOk result (more ≤ self.new.spare) }
        ensures kept { self.new ≡ record self.old { spare = self.new.spare } }
        ensures err { OnErr result (self.new ≡ self.old) }
    {
        let room = self.waiting.checked_add(more).ok_or(OutOfMemory)?;
        self.wheel.reserve(room)?;
        self.room = room.max(self.wheel.room());
        Ok(())
    }

    /// Puts a key for a tick, which isn't before the clock. Room for it was reserved, so it takes no
    /// memory.
    pub fn put(&mut self, tick: u64, key: T)
        requires room { 1 ≤ self.old.spare }
        requires ahead { self.old.clock ≤ tick }
        ensures { self.new ≡ record self.old { entries = self.old.entries ++ (tick, key) ∷ []; spare = self.old.spare - 1 } }
    {
        self.wheel.clear_if_full();
        self.wheel.append(tick, key);
        self.waiting += 1;
        self.next = self.next.min(tick);
        if tick > self.clock {
            return;
        }
        self.next = self.wheel.stand(tick);
    }

    /// The entries, a tick and a key each, in the order in which they were put. An `Err` comes only for want of memory.
    pub fn entries(&self, alloc: Global) -> Result<Vec<(u64, T)>, OutOfMemory>
        ensures { IfOk result (λ all. all.items ≡ self.now.entries) }
    {
        self.wheel.entries(alloc)
    }

    /// How many entries there are.
    pub fn len(&self) -> usize
        ensures { result ≡ length self.now.entries }
    {
        self.waiting
    }

    /// A tick before which no key falls due.
    #[inline(always)]
    pub fn rests_until(&self) -> u64
        ensures { All (λ entry. result ≤ entry.0) self.now.entries }
    {
        self.next
    }

    /// Goes on to tick `now`, which isn't before the clock. It takes no memory.
    #[inline(always)]
    pub fn go_on(&mut self, now: u64)
        requires { self.old.clock ≤ now }
        ensures { self.new ≡ record self.old { clock = now } }
    {
        self.clock = now;
        if now < self.next {
            return;
        }
        self.wheel.skip_to(self.next);
        self.next = self.wheel.stand(now);
    }

    /// The key that is due at the clock: that with the least tick, and of equal ticks the one that was put earliest. None
    /// comes exactly where there is no such key.
    #[inline(always)]
    pub fn due(&self) -> Option<&T>
        ensures key { option_copied result ≡ due_key self.now.entries self.now.clock }
        ensures none { IsNone result ↔ All (λ entry. self.now.clock < entry.0) self.now.entries }
    {
        if self.clock < self.next {
            return None;
        }
        let first = self.wheel.standing()?;
        Some(self.wheel.first_key(first))
    }

    /// Takes out the key that is due at the clock. None comes exactly where there is no such key. It takes no memory.
    pub fn take(&mut self) -> Option<T>
        ensures key { result ≡ due_key self.old.entries self.old.clock }
        ensures left { self.new.entries ≡ left_after self.old.entries self.old.clock }
        ensures spare { self.new.spare ≡ self.old.spare + (if is_some result then 1 else 0) }
        ensures clock { self.new.clock ≡ self.old.clock }

        ensures none { IsNone result ↔ All (λ entry. self.old.clock < entry.0) self.old.entries }
        ensures stay { IfNone result (self.new.entries ≡ self.old.entries) }
        ensures taken { IfSome result (TakesDue self.old.entries self.new.entries self.old.clock) }
    {
        let first = self.wheel.standing()?;
        let key = self.wheel.take(first);
        self.waiting -= 1;
        if self.waiting == 0 {
            self.next = u64::MAX;
            return Some(key);
        }
        self.next = self.wheel.stand(self.clock);
        Some(key)
    }

    /// Goes on to tick `now`, which isn't before the clock, and takes out the key that is due, as [`Calendar::take`] does.
    #[inline(always)]
    pub fn take_due(&mut self, now: u64) -> Option<T>
        requires { self.old.clock ≤ now }

        ensures key { result ≡ due_key self.old.entries now }
        ensures left { self.new.entries ≡ left_after self.old.entries now }
        ensures spare { self.new.spare ≡ self.old.spare + (if is_some result then 1 else 0) }
        ensures clock { self.new.clock ≡ now }

        ensures none { IsNone result ↔ All (λ entry. now < entry.0) self.old.entries }
        ensures stay { IfNone result (self.new.entries ≡ self.old.entries) }
        ensures taken { IfSome result (TakesDue self.old.entries self.new.entries now) }
    {
        if now < self.next {
            self.clock = now;
            return None;
        }
        self.go_on(now);
        self.take()
    }

    /// The tick to which it has gone on.
    #[inline(always)]
    pub fn clock(&self) -> u64
        ensures { result ≡ self.now.clock }
    {
        self.clock
    }
}

#[cfg(test)]
mod tests;
