//! A list whose values stand in a slab, each under a key.
ghost use Rattle.std.specs.Prelude.{◌≡◌, ◌+◌, ◌≤◌, ◌<◌, ◌^◌, ◌-◌, ◌++◌, ◌∷◌, [], ℕ, List, IfNone, IfSome, OnOk, length, remove, slice_index_or};
ghost use Rattle.std.specs.Borrow.{sem};
ghost use Rattle.std.specs.Vec.{vec_capacity};
ghost use Rattle.link_server.specs.KeyedList.{AreApart, AreStamps, IsNoneOf, IsUnder, position};

use net_units::OutOfMemory;
use slab::Slab;
use std::alloc::Global;
use std::marker::Model;
use std::ops::{Index, IndexMut};

// A list whose values stand in a slab. A value keeps its key until it leaves, so none is moved when another comes or leaves.
#[derive(Drop)]
pub(crate) struct KeyedList<T> {
    slots: Slab<T>,
    // The keys of all values, in the order of the list.
    keys: Vec<usize>,
    // Their stamps, in that order, in which they rise: so the place of a value is found by its stamp.
    stamps: Vec<u64>,
    // By its key, the stamp of a value. What stands here for a key that is free means nothing.
    stamp_under: Vec<u64>,
    // The stamp of the next value.
    next: u64,
    // For how many more values there is room.
    spare: usize,
}

impl<T> Model for KeyedList<T> {
    ghost use Rattle.std.specs.Prelude.{◌+◌, ◌<◌, ◌≤◌, ◌^◌, length};
    ghost use Rattle.std.specs.Vec.{vec_capacity};
    ghost use Rattle.link_server.specs.KeyedList.{AreKeys, AreStamps, HasSpare, Listed, items_at, listed_code};

    ghost Value = { Listed T };

    ghost coded = { listed_code T.code };

    ghost view = { λ l. record { items = items_at l.slots.slots l.keys.items; keys = l.keys.items; spare = l.spare } };

    ghost invariant = { λ l. AreKeys l.slots.slots l.keys.items × (AreStamps l.keys.items l.stamps.items l.stamp_under.items l.next × HasSpare l.spare (length l.keys.items) l.next l.slots.capacity (vec_capacity l.keys) (vec_capacity l.stamps) (length l.stamp_under.items)) };
}

impl<T> KeyedList<T> {
    // No value, and room for none.
    pub(crate) fn new(alloc: Global) -> KeyedList<T>
        ensures { result ≡ record { items = []; keys = []; spare = 0 } }
    {
        KeyedList {
            slots: Slab::new(alloc),
            keys: Vec::new(alloc),
            stamps: Vec::new(alloc),
            stamp_under: Vec::new(alloc),
            next: 0,
            spare: 0,
        }
    }

    // How many values there are.
    pub(crate) fn len(&self) -> usize
        ensures { result ≡ length self.now.items }
    {
        self.keys.len()
    }

    // Makes room for this many more values.
    pub(crate) fn reserve(&mut self, more: usize) -> Result<(), OutOfMemory>
        ensures room { OnOk result (more ≤ self.new.spare) }
        ensures kept { self.new ≡ record self.old { spare = self.new.spare } }
    {
        if more <= self.spare {
            return Ok(());
        }
        self.spare = 0;
        self.slots.reserve(more)?;
        self.keys.reserve(more)?;
        self.stamps.reserve(more)?;
        reserve_stamps(&mut self.stamp_under, self.slots.capacity())?;
        self.next = renew_stamps(
            &self.keys,
            &mut self.stamps,
            &mut self.stamp_under,
            self.next,
            more,
        );
        self.spare = more;
        Ok(())
    }

    // Puts a value after the others, and answers its key. There is room for it, so it takes no memory.
    pub(crate) fn push(&mut self, value: T) -> usize
        requires { 0 < self.old.spare }
        ensures list { self.new ≡ record { items = self.old.items ++ value ∷ []; keys = self.old.keys ++ result ∷ []; spare = self.old.spare - 1 } }
        ensures own { IsNoneOf self.old.keys result }
    {
        let key = self.slots.insert_reserved(value);
        let stamp = self.next;
        self.keys.push_reserved(key);
        self.stamps.push_reserved(stamp);
        self.stamp_under[key] = stamp;
        self.next += 1;
        self.spare -= 1;
        key
    }

    // The value under this key, if it is that of one.
    pub(crate) fn get(&self, key: usize) -> Option<&T>
        ensures none { IfNone result (length self.now.items ≤ position self.now.keys key) }
        ensures some { IfSome result (λ value. IsUnder self.now key value.now) }
    {
        self.slots.get(key)
    }

    // The place of the value under this key.
    pub(crate) fn place(&self, key: usize) -> usize
        requires { position self.now.keys key < length self.now.items }
        ensures { result ≡ position self.now.keys key }
    {
        let stamp = self.stamp_under[key];
        self.stamps.binary_search(&stamp).unwrap()
    }

    // Takes out the value under this key. Those after it move up.
    pub(crate) fn remove(&mut self, key: usize) -> T
        requires { position self.old.keys key < length self.old.items }
        ensures value { result ≡ slice_index_or self.old.items (position self.old.keys key) result }
        ensures others { self.new ≡ record self.old { items = remove self.old.items (position self.old.keys key); keys = remove self.old.keys (position self.old.keys key) } }
    {
        let place = self.place(key);
        self.keys.remove(place);
        self.stamps.remove(place);
        self.slots.remove(key)
    }

    // The key of the value at this place.
    pub(crate) fn key_at(&self, place: usize) -> usize
        requires { place < length self.now.items }
        ensures { position self.now.keys result ≡ place }
    {
        self.keys[place]
    }
}

impl<T> Index<usize> for KeyedList<T> {
    type Output = T;

    ghost can_index = { λ list key. position list.keys key < length list.items };

    ghost index_gives = { λ list key value. value ≡ slice_index_or list.items (position list.keys key) value };

    fn index(&self, key: usize) -> &T {
        &self.slots[key]
    }
}

impl<T> IndexMut<usize> for KeyedList<T> {
    ghost use Rattle.link_server.specs.KeyedLends.{lends_key};

    fn index_mut(&mut self, key: usize) -> &mut T
        requires { position self.old.keys key < length self.old.items }
        ensures* writes_back { sem 𝓛 (lends_key T.row self.entry key result) }
        ensures value { result.now ≡ slice_index_or self.old.items (position self.old.keys key) result.now }
    {
        &mut self.slots[key]
    }
}

// Makes room for the stamps of the keys below this one. What is there stays, an `Err` or not.
fn reserve_stamps(under: &mut Vec<u64>, above: usize) -> Result<(), OutOfMemory>
    ensures room { OnOk result (above ≤ length under.new.items) }
    ensures stamps { (keys stamps : List ℕ) (next : ℕ) → AreStamps keys stamps under.old.items next → AreStamps keys stamps under.new.items next }
{
    if under.len() < above {
        under.resize(above, 0)?;
    }
    Ok(())
}

// The stamp of the next value, after which so many more are left. Where they have run out, after 2^64 values, all stamps are
// numbered anew from 0 on, in their order.
fn renew_stamps(
    keys: &[usize],
    stamps: &mut Vec<u64>,
    under: &mut Vec<u64>,
    next: u64,
    more: usize,
) -> u64
    requires are { AreStamps keys.now stamps.old.items under.old.items next }
    requires apart { AreApart keys.now }
    requires few { length keys.now + more < 2 ^ 64 }
    ensures are { AreStamps keys.now stamps.new.items under.new.items result }
    ensures left { result + more < 2 ^ 64 }
    ensures capacity { vec_capacity stamps.new ≡ vec_capacity stamps.old }
    ensures long { length under.new.items ≡ length under.old.items }
{
    if more as u64 <= u64::MAX - next {
        return next;
    }
    stamps.clear();
    let mut stamp = 0;
    for key in keys {
        stamps.push_reserved(stamp);
        under[*key] = stamp;
        stamp += 1;
    }
    stamp
}
