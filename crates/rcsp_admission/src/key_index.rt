//! Where the row of a key stands, found without a look at the other rows.
ghost use Rattle.std.specs.Prelude.{◌≡◌, ℕ, ◌+◌, ◌<◌, ◌≤◌, IsTrue, is_some, Some, None, [], IfOk, IfErr, IsOk, OnOk, length, map, nat_eq, if◌then◌else◌, option_map};
ghost use Rattle.std.specs.Vec.{vec_capacity};
ghost use Rattle.rcsp_admission.specs.Index.{place_in, place_after, moved_up, AreByKey, IsKeptAt, IsGapFor};

use net_units::OutOfMemory;
use std::alloc::Global;

// The place of a key's row.
#[derive(Clone, Copy)]
pub(crate) struct KeyPlace {
    pub(crate) key: u32,
    pub(crate) place: usize,
}

// The places of the rows, in the order of their keys.
#[derive(Drop)]
pub(crate) struct KeyIndex {
    pub(crate) places: Vec<KeyPlace>,
}

impl KeyIndex {
    // The index of no rows.
    pub(crate) fn new(alloc: Global) -> KeyIndex
        ensures { result.places.items ≡ [] }
    {
        KeyIndex {
            places: Vec::new(alloc),
        }
    }

    // Makes room for the places of `more` rows. What it has stays, an `Err` or not.
    pub(crate) fn reserve(&mut self, more: usize) -> Result<(), OutOfMemory>
        ensures items { self.new.places.items ≡ self.old.places.items }
        ensures ok { OnOk result (length self.new.places.items + more ≤ vec_capacity self.new.places) }
        ensures enough { length self.old.places.items + more ≤ vec_capacity self.old.places → IsOk result }
        ensures capacity { vec_capacity self.old.places ≤ vec_capacity self.new.places }
    {
        self.places.reserve(more)?;
        Ok(())
    }

    // The place of the key's row, if it has one.
    pub(crate) fn place(&self, key: u32) -> Option<usize>
        requires { AreByKey 0 self.now.places.items }
        ensures { result ≡ place_in key self.now.places.items }
    {
        match search(&self.places, key) {
            Ok(at) => Some(self.places[at].place),
            Err(_) => None,
        }
    }

    // The row of a new key stands at this place. Room was reserved.
    pub(crate) fn put(&mut self, key: u32, place: usize)
        requires sorted { AreByKey 0 self.old.places.items }
        requires new { place_in key self.old.places.items ≡ None }
        requires room { length self.old.places.items < vec_capacity self.old.places }
        ensures sorted { AreByKey 0 self.new.places.items }
        ensures each { (other : ℕ) → place_in other self.new.places.items ≡ (if nat_eq key other then Some place else place_in other self.old.places.items) }
        ensures length { length self.new.places.items ≡ length self.old.places.items + 1 }
        ensures capacity { vec_capacity self.new.places ≡ vec_capacity self.old.places }
    {
        let Err(at) = search(&self.places, key) else {
            unreachable!()
        };
        if self.places.insert(at, KeyPlace { key, place }).is_err() {
            unreachable!();
        }
    }

    // The row of the key leaves its place, which is the answer. Those after it move up by one.
    pub(crate) fn remove(&mut self, key: u32) -> usize
        requires sorted { AreByKey 0 self.old.places.items }
        requires held { IsTrue (is_some (place_in key self.old.places.items)) }
        ensures place { place_in key self.old.places.items ≡ Some result }
        ensures sorted { AreByKey 0 self.new.places.items }
        ensures each { (other : ℕ) → place_in other self.new.places.items ≡ (if nat_eq key other then None else option_map (place_after result) (place_in other self.old.places.items)) }
        ensures length { length self.new.places.items + 1 ≡ length self.old.places.items }
        ensures capacity { vec_capacity self.new.places ≡ vec_capacity self.old.places }
    {
        let Ok(at) = search(&self.places, key) else {
            unreachable!()
        };
        let left = self.places.remove(at).place;
        move_up(&mut self.places, left);
        left
    }
}

// Where the place of the key is kept, or as an `Err` where it would be.
fn search(places: &[KeyPlace], key: u32) -> Result<usize, usize>
    requires { AreByKey 0 places.now }
    ensures found { IfOk result (IsKeptAt key places.now) }
    ensures absent { IfErr result (IsGapFor key places.now) }
{
    let at = places.partition_point(|kept| kept.key < key);
    if at < places.len() && places[at].key == key {
        return Ok(at);
    }
    Err(at)
}

// Each row after the place `left` moves up by one.
fn move_up(places: &mut [KeyPlace], left: usize)
    ensures { places.new ≡ map (moved_up left) places.old }
{
    for kept in places.iter_mut() {
        if kept.place > left {
            kept.place -= 1;
        }
    }
}
