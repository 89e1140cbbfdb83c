//! The rows of a link and their sums at its levels.
ghost use Rattle.std.specs.Prelude.{◌≡◌, ◌+◌, ◌<◌, ◌≤◌, ◌^◌, ◌↔◌, ℕ, [], IsTrue, None, Some, IfOk, IfErr, IfSome, IfNone, OnOk, OnErr, OnSome, MatchResult, IsOk, find, length, option_map};
ghost use Rattle.net_units.specs.Numbers.{level_number};
ghost use Rattle.net_units.specs.LevelBounds.{bound_at, last_bound};
ghost use Rattle.net_units.specs.Limits.{most_bound};
ghost use Rattle.traffic_contract.specs.Admission.{load, Passes, HasRoom, IsBest, IsRefused, with_row, level_sum, best_level, refused_sum};
ghost use Rattle.traffic_contract.specs.declared.admission.Test.{Test};
ghost use Rattle.traffic_contract.specs.declared.admission.Test.TheVariants.{Whole};
ghost use Rattle.rcsp_admission.specs.Room.{IsLastFull, NoneBefore, load_with};
ghost use Rattle.rcsp_admission.specs.Sums.{Holds, HoldsUpTo, AreAdmitted, server_with, has_key, level_held, admitted_rows, added, moved, without_key};

use crate::key_index::KeyIndex;
use crate::lines::{crossing, line_of, line_of_rows};
use crate::loads::{add_row, level_at, take_row, work};
use crate::rows::{KeptRow, work_of};
use net_units::limits::MOST_LEVELS;
use net_units::{Bounds, Level, OutOfMemory};
use std::alloc::Global;
use std::marker::Model;
use traffic_contract::{Contract, Test};

// After so many turns the search for a window tries to leap, which costs about two.
const TURNS: u32 = 8;

/// A new contract passes at no level: with its row at the last one, the sum there is over the bound.
#[derive(Clone, Copy, Debug, PartialEq, Eq)]
pub struct NoLevel {
    /// The sum of the last level with the new row there, in ticks.
    pub sum: u64,
    /// The bound of that level, in ticks.
    pub bound: u64,
}

/// The channels that a link has admitted, each as a row with its key, contract and level.
///
/// The rows always pass: for every level m, the blocking and the work that the rows at levels 1 to m may bring into some
/// window are together at most that window. The link's test says which windows count: the one as long as the bound of m,
/// or any of a tick or more up to it. A contract sees the record `Sums`: the link, the rows in the order in which they
/// were added, and the number of rows for which memory is spare.
#[derive(Drop)]
pub struct LevelSums {
    bounds: Bounds,
    rate: u32,
    blocking: u32,
    test: Test,
    rows: Vec<KeptRow>,
    // Where each of them stands.
    index: KeyIndex,
    // How many more rows both have room for.
    spare: usize,
    // Of each level, the work of the rows at levels up to it in a window as long as its bound.
    loads: [u64; MOST_LEVELS as usize],
}

impl Model for LevelSums {
    ghost use Rattle.rcsp_admission.specs.Sums.{Sums, AreAdmitted};

    ghost Value = { Sums };

    ghost use Rattle.rcsp_admission.specs.Fields.{sums_of};

    ghost view = { sums_of };

    ghost use Rattle.rcsp_admission.specs.Loads.{KeepsLoads};

    ghost invariant = { KeepsLoads };
}

impl LevelSums {
    /// A link without rows. `rate` is in units a tick. `blocking` is the time in ticks that the link's largest packet
    /// takes, at most the first bound. `test` says which windows count.
    pub fn new(alloc: Global, bounds: Bounds, rate: u32, blocking: u32, test: Test) -> LevelSums
        requires rate { 1 ≤ rate }
        requires blocking { 1 ≤ blocking }
        requires first { blocking ≤ bound_at bounds 1 }
        ensures value { result ≡ record { server = server_with bounds rate blocking test; rows = []; spare = 0 } }
        ensures admitted { AreAdmitted result }
    {
        // `len` tells that the bounds rise, so the blocking fits all of them where it fits the first.
        let _levels = bounds.len();
        LevelSums {
            bounds,
            rate,
            blocking,
            test,
            rows: Vec::new(alloc),
            index: KeyIndex::new(alloc),
            spare: 0,
            loads: [0; MOST_LEVELS as usize],
        }
    }

    /// Makes room for `more` rows beside those that are here. An `Err` leaves all as it was, and comes only
    /// where there was less room.
    pub fn reserve(&mut self, more: usize) -> Result<(), OutOfMemory>
        ensures server { self.new.server ≡ self.old.server }
        ensures rows { self.new.rows ≡ self.old.rows }
        ensures ok { OnOk result (more ≤ self.new.spare) }
        ensures err { OnErr result (self.new ≡ self.old) }
        ensures enough { more ≤ self.old.spare → IsOk result }
        ensures more { self.old.spare ≤ self.new.spare }
        ensures admitted { AreAdmitted self.new }
    {
        self.rows.reserve(more)?;
        self.index.reserve(more)?;
        self.spare = self.spare.max(more);
        Ok(())
    }

    /// The best level of a new contract: the least at which it passes with the rows. An `Err` comes exactly
    /// where it passes at none, with the sum of the last level with the new row there, and the last bound.
    pub fn best(&self, contract: &Contract) -> Result<Level, NoLevel>
        ensures level { MatchResult result
            (λ level. best_level self.now.server (admitted_rows self.now.rows) contract.now ≡ Some (level_number level))
            (λ _. best_level self.now.server (admitted_rows self.now.rows) contract.now ≡ None) }
        ensures least { IfOk result (λ level. IsBest self.now.server (admitted_rows self.now.rows) contract.now (level_number level)) }
        ensures larger { IfOk result (λ level. (m : ℕ) → level_number level ≤ m → Passes self.now.server (with_row (admitted_rows self.now.rows) contract.now m)) }
        ensures none { IfErr result (λ _. IsRefused self.now.server (admitted_rows self.now.rows) contract.now) }
        ensures sum { IfErr result (λ none. none.sum ≡ refused_sum self.now.server (admitted_rows self.now.rows) contract.now) }
        ensures bound { IfErr result (λ none. none.bound ≡ last_bound self.now.server.bounds) }
        ensures over { IfErr result (λ none. none.bound < none.sum) }
        ensures admitted { AreAdmitted self.now }
    {
        let levels = self.bounds.len();
        let full = self.last_full(contract);
        if full == levels {
            let last = level_at(levels);
            return Err(NoLevel {
                sum: self.whole_load_with(contract, last),
                bound: u64::from(self.bounds.at(last)),
            });
        }
        Ok(level_at(full + 1))
    }

    /// Adds a row under a new key, at a level at which it passes with the rows. Room for it was reserved.
    pub fn add(&mut self, key: u32, contract: Contract, level: Level)
        requires spare { 1 ≤ self.old.spare }
        requires new { ¬ Holds self.old.rows key }
        requires within { level_number level ≤ length self.old.server.bounds }
        requires passes { Passes self.old.server (with_row (admitted_rows self.old.rows) contract (level_number level)) }
        ensures server { self.new.server ≡ self.old.server }
        ensures rows { self.new.rows ≡ added self.old.rows key contract (level_number level) }
        ensures spare { self.new.spare + 1 ≡ self.old.spare }
        ensures admitted { AreAdmitted self.new }
    {
        // `burst` tells that this is a contract.
        let _burst = contract.burst();
        let row = KeptRow {
            key,
            contract,
            level,
        };
        add_row(
            &mut self.loads,
            &self.bounds,
            self.rate,
            &row.contract,
            row.level,
        );
        self.index.put(key, self.rows.len());
        self.rows.push_reserved(row);
        self.spare -= 1;
    }

    /// Moves the row of a key to a level that is no smaller.
    pub fn move_to(&mut self, key: u32, level: Level)
        requires held { HoldsUpTo self.old.rows key (level_number level) }
        requires within { level_number level ≤ length self.old.server.bounds }
        ensures server { self.new.server ≡ self.old.server }
        ensures rows { self.new.rows ≡ moved self.old.rows key (level_number level) }
        ensures spare { self.new.spare ≡ self.old.spare }
        ensures admitted { AreAdmitted self.new }
    {
        let place = self.index.place(key).unwrap();
        let before = self.rows[place];
        take_row(
            &mut self.loads,
            &self.bounds,
            self.rate,
            &before.contract,
            before.level,
        );
        let after = KeptRow { level, ..before };
        add_row(
            &mut self.loads,
            &self.bounds,
            self.rate,
            &after.contract,
            after.level,
        );
        self.rows[place] = after;
    }

    /// The level of the row of a key, if one is held. So it tests what `add`, `move_to` and `remove` ask of a key.
    pub fn level_of(&self, key: u32) -> Option<Level>
        ensures level { option_map level_number result ≡ option_map level_held (find (has_key key) self.now.rows) }
        ensures new { IfNone result (¬ Holds self.now.rows key) }
        ensures held { OnSome result (Holds self.now.rows key) }
        ensures larger { IfSome result (λ level. (m : ℕ) → level_number level ≤ m → HoldsUpTo self.now.rows key m) }
        ensures admitted { AreAdmitted self.now }
    {
        let place = self.index.place(key)?;
        Some(self.rows[place].level)
    }

    /// Takes out the row of a key. All other rows stay.
    pub fn remove(&mut self, key: u32)
        requires held { Holds self.old.rows key }
        ensures server { self.new.server ≡ self.old.server }
        ensures rows { self.new.rows ≡ without_key self.old.rows key }
        ensures spare { self.new.spare ≡ self.old.spare + 1 }
        ensures admitted { AreAdmitted self.new }
    {
        let place = self.index.remove(key);
        let row = self.rows.remove(place);
        take_row(
            &mut self.loads,
            &self.bounds,
            self.rate,
            &row.contract,
            row.level,
        );
        self.spare += 1;
    }

    /// The load of the levels up to this one in a window as long as its bound, in ticks: the blocking, and the work of
    /// their rows. Where the test takes the whole bound it is at most that.
    pub fn sum(&self, level: Level) -> u64
        requires within { level_number level ≤ length self.now.server.bounds }
        ensures value { result ≡ level_sum self.now.server (admitted_rows self.now.rows) (level_number level) }
        ensures fits { self.now.server.test ≡ Whole → result ≤ bound_at self.now.server.bounds (level_number level) }
        ensures admitted { AreAdmitted self.now }
    {
        self.whole_load(level)
    }

    // The load of the levels up to this one in a window as long as its bound, in ticks.
    fn whole_load(&self, level: Level) -> u64
        requires within { level_number level ≤ length self.now.server.bounds }
        ensures value { result ≡ level_sum self.now.server (admitted_rows self.now.rows) (level_number level) }
        ensures small { result < 2 ^ 61 }
        ensures admitted { AreAdmitted self.now }
    {
        u64::from(self.blocking) + self.loads[usize::from(level.get()) - 1]
    }

    // The same with a row of this contract at the level.
    fn whole_load_with(&self, contract: &Contract, level: Level) -> u64
        requires within { level_number level ≤ length self.now.server.bounds }
        ensures { result ≡ load_with self.now.server (admitted_rows self.now.rows) contract.now (level_number level) (bound_at self.now.server.bounds (level_number level)) }
    {
        let window = u64::from(self.bounds.at(level));
        self.whole_load(level) + work(contract, self.rate, window)
    }

    // The load of the levels up to this one in a window, in ticks.
    fn load(&self, level: Level, window: u64) -> u64
        requires within { level_number level ≤ length self.now.server.bounds }
        requires window { window ≤ most_bound }
        ensures value { result ≡ load self.now.server (admitted_rows self.now.rows) (level_number level) window }
        ensures small { result < 2 ^ 61 }
    {
        u64::from(self.blocking) + work_of(&self.rows, self.rate, level, window)
    }

    // The same with a row of this contract at the level.
    fn load_with(&self, contract: &Contract, level: Level, window: u64) -> u64
        requires within { level_number level ≤ length self.now.server.bounds }
        requires window { window ≤ most_bound }
        ensures { result ≡ load_with self.now.server (admitted_rows self.now.rows) contract.now (level_number level) window }
    {
        self.load(level, window) + work(contract, self.rate, window)
    }

    // A window that is no shorter, and before which none fits the load with a row of this contract at the level: where the
    // line below the load crosses. Contracts with intervals up to `longest` make that line rise.
    fn leap(&self, contract: &Contract, level: Level, from: u64, longest: u64) -> u64
        requires within { level_number level ≤ length self.now.server.bounds }
        requires none { NoneBefore self.now.server (admitted_rows self.now.rows) contract.now (level_number level) from }
        ensures later { from ≤ result }
        ensures none { NoneBefore self.now.server (admitted_rows self.now.rows) contract.now (level_number level) result }
    {
        let bound = u64::from(self.bounds.at(level));
        if from > bound {
            return from;
        }
        let rows = line_of_rows(&self.rows, self.rate, level, from, longest);
        let new = line_of(contract, self.rate, from, longest);
        let flat = u64::from(self.blocking) + rows.flat + new.flat;
        from.max(crossing(flat, rows.slope + new.slope, bound))
    }

    // Some turns of the search from this window on: the least window that fits, or as an `Err` one before which none
    // does. That is later, or over the bound.
    fn climb(&self, contract: &Contract, level: Level, from: u64) -> Result<u64, u64>
        requires within { level_number level ≤ length self.now.server.bounds }
        requires none { NoneBefore self.now.server (admitted_rows self.now.rows) contract.now (level_number level) from }
        ensures fits { IfOk result (λ window. load_with self.now.server (admitted_rows self.now.rows) contract.now (level_number level) window ≤ window) }
        ensures within { IfOk result (λ window. window ≤ bound_at self.now.server.bounds (level_number level)) }
        ensures least { IfOk result (NoneBefore self.now.server (admitted_rows self.now.rows) contract.now (level_number level)) }
        ensures none { IfErr result (NoneBefore self.now.server (admitted_rows self.now.rows) contract.now (level_number level)) }
        ensures later { IfErr result (λ window. from ≤ window) }
        ensures goes_on { IfErr result (λ window. from ≤ bound_at self.now.server.bounds (level_number level) → from < window) }
    {
        // `burst` tells that this is a contract.
        let _burst = contract.burst();
        let bound = u64::from(self.bounds.at(level));
        let mut window = from;
        for _turn in 0..TURNS {
            if window > bound {
                break;
            }
            let load = self.load_with(contract, level, window);
            if load <= window {
                return Ok(window);
            }
            window = load;
        }
        Err(window)
    }

    // The least window that fits the load with a row of this contract at the level, or one over the level's bound. No
    // window before it fits, as none does before `from`.
    fn least_window(&self, contract: &Contract, level: Level, from: u64) -> u64
        requires within { level_number level ≤ length self.now.server.bounds }
        requires none { NoneBefore self.now.server (admitted_rows self.now.rows) contract.now (level_number level) from }
        ensures none { NoneBefore self.now.server (admitted_rows self.now.rows) contract.now (level_number level) result }
        ensures fits { result ≤ bound_at self.now.server.bounds (level_number level) → load_with self.now.server (admitted_rows self.now.rows) contract.now (level_number level) result ≤ result }
    {
        let bound = u64::from(self.bounds.at(level));
        let mut window = from;
        let mut longest = u64::MAX;
        while window <= bound {
            match self.climb(contract, level, window) {
                Ok(least) => return least,
                Err(next) => window = self.leap(contract, level, next, longest),
            }
            longest = window;
        }
        window
    }

    // Whether the level passes with a row of this contract at it. No window before `from` fits its load, and none before
    // where `from` is put.
    fn has_room(&self, contract: &Contract, level: Level, from: &mut u64) -> bool
        requires within { level_number level ≤ length self.now.server.bounds }
        requires none { NoneBefore self.now.server (admitted_rows self.now.rows) contract.now (level_number level) from.old }
        ensures room { IsTrue result ↔ HasRoom self.now.server (admitted_rows self.now.rows) contract.now (level_number level) }
        ensures none { NoneBefore self.now.server (admitted_rows self.now.rows) contract.now (level_number level) from.new }
    {
        let bound = u64::from(self.bounds.at(level));
        if self.whole_load_with(contract, level) <= bound {
            return true;
        }
        match self.test {
            Test::Whole => false,
            Test::Least => {
                *from = self.least_window(contract, level, *from);
                *from <= bound
            }
        }
    }

    // The last level that has no room for a row of this contract, or 0. The search of a level begins where that of the
    // level before ended, since no load falls from one level to the next.
    fn last_full(&self, contract: &Contract) -> u8
        ensures { IsLastFull self.now.server (admitted_rows self.now.rows) contract.now (length self.now.server.bounds) result }
    {
        let mut full = 0;
        let mut from = u64::from(self.blocking);
        for index in 0..self.bounds.len() {
            let level = level_at(index + 1);
            if !self.has_room(contract, level, &mut from) {
                full = index + 1;
            }
        }
        full
    }
}
