//! The rows of a link as a plain list. It keeps no load and no index: for each answer it sums all rows anew, under the least
//! test in each window. Generated lists of calls run through it and through a `LevelSums`. It has two units a tick, a blocking
//! of four ticks and three levels.
use net_units::Level;
use rcsp_admission::NoLevel;
use rcsp_admission::loads::level_at;
use std::alloc::{AllocFailed, Global};
use traffic_contract::{Contract, Test};

#[derive(Clone, Copy)]
pub(super) struct Row {
    key: u32,
    contract: Contract,
    level: Level,
}

#[derive(Drop)]
pub(super) struct PlainSums {
    test: Test,
    // The levels, the first one first.
    levels: [Level; 3],
    rows: Vec<Row>,
}

// The bound of a level, in ticks.
fn bound_at(level: Level) -> u64 {
    match level.get() {
        0 | 1 => 10,
        2 => 20,
        _ => 40,
    }
}

// The ticks of work that a contract may bring in a window, at two units a tick.
fn work(contract: &Contract, window: u64) -> u64 {
    let packets = contract.bound(window.min(1_048_576));
    packets.saturating_mul(u64::from(contract.smax()).div_ceil(2))
}

impl PlainSums {
    // Without rows.
    pub(super) fn new(alloc: Global, test: Test) -> PlainSums {
        PlainSums {
            test,
            levels: [level_at(1), level_at(2), level_at(3)],
            rows: Vec::new(alloc),
        }
    }

    // The load of the levels up to this one in a window.
    fn load(&self, level: Level, window: u64) -> u64 {
        let mut load = 4u64;
        for row in &self.rows {
            if row.level.get() <= level.get() {
                load = load.saturating_add(work(&row.contract, window));
            }
        }
        load
    }

    // The same with one row more of this contract.
    fn load_with(&self, contract: &Contract, level: Level, window: u64) -> u64 {
        self.load(level, window)
            .saturating_add(work(contract, window))
    }

    // Whether the level has room for a row of this contract in some window that counts.
    fn has_room(&self, contract: &Contract, level: Level) -> bool {
        let bound = bound_at(level);
        let least = match self.test {
            Test::Whole => bound,
            Test::Least => 1,
        };
        for window in least..=bound {
            if self.load_with(contract, level, window) <= window {
                return true;
            }
        }
        false
    }

    // The least level from which on each has room.
    pub(super) fn best(&self, contract: &Contract) -> Result<Level, NoLevel> {
        let last = self.levels[2];
        let bound = bound_at(last);
        let mut best = Err(NoLevel {
            sum: self.load_with(contract, last, bound),
            bound,
        });
        for level in self.levels.iter().rev() {
            if !self.has_room(contract, *level) {
                break;
            }
            best = Ok(*level);
        }
        best
    }

    // The load of each level in a window as long as its bound.
    pub(super) fn sums(&self) -> [u64; 3] {
        self.levels.map(|level| self.load(level, bound_at(level)))
    }

    pub(super) fn level_of(&self, key: u32) -> Option<Level> {
        let row = self.rows.iter().find(|row| row.key == key)?;
        Some(row.level)
    }

    pub(super) fn add(
        &mut self,
        key: u32,
        contract: Contract,
        level: Level,
    ) -> Result<(), AllocFailed<Row>> {
        self.rows.push(Row {
            key,
            contract,
            level,
        })?;
        Ok(())
    }

    pub(super) fn move_to(&mut self, key: u32, level: Level) {
        for row in self.rows.iter_mut() {
            if row.key == key {
                row.level = level;
            }
        }
    }

    pub(super) fn remove(&mut self, key: u32) {
        self.rows.retain(|row| row.key != key);
    }
}
