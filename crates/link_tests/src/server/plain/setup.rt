//! The asks of a setup at a plain link.
use super::row::{Row, bound_at, units_in};
use super::{PlainLink, refused};
use link_steps::{Ask, Phase, Refusal, Reply};
use net_units::{ChanNo, Level};
use std::test::Fail;
use traffic_contract::Contract;

impl PlainLink {
    // The load of the levels up to this one in a window as long as its bound, with one row more of this contract.
    fn load_with(&self, contract: &Contract, level: Level) -> u64 {
        let window = bound_at(&self.bounds, level);
        let mut load = u64::from(self.shape.cap).saturating_add(units_in(contract, window));
        for row in &self.rows {
            if row.level.get() <= level.get() {
                load = load.saturating_add(units_in(&row.contract, window));
            }
        }
        load
    }

    // The least level from which on each has room for a row of this contract, or the last level where that has none.
    fn best_level(&self, contract: &Contract, levels: &[Level; 3]) -> Result<Level, Level> {
        let mut best = Err(levels[2]);
        for level in levels.iter().rev() {
            if self.load_with(contract, *level) > bound_at(&self.bounds, *level) {
                break;
            }
            best = Ok(*level);
        }
        best
    }

    // The largest level whose bound is within the delay or that of the offer.
    fn reach_of(&self, delay: u64, offer: Level, levels: &[Level; 3]) -> Level {
        let most = delay.max(bound_at(&self.bounds, offer));
        let mut reach = levels[0];
        for level in levels {
            if bound_at(&self.bounds, *level) <= most {
                reach = *level;
            }
        }
        reach
    }

    // The units that no row keeps.
    fn free(&self) -> u64 {
        let mut free = u64::from(self.shape.buffer);
        for row in &self.rows {
            free = free.saturating_sub(units_in(&row.contract, row.stay(&self.bounds)));
        }
        free
    }

    pub(super) fn reserve(&mut self, ask: &Ask) -> Result<Reply, Fail> {
        let Ask::Reserve {
            chan,
            contract,
            kind,
            delay,
            up_reach,
            first,
            next,
        } = ask
        else {
            return Err(Fail::from("no reserve"));
        };
        let (smax, cap) = (u64::from(contract.smax()), u64::from(self.shape.cap));
        if smax > cap {
            return Ok(refused(Refusal::TooWide { smax, cap }));
        }
        if let Some(place) = self.place_of(*chan) {
            let phase = self.rows[place].phase;
            return Ok(refused(Refusal::Twice { phase }));
        }
        let levels = levels()?;
        let offer = match self.best_level(contract, &levels) {
            Ok(offer) => offer,
            Err(last) => {
                let sum = self.load_with(contract, last);
                let bound = bound_at(&self.bounds, last);
                return Ok(refused(Refusal::NoLevel { sum, bound }));
            }
        };
        let reach = self.reach_of(*delay, offer, &levels);
        let need = units_in(
            contract,
            up_reach.saturating_add(bound_at(&self.bounds, reach)),
        );
        let free = self.free();
        if need > free {
            return Ok(refused(Refusal::NoBuffer { need, free }));
        }
        self.offers = self.offers.saturating_add(1);
        self.rows.push(Row {
            number: self.offers,
            chan: *chan,
            contract: *contract,
            kind: *kind,
            first: *first,
            next: *next,
            phase: Phase::Tentative,
            level: offer,
            reach,
            up_reach: *up_reach,
            up_bound: 0,
            count: 0,
            ticks: Vec::new(self.alloc),
            plan: Vec::new(self.alloc),
        })?;
        Ok(Reply::Offer {
            level: offer,
            reach,
        })
    }

    pub(super) fn relax(&mut self, chan: ChanNo, level: Level, up_bound: u64) -> Reply {
        let clock = self.clock;
        let Some(place) = self.place_of(chan) else {
            return refused(Refusal::NoSuch);
        };
        let row = &mut self.rows[place];
        if row.phase != Phase::Tentative {
            return refused(Refusal::NotInPhase { phase: row.phase });
        }
        let within = row.level.get() <= level.get() && level.get() <= row.reach.get();
        if !within || up_bound > row.up_reach {
            return refused(Refusal::Unfit {
                offer: row.level,
                reach: row.reach,
                up_reach: row.up_reach,
            });
        }
        row.phase = Phase::Committed;
        row.level = level;
        row.up_bound = up_bound;
        Reply::Relaxed { clock }
    }

    pub(super) fn deny(&mut self, chan: ChanNo) -> Reply {
        let Some(place) = self.place_of(chan) else {
            return refused(Refusal::NoSuch);
        };
        let phase = self.rows[place].phase;
        if phase != Phase::Tentative {
            return refused(Refusal::NotInPhase { phase });
        }
        self.rows.remove(place);
        Reply::Denied
    }
}

// The three levels.
fn levels() -> Result<[Level; 3], Fail> {
    let least = Level::new(1).ok_or("level")?;
    let second = Level::new(2).ok_or("level")?;
    let last = Level::new(3).ok_or("level")?;
    Ok([least, second, last])
}
