//! The contract of a channel.
ghost use Rattle.std.specs.Prelude.{◌≡◌, ◌↔◌, ◌+◌, ◌^◌, ◌<◌, ◌≤◌, ℕ, List, reverse, IsTrue, IfOk, MatchResult};
ghost use Rattle.net_units.specs.Limits.{most_burst};
ghost use Rattle.traffic_contract.specs.Keeping.{are_spaced};

use net_units::ceil_div;
use net_units::limits::{MOST_BURST, MOST_GAP, MOST_INTERVAL, MOST_SIZE};
use std::marker::Model;

/// A number of a contract.
#[derive(Clone, Copy, Debug, PartialEq, Eq)]
pub enum ContractField {
    /// The least gap between packets, in ticks.
    Xmin,
    /// The average gap between packets, in ticks.
    Xave,
    /// The interval over which the average is taken, in ticks.
    Interval,
    /// The largest packet, in units.
    Smax,
}

/// Four numbers that aren't a contract, with the first of them that fails.
#[derive(Clone, Copy, Debug, PartialEq, Eq)]
pub struct BadContract {
    /// The first number that fails.
    pub field: ContractField,
}

/// A traffic contract (Xmin, Xave, I, Smax) of the Tenet suite (Banerjea, Ferrari et al. 1996).
///
/// Packets are at least `xmin` ticks apart, at most a burst of them falls into any `interval` ticks, and none is
/// larger than `smax` units. The burst is the number of average gaps of `xave` ticks in an interval, rounded
/// down. A contract sees the record of the four numbers.
#[derive(Clone, Copy, Debug, PartialEq, Eq)]
pub struct Contract {
    xmin: u32,
    xave: u32,
    interval: u32,
    smax: u32,
}

impl Model for Contract {
    ghost use Rattle.traffic_contract.specs.Contract.{Traffic, IsContract, terms_of};

    ghost Value = { Traffic };

    ghost view = { λ c. terms_of c.xmin c.xave c.interval c.smax };

    ghost invariant = { λ c. IsContract (terms_of c.xmin c.xave c.interval c.smax) };

    ghost inverse = { λ t. record { xmin = t.xmin; xave = t.xave; interval = t.interval; smax = t.smax } };
}

impl Contract {
    ghost use Rattle.traffic_contract.specs.Contract.{Traffic, IsContract, burst_of, most_in, terms_of};
    ghost use Rattle.traffic_contract.specs.Refusal.{first_bad};
    ghost use Rattle.traffic_contract.specs.Keeping.{Keeps, keeps, keeps_newest_first};
    ghost use Rattle.traffic_contract.specs.Window.{count_in};

    /// The contract of these four numbers. An `Err` names the first that fails: `Xmin` where it isn't from 1 to
    /// 1,048,576, `Xave` where it is below `xmin` or over 1,048,576, `Interval` where it is below `xave`, over
    /// 16,777,216 or holds more than 256 average gaps, `Smax` where it isn't from 1 to 65,536.
    pub fn new(xmin: u32, xave: u32, interval: u32, smax: u32) -> Result<Contract, BadContract>
        ensures refusal { MatchResult result
            (λ _. first_bad (terms_of xmin xave interval smax) ≡ None)
            (λ bad. first_bad (terms_of xmin xave interval smax) ≡ Some bad.field) }
        ensures value { IfOk result (λ contract. contract ≡ terms_of xmin xave interval smax) }
        ensures valid { IfOk result IsContract }
    {
        if xmin < 1 || xmin > MOST_GAP {
            return Err(BadContract {
                field: ContractField::Xmin,
            });
        }
        if xave < xmin || xave > MOST_GAP {
            return Err(BadContract {
                field: ContractField::Xave,
            });
        }
        if interval < xave || interval > MOST_INTERVAL || interval / xave > MOST_BURST {
            return Err(BadContract {
                field: ContractField::Interval,
            });
        }
        if smax < 1 || smax > MOST_SIZE {
            return Err(BadContract {
                field: ContractField::Smax,
            });
        }
        Ok(Contract {
            xmin,
            xave,
            interval,
            smax,
        })
    }

    /// The most packets in any `w` consecutive ticks of a list that keeps the contract. `w` is below 2^40.
    pub fn bound(&self, w: u64) -> u64
        requires { w < 2 ^ 40 }
        ensures value { result ≡ most_in self.now w }
        ensures every_window { (ticks : List ℕ) (from : ℕ) → Keeps self.now ticks → count_in ticks from w ≤ result }
        ensures most { result ≤ w + most_burst }
    {
        let interval = u64::from(self.interval);
        let burst = u64::from(self.burst());
        let left = ceil_div(w % interval, u64::from(self.xmin));
        w / interval * burst + burst.min(left)
    }

    /// Whether these ticks, in order of time, keep the contract.
    pub fn keeps(&self, ticks: &[u64]) -> bool
        ensures test { result ≡ keeps self.now ticks.now }
        ensures fact { IsTrue result ↔ Keeps self.now ticks.now }
        ensures newest_first { result ≡ keeps_newest_first self.now (reverse ticks.now) }
    {
        is_spaced(ticks, 1, u64::from(self.xmin))
            && is_spaced(ticks, self.burst() as usize, u64::from(self.interval))
    }

    /// The burst: the most packets in any `interval` ticks, from 1 to 256.
    pub fn burst(&self) -> u32
        ensures value { result ≡ burst_of self.now }
        ensures least { 1 ≤ result }
        ensures most { result ≤ most_burst }
        ensures valid { IsContract self.now }
    {
        self.interval / self.xave
    }

    /// The least gap between packets in ticks, from 1 to 1,048,576.
    pub fn xmin(&self) -> u32
        ensures value { result ≡ self.now.xmin }
        ensures valid { IsContract self.now }
    {
        self.xmin
    }

    /// The average gap between packets in ticks, from `xmin` to 1,048,576.
    pub fn xave(&self) -> u32
        ensures value { result ≡ self.now.xave }
        ensures valid { IsContract self.now }
    {
        self.xave
    }

    /// The interval over which the average gap is taken, in ticks, from `xave` to 16,777,216.
    pub fn interval(&self) -> u32
        ensures value { result ≡ self.now.interval }
        ensures valid { IsContract self.now }
    {
        self.interval
    }

    /// The largest packet in units, from 1 to 65,536.
    pub fn smax(&self) -> u32
        ensures value { result ≡ self.now.smax }
        ensures valid { IsContract self.now }
    {
        self.smax
    }
}

// Whether entries that stand `gap` places apart are at least `least` ticks apart.
#[tactic(auto, using(crate::proofs::PartsKeepContract::spacing))]
fn is_spaced(ticks: &[u64], gap: usize, least: u64) -> bool
    ensures { result ≡ are_spaced gap least ticks.now }
{
    for i in gap..ticks.len() {
        let earlier = ticks[i - gap];
        if ticks[i] < earlier || ticks[i] - earlier < least {
            return false;
        }
    }
    true
}
