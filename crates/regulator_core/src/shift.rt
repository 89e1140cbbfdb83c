//! A contract speaks of distances between ticks alone.
ghost use Rattle.std.specs.Prelude.{◌≡◌, ◌↔◌, ℕ, List};
ghost use Rattle.traffic_contract.specs.Contract.{Traffic};
ghost use Rattle.traffic_contract.specs.Keeping.{Keeps, keeps_newest_first};
ghost use Rattle.regulator_core.specs.Shifted.{shifted_by};

/// A list of ticks that keeps a contract still keeps it when shifted by a constant, and a list that keeps a contract when
/// shifted keeps it unshifted, too. So packets that all leave a hop the same time after their eligible ticks still keep the
/// contract.
///
/// The call does nothing: the law is its contract, for the list in order of time and for the test of a list with the
/// newest tick first.
pub fn shifted_ticks_keep()
    ensures fact { (contract : Traffic) (ticks : List ℕ) (shift : ℕ) →
        (Keeps contract (shifted_by shift ticks) ↔ Keeps contract ticks) }
    ensures newest_first { (contract : Traffic) (past : List ℕ) (shift : ℕ) →
        keeps_newest_first contract (shifted_by shift past) ≡ keeps_newest_first contract past }
{}
