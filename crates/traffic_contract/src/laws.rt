//! Laws of contracts, each as the contract of a function that does nothing.
ghost use Rattle.std.specs.Prelude.{◌≡◌, ◌≤◌, ℕ, List, reverse};
ghost use Rattle.traffic_contract.specs.Contract.{Traffic, IsContract, most_in};
ghost use Rattle.traffic_contract.specs.Eligible.{IsEligible, eligible};
ghost use Rattle.traffic_contract.specs.Keeping.{Keeps};
ghost use Rattle.traffic_contract.specs.Window.{count_in};

/// A list of ticks that keeps a contract has at most `most_in` entries in any consecutive ticks.
pub fn every_window_is_bounded()
    ensures { (contract : Traffic) (ticks : List ℕ) (from w : ℕ) → IsContract contract → Keeps contract ticks
        → count_in ticks from w ≤ most_in contract w }
{}

/// After eligible ticks that keep the contract there is an eligible tick for a packet that may go from some tick
/// on. It is the least that keeps the contract with them, and the only one.
pub fn the_eligible_tick_is_the_least()
    ensures exists { (contract : Traffic) (past : List ℕ) (low : ℕ) → IsContract contract → Keeps contract past
        → IsEligible contract past low (eligible contract (reverse past) low) }
    ensures unique { (contract : Traffic) (past : List ℕ) (low e f : ℕ) → IsEligible contract past low e
        → IsEligible contract past low f → e ≡ f }
{}
