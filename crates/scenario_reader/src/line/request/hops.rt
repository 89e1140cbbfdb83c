//! The hops over the links of an open line, before they are known to be a route.
ghost use Rattle.std.specs.Prelude.{◌≡◌, ◌<◌, ◌++◌, ◌∷◌, [], length};

use hop_reservation::Hop;
use net_units::limits::MOST_HOPS;
use std::marker::Model;

// 1 to 16 hops. A contract sees the list of them.
#[derive(Drop)]
pub(crate) struct Hops {
    cells: [Hop; MOST_HOPS as usize],
    len: usize,
}

impl Model for Hops {
    ghost use Rattle.std.specs.Prelude.{List, ◌≤◌, take};
    ghost use Rattle.hop_reservation.specs.declared.route.Hop.{Hop};

    ghost Value = { List Hop };

    ghost view = { λ h. take h.len h.cells };

    ghost invariant = { λ h. h.len ≤ 16 };
}

impl Hops {
    // The first hop.
    pub(crate) fn new(first: Hop) -> Hops
        ensures { result ≡ first ∷ [] }
    {
        Hops {
            cells: [first; MOST_HOPS as usize],
            len: 1,
        }
    }

    // Adds a hop at the end. There were fewer than 16.
    #[tactic(auto, using(crate::proofs::Finding::HopsInCells::hops_more, crate::proofs::Finding::HopsInCells::hops_few))]
    pub(crate) fn push(&mut self, hop: Hop)
        requires { length self.old < 16 }
        ensures { self.new ≡ self.old ++ hop ∷ [] }
    {
        self.cells[self.len] = hop;
        self.len += 1;
    }

    // The hops.
    pub(crate) fn as_slice(&self) -> &[Hop]
        ensures { result.now ≡ self.now }
    {
        &self.cells[..self.len]
    }
}
