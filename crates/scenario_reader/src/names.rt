//! Names, numbered in the order in which they were added.
ghost use Rattle.std.specs.Prelude.{◌≡◌, ◌<◌, ◌≤◌, ◌++◌, ◌∷◌, [], false, IfOk, IfSome, is_some, length, position};
ghost use Rattle.call_script.specs.Rules.{is_named};
ghost use Rattle.scenario_reader.specs.Forms.{is_among};

use indexmap::IndexSet;
use net_units::limits::MOST_REQUESTS;
use net_units::{Name, OutOfMemory};
use std::alloc::Global;
use std::marker::Model;

/// Up to 1,024 different names, numbered from 0 in the order in which they were added.
///
/// A contract sees the list of the names, each as its bytes. Room for all of them is taken first, so that adding one
/// takes no memory.
#[derive(Drop)]
pub struct Names {
    names: IndexSet<Name>,
}

impl Model for Names {
    ghost use Rattle.std.specs.Prelude.{ℕ, List, ◌+◌, ◌≤◌, length, nat_eq};
    ghost use Rattle.std.specs.Cmp.Lexicographic.{pointwise};
    ghost use Rattle.indexmap.specs.IndexSet.{IsUnique, spare};

    ghost Value = { List (List ℕ) };

    ghost view = { λ n. n.names.keys };

    ghost invariant = { λ n. (1024 ≤ length n.names.keys + spare n.names) × IsUnique (pointwise nat_eq) n.names };
}

impl Names {
    /// No names yet. An `Err` comes only for want of memory.
    pub fn new(alloc: Global) -> Result<Names, OutOfMemory>
        ensures { IfOk result (λ names. names ≡ []) }
    {
        let names = IndexSet::with_capacity(alloc, MOST_REQUESTS)?;
        Ok(Names { names })
    }

    /// The number of a name, None exactly where it isn't one of them.
    #[tactic(auto, using(crate::proofs::Finding::NameLookup::place_there, crate::proofs::Finding::NameLookup::known_there))]
    pub fn number_of(&self, name: &Name) -> Option<usize>
        ensures place { result ≡ position (is_named name.now) self.now }
        ensures known { is_some result ≡ is_among self.now name.now }
        ensures within { IfSome result (λ number. number < length self.now) }
    {
        self.names.get_index_of(name)
    }

    /// Adds a name that isn't one of them. There have to be fewer than 1,024 so far.
    #[tactic(auto, using(crate::proofs::Finding::NameLookup::not_there))]
    pub fn add(&mut self, name: Name)
        requires fresh { is_among self.old name ≡ false }
        requires room { length self.old < 1024 }
        ensures { self.new ≡ self.old ++ name ∷ [] }
    {
        match self.names.insert_full(name) {
            Ok(_) => {}
            Err(_) => unreachable!(),
        }
    }
}
