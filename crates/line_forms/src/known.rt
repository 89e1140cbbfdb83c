//! The names that a line may use.
ghost use Rattle.std.specs.Prelude.{◌≡◌};
ghost use Rattle.line_forms.specs.Known.{KnownNames};

use net_units::Name;

/// A set of names of which a line may use one, or to which it may add one.
#[derive(Clone, Copy, Debug, PartialEq, Eq)]
pub enum Set {
    /// The links.
    Links,
    /// The nodes at which some link begins or ends.
    Nodes,
    /// The groups.
    Groups,
    /// The callers.
    Callers,
    /// All requests.
    Requests,
    /// The requests of the last caller.
    OwnRequests,
}

/// The names that are known where a line stands, each with its number in its set.
pub trait Known {
    // The number of a name in a set, and whether two numbers stand together already.
    ghost names: { Self → KnownNames };

    /// The number of a name in a set, None exactly where it isn't in it.
    fn number_of(&self, set: Set, name: &Name) -> Option<usize>
        ensures { result ≡ (names self.now).number set name.now };

    /// Whether the first number, that of the known name before, has stood together with this one already.
    fn are_paired(&self, first: usize, second: usize) -> bool
        ensures { result ≡ (names self.now).paired first second };
}
