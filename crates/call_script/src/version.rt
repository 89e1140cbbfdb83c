//! The versions of the scenario's language.
ghost use Rattle.std.specs.Prelude.{◌≡◌};
ghost use Rattle.call_script.specs.Versions.{test_of, has_best_effort, has_found_routes, has_groups, has_moves};

use traffic_contract::Test;

/// A version of the scenario's language. It says how the links of a plan test, and which forms a plan may have.
#[derive(Clone, Copy, Debug, PartialEq, Eq)]
pub enum Version {
    /// Links compare the load of a level in the window as long as its bound.
    One,
    /// Links compare it in some window up to the bound.
    Two,
    /// As version two; links may take best-effort packets, and callers may send them.
    Three,
    /// As version three; the route of a request may be found between two nodes.
    Four,
    /// As version four; callers may belong to groups, between which links may be split.
    Five,
    /// As version five; callers may move the packets of a channel to another one.
    Six,
}

impl Version {
    /// The test of its links.
    pub fn test(&self) -> Test
        ensures { result ≡ test_of self.now }
    {
        match self {
            Version::One => Test::Whole,
            Version::Two | Version::Three | Version::Four | Version::Five | Version::Six =>
                Test::Least,
        }
    }

    /// Whether its plans may have best-effort packets.
    pub fn has_best_effort(&self) -> bool
        ensures { result ≡ has_best_effort self.now }
    {
        match self {
            Version::One | Version::Two => false,
            Version::Three | Version::Four | Version::Five | Version::Six => true,
        }
    }

    /// Whether a request of its plans may have a route that was found.
    pub fn has_found_routes(&self) -> bool
        ensures { result ≡ has_found_routes self.now }
    {
        match self {
            Version::One | Version::Two | Version::Three => false,
            Version::Four | Version::Five | Version::Six => true,
        }
    }

    /// Whether its plans may have groups of callers, and links with quotas.
    pub fn has_groups(&self) -> bool
        ensures { result ≡ has_groups self.now }
    {
        match self {
            Version::One | Version::Two | Version::Three | Version::Four => false,
            Version::Five | Version::Six => true,
        }
    }

    /// Whether callers of its plans may move the packets of a channel to another one.
    pub fn has_moves(&self) -> bool
        ensures { result ≡ has_moves self.now }
    {
        match self {
            Version::One | Version::Two | Version::Three | Version::Four | Version::Five => false,
            Version::Six => true,
        }
    }
}
