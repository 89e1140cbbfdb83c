//! The release of a channel.
ghost use Rattle.std.specs.Prelude.{◌≡◌, ◌↔◌, ◌+◌, ◌<◌, ◌≤◌, ◌++◌, ◌∷◌, [], List, None, Some, IsTrue, IsOk, IsNone, IfErr, OnOk, OnErr, length, option_map};
ghost use Rattle.link_steps.specs.declared.replies.Reply.{Reply as Replied};
ghost use Rattle.hop_reservation.specs.Routes.{IsRoute};
ghost use Rattle.link_steps.specs.declared.asks.Ask.TheVariants.{Release as Closes};
ghost use Rattle.std.specs.List.{slice_get};
ghost use Rattle.setup_protocol.specs.Setup.{asked_of};
ghost use Rattle.setup_protocol.specs.Teardown.{is_closing, next_release};

use hop_reservation::Route;
use link_steps::{Ask, Reply, Unexpected};
use net_units::{ChanNo, LinkNo};

/// The releases of a channel, hop by hop.
///
/// It stands for the replies that it has taken, in their order.
#[derive(Clone, Copy)]
pub struct Teardown {
    pub(crate) chan: ChanNo,
    pub(crate) route: Route,
    // How many hops have replied.
    pub(crate) made: u8,
    // The count of packets that the first hop has told.
    pub(crate) count: Option<u64>,
    ghost in_route: { made ≤ length route },
}

impl Teardown {
    ghost use Rattle.setup_protocol.specs.Releases.{Releases};

    /// A teardown that has asked nothing yet.
    pub fn new(chan: ChanNo, route: Route) -> Teardown
        ensures chan { result.chan ≡ chan }
        ensures route { result.route ≡ route }
        ensures stands { Releases result [] }
    {
        Teardown {
            chan,
            route,
            made: 0,
            count: None,
        }
    }

    /// The next ask, a release of the next hop of the route, and the link that it goes to; None exactly where all hops have
    /// replied.
    pub fn next_ask(&self) -> Option<(LinkNo, Ask)>
        ensures next { (replies : List Replied) → Releases self.now replies → result ≡ next_release self.now.chan self.now.route replies }
        ensures asked { result ≡ asked_of (slice_get self.now.route self.now.made) (λ hop. Closes self.now.chan self.now.count) }
        ensures done { IsNone result ↔ (self.now.made ≡ length self.now.route) }
        ensures valid { IsRoute self.now.route }
    {
        if self.made == self.route.len() {
            return None;
        }
        let ask = Ask::Release {
            chan: self.chan,
            upstream: self.count,
        };
        Some((self.route.hop(self.made + 1).link, ask))
    }

    /// Takes the reply to the next ask. One that isn't a reply to it changes nothing. An ask has to be left.
    pub fn take(&mut self, reply: Reply) -> Result<(), Unexpected>
        requires { self.old.made < length self.old.route }
        ensures chan { self.new.chan ≡ self.old.chan }
        ensures route { self.new.route ≡ self.old.route }
        ensures expected { IsOk result ↔ IsTrue (is_closing reply) }
        ensures taken { OnOk result ((replies : List Replied) → Releases self.old replies → Releases self.new (replies ++ reply ∷ [])) }
        ensures unexpected { IfErr result (λ odd. (odd.reply ≡ reply) × ((replies : List Replied) → Releases self.old replies → option_map (λ to. to.1) (next_release self.old.chan self.old.route replies) ≡ Some odd.ask)) }
        ensures unchanged { OnErr result (self.new ≡ self.old) }
    {
        match (reply, self.next_ask()) {
            (Reply::Closing { count, .. }, _) => {
                self.count = Some(self.count.unwrap_or(count));
                self.made += 1;
                Ok(())
            }
            (reply, Some((_, ask))) => Err(Unexpected { ask, reply }),
            (_, None) => unreachable!(),
        }
    }
}
