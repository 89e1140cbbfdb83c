//! Networks of links with the levels 10, 20 and 40 and a propagation of 2, as the tests take them.
ghost use Rattle.std.specs.Prelude.{◌≡◌, ◌≤◌, [], ◌∷◌, IfOk, length, map};
ghost use Rattle.net_units.specs.Numbers.{actor_number, channel_number, link_number};
ghost use Rattle.link_steps.specs.Lists.{Each};
ghost use Rattle.step_stamp.specs.Opening.{AreLinks, ArePasses};
ghost use Rattle.step_stamp.specs.Seats.{stamps_table};
ghost use Rattle.shared_network.specs.Ready.{MayStep, IsNew};
ghost use Rattle.shared_network.specs.Worked.{IsOverLink, IsWorkedLink};

use hop_reservation::{Hop, Route};
use link_ledger::{Home, Pass};
use link_server::LinkState;
use link_steps::{LinkShape, LinkStep};
use net_units::{ActorNo, Bounds, ChanNo, LinkNo};
use setup_protocol::{Control, Request};
use shared_network::{Closed, Network};
use std::alloc::Global;
use std::test::Fail;
use step_stamp::{LinkSeat, PassSeat, Stamps};
use traffic_contract::{Contract, Test};

fn bounds() -> Result<Bounds, Fail>
    ensures { IfOk result (λ made. made ≡ 10 ∷ 20 ∷ 40 ∷ []) }
{
    Ok(Bounds::new(&[10, 20, 40]).ok_or("bounds")?)
}

pub(crate) fn link_no(number: u8) -> Result<LinkNo, Fail>
    ensures { IfOk result (λ made. link_number made ≡ number) }
{
    Ok(LinkNo::new(number).ok_or("a link")?)
}

pub(crate) fn actor_no(number: u8) -> Result<ActorNo, Fail>
    ensures { IfOk result (λ made. actor_number made ≡ number) }
{
    Ok(ActorNo::new(number).ok_or("an actor")?)
}

// A list of one item.
pub(crate) fn one<T: Drop>(alloc: Global, item: T) -> Result<Vec<T>, Fail>
    ensures { IfOk result (λ made. made.items ≡ item ∷ []) }
{
    let mut items = Vec::with_capacity(alloc, 1)?;
    items.push_reserved(item);
    Ok(items)
}

// A list of two items.
pub(crate) fn two<T: Drop>(alloc: Global, first: T, second: T) -> Result<Vec<T>, Fail>
    ensures { IfOk result (λ made. made.items ≡ first ∷ second ∷ []) }
{
    let mut items = Vec::with_capacity(alloc, 2)?;
    items.push_reserved(first);
    items.push_reserved(second);
    Ok(items)
}

// A link that a test can make without a name of its type. A function that may have to drop a link of a known type takes minutes to prove,
// so the functions below are generic in it, and a test names it in one call.
pub(crate) trait Opened: LinkStep + Send {
    // A link of rate 1 that has made no step.
    fn open(alloc: Global, number: u8) -> Result<Self, Fail>
        ensures worked { IfOk result (λ made. IsWorkedLink (Self.link_of made).shape) }
        ensures stands { IfOk result (λ made. Self.stands_for made []) };
}

impl Opened for LinkState {
    fn open(alloc: Global, number: u8) -> Result<LinkState, Fail> {
        let shape = LinkShape::new(link_no(number)?, 1, 4, 2, 100, bounds()?, Test::Whole, 0)?;
        Ok(LinkState::new(alloc, shape)?)
    }
}

// A request for a channel over one link, with a delay of 12.
pub(crate) fn request(chan: u32, link: u8) -> Result<Request, Fail>
    ensures chan { IfOk result (λ made. channel_number made.chan ≡ chan) }
    ensures route { IfOk result (λ made. Each (IsOverLink link) made.route) }
    ensures contract { IfOk result (λ made. made.contract.smax ≡ 2) }
{
    let hop = Hop {
        link: link_no(link)?,
        bounds: bounds()?,
        prop: 2,
    };
    Ok(Request {
        chan: ChanNo::new(chan).ok_or("a channel")?,
        route: Route::new(&[hop])?,
        contract: Contract::new(5, 10, 20, 2)?,
        control: Control::Rate,
        delay: 12,
    })
}

// A network of one actor, with its pass.
pub(crate) fn open_for_one<L: LinkStep + Send, H: Home>(
    alloc: Global,
    opened: (Stamps, Vec<LinkSeat>, Vec<PassSeat>),
    links: Vec<L>,
    owners: Vec<ActorNo>,
) -> Result<(Network<L, H>, Pass), Fail>
    requires table { stamps_table opened.0 ≡ H.table }
    requires seats { AreLinks H.table 1 (length H.links) opened.1.items }
    requires passes { ArePasses H.table 1 1 opened.2.items }
    requires most { length H.links ≤ 32 }
    requires links { map L.link_of links.items ≡ H.links }
    requires stand { Each (λ link. L.stands_for link []) links.items }
    requires owners { owners.items ≡ H.owners }
    ensures new { IfOk result (λ made. IsNew H.table H.owners H.links 1 made.1) }
    ensures actor { IfOk result (λ made. actor_number made.1.actor ≡ 0) }
{
    let (network, passes) = Network::open(alloc, opened, links, owners)?;
    let Some(pass) = passes.into_iter().next() else {
        return Err(Fail::from("a pass"));
    };
    Ok((network, pass))
}

// A network of two actors, with their passes.
pub(crate) fn open_for_two<L: LinkStep + Send, H: Home>(
    alloc: Global,
    opened: (Stamps, Vec<LinkSeat>, Vec<PassSeat>),
    links: Vec<L>,
    owners: Vec<ActorNo>,
) -> Result<(Network<L, H>, Pass, Pass), Fail>
    requires table { stamps_table opened.0 ≡ H.table }
    requires seats { AreLinks H.table 2 (length H.links) opened.1.items }
    requires passes { ArePasses H.table 2 2 opened.2.items }
    requires most { length H.links ≤ 32 }
    requires links { map L.link_of links.items ≡ H.links }
    requires stand { Each (λ link. L.stands_for link []) links.items }
    requires owners { owners.items ≡ H.owners }
    ensures new { IfOk result (λ made. IsNew H.table H.owners H.links 2 made.1 × IsNew H.table H.owners H.links 2 made.2) }
    ensures actors { IfOk result (λ made. (actor_number made.1.actor ≡ 0) × (actor_number made.2.actor ≡ 1)) }
{
    let (network, passes) = Network::open(alloc, opened, links, owners)?;
    let mut passes = passes.into_iter();
    let Some(first) = passes.next() else {
        return Err(Fail::from("a pass"));
    };
    let Some(second) = passes.next() else {
        return Err(Fail::from("another pass"));
    };
    Ok((network, first, second))
}

// What is left of a network of one actor.
pub(crate) fn close_for_one<L: LinkStep + Send, H: Home>(
    alloc: Global,
    network: Network<L, H>,
    pass: Pass,
) -> Result<Closed, Fail>
    requires may { MayStep H.table H.owners H.links pass }
    requires among { pass.view.among ≡ 1 }
    requires actor { actor_number pass.actor ≡ 0 }
{
    let passes = one(alloc, pass)?;
    Ok(
        network
            .close(alloc, passes)
            .ok()
            .ok_or("no memory to close")?,
    )
}
