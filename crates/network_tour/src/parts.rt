//! What the network of the tour is made of, as values. The conditions on the numbers are proved here, so nothing is refused.
ghost use Rattle.std.specs.Prelude.{◌≡◌, ◌<◌, ◌∷◌, [], IfOk};
ghost use Rattle.net_units.specs.Numbers.{link_number};
ghost use Rattle.link_server.specs.State.{LinkStands};
ghost use Rattle.shared_network.specs.Worked.{IsWorkedLink};
ghost use Rattle.network_tour.specs.Tour.{IsTourHop, IsTourRequest};

use hop_reservation::{Hop, Route};
use link_server::LinkState;
use link_steps::LinkShape;
use net_units::{Bounds, ChanNo, LinkNo, OutOfMemory};
use setup_protocol::{Control, Request};
use std::alloc::Global;
use traffic_contract::{Contract, Test};

/// A link before any step. Its rate is 1, its packets have up to 4 units, and its buffer has 100.
pub fn link(alloc: Global, number: u8) -> Result<LinkState, OutOfMemory>
    requires { number < 2 }
    ensures worked { IfOk result (λ made. IsWorkedLink made.shape) }
    ensures stands { IfOk result (λ made. LinkStands made []) }
{
    let number = LinkNo::new(number).unwrap();
    let shape = LinkShape::new(number, 1, 4, 2, 100, bounds(), Test::Whole, 0).unwrap();
    LinkState::new(alloc, shape)
}

// The levels of both links, in ticks.
fn bounds() -> Bounds
    ensures { result ≡ 10 ∷ 20 ∷ 40 ∷ [] }
{
    Bounds::new(&[10, 20, 40]).unwrap()
}

// A hop tells the levels and the propagation of its link again, for whoever knows a route and no links.
fn hop(number: u8) -> Hop
    requires { number < 2 }
    ensures tour { IsTourHop result }
    ensures link { link_number result.link ≡ number }
{
    Hop {
        link: LinkNo::new(number).unwrap(),
        bounds: bounds(),
        prop: 2,
    }
}

/// A channel over both links. Its source sends packets of up to 2 units, at least 5 ticks apart and 10 on average over 20.
pub fn request() -> Request
    ensures { IsTourRequest result }
{
    Request {
        chan: ChanNo::new(0).unwrap(),
        route: Route::new(&[hop(0), hop(1)]).unwrap(),
        contract: Contract::new(5, 10, 20, 2).unwrap(),
        control: Control::Rate,
        delay: 50,
    }
}
