//! The end of a network: its passes are given back in any order.
ghost use Rattle.std.specs.Prelude.{◌≡◌, [], ◌∷◌};
ghost use Rattle.step_stamp.specs.Opening.{AreLinks, ArePasses};
ghost use Rattle.step_stamp.specs.Seats.{stamps_table};

use crate::networks::{Opened, one, open_for_two, two};
use link_ledger::{Home, Pass};
use link_server::LinkState;
use link_steps::LinkStep;
use shared_network::Closed;
use std::alloc::Global;
use std::marker::Brand;
use std::test::Fail;
use step_stamp::{LinkSeat, PassSeat, Stamps};

// What is left of a network of two actors that have made no step, where the second one's pass is given back first.
fn closed_backwards<L: LinkStep + Send, H: Home>(
    alloc: Global,
    opened: (Stamps, Vec<LinkSeat>, Vec<PassSeat>),
    link: L,
) -> Result<Closed, Fail>
    requires table { stamps_table opened.0 ≡ H.table }
    requires seats { AreLinks H.table 2 1 opened.1.items }
    requires passes { ArePasses H.table 2 2 opened.2.items }
    requires links { H.links ≡ L.link_of link ∷ [] }
    requires stands { L.stands_for link [] }
    requires owners { H.owners ≡ [] }
{
    let (links, owners) = (one(alloc, link)?, Vec::new(alloc));
    let (network, first, second) = open_for_two::<L, H>(alloc, opened, links, owners)?;
    let passes = two(alloc, second, first)?;
    Ok(
        network
            .close(alloc, passes)
            .ok()
            .ok_or("no memory to close")?,
    )
}

// Chooses the home.
fn closed_backwards_at_home<L: LinkStep + Send>(
    alloc: Global,
    opened: (Stamps, Vec<LinkSeat>, Vec<PassSeat>),
    link: L,
) -> Result<Closed, Fail>
    requires seats { AreLinks (stamps_table opened.0) 2 1 opened.1.items }
    requires passes { ArePasses (stamps_table opened.0) 2 2 opened.2.items }
    requires stands { L.stands_for link [] }
{
    closed_backwards::<L, Brand>(alloc, opened, link)
}

fn closed_once<L: Opened>(alloc: Global) -> Result<Closed, Fail> {
    let opened = Stamps::open(alloc, 1, 2)?;
    closed_backwards_at_home(alloc, opened, L::open(alloc, 0)?)
}

// The actors of two passes, in the order of the passes.
fn actors(passes: &[Pass]) -> Option<(u8, u8)> {
    match passes {
        [one, other] => Some((one.actor().get(), other.actor().get())),
        _ => None,
    }
}

#[test]
fn passes_are_given_back_in_any_order(rt: HostRuntime) -> Result<(), Fail> {
    let closed = closed_once::<LinkState>(rt.alloc())?;
    assert!(rt; actors(closed.passes.as_slice()) == Some((1, 0)));
    assert!(rt; closed.journals.as_slice().len() == 1);
    Ok(())
}
