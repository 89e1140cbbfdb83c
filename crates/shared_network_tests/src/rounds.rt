//! The plane of one link, which makes its first tick.
ghost use Rattle.std.specs.Prelude.{◌≡◌, [], ◌∷◌, length};
ghost use Rattle.step_stamp.specs.Opening.{AreLinks, ArePasses};
ghost use Rattle.step_stamp.specs.Seats.{stamps_table};
ghost use Rattle.tick_plane.specs.Planes.{plane_start};
ghost use Rattle.shared_network.specs.Ready.{IsNew};

use crate::networks::{Opened, one, open_for_one};
use link_ledger::{Home, Pass};
use link_server::LinkState;
use link_steps::{LinkStep, Reply};
use net_units::NoGate;
use shared_network::Network;
use std::alloc::Global;
use std::marker::Brand;
use std::sync::Wait;
use std::test::Fail;
use step_stamp::{LinkSeat, PassSeat, Stamps};
use tick_plane::Plane;

// The reply to the first step of a plane of one link.
fn first_round<L: LinkStep + Send, H: Home, W: Wait>(
    rt: &W,
    network: &Network<L, H>,
    pass: &mut Pass,
    plane: &mut Plane,
) -> Result<Reply, Fail>
    requires new { IsNew H.table H.owners H.links 1 pass.old }
    requires one { length H.links ≡ 1 }
    requires links { plane.old.links ≡ 1 }
    requires rounds { plane.old.rounds ≡ 1 }
    requires start { plane.old.at ≡ plane_start }
{
    plane.ready()?;
    Ok(network.plane_step(rt, pass, &NoGate, plane)?)
}

fn ticked<L: LinkStep + Send, H: Home, W: Wait>(
    rt: &W,
    alloc: Global,
    opened: (Stamps, Vec<LinkSeat>, Vec<PassSeat>),
    link: L,
) -> Result<Reply, Fail>
    requires table { stamps_table opened.0 ≡ H.table }
    requires seats { AreLinks H.table 1 1 opened.1.items }
    requires passes { ArePasses H.table 1 1 opened.2.items }
    requires links { H.links ≡ L.link_of link ∷ [] }
    requires stands { L.stands_for link [] }
    requires owners { H.owners ≡ [] }
{
    let (network, pass) = open_for_one::<L, H>(alloc, opened, one(alloc, link)?, Vec::new(alloc))?;
    let mut pass = pass;
    let mut plane = Plane::new(alloc, 1, 1)?;
    first_round(rt, &network, &mut pass, &mut plane)
}

// Chooses the home.
fn ticked_at_home<L: LinkStep + Send, W: Wait>(
    rt: &W,
    alloc: Global,
    opened: (Stamps, Vec<LinkSeat>, Vec<PassSeat>),
    link: L,
) -> Result<Reply, Fail>
    requires seats { AreLinks (stamps_table opened.0) 1 1 opened.1.items }
    requires passes { ArePasses (stamps_table opened.0) 1 1 opened.2.items }
    requires stands { L.stands_for link [] }
{
    ticked::<L, Brand, W>(rt, alloc, opened, link)
}

fn ticked_once<L: Opened, W: Wait>(rt: &W, alloc: Global) -> Result<Reply, Fail> {
    let opened = Stamps::open(alloc, 1, 1)?;
    ticked_at_home(rt, alloc, opened, L::open(alloc, 0)?)
}

#[test]
fn the_plane_of_one_link_ticks(rt: HostRuntime) -> Result<(), Fail> {
    let reply = Reply::Ticked {
        clock: 0,
        full: 0,
        sent: None,
        best_sent: false,
        best_lost: false,
    };
    assert!(rt; ticked_once::<LinkState, _>(&rt, rt.alloc())? == reply);
    Ok(())
}
