//! Moves on a network of two links and two actors, worked by hand. Actor 0 has channel 0 over link 0 and channel 1 over link 1, and
//! plans four packets of 2 units on channel 0, one every 10 ticks. Actor 1 makes the plane's rounds.
ghost use Rattle.std.specs.Prelude.{◌≡◌, ◌≤◌, ◌<◌, ◌*◌, [], ◌∷◌, OnOk, length};
ghost use Rattle.net_units.specs.Numbers.{actor_number, channel_number};
ghost use Rattle.link_steps.specs.Lists.{Each};
ghost use Rattle.step_stamp.specs.Opening.{AreLinks, ArePasses};
ghost use Rattle.step_stamp.specs.Seats.{stamps_table};
ghost use Rattle.shared_network.specs.Planes.{IsPlanes};
ghost use Rattle.shared_network.specs.Ready.{IsNew, MayStep};
ghost use Rattle.shared_network.specs.Worked.{IsOverLink, IsWorkedLink, MayPlan, MayMove};

use crate::networks::{Opened, actor_no, link_no, open_for_two, request, two};
use channel_move::{Mover, Shifted};
use link_ledger::{Home, Pass};
use link_server::LinkState;
use link_steps::{Ask, LinkStep, Reply};
use net_units::{ActorNo, NoGate};
use setup_protocol::{Request, Verdict};
use shared_network::Network;
use std::alloc::Global;
use std::marker::Brand;
use std::process::Abort;
use std::sync::Wait;
use std::test::Fail;
use step_stamp::{LinkSeat, PassSeat, Stamps};
use tick_plane::Plane;

// Sets both channels up, and plans the packets on the first.
fn plan<L: LinkStep + Send, H: Home, W: Wait>(
    rt: &W,
    network: &Network<L, H>,
    pass: &mut Pass,
    requests: &(Request, Request),
) -> Result<(), Fail>
    requires may { MayPlan H.table H.owners H.links pass.old requests.now.0 requests.now.1 }
    ensures may { OnOk result (MayMove H.table H.owners H.links pass.new requests.now.0 requests.now.1) }
{
    let first = network.setup(rt, pass, &NoGate, &requests.0)?;
    let Verdict::Accepted { .. } = first else {
        return Err(Fail::from("the first channel is accepted"));
    };
    let second = network.setup(rt, pass, &NoGate, &requests.1)?;
    let Verdict::Accepted { .. } = second else {
        return Err(Fail::from("the second channel is accepted"));
    };
    let submit = Ask::Submit {
        chan: requests.0.chan,
        count: 4,
        gap: 10,
        size: 2,
    };
    let link = link_no(0)?;
    let sent = network.submit(rt, pass, &NoGate, link, &submit)?;
    match sent {
        Reply::Planned { .. } => Ok(()),
        _ => Err(Fail::from("packets are planned")),
    }
}

// Makes the plane's next step, which brings no packet to a further link.
fn step<L: LinkStep + Send, H: Home, W: Wait>(
    rt: &W,
    network: &Network<L, H>,
    pass: &mut Pass,
    plane: &mut Plane,
) -> Result<(), Fail>
    requires may { MayStep H.table H.owners H.links pass.old }
    requires links { plane.old.links ≡ length H.links }
    requires planes { IsPlanes (length H.links) plane.old pass.old.own }
    ensures may { OnOk result (MayStep H.table H.owners H.links pass.new) }
    ensures links { OnOk result (plane.new.links ≡ length H.links) }
    ensures planes { OnOk result (IsPlanes (length H.links) plane.new pass.new.own) }
{
    if pass.drawn() > 100 {
        return Err(Fail::from("few steps"));
    }
    if plane.next_ask().is_none() {
        return Err(Fail::from("two steps a round"));
    }
    plane.ready()?;
    network.plane_step(rt, pass, &NoGate, plane)?;
    Ok(())
}

// Makes this many rounds of the plane.
fn play<L: LinkStep + Send, H: Home, W: Wait>(
    rt: &W,
    alloc: Global,
    network: &Network<L, H>,
    pass: &mut Pass,
    rounds: u8,
) -> Result<(), Fail>
    requires new { IsNew H.table H.owners H.links 2 pass.old }
    requires two { length H.links ≡ 2 }
{
    let mut plane = Plane::new(alloc, 2, u64::from(rounds))?;
    for _ in 0..2 * u16::from(rounds) {
        step(rt, network, pass, &mut plane)?;
    }
    Ok(())
}

// Moves the packets of the first channel to the second.
fn shift<L: LinkStep + Send, H: Home, W: Wait>(
    rt: &W,
    network: &Network<L, H>,
    pass: &mut Pass,
    requests: &(Request, Request),
) -> Result<Shifted, Fail>
    requires may { MayMove H.table H.owners H.links pass.old requests.now.0 requests.now.1 }
{
    let (left, joined) = (&requests.0, &requests.1);
    let mut mover = Mover::new(left.chan, left.route, joined.chan, joined.route, 10, 2);
    Ok(network.shift(rt, pass, &NoGate, &mut mover)?)
}

// A move after this many rounds, with the pass of its caller and the pass that makes the rounds.
fn moved_by<L: LinkStep + Send, H: Home, W: Wait>(
    rt: &W,
    alloc: Global,
    network: &Network<L, H>,
    caller: &mut Pass,
    maker: &mut Pass,
    requests: &(Request, Request),
    rounds: u8,
) -> Result<Shifted, Fail>
    requires may { MayPlan H.table H.owners H.links caller.old requests.now.0 requests.now.1 }
    requires new { IsNew H.table H.owners H.links 2 maker.old }
    requires two { length H.links ≡ 2 }
{
    plan(rt, network, caller, requests)?;
    play(rt, alloc, network, maker, rounds)?;
    shift(rt, network, caller, requests)
}

// That move on a network of these links, and the caller's pass after it.
fn moved<L: LinkStep + Send, H: Home, W: Wait>(
    rt: &W,
    alloc: Global,
    opened: (Stamps, Vec<LinkSeat>, Vec<PassSeat>),
    links: (L, L),
    owner: ActorNo,
    requests: &(Request, Request),
    rounds: u8,
) -> Result<(Shifted, Pass), Fail>
    requires table { stamps_table opened.0 ≡ H.table }
    requires seats { AreLinks H.table 2 2 opened.1.items }
    requires passes { ArePasses H.table 2 2 opened.2.items }
    requires links { H.links ≡ L.link_of links.0 ∷ L.link_of links.1 ∷ [] }
    requires worked { IsWorkedLink (L.link_of links.0).shape × IsWorkedLink (L.link_of links.1).shape }
    requires stand { L.stands_for links.0 [] × L.stands_for links.1 [] }
    requires owners { H.owners ≡ owner ∷ owner ∷ [] }
    requires owner { actor_number owner ≡ 0 }
    requires chans { (channel_number requests.now.0.chan ≡ 0) × (channel_number requests.now.1.chan ≡ 1) }
    requires routes { Each (IsOverLink 0) requests.now.0.route × Each (IsOverLink 1) requests.now.1.route }
    requires small { 2 ≤ requests.now.1.contract.smax }
{
    let (links, owners) = (two(alloc, links.0, links.1)?, two(alloc, owner, owner)?);
    let (network, first, second) = open_for_two::<L, H>(alloc, opened, links, owners)?;
    let (mut caller, mut maker) = (first, second);
    let told = moved_by(
        rt,
        alloc,
        &network,
        &mut caller,
        &mut maker,
        requests,
        rounds,
    )?;
    Ok((told, caller))
}

// Chooses the home.
fn moved_at_home<L: LinkStep + Send, W: Wait>(
    rt: &W,
    alloc: Global,
    opened: (Stamps, Vec<LinkSeat>, Vec<PassSeat>),
    links: (L, L),
    owner: ActorNo,
    requests: &(Request, Request),
    rounds: u8,
) -> Result<(Shifted, Pass), Fail>
    requires seats { AreLinks (stamps_table opened.0) 2 2 opened.1.items }
    requires passes { ArePasses (stamps_table opened.0) 2 2 opened.2.items }
    requires worked { IsWorkedLink (L.link_of links.0).shape × IsWorkedLink (L.link_of links.1).shape }
    requires stand { L.stands_for links.0 [] × L.stands_for links.1 [] }
    requires owner { actor_number owner ≡ 0 }
    requires chans { (channel_number requests.now.0.chan ≡ 0) × (channel_number requests.now.1.chan ≡ 1) }
    requires routes { Each (IsOverLink 0) requests.now.0.route × Each (IsOverLink 1) requests.now.1.route }
    requires small { 2 ≤ requests.now.1.contract.smax }
{
    moved::<L, Brand, W>(rt, alloc, opened, links, owner, requests, rounds)
}

fn moved_after<L: Opened, W: Wait>(
    rt: &W,
    alloc: Global,
    rounds: u8,
) -> Result<(Shifted, Pass), Fail> {
    let opened = Stamps::open(alloc, 2, 2)?;
    let owner = actor_no(0)?;
    let requests = (request(0, 0)?, request(1, 1)?);
    let links = (L::open(alloc, 0)?, L::open(alloc, 1)?);
    moved_at_home(rt, alloc, opened, links, owner, &requests, rounds)
}

// The pass has set both channels up and planned the packets; it has then released channel 0, which told these counts, and planned
// what was shifted on channel 1, at this clock.
fn has_moved(pass: &Pass, told: Shifted, clock: u64) -> Result<bool, Fail> {
    let [_, _, _, _, _, release, submit] = pass.own() else {
        return Ok(false);
    };
    let (left, joined) = (request(0, 0)?.chan, request(1, 1)?.chan);
    let released = Ask::Release {
        chan: left,
        upstream: None,
    };
    let closing = Reply::Closing {
        count: told.kept,
        cancelled: told.shifted,
    };
    let submitted = Ask::Submit {
        chan: joined,
        count: told.shifted,
        gap: 10,
        size: 2,
    };
    Ok(
        (release.ask, release.reply) == (released, closing)
            && (submit.ask, submit.reply) == (submitted, Reply::Planned { clock }),
    )
}

// After this many rounds, this many packets stay and this many move.
fn moves<R: Wait + Abort>(
    rt: &R,
    alloc: Global,
    rounds: u8,
    (kept, shifted): (u64, u64),
) -> Result<(), Fail> {
    let (told, pass) = moved_after::<LinkState, R>(rt, alloc, rounds)?;
    assert_eq!(rt; told, Shifted { kept, shifted });
    assert!(rt; has_moved(&pass, told, u64::from(rounds))?);
    Ok(())
}

#[test]
fn all_packets_move_before_the_first_tick(rt: HostRuntime) -> Result<(), Fail> {
    moves(&rt, rt.alloc(), 0, (0, 4))
}

#[test]
fn packets_of_ticks_that_were_made_stay(rt: HostRuntime) -> Result<(), Fail> {
    moves(&rt, rt.alloc(), 15, (2, 2))
}
