//! Rounds worked by hand: what the plane asks, in turn, and what is left before it is asked.
ghost use Rattle.std.specs.Prelude.{◌≡◌, IsTrue, OnOk};
ghost use Rattle.tick_plane.specs.Planes.{IsDueLater};

use link_steps::{Ask, Packet, Reply, Sent, Unexpected};
use net_units::{ChanNo, LinkNo};
use std::alloc::Global;
use std::fmt::Debug;
use std::process::Abort;
use std::test::Fail;
use tick_plane::{Asked, Plane};

// What a link is asked, and what it replies.
type Step = (u8, Ask, Reply);

// A tick of this link, with the packet that leaves in it.
fn tick(link: u8, clock: u64, sent: Option<Sent>) -> Step {
    let reply = Reply::Ticked {
        clock,
        full: 0,
        sent,
        best_sent: false,
        best_lost: false,
    };
    (link, Ask::Tick, reply)
}

// Whether a packet that leaves with the reply is due after the round.
fn is_later(reply: &Reply, round: u64) -> bool
    ensures { IsTrue result → IsDueLater round reply.now }
{
    match reply {
        Reply::Ticked {
            sent: Some(sent),
            ..
        } => round < sent.arrives,
        _ => true,
    }
}

// What was found is what is due. A comparison is dear to prove for what it prints, so it stands by itself.
fn is_due<T: PartialEq + Debug>(rt: &impl Abort, found: &T, due: &T) {
    assert_eq!(rt; found, due);
}

// The same of lists.
fn are_due<T: PartialEq + Debug>(rt: &impl Abort, found: &[T], due: &[T]) {
    assert_eq!(rt; found, due);
}

// The plane asks this next, and gets this reply.
fn asks(rt: &impl Abort, plane: &mut Plane, step: &Step) -> Result<(), Fail> {
    let (link, ask, reply) = *step;
    plane.ready()?;
    match plane.next_ask() {
        Some((to, next)) => {
            is_due(rt, &(to.get(), next), &(link, ask));
            assert!(rt; is_later(&reply, plane.round()));
            is_due(rt, &plane.take(reply), &Ok(()));
            Ok(())
        }
        None => Err(Fail::from("no ask is left")),
    }
}

// The plane asks these in turn.
fn asks_in_turn(rt: &impl Abort, plane: &mut Plane, steps: &[Step]) -> Result<(), Fail> {
    for step in steps {
        asks(rt, plane, step)?;
    }
    Ok(())
}

#[test]
fn a_round_of_one_link_is_a_tick(rt: HostRuntime) -> Result<(), Fail> {
    let mut plane = Plane::new(rt.alloc(), 1, 1)?;
    asks(&rt, &mut plane, &tick(0, 0, None))?;
    is_due(&rt, &plane.next_ask(), &None);
    Ok(())
}

#[test]
fn a_reply_of_another_ask_changes_nothing(rt: HostRuntime) -> Result<(), Fail> {
    let mut plane = Plane::new(rt.alloc(), 1, 1)?;
    let odd = Unexpected {
        ask: Ask::Tick,
        reply: Reply::Denied,
    };
    plane.ready()?;
    match plane.next_ask() {
        Some(_) => is_due(&rt, &plane.take(Reply::Denied), &Err(odd)),
        None => assert!(rt; false, "a tick is next"),
    }
    asks(&rt, &mut plane, &tick(0, 0, None))
}

// A packet that leaves link 0 in the first round and reaches link 1 in the third.
fn crossing() -> Result<Sent, Fail> {
    let packet = Packet {
        chan: ChanNo::new(7).ok_or("a channel")?,
        number: 1,
        size: 2,
        due: 12,
    };
    Ok(Sent {
        packet,
        at: 0,
        eligible: 0,
        arrives: 2,
        next: LinkNo::new(1),
    })
}

#[test]
fn a_packet_arrives_before_the_ticks_of_its_round(rt: HostRuntime) -> Result<(), Fail> {
    let sent = crossing()?;
    let packet = sent.packet;
    let taken = Reply::Taken {
        clock: 2,
        eligible: 2,
    };
    let steps = [
        tick(0, 0, Some(sent)),
        tick(1, 0, None),
        tick(0, 1, None),
        tick(1, 1, None),
        (1, Ask::Arrive { packet }, taken),
        tick(0, 2, None),
        tick(1, 2, None),
    ];
    let mut plane = Plane::new(rt.alloc(), 2, 3)?;
    asks_in_turn(&rt, &mut plane, &steps)?;
    is_due(&rt, &plane.next_ask(), &None);
    Ok(())
}

// What a window of so many rounds asks of a link.
fn asked_in_window(alloc: Global, plane: &Plane, rounds: u64, link: u8) -> Result<Vec<Ask>, Fail> {
    let mut asks = Vec::new(alloc);
    let window = plane.window(alloc, rounds)?;
    window.asks(alloc, LinkNo::new(link).ok_or("a link")?, &mut asks)?;
    Ok(asks)
}

// What a window of three rounds asks of link 1 once the first round is made.
#[test]
fn a_window_has_the_arrivals_of_its_rounds(rt: HostRuntime) -> Result<(), Fail> {
    let sent = crossing()?;
    let packet = sent.packet;
    let mut plane = Plane::new(rt.alloc(), 2, 3)?;
    asks_in_turn(&rt, &mut plane, &[tick(0, 0, Some(sent)), tick(1, 0, None)])?;
    let left = asked_in_window(rt.alloc(), &plane, 3, 1)?;
    let due = [Ask::Tick, Ask::Arrive { packet }, Ask::Tick];
    are_due(&rt, left.as_slice(), &due);
    Ok(())
}

// How many ticks are asked for, or which packet arrives.
fn in_short(asked: &Asked) -> (u64, Option<Packet>) {
    match *asked {
        Asked::Ticks(count) => (count, None),
        Asked::Arrives(packet) => (0, Some(packet)),
    }
}

// What a window of so many rounds asks of a link, with its ticks counted.
fn counted_in_window(
    alloc: Global,
    plane: &Plane,
    rounds: u64,
    link: u8,
) -> Result<Vec<(u64, Option<Packet>)>, Fail>
    requires starts { plane.now.at.ticked ≡ 0 }
{
    let mut asked = Vec::new(alloc);
    let window = plane.window(alloc, rounds)?;
    window.asked(alloc, LinkNo::new(link).ok_or("a link")?, &mut asked)?;
    let mut short = Vec::new(alloc);
    for next in asked.as_slice() {
        short.push(in_short(next))?;
    }
    Ok(short)
}

// The same window: the second round's tick, the arrival, the third round's tick.
#[test]
fn a_window_counts_the_ticks_between_arrivals(rt: HostRuntime) -> Result<(), Fail> {
    let sent = crossing()?;
    let mut plane = Plane::new(rt.alloc(), 2, 3)?;
    asks_in_turn(&rt, &mut plane, &[tick(0, 0, Some(sent)), tick(1, 0, None)])?;
    assert!(rt; plane.ticked() == 0);
    let left = counted_in_window(rt.alloc(), &plane, 3, 1)?;
    let due = [(1, None), (0, Some(sent.packet)), (1, None)];
    are_due(&rt, left.as_slice(), &due);
    Ok(())
}

// Two packets leave in a window that is over when round 3 begins. One was due in it, and the other one is on its way.
#[test]
fn a_window_that_was_made_is_skipped(rt: HostRuntime) -> Result<(), Fail> {
    let sent = crossing()?;
    let late = Sent { arrives: 5, ..sent };
    let mut plane = Plane::new(rt.alloc(), 2, 9)?;
    send(&rt, &mut plane, &sent)?;
    send(&rt, &mut plane, &late)?;
    is_due(&rt, &plane.flights(), &2);
    plane.skip_to(3);
    is_due(
        &rt,
        &(plane.round(), plane.ticked(), plane.flights()),
        &(3, 0, 1),
    );
    Ok(())
}

// It is on its way.
fn send(rt: &impl Abort, plane: &mut Plane, sent: &Sent) -> Result<(), Fail>
    ensures round { OnOk result (plane.new.at.round ≡ plane.old.at.round) }
    ensures rounds { OnOk result (plane.new.rounds ≡ plane.old.rounds) }
{
    assert!(rt; plane.round() < sent.arrives);
    plane.send(&Some(*sent))?;
    Ok(())
}

// What is left of the round is this.
fn are_left(
    rt: &impl Abort,
    alloc: Global,
    plane: &Plane,
    due: &[(LinkNo, Ask)],
) -> Result<(), Fail> {
    let rest = plane.rest(alloc)?;
    are_due(rt, rest.as_slice(), due);
    Ok(())
}

// What is left once two rounds are made.
#[test]
fn what_is_left_is_known_before_it_is_asked(rt: HostRuntime) -> Result<(), Fail> {
    let sent = crossing()?;
    let packet = sent.packet;
    let steps = [
        tick(0, 0, Some(sent)),
        tick(1, 0, None),
        tick(0, 1, None),
        tick(1, 1, None),
    ];
    let mut plane = Plane::new(rt.alloc(), 2, 3)?;
    asks_in_turn(&rt, &mut plane, &steps)?;
    let (first, second) = (
        LinkNo::new(0).ok_or("a link")?,
        LinkNo::new(1).ok_or("a link")?,
    );
    let due = [
        (second, Ask::Arrive { packet }),
        (first, Ask::Tick),
        (second, Ask::Tick),
    ];
    are_left(&rt, rt.alloc(), &plane, &due)
}
