//! Worked releases and arrivals at one link.
use super::history::Turn::{Asked, QuietUntil};
use super::history::{first_other, three_levels};
use super::{
    RELAXED, arrive, chan, closing, deny, offer, planned, relax, release, reserve, sent, stray,
    submit, taken, ticked, voice,
};
use link_steps::{Ask, Phase, Refusal, Reply, Why};
use net_units::{Kind, Level, LinkNo};
use std::test::Fail;

#[test]
fn each_ask_in_the_life_of_a_reservation_is_answered(rt: HostRuntime) -> Result<(), Fail> {
    let voice = voice()?;
    let twice = Refusal::Twice {
        phase: Phase::Tentative,
    };
    let unfit = Refusal::Unfit {
        offer: Level::LEAST,
        reach: Level::LEAST,
        up_reach: 0,
    };
    let committed = Refusal::NotInPhase {
        phase: Phase::Committed,
    };
    let turns = [
        Asked(reserve(1, &voice, 12), offer(1, 1)),
        Asked(reserve(1, &voice, 12), Reply::Refused(twice)),
        Asked(relax(1, 2), Reply::Refused(unfit)),
        Asked(relax(1, 1), RELAXED),
        Asked(deny(1), Reply::Refused(committed)),
        Asked(submit(1, 3, 10, 2), planned(0)),
        Asked(
            submit(1, 3, 10, 2),
            Reply::Refused(Refusal::Busy { left: 3 }),
        ),
        Asked(arrive(9, 1, 2, 0), stray(Why::NoRow)),
        Asked(release(1, None), closing(0, 3)),
        QuietUntil(1),
        Asked(release(1, None), Reply::Refused(Refusal::NoSuch)),
    ];
    assert_eq!(rt; first_other(rt.alloc(), &three_levels(100)?, &turns)?, None);
    Ok(())
}

// A channel that is released keeps its share of the link until its hold ends.
#[test]
fn a_released_channel_holds_its_share(rt: HostRuntime) -> Result<(), Fail> {
    let voice = voice()?;
    let turns = [
        Asked(reserve(1, &voice, 12), offer(1, 1)),
        Asked(relax(1, 1), RELAXED),
        Asked(submit(1, 3, 10, 2), planned(0)),
        QuietUntil(1),
        Asked(Ask::Tick, ticked(1, 0, Some(sent(1, 1, 0, 0, 12, 4)))),
        QuietUntil(11),
        Asked(Ask::Tick, ticked(11, 0, Some(sent(1, 2, 10, 10, 22, 14)))),
        QuietUntil(21),
        Asked(Ask::Tick, ticked(21, 0, Some(sent(1, 3, 20, 20, 32, 24)))),
        QuietUntil(30),
        Asked(release(1, None), closing(3, 0)),
        QuietUntil(60),
        Asked(reserve(2, &voice, 12), offer(2, 2)),
        Asked(deny(2), Reply::Denied),
        QuietUntil(61),
        Asked(reserve(2, &voice, 12), offer(1, 1)),
    ];
    assert_eq!(rt; first_other(rt.alloc(), &three_levels(100)?, &turns)?, None);
    Ok(())
}

// And it keeps its units of the buffer: 4 of 7, and another channel needs 4, too.
#[test]
fn a_released_channel_keeps_its_units(rt: HostRuntime) -> Result<(), Fail> {
    let voice = voice()?;
    let full = Refusal::NoBuffer { need: 4, free: 3 };
    let turns = [
        Asked(reserve(1, &voice, 12), offer(1, 1)),
        Asked(relax(1, 1), RELAXED),
        Asked(release(1, None), closing(0, 0)),
        Asked(reserve(2, &voice, 22), Reply::Refused(full)),
        Asked(Ask::Tick, ticked(0, 0, None)),
        Asked(reserve(2, &voice, 12), offer(1, 1)),
    ];
    assert_eq!(rt; first_other(rt.alloc(), &three_levels(7)?, &turns)?, None);
    Ok(())
}

// Behind another link, under delay-jitter control, a packet waits until it is due.
#[test]
fn a_packet_that_arrives_waits_until_it_is_due(rt: HostRuntime) -> Result<(), Fail> {
    let reserve = Ask::Reserve {
        chan: chan(1),
        contract: voice()?,
        kind: Kind::Jitter,
        delay: 50,
        up_reach: 20,
        first: false,
        next: LinkNo::new(3),
    };
    let turns = [
        Asked(reserve, offer(1, 3)),
        Asked(arrive(1, 1, 2, 22), stray(Why::Uncommitted)),
        Asked(relax(1, 1), RELAXED),
        Asked(arrive(1, 1, 2, 22), taken(22)),
        Asked(arrive(1, 1, 2, 32), stray(Why::WrongNumber { next: 2 })),
        Asked(release(1, None), Reply::Refused(Refusal::NoSuch)),
    ];
    assert_eq!(rt; first_other(rt.alloc(), &three_levels(100)?, &turns)?, None);
    Ok(())
}
