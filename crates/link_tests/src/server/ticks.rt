//! Worked ticks at one link.
use super::history::Turn::{Asked, QuietUntil};
use super::history::{first_other, three_levels};
use super::{RELAXED, chan, offer, planned, relax, reserve, sent, submit, ticked, voice};
use link_steps::{Ask, Packet, Sent};
use std::test::Fail;
use traffic_contract::Contract;

#[test]
fn packets_at_the_contracts_pace_are_served_at_once(rt: HostRuntime) -> Result<(), Fail> {
    let turns = [
        Asked(reserve(1, &voice()?, 12), offer(1, 1)),
        Asked(relax(1, 1), RELAXED),
        Asked(submit(1, 3, 10, 2), planned(0)),
        QuietUntil(1),
        Asked(Ask::Tick, ticked(1, 0, Some(sent(1, 1, 0, 0, 12, 4)))),
        QuietUntil(11),
        Asked(Ask::Tick, ticked(11, 0, Some(sent(1, 2, 10, 10, 22, 14)))),
        QuietUntil(21),
        Asked(Ask::Tick, ticked(21, 0, Some(sent(1, 3, 20, 20, 32, 24)))),
        QuietUntil(30),
        Asked(submit(1, 3, 10, 2), planned(30)),
    ];
    assert_eq!(rt; first_other(rt.alloc(), &three_levels(100)?, &turns)?, None);
    Ok(())
}

#[test]
fn packets_that_come_too_fast_are_held_and_one_finds_no_slot(rt: HostRuntime) -> Result<(), Fail> {
    let turns = [
        Asked(reserve(1, &voice()?, 12), offer(1, 1)),
        Asked(relax(1, 1), RELAXED),
        Asked(submit(1, 4, 2, 2), planned(0)),
        QuietUntil(1),
        Asked(Ask::Tick, ticked(1, 0, Some(sent(1, 1, 0, 0, 12, 4)))),
        QuietUntil(6),
        Asked(Ask::Tick, ticked(6, 1, Some(sent(1, 2, 2, 5, 17, 9)))),
        QuietUntil(21),
        Asked(Ask::Tick, ticked(21, 0, Some(sent(1, 3, 4, 20, 32, 24)))),
        QuietUntil(30),
    ];
    assert_eq!(rt; first_other(rt.alloc(), &three_levels(100)?, &turns)?, None);
    Ok(())
}

#[test]
fn a_packet_of_the_last_level_isnt_interrupted(rt: HostRuntime) -> Result<(), Fail> {
    let wide = Contract::new(5, 10, 20, 4)?;
    let wide_packet = Sent {
        packet: Packet {
            chan: chan(2),
            number: 1,
            size: 4,
            due: 42,
        },
        at: 0,
        eligible: 0,
        arrives: 6,
        next: None,
    };
    let turns = [
        Asked(reserve(1, &voice()?, 12), offer(1, 1)),
        Asked(relax(1, 1), RELAXED),
        Asked(reserve(2, &wide, 50), offer(2, 3)),
        Asked(relax(2, 3), RELAXED),
        Asked(submit(2, 1, 1, 4), planned(0)),
        QuietUntil(1),
        Asked(submit(1, 1, 1, 2), planned(1)),
        QuietUntil(3),
        Asked(Ask::Tick, ticked(3, 0, Some(wide_packet))),
        QuietUntil(5),
        Asked(Ask::Tick, ticked(5, 0, Some(sent(1, 1, 1, 1, 13, 8)))),
        QuietUntil(8),
    ];
    assert_eq!(rt; first_other(rt.alloc(), &three_levels(100)?, &turns)?, None);
    Ok(())
}

// Channels 3, 1 and 2 are reserved in this order and send in another. Their packets are eligible as they arrive and of
// one level, and so they go in the order of their arrival: in each tick that of the reserves. Each takes two ticks.
#[test]
fn packets_of_one_tick_arrive_in_the_order_of_the_reserves(rt: HostRuntime) -> Result<(), Fail> {
    let voice = voice()?;
    let turns = [
        Asked(reserve(3, &voice, 22), offer(1, 2)),
        Asked(relax(3, 2), RELAXED),
        Asked(reserve(1, &voice, 22), offer(1, 2)),
        Asked(relax(1, 2), RELAXED),
        Asked(reserve(2, &voice, 22), offer(1, 2)),
        Asked(relax(2, 2), RELAXED),
        Asked(submit(2, 2, 10, 2), planned(0)),
        Asked(submit(3, 2, 10, 2), planned(0)),
        Asked(submit(1, 2, 10, 2), planned(0)),
        QuietUntil(1),
        Asked(Ask::Tick, ticked(1, 0, Some(sent(3, 1, 0, 0, 22, 4)))),
        QuietUntil(3),
        Asked(Ask::Tick, ticked(3, 0, Some(sent(1, 1, 0, 0, 22, 6)))),
        QuietUntil(5),
        Asked(Ask::Tick, ticked(5, 0, Some(sent(2, 1, 0, 0, 22, 8)))),
        QuietUntil(11),
        Asked(Ask::Tick, ticked(11, 0, Some(sent(3, 2, 10, 10, 32, 14)))),
        QuietUntil(13),
        Asked(Ask::Tick, ticked(13, 0, Some(sent(1, 2, 10, 10, 32, 16)))),
        QuietUntil(15),
        Asked(Ask::Tick, ticked(15, 0, Some(sent(2, 2, 10, 10, 32, 18)))),
        QuietUntil(20),
    ];
    assert_eq!(rt; first_other(rt.alloc(), &three_levels(100)?, &turns)?, None);
    Ok(())
}
