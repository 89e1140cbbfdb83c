//! Worked packets that have no place where they arrive.
use super::history::Turn::Asked;
use super::history::{first_other, three_levels};
use super::{RELAXED, arrive, chan, closing, offer, relax, release, reserve, stray, taken, voice};
use link_steps::{Ask, Refusal, Reply, Why};
use net_units::Kind;
use std::test::Fail;
use traffic_contract::Contract;

// A reserve for channel 1 after a hop before. Once it is committed at level 1, up to two of its packets come into a window
// as long as that level's bound, 10 ticks: it has two slots.
fn reserve_at_later_hop(contract: &Contract) -> Ask {
    Ask::Reserve {
        chan: chan(1),
        contract: *contract,
        kind: Kind::Rate,
        delay: 50,
        up_reach: 20,
        first: false,
        next: None,
    }
}

#[test]
fn a_first_hop_takes_packets_of_its_source_alone(rt: HostRuntime) -> Result<(), Fail> {
    let turns = [
        Asked(reserve(1, &voice()?, 12), offer(1, 1)),
        Asked(relax(1, 1), RELAXED),
        Asked(arrive(1, 1, 2, 0), stray(Why::FirstHop)),
    ];
    assert_eq!(rt; first_other(rt.alloc(), &three_levels(100)?, &turns)?, None);
    Ok(())
}

// A packet of 3 units is over the contract's 2 and takes no slot. The second packet is eligible 5 ticks after the first.
#[test]
fn a_packet_that_finds_its_slots_taken_is_refused(rt: HostRuntime) -> Result<(), Fail> {
    let full = Refusal::Full { held: 2, slots: 2 };
    let turns = [
        Asked(reserve_at_later_hop(&voice()?), offer(1, 3)),
        Asked(relax(1, 1), RELAXED),
        Asked(arrive(1, 1, 3, 0), stray(Why::Big { smax: 2 })),
        Asked(arrive(1, 1, 2, 0), taken(0)),
        Asked(arrive(1, 2, 2, 0), taken(5)),
        Asked(arrive(1, 3, 2, 0), Reply::Refused(full)),
    ];
    assert_eq!(rt; first_other(rt.alloc(), &three_levels(100)?, &turns)?, None);
    Ok(())
}

#[test]
fn a_packet_past_the_count_of_a_release_is_refused(rt: HostRuntime) -> Result<(), Fail> {
    let turns = [
        Asked(reserve_at_later_hop(&voice()?), offer(1, 3)),
        Asked(relax(1, 1), RELAXED),
        Asked(arrive(1, 1, 2, 0), taken(0)),
        Asked(release(1, Some(1)), closing(1, 0)),
        Asked(arrive(1, 2, 2, 0), stray(Why::PastCount { count: 1 })),
    ];
    assert_eq!(rt; first_other(rt.alloc(), &three_levels(100)?, &turns)?, None);
    Ok(())
}
