//! Worked setups at one link.
use super::history::Turn::Asked;
use super::history::{first_other, one_level, three_levels};
use super::{RELAXED, deny, offer, relax, reserve, voice};
use link_steps::{Refusal, Reply};
use std::test::Fail;
use traffic_contract::Test;

#[test]
fn a_denied_reservation_gives_its_share_back(rt: HostRuntime) -> Result<(), Fail> {
    let voice = voice()?;
    let turns = [
        Asked(reserve(1, &voice, 12), offer(1, 1)),
        Asked(reserve(2, &voice, 12), offer(2, 2)),
        Asked(deny(1), Reply::Denied),
        Asked(reserve(3, &voice, 12), offer(1, 1)),
    ];
    assert_eq!(rt; first_other(rt.alloc(), &three_levels(100)?, &turns)?, None);
    Ok(())
}

// Four channels bring 28 ticks of work, the blocking included, into the bound of 23, and 20 into a window of 20.
#[test]
fn a_fourth_channel_passes_in_a_window_before_the_bound(rt: HostRuntime) -> Result<(), Fail> {
    let voice = voice()?;
    let none = Reply::Refused(Refusal::NoLevel { sum: 28, bound: 23 });
    for (test, fourth) in [(Test::Whole, none), (Test::Least, offer(1, 1))] {
        let turns = [
            Asked(reserve(1, &voice, 25), offer(1, 1)),
            Asked(reserve(2, &voice, 25), offer(1, 1)),
            Asked(reserve(3, &voice, 25), offer(1, 1)),
            Asked(reserve(4, &voice, 25), fourth),
        ];
        assert_eq!(rt; first_other(rt.alloc(), &one_level(test)?, &turns)?, None);
    }
    Ok(())
}

#[test]
fn a_relax_cuts_the_buffer(rt: HostRuntime) -> Result<(), Fail> {
    let voice = voice()?;
    let full = Refusal::NoBuffer { need: 4, free: 2 };
    let turns = [
        Asked(reserve(1, &voice, 50), offer(1, 3)),
        Asked(relax(1, 1), RELAXED),
        Asked(reserve(2, &voice, 22), offer(2, 2)),
        Asked(reserve(3, &voice, 22), Reply::Refused(full)),
    ];
    assert_eq!(rt; first_other(rt.alloc(), &three_levels(10)?, &turns)?, None);
    Ok(())
}
