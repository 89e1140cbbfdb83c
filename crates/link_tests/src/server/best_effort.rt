//! Worked best-effort packets at one link.
use super::history::Turn::{Asked, QuietUntil};
use super::history::{first_other, three_levels};
use super::{RELAXED, offer, planned, relax, reserve, sent, submit, ticked, voice};
use link_steps::{Ask, Refusal, Reply, Sent};
use std::test::Fail;

fn pour(count: u64, size: u32) -> Ask {
    Ask::Pour {
        count,
        gap: 1,
        size,
    }
}

// The reply to a tick in which a best-effort packet is lost.
fn lost(clock: u64, sent: Option<Sent>) -> Reply {
    Reply::Ticked {
        clock,
        full: 0,
        sent,
        best_sent: false,
        best_lost: true,
    }
}

// The reply to a tick in which one leaves.
fn best_sent(clock: u64) -> Reply {
    Reply::Ticked {
        clock,
        full: 0,
        sent: None,
        best_sent: true,
        best_lost: false,
    }
}

// The first waits while a packet of a level is served, and there is no place for those after it.
#[test]
fn one_best_effort_packet_waits_and_two_are_lost(rt: HostRuntime) -> Result<(), Fail> {
    let too_big = Refusal::TooBig { size: 5, smax: 4 };
    let turns = [
        Asked(reserve(1, &voice()?, 12), offer(1, 1)),
        Asked(relax(1, 1), RELAXED),
        Asked(pour(3, 5), Reply::Refused(too_big)),
        Asked(pour(3, 4), planned(0)),
        Asked(pour(1, 4), Reply::Refused(Refusal::Busy { left: 3 })),
        Asked(submit(1, 1, 1, 2), planned(0)),
        QuietUntil(1),
        Asked(Ask::Tick, lost(1, Some(sent(1, 1, 0, 0, 12, 4)))),
        Asked(Ask::Tick, lost(2, None)),
        QuietUntil(5),
        Asked(Ask::Tick, best_sent(5)),
        QuietUntil(8),
    ];
    assert_eq!(rt; first_other(rt.alloc(), &three_levels(100)?, &turns)?, None);
    Ok(())
}

// A packet of a level waits for a best-effort packet that has started.
#[test]
fn a_best_effort_packet_isnt_interrupted(rt: HostRuntime) -> Result<(), Fail> {
    let turns = [
        Asked(reserve(1, &voice()?, 12), offer(1, 1)),
        Asked(relax(1, 1), RELAXED),
        Asked(pour(1, 4), planned(0)),
        QuietUntil(1),
        Asked(submit(1, 1, 1, 2), planned(1)),
        QuietUntil(3),
        Asked(Ask::Tick, best_sent(3)),
        QuietUntil(5),
        Asked(Ask::Tick, ticked(5, 0, Some(sent(1, 1, 1, 1, 13, 8)))),
        QuietUntil(8),
    ];
    assert_eq!(rt; first_other(rt.alloc(), &three_levels(100)?, &turns)?, None);
    Ok(())
}
