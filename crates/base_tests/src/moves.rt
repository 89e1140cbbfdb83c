//! Moves that were worked by hand. Channel 1 goes over the links 0 and 1, channel 2 over link 5.
use crate::due::is_due;
use channel_move::{MoveOdd, Mover, Shifted};
use hop_reservation::{Hop, Route};
use link_steps::{Ask, Refusal, Reply};
use net_units::{Bounds, ChanNo, LinkNo};
use std::process::Abort;
use std::test::Fail;

fn hop(link: u8) -> Result<Hop, Fail> {
    let link = LinkNo::new(link).ok_or("link")?;
    let bounds = Bounds::new(&[10, 20]).ok_or("bounds")?;
    Ok(Hop {
        link,
        bounds,
        prop: 2,
    })
}

fn channel(number: u32) -> Result<ChanNo, Fail> {
    Ok(ChanNo::new(number).ok_or("channel")?)
}

// A packet of 2 units every 10 ticks moves from channel 1 to channel 2.
fn mover() -> Result<Mover, Fail> {
    let leaving = Route::new(&[hop(0)?, hop(1)?])?;
    let joining = Route::new(&[hop(5)?])?;
    Ok(Mover::new(channel(1)?, leaving, channel(2)?, joining, 10, 2))
}

// The release of channel 1, told how many packets are still to pass.
fn release(upstream: Option<u64>) -> Result<Ask, Fail> {
    Ok(Ask::Release {
        chan: channel(1)?,
        upstream,
    })
}

// The next ask goes to this link and is this one. It gets this reply.
fn asks(rt: &impl Abort, mover: &mut Mover, link: u8, ask: &Ask, reply: Reply) -> Result<(), Fail> {
    match mover.next_ask() {
        Some((to, next)) => {
            is_due(rt, &(to.get(), next), &(link, *ask));
            is_due(rt, &mover.shifted(), &None);
            is_due(rt, &mover.take(reply), &Ok(()));
            Ok(())
        }
        None => Err(Fail::from("an ask is left")),
    }
}

// No ask is left, and so many packets were kept and shifted.
fn has_shifted(rt: &impl Abort, mover: &Mover, kept: u64, shifted: u64) {
    is_due(rt, &mover.next_ask(), &None);
    is_due(rt, &mover.shifted(), &Some(Shifted { kept, shifted }));
}

#[test]
fn packets_that_were_not_taken_are_planned_on_the_other_channel(
    rt: HostRuntime,
) -> Result<(), Fail> {
    let mut mover = mover()?;
    let told = Reply::Closing {
        count: 3,
        cancelled: 4,
    };
    asks(&rt, &mut mover, 0, &release(None)?, told)?;
    let submit = Ask::Submit {
        chan: channel(2)?,
        count: 4,
        gap: 10,
        size: 2,
    };
    asks(&rt, &mut mover, 5, &submit, Reply::Planned { clock: 30 })?;
    let further = Reply::Closing {
        count: 2,
        cancelled: 0,
    };
    asks(&rt, &mut mover, 1, &release(Some(3))?, further)?;
    has_shifted(&rt, &mover, 3, 4);
    Ok(())
}

#[test]
fn where_all_were_taken_nothing_is_submitted(rt: HostRuntime) -> Result<(), Fail> {
    let mut mover = mover()?;
    let told = Reply::Closing {
        count: 7,
        cancelled: 0,
    };
    asks(&rt, &mut mover, 0, &release(None)?, told)?;
    asks(&rt, &mut mover, 1, &release(Some(7))?, told)?;
    has_shifted(&rt, &mover, 7, 0);
    Ok(())
}

#[test]
fn a_reply_to_another_ask_changes_nothing(rt: HostRuntime) -> Result<(), Fail> {
    let mut mover = mover()?;
    let odd = Reply::Refused(Refusal::NoSuch);
    match mover.next_ask() {
        Some((to, ask)) => {
            is_due(&rt, &mover.take(odd), &Err(MoveOdd { ask, reply: odd }));
            is_due(&rt, &mover.next_ask(), &Some((to, release(None)?)));
            Ok(())
        }
        None => Err(Fail::from("an ask is left")),
    }
}
