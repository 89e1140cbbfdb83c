//! Setups and a teardown over two links, worked by hand. Each link has levels of 10, 20 and 40 ticks and a propagation of
//! 2, and offers level 1, so the delay offered is 24.
use crate::due::is_due;
use hop_reservation::{Hop, Route};
use link_steps::{Ask, Refusal, Reply, Unexpected};
use net_units::{Bounds, ChanNo, Kind, Level, LinkNo};
use relaxation::EndDenial;
use setup_protocol::{Control, Deny, Request, Setup, Teardown, Verdict};
use std::process::Abort;
use std::test::Fail;
use traffic_contract::Contract;

fn hop(link: u8) -> Result<Hop, Fail> {
    let link = LinkNo::new(link).ok_or("link")?;
    let bounds = Bounds::new(&[10, 20, 40]).ok_or("bounds")?;
    Ok(Hop {
        link,
        bounds,
        prop: 2,
    })
}

fn request(delay: u64, control: Control) -> Result<Request, Fail> {
    Ok(Request {
        chan: ChanNo::new(7).ok_or("channel")?,
        route: Route::new(&[hop(0)?, hop(1)?])?,
        contract: Contract::new(5, 10, 20, 2)?,
        control,
        delay,
    })
}

fn level(number: u8) -> Result<Level, Fail> {
    Ok(Level::new(number).ok_or("level")?)
}

// An offer of the first level, with the last one in reach.
fn offer() -> Result<Reply, Fail> {
    Ok(Reply::Offer {
        level: level(1)?,
        reach: level(3)?,
    })
}

// The reserve of a hop: the reach before it, and the link after it.
fn reserve(request: &Request, up_reach: u64, first: bool, next: Option<u8>) -> Ask {
    Ask::Reserve {
        chan: request.chan,
        contract: request.contract,
        kind: Kind::Rate,
        delay: request.delay,
        up_reach,
        first,
        next: next.and_then(LinkNo::new),
    }
}

// The next ask goes to this link and is this one. It gets this reply.
fn asks(rt: &impl Abort, setup: &mut Setup, link: u8, ask: &Ask, reply: Reply) -> Result<(), Fail> {
    match setup.next_ask() {
        Some((to, next)) => {
            is_due(rt, &(to.get(), next), &(link, *ask));
            is_due(rt, &setup.take(reply), &Ok(()));
            Ok(())
        }
        None => Err(Fail::from("no ask is left")),
    }
}

// The request is accepted with these levels of two hops, and this delay.
fn accepts(rt: &impl Abort, setup: &Setup, first: Level, second: Level, end: u64) {
    match setup.verdict() {
        Some(Verdict::Accepted { levels, delay }) if levels.len() == 2 => {
            is_due(rt, &(levels.at(1), levels.at(2)), &(first, second));
            is_due(rt, &delay, &end);
        }
        _ => assert!(rt; false, "the request is accepted"),
    }
}

// The request is denied so.
fn denies(rt: &impl Abort, setup: &Setup, deny: &Deny) {
    match setup.verdict() {
        Some(Verdict::Denied(denied)) => is_due(rt, &denied, deny),
        _ => assert!(rt; false, "the request is denied"),
    }
}

#[test]
fn a_request_is_relaxed_over_two_hops(rt: HostRuntime) -> Result<(), Fail> {
    let request = request(50, Control::Rate)?;
    let chan = request.chan;
    let mut setup = Setup::new(&request);
    let relax = |level, up_bound| Ask::Relax {
        chan,
        level,
        up_bound,
    };
    let relaxed = Reply::Relaxed { clock: 9 };
    asks(
        &rt,
        &mut setup,
        0,
        &reserve(&request, 0, true, Some(1)),
        offer()?,
    )?;
    asks(
        &rt,
        &mut setup,
        1,
        &reserve(&request, 40, false, None),
        offer()?,
    )?;
    assert!(rt; setup.verdict().is_none());
    asks(&rt, &mut setup, 1, &relax(level(2)?, 20), relaxed)?;
    asks(&rt, &mut setup, 0, &relax(level(2)?, 0), relaxed)?;
    assert!(rt; setup.next_ask().is_none());
    accepts(&rt, &setup, level(2)?, level(2)?, 44);
    Ok(())
}

#[test]
fn a_refusal_undoes_the_hops_before_it(rt: HostRuntime) -> Result<(), Fail> {
    let request = request(50, Control::Rate)?;
    let deny = Ask::Deny { chan: request.chan };
    let refusal = Refusal::NoLevel { sum: 12, bound: 10 };
    let mut setup = Setup::new(&request);
    asks(
        &rt,
        &mut setup,
        0,
        &reserve(&request, 0, true, Some(1)),
        offer()?,
    )?;
    asks(
        &rt,
        &mut setup,
        1,
        &reserve(&request, 40, false, None),
        Reply::Refused(refusal),
    )?;
    asks(&rt, &mut setup, 0, &deny, Reply::Denied)?;
    denies(&rt, &setup, &Deny::Hop { hop: 2, refusal });
    Ok(())
}

#[test]
fn the_destination_denies_from_the_last_hop_on(rt: HostRuntime) -> Result<(), Fail> {
    let request = request(23, Control::Rate)?;
    let deny = Ask::Deny { chan: request.chan };
    let mut setup = Setup::new(&request);
    asks(
        &rt,
        &mut setup,
        0,
        &reserve(&request, 0, true, Some(1)),
        offer()?,
    )?;
    asks(
        &rt,
        &mut setup,
        1,
        &reserve(&request, 40, false, None),
        offer()?,
    )?;
    asks(&rt, &mut setup, 1, &deny, Reply::Denied)?;
    asks(&rt, &mut setup, 0, &deny, Reply::Denied)?;
    denies(
        &rt,
        &setup,
        &Deny::End(EndDenial::Delay { sum: 24, bound: 23 }),
    );
    Ok(())
}

#[test]
fn a_reply_of_another_ask_changes_nothing(rt: HostRuntime) -> Result<(), Fail> {
    let request = request(50, Control::Rate)?;
    let mut setup = Setup::new(&request);
    let odd = Unexpected {
        ask: reserve(&request, 0, true, Some(1)),
        reply: Reply::Denied,
    };
    match setup.next_ask() {
        Some(_) => is_due(&rt, &setup.take(Reply::Denied), &Err(odd)),
        None => assert!(rt; false, "a reserve is next"),
    }
    asks(
        &rt,
        &mut setup,
        0,
        &reserve(&request, 0, true, Some(1)),
        offer()?,
    )
}

#[test]
fn a_release_passes_on_the_first_count(rt: HostRuntime) -> Result<(), Fail> {
    let request = request(50, Control::Rate)?;
    let mut teardown = Teardown::new(request.chan, request.route);
    for (link, upstream) in [(0, None), (1, Some(3))] {
        let ask = Ask::Release {
            chan: request.chan,
            upstream,
        };
        match teardown.next_ask() {
            Some((to, next)) => {
                is_due(&rt, &(to.get(), next), &(link, ask));
                let reply = Reply::Closing {
                    count: 3,
                    cancelled: 0,
                };
                is_due(&rt, &teardown.take(reply), &Ok(()));
            }
            None => assert!(rt; false, "a release is next"),
        }
    }
    assert!(rt; teardown.next_ask().is_none());
    Ok(())
}
