//! Moves between two channels over that link.
ghost use Rattle.std.specs.Prelude.{◌≡◌, IfOk, OnOk, List, length};
ghost use Rattle.link_steps.specs.declared.replies.Reply.{Reply as Replied};
ghost use Rattle.call_script.specs.Standing.{CallerStands};

use super::{OFFER, asks, relax, reserve};
use call_script::{Actor, BadPlan, Plan, RequestEntry, Version, may_move};
use channel_move::Shifted;
use hop_reservation::{Hop, Route};
use link_steps::{Ask, Reply};
use net_units::{ActorNo, ChanNo, LinkNo};
use one_link_plans::{
    bounds, channel, link, mover, name, over_it, plan_of_two, request, second_channel,
    second_request,
};
use setup_protocol::{Control, Request};
use std::alloc::Global;
use std::process::Abort;
use std::test::Fail;
use traffic_contract::{Contract, Test};

// A plan of the link, both requests, and the caller that moves the packets of the one channel to the other.
fn moving(
    alloc: Global,
    version: Version,
    count: u64,
    old: ChanNo,
    new: ChanNo,
) -> Result<Result<Plan, BadPlan>, Fail>
    ensures { IfOk result (λ made. IfOk made (λ plan. length plan.callers ≡ 1)) }
{
    let link = link(alloc, Test::Least, 0)?;
    let first = request(Control::Rate, None)?;
    let second = second_request(12)?;
    let caller = mover(alloc, count, old, new)?;
    plan_of_two(alloc, version, link, first, second, caller, 0)
}

#[test]
fn a_plan_has_moves_from_version_six_on(rt: HostRuntime) -> Result<(), Fail> {
    let (one, two) = (channel()?, second_channel()?);
    let gone = ChanNo::new(2).ok_or("channel")?;
    for (version, count, old, new, rule) in [
        (Version::Five, 4, one, two, Some(1)),
        (Version::Six, 4, one, two, None),
        (Version::Six, 4, gone, two, Some(7)),
        (Version::Six, 4, one, gone, Some(7)),
        (Version::Six, 131_072, one, two, None),
        (Version::Six, 131_073, one, two, Some(14)),
        (Version::Six, 4, one, one, Some(24)),
        (Version::Six, 4, two, one, Some(24)),
    ] {
        let made = moving(rt.alloc(), version, count, old, new)?;
        let broken = rule.map(|rule| BadPlan::Broken { rule });
        assert_eq!(rt;
            made.err(),
            broken,
            "{version:?}, {count} packets, {} to {}",
            old.get(),
            new.get()
        );
    }
    Ok(())
}

// What is asked for the channel.
fn asked(chan: ChanNo) -> Result<Request, Fail> {
    over_it(chan, Control::Rate, 12)
}

// The next asks are these, and get these replies.
fn all_asked(
    rt: &impl Abort,
    actor: &mut Actor,
    plan: &Plan,
    turns: &[(Ask, Reply)],
) -> Result<(), Fail>
    requires { (replies : List Replied) × CallerStands plan.now actor.old replies }
    ensures { OnOk result ((replies : List Replied) × CallerStands plan.now actor.new replies) }
{
    for (ask, reply) in turns {
        asks(rt, actor, plan, ask, *reply)?;
    }
    Ok(())
}

// The packets of a send or a move.
fn submit(chan: ChanNo, count: u64) -> Ask {
    Ask::Submit {
        chan,
        count,
        gap: 10,
        size: 2,
    }
}

#[test]
fn a_caller_moves_the_packets_that_are_left(rt: HostRuntime) -> Result<(), Fail> {
    let alloc = rt.alloc();
    let (old, new) = (channel()?, second_channel()?);
    let plan = moving(alloc, Version::Six, 4, old, new)??;
    let mut actor = Actor::new(alloc, &plan, ActorNo::new(0).ok_or("caller")?)?;
    let turns = [
        (reserve(&asked(old)?), OFFER),
        (relax(old), Reply::Relaxed { clock: 0 }),
        (reserve(&asked(new)?), OFFER),
        (relax(new), Reply::Relaxed { clock: 0 }),
        (submit(old, 4), Reply::Planned { clock: 0 }),
        (
            Ask::Release {
                chan: old,
                upstream: None,
            },
            Reply::Closing {
                count: 1,
                cancelled: 3,
            },
        ),
        (submit(new, 3), Reply::Planned { clock: 0 }),
    ];
    all_asked(&rt, &mut actor, &plan, turns.as_slice())?;
    assert!(rt; actor.next_ask(&plan).is_none());
    let told = Shifted {
        kept: 1,
        shifted: 3,
    };
    assert_eq!(rt; actor.moved(old), Some(told));
    assert_eq!(rt; actor.moved(new), None);
    Ok(())
}

// The same request over another link.
fn over(link: LinkNo) -> Result<RequestEntry, Fail> {
    let mut entry = second_request(12)?;
    let hop = Hop {
        link,
        bounds: bounds()?,
        prop: 2,
    };
    entry.request.route = Route::new(&[hop])?;
    Ok(entry)
}

#[test]
fn packets_move_where_contracts_and_ends_agree(rt: HostRuntime) -> Result<(), Fail> {
    let alloc = rt.alloc();
    let mut ends = link(alloc, Test::Least, 0)?;
    ends.to = name("n3")?;
    let mut begins = link(alloc, Test::Least, 0)?;
    begins.from = name("n3")?;
    let links = [link(alloc, Test::Least, 0)?, ends, begins];
    let old = request(Control::Rate, None)?;
    assert!(rt; may_move(&links, &old, &second_request(12)?));
    let mut smaller = second_request(12)?;
    smaller.request.contract = Contract::new(5, 10, 20, 1)?;
    assert!(rt; !may_move(&links, &old, &smaller));
    for number in [1, 2] {
        let link = LinkNo::new(number).ok_or("link")?;
        assert!(rt; !may_move(&links, &old, &over(link)?), "{number}");
    }
    Ok(())
}
