//! Plans and callers over one link, worked by hand.
ghost use Rattle.std.specs.Prelude.{◌≡◌, [], ◌∷◌, IfOk, OnOk, List, length};
ghost use Rattle.link_steps.specs.declared.replies.Reply.{Reply as Replied};
ghost use Rattle.one_link_plans.specs.OneLink.{IsThatLink, IsThatScript};
ghost use Rattle.call_script.specs.Standing.{CallerStands};

use call_script::{Actor, BadPlan, CallerEntry, LinkEntry, Op, Plan, Quotas, Version};
use link_steps::{Ask, Quota, Reply, Unexpected};
use net_units::{ActorNo, ChanNo, Kind, Level};
use one_link_plans::{caller, channel, link, link_no, name, opened, over_it, plan, request};
use setup_protocol::{Control, Request, Verdict};
use std::alloc::Global;
use std::process::Abort;
use std::test::Fail;
use traffic_contract::Test;

mod moves;

// A quota of the group of this number.
fn quota(group: u8) -> Quota
    ensures { result.levels ≡ 4 ∷ 8 ∷ 20 ∷ 0 ∷ 0 ∷ 0 ∷ 0 ∷ 0 ∷ [] }
{
    Quota {
        group,
        buffer: 50,
        levels: [4, 8, 20, 0, 0, 0, 0, 0],
    }
}

// The first group alone has a quota.
fn split_link(alloc: Global) -> Result<LinkEntry, Fail>
    ensures { IfOk result IsThatLink }
{
    let mut entry = link(alloc, Test::Least, 0)?;
    entry.quotas.push(quota(1))?;
    Ok(entry)
}

// The caller, which is of this group, opens the request, and then it pours or it doesn't.
#[tactic(auto, unfolding(call_script::specs::Parts::openings_in))]
fn script(alloc: Global, group: u8, pours: bool) -> Result<CallerEntry, Fail>
    ensures { IfOk result IsThatScript }
{
    let mut ops = Vec::new(alloc);
    ops.push(Op::Open(channel()?))?;
    if pours {
        ops.push(Op::Pour {
            link: link_no()?,
            count: 1,
            gap: 1,
            size: 4,
        })?;
    }
    let made = caller(group, ops)?;
    Ok(made)
}

#[test]
fn a_plan_keeps_the_rules_of_its_version(rt: HostRuntime) -> Result<(), Fail> {
    for (version, test, best, found, pours, rounds, rule) in [
        (Version::One, Test::Whole, 0, false, false, 524_288, None),
        (Version::One, Test::Whole, 0, false, false, 524_289, Some(8)),
        (Version::One, Test::Least, 0, false, false, 0, Some(1)),
        (Version::Two, Test::Whole, 0, false, false, 0, Some(1)),
        (Version::Two, Test::Least, 1, false, false, 0, Some(1)),
        (Version::Two, Test::Least, 0, false, true, 0, Some(1)),
        (Version::Three, Test::Least, 0, false, true, 0, Some(19)),
        (Version::Three, Test::Least, 1, false, true, 0, None),
        (Version::Three, Test::Least, 1, true, true, 0, Some(1)),
        (Version::Four, Test::Least, 1, true, true, 0, None),
        (Version::Five, Test::Least, 1, true, true, 0, None),
        (Version::Six, Test::Least, 1, true, true, 0, None),
    ] {
        let link = link(rt.alloc(), test, best)?;
        let nodes = if found {
            Some((link.from, link.to))
        } else {
            None
        };
        let request = request(Control::Rate, nodes)?;
        let caller = script(rt.alloc(), 0, pours)?;
        let groups = Vec::new(rt.alloc());
        let made = plan(rt.alloc(), version, link, groups, request, caller, rounds)?;
        let broken = rule.map(|rule| BadPlan::Broken { rule });
        assert_eq!(rt; made.err(), broken, "{version:?}, {test:?}, best {best}");
    }
    Ok(())
}

#[test]
fn a_link_without_quotas_is_not_split(rt: HostRuntime) -> Result<(), Fail> {
    let alloc = rt.alloc();
    let plan = opened(alloc, 0)?;
    assert!(rt; plan.split(alloc, link_no()?)?.is_none());
    assert_eq!(rt; plan.groups().len(), 0);
    Ok(())
}

// A plan of that link with a quota, of that caller, which is of the quota's group, and of one more group.
fn split_plan(alloc: Global, version: Version) -> Result<Result<Plan, BadPlan>, Fail>
    ensures { IfOk result (λ made. IfOk made (λ plan. length plan.links ≡ 1)) }
{
    let request = request(Control::Rate, None)?;
    let caller = script(alloc, 1, false)?;
    let mut groups = Vec::new(alloc);
    groups.push(name("g1")?)?;
    groups.push(name("g2")?)?;
    let link = split_link(alloc)?;
    plan(alloc, version, link, groups, request, caller, 0)
}

#[test]
fn a_link_with_quotas_is_split_between_groups(rt: HostRuntime) -> Result<(), Fail> {
    let alloc = rt.alloc();
    let before = split_plan(alloc, Version::Four)?;
    assert_eq!(rt; before.err(), Some(BadPlan::Broken { rule: 1 }));
    let plan = split_plan(alloc, Version::Five)??;
    assert_eq!(rt; plan.groups().len(), 2);
    let split = plan.split(alloc, link_no()?)?.ok_or("no split")?;
    assert_eq!(rt; split.quotas(), [quota(1)].as_slice());
    assert_eq!(rt; split.groups(), [1u8].as_slice());
    Ok(())
}

#[test]
fn quotas_stand_in_the_order_in_which_they_came(rt: HostRuntime) -> Result<(), Fail> {
    let mut quotas = Quotas::none(rt.alloc());
    quotas.push(quota(2))?;
    quotas.push(quota(1))?;
    assert_eq!(rt; quotas.as_slice(), [quota(2), quota(1)].as_slice());
    let again = Quotas::new(quotas.into_vec());
    assert_eq!(rt; again.as_slice(), [quota(2), quota(1)].as_slice());
    Ok(())
}

// The next ask goes to link 0 and is this one. It gets this reply.
fn asks(
    rt: &impl Abort,
    actor: &mut Actor,
    plan: &Plan,
    ask: &Ask,
    reply: Reply,
) -> Result<(), Fail>
    requires { (replies : List Replied) × CallerStands plan.now actor.old replies }
    ensures { OnOk result ((replies : List Replied) × CallerStands plan.now actor.new replies) }
{
    match actor.next_ask(plan) {
        Some((to, next)) => {
            assert_eq!(rt; (to.get(), next), (0, *ask));
            match actor.take(plan, reply) {
                Ok(()) => Ok(()),
                Err(_) => Err(Fail::from("another reply")),
            }
        }
        None => Err(Fail::from("no ask is left")),
    }
}

// The next ask is this one, and the reply isn't one of its own.
fn refuses(
    rt: &impl Abort,
    actor: &mut Actor,
    plan: &Plan,
    ask: &Ask,
    reply: Reply,
) -> Result<(), Fail>
    requires { (replies : List Replied) × CallerStands plan.now actor.old replies }
    ensures { OnOk result (actor.new ≡ actor.old) }
{
    match actor.next_ask(plan) {
        Some(_) => match actor.take(plan, reply) {
            Ok(()) => Err(Fail::from("a reply to the ask")),
            Err(odd) => {
                assert_eq!(rt; odd, Unexpected { ask: *ask, reply });
                Ok(())
            }
        },
        None => Err(Fail::from("no ask is left")),
    }
}

// The first ask of the request that the caller opens.
fn reserve(request: &Request) -> Ask {
    Ask::Reserve {
        chan: request.chan,
        contract: request.contract,
        kind: Kind::Rate,
        delay: 12,
        up_reach: 0,
        first: true,
        next: None,
    }
}

// The last ask of its setup.
fn relax(chan: ChanNo) -> Ask {
    Ask::Relax {
        chan,
        level: Level::LEAST,
        up_bound: 0,
    }
}

const OFFER: Reply = Reply::Offer {
    level: Level::LEAST,
    reach: Level::LEAST,
};

#[test]
fn a_reply_of_another_ask_changes_nothing(rt: HostRuntime) -> Result<(), Fail> {
    let alloc = rt.alloc();
    let request = over_it(channel()?, Control::Rate, 12)?;
    let caller = ActorNo::new(0).ok_or("caller")?;
    let plan = opened(alloc, 0)?;
    let mut actor = Actor::new(alloc, &plan, caller)?;
    refuses(&rt, &mut actor, &plan, &reserve(&request), Reply::Denied)?;
    asks(&rt, &mut actor, &plan, &reserve(&request), OFFER)
}

#[test]
fn a_caller_opens_its_request(rt: HostRuntime) -> Result<(), Fail> {
    let alloc = rt.alloc();
    let request = over_it(channel()?, Control::Rate, 12)?;
    let caller = ActorNo::new(0).ok_or("caller")?;
    let plan = opened(alloc, 0)?;
    let mut actor = Actor::new(alloc, &plan, caller)?;
    asks(&rt, &mut actor, &plan, &reserve(&request), OFFER)?;
    assert!(rt; actor.verdict(request.chan).is_none());
    asks(
        &rt,
        &mut actor,
        &plan,
        &relax(request.chan),
        Reply::Relaxed { clock: 0 },
    )?;
    assert!(rt; actor.next_ask(&plan).is_none());
    match actor.verdict(request.chan) {
        Some(Verdict::Accepted { levels, delay }) => {
            assert_eq!(rt; (levels.len(), delay), (1, 12));
        }
        _ => assert!(rt; false, "the request is accepted"),
    }
    Ok(())
}
