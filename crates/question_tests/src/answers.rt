//! Answers about two requests over one link, worked out by hand.
//!
//! A channel sends at most 4 units in any 10 ticks or 20, and 8 in any 40; the largest packet on the link takes 4 ticks. So level 1, of 10
//! ticks, holds one channel (4 + 4), levels 1 and 2, of 20 ticks, hold four (4 + 4 * 4), and all levels, up to 40 ticks, four (4 + 4 * 8).
use super::points::read;
use crate::due::is_due;
use link_steps::{Ask, Refusal, Reply};
use net_units::{ActorNo, ChanNo, Level, LinkNo};
use one_link_plans::moved;
use plan_answers::{
    Least, Next, Trial, is_acceptance, least_delay, offers_among, room_for, verdict_with,
};
use question_plans::{Change, requests_alone};
use relaxation::EndDenial;
use run_record::Done;
use setup_protocol::{Deny, Verdict};
use std::test::Fail;

// The second request wants less than the propagation.
const DENIED: &str = "\
tenet 1
link A n1 n2 rate 1 cap 4 prop 2 buffer 100 levels 10 20 40
caller k
open r1 route A contract 5 10 20 2 delay 42 rate
open r2 route A contract 5 10 20 2 delay 3 rate
rounds 0
tail 0
";

// Why the destination denies a request, where it does.
fn denied_at_end(verdict: &Option<Verdict>) -> Option<EndDenial> {
    match verdict {
        Some(Verdict::Denied(Deny::End(denial))) => Some(*denial),
        _ => None,
    }
}

// Whether the hop at this place has no level for a request.
fn has_no_level(verdict: &Option<Verdict>, place: u8) -> bool {
    match verdict {
        Some(
            Verdict::Denied(
                Deny::Hop {
                    hop,
                    refusal: Refusal::NoLevel { .. },
                },
            ),
        ) => *hop == place,
        _ => false,
    }
}

// The least delay of an answer.
fn delay_in(least: &Least) -> Option<u64> {
    match least {
        Least::Delay(delay) => Some(*delay),
        Least::Refused(_) => None,
    }
}

// Whether one level is offered, of this number.
fn is_only(levels: &[Level], number: u8) -> bool {
    match levels {
        [level] => level.get() == number,
        _ => false,
    }
}

// The first gets level 1, and its bound of 10 with the propagation of 2. The second is then offered level 2, of 20.
#[test]
fn what_each_is_offered(rt: HostRuntime) -> Result<(), Fail> {
    let alloc = rt.alloc();
    let plan = moved(alloc, 42)?;
    let trial = Trial::play(alloc, requests_alone(alloc, &plan, &Change::Nothing)?)?;
    assert_eq!(rt; trial.plan.requests().len(), 2);
    let first = trial.offers(alloc, 0)?;
    let second = trial.offers(alloc, 1)?;
    assert!(rt; is_only(&first, 1));
    assert!(rt; is_only(&second, 2));
    Ok(())
}

#[test]
fn the_least_delays(rt: HostRuntime) -> Result<(), Fail> {
    let alloc = rt.alloc();
    let plan = moved(alloc, 42)?;
    assert_eq!(rt; plan.requests().len(), 2);
    let first = least_delay(alloc, &plan, 0)?;
    let second = least_delay(alloc, &plan, 1)?;
    is_due(&rt, delay_in(&first), Some(12));
    is_due(&rt, delay_in(&second), Some(22));
    Ok(())
}

#[test]
fn what_is_wanted_is_judged(rt: HostRuntime) -> Result<(), Fail> {
    let alloc = rt.alloc();
    let plan = moved(alloc, 42)?;
    assert_eq!(rt; plan.requests().len(), 2);
    let short = Change::Delay {
        number: 1,
        delay: 21,
    };
    let verdict = verdict_with(alloc, &plan, &short, 1)?;
    is_due(
        &rt,
        denied_at_end(&verdict),
        Some(EndDenial::Delay { sum: 22, bound: 21 }),
    );
    let even = Change::Jitter {
        number: 0,
        jitter: 10,
    };
    let accepted = verdict_with(alloc, &plan, &even, 0)?;
    assert!(rt; is_acceptance(&accepted));
    Ok(())
}

// With two more like the second request the link has four channels, which is all that level 3 holds.
#[test]
fn room_for_two_more(rt: HostRuntime) -> Result<(), Fail> {
    let alloc = rt.alloc();
    let plan = moved(alloc, 42)?;
    assert_eq!(rt; plan.requests().len(), 2);
    let room = room_for(alloc, &plan, 1)?;
    is_due(&rt, room.count, 2);
    let refused = match room.next {
        Next::Refused(verdict) => has_no_level(&verdict, 1),
        Next::Full => false,
    };
    assert!(rt; refused);
    Ok(())
}

// The second is denied, and yet there is room for three more like the first: with them the link has four channels.
#[test]
fn a_request_that_is_denied_takes_no_room(rt: HostRuntime) -> Result<(), Fail> {
    let alloc = rt.alloc();
    let (plan, _schedule) = read(alloc, DENIED)?;
    assert_eq!(rt; plan.requests().len(), 2);
    let room = room_for(alloc, &plan, 0)?;
    is_due(&rt, room.count, 3);
    Ok(())
}

// An entry of the setup of channel 0.
fn entry(reply: Reply) -> Result<Done, Fail> {
    let chan = ChanNo::new(0).ok_or("channel")?;
    Ok(Done {
        actor: ActorNo::new(0).ok_or("actor")?,
        link: LinkNo::new(0).ok_or("link")?,
        ask: Ask::Deny { chan },
        reply,
    })
}

// An offer of a level, which is its reach, too.
fn offer(number: u8) -> Result<Reply, Fail> {
    let level = Level::new(number).ok_or("level")?;
    Ok(Reply::Offer {
        level,
        reach: level,
    })
}

// Offers count up to the first reply that is none.
#[test]
fn offers_end_with_another_reply(rt: HostRuntime) -> Result<(), Fail> {
    let alloc = rt.alloc();
    let chan = ChanNo::new(0).ok_or("channel")?;
    let entries = [
        entry(offer(2)?)?,
        entry(Reply::Relaxed { clock: 0 })?,
        entry(offer(3)?)?,
    ];
    let offers = offers_among(alloc, &entries, chan)?;
    assert!(rt; is_only(&offers, 2));
    Ok(())
}
