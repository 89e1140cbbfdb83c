//! Loads that were worked by hand.
use call_script::{Op, Plan, RequestEntry};
use load_maker::{made, take_turns, take_watched_turns};
use net_units::ChanNo;
use run_record::Record;
use setup_protocol::Control;
use std::test::Fail;
use traffic_contract::Contract;

// The links of a route, by their numbers from 0.
fn is_over(entry: &RequestEntry, links: &[u8]) -> bool {
    let route = entry.request.route;
    if usize::from(route.len()) != links.len() {
        return false;
    }
    for place in 1..=route.len() {
        if route.hop(place).link.get() != links[usize::from(place) - 1] {
            return false;
        }
    }
    true
}

#[test]
fn one_request(rt: HostRuntime) -> Result<(), Fail> {
    let alloc = rt.alloc();
    let plan = made(alloc, 1, 1)?;
    let chan = ChanNo::new(0).ok_or("channel")?;
    let entry = plan.requests().get(0).ok_or("request")?;
    assert_eq!(rt; plan.requests().len(), 1);
    assert_eq!(rt; plan.links().len(), 4);
    assert_eq!(rt; plan.callers().len(), 4);
    assert_eq!(rt; entry.name.as_bytes(), b"r1".as_slice());
    assert!(rt; is_over(entry, &[0, 1, 2]));
    assert_eq!(rt; entry.request.contract, Contract::new(50, 100, 400, 100)?);
    assert_eq!(rt; entry.request.delay, 1515);
    assert_eq!(rt; entry.request.control, Control::Jitter(400));
    let ops = plan.callers().get(0).ok_or("caller")?.ops.as_slice();
    let sent = Op::Send {
        chan,
        count: 12,
        gap: 100,
        size: 100,
    };
    assert_eq!(rt; ops, [Op::Open(chan), sent].as_slice());
    Ok(())
}

// The caller opens a request over three links, which takes three reserves and three relaxes, and sends on it. Between two of its steps the plane makes
// one, and nobody else has any. The plane ticks four links 5,000 times, and 12 packets go on to two further links each.
#[test]
fn turns_of_one_request(rt: HostRuntime) -> Result<(), Fail> {
    let alloc = rt.alloc();
    let plan = made(alloc, 1, 1)?;
    let run = take_turns(alloc, &plan)?;
    assert_eq!(rt; run.entries().len(), 20_031);
    let mut seen = Record::new(alloc);
    let callers = take_watched_turns(alloc, &plan, &mut seen)?;
    assert_eq!(rt; seen.entries(), run.entries());
    let judged = match plan.requests() {
        [] => false,
        _ => callers.verdict(&plan, 0).is_some(),
    };
    assert!(rt; judged);
    let mut turns = Vec::new(alloc);
    for done in run.entries().iter().take(16) {
        turns.push(done.actor.get())?;
    }
    assert_eq!(rt;
        turns.as_slice(),
        [0, 4, 0, 4, 0, 4, 0, 4, 0, 4, 0, 4, 0, 4, 4, 4].as_slice()
    );
    Ok(())
}
