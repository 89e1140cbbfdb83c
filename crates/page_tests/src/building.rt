//! The facts of a network of two links, by hand.
//!
//! A request sends a packet of 4 units in any 20 ticks. The largest packet on a link takes 4 ticks, so level 1, of 10 ticks, has 4 + 4 = 8 ticks of work.
use network_files::{Network, read_network};
use network_pictures::{Denial, Help, LevelFacts, NetworkFacts, Outcome};
use page_builder::facts_of;
use std::alloc::Global;
use std::test::Fail;

const NETWORK: &str = "\
tenet 1
# tick 10 us
link A n1 n2 rate 1 cap 4 prop 2 buffer 100 levels 10 20
link B n2 n3 rate 1 cap 4 prop 2 buffer 100 levels 10 20
caller c
open r1 route A B contract 20 20 40 4 delay 24 rate
open r2 route B contract 20 20 40 4 delay 11 rate
rounds 0
tail 0
";

// The facts of a file.
fn facts(alloc: Global, file: &str) -> Result<NetworkFacts, Fail> {
    let network: Network = read_network(alloc, "two.tenet", file.as_bytes())
        .ok()
        .ok_or("a network")?;
    Ok(facts_of(alloc, &network, "two.tenet").ok().ok_or("facts")?)
}

// r1 wants what level 1 of both links gives: 10 + 2 + 10 + 2. For r2, level 1 of B would have 12 ticks of work, so it is offered 20 + 2.
#[test]
fn requests_are_told_with_their_outcomes(rt: HostRuntime) -> Result<(), Fail> {
    let facts = facts(rt.alloc(), NETWORK)?;
    assert_eq!(rt; facts.nodes.len(), 3);
    assert_eq!(rt; facts.requests.len(), 2);
    assert_eq!(rt; facts.requests[0].outcome, Outcome::Accepted(24));
    let denied = Outcome::Denied {
        why: Denial::Delay { sum: 22 },
        help: Help::Delay(22),
    };
    assert_eq!(rt; facts.requests[1].outcome, denied);
    assert!(rt; !facts.are_all_accepted());
    Ok(())
}

// Over the first hop r1 keeps a packet, as many as come in 10 ticks, and over the second as many as come in 10 + 10: one of 4 units again.
#[test]
fn links_are_told_with_their_loads(rt: HostRuntime) -> Result<(), Fail> {
    let facts = facts(rt.alloc(), NETWORK)?;
    assert_eq!(rt; facts.links.len(), 2);
    let link = &facts.links[1];
    assert_eq!(rt; link.fill.free, 96);
    assert_eq!(rt; link.fill.long_run, 200_000);
    let first = LevelFacts {
        work: 8,
        bound: 10,
        room: Some(0),
    };
    assert!(rt; link.fill.levels.get(0) == Some(&first));
    assert_eq!(rt; link.fill.users.len(), 2);
    assert_eq!(rt; link.fill.accepted, 1);
    assert!(rt; link.shares.is_empty());
    Ok(())
}
