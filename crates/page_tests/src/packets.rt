//! The packets of a network of two links, by hand.
use network_files::{Network, read_network};
use network_pictures::{HopFacts, NetworkFacts, Outcome, RequestFacts, Terms};
use page_packets::add_packets;
use std::alloc::{AllocError, Global};
use std::test::Fail;

// A camera that sends three packets of 1,000 units, 100 ticks apart.
const CAMERA: &str = "\
tenet 1
link AB a b rate 125 cap 1538 prop 1 buffer 65536 levels 50 500
link BC b c rate 125 cap 1538 prop 1 buffer 65536 levels 50 500
caller camera
open video route AB BC contract 100 100 100 1000 delay 200 rate
send video 3 100 1000
rounds 400
tail 0
";

// A hop over a link with a propagation of 1 tick.
fn hop(link: usize) -> HopFacts {
    HopFacts {
        link,
        offered: Some((1, 50)),
        given: Some((1, 50)),
        prop: 1,
        worst: None,
    }
}

// The facts of its request, before its packets are added.
fn facts(alloc: Global) -> Result<NetworkFacts, AllocError> {
    let mut hops = Vec::new(alloc);
    hops.push(hop(0))?;
    hops.push(hop(1))?;
    let mut requests = Vec::new(alloc);
    requests.push(RequestFacts {
        name: String::from_str(alloc, "video")?,
        terms: Terms {
            xmin: 100,
            xave: 100,
            interval: 100,
            smax: 1000,
            delay: 200,
            jitter: None,
        },
        outcome: Outcome::Accepted(102),
        offered: Some(102),
        tight: Some(0),
        hops,
        packets: None,
        written: None,
    })?;
    Ok(NetworkFacts {
        title: String::from_str(alloc, "camera")?,
        tick: None,
        written: None,
        nodes: Vec::new(alloc),
        links: Vec::new(alloc),
        requests,
    })
}

// A packet takes 8 ticks on either link, and 1 tick behind it, so it is 9 ticks at each hop and 18 on its way.
#[test]
fn packets_are_told_with_their_delays(rt: HostRuntime) -> Result<(), Fail> {
    let alloc = rt.alloc();
    let network: Network = read_network(alloc, "camera.tenet", CAMERA.as_bytes())
        .ok()
        .ok_or("a network")?;
    let mut facts = facts(alloc)?;
    add_packets(alloc, &network, &mut facts)
        .ok()
        .ok_or("packets")?;
    assert_eq!(rt; facts.requests.len(), 1);
    let request = &facts.requests[0];
    let packets = request.packets.as_ref().ok_or("packets")?;
    assert_eq!(rt; packets.arrived, 3);
    assert_eq!(rt; packets.least, 18);
    assert_eq!(rt; packets.worst, 18);
    assert_eq!(rt; packets.promised, Some(102));
    assert_eq!(rt; request.hops.len(), 2);
    assert_eq!(rt; request.hops[0].worst, Some(9));
    assert_eq!(rt; request.hops[1].worst, Some(9));
    Ok(())
}
