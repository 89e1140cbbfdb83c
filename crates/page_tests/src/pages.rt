//! The page of a network of one link, by hand.
use field_units::Time;
use network_pages::{page_of, tight_first};
use network_pictures::{
    Denial, FillFacts, Help, HopFacts, LevelFacts, LinkFacts, NetworkFacts, Outcome, RequestFacts,
    Terms,
};
use std::alloc::{AllocError, Global};
use std::str;
use std::test::Fail;

// A link from a to b with a level of 50 ticks, of which 13 are taken.
fn link(alloc: Global) -> Result<LinkFacts, AllocError> {
    let mut levels = Vec::new(alloc);
    levels.push(LevelFacts {
        work: 13,
        bound: 50,
        room: Some(18),
    })?;
    let mut users = Vec::new(alloc);
    users.push(0)?;
    Ok(LinkFacts {
        name: String::from_str(alloc, "AB")?,
        from: 0,
        to: 1,
        rate: 125,
        cap: 1538,
        prop: 1,
        fill: FillFacts {
            buffer: 65_536,
            free: 64_536,
            long_run: 80_000,
            levels,
            users,
            accepted: 1,
        },
        shares: Vec::new(alloc),
        refuses: 0,
        written: None,
    })
}

// A request over it that wants 200 ticks and is promised 51.
fn request(alloc: Global) -> Result<RequestFacts, AllocError> {
    let mut hops = Vec::new(alloc);
    hops.push(HopFacts {
        link: 0,
        offered: Some((1, 50)),
        given: Some((1, 50)),
        prop: 1,
        worst: None,
    })?;
    Ok(RequestFacts {
        name: String::from_str(alloc, "video")?,
        terms: Terms {
            xmin: 100,
            xave: 100,
            interval: 100,
            smax: 1000,
            delay: 200,
            jitter: None,
        },
        outcome: Outcome::Accepted(51),
        offered: Some(51),
        tight: Some(0),
        hops,
        packets: None,
        written: None,
    })
}

// The network, with a tick of 10 us.
fn network(alloc: Global, title: &str) -> Result<NetworkFacts, AllocError> {
    let mut nodes = Vec::new(alloc);
    nodes.push(String::from_str(alloc, "a")?)?;
    nodes.push(String::from_str(alloc, "b")?)?;
    let mut links = Vec::new(alloc);
    links.push(link(alloc)?)?;
    let mut requests = Vec::new(alloc);
    requests.push(request(alloc)?)?;
    Ok(NetworkFacts {
        title: String::from_str(alloc, title)?,
        tick: Some(Time {
            picoseconds: 10_000_000,
        }),
        written: None,
        nodes,
        links,
        requests,
    })
}

// 200 ticks of 10 us are 2 ms, of which 149 ticks, 1.49 ms, are to spare.
#[test]
fn the_numbers_of_a_request_stand_in_its_row(rt: HostRuntime) -> Result<(), Fail> {
    let alloc = rt.alloc();
    let bytes = page_of(alloc, &network(alloc, "one link")?)?;
    let page = str::from_utf8(bytes.as_slice()).ok().ok_or("UTF-8")?;
    for part in [
        "<title>one link</title>",
        "\n<tr data-request=\"video\">",
        "data-column=\"wanted\">200<small>2 ms</small></td>",
        "data-column=\"promised\">51<small>510 us</small></td>",
        "data-column=\"to_spare\">149<small>1.49 ms</small></td>",
        "\n<tr data-link=\"AB\">",
        "data-column=\"buffer_free\">64536</td>",
        "data-column=\"long_run\">8%</td>",
    ] {
        assert!(rt; page.contains(part), "{part}");
    }
    Ok(())
}

#[test]
fn a_title_can_not_begin_a_tag(rt: HostRuntime) -> Result<(), Fail> {
    let alloc = rt.alloc();
    let bytes = page_of(alloc, &network(alloc, "</title><script>")?)?;
    let page = str::from_utf8(bytes.as_slice()).ok().ok_or("UTF-8")?;
    assert!(rt; page.contains("<title>&lt;/title&gt;&lt;script&gt;</title>"));
    assert!(rt; !page.contains("<script>"));
    Ok(())
}

// The requests want 200 ticks. The first has 149 to spare and the last one 1; the second is denied.
#[test]
fn denied_requests_come_first_and_then_tight_ones(rt: HostRuntime) -> Result<(), Fail> {
    let alloc = rt.alloc();
    let mut facts = network(alloc, "three")?;
    let mut denied = request(alloc)?;
    denied.outcome = Outcome::Denied {
        why: Denial::Delay { sum: 201 },
        help: Help::Delay(201),
    };
    facts.requests.push(denied)?;
    let mut tight = request(alloc)?;
    tight.outcome = Outcome::Accepted(199);
    facts.requests.push(tight)?;
    let places = tight_first(alloc, &facts)?;
    assert!(rt; places.as_slice() == [1, 2, 0].as_slice());
    Ok(())
}
