//! Least routes worked by hand.
ghost use Rattle.std.specs.Prelude.{IsTrue};
ghost use Rattle.route_finder.specs.Walks.{IsNetwork};

use crate::due::{are_due, is_due};
use hop_reservation::{Hop, Route};
use net_units::{Bounds, LinkNo};
use route_finder::{Edge, RouteFault, check_route, least_route};
use std::alloc::Global;
use std::process::Abort;
use std::test::Fail;

mod networks;

// A link of a network, by its nodes and its propagation.
#[derive(Clone, Copy)]
struct Line {
    from: u32,
    to: u32,
    prop: u32,
}

fn line_of(from: u32, to: u32, prop: u32) -> Line {
    Line { from, to, prop }
}

fn hop(number: u8, prop: u32) -> Result<Hop, Fail> {
    let link = LinkNo::new(number).ok_or("link")?;
    let bounds = Bounds::new(&[10, 20, 40]).ok_or("bounds")?;
    Ok(Hop { link, bounds, prop })
}

// The edges of these lines, numbered from 0.
fn edges_of(alloc: Global, lines: &[Line]) -> Result<Vec<Edge>, Fail> {
    let mut edges = Vec::new(alloc);
    let mut number = 0u8;
    for line in lines {
        edges.push(Edge {
            from: line.from,
            to: line.to,
            hop: hop(number, line.prop)?,
        })?;
        number = number.checked_add(1).ok_or("number")?;
    }
    Ok(edges)
}

// Whether these are the edges of a network.
fn are_network(edges: &[Edge]) -> bool
    ensures { IsTrue result → IsNetwork edges.now }
{
    let mut above = 32;
    for index in (0..edges.len()).rev() {
        let edge = &edges[index];
        if edge.from >= 64 || edge.to >= 64 || edge.hop.link.get() >= above {
            return false;
        }
        above = edge.hop.link.get();
    }
    true
}

// The links of a walk, and the sum of their propagations.
#[derive(Debug, PartialEq, Drop)]
struct Way {
    links: Vec<u8>,
    prop: u64,
}

// The least walk, which its certificate bears out; None where there is no walk, which its table shows.
fn way_of(alloc: Global, lines: &[Line], from: u32, to: u32) -> Result<Option<Way>, Fail> {
    let edges = edges_of(alloc, lines)?;
    if !are_network(&edges) || from >= 64 || to >= 64 || from == to {
        return Err(Fail::from("not a network"));
    }
    match least_route(alloc, &edges, from, to) {
        Ok(found) => {
            if !check_route(&edges, from, to, &found) {
                return Err(Fail::from("not checked"));
            }
            let mut links = Vec::new(alloc);
            for place in 1..=found.route.len() {
                links.push(found.route.hop(place).link.get())?;
            }
            Ok(Some(Way {
                links,
                prop: found.prop,
            }))
        }
        Err(RouteFault::Unreachable { least }) => {
            if least.at(16, from).is_some() {
                return Err(Fail::from("reached"));
            }
            Ok(None)
        }
        Err(RouteFault::Memory) => Err(Fail::from("memory")),
    }
}

// Whether the least walk has these links, and this propagation.
fn is_way(
    alloc: Global,
    lines: &[Line],
    from: u32,
    to: u32,
    links: &[u8],
    prop: u64,
) -> Result<bool, Fail> {
    Ok(match way_of(alloc, lines, from, to)? {
        Some(way) => way.links.as_slice() == links && way.prop == prop,
        None => false,
    })
}

// From node 0 to node 3 over 1, over 2, and directly.
const LINES: [Line; 5] = [
    Line {
        from: 0,
        to: 1,
        prop: 2,
    },
    Line {
        from: 1,
        to: 3,
        prop: 2,
    },
    Line {
        from: 0,
        to: 2,
        prop: 1,
    },
    Line {
        from: 2,
        to: 3,
        prop: 3,
    },
    Line {
        from: 0,
        to: 3,
        prop: 5,
    },
];

// The fewest links are one, by link 4. Over links 0 and 1 it takes as long as over 2 and 3.
#[test]
fn propagation_comes_before_links(rt: HostRuntime) -> Result<(), Fail> {
    let mut lines = LINES;
    assert!(rt; is_way(rt.alloc(), &lines, 0, 3, &[0, 1], 4)?);
    lines[4] = line_of(0, 3, 4);
    assert!(rt; is_way(rt.alloc(), &lines, 0, 3, &[4], 4)?);
    assert!(rt; way_of(rt.alloc(), &lines, 3, 0)?.is_none());
    Ok(())
}

// Links 3 and 4 are fewer than 0, 1 and 2, and take a tick longer.
#[test]
fn three_links_may_come_before_two(rt: HostRuntime) -> Result<(), Fail> {
    let lines = [
        line_of(0, 1, 1),
        line_of(1, 2, 1),
        line_of(2, 3, 1),
        line_of(0, 4, 2),
        line_of(4, 3, 2),
    ];
    assert!(rt; is_way(rt.alloc(), &lines, 0, 3, &[0, 1, 2], 3)?);
    Ok(())
}

// Along a chain of 32 links.
#[test]
fn a_walk_has_sixteen_links_at_most(rt: HostRuntime) -> Result<(), Fail> {
    let mut lines = [line_of(0, 0, 0); 32];
    for index in 0..32u32 {
        lines[index as usize] = line_of(index, index + 1, 1);
    }
    let found = way_of(rt.alloc(), &lines, 3, 19)?.ok_or("a way")?;
    is_due(&rt, &found.prop, &16);
    assert!(rt; way_of(rt.alloc(), &lines, 3, 20)?.is_none());
    Ok(())
}

// Two equal links lead from each node to the next, so there are 65,536 equal walks.
#[test]
fn of_many_equal_walks_the_first_is_found(rt: HostRuntime) -> Result<(), Fail> {
    let mut lines = [line_of(0, 0, 0); 32];
    for index in 0..32u32 {
        lines[index as usize] = line_of(index / 2, index / 2 + 1, u32::MAX);
    }
    let found = way_of(rt.alloc(), &lines, 0, 16)?.ok_or("a way")?;
    is_due(&rt, &found.prop, &(16 * u64::from(u32::MAX)));
    let firsts = [0, 2, 4, 6, 8, 10, 12, 14, 16, 18, 20, 22, 24, 26, 28, 30];
    are_due(&rt, found.links.as_slice(), &firsts);
    Ok(())
}

// What was found for one pair of nodes doesn't pass for another, nor with another propagation or route.
#[test]
fn a_check_refuses_what_was_changed(rt: HostRuntime) -> Result<(), Fail> {
    let edges = edges_of(rt.alloc(), &LINES)?;
    assert!(rt; are_network(&edges));
    let mut found = least_route(rt.alloc(), &edges, 0, 3).ok().ok_or("a way")?;
    is_due(&rt, &check_route(&edges, 0, 3, &found), &true);
    is_due(&rt, &check_route(&edges, 0, 1, &found), &false);
    is_due(&rt, &check_route(&edges, 2, 3, &found), &false);
    found.prop = 5;
    is_due(&rt, &check_route(&edges, 0, 3, &found), &false);
    found.route = Route::new(&[hop(4, 5)?])?;
    is_due(&rt, &check_route(&edges, 0, 3, &found), &false);
    found.prop = 4;
    found.route = Route::new(&[hop(2, 1)?, hop(3, 3)?])?;
    is_due(&rt, &check_route(&edges, 0, 3, &found), &true);
    found.route = Route::new(&[hop(2, 2)?, hop(3, 2)?])?;
    is_due(&rt, &check_route(&edges, 0, 3, &found), &false);
    Ok(())
}
