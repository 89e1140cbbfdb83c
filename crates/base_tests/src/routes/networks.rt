//! Random networks of up to six nodes. A program outside this repository listed the walks of up to five links of each, and told the
//! first in their order. (A least walk passes no node twice, so on six nodes it has at most five links.)
use super::{Line, Way, way_of};
use crate::due::is_due;
use std::alloc::Global;
use std::test::Fail;

// Eight links, each by the nodes at its ends and its propagation; the links of the least walk between two of the nodes, and the
// propagation over it.
struct Network {
    links: [(u32, u32, u32); 8],
    from: u32,
    to: u32,
    least: Option<(&'static [u8], u64)>,
}

const NETWORKS: [Network; 20] = [
    Network {
        links: [
            (1, 1, 0),
            (0, 0, 4),
            (0, 2, 0),
            (0, 3, 4),
            (0, 2, 2),
            (3, 2, 1),
            (1, 0, 4),
            (1, 0, 2),
        ],
        from: 1,
        to: 2,
        least: Some((&[7, 2], 2)),
    },
    Network {
        links: [
            (2, 0, 3),
            (0, 3, 1),
            (2, 3, 2),
            (0, 1, 3),
            (4, 2, 2),
            (2, 1, 1),
            (4, 0, 3),
            (4, 4, 2),
        ],
        from: 4,
        to: 3,
        least: Some((&[4, 2], 4)),
    },
    Network {
        links: [
            (3, 0, 0),
            (3, 1, 4),
            (3, 2, 0),
            (2, 0, 1),
            (1, 3, 1),
            (0, 2, 0),
            (3, 1, 0),
            (3, 2, 1),
        ],
        from: 1,
        to: 2,
        least: Some((&[4, 2], 1)),
    },
    Network {
        links: [
            (0, 0, 0),
            (3, 3, 1),
            (4, 0, 1),
            (2, 0, 3),
            (3, 1, 2),
            (2, 2, 3),
            (4, 0, 2),
            (0, 1, 3),
        ],
        from: 3,
        to: 4,
        least: None,
    },
    Network {
        links: [
            (4, 2, 1),
            (0, 2, 2),
            (1, 1, 2),
            (0, 1, 1),
            (3, 3, 1),
            (2, 1, 3),
            (1, 4, 2),
            (2, 3, 4),
        ],
        from: 2,
        to: 1,
        least: Some((&[5], 3)),
    },
    Network {
        links: [
            (1, 3, 1),
            (1, 3, 1),
            (3, 0, 0),
            (4, 0, 3),
            (3, 2, 4),
            (1, 2, 0),
            (0, 3, 1),
            (3, 1, 1),
        ],
        from: 4,
        to: 2,
        least: Some((&[3, 6, 7, 5], 5)),
    },
    Network {
        links: [
            (1, 3, 2),
            (4, 3, 2),
            (3, 3, 0),
            (2, 2, 3),
            (0, 4, 2),
            (3, 3, 0),
            (5, 0, 3),
            (3, 3, 1),
        ],
        from: 0,
        to: 3,
        least: Some((&[4, 1], 4)),
    },
    Network {
        links: [
            (3, 0, 3),
            (0, 1, 0),
            (2, 0, 1),
            (0, 3, 3),
            (0, 0, 2),
            (3, 2, 1),
            (0, 0, 3),
            (1, 3, 3),
        ],
        from: 3,
        to: 1,
        least: Some((&[5, 2, 1], 2)),
    },
    Network {
        links: [
            (2, 3, 1),
            (1, 0, 4),
            (2, 3, 2),
            (1, 3, 3),
            (4, 3, 2),
            (0, 0, 2),
            (3, 1, 2),
            (0, 2, 2),
        ],
        from: 0,
        to: 1,
        least: Some((&[7, 0, 6], 5)),
    },
    Network {
        links: [
            (3, 2, 2),
            (0, 3, 2),
            (1, 0, 3),
            (3, 3, 1),
            (3, 1, 1),
            (1, 1, 2),
            (1, 2, 0),
            (1, 2, 2),
        ],
        from: 0,
        to: 2,
        least: Some((&[1, 4, 6], 3)),
    },
    Network {
        links: [
            (4, 0, 1),
            (4, 4, 3),
            (2, 3, 4),
            (1, 2, 2),
            (0, 4, 4),
            (0, 0, 4),
            (1, 4, 2),
            (0, 0, 4),
        ],
        from: 0,
        to: 1,
        least: None,
    },
    Network {
        links: [
            (0, 4, 1),
            (1, 1, 3),
            (0, 3, 0),
            (0, 1, 3),
            (1, 2, 0),
            (2, 0, 2),
            (5, 2, 4),
            (4, 2, 2),
        ],
        from: 0,
        to: 2,
        least: Some((&[0, 7], 3)),
    },
    Network {
        links: [
            (2, 3, 1),
            (3, 3, 1),
            (3, 2, 0),
            (2, 4, 0),
            (2, 4, 0),
            (4, 3, 4),
            (0, 2, 2),
            (1, 2, 2),
        ],
        from: 0,
        to: 4,
        least: Some((&[6, 3], 2)),
    },
    Network {
        links: [
            (3, 1, 1),
            (0, 3, 1),
            (1, 3, 3),
            (3, 0, 2),
            (1, 0, 1),
            (3, 2, 4),
            (3, 3, 3),
            (0, 3, 4),
        ],
        from: 1,
        to: 2,
        least: Some((&[4, 1, 5], 6)),
    },
    Network {
        links: [
            (3, 1, 1),
            (4, 4, 4),
            (2, 0, 1),
            (5, 2, 0),
            (2, 5, 2),
            (4, 0, 1),
            (5, 1, 0),
            (0, 1, 1),
        ],
        from: 2,
        to: 1,
        least: Some((&[2, 7], 2)),
    },
    Network {
        links: [
            (2, 2, 1),
            (1, 3, 1),
            (1, 2, 1),
            (1, 0, 2),
            (3, 2, 4),
            (1, 3, 1),
            (2, 1, 1),
            (1, 1, 0),
        ],
        from: 3,
        to: 1,
        least: Some((&[4, 6], 5)),
    },
    Network {
        links: [
            (3, 0, 1),
            (2, 0, 0),
            (4, 4, 3),
            (2, 1, 1),
            (2, 1, 2),
            (0, 0, 3),
            (0, 4, 4),
            (3, 0, 1),
        ],
        from: 3,
        to: 4,
        least: Some((&[0, 6], 5)),
    },
    Network {
        links: [
            (4, 4, 2),
            (2, 4, 2),
            (2, 0, 2),
            (2, 4, 4),
            (1, 0, 1),
            (1, 0, 1),
            (4, 1, 2),
            (2, 4, 0),
        ],
        from: 4,
        to: 0,
        least: Some((&[6, 4], 3)),
    },
    Network {
        links: [
            (2, 2, 0),
            (2, 1, 4),
            (2, 1, 2),
            (3, 0, 0),
            (3, 2, 1),
            (1, 2, 2),
            (0, 1, 3),
            (0, 3, 4),
        ],
        from: 3,
        to: 1,
        least: Some((&[3, 6], 3)),
    },
    Network {
        links: [
            (0, 3, 1),
            (3, 1, 1),
            (2, 1, 3),
            (2, 0, 3),
            (3, 3, 0),
            (1, 0, 4),
            (3, 2, 1),
            (3, 0, 2),
        ],
        from: 0,
        to: 1,
        least: Some((&[0, 1], 2)),
    },
];

// Whether what is found in a network is its least walk.
fn is_found(alloc: Global, network: &Network) -> Result<bool, Fail> {
    let lines = network
        .links
        .map(|(from, to, prop)| Line { from, to, prop });
    let found = way_of(alloc, &lines, network.from, network.to)?;
    let told = found.as_ref().map(|way| (way.links.as_slice(), way.prop));
    Ok(told == network.least)
}

// The first network in which another walk is found, or none, by its place.
fn first_other(alloc: Global, networks: &[Network]) -> Result<Option<usize>, Fail> {
    for (place, network) in networks.iter().enumerate() {
        if !is_found(alloc, network)? {
            return Ok(Some(place));
        }
    }
    Ok(None)
}

#[test]
fn the_least_of_all_walks_is_found(rt: HostRuntime) -> Result<(), Fail> {
    is_due(&rt, &first_other(rt.alloc(), &NETWORKS)?, &None);
    Ok(())
}
