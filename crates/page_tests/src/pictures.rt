//! Layers, orders and loads, worked out by hand.
use network_pictures::{
    FillFacts, LevelFacts, LinkFacts, fullest, layers_of, load_word, per_mille, rows_of,
};
use std::alloc::{AllocError, Global};
use std::test::Fail;

// A level with this work, bound and room.
fn level(work: u64, bound: u64, room: Option<u64>) -> LevelFacts {
    LevelFacts { work, bound, room }
}

// A link between two nodes, with this work at a level of 50 ticks, and 10 at one of 200.
fn link(alloc: Global, from: usize, to: usize, work: u64) -> Result<LinkFacts, AllocError> {
    let mut levels = Vec::new(alloc);
    levels.push(level(work, 50, None))?;
    levels.push(level(10, 200, None))?;
    Ok(LinkFacts {
        name: String::from_str(alloc, "L")?,
        from,
        to,
        rate: 1,
        cap: 1,
        prop: 0,
        fill: FillFacts {
            buffer: 10,
            free: 10,
            long_run: 0,
            levels,
            users: Vec::new(alloc),
            accepted: 0,
        },
        shares: Vec::new(alloc),
        refuses: 0,
        written: None,
    })
}

// Two sources, 0 and 3, come together at 1, which leads to 2. The second source stands in the first layer, too.
#[test]
fn layers_go_along_the_links(rt: HostRuntime) -> Result<(), Fail> {
    let alloc = rt.alloc();
    let mut links = Vec::new(alloc);
    links.push(link(alloc, 0, 1, 0)?)?;
    links.push(link(alloc, 1, 2, 0)?)?;
    links.push(link(alloc, 3, 1, 0)?)?;
    let layers = layers_of(alloc, 4, links.as_slice())?;
    assert!(rt; layers.as_slice() == [0, 1, 2, 0].as_slice());
    let rows = rows_of(alloc, layers.as_slice(), links.as_slice())?;
    assert_eq!(rt; rows.len(), 3);
    assert!(rt; rows[0].as_slice() == [0, 3].as_slice());
    Ok(())
}

// Links in both directions make a circle. From node 0 the farthest is 2, and from there 0 is.
#[test]
fn a_line_of_pairs_has_its_ends_apart(rt: HostRuntime) -> Result<(), Fail> {
    let alloc = rt.alloc();
    let mut links = Vec::new(alloc);
    links.push(link(alloc, 0, 1, 0)?)?;
    links.push(link(alloc, 1, 0, 0)?)?;
    links.push(link(alloc, 2, 1, 0)?)?;
    let layers = layers_of(alloc, 3, links.as_slice())?;
    assert!(rt; layers.as_slice() == [0, 1, 2].as_slice());
    Ok(())
}

// 24 of 50 ticks are 480 thousandths, and a third of a bound is 334 of them, rounded up.
#[test]
fn the_fullest_level_is_told(rt: HostRuntime) -> Result<(), Fail> {
    let alloc = rt.alloc();
    let calm = link(alloc, 0, 1, 24)?;
    assert_eq!(rt; fullest(&calm.fill), (0, 480));
    assert!(rt; load_word(&calm) == "free");
    let busy = link(alloc, 0, 1, 30)?;
    assert!(rt; load_word(&busy) == "busy");
    let full = link(alloc, 0, 1, 45)?;
    assert!(rt; load_word(&full) == "full");
    assert_eq!(rt; per_mille(&level(1, 3, None)), 334);
    Ok(())
}

// The second level has less work beside its bound than the first, but no room for one more.
#[test]
fn a_level_without_room_is_full(rt: HostRuntime) -> Result<(), Fail> {
    let alloc = rt.alloc();
    let mut tight = link(alloc, 0, 1, 24)?;
    tight.fill.levels.push(level(40, 200, Some(0)))?;
    assert_eq!(rt; fullest(&tight.fill), (2, 200));
    assert!(rt; load_word(&tight) == "full");
    Ok(())
}
