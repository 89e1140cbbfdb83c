//! Loads of small links, worked out by hand.
ghost use Rattle.std.specs.Prelude.{◌≤◌};

use crate::due::is_due;
use load_table::{LevelLoad, LinkNumbers, LinkRow, least_bound, level_load, long_run};
use net_units::{Bounds, Level};
use std::process::Abort;
use std::test::Fail;
use traffic_contract::{Contract, Test};

// A link of one unit a tick, whose largest packet takes 4 ticks.
fn link(test: Test) -> LinkNumbers
    ensures { 1 ≤ result.rate }
{
    LinkNumbers {
        rate: 1,
        blocking: 4,
        test,
    }
}

// A packet of 2 units every 5 ticks, and two in any 20.
fn row(level: u8) -> Result<LinkRow, Fail> {
    Ok(LinkRow {
        contract: Contract::new(5, 10, 20, 2)?,
        level: Level::new(level).ok_or("level")?,
    })
}

// By these tests the loads of these levels are those.
fn loads(
    rt: &impl Abort,
    bounds: &Bounds,
    rows: &[LinkRow],
    due: &[(Test, u8, LevelLoad)],
) -> Result<(), Fail> {
    assert!(rt; rows.len() <= 4);
    for (test, number, load) in due {
        let level = Level::new(*number).ok_or("level")?;
        assert!(rt; level.get() <= bounds.len());
        is_due(rt, &level_load(&link(*test), bounds, rows, level), load);
    }
    Ok(())
}

fn load(window: u64, work: u64, bound: u64) -> LevelLoad {
    LevelLoad {
        window,
        work,
        bound,
    }
}

// A row brings 4 ticks of work into 10 or 20 ticks, and 8 into 40. So two at level 1, one at level 2 and one at level 3 come to
// 4 + 8, 4 + 12 and 4 + 32. The least window for level 1 is 12, with two packets of each row, and for level 2 it is 16.
#[test]
fn each_level_beside_its_bound(rt: HostRuntime) -> Result<(), Fail> {
    let bounds = Bounds::new(&[15, 20, 40]).ok_or("bounds")?;
    let rows = [row(1)?, row(1)?, row(2)?, row(3)?];
    let due = [
        (Test::Whole, 1, load(15, 12, 15)),
        (Test::Whole, 2, load(20, 16, 20)),
        (Test::Whole, 3, load(40, 36, 40)),
        (Test::Least, 1, load(12, 12, 15)),
        (Test::Least, 2, load(16, 16, 20)),
        (Test::Least, 3, load(20, 20, 40)),
    ];
    loads(&rt, &bounds, &rows, &due)
}

// For these rows, all at this level, this is the least bound that will do.
fn has_least_bound(rt: &impl Abort, rows: &[LinkRow], level: Level, bound: Option<u64>) {
    assert!(rt; rows.len() <= 6);
    is_due(rt, &least_bound(&link(Test::Whole), rows, level), &bound);
}

// All four in one level: 4 + 4 * 4 in 20 ticks. Five take the whole link, and six more than that.
#[test]
fn the_least_bound_for_all(rt: HostRuntime) -> Result<(), Fail> {
    let rows = [row(1)?, row(1)?, row(1)?, row(1)?, row(1)?, row(1)?];
    let level = Level::new(1).ok_or("level")?;
    has_least_bound(&rt, &rows[..4], level, Some(20));
    has_least_bound(&rt, &rows, level, None);
    is_due(&rt, &long_run(&rows[..4], 1), &800_000);
    is_due(&rt, &long_run(&rows, 1), &1_200_000);
    Ok(())
}
