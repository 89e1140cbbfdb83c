//! Shapes and splits of a link.
use link_steps::{LinkShape, Quota, ShapeField, Split};
use net_units::{Bounds, LinkNo};
use std::test::Fail;
use traffic_contract::Test;

#[test]
fn shapes_and_their_blocking(rt: HostRuntime) -> Result<(), Fail> {
    let link = LinkNo::new(0).ok_or("no such link")?;
    let bounds = Bounds::new(&[10, 20, 40]).ok_or("no such bounds")?;
    for (rate, cap, prop, buffer, best, want) in [
        (1, 4, 2, 100, 0, Ok(4)),
        (125, 1250, 50, 65_536, 1_024, Ok(10)),
        (1, 11, 2, 100, 0, Err(ShapeField::Bounds)),
        (0, 0, 2, 100, 0, Err(ShapeField::Rate)),
        (1, 65_537, 2, 100, 0, Err(ShapeField::Cap)),
        (1, 4, 1_048_577, 262_145, 0, Err(ShapeField::Prop)),
        (1, 4, 2, 262_145, 1_025, Err(ShapeField::Buffer)),
        (1, 11, 2, 100, 1_025, Err(ShapeField::Best)),
    ] {
        let made = LinkShape::new(link, rate, cap, prop, buffer, bounds, Test::Whole, best);
        let blocking = made.map(|shape| shape.blocking()).map_err(|bad| bad.field);
        assert_eq!(rt; blocking, want, "rate {rate}, cap {cap}");
    }
    Ok(())
}

#[test]
fn a_split_has_its_quotas_and_groups(rt: HostRuntime) -> Result<(), Fail> {
    let bounds = Bounds::new(&[10, 20, 40]).ok_or("no such bounds")?;
    let quota = Quota {
        group: 1,
        buffer: 50,
        levels: [4, 8, 20, 0, 0, 0, 0, 0],
    };
    let split = Split::new(rt.alloc(), bounds, &[quota], &[0, 1, 1]).map_err(|_| "no memory")?;
    assert_eq!(rt; split.quotas(), [quota].as_slice());
    assert_eq!(rt; split.groups(), [0u8, 1, 1].as_slice());
    Ok(())
}
