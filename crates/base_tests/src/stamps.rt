//! The first two steps of one link by one pass.
ghost use Rattle.std.specs.Prelude.{IfOk};
ghost use Rattle.step_stamp.specs.Opening.{IsNewLink, IsNewPass};
ghost use Rattle.step_stamp.specs.Seats.{stamps_table};

use link_steps::Ask;
use net_units::OutOfMemory;
use std::alloc::Global;
use std::test::Fail;
use step_stamp::{LinkSeat, PassSeat, Stamps};

// The stamps of one link and of one actor, with the two seats.
fn opened(alloc: Global) -> Result<(Stamps, LinkSeat, PassSeat), OutOfMemory>
    ensures { IfOk result (λ r. IsNewLink (stamps_table r.0) 1 r.1 × IsNewPass (stamps_table r.0) 1 r.2) }
{
    let (stamps, mut links, mut passes) = Stamps::open(alloc, 1, 1)?;
    match (links.pop(), passes.pop()) {
        (Some(link), Some(pass)) => Ok((stamps, link, pass)),
        _ => Err(OutOfMemory),
    }
}

#[test]
fn a_pass_draws_stamps_in_order(rt: HostRuntime) -> Result<(), Fail> {
    let Ok((stamps, mut link, mut pass)) = opened(rt.alloc()) else {
        panic!(rt; "no memory")
    };
    assert!(rt; pass.meet(&stamps, &mut link).is_ok());
    let Ok(ticket) = pass.draw(&stamps, &link, &Ask::Tick) else {
        panic!(rt; "no ticket")
    };
    assert!(rt; ticket.stamp() == 1);
    link.enter(&stamps, ticket);
    assert!(rt; pass.meet(&stamps, &mut link).is_ok());
    let Ok(ticket) = pass.draw(&stamps, &link, &Ask::Tick) else {
        panic!(rt; "no ticket")
    };
    assert!(rt; ticket.stamp() == 2);
    link.enter(&stamps, ticket);
    assert!(rt; pass.seen(&stamps) == 2);
    assert!(rt; pass.drawn() == 2);
    pass.settle(&stamps, link);
    Ok(())
}
