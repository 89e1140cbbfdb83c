//! Allotments over two hops, worked by hand. Each has levels of 10, 20 and 40 ticks and a propagation of 2, and has
//! offered level 1, so the delay offered is 24.
ghost use Rattle.std.specs.Prelude.{◌≡◌, ◌∷◌, [], IfOk, length};

use crate::due::is_due;
use hop_reservation::{Hop, Itinerary, Route};
use net_units::{Bounds, Level, Levels, LinkNo};
use relaxation::{EndDenial, allot};
use std::test::Fail;

fn hop(link: u8) -> Result<Hop, Fail>
    ensures { IfOk result (λ hop. hop.bounds ≡ 10 ∷ 20 ∷ 40 ∷ []) }
{
    let link = LinkNo::new(link).ok_or("link")?;
    let bounds = Bounds::new(&[10, 20, 40]).ok_or("bounds")?;
    Ok(Hop {
        link,
        bounds,
        prop: 2,
    })
}

#[tactic(auto, unfolding(hop_reservation::specs::Offers::next_levels))]
fn offered() -> Result<Itinerary, Fail>
    ensures { IfOk result (λ it. length it.levels ≡ length it.route) }
{
    let mut itinerary = Itinerary::new(Route::new(&[hop(0)?, hop(1)?])?);
    itinerary.push_offer(Level::LEAST, Level::LEAST);
    itinerary.push_offer(Level::LEAST, Level::LEAST);
    Ok(itinerary)
}

// The levels of the two hops, or the denial.
fn allotted(delay: u64, jitter: Option<u64>) -> Result<Result<(u8, u8), EndDenial>, Fail> {
    let mut levels = Levels::new();
    match allot(&offered()?, delay, jitter, &mut levels) {
        Ok(()) if levels.len() == 2 => Ok(Ok((levels.at(1).get(), levels.at(2).get()))),
        Ok(()) => Err(Fail::from("two hops get two levels")),
        Err(denial) => Ok(Err(denial)),
    }
}

#[test]
fn the_slack_is_shared_from_the_last_hop_on(rt: HostRuntime) -> Result<(), Fail> {
    // The last hop may go to 10 + 26 / 2, and the first then to 10 + 16.
    is_due(&rt, &allotted(50, None)?, &Ok((2, 2)));
    // The last hop may go to 10 + 10 / 2, and the first then to 10 + 10.
    is_due(&rt, &allotted(34, None)?, &Ok((2, 1)));
    // No slack.
    is_due(&rt, &allotted(24, None)?, &Ok((1, 1)));
    let late = EndDenial::Delay { sum: 24, bound: 23 };
    is_due(&rt, &allotted(23, None)?, &Err(late));
    Ok(())
}

#[test]
fn the_last_hop_keeps_the_jitter_bound(rt: HostRuntime) -> Result<(), Fail> {
    is_due(&rt, &allotted(50, Some(15))?, &Ok((2, 1)));
    is_due(&rt, &allotted(50, Some(20))?, &Ok((2, 2)));
    let uneven = EndDenial::Jitter { last: 10, bound: 9 };
    is_due(&rt, &allotted(50, Some(9))?, &Err(uneven));
    let late = EndDenial::Delay { sum: 24, bound: 23 };
    is_due(&rt, &allotted(23, Some(9))?, &Err(late));
    Ok(())
}
