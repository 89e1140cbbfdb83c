//! Routes and offers worked by hand.
ghost use Rattle.std.specs.Prelude.{◌≡◌, ◌∷◌, [], IfOk};

use crate::due::is_due;
use hop_reservation::{Hop, Itinerary, Route};
use net_units::{Bounds, Level, LinkNo};
use std::process::Abort;
use std::test::Fail;

// A link with levels of 10, 20 and 40 ticks, and a propagation of 2.
fn hop(link: u8) -> Result<Hop, Fail>
    ensures { IfOk result (λ hop. hop.bounds ≡ 10 ∷ 20 ∷ 40 ∷ []) }
{
    let link = LinkNo::new(link).ok_or("link")?;
    let bounds = Bounds::new(&[10, 20, 40]).ok_or("bounds")?;
    Ok(Hop {
        link,
        bounds,
        prop: 2,
    })
}

// A route of these hops is refused at this place, or is one.
fn refuses(rt: &impl Abort, hops: &[Hop], place: Option<u8>) {
    is_due(rt, &Route::new(hops).err().map(|bad| bad.place), &place);
}

#[test]
fn a_route_has_some_hops_and_no_link_twice(rt: HostRuntime) -> Result<(), Fail> {
    let mut hops = Vec::new(rt.alloc());
    for link in 0..17 {
        hops.push(hop(link)?)?;
    }
    let hops = hops.as_slice();
    assert!(rt; hops.len() == 17);
    refuses(&rt, &hops[..0], Some(0));
    refuses(&rt, &hops[..1], None);
    refuses(&rt, &hops[..16], None);
    refuses(&rt, hops, Some(17));
    let (first, second) = (hop(7)?, hop(3)?);
    refuses(&rt, &[first, second], None);
    refuses(&rt, &[first, second, second, first], Some(3));
    Ok(())
}

// So many hops have offered, with this reach of the last one and this delay of all.
fn comes_to(rt: &impl Abort, itinerary: &Itinerary, offers: u8, reach: u64, delay: u64) {
    is_due(rt, &itinerary.offers(), &offers);
    is_due(rt, &itinerary.reach_before(), &reach);
    is_due(rt, &itinerary.delay_sum(), &delay);
}

#[test]
#[tactic(auto, unfolding(hop_reservation::specs::Offers::next_levels))]
fn offers_add_up(rt: HostRuntime) -> Result<(), Fail> {
    let route = Route::new(&[hop(0)?, hop(1)?])?;
    is_due(&rt, &route.len(), &2);
    is_due(&rt, &route.hop(2).link.get(), &1);
    let mut itinerary = Itinerary::new(route);
    comes_to(&rt, &itinerary, 0, 0, 0);
    let reach = Level::new(3).ok_or("level")?;
    itinerary.push_offer(Level::LEAST, reach);
    comes_to(&rt, &itinerary, 1, 40, 12);
    itinerary.push_offer(Level::LEAST, Level::LEAST);
    comes_to(&rt, &itinerary, 2, 10, 24);
    is_due(&rt, &itinerary.offer(2).level, &Level::LEAST);
    Ok(())
}
