//! The link, and the requests for channels over it.
ghost use Rattle.std.specs.Prelude.{◌≡◌, [], ◌∷◌, IfOk, length};
ghost use Rattle.net_units.specs.Numbers.{channel_number, link_number};
ghost use Rattle.link_steps.specs.Lists.{Each};
ghost use Rattle.one_link_plans.specs.OneLink.{IsNextRequest, IsOverIt, IsThatLink, IsThatRequest};

use call_script::{LinkEntry, Quotas, RequestEntry};
use hop_reservation::{Hop, Route};
use link_steps::LinkShape;
use net_units::{ActorNo, Bounds, ChanNo, LinkNo, Name};
use setup_protocol::{Control, Request};
use std::alloc::Global;
use std::test::Fail;
use traffic_contract::{Contract, Test};

/// A name.
pub fn name(text: &str) -> Result<Name, Fail> {
    Ok(Name::new(text.as_bytes()).ok_or("name")?)
}

/// The bounds of the link's levels, in ticks.
pub fn bounds() -> Result<Bounds, Fail>
    ensures { IfOk result (λ made. made ≡ 10 ∷ 20 ∷ 40 ∷ []) }
{
    Ok(Bounds::new(&[10, 20, 40]).ok_or("bounds")?)
}

/// The link's number, 0.
pub fn link_no() -> Result<LinkNo, Fail>
    ensures { IfOk result (λ link. link_number link ≡ 0) }
{
    Ok(LinkNo::new(0).ok_or("link")?)
}

/// The channel of the first request, number 0.
pub fn channel() -> Result<ChanNo, Fail>
    ensures { IfOk result (λ chan. channel_number chan ≡ 0) }
{
    Ok(ChanNo::new(0).ok_or("channel")?)
}

/// The channel of the second request, number 1.
pub fn second_channel() -> Result<ChanNo, Fail>
    ensures { IfOk result (λ chan. channel_number chan ≡ 1) }
{
    Ok(ChanNo::new(1).ok_or("channel")?)
}

/// The link, with this admission test and room for this many best-effort packets. It isn't split.
pub fn link(alloc: Global, test: Test, best: u32) -> Result<LinkEntry, Fail>
    ensures is { IfOk result IsThatLink }
    ensures unsplit { IfOk result (λ made. made.quotas ≡ []) }
{
    Ok(LinkEntry {
        name: name("A")?,
        from: name("n1")?,
        to: name("n2")?,
        shape: LinkShape::new(link_no()?, 1, 4, 2, 100, bounds()?, test, best)?,
        quotas: Quotas::none(alloc),
    })
}

/// What is asked for the channel: to go over the link, within this delay, in ticks.
pub fn over_it(chan: ChanNo, control: Control, delay: u64) -> Result<Request, Fail>
    ensures chan { IfOk result (λ made. made.chan ≡ chan) }
    ensures asked { IfOk result (λ made. (made.control ≡ control) × (made.delay ≡ delay)) }
    ensures one { IfOk result (λ made. length made.route ≡ 1) }
    ensures over { IfOk result (λ made. Each IsOverIt made.route) }
{
    let hop = Hop {
        link: link_no()?,
        bounds: bounds()?,
        prop: 2,
    };
    Ok(Request {
        chan,
        route: Route::new(&[hop])?,
        contract: Contract::new(5, 10, 20, 2)?,
        control,
        delay,
    })
}

/// The first request, for a delay of at most 12 ticks. Its route is given, or was found between these nodes.
pub fn request(control: Control, found: Option<(Name, Name)>) -> Result<RequestEntry, Fail>
    ensures is { IfOk result IsThatRequest }
    ensures asked { IfOk result (λ made. (made.request.control ≡ control) × (made.request.delay ≡ 12)) }
    ensures one { IfOk result (λ made. length made.request.route ≡ 1) }
{
    Ok(RequestEntry {
        name: name("r1")?,
        caller: ActorNo::new(0).ok_or("caller")?,
        request: over_it(channel()?, control, 12)?,
        found,
    })
}

/// The second request, for a delay of at most this many ticks.
pub fn second_request(delay: u64) -> Result<RequestEntry, Fail>
    ensures { IfOk result IsNextRequest }
{
    Ok(RequestEntry {
        name: name("r2")?,
        caller: ActorNo::new(0).ok_or("caller")?,
        request: over_it(second_channel()?, Control::Rate, delay)?,
        found: None,
    })
}
