//! The links of a load, and routes over them.
ghost use Rattle.std.specs.Prelude.{◌≡◌, ◌+◌, ◌<◌, ◌≤◌, ◌∷◌, [], IfOk, IsTrue};
ghost use Rattle.net_units.specs.Text.{is_letter};
ghost use Rattle.net_units.specs.Numbers.{link_at};
ghost use Rattle.load_maker.specs.Made.{hop_at, level_bounds, link_entry, made_links, route_of, load_shape, short_name};

use call_script::{LinkEntry, Quotas};
use hop_reservation::{Hop, Route};
use link_steps::LinkShape;
use net_units::{Bounds, LinkNo, Name, OutOfMemory};
use std::alloc::Global;
use traffic_contract::Test;

// The ticks between a departure from a link and the arrival after it.
const PROP: u32 = 5;

// The links, each from the node where the one before it ends.
pub(crate) fn links(alloc: Global) -> Result<Vec<LinkEntry>, OutOfMemory>
    ensures { IfOk result (λ links. links.items ≡ made_links) }
{
    let mut links = Vec::new(alloc);
    links.push(link(alloc, 0))?;
    links.push(link(alloc, 1))?;
    links.push(link(alloc, 2))?;
    links.push(link(alloc, 3))?;
    Ok(links)
}

// The link of this number.
fn link(alloc: Global, number: u8) -> LinkEntry
    requires { number < 4 }
    ensures { result ≡ link_entry number }
{
    LinkEntry {
        name: short_name(b'L', number),
        from: short_name(b'n', number),
        to: short_name(b'n', number + 1),
        shape: shape(number),
        quotas: Quotas::none(alloc),
    }
}

fn shape(number: u8) -> LinkShape
    requires { number < 4 }
    ensures { result ≡ load_shape number }
{
    let made = LinkShape::new(
        link_no(number),
        10,
        100,
        PROP,
        65_536,
        bounds(),
        Test::Whole,
        0,
    );
    match made {
        Ok(shape) => shape,
        Err(_) => unreachable!(),
    }
}

// The route of `hops` links, the first of which has this number.
pub(crate) fn route(first: usize, hops: usize) -> Route
    requires some { 1 ≤ hops }
    requires within { first + hops ≤ 4 }
    ensures { result ≡ route_of first hops }
{
    let all = [hop(0), hop(1), hop(2), hop(3)];
    let links = &all[..];
    match Route::new(&links[first..first + hops]) {
        Ok(route) => route,
        Err(_) => unreachable!(),
    }
}

fn hop(number: u8) -> Hop
    requires { number < 4 }
    ensures { result ≡ hop_at number }
{
    Hop {
        link: link_no(number),
        bounds: bounds(),
        prop: PROP,
    }
}

fn link_no(number: u8) -> LinkNo
    requires { number < 4 }
    ensures { result ≡ link_at number }
{
    match LinkNo::new(number) {
        Some(link) => link,
        None => unreachable!(),
    }
}

fn bounds() -> Bounds
    ensures { result ≡ level_bounds }
{
    match Bounds::new(&[100, 400, 1_600]) {
        Some(bounds) => bounds,
        None => unreachable!(),
    }
}

// A letter, and one more than a number below 9.
pub(crate) fn short_name(letter: u8, number: u8) -> Name
    requires letter { IsTrue (is_letter letter) }
    requires number { number < 9 }
    ensures { result ≡ short_name letter number }
{
    match Name::new(&[letter, b'1' + number]) {
        Some(name) => name,
        None => unreachable!(),
    }
}
