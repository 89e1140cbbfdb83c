//! Generated lists of asks: a link replies to each as one that is plain lists does.
ghost use Rattle.std.specs.Prelude.{◌^◌, ◌<◌, IfOk};
ghost use Rattle.traffic_contract.specs.Contract.{IsContract};
ghost use Rattle.link_steps.specs.Legal.{AskFits, SubmitFits};
ghost use Rattle.link_steps.specs.declared.shape.LinkShape.{LinkShape as Shape};

use super::history::three_levels;
use super::plain::PlainLink;
use link_server::LinkState;
use link_steps::{Ask, LinkStep, Packet, Reply};
use net_units::{ChanNo, Kind, Level};
use std::alloc::Global;
use std::test::Fail;
use traffic_contract::Contract;

// How many lists there are, and how many asks each has.
const LISTS: u64 = 200;

const ASKS: u64 = 120;

// The next number, of a linear congruence.
fn next(number: u64) -> u64 {
    number
        .wrapping_mul(6_364_136_223_846_793_005)
        .wrapping_add(1_442_695_040_888_963_407)
}

// The contract that a number names: one of three, of which the last is too wide for the link.
fn contract(number: u64) -> Result<Contract, Fail>
    ensures { IfOk result IsContract }
{
    let smax = match number % 16 {
        0..=7 => 2,
        8..=14 => 4,
        _ => 5,
    };
    Ok(Contract::new(5, 10, 20, smax)?)
}

// The ask that a number names, of one of four channels. A third are ticks.
fn ask<L: LinkStep>(link: &L, number: u64) -> Result<Ask, Fail>
    ensures { IfOk result (AskFits (L.link_of link.now).shape) }
{
    let kind = number >> 59;
    let chan = ChanNo::new((number >> 57) as u32 % 4).ok_or("channel")?;
    let some = (number >> 40) % 65_536;
    match kind {
        0 | 1 => Ok(reserve(chan, some)?),
        2 | 3 => Ok(reserve_at_later_hop(chan, some)?),
        4..=7 => relax(link, chan, 1 + (some % 3) as u8),
        8 => Ok(Ask::Deny { chan }),
        9..=12 => Ok(Ask::Submit {
            chan,
            count: 1 + some % 4,
            gap: 1 + some % 9,
            size: 1 + (some % 3) as u32,
        }),
        13 => Ok(Ask::Release {
            chan,
            upstream: None,
        }),
        14 => Ok(Ask::Release {
            chan,
            upstream: Some(some % 4),
        }),
        15..=19 => Ok(arrive(link, chan, 1 + some % 3, some % 128)?),
        20 => pour(link, 1 + some % 3, 1 + some % 5, 1 + (some % 4) as u32),
        _ => Ok(Ask::Tick),
    }
}

// A reserve at the first hop.
fn reserve(chan: ChanNo, number: u64) -> Result<Ask, Fail>
    ensures { (shape : Shape) → IfOk result (AskFits shape) }
{
    Ok(Ask::Reserve {
        chan,
        contract: contract(number)?,
        kind: Kind::Rate,
        delay: 12 + number % 30,
        up_reach: 0,
        first: true,
        next: None,
    })
}

// A reserve at a hop that isn't the first.
fn reserve_at_later_hop(chan: ChanNo, number: u64) -> Result<Ask, Fail>
    ensures { (shape : Shape) → IfOk result (AskFits shape) }
{
    Ok(Ask::Reserve {
        chan,
        contract: contract(number)?,
        kind: Kind::Jitter,
        delay: 20,
        up_reach: 5,
        first: false,
        next: None,
    })
}

// A relax to one of the link's levels.
fn relax<L: LinkStep>(link: &L, chan: ChanNo, level: u8) -> Result<Ask, Fail>
    ensures { IfOk result (AskFits (L.link_of link.now).shape) }
{
    if level > link.shape().bounds.len() {
        return Err(Fail::from("the link has no such level"));
    }
    Ok(Ask::Relax {
        chan,
        level: Level::new(level).ok_or("level")?,
        up_bound: 0,
    })
}

// A packet of this number, of up to three units, due this many ticks after the clock.
fn arrive<L: LinkStep>(link: &L, chan: ChanNo, number: u64, due: u64) -> Result<Ask, Fail>
    requires { due < 128 }
    ensures { (shape : Shape) → IfOk result (AskFits shape) }
{
    let clock = link.clock();
    if clock >= 1 << 61 {
        return Err(Fail::from("the packet is due too late"));
    }
    let packet = Packet {
        chan,
        number,
        size: 1 + due as u32 % 3,
        due: clock + due,
    };
    Ok(Ask::Arrive { packet })
}

// Best-effort packets, where the link has a place for them.
fn pour<L: LinkStep>(link: &L, count: u64, gap: u64, size: u32) -> Result<Ask, Fail>
    requires { SubmitFits count gap size }
    ensures { IfOk result (AskFits (L.link_of link.now).shape) }
{
    if link.shape().best == 0 {
        return Err(Fail::from("the link has no place for best-effort packets"));
    }
    Ok(Ask::Pour { count, gap, size })
}

// A link that makes ticks in which nothing falls due in one stride.
trait Stride: LinkStep {
    // Makes the ticks before the next one in which something falls due, but at most `most` of them, in one stride. It answers
    // how many they are.
    fn stride(&mut self, most: u64) -> Result<u64, Fail>
        requires { most < 2 ^ 32 };
}

impl Stride for LinkState {
    fn stride(&mut self, most: u64) -> Result<u64, Fail> {
        let clock = self.clock();
        if clock >= 1 << 60 {
            return Err(Fail::from("the clock is too late for a step"));
        }
        let until = self.rests_until();
        if until <= clock {
            return Ok(0);
        }
        let ticks = (until - clock).min(most);
        self.rest(ticks);
        Ok(ticks)
    }
}

// Whether the plain lists have this many quiet ticks, from this one on.
fn are_quiet(plain: &mut PlainLink, clock: u64, ticks: u64) -> Result<bool, Fail> {
    for tick in 0..ticks {
        let quiet = Reply::Ticked {
            clock: clock.wrapping_add(tick),
            full: 0,
            sent: None,
            best_sent: false,
            best_lost: false,
        };
        if plain.answer(&Ask::Tick)? != quiet {
            return Ok(false);
        }
    }
    Ok(true)
}

// What became of a list of asks: how many ticks the link made in strides, or the first ask that it answered in another way.
enum Outcome {
    Same { rested: u64 },
    Differs { ask: u64 },
}

fn open(alloc: Global, buffer: u32) -> Result<LinkState, Fail> {
    Ok(LinkState::new(alloc, three_levels(buffer)?)?)
}

// One step. A test fails where its link's clock would be past the range of a step, so that none has to say that it
// isn't.
fn step<L: LinkStep>(link: &mut L, ask: &Ask) -> Result<Reply, Fail>
    requires { AskFits (L.link_of link.old).shape ask.now }
{
    if link.clock() >= 1 << 61 {
        return Err(Fail::from("the clock is too late for a step"));
    }
    Ok(link.step(ask)?)
}

// A list of asks, to the link and to the plain lists. In four of five lists the link makes ticks in strides, too.
fn compare<L: Stride>(link: L, plain: PlainLink, list: u64) -> Result<Outcome, Fail> {
    let mut link = link;
    let mut plain = plain;
    let mut number = list;
    let mut rested = 0_u64;
    for turn in 0..ASKS {
        number = next(number);
        let ask = ask(&link, number)?;
        let reply = step(&mut link, &ask)?;
        let clock = link.clock();
        let ticks = link.stride(list % 5)?;
        if reply != plain.answer(&ask)? || !are_quiet(&mut plain, clock, ticks)? {
            return Ok(Outcome::Differs { ask: turn });
        }
        rested = rested.wrapping_add(ticks);
    }
    Ok(Outcome::Same { rested })
}

// The loop over the asks is generic in the link: it knows what each link owes, and nothing of what this one keeps.
#[test]
fn a_link_replies_as_plain_lists_do(rt: HostRuntime) -> Result<(), Fail> {
    let mut all = 0_u64;
    for list in 0..LISTS {
        let buffer = if list % 2 == 0 { 20 } else { 100 };
        let link = open(rt.alloc(), buffer)?;
        let plain = PlainLink::new(rt.alloc(), link.shape(), [10, 20, 40]);
        match compare(link, plain, list)? {
            Outcome::Same { rested } => all = all.wrapping_add(rested),
            Outcome::Differs { ask } => panic!(rt; "list {list}, ask {ask}"),
        }
    }
    assert!(rt; all > LISTS);
    Ok(())
}
