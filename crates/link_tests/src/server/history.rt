//! A worked history, and whether a link has it.
//!
//! A link's state keeps a dozen facts true, and each step puts them all among what is known: a test that holds one from step to
//! step takes minutes to prove. So the loop over the table of asks and replies is generic: of the link it knows what each owes.
ghost use Rattle.std.specs.Prelude.{◌≡◌, ◌∷◌, [], IsTrue, IfOk};
ghost use Rattle.traffic_contract.specs.declared.admission.Test.TheVariants.{Whole};
ghost use Rattle.link_steps.specs.Legal.{AskFits, SubmitFits};
ghost use Rattle.link_steps.specs.Shape.{IsShapeOf};

use super::ticked;
use link_server::LinkState;
use link_steps::{Ask, LinkShape, LinkStep, Reply};
use net_units::limits::{MOST_BOUND, MOST_GAP, MOST_PACKETS, MOST_SIZE};
use net_units::{Bounds, LinkNo};
use std::alloc::Global;
use std::test::Fail;
use traffic_contract::Test;

// A part of a worked history.
#[derive(Clone, Copy)]
pub(super) enum Turn {
    // An ask and its reply.
    Asked(Ask, Reply),
    // The ticks before this one, in which no packet leaves and none is dropped or lost.
    QuietUntil(u64),
}

// What a link replies that isn't the worked reply.
#[derive(Clone, Copy, Debug, PartialEq, Eq)]
pub(super) struct Other {
    // The place of the turn in the table, from 0.
    pub(super) turn: usize,
    pub(super) reply: Reply,
}

// A link of a unit a tick, with packets of up to 4 units, a place for a best-effort packet, and levels with bounds of 10,
// 20 and 40 ticks.
pub(super) fn three_levels(buffer: u32) -> Result<LinkShape, Fail>
    ensures { IfOk result (λ shape. IsShapeOf shape.link 1 4 2 buffer (10 ∷ 20 ∷ 40 ∷ []) Whole 1 shape) }
{
    let number = LinkNo::new(0).ok_or("link")?;
    let bounds = Bounds::new(&[10, 20, 40]).ok_or("bounds")?;
    Ok(LinkShape::new(number, 1, 4, 2, buffer, bounds, Test::Whole, 1)?)
}

// Such a link with one level, with a bound of 23 ticks, and this test.
pub(super) fn one_level(test: Test) -> Result<LinkShape, Fail> {
    let number = LinkNo::new(0).ok_or("link")?;
    let bounds = Bounds::new(&[23]).ok_or("bounds")?;
    Ok(LinkShape::new(number, 1, 4, 2, 100, bounds, test, 0)?)
}

// The first reply of a new link that isn't the worked one.
pub(super) fn first_other(
    alloc: Global,
    shape: &LinkShape,
    turns: &[Turn],
) -> Result<Option<Other>, Fail> {
    let link = LinkState::new(alloc, *shape)?;
    other_of(link, turns)
}

// The first reply of a link that isn't the worked one.
fn other_of<L: LinkStep>(link: L, turns: &[Turn]) -> Result<Option<Other>, Fail> {
    let mut link = link;
    for (turn, worked) in turns.iter().enumerate() {
        let other = match worked {
            Turn::Asked(ask, reply) => reply_but(&mut link, ask, reply)?,
            Turn::QuietUntil(clock) => tick_until(&mut link, *clock)?,
        };
        if let Some(reply) = other {
            return Ok(Some(Other { turn, reply }));
        }
    }
    Ok(None)
}

// The link's reply, where it isn't this one.
fn reply_but<L: LinkStep>(link: &mut L, ask: &Ask, worked: &Reply) -> Result<Option<Reply>, Fail> {
    let reply = step(link, ask)?;
    if reply == *worked {
        Ok(None)
    } else {
        Ok(Some(reply))
    }
}

// Ticks that are to be quiet. It answers the first that isn't.
fn tick_until<L: LinkStep>(link: &mut L, clock: u64) -> Result<Option<Reply>, Fail> {
    for number in link.clock()..clock {
        let other = reply_but(link, &Ask::Tick, &ticked(number, 0, None))?;
        if other.is_some() {
            return Ok(other);
        }
    }
    Ok(None)
}

// One step. A test fails where a number of an ask is out of its limits, or the clock past the range of a step, so that none
// has to prove that they aren't.
pub(super) fn step<L: LinkStep>(link: &mut L, ask: &Ask) -> Result<Reply, Fail> {
    if link.clock() >= 1 << 61 {
        return Err(Fail::from("the clock is too late for a step"));
    }
    if !fits(ask, &link.shape()) {
        return Err(Fail::from("a number of the ask is out of its limits"));
    }
    Ok(link.step(ask)?)
}

// Whether the numbers of an ask are within their limits at a link of this shape.
fn fits(ask: &Ask, shape: &LinkShape) -> bool
    ensures { IsTrue result → AskFits shape.now ask.now }
{
    match ask {
        Ask::Reserve {
            contract,
            up_reach,
            first,
            ..
        } => {
            // `smax` tells that the four numbers are a contract's.
            let _smax = contract.smax();
            *up_reach <= u64::from(MOST_BOUND) && (!*first || *up_reach == 0)
        }
        Ask::Relax {
            level,
            up_bound,
            ..
        } => level.get() <= shape.bounds.len() && *up_bound <= u64::from(MOST_BOUND),
        Ask::Submit {
            count,
            gap,
            size,
            ..
        } => fit_send(*count, *gap, *size),
        Ask::Arrive { packet } => { (1..=MOST_SIZE).contains(&packet.size) && packet.due < 1 << 62 }
        Ask::Pour { count, gap, size } => shape.best >= 1 && fit_send(*count, *gap, *size),
        Ask::Deny { .. } | Ask::Release { .. } | Ask::Tick => true,
    }
}

// Whether the numbers of a submit are.
fn fit_send(count: u64, gap: u64, size: u32) -> bool
    ensures { IsTrue result → SubmitFits count gap size }
{
    (1..=MOST_PACKETS).contains(&count)
        && (1..=u64::from(MOST_GAP)).contains(&gap)
        && (1..=MOST_SIZE).contains(&size)
}
