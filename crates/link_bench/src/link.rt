//! A link that does its work, ask by ask.
ghost use Rattle.link_steps.specs.Legal.{AskFits};

use crate::split::split_of;
use crate::work::{Made, Work};
use link_quota::QuotaLink;
use link_server::LinkState;
use link_steps::{Ask, LinkStep, Reply};
use net_units::{ChanNo, Kind, Level, OutOfMemory};
use std::alloc::Global;

/// What a new link makes of the work with this many channels. None where it has no memory for a row.
pub fn work_through(alloc: Global, work: &Work, channels: u32) -> Option<Made> {
    let link = LinkState::new(alloc, work.shape()?).ok()?;
    make(link, work, channels)
}

/// What a new link that is split makes of it, where one group has all channels and all that the link can carry.
pub fn work_through_split(alloc: Global, work: &Work, channels: u32) -> Option<Made> {
    let shape = work.shape()?;
    let split = split_of(alloc, &shape, channels)?;
    let link = QuotaLink::new(alloc, shape, split).ok()?;
    make(link, work, channels)
}

// What the link makes of it.
fn make<L: LinkStep>(link: L, work: &Work, channels: u32) -> Option<Made> {
    let mut link = link;
    let accepted = open_all(&mut link, work, channels)?;
    let departed = make_ticks(&mut link, work.ticks())?;
    Some(Made { accepted, departed })
}

// Opens the channels, and lets them send. It answers how many the link accepts.
fn open_all<L: LinkStep>(link: &mut L, work: &Work, channels: u32) -> Option<u64> {
    let mut accepted = 0_u64;
    for number in 0..channels {
        let chan = ChanNo::new(number)?;
        if !open(link, work, chan)? {
            continue;
        }
        accepted = accepted.saturating_add(1);
        send(link, work, chan)?;
        if work.releases(number) {
            let upstream = None;
            step(link, &Ask::Release { chan, upstream }).ok()?;
        }
    }
    Some(accepted)
}

// Makes this many ticks. It answers how many packets depart.
fn make_ticks<L: LinkStep>(link: &mut L, ticks: u32) -> Option<u64> {
    let tick = Ask::Tick;
    let mut departed = 0_u64;
    for _ in 0..ticks {
        match step(link, &tick) {
            Ok(Reply::Ticked { sent: Some(_), .. }) => departed = departed.saturating_add(1),
            Ok(_) => {}
            Err(_) => return None,
        }
    }
    Some(departed)
}

// One step; an `Err` where it has no memory, or the clock is past the range of a step. It answers what the link answers as it
// stands, and is made where it is called, since a reply that is copied once more takes longer than a tick of an idle link.
#[inline(always)]
fn step<L: LinkStep>(link: &mut L, ask: &Ask) -> Result<Reply, OutOfMemory>
    requires { AskFits (L.link_of link.old).shape ask.now }
{
    if link.clock() >= 1 << 61 {
        return Err(OutOfMemory);
    }
    link.step(ask)
}

// Reserves and relaxes a channel at the only hop of its route. It answers whether the link has offered a level.
fn open<L: LinkStep>(link: &mut L, work: &Work, chan: ChanNo) -> Option<bool> {
    let contract = work.contract()?;
    // `smax` tells that the four numbers are a contract's, as the ask wants.
    let _smax = contract.smax();
    let reserve = Ask::Reserve {
        chan,
        contract,
        kind: Kind::Rate,
        delay: work.delay(),
        up_reach: 0,
        first: true,
        next: None,
    };
    let Reply::Offer { reach, .. } = step(link, &reserve).ok()? else {
        return Some(false);
    };
    relax(link, chan, reach)?;
    Some(true)
}

// Commits it at a level of the link.
fn relax<L: LinkStep>(link: &mut L, chan: ChanNo, level: Level) -> Option<Reply> {
    if level.get() > link.shape().bounds.len() {
        return None;
    }
    let up_bound = 0;
    step(
        link,
        &Ask::Relax {
            chan,
            level,
            up_bound,
        },
    )
    .ok()
}

// Plans the packets that its source sends, if any.
fn send<L: LinkStep>(link: &mut L, work: &Work, chan: ChanNo) -> Option<()> {
    let ask = match work {
        Work::Voice => Ask::Submit {
            chan,
            count: 50,
            gap: 2_000,
            size: 200,
        },
        Work::Waiting => Ask::Submit {
            chan,
            count: 1_024,
            gap: 50,
            size: 40,
        },
        Work::Requests | Work::Closed | Work::Idle => return Some(()),
    };
    step(link, &ask).ok()?;
    Some(())
}
