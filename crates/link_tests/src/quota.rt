//! Worked reserves on a link that is split between two groups.
//!
//! A link keeps many facts true, and each step puts them all among what is known. So the loop over the table of asks and replies is
//! generic: of the link it knows what each link owes, and no more. And the table is a constant, of which a test proves nothing.
ghost use Rattle.std.specs.Prelude.{IsTrue};
ghost use Rattle.link_steps.specs.Legal.{AskFits};

use link_quota::{AnyLink, QuotaLink};
use link_server::LinkState;
use link_steps::{Ask, LinkShape, LinkStep, Quota, Refusal, Reply, Split};
use net_units::limits::{MOST_BOUND, MOST_GAP, MOST_PACKETS, MOST_SIZE};
use net_units::{Bounds, ChanNo, Kind, Level, LinkNo};
use std::alloc::Global;
use std::process::Abort;
use std::test::Fail;
use traffic_contract::{Contract, Test};

mod rests;

// An ask and its worked reply. A channel's number comes first.
#[derive(Clone, Copy)]
enum Turn {
    // A reserve at the only hop of a route with this delay, and the level and the reach that it is offered.
    Offered(u32, u64, u8, u8),
    // One that no level has room for: the sum at the last level, and the group's quota there.
    Over(u32, u64, u64),
    // One behind a hop whose reach has a bound of 400 ticks. It may be relaxed to the last level here, so it needs units for the
    // packets of 440 ticks, and its group has fewer free.
    Full(u32, u64, u64),
    // A relax to this level.
    Relaxed(u32, u8),
    Denied(u32),
    // A release of a channel that has sent nothing.
    Released(u32),
    // The first tick, in which nothing leaves.
    Ticked,
}

// A link of a unit a tick, with packets of up to 4 units and levels with bounds of 10, 20 and 40 ticks. Channels 1 to 3 are of
// group 1, and 4 to 6 of group 2.
fn split_link(alloc: Global) -> Result<QuotaLink, Fail> {
    let number = LinkNo::new(0).ok_or("link")?;
    let bounds = Bounds::new(&[10, 20, 40]).ok_or("bounds")?;
    let shape = LinkShape::new(number, 1, 4, 2, 100, bounds, Test::Whole, 0)?;
    let quotas = [
        Quota {
            group: 1,
            buffer: 50,
            levels: [4, 8, 20, 0, 0, 0, 0, 0],
        },
        Quota {
            group: 2,
            buffer: 50,
            levels: [2, 8, 16, 0, 0, 0, 0, 0],
        },
    ];
    let Ok(split) = Split::new(alloc, bounds, &quotas, &[0, 1, 1, 1, 2, 2, 2]) else {
        return Err(Fail::from("split"));
    };
    let Ok(link) = QuotaLink::new(alloc, shape, split) else {
        return Err(Fail::from("no memory"));
    };
    Ok(link)
}

// A link that isn't split.
fn whole_link(alloc: Global) -> Result<LinkState, Fail> {
    let number = LinkNo::new(0).ok_or("link")?;
    let bounds = Bounds::new(&[10, 20, 40]).ok_or("bounds")?;
    let shape = LinkShape::new(number, 1, 4, 2, 100, bounds, Test::Whole, 0)?;
    let Ok(link) = LinkState::new(alloc, shape) else {
        return Err(Fail::from("no memory"));
    };
    Ok(link)
}

// A link that a test can make without a name of its type.
trait Opened: LinkStep {
    // A new one, which is split or isn't, where there are both kinds.
    fn open(alloc: Global, splits: bool) -> Result<Self, Fail>;
}

impl Opened for QuotaLink {
    fn open(alloc: Global, _splits: bool) -> Result<QuotaLink, Fail> {
        split_link(alloc)
    }
}

impl Opened for AnyLink {
    fn open(alloc: Global, splits: bool) -> Result<AnyLink, Fail> {
        if splits {
            Ok(AnyLink::Quota(split_link(alloc)?))
        } else {
            Ok(AnyLink::Plain(whole_link(alloc)?))
        }
    }
}

// The first reply of a link that isn't the worked one, with its place in the table, from 0.
fn first_other<L: LinkStep>(link: L, turns: &[Turn]) -> Result<Option<(usize, Reply)>, Fail> {
    let mut link = link;
    for (place, turn) in turns.iter().enumerate() {
        let reply = step(&mut link, &ask_of(turn)?)?;
        if reply != reply_of(turn)? {
            return Ok(Some((place, reply)));
        }
    }
    Ok(None)
}

// A new link that is split replies as it was worked. It is made here, where its type isn't known, since a function that may have to drop
// a link of a known type takes minutes to prove.
fn replies_so<L: Opened>(rt: &impl Abort, alloc: Global, turns: &[Turn]) -> Result<(), Fail> {
    assert_eq!(rt; first_other(L::open(alloc, true)?, turns)?, None);
    Ok(())
}

// One step. A test fails where a number of an ask is out of its limits, or the clock past the range of a step.
fn step<L: LinkStep>(link: &mut L, ask: &Ask) -> Result<Reply, Fail> {
    if link.clock() >= 1 << 61 {
        return Err(Fail::from("the clock is too late for a step"));
    }
    if !fits(ask, &link.shape()) {
        return Err(Fail::from("a number of the ask is out of its limits"));
    }
    Ok(link.step(ask)?)
}

// Whether it is an ask of a reservation, a submit or a tick, whose numbers are within their limits at a link of this shape.
fn fits(ask: &Ask, shape: &LinkShape) -> bool
    ensures { IsTrue result → AskFits shape.now ask.now }
{
    match ask {
        Ask::Reserve {
            contract,
            up_reach,
            first,
            ..
        } => {
            // `smax` tells that the four numbers are a contract's.
            let _smax = contract.smax();
            *up_reach <= u64::from(MOST_BOUND) && (!*first || *up_reach == 0)
        }
        Ask::Relax {
            level,
            up_bound,
            ..
        } => level.get() <= shape.bounds.len() && *up_bound <= u64::from(MOST_BOUND),
        Ask::Deny { .. } | Ask::Release { .. } | Ask::Tick => true,
        Ask::Submit {
            count,
            gap,
            size,
            ..
        } => {
            1 <= *count
                && *count <= MOST_PACKETS
                && 1 <= *gap
                && *gap <= u64::from(MOST_GAP)
                && 1 <= *size
                && *size <= MOST_SIZE
        }
        Ask::Arrive { .. } | Ask::Pour { .. } => false,
    }
}

// A packet each 5 ticks, and two in any 20, of up to 2 units.
fn voice() -> Result<Contract, Fail> {
    Ok(Contract::new(5, 10, 20, 2)?)
}

fn chan(number: u32) -> Result<ChanNo, Fail> {
    Ok(ChanNo::new(number).ok_or("channel")?)
}

fn level(number: u8) -> Result<Level, Fail> {
    Ok(Level::new(number).ok_or("level")?)
}

// A reserve at the only hop of a route.
fn reserve(number: u32, delay: u64) -> Result<Ask, Fail> {
    Ok(Ask::Reserve {
        chan: chan(number)?,
        contract: voice()?,
        kind: Kind::Rate,
        delay,
        up_reach: 0,
        first: true,
        next: None,
    })
}

// One behind a hop whose reach has a bound of 400 ticks.
fn reserve_behind(number: u32) -> Result<Ask, Fail> {
    Ok(Ask::Reserve {
        chan: chan(number)?,
        contract: voice()?,
        kind: Kind::Rate,
        delay: 412,
        up_reach: 400,
        first: false,
        next: None,
    })
}

fn relax(number: u32, to: u8) -> Result<Ask, Fail> {
    Ok(Ask::Relax {
        chan: chan(number)?,
        level: level(to)?,
        up_bound: 0,
    })
}

// The ask.
fn ask_of(turn: &Turn) -> Result<Ask, Fail> {
    match *turn {
        Turn::Offered(number, delay, ..) => reserve(number, delay),
        Turn::Over(number, ..) => reserve(number, 100),
        Turn::Full(number, ..) => reserve_behind(number),
        Turn::Relaxed(number, to) => relax(number, to),
        Turn::Denied(number) => Ok(Ask::Deny {
            chan: chan(number)?,
        }),
        Turn::Released(number) => Ok(Ask::Release {
            chan: chan(number)?,
            upstream: None,
        }),
        Turn::Ticked => Ok(Ask::Tick),
    }
}

// The reply.
fn reply_of(turn: &Turn) -> Result<Reply, Fail> {
    match *turn {
        Turn::Offered(_, _, at, reach) => Ok(Reply::Offer {
            level: level(at)?,
            reach: level(reach)?,
        }),
        Turn::Over(_, sum, bound) => Ok(Reply::Refused(Refusal::NoLevel { sum, bound })),
        Turn::Full(_, need, free) => Ok(Reply::Refused(Refusal::NoBuffer { need, free })),
        Turn::Relaxed(..) => Ok(Reply::Relaxed { clock: 0 }),
        Turn::Denied(_) => Ok(Reply::Denied),
        Turn::Released(_) => Ok(Reply::Closing {
            count: 0,
            cancelled: 0,
        }),
        Turn::Ticked => Ok(Reply::Ticked {
            clock: 0,
            full: 0,
            sent: None,
            best_sent: false,
            best_lost: false,
        }),
    }
}

// A channel that needs more of the buffer than its group may have is denied, though the link has it free. A channel of group 2 is
// offered what group 1 has used up; a row that is denied or has expired is given back to its group; a channel of no group has no
// share.
const GROUPS: [Turn; 18] = [
    Turn::Full(1, 88, 50),
    Turn::Offered(1, 12, 1, 1),
    Turn::Relaxed(1, 1),
    Turn::Offered(2, 22, 2, 2),
    Turn::Relaxed(2, 2),
    Turn::Over(3, 24, 20),
    Turn::Offered(4, 22, 2, 2),
    Turn::Relaxed(4, 2),
    Turn::Offered(5, 22, 2, 2),
    Turn::Denied(5),
    Turn::Offered(5, 22, 2, 2),
    Turn::Relaxed(5, 2),
    Turn::Over(6, 24, 16),
    Turn::Over(7, 8, 0),
    Turn::Released(1),
    Turn::Over(3, 24, 20),
    Turn::Ticked,
    Turn::Offered(3, 100, 1, 3),
];

#[test]
fn each_group_goes_by_its_own_quota(rt: HostRuntime) -> Result<(), Fail> {
    replies_so::<AnyLink>(&rt, rt.alloc(), &GROUPS)
}
