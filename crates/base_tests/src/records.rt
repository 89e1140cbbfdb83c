//! Rows of runs worked by hand, over the links 0 and 1.
ghost use Rattle.std.specs.Prelude.{IfOk, OnOk};
ghost use Rattle.link_steps.specs.Lists.{Each};
ghost use Rattle.run_record.specs.Rows.{IsEarly};

use crate::due::is_due;
use link_steps::{Ask, Packet, Reply, Sent};
use net_units::{ActorNo, ChanNo, Kind, Level, LinkNo, OutOfMemory};
use run_record::{Done, HopRow, HopRows, HopTable, Record};
use std::alloc::Global;
use std::test::Fail;
use traffic_contract::Contract;

fn channel(number: u32) -> Result<ChanNo, Fail> {
    Ok(ChanNo::new(number).ok_or("channel")?)
}

fn link(number: u8) -> Result<LinkNo, Fail> {
    Ok(LinkNo::new(number).ok_or("link")?)
}

// The link offers level 1 to the channel.
fn offer(chan: u32, on: u8) -> Result<Done, Fail>
    ensures { IfOk result (λ done. IsEarly done.reply) }
{
    let level = Level::new(1).ok_or("level")?;
    Ok(Done {
        actor: ActorNo::new(0).ok_or("caller")?,
        link: link(on)?,
        ask: Ask::Reserve {
            chan: channel(chan)?,
            contract: Contract::new(5, 10, 20, 2)?,
            kind: Kind::Rate,
            delay: 50,
            up_reach: 0,
            first: true,
            next: None,
        },
        reply: Reply::Offer {
            level,
            reach: level,
        },
    })
}

// A packet of two units that arrived at a tick and was eligible two ticks before its departure.
#[derive(Clone, Copy)]
struct Leaving {
    chan: u32,
    number: u64,
    on: u8,
    at: u64,
    departed: u32,
}

// The tick that tells of it.
fn tick(leaving: &Leaving) -> Result<Done, Fail>
    ensures { IfOk result (λ done. IsEarly done.reply) }
{
    let departed = u64::from(leaving.departed);
    let eligible = departed.saturating_sub(2);
    Ok(Done {
        actor: ActorNo::new(1).ok_or("plane")?,
        link: link(leaving.on)?,
        ask: Ask::Tick,
        reply: Reply::Ticked {
            clock: departed.saturating_sub(1),
            full: 0,
            sent: Some(Sent {
                packet: Packet {
                    chan: channel(leaving.chan)?,
                    number: leaving.number,
                    size: 2,
                    due: 0,
                },
                at: leaving.at,
                eligible,
                arrives: 0,
                next: None,
            }),
            best_sent: false,
            best_lost: false,
        },
    })
}

// The row of it, at this hop.
fn row(leaving: &Leaving, hop: u8) -> Result<HopRow, Fail> {
    let departed = u64::from(leaving.departed);
    Ok(HopRow {
        chan: channel(leaving.chan)?,
        number: leaving.number,
        hop,
        link: link(leaving.on)?,
        size: 2,
        at: leaving.at,
        eligible: departed.saturating_sub(2),
        departed,
    })
}

fn packet(chan: u32, number: u64, on: u8, at: u64, departed: u32) -> Leaving {
    Leaving {
        chan,
        number,
        on,
        at,
        departed,
    }
}

// The rows of a run of these steps.
fn rows_of_steps(alloc: Global, steps: &[Done]) -> Result<HopRows, OutOfMemory>
    requires { Each (λ done. IsEarly done.reply) steps.now }
{
    let mut record = Record::new(alloc);
    record.reserve(steps.len())?;
    for done in steps {
        record.push(*done);
    }
    record.rows(alloc)
}

#[test]
fn rows_are_told_by_channel_packet_and_hop(rt: HostRuntime) -> Result<(), Fail> {
    let first = packet(1, 1, 0, 0, 2);
    let second = packet(1, 1, 1, 4, 24);
    let later = packet(1, 2, 0, 10, 12);
    let other = packet(0, 1, 1, 5, 16);
    let steps = [
        offer(1, 0)?,
        offer(0, 1)?,
        offer(1, 1)?,
        tick(&first)?,
        tick(&later)?,
        tick(&other)?,
        tick(&second)?,
    ];
    let rows = rows_of_steps(rt.alloc(), &steps)?;
    let rows = rows.as_slice();
    assert!(rt; rows.len() == 4);
    is_due(&rt, &rows[0], &row(&other, 1)?);
    is_due(&rt, &rows[1], &row(&first, 1)?);
    is_due(&rt, &rows[2], &row(&second, 2)?);
    is_due(&rt, &rows[3], &row(&later, 1)?);
    Ok(())
}

// The row that a step tells with the hops noted so far.
fn told_by(hops: &HopTable, done: &Done) -> Result<HopRow, Fail>
    requires { IsEarly done.now.reply }
{
    Ok(hops.row_of(done).ok_or("a row")?)
}

// A row is told when its packet leaves, and its hop by the offers that were noted by the end.
#[test]
fn hops_may_be_told_after_the_rows(rt: HostRuntime) -> Result<(), Fail> {
    let early = packet(1, 1, 0, 0, 2);
    let second = packet(1, 1, 1, 4, 24);
    let steps = [tick(&early)?, offer(1, 0)?, offer(1, 1)?, tick(&second)?];
    let mut hops = HopTable::new(rt.alloc());
    let told = told_by(&hops, &steps[0])?;
    is_due(&rt, &told, &row(&early, 0)?);
    is_due(&rt, &hops.row_of(&steps[1]), &None);
    hops.note(&steps[2])?;
    hops.note(&steps[1])?;
    let later = told_by(&hops, &steps[3])?;
    let mut rows = Vec::new(rt.alloc());
    rows.push(told)?;
    rows.push(later)?;
    let rows = hops.in_order(rows)?;
    let rows = rows.as_slice();
    assert!(rt; rows.len() == 2);
    is_due(&rt, &rows[0], &row(&second, 1)?);
    is_due(&rt, &rows[1], &row(&early, 2)?);
    Ok(())
}

#[test]
fn a_link_without_an_offer_is_no_hop(rt: HostRuntime) -> Result<(), Fail> {
    let only = packet(3, 1, 0, 0, 2);
    let rows = rows_of_steps(rt.alloc(), &[tick(&only)?])?.into_vec();
    assert!(rt; rows.len() == 1);
    is_due(&rt, &rows[0], &row(&only, 0)?);
    Ok(())
}

#[test]
fn a_run_without_departures_has_no_rows(rt: HostRuntime) -> Result<(), Fail> {
    let rows = rows_of_steps(rt.alloc(), &[offer(1, 0)?])?;
    assert!(rt; rows.as_slice().is_empty());
    Ok(())
}

// Actor 2 asked link 1 for a tick.
fn tick_with(reply: Reply) -> Result<Done, Fail> {
    Ok(Done {
        actor: ActorNo::new(2).ok_or("an actor")?,
        link: link(1)?,
        ask: Ask::Tick,
        reply,
    })
}

#[test]
fn keeps_the_order(rt: HostRuntime) -> Result<(), Fail> {
    let first = tick_with(Reply::Denied)?;
    let second = tick_with(Reply::Relaxed { clock: 7 })?;
    let mut record = Record::new(rt.alloc());
    record.reserve(2)?;
    record.push(first);
    record.push(second);
    let entries = record.entries();
    is_due(&rt, &entries.len(), &2);
    is_due(&rt, &entries[0], &first);
    is_due(&rt, &entries[1], &second);
    Ok(())
}
