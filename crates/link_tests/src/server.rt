//! Worked histories of one link, as tables of what it is asked and what it has to reply.
ghost use Rattle.std.specs.Prelude.{◌≡◌, ◌<◌, ◌≤◌, IfOk};
ghost use Rattle.net_units.specs.Limits.{most_channels};
ghost use Rattle.net_units.specs.Numbers.{level_number};
ghost use Rattle.traffic_contract.specs.Contract.{IsContract, terms_of};

use link_steps::{Ask, Packet, Refusal, Reply, Sent, Why};
use net_units::{ChanNo, Kind, Level};
use std::test::Fail;
use traffic_contract::Contract;

// A packet each 5 ticks, and two in any 20, of up to 2 units.
fn voice() -> Result<Contract, Fail>
    ensures value { IfOk result (λ contract. contract ≡ terms_of 5 10 20 2) }
    ensures valid { IfOk result IsContract }
{
    Ok(Contract::new(5, 10, 20, 2)?)
}

fn chan(number: u32) -> ChanNo
    requires { number < most_channels }
{
    match ChanNo::new(number) {
        Some(chan) => chan,
        None => unreachable!(),
    }
}

fn level(number: u8) -> Level
    requires least { 1 ≤ number }
    requires most { number ≤ 8 }
    ensures { level_number result ≡ number }
{
    match Level::new(number) {
        Some(level) => level,
        None => unreachable!(),
    }
}

// A reserve at the only hop of a route, with rate-jitter control.
fn reserve(number: u32, contract: &Contract, delay: u64) -> Ask
    requires { number < most_channels }
{
    Ask::Reserve {
        chan: chan(number),
        contract: *contract,
        kind: Kind::Rate,
        delay,
        up_reach: 0,
        first: true,
        next: None,
    }
}

// A relax at the first hop.
fn relax(number: u32, to: u8) -> Ask
    requires number { number < most_channels }
    requires least { 1 ≤ to }
    requires most { to ≤ 8 }
{
    Ask::Relax {
        chan: chan(number),
        level: level(to),
        up_bound: 0,
    }
}

fn deny(number: u32) -> Ask
    requires { number < most_channels }
{
    Ask::Deny { chan: chan(number) }
}

fn submit(number: u32, count: u64, gap: u64, size: u32) -> Ask
    requires { number < most_channels }
{
    Ask::Submit {
        chan: chan(number),
        count,
        gap,
        size,
    }
}

fn release(number: u32, upstream: Option<u64>) -> Ask
    requires { number < most_channels }
{
    Ask::Release {
        chan: chan(number),
        upstream,
    }
}

// A packet from the link before.
fn arrive(number: u32, packet: u64, size: u32, due: u64) -> Ask
    requires { number < most_channels }
{
    let packet = Packet {
        chan: chan(number),
        number: packet,
        size,
        due,
    };
    Ask::Arrive { packet }
}

fn offer(to: u8, reach: u8) -> Reply
    requires least { 1 ≤ to }
    requires most { to ≤ 8 }
    requires reach_least { 1 ≤ reach }
    requires reach_most { reach ≤ 8 }
{
    Reply::Offer {
        level: level(to),
        reach: level(reach),
    }
}

// The reply to a relax before the first tick.
const RELAXED: Reply = Reply::Relaxed { clock: 0 };

fn stray(why: Why) -> Reply {
    Reply::Refused(Refusal::Stray { why })
}

fn planned(clock: u64) -> Reply {
    Reply::Planned { clock }
}

fn closing(count: u64, cancelled: u64) -> Reply {
    Reply::Closing { count, cancelled }
}

// The reply to a packet that arrives before the first tick.
fn taken(eligible: u64) -> Reply {
    Reply::Taken { clock: 0, eligible }
}

// A packet of two units, as it leaves the link at the end of its route.
fn sent(number: u32, packet: u64, at: u64, eligible: u64, due: u64, arrives: u64) -> Sent
    requires { number < most_channels }
{
    Sent {
        packet: Packet {
            chan: chan(number),
            number: packet,
            size: 2,
            due,
        },
        at,
        eligible,
        arrives,
        next: None,
    }
}

// The reply to a tick in which no best-effort packet leaves or is lost.
fn ticked(clock: u64, full: u32, sent: Option<Sent>) -> Reply {
    Reply::Ticked {
        clock,
        full,
        sent,
        best_sent: false,
        best_lost: false,
    }
}

mod arrivals;
mod best_effort;
mod chosen;
mod generated;
mod history;
mod plain;
mod releases;
mod setup;
mod ticks;
