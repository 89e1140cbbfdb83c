//! A channel over one link, worked by hand: it is set up, a packet of it is sent, and it is torn down.
ghost use Rattle.std.specs.Prelude.{◌≡◌, ◌<◌, [], ◌∷◌, IfOk, length};
ghost use Rattle.net_units.specs.Numbers.{actor_number, channel_number, link_number};
ghost use Rattle.link_steps.specs.Lists.{Each};
ghost use Rattle.step_stamp.specs.Opening.{AreLinks, ArePasses};
ghost use Rattle.step_stamp.specs.Seats.{stamps_table};
ghost use Rattle.link_ledger.specs.Owners.{IsOwner};
ghost use Rattle.setup_protocol.specs.Hops.{IsHopOf};
ghost use Rattle.shared_network.specs.Ready.{PassGoesOn, IsNew};
ghost use Rattle.shared_network.specs.Worked.{IsOverLink, IsWorkedLink};

use crate::networks::{Opened, actor_no, close_for_one, link_no, one, open_for_one, request};
use link_ledger::{Entry, Home, Pass};
use link_server::LinkState;
use link_steps::{Ask, LinkStep, Reply};
use net_units::{ActorNo, LinkNo, NoGate};
use setup_protocol::{Request, Verdict};
use shared_network::{Closed, Network};
use std::alloc::Global;
use std::marker::Brand;
use std::sync::Wait;
use std::test::Fail;
use step_stamp::{LinkSeat, PassSeat, Stamps};

#[derive(Drop)]
struct Told {
    verdict: Verdict,
    sent: Reply,
    seen: u64,
    count: u64,
}

// A channel over a link is set up, a packet of it is sent, and it is torn down.
fn calls<L: LinkStep + Send, H: Home, W: Wait>(
    rt: &W,
    network: &Network<L, H>,
    pass: &mut Pass,
    request: &Request,
    link: LinkNo,
) -> Result<Told, Fail>
    requires new { IsNew H.table H.owners H.links 1 pass.old }
    requires link { link_number link < length H.links }
    requires owned { IsOwner H.owners pass.old.actor request.now.chan }
    requires hops { Each (IsHopOf H.links) request.now.route }
    ensures ready { IfOk result (λ _. PassGoesOn H.table H.owners H.links pass.old pass.new) }
    ensures same { IfOk result (λ _. pass.new.actor ≡ pass.old.actor) }
{
    let verdict = network.setup(rt, pass, &NoGate, request)?;
    let Verdict::Accepted { .. } = verdict else {
        return Err(Fail::from("the channel is accepted"));
    };
    let submit = Ask::Submit {
        chan: request.chan,
        count: 1,
        gap: 1,
        size: 2,
    };
    let sent = network.submit(rt, pass, &NoGate, link, &submit)?;
    let seen = network.steps_seen(pass);
    let count = network.teardown(rt, pass, &NoGate, request)?;
    Ok(Told {
        verdict,
        sent,
        seen,
        count,
    })
}

// The calls by the one actor of a network of one link, which is then closed.
fn played<L: LinkStep + Send, H: Home, W: Wait>(
    rt: &W,
    alloc: Global,
    opened: (Stamps, Vec<LinkSeat>, Vec<PassSeat>),
    link: L,
    owner: ActorNo,
    request: &Request,
) -> Result<(Told, Closed), Fail>
    requires table { stamps_table opened.0 ≡ H.table }
    requires seats { AreLinks H.table 1 1 opened.1.items }
    requires passes { ArePasses H.table 1 1 opened.2.items }
    requires links { H.links ≡ L.link_of link ∷ [] }
    requires worked { IsWorkedLink (L.link_of link).shape }
    requires stands { L.stands_for link [] }
    requires owners { H.owners ≡ owner ∷ [] }
    requires owner { actor_number owner ≡ 0 }
    requires chan { channel_number request.now.chan ≡ 0 }
    requires route { Each (IsOverLink 0) request.now.route }
{
    let (links, owners) = (one(alloc, link)?, one(alloc, owner)?);
    let (network, pass) = open_for_one::<L, H>(alloc, opened, links, owners)?;
    let mut pass = pass;
    let told = calls(rt, &network, &mut pass, request, link_no(0)?)?;
    let closed = close_for_one(alloc, network, pass)?;
    Ok((told, closed))
}

// Chooses the home.
fn played_at_home<L: LinkStep + Send, W: Wait>(
    rt: &W,
    alloc: Global,
    opened: (Stamps, Vec<LinkSeat>, Vec<PassSeat>),
    link: L,
    owner: ActorNo,
    request: &Request,
) -> Result<(Told, Closed), Fail>
    requires seats { AreLinks (stamps_table opened.0) 1 1 opened.1.items }
    requires passes { ArePasses (stamps_table opened.0) 1 1 opened.2.items }
    requires worked { IsWorkedLink (L.link_of link).shape }
    requires stands { L.stands_for link [] }
    requires owner { actor_number owner ≡ 0 }
    requires chan { channel_number request.now.chan ≡ 0 }
    requires route { Each (IsOverLink 0) request.now.route }
{
    played::<L, Brand, W>(rt, alloc, opened, link, owner, request)
}

fn worked<L: Opened, W: Wait>(rt: &W, alloc: Global) -> Result<(Told, Closed), Fail> {
    let opened = Stamps::open(alloc, 1, 1)?;
    let (owner, request) = (actor_no(0)?, request(0, 0)?);
    played_at_home(rt, alloc, opened, L::open(alloc, 0)?, owner, &request)
}

// The level and the delay of a channel over one link.
fn accepted(verdict: &Verdict) -> Option<(u8, u64)> {
    match verdict {
        Verdict::Accepted { levels, delay } if levels.len() == 1 => {
            Some((levels.at(1).get(), *delay))
        }
        _ => None,
    }
}

// Whether the entries have the stamps 1, 2, 3 and so on.
fn are_numbered(entries: &[Entry]) -> bool {
    entries
        .iter()
        .enumerate()
        .all(|(place, entry)| entry.stamp == place as u64 + 1)
}

// Whether the entries are the pass's own ones.
fn are_own(entries: &[Entry], pass: &Pass) -> bool {
    let own = pass.own();
    own.len() == entries.len()
        && entries.iter().zip(own).all(|(entry, own)| {
            entry.actor == pass.actor()
                && (entry.stamp, entry.ask, entry.reply) == (own.stamp, own.ask, own.reply)
        })
}

// Whether the channel was accepted with level 1 and a delay of 12, a packet was planned before the first tick, three steps were seen then,
// and no packet had been taken at the end.
fn is_due(told: &Told) -> bool {
    accepted(&told.verdict) == Some((1, 12))
        && told.sent == Reply::Planned { clock: 0 }
        && (told.seen, told.count) == (3, 0)
}

// Whether one journal is left, with four entries, and one pass, whose own they are.
fn is_left(closed: &Closed) -> bool {
    let ([journal], [pass]) = (closed.journals.as_slice(), closed.passes.as_slice()) else {
        return false;
    };
    let entries = journal.entries.as_slice();
    entries.len() == 4 && are_numbered(entries) && are_own(entries, pass)
}

#[test]
fn a_channel_is_set_up_sent_on_and_torn_down(rt: HostRuntime) -> Result<(), Fail> {
    let (told, closed) = worked::<LinkState, _>(&rt, rt.alloc())?;
    assert!(rt; is_due(&told));
    assert!(rt; is_left(&closed));
    Ok(())
}
