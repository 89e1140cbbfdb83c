//! Two callers that set up their channels beside each other, each in a thread of its own.
ghost use Rattle.std.specs.Prelude.{◌≡◌, [], ◌∷◌};
ghost use Rattle.net_units.specs.Numbers.{actor_number, channel_number};
ghost use Rattle.link_steps.specs.Lists.{Each};
ghost use Rattle.step_stamp.specs.Opening.{AreLinks, ArePasses};
ghost use Rattle.step_stamp.specs.Seats.{stamps_table};
ghost use Rattle.shared_network.specs.Worked.{IsJob, IsOverLink, IsWorkedLink};

use crate::networks::{Opened, actor_no, one, open_for_two, request, two};
use link_ledger::{Home, Pass};
use link_server::LinkState;
use link_steps::LinkStep;
use net_units::{ActorNo, Gate, LinkNo};
use setup_protocol::Request;
use shared_network::Network;
use std::alloc::Global;
use std::marker::Brand;
use std::sync::Wait;
use std::sync::atomic::{AtomicU64, Ordering};
use std::test::Fail;
use std::thread;
use std::thread::Threads;
use step_stamp::{LinkSeat, PassSeat, Stamps};

// Each step of link 0 waits, for a while, until two steps of link 1 are made.
#[derive(Drop)]
struct LinkOneFirst {
    made: AtomicU64,
}

impl Gate for LinkOneFirst {
    fn within(&self, link: LinkNo, _actor: ActorNo) {
        if link.get() == 0 {
            for _ in 0..10_000_000 {
                if self.made.load(Ordering::SeqCst) >= 2 {
                    return;
                }
                thread::yield_now();
            }
        }
    }

    fn after(&self, link: LinkNo, _actor: ActorNo) {
        if link.get() == 1 {
            self.made.fetch_add(1, Ordering::SeqCst);
        }
    }
}

// A pass, and the channel that it is to set up.
#[derive(Drop)]
struct Job {
    pass: Pass,
    request: Request,
}

// The pass, once it has set its channel up.
fn set_up<L: LinkStep + Send, H: Home, W: Wait>(
    rt: &W,
    network: &Network<L, H>,
    gate: &LinkOneFirst,
    job: Job,
) -> Option<Pass>
    requires { IsJob H.table H.owners H.links job.pass job.request }
{
    let Job { mut pass, request } = job;
    network.setup(rt, &mut pass, gate, &request).ok()?;
    Some(pass)
}

// The passes, each of which has set its channel up in a thread of its own.
fn set_up_all<L: LinkStep + Send, H: Home + Send + Sync, R: Threads + Wait + Sync>(
    rt: &R,
    network: &Network<L, H>,
    jobs: Vec<Job>,
) -> Result<Vec<Option<Pass>>, Fail>
    requires { Each (λ job. IsJob H.table H.owners H.links job.pass job.request) jobs.items }
{
    let gate = LinkOneFirst {
        made: AtomicU64::new(0),
    };
    let gate = &gate;
    Ok(thread::map_vec(
        rt,
        jobs,
        &move |job: Job| -> Option<Pass>
            requires { IsJob H.table H.owners H.links job.pass job.request }
        { set_up(rt, network, gate, job) },
    )?)
}

// On a network of two links and two actors, actor 0 asks for a channel over link 0 and actor 1 for one over link 1.
fn raced<L: LinkStep + Send, H: Home + Send + Sync, R: Threads + Wait + Sync>(
    rt: &R,
    alloc: Global,
    opened: (Stamps, Vec<LinkSeat>, Vec<PassSeat>),
    links: (L, L),
    owners: (ActorNo, ActorNo),
    requests: (Request, Request),
) -> Result<Vec<Option<Pass>>, Fail>
    requires table { stamps_table opened.0 ≡ H.table }
    requires seats { AreLinks H.table 2 2 opened.1.items }
    requires passes { ArePasses H.table 2 2 opened.2.items }
    requires links { H.links ≡ L.link_of links.0 ∷ L.link_of links.1 ∷ [] }
    requires worked { IsWorkedLink (L.link_of links.0).shape × IsWorkedLink (L.link_of links.1).shape }
    requires stand { L.stands_for links.0 [] × L.stands_for links.1 [] }
    requires owners { H.owners ≡ owners.0 ∷ owners.1 ∷ [] }
    requires numbers { (actor_number owners.0 ≡ 0) × (actor_number owners.1 ≡ 1) }
    requires chans { (channel_number requests.0.chan ≡ 0) × (channel_number requests.1.chan ≡ 1) }
    requires routes { Each (IsOverLink 0) requests.0.route × Each (IsOverLink 1) requests.1.route }
{
    let (links, owners) = (
        two(alloc, links.0, links.1)?,
        two(alloc, owners.0, owners.1)?,
    );
    let (network, first, second) = open_for_two::<L, H>(alloc, opened, links, owners)?;
    let waits = Job {
        pass: first,
        request: requests.0,
    };
    let goes = Job {
        pass: second,
        request: requests.1,
    };
    let jobs = two(alloc, waits, goes)?;
    set_up_all(rt, &network, jobs)
}

// Chooses the home.
fn raced_at_home<L: LinkStep + Send, R: Threads + Wait + Sync>(
    rt: &R,
    alloc: Global,
    opened: (Stamps, Vec<LinkSeat>, Vec<PassSeat>),
    links: (L, L),
    owners: (ActorNo, ActorNo),
    requests: (Request, Request),
) -> Result<Vec<Option<Pass>>, Fail>
    requires seats { AreLinks (stamps_table opened.0) 2 2 opened.1.items }
    requires passes { ArePasses (stamps_table opened.0) 2 2 opened.2.items }
    requires worked { IsWorkedLink (L.link_of links.0).shape × IsWorkedLink (L.link_of links.1).shape }
    requires stand { L.stands_for links.0 [] × L.stands_for links.1 [] }
    requires numbers { (actor_number owners.0 ≡ 0) × (actor_number owners.1 ≡ 1) }
    requires chans { (channel_number requests.0.chan ≡ 0) × (channel_number requests.1.chan ≡ 1) }
    requires routes { Each (IsOverLink 0) requests.0.route × Each (IsOverLink 1) requests.1.route }
{
    raced::<L, Brand, R>(rt, alloc, opened, links, owners, requests)
}

fn two_callers<L: Opened, R: Threads + Wait + Sync>(
    rt: &R,
    alloc: Global,
) -> Result<Vec<Option<Pass>>, Fail> {
    let opened = Stamps::open(alloc, 2, 2)?;
    let owners = (actor_no(0)?, actor_no(1)?);
    let requests = (request(0, 0)?, request(1, 1)?);
    let links = (L::open(alloc, 0)?, L::open(alloc, 1)?);
    raced_at_home(rt, alloc, opened, links, owners, requests)
}

// The stamps of the two steps of a setup.
fn stamps(pass: &Option<Pass>) -> Option<(u64, u64)> {
    match pass.as_ref()?.own() {
        [first, last] => Some((first.stamp, last.stamp)),
        _ => None,
    }
}

#[test]
fn one_caller_waits_until_the_other_has_made_its_steps(rt: HostRuntime) -> Result<(), Fail> {
    let passes = two_callers::<LinkState, _>(&rt, rt.alloc())?;
    let [waits, goes] = passes.as_slice() else {
        return Err(Fail::from("two passes"));
    };
    assert!(rt; stamps(goes) == Some((1, 2)));
    assert!(rt; stamps(waits) == Some((3, 4)));
    Ok(())
}
