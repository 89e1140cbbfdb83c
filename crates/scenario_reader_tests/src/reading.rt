//! Scenarios that are read, and written again.
//!
//! What reading ensures is long, and so is what a plan keeps true; each step of a proof puts what is known into its facts. So few functions
//! read, each in a few steps, and the parts of a plan are compared where the plan isn't known.
ghost use Rattle.std.specs.Prelude.{◌≤◌};

use byte_ends::{MemSink, MemSource};
use call_script::{Do, Dos, LinkEntry, Op, Plan, RequestEntry, Schedule, Version};
use link_steps::Quota;
use net_units::{ChanNo, LinkNo};
use scenario_reader::{ReadRefusal, read_plan, write_plan};
use setup_protocol::Control;
use std::alloc::Global;
use std::process::Abort;
use std::test::Fail;

// A scenario with every form.
const WHOLE: &str = "# a network of two links

tenet 3
link A n1 n2 rate 1 cap 4 prop 2 buffer 100 best 3 levels 10 20 40
link B n2 n3 rate 2 cap 4 prop 0 buffer 0 levels 5
caller k1
open r1 route A B contract 5 10 20 2 delay 50 jitter 15
send r1 3 10 2
pour A 2 1 4
close r1
caller k2
# requests of another caller
open r2 route B contract 5 10 20 2 delay 12 rate
rounds 70
tail 5
schedule
do k2 2
do plane 10
";

// What is read of a text by a source that gives at most this many bytes at a time.
pub(crate) fn read(
    alloc: Global,
    text: &str,
    most: usize,
) -> Result<Result<(Plan, Schedule), ReadRefusal>, Fail>
    requires { 1 ≤ most }
{
    let bytes = Vec::from_slice(alloc, text.as_bytes())?;
    let mut source = MemSource::new(bytes, most, Vec::new(alloc));
    Ok(read_plan(alloc, &mut source))
}

// The plan and the schedule of a text.
pub(crate) fn planned(alloc: Global, text: &str) -> Result<(Plan, Schedule), Fail> {
    Ok(read(alloc, text, 7)??)
}

// The text of a plan without a schedule.
pub(crate) fn writes<R: Abort>(rt: &R, alloc: Global, plan: &Plan, text: &str) -> Result<(), Fail> {
    let schedule = Schedule {
        written: false,
        items: Dos::new(Vec::new(alloc)),
    };
    let mut sink = MemSink::new(alloc, 1_000, 50, Vec::new(alloc))?;
    write_plan(alloc, plan, &schedule, &mut sink)?;
    assert_eq!(rt; sink.bytes(), text.as_bytes());
    Ok(())
}

// Whether a link has this number, these names, and this rate, buffer and room for best-effort packets.
fn is_link(entry: &LinkEntry, number: u8, names: [&str; 3], sizes: [u32; 3]) -> bool {
    entry.shape.link.get() == number
        && [entry.name.as_str(), entry.from.as_str(), entry.to.as_str()] == names
        && [entry.shape.rate, entry.shape.buffer, entry.shape.best] == sizes
}

fn are_links(links: &[LinkEntry]) -> bool {
    match links {
        [first, second] => {
            is_link(first, 0, ["A", "n1", "n2"], [1, 100, 3])
                && is_link(second, 1, ["B", "n2", "n3"], [2, 0, 0])
        }
        _ => false,
    }
}

// Whether a request has this name, is opened by this caller, goes over this many links, within this delay, and has this control.
fn is_request(
    entry: &RequestEntry,
    name: &str,
    caller: u8,
    links: u8,
    delay: u64,
    control: Control,
) -> bool {
    entry.name.as_str() == name
        && entry.caller.get() == caller
        && entry.request.route.len() == links
        && entry.request.delay == delay
        && entry.request.control == control
}

fn are_requests(requests: &[RequestEntry]) -> bool {
    match requests {
        [first, second] => {
            is_request(first, "r1", 0, 2, 50, Control::Jitter(15))
                && is_request(second, "r2", 1, 1, 12, Control::Rate)
        }
        _ => false,
    }
}

#[test]
fn links_and_requests_have_what_their_lines_say(rt: HostRuntime) -> Result<(), Fail> {
    let (plan, _) = planned(rt.alloc(), WHOLE)?;
    assert!(rt; plan.version() == Version::Three);
    assert!(rt; (plan.rounds(), plan.tail()) == (70, 5));
    assert!(rt; are_links(plan.links()));
    assert!(rt; are_requests(plan.requests()));
    Ok(())
}

// What the first caller does.
fn first_script(chan: ChanNo, link: LinkNo) -> [Op; 4] {
    [
        Op::Open(chan),
        Op::Send {
            chan,
            count: 3,
            gap: 10,
            size: 2,
        },
        Op::Pour {
            link,
            count: 2,
            gap: 1,
            size: 4,
        },
        Op::Close(chan),
    ]
}

#[test]
fn callers_have_their_operations(rt: HostRuntime) -> Result<(), Fail> {
    let (plan, _) = planned(rt.alloc(), WHOLE)?;
    let [first, second] = plan.callers() else {
        return Err(Fail::from("other callers"));
    };
    assert!(rt; (first.name.as_str(), second.name.as_str()) == ("k1", "k2"));
    assert!(rt; second.ops.as_slice().len() == 1);
    let chan = ChanNo::new(0).ok_or("channel")?;
    let link = LinkNo::new(0).ok_or("link")?;
    assert!(rt; first.ops.as_slice() == first_script(chan, link).as_slice());
    Ok(())
}

// Whether these are the line, the actor and the count of an item.
fn is_item(item: &Do, line: u64, actor: u8, count: u64) -> bool {
    (item.line, item.actor.get(), item.count) == (line, actor, count)
}

#[test]
fn items_have_the_numbers_of_their_lines(rt: HostRuntime) -> Result<(), Fail> {
    let (_, schedule) = planned(rt.alloc(), WHOLE)?;
    assert!(rt; schedule.written);
    let [first, second] = schedule.items.as_slice() else {
        return Err(Fail::from("other items"));
    };
    assert!(rt; is_item(first, 17, 1, 2));
    assert!(rt; is_item(second, 18, 2, 10));
    Ok(())
}

// A scenario with groups, two of whose quotas are of one link, and with a move.
const SPLIT: &str = "tenet 6
link A n1 n2 rate 1 cap 4 prop 2 buffer 100 levels 10 20 40
link B n2 n3 rate 1 cap 4 prop 2 buffer 100 levels 10
group g1
group g2
quota A g2 buffer 50 levels 2 8 16
quota A g1 buffer 50 levels 4 8 20
quota B g1 buffer 0 levels 6
caller k1 group g2
caller k2
open r1 route A contract 5 10 20 2 delay 12 rate
open r2 route A contract 5 10 20 2 delay 50 jitter 20
send r1 3 10 2
move r1 r2
close r1
rounds 0
tail 0
";

fn share(group: u8, buffer: u32, levels: [u32; 8]) -> Quota {
    Quota {
        group,
        buffer,
        levels,
    }
}

// The quotas of the links, in the order of their lines.
fn have_quotas(links: &[LinkEntry]) -> bool {
    let shares = [
        share(2, 50, [2, 8, 16, 0, 0, 0, 0, 0]),
        share(1, 50, [4, 8, 20, 0, 0, 0, 0, 0]),
    ];
    let share = [share(1, 0, [6, 0, 0, 0, 0, 0, 0, 0])];
    match links {
        [first, second] => {
            first.quotas.as_slice() == shares.as_slice()
                && second.quotas.as_slice() == share.as_slice()
        }
        _ => false,
    }
}

#[test]
fn groups_quotas_and_moves_are_read_and_written_again(rt: HostRuntime) -> Result<(), Fail> {
    let alloc = rt.alloc();
    let (plan, _) = planned(alloc, SPLIT)?;
    assert!(rt; plan.groups().len() == 2);
    assert!(rt; have_quotas(plan.links()));
    let [first, second] = plan.callers() else {
        return Err(Fail::from("other callers"));
    };
    assert!(rt; (first.group, second.group) == (2, 0));
    writes(&rt, alloc, &plan, SPLIT)
}

// Five links, and an open between two of their nodes.
pub(crate) fn five_links(
    alloc: Global,
    version: &str,
    direct: u32,
    way: &str,
) -> Result<String, Fail> {
    Ok(format!(in alloc;
        "tenet {version}
link A n1 n2 rate 1 cap 4 prop 2 buffer 100 levels 10 20 40
link B n2 n4 rate 1 cap 4 prop 2 buffer 100 levels 10 20 40
link C n1 n3 rate 1 cap 4 prop 1 buffer 100 levels 10 20 40
link D n3 n4 rate 1 cap 4 prop 3 buffer 100 levels 10 20 40
link E n1 n4 rate 1 cap 4 prop {direct} buffer 100 levels 10 20 40
caller k1
open r1 {way} contract 5 10 20 2 delay 50 rate
rounds 0
tail 0
"
    )?)
}

// The links of the first request's route.
fn first_route(alloc: Global, text: &str) -> Result<Vec<u8>, Fail> {
    let (plan, _) = planned(alloc, text)?;
    let mut links = Vec::new(alloc);
    if let [entry, ..] = plan.requests() {
        for place in 1..=entry.request.route.len() {
            links.push(entry.request.route.hop(place).link.get())?;
        }
    }
    Ok(links)
}

// Whether an open between the nodes has a route over these links, where the direct one has this propagation.
fn goes_over(alloc: Global, direct: u32, way: &str, links: &[u8]) -> Result<bool, Fail> {
    let text = five_links(alloc, "4", direct, way)?;
    let found = first_route(alloc, text.as_str())?;
    Ok(found.as_slice() == links)
}

#[test]
fn a_route_is_found_between_two_nodes(rt: HostRuntime) -> Result<(), Fail> {
    let alloc = rt.alloc();
    assert!(rt; goes_over(alloc, 5, "from n1 to n4", &[0, 1])?);
    assert!(rt; goes_over(alloc, 4, "from n1 to n4", &[4])?);
    assert!(rt; goes_over(alloc, 4, "route C D", &[2, 3])?);
    Ok(())
}
