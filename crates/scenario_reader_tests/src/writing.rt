//! The texts of plans over one link, as they are written by hand.
ghost use Rattle.std.specs.Prelude.{◌≡◌, IfOk};
ghost use Rattle.net_units.specs.Numbers.{channel_number};
ghost use Rattle.one_link_plans.specs.OneLink.{IsThatScript};

use crate::reading::writes;
use byte_ends::MemSink;
use call_script::{CallerEntry, Do, Dos, Op, Schedule, Version};
use net_units::{ActorNo, ChanNo, LinkNo};
use one_link_plans::{caller, link, opened, plan, request};
use scenario_reader::write_plan;
use setup_protocol::Control;
use std::alloc::Global;
use std::test::Fail;
use traffic_contract::Test;

// A caller that opens the request, sends on it, pours, and closes it.
#[tactic(auto, unfolding(call_script::specs::Parts::openings_in))]
fn busy_caller(alloc: Global, chan: ChanNo, link: LinkNo) -> Result<CallerEntry, Fail>
    requires { channel_number chan ≡ 0 }
    ensures { IfOk result IsThatScript }
{
    let (count, gap, size) = (3, 10, 2);
    let ops = vec![in alloc;
        Op::Open(chan),
        Op::Send {
            chan,
            count,
            gap,
            size
        },
        Op::Pour {
            link,
            count,
            gap,
            size
        },
        Op::Close(chan),
    ]?;
    caller(0, ops)
}

#[test]
fn a_plan_of_one_link_has_six_lines(rt: HostRuntime) -> Result<(), Fail> {
    let alloc = rt.alloc();
    let plan = opened(alloc, 0)?;
    let text = "tenet 1
link A n1 n2 rate 1 cap 4 prop 2 buffer 100 levels 10 20 40
caller k1
open r1 route A contract 5 10 20 2 delay 12 rate
rounds 0
tail 0
";
    writes(&rt, alloc, &plan, text)
}

#[test]
fn a_plan_with_every_form_has_each_line(rt: HostRuntime) -> Result<(), Fail> {
    let alloc = rt.alloc();
    let link = link(alloc, Test::Least, 7)?;
    let request = request(Control::Jitter(15), Some((link.from, link.to)))?;
    let busy = busy_caller(alloc, request.request.chan, link.shape.link)?;
    let groups = Vec::new(alloc);
    let plan = plan(alloc, Version::Four, link, groups, request, busy, 30)??;
    let (line, count) = (0, 2);
    let (first, second) = (
        ActorNo::new(0).ok_or("k1")?,
        ActorNo::new(1).ok_or("plane")?,
    );
    let items = vec![in alloc;
        Do {
            line,
            actor: first,
            count
        },
        Do {
            line,
            actor: second,
            count
        },
    ]?;
    let schedule = Schedule {
        written: true,
        items: Dos::new(items),
    };
    let mut sink = MemSink::new(alloc, 1_000, 50, Vec::new(alloc))?;
    assert_eq!(rt; write_plan(alloc, &plan, &schedule, &mut sink), Ok(()));
    let text = "tenet 4
link A n1 n2 rate 1 cap 4 prop 2 buffer 100 best 7 levels 10 20 40
caller k1
open r1 from n1 to n2 contract 5 10 20 2 delay 12 jitter 15
send r1 3 10 2
pour A 3 10 2
close r1
rounds 30
tail 0
schedule
do k1 2
do plane 2
";
    assert_eq!(rt; sink.bytes(), text.as_bytes());
    Ok(())
}
