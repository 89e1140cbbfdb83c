//! What the one caller does.
ghost use Rattle.std.specs.Prelude.{◌≡◌, ◌∷◌, [], IfOk};
ghost use Rattle.call_script.specs.Parts.{openings_in};
ghost use Rattle.one_link_plans.specs.OneLink.{IsThatScript, OpensBoth};

use crate::parts::{channel, name, second_channel};
use call_script::{CallerEntry, Op, Ops};
use net_units::ChanNo;
use std::alloc::Global;
use std::test::Fail;

/// The caller that does this, of the group of this number, or of none where it is 0.
pub fn caller(group: u8, ops: Vec<Op>) -> Result<CallerEntry, Fail>
    ensures { IfOk result (λ made. made.ops ≡ ops.items) }
{
    Ok(CallerEntry {
        name: name("k1")?,
        group,
        ops: Ops::new(ops),
    })
}

/// It opens the first request.
#[tactic(auto, unfolding(call_script::specs::Parts::openings_in))]
pub fn opener(alloc: Global) -> Result<CallerEntry, Fail>
    ensures { IfOk result IsThatScript }
{
    caller(0, vec![in alloc; Op::Open(channel()?)]?)
}

/// It opens the first request, and sends this many packets of 2 units, one each ten ticks.
#[tactic(auto, unfolding(call_script::specs::Parts::openings_in))]
pub fn sender(alloc: Global, count: u64) -> Result<CallerEntry, Fail>
    ensures { IfOk result IsThatScript }
{
    let chan = channel()?;
    caller(
        0,
        vec![in alloc;
            Op::Open(chan),
            Op::Send {
                chan,
                count,
                gap: 10,
                size: 2
            },
        ]?,
    )
}

/// It opens both requests, sends this many such packets on the first channel, and moves those of the one channel to the other.
#[tactic(auto, unfolding(call_script::specs::Parts::openings_in))]
pub fn mover(alloc: Global, count: u64, old: ChanNo, new: ChanNo) -> Result<CallerEntry, Fail>
    ensures { IfOk result OpensBoth }
{
    let chan = channel()?;
    caller(
        0,
        vec![in alloc;
            Op::Open(chan),
            Op::Open(second_channel()?),
            Op::Send {
                chan,
                count,
                gap: 10,
                size: 2
            },
            Op::Move { old, new },
        ]?,
    )
}
