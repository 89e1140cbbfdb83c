//! Quiet rounds, spelled out step by step.
ghost use Rattle.std.specs.Prelude.{◌≡◌, ◌+◌, ◌^◌, ◌<◌, ◌≤◌, OnOk, reverse};
ghost use Rattle.call_script.specs.Tasks.{network_of};
ghost use Rattle.run_engine.specs.schedules.Quiet.{quiet_round, quiet_rounds, quiet_step, the_plane};

use crate::actors::actor_of;
use call_script::Plan;
use link_steps::{Ask, Reply};
use net_units::{ActorNo, LinkNo, OutOfMemory};
use run_record::{Done, Record};

/// The plane of a plan.
pub fn plane_of(plan: &Plan) -> ActorNo
    ensures { result ≡ the_plane (network_of plan.now) }
{
    actor_of(plan.callers().len())
}

// Records this many quiet rounds of the plane over these links, from the first on.
pub(crate) fn record_rounds(
    kept: &mut Record,
    plane: ActorNo,
    links: u32,
    first: u64,
    rounds: u64,
) -> Result<(), OutOfMemory>
    requires links { links ≤ 32 }
    requires rounds { first + rounds < 2 ^ 64 }
    ensures { OnOk result (reverse kept.new.entries ≡ quiet_rounds plane links first rounds (reverse kept.old.entries)) }
{
    for passed in 0..rounds {
        record_round(kept, plane, links, first + passed)?;
    }
    Ok(())
}

// Records one of them.
fn record_round(
    kept: &mut Record,
    plane: ActorNo,
    links: u32,
    round: u64,
) -> Result<(), OutOfMemory>
    requires { links ≤ 32 }
    ensures { OnOk result (reverse kept.new.entries ≡ quiet_round plane round links (reverse kept.old.entries)) }
{
    for number in 0..links {
        kept.reserve(1)?;
        kept.push(quiet_tick(plane, number, round));
    }
    Ok(())
}

// The tick that a link makes in it.
fn quiet_tick(plane: ActorNo, number: u32, round: u64) -> Done
    requires { number < 32 }
    ensures { result ≡ quiet_step plane round number }
{
    Done {
        actor: plane,
        link: LinkNo::numbered(number),
        ask: Ask::Tick,
        reply: Reply::Ticked {
            clock: round,
            full: 0,
            sent: None,
            best_sent: false,
            best_lost: false,
        },
    }
}
