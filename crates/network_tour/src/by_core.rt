//! The network by `Core`: one value has its links, its actors and the record of the run, and whoever holds it makes the steps.
ghost use Rattle.interleave_core.specs.Cores.{CoreStands};

use crate::told::{Told, note};
use byte_ends::SureSource;
use call_script::Plan;
use interleave_core::Core;
use link_steps::Sent;
use net_units::{ActorNo, OutOfMemory};
use run_engine::replay;
use scenario_reader::{ReadRefusal, read_plan};
use std::alloc::Global;

/// Two links in a row, and a caller that opens a channel over both and sends two packets on it.
pub const SCENARIO: &[u8] = b"tenet 1
link A n1 n2 rate 1 cap 4 prop 2 buffer 100 levels 10 20 40
link B n2 n3 rate 1 cap 4 prop 2 buffer 100 levels 10 20 40
caller k
open video route A B contract 5 10 20 2 delay 50 rate
send video 2 10 2
rounds 50
tail 0
";

/// Runs the scenario. An `Err` comes only for want of memory, or if the scenario weren't one.
pub fn run(alloc: Global) -> Result<Told, ReadRefusal> {
    let mut source = source(alloc)?;
    let (plan, _schedule) = read_plan(alloc, &mut source)?;
    Ok(make(alloc, &plan)?)
}

// The scenario's bytes, of which a read gets up to 4,096. Standard input would be another source.
fn source(alloc: Global) -> Result<SureSource, OutOfMemory> {
    Ok(SureSource::new(Vec::from_slice(alloc, SCENARIO)?, 4_096))
}

// Makes a run of the plan. The caller has all its steps before the plane here, but any order of the two makes a run.
fn make(alloc: Global, plan: &Plan) -> Result<Told, OutOfMemory> {
    let mut sents = Vec::new(alloc);
    let mut core = Core::new(alloc, plan)?;
    step_out(&mut core, plan, ActorNo::new(0).unwrap(), &mut sents)?;
    step_out(&mut core, plan, ActorNo::new(1).unwrap(), &mut sents)?;
    let callers = replay(alloc, plan, &core.finish())?;
    let verdict = match plan.requests() {
        [] => None,
        _ => callers.verdict(plan, 0),
    };
    Ok(Told { verdict, sents })
}

// Lets the actor make its steps until it has none left, and notes what their replies tell.
fn step_out(
    core: &mut Core,
    plan: &Plan,
    actor: ActorNo,
    sents: &mut Vec<Sent>,
) -> Result<(), OutOfMemory>
    requires { CoreStands plan.now core.old }
    ensures { CoreStands plan.now core.new }
{
    while core.has_step(plan, actor) {
        let Ok(reply) = core.step(plan, actor) else {
            return Err(OutOfMemory);
        };
        note(sents, &reply)?;
    }
    Ok(())
}
