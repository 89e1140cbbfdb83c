//! The schedule that a run has followed.
ghost use Rattle.std.specs.Prelude.{◌≡◌, ◌<◌, ◌^◌, ◌-◌, IfOk, OnOk, [], ◌∷◌, ◌++◌, length};
ghost use Rattle.run_engine.specs.schedules.Schedules.{turns_of};
ghost use Rattle.race_run.specs.Turns.{AreMaximalRuns, actors_of, ends_with};

use call_script::Do;
use net_units::{ActorNo, OutOfMemory};

// One more turn: in the last item, where that is of the actor, or else in an item of its own.
pub(crate) fn add_turn(items: &mut Vec<Do>, actor: ActorNo) -> Result<(), OutOfMemory>
    requires few { length (turns_of items.old.items) < 2 ^ 64 - 1 }
    ensures { OnOk result ((actors : _) → AreMaximalRuns actors items.old.items → AreMaximalRuns (actors ++ actor ∷ []) items.new.items) }
{
    if ends_with(items.as_slice(), actor) {
        let last = items.len() - 1;
        items[last].count += 1;
        return Ok(());
    }
    items.push(Do {
        line: 0,
        actor,
        count: 1,
    })?;
    Ok(())
}

// Whether the last item is of the actor.
fn ends_with(items: &[Do], actor: ActorNo) -> bool
    ensures { result ≡ ends_with actor items.now }
{
    match items.last() {
        Some(last) => last.actor.get() == actor.get(),
        None => false,
    }
}
