//! The run of a plan by its schedule, as it is asked about.
ghost use Rattle.std.specs.Prelude.{◌≡◌, IfOk, IfNone, reverse};
ghost use Rattle.call_script.specs.Tasks.{network_of};
ghost use Rattle.link_steps.specs.Lists.{Each};
ghost use Rattle.call_script.specs.Parts.{PlanParts as Parts};
ghost use Rattle.run_record.specs.Rows.{rows_of};
ghost use Rattle.run_engine.specs.schedules.Schedules.{IsPlayed};
ghost use Rattle.packet_answers.specs.Plays.{IsActorAmong, StandsAfter, run_in};

use crate::trouble::Trouble;
use call_script::{Do, Plan, Schedule};
use net_units::OutOfMemory;
use report_laws::every_tick_is_early;
use run_engine::{Callers, play_watched};
use run_record::{HopRows, Record};
use std::alloc::Global;

/// A run of a plan.
#[derive(Drop)]
pub struct Played {
    /// The callers after it.
    pub callers: Callers,
    /// Its entries.
    pub record: Record,
}

/// Plays a plan by a schedule. `Memory` comes only for want of memory, and `Step` where a line of the schedule asks for a step that isn't
/// left to its actor.
pub fn play(alloc: Global, plan: &Plan, schedule: &Schedule) -> Result<Played, Trouble>
    ensures stands { IfOk result (StandsAfter plan.now) }
    ensures played { IfOk result (λ played. IsPlayed (network_of plan.now) schedule.now (run_in played)) }
{
    if let Some(line) = line_of_stranger(plan.callers().len(), schedule.items.as_slice()) {
        return Err(Trouble::Step { line });
    }
    let mut record = Record::new(alloc);
    let callers = play_watched(alloc, plan, schedule, &mut record)?;
    Ok(Played { callers, record })
}

// The line of the first item whose actor is neither one of so many callers nor the plane. Such an actor has no step left.
fn line_of_stranger(callers: usize, items: &[Do]) -> Option<u64>
    ensures { IfNone result (Each (IsActorAmong callers) items.now) }
{
    for item in items {
        if usize::from(item.actor.get()) > callers {
            return Some(item.line);
        }
    }
    None
}

impl Played {
    /// One row for each departure of a packet, in the order of channel, packet and hop. An `Err` comes only for want of memory. It is a
    /// run of a plan.
    pub fn rows(&self, alloc: Global) -> Result<HopRows, OutOfMemory>
        requires { (parts : Parts) × StandsAfter parts self.now }
        ensures { IfOk result (λ rows. rows ≡ rows_of (reverse (run_in self.now))) }
    {
        every_tick_is_early();
        self.record.rows(alloc)
    }
}
