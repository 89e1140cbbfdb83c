//! The run of a plan without a schedule, and what its requests come to.
ghost use Rattle.std.specs.Prelude.{◌≡◌, ◌<◌, Some, IfOk, length, map, option_map};
ghost use Rattle.std.specs.List.{slice_get};
ghost use Rattle.net_units.specs.Numbers.{level_number};
ghost use Rattle.call_script.specs.declared.entries.RequestEntry.{RequestEntry as Asked};
ghost use Rattle.setup_protocol.specs.State.{outcome_of};
ghost use Rattle.plan_answers.specs.Trials.{IsTrial, is_acceptance_of, levels_offered, outcome_in, run_in};

use crate::offers::offers_among;
use call_script::{Dos, Plan, Schedule};
use net_units::{Level, OutOfMemory};
use run_engine::{Callers, PlayFault, play_watched};
use run_record::Record;
use setup_protocol::Verdict;
use std::alloc::Global;

/// A plan with its run without a schedule.
#[derive(Drop)]
pub struct Trial {
    /// The plan.
    pub plan: Plan,
    /// The callers after the run.
    pub callers: Callers,
    /// Its entries.
    pub record: Record,
}

impl Trial {
    /// Plays a plan. An `Err` comes only for want of memory.
    pub fn play(alloc: Global, plan: Plan) -> Result<Trial, OutOfMemory>
        ensures trial { IfOk result IsTrial }
        ensures plan { IfOk result (λ trial. trial.plan ≡ plan) }
    {
        let schedule = Schedule {
            written: false,
            items: Dos::new(Vec::new(alloc)),
        };
        let mut record = Record::new(alloc);
        match play_watched(alloc, &plan, &schedule, &mut record) {
            Ok(callers) => Ok(Trial {
                plan,
                callers,
                record,
            }),
            Err(PlayFault::Memory) => Err(OutOfMemory),
            Err(PlayFault::Step { .. }) => unreachable!(),
        }
    }

    /// What the request of this number has come to: None where its setup hasn't ended.
    pub fn verdict(&self, number: usize) -> Option<Verdict>
        requires trial { IsTrial self.now }
        requires inside { number < length self.now.plan.requests }
        ensures { (entry : Asked) → slice_get self.now.plan.requests number ≡ Some entry → option_map outcome_of result ≡ outcome_in (run_in self.now) entry.request }
    {
        self.callers.verdict(&self.plan, number)
    }

    /// The levels that the hops of the request of this number have offered, from the first hop on.
    pub fn offers(&self, alloc: Global, number: usize) -> Result<Vec<Level>, OutOfMemory>
        requires inside { number < length self.now.plan.requests }
        ensures { IfOk result (λ levels. (entry : Asked) → slice_get self.now.plan.requests number ≡ Some entry → map level_number levels.items ≡ levels_offered (run_in self.now) entry.request) }
    {
        let entry = &self.plan.requests()[number];
        offers_among(alloc, self.record.entries(), entry.request.chan)
    }
}

/// Whether a verdict is there, and accepts the request.
pub fn is_acceptance(verdict: &Option<Verdict>) -> bool
    ensures { result ≡ is_acceptance_of verdict.now }
{
    match verdict {
        Some(verdict) => verdict.is_accepted(),
        None => false,
    }
}
