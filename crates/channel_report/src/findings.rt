//! What a report tells of a run, before it is put into words.
ghost use Rattle.std.specs.Prelude.{◌≡◌, List, IfOk, reverse};
ghost use Rattle.run_record.specs.declared.done.Done.{Done as Step};
ghost use Rattle.channel_report.specs.Findings.{AreFound};
ghost use Rattle.channel_report.specs.Tallied.{IsTalliedRun};

use crate::channel_tally::ChannelTally;
use crate::delay_tally::DelayTally;
use crate::flow::delays_of;
use crate::link_tally::LinkTally;
use crate::tally::Tally;
use call_script::Plan;
use net_units::OutOfMemory;
use run_engine::Callers;
use run_record::HopRows;
use std::alloc::Global;

// What was found of a run.
#[derive(Drop)]
pub(crate) struct Findings {
    // The callers after it.
    pub(crate) callers: Callers,
    // The counts of the links, by their numbers.
    pub(crate) links: Vec<LinkTally>,
    // What is kept of the sources of the requests' channels, by their numbers.
    pub(crate) channels: Vec<ChannelTally>,
    // The delays of the requests' channels, by their numbers.
    pub(crate) delays: Vec<DelayTally>,
    // Whether its rows are wanted.
    pub(crate) packets: bool,
    // Its rows, in their order, if these are wanted.
    pub(crate) rows: HopRows,
    // How many steps it has.
    pub(crate) steps: usize,
}

impl Findings {
    // What is to be told of a run of this plan, by its tally and the callers after it.
    pub(crate) fn new(
        alloc: Global,
        plan: &Plan,
        callers: Callers,
        tally: Tally,
    ) -> Result<Findings, OutOfMemory>
        ensures found { IfOk result (λ findings. (run : List Step) → IsTalliedRun plan.now callers tally run → AreFound plan.now (reverse run) findings) }
        ensures packets { IfOk result (λ findings. findings.packets ≡ tally.packets) }
    {
        // what this knows of the plan is what is to be shown
        let _requests = plan.requests();
        let Tally {
            packets,
            links,
            channels,
            flows,
            hops,
            rows,
            steps,
            ..
        } = tally;
        let rows = hops.in_order(rows)?;
        let delays = delays_of(alloc, flows.as_slice())?;
        Ok(Findings {
            callers,
            links,
            channels,
            delays,
            packets,
            rows,
            steps,
        })
    }
}
