//! The plan of a design.
ghost use Rattle.std.specs.Prelude.{◌≡◌, IfOk};
ghost use Rattle.design_file.specs.Planned.{IsPlanOf};

use crate::callers::{Called, callers_of};
use crate::links::link_entries;
use crate::misfits::misfits;
use crate::refusal::{Refusal, Wrong, wanted};
use crate::requests::request_entries;
use crate::times::CallerTimes;
use call_script::{BadPlan, Plan, Version};
use design_text::{BadDesign, Design, DesignStream, Mistake, Mistakes, Place, Way};
use field_units::Scale;
use std::alloc::{AllocError, Global};

/// The plan of a design, and when its callers make their operations.
#[derive(Drop)]
pub struct DesignPlan {
    pub plan: Plan,
    /// For each caller the tick of each of its operations, in their order.
    pub times: Vec<CallerTimes>,
}

/// The plan of a design at this tick and unit: its links and streams, each number rounded to the safe side. An `Err` that isn't for want of
/// memory tells every number and route for which the plan has none.
pub fn plan_of(alloc: Global, scale: &Scale, design: &Design) -> Result<DesignPlan, BadDesign>
    ensures { IfOk result (λ made. IsPlanOf scale.now.tick scale.now.unit design.now made.plan) }
{
    let told = misfits(alloc, scale, design)?;
    if !told.is_empty() {
        return Err(BadDesign::Mistakes(told.into_list(&design.files)?));
    }
    match made(alloc, scale, design) {
        Ok(made) => Ok(made),
        Err(refusal) => Err(whole(alloc, &refusal, design)),
    }
}

// The plan, where nothing is wrong with any one link or stream.
fn made(alloc: Global, scale: &Scale, design: &Design) -> Result<DesignPlan, Refusal>
    ensures { IfOk result (λ made. IsPlanOf scale.now.tick scale.now.unit design.now made.plan) }
{
    let version = version_of(design);
    let links = link_entries(alloc, scale, version.test(), &design.links)?;
    let requests = request_entries(alloc, scale, &links, &design.streams)?;
    let called = callers_of(alloc, scale, design, &links, &requests)?;
    let groups = design.groups.clone()?;
    let rounds = rounds_in(scale, design);
    let Called { callers, times } = called;
    let plan = Plan::new(alloc, version, links, groups, requests, callers, rounds, 0)?;
    Ok(DesignPlan { plan, times })
}

/// The version whose forms the design needs.
fn version_of(design: &Design) -> Version {
    if !design.groups.is_empty() {
        Version::Five
    } else if design.streams.iter().any(is_found) {
        Version::Four
    } else if design.links.iter().any(|link| link.best > 0) {
        Version::Three
    } else if design.is_whole_test {
        Version::One
    } else {
        Version::Two
    }
}

/// Whether a stream's route is found.
fn is_found(stream: &DesignStream) -> bool {
    matches!(stream.way, Way::Between(..))
}

/// The rounds that the network runs, rounded up.
pub(crate) fn rounds_in(scale: &Scale, design: &Design) -> u64 {
    let tick = scale.tick().picoseconds.max(1);
    design.run.picoseconds.div_ceil(tick)
}

/// What is wrong with the design as a whole.
fn whole(alloc: Global, refusal: &Refusal, design: &Design) -> BadDesign {
    match told_of(alloc, refusal, design) {
        Ok(list) => BadDesign::Mistakes(list),
        Err(_) => BadDesign::Memory,
    }
}

/// A refusal, as the one mistake of a design.
fn told_of(alloc: Global, refusal: &Refusal, design: &Design) -> Result<Vec<Mistake>, AllocError> {
    let mut told = Mistakes::new(alloc);
    let wanted = match refusal {
        Refusal::Memory => return Err(AllocError),
        Refusal::Misfit { .. } => "a number has none in the scenario",
        Refusal::Wrong(wrong) => wanted(*wrong),
    };
    told.tell_at(TOP, wanted)?;
    told.into_list(&design.files)
}

/// The top of the file.
const TOP: Place = Place { file: 0, line: 1 };

impl From<BadPlan> for Refusal {
    fn from(bad: BadPlan) -> Refusal {
        match bad {
            BadPlan::Memory => Refusal::Memory,
            BadPlan::Broken { rule } => Refusal::Wrong(Wrong::Rule(rule)),
        }
    }
}
