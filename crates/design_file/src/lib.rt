//! From a design in the numbers of the field to the plan of a run.
//!
//! [`plan_of`] rounds each number of a design to the safe side, at the design's tick and unit, and makes the plan, or tells every number for
//! which the scenario has none, with the tick that would do. [`write_design`] writes the plan's scenario, and [`timed_text`] makes that of a plan
//! whose streams come and go.
#![tactic(auto)]

mod callers;
mod later;
pub mod links;
mod loads;
mod misfits;
mod nodes;
pub mod plan;
pub mod quotas;
pub mod refusal;
pub mod requests;
pub mod terms;
pub mod text;
pub mod timed;
pub mod times;
pub mod ways;

pub use design_text::{BadDesign, Design, File, Mistake, read_design};
pub use plan::{DesignPlan, plan_of};
pub use text::write_design;
pub use timed::timed_text;
pub use times::{CallerTimes, OpTime};
