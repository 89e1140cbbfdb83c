//! What the callers of a network do: the plan of a run, and each caller's script, asked one step at a time.
//!
//! A plan names the links of the network and how they are split between groups, the requests for channels, the callers with their
//! groups and their operations in order, and how many rounds the plane makes. [`Plan::new`] makes one only of parts that keep the
//! rules of the scenario's language. An [`Actor`] goes through the script of one caller: what it asks next follows from the replies
//! that it has got so far. Times are in ticks, sizes in units.
#![tactic(auto)]

pub mod actor;
pub(crate) mod attributes;
pub mod channels;
pub mod entries;
pub mod laws;
pub mod moves;
pub mod operations;
pub(crate) mod parts;
pub mod plan;
pub mod quotas;
pub mod roles;
pub(crate) mod rules;
pub mod schedule;
pub mod tasks;
pub mod version;
pub(crate) mod work;

pub use actor::Actor;
pub use channels::{Channel, Channels};
pub use entries::{CallerEntry, LinkEntry, RequestEntry, actor_name, push_request};
pub use moves::may_move;
pub use operations::{Op, Ops};
pub use plan::{BadPlan, Plan};
pub use quotas::Quotas;
pub use roles::Role;
pub use schedule::{Do, Dos, Schedule};
pub use tasks::Task;
pub use version::Version;
