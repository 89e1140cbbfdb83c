//! Tests of `interleave_core`, `load_maker`, `trace_audit` and `channel_report`, in a crate of their own, so that no function of those is
//! proved again with them, and in one, so that what they stand on is read once.
#![tactic(auto)]

#[cfg(test)]
mod audits;
#[cfg(test)]
mod cores;
#[cfg(test)]
mod loads;
#[cfg(test)]
mod reports;
