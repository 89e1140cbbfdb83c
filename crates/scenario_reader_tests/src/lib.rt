//! Tests of `scenario_reader`, in a crate of their own, so that its functions aren't proved again with them.
#![tactic(auto)]

#[cfg(test)]
mod auditing;
#[cfg(test)]
mod moves;
#[cfg(test)]
mod reading;
#[cfg(test)]
mod refusing;
#[cfg(test)]
mod writing;
