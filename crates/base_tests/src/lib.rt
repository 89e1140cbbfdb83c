//! Tests of small crates, a module for each: in a crate of their own, so that no function of those is proved again with them, and in one, so
//! that what they stand on is read once.
#![tactic(auto)]

#[cfg(test)]
mod allotments;
#[cfg(test)]
mod audits;
#[cfg(test)]
mod budgets;
#[cfg(test)]
mod contracts;
#[cfg(test)]
mod due;
#[cfg(test)]
mod ends;
#[cfg(test)]
mod holds;
#[cfg(test)]
mod hops;
#[cfg(test)]
mod lines;
#[cfg(test)]
mod loads;
#[cfg(test)]
mod moves;
#[cfg(test)]
mod numbers;
#[cfg(test)]
mod queues;
#[cfg(test)]
mod records;
#[cfg(test)]
mod regulators;
#[cfg(test)]
mod routes;
#[cfg(test)]
mod setups;
#[cfg(test)]
mod shapes;
#[cfg(test)]
mod stamps;
#[cfg(test)]
mod sums;
#[cfg(test)]
mod variants;
