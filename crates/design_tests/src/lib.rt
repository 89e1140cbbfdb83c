//! Tests of `field_units`, `design_text`, `design_scale` and `design_file`,
//! in a crate of their own, so that no function of those is proved again with them, and in one, so that what they stand on is read once.
#![tactic(auto)]

#[cfg(test)]
mod designs;
#[cfg(test)]
mod networks;
#[cfg(test)]
mod refusing;
#[cfg(test)]
mod scales;
#[cfg(test)]
mod texts;
#[cfg(test)]
mod units;
#[cfg(test)]
mod written;
