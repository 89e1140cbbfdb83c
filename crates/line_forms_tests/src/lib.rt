//! Tests of `line_forms`, in a crate of their own, so that its functions aren't proved again with them.
#![tactic(auto)]

#[cfg(test)]
mod known;
#[cfg(test)]
mod tests;
