//! Tests of `shared_network`, in a crate of their own, so that its functions aren't proved again with them.
#![tactic(auto)]

#[cfg(test)]
mod calls;
#[cfg(test)]
mod closing;
#[cfg(test)]
mod moves;
#[cfg(test)]
mod networks;
#[cfg(test)]
mod races;
#[cfg(test)]
mod rounds;
