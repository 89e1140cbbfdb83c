//! Tests of `link_server`, `link_quota` and `tick_plane`, in a crate of their own, so that no function of those is proved again with them, and in
//! one, so that what they stand on is read once.
#![tactic(auto)]

#[cfg(test)]
mod quota;
#[cfg(test)]
mod rounds;
#[cfg(test)]
mod server;
