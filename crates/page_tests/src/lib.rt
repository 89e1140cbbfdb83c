//! Tests of `answer_grids`, `svg_charts`, `network_pictures`, `network_pages`, `page_builder` and `page_packets`,
//! in a crate of their own, so that no function of those is proved again with them, and in one, so that what they stand on is read once.
#![tactic(auto)]

#[cfg(test)]
mod building;
#[cfg(test)]
mod charts;
#[cfg(test)]
mod grids;
#[cfg(test)]
mod packets;
#[cfg(test)]
mod pages;
#[cfg(test)]
mod pictures;
