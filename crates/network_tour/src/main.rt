//! A tour of the crates as a library: a network of two links in a row, run by `Core` and then by `Network`.
//!
//! Either way a channel is set up over both links, two packets are sent on it, the plane makes its rounds, and the verdict and
//! the packets' delays are printed.
#![tactic(auto)]

pub mod by_core;
pub mod by_network;
pub mod parts;
pub mod told;

use net_units::OutOfMemory;
use scenario_reader::ReadRefusal;
use setup_protocol::Verdict;
use std::io;
use told::Told;

/// Why the tour ended early.
#[derive(Debug, Drop)]
pub enum Stopped {
    /// The scenario wasn't read.
    Unread(ReadRefusal),
    /// Out of memory.
    Memory(OutOfMemory),
    /// Standard output failed.
    Unwritten(io::Error),
}

fn main(rt: HostRuntime) -> Result<(), Stopped> {
    let by_core = by_core::run(rt.alloc()).map_err(Stopped::Unread)?;
    print(&rt, "Core", &by_core).map_err(Stopped::Unwritten)?;
    let by_network = by_network::run(&rt, rt.alloc()).map_err(Stopped::Memory)?;
    print(&rt, "Network", &by_network).map_err(Stopped::Unwritten)
}

// Prints what a run tells.
fn print(rt: &impl Print, name: &str, told: &Told) -> io::Result<()> {
    match told.verdict {
        Some(Verdict::Accepted { delay, .. }) => {
            println!(rt; "{name}: accepted with a bound of {delay} ticks")?;
        }
        Some(Verdict::Denied(_)) => println!(rt; "{name}: denied")?,
        None => println!(rt; "{name}: not settled")?,
    }
    for number in 1..3 {
        match told.delay(number) {
            Some(delay) => println!(rt; "{name}: packet {number} took {delay} ticks")?,
            None => println!(rt; "{name}: packet {number} is on its way")?,
        }
    }
    Ok(())
}
