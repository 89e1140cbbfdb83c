//! A benchmark of links behind locks: `lock_bench THREADS TICKS` makes TICKS ticks of one link with each of 1 to 65 threads,
//! and prints how many entries the link's journal has. With 0 threads a link without a lock makes the ticks. `bench/locks`
//! times it.
#![tactic(auto)]

ghost use Rattle.std.specs.Prelude.{◌≤◌, IfOk, IfSome};

pub mod opening;
pub mod ticking;

use link_steps::{Ask, LinkStep};
use opening::{link, ticked};
use std::alloc::Global;
use std::process::ExitCode;
use std::rt::Env;
use std::{env, io};

// The most threads, and the most ticks of each.
const MOST_THREADS: u64 = 65;

const MOST_TICKS: u64 = 1_000_000_000;

fn main(rt: HostRuntime) -> ExitCode {
    let alloc = rt.alloc();
    let (threads, ticks) = match read_words(&rt) {
        Ok(Some(words)) => words,
        _ => return ExitCode::from(2),
    };
    let made = if threads == 0 {
        plain_ticks(alloc, ticks)
    } else {
        ticked(&rt, alloc, threads, ticks).map(|journal| journal.entries.as_slice().len())
    };
    let Some(made) = made else {
        return ExitCode::FAILURE;
    };
    match println!(rt; "{made}") {
        Ok(()) => ExitCode::SUCCESS,
        Err(_) => ExitCode::FAILURE,
    }
}

// The number of threads and of ticks, where these are the words after the program's name.
fn read_words(rt: &(impl Env + AllocGlobal)) -> io::Result<Option<(u32, u64)>>
    ensures { IfOk result (λ words. IfSome words (λ w. (w.0 ≤ 65) × (w.1 ≤ 1000000000))) }
{
    let mut numbers = (0, 0);
    let mut count = 0_u64;
    for word in env::args(rt)?.skip(1) {
        let Ok(number) = word.parse::<u64>() else {
            return Ok(None);
        };
        numbers = (numbers.1, number);
        count = count.saturating_add(1);
    }
    if count == 2 && numbers.0 <= MOST_THREADS && numbers.1 <= MOST_TICKS {
        Ok(Some((numbers.0 as u32, numbers.1)))
    } else {
        Ok(None)
    }
}

// Ticks of a link without a lock.
fn plain_ticks(alloc: Global, ticks: u64) -> Option<usize> {
    let mut link = link(alloc)?;
    let mut made = 0_usize;
    for _ in 0..ticks {
        if link.clock() >= 1 << 61 {
            return None;
        }
        link.step(&Ask::Tick).ok()?;
        made = made.saturating_add(1);
    }
    Some(made)
}
