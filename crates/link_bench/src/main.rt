//! A benchmark of one link alone, without a network and without a record of what it does: `link_bench WORK CHANNELS TIMES`
//! gives new links the work of this name, one after the other, and prints how many channels they accepted and how many packets
//! departed; `link_bench split WORK CHANNELS TIMES` gives it links that are split, for one group. `bench/link` times it.
#![tactic(auto)]

ghost use Rattle.std.specs.Prelude.{◌≤◌, IfOk, IfSome};

pub mod link;
pub mod split;
pub mod work;

use link::{work_through, work_through_split};
use std::alloc::Global;
use std::process::ExitCode;
use std::rt::Env;
use std::{env, io};
use work::{Made, Work};

// The most channels, and the most links.
const MOST_CHANNELS: u64 = 1_024;

const MOST_TIMES: u64 = 1_000_000;

// What the words after the program's name ask for.
#[derive(Clone, Copy)]
struct Words {
    split: bool,
    work: Work,
    channels: u32,
    times: u64,
}

fn main(rt: HostRuntime) -> ExitCode {
    let words = match read_words(&rt) {
        Ok(Some(words)) => words,
        _ => return ExitCode::from(2),
    };
    let Some(made) = work_times(rt.alloc(), &words) else {
        return ExitCode::FAILURE;
    };
    match println!(rt; "accepted {} departed {}", made.accepted, made.departed) {
        Ok(()) => ExitCode::SUCCESS,
        Err(_) => ExitCode::FAILURE,
    }
}

// The work, the number of channels, and that of links, where these are the words after the program's name; a word before
// them may say that the links are split.
fn read_words(rt: &(impl Env + AllocGlobal)) -> io::Result<Option<Words>> {
    let mut split = false;
    let mut work = None;
    let mut numbers = (0, 0);
    let mut count = 0_u64;
    for word in env::args(rt)?.skip(1) {
        if count == 0 && !split && word.as_str() == "split" {
            split = true;
            continue;
        }
        if count == 0 {
            work = Work::named(&word);
        } else {
            let Ok(number) = word.parse::<u64>() else {
                return Ok(None);
            };
            numbers = (numbers.1, number);
        }
        count = count.saturating_add(1);
    }
    match work {
        Some(work) if count == 3 && numbers.0 <= MOST_CHANNELS && numbers.1 <= MOST_TIMES => Ok(
            Some(Words {
                split,
                work,
                channels: numbers.0 as u32,
                times: numbers.1,
            }),
        ),
        _ => Ok(None),
    }
}

// What this many links make of the work, in all.
fn work_times(alloc: Global, words: &Words) -> Option<Made> {
    let mut made = Made::default();
    for _ in 0..words.times {
        let by_one = if words.split {
            work_through_split(alloc, &words.work, words.channels)?
        } else {
            work_through(alloc, &words.work, words.channels)?
        };
        made = made.and(&by_one);
    }
    Some(made)
}
