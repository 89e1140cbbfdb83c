//! The scales of small designs, worked by hand.

use design_scale::{Choice, ONE_PERCENT, choose, losses};
use design_text::{Design, File, read_design};
use field_units::{Scale, Size, Time};
use std::alloc::Global;
use std::test::Fail;
use std::vec::Vec;

const SMALLEST: &str =
    "link = [{ from = \"camera\", to = \"desk\", rate = \"100 Mbit/s\", levels = [\"0.5 ms\", \"5 ms\"] }]
[[stream]]
name = \"video\"
from = \"camera\"
to = \"desk\"
every = \"1 ms\"
size = \"1000 B\"
within = \"2 ms\"
";

/// The design of a text.
fn design(alloc: Global, text: &str) -> Result<Design, Fail> {
    let file = File {
        name: "net.toml",
        text,
    };
    Ok(read_design(alloc, &file, &[])?)
}

/// What is chosen for the design of a text, as text.
fn chosen(alloc: Global, text: &str) -> Result<String, Fail> {
    let design = design(alloc, text)?;
    let choice = choose(alloc, ONE_PERCENT, &design)?;
    let (word, scale) = match choice {
        Choice::Named(scale) => ("named", scale),
        Choice::Serving(scale) => ("serving", scale),
        Choice::Verdicts(scale) => ("verdicts", scale),
        Choice::Nothing => return Ok(String::from_str(alloc, "nothing")?),
    };
    let (tick, unit) = (scale.tick(), scale.unit());
    Ok(format!(in alloc; "{word} {tick} {unit}")?)
}

/// 99 ticks of 20 us are 1 percent less than 2 ms, and 31 units of 8 bytes are 0.8 percent less than the 2,000 bits of such a tick.
#[test]
fn the_coarsest_scale_that_serves(rt: HostRuntime) -> Result<(), Fail> {
    let alloc = rt.alloc();
    assert_eq!(rt; chosen(alloc, SMALLEST)?.as_str(), "serving 20 us 8 B");
    let named = format!(in alloc; "tick = \"10 us\"\nunit = \"1 byte\"\n{SMALLEST}")?;
    assert_eq!(rt; chosen(alloc, named.as_str())?.as_str(), "named 10 us 1 B");
    Ok(())
}

/// 50 us are five ticks of 10 us, and of 20 us two, which are a fifth less. 31 units of 4 bytes are 0.8 percent less than the 1,000 bits of such
/// a tick.
#[test]
fn a_wanted_jitter_is_kept(rt: HostRuntime) -> Result<(), Fail> {
    let alloc = rt.alloc();
    let even = format!(in alloc; "{SMALLEST}jitter = \"50 us\"\n")?;
    assert_eq!(rt; chosen(alloc, even.as_str())?.as_str(), "serving 10 us 4 B");
    Ok(())
}

/// 524,288 ticks of 20 us are 10.5 s.
#[test]
fn a_run_that_does_not_fit_is_left_out(rt: HostRuntime) -> Result<(), Fail> {
    let alloc = rt.alloc();
    let fits = format!(in alloc; "run = \"10 s\"\n{SMALLEST}")?;
    assert_eq!(rt; chosen(alloc, fits.as_str())?.as_str(), "serving 20 us 8 B");
    let long = format!(in alloc; "run = \"1 min\"\n{SMALLEST}")?;
    assert_eq!(rt;
        chosen(alloc, long.as_str())?.as_str(),
        "verdicts 20 us 8 B"
    );
    Ok(())
}

/// No scale keeps a second and a nanosecond.
#[test]
fn no_scale_serves(rt: HostRuntime) -> Result<(), Fail> {
    let alloc = rt.alloc();
    let text = SMALLEST.replace(alloc, "\"0.5 ms\", \"5 ms\"", "\"1 ns\", \"5 ms\"")?;
    assert_eq!(rt; chosen(alloc, text.as_str())?.as_str(), "nothing");
    Ok(())
}

/// What a scale loses of a design, each on a line.
fn lost(alloc: Global, tick: u64, unit: u64, text: &str) -> Result<String, Fail> {
    let tick = Time { picoseconds: tick };
    let scale = Scale::new(tick, Size { bits: unit }).ok_or("scale")?;
    let design = design(alloc, text)?;
    let mut told = String::new(alloc);
    for loss in &losses(alloc, &scale, &design)? {
        let line = format!(in alloc; "{loss}\n")?;
        told.push_str(line.as_str())?;
    }
    Ok(told)
}

/// At 20 us and 8 bytes, and at 0.3 ms and a byte.
#[test]
fn what_a_scale_loses(rt: HostRuntime) -> Result<(), Fail> {
    let alloc = rt.alloc();
    let told = lost(alloc, 20_000_000, 64, SMALLEST)?;
    assert_eq!(rt;
        told.as_str(),
        "net.toml:1: rate = 100 Mbit/s: 99.2 Mbit/s
net.toml:1: largest = 1538 B: 1544 B
net.toml:8: within = 2 ms: 1980 us
"
    );
    let told = lost(alloc, 300_000_000, 8, SMALLEST)?;
    assert_eq!(rt;
        told.as_str(),
        "net.toml:1: levels = 500 us: 300 us
net.toml:1: levels = 5 ms: 4800 us
net.toml:6: every = 1 ms: 900 us
net.toml:8: within = 2 ms: 1500 us
"
    );
    Ok(())
}
