//! Designs for which a plan has no numbers.

use design_file::{BadDesign, File, Mistake, plan_of, read_design};
use std::alloc::Global;
use std::test::Fail;
use std::vec::Vec;

/// The mistakes of a design.
fn mistakes(alloc: Global, text: &str) -> Result<Vec<Mistake>, Fail> {
    let file = File {
        name: "net.toml",
        text,
    };
    let design = read_design(alloc, &file, &[])?;
    let scale = design.scale.ok_or("no tick and no unit")?;
    match plan_of(alloc, &scale, &design) {
        Err(BadDesign::Mistakes(list)) => Ok(list),
        _ => Err("no mistakes")?,
    }
}

/// The mistakes of a design, each on a line.
fn told_of(alloc: Global, text: &str) -> Result<String, Fail> {
    let mut told = String::new(alloc);
    for mistake in &mistakes(alloc, text)? {
        let line = format!(in alloc; "{mistake}\n")?;
        told.push_str(line.as_str())?;
    }
    Ok(told)
}

/// A level and a gap shorter than a tick, a rate of less than a unit in a tick, a delay of less than two ticks, and a call that ends in the tick
/// in which it begins.
#[test]
fn all_misfits_are_told(rt: HostRuntime) -> Result<(), Fail> {
    let text = "tick = \"10 us\"
unit = \"1 byte\"
run = \"1 s\"
link = [
  { name = \"ab\", from = \"a\", to = \"b\", rate = \"100 Mbit/s\", levels = [\"5 us\", \"5 ms\"] },
  { name = \"bc\", from = \"b\", to = \"c\", rate = \"1 kbit/s\", levels = [\"0.5 ms\", \"5 ms\"] },
]
stream = [
  { name = \"s1\", route = \"ab bc\", every = \"1 ms\", size = \"100 B\", within = \"15 us\" },
  { name = \"s2\", route = \"ab bc\", every = \"5 us\", size = \"100 B\", within = \"2 ms\" },
  { name = \"s3\", route = \"ab\", every = \"1 ms\", size = \"100 B\", within = \"2 ms\", start = \"11 us\", end = \"19 us\" },
]
";
    assert_eq!(rt;
        told_of(rt.alloc(), text)?.as_str(),
        "net.toml:5: levels = 5 us, 5 ms: too short for the tick; one of 5 us would do
net.toml:6: rate = 1 kbit/s: out of range with this tick; one of 8 ms would do
net.toml:9: within = 15 us: too short for the tick; one of 7500 ns would do
net.toml:10: every = 5 us: too short for the tick; one of 5 us would do
net.toml:11: end = 19 us: a time that is later than its start by a tick at least
"
    );
    Ok(())
}

/// A run of 200,000 ticks over three links; shares of 40 and 50 of the 84 ticks that 13 of blocking leave of 97; two best-effort streams on one link at
/// once, and one whose packets its link doesn't carry.
#[test]
fn what_is_more_than_there_is(rt: HostRuntime) -> Result<(), Fail> {
    let text = "tick = \"10 us\"
unit = \"1 byte\"
run = \"2 s\"
link = [
  { name = \"ab\", from = \"a\", to = \"b\", levels = \"0.97 ms\" },
  { name = \"bc\", from = \"b\", to = \"c\", levels = \"5 ms\" },
  { name = \"cb\", from = \"c\", to = \"b\", levels = \"5 ms\", largest = \"1000 B\" },
]
quota = [
  { link = \"ab\", group = \"one\", buffer = \"1 KiB\", levels = \"0.4 ms\" },
  { link = \"ab\", group = \"two\", buffer = \"1 KiB\", levels = \"0.5 ms\" },
]
stream = [
  { name = \"s1\", group = \"one\", route = \"ab\", within = \"2 ms\" },
  { name = \"s2\", group = \"two\", route = \"ab bc\", within = \"2 ms\" },
  { name = \"web\", best_effort = true, from = \"a\", to = \"b\", count = 100 },
  { name = \"mail\", best_effort = true, link = \"ab\", count = 5, start = \"99 ms\" },
  { name = \"news\", best_effort = true, link = \"cb\", count = 5, size = \"1500 B\" },
]

[defaults.link]
rate = \"100 Mbit/s\"
best = 4

[defaults.stream]
every = \"1 ms\"
size = \"100 B\"
";
    assert_eq!(rt;
        told_of(rt.alloc(), text)?.as_str(),
        "net.toml:3: run = 2 s: a shorter one or a longer tick: its ticks times the links come to 600000, and at most 524288
net.toml:11: levels = 0.5 ms: less: the shares of a level come to at most its bound less the time of the largest packet, and those of the buffer to the buffer
net.toml:17: name = mail: another link or a later start, since web sends over ab then
net.toml:18: size = 1500 B: at most 1 kB, the largest packet of cb
"
    );
    Ok(())
}
