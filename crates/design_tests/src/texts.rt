//! Designs, and files that aren't.

use design_text::{BadDesign, DesignLink, DesignPour, DesignStream, File, Mistake, read_design};
use std::alloc::Global;
use std::process::Abort;
use std::test::Fail;
use std::vec::Vec;

const SMALL: &str = "tick = \"10 us\"
unit = \"1 byte\"

[[link]]
from = \"a\"
to = \"b\"
rate = \"100 Mbit/s\"
levels = [\"0.5 ms\", \"5 ms\"]

[[stream]]
name = \"video\"
route = \"a_b\"
every = \"1 ms\"
size = \"1000 B\"
within = \"2 ms\"
count = 10
";

/// The mistakes of a text, each on a line.
fn mistakes(alloc: Global, text: &'static str) -> Result<String, Fail> {
    let file = File {
        name: "net.toml",
        text,
    };
    let list = refused(alloc, &file)?;
    lines_of(alloc, list.as_slice())
}

/// The mistakes of a file.
fn refused(alloc: Global, file: &File) -> Result<Vec<Mistake>, Fail> {
    match read_design(alloc, file, &[]) {
        Err(BadDesign::Mistakes(list)) => Ok(list),
        _ => Err("refused")?,
    }
}

/// Each mistake on a line.
fn lines_of(alloc: Global, list: &[Mistake]) -> Result<String, Fail> {
    let mut told = String::new(alloc);
    for mistake in list {
        let line = format!(in alloc; "{mistake}\n")?;
        told.push_str(line.as_str())?;
    }
    Ok(told)
}

/// What was told is what is due.
fn is_told(rt: &impl Abort, told: &str, due: &str) {
    assert_eq!(rt; told, due);
}

/// Of each link the name, its two nodes and the rate, on a line.
fn ways_of(alloc: Global, links: &[DesignLink]) -> Result<String, Fail> {
    let mut told = String::new(alloc);
    for link in links {
        let (name, from, to) = (link.name, link.from, link.to);
        let line = format!(in alloc; "{name} {from} {to} {}\n", link.rate)?;
        told.push_str(line.as_str())?;
    }
    Ok(told)
}

/// Of each stream the name and the size of its packets, on a line.
fn sizes_of(alloc: Global, streams: &[DesignStream]) -> Result<String, Fail> {
    let mut told = String::new(alloc);
    for stream in streams {
        let name = stream.name;
        let line = format!(in alloc; "{name} {}\n", stream.source.size)?;
        told.push_str(line.as_str())?;
    }
    Ok(told)
}

/// Of each stream the name, the group and the start, on a line.
fn starts_of(alloc: Global, streams: &[DesignStream]) -> Result<String, Fail> {
    let mut told = String::new(alloc);
    for stream in streams {
        let (name, group, start) = (stream.name, stream.group, stream.start);
        let line = format!(in alloc; "{name} {group} {start}\n")?;
        told.push_str(line.as_str())?;
    }
    Ok(told)
}

/// Of each best-effort stream the name, its link, the time from packet to packet and their number, on a line.
fn paces_of(alloc: Global, pours: &[DesignPour]) -> Result<String, Fail> {
    let mut told = String::new(alloc);
    for pour in pours {
        let (name, link, pace, count) = (pour.name, pour.link, pour.pace, pour.count);
        let line = format!(in alloc; "{name} {link} {pace} {count}\n")?;
        told.push_str(line.as_str())?;
    }
    Ok(told)
}

#[test]
fn a_design_is_read(rt: HostRuntime) -> Result<(), Fail> {
    let file = File {
        name: "net.toml",
        text: SMALL,
    };
    let design = read_design(rt.alloc(), &file, &[])?;
    let link = design.links.first().ok_or("link")?;
    assert_eq!(rt; link.name.as_str(), "a_b");
    assert_eq!(rt; link.rate.bits_a_second, 100_000_000);
    assert_eq!(rt; link.levels.len(), 2);
    let stream = design.streams.first().ok_or("stream")?;
    assert_eq!(rt; stream.within.picoseconds, 2_000_000_000);
    assert_eq!(rt; stream.count, 10);
    Ok(())
}

#[test]
fn all_mistakes_are_told(rt: HostRuntime) -> Result<(), Fail> {
    let text = "tick = \"10 us\"
unit = \"1 bite\"

[[link]]
from = \"a\"
to = \"b\"
rate = \"100 Mb/s\"

[[stream]]
name = \"video\"
route = \"a_b\"
every = \"1 ms\"
size = 1000
\"with in\" = \"2 ms\"
";
    let told = mistakes(rt.alloc(), text)?;
    is_told(
        &rt,
        told.as_str(),
        "net.toml:2: unit = 1 bite: its unit isn't known; wanted is a size in bit, kbit, Mbit, B, bytes, kB, KiB, MB or MiB, as in 1538 B
net.toml:4: levels is missing: a time in ps, ns, us, ms, s, min, h or d, as in 0.5 ms
net.toml:7: rate = 100 Mb/s: its unit isn't known; wanted is a rate in bit/s, kbit/s, Mbit/s, Gbit/s, B/s, kB/s or MB/s, as in 100 Mbit/s
net.toml:9: within is missing: a time in ps, ns, us, ms, s, min, h or d, as in 0.5 ms
net.toml:13: size = 1000: its unit isn't known; wanted is a size in bit, kbit, Mbit, B, bytes, kB, KiB, MB or MiB, as in 1538 B
net.toml:14: with in = 2 ms: no such key; did you mean within?
",
    );
    Ok(())
}

/// Two cables, of which one has two directions, and forty streams of two classes.
#[test]
fn rows_stand_for_several(rt: HostRuntime) -> Result<(), Fail> {
    let text = "tick = \"10 us\"
unit = \"1 byte\"
link = [
  { from = \"es{}\", to = \"sw\", copies = 3 },
  { name = \"up\", from = \"sw\", to = \"server\", both = true, rate = \"1 Gbit/s\" },
]
stream = [
  { name = \"sensor\", class = \"slow\", from = \"es{}\", to = \"server\", copies = 3 },
  { name = \"a{}b\", class = \"slow\", route = \"up_back\", copies = 2, overhead = \"ethernet, udp\" },
]

[defaults.link]
rate = \"100 Mbit/s\"
levels = [\"0.5 ms\", \"5 ms\"]

[class.slow]
every = \"10 ms\"
size = \"100 B\"
within = \"20 ms\"
";
    let file = File {
        name: "net.toml",
        text,
    };
    let design = read_design(rt.alloc(), &file, &[])?;
    let links = ways_of(rt.alloc(), design.links.as_slice())?;
    is_told(
        &rt,
        links.as_str(),
        "es1_sw es1 sw 100 Mbit/s
es2_sw es2 sw 100 Mbit/s
es3_sw es3 sw 100 Mbit/s
up sw server 1 Gbit/s
up_back server sw 1 Gbit/s
",
    );
    let sizes = sizes_of(rt.alloc(), design.streams.as_slice())?;
    let due = "sensor1 100 B\nsensor2 100 B\nsensor3 100 B\na1b 166 B\na2b 166 B\n";
    is_told(&rt, sizes.as_str(), due);
    Ok(())
}

/// A mistake of a class, of a row that stands for several, and of a text that is no TOML.
#[test]
fn a_mistake_is_told_once_where_it_stands(rt: HostRuntime) -> Result<(), Fail> {
    let text = "tick = \"10 us\"
unit = \"1 byte\"
stream = [
  { name = \"s\", class = \"slow\", route = \"a\", copies = 3, sice = \"1 B\" },
  { name = \"t\", class = \"fast\", route = \"a\" },
]

[class.slow]
every = \"10 ms\"
size = \"100 B\"
within = \"20 seconds\"
";
    let told = mistakes(rt.alloc(), text)?;
    is_told(
        &rt,
        told.as_str(),
        "net.toml:4: sice = 1 B: no such key; did you mean size?
net.toml:5: class = fast: a class that the design has
net.toml:5: size is missing: a size in bit, kbit, Mbit, B, bytes, kB, KiB, MB or MiB, as in 1538 B
net.toml:5: within is missing: a time in ps, ns, us, ms, s, min, h or d, as in 0.5 ms
net.toml:5: every is missing: a time, or packets, in and apart in its place
net.toml:11: within = 20 seconds: its unit isn't known; wanted is a time in ps, ns, us, ms, s, min, h or d, as in 0.5 ms
",
    );
    let told = mistakes(rt.alloc(), "tick = \"10 us\"\nunit = 1 byte\n")?;
    assert!(rt; told.as_str().starts_with("net.toml:2: "), "{told}");
    Ok(())
}

/// Links from a spreadsheet, with a mistake in its third line, and streams from one that isn't there.
#[test]
fn links_stand_in_a_sheet(rt: HostRuntime) -> Result<(), Fail> {
    let design = File {
        name: "net.toml",
        text: "tick = \"10 us\"\nunit = \"1 byte\"\nlinks = \"links.csv\"\nstreams = \"streams.csv\"\n",
    };
    let sheet = File {
        name: "links.csv",
        text: "from,to,rate,levels,best\na,b,100 Mbit/s,\"0.5 ms, 5 ms\",\nb,c,fast,1 ms,4\n",
    };
    let mut told = String::new(rt.alloc());
    if let Err(BadDesign::Mistakes(list)) = read_design(rt.alloc(), &design, &[sheet]) {
        for mistake in &list {
            let line = format!(in rt.alloc(); "{mistake}\n")?;
            told.push_str(line.as_str())?;
        }
    }
    is_told(
        &rt,
        told.as_str(),
        "net.toml:4: streams = streams.csv: the name of a sheet that is there
links.csv:3: rate = fast: no number comes first; wanted is a rate in bit/s, kbit/s, Mbit/s, Gbit/s, B/s, kB/s or MB/s, as in 100 Mbit/s
",
    );
    Ok(())
}

/// Without a tick and a unit a design is read, and with one of them alone it isn't.
#[test]
fn a_tick_and_a_unit_stand_together(rt: HostRuntime) -> Result<(), Fail> {
    let file = File {
        name: "net.toml",
        text: "link = [{ from = \"a\", to = \"b\", rate = \"1 Mbit/s\", levels = \"5 ms\" }]\n",
    };
    let design = read_design(rt.alloc(), &file, &[])?;
    assert!(rt; design.scale.is_none());
    let told = mistakes(rt.alloc(), "tick = \"10 us\"\n")?;
    is_told(
        &rt,
        told.as_str(),
        "net.toml:1: unit is missing: a size in bit, kbit, Mbit, B, bytes, kB, KiB, MB or MiB, as in 1538 B\n",
    );
    Ok(())
}

/// A best-effort stream between neighbours, streams of a group and of none, one that begins first, and a share of a link.
const CALLS: &str = "run = \"1 s\"
link = [{ from = \"a\", to = \"b\", rate = \"100 Mbit/s\", levels = [\"0.5 ms\", \"5 ms\"], best = 8 }]
quota = [{ link = \"a_b\", group = \"voice\", buffer = \"16 KiB\", levels = [\"0.1 ms\", \"1 ms\"] }]
stream = [
  { name = \"call\", group = \"voice\", start = \"20 ms\", end = \"80 ms\" },
  { name = \"early\", group = \"voice\" },
  { name = \"video\", start = \"10 ms\" },
  { name = \"web\", best_effort = true, count = 100 },
]

[defaults.stream]
from = \"a\"
to = \"b\"
every = \"20 ms\"
late = \"1 ms\"
size = \"200 B\"
within = \"10 ms\"
";

#[test]
fn streams_come_and_go(rt: HostRuntime) -> Result<(), Fail> {
    let file = File {
        name: "net.toml",
        text: CALLS,
    };
    let design = read_design(rt.alloc(), &file, &[])?;
    let streams = starts_of(rt.alloc(), design.streams.as_slice())?;
    is_told(
        &rt,
        streams.as_str(),
        "video 0 10 ms\nearly 1 0 ps\ncall 1 20 ms\n",
    );
    let pours = paces_of(rt.alloc(), design.pours.as_slice())?;
    is_told(&rt, pours.as_str(), "web a_b 20 ms 100\n");
    let quota = design.links.first().and_then(|link| link.quotas.first());
    assert_eq!(rt;
        quota.map(|quota| (quota.group, quota.buffer.bits, quota.levels.len())),
        Some((1, 131_072, 2))
    );
    Ok(())
}

/// Rows that don't agree: names twice, routes that are none, nodes that aren't there, times, shares, and best effort where it isn't taken.
#[test]
fn rows_that_do_not_agree_are_told(rt: HostRuntime) -> Result<(), Fail> {
    let text = "run = \"1 s\"
test = \"whole\"
link = [
  { from = \"a\", to = \"b\" },
  { name = \"a_b\", from = \"a\", to = \"c\" },
  { name = \"cd\", from = \"c\", to = \"d\" },
]
quota = [
  { link = \"cd\", group = \"voice\", buffer = \"1 KiB\", levels = \"1 ms\" },
  { link = \"ce\", group = \"voise\", buffer = \"1 KiB\", levels = [\"1 ms\", \"2 ms\"] },
]
stream = [
  { name = \"s\", route = \"a_b ce\" },
  { name = \"s\", route = \"cd a_b\", group = \"voice\" },
  { name = \"t\", from = \"d\", to = \"a\" },
  { name = \"u\", route = \"cd\", start = \"20 ms\", end = \"10 ms\" },
  { name = \"v\", route = \"cd\", start = \"2 s\" },
  { name = \"w\", link = \"cd\", best_effort = true, count = 5, within = \"1 ms\" },
  { name = \"x\", route = \"cd\", packets = 3, in = \"10 ms\", apart = \"1 ms\", every = \"1 ms\" },
]

[defaults.link]
rate = \"100 Mbit/s\"
levels = [\"0.5 ms\", \"5 ms\"]

[defaults.stream]
every = \"20 ms\"
size = \"200 B\"
within = \"10 ms\"
";
    let told = mistakes(rt.alloc(), text)?;
    is_told(
        &rt,
        told.as_str(),
        "net.toml:2: test = whole: least, since a stream has from and to in place of route
net.toml:2: test = whole: least, since streams have groups
net.toml:5: name = a_b: another name, since net.toml:4 has this one
net.toml:9: levels = 1 ms: a time for each level of cd, which has 2
net.toml:10: group = voise: a group that a stream has
net.toml:10: link = ce: a link that the design has
net.toml:13: route = a_b ce: links that the design has, of which ce is none
net.toml:14: name = s: another name, since net.toml:13 has this one
net.toml:14: route = cd a_b: links of which each begins where the one before it ends, and a_b doesn't begin at d
net.toml:15: from = d: a node that a link leaves
net.toml:15: to = a: a node to which a link leads
net.toml:16: end = 10 ms: a time after its start
net.toml:17: start = 2 s: a time within the run of 1 s
net.toml:18: within = 1 ms: nothing, since `best_effort` stands beside it
net.toml:18: best_effort = true: a link where best-effort packets may wait; give cd a best of at least 1
net.toml:19: every = 1 ms: nothing, since `in` stands beside it
",
    );
    Ok(())
}
