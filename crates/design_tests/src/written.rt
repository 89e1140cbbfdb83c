//! Each design, and the scenario of the same network.

use crate::designs::{AFDX, LINE, OFFICE, SHARED, SMALLEST, TRUNK};
use crate::networks;
use byte_ends::MemSink;
use design_file::{File, plan_of, read_design, timed_text, write_design};
use std::alloc::Global;
use std::process::Abort;
use std::test::Fail;
use std::vec::Vec;

/// The scenario that is written of a design.
fn written(alloc: Global, text: &str) -> Result<String, Fail> {
    let file = File {
        name: "net.toml",
        text,
    };
    let design = read_design(alloc, &file, &[])?;
    let scale = design.scale.ok_or("no tick and no unit")?;
    let made = plan_of(alloc, &scale, &design)?;
    let mut sink = MemSink::new(alloc, 65_536, 4_096, Vec::new(alloc))?;
    write_design(alloc, &scale, &made.plan, &mut sink)?;
    Ok(String::from_str(alloc, std::str::from_utf8(sink.bytes())?)?)
}

/// The lines of a scenario that begin with this word, in their order.
fn lines_of(alloc: Global, scenario: &str, word: &str) -> Result<String, Fail> {
    let mut lines = String::new(alloc);
    for line in scenario.lines() {
        if line.starts_with(word) {
            lines.push_str(line)?;
            lines.push_str("\n")?;
        }
    }
    Ok(lines)
}

/// A design's scenario has the links, requests, sends and rounds of this one, each in their order.
fn says_what<R: Abort>(rt: &R, alloc: Global, design: &str, scenario: &str) -> Result<(), Fail> {
    let made = written(alloc, design)?;
    for word in ["link ", "open ", "send ", "rounds "] {
        let lines = lines_of(alloc, made.as_str(), word)?;
        let wanted = lines_of(alloc, scenario, word)?;
        assert_eq!(rt; lines.as_str(), wanted.as_str());
    }
    Ok(())
}

/// The smallest design, as the scenario that is written of it.
#[test]
fn a_design_is_written_as_a_scenario(rt: HostRuntime) -> Result<(), Fail> {
    let made = written(rt.alloc(), SMALLEST)?;
    assert_eq!(rt;
        made.as_str(),
        "# tick 10 us
# unit 1 byte
tenet 4
link camera_desk camera desk rate 125 cap 1538 prop 0 buffer 65536 levels 50 500
caller streams
open video from camera to desk contract 100 100 100 1000 delay 199 rate
rounds 0
tail 0
"
    );
    Ok(())
}

#[test]
fn two_switches_of_an_aircraft(rt: HostRuntime) -> Result<(), Fail> {
    let alloc = rt.alloc();
    says_what(&rt, alloc, AFDX, networks::AFDX)
}

#[test]
fn a_line_of_drives(rt: HostRuntime) -> Result<(), Fail> {
    let alloc = rt.alloc();
    says_what(&rt, alloc, LINE, networks::LINE)
}

/// The calls of a trunk, each at its time: the text of which `ask schedule` makes a scenario.
#[test]
fn a_telephone_trunk(rt: HostRuntime) -> Result<(), Fail> {
    let alloc = rt.alloc();
    let file = File {
        name: "net.toml",
        text: TRUNK,
    };
    let design = read_design(alloc, &file, &[])?;
    let scale = design.scale.ok_or("no tick and no unit")?;
    let made = plan_of(alloc, &scale, &design)?;
    let text = timed_text(alloc, &scale, &made)?.ok_or("groups")?;
    assert_eq!(rt; text.as_str(), networks::TRUNK);
    Ok(())
}

/// A link that two groups share, beside a best-effort stream.
#[test]
fn a_shared_line(rt: HostRuntime) -> Result<(), Fail> {
    let made = written(rt.alloc(), SHARED)?;
    assert_eq!(rt; made.as_str(), networks::SHARED);
    Ok(())
}

/// An office of twenty end systems, of which each has a link and two streams over it to the server.
#[test]
fn an_office(rt: HostRuntime) -> Result<(), Fail> {
    let alloc = rt.alloc();
    let made = written(alloc, OFFICE)?;
    let mut wanted = String::new(alloc);
    for number in 1..21 {
        let line = format!(in alloc;
            "open sensor{number} from es{number} to server contract 200 200 200 130 delay 249 rate\n"
        )?;
        wanted.push_str(line.as_str())?;
    }
    for number in 1..21 {
        let line = format!(in alloc;
            "open alarm{number} from es{number} to server contract 15 998 2994 1066 delay 1999 jitter 1000\n"
        )?;
        wanted.push_str(line.as_str())?;
    }
    let opens = lines_of(alloc, made.as_str(), "open ")?;
    assert_eq!(rt; opens.as_str(), wanted.as_str());
    Ok(())
}
