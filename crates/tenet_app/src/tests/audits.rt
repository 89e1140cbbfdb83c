//! Tables of packets that are audited. The link sends a unit in a tick, has levels of 10, 20 and 40 ticks and a propagation of 2; the channel
//! may send packets of up to 2 units, 5 ticks apart and two in any 20, and was accepted at level 1.
use super::{Ends, FAILING_SOURCE, SHORT_SINK, SOUND, ends_with};
use crate::status::Status;
use scenario_reader::Cause;
use std::alloc::Global;
use std::process::Abort;
use std::sync::Wait;
use std::test::Fail;
use std::thread::Threads;

const SCENARIO: &str = "tenet 1
link A n1 n2 rate 1 cap 4 prop 2 buffer 100 levels 10 20 40
caller k1
open r1 route A contract 5 10 20 2 delay 12 rate
send r1 3 10 2
rounds 30
tail 0
";

const HEADER: &str = "channel,packet,hop,link,size,at,eligible,departed";

// An audit of the scenario and these lines, by these ends, ends with this status and has written this text.
fn audits<R: Threads + Wait + Abort + Sync>(
    rt: &R,
    alloc: Global,
    lines: &str,
    ends: Ends,
    due: (Status, &str),
) -> Result<(), Fail> {
    let input = format!(in alloc; "{SCENARIO}{lines}")?;
    ends_with(rt, alloc, &["audit"], input.as_bytes(), ends, due)
}

// Three rows of a table, with the ticks of the last two.
fn audits_rows<R: Threads + Wait + Abort + Sync>(
    rt: &R,
    alloc: Global,
    (second, third): (&str, &str),
    text: &str,
) -> Result<(), Fail> {
    let lines = format!(in alloc;
        "report\naccept r1 delay 12 levels 1\nend steps 33\n{HEADER}\nr1,1,1,A,2,0,0,2\nr1,2,1,A,2,{second}\nr1,3,1,A,2,{third}\n"
    )?;
    audits(rt, alloc, lines.as_str(), SOUND, (Status::Done, text))
}

#[test]
fn a_table_is_audited(rt: HostRuntime) -> Result<(), Fail> {
    let alloc = rt.alloc();
    audits_rows(&rt, alloc, ("10,10,12", "20,20,22"), "audit ok 3\n")?;
    audits_rows(&rt, alloc, ("10,10,12", "20,20,31"), "audit row 3 bound\n")?;
    audits_rows(
        &rt,
        alloc,
        ("10,9,12", "20,20,22"),
        "audit row 2 eligible\n",
    )
}

// The lines after the scenario, how the ends behave, the status and what is written.
const STOPS: [(&str, Ends, Status, &str); 5] = [
    (
        "",
        SOUND,
        Status::Refused {
            line: 8,
            cause: Cause::End,
        },
        "refused 8 end\n",
    ),
    (
        "report\naccept r1 delay 13 levels 1\n",
        SOUND,
        Status::Refused {
            line: 9,
            cause: Cause::Accept,
        },
        "refused 9 accept\n",
    ),
    (
        "report\n",
        SOUND,
        Status::Refused {
            line: 9,
            cause: Cause::Table,
        },
        "refused 9 table\n",
    ),
    ("report\n", FAILING_SOURCE, Status::ReadFault, ""),
    (
        "report\nchannel,packet,hop,link,size,at,eligible,departed\n",
        Ends {
            piece: 6,
            ..SHORT_SINK
        },
        Status::WriteFault,
        "audit ",
    ),
];

fn audits_all<R: Threads + Wait + Abort + Sync>(
    rt: &R,
    alloc: Global,
    rows: &[(&str, Ends, Status, &str)],
) -> Result<(), Fail> {
    for (lines, ends, status, text) in rows {
        audits(rt, alloc, lines, *ends, (*status, *text))?;
    }
    Ok(())
}

#[test]
fn an_audit_that_stops_says_why(rt: HostRuntime) -> Result<(), Fail> {
    audits_all(&rt, rt.alloc(), &STOPS)
}
