//! An audit's input that is read, and lines of it that are refused.
ghost use Rattle.std.specs.Prelude.{◌≤◌};

use byte_ends::MemSource;
use call_script::Plan;
use net_units::Levels;
use run_record::HopRow;
use scenario_reader::{Cause, ReadRefusal, read_audit};
use std::alloc::Global;
use std::process::Abort;
use std::test::Fail;

// A scenario of a request over one link.
const SCENARIO: &str = "tenet 1
link A n1 n2 rate 1 cap 4 prop 2 buffer 100 levels 10 20 40
caller k1
open r1 route A contract 5 10 20 2 delay 42 rate
rounds 30
tail 0
schedule
";

const HEADER: &str = "channel,packet,hop,link,size,at,eligible,departed";

// What is read of an audit's input: its plan, the levels of each request and the rows.
type Audit = (Plan, Vec<Option<Levels>>, Vec<HopRow>);

// What is read of a scenario, the line `report` and this rest, from a source that gives at most so many bytes a read.
fn read(alloc: Global, rest: &str, piece: usize) -> Result<Result<Audit, ReadRefusal>, Fail>
    requires { 1 ≤ piece }
{
    let text = format!(in alloc; "{SCENARIO}report\n{rest}")?;
    let bytes = Vec::from_slice(alloc, text.as_bytes())?;
    let mut source = MemSource::new(bytes, piece, Vec::new(alloc));
    Ok(read_audit(alloc, &mut source))
}

// Whether the one request has level 2 at its one hop.
fn are_levels(levels: &[Option<Levels>]) -> Result<bool, Fail> {
    let [given] = levels else {
        return Ok(false);
    };
    let given = given.ok_or("no levels")?;
    Ok(given.len() == 1 && given.at(1).get() == 2)
}

// Whether the one row is that of the third packet.
fn are_rows(rows: &[HopRow]) -> bool {
    match rows {
        [row] => {
            (row.chan.get(), row.number, row.hop, row.link.get()) == (0, 3, 1, 0)
                && (row.size, row.at, row.eligible, row.departed) == (2, 20, 21, 31)
        }
        _ => false,
    }
}

#[test]
fn levels_and_rows_are_read(rt: HostRuntime) -> Result<(), Fail> {
    let alloc = rt.alloc();
    let rest = format!(in alloc;
        "accept r1 delay 22 levels 2\nlink A sent 1\n{HEADER}\nr1,3,1,A,2,20,21,31\n"
    )?;
    let (plan, levels, rows) = read(alloc, rest.as_str(), 7)??;
    assert!(rt; plan.requests().len() == 1);
    assert!(rt; are_levels(levels.as_slice())?);
    assert!(rt; are_rows(rows.as_slice()));
    Ok(())
}

// A table of three rows, of which each is longer than the one before it.
const THREE: &str = "channel,packet,hop,link,size,at,eligible,departed
r1,1,1,A,2,0,0,2
r1,2,1,A,2,10,10,12
r1,3,1,A,2,20,21,31
";

// Whether all three are read in pieces of so many bytes, the last one as it stands.
fn are_three(alloc: Global, piece: usize) -> Result<bool, Fail>
    requires { 1 ≤ piece }
{
    let (_, _, rows) = read(alloc, THREE, piece)??;
    Ok(rows.len() == 3 && are_rows(&rows[2..]))
}

#[test]
fn rows_are_read_whether_they_come_at_once_or_not(rt: HostRuntime) -> Result<(), Fail> {
    let alloc = rt.alloc();
    assert!(rt; are_three(alloc, 7)?);
    assert!(rt; are_three(alloc, 20)?);
    assert!(rt; are_three(alloc, 50)?);
    assert!(rt; are_three(alloc, 4096)?);
    Ok(())
}

// What stands after `report`, with the line that is refused and its cause.
const BAD: [(&str, u64, Cause); 10] = [
    ("", 9, Cause::Table),
    ("accept r1 delay 21 levels 2\n", 9, Cause::Accept),
    (
        "accept r1 delay 42 levels 3\naccept r1 delay 42 levels 3\n",
        10,
        Cause::Accept,
    ),
    ("accept r2 delay 12 levels 1\n", 9, Cause::Accept),
    ("accept r1 delay 12 levels 1 1\n", 9, Cause::Accept),
    (
        "channel,packet,hop,link,size,at,eligible,departed\n\n",
        10,
        Cause::Table,
    ),
    (
        "channel,packet,hop,link,size,at,eligible,departed\nr1,3,256,A,2,20,21,31\n",
        10,
        Cause::Table,
    ),
    (
        "channel,packet,hop,link,size,at,eligible,departed\nr1,3,1,B,2,20,21,31\n",
        10,
        Cause::Table,
    ),
    (
        "channel,packet,hop,link,size,at,eligible,departed\nr1,3,1,A,2,20,21,31\nr1,4,1,A,2,20,21,31,1\n",
        11,
        Cause::Table,
    ),
    (
        "channel,packet,hop,link,size,at,eligible,departed\nr1,3,1,A,2,20,21,31",
        10,
        Cause::Cut,
    ),
];

// Each of these texts is refused at its line by its cause.
fn refuses_all<R: Abort>(rt: &R, alloc: Global, rows: &[(&str, u64, Cause)]) -> Result<(), Fail> {
    for (rest, line, cause) in rows {
        let (line, cause) = (*line, *cause);
        let found = read(alloc, rest, 4096)?.err();
        assert_eq!(rt; found, Some(ReadRefusal::Refused { line, cause }));
    }
    Ok(())
}

#[test]
fn the_first_bad_line_of_an_audit_is_refused(rt: HostRuntime) -> Result<(), Fail> {
    refuses_all(&rt, rt.alloc(), &BAD)
}
