//! Scenarios that are refused, and what refuses them.
ghost use Rattle.std.specs.Prelude.{◌≤◌};

use crate::reading::{five_links, read};
use scenario_reader::{Cause, ReadRefusal};
use std::alloc::Global;
use std::process::Abort;
use std::test::Fail;

// A text is refused at this line by this cause, or it is read.
fn answers<R: Abort>(
    rt: &R,
    alloc: Global,
    text: &str,
    most: usize,
    want: Option<(u64, Cause)>,
) -> Result<(), Fail>
    requires { 1 ≤ most }
{
    let found = read(alloc, text, most)?.err();
    let want = want.map(|(line, cause)| ReadRefusal::Refused { line, cause });
    assert_eq!(rt; found, want, "{text}");
    Ok(())
}

// The lines in front of a line that is refused.
const AFTER_LINK: &str = "tenet 1
link A n1 n2 rate 1 cap 4 prop 2 buffer 100 levels 10 20 40
link B n2 n3 rate 1 cap 4 prop 2 buffer 100 levels 10 20 40
";

const AFTER_CALLER: &str = "tenet 1
link A n1 n2 rate 1 cap 4 prop 2 buffer 100 levels 10 20 40
link B n2 n3 rate 1 cap 4 prop 2 buffer 100 levels 10 20 40
caller k1
";

const AFTER_OPEN: &str = "tenet 1
link A n1 n2 rate 1 cap 4 prop 2 buffer 100 levels 10 20 40
link B n2 n3 rate 1 cap 4 prop 2 buffer 100 levels 10 20 40
caller k1
open r1 route A B contract 5 10 20 2 delay 50 rate
";

const AFTER_CLOSE: &str = "tenet 1
link A n1 n2 rate 1 cap 4 prop 2 buffer 100 levels 10 20 40
link B n2 n3 rate 1 cap 4 prop 2 buffer 100 levels 10 20 40
caller k1
open r1 route A B contract 5 10 20 2 delay 50 rate
close r1
";

const AFTER_TAIL: &str = "tenet 1
link A n1 n2 rate 1 cap 4 prop 2 buffer 100 levels 10 20 40
caller k1
rounds 3
tail 2
";

const AFTER_BEST: &str = "tenet 3
link A n1 n2 rate 1 cap 4 prop 2 buffer 100 best 2 levels 10 20 40
link B n2 n3 rate 1 cap 4 prop 2 buffer 100 levels 10 20 40
caller k1
";

const AFTER_GROUPS: &str = "tenet 5
link A n1 n2 rate 1 cap 4 prop 2 buffer 100 levels 10 20 40
group g1
group g2
";

const AFTER_QUOTA: &str = "tenet 5
link A n1 n2 rate 1 cap 4 prop 2 buffer 100 levels 10 20 40
group g1
group g2
quota A g1 buffer 50 levels 4 8 20
";

// The line after these is refused by this cause.
fn refuses<R: Abort>(
    rt: &R,
    alloc: Global,
    front: &str,
    line: &str,
    cause: Cause,
) -> Result<(), Fail> {
    let text = format!(in alloc; "{front}{line}\n")?;
    let at = front.lines().count() as u64 + 1;
    answers(rt, alloc, text.as_str(), 64, Some((at, cause)))
}

// Each of these lines is refused by its cause, after this text and the lines in front of it.
pub(crate) fn refuses_all<R: Abort>(
    rt: &R,
    alloc: Global,
    text: &str,
    rows: &[(&str, &str, Cause)],
) -> Result<(), Fail> {
    for (front, line, cause) in rows {
        let front = format!(in alloc; "{text}{front}")?;
        refuses(rt, alloc, front.as_str(), line, *cause)?;
    }
    Ok(())
}

// The lines in front, a line, and its first cause. `.ci/refusals` has many more.
const REFUSED: [(&str, &str, Cause); 22] = [
    ("", "tenet 01", Cause::Header),
    ("", "tenet  1", Cause::Shape),
    (AFTER_TAIL, "do k1 1", Cause::Word),
    (AFTER_LINK, "caller plane", Cause::Name),
    (AFTER_OPEN, "send r1 +1 1 2", Cause::Number),
    (AFTER_CALLER, "caller k1", Cause::Known),
    (AFTER_OPEN, "send r2 0 1 2", Cause::Unknown),
    (AFTER_OPEN, "send r1 0 1 2", Cause::Range),
    (
        AFTER_CALLER,
        "open r1 route A A contract 5 4 20 2 delay 12 rate",
        Cause::Contract,
    ),
    (
        AFTER_CALLER,
        "open r1 route B A contract 5 10 20 2 delay 12 rate",
        Cause::Route,
    ),
    (AFTER_CLOSE, "close r1", Cause::Closed),
    (AFTER_OPEN, "send r1 131073 1 2", Cause::Load),
    (AFTER_BEST, "pour B 262144 1 2", Cause::Best),
    (AFTER_OPEN, "move r1 r1", Cause::Word),
    (AFTER_LINK, "group g1", Cause::Word),
    (AFTER_LINK, "caller k1 group g1", Cause::Shape),
    (AFTER_GROUPS, "group g2", Cause::Known),
    (AFTER_GROUPS, "caller k1 group g3", Cause::Unknown),
    (AFTER_QUOTA, "group g3", Cause::Word),
    (
        AFTER_QUOTA,
        "quota A g1 buffer 0 levels 0 0 0",
        Cause::Known,
    ),
    (
        AFTER_QUOTA,
        "quota A g2 buffer 50 levels 3 8 16",
        Cause::Quota,
    ),
    (AFTER_QUOTA, "quota A g2 buffer 50 levels 2 8", Cause::Quota),
];

#[test]
fn a_line_is_refused_by_its_first_cause(rt: HostRuntime) -> Result<(), Fail> {
    refuses_all(&rt, rt.alloc(), "", &REFUSED)
}

// The lines after the last of a scenario, and where they are refused and why.
const SCHEDULES: [(&str, Option<(u64, Cause)>); 7] = [
    ("", None),
    ("schedule\n", None),
    ("schedule\n\n#\ndo plane 1048576\n", None),
    ("schedule\ndo k9 1\n", Some((7, Cause::Unknown))),
    ("schedule\ndo k1 0\n", Some((7, Cause::Range))),
    ("schedule\nschedule\n", Some((7, Cause::Word))),
    ("schedule 1\n", Some((6, Cause::Shape))),
];

// Whether each of these texts is read after this one, or where it is refused and why.
fn answers_all<R: Abort>(
    rt: &R,
    alloc: Global,
    front: &str,
    rows: &[(&str, Option<(u64, Cause)>)],
) -> Result<(), Fail> {
    for (rest, want) in rows {
        let text = format!(in alloc; "{front}{rest}")?;
        answers(rt, alloc, text.as_str(), 64, *want)?;
    }
    Ok(())
}

#[test]
fn a_schedule_names_callers_and_the_plane(rt: HostRuntime) -> Result<(), Fail> {
    answers_all(&rt, rt.alloc(), AFTER_TAIL, &SCHEDULES)
}

// Texts that end early, and where they are refused and why.
const EARLY: [(&str, Option<(u64, Cause)>); 5] = [
    ("", Some((1, Cause::End))),
    ("\n# nothing\n", Some((3, Cause::End))),
    ("tenet 1\nrounds", Some((2, Cause::Cut))),
    ("#", Some((1, Cause::Cut))),
    (AFTER_LINK, Some((4, Cause::End))),
];

#[test]
fn an_input_that_ends_early_is_refused_at_its_end(rt: HostRuntime) -> Result<(), Fail> {
    answers_all(&rt, rt.alloc(), "", &EARLY)
}

// Whether the refusal is written like this.
fn says(alloc: Global, refusal: &ReadRefusal, text: &str) -> Result<bool, Fail> {
    Ok(format!(in alloc; "{refusal}")?.as_str() == text)
}

#[test]
fn a_refusal_says_its_line_and_its_cause(rt: HostRuntime) -> Result<(), Fail> {
    let refusal = ReadRefusal::Refused {
        line: 4,
        cause: Cause::Unknown,
    };
    assert!(rt; says(rt.alloc(), &refusal, "refused 4 unknown")?);
    assert!(rt; format!(in rt.alloc(); "{}", Cause::Step)?.as_str() == "step");
    Ok(())
}

#[test]
fn an_open_between_two_nodes_is_refused_by_its_first_cause(rt: HostRuntime) -> Result<(), Fail> {
    let alloc = rt.alloc();
    for (version, way, cause) in [
        ("4", "from n4 to n1", Cause::Reach),
        ("4", "from n4 to n4", Cause::Route),
        ("4", "from n4 to n5", Cause::Unknown),
        ("4", "from contract to n4", Cause::Name),
        ("4", "from n1 to contract", Cause::Name),
        ("4", "from n1 n4", Cause::Shape),
        ("3", "from n1 to n4", Cause::Shape),
    ] {
        let text = five_links(alloc, version, 5, way)?;
        answers(&rt, alloc, text.as_str(), 7, Some((8, cause)))?;
    }
    Ok(())
}
