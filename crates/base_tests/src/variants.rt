//! Variants of two links and three requests.
use crate::due::is_due;
use network_variants::{BadChange, Form, Variants, variants_of};
use std::alloc::Global;
use std::process::Abort;
use std::test::Fail;

const NETWORK: &str = "\
tenet 3
# A.D1 is a note
link A n1 n2 rate 1 cap 4 prop 2 buffer 100 levels 10 20 40
link B n2 n3 rate 1 cap 4 prop 2 buffer 200 best 7 levels 10 20 40
caller c
open r1 route A B contract 5 10 20 2 delay 64 rate
open r2 route A B contract 5 10 20 2 delay 44 jitter 20
send r1 3 10 2
rounds 30
tail 0
";

const DESIGN: &str = "\
tick = \"10 us\" # levels = none
link = [
  { from = \"a\", to = \"b\", levels = [\"0.5 ms\", \"5 ms\"], best = 3 },
  { name = \"L\", from = \"b\", to = \"c\", levels = [\"1 ms\"] }
]
[defaults.link]
rate = '100 Mbit/s'
[class.voice]
every = \"20 ms\"
[[stream]]
name = \"call\"
class = \"voice\"
copies = 3
\"within\" = \"2 ms\"
";

fn made(alloc: Global, words: &str) -> Result<Result<Variants, BadChange>, Fail> {
    made_of(alloc, Form::Scenario, NETWORK, &parts(alloc, words, ' ')?)
}

// Of a design the changes have slashes between them.
fn made_of_design(alloc: Global, words: &str) -> Result<Result<Variants, BadChange>, Fail> {
    made_of(alloc, Form::Design, DESIGN, &parts(alloc, words, '/')?)
}

// What stands between the signs of a text.
fn parts(alloc: Global, text: &str, sign: char) -> Result<Vec<String>, Fail> {
    let mut list = Vec::new(alloc);
    for part in text.split(sign) {
        list.push(String::from_str(alloc, part)?)?;
    }
    Ok(list)
}

// The call, without the clauses of what it answers.
fn made_of(
    alloc: Global,
    form: Form,
    file: &str,
    changes: &[String],
) -> Result<Result<Variants, BadChange>, Fail> {
    Ok(variants_of(alloc, form, file.as_bytes(), changes))
}

// The text of a variant.
fn text_of(alloc: Global, variants: &Variants, variant: usize) -> Result<String, Fail> {
    let bytes = variants.text(alloc, variant)?;
    Ok(String::from_utf8_lossy(alloc, bytes.as_slice())?)
}

// The line of a number, from 1, of a text.
fn line_at(text: &str, number: usize) -> &str {
    text.lines().nth(number.saturating_sub(1)).unwrap_or("")
}

// The line of a number of a variant, or why there are none; and how many lines the variant has.
fn seen(
    alloc: Global,
    words: &str,
    variant: usize,
    number: usize,
) -> Result<(String, usize), Fail> {
    match made(alloc, words)? {
        Ok(variants) => {
            let text = text_of(alloc, &variants, variant)?;
            let line = String::from_str(alloc, line_at(text.as_str(), number))?;
            Ok((line, text.lines().count()))
        }
        Err(_) => Ok((String::from_str(alloc, "refused")?, 0)),
    }
}

// Whether the line of a number, from 1, of a variant of ten lines is this one.
fn has_line(
    alloc: Global,
    words: &str,
    variant: usize,
    number: usize,
    line: &str,
) -> Result<bool, Fail> {
    let (seen, count) = seen(alloc, words, variant, number)?;
    Ok(seen.as_str() == line && count == 10)
}

// The place of the change that is refused, and why.
fn refusal(alloc: Global, words: &str) -> Result<String, Fail> {
    match made(alloc, words)?.err() {
        Some(BadChange::Word { place, why }) => told(alloc, place, why.as_str()),
        _ => Ok(String::from_str(alloc, "taken")?),
    }
}

fn told(alloc: Global, place: usize, why: &str) -> Result<String, Fail> {
    Ok(format!(in alloc; "{place}: {why}")?)
}

#[test]
fn a_field_of_a_line_is_replaced(rt: HostRuntime) -> Result<(), Fail> {
    let open = "open r2 route A B contract 5 10 20 2 delay 44 jitter 9";
    assert!(rt;
        has_line(
            rt.alloc(),
            "A.D1=20..26",
            0,
            3,
            "link A n1 n2 rate 1 cap 4 prop 2 buffer 100 levels 20 20 40"
        )?
    );
    assert!(rt;
        has_line(
            rt.alloc(),
            "A.D1=20..26",
            6,
            3,
            "link A n1 n2 rate 1 cap 4 prop 2 buffer 100 levels 26 20 40"
        )?
    );
    assert!(rt;
        has_line(
            rt.alloc(),
            "B.best=9",
            0,
            4,
            "link B n2 n3 rate 1 cap 4 prop 2 buffer 200 best 9 levels 10 20 40"
        )?
    );
    assert!(rt;
        has_line(
            rt.alloc(),
            "B.levels=5:50",
            0,
            4,
            "link B n2 n3 rate 1 cap 4 prop 2 buffer 200 best 7 levels 5 50"
        )?
    );
    assert!(rt;
        has_line(
            rt.alloc(),
            "r1.xave=12",
            0,
            6,
            "open r1 route A B contract 5 12 20 2 delay 64 rate"
        )?
    );
    assert!(rt; has_line(rt.alloc(), "r2.jitter=9", 0, 7, open)?);
    assert!(rt; has_line(rt.alloc(), "r1.count=5,6", 1, 8, "send r1 6 10 2")?);
    assert!(rt; has_line(rt.alloc(), "rounds=31", 0, 9, "rounds 31")?);
    assert!(rt; has_line(rt.alloc(), "A.D1=20..26", 6, 2, "# A.D1 is a note")?);
    Ok(())
}

#[test]
fn names_with_a_star_are_several(rt: HostRuntime) -> Result<(), Fail> {
    assert!(rt;
        has_line(
            rt.alloc(),
            "*.buffer=50",
            0,
            3,
            "link A n1 n2 rate 1 cap 4 prop 2 buffer 50 levels 10 20 40"
        )?
    );
    assert!(rt;
        has_line(
            rt.alloc(),
            "link.*.buffer=50",
            0,
            4,
            "link B n2 n3 rate 1 cap 4 prop 2 buffer 50 best 7 levels 10 20 40"
        )?
    );
    assert!(rt;
        has_line(
            rt.alloc(),
            "r*.delay=50",
            0,
            7,
            "open r2 route A B contract 5 10 20 2 delay 50 jitter 20"
        )?
    );
    Ok(())
}

// How many variants there are, where the changes are taken.
fn count(alloc: Global, words: &str) -> Result<Option<usize>, Fail> {
    Ok(match made(alloc, words)? {
        Ok(variants) => Some(variants.count),
        Err(_) => None,
    })
}

#[test]
fn the_last_change_is_the_fastest(rt: HostRuntime) -> Result<(), Fail> {
    let words = "A.D1=5,6 r1.delay=60..64/2";
    assert!(rt;
        has_line(
            rt.alloc(),
            words,
            2,
            3,
            "link A n1 n2 rate 1 cap 4 prop 2 buffer 100 levels 5 20 40"
        )?
    );
    assert!(rt;
        has_line(
            rt.alloc(),
            words,
            2,
            6,
            "open r1 route A B contract 5 10 20 2 delay 64 rate"
        )?
    );
    assert!(rt;
        has_line(
            rt.alloc(),
            words,
            4,
            3,
            "link A n1 n2 rate 1 cap 4 prop 2 buffer 100 levels 6 20 40"
        )?
    );
    assert!(rt;
        has_line(
            rt.alloc(),
            words,
            4,
            6,
            "open r1 route A B contract 5 10 20 2 delay 62 rate"
        )?
    );
    assert!(rt; count(rt.alloc(), words)? == Some(6));
    Ok(())
}

// These words are refused so.
fn refuses(rt: &impl Abort, alloc: Global, words: &str, told: &str) -> Result<(), Fail> {
    is_due(rt, &refusal(alloc, words)?.as_str(), &told);
    Ok(())
}

#[test]
fn changes_that_say_nothing_are_refused(rt: HostRuntime) -> Result<(), Fail> {
    refuses(
        &rt,
        rt.alloc(),
        "A.D1",
        "0: wanted is WHERE=VALUES, as in L34.D1=20..26 or *.buffer=1000,2000",
    )?;
    refuses(
        &rt,
        rt.alloc(),
        "A.D1=5 C.D1=4",
        "1: the scenario has no link or request C; it has A, B, r1, r2",
    )?;
    refuses(
        &rt,
        rt.alloc(),
        "A.best=4",
        "0: A has no best; a link has rate, cap, prop, buffer, best (where it has one), levels and D1 to D8",
    )?;
    refuses(
        &rt,
        rt.alloc(),
        "A.D1=x",
        "0: x isn't a number; wanted are 1 to 18 digits without a leading 0, a list as 10,20,50 or a range as 20..40/5",
    )?;
    refuses(
        &rt,
        rt.alloc(),
        "A.D1=5..4",
        "0: 5..4 isn't a range; wanted is LOW..HIGH or LOW..HIGH/STEP, as in 20..40/5, with whole numbers, LOW at most HIGH",
    )?;
    refuses(
        &rt,
        rt.alloc(),
        "A.D2=4 *.levels=4:5",
        "1: another change has a place of *.levels=4:5 already; one of them has to go, or to name less",
    )?;
    refuses(
        &rt,
        rt.alloc(),
        "A.D1=1..1000 B.D1=1..101",
        "1: with this change there are more than 100,000 variants; wanted are fewer values",
    )?;
    Ok(())
}

// Whether the line of a number of a variant of the design is this one.
fn has_line_of_design(
    alloc: Global,
    words: &str,
    variant: usize,
    number: usize,
    line: &str,
) -> Result<bool, Fail> {
    match made_of_design(alloc, words)? {
        Ok(variants) => {
            let text = text_of(alloc, &variants, variant)?;
            Ok(line_at(text.as_str(), number) == line && text.lines().count() == 14)
        }
        Err(_) => Ok(false),
    }
}

#[test]
fn a_key_of_a_design_is_replaced(rt: HostRuntime) -> Result<(), Fail> {
    let alloc = rt.alloc();
    assert!(rt;
        has_line_of_design(
            alloc,
            "tick=5 us,20 us",
            1,
            1,
            "tick = \"20 us\" # levels = none"
        )?
    );
    assert!(rt;
        has_line_of_design(
            alloc,
            "top.tick=5 us",
            0,
            1,
            "tick = \"5 us\" # levels = none"
        )?
    );
    assert!(rt;
        has_line_of_design(
            alloc,
            "a_b.best=4..6",
            2,
            3,
            "  { from = \"a\", to = \"b\", levels = [\"0.5 ms\", \"5 ms\"], best = 6 },"
        )?
    );
    assert!(rt;
        has_line_of_design(
            alloc,
            "link.*.levels=2 ms:9 ms",
            0,
            3,
            "  { from = \"a\", to = \"b\", levels = [\"2 ms\", \"9 ms\"], best = 3 },"
        )?
    );
    assert!(rt;
        has_line_of_design(
            alloc,
            "link.*.levels=2 ms:9 ms",
            0,
            4,
            "  { name = \"L\", from = \"b\", to = \"c\", levels = [\"2 ms\", \"9 ms\"] }"
        )?
    );
    assert!(rt;
        has_line_of_design(
            alloc,
            "defaults.link.rate=10 kbps",
            0,
            7,
            "rate = '10 kbps'"
        )?
    );
    assert!(rt;
        has_line_of_design(
            alloc,
            "class.voice.every=10..30 ms",
            1,
            9,
            "every = \"11 ms\""
        )?
    );
    assert!(rt;
        has_line_of_design(
            alloc,
            "call.copies=4/stream.call.within=1..3 ms",
            2,
            13,
            "copies = 4"
        )?
    );
    assert!(rt;
        has_line_of_design(
            alloc,
            "call.copies=4/stream.call.within=1..3 ms",
            2,
            14,
            "\"within\" = \"3 ms\""
        )?
    );
    Ok(())
}
