//! Four channels on a link: each sends at most 2 units in any 5 ticks on end, and 4 in any 20.
//!
//! A packet of the largest size takes 4 ticks, so with a first bound of D ticks, N channels, and M packets of each in D ticks, the load is
//! 4 + M * N * 2, and M is 2 up to 20 ticks, 3 up to 25 (two of the one window and one of the next), 4 up to 40. So 20 ticks hold four channels (20),
//! 21 two (16, and three have 22), 22 to 25 three (22), 26 two (20, three have 28), 28 three (28), and 36 four (36).
use crate::due::is_due;
use answer_grids::Format;
use network_variants::{BadChange, Form, Variants, variants_of};
use std::alloc::Global;
use std::test::Fail;
use std::thread::Threads;
use variant_answers::{Outcome, Trouble, Wanted, outcomes_of, summary_of};

const FOUR: &str = "\
tenet 1
link A n1 n2 rate 1 cap 4 prop 2 buffer 100 levels 20
caller k
open r1 route A contract 5 10 20 2 delay 40 rate
open r2 route A contract 5 10 20 2 delay 40 rate
open r3 route A contract 5 10 20 2 delay 40 rate
open r4 route A contract 5 10 20 2 delay 40 rate
rounds 0
tail 0
";

const LEAST: &str = "\
tenet 1
link A n1 n2 rate 1 cap 4 prop 2 buffer 100 levels 10 20 40
link B n2 n3 rate 1 cap 4 prop 2 buffer 100 levels 10 20 40
caller c
open r1 route A B contract 20 20 40 4 delay 64 rate
open r2 route A B contract 20 20 40 4 delay 44 jitter 20
rounds 0
tail 0
";

const DESIGN: &str = "\
link = [{ from = \"camera\", to = \"desk\", rate = \"100 Mbit/s\", levels = [\"0.5 ms\", \"5 ms\"] }]
[[stream]]
name = \"video\"
from = \"camera\"
to = \"desk\"
every = \"1 ms\"
size = \"1000 B\"
within = \"2 ms\"
";

// How the changes are judged.
#[derive(Clone, Copy)]
struct How {
    form: Form,
    workers: usize,
    least: bool,
    format: Format,
}

const PLAIN: How = How {
    form: Form::Scenario,
    workers: 2,
    least: false,
    format: Format::Text,
};

// What is said of a file with these changes, between which stands a `|`; a no has `no` before it.
fn said<R: Threads + Sync>(
    rt: &R,
    alloc: Global,
    file: &str,
    words: &str,
    how: How,
) -> Result<String, Fail> {
    match made(alloc, how.form, file, &parts(alloc, words)?) {
        Ok(variants) => judged(rt, alloc, &variants, how),
        Err(BadChange::Word { why, .. }) => Ok(why),
        Err(BadChange::Memory) => Ok(String::new(alloc)),
    }
}

fn parts(alloc: Global, words: &str) -> Result<Vec<String>, Fail> {
    let mut list = Vec::new(alloc);
    for word in words.split('|') {
        list.push(String::from_str(alloc, word)?)?;
    }
    Ok(list)
}

// The call, without the clauses of what it answers.
fn made(alloc: Global, form: Form, file: &str, words: &[String]) -> Result<Variants, BadChange> {
    variants_of(alloc, form, file.as_bytes(), words)
}

fn judged<R: Threads + Sync>(
    rt: &R,
    alloc: Global,
    variants: &Variants,
    how: How,
) -> Result<String, Fail> {
    let wanted = Wanted {
        form: how.form,
        least: how.least,
    };
    match outcomes_of(rt, alloc, wanted, variants, how.workers) {
        Ok(outcomes) => shown(alloc, variants, &outcomes, how.format),
        Err(Trouble::Memory | Trouble::Rule(_)) => Ok(String::new(alloc)),
    }
}

fn shown(
    alloc: Global,
    variants: &Variants,
    outcomes: &[Outcome],
    format: Format,
) -> Result<String, Fail> {
    let summary = summary_of(alloc, variants, outcomes, format)?;
    let text = String::from_utf8_lossy(alloc, summary.bytes.as_slice())?;
    let text = text.as_str();
    let front = if summary.holds { "" } else { "no\n" };
    Ok(format!(in alloc; "{front}{text}")?)
}

#[test]
fn a_first_bound_is_swept(rt: HostRuntime) -> Result<(), Fail> {
    let text = said(&rt, rt.alloc(), FOUR, "A.D1=20..36", PLAIN)?;
    is_due(
        &rt,
        text.as_str(),
        "20: 4 accepted\n21: 2 accepted, denied: r3 r4\n22 to 25: 3 accepted, denied: r4\n26 to 27: 2 accepted, denied: r3 r4\n28 to 35: 3 accepted, denied: r4\n36: 4 accepted\n",
    );
    Ok(())
}

#[test]
fn a_contract_is_swept(rt: HostRuntime) -> Result<(), Fail> {
    let text = said(&rt, rt.alloc(), FOUR, "r4.xave=10..20", PLAIN)?;
    is_due(&rt, text.as_str(), "10 to 20: 4 accepted\n");
    Ok(())
}

#[test]
fn a_refused_variant_has_its_cause(rt: HostRuntime) -> Result<(), Fail> {
    let text = said(&rt, rt.alloc(), FOUR, "A.D1=1..3/3", PLAIN)?;
    is_due(&rt, text.as_str(), "no\n1: refused 2 levels\n");
    Ok(())
}

#[test]
fn two_changes_give_all_combinations(rt: HostRuntime) -> Result<(), Fail> {
    // with a delay of 21 ticks the bound of 20 and the propagation of 2 are too much for r4, and with 23 the bound of 22 is
    let text = said(&rt, rt.alloc(), FOUR, "A.D1=20,22|r4.delay=21..23", PLAIN)?;
    is_due(
        &rt,
        text.as_str(),
        "A.D1=20 r4.delay=21: 3 accepted, denied: r4\nA.D1=20 r4.delay=22 to 23: 4 accepted\nA.D1=22 r4.delay=21 to 23: 3 accepted, denied: r4\n",
    );
    Ok(())
}

#[test]
fn the_number_of_workers_changes_nothing(rt: HostRuntime) -> Result<(), Fail> {
    for workers in 1..9 {
        let how = How {
            form: Form::Scenario,
            workers,
            least: false,
            format: Format::Csv,
        };
        let text = said(&rt, rt.alloc(), FOUR, "A.D1=20..22", how)?;
        is_due(
            &rt,
            text.as_str(),
            "A.D1,accepted,denied,tight,refused,promised_r1,promised_r2,promised_r3,promised_r4\n20,4,,,,22,22,22,22\n21,2,r3 r4,A,,23,23,,\n22,3,r4,A,,24,24,24,\n",
        );
    }
    Ok(())
}

#[test]
fn the_least_delays(rt: HostRuntime) -> Result<(), Fail> {
    // each link offers 10 ticks and has 2 of propagation: 24 in all
    let how = How {
        form: Form::Scenario,
        workers: 3,
        least: true,
        format: Format::Text,
    };
    let text = said(&rt, rt.alloc(), LEAST, "*.prop=2,3", how)?;
    is_due(
        &rt,
        text.as_str(),
        "2: 2 accepted; least: r1 24 r2 24\n3: 2 accepted; least: r1 26 r2 26\n",
    );
    Ok(())
}

#[test]
fn a_table_as_json(rt: HostRuntime) -> Result<(), Fail> {
    let how = How {
        form: Form::Scenario,
        workers: 3,
        least: false,
        format: Format::Json,
    };
    let text = said(&rt, rt.alloc(), FOUR, "A.D1=1,21", how)?;
    is_due(
        &rt,
        text.as_str(),
        "no\n{\"answer\":[\"1: refused 2 levels\",\"21: 2 accepted, denied: r3 r4\"],\"rows\":[{\"A.D1\":1,\"accepted\":null,\"denied\":null,\"promised_r1\":null,\"promised_r2\":null,\"promised_r3\":null,\"promised_r4\":null,\"refused\":\"2 levels\",\"tight\":null},{\"A.D1\":21,\"accepted\":2,\"denied\":\"r3 r4\",\"promised_r1\":23,\"promised_r2\":23,\"promised_r3\":null,\"promised_r4\":null,\"refused\":null,\"tight\":\"A\"}],\"yes\":false}\n",
    );
    Ok(())
}

#[test]
fn a_design_is_swept(rt: HostRuntime) -> Result<(), Fail> {
    // the link promises 0.5 ms
    let how = How {
        form: Form::Design,
        workers: 2,
        least: false,
        format: Format::Text,
    };
    let text = said(
        &rt,
        rt.alloc(),
        DESIGN,
        "video.within=0.4 ms,0.6 ms,1..3 ms",
        how,
    )?;
    is_due(
        &rt,
        text.as_str(),
        "0.4 ms: 0 accepted, denied: video\n0.6 ms: 1 accepted\n1 ms: 1 accepted\n2 ms: 1 accepted\n3 ms: 1 accepted\n",
    );
    let text = said(&rt, rt.alloc(), DESIGN, "stream.video.within=1..3 ms", how)?;
    is_due(&rt, text.as_str(), "1 ms to 3 ms: 1 accepted\n");
    let text = said(&rt, rt.alloc(), DESIGN, "stream.video.rate=1", how)?;
    is_due(
        &rt,
        text.as_str(),
        "stream video has no key rate whose value stands on one line; it has name, from, to, every, size, within",
    );
    Ok(())
}
