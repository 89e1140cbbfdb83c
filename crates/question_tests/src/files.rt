//! Texts with ticks, and the scenarios that they become, worked out by hand.
use crate::due::is_due;
use std::alloc::Global;
use std::test::Fail;
use timed_files::{refusal_of_timed, schedule_text};

const LINKS: &str = "\
tenet 1
# tick 10 us
link A n1 n2 rate 1 cap 4 prop 2 buffer 100 levels 10 20 40
link B n2 n3 rate 1 cap 4 prop 2 buffer 100 levels 10 20 40
link C n3 n4 rate 1 cap 4 prop 2 buffer 100 levels 10 20 40
";

const PAIRS: &str = "\
# both go1 back1
# both go2 back2
tick = \"10 us\"
unit = \"1 byte\"
run = \"0.1 ms\"
test = \"whole\"
stream = [
  { name = \"go1\", class = \"call\", route = \"T\", within = \"0.43 ms\" },
  { name = \"back1\", class = \"call\", route = \"B\", within = \"0.13 ms\" },
  { name = \"go2\", class = \"call\", route = \"T\", within = \"0.43 ms\", start = \"50 us\", end = \"90 us\" },
  { name = \"back2\", class = \"call\", route = \"B\", within = \"0.13 ms\", start = \"50 us\", end = \"90 us\" },
]
link = [
  { name = \"T\", from = \"n1\", to = \"n2\", levels = [\"0.4 ms\"], rate = \"800 kbit/s\", largest = \"4 B\", latency = \"20 us\", buffer = \"100 B\" },
  { name = \"B\", from = \"n2\", to = \"n1\", levels = [\"0.1 ms\"], rate = \"800 kbit/s\", largest = \"4 B\", latency = \"20 us\", buffer = \"100 B\" },
]
[class.call]
every = \"0.2 ms\"
size = \"4 B\"
";

// The text that links with these operations become, or what is said of them.
fn text_of(rt: &HostRuntime, operations: &str) -> Result<String, Fail> {
    let alloc = rt.alloc();
    let file = format!(in alloc; "{LINKS}{operations}")?;
    text_of_file(alloc, file.as_str())
}

// The text that a file becomes, or what is said of it.
fn text_of_file(alloc: Global, file: &str) -> Result<String, Fail> {
    match schedule_text(alloc, "net", file.as_bytes()) {
        Ok(text) => Ok(text),
        Err(bad) => {
            let (text, _) = refusal_of_timed(alloc, "net", file.as_bytes(), &bad)?;
            Ok(text)
        }
    }
}

// The part of a text from a word on.
fn from_word<'a>(text: &'a str, word: &str) -> &'a str {
    match text.find(word) {
        Some(place) => text.get(place..).unwrap_or(""),
        None => text,
    }
}

// The plane makes 3 ticks a round and 3 arrivals before round 21, and 3 after it.
#[test]
fn calls_that_come_and_go(rt: HostRuntime) -> Result<(), Fail> {
    let text = text_of(
        &rt,
        "\
at 0 open r1 route A B C contract 5 10 20 2 delay 36 jitter 10
at 0 send r1 5 10 2
at 205 us close r1
open r2 route A B C contract 5 10 20 2 delay 36 jitter 10
at 850us open r3 route A B C contract 5 10 20 2 delay 36 jitter 10
at 1 ms end
",
    )?;
    is_due(
        &rt,
        from_word(text.as_str(), "caller"),
        "\
caller calls
open r1 route A B C contract 5 10 20 2 delay 36 jitter 10
send r1 5 10 2
close r1
open r2 route A B C contract 5 10 20 2 delay 36 jitter 10
open r3 route A B C contract 5 10 20 2 delay 36 jitter 10
rounds 100
tail 0
schedule
# at 0
do calls 7
do plane 66
# at 21
do calls 9
do plane 195
# at 85
do calls 6
do plane 45
",
    );
    is_due(&rt, text.as_str().lines().next(), Some("# tick 10 us"));
    is_due(
        &rt,
        text.as_str().lines().nth(1),
        Some("# line 8: 205 us is rounded up to tick 21"),
    );
    Ok(())
}

// Two callers, the second of which asks first; in tick 5 the first one's operation comes first. The plane's 3 ticks a round are all its steps.
#[test]
fn operations_of_two_callers(rt: HostRuntime) -> Result<(), Fail> {
    let text = text_of(
        &rt,
        "\
caller k1
at 5 open r1 route A contract 5 10 20 2 delay 12 rate
at 7 close r1
caller k2
open r2 route B C contract 5 10 20 2 delay 24 rate
at 5 close r2
rounds 10
tail 2
",
    )?;
    is_due(
        &rt,
        from_word(text.as_str(), "schedule"),
        "\
schedule
# at 0
do k2 4
do plane 15
# at 5
do k1 2
do k2 2
do plane 6
# at 7
do k1 1
do plane 15
",
    );
    Ok(())
}

// Each refused line has the number that it has in the file.
#[test]
fn lines_that_are_refused(rt: HostRuntime) -> Result<(), Fail> {
    let text = text_of(
        &rt,
        "at 3 open r1 route A contract 5 10 20 2 delay 12 rate\nat 2 close r1\nat 9 end\n",
    )?;
    is_due(
        &rt,
        text.as_str(),
        "net:7: refused: at 2 close r1\n  an operation of this caller above comes at tick 3; its ticks may not fall\n",
    );
    let text = text_of(
        &rt,
        "at 3 open r1 route A contract 5 10 20 2 delay 12 rate\nat 12 close r1\nat 9 end\n",
    )?;
    is_due(
        &rt,
        text.as_str(),
        "net:7: refused: at 12 close r1\n  the last round is 9; nothing comes after it\n",
    );
    let text = text_of(
        &rt,
        "at 3 open r1 route A contract 5 10 20 2 delay 12 rate\nat 4 close r2\nat 9 end\n",
    )?;
    is_due(
        &rt,
        text.as_str().lines().next(),
        Some("net:7: refused: close r2"),
    );
    let text = text_of(&rt, "at 3 ells open r1\n")?;
    is_due(
        &rt,
        text.as_str().lines().next(),
        Some("net:6: refused: at 3 ells open r1"),
    );
    let text = text_of(&rt, "at 9 end\nrounds 3\n")?;
    is_due(
        &rt,
        text.as_str(),
        "net:7: refused: rounds 3\n  at TIME end has to be the last line, notes aside\n",
    );
    Ok(())
}

// A design's stream begins at 1 ms, at tick 100, and ends at 2 ms. Its route has one link: a setup takes 2 steps, a close 1, a round 1.
#[test]
fn a_stream_that_begins_and_ends(rt: HostRuntime) -> Result<(), Fail> {
    let text = text_of_file(
        rt.alloc(),
        "tick = \"10 us\"
unit = \"1 byte\"
run = \"3 ms\"
link = [{ from = \"camera\", to = \"desk\", rate = \"100 Mbit/s\", levels = [\"0.5 ms\", \"5 ms\"] }]
[[stream]]
name = \"video\"
from = \"camera\"
to = \"desk\"
every = \"1 ms\"
size = \"1000 B\"
within = \"2 ms\"
start = \"1 ms\"
end = \"2 ms\"
",
    )?;
    is_due(
        &rt,
        from_word(text.as_str(), "schedule"),
        "\
schedule
do plane 100
# at 100
do streams 2
do plane 100
# at 200
do streams 1
do plane 100
",
    );
    Ok(())
}

// Calls there and back. A channel brings 2 packets of 4 ticks into 40 ticks, and 1 into 10, and the largest packet takes 4: there is room for
// four there (4 + 4 * 8 = 36), and for one back (4 + 4 = 8 of 10). So of the second call only the way there is accepted, and is closed at once.
#[test]
fn both_or_none(rt: HostRuntime) -> Result<(), Fail> {
    let text = text_of_file(
        rt.alloc(),
        "\
tenet 1
link T n1 n2 rate 1 cap 4 prop 2 buffer 100 levels 40
link B n2 n1 rate 1 cap 4 prop 2 buffer 100 levels 10
at 0 open go1 route T contract 20 20 40 4 delay 42 rate
open back1 route B contract 20 20 40 4 delay 12 rate
both go1 back1
at 5 open go2 route T contract 20 20 40 4 delay 42 rate
at 5 open back2 route B contract 20 20 40 4 delay 12 rate
at 5 both go2 back2
at 6 end
",
    )?;
    is_due(
        &rt,
        from_word(text.as_str(), "caller"),
        "\
caller calls
open go1 route T contract 20 20 40 4 delay 42 rate
open back1 route B contract 20 20 40 4 delay 12 rate
open go2 route T contract 20 20 40 4 delay 42 rate
open back2 route B contract 20 20 40 4 delay 12 rate
close go2
rounds 6
tail 0
schedule
# at 0
do calls 4
do plane 10
# at 5
do calls 4
do plane 2
",
    );
    is_due(
        &rt,
        text.as_str().lines().next(),
        Some("# line 9: not both go2 and back2 are accepted, so go2 is closed"),
    );
    Ok(())
}

// The same calls as streams of a design: 4 bytes each 0.2 ms at 400 kbit/s are 20 ticks and 4 units, with bounds of 42 and 12 ticks. The second
// pair ends at 0.6 ms, which doesn't matter to the one that is closed at once.
#[test]
fn both_or_none_of_streams(rt: HostRuntime) -> Result<(), Fail> {
    let text = text_of_file(rt.alloc(), PAIRS)?;
    is_due(
        &rt,
        from_word(text.as_str(), "caller"),
        "\
caller streams
open go1 route T contract 20 20 20 4 delay 42 rate
open back1 route B contract 20 20 20 4 delay 12 rate
open go2 route T contract 20 20 20 4 delay 42 rate
open back2 route B contract 20 20 20 4 delay 12 rate
close go2
close back2
rounds 10
tail 0
schedule
# at 0
do streams 4
do plane 10
# at 5
do streams 4
do plane 10
",
    );
    is_due(
        &rt,
        text.as_str().lines().nth(1),
        Some("# not both go2 and back2 are accepted, so go2 is closed"),
    );
    Ok(())
}
