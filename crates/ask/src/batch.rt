//! Variants of a file, judged side by side.
use crate::reply::Reply;
use crate::status::Status;
use crate::trouble::Trouble;
use crate::words::{Asked, word_at};
use network_files::{is_scenario, push_seen};
use network_variants::{BadChange, Form, Variants, variants_of};
use std::alloc::{AllocError, Global};
use std::thread;
use std::thread::Threads;
use variant_answers::{Wanted, outcomes_of, summary_of};

/// What the variants of a file with these bytes come to, which the words behind the file's name say.
pub fn batch_of<R: Threads + Sync>(
    rt: &R,
    alloc: Global,
    words: &[String],
    asked: &Asked,
    bytes: &[u8],
) -> Result<Reply, Trouble> {
    let wanted = Wanted {
        form: if is_scenario(bytes) {
            Form::Scenario
        } else {
            Form::Design
        },
        least: asked.least,
    };
    let changes = changes_of(alloc, words, asked.after.as_slice())?;
    match variants_of(alloc, wanted.form, bytes, changes.as_slice()) {
        Ok(variants) => judged(rt, alloc, asked, wanted, &variants),
        Err(BadChange::Memory) => Err(Trouble::Memory),
        Err(BadChange::Word { place, why }) => {
            let text = refusal_text(alloc, word_at(changes.as_slice(), place), why.as_str())?;
            Ok(Reply::Refused {
                text,
                status: Status::Words,
            })
        }
    }
}

// The words at these places.
fn changes_of(
    alloc: Global,
    words: &[String],
    places: &[usize],
) -> Result<Vec<String>, AllocError> {
    let mut changes = Vec::new(alloc);
    for place in places {
        changes.push(String::from_str(alloc, word_at(words, *place))?)?;
    }
    Ok(changes)
}

// What is said of a change that is refused.
fn refusal_text(alloc: Global, word: &str, why: &str) -> Result<String, AllocError> {
    let mut text = String::from_str(alloc, "ask: ")?;
    push_seen(&mut text, word)?;
    text.push_str(": ")?;
    push_seen(&mut text, why)?;
    text.push('\n')?;
    Ok(text)
}

// What the variants come to.
fn judged<R: Threads + Sync>(
    rt: &R,
    alloc: Global,
    asked: &Asked,
    wanted: Wanted,
    variants: &Variants,
) -> Result<Reply, Trouble> {
    let workers = asked.workers.unwrap_or(processors(rt));
    let outcomes = outcomes_of(rt, alloc, wanted, variants, workers)?;
    let summary = summary_of(alloc, variants, outcomes.as_slice(), asked.format)?;
    Ok(Reply::Text {
        text: String::from_utf8_lossy(alloc, summary.bytes.as_slice())?,
        holds: summary.holds,
    })
}

// How many processors there are; 4 where that isn't known.
fn processors<R: Threads>(rt: &R) -> usize {
    match thread::available_parallelism(rt) {
        Ok(count) => count.get(),
        Err(_) => 4,
    }
}
