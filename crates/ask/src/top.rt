//! What the program does with its words.
ghost use Rattle.std.specs.Prelude.{◌≡◌, true, false, Ok, Err};
ghost use Rattle.ask.specs.Quiet.{QuietEnd, QuietTold, is_quiet, is_unwritten};
ghost use Rattle.ask.specs.declared.status.Status.TheVariants.{File};
ghost use Rattle.ask.specs.declared.words.Asked.{Asked};
ghost use Rattle.ask.specs.declared.words.BadWords.{BadWords};
ghost use Rattle.ask.specs.declared.words.Wish.TheVariants.{Answer};

use crate::help::{help_text, wrong_words};
use crate::questions::reply_to;
use crate::reply::Reply;
use crate::status::Status;
use crate::trouble::Trouble;
use crate::words::{Asked, BadWords, Wish};
use answer_grids::{Format, bytes_of};
use byte_ends::{Sink, put_all};
use network_files::push_seen;
use std::alloc::{AllocError, Global};
use std::thread::Threads;

/// Answers a question, whose files have these bytes. The answer goes to one sink, and what is said of a refusal to the other. Where the words are
/// wrong, a line is refused or memory is short, nothing is written to the first.
pub fn answer<R: Threads + Sync, K: Sink, E: Sink>(
    rt: &R,
    alloc: Global,
    words: &[String],
    asked: &Asked,
    files: &[Vec<u8>],
    sink: &mut K,
    errors: &mut E,
) -> Status
    ensures { QuietEnd result sink.old sink.new }
{
    match reply_to(rt, alloc, words, asked, files) {
        Ok(reply) => match told(alloc, &reply, asked.format, sink, errors) {
            Ok(status) => status,
            Err(trouble) => tell_trouble(alloc, trouble, errors),
        },
        Err(trouble) => tell_trouble(alloc, trouble, errors),
    }
}

// Writes a reply, and answers how the program ends.
fn told<K: Sink, E: Sink>(
    alloc: Global,
    reply: &Reply,
    format: Format,
    sink: &mut K,
    errors: &mut E,
) -> Result<Status, Trouble>
    ensures { QuietTold result sink.old sink.new }
{
    match reply {
        Reply::Answer(answer) => {
            let bytes = bytes_of(alloc, answer, format)?;
            whole(sink, bytes.as_slice(), answer.holds)
        }
        Reply::Text { text, holds } => whole(sink, text.as_bytes(), *holds),
        Reply::Refused { text, status } => {
            put_all(errors, text.as_bytes())?;
            Ok(*status)
        }
    }
}

// Writes an answer, and tells whether it is a yes.
fn whole<K: Sink>(sink: &mut K, bytes: &[u8], holds: bool) -> Result<Status, Trouble>
    ensures { QuietTold result sink.old sink.new }
{
    match put_all(sink, bytes) {
        Ok(()) => Ok(yes_or_no(holds)),
        Err(_) => Err(Trouble::Write),
    }
}

fn yes_or_no(holds: bool) -> Status
    ensures { is_quiet result ≡ false }
{
    if holds { Status::Yes } else { Status::No }
}

/// Says that a file of this name can't be read.
pub fn unread<E: Sink>(alloc: Global, name: &str, errors: &mut E) -> Status {
    written(unread_text(alloc, name), errors, Status::File)
}

// What is said of it.
fn unread_text(alloc: Global, name: &str) -> Result<String, AllocError> {
    let mut text = String::from_str(alloc, "ask: ")?;
    push_seen(&mut text, name)?;
    text.push_str(" can't be read\n")?;
    Ok(text)
}

// Why there is no answer, and how the program ends.
fn tell_trouble<E: Sink>(alloc: Global, trouble: Trouble, errors: &mut E) -> Status
    ensures { is_unwritten trouble ≡ true → result ≡ File }
{
    match trouble {
        Trouble::Memory => Status::Memory,
        Trouble::Write => Status::File,
        Trouble::Rule(rule) => written(rule_text(alloc, rule), errors, Status::Refused),
        Trouble::Step { .. } | Trouble::Undecided => {
            let text = "ask: the schedule doesn't come to a decision on the request\n";
            written(String::from_str(alloc, text), errors, Status::Refused)
        }
    }
}

// What is said of a question whose plan breaks a rule.
fn rule_text(alloc: Global, rule: u8) -> Result<String, AllocError> {
    if rule == 9 {
        String::from_str(
            alloc,
            "ask: the file has too many requests or callers to add another\n",
        )
    } else {
        format!(in alloc; "ask: the question can't be put to this file, by rule {rule}\n")
    }
}

/// Writes help, or says what is wrong with words that ask for no answer. Words that do ask for one are handed back.
pub fn wished<K: Sink, E: Sink>(
    alloc: Global,
    words: &[String],
    wish: Result<Wish, BadWords>,
    sink: &mut K,
    errors: &mut E,
) -> Result<Asked, Status>
    ensures asked { (asked : Asked) → wish ≡ Ok (Answer asked) → sink.new ≡ sink.old }
    ensures wrong { (bad : BadWords) → wish ≡ Err bad → sink.new ≡ sink.old }
{
    match wish {
        Ok(Wish::Answer(asked)) => Ok(asked),
        Ok(Wish::Help(question)) => Err(written(help_text(alloc, question), sink, Status::Yes)),
        Err(bad) => Err(written(wrong_words(alloc, words, bad), errors, Status::Words)),
    }
}

// Writes a text, and answers how the program ends.
fn written<K: Sink>(text: Result<String, AllocError>, sink: &mut K, status: Status) -> Status {
    match text {
        Ok(text) => match put_all(sink, text.as_bytes()) {
            Ok(()) => status,
            Err(_) => Status::File,
        },
        Err(AllocError) => Status::Memory,
    }
}
