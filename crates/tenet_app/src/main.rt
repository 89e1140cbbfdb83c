//! The program `tenet`: from the bytes of a scenario to the bytes of a report.
#![tactic(auto)]

ghost use Rattle.std.specs.Prelude.{◌≡◌, ◌↔◌, drop};
ghost use Rattle.std.specs.IoError.{error_kind};
ghost use Rattle.std.specs.declared.io.ErrorKind.TheVariants.{OutOfMemory};
ghost use Rattle.tenet_app.specs.declared.status.Status.TheVariants.{Memory, Words};

pub mod auditing;
pub mod laws;
pub mod making;
pub mod playing;
pub mod racing;
pub mod status;
pub mod top;
mod words;
pub mod working;

use byte_ends::{StdSink, StdSource};
use net_units::NoGate;
use status::Status;
use std::io::ErrorKind;
use std::process::ExitCode;
use std::rt::Env;
use std::{env, io};
use top::top;

// Plays over standard input and output, and exits with the status that `top` answers. It prints nothing itself.
fn main(rt: HostRuntime) -> ExitCode {
    let status = match read_words(&rt) {
        Ok(words) => {
            let mut source = StdSource::new(rt.reader());
            let mut sink = StdSink::new(io::writer(&rt));
            let ended = top(
                &rt,
                rt.alloc(),
                words_after_first(words.as_slice()),
                &mut source,
                &mut sink,
                &NoGate,
            );
            ended.status
        }
        Err(error) => unread_words(&error),
    };
    ExitCode::from(status.code())
}

// All words, the program's name first.
fn read_words(rt: &(impl Env + AllocGlobal)) -> io::Result<Vec<String>> {
    Ok(env::args(rt)?.collect(rt.alloc())?)
}

// The words after the first.
fn words_after_first(words: &[String]) -> &[String]
    ensures { result.now ≡ drop 1 words.now }
{
    match words {
        [] => &[],
        [_, rest @ ..] => rest,
    }
}

// Words that can't be read aren't accepted, unless it was memory for them that ran out.
fn unread_words(error: &io::Error) -> Status
    ensures memory { (result ≡ Memory) ↔ (error_kind error.now ≡ OutOfMemory) }
    ensures words { (result ≡ Words) ↔ ¬ (error_kind error.now ≡ OutOfMemory) }
{
    if error.kind() == ErrorKind::OutOfMemory {
        Status::Memory
    } else {
        Status::Words
    }
}

#[cfg(test)]
mod tests;
