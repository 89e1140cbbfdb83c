//! The program `ask`: a designer's questions about a network, and their answers.
#![tactic(auto)]

pub mod batch;
pub mod files;
pub mod help;
pub mod packets;
pub mod pages;
pub mod questions;
pub mod reply;
pub mod requests;
pub mod status;
pub mod top;
pub mod trouble;
pub mod words;

use byte_ends::{Sink, StdSink, StdSource};
use files::{file_places, take_all};
use status::Status;
use std::alloc::AllocError;
use std::process::ExitCode;
use std::rt::Env;
use std::{env, fs, io};
use top::{answer, unread, wished};
use words::{Asked, read_words, word_at};

// Answers by standard output, and says what is wrong on standard error.
fn main(rt: HostRuntime) -> ExitCode {
    let mut errors = StdSink::new(rt.stderr());
    let mut sink = StdSink::new(io::writer(&rt));
    let status = match all_words(&rt) {
        Ok(words) => {
            let words = words_after_first(words.as_slice());
            match asked_of(&rt, words, &mut sink, &mut errors) {
                Ok((asked, files)) => answer(
                    &rt,
                    rt.alloc(),
                    words,
                    &asked,
                    files.as_slice(),
                    &mut sink,
                    &mut errors,
                ),
                Err(status) => status,
            }
        }
        Err(_) => Status::Words,
    };
    ExitCode::from(status.code())
}

// The question that the words ask, and its files; or how the program ends without them.
fn asked_of<K: Sink, E: Sink>(
    rt: &HostRuntime,
    words: &[String],
    sink: &mut K,
    errors: &mut E,
) -> Result<(Asked, Vec<Vec<u8>>), Status> {
    let alloc = rt.alloc();
    let wish = read_words(alloc, words);
    let asked = wished(alloc, words, wish, sink, errors)?;
    match read_files(rt, words, &asked) {
        Ok(Ok(files)) => Ok((asked, files)),
        Ok(Err(place)) => Err(unread(alloc, word_at(words, place), errors)),
        Err(AllocError) => Err(Status::Memory),
    }
}

// The bytes of the files of a question, or the place of the word that names the first that can't be read.
fn read_files(
    rt: &HostRuntime,
    words: &[String],
    asked: &Asked,
) -> Result<Result<Vec<Vec<u8>>, usize>, AllocError> {
    let places = file_places(rt.alloc(), asked)?;
    let mut files = Vec::new(rt.alloc());
    for place in &places {
        let Some(bytes) = read_file(rt, word_at(words, *place))? else {
            return Ok(Err(*place));
        };
        files.push(bytes)?;
    }
    Ok(Ok(files))
}

// The bytes of a file, or of standard input: None where it can't be read.
fn read_file(rt: &HostRuntime, name: &str) -> Result<Option<Vec<u8>>, AllocError> {
    if name == "-" {
        return take_all(rt.alloc(), &mut StdSource::new(rt.reader()));
    }
    match fs::open(rt, name) {
        Ok(file) => take_all(rt.alloc(), &mut StdSource::new(file)),
        Err(_) => Ok(None),
    }
}

// All words, the program's name first.
fn all_words(rt: &(impl Env + AllocGlobal)) -> io::Result<Vec<String>> {
    Ok(env::args(rt)?.collect(rt.alloc())?)
}

// The words after the first.
fn words_after_first(words: &[String]) -> &[String] {
    match words {
        [] => &[],
        [_, rest @ ..] => rest,
    }
}
