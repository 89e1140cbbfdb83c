//! The questions and their answers, by the crates that answer them.
use crate::batch::batch_of;
use crate::packets::about_packets;
use crate::pages::{page, picture};
use crate::reply::Reply;
use crate::requests::about_named;
use crate::status::Status;
use crate::trouble::Trouble;
use crate::words::{Asked, Question, word_at};
use network_files::{BadNetwork, Network, read_network, refusal_of};
use network_questions::{links_of, table_of};
use scenario_reader::Cause;
use std::alloc::Global;
use std::thread::Threads;
use timed_files::{refusal_of_timed, schedule_text};

/// The reply to a question. Of its files these are the bytes, the first one's first.
pub fn reply_to<R: Threads + Sync>(
    rt: &R,
    alloc: Global,
    words: &[String],
    asked: &Asked,
    files: &[Vec<u8>],
) -> Result<Reply, Trouble> {
    match asked.question {
        Question::Batch => batch_of(rt, alloc, words, asked, bytes_at(files, 0)),
        Question::Schedule => scheduled(alloc, word_at(words, asked.file), bytes_at(files, 0)),
        Question::Channels | Question::Audit => about_packets(alloc, words, asked, files),
        _ => about_network(alloc, words, asked, files),
    }
}

/// The bytes of the file of a number, from 0.
pub fn bytes_at(files: &[Vec<u8>], number: usize) -> &[u8] {
    match files.get(number) {
        Some(bytes) => bytes.as_slice(),
        None => &[],
    }
}

// The scenario with a schedule that a file with ticks becomes.
fn scheduled(alloc: Global, name: &str, bytes: &[u8]) -> Result<Reply, Trouble> {
    match schedule_text(alloc, name, bytes) {
        Ok(text) => Ok(Reply::Text { text, holds: true }),
        Err(bad) => {
            let (text, refused) = refusal_of_timed(alloc, name, bytes, &bad)?;
            Ok(Reply::Refused {
                text,
                status: Status::from(refused),
            })
        }
    }
}

// The reply to a question about the network that the first file describes.
fn about_network(
    alloc: Global,
    words: &[String],
    asked: &Asked,
    files: &[Vec<u8>],
) -> Result<Reply, Trouble> {
    let name = word_at(words, asked.file);
    let bytes = bytes_at(files, 0);
    match read_network(alloc, name, bytes) {
        Ok(network) => match about(alloc, words, asked, &network, bytes) {
            Err(Trouble::Step { line }) => missing_step(alloc, name, bytes, line),
            replied => replied,
        },
        Err(bad) => refused(alloc, name, bytes, &bad),
    }
}

/// What is said of a file of this name and these bytes whose schedule asks on a line for a step that isn't left.
pub fn missing_step(alloc: Global, name: &str, bytes: &[u8], line: u64) -> Result<Reply, Trouble> {
    let cause = Cause::Step;
    refused(alloc, name, bytes, &BadNetwork::Line { line, cause })
}

/// What is said of a file of this name and these bytes that describes no network.
pub fn refused(
    alloc: Global,
    name: &str,
    bytes: &[u8],
    bad: &BadNetwork,
) -> Result<Reply, Trouble> {
    let (text, refused) = refusal_of(alloc, name, bytes, bad)?;
    Ok(Reply::Refused {
        text,
        status: Status::from(refused),
    })
}

// The reply to a question about a network, which a file of these bytes describes.
fn about(
    alloc: Global,
    words: &[String],
    asked: &Asked,
    network: &Network,
    bytes: &[u8],
) -> Result<Reply, Trouble> {
    let name = word_at(words, asked.file);
    match asked.question {
        Question::Table => Ok(Reply::Answer(table_of(alloc, network)?)),
        Question::Links => Ok(Reply::Answer(links_of(alloc, network)?)),
        Question::Page => page(alloc, network, name, bytes),
        Question::Picture => picture(alloc, words, asked, network, name),
        _ => about_named(alloc, words, asked, network),
    }
}
