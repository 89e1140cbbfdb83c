//! Questions about the packets of a network, which is played by its schedule.
use crate::questions::{bytes_at, missing_step, refused};
use crate::reply::Reply;
use crate::status::Status;
use crate::trouble::Trouble;
use crate::words::{Asked, Question, word_at};
use network_files::{Network, push_seen, read_network};
use packet_questions::{Audit, BadLine, Trouble as Unplayed, audit_of, channels_of};
use std::alloc::{AllocError, Global};

/// The reply to a question about the packets of a network.
pub fn about_packets(
    alloc: Global,
    words: &[String],
    asked: &Asked,
    files: &[Vec<u8>],
) -> Result<Reply, Trouble> {
    let name = word_at(words, asked.file);
    let bytes = bytes_at(files, 0);
    let network = match read_network(alloc, name, bytes) {
        Ok(network) => network,
        Err(bad) => return refused(alloc, name, bytes, &bad),
    };
    let reply = if asked.question == Question::Audit {
        let table = asked.after.first().copied().unwrap_or(asked.file);
        audited(alloc, &network, word_at(words, table), bytes_at(files, 1))
    } else {
        channels(alloc, &network)
    };
    match reply {
        Ok(reply) => Ok(reply),
        Err(Unplayed::Memory) => Err(Trouble::Memory),
        Err(Unplayed::Step { line }) => missing_step(alloc, name, bytes, line),
    }
}

// What came of each channel.
fn channels(alloc: Global, network: &Network) -> Result<Reply, Unplayed> {
    Ok(Reply::Answer(channels_of(alloc, network)?))
}

// What was found of a table of this name and these bytes.
fn audited(alloc: Global, network: &Network, name: &str, table: &[u8]) -> Result<Reply, Unplayed> {
    match audit_of(alloc, network, table)? {
        Audit::Read { answer, .. } => Ok(Reply::Answer(answer)),
        Audit::Bad { lines, more } => Ok(Reply::Refused {
            text: bad_text(alloc, name, lines.as_slice(), more)?,
            status: Status::Refused,
        }),
    }
}

// What is said of the bad lines of a table.
fn bad_text(
    alloc: Global,
    name: &str,
    lines: &[BadLine],
    more: usize,
) -> Result<String, AllocError> {
    let mut text = String::new(alloc);
    for bad in lines {
        let (line, told) = (bad.line, bad.text.as_str());
        let sentence = format!(in alloc; "{name}:{line}: refused: {told}\n")?;
        push_seen(&mut text, sentence.as_str())?;
    }
    if more > 0 {
        let sentence = format!(in alloc; "{name}: {more} more lines are refused\n")?;
        push_seen(&mut text, sentence.as_str())?;
    }
    Ok(text)
}
