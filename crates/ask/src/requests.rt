//! Questions about requests that are named.
use crate::reply::Reply;
use crate::status::Status;
use crate::trouble::Trouble;
use crate::words::{Asked, Question, word_at};
use net_units::Name;
use network_files::{Network, push_seen};
use network_questions::{fit_of, least_of, request_named, route_of};
use std::alloc::{AllocError, Global};

/// The reply to a question about the requests that stand before the file.
pub fn about_named(
    alloc: Global,
    words: &[String],
    asked: &Asked,
    network: &Network,
) -> Result<Reply, Trouble> {
    match numbers_of(alloc, words, asked.before.as_slice(), network)? {
        Ok(numbers) => about_requests(alloc, asked.question, network, numbers.as_slice()),
        Err(place) => unknown(alloc, word_at(words, place)),
    }
}

// The reply to a question about the requests of these numbers.
fn about_requests(
    alloc: Global,
    question: Question,
    network: &Network,
    numbers: &[usize],
) -> Result<Reply, Trouble> {
    let first = numbers.first().copied().unwrap_or(0);
    let answer = match question {
        Question::Least => least_of(alloc, network, first)?,
        Question::Where => route_of(alloc, network, first)?,
        _ => fit_of(alloc, network, numbers)?,
    };
    Ok(Reply::Answer(answer))
}

// The numbers of the requests that the words at these places name, or the place of the word that names none.
fn numbers_of(
    alloc: Global,
    words: &[String],
    places: &[usize],
    network: &Network,
) -> Result<Result<Vec<usize>, usize>, AllocError> {
    let mut numbers = Vec::new(alloc);
    for place in places {
        let Some(number) = number_of(word_at(words, *place), network) else {
            return Ok(Err(*place));
        };
        numbers.push(number)?;
    }
    Ok(Ok(numbers))
}

// The number of the request that a word names.
fn number_of(word: &str, network: &Network) -> Option<usize> {
    let name = Name::new(word.as_bytes())?;
    request_named(&network.plan, &name)
}

// No request has this name.
fn unknown(alloc: Global, name: &str) -> Result<Reply, Trouble> {
    let mut text = String::from_str(alloc, "ask: the file has no request ")?;
    push_seen(&mut text, name)?;
    text.push('\n')?;
    Ok(Reply::Refused {
        text,
        status: Status::Words,
    })
}
