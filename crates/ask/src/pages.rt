//! A network as a page, and its pictures alone.
use crate::reply::Reply;
use crate::status::Status;
use crate::trouble::Trouble;
use crate::words::{Asked, word_at};
use network_files::{Network, push_seen};
use page_builder::{add_written, facts_of, page_text, picture_named, picture_text};
use page_packets::add_packets;
use std::alloc::Global;

/// The page of a network whose file has this name and these bytes.
pub fn page(alloc: Global, network: &Network, name: &str, bytes: &[u8]) -> Result<Reply, Trouble> {
    let mut facts = facts_of(alloc, network, title_of(name))?;
    add_packets(alloc, network, &mut facts)?;
    add_written(alloc, &mut facts, name, bytes)?;
    Ok(Reply::Text {
        text: page_text(alloc, &facts)?,
        holds: facts.are_all_accepted(),
    })
}

/// One of its pictures.
pub fn picture(
    alloc: Global,
    words: &[String],
    asked: &Asked,
    network: &Network,
    name: &str,
) -> Result<Reply, Trouble> {
    let word = asked
        .before
        .first()
        .map_or("", |place: &usize| word_at(words, *place));
    let Some(picture) = picture_named(word) else {
        return no_picture(alloc, word);
    };
    let facts = facts_of(alloc, network, title_of(name))?;
    Ok(Reply::Text {
        text: picture_text(alloc, &facts, picture)?,
        holds: facts.are_all_accepted(),
    })
}

// No picture has this name.
fn no_picture(alloc: Global, name: &str) -> Result<Reply, Trouble> {
    let mut text = String::from_str(
        alloc,
        "ask: a picture is delays, links or network, and not ",
    )?;
    push_seen(&mut text, name)?;
    text.push('\n')?;
    Ok(Reply::Refused {
        text,
        status: Status::Words,
    })
}

// The name of a file without its folders.
fn title_of(name: &str) -> &str {
    match name.rsplit_once('/') {
        Some((_, title)) => title,
        None => name,
    }
}
