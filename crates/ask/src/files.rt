//! The files of a question.
use crate::words::{Asked, entry_of};
use byte_ends::{Source, Took};
use std::alloc::{AllocError, Global};

/// The most bytes of a file that are read: one more than a scenario may have.
const MOST_BYTES: usize = 4_194_305;

/// The most bytes that are read at once.
const BLOCK: usize = 65_536;

/// The places of the words that are names of files, the network's first.
pub fn file_places(alloc: Global, asked: &Asked) -> Result<Vec<usize>, AllocError> {
    let mut places = Vec::new(alloc);
    places.push(asked.file)?;
    for place in asked.after.iter().take(entry_of(asked.question).more_files) {
        places.push(*place)?;
    }
    Ok(places)
}

/// All bytes of a source, at most as many as are read: None where it fails.
pub fn take_all<S: Source>(alloc: Global, source: &mut S) -> Result<Option<Vec<u8>>, AllocError> {
    let mut room = vec![in alloc; 0u8; BLOCK]?;
    let mut bytes = Vec::new(alloc);
    for _ in 0..u64::MAX {
        if bytes.len() >= MOST_BYTES {
            break;
        }
        match read_block(source, room.as_mut_slice()) {
            Took::Taken(count) => add_front(&mut bytes, room.as_slice(), count)?,
            Took::End => break,
            Took::Failed => return Ok(None),
        }
    }
    Ok(Some(bytes))
}

// Reads the next bytes of a source into a block.
fn read_block<S: Source>(source: &mut S, room: &mut [u8]) -> Took {
    if room.is_empty() {
        return Took::End;
    }
    source.read(room)
}

// Adds so many bytes of a block.
fn add_front(bytes: &mut Vec<u8>, room: &[u8], count: usize) -> Result<(), AllocError> {
    match room.get(..count) {
        Some(front) => bytes.extend_from_slice(front),
        None => Ok(()),
    }
}
