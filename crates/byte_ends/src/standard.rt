//! Readers and writers of the standard library as sources and sinks.
//!
//! These adapters are the edge of what is proved: they tell nothing of content, and what a file, a pipe or a terminal
//! gives and takes is outside it. An interrupted call is tried again, at most [`RETRIES`] times; every other error is a
//! fault, and so is a call that is interrupted once more than that.
ghost use Rattle.std.specs.Prelude.{◌≡◌, ◌<◌, ◌≤◌, None, IfSome, length};
ghost use Rattle.byte_ends.specs.Reading.{Reads};
ghost use Rattle.byte_ends.specs.Writing.{Writes, WritesSome};

use crate::sink::{Put, Sink};
use crate::source::{Source, Took};
use std::io::{Error, ErrorKind, Read, Write};
use std::marker::Model;

/// How often an interrupted call is tried again.
pub const RETRIES: u32 = 64;

/// A reader as a source, with a count of the reads that failed.
#[derive(Drop)]
pub struct StdSource<R: Read + Drop> {
    from: R,
    faults: u64,
}

impl<R: Read + Drop> Model for StdSource<R> {
    ghost use Rattle.std.specs.Prelude.{ℕ};

    ghost Value = { ℕ };

    ghost view = { λ a. a.faults };
}

impl<R: Read + Drop> StdSource<R> {
    /// A source that reads from this reader, and met no fault yet.
    pub fn new(from: R) -> StdSource<R>
        ensures { result ≡ 0 }
    {
        StdSource { from, faults: 0 }
    }

    /// How many faults it met.
    pub fn faults(&self) -> u64
        ensures { result ≡ self.now }
    {
        self.faults
    }
}

impl<R: Read + Drop> Source for StdSource<R> {
    ghost left = { λ _. None };

    ghost faults = { λ s. s };

    fn read(&mut self, room: &mut [u8]) -> Took
        requires { 0 < length room.old }
        ensures reads { Reads result None None room.new self.old self.new }
    {
        match read_retrying(&mut self.from, room) {
            Some(0) => Took::End,
            Some(count) => Took::Taken(count),
            None => {
                self.faults = self.faults.saturating_add(1);
                Took::Failed
            }
        }
    }
}

// How many bytes a read took, where it didn't fail.
fn read_retrying<R: Read>(from: &mut R, room: &mut [u8]) -> Option<usize>
    ensures { IfSome result (λ count. count ≤ length room.new) }
{
    for _attempt in 0..=RETRIES {
        match from.read(room) {
            Ok(count) => return Some(count),
            Err(error) => {
                if !is_interrupted(&error) {
                    return None;
                }
            }
        }
    }
    None
}

/// A writer as a sink, with a count of the writes that failed. Each write is flushed.
#[derive(Drop)]
pub struct StdSink<W: Write + Drop> {
    to: W,
    faults: u64,
}

impl<W: Write + Drop> Model for StdSink<W> {
    ghost use Rattle.std.specs.Prelude.{ℕ};

    ghost Value = { ℕ };

    ghost view = { λ a. a.faults };
}

impl<W: Write + Drop> StdSink<W> {
    /// A sink that writes to this writer, and met no fault yet.
    pub fn new(to: W) -> StdSink<W>
        ensures { result ≡ 0 }
    {
        StdSink { to, faults: 0 }
    }

    /// How many faults it met.
    pub fn faults(&self) -> u64
        ensures { result ≡ self.now }
    {
        self.faults
    }
}

impl<W: Write + Drop> Sink for StdSink<W> {
    ghost written = { λ _. None };

    ghost faults = { λ s. s };

    fn write(&mut self, piece: &[u8]) -> Put
        requires { 0 < length piece.now }
        ensures writes { Writes result None None piece.now self.old self.new }
    {
        if let Some(count) = write_retrying(&mut self.to, piece)
            && flush_retrying(&mut self.to)
        {
            return Put::Wrote(count);
        }
        self.faults = self.faults.saturating_add(1);
        Put::Failed
    }
}

// How many bytes of the piece a write took, where it took some and didn't fail.
fn write_retrying<W: Write>(to: &mut W, piece: &[u8]) -> Option<usize>
    ensures { IfSome result (WritesSome piece.now) }
{
    for _attempt in 0..=RETRIES {
        match to.write(piece) {
            Ok(0) => return None,
            Ok(count) => return Some(count),
            Err(error) => {
                if !is_interrupted(&error) {
                    return None;
                }
            }
        }
    }
    None
}

// Whether a flush succeeded.
fn flush_retrying<W: Write>(to: &mut W) -> bool {
    for _attempt in 0..=RETRIES {
        match to.flush() {
            Ok(()) => return true,
            Err(error) => {
                if !is_interrupted(&error) {
                    return false;
                }
            }
        }
    }
    false
}

// Whether the call was interrupted, so that it may be made again.
fn is_interrupted(error: &Error) -> bool {
    error.kind() == ErrorKind::Interrupted
}
