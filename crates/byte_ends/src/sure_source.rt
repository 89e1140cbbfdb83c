//! Bytes in memory as a source that meets no fault.
ghost use Rattle.std.specs.Prelude.{◌≡◌, ◌<◌, ◌≤◌, Some, length};
ghost use Rattle.byte_ends.specs.Reading.{Reads};
ghost use Rattle.byte_ends.specs.Supply.{Supplies};

use crate::source::{Source, Took};
use std::marker::Model;

/// A source over bytes in memory. It meets no fault: its count is always 0.
#[derive(Debug, Drop)]
pub struct SureSource {
    bytes: Vec<u8>,
    at: usize,
    most: usize,
}

impl Model for SureSource {
    ghost use Rattle.std.specs.Prelude.{◌≤◌, length, drop};
    ghost use Rattle.byte_ends.specs.Supply.{Supply};

    ghost Value = { Supply };

    ghost view = { λ a. record { left = drop a.at a.bytes.items; most = a.most } };

    ghost invariant = { λ a. (a.at ≤ length a.bytes.items) × (1 ≤ a.most) };
}

impl SureSource {
    /// A source that has these bytes left, and gives at most `most` of them, at least 1, in one read.
    pub fn new(bytes: Vec<u8>, most: usize) -> SureSource
        requires { 1 ≤ most }
        ensures { result ≡ record { left = bytes.items; most = most } }
    {
        SureSource { bytes, at: 0, most }
    }
}

impl Source for SureSource {
    ghost left = { λ s. Some s.left };

    ghost faults = { λ _. 0 };

    fn read(&mut self, room: &mut [u8]) -> Took
        requires { 0 < length room.old }
        ensures reads { Reads result (Some self.old.left) (Some self.new.left) room.new 0 0 }
        ensures supplies { Supplies result self.old self.new room.new }
    {
        let rest = &self.bytes[self.at..];
        let count = rest.len().min(room.len()).min(self.most);
        if count == 0 {
            return Took::End;
        }
        room[..count].copy_from_slice(&rest[..count]);
        self.at += count;
        Took::Taken(count)
    }
}
