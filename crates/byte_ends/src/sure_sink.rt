//! A sink that meets no fault and keeps nothing.
ghost use Rattle.std.specs.Prelude.{◌≡◌, ◌+◌, ◌-◌, ◌^◌, ◌<◌, min, None, length};
ghost use Rattle.byte_ends.specs.Writing.{Writes};

use crate::sink::{Put, Sink};
use std::marker::Model;

/// A sink that counts the bytes written to it and keeps none of them. It meets no fault: its count of faults is
/// always 0. It doesn't tell what was written.
#[derive(Debug, Drop)]
pub struct SureSink {
    count: u64,
}

impl Model for SureSink {
    ghost use Rattle.std.specs.Prelude.{ℕ};

    ghost Value = { ℕ };

    ghost view = { λ a. a.count };
}

impl SureSink {
    /// A sink to which nothing was written yet.
    pub fn new() -> SureSink
        ensures { result ≡ 0 }
    {
        SureSink { count: 0 }
    }

    /// How many bytes were written, at most 2^64 - 1.
    pub fn count(&self) -> u64
        ensures { result ≡ self.now }
    {
        self.count
    }
}

impl Sink for SureSink {
    ghost written = { λ _. None };

    ghost faults = { λ _. 0 };

    fn write(&mut self, piece: &[u8]) -> Put
        requires { 0 < length piece.now }
        ensures writes { Writes result None None piece.now 0 0 }
        ensures whole { result ≡ Put.Wrote (length piece.now) }
        ensures counted { self.new ≡ min (self.old + length piece.now) (2 ^ 64 - 1) }
    {
        self.count = self.count.saturating_add(piece.len() as u64);
        Put::Wrote(piece.len())
    }
}
