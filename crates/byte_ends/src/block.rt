//! The block of bytes that a source is read into.
ghost use Rattle.std.specs.Prelude.{◌≡◌, ℕ, ◌<◌, ◌≤◌, ◌==◌, [], length, drop, IfOk};
ghost use Rattle.byte_ends.specs.Reading.{Reads, TakesAtMost, Refills};

use crate::source::{Source, Took};
use net_units::OutOfMemory;
use std::alloc::Global;
use std::marker::Model;

/// How many bytes a block has room for.
pub const BLOCK: usize = 65_536;

/// A block of bytes, seen as those that were read into it and not passed on yet.
#[derive(Debug, Drop)]
pub struct Block {
    bytes: Vec<u8>,
    from: usize,
    upto: usize,
}

impl Model for Block {
    ghost use Rattle.std.specs.Prelude.{◌≡◌, ℕ, ◌≤◌, List, take, drop, vec_len};
    ghost use Rattle.byte_ends.specs.declared.block.TheConstants.{BLOCK};

    ghost Value = { List ℕ };

    ghost view = { λ a. drop a.from (take a.upto a.bytes.items) };

    ghost invariant = { λ a. (a.from ≤ a.upto) × (a.upto ≤ vec_len a.bytes)
        × (vec_len a.bytes ≡ BLOCK) };
}

impl Block {
    /// An empty block, with its room.
    pub fn new(alloc: Global) -> Result<Block, OutOfMemory>
        ensures { IfOk result (λ b. b ≡ []) }
    {
        let bytes = vec![in alloc; 0u8; BLOCK]?;
        Ok(Block {
            bytes,
            from: 0,
            upto: 0,
        })
    }

    /// The bytes that weren't passed on yet.
    pub fn rest(&self) -> &[u8]
        ensures rest { result.now ≡ self.now }
        ensures within { length self.now ≤ BLOCK }
    {
        &self.bytes[self.from..self.upto]
    }

    /// Whether all were passed on.
    pub fn is_empty(&self) -> bool
        ensures { result ≡ (length self.now == 0) }
    {
        self.from == self.upto
    }

    /// Passes the first `count` bytes on.
    pub fn skip(&mut self, count: usize)
        requires { count ≤ length self.old }
        ensures { self.new ≡ drop count self.old }
    {
        self.from += count;
    }

    /// Reads at most `want` bytes, from 1 to [`BLOCK`], into the empty block.
    pub fn refill<S: Source>(&mut self, source: &mut S, want: usize) -> Took
        requires empty { self.old ≡ [] }
        requires some { 0 < want }
        requires room { want ≤ BLOCK }
        ensures { Refills result want self.new (S.left source.old) (S.left source.new)
            (S.faults source.old) (S.faults source.new) }
    {
        let took = read_front(source, self.bytes.as_mut_slice(), want);
        self.from = 0;
        self.upto = match took {
            Took::Taken(count) => count,
            Took::End | Took::Failed => 0,
        };
        took
    }
}

// Reads at most `want` bytes into the front of the room.
fn read_front<S: Source>(source: &mut S, room: &mut [u8], want: usize) -> Took
    requires some { 0 < want }
    requires fits { want ≤ length room.old }
    ensures reads { Reads result (S.left source.old) (S.left source.new) room.new
        (S.faults source.old) (S.faults source.new) }
    ensures at_most { TakesAtMost want result }
{
    source.read(&mut room[..want])
}
