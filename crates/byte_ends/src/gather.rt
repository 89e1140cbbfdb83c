//! Pieces that are gathered before they are written.
ghost use Rattle.std.specs.Prelude.{◌≡◌, ◌+◌, ◌≤◌, ◌<◌, ◌++◌, [], length, IfOk, IsOk, OnOk, OnErr};
ghost use Rattle.std.specs.Io.KnownBytes.{Appends};
ghost use Rattle.byte_ends.specs.Faults.{FaultsRise};
ghost use Rattle.byte_ends.specs.Gathering.{Gathers, WritesBlocks, WritesPart};

use crate::block::BLOCK;
use crate::reserved::add_reserved;
use crate::sink::{Sink, WriteFault, put_all};
use net_units::OutOfMemory;
use std::alloc::Global;
use std::marker::Model;

/// Pieces for one sink that are gathered before they are written, at most 65,536 bytes at a time. Its memory is taken once.
///
/// A contract sees the bytes that are gathered and not written yet.
#[derive(Debug, Drop)]
pub struct Gather {
    bytes: Vec<u8>,
}

impl Model for Gather {
    ghost use Rattle.std.specs.Prelude.{ℕ, ◌≤◌, List, vec_len, vec_capacity};
    ghost use Rattle.byte_ends.specs.declared.block.TheConstants.{BLOCK};

    ghost Value = { List ℕ };

    ghost view = { λ g. g.bytes.items };

    ghost invariant = { λ g. (vec_len g.bytes ≤ BLOCK) × (BLOCK ≤ vec_capacity g.bytes) };
}

impl Gather {
    /// Nothing is gathered yet.
    pub fn new(alloc: Global) -> Result<Gather, OutOfMemory>
        ensures { IfOk result (λ g. g ≡ []) }
    {
        Ok(Gather {
            bytes: Vec::with_capacity(alloc, BLOCK)?,
        })
    }

    /// Adds the piece to those gathered before it. Nothing is written while all of it fits into 65,536 bytes, and afterwards blocks
    /// of so many bytes are. A fault comes only where the sink's count of faults rose in this call, and then a prefix of what was
    /// gathered and of the piece was written.
    pub fn push<K: Sink>(&mut self, sink: &mut K, piece: &[u8]) -> Result<(), WriteFault>
        ensures ok { OnOk result (Gathers (K.written sink.old) (K.written sink.new) self.old self.new piece.now) }
        ensures fault { OnErr result (FaultsRise (K.faults sink.old) (K.faults sink.new)) }
        ensures front { OnErr result (WritesPart (K.written sink.old) (K.written sink.new) (self.old ++ piece.now)) }
        ensures counts { K.faults sink.old ≤ K.faults sink.new }

        // What fits isn't written, and what is written are whole blocks.
        ensures sure { length self.old + length piece.now ≤ BLOCK → IsOk result }
        ensures unwritten { length self.old + length piece.now ≤ BLOCK → sink.new ≡ sink.old }
        ensures blocks { OnOk result (WritesBlocks (K.written sink.old) (K.written sink.new)) }
    {
        let mut done = 0;
        while done < piece.len() {
            self.make_room(sink)?;
            let count = (BLOCK - self.bytes.len()).min(piece.len() - done);
            add_reserved(&mut self.bytes, &piece[done..done + count]);
            done += count;
        }
        Ok(())
    }

    /// Writes what is gathered. A fault comes only where the sink's count of faults rose in this call, and then a prefix of it
    /// was written.
    #[tactic(auto, using(crate::proofs::Gathering::parts))]
    pub fn finish<K: Sink>(self, sink: &mut K) -> Result<(), WriteFault>
        ensures ok { OnOk result (Appends (K.written sink.old) (K.written sink.new) self) }
        ensures fault { OnErr result (FaultsRise (K.faults sink.old) (K.faults sink.new)) }
        ensures front { OnErr result (WritesPart (K.written sink.old) (K.written sink.new) self) }
        ensures counts { K.faults sink.old ≤ K.faults sink.new }
    {
        put_all(sink, self.bytes.as_slice())
    }

    // Writes what is gathered where there is no room for more, and has nothing gathered then.
    #[tactic(auto, using(crate::proofs::Gathering::parts))]
    fn make_room<K: Sink>(&mut self, sink: &mut K) -> Result<(), WriteFault>
        ensures ok { OnOk result (Gathers (K.written sink.old) (K.written sink.new) self.old self.new []) }
        ensures room { OnOk result (length self.new < BLOCK) }
        ensures sure { length self.old < BLOCK → IsOk result }
        ensures unwritten { length self.old < BLOCK → sink.new ≡ sink.old }
        ensures kept { length self.old < BLOCK → self.new ≡ self.old }
        ensures blocks { OnOk result (WritesBlocks (K.written sink.old) (K.written sink.new)) }
        ensures fault { OnErr result (FaultsRise (K.faults sink.old) (K.faults sink.new)) }
        ensures front { OnErr result (WritesPart (K.written sink.old) (K.written sink.new) self.old) }
        ensures counts { K.faults sink.old ≤ K.faults sink.new }
    {
        if self.bytes.len() < BLOCK {
            return Ok(());
        }
        put_all(sink, self.bytes.as_slice())?;
        self.bytes.clear();
        Ok(())
    }
}
