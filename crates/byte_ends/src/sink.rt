//! Where bytes are written to.
ghost use Rattle.std.specs.Prelude.{◌≡◌, ℕ, ◌<◌, ◌≤◌, List, [], length, Option, IsOk, OnOk, OnErr};
ghost use Rattle.std.specs.Io.KnownBytes.{Appends};
ghost use Rattle.byte_ends.specs.Faults.{FaultsRise};
ghost use Rattle.byte_ends.specs.Writing.{Writes, WritesFront};

/// What one write to a sink took.
#[derive(Clone, Copy, Debug, PartialEq, Eq)]
pub enum Put {
    /// This many bytes of the piece, at least one, were written.
    Wrote(usize),
    /// The sink met a fault, which its count of faults shows. Nothing was written.
    Failed,
}

/// Bytes that are written one piece after another.
///
/// A sink is seen as the bytes written to it, where it tells them, and the number of faults that it met so far.
/// That number never falls.
pub trait Sink {
    // The bytes written, where the sink tells them.
    ghost written: { Self → Option (List ℕ) };

    // The faults met so far.
    ghost faults: { Self → ℕ };

    /// Writes the first bytes of the piece, which isn't empty.
    fn write(&mut self, piece: &[u8]) -> Put
        requires { 0 < length piece.now }
        ensures writes { Writes result (written self.old) (written self.new) piece.now (faults self.old)
            (faults self.new) };
}

/// A sink failed before all of a piece was written.
#[derive(Clone, Copy, Debug, PartialEq, Eq)]
pub struct WriteFault;

/// Writes the whole piece. A fault comes only where the sink's count of faults rose in this call, and then a prefix
/// of the piece was written.
pub fn put_all<K: Sink>(sink: &mut K, piece: &[u8]) -> Result<(), WriteFault>
    ensures ok { OnOk result (Appends (K.written sink.old) (K.written sink.new) piece.now) }
    ensures fault { OnErr result (FaultsRise (K.faults sink.old) (K.faults sink.new)) }
    ensures front { OnErr result (WritesFront (K.written sink.old) (K.written sink.new) piece.now) }
    ensures counts { K.faults sink.old ≤ K.faults sink.new }

    // An empty piece isn't written at all.
    ensures empty_ok { piece.now ≡ [] → IsOk result }
    ensures empty_same { piece.now ≡ [] → sink.new ≡ sink.old }
{
    let mut done = 0;
    while done < piece.len() {
        match sink.write(&piece[done..]) {
            Put::Wrote(count) => done += count,
            Put::Failed => return Err(WriteFault),
        }
    }
    Ok(())
}
