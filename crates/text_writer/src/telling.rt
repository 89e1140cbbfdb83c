//! Texts that are told to a sink piece by piece.
ghost use Rattle.std.specs.Prelude.{◌≡◌, List, ℕ, [], Err, IfOk, IsErr, string_bytes};
ghost use Rattle.text_writer.specs.declared.fault.ReportFault.TheVariants.{Memory};
ghost use Rattle.text_writer.specs.Telling.{Tells, TellsOrFails, WritesOrFails};

use crate::fault::ReportFault;
use byte_ends::{Gather, Sink, WriteFault, put_all};
use net_units::OutOfMemory;

/// Tells a text after what was gathered.
pub fn tell<K: Sink>(gather: &mut Gather, sink: &mut K, text: &[u8]) -> Result<(), WriteFault>
    ensures { TellsOrFails result (K.written sink.old) (K.written sink.new) gather.old gather.new (K.faults sink.old) (K.faults sink.new) text.now }
{
    gather.push(sink, text)
}

/// Tells a line, if there was memory for it.
pub fn tell_line<K: Sink>(
    gather: &mut Gather,
    sink: &mut K,
    line: Result<String, OutOfMemory>,
) -> Result<(), ReportFault>
    ensures told { (text : List ℕ) → IfOk line (λ l. string_bytes l ≡ text)
        → Tells result (K.written sink.old) (K.written sink.new) gather.old gather.new (K.faults sink.old) (K.faults sink.new) text }
    ensures memory { result ≡ Err Memory → IsErr line }
{
    let line = line?;
    Ok(tell(gather, sink, line.as_bytes())?)
}

/// Writes what is still gathered.
pub fn finish<K: Sink>(gather: Gather, sink: &mut K) -> Result<(), WriteFault>
    ensures { TellsOrFails result (K.written sink.old) (K.written sink.new) gather [] (K.faults sink.old) (K.faults sink.new) [] }
{
    gather.finish(sink)
}

/// Writes a line by itself, with nothing gathered.
#[tactic(auto, using(byte_ends::proofs::Gathering::parts))]
pub fn write_line<K: Sink>(sink: &mut K, line: &[u8]) -> Result<(), WriteFault>
    ensures { WritesOrFails result (K.written sink.old) (K.written sink.new) (K.faults sink.old) (K.faults sink.new) line.now }
{
    put_all(sink, line)
}
