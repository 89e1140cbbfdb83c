//! Reading a text line by line.
ghost use Rattle.std.specs.Prelude.{◌≡◌, ◌≤◌, ℕ, Err, None, OnOk};
ghost use Rattle.std.specs.Io.KnownBytes.{IsAtEnd};
ghost use Rattle.byte_ends.specs.Cutting.{IsCutting, IsOf};
ghost use Rattle.byte_ends.specs.Faults.{FaultsRise};
ghost use Rattle.scenario_reader.specs.Causes.{Judges};
ghost use Rattle.scenario_reader.specs.ReadSteps.{Adds, AddsLine, IsByLine, Language, ReadsLine, TakesTooMany, TellsLines};
ghost use Rattle.scenario_reader.specs.Reading.{PassesFrom};

use crate::cause::{Cause, LineCause, LineFault};
use crate::reader::{MOST_BYTES, ReadRefusal};
use byte_ends::{Cut, LineRefusal, Lines, Source};
use line_forms::Reader;
use std::alloc::Global;

/// What was read so far of a text that is judged line by line.
pub(crate) trait TakesLines {
    // What a text comes to.
    ghost Whole: { Type 0 };

    ghost language: { Language Self Whole };

    /// Judges the line of this number, and adds what it says where it isn't refused. `ahead` are bytes that stand after it and are in
    /// hand; they are not judged. The line is read by `reader`, which may have read others.
    fn add_line(
        &mut self,
        alloc: Global,
        reader: &mut Reader,
        number: u64,
        line: &[u8],
        ahead: &[u8],
    ) -> Result<(), LineFault>
        ensures { Adds result self.new (language.says self.old number line.now) };

    /// Why the text may not end here, if it may not.
    fn judge_end(&self) -> Result<(), LineCause>
        ensures { Judges result (language.ends self.now) tt };

    ghost by_line: { IsByLine language };
}

// Reads lines to the end of the text, or up to the line that is refused.
pub(crate) fn read_lines<S: Source, D: TakesLines>(
    alloc: Global,
    draft: &mut D,
    source: &mut S,
) -> Result<(), ReadRefusal>
    requires { draft.old ≡ D.language.first }
    ensures told { TellsLines D.language result draft.new (S.left source.old) }
    ensures whole { OnOk result (D.language.ends draft.new ≡ None) }
    ensures ended { OnOk result (IsAtEnd (S.left source.new)) }
    ensures fault { result ≡ Err ReadRefusal.ReadFault → FaultsRise (S.faults source.old) (S.faults source.new) }
    ensures passing { result ≡ Err ReadRefusal.ReadFault → PassesFrom D.language.says D.language.first MOST_BYTES (S.left source.old) (S.left source.new) }
    ensures over { (taken : ℕ) → result ≡ Err (ReadRefusal.TooLong taken) → TakesTooMany taken MOST_BYTES (S.left source.old) (S.left source.new) }
    ensures counts { S.faults source.old ≤ S.faults source.new }
{
    let mut lines = Lines::new(alloc, MOST_BYTES)?;
    let mut reader = Reader::new();
    while read_line(alloc, &mut reader, &mut lines, draft, source)? {}
    match draft.judge_end() {
        Ok(()) => Ok(()),
        Err(cause) => Err(ReadRefusal::Refused {
            line: lines.number() + 1,
            cause: cause.into(),
        }),
    }
}

// Reads the next line and adds what it says. It answers whether there was one.
fn read_line<S: Source, D: TakesLines>(
    alloc: Global,
    reader: &mut Reader,
    lines: &mut Lines,
    draft: &mut D,
    source: &mut S,
) -> Result<bool, ReadRefusal>
    requires cutting { IsCutting lines.old }
    requires source { IsOf lines.old (S.left source.old) }
    ensures reads { ReadsLine D.language result lines.old lines.new draft.old draft.new (S.left source.old) (S.left source.new)
        (S.faults source.old) (S.faults source.new) }
    ensures counts { S.faults source.old ≤ S.faults source.new }
{
    match lines.read_line(source) {
        Ok(Cut::End) => Ok(false),
        Ok(Cut::Line) => {
            take_line(
                alloc,
                reader,
                draft,
                lines.number(),
                lines.line(),
                lines.rest_of_block(),
            )?;
            Ok(true)
        }
        Err(LineRefusal::ReadFault) => Err(ReadRefusal::ReadFault),
        Err(LineRefusal::Memory) => Err(ReadRefusal::Memory),
        Err(LineRefusal::TooLong { taken }) => Err(ReadRefusal::TooLong { taken }),
        Err(LineRefusal::NoLineEnd { line }) => Err(ReadRefusal::Refused {
            line,
            cause: Cause::Cut,
        }),
    }
}

// Judges a line and adds what it says.
fn take_line<D: TakesLines>(
    alloc: Global,
    reader: &mut Reader,
    draft: &mut D,
    number: u64,
    line: &[u8],
    ahead: &[u8],
) -> Result<(), ReadRefusal>
    ensures { AddsLine result number draft.new (D.language.says draft.old number line.now) }
{
    match draft.add_line(alloc, reader, number, line, ahead) {
        Ok(()) => Ok(()),
        Err(LineFault::Memory) => Err(ReadRefusal::Memory),
        Err(LineFault::Refused(cause)) => Err(ReadRefusal::Refused {
            line: number,
            cause: cause.into(),
        }),
    }
}
