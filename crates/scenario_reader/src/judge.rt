//! Judging a line after what was read before it.
//!
//! A line is read up to its values, which then stand in the reader; what they say is the kind's own. So what a line says is made once,
//! where it is added or answered.
ghost use Rattle.std.specs.Prelude.{◌≡◌, Some, IfOk};
ghost use Rattle.scenario_reader.specs.Causes.{AnswersWithRoom};
ghost use Rattle.scenario_reader.specs.line.Table.{MayAdd};
ghost use Rattle.scenario_reader.specs.Grammar.{judge_after, judge, is_passed_over};
ghost use Rattle.scenario_reader.specs.ReadSteps.{ReadsAs};

use crate::cause::{LineCause, LineFault};
use crate::draft::Draft;
use crate::item::Item;
use crate::line::header::header_version;
use crate::line::table::{forms_of, line_word};
use crate::values::require;
use call_script::Version;
use line_forms::{Fields, Keyword, Reader};
use std::alloc::Global;

// What a line was read as, up to its values.
#[derive(Clone, Copy)]
pub(crate) enum LineKind {
    // It is passed over.
    Nothing,
    // The header, with the version of the language.
    Header(Version),
    // A line that begins with this word, in this version.
    Values(Keyword, Version),
}

impl Draft {
    /// What the line of this number says after what was read, or the cause by which it is refused.
    pub fn judge(&self, alloc: Global, number: u64, line: &[u8]) -> Result<Item, LineFault>
        ensures judged { AnswersWithRoom result (judge self.now number line.now) }
        ensures room { IfOk result (MayAdd self.now) }
    {
        // What may be added goes by what a draft keeps, which is known where a part of it is seen.
        let _ = &self.version;
        let mut reader = Reader::new();
        match self.read(&mut reader, line)? {
            LineKind::Nothing => Ok(Item::Nothing),
            LineKind::Header(version) => Ok(Item::Header(version)),
            LineKind::Values(word, version) => {
                self.say(alloc, word, version, number, reader.values())
            }
        }
    }

    // Reads a line up to its values, by a reader that may have read others.
    #[tactic(auto, unfolding(crate::specs::Grammar::judge))]
    pub(crate) fn read(&self, reader: &mut Reader, line: &[u8]) -> Result<LineKind, LineFault>
        ensures { ReadsAs result (λ number. judge self.now number line.now) self.now reader.new.values }
    {
        if is_passed_over(line) {
            return Ok(LineKind::Nothing);
        }
        let fields = Fields::of(line);
        require(fields.are_written(), LineCause::Shape)?;
        match self.version {
            None => {
                let version = header_version(&fields).ok_or(LineCause::Header)?;
                Ok(LineKind::Header(version))
            }
            Some(version) => self.read_values(reader, version, &fields),
        }
    }

    // Reads a line after the header, which begins with a word, up to its values.
    fn read_values(
        &self,
        reader: &mut Reader,
        version: Version,
        fields: &Fields,
    ) -> Result<LineKind, LineFault>
        ensures { ReadsAs result (λ number. judge_after (Some version) self.now number fields.now) self.now reader.new.values }
    {
        let word = line_word(fields.at(0)).ok_or(LineCause::Word)?;
        require(self.may_stand(version, word), LineCause::Word)?;
        reader.read_line(forms_of(version, word), self, fields)?;
        Ok(LineKind::Values(word, version))
    }
}

// Whether a line is passed over: an empty one, and one that begins with `#`.
fn is_passed_over(line: &[u8]) -> bool
    ensures { result ≡ is_passed_over line.now }
{
    match line {
        [] => true,
        [first, ..] => *first == b'#',
    }
}
