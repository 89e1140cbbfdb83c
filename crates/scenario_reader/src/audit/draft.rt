//! What was read of an audit's input so far.
ghost use Rattle.std.specs.Prelude.{◌≡◌, ◌++◌, ◌∷◌, ◌&&◌, [], None, IfOk, IsTrue, OnOk, codes, nat_eq, replicate};
ghost use Rattle.call_script.specs.Accepted.{AreAccepted};
ghost use Rattle.run_record.specs.SmallRows.{AreSmall, IsSmall};
ghost use Rattle.scenario_reader.specs.AuditKept.{levels_given};
ghost use Rattle.scenario_reader.specs.AuditReading.{begins_report, nothing_read, report_begun, report_line, scenario_line, with_row};
ghost use Rattle.scenario_reader.specs.AuditRows.{row_told};
ghost use Rattle.scenario_reader.specs.ReadSteps.{Adds};
ghost use Rattle.scenario_reader.specs.Drafts.{is_complete, parts_said};
ghost use Rattle.scenario_reader.specs.Fields.{are_fields, field_at, fields_of};
ghost use Rattle.std.specs.Cmp.Lexicographic.{pointwise};
ghost use Rattle.scenario_reader.specs.declared.audit.place.Section.TheVariants as place;

use crate::audit::place::Section;
use crate::audit::row::is_row_text;
use crate::audit::table_reader::TableReader;
use crate::by_line::TakesLines;
use crate::cause::{LineCause, LineFault};
use crate::draft::Draft;
use crate::values::require;
use call_script::Plan;
use csv::ByteRecord;
use line_forms::{Fields, Reader};
use net_units::{Levels, OutOfMemory};
use run_record::HopRow;
use std::alloc::Global;
use std::marker::Model;

// The header of a table.
const HEADER: &[u8] = b"channel,packet,hop,link,size,at,eligible,departed";

/// What was read of an audit's input so far, where no line was refused.
///
/// A contract sees the record `AuditSaid`.
#[derive(Drop)]
pub struct AuditDraft {
    pub(crate) draft: Draft,
    pub(crate) place: Section,
    // From `report` on one entry a request.
    pub(crate) levels: Vec<Option<Levels>>,
    pub(crate) rows: Vec<HopRow>,
    // Reads the lines of the table; and the fields of the line that it read last.
    pub(crate) table: TableReader,
    pub(crate) fields: ByteRecord,
}

impl Model for AuditDraft {
    ghost use Rattle.scenario_reader.specs.AuditKept.{IsAuditDraft, levels_given};
    ghost use Rattle.scenario_reader.specs.AuditReading.{AuditSaid, audit_said};

    ghost Value = { AuditSaid };

    ghost view = { λ d. audit_said d.draft d.place (levels_given d.levels.items) d.rows.items };

    ghost invariant = { λ d. IsAuditDraft (audit_said d.draft d.place (levels_given d.levels.items) d.rows.items) };
}

impl TakesLines for AuditDraft {
    ghost use Rattle.scenario_reader.specs.AuditReading.{AuditReading};
    ghost use Rattle.scenario_reader.specs.AuditSteps.{audits};
    ghost use Rattle.scenario_reader.specs.ByLine.{audits_by_line};

    ghost Whole = { AuditReading };

    ghost language = { audits };

    #[tactic(auto, unfolding(crate::specs::AuditReading::audit_line))]
    fn add_line(
        &mut self,
        alloc: Global,
        reader: &mut Reader,
        number: u64,
        line: &[u8],
        ahead: &[u8],
    ) -> Result<(), LineFault> {
        match self.place {
            Section::Scenario => self.take_scenario(alloc, reader, number, line, ahead),
            Section::Report => self.take_report(line),
            Section::Table => self.take_row(alloc, line, ahead),
        }
    }

    fn judge_end(&self) -> Result<(), LineCause> {
        match self.place {
            Section::Scenario => Err(LineCause::End),
            Section::Report => Err(LineCause::Table),
            Section::Table => Ok(()),
        }
    }

    ghost by_line = { audits_by_line };
}

impl AuditDraft {
    /// Nothing has been read yet. An `Err` comes only for want of memory.
    pub fn new(alloc: Global) -> Result<AuditDraft, OutOfMemory>
        ensures { IfOk result (λ draft. draft ≡ nothing_read) }
    {
        Ok(AuditDraft {
            draft: Draft::new(alloc)?,
            place: Section::Scenario,
            levels: Vec::new(alloc),
            rows: Vec::new(alloc),
            table: TableReader::new(alloc),
            fields: ByteRecord::new(alloc),
        })
    }

    // A line of the scenario, or the line `report`.
    fn take_scenario(
        &mut self,
        alloc: Global,
        reader: &mut Reader,
        number: u64,
        line: &[u8],
        ahead: &[u8],
    ) -> Result<(), LineFault>
        requires { self.old.place ≡ place.Scenario }
        ensures { Adds result self.new (scenario_line self.old number line.now) }
    {
        if self.begins_report(line) {
            require(Fields::of(line).count() == 1, LineCause::Shape)?;
            self.begin_report(alloc)?;
        } else {
            self.draft.add_line(alloc, reader, number, line, ahead)?;
        }
        Ok(())
    }

    // Whether a line begins with the word `report`, where a scenario may end.
    fn begins_report(&self, line: &[u8]) -> bool
        ensures { result ≡ begins_report self.now.said (fields_of line.now) }
    {
        self.draft.is_complete() && is_report(&Fields::of(line))
    }

    // From here on the lines are those of a report, and no request is known to be accepted.
    fn begin_report(&mut self, alloc: Global) -> Result<(), OutOfMemory>
        requires { IsTrue (is_complete self.old.said) }
        ensures { OnOk result (self.new ≡ report_begun self.old) }
    {
        self.levels = no_levels(alloc, self.draft.request_count())?;
        self.place = Section::Report;
        Ok(())
    }

    // A line of the report, or the header of the table.
    fn take_report(&mut self, line: &[u8]) -> Result<(), LineFault>
        requires { self.old.place ≡ place.Report }
        ensures { Adds result self.new (report_line self.old line.now) }
    {
        if line == HEADER {
            self.place = Section::Table;
        } else if line.starts_with(b"accept ") {
            match self.acceptance(&Fields::of(line)) {
                Some(told) => self.levels[told.request] = Some(told.levels),
                None => return Err(LineFault::Refused(LineCause::Accept)),
            }
        }
        Ok(())
    }

    // A line of the table, with bytes that stand after it.
    fn take_row(&mut self, alloc: Global, line: &[u8], ahead: &[u8]) -> Result<(), LineFault>
        requires { self.old.place ≡ place.Table }
        ensures { Adds result self.new (with_row self.old (row_told self.old.said line.now)) }
    {
        require(is_row_text(line), LineCause::Table)?;
        self.table.read(alloc, line, ahead, &mut self.fields)?;
        let row = self.draft.row_of(&self.fields).ok_or(LineCause::Table)?;
        self.put_row(&row)?;
        Ok(())
    }

    // Adds a row.
    fn put_row(&mut self, row: &HopRow) -> Result<(), OutOfMemory>
        requires { IsSmall row.now }
        ensures { OnOk result (self.new ≡ record self.old { rows = self.old.rows ++ row.now ∷ [] }) }
    {
        self.rows.push(*row)?;
        Ok(())
    }

    /// The plan, the levels of its requests, and the rows, once the table's header was read.
    pub fn into_parts(self) -> (Plan, Vec<Option<Levels>>, Vec<HopRow>)
        requires { self.place ≡ place.Table }
        ensures plan { result.0 ≡ parts_said self.said }
        ensures levels { levels_given result.1.items ≡ self.levels }
        ensures rows { result.2.items ≡ self.rows }
        ensures accepted { AreAccepted result.0 result.1.items }
        ensures small { AreSmall result.2.items }
    {
        let (plan, _schedule) = self.draft.into_plan();
        (plan, self.levels, self.rows)
    }
}

// Whether a line has fields, of which the first is the word `report`.
fn is_report(fields: &Fields) -> bool
    ensures { result ≡ (are_fields fields.now && pointwise nat_eq (field_at fields.now 0) (codes "report")) }
{
    fields.are_written() && fields.at(0) == b"report".as_slice()
}

// No levels of this many requests.
fn no_levels(alloc: Global, count: usize) -> Result<Vec<Option<Levels>>, OutOfMemory>
    ensures { IfOk result (λ levels. levels.items ≡ replicate count None) }
{
    let mut levels = Vec::with_capacity(alloc, count)?;
    for _ in 0..count {
        levels.push(None)?;
    }
    Ok(levels)
}
