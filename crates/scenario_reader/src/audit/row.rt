//! Judging the rows of a table.
ghost use Rattle.std.specs.Prelude.{◌≡◌, IfOk, IfSome, option_map};
ghost use Rattle.std.specs.List.{list_all};
ghost use Rattle.csv.specs.Records.{fields_of};
ghost use Rattle.run_record.specs.SmallRows.{IsSmall};
ghost use Rattle.scenario_reader.specs.AuditRows.{AreSmallNumbers, is_plain, is_row_text, link_in, numbers_of, numbers_rule, row_of};
ghost use Rattle.scenario_reader.specs.Causes.{Judges};
ghost use Rattle.scenario_reader.specs.Drafts.{shape_in};
ghost use Rattle.scenario_reader.specs.Fields.{field_at};

use crate::cause::LineCause;
use crate::draft::Draft;
use crate::values::{name, number};
use csv::ByteRecord;
use link_steps::LinkShape;
use run_record::HopRow;

// The packet's number and the ticks of a row are below 2 to the 40th.
const MOST_COUNT: u64 = (1 << 40) - 1;

// The numbers of a row.
#[derive(Clone, Copy)]
pub(crate) struct RowNumbers {
    pub(crate) number: u64,
    pub(crate) hop: u8,
    pub(crate) size: u32,
    pub(crate) at: u64,
    pub(crate) eligible: u64,
    pub(crate) departed: u64,
}

impl Draft {
    // The row that has these fields, if there is one.
    pub(crate) fn row_of(&self, fields: &ByteRecord) -> Option<HopRow>
        ensures value { result ≡ row_of self.now (fields_of fields.now) }
        ensures small { IfSome result IsSmall }
    {
        if fields.len() != 8 {
            return None;
        }
        let chan = self.channel_in(column(fields, 0))?;
        let link = self.link_in(column(fields, 3))?;
        let numbers = judge_numbers(fields).ok()?;
        Some(HopRow {
            chan,
            number: numbers.number,
            hop: numbers.hop,
            link: link.link,
            size: numbers.size,
            at: numbers.at,
            eligible: numbers.eligible,
            departed: numbers.departed,
        })
    }

    // The shape of the link whose name a field is.
    fn link_in(&self, field: &[u8]) -> Option<LinkShape>
        ensures { result ≡ option_map shape_in (link_in self.now.links field.now) }
    {
        let name = name(field).ok()?;
        self.link_named(&name)
    }
}

// The numbers of a row, where each is within what it may be.
fn judge_numbers(fields: &ByteRecord) -> Result<RowNumbers, LineCause>
    ensures judged { Judges result (numbers_rule (fields_of fields.now)) (numbers_of (fields_of fields.now)) }
    ensures small { IfOk result AreSmallNumbers }
{
    let packet = number(column(fields, 1), 0, MOST_COUNT)?;
    let hop = number(column(fields, 2), 0, u64::from(u8::MAX))?;
    let size = number(column(fields, 4), 0, u64::from(u32::MAX))?;
    let at = number(column(fields, 5), 0, MOST_COUNT)?;
    let eligible = number(column(fields, 6), 0, MOST_COUNT)?;
    let departed = number(column(fields, 7), 0, MOST_COUNT)?;
    Ok(RowNumbers {
        number: packet,
        hop: hop as u8,
        size: size as u32,
        at,
        eligible,
        departed,
    })
}

// Whether the line isn't empty, and has bytes from 0x21 to 0x7E alone and no quote.
pub(crate) fn is_row_text(line: &[u8]) -> bool
    ensures { result ≡ is_row_text line.now }
{
    !line.is_empty() && are_plain(line)
}

fn are_plain(line: &[u8]) -> bool
    ensures { result ≡ list_all is_plain line.now }
{
    line.iter().all(|byte| matches!(*byte, b'!' | b'#'..=b'~'))
}

// The field at a place, from 0, or no bytes where there is none.
fn column(fields: &ByteRecord, place: usize) -> &[u8]
    ensures { result.now ≡ field_at (fields_of fields.now) place }
{
    match fields.get(place) {
        Some(field) => field,
        None => &[],
    }
}
