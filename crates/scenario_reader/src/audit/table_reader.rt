//! The rows of a table, as `csv` reads them.
//!
//! A reader takes some 30 microseconds to make. So one reads all lines that are in hand in memory, and a new one begins where more was
//! read from the source. Whatever `csv` refuses is told as want of memory, for which alone reads from memory fail.
ghost use Rattle.std.specs.Prelude.{◌≡◌, ◌++◌, ◌∷◌, [], true, IfOk, IsTrue, OnOk};
ghost use Rattle.byte_ends.specs.WholeLines.{feed};
ghost use Rattle.csv.specs.Records.{fields_of};
ghost use Rattle.scenario_reader.specs.AuditRows.{is_row_text, row_fields};
ghost use Rattle.scenario_reader.specs.TableReading.{BeginsWithLine, ReadsLine, StandsAt};

use csv::{ByteRecord, Reader, ReaderBuilder};
use net_units::OutOfMemory;
use std::alloc::Global;
use std::io::Cursor;
use std::marker::Model;

// The byte that ends a line.
const FEED: u8 = b'\n';

// Reads the lines of a table that are in hand.
//
// A contract sees the bytes in hand that it hasn't read.
#[derive(Drop)]
pub(crate) struct TableReader {
    reader: Reader<Cursor<Vec<u8>>>,
    // The bytes that the reader was given.
    bytes: Vec<u8>,
    // How many of them it has read.
    read: usize,
}

impl Model for TableReader {
    ghost use Rattle.std.specs.Prelude.{ℕ, ◌≤◌, ◌<◌, List, drop, vec_len};
    ghost use Rattle.scenario_reader.specs.TableReading.{StandsAt};

    ghost Value = { List ℕ };

    ghost view = { λ a. drop a.read a.bytes.items };

    // A reader that failed counts as one that has read all.
    ghost invariant = { λ a. (a.read ≤ vec_len a.bytes)
        × (a.read < vec_len a.bytes → StandsAt a.reader (drop a.read a.bytes.items)) };
}

impl TableReader {
    // No byte is in hand.
    pub(crate) fn new(alloc: Global) -> TableReader
        ensures { result ≡ [] }
    {
        TableReader {
            reader: reader_over(alloc, Vec::new(alloc)),
            bytes: Vec::new(alloc),
            read: 0,
        }
    }

    // Reads the fields of a line. Where the reader doesn't stand at the line, it begins anew with the line and the bytes `ahead` of it.
    pub(crate) fn read(
        &mut self,
        alloc: Global,
        line: &[u8],
        ahead: &[u8],
        fields: &mut ByteRecord,
    ) -> Result<(), OutOfMemory>
        requires { IsTrue (is_row_text line.now) }
        ensures { OnOk result (fields_of fields.new ≡ row_fields line.now) }
    {
        self.stand_at(alloc, line, ahead)?;
        self.read_line(line, fields)
    }

    // Stands at the line.
    fn stand_at(&mut self, alloc: Global, line: &[u8], ahead: &[u8]) -> Result<(), OutOfMemory>
        ensures { OnOk result (BeginsWithLine self.new line.now) }
    {
        if self.is_at(line) {
            return Ok(());
        }
        self.begin_anew(alloc, line, ahead)
    }

    // Stands at the line, with a new reader. The function stands apart, since room for two readers is cleared when it is called.
    #[cold]
    #[inline(never)]
    fn begin_anew(&mut self, alloc: Global, line: &[u8], ahead: &[u8]) -> Result<(), OutOfMemory>
        ensures { OnOk result (BeginsWithLine self.new line.now) }
    {
        *self = TableReader::over(alloc, line, ahead)?;
        Ok(())
    }

    // Whether the bytes in hand begin with the line.
    fn is_at(&self, line: &[u8]) -> bool
        ensures { result ≡ true → BeginsWithLine self.now line.now }
    {
        begins_with_line(&self.bytes[self.read..], line)
    }

    // The line and the bytes `ahead` of it are in hand.
    fn over(alloc: Global, line: &[u8], ahead: &[u8]) -> Result<TableReader, OutOfMemory>
        ensures { IfOk result (λ table. table ≡ line.now ++ feed ∷ ahead.now) }
    {
        let mut bytes = Vec::new(alloc);
        bytes.extend_from_slice(line)?;
        bytes.push(FEED)?;
        bytes.extend_from_slice(ahead)?;
        let given = Vec::from_slice(alloc, bytes.as_slice())?;
        let reader = reader_over(alloc, given);
        Ok(TableReader {
            reader,
            bytes,
            read: 0,
        })
    }

    // Reads the line at which the reader stands.
    fn read_line(&mut self, line: &[u8], fields: &mut ByteRecord) -> Result<(), OutOfMemory>
        requires text { IsTrue (is_row_text line.now) }
        requires at { BeginsWithLine self.old line.now }
        ensures { OnOk result (fields_of fields.new ≡ row_fields line.now) }
    {
        if read_record(&mut self.reader, line, fields) {
            self.read += line.len() + 1;
            Ok(())
        } else {
            self.read = self.bytes.len();
            Err(OutOfMemory)
        }
    }
}

// Whether the bytes begin with the line and its line feed.
fn begins_with_line(bytes: &[u8], line: &[u8]) -> bool
    ensures { result ≡ true → BeginsWithLine bytes.now line.now }
{
    if bytes.len() <= line.len() || bytes[line.len()] != FEED {
        return false;
    }
    for (mine, theirs) in bytes.iter().zip(line) {
        if *mine != *theirs {
            return false;
        }
    }
    true
}

// A reader that stands at these bytes, whose records may differ in length.
fn reader_over(alloc: Global, bytes: Vec<u8>) -> Reader<Cursor<Vec<u8>>>
    ensures { StandsAt result bytes.items }
{
    ReaderBuilder::new()
        .has_headers(false)
        .flexible(true)
        .from_reader(alloc, Cursor::new(bytes))
}

// Reads the line at which the reader stands. It answers whether it could be read.
fn read_record(reader: &mut Reader<Cursor<Vec<u8>>>, line: &[u8], fields: &mut ByteRecord) -> bool
    requires { IsTrue (is_row_text line.now) }
    ensures { result ≡ true → ReadsLine line.now reader.old reader.new (fields_of fields.new) }
{
    let _line = line;
    reader.read_byte_record(fields).is_ok()
}
