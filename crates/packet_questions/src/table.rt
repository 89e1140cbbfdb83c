//! A table of measured packets: its rows, or what is wrong with it.
use crate::fields::{BadMoment, Clock, Moment, whole_number};
use call_script::Plan;
use csv::{Error, ErrorKind, ReaderBuilder, StringRecord};
use net_units::Name;
use network_questions::request_named;
use packet_answers::Promises;
use packet_audit::Row;
use std::alloc::{AllocError, Global};

/// The most lines of a table that are told as bad.
pub const MOST_TOLD: usize = 20;

/// A line of a table that can't be read.
#[derive(Drop)]
pub struct BadLine {
    /// Its number, from 1.
    pub line: u64,
    /// The field, and what would do.
    pub text: String,
}

// Of which line and packet a row is.
#[derive(Clone, Copy)]
pub(crate) struct Measured {
    pub(crate) line: u64,
    pub(crate) name: Name,
    pub(crate) packet: u64,
}

// What was read of a table so far.
#[derive(Drop)]
pub(crate) struct Table {
    pub(crate) rows: Vec<Row>,
    pub(crate) measured: Vec<Measured>,
    // Whether a moment isn't that of a tick.
    pub(crate) is_rounded: bool,
    // The first lines that can't be read, and how many more there are.
    pub(crate) bad: Vec<BadLine>,
    pub(crate) more: usize,
    // How many packets of each request there were.
    counts: Vec<u64>,
}

// The header.
const HEADER: [&'static str; 4] = ["channel", "packet", "sent", "arrived"];

// Reads a table, whose rows are of channels with these promises.
pub(crate) fn read_table(
    alloc: Global,
    plan: &Plan,
    promises: &Promises,
    clock: &Clock,
    bytes: &[u8],
) -> Result<Table, AllocError> {
    let mut table = Table::new(alloc, plan.requests().len())?;
    let mut is_first = true;
    let reader = ReaderBuilder::new()
        .has_headers(false)
        .flexible(true)
        .from_reader(alloc, bytes);
    for record in reader.into_records() {
        match record {
            Ok(record) if is_first => {
                is_first = false;
                if !is_header(&record) {
                    table.tell(line_of(&record), header_text(alloc)?)?;
                    return Ok(table);
                }
            }
            Ok(record) => table.take(alloc, plan, promises, clock, &record)?,
            Err(error) => table.tell_error(alloc, &error)?,
        }
    }
    if is_first && table.bad.is_empty() {
        table.tell(1, header_text(alloc)?)?;
    }
    Ok(table)
}

// Whether a record is the header.
fn is_header(record: &StringRecord) -> bool {
    if record.len() != HEADER.len() {
        return false;
    }
    for place in 0..HEADER.len() {
        if field_at(record, place) != HEADER[place] {
            return false;
        }
    }
    true
}

// What is said of another first line.
fn header_text(alloc: Global) -> Result<String, AllocError> {
    String::from_str(
        alloc,
        "the first line has to be channel,packet,sent,arrived",
    )
}

// The line at which a record begins.
fn line_of(record: &StringRecord) -> u64 {
    match record.position() {
        Some(position) => position.line,
        None => 1,
    }
}

// The field at a place, without spaces around it.
fn field_at(record: &StringRecord, place: usize) -> &str {
    match record.get(place) {
        Some(field) => field.trim(),
        None => "",
    }
}

impl Table {
    // Of no row, for a plan with so many requests.
    fn new(alloc: Global, requests: usize) -> Result<Table, AllocError> {
        Ok(Table {
            rows: Vec::new(alloc),
            measured: Vec::new(alloc),
            is_rounded: false,
            bad: Vec::new(alloc),
            more: 0,
            counts: vec![in alloc; 0; requests]?,
        })
    }

    // Tells that a line can't be read.
    fn tell(&mut self, line: u64, text: String) -> Result<(), AllocError> {
        if self.bad.len() < MOST_TOLD {
            self.bad.push(BadLine { line, text })?;
        } else {
            self.more = self.more.saturating_add(1);
        }
        Ok(())
    }

    // Tells of a record that isn't text.
    fn tell_error(&mut self, alloc: Global, error: &Error) -> Result<(), AllocError> {
        match error.kind() {
            ErrorKind::Utf8 { pos, .. } => {
                let line = match pos {
                    Some(position) => position.line,
                    None => 1,
                };
                self.tell(line, String::from_str(alloc, "the line isn't UTF-8")?)
            }
            _ => Err(AllocError),
        }
    }

    // Takes a record that isn't the header.
    fn take(
        &mut self,
        alloc: Global,
        plan: &Plan,
        promises: &Promises,
        clock: &Clock,
        record: &StringRecord,
    ) -> Result<(), AllocError> {
        let line = line_of(record);
        let count = record.len();
        if count != HEADER.len() {
            let text = format!(in alloc;
                "4 fields are wanted, channel,packet,sent,arrived, and there are {count}"
            )?;
            return self.tell(line, text);
        }
        let Some(name) = Name::new(field_at(record, 0).as_bytes()) else {
            return self.tell(line, bad_field(alloc, record, 0, NAME_CURE)?);
        };
        let Some(packet) = whole_number(field_at(record, 1)) else {
            return self.tell(line, bad_field(alloc, record, 1, PACKET_CURE)?);
        };
        let number = request_named(plan, &name);
        if let Some(wanted) = self.count(number, packet) {
            let text = format!(in alloc;
                "packet {packet}: the next packet of this channel is {wanted}; they are numbered from 1, in the order in which they are sent"
            )?;
            return self.tell(line, text);
        }
        match moments_of(alloc, clock, record)? {
            Ok((sent, arrived)) => {
                let channel = match number {
                    Some(number) => promises.place(number),
                    None => usize::MAX,
                };
                self.push(
                    clock,
                    channel,
                    Measured { line, name, packet },
                    sent,
                    arrived,
                )
            }
            Err(text) => self.tell(line, text),
        }
    }

    // Counts a packet of a request, and answers which number it should have had, where it has another.
    fn count(&mut self, request: Option<usize>, packet: u64) -> Option<u64> {
        let number = request?;
        let count = self.counts.get_mut(number)?;
        let wanted = count.saturating_add(1);
        *count = packet;
        if packet == wanted { None } else { Some(wanted) }
    }

    // Adds a row.
    fn push(
        &mut self,
        clock: &Clock,
        channel: usize,
        measured: Measured,
        sent: Moment,
        arrived: Moment,
    ) -> Result<(), AllocError> {
        if !clock.is_whole(sent) || !clock.is_whole(arrived) {
            self.is_rounded = true;
        }
        self.rows.push(clock.row(channel, sent, arrived))?;
        self.measured.push(measured)?;
        Ok(())
    }
}

// What would do in place of a field.
const NAME_CURE: &'static str =
    "a name is a letter followed by letters, digits and _, at most 16 characters in all";

const PACKET_CURE: &'static str =
    "packets are numbered from 1, in the order in which they are sent";

const MOMENT_CURE: &'static str =
    "a moment is a whole number of ticks, of at most 18 digits, or a number with a unit, as 1.25 ms";

const TICK_CURE: &'static str =
    "how long a tick is isn't known, so a moment is a whole number of ticks; a note # tick 10 us in the scenario would say it";

// The moments of a record, or what is wrong with them.
fn moments_of(
    alloc: Global,
    clock: &Clock,
    record: &StringRecord,
) -> Result<Result<(Moment, Moment), String>, AllocError> {
    let sent = match clock.moment(field_at(record, 2)) {
        Ok(sent) => sent,
        Err(bad) => return Ok(Err(bad_field(alloc, record, 2, cure_of(bad))?)),
    };
    match clock.moment(field_at(record, 3)) {
        Ok(arrived) => Ok(Ok((sent, arrived))),
        Err(bad) => Ok(Err(bad_field(alloc, record, 3, cure_of(bad))?)),
    }
}

// What would do in place of a field that is no moment.
fn cure_of(bad: BadMoment) -> &'static str {
    match bad {
        BadMoment::Text => MOMENT_CURE,
        BadMoment::NoTick => TICK_CURE,
    }
}

// What is said of a field.
fn bad_field(
    alloc: Global,
    record: &StringRecord,
    place: usize,
    cure: &str,
) -> Result<String, AllocError> {
    let label = match HEADER.get(place) {
        Some(label) => *label,
        None => "",
    };
    let field = field_at(record, place);
    format!(in alloc; "{label} {field}: {cure}")
}
