//! The stream that a row says.

use crate::design::{DesignStream, Way};
use crate::field::Row;
use crate::mistake::Mistakes;
use crate::quotas::group_in;
use crate::values::{A_COUNT, A_NAME, A_SIZE, A_TIME};
use field_units::{Size, Stream, Time};
use net_units::Name;
use net_units::limits::{MOST_BURST, MOST_PACKETS};
use std::alloc::{AllocError, Global};

/// What goes round a packet, in bytes: on Ethernet a header, a checksum, the preamble and the gap; a tag; and the headers of UDP and IP.
const OVERHEADS: [(&str, u64); 3] = [("ethernet", 38), ("vlan", 4), ("udp", 28)];

/// What a source sends in a window, and how far apart.
#[derive(Clone, Copy)]
struct Rhythm {
    packets: u32,
    window: Time,
    apart: Time,
    /// The gap at which it sends steadily.
    pace: Time,
}

/// When a stream is asked for, and when it is given up.
#[derive(Clone, Copy)]
struct Span {
    start: Time,
    end: Option<Time>,
}

/// The stream of a row, where it says all that is needed.
pub(crate) fn stream_of(
    alloc: Global,
    row: &Row,
    place: usize,
    groups: &[Name],
    told: &mut Mistakes,
) -> Result<Option<DesignStream>, AllocError> {
    judge_needs(row, told)?;
    let name = told.name(row, "name")?;
    let way = way_of(alloc, row, told)?;
    let source = source_of(alloc, row, told)?;
    let jitter = told.time(alloc, row, "jitter")?;
    let count = told.number(alloc, row, "count", MOST_PACKETS)?;
    let within = told.time(alloc, row, "within")?;
    let span = span_of(alloc, row, told)?;
    let (Some(name), Some(way)) = (name, way) else {
        return Ok(None);
    };
    let (Some((source, pace)), Some(within)) = (source, within) else {
        return Ok(None);
    };
    Ok(Some(DesignStream {
        name,
        way,
        source,
        pace,
        count: count.unwrap_or(0),
        within,
        jitter,
        group: group_in(row, groups),
        start: span.start,
        end: span.end,
        row: place,
    }))
}

/// Tells what every stream needs and this row lacks, and of a key that it can't have.
fn judge_needs(row: &Row, told: &mut Mistakes) -> Result<(), AllocError> {
    told.need(row, "name", A_NAME)?;
    told.need(row, "size", A_SIZE)?;
    told.need(row, "within", A_TIME)?;
    match row.field("link") {
        Some(field) => told.refuse(field, "route, or best effort = true beside it"),
        None => Ok(()),
    }
}

/// What the source of a stream sends, and the gap at which it sends steadily.
fn source_of(
    alloc: Global,
    row: &Row,
    told: &mut Mistakes,
) -> Result<Option<(Stream, Time)>, AllocError> {
    let rhythm = rhythm_of(alloc, row, told)?;
    let size = told.packet_size(alloc, row)?;
    let late = told.time(alloc, row, "late")?;
    let (Some(rhythm), Some(size)) = (rhythm, size) else {
        return Ok(None);
    };
    let source = Stream {
        packets: rhythm.packets,
        window: rhythm.window,
        apart: rhythm.apart,
        jitter: late.unwrap_or(Time { picoseconds: 0 }),
        size,
    };
    Ok(Some((source, rhythm.pace)))
}

/// When a stream begins, at first where it doesn't say so, and when it ends.
fn span_of(alloc: Global, row: &Row, told: &mut Mistakes) -> Result<Span, AllocError> {
    let start = told.time(alloc, row, "start")?;
    let start = start.unwrap_or(Time { picoseconds: 0 });
    let end = told.time(alloc, row, "end")?;
    if end.is_some_and(|end| end <= start) {
        told.refuse_at(row, "end", "a time after its start")?;
    }
    Ok(Span { start, end })
}

/// The way of a stream: the links of its route, or the nodes between which it is found.
fn way_of(alloc: Global, row: &Row, told: &mut Mistakes) -> Result<Option<Way>, AllocError> {
    if row.has("from") || row.has("to") {
        return way_between(row, told);
    }
    told.need(row, "route", "names of links, or from and to in its place")?;
    match told.names(alloc, row, "route")? {
        Some(links) => Ok(Some(Way::Over(links))),
        None => Ok(None),
    }
}

/// The nodes between which a route is found.
fn way_between(row: &Row, told: &mut Mistakes) -> Result<Option<Way>, AllocError> {
    told.need(row, "from", A_NAME)?;
    told.need(row, "to", A_NAME)?;
    let from = told.name(row, "from")?;
    let to = told.name(row, "to")?;
    match (from, to) {
        (Some(from), Some(to)) => Ok(Some(Way::Between(from, to))),
        _ => Ok(None),
    }
}

impl Mistakes {
    /// The size of a stream's packets, with what goes round them.
    pub(crate) fn packet_size(
        &mut self,
        alloc: Global,
        row: &Row,
    ) -> Result<Option<Size>, AllocError> {
        let size = self.size(alloc, row, "size")?;
        let more = overhead_of(row, self)?;
        Ok(size.map(|size| Size {
            bits: size.bits.saturating_add(more),
        }))
    }
}

/// The bits that go round each packet.
fn overhead_of(row: &Row, told: &mut Mistakes) -> Result<u64, AllocError> {
    let Some(field) = row.field("overhead") else {
        return Ok(0);
    };
    let mut bits: u64 = 0;
    for word in field.text.as_str().split(',') {
        match OVERHEADS.iter().find(|(name, _)| *name == word.trim()) {
            Some((_, bytes)) => bits = bits.saturating_add(bytes.saturating_mul(8)),
            None => told.refuse(
                field,
                "ethernet (38 bytes), vlan (4 bytes) or udp (28 bytes)",
            )?,
        }
    }
    Ok(bits)
}

/// What a stream's source sends: a packet every so often, or packets in a window.
fn rhythm_of(alloc: Global, row: &Row, told: &mut Mistakes) -> Result<Option<Rhythm>, AllocError> {
    if row.has("packets") || row.has("in") {
        return windowed(alloc, row, told);
    }
    told.need(
        row,
        "every",
        "a time, or packets, in and apart in its place",
    )?;
    let every = told.time(alloc, row, "every")?;
    Ok(every.map(|every| Rhythm {
        packets: 1,
        window: every,
        apart: every,
        pace: every,
    }))
}

/// So many packets in a window.
fn windowed(alloc: Global, row: &Row, told: &mut Mistakes) -> Result<Option<Rhythm>, AllocError> {
    need_window(row, told)?;
    let packets = told.number(alloc, row, "packets", u64::from(MOST_BURST))?;
    let window = told.time(alloc, row, "in")?;
    let apart = told.time(alloc, row, "apart")?;
    Ok(match (packets, window, apart) {
        (Some(packets), Some(window), Some(apart)) => Some(Rhythm {
            packets: u32::try_from(packets).unwrap_or(MOST_BURST),
            window,
            apart,
            pace: pace_of(packets, window, apart),
        }),
        _ => None,
    })
}

/// Tells of what is missing of packets in a window.
fn need_window(row: &Row, told: &mut Mistakes) -> Result<(), AllocError> {
    told.need(row, "packets", A_COUNT)?;
    told.need(row, "in", A_TIME)?;
    told.need(row, "apart", A_TIME)
}

/// The gap at which so many packets fill a window evenly.
fn pace_of(packets: u64, window: Time, apart: Time) -> Time {
    let share = match packets {
        0 => window.picoseconds,
        _ => window.picoseconds.div_ceil(packets),
    };
    Time {
        picoseconds: share.max(apart.picoseconds),
    }
}
