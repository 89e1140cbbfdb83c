//! Pages of the table, as `csv` writes them into memory.
//!
//! As far as the clauses of `csv` tell, a writer that failed may have written anything to what is under it. So the sink isn't under it:
//! each page is told once it is whole, and whatever `csv` refuses is told as want of memory, for which alone writes to memory fail.
ghost use Rattle.std.specs.Prelude.{◌≡◌, ◌++◌, [], IfOk, OnOk};
ghost use Rattle.std.specs.List.{flat_map, slice_get};
ghost use Rattle.net_units.specs.Numbers.{channel_number, link_number};
ghost use Rattle.channel_report.specs.Csv.{IsAtRow, IsPlain, text_on};
ghost use Rattle.channel_report.specs.Table.{header, name_of_link, name_of_request, told_row};

use call_script::Plan;
use csv::{Writer, WriterBuilder};
use itoa::Buffer;
use net_units::{ChanNo, LinkNo, OutOfMemory};
use run_record::HopRow;
use std::alloc::Global;

// The page of the header.
pub(super) fn header_page(alloc: Global) -> Result<Vec<u8>, OutOfMemory>
    ensures { IfOk result (λ page. page.items ≡ header) }
{
    let mut page = empty_page(alloc);
    write_header(&mut page)?;
    into_text(page)
}

// The page of these rows.
pub(super) fn rows_page(alloc: Global, plan: &Plan, rows: &[HopRow]) -> Result<Vec<u8>, OutOfMemory>
    ensures { IfOk result (λ page. page.items ≡ flat_map (told_row plan.now) rows.now) }
{
    let mut page = empty_page(alloc);
    for row in rows {
        write_row(&mut page, plan, row)?;
    }
    into_text(page)
}

// A page of no rows.
fn empty_page(alloc: Global) -> Writer<Vec<u8>>
    ensures at_row { IsAtRow result }
    ensures empty { text_on result ≡ [] }
{
    WriterBuilder::new()
        .flexible(true)
        .from_writer(Vec::new(alloc))
}

// The text of a page.
fn into_text(page: Writer<Vec<u8>>) -> Result<Vec<u8>, OutOfMemory>
    ensures { IfOk result (λ text. text.items ≡ text_on page) }
{
    page.into_inner().ok().ok_or(OutOfMemory)
}

// Writes the header.
fn write_header(page: &mut Writer<Vec<u8>>) -> Result<(), OutOfMemory>
    requires { IsAtRow page.old }
    ensures at_row { OnOk result (IsAtRow page.new) }
    ensures text { OnOk result (text_on page.new ≡ text_on page.old ++ header) }
{
    let names = [
        b"channel".as_slice(),
        b"packet".as_slice(),
        b"hop".as_slice(),
        b"link".as_slice(),
        b"size".as_slice(),
        b"at".as_slice(),
        b"eligible".as_slice(),
        b"departed".as_slice(),
    ];
    page.write_fields(&names).ok().ok_or(OutOfMemory)
}

// Writes a row.
fn write_row(page: &mut Writer<Vec<u8>>, plan: &Plan, row: &HopRow) -> Result<(), OutOfMemory>
    requires { IsAtRow page.old }
    ensures at_row { OnOk result (IsAtRow page.new) }
    ensures text { OnOk result (text_on page.new ≡ text_on page.old ++ told_row plan.now row.now) }
{
    let mut number = Buffer::new();
    let mut hop = Buffer::new();
    let mut size = Buffer::new();
    let mut at = Buffer::new();
    let mut eligible = Buffer::new();
    let mut departed = Buffer::new();
    let fields = [
        request_name(plan, row.chan),
        number.format(row.number).as_bytes(),
        hop.format(row.hop).as_bytes(),
        link_name(plan, row.link),
        size.format(row.size).as_bytes(),
        at.format(row.at).as_bytes(),
        eligible.format(row.eligible).as_bytes(),
        departed.format(row.departed).as_bytes(),
    ];
    page.write_fields(&fields).ok().ok_or(OutOfMemory)
}

// The name of a channel's request.
#[tactic(auto, using(crate::proofs::PlainFields::plain_names))]
fn request_name(plan: &Plan, chan: ChanNo) -> &[u8]
    ensures value { result.now ≡ name_of_request (slice_get plan.now.requests (channel_number chan)) }
    ensures plain { IsPlain result.now }
{
    match plan.requests().get(chan.get() as usize) {
        Some(entry) => entry.name.as_bytes(),
        None => &[],
    }
}

// The name of a link.
#[tactic(auto, using(crate::proofs::PlainFields::plain_names))]
fn link_name(plan: &Plan, link: LinkNo) -> &[u8]
    ensures value { result.now ≡ name_of_link (slice_get plan.now.links (link_number link)) }
    ensures plain { IsPlain result.now }
{
    match plan.links().get(usize::from(link.get())) {
        Some(entry) => entry.name.as_bytes(),
        None => &[],
    }
}
