//! The header: reading it, adding it, and its text.
ghost use Rattle.std.specs.Prelude.{◌≡◌, IfOk, string_bytes};
ghost use Rattle.text_writer.specs.Lines.{whole_line};
ghost use Rattle.scenario_reader.specs.line.Header.{version_in, header_version, header_fields};
ghost use Rattle.scenario_reader.specs.Drafts.{with_item};
ghost use Rattle.scenario_reader.specs.line.Table.{MayAdd};
ghost use Rattle.scenario_reader.specs.declared.item.Item.TheVariants as item;

use crate::draft::Draft;
use call_script::Version;
use line_forms::Fields;
use net_units::OutOfMemory;
use std::alloc::Global;

pub(crate) fn header_version(fields: &Fields) -> Option<Version>
    ensures { result ≡ header_version fields.now }
{
    if fields.count() == 2 && fields.at(0) == b"tenet".as_slice() {
        version_in(fields.at(1))
    } else {
        None
    }
}

fn version_in(field: &[u8]) -> Option<Version>
    ensures { result ≡ version_in field.now }
{
    if field == b"1".as_slice() {
        Some(Version::One)
    } else if field == b"2".as_slice() {
        Some(Version::Two)
    } else if field == b"3".as_slice() {
        Some(Version::Three)
    } else if field == b"4".as_slice() {
        Some(Version::Four)
    } else if field == b"5".as_slice() {
        Some(Version::Five)
    } else if field == b"6".as_slice() {
        Some(Version::Six)
    } else {
        None
    }
}

impl Draft {
    pub(crate) fn put_header(&mut self, version: Version)
        requires { MayAdd self.old (item.Header version) }
        ensures { self.new ≡ with_item (item.Header version) self.old }
    {
        self.version = Some(version);
    }
}

pub(crate) fn header_line(alloc: Global, version: Version) -> Result<String, OutOfMemory>
    ensures { IfOk result (λ line. string_bytes line ≡ whole_line (header_fields version)) }
{
    let number = match version {
        Version::One => "1",
        Version::Two => "2",
        Version::Three => "3",
        Version::Four => "4",
        Version::Five => "5",
        Version::Six => "6",
    };
    Ok(format!(in alloc; "tenet {number}\n")?)
}
