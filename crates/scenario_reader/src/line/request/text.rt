//! The text of a request.
ghost use Rattle.std.specs.Prelude.{◌≡◌, ◌≤◌, ◌<◌, ◌++◌, [], IfOk, length, string_bytes};
ghost use Rattle.std.specs.List.{slice_get};
ghost use Rattle.net_units.specs.Numbers.{link_number};
ghost use Rattle.text_writer.specs.Lines.{whole_line};
ghost use Rattle.scenario_reader.specs.line.Request.{open_fields, open_values, link_before, route_values, term_values, open_form};

use crate::line::request::{FOUND_JITTER_FORM, FOUND_RATE_FORM, JITTER_FORM, RATE_FORM};
use call_script::{LinkEntry, RequestEntry};
use hop_reservation::Route;
use line_forms::{FewValues, FieldValue, Part, Values, write_form};
use net_units::{LinkNo, OutOfMemory};
use setup_protocol::Control;
use std::alloc::Global;

pub(crate) fn open_line(
    alloc: Global,
    links: &[LinkEntry],
    entry: &RequestEntry,
) -> Result<String, OutOfMemory>
    ensures { IfOk result (λ line. string_bytes line ≡ whole_line (open_fields links.now entry.now)) }
{
    write_form(alloc, open_form(entry), &open_values(links, entry))
}

// The form of its line.
fn open_form(entry: &RequestEntry) -> &'static [Part]
    ensures { result.now ≡ open_form entry.now }
{
    match (entry.found, entry.request.control) {
        (None, Control::Rate) => &RATE_FORM,
        (None, Control::Jitter(_)) => &JITTER_FORM,
        (Some(_), Control::Rate) => &FOUND_RATE_FORM,
        (Some(_), Control::Jitter(_)) => &FOUND_JITTER_FORM,
    }
}

// What its line says.
fn open_values(links: &[LinkEntry], entry: &RequestEntry) -> Values
    ensures { result ≡ open_values links.now entry.now }
{
    let name = FieldValue::Name(entry.name);
    match entry.found {
        Some((from, to)) => {
            let front = [name, FieldValue::Name(from), FieldValue::Name(to)];
            let mut ones = FewValues::of(&front);
            push_terms(&mut ones, entry);
            let run = FewValues::none();
            Values { ones, run }
        }
        None => {
            let mut ones = FewValues::of(&[name]);
            push_terms(&mut ones, entry);
            let run = route_values(links, &entry.request.route);
            Values { ones, run }
        }
    }
}

// The numbers of its contract and its bounds.
fn push_terms(ones: &mut FewValues, entry: &RequestEntry)
    requires { length ones.old ≤ 3 }
    ensures { ones.new ≡ ones.old ++ term_values entry.now }
{
    let contract = &entry.request.contract;
    ones.push(FieldValue::Number(u64::from(contract.xmin())));
    ones.push(FieldValue::Number(u64::from(contract.xave())));
    ones.push(FieldValue::Number(u64::from(contract.interval())));
    ones.push(FieldValue::Number(u64::from(contract.smax())));
    ones.push(FieldValue::Number(entry.request.delay));
    if let Control::Jitter(bound) = entry.request.control {
        ones.push(FieldValue::Number(bound));
    }
}

// The links of a route.
fn route_values(links: &[LinkEntry], route: &Route) -> FewValues
    ensures { result ≡ route_values links.now route.now }
{
    let mut values = FewValues::none();
    for index in 0..route.len() {
        push_link(&mut values, links, route.hop(index + 1).link);
    }
    values
}

// A link of a route.
fn push_link(values: &mut FewValues, links: &[LinkEntry], link: LinkNo)
    requires { length values.old < 16 }
    ensures { values.new ≡ values.old ++ link_before (link_number link) (slice_get links.now (link_number link)) [] }
{
    let number = usize::from(link.get());
    match links.get(number) {
        Some(entry) => values.push(FieldValue::Known {
            name: entry.name,
            number,
        }),
        None => {}
    }
}
