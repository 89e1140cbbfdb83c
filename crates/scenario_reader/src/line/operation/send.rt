//! The line of a send: its form, what it says, and its text.
ghost use Rattle.std.specs.Prelude.{◌≡◌, ◌≤◌, Some, IfOk, string_bytes};
ghost use Rattle.net_units.specs.Limits.{most_packets, most_size};
ghost use Rattle.line_forms.specs.Fitting.{FitsForm};
ghost use Rattle.line_forms.specs.Values.{number_at};
ghost use Rattle.text_writer.specs.Lines.{whole_line};
ghost use Rattle.scenario_reader.specs.Causes.{AnswersWithRoom};
ghost use Rattle.scenario_reader.specs.Known.{names_said};
ghost use Rattle.scenario_reader.specs.line.Send.{send_form, send_for, send_says, send_fields};
ghost use Rattle.scenario_reader.specs.line.Using.{IsOwn};

use crate::cause::{LineCause, LineFault};
use crate::draft::Draft;
use crate::item::Item;
use crate::line::operation::request_value;
use crate::values::require;
use call_script::{Op, RequestEntry};
use line_forms::{FieldValue, Keyword, Part, Set, Slot, Values, write_form};
use net_units::OutOfMemory;
use net_units::limits::{MOST_GAP, MOST_PACKETS, MOST_SIZE};
use std::alloc::Global;

/// send NAME COUNT GAP SIZE
pub(crate) const SEND_FORM: [Part; 5] = [
    Part::Word(Keyword::Send),
    Part::One(Slot::Known(Set::OwnRequests)),
    Part::One(Slot::Number {
        low: 1,
        high: MOST_PACKETS,
    }),
    Part::One(Slot::Number {
        low: 1,
        high: MOST_GAP as u64,
    }),
    Part::One(Slot::Number {
        low: 1,
        high: MOST_SIZE as u64,
    }),
];

impl Draft {
    // The send that the values of a line say.
    pub(crate) fn say_send(&self, values: &Values) -> Result<Item, LineFault>
        requires { FitsForm (names_said self.now) send_form values.now }
        ensures { AnswersWithRoom result (send_says self.now values.now) }
    {
        let entry = self.own_said(values, 0);
        self.send_for(entry, values)
    }

    // The send on this request.
    fn send_for(&self, entry: &RequestEntry, values: &Values) -> Result<Item, LineFault>
        requires own { IsOwn self.now entry.now }
        requires few { number_at values.now.ones 1 ≤ most_packets }
        requires small { number_at values.now.ones 3 ≤ most_size }
        ensures { AnswersWithRoom result (send_for self.now (Some entry.now) values.now) }
    {
        let ones = &values.ones;
        let count = ones.number(1);
        let uses = self.uses_of(entry);
        require(!(uses.closed || uses.left), LineCause::Closed)?;
        self.judge_load(count * u64::from(entry.request.route.len()))?;
        Ok(Item::Op(Op::Send {
            chan: entry.request.chan,
            count,
            gap: ones.number(2),
            size: ones.number(3) as u32,
        }))
    }
}

pub(crate) fn send_line(
    alloc: Global,
    entry: &RequestEntry,
    count: u64,
    gap: u64,
    size: u32,
) -> Result<String, OutOfMemory>
    ensures { IfOk result (λ line. string_bytes line ≡ whole_line (send_fields count gap size entry.now)) }
{
    let values = Values::of(&[
        request_value(entry),
        FieldValue::Number(count),
        FieldValue::Number(gap),
        FieldValue::Number(u64::from(size)),
    ]);
    write_form(alloc, &SEND_FORM, &values)
}
