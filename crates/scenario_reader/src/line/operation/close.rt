//! The line that closes a request: its form, what it says, and its text.
ghost use Rattle.std.specs.Prelude.{◌≡◌, Some, IfOk, string_bytes};
ghost use Rattle.line_forms.specs.Fitting.{FitsForm};
ghost use Rattle.text_writer.specs.Lines.{whole_line};
ghost use Rattle.scenario_reader.specs.Causes.{AnswersWithRoom};
ghost use Rattle.scenario_reader.specs.Known.{names_said};
ghost use Rattle.scenario_reader.specs.line.Close.{close_form, close_for, close_says, close_fields};
ghost use Rattle.scenario_reader.specs.line.Using.{IsOwn};

use crate::cause::{LineCause, LineFault};
use crate::draft::Draft;
use crate::item::Item;
use crate::line::operation::request_value;
use crate::values::require;
use call_script::{Op, RequestEntry};
use line_forms::{Keyword, Part, Set, Slot, Values, write_form};
use net_units::OutOfMemory;
use std::alloc::Global;

/// close NAME
pub(crate) const CLOSE_FORM: [Part; 2] = [
    Part::Word(Keyword::Close),
    Part::One(Slot::Known(Set::OwnRequests)),
];

impl Draft {
    // The close that the values of a line say.
    pub(crate) fn say_close(&self, values: &Values) -> Result<Item, LineFault>
        requires { FitsForm (names_said self.now) close_form values.now }
        ensures { AnswersWithRoom result (close_says self.now values.now) }
    {
        let entry = self.own_said(values, 0);
        self.close_for(entry)
    }

    // The close of this request.
    fn close_for(&self, entry: &RequestEntry) -> Result<Item, LineFault>
        requires { IsOwn self.now entry.now }
        ensures { AnswersWithRoom result (close_for self.now (Some entry.now)) }
    {
        require(!self.uses_of(entry).closed, LineCause::Closed)?;
        Ok(Item::Op(Op::Close(entry.request.chan)))
    }
}

pub(crate) fn close_line(alloc: Global, entry: &RequestEntry) -> Result<String, OutOfMemory>
    ensures { IfOk result (λ line. string_bytes line ≡ whole_line (close_fields entry.now)) }
{
    write_form(alloc, &CLOSE_FORM, &Values::of(&[request_value(entry)]))
}
