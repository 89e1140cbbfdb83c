//! The line of a move: its form, what it says, and its text.
ghost use Rattle.std.specs.Prelude.{◌≡◌, Some, IfOk, string_bytes};
ghost use Rattle.line_forms.specs.Fitting.{FitsForm};
ghost use Rattle.text_writer.specs.Lines.{whole_line};
ghost use Rattle.scenario_reader.specs.Causes.{AnswersWithRoom};
ghost use Rattle.scenario_reader.specs.Known.{names_said};
ghost use Rattle.scenario_reader.specs.line.Using.{IsOwn};
ghost use Rattle.scenario_reader.specs.line.Move.{may_join, move_form, move_for, move_says, move_fields};

use crate::cause::{LineCause, LineFault};
use crate::draft::Draft;
use crate::item::Item;
use crate::line::operation::request_value;
use crate::values::require;
use call_script::{Op, RequestEntry, may_move};
use line_forms::{Keyword, Part, Set, Slot, Values, write_form};
use net_units::OutOfMemory;
use std::alloc::Global;

/// move OLD NEW
pub(crate) const MOVE_FORM: [Part; 3] = [
    Part::Word(Keyword::Move),
    Part::One(Slot::Known(Set::OwnRequests)),
    Part::One(Slot::Known(Set::OwnRequests)),
];

impl Draft {
    // The move that the values of a line say.
    pub(crate) fn say_move(&self, values: &Values) -> Result<Item, LineFault>
        requires { FitsForm (names_said self.now) move_form values.now }
        ensures { AnswersWithRoom result (move_says self.now values.now) }
    {
        let (old, new) = (self.own_said(values, 0), self.own_said(values, 1));
        self.move_for(old, new)
    }

    // The move between these two requests.
    fn move_for(&self, old: &RequestEntry, new: &RequestEntry) -> Result<Item, LineFault>
        requires old { IsOwn self.now old.now }
        requires new { IsOwn self.now new.now }
        ensures { AnswersWithRoom result (move_for self.now (Some old.now) (Some new.now)) }
    {
        let uses = self.uses_of(old);
        require(!(uses.closed || uses.left), LineCause::Closed)?;
        require(self.may_join(old, new), LineCause::Move)?;
        self.judge_load(uses.load * u64::from(new.request.route.len()))?;
        Ok(Item::Op(Op::Move {
            old: old.request.chan,
            new: new.request.chan,
        }))
    }

    // Whether packets may move from the one request to the other, which is another one, and wasn't used or joined above.
    fn may_join(&self, old: &RequestEntry, new: &RequestEntry) -> bool
        requires { IsOwn self.now new.now }
        ensures { result ≡ may_join self.now (Some old.now) (Some new.now) }
    {
        let uses = self.uses_of(new);
        may_move(&self.links, old, new)
            && old.request.chan.get() != new.request.chan.get()
            && !uses.used
            && !uses.joined
    }
}

pub(crate) fn move_line(
    alloc: Global,
    old: &RequestEntry,
    new: &RequestEntry,
) -> Result<String, OutOfMemory>
    ensures { IfOk result (λ line. string_bytes line ≡ whole_line (move_fields old.now new.now)) }
{
    let values = Values::of(&[request_value(old), request_value(new)]);
    write_form(alloc, &MOVE_FORM, &values)
}
