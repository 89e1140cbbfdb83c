//! The lines `rounds` and `tail`: their forms, what they say, adding it, and their text.
ghost use Rattle.std.specs.Prelude.{◌≡◌, ◌≤◌, IfOk, string_bytes};
ghost use Rattle.net_units.specs.Limits.{most_rounds};
ghost use Rattle.line_forms.specs.Fitting.{FitsForm};
ghost use Rattle.text_writer.specs.Lines.{whole_line};
ghost use Rattle.scenario_reader.specs.Causes.{AnswersWithRoom};
ghost use Rattle.scenario_reader.specs.Known.{names_said};
ghost use Rattle.scenario_reader.specs.line.Rounds.{tail_form, are_few_ticks, rounds_says, tail_says, rounds_fields, tail_fields};
ghost use Rattle.scenario_reader.specs.Drafts.{with_item};
ghost use Rattle.scenario_reader.specs.line.Table.{MayAdd};
ghost use Rattle.scenario_reader.specs.declared.item.Item.TheVariants as item;

use crate::cause::{LineCause, LineFault};
use crate::draft::Draft;
use crate::item::Item;
use crate::values::require;
use line_forms::{FieldValue, Keyword, Part, Slot, Values, write_form};
use net_units::OutOfMemory;
use net_units::limits::MOST_ROUNDS;
use std::alloc::Global;

/// rounds R
pub(crate) const ROUNDS_FORM: [Part; 2] = [
    Part::Word(Keyword::Rounds),
    Part::One(Slot::Number {
        low: 0,
        high: MOST_ROUNDS,
    }),
];

/// tail Q
pub(crate) const TAIL_FORM: [Part; 2] = [
    Part::Word(Keyword::Tail),
    Part::One(Slot::Number {
        low: 0,
        high: MOST_ROUNDS,
    }),
];

impl Draft {
    // The rounds after the callers that the values of a line say.
    #[tactic(auto, using(crate::proofs::kind::Rounds::tail_few))]
    pub(crate) fn say_tail(&self, values: &Values) -> Result<Item, LineFault>
        requires { FitsForm (names_said self.now) tail_form values.now }
        ensures { AnswersWithRoom result (tail_says self.now values.now) }
    {
        let count = values.ones.number(0);
        require(self.are_few_ticks(count), LineCause::Load)?;
        Ok(Item::Tail(count))
    }

    // Whether the ticks of all links together are within the limit.
    fn are_few_ticks(&self, tail: u64) -> bool
        requires { tail ≤ most_rounds }
        ensures { result ≡ are_few_ticks self.now tail }
    {
        (self.rounds() + tail) * self.links.len() as u64 <= MOST_ROUNDS
    }

    pub(crate) fn put_rounds(&mut self, count: u64)
        requires { MayAdd self.old (item.Rounds count) }
        ensures { self.new ≡ with_item (item.Rounds count) self.old }
    {
        self.rounds = Some(count);
    }

    pub(crate) fn put_tail(&mut self, count: u64)
        requires { MayAdd self.old (item.Tail count) }
        ensures { self.new ≡ with_item (item.Tail count) self.old }
    {
        self.tail = Some(count);
    }
}

// The rounds beside the callers that the values of a line say.
pub(crate) fn say_rounds(values: &Values) -> Result<Item, LineFault>
    ensures { AnswersWithRoom result (rounds_says values.now) }
{
    Ok(Item::Rounds(values.ones.number(0)))
}

pub(crate) fn rounds_line(alloc: Global, count: u64) -> Result<String, OutOfMemory>
    ensures { IfOk result (λ line. string_bytes line ≡ whole_line (rounds_fields count)) }
{
    write_form(
        alloc,
        &ROUNDS_FORM,
        &Values::of(&[FieldValue::Number(count)]),
    )
}

pub(crate) fn tail_line(alloc: Global, count: u64) -> Result<String, OutOfMemory>
    ensures { IfOk result (λ line. string_bytes line ≡ whole_line (tail_fields count)) }
{
    write_form(alloc, &TAIL_FORM, &Values::of(&[FieldValue::Number(count)]))
}
