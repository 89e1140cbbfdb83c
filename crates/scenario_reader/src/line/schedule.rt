//! The line `schedule` and its `do` lines: their forms, what they say, adding it, and their text.
ghost use Rattle.std.specs.Prelude.{◌≤◌, IfOk, ◌≡◌, OnOk, OnErr, string_bytes};
ghost use Rattle.line_forms.specs.Fitting.{FitsForm};
ghost use Rattle.text_writer.specs.Lines.{whole_line};
ghost use Rattle.scenario_reader.specs.Causes.{AnswersWithRoom};
ghost use Rattle.scenario_reader.specs.Known.{names_said};
ghost use Rattle.scenario_reader.specs.line.Schedule.{do_form, do_says, actor_in, actor_said, do_text, schedule_fields};
ghost use Rattle.scenario_reader.specs.Drafts.{with_item};
ghost use Rattle.scenario_reader.specs.line.Table.{MayAdd};
ghost use Rattle.scenario_reader.specs.declared.item.Item.TheVariants as item;

use crate::cause::LineFault;
use crate::draft::Draft;
use crate::item::Item;
use call_script::{CallerEntry, Do, actor_name};
use line_forms::{FieldValue, Keyword, Part, Slot, Values, write_form};
use net_units::limits::MOST_STEPS;
use net_units::{ActorNo, OutOfMemory};
use std::alloc::Global;

/// schedule
pub(crate) const SCHEDULE_FORM: [Part; 1] = [Part::Word(Keyword::Schedule)];

/// do ACTOR COUNT
pub(crate) const DO_FORM: [Part; 3] = [
    Part::Word(Keyword::Do),
    Part::One(Slot::Actor),
    Part::One(Slot::Number {
        low: 1,
        high: MOST_STEPS,
    }),
];

impl Draft {
    // The steps that the values of the line of this number say.
    pub(crate) fn say_do(&self, number_of_line: u64, values: &Values) -> Result<Item, LineFault>
        requires { FitsForm (names_said self.now) do_form values.now }
        ensures { AnswersWithRoom result (do_says self.now number_of_line values.now) }
    {
        let number = self.actor_said(values);
        Ok(Item::Do(Do {
            line: number_of_line,
            actor: ActorNo::new(number as u8).unwrap(),
            count: values.ones.number(1),
        }))
    }

    // The number of the actor, which for the plane is after those of the callers.
    #[tactic(auto, using(crate::proofs::kind::Schedule::actor_small))]
    fn actor_said(&self, values: &Values) -> usize
        requires { FitsForm (names_said self.now) do_form values.now }
        ensures value { result ≡ actor_said self.now values.now }
        ensures small { result ≤ 64 }
    {
        match values.ones.as_slice().get(0) {
            Some(value) => self.actor_in(value),
            None => self.callers.len(),
        }
    }

    // The number of the actor that this value is.
    fn actor_in(&self, value: &FieldValue) -> usize
        ensures { result ≡ actor_in self.now value.now }
    {
        match value {
            FieldValue::Plane => self.callers.len(),
            FieldValue::Known { number, .. } => *number,
            FieldValue::Number(number) => *number as usize,
            FieldValue::Name(_) => 0,
        }
    }

    pub(crate) fn put_schedule(&mut self)
        requires { MayAdd self.old item.Schedule }
        ensures { self.new ≡ with_item item.Schedule self.old }
    {
        self.written = true;
    }

    pub(crate) fn put_do(&mut self, what: &Do) -> Result<(), OutOfMemory>
        requires { MayAdd self.old (item.Do what.now) }
        ensures ok { OnOk result (self.new ≡ with_item (item.Do what.now) self.old) }
        ensures err { OnErr result (self.new ≡ self.old) }
    {
        self.items.push(*what)?;
        Ok(())
    }
}

pub(crate) fn schedule_line(alloc: Global) -> Result<String, OutOfMemory>
    ensures { IfOk result (λ line. string_bytes line ≡ whole_line schedule_fields) }
{
    write_form(alloc, &SCHEDULE_FORM, &Values::of(&[]))
}

#[tactic(auto, unfolding(crate::specs::line::Schedule::do_text))]
pub(crate) fn do_line(
    alloc: Global,
    callers: &[CallerEntry],
    item: &Do,
) -> Result<String, OutOfMemory>
    ensures { IfOk result (λ line. string_bytes line ≡ do_text callers.now item.now) }
{
    text_writer::do_line(alloc, actor_name(callers, item.actor), item.count)
}
