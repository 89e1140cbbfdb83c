//! The line of a pour: its form, what it says, and its text.
ghost use Rattle.std.specs.Prelude.{◌≡◌, ◌≤◌, Some, IfOk, string_bytes};
ghost use Rattle.net_units.specs.Limits.{most_packets, most_size};
ghost use Rattle.line_forms.specs.Fitting.{FitsForm};
ghost use Rattle.line_forms.specs.Values.{number_at};
ghost use Rattle.text_writer.specs.Lines.{whole_line};
ghost use Rattle.scenario_reader.specs.Causes.{AnswersWithRoom};
ghost use Rattle.scenario_reader.specs.Known.{names_said};
ghost use Rattle.scenario_reader.specs.line.Pour.{pour_form, pour_for, pour_says, pour_fields};

use crate::cause::{LineCause, LineFault};
use crate::draft::Draft;
use crate::item::Item;
use crate::values::require;
use call_script::{LinkEntry, Op};
use line_forms::{FieldValue, Keyword, Part, Set, Slot, Values, write_form};
use net_units::OutOfMemory;
use net_units::limits::{MOST_GAP, MOST_PACKETS, MOST_SIZE};
use std::alloc::Global;

/// pour LINK COUNT GAP SIZE
pub(crate) const POUR_FORM: [Part; 5] = [
    Part::Word(Keyword::Pour),
    Part::One(Slot::Known(Set::Links)),
    Part::One(Slot::Number {
        low: 1,
        high: MOST_PACKETS,
    }),
    Part::One(Slot::Number {
        low: 1,
        high: MOST_GAP as u64,
    }),
    Part::One(Slot::Number {
        low: 1,
        high: MOST_SIZE as u64,
    }),
];

impl Draft {
    // The pour that the values of a line say.
    pub(crate) fn say_pour(&self, values: &Values) -> Result<Item, LineFault>
        requires { FitsForm (names_said self.now) pour_form values.now }
        ensures { AnswersWithRoom result (pour_says self.now values.now) }
    {
        let entry = self.link_said(values);
        self.pour_for(entry, values)
    }

    // The pour over this link.
    fn pour_for(&self, entry: &LinkEntry, values: &Values) -> Result<Item, LineFault>
        requires few { number_at values.now.ones 1 ≤ most_packets }
        requires small { number_at values.now.ones 3 ≤ most_size }
        ensures { AnswersWithRoom result (pour_for self.now (Some entry.now) values.now) }
    {
        let ones = &values.ones;
        let count = ones.number(1);
        self.judge_load(count)?;
        require(entry.shape.best >= 1, LineCause::Best)?;
        Ok(Item::Op(Op::Pour {
            link: entry.shape.link,
            count,
            gap: ones.number(2),
            size: ones.number(3) as u32,
        }))
    }
}

pub(crate) fn pour_line(
    alloc: Global,
    entry: &LinkEntry,
    count: u64,
    gap: u64,
    size: u32,
) -> Result<String, OutOfMemory>
    ensures { IfOk result (λ line. string_bytes line ≡ whole_line (pour_fields count gap size entry.now)) }
{
    let link = FieldValue::Known {
        name: entry.name,
        number: usize::from(entry.shape.link.get()),
    };
    let values = Values::of(&[
        link,
        FieldValue::Number(count),
        FieldValue::Number(gap),
        FieldValue::Number(u64::from(size)),
    ]);
    write_form(alloc, &POUR_FORM, &values)
}
