//! The line of a caller: its forms, what it says, adding the caller, and its text.
ghost use Rattle.std.specs.Prelude.{◌≡◌, OnOk, OnErr, IfOk, string_bytes};
ghost use Rattle.text_writer.specs.Lines.{whole_line};
ghost use Rattle.scenario_reader.specs.Causes.{AnswersWithRoom};
ghost use Rattle.scenario_reader.specs.line.Caller.{caller_forms, caller_says, caller_fields, member_value};
ghost use Rattle.scenario_reader.specs.Known.{FitsOne, names_said};
ghost use Rattle.scenario_reader.specs.Drafts.{with_item};
ghost use Rattle.scenario_reader.specs.line.Table.{MayAdd};
ghost use Rattle.scenario_reader.specs.declared.item.Item.TheVariants as item;

use crate::cause::{LineCause, LineFault};
use crate::draft::Draft;
use crate::item::Item;
use crate::line::group::group_value;
use crate::values::require;
use call_script::{CallerEntry, Ops, Version};
use line_forms::{FieldValue, Keyword, Part, Set, Slot, Values, write_form};
use net_units::limits::MOST_CALLERS;
use net_units::{Name, OutOfMemory};
use std::alloc::Global;

/// caller NAME
pub(crate) const CALLER_FORM: [Part; 2] = [
    Part::Word(Keyword::Caller),
    Part::One(Slot::New(Set::Callers)),
];

/// caller NAME group GROUP
pub(crate) const MEMBER_FORM: [Part; 4] = [
    Part::Word(Keyword::Caller),
    Part::One(Slot::New(Set::Callers)),
    Part::Word(Keyword::Group),
    Part::One(Slot::Known(Set::Groups)),
];

impl Draft {
    // The caller that the values of a line say, with the number of its group, 0 where it names none.
    pub(crate) fn say_caller(&self, _version: Version, values: &Values) -> Result<Item, LineFault>
        requires { FitsOne (names_said self.now) (caller_forms _version) values.now }
        ensures { AnswersWithRoom result (caller_says self.now values.now) }
    {
        require(self.callers.len() < MOST_CALLERS, LineCause::Many)?;
        let name = values.ones.name(0).ok_or(LineCause::Shape)?;
        let group = values.ones.number(1) as u8;
        Ok(Item::Caller { name, group })
    }

    pub(crate) fn put_caller(
        &mut self,
        alloc: Global,
        name: &Name,
        group: u8,
    ) -> Result<(), OutOfMemory>
        requires { MayAdd self.old (item.Caller name.now group) }
        ensures ok { OnOk result (self.new ≡ with_item (item.Caller name.now group) self.old) }
        ensures err { OnErr result (self.new ≡ self.old) }
    {
        self.callers.reserve(1)?;
        self.callers.push_reserved(CallerEntry {
            name: *name,
            group,
            ops: Ops::new(Vec::new(alloc)),
        });
        self.caller_names.add(*name);
        Ok(())
    }
}

pub(crate) fn caller_line(
    alloc: Global,
    groups: &[Name],
    name: Name,
    group: u8,
) -> Result<String, OutOfMemory>
    ensures { IfOk result (λ line. string_bytes line ≡ whole_line (caller_fields groups.now name group)) }
{
    let name = FieldValue::Name(name);
    match member_value(groups, group) {
        None => write_form(alloc, &CALLER_FORM, &Values::of(&[name])),
        Some(member) => write_form(alloc, &MEMBER_FORM, &Values::of(&[name, member])),
    }
}

// What the field of its group says, where it is of one.
fn member_value(groups: &[Name], group: u8) -> Option<FieldValue>
    ensures { result ≡ member_value groups.now group }
{
    if group == 0 {
        None
    } else {
        group_value(groups, group)
    }
}
