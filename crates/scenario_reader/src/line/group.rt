//! The line of a group: its form, what it says, adding the group, and its text.
ghost use Rattle.std.specs.Prelude.{◌≡◌, OnOk, OnErr, IfOk, string_bytes};
ghost use Rattle.scenario_reader.specs.Causes.{AnswersWithRoom};
ghost use Rattle.scenario_reader.specs.Drafts.{with_item};
ghost use Rattle.scenario_reader.specs.line.Group.{group_says, group_text, group_value, group_name};
ghost use Rattle.scenario_reader.specs.line.Table.{MayAdd};
ghost use Rattle.scenario_reader.specs.declared.item.Item.TheVariants as item;

use crate::cause::{LineCause, LineFault};
use crate::draft::Draft;
use crate::item::Item;
use crate::values::require;
use line_forms::{FieldValue, Keyword, Part, Set, Slot, Values, write_form};
use net_units::{Name, OutOfMemory};
use std::alloc::Global;

// The most groups that a plan may have.
const MOST_GROUPS: usize = 4;

/// group NAME
pub(crate) const GROUP_FORM: [Part; 2] = [
    Part::Word(Keyword::Group),
    Part::One(Slot::New(Set::Groups)),
];

impl Draft {
    // The group that the values of a line say.
    pub(crate) fn say_group(&self, values: &Values) -> Result<Item, LineFault>
        ensures { AnswersWithRoom result (group_says self.now values.now) }
    {
        require(self.groups.len() < MOST_GROUPS, LineCause::Many)?;
        let group = values.ones.name(0).ok_or(LineCause::Shape)?;
        Ok(Item::Group(group))
    }

    pub(crate) fn put_group(&mut self, name: Name) -> Result<(), OutOfMemory>
        requires { MayAdd self.old (item.Group name) }
        ensures ok { OnOk result (self.new ≡ with_item (item.Group name) self.old) }
        ensures err { OnErr result (self.new ≡ self.old) }
    {
        self.groups.push(name)?;
        Ok(())
    }
}

#[tactic(auto, unfolding(crate::specs::line::Group::group_text))]
pub(crate) fn group_line(alloc: Global, name: Name) -> Result<String, OutOfMemory>
    ensures { IfOk result (λ line. string_bytes line ≡ group_text name) }
{
    write_form(alloc, &GROUP_FORM, &Values::of(&[FieldValue::Name(name)]))
}

// What a field says that names the group of this number, from 1, if there is one.
pub(crate) fn group_value(groups: &[Name], group: u8) -> Option<FieldValue>
    ensures { result ≡ group_value groups.now group }
{
    let name = groups.get(usize::from(group).saturating_sub(1))?;
    Some(FieldValue::Known {
        name: *name,
        number: usize::from(group),
    })
}

// The name of the group of this number, from 1.
pub(crate) fn group_name(groups: &[Name], group: u8) -> &str
    ensures { result.now ≡ group_name groups.now group }
{
    match groups.get(usize::from(group).saturating_sub(1)) {
        Some(name) => name.as_str(),
        None => "",
    }
}
