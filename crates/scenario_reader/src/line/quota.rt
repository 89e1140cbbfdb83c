//! The line of a quota: its form, what it says, adding the quota, and its text.
ghost use Rattle.std.specs.Prelude.{ℕ, ◌≡◌, ◌<◌, Some, length, [], OnOk, OnErr, IfOk, ◌≤◌, map, nat_eq, ◌&&◌, ◌++◌, ◌∷◌, string_bytes};
ghost use Rattle.call_script.specs.Groups.{quotas_fit};
ghost use Rattle.call_script.specs.Growing.{add_quota};
ghost use Rattle.net_units.specs.Limits.{most_bound};
ghost use Rattle.line_forms.specs.Fitting.{FitsForm};
ghost use Rattle.line_forms.specs.Values.{number_at};
ghost use Rattle.scenario_reader.specs.Causes.{AnswersWithRoom};
ghost use Rattle.scenario_reader.specs.Known.{names_said};
ghost use Rattle.scenario_reader.specs.Drafts.{with_item};
ghost use Rattle.scenario_reader.specs.line.Quota.{IsQuotaSmall, quota_form, quota_for, quota_of, quota_says, loads_said, load_values, quota_values, quota_text};
ghost use Rattle.scenario_reader.specs.line.Table.{MayAdd};
ghost use Rattle.scenario_reader.specs.declared.item.Item.TheVariants as item;

use crate::cause::{LineCause, LineFault};
use crate::draft::Draft;
use crate::item::Item;
use crate::line::group::group_value;
use crate::values::require;
use call_script::LinkEntry;
use line_forms::{FewValues, FieldValue, Keyword, Part, Set, Slot, Values, write_form};
use link_steps::Quota;
use net_units::limits::{MOST_BOUND, MOST_BUFFER, MOST_LEVELS};
use net_units::{LinkNo, Name, OutOfMemory};
use std::alloc::Global;

/// quota LINK GROUP buffer U levels Q1 .. Qn
pub(crate) const QUOTA_FORM: [Part; 7] = [
    Part::Word(Keyword::Quota),
    Part::One(Slot::Known(Set::Links)),
    Part::One(Slot::Once(Set::Groups)),
    Part::Word(Keyword::Buffer),
    Part::One(Slot::Number {
        low: 0,
        high: MOST_BUFFER as u64,
    }),
    Part::Word(Keyword::Levels),
    Part::Numbers {
        low: 0,
        high: MOST_BOUND as u64,
    },
];

impl Draft {
    // The quota that the values of a line say, with the number of its link.
    pub(crate) fn say_quota(&self, values: &Values) -> Result<Item, LineFault>
        requires { FitsForm (names_said self.now) quota_form values.now }
        ensures { AnswersWithRoom result (quota_says self.now values.now) }
    {
        // There are few groups, so a group's number fits its type.
        let _groups = self.groups.len();
        quota_for(self.link_said(values), values)
    }

    pub(crate) fn put_quota(&mut self, link: LinkNo, quota: Quota) -> Result<(), OutOfMemory>
        requires { MayAdd self.old (item.Quota link quota) }
        ensures ok { OnOk result (self.new ≡ with_item (item.Quota link quota) self.old) }
        ensures err { OnErr result (self.new ≡ self.old) }
    {
        add_quota(&mut self.links, usize::from(link.get()), quota)?;
        Ok(())
    }
}

// The quota of this link that the values of a line say.
fn quota_for(entry: &LinkEntry, values: &Values) -> Result<Item, LineFault>
    requires fits { IsQuotaSmall values.now }
    ensures { AnswersWithRoom result (quota_for (Some entry.now) values.now) }
{
    let quota = quota_of(values);
    let count = values.run.as_slice().len();
    require(is_fit(count, entry, &quota), LineCause::Quota)?;
    Ok(Item::Quota {
        link: entry.shape.link,
        quota,
    })
}

// Its numbers.
fn quota_of(values: &Values) -> Quota
    requires { IsQuotaSmall values.now }
    ensures { result ≡ quota_of values.now }
{
    Quota {
        group: values.ones.number(1) as u8,
        buffer: values.ones.number(2) as u32,
        levels: loads_said(&values.run),
    }
}

// The loads that values are, and 0 in the places after them.
pub(crate) fn loads_said(run: &FewValues) -> [u32; MOST_LEVELS as usize]
    requires few { length run.now ≤ 8 }
    requires small { (k : ℕ) → number_at run.now k ≤ most_bound }
    ensures { result ≡ loads_said run.now }
{
    let values = run.as_slice();
    let mut cells = [0; MOST_LEVELS as usize];
    for place in 0..values.len() {
        cells[place] = values[place].number() as u32;
    }
    cells
}

// Whether there are as many loads as the link has levels, and the quota fits it beside the others.
fn is_fit(count: usize, entry: &LinkEntry, quota: &Quota) -> bool
    ensures { result ≡ (nat_eq count (length entry.now.shape.bounds) && quotas_fit entry.now.shape (entry.now.quotas ++ quota.now ∷ [])) }
{
    count == usize::from(entry.shape.bounds.len()) && entry.quotas.fit_with(&entry.shape, quota)
}

// Adds a quota to those of the link at this place. Where memory runs out, nothing changes.
fn add_quota(links: &mut Vec<LinkEntry>, place: usize, quota: Quota) -> Result<(), OutOfMemory>
    requires { place < length links.old.items }
    ensures ok { OnOk result (links.new.items ≡ add_quota place quota links.old.items) }
    ensures err { OnErr result (links.new.items ≡ links.old.items) }
{
    links[place].quotas.push(quota)
}

#[tactic(auto, unfolding(crate::specs::line::Quota::quota_text))]
pub(crate) fn quota_line(
    alloc: Global,
    groups: &[Name],
    entry: &LinkEntry,
    quota: &Quota,
) -> Result<String, OutOfMemory>
    ensures { IfOk result (λ line. string_bytes line ≡ quota_text groups.now entry.now quota.now) }
{
    let ones = quota_ones(groups, entry, quota);
    let run = load_values(&quota.levels[..usize::from(entry.shape.bounds.len())]);
    write_form(alloc, &QUOTA_FORM, &Values { ones, run })
}

// What its line says at places of their own.
fn quota_ones(groups: &[Name], entry: &LinkEntry, quota: &Quota) -> FewValues
    ensures { result ≡ (quota_values groups.now entry.now quota.now).ones }
{
    let number = usize::from(entry.shape.link.get());
    let link = FieldValue::Known {
        name: entry.name,
        number,
    };
    let buffer = FieldValue::Number(u64::from(quota.buffer));
    match group_value(groups, quota.group) {
        Some(group) => FewValues::of(&[link, group, buffer]),
        // A plan has none.
        None => FewValues::of(&[link, buffer]),
    }
}

// The loads of levels, of which there are at most 8.
fn load_values(loads: &[u32]) -> FewValues
    requires { length loads.now ≤ 8 }
    ensures { result ≡ load_values loads.now }
{
    let mut values = FewValues::none();
    for load in loads {
        values.push(FieldValue::Number(u64::from(*load)));
    }
    values
}
