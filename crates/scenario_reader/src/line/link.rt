//! The line of a link: its forms, what it says, adding the link, and its text.
ghost use Rattle.std.specs.Prelude.{ℕ, ◌≡◌, ◌≤◌, ◌<◌, Some, None, option_map, OnOk, OnErr, IfOk, length, string_bytes, get_or};
ghost use Rattle.std.specs.List.{slice_get};
ghost use Rattle.net_units.specs.Limits.{most_bound};
ghost use Rattle.net_units.specs.Numbers.{link_at};
ghost use Rattle.line_forms.specs.Values.{name_at, number_at};
ghost use Rattle.call_script.specs.Versions.{test_of};
ghost use Rattle.scenario_reader.specs.Causes.{AnswersWithRoom, States, stated, unless};
ghost use Rattle.scenario_reader.specs.Drafts.{link_named, shape_in, with_item};
ghost use Rattle.scenario_reader.specs.Entries.{has_bounds, shape_of};
ghost use Rattle.scenario_reader.specs.Known.{FitsOne, names_said};
ghost use Rattle.scenario_reader.specs.line.Link.{AreFigures, link_forms, link_says, link_numbers, link_with, bounds_said, link_ones, bound_values, link_text};
ghost use Rattle.scenario_reader.specs.line.Table.{MayAdd};
ghost use Rattle.scenario_reader.specs.declared.item.Item.TheVariants as item;

use crate::cause::{LineCause, LineFault};
use crate::draft::Draft;
use crate::item::Item;
use crate::line::quota::loads_said;
use crate::values::require;
use call_script::{LinkEntry, Quotas, Version};
use line_forms::{FewValues, FieldValue, Keyword, Part, Set, Slot, Values, write_form};
use link_steps::LinkShape;
use net_units::limits::{
    MOST_BEST, MOST_BOUND, MOST_BUFFER, MOST_LEVELS, MOST_LINKS, MOST_PROPAGATION, MOST_RATE,
    MOST_SIZE,
};
use net_units::{Bounds, Level, LinkNo, Name, OutOfMemory};
use std::alloc::Global;

/// link NAME NODE NODE rate R cap C prop P buffer U levels D1 .. Dn
pub(crate) const PLAIN_FORM: [Part; 14] = [
    Part::Word(Keyword::Link),
    Part::One(Slot::New(Set::Links)),
    Part::One(Slot::Name),
    Part::One(Slot::Name),
    Part::Word(Keyword::Rate),
    Part::One(Slot::Number {
        low: 1,
        high: MOST_RATE as u64,
    }),
    Part::Word(Keyword::Cap),
    Part::One(Slot::Number {
        low: 1,
        high: MOST_SIZE as u64,
    }),
    Part::Word(Keyword::Prop),
    Part::One(Slot::Number {
        low: 0,
        high: MOST_PROPAGATION as u64,
    }),
    Part::Word(Keyword::Buffer),
    Part::One(Slot::Number {
        low: 0,
        high: MOST_BUFFER as u64,
    }),
    Part::Word(Keyword::Levels),
    Part::Numbers {
        low: 1,
        high: MOST_BOUND as u64,
    },
];

/// link NAME NODE NODE rate R cap C prop P buffer U best K levels D1 .. Dn
pub(crate) const BEST_FORM: [Part; 16] = [
    Part::Word(Keyword::Link),
    Part::One(Slot::New(Set::Links)),
    Part::One(Slot::Name),
    Part::One(Slot::Name),
    Part::Word(Keyword::Rate),
    Part::One(Slot::Number {
        low: 1,
        high: MOST_RATE as u64,
    }),
    Part::Word(Keyword::Cap),
    Part::One(Slot::Number {
        low: 1,
        high: MOST_SIZE as u64,
    }),
    Part::Word(Keyword::Prop),
    Part::One(Slot::Number {
        low: 0,
        high: MOST_PROPAGATION as u64,
    }),
    Part::Word(Keyword::Buffer),
    Part::One(Slot::Number {
        low: 0,
        high: MOST_BUFFER as u64,
    }),
    Part::Word(Keyword::Best),
    Part::One(Slot::Number {
        low: 1,
        high: MOST_BEST as u64,
    }),
    Part::Word(Keyword::Levels),
    Part::Numbers {
        low: 1,
        high: MOST_BOUND as u64,
    },
];

impl Draft {
    // The link that the values of a line say.
    pub(crate) fn say_link(
        &self,
        alloc: Global,
        version: Version,
        values: &Values,
    ) -> Result<Item, LineFault>
        requires { FitsOne (names_said self.now) (link_forms version) values.now }
        ensures { AnswersWithRoom result (link_says version self.now values.now) }
    {
        require(self.links.len() < usize::from(MOST_LINKS), LineCause::Many)?;
        let shape = self.shape_said(version, values)?;
        link_with(alloc, &values.ones, shape)
    }

    // The shape of the next link, which has these numbers.
    fn shape_said(&self, version: Version, values: &Values) -> Result<LinkShape, LineCause>
        requires few { length self.now.links < 32 }
        requires figures { AreFigures values.now }
        ensures { States result (unless (has_bounds (link_numbers values.now)) LineCause.Levels) (shape_of (link_at (length self.now.links)) (test_of version) (link_numbers values.now)) }
    {
        let bounds = bounds_said(&values.run).ok_or(LineCause::Levels)?;
        let ones = &values.ones;
        let made = LinkShape::new(
            LinkNo::new(self.links.len() as u8).unwrap(),
            ones.number(3) as u32,
            ones.number(4) as u32,
            ones.number(5) as u32,
            ones.number(6) as u32,
            bounds,
            version.test(),
            ones.number(7) as u32,
        );
        match made {
            Ok(shape) => Ok(shape),
            Err(_) => Err(LineCause::Levels),
        }
    }

    // The shape of the link of this name.
    pub(crate) fn link_named(&self, name: &Name) -> Option<LinkShape>
        ensures { result ≡ option_map shape_in (link_named self.now.links name.now) }
    {
        let number = self.link_names.number_of(name)?;
        Some(self.links[number].shape)
    }

    // The link that the values of a line name first.
    pub(crate) fn link_said(&self, values: &Values) -> &LinkEntry
        requires { number_at values.now.ones 0 < length self.now.links }
        ensures { slice_get self.now.links (number_at values.now.ones 0) ≡ Some result.now }
    {
        &self.links[values.ones.number(0) as usize]
    }

    pub(crate) fn put_link(&mut self, entry: LinkEntry) -> Result<(), OutOfMemory>
        requires { MayAdd self.old (item.Link entry) }
        ensures ok { OnOk result (self.new ≡ with_item (item.Link entry) self.old) }
        ensures err { OnErr result (self.new ≡ self.old) }
    {
        let name = entry.name;
        self.links.push(entry)?;
        self.link_names.add(name);
        Ok(())
    }
}

// The link of this shape, with the names that the values of a line say.
fn link_with(alloc: Global, ones: &FewValues, shape: LinkShape) -> Result<Item, LineFault>
    ensures { AnswersWithRoom result (stated None (link_with (name_at ones.now 0) (name_at ones.now 1) (name_at ones.now 2) (Some shape))) }
{
    match (ones.name(0), ones.name(1), ones.name(2)) {
        (Some(name), Some(from), Some(to)) => Ok(Item::Link(LinkEntry {
            name,
            from,
            to,
            shape,
            quotas: Quotas::none(alloc),
        })),
        _ => Err(LineFault::Refused(LineCause::Shape)),
    }
}

// The bounds that values are, None where they don't rise.
fn bounds_said(run: &FewValues) -> Option<Bounds>
    requires few { length run.now ≤ 8 }
    requires small { (k : ℕ) → number_at run.now k ≤ most_bound }
    ensures { result ≡ bounds_said run.now }
{
    let numbers = loads_said(run);
    Bounds::new(&numbers[..run.as_slice().len()])
}

#[tactic(auto, unfolding(crate::specs::line::Link::link_text))]
pub(crate) fn link_line(alloc: Global, entry: &LinkEntry) -> Result<String, OutOfMemory>
    ensures { IfOk result (λ line. string_bytes line ≡ link_text entry.now) }
{
    let mut ones = link_ones(entry);
    let run = bound_values(&entry.shape.bounds);
    if entry.shape.best == 0 {
        write_form(alloc, &PLAIN_FORM, &Values { ones, run })
    } else {
        ones.push(FieldValue::Number(u64::from(entry.shape.best)));
        write_form(alloc, &BEST_FORM, &Values { ones, run })
    }
}

// What its line says at places of their own, up to the buffer.
fn link_ones(entry: &LinkEntry) -> FewValues
    ensures { result ≡ link_ones entry.now }
{
    let shape = &entry.shape;
    FewValues::of(&[
        FieldValue::Name(entry.name),
        FieldValue::Name(entry.from),
        FieldValue::Name(entry.to),
        FieldValue::Number(u64::from(shape.rate)),
        FieldValue::Number(u64::from(shape.cap)),
        FieldValue::Number(u64::from(shape.prop)),
        FieldValue::Number(u64::from(shape.buffer)),
    ])
}

// The bounds of the levels.
fn bound_values(bounds: &Bounds) -> FewValues
    ensures { result ≡ bound_values bounds.now }
{
    let mut values = FewValues::none();
    for index in 0..bounds.len() {
        let bound = bound_at(bounds, index);
        values.push(FieldValue::Number(u64::from(bound)));
    }
    values
}

// The bound at a place, from 0.
fn bound_at(bounds: &Bounds, index: u8) -> u32
    requires within { index < length bounds.now }
    requires few { index < 8 }
    ensures { result ≡ get_or bounds.now index 0 }
{
    match Level::new(index + 1) {
        Some(level) => bounds.at(level),
        None => unreachable!(),
    }
}
