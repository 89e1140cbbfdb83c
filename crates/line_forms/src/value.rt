//! What the fields of a line say.
ghost use Rattle.std.specs.Prelude.{◌≡◌, ◌<◌, ◌≤◌, ◌++◌, ◌∷◌, [], length};
ghost use Rattle.line_forms.specs.Values.{no_values, number_in, number_at, named_in, name_at, with_ones};

use net_units::Name;
use std::marker::Model;

/// How many values a list of them has at most: the links of the longest route.
pub const MOST_VALUES: usize = 16;

/// What one field says.
#[derive(Clone, Copy, Debug)]
pub enum FieldValue {
    /// A name: a new one, or that of a node, which need not be known.
    Name(Name),
    /// A name that is known, and its number in its set.
    Known { name: Name, number: usize },
    /// A number.
    Number(u64),
    /// The plane.
    Plane,
}

/// What the fields of a line say, but for its fixed words.
#[derive(Drop)]
pub struct Values {
    /// What the fields at places of their own say, in their order.
    pub ones: FewValues,
    /// What the fields of the route, or those of the levels, say.
    pub run: FewValues,
}

impl Values {
    /// Nothing is said.
    pub fn none() -> Values
        ensures { result ≡ no_values }
    {
        Values {
            ones: FewValues::none(),
            run: FewValues::none(),
        }
    }

    // Forgets all values.
    pub(crate) fn clear(&mut self)
        ensures { self.new ≡ no_values }
    {
        self.ones.clear();
        self.run.clear();
    }

    /// These values at places of their own, and no run. There are at most 16.
    pub fn of(ones: &[FieldValue]) -> Values
        requires { length ones.now ≤ 16 }
        ensures { result ≡ with_ones ones.now }
    {
        Values {
            ones: FewValues::of(ones),
            run: FewValues::none(),
        }
    }
}

/// Up to 16 values. A contract sees the list of them.
#[derive(Drop)]
pub struct FewValues {
    cells: [FieldValue; MOST_VALUES],
    len: usize,
}

impl Model for FewValues {
    ghost use Rattle.std.specs.Prelude.{List, ◌≤◌, take};
    ghost use Rattle.line_forms.specs.declared.value.FieldValue.{FieldValue};

    ghost Value = { List FieldValue };

    ghost view = { λ v. take v.len v.cells };

    ghost invariant = { λ v. v.len ≤ 16 };
}

impl FewValues {
    /// No values.
    pub fn none() -> FewValues
        ensures { result ≡ [] }
    {
        FewValues {
            cells: [FieldValue::Plane; MOST_VALUES],
            len: 0,
        }
    }

    /// These values. There are at most 16.
    pub fn of(values: &[FieldValue]) -> FewValues
        requires { length values.now ≤ 16 }
        ensures { result ≡ values.now }
    {
        let mut cells = [FieldValue::Plane; MOST_VALUES];
        cells[..values.len()].copy_from_slice(values);
        FewValues {
            cells,
            len: values.len(),
        }
    }

    // Forgets the values.
    pub(crate) fn clear(&mut self)
        ensures { self.new ≡ [] }
    {
        self.len = 0;
    }

    /// Adds a value at the end. There have to be fewer than 16.
    #[tactic(auto, using(crate::proofs::ValuesInCells::values_more, crate::proofs::ValuesInCells::values_few))]
    pub fn push(&mut self, value: FieldValue)
        requires { length self.old < 16 }
        ensures { self.new ≡ self.old ++ value ∷ [] }
    {
        self.cells[self.len] = value;
        self.len += 1;
    }

    /// The values.
    pub fn as_slice(&self) -> &[FieldValue]
        ensures { result.now ≡ self.now }
    {
        &self.cells[..self.len]
    }

    /// The number at a place, from 0, or that of the known name there; 0 where there is neither.
    pub fn number(&self, place: usize) -> u64
        ensures { result ≡ number_at self.now place }
    {
        match self.as_slice().get(place) {
            Some(value) => value.number(),
            None => 0,
        }
    }

    /// The name at a place, from 0, if there is one.
    pub fn name(&self, place: usize) -> Option<Name>
        ensures { result ≡ name_at self.now place }
    {
        match self.as_slice().get(place) {
            Some(value) => value.name(),
            None => None,
        }
    }
}

impl FieldValue {
    /// Its number, or that of the known name; 0 where it is neither.
    pub fn number(&self) -> u64
        ensures { result ≡ number_in self.now }
    {
        match self {
            FieldValue::Number(number) => *number,
            FieldValue::Known { number, .. } => *number as u64,
            FieldValue::Name(_) | FieldValue::Plane => 0,
        }
    }

    /// The name, if it is one.
    pub fn name(&self) -> Option<Name>
        ensures { result ≡ named_in self.now }
    {
        match self {
            FieldValue::Name(name) | FieldValue::Known { name, .. } => Some(*name),
            FieldValue::Number(_) | FieldValue::Plane => None,
        }
    }
}
