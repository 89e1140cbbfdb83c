//! What one field of a line has to be.
ghost use Rattle.std.specs.Prelude.{◌≡◌, if◌then◌else◌, Some, None};
ghost use Rattle.net_units.specs.Text.{is_name};
ghost use Rattle.line_forms.specs.Slots.{read_slot, if_name, as_any, as_new, as_known, as_once, read_number, read_actor};

use crate::cause::FieldCause;
use crate::known::{Known, Set};
use crate::number::{is_number, value_of};
use crate::value::FieldValue;
use net_units::Name;

/// What one field of a line has to be.
#[derive(Clone, Copy, Debug)]
pub enum Slot {
    /// Any name.
    Name,
    /// A name that isn't in a set.
    New(Set),
    /// A name that is in a set.
    Known(Set),
    /// A name that is in a set, and doesn't yet stand together with the known name before it.
    Once(Set),
    /// A number from `low` to `high`.
    Number { low: u64, high: u64 },
    /// The word `plane`, or the name of a caller.
    Actor,
}

impl Slot {
    /// What the field says, or the first cause by which it is refused. The known name before it in its line has the number `before`.
    pub fn read<K: Known>(
        self,
        known: &K,
        before: usize,
        field: &[u8],
    ) -> Result<FieldValue, FieldCause>
        ensures { result ≡ read_slot (K.names known.now) before self field.now }
    {
        match self {
            Slot::Name => read_name(field),
            Slot::New(set) => read_new(known, set, field),
            Slot::Known(set) => read_known(known, set, field),
            Slot::Once(set) => read_once(known, set, before, field),
            Slot::Number { low, high } => read_number(low, high, field),
            Slot::Actor => read_actor(known, field),
        }
    }
}

// The name that a field holds, if it is one.
fn name_in(field: &[u8]) -> Option<Name>
    ensures { result ≡ (if is_name field.now then Some field.now else None) }
{
    Name::new(field)
}

fn read_name(field: &[u8]) -> Result<FieldValue, FieldCause>
    ensures { result ≡ if_name field.now (as_any field.now) }
{
    match name_in(field) {
        Some(name) => Ok(FieldValue::Name(name)),
        None => Err(FieldCause::Name),
    }
}

fn read_new<K: Known>(known: &K, set: Set, field: &[u8]) -> Result<FieldValue, FieldCause>
    ensures { result ≡ if_name field.now (as_new field.now ((K.names known.now).number set field.now)) }
{
    match name_in(field) {
        Some(name) => match known.number_of(set, &name) {
            Some(_) => Err(FieldCause::Known),
            None => Ok(FieldValue::Name(name)),
        },
        None => Err(FieldCause::Name),
    }
}

fn read_known<K: Known>(known: &K, set: Set, field: &[u8]) -> Result<FieldValue, FieldCause>
    ensures { result ≡ if_name field.now (as_known field.now ((K.names known.now).number set field.now)) }
{
    match name_in(field) {
        Some(name) => match known.number_of(set, &name) {
            Some(number) => Ok(FieldValue::Known { name, number }),
            None => Err(FieldCause::Unknown),
        },
        None => Err(FieldCause::Name),
    }
}

fn read_once<K: Known>(
    known: &K,
    set: Set,
    before: usize,
    field: &[u8],
) -> Result<FieldValue, FieldCause>
    ensures { result ≡ if_name field.now (as_once ((K.names known.now).paired before) field.now ((K.names known.now).number set field.now)) }
{
    match name_in(field) {
        Some(name) => match known.number_of(set, &name) {
            Some(number) => {
                if known.are_paired(before, number) {
                    Err(FieldCause::Known)
                } else {
                    Ok(FieldValue::Known { name, number })
                }
            }
            None => Err(FieldCause::Unknown),
        },
        None => Err(FieldCause::Name),
    }
}

fn read_number(low: u64, high: u64, field: &[u8]) -> Result<FieldValue, FieldCause>
    ensures { result ≡ read_number low high field.now }
{
    if !is_number(field) {
        return Err(FieldCause::Number);
    }
    let number = value_of(field);
    if low <= number && number <= high {
        Ok(FieldValue::Number(number))
    } else {
        Err(FieldCause::Range)
    }
}

fn read_actor<K: Known>(known: &K, field: &[u8]) -> Result<FieldValue, FieldCause>
    ensures { result ≡ read_actor (K.names known.now) field.now }
{
    if field == b"plane".as_slice() {
        Ok(FieldValue::Plane)
    } else {
        read_known(known, Set::Callers, field)
    }
}
