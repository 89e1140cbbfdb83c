//! Reading a line's fields.
ghost use Rattle.std.specs.Prelude.{ℕ, ◌≡◌, ◌≤◌, ◌<◌, ◌+◌, IsTrue, List, take, drop, length, map};
ghost use Rattle.std.specs.List.{list_all};
ghost use Rattle.line_forms.specs.Fields.{field_at};
ghost use Rattle.line_forms.specs.Forms.{has_form, is_form};
ghost use Rattle.line_forms.specs.ReadSteps.{Fills, Moves, Puts, IsNext, after_one, after_run, step, begun};
ghost use Rattle.line_forms.specs.Reading.{read_line, read_run, read_parts};
ghost use Rattle.line_forms.specs.Slots.{read_slot};

use crate::cause::FieldCause;
use crate::fields::Fields;
use crate::form::{Part, has_form, route_length};
use crate::known::Known;
use crate::slot::Slot;
use crate::value::{FewValues, Values};

/// Reads lines one after another. What a line says stands in its reader until the next one is read, so that it isn't copied.
#[derive(Drop)]
pub struct Reader {
    values: Values,
    // How many fields were read.
    place: usize,
    // The number of the last known name.
    before: usize,
}

impl Reader {
    /// No line was read.
    pub fn new() -> Reader
        ensures { result ≡ begun }
    {
        Reader {
            values: Values::none(),
            place: 0,
            before: 0,
        }
    }

    /// What the line says that was read last, where it wasn't refused.
    pub fn values(&self) -> &Values
        ensures { result.now ≡ self.now.values }
    {
        &self.values
    }

    /// Reads a line that has to have one of these forms. Its first cause is answered, where it is refused: `Shape`, where it has none
    /// of them, and then that of the first field from left to right that isn't what it has to be. A line that has several of the forms
    /// is read by the first of these.
    pub fn read_line<K: Known>(
        &mut self,
        forms: &[&[Part]],
        known: &K,
        fields: &Fields,
    ) -> Result<(), FieldCause>
        requires { IsTrue (list_all is_form (map (λ form. form.now) forms.now)) }
        ensures { Fills result self.new (read_line (K.names known.now) (map (λ form. form.now) forms.now) fields.now) }
    {
        for form in forms {
            if has_form(form, fields) {
                return self.read_parts(form, known, fields);
            }
        }
        Err(FieldCause::Shape)
    }

    // Reads the fields of a line that has this form.
    fn read_parts<K: Known>(
        &mut self,
        form: &[Part],
        known: &K,
        fields: &Fields,
    ) -> Result<(), FieldCause>
        requires form { IsTrue (is_form form.now) }
        requires has { IsTrue (has_form form.now fields.now) }
        ensures { Fills result self.new (read_parts (K.names known.now) 0 form.now fields.now) }
    {
        self.begin();
        for part in form {
            self.take(known, part, fields)?;
        }
        Ok(())
    }

    // Forgets what was read.
    fn begin(&mut self)
        ensures { self.new ≡ begun }
    {
        self.values.clear();
        self.place = 0;
        self.before = 0;
    }

    // Reads the fields of the next part.
    fn take<K: Known>(&mut self, known: &K, part: &Part, fields: &Fields) -> Result<(), FieldCause>
        requires { IsNext part.now self.old fields.now }
        ensures { Moves result self.new (step (K.names known.now) part.now fields.now self.old) }
    {
        let all = fields.count();
        match part {
            Part::Word(_) => {
                self.place += 1;
                Ok(())
            }
            Part::One(slot) => self.take_one(known, *slot, fields),
            Part::Route(set) => {
                let count = route_length(fields, self.place);
                self.take_run(known, Slot::Known(*set), count, fields)
            }
            Part::Numbers { low, high } => {
                let slot = Slot::Number {
                    low: *low,
                    high: *high,
                };
                let count = all - self.place;
                self.take_run(known, slot, count, fields)
            }
        }
    }

    // Reads one field.
    fn take_one<K: Known>(
        &mut self,
        known: &K,
        slot: Slot,
        fields: &Fields,
    ) -> Result<(), FieldCause>
        requires room { length self.old.values.ones < 16 }
        requires within { self.old.place < length fields.now }
        ensures { Moves result self.new (after_one self.old (read_slot (K.names known.now) self.old.before slot (field_at fields.now self.old.place))) }
    {
        // The place fits its type, since it is within the line.
        let _count = fields.count();
        let value = slot.read(known, self.before, fields.at(self.place))?;
        self.before = value.number() as usize;
        self.values.ones.push(value);
        self.place += 1;
        Ok(())
    }

    // Reads so many fields of one kind.
    fn take_run<K: Known>(
        &mut self,
        known: &K,
        slot: Slot,
        count: usize,
        fields: &Fields,
    ) -> Result<(), FieldCause>
        requires few { count ≤ 16 }
        requires within { self.old.place + count ≤ length fields.now }
        ensures { Moves result self.new (after_run self.old count (read_run (K.names known.now) self.old.before slot (take count (drop self.old.place fields.now)))) }
    {
        let _count = fields.count();
        let run = &mut self.values.run;
        read_run(run, known, self.before, slot, fields, self.place, count)?;
        self.place += count;
        Ok(())
    }
}

// Puts what so many fields from a place on say, each of which has to be the same, in place of the values.
fn read_run<K: Known>(
    values: &mut FewValues,
    known: &K,
    before: usize,
    slot: Slot,
    fields: &Fields,
    from: usize,
    count: usize,
) -> Result<(), FieldCause>
    requires few { count ≤ 16 }
    requires within { from + count ≤ length fields.now }
    ensures { Puts result values.new (read_run (K.names known.now) before slot (take count (drop from fields.now))) }
{
    let _all = fields.count();
    values.clear();
    for place in 0..count {
        let value = slot.read(known, before, fields.at(from + place))?;
        values.push(value);
    }
    Ok(())
}
