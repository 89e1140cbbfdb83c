//! The text of a line.
ghost use Rattle.std.specs.Prelude.{◌≡◌, ◌++◌, IfOk, OnOk, IsTrue, List, [], ◌∷◌, drop, map, string_bytes};
ghost use Rattle.text_writer.specs.Lines.{whole_line};
ghost use Rattle.line_forms.specs.Fields.{spaced};
ghost use Rattle.line_forms.specs.Forms.{is_form};
ghost use Rattle.line_forms.specs.declared.form.Part.TheVariants as part;
ghost use Rattle.line_forms.specs.Values.{field_of};
ghost use Rattle.line_forms.specs.Words.{text_of};
ghost use Rattle.line_forms.specs.Writing.{fields_with, fields_said};

use crate::form::Part;
use crate::value::{FieldValue, Values};
use crate::word::Keyword;
use net_units::OutOfMemory;
use std::alloc::{AllocError, Global};

/// The line that says these values in a form, with its line feed.
pub fn write_form(alloc: Global, form: &[Part], values: &Values) -> Result<String, OutOfMemory>
    requires { IsTrue (is_form form.now) }
    ensures { IfOk result (λ line. string_bytes line ≡ whole_line (fields_with form.now values.now)) }
{
    let mut line = String::new(alloc);
    line.push_str(first_word(form).as_str())?;
    push_parts(&mut line, &form[1..], values)?;
    writeln!(line)?;
    Ok(line)
}

// The fixed word that a form begins with.
fn first_word(form: &[Part]) -> Keyword
    requires { IsTrue (is_form form.now) }
    ensures { form.now ≡ part.Word result ∷ drop 1 form.now }
{
    match form[0] {
        Part::Word(word) => word,
        _ => unreachable!(),
    }
}

// The fields of the parts after the first word.
fn push_parts(line: &mut String, parts: &[Part], values: &Values) -> Result<(), AllocError>
    ensures { OnOk result (string_bytes line.new ≡ string_bytes line.old ++ spaced (fields_with parts.now values.now)) }
{
    let mut ones = values.ones.as_slice();
    let mut run = values.run.as_slice();
    for part in parts {
        match part {
            Part::Word(word) => push_word(line, *word)?,
            Part::One(_) => {
                if let [first, rest @ ..] = ones {
                    push_value(line, first)?;
                    ones = rest;
                }
            }
            Part::Route(_) | Part::Numbers { .. } => {
                push_run(line, run)?;
                run = &[];
            }
        }
    }
    Ok(())
}

// A fixed word.
fn push_word(line: &mut String, word: Keyword) -> Result<(), AllocError>
    ensures { OnOk result (string_bytes line.new ≡ string_bytes line.old ++ spaced (text_of word ∷ [])) }
{
    let text = word.as_str();
    write!(line, " {text}")
}

// The fields of several values.
fn push_run(line: &mut String, values: &[FieldValue]) -> Result<(), AllocError>
    ensures { OnOk result (string_bytes line.new ≡ string_bytes line.old ++ spaced (map field_of values.now)) }
{
    for value in values {
        push_value(line, value)?;
    }
    Ok(())
}

// The field of a value.
fn push_value(line: &mut String, value: &FieldValue) -> Result<(), AllocError>
    ensures { OnOk result (string_bytes line.new ≡ string_bytes line.old ++ spaced (field_of value.now ∷ [])) }
{
    match value {
        FieldValue::Name(name) | FieldValue::Known { name, .. } => write!(line, " {name}"),
        FieldValue::Number(number) => write!(line, " {number}"),
        FieldValue::Plane => write!(line, " plane"),
    }
}
