//! Lines that are read and written again, and lines that are refused.
ghost use Rattle.std.specs.Prelude.{IsTrue};
ghost use Rattle.line_forms.specs.Forms.{is_form};

use crate::known::TwoNames;
use line_forms::{
    FewValues, FieldCause, FieldValue, Fields, Keyword, Part, Reader, Set, Slot, Values, write_form,
};
use net_units::Name;
use std::alloc::Global;
use std::process::Abort;
use std::test::Fail;

const QUOTA: [Part; 7] = [
    Part::Word(Keyword::Quota),
    Part::One(Slot::Known(Set::Links)),
    Part::One(Slot::Once(Set::Groups)),
    Part::Word(Keyword::Buffer),
    Part::One(Slot::Number { low: 0, high: 100 }),
    Part::Word(Keyword::Levels),
    Part::Numbers { low: 1, high: 50 },
];

const OPEN: [Part; 6] = [
    Part::Word(Keyword::Open),
    Part::One(Slot::New(Set::Requests)),
    Part::Word(Keyword::Route),
    Part::Route(Set::Links),
    Part::Word(Keyword::Contract),
    Part::One(Slot::Number { low: 1, high: 9 }),
];

const DO: [Part; 3] = [
    Part::Word(Keyword::Do),
    Part::One(Slot::Actor),
    Part::One(Slot::Name),
];

// What a line says that has to have this form. The reader has read another line before it.
fn read(form: &[Part], line: &[u8]) -> Result<Reader, FieldCause>
    requires { IsTrue (is_form form.now) }
{
    let mut reader = Reader::new();
    let _before = reader.read_line(&[&DO], &TwoNames, &Fields::of(b"do east before"));
    reader.read_line(&[form], &TwoNames, &Fields::of(line))?;
    Ok(reader)
}

fn quota(line: &[u8]) -> Result<Reader, FieldCause> {
    read(&QUOTA, line)
}

fn open(line: &[u8]) -> Result<Reader, FieldCause> {
    read(&OPEN, line)
}

fn do_line(line: &[u8]) -> Result<Reader, FieldCause> {
    read(&DO, line)
}

// The cause, where there is one.
fn cause(said: Result<Reader, FieldCause>) -> Option<FieldCause> {
    said.err()
}

fn name(text: &[u8]) -> Result<Name, Fail> {
    Ok(Name::new(text).ok_or("name")?)
}

#[test]
fn a_quota_is_read(rt: HostRuntime) -> Result<(), Fail> {
    let reader = quota(b"quota west east buffer 20 levels 5 50").map_err(|_| "cause")?;
    let said = reader.values();
    assert_eq!(rt; said.ones.as_slice().len(), 3);
    assert_eq!(rt; said.ones.number(0), 4);
    assert_eq!(rt; said.ones.name(1), Some(name(b"east")?));
    assert_eq!(rt; said.ones.number(2), 20);
    assert_eq!(rt; said.run.as_slice().len(), 2);
    assert_eq!(rt; said.run.number(1), 50);
    assert_eq!(rt; said.run.number(2), 0);
    assert_eq!(rt; said.run.name(0), None);
    Ok(())
}

#[test]
fn a_route_is_read_up_to_its_word(rt: HostRuntime) -> Result<(), Fail> {
    let reader = open(b"open call route east west east contract 9").map_err(|_| "cause")?;
    let said = reader.values();
    assert_eq!(rt; said.ones.name(0), Some(name(b"call")?));
    assert_eq!(rt; said.ones.number(1), 9);
    assert_eq!(rt; said.run.as_slice().len(), 3);
    assert_eq!(rt; said.run.number(1), 4);
    Ok(())
}

#[test]
fn the_first_cause_from_left_to_right_is_told(rt: HostRuntime) -> Result<(), Fail> {
    assert_eq!(rt;
        cause(quota(b"quota east west buffer x levels 0")),
        Some(FieldCause::Known)
    );
    assert_eq!(rt;
        cause(quota(b"quota north west buffer x levels 0")),
        Some(FieldCause::Unknown)
    );
    assert_eq!(rt;
        cause(quota(b"quota 1 west buffer x levels 0")),
        Some(FieldCause::Name)
    );
    assert_eq!(rt;
        cause(quota(b"quota west west buffer 020 levels 0")),
        Some(FieldCause::Number)
    );
    assert_eq!(rt;
        cause(quota(b"quota west west buffer 101 levels 0")),
        Some(FieldCause::Range)
    );
    assert_eq!(rt;
        cause(quota(b"quota west west buffer 100 levels 1 0")),
        Some(FieldCause::Range)
    );
    assert_eq!(rt;
        cause(quota(b"quota west west buffer 100 levels")),
        Some(FieldCause::Shape)
    );
    assert_eq!(rt;
        cause(quota(b"quota west west buffer 1 levels 1 1 1 1 1 1 1 1 1")),
        Some(FieldCause::Shape)
    );
    assert_eq!(rt;
        cause(open(b"open east route east contract 9")),
        Some(FieldCause::Known)
    );
    assert_eq!(rt;
        cause(open(b"open call route contract 9")),
        Some(FieldCause::Shape)
    );
    assert_eq!(rt;
        cause(open(b"open call route east north contract 0")),
        Some(FieldCause::Unknown)
    );
    assert_eq!(rt; cause(do_line(b"do plane plane")), Some(FieldCause::Name));
    assert_eq!(rt; cause(do_line(b"do plane north")), None);
    Ok(())
}

#[test]
fn values_are_written(rt: HostRuntime) -> Result<(), Fail> {
    let alloc = rt.alloc();
    let (east, west) = (name(b"east")?, name(b"west")?);
    let mut run = FewValues::none();
    run.push(FieldValue::Known {
        name: west,
        number: 4,
    });
    let values = Values {
        ones: FewValues::of(&[FieldValue::Name(east), FieldValue::Number(7)]),
        run,
    };
    let line = write_form(alloc, &OPEN, &values)?;
    assert_eq!(rt; line.as_str(), "open east route west contract 7\n");
    let said = Values::of(&[FieldValue::Plane, FieldValue::Name(west)]);
    let line = write_form(alloc, &DO, &said)?;
    assert_eq!(rt; line.as_str(), "do plane west\n");
    Ok(())
}
