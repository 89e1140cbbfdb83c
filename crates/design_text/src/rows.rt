//! The rows of a TOML text.

use crate::field::{Field, Kind, Place, Row};
use crate::marks::Marks;
use crate::mistake::Mistakes;
use std::alloc::{AllocError, Global};
use toml::{Table, Value};

/// The values that a key may have.
const VALUES: &str = "a text, a whole number, true or false, or a list of texts";

/// The top of the design.
const TOP: Place = Place { file: 0, line: 1 };

/// What a design says: of the network, and of each link, each stream and each share of a link.
#[derive(Debug, Drop)]
pub(crate) struct Rows {
    pub(crate) network: Row,
    pub(crate) links: Vec<Row>,
    pub(crate) streams: Vec<Row>,
    pub(crate) quotas: Vec<Row>,
    /// What links and streams take that they lack, and the classes of streams.
    pub(crate) link_defaults: Row,
    pub(crate) stream_defaults: Row,
    pub(crate) classes: Vec<Class>,
}

/// A class of streams: what a stream of it takes that it lacks.
#[derive(Debug, Drop)]
pub(crate) struct Class {
    pub(crate) name: String,
    pub(crate) row: Row,
}

impl Rows {
    /// Nothing is said yet.
    fn new(alloc: Global) -> Rows {
        Rows {
            network: Row::new(alloc, Kind::Network, TOP),
            links: Vec::new(alloc),
            streams: Vec::new(alloc),
            quotas: Vec::new(alloc),
            link_defaults: Row::new(alloc, Kind::Link, TOP),
            stream_defaults: Row::new(alloc, Kind::Stream, TOP),
            classes: Vec::new(alloc),
        }
    }
}

/// The rows of a text, which is file 0; None where it is no TOML.
pub(crate) fn rows_of(
    alloc: Global,
    text: &str,
    told: &mut Mistakes,
) -> Result<Option<Rows>, AllocError> {
    let marks = Marks::new(alloc, text)?;
    let mut rows = Rows::new(alloc);
    let table = match toml::table_from_str(alloc, text) {
        Ok(table) => table,
        Err(error) => {
            let Some(span) = error.span() else {
                return Err(AllocError);
            };
            let line = line_at(text, span.start);
            told.tell_at(Place { file: 0, line }, error.message())?;
            return Ok(None);
        }
    };
    let context = Context { alloc, marks };
    for (key, value) in table.iter() {
        match key.as_str() {
            "link" => rows.links = context.listed(Kind::Link, "link", value, told)?,
            "stream" => rows.streams = context.listed(Kind::Stream, "stream", value, told)?,
            "quota" => rows.quotas = context.listed(Kind::Quota, "quota", value, told)?,
            "defaults" => context.add_defaults(&mut rows, value, told)?,
            "class" => context.add_classes(&mut rows, value, told)?,
            key => context.add(&mut rows.network, "", 0, key, value, told)?,
        }
    }
    Ok(Some(rows))
}

/// The line of a place in a text, from 1.
fn line_at(text: &str, place: usize) -> u64 {
    let mut line: u64 = 1;
    for byte in text.bytes().take(place) {
        if byte == b'\n' {
            line = line.saturating_add(1);
        }
    }
    line
}

/// Where the keys of the text stand.
#[derive(Drop)]
struct Context {
    alloc: Global,
    marks: Marks,
}

impl Context {
    /// The rows of a list of tables.
    fn listed(
        &self,
        kind: Kind,
        name: &str,
        value: &Value,
        told: &mut Mistakes,
    ) -> Result<Vec<Row>, AllocError> {
        let mut rows = Vec::new(self.alloc);
        let Value::Array(items) = value else {
            told.tell_at(self.place("", 0, name), "a list of tables")?;
            return Ok(rows);
        };
        let mut number: usize = 0;
        for item in items {
            rows.push(self.row(kind, name, number, item, told)?)?;
            number = number.saturating_add(1);
        }
        Ok(rows)
    }

    /// The defaults of links and of streams.
    fn add_defaults(
        &self,
        rows: &mut Rows,
        value: &Value,
        told: &mut Mistakes,
    ) -> Result<(), AllocError> {
        let Value::Table(table) = value else {
            return told.tell_at(self.place("", 0, "defaults"), "a table");
        };
        for (key, value) in table.iter() {
            self.add_default(rows, key.as_str(), value, told)?;
        }
        Ok(())
    }

    /// The defaults of one kind of rows.
    fn add_default(
        &self,
        rows: &mut Rows,
        kind: &str,
        value: &Value,
        told: &mut Mistakes,
    ) -> Result<(), AllocError> {
        match kind {
            "link" => rows.link_defaults = self.row(Kind::Link, "defaults.link", 0, value, told)?,
            "stream" => {
                rows.stream_defaults = self.row(Kind::Stream, "defaults.stream", 0, value, told)?
            }
            _ => told.tell_at(
                self.place("", 0, "defaults"),
                "defaults.link or defaults.stream",
            )?,
        }
        Ok(())
    }

    /// The classes of streams.
    fn add_classes(
        &self,
        rows: &mut Rows,
        value: &Value,
        told: &mut Mistakes,
    ) -> Result<(), AllocError> {
        let Value::Table(table) = value else {
            return told.tell_at(self.place("", 0, "class"), "a table for each class");
        };
        for (key, value) in table.iter() {
            rows.classes.push(self.class(key, value, told)?)?;
        }
        Ok(())
    }

    /// The class of this name.
    fn class(
        &self,
        name: &String,
        value: &Value,
        told: &mut Mistakes,
    ) -> Result<Class, AllocError> {
        let table = format!(in self.alloc; "class.{name}")?;
        Ok(Class {
            name: name.clone()?,
            row: self.row(Kind::Stream, table.as_str(), 0, value, told)?,
        })
    }

    /// The row of a table, which is this one of those with its name.
    fn row(
        &self,
        kind: Kind,
        name: &str,
        number: usize,
        value: &Value,
        told: &mut Mistakes,
    ) -> Result<Row, AllocError> {
        let place = self.place(name, number, "");
        let mut row = Row::new(self.alloc, kind, place);
        let Value::Table(table) = value else {
            told.tell_at(place, "a table")?;
            return Ok(row);
        };
        for (key, value) in table.iter() {
            self.add(&mut row, name, number, key.as_str(), value, told)?;
        }
        Ok(row)
    }

    /// Adds the value at a key to a row.
    fn add(
        &self,
        row: &mut Row,
        name: &str,
        number: usize,
        key: &str,
        value: &Value,
        told: &mut Mistakes,
    ) -> Result<(), AllocError> {
        let place = self.place(name, number, key);
        match text_of(self.alloc, value)? {
            Some(text) => row.push(self.alloc, key, text, place),
            None => {
                let field = Field {
                    key: String::from_str(self.alloc, key)?,
                    text: String::from_str(self.alloc, value.type_str())?,
                    place,
                };
                told.refuse(&field, VALUES)
            }
        }
    }

    /// Where a key of a table stands.
    fn place(&self, name: &str, number: usize, key: &str) -> Place {
        Place {
            file: 0,
            line: self.marks.line_of(name, number, key),
        }
    }
}

/// A value as text; None where it is neither a text, a whole number, true or false, nor a list of texts.
fn text_of(alloc: Global, value: &Value) -> Result<Option<String>, AllocError> {
    match value {
        Value::String(text) => Ok(Some(text.clone()?)),
        Value::Integer(number) => Ok(Some(number.to_string(alloc)?)),
        Value::Boolean(holds) => Ok(Some(holds.to_string(alloc)?)),
        Value::Array(items) => joined(alloc, items),
        _ => Ok(None),
    }
}

/// Texts with commas between them; None where one of the values isn't a text.
fn joined(alloc: Global, items: &[Value]) -> Result<Option<String>, AllocError> {
    let mut text = String::new(alloc);
    for item in items {
        let Value::String(part) = item else {
            return Ok(None);
        };
        if !text.is_empty() {
            text.push_str(", ")?;
        }
        text.push_str(part.as_str())?;
    }
    Ok(Some(text))
}
