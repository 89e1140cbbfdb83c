//! The values of fields.
//!
//! Each of these gives None where nothing stands at the key, or where what stands there is told as a mistake.

use crate::field::{Field, Row};
use crate::mistake::Mistakes;
use field_units::text::BadQuantity;
use field_units::{Rate, Size, Time};
use net_units::Name;
use std::alloc::{AllocError, Global};

pub(crate) const A_TIME: &str = "a time in ps, ns, us, ms, s, min, h or d, as in 0.5 ms";

pub(crate) const A_SIZE: &str =
    "a size in bit, kbit, Mbit, B, bytes, kB, KiB, MB or MiB, as in 1538 B";

pub(crate) const A_RATE: &str =
    "a rate in bit/s, kbit/s, Mbit/s, Gbit/s, B/s, kB/s or MB/s, as in 100 Mbit/s";

pub(crate) const A_NAME: &str = "a name: 1 to 16 letters, digits and _, a letter first";

pub(crate) const A_COUNT: &str = "a whole number";

/// What is wrong with a quantity, before what may stand there.
fn told_of(bad: BadQuantity) -> &'static str {
    match bad {
        BadQuantity::Number => "no number comes first; wanted is ",
        BadQuantity::Unit => "its unit isn't known; wanted is ",
        BadQuantity::Inexact => "its last digit is too small a part; wanted is ",
        BadQuantity::Large => "it is too large; wanted is ",
    }
}

impl Mistakes {
    /// Tells of a quantity that isn't one.
    fn refuse_quantity(
        &mut self,
        alloc: Global,
        field: &Field,
        bad: BadQuantity,
        wanted: &str,
    ) -> Result<(), AllocError> {
        let mut text = String::from_str(alloc, told_of(bad))?;
        text.push_str(wanted)?;
        self.refuse(field, text.as_str())
    }

    /// Tells of a key at which nothing stands.
    pub(crate) fn need(&mut self, row: &Row, key: &str, wanted: &str) -> Result<(), AllocError> {
        if row.has(key) {
            return Ok(());
        }
        self.lack(row, key, wanted)
    }

    /// The time at a key.
    pub(crate) fn time(
        &mut self,
        alloc: Global,
        row: &Row,
        key: &str,
    ) -> Result<Option<Time>, AllocError> {
        let Some(field) = row.field(key) else {
            return Ok(None);
        };
        match Time::parse(field.text.as_str()) {
            Ok(time) => Ok(Some(time)),
            Err(bad) => {
                self.refuse_quantity(alloc, field, bad, A_TIME)?;
                Ok(None)
            }
        }
    }

    /// The times at a key, with commas between them.
    pub(crate) fn times(
        &mut self,
        alloc: Global,
        row: &Row,
        key: &str,
    ) -> Result<Option<Vec<Time>>, AllocError> {
        let Some(field) = row.field(key) else {
            return Ok(None);
        };
        let mut times = Vec::new(alloc);
        for part in field.text.as_str().split(',') {
            match Time::parse(part) {
                Ok(time) => times.push(time)?,
                Err(bad) => {
                    self.refuse_quantity(alloc, field, bad, A_TIME)?;
                    return Ok(None);
                }
            }
        }
        Ok(Some(times))
    }

    /// The size at a key.
    pub(crate) fn size(
        &mut self,
        alloc: Global,
        row: &Row,
        key: &str,
    ) -> Result<Option<Size>, AllocError> {
        let Some(field) = row.field(key) else {
            return Ok(None);
        };
        match Size::parse(field.text.as_str()) {
            Ok(size) => Ok(Some(size)),
            Err(bad) => {
                self.refuse_quantity(alloc, field, bad, A_SIZE)?;
                Ok(None)
            }
        }
    }

    /// The rate at a key.
    pub(crate) fn rate(
        &mut self,
        alloc: Global,
        row: &Row,
        key: &str,
    ) -> Result<Option<Rate>, AllocError> {
        let Some(field) = row.field(key) else {
            return Ok(None);
        };
        match Rate::parse(field.text.as_str()) {
            Ok(rate) => Ok(Some(rate)),
            Err(bad) => {
                self.refuse_quantity(alloc, field, bad, A_RATE)?;
                Ok(None)
            }
        }
    }

    /// The name at a key.
    pub(crate) fn name(&mut self, row: &Row, key: &str) -> Result<Option<Name>, AllocError> {
        let Some(field) = row.field(key) else {
            return Ok(None);
        };
        let name = Name::new(field.text.as_bytes());
        if name.is_none() {
            self.refuse(field, A_NAME)?;
        }
        Ok(name)
    }

    /// The names at a key, with spaces or commas between them.
    pub(crate) fn names(
        &mut self,
        alloc: Global,
        row: &Row,
        key: &str,
    ) -> Result<Option<Vec<Name>>, AllocError> {
        let Some(field) = row.field(key) else {
            return Ok(None);
        };
        let mut names = Vec::new(alloc);
        for word in field.text.as_str().split([' ', ',']) {
            if word.is_empty() {
                continue;
            }
            let Some(name) = Name::new(word.as_bytes()) else {
                self.refuse(field, "names of links, with spaces or commas between them")?;
                return Ok(None);
            };
            names.push(name)?;
        }
        Ok(Some(names))
    }

    /// The whole number at a key, at most this.
    pub(crate) fn number(
        &mut self,
        alloc: Global,
        row: &Row,
        key: &str,
        most: u64,
    ) -> Result<Option<u64>, AllocError> {
        let Some(field) = row.field(key) else {
            return Ok(None);
        };
        match field.text.as_str().trim().parse::<u64>() {
            Ok(number) if number <= most => Ok(Some(number)),
            _ => {
                let wanted = format!(in alloc; "{A_COUNT} of at most {most}")?;
                self.refuse(field, wanted.as_str())?;
                Ok(None)
            }
        }
    }

    /// Whether true stands at a key.
    pub(crate) fn flag(&mut self, row: &Row, key: &str) -> Result<bool, AllocError> {
        let Some(field) = row.field(key) else {
            return Ok(false);
        };
        match field.text.as_str() {
            "true" => Ok(true),
            "false" => Ok(false),
            _ => {
                self.refuse(field, "true or false")?;
                Ok(false)
            }
        }
    }
}
