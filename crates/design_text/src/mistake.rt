//! What is wrong with a design.

use crate::field::{Field, Place, Row};
use crate::keys::excludes;
use std::alloc::{AllocError, Global};
use std::fmt;

/// A mistake in a file: where it stands, at which key, what stands there, and what may stand there.
#[derive(Debug, Drop)]
pub struct Mistake {
    /// The name of the file.
    pub file: String,
    /// The line, from 1.
    pub line: u64,
    /// The key; empty where the mistake isn't at one.
    pub key: String,
    /// What stands there; None where nothing does.
    pub found: Option<String>,
    /// What may stand there.
    pub wanted: String,
}

impl fmt::Display for Mistake {
    fn fmt<W: fmt::Write>(&self, f: &mut fmt::Formatter<W>) -> fmt::Result {
        let (file, line) = (self.file.as_str(), self.line);
        let (key, wanted) = (self.key.as_str(), self.wanted.as_str());
        match &self.found {
            _ if key.is_empty() => write!(f, "{file}:{line}: {wanted}"),
            Some(found) => write!(f, "{file}:{line}: {key} = {found}: {wanted}"),
            None => write!(f, "{file}:{line}: {key} is missing: {wanted}"),
        }
    }
}

/// A mistake whose file has a number still.
#[derive(Debug, Drop)]
struct Told {
    place: Place,
    key: String,
    found: Option<String>,
    wanted: String,
}

/// The mistakes that were found so far.
#[derive(Debug, Drop)]
pub struct Mistakes {
    alloc: Global,
    told: Vec<Told>,
}

impl Mistakes {
    /// None yet.
    pub fn new(alloc: Global) -> Mistakes {
        Mistakes {
            alloc,
            told: Vec::new(alloc),
        }
    }

    /// Whether there is none.
    pub fn is_empty(&self) -> bool {
        self.told.is_empty()
    }

    /// Something else may stand in a field.
    pub fn refuse(&mut self, field: &Field, wanted: &str) -> Result<(), AllocError> {
        let found = String::from_str(self.alloc, field.text.as_str())?;
        self.tell(field.place, field.key.as_str(), Some(found), wanted)
    }

    /// Something else may stand at a key of a row.
    pub fn refuse_at(&mut self, row: &Row, key: &str, wanted: &str) -> Result<(), AllocError> {
        match row.field(key) {
            Some(field) => self.refuse(field, wanted),
            None => self.tell_at(row.place, wanted),
        }
    }

    /// A field is missing that a row needs.
    pub fn lack(&mut self, row: &Row, key: &str, wanted: &str) -> Result<(), AllocError> {
        self.tell(row.place, key, None, wanted)
    }

    /// Tells of each field of a row beside which another one stands that shuts it out.
    pub(crate) fn judge_apart(&mut self, alloc: Global, row: &Row) -> Result<(), AllocError> {
        for field in &row.fields {
            if let Some(other) = shuts_out(row, field.key.as_str()) {
                let key = other.key.as_str();
                let wanted = format!(in alloc; "nothing, since `{key}` stands beside it")?;
                self.refuse(field, wanted.as_str())?;
            }
        }
        Ok(())
    }

    /// Something is wrong at a place, and not at a key.
    pub fn tell_at(&mut self, place: Place, wanted: &str) -> Result<(), AllocError> {
        self.tell(place, "", None, wanted)
    }

    /// A mistake, which is told once.
    fn tell(
        &mut self,
        place: Place,
        key: &str,
        found: Option<String>,
        wanted: &str,
    ) -> Result<(), AllocError> {
        if self.has(place, key, wanted) {
            return Ok(());
        }
        self.told.push(Told {
            place,
            key: String::from_str(self.alloc, key)?,
            found,
            wanted: String::from_str(self.alloc, wanted)?,
        })?;
        Ok(())
    }

    /// Whether this was told already.
    fn has(&self, place: Place, key: &str, wanted: &str) -> bool {
        self.told.iter().any(|told| {
            told.place == place && told.key.as_str() == key && told.wanted.as_str() == wanted
        })
    }

    /// The mistakes, by file and line, with the names of these files.
    pub fn into_list(mut self, files: &[String]) -> Result<Vec<Mistake>, AllocError> {
        self.told
            .sort_by_key(|told| (told.place.file, told.place.line))?;
        let mut list = Vec::new(self.alloc);
        let Mistakes { alloc, told } = self;
        for told in told {
            let file = match files.get(told.place.file) {
                Some(file) => file.clone()?,
                None => String::new(alloc),
            };
            list.push(Mistake {
                file,
                line: told.place.line,
                key: told.key,
                found: told.found,
                wanted: told.wanted,
            })?;
        }
        Ok(list)
    }
}

/// The field that keeps this key out of its row, and that no other one keeps out.
fn shuts_out<'a>(row: &'a Row, key: &str) -> Option<&'a Field> {
    row.fields.iter().find(|other| excludes(other, key) && !is_out(row, other.key.as_str()))
}

/// Whether some field keeps this key out of its row.
fn is_out(row: &Row, key: &str) -> bool {
    row.fields.iter().any(|other| excludes(other, key))
}
