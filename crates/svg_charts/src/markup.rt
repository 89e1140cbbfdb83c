//! Markup that is written from the front to the back.
ghost use Rattle.std.specs.Prelude.{◌≡◌, ◌++◌, [], ◌∷◌, nat_eq, not, OnOk};
ghost use Rattle.svg_charts.specs.Escapes.{escaped, escaped_byte};

use std::alloc::{AllocError, Global};
use std::marker::Model;

/// Markup so far: the program's own tags, and texts and numbers between them.
///
/// A tag is a text of the program itself, since it lives as long as the program. Any other text is escaped, so it can't end the place in
/// which it stands, whether that is between tags or within a pair of quotes.
///
/// A contract sees the bytes.
#[derive(Drop)]
pub struct Markup {
    alloc: Global,
    bytes: Vec<u8>,
}

impl Model for Markup {
    ghost use Rattle.std.specs.Prelude.{List, ℕ};

    ghost Value = { List ℕ };

    ghost view = { λ markup. markup.bytes.items };
}

impl Markup {
    /// No markup yet. It takes no memory.
    pub fn new(alloc: Global) -> Markup
        ensures { result ≡ [] }
    {
        Markup {
            alloc,
            bytes: Vec::new(alloc),
        }
    }

    /// Adds tags, or a text of the program's own that needs no escape.
    pub fn put(&mut self, tags: &'static str) -> Result<(), AllocError>
        ensures { OnOk result (self.new ≡ self.old ++ tags.now) }
    {
        self.bytes.extend_from_slice(tags.as_bytes())
    }

    /// Adds a text, escaped.
    pub fn text(&mut self, text: &str) -> Result<(), AllocError>
        ensures { OnOk result (self.new ≡ self.old ++ escaped text.now) }
    {
        push_escaped(&mut self.bytes, text.as_bytes())
    }

    /// Adds a number.
    pub fn number(&mut self, number: u64) -> Result<(), AllocError> {
        let alloc = self.alloc;
        let digits = format!(in alloc; "{number}")?;
        self.bytes.extend_from_slice(digits.as_bytes())
    }

    /// Adds a number of tenths, with its decimal where it has one.
    pub fn tenths(&mut self, tenths: u64) -> Result<(), AllocError> {
        self.number(tenths / 10)?;
        if tenths % 10 > 0 {
            self.put(".")?;
            self.number(tenths % 10)?;
        }
        Ok(())
    }

    /// Adds an attribute with a number of tenths.
    pub fn place(&mut self, name: &'static str, tenths: u64) -> Result<(), AllocError> {
        self.put(" ")?;
        self.put(name)?;
        self.put("=\"")?;
        self.tenths(tenths)?;
        self.put("\"")
    }

    /// Adds an attribute with a share of the whole, from tenths of a percent.
    pub fn share(&mut self, name: &'static str, tenths: u64) -> Result<(), AllocError> {
        self.put(" ")?;
        self.put(name)?;
        self.put("=\"")?;
        self.tenths(tenths)?;
        self.put("%\"")
    }

    /// Adds an attribute with a text, escaped.
    pub fn attribute(&mut self, name: &'static str, text: &str) -> Result<(), AllocError> {
        self.put(" ")?;
        self.put(name)?;
        self.put("=\"")?;
        self.text(text)?;
        self.put("\"")
    }

    /// Adds other markup.
    pub fn add(&mut self, other: &Markup) -> Result<(), AllocError> {
        self.bytes.extend_from_slice(other.bytes.as_slice())
    }

    /// Where it takes memory from.
    pub fn alloc(&self) -> Global {
        self.alloc
    }

    /// Its bytes.
    pub fn into_bytes(self) -> Vec<u8> {
        self.bytes
    }
}

// Adds what stands for a text.
fn push_escaped(bytes: &mut Vec<u8>, text: &[u8]) -> Result<(), AllocError>
    ensures { OnOk result (bytes.new.items ≡ bytes.old.items ++ escaped text.now) }
{
    for byte in text {
        push_byte(bytes, *byte)?;
    }
    Ok(())
}

// Adds what stands for a byte.
fn push_byte(bytes: &mut Vec<u8>, byte: u8) -> Result<(), AllocError>
    ensures { OnOk result (bytes.new.items ≡ bytes.old.items ++ escaped_byte byte) }
{
    if byte == b'<' {
        bytes.extend_from_slice(b"&lt;")
    } else if byte == b'>' {
        bytes.extend_from_slice(b"&gt;")
    } else if byte == b'"' {
        bytes.extend_from_slice(b"&quot;")
    } else if byte == b'\'' {
        bytes.extend_from_slice(b"&#39;")
    } else if byte == b'&' {
        bytes.extend_from_slice(b"&amp;")
    } else {
        bytes.extend_from_slice(&[byte])
    }
}
