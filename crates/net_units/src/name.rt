//! The names of links, callers, requests and nodes.
ghost use Rattle.std.specs.Prelude.{◌≡◌, ◌↔◌, ◌≤◌, IsTrue, IsSome, IfSome, Some, nat_eq, length};
ghost use Rattle.std.specs.Hash as fed;
ghost use Rattle.std.specs.Cmp.Lexicographic.{pointwise, nat_list_eq_equiv};
ghost use Rattle.std.specs.Cmp.{partial_equiv_from_equiv};
ghost use Rattle.std.specs.Cmp.Rules.{hashing};
ghost use Rattle.std.proofs.Common.{rules};
ghost use Rattle.std.specs.List.{list_all};
ghost use Rattle.net_units.specs.Padded.{padded};
ghost use Rattle.net_units.specs.Text.{is_name_byte, begins_as_name, is_kept_word, is_name};

use crate::limits::MOST_NAME;
use std::hash::{Hash, Hasher};
use std::marker::Model;
use std::{fmt, str};

/// A name of 1 to 16 bytes: a letter, then letters, digits and `_`, and neither `contract` nor `plane`.
///
/// A contract sees it as its bytes.
#[derive(Clone, Copy)]
pub struct Name {
    bytes: [u8; MOST_NAME],
    len: u8,
}

impl Model for Name {
    ghost use Rattle.std.specs.Prelude.{ℕ, List, IsTrue, length, take};
    ghost use Rattle.net_units.specs.Padded.{padded, IsPadded};
    ghost use Rattle.net_units.specs.Text.{is_name};

    ghost Value = { List ℕ };

    ghost view = { λ n. take n.len n.bytes };

    ghost invariant = { λ n. IsTrue (is_name (take n.len n.bytes)) × IsPadded 16 n.len n.bytes };

    ghost inverse = { λ bs. record { bytes = padded 16 bs; len = length bs } };

    ghost inverse_ok = { λ n h i. record { bytes = h.1.whole i; len = h.1.count i } };
}

impl Name {
    /// The name of these bytes, None exactly where they aren't a name.
    pub fn new(bytes: &[u8]) -> Option<Name>
        ensures found { IsSome result ↔ IsTrue (is_name bytes.now) }
        ensures value { IfSome result (λ name. name ≡ bytes.now) }
    {
        if is_whole_name(bytes) {
            Some(Name {
                bytes: with_zeros(bytes),
                len: bytes.len() as u8,
            })
        } else {
            None
        }
    }

    /// The name's bytes.
    pub fn as_bytes(&self) -> &[u8]
        ensures value { result.now ≡ self.now }
        ensures valid { IsTrue (is_name self.now) }
    {
        &self.bytes[..self.len as usize]
    }

    /// The name as text.
    pub fn as_str(&self) -> &str
        ensures { result.now ≡ self.now }
    {
        match str::from_utf8(self.as_bytes()) {
            Ok(text) => text,
            Err(_) => unreachable!(),
        }
    }
}

impl PartialEq for Name {
    ghost eq = { pointwise nat_eq };

    ghost laws = { partial_equiv_from_equiv nat_list_eq_equiv };

    fn eq(&self, other: &Name) -> bool {
        self.as_bytes() == other.as_bytes()
    }
}

impl Eq for Name {
    ghost laws = { nat_list_eq_equiv };
}

impl Hash for Name {
    ghost hash_input = { fed.slice fed.u8 };

    ghost respects_eq = { Prim.search (hashing, rules) };

    fn hash<H: Hasher>(&self, state: &mut H) {
        self.as_bytes().hash(state);
    }
}

impl fmt::Debug for Name {
    fn fmt<W: fmt::Write>(&self, f: &mut fmt::Formatter<W>) -> fmt::Result {
        fmt::Debug::fmt(&self.as_str(), f)
    }
}

impl fmt::Display for Name {
    ghost output = { λ name. Some name };

    fn fmt<W: fmt::Write>(&self, f: &mut fmt::Formatter<W>) -> fmt::Result {
        fmt::Display::fmt(&self.as_str(), f)
    }
}

// The bytes, and zeros after them.
fn with_zeros(bytes: &[u8]) -> [u8; MOST_NAME]
    requires { length bytes.now ≤ 16 }
    ensures { result ≡ padded 16 bytes.now }
{
    let mut cells = [0; MOST_NAME];
    cells[..bytes.len()].copy_from_slice(bytes);
    cells
}

// Whether these bytes are a name.
fn is_whole_name(bytes: &[u8]) -> bool
    ensures { result ≡ is_name bytes.now }
{
    is_begun_as_name(bytes) && bytes.len() <= MOST_NAME && !is_reserved(bytes)
}

// Whether these are a word of the grammar that can't be a name.
fn is_reserved(bytes: &[u8]) -> bool
    ensures { result ≡ is_kept_word bytes.now }
{
    bytes == b"contract".as_slice() || bytes == b"plane".as_slice()
}

// Whether a letter comes first, and then bytes that may stand after one.
fn is_begun_as_name(bytes: &[u8]) -> bool
    ensures { result ≡ begins_as_name bytes.now }
{
    match bytes {
        [] => false,
        [first, rest @ ..] => first.is_ascii_alphabetic() && are_name_bytes(rest),
    }
}

// Whether each may stand after the first byte of a name.
fn are_name_bytes(bytes: &[u8]) -> bool
    ensures { result ≡ list_all is_name_byte bytes.now }
{
    bytes.iter().all(|byte| is_name_part(*byte))
}

// Whether this one may.
fn is_name_part(byte: u8) -> bool
    ensures { result ≡ is_name_byte byte }
{
    byte.is_ascii_alphanumeric() || byte == b'_'
}
