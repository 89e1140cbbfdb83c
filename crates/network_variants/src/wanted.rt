//! What a change names: `NAME.FIELD`, `KIND.NAME.FIELD` or `FIELD`, where a `*` in a name stands for any letters.
use crate::bad::{BadChange, refused};
use std::alloc::Global;

/// What a change names.
#[derive(Clone, Copy)]
pub(crate) struct Where<'a> {
    /// The kind of line or table; any where it isn't said.
    pub(crate) kind: Option<&'a str>,
    /// The name; nothing where only a field is named.
    pub(crate) name: Option<&'a str>,
    /// The field or key.
    pub(crate) field: &'a str,
}

/// The two sides of a change.
pub(crate) fn sides_of<'a>(
    alloc: Global,
    place: usize,
    word: &'a str,
) -> Result<(&'a str, &'a str), BadChange> {
    match word.split_once('=') {
        Some((left, right)) if !left.is_empty() && !right.is_empty() => Ok((left, right)),
        _ => Err(refused(
            alloc,
            place,
            "wanted is WHERE=VALUES, as in L34.D1=20..26 or *.buffer=1000,2000",
        )),
    }
}

/// What the left side of a change names, where these are the kinds.
pub(crate) fn where_of<'a>(left: &'a str, kinds: &[&'static str]) -> Where<'a> {
    let Some((head, field)) = left.rsplit_once('.') else {
        return Where {
            kind: None,
            name: None,
            field: left,
        };
    };
    if let Some((kind, name)) = head.split_once('.') {
        if is_among(kind, kinds) {
            return Where {
                kind: Some(kind),
                name: Some(name),
                field,
            };
        }
    }
    Where {
        kind: None,
        name: Some(head),
        field,
    }
}

/// Whether a word is one of these.
pub(crate) fn is_among(word: &str, words: &[&'static str]) -> bool {
    for one in words {
        if *one == word {
            return true;
        }
    }
    false
}

/// Whether a name has this pattern, in which the first `*` stands for any letters.
pub(crate) fn has_pattern(name: &[u8], pattern: &str) -> bool {
    match pattern.split_once('*') {
        Some((front, back)) => {
            name.len() >= front.len().saturating_add(back.len())
                && name.starts_with(front.as_bytes())
                && name.ends_with(back.as_bytes())
        }
        None => name == pattern.as_bytes(),
    }
}
