//! The keys that may stand in a design, and the one that was meant by another text.

use crate::field::{Field, Kind, is_same_key};
use std::alloc::{AllocError, Global};
use strsim::levenshtein;

/// The keys of the network as a whole.
pub const NETWORK_KEYS: [&str; 12] = [
    "tick", "unit", "run", "test", "link", "stream", "quota", "links", "streams", "quotas",
    "defaults", "class",
];

/// The keys of a link.
pub const LINK_KEYS: [&str; 12] = [
    "name", "from", "to", "rate", "largest", "latency", "buffer", "levels", "best", "both", "back",
    "copies",
];

/// The keys of a stream.
pub const STREAM_KEYS: [&str; 21] = [
    "name",
    "from",
    "to",
    "route",
    "every",
    "packets",
    "in",
    "apart",
    "late",
    "size",
    "overhead",
    "within",
    "jitter",
    "count",
    "class",
    "copies",
    "best effort",
    "link",
    "start",
    "end",
    "group",
];

/// The keys of a share of a link.
pub const QUOTA_KEYS: [&str; 5] = ["link", "group", "buffer", "levels", "copies"];

/// Keys of which the first doesn't stand beside the second.
const APART: [(&str, &str); 16] = [
    ("every", "packets"),
    ("every", "in"),
    ("route", "from"),
    ("route", "to"),
    ("link", "from"),
    ("link", "to"),
    ("within", BEST_EFFORT),
    ("jitter", BEST_EFFORT),
    ("late", BEST_EFFORT),
    ("packets", BEST_EFFORT),
    ("in", BEST_EFFORT),
    ("apart", BEST_EFFORT),
    ("route", BEST_EFFORT),
    ("group", BEST_EFFORT),
    ("end", BEST_EFFORT),
    ("apart", "every"),
];

/// The key of a stream that is sent where no stream with a promise sends.
pub(crate) const BEST_EFFORT: &str = "best effort";

/// How many edits a key may be away from the one that was meant.
const MOST_EDITS: usize = 2;

/// The keys of this kind of row.
pub fn keys_of(kind: Kind) -> &'static [&'static str] {
    match kind {
        Kind::Network => &NETWORK_KEYS,
        Kind::Link => &LINK_KEYS,
        Kind::Stream => &STREAM_KEYS,
        Kind::Quota => &QUOTA_KEYS,
    }
}

/// Whether a field keeps this key out of its row.
pub(crate) fn excludes(field: &Field, key: &str) -> bool {
    let is_off = is_same_key(field.key.as_str(), BEST_EFFORT) && field.text.as_str() == "false";
    !is_off && is_excluded(key, field.key.as_str())
}

/// Whether the first of these keys doesn't stand beside the second.
pub(crate) fn is_excluded(key: &str, beside: &str) -> bool {
    APART.iter().any(|(first, second)| is_same_key(*first, key) && is_same_key(*second, beside))
}

/// Whether this is one of the keys.
pub fn is_known(keys: &[&str], key: &str) -> bool {
    keys.iter().any(|known| is_same_key(*known, key))
}

/// The key that is the fewest edits away from this text, two at most.
pub fn nearest<'a>(
    alloc: Global,
    keys: &[&'a str],
    text: &str,
) -> Result<Option<&'a str>, AllocError> {
    let mut best = None;
    let mut least = MOST_EDITS.saturating_add(1);
    for key in keys {
        let edits = levenshtein(alloc, *key, text)?;
        if edits < least {
            least = edits;
            best = Some(*key);
        }
    }
    Ok(best)
}
