//! Where a design's tables have the values that a change names.
use crate::bad::{BadChange, refused, refused_word};
use crate::finding::{Found, Mark, in_order};
use crate::toml_scan::{Item, Scan, Shape, Table};
use crate::values::Kind;
use crate::wanted::{Where, has_pattern, sides_of, where_of};
use std::alloc::{AllocError, Global};

/// The kinds of tables that a change may name.
pub(crate) const TABLES: [&'static str; 6] = [
    "link", "stream", "quota", "class", "defaults", "top",
];

/// The places of all changes of a design, by their lines and in each from left to right, and what each change puts there.
pub(crate) fn found_in_design(
    alloc: Global,
    lines: &[Vec<u8>],
    words: &[String],
) -> Result<Found, BadChange> {
    let scan = scanned(alloc, lines)?;
    let names = names_of(alloc, &scan, lines)?;
    let mut marks = Vec::new(alloc);
    let mut kinds = Vec::new(alloc);
    let mut change: usize = 0;
    for word in words {
        let (left, _) = sides_of(alloc, change, word.as_str())?;
        let wanted = of_design(where_of(left, &TABLES));
        let shape = add_marks(&mut marks, &scan, names.as_slice(), &wanted, change)?;
        match shape {
            Some(Ok(shape)) => kinds.push(kind_of(shape))?,
            Some(Err(())) => return Err(differ(alloc, change, left)),
            None => return Err(nothing_named(alloc, &scan, names.as_slice(), &wanted, change)),
        }
        change = change.saturating_add(1);
    }
    let marks = in_order(alloc, marks, words)?;
    Ok(Found { marks, kinds })
}

// What is named, where `top` alone is what stands above all tables.
fn of_design<'a>(wanted: Where<'a>) -> Where<'a> {
    if wanted.name.is_none() || (wanted.kind.is_none() && wanted.name == Some("top")) {
        Where {
            kind: Some("top"),
            name: None,
            field: wanted.field,
        }
    } else {
        wanted
    }
}

fn kind_of(shape: Shape) -> Kind {
    match shape {
        Shape::Text => Kind::Text,
        Shape::Bare => Kind::Bare,
        Shape::List => Kind::List,
    }
}

// The tables and values of these lines.
fn scanned(alloc: Global, lines: &[Vec<u8>]) -> Result<Scan, AllocError> {
    let mut scan = Scan::new(alloc)?;
    let mut number: usize = 0;
    for line in lines {
        scan.read(line.as_slice(), number)?;
        number = number.saturating_add(1);
    }
    Ok(scan)
}

// The names of all tables.
fn names_of(alloc: Global, scan: &Scan, lines: &[Vec<u8>]) -> Result<Vec<Vec<u8>>, AllocError> {
    let mut names = Vec::new(alloc);
    for number in 0..scan.tables.len() {
        names.push(name_of(
            alloc,
            &scan.tables[number],
            number,
            scan.items.as_slice(),
            lines,
        )?)?;
    }
    Ok(names)
}

// The name of a table: in its header, at its key, or of what it connects.
fn name_of(
    alloc: Global,
    table: &Table,
    number: usize,
    items: &[Item],
    lines: &[Vec<u8>],
) -> Result<Vec<u8>, AllocError> {
    if !table.name.is_empty() {
        return Vec::from_slice(alloc, table.name.as_slice());
    }
    if let Some(name) = value_at(items, lines, number, b"name") {
        return Vec::from_slice(alloc, name);
    }
    if is_word(table.kind.as_slice(), "quota") {
        return pair_of(alloc, items, lines, number, b"link", b".", b"group");
    }
    pair_of(alloc, items, lines, number, b"from", b"_", b"to")
}

// Two values of a table with a sign between them.
fn pair_of(
    alloc: Global,
    items: &[Item],
    lines: &[Vec<u8>],
    number: usize,
    first: &[u8],
    sign: &[u8],
    second: &[u8],
) -> Result<Vec<u8>, AllocError> {
    let mut name = Vec::new(alloc);
    if let Some(value) = value_at(items, lines, number, first) {
        name.extend_from_slice(value)?;
        name.extend_from_slice(sign)?;
    }
    if let Some(value) = value_at(items, lines, number, second) {
        name.extend_from_slice(value)?;
    }
    Ok(name)
}

// What stands at a key of a table.
fn value_at<'a>(
    items: &[Item],
    lines: &'a [Vec<u8>],
    table: usize,
    key: &[u8],
) -> Option<&'a [u8]> {
    for item in items {
        if item.table == table && item.key.as_slice() == key {
            let line = lines.get(item.line)?;
            return Some(item.span.of(line.as_slice()));
        }
    }
    None
}

// Adds the places of a change, and answers how they are written: an error where not all alike, None where there is none.
fn add_marks(
    marks: &mut Vec<Mark>,
    scan: &Scan,
    names: &[Vec<u8>],
    wanted: &Where,
    change: usize,
) -> Result<Option<Result<Shape, ()>>, AllocError> {
    let mut shape = None;
    for item in &scan.items {
        if !is_same_key(item.key.as_slice(), wanted.field.as_bytes())
            || !is_in(scan, names, item.table, wanted)
        {
            continue;
        }
        shape = match shape {
            None => Some(Ok(item.shape)),
            Some(Ok(before)) if before == item.shape => Some(Ok(before)),
            Some(_) => Some(Err(())),
        };
        marks.push(Mark {
            line: item.line,
            span: item.span,
            change,
        })?;
    }
    Ok(shape)
}

// Whether a table is wanted.
fn is_in(scan: &Scan, names: &[Vec<u8>], number: usize, wanted: &Where) -> bool {
    let (Some(table), Some(name)) = (scan.tables.get(number), names.get(number)) else {
        return false;
    };
    let kind = table.kind.as_slice();
    let is_kind = match wanted.kind {
        Some(one) => kind == one.as_bytes(),
        None => is_word(kind, "link") || is_word(kind, "stream"),
    };
    let is_name = match wanted.name {
        Some(pattern) => has_pattern(name.as_slice(), pattern),
        None => true,
    };
    is_kind && is_name
}

fn is_word(bytes: &[u8], word: &str) -> bool {
    bytes == word.as_bytes()
}

// Whether two keys are the same: a space, a `_` and a `-` are alike.
fn is_same_key(one: &[u8], other: &[u8]) -> bool {
    if one.len() != other.len() {
        return false;
    }
    for (left, right) in one.iter().zip(other) {
        if alike(*left) != alike(*right) {
            return false;
        }
    }
    true
}

fn alike(byte: u8) -> u8 {
    if byte == b' ' || byte == b'-' {
        b'_'
    } else {
        byte
    }
}

// The places of a change are written in different ways.
fn differ(alloc: Global, change: usize, left: &str) -> BadChange {
    refused_word(
        alloc,
        change,
        "",
        left,
        " is a text at one of its places, and a list or a number at another; wanted is a change for each",
    )
}

// A change names nothing in the design.
fn nothing_named(
    alloc: Global,
    scan: &Scan,
    names: &[Vec<u8>],
    wanted: &Where,
    change: usize,
) -> BadChange {
    match why_nothing(alloc, scan, names, wanted) {
        Ok(why) => refused(alloc, change, why.as_str()),
        Err(AllocError) => BadChange::Memory,
    }
}

// Why it names nothing: there is no such table, or it has no such key.
fn why_nothing(
    alloc: Global,
    scan: &Scan,
    names: &[Vec<u8>],
    wanted: &Where,
) -> Result<String, AllocError> {
    let keys = keys_in(alloc, scan, names, wanted)?;
    let kind = wanted.kind.unwrap_or("link or stream");
    let (name, field) = (wanted.name.unwrap_or(""), wanted.field);
    if keys.is_empty() {
        let tables = TABLES_WANTED;
        return format!(in alloc; "the design has no {kind} {name}; {tables}");
    }
    let keys = keys.as_str();
    format!(in alloc;
        "{kind} {name} has no key {field} whose value stands on one line; it has {keys}"
    )
}

// What may be named.
const TABLES_WANTED: &str =
    "wanted is link.NAME.KEY, stream.NAME.KEY, quota.LINK.GROUP.KEY, class.NAME.KEY, defaults.link.KEY, defaults.stream.KEY or top.KEY";

// The keys of the tables that are wanted, with commas between them.
fn keys_in(
    alloc: Global,
    scan: &Scan,
    names: &[Vec<u8>],
    wanted: &Where,
) -> Result<String, AllocError> {
    let mut keys = String::new(alloc);
    let mut count: usize = 0;
    for item in &scan.items {
        if count < MOST_KEYS && is_in(scan, names, item.table, wanted) {
            if count > 0 {
                keys.push_str(", ")?;
            }
            add_key(alloc, &mut keys, item.key.as_slice())?;
            count = count.saturating_add(1);
        }
    }
    Ok(keys)
}

// Adds a key, as far as it is text.
fn add_key(alloc: Global, keys: &mut String, key: &[u8]) -> Result<(), AllocError> {
    let key = String::from_utf8_lossy(alloc, key)?;
    keys.push_str(key.as_str())
}

// The most keys that are shown.
const MOST_KEYS: usize = 16;
