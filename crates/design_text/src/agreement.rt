//! Whether the rows of a design agree with one another.

use crate::design::{Design, DesignLink, DesignStream, Way};
use crate::field::{Kind, Place, Row};
use crate::mistake::Mistakes;
use field_units::Time;
use net_units::Name;
use net_units::limits::{MOST_HOPS, MOST_LINKS, MOST_REQUESTS};
use std::alloc::{AllocError, Global};

/// The name of a row, and where it stands.
#[derive(Drop)]
struct Label {
    text: String,
    place: Place,
}

/// Tells what doesn't agree. Where a stream goes is judged where all links are there.
pub(crate) fn judge_design(
    alloc: Global,
    design: &Design,
    has_all_links: bool,
    files: &[String],
    told: &mut Mistakes,
) -> Result<(), AllocError> {
    judge_names(alloc, Kind::Link, design, files, told)?;
    judge_names(alloc, Kind::Stream, design, files, told)?;
    judge_counts(design, told)?;
    judge_test(design, told)?;
    judge_times(alloc, design, told)?;
    if has_all_links {
        judge_quotas(alloc, design, told)?;
        judge_ways(alloc, design, told)?;
    }
    if told.is_empty() && design.links.is_empty() {
        told.lack(&design.network, "link", "a table for each link")?;
    }
    Ok(())
}

/// Tells of links, or of streams, that have the name of another one.
fn judge_names(
    alloc: Global,
    kind: Kind,
    design: &Design,
    files: &[String],
    told: &mut Mistakes,
) -> Result<(), AllocError> {
    let mut labels: Vec<Label> = Vec::new(alloc);
    for row in &design.rows {
        if row.kind == kind {
            judge_name(alloc, row, &mut labels, files, told)?;
        }
    }
    Ok(())
}

/// Tells of a row that has the name of one above, or keeps its name for those below.
fn judge_name(
    alloc: Global,
    row: &Row,
    labels: &mut Vec<Label>,
    files: &[String],
    told: &mut Mistakes,
) -> Result<(), AllocError> {
    let Some(label) = label_of(alloc, row)? else {
        return Ok(());
    };
    match place_of(labels, label.text.as_str()) {
        Some(first) => tell_twice(alloc, row, first, files, told)?,
        None => labels.push(label)?,
    }
    Ok(())
}

/// The name of a row; that of a link which has none is made of its nodes.
fn label_of(alloc: Global, row: &Row) -> Result<Option<Label>, AllocError> {
    let text = match (row.text("name"), row.text("from"), row.text("to")) {
        (Some(name), _, _) => String::from_str(alloc, name)?,
        (None, Some(from), Some(to)) if row.kind == Kind::Link => format!(in alloc; "{from}_{to}")?,
        _ => return Ok(None),
    };
    Ok(Some(Label {
        text,
        place: row.place,
    }))
}

/// Where the row of this name stands.
fn place_of(labels: &[Label], text: &str) -> Option<Place> {
    labels
        .iter()
        .find(|label| label.text.as_str() == text)
        .map(|label| label.place)
}

/// Tells of a name that a row above has.
fn tell_twice(
    alloc: Global,
    row: &Row,
    first: Place,
    files: &[String],
    told: &mut Mistakes,
) -> Result<(), AllocError> {
    let line = first.line;
    let file = files.get(first.file).map_or("", |file| file.as_str());
    let wanted = format!(in alloc; "another name, since {file}:{line} has this one")?;
    if row.has("name") {
        told.refuse_at(row, "name", wanted.as_str())
    } else {
        told.lack(row, "name", wanted.as_str())
    }
}

/// Tells of the first link, and of the first stream, that is one too many.
fn judge_counts(design: &Design, told: &mut Mistakes) -> Result<(), AllocError> {
    if let Some(link) = design.links.get(usize::from(MOST_LINKS))
        && let Some(row) = design.rows.get(link.row)
    {
        told.tell_at(row.place, "a network has at most 32 links")?;
    }
    if let Some(stream) = design.streams.get(MOST_REQUESTS)
        && let Some(row) = design.rows.get(stream.row)
    {
        told.tell_at(row.place, "a network has at most 1,024 streams")?;
    }
    Ok(())
}

/// Tells of the whole test beside what only a scenario with the least one has.
fn judge_test(design: &Design, told: &mut Mistakes) -> Result<(), AllocError> {
    if !design.is_whole_test {
        return Ok(());
    }
    if design.links.iter().any(|link| link.best > 0) {
        told.refuse_at(
            &design.network,
            "test",
            "least, since a link takes best-effort packets",
        )?;
    }
    if design.streams.iter().any(is_found) {
        told.refuse_at(
            &design.network,
            "test",
            "least, since a stream has from and to in place of route",
        )?;
    }
    if !design.groups.is_empty() {
        told.refuse_at(&design.network, "test", "least, since streams have groups")?;
    }
    Ok(())
}

/// Whether a stream's route is found.
fn is_found(stream: &DesignStream) -> bool {
    matches!(stream.way, Way::Between(..))
}

/// Tells of streams that begin or end when the network doesn't run.
fn judge_times(alloc: Global, design: &Design, told: &mut Mistakes) -> Result<(), AllocError> {
    let none = Time { picoseconds: 0 };
    let mut is_timed = false;
    for stream in &design.streams {
        let end = stream.end.unwrap_or(none);
        is_timed = is_timed || stream.start > none || end > none;
        judge_time(alloc, design, stream.row, "start", stream.start, told)?;
        judge_time(alloc, design, stream.row, "end", end, told)?;
    }
    for pour in &design.pours {
        is_timed = is_timed || pour.start > none;
        judge_time(alloc, design, pour.row, "start", pour.start, told)?;
    }
    if is_timed && !design.network.has("run") {
        told.lack(
            &design.network,
            "run",
            "how long the network runs, since a stream has a start or an end",
        )?;
    }
    Ok(())
}

/// Tells of a time that comes after the run.
fn judge_time(
    alloc: Global,
    design: &Design,
    row: usize,
    key: &str,
    time: Time,
    told: &mut Mistakes,
) -> Result<(), AllocError> {
    if time <= design.run || !design.network.has("run") {
        return Ok(());
    }
    let run = design.run;
    let wanted = format!(in alloc; "a time within the run of {run}")?;
    match design.rows.get(row) {
        Some(row) => told.refuse_at(row, key, wanted.as_str()),
        None => Ok(()),
    }
}

/// Tells of shares with another number of levels than their link has, and of a second one of a group.
fn judge_quotas(alloc: Global, design: &Design, told: &mut Mistakes) -> Result<(), AllocError> {
    for link in &design.links {
        let mut before: usize = 0;
        for quota in &link.quotas {
            let above = link.quotas.iter().take(before);
            let mut same = above.filter(|other| other.group == quota.group);
            if let Some(row) = design.rows.get(quota.row) {
                judge_levels(alloc, link, quota.levels.len(), row, told)?;
                if same.next().is_some() {
                    told.refuse_at(
                        row,
                        "group",
                        "another group: this one has a share of the link",
                    )?;
                }
            }
            before = before.saturating_add(1);
        }
    }
    Ok(())
}

/// Tells of a share with another number of levels than its link has.
fn judge_levels(
    alloc: Global,
    link: &DesignLink,
    count: usize,
    row: &Row,
    told: &mut Mistakes,
) -> Result<(), AllocError> {
    let (name, levels) = (link.name, link.levels.len());
    if count == levels {
        return Ok(());
    }
    let wanted = format!(in alloc; "a time for each level of {name}, which has {levels}")?;
    told.refuse_at(row, "levels", wanted.as_str())
}

/// Tells of routes that are none, and of nodes that aren't there.
fn judge_ways(alloc: Global, design: &Design, told: &mut Mistakes) -> Result<(), AllocError> {
    for stream in &design.streams {
        if let Some(row) = design.rows.get(stream.row) {
            match &stream.way {
                Way::Over(names) => judge_route(alloc, &design.links, names, row, told)?,
                Way::Between(from, to) => judge_nodes(&design.links, from, to, row, told)?,
            }
        }
    }
    Ok(())
}

/// Tells of a route with a link that isn't there, or that doesn't begin where the one before it ends.
fn judge_route(
    alloc: Global,
    links: &[DesignLink],
    names: &[Name],
    row: &Row,
    told: &mut Mistakes,
) -> Result<(), AllocError> {
    if names.is_empty() || names.len() > usize::from(MOST_HOPS) {
        return told.refuse_at(row, "route", "from 1 to 16 links");
    }
    let mut end: Option<&Name> = None;
    for name in names {
        let Some(link) = links.iter().find(|link| link.name == *name) else {
            let wanted = format!(in alloc; "links that the design has, of which {name} is none")?;
            return told.refuse_at(row, "route", wanted.as_str());
        };
        if let Some(end) = end
            && *end != link.from
        {
            let wanted = format!(in alloc;
                "links of which each begins where the one before it ends, and {name} doesn't begin at {end}"
            )?;
            return told.refuse_at(row, "route", wanted.as_str());
        }
        end = Some(&link.to);
    }
    Ok(())
}

/// Tells of nodes that no link leaves, or to which none leads.
fn judge_nodes(
    links: &[DesignLink],
    from: &Name,
    to: &Name,
    row: &Row,
    told: &mut Mistakes,
) -> Result<(), AllocError> {
    if !is_left(links, from) {
        told.refuse_at(row, "from", "a node that a link leaves")?;
    }
    if from == to {
        return told.refuse_at(row, "to", "another node than the one at from");
    }
    if !is_led_to(links, to) {
        return told.refuse_at(row, "to", "a node to which a link leads");
    }
    Ok(())
}

/// Whether a link leaves this node.
fn is_left(links: &[DesignLink], node: &Name) -> bool {
    links.iter().any(|link| link.from == *node)
}

/// Whether a link leads to this node.
fn is_led_to(links: &[DesignLink], node: &Name) -> bool {
    links.iter().any(|link| link.to == *node)
}
