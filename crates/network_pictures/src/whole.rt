//! Each picture as a document of its own.
use crate::bars::{delay_axis, value_text};
use crate::drawing::draw_network;
use crate::facts::{LinkFacts, NetworkFacts, Outcome, RequestFacts};
use crate::layout::{Direction, width_of};
use crate::words::{fullest, load_word};
use std::alloc::{AllocError, Global};
use svg_charts::{Anchor, Axis, Extent, Markup, Point, frame, label, rule};

// How high a row is, where the first begins, and how wide the bars are.
const ROW: u32 = 260;

const TOP: u32 = 560;

const BARS: u32 = 5600;

/// The network as an SVG document.
pub fn network_picture(alloc: Global, facts: &NetworkFacts) -> Result<Markup, AllocError> {
    let (drawing, size) = draw_network(alloc, facts, Direction::Right)?;
    let mut markup = begun(alloc, size)?;
    markup.add(&drawing)?;
    markup.put("</svg>\n")?;
    Ok(markup)
}

// The head of a document of this size.
fn begun(alloc: Global, size: Extent) -> Result<Markup, AllocError> {
    let mut markup = Markup::new(alloc);
    markup.put("<svg xmlns=\"http://www.w3.org/2000/svg\"")?;
    markup.place("width", u64::from(size.width))?;
    markup.place("height", u64::from(size.height))?;
    markup.put(" font-family=\"system-ui, sans-serif\" font-size=\"13\"><style>")?;
    markup.put(
        "rect.paper,.under{fill:#fff}text{fill:#1b1f24}.quiet{fill:#5b6470}.node{fill:#eef1f5;stroke:#5b6470}.name{font-weight:600}",
    )?;
    markup.put(
        ".link{stroke:#8a94a3}.link.head{fill:#8a94a3;stroke:none}.busy{stroke:#b7791f}.busy.head{fill:#b7791f}.full,.refuses{stroke:#c0392b}.full.head,.refuses.head{fill:#c0392b}",
    )?;
    markup.put(
        ".linkname,.load{font-size:12px;paint-order:stroke;stroke:#fff;stroke-width:4px}.grid{stroke:#dde1e7}.promised{fill:#2f6fde}.offered{fill:none;stroke:#c0392b;stroke-dasharray:4 3}.spare{fill:#c9d8f5}.worst{fill:#0b2a66}.wanted{fill:#1b1f24}.rest{fill:#e3e7ed}.work{fill:#2f6fde}",
    )?;
    markup.put("</style>")?;
    frame(&mut markup, "paper", Point { x: 0, y: 0 }, size, 0)?;
    Ok(markup)
}

// Where the bars of a picture begin, behind its labels, and how large it is.
#[derive(Clone, Copy)]
struct Field {
    left: u32,
    size: Extent,
}

// The field of bars with labels of at most this width, and so many rows.
fn field_of(widest: u32, rows: usize) -> Field {
    let left = widest.saturating_add(300);
    let rows = u32::try_from(rows).unwrap_or(u32::MAX);
    Field {
        left,
        size: Extent {
            width: left.saturating_add(BARS).saturating_add(2400),
            height: rows
                .saturating_mul(ROW)
                .saturating_add(TOP)
                .saturating_add(160),
        },
    }
}

/// The delays of all requests as an SVG document: a bar for each, with its name before it and its numbers behind.
pub fn delays_picture(alloc: Global, facts: &NetworkFacts) -> Result<Markup, AllocError> {
    let mut widest: u32 = 0;
    for request in &facts.requests {
        widest = widest.max(width_of(request.name.as_str(), 82));
    }
    let field = field_of(widest, facts.requests.len());
    let axis = delay_axis(facts);
    let mut markup = begun(alloc, field.size)?;
    draw_steps(alloc, &mut markup, facts, axis, field)?;
    for place in 0..facts.requests.len() {
        let top = row_top(place);
        draw_delay(
            alloc,
            &mut markup,
            facts,
            &facts.requests[place],
            axis,
            field,
            top,
        )?;
    }
    markup.put("</svg>\n")?;
    Ok(markup)
}

// The top of the row at a place.
fn row_top(place: usize) -> u32 {
    let rows = u32::try_from(place).unwrap_or(u32::MAX);
    rows.saturating_mul(ROW).saturating_add(TOP)
}

// Draws the lines of an axis with their texts, and what the numbers behind the bars are.
fn draw_steps(
    alloc: Global,
    markup: &mut Markup,
    facts: &NetworkFacts,
    axis: Axis,
    field: Field,
) -> Result<(), AllocError> {
    let base = Point { x: 100, y: 200 };
    label(markup, "name", base, Anchor::Start, facts.title.as_str())?;
    for mark in &axis.marks(alloc)? {
        let x = at_share(field, axis.place(*mark));
        let text = value_text(alloc, *mark, facts.tick)?;
        let top = Point { x, y: 480 };
        label(markup, "quiet", top, Anchor::Middle, text.as_str())?;
        let foot = Point {
            x,
            y: field.size.height.saturating_sub(120),
        };
        rule(markup, "grid", Point { x, y: 520 }, foot)?;
    }
    let behind = Point {
        x: field.left.saturating_add(BARS).saturating_add(160),
        y: 480,
    };
    label(
        markup,
        "quiet",
        behind,
        Anchor::Start,
        "promised, of the wanted (mark)",
    )
}

// Where a share of the bars' width stands, in tenths of a percent.
fn at_share(field: Field, share: u64) -> u32 {
    let share = u32::try_from(share.min(1000)).unwrap_or(0);
    field
        .left
        .saturating_add((BARS / 1000).saturating_mul(share))
        .saturating_add((BARS % 1000).saturating_mul(share) / 1000)
}

// Draws the delay of a request.
fn draw_delay(
    alloc: Global,
    markup: &mut Markup,
    facts: &NetworkFacts,
    request: &RequestFacts,
    axis: Axis,
    field: Field,
    top: u32,
) -> Result<(), AllocError> {
    let base = top.saturating_add(170);
    let name = Point {
        x: field.left.saturating_sub(120),
        y: base,
    };
    label(markup, "name", name, Anchor::End, request.name.as_str())?;
    let ticks = match facts.tick {
        Some(tick) => tick.picoseconds.max(1),
        None => 1,
    };
    let wanted = at_share(field, axis.place(request.terms.delay.saturating_mul(ticks)));
    let reach = match request.outcome {
        Outcome::Accepted(promised) => Some(promised),
        _ => request.offered,
    };
    let class = match request.outcome {
        Outcome::Accepted(_) => "promised",
        _ => "offered",
    };
    if let Some(reach) = reach {
        let end = at_share(field, axis.place(reach.saturating_mul(ticks)));
        strip(markup, class, field.left, end, top.saturating_add(50), 160)?;
    }
    strip(
        markup,
        "wanted",
        wanted,
        wanted.saturating_add(30),
        top,
        260,
    )?;
    let text = outcome_text(alloc, request)?;
    let behind = Point {
        x: field.left.saturating_add(BARS).saturating_add(160),
        y: base,
    };
    label(markup, "quiet", behind, Anchor::Start, text.as_str())
}

// Adds a bar from one place to another.
fn strip(
    markup: &mut Markup,
    class: &'static str,
    from: u32,
    to: u32,
    top: u32,
    height: u32,
) -> Result<(), AllocError> {
    let extent = Extent {
        width: to.saturating_sub(from),
        height,
    };
    frame(markup, class, Point { x: from, y: top }, extent, 0)
}

// What a request came to, in a few words.
fn outcome_text(alloc: Global, request: &RequestFacts) -> Result<String, AllocError> {
    let wanted = request.terms.delay;
    match request.outcome {
        Outcome::Accepted(promised) => format!(in alloc; "{promised} of {wanted} ticks"),
        Outcome::Denied { .. } => match request.offered {
            Some(sum) => format!(in alloc; "denied, offered {sum} of {wanted} ticks"),
            None => format!(in alloc; "denied, wants {wanted} ticks"),
        },
        Outcome::Pending => format!(in alloc; "pending, wants {wanted} ticks"),
    }
}

/// The loads of all links as an SVG document: a bar for each, whose whole is the bound of its fullest level.
pub fn links_picture(alloc: Global, facts: &NetworkFacts) -> Result<Markup, AllocError> {
    let mut widest: u32 = 0;
    for link in &facts.links {
        widest = widest.max(width_of(link.name.as_str(), 82));
    }
    let field = field_of(widest, facts.links.len());
    let mut markup = begun(alloc, field.size)?;
    let base = Point { x: 100, y: 200 };
    label(
        &mut markup,
        "name",
        base,
        Anchor::Start,
        facts.title.as_str(),
    )?;
    for place in 0..facts.links.len() {
        draw_fullest(
            alloc,
            &mut markup,
            &facts.links[place],
            field,
            row_top(place),
        )?;
    }
    markup.put("</svg>\n")?;
    Ok(markup)
}

// Draws the load of a link.
fn draw_fullest(
    alloc: Global,
    markup: &mut Markup,
    link: &LinkFacts,
    field: Field,
    top: u32,
) -> Result<(), AllocError> {
    let base = top.saturating_add(170);
    let name = Point {
        x: field.left.saturating_sub(120),
        y: base,
    };
    label(markup, "name", name, Anchor::End, link.name.as_str())?;
    let (place, part) = fullest(&link.fill);
    let end = field.left.saturating_add(BARS);
    strip(markup, "rest", field.left, end, top.saturating_add(60), 140)?;
    let full = at_share(field, part);
    strip(
        markup,
        "work",
        field.left,
        full,
        top.saturating_add(60),
        140,
    )?;
    let text = load_text(alloc, link, place)?;
    let behind = Point {
        x: end.saturating_add(160),
        y: base,
    };
    label(markup, "quiet", behind, Anchor::Start, text.as_str())
}

// The load of the fullest level, in a few words.
fn load_text(alloc: Global, link: &LinkFacts, place: usize) -> Result<String, AllocError> {
    let word = load_word(link);
    match link.fill.levels.get(place) {
        Some(level) => {
            let (work, bound) = (level.work, level.bound);
            let number = place.saturating_add(1);
            format!(in alloc; "level {number}: {work} of {bound} ticks, {word}")
        }
        None => String::from_str(alloc, word),
    }
}
