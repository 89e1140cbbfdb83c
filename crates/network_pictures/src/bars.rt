//! Bars of requests and links. Their places are shares of the width, so they fill whatever room they are given.
use crate::facts::{LevelFacts, NetworkFacts, Outcome, PacketFacts, RequestFacts};
use crate::words::{Fullness, fullness_of, per_mille};
use answer_grids::time_text;
use field_units::Time;
use std::alloc::{AllocError, Global};
use svg_charts::{Axis, Markup};

/// The axis of all requests' bars: in picoseconds where the tick is known, and else in ticks.
pub fn delay_axis(facts: &NetworkFacts) -> Axis {
    let mut least: u64 = u64::MAX;
    let mut most: u64 = 1;
    for request in &facts.requests {
        least = least.min(shortest_of(request)).min(request.terms.delay);
        most = most.max(longest_of(request)).max(request.terms.delay);
    }
    let parts = parts_of(facts.tick);
    Axis::between(
        least.min(most).max(1).saturating_mul(parts),
        most.saturating_mul(parts),
    )
}

// The longest delay that is shown of a request, beside the one that it wants.
fn longest_of(request: &RequestFacts) -> u64 {
    let offered = match request.outcome {
        Outcome::Accepted(_) => 0,
        _ => request.offered.unwrap_or(0),
    };
    offered.max(request.worst().unwrap_or(0))
}

// The shortest one.
fn shortest_of(request: &RequestFacts) -> u64 {
    let promised = match request.outcome {
        Outcome::Accepted(promised) => promised,
        _ => request.offered.unwrap_or(u64::MAX),
    };
    match &request.packets {
        Some(packets) => promised.min(packets.least),
        None => promised,
    }
}

// How many parts of the axis a tick has.
fn parts_of(tick: Option<Time>) -> u64 {
    match tick {
        Some(tick) => tick.picoseconds.max(1),
        None => 1,
    }
}

// Where so many ticks stand on the axis, in tenths of a percent.
fn place_of(ticks: u64, axis: Axis, tick: Option<Time>) -> u64 {
    axis.place(ticks.saturating_mul(parts_of(tick)))
}

/// A value of the axis as a text.
pub fn value_text(alloc: Global, value: u64, tick: Option<Time>) -> Result<String, AllocError> {
    match tick {
        Some(_) => time_text(alloc, value, Time { picoseconds: 1 }),
        None => format!(in alloc; "{value}"),
    }
}

// How far a mark has to be from the end to have a text of its own, in tenths of a percent.
const NEAR: u64 = 130;

/// Writes the axis: a text at each mark, as far as there is room.
pub fn draw_axis(
    alloc: Global,
    markup: &mut Markup,
    axis: Axis,
    tick: Option<Time>,
) -> Result<(), AllocError> {
    for mark in &axis.marks(alloc)? {
        let from_end = 1000u64.saturating_sub(axis.place(*mark));
        if *mark < axis.high && from_end < NEAR {
            continue;
        }
        let text = value_text(alloc, *mark, tick)?;
        markup.put("<text y=\"12\"")?;
        markup.share("x", axis.place(*mark))?;
        markup.put(if *mark == axis.low {
            ">"
        } else if *mark == axis.high {
            " text-anchor=\"end\">"
        } else {
            " text-anchor=\"middle\">"
        })?;
        markup.text(text.as_str())?;
        markup.put("</text>")?;
    }
    Ok(())
}

/// Writes the lines at the marks of an axis as a background of the style sheet.
pub fn put_lines(alloc: Global, markup: &mut Markup, axis: Axis) -> Result<(), AllocError> {
    for mark in &axis.marks(alloc)? {
        if *mark > axis.low {
            markup.put(",")?;
        }
        markup.put("linear-gradient(var(--line),var(--line)) ")?;
        markup.tenths(axis.place(*mark))?;
        markup.put("% 0/1px 100% no-repeat")?;
    }
    Ok(())
}

/// Draws the bar of a request: what it was promised or offered, the worst of its packets, and a mark where the delay is that it wants.
pub fn draw_request(
    markup: &mut Markup,
    request: &RequestFacts,
    axis: Axis,
    tick: Option<Time>,
) -> Result<(), AllocError> {
    let wanted = place_of(request.terms.delay, axis, tick);
    match request.outcome {
        Outcome::Accepted(promised) => {
            let promised = place_of(promised, axis, tick);
            bar(markup, "spare", promised, wanted, "9", "6")?;
            bar(markup, "promised", 0, promised, "5", "14")?;
        }
        Outcome::Denied { .. } | Outcome::Pending => {
            if let Some(sum) = request.offered {
                bar(markup, "offered", 0, place_of(sum, axis, tick), "5", "14")?;
            }
        }
    }
    if let Some(worst) = request.worst() {
        bar(markup, "worst", 0, place_of(worst, axis, tick), "10", "4")?;
    }
    markup.put(
        "<rect class=\"wanted\" y=\"1\" width=\"3\" height=\"22\" transform=\"translate(-3 0)\"",
    )?;
    markup.share("x", wanted)?;
    markup.put("/>")
}

// Adds a bar between two places, in tenths of a percent.
fn bar(
    markup: &mut Markup,
    class: &'static str,
    from: u64,
    to: u64,
    y: &'static str,
    height: &'static str,
) -> Result<(), AllocError> {
    markup.put("<rect class=\"")?;
    markup.put(class)?;
    markup.put("\" y=\"")?;
    markup.put(y)?;
    markup.put("\" height=\"")?;
    markup.put(height)?;
    markup.put("\"")?;
    markup.share("x", from)?;
    markup.share("width", to.saturating_sub(from))?;
    markup.put("/>")
}

/// Draws the load of a level, of which its bound is the whole.
pub fn draw_load(markup: &mut Markup, level: &LevelFacts) -> Result<(), AllocError> {
    bar(markup, "rest", 0, 1000, "4", "8")?;
    let class = match fullness_of(level) {
        Fullness::Full => "work full",
        Fullness::Busy => "work busy",
        Fullness::Free => "work",
    };
    bar(markup, class, 0, per_mille(level).min(1000), "4", "8")
}

// Into how many parts the axis is divided for the delays of packets.
const BINS: u64 = 100;

/// Draws the delays of packets: at each hundredth of the axis a bar that is as high as many of them end there, and a mark at the promise.
pub fn draw_delays(
    alloc: Global,
    markup: &mut Markup,
    packets: &PacketFacts,
    axis: Axis,
    tick: Option<Time>,
) -> Result<(), AllocError> {
    let bins = bins_of(alloc, packets.delays.as_slice(), axis, tick)?;
    let most = bins.iter().copied().max().unwrap_or(1).max(1);
    for bin in 0..bins.len() {
        draw_bin(markup, bin as u64, bins[bin], most)?;
    }
    match packets.promised {
        Some(promised) => {
            markup.put("<rect class=\"limit\" y=\"0\" width=\"2\" height=\"30\"")?;
            markup.share("x", place_of(promised, axis, tick))?;
            markup.put("/>")
        }
        None => Ok(()),
    }
}

// How many delays there are in each part of the axis.
fn bins_of(
    alloc: Global,
    delays: &[u64],
    axis: Axis,
    tick: Option<Time>,
) -> Result<Vec<u64>, AllocError> {
    let mut bins = vec![in alloc; 0u64; 101]?;
    for delay in delays {
        let place = place_of(*delay, axis, tick) / (1000 / BINS);
        let place = usize::try_from(place).unwrap_or(0);
        if let Some(count) = bins.get_mut(place) {
            *count = count.saturating_add(1);
        }
    }
    Ok(bins)
}

// Draws how many there are in one part, where the fullest part has so many.
fn draw_bin(markup: &mut Markup, bin: u64, count: u64, most: u64) -> Result<(), AllocError> {
    if count == 0 {
        return Ok(());
    }
    let height = count
        .saturating_mul(240)
        .div_ceil(most.max(1))
        .clamp(20, 240);
    markup.put("<rect class=\"packet\" width=\"1%\"")?;
    markup.share("x", bin.saturating_mul(10))?;
    markup.place("y", 280u64.saturating_sub(height))?;
    markup.place("height", height)?;
    markup.put("/>")
}
