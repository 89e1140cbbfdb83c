//! Cells of tables. Each number carries the name of its column, and its row that of what it is about.
use answer_grids::time_text;
use field_units::Time;
use std::alloc::AllocError;
use svg_charts::Markup;

/// Adds a cell with ticks, and below them how long they are, where the tick is known; a dash where there are none.
pub(crate) fn ticks_cell(
    markup: &mut Markup,
    column: &'static str,
    ticks: Option<u64>,
    tick: Option<Time>,
) -> Result<(), AllocError> {
    begin(markup, column)?;
    match ticks {
        Some(ticks) => {
            markup.number(ticks)?;
            small_time(markup, ticks, tick)?;
        }
        None => markup.put("–")?,
    }
    markup.put("</td>")
}

/// Adds how long so many ticks are, where the tick is known.
pub(crate) fn small_time(
    markup: &mut Markup,
    ticks: u64,
    tick: Option<Time>,
) -> Result<(), AllocError> {
    let Some(tick) = tick else {
        return Ok(());
    };
    let time = time_text(markup.alloc(), ticks, tick)?;
    markup.put("<small>")?;
    markup.text(time.as_str())?;
    markup.put("</small>")
}

/// Adds a cell with a number, or a dash.
pub(crate) fn number_cell(
    markup: &mut Markup,
    column: &'static str,
    number: Option<u64>,
) -> Result<(), AllocError> {
    begin(markup, column)?;
    match number {
        Some(number) => markup.number(number)?,
        None => markup.put("–")?,
    }
    markup.put("</td>")
}

/// Adds a cell with a text.
pub(crate) fn text_cell(
    markup: &mut Markup,
    column: &'static str,
    text: &str,
) -> Result<(), AllocError> {
    markup.put("<td data-column=\"")?;
    markup.put(column)?;
    markup.put("\">")?;
    markup.text(text)?;
    markup.put("</td>")
}

/// Begins a cell with a number.
pub(crate) fn begin(markup: &mut Markup, column: &'static str) -> Result<(), AllocError> {
    markup.put("<td class=\"n\" data-column=\"")?;
    markup.put(column)?;
    markup.put("\">")
}

/// Begins a row about something of a kind, as a request, by its name.
pub(crate) fn begin_row(
    markup: &mut Markup,
    kind: &'static str,
    name: &str,
) -> Result<(), AllocError> {
    markup.put("\n<tr")?;
    markup.attribute(kind, name)?;
    markup.put(">")
}

/// Adds ticks in a sentence.
pub(crate) fn put_ticks(
    markup: &mut Markup,
    ticks: u64,
    tick: Option<Time>,
) -> Result<(), AllocError> {
    let text = answer_grids::ticks_text(markup.alloc(), ticks, tick)?;
    markup.text(text.as_str())
}
