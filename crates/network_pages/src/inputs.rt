//! The inputs: what the file says, in ticks and units, with the times.
use crate::cells::{begin_row, number_cell, text_cell, ticks_cell};
use crate::links::put_parameters;
use network_pictures::NetworkFacts;
use std::alloc::AllocError;
use svg_charts::Markup;

/// Adds the inputs.
pub(crate) fn put_inputs(markup: &mut Markup, facts: &NetworkFacts) -> Result<(), AllocError> {
    markup.put(
        "<section id=\"inputs\"><h2>Inputs</h2><details><summary>The numbers that all of this was worked out from</summary>",
    )?;
    if let Some(written) = &facts.written {
        markup.put("<p class=\"note\">The file says: ")?;
        markup.text(written.as_str())?;
        markup.put(
            ". Each quantity is rounded to ticks and units such that what is promised holds for what is written.</p>",
        )?;
    }
    put_parameters(markup, facts)?;
    put_terms(markup, facts)?;
    markup.put("</details></section>")
}

// Adds what each request asks for.
fn put_terms(markup: &mut Markup, facts: &NetworkFacts) -> Result<(), AllocError> {
    markup.put(
        "<h3>Requests</h3><p class=\"note\">A packet comes at least XMIN after the one before it, and XAVE after it on the average over any I; it has at most SMAX units.</p><div class=\"scroll\"><table><thead><tr><th>request<th class=\"n\">XMIN<th class=\"n\">XAVE<th class=\"n\">I<th class=\"n\">SMAX<th class=\"n\">delay<th class=\"n\">jitter",
    )?;
    put_written_head(markup, facts)?;
    markup.put("</thead><tbody>")?;
    for request in &facts.requests {
        let terms = request.terms;
        begin_row(markup, "data-input-request", request.name.as_str())?;
        markup.put("<th scope=\"row\" data-column=\"request\">")?;
        markup.text(request.name.as_str())?;
        markup.put("</th>")?;
        ticks_cell(markup, "xmin", Some(terms.xmin), facts.tick)?;
        ticks_cell(markup, "xave", Some(terms.xave), facts.tick)?;
        ticks_cell(markup, "interval", Some(terms.interval), facts.tick)?;
        number_cell(markup, "smax", Some(terms.smax))?;
        ticks_cell(markup, "delay", Some(terms.delay), facts.tick)?;
        ticks_cell(markup, "jitter", terms.jitter, facts.tick)?;
        put_written(markup, facts, &request.written)?;
        markup.put("</tr>")?;
    }
    markup.put("\n</tbody></table></div>")
}

/// Adds the head of the column of what is written, where the file has units of its own.
pub(crate) fn put_written_head(
    markup: &mut Markup,
    facts: &NetworkFacts,
) -> Result<(), AllocError> {
    if facts.written.is_some() {
        markup.put("<th>as it is written")
    } else {
        Ok(())
    }
}

/// Adds the cell of what is written.
pub(crate) fn put_written(
    markup: &mut Markup,
    facts: &NetworkFacts,
    written: &Option<String>,
) -> Result<(), AllocError> {
    if facts.written.is_none() {
        return Ok(());
    }
    let text = match written {
        Some(text) => text.as_str(),
        None => "",
    };
    text_cell(markup, "written", text)
}
