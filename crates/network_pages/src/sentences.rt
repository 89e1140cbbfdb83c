//! Why a request is denied, and what would help.
use crate::cells::put_ticks;
use network_pictures::{Denial, Help, LinkFacts, NetworkFacts, RequestFacts};
use std::alloc::AllocError;
use svg_charts::Markup;

/// Adds why a request is denied, as a sentence.
pub(crate) fn put_denial(
    markup: &mut Markup,
    facts: &NetworkFacts,
    request: &RequestFacts,
    why: Denial,
) -> Result<(), AllocError> {
    match why {
        Denial::Delay { sum } => put_two(
            markup,
            facts,
            ["Its hops offer ", " in all, and it wants ", "."],
            sum,
            request.terms.delay,
        ),
        Denial::Jitter { last } => put_two(
            markup,
            facts,
            [
                "Its last hop offers a bound of ",
                ", and the jitter that it wants is ",
                ".",
            ],
            last,
            request.terms.jitter.unwrap_or(0),
        ),
        Denial::Schedule { hop, sum, bound } => {
            put_hop(markup, facts, request, hop)?;
            let parts = if is_split(facts, request, hop) {
                [
                    " has no level for it: at the last one its group would have ",
                    " of work, and the group's quota is ",
                    ".",
                ]
            } else {
                [
                    " has no level for it: at the last one there would be ",
                    " of work, and its bound is ",
                    ".",
                ]
            };
            put_two(markup, facts, parts, sum, bound)
        }
        Denial::Buffer { hop, need, free } => {
            put_hop(markup, facts, request, hop)?;
            put_numbers(
                markup,
                [
                    " has too little buffer: the request needs ",
                    " units, and ",
                    " are free.",
                ],
                need,
                free,
            )
        }
        Denial::Wide { hop, smax, cap } => {
            put_hop(markup, facts, request, hop)?;
            put_numbers(
                markup,
                [
                    " can't carry its packets of ",
                    " units: ",
                    " is the largest there.",
                ],
                smax,
                cap,
            )
        }
        Denial::Hop { hop } => {
            put_hop(markup, facts, request, hop)?;
            markup.put(" refuses it.")
        }
    }
}

// Adds two numbers of ticks with the words around them.
fn put_two(
    markup: &mut Markup,
    facts: &NetworkFacts,
    words: [&'static str; 3],
    one: u64,
    other: u64,
) -> Result<(), AllocError> {
    markup.put(words[0])?;
    told_ticks(markup, "why", one, facts)?;
    markup.put(words[1])?;
    told_ticks(markup, "why", other, facts)?;
    markup.put(words[2])
}

// Adds ticks in a sentence, with the name of their column.
fn told_ticks(
    markup: &mut Markup,
    column: &'static str,
    ticks: u64,
    facts: &NetworkFacts,
) -> Result<(), AllocError> {
    markup.put("<b data-column=\"")?;
    markup.put(column)?;
    markup.put("\">")?;
    put_ticks(markup, ticks, facts.tick)?;
    markup.put("</b>")
}

// Adds a number in the sentence that says why.
fn told_number(markup: &mut Markup, number: u64) -> Result<(), AllocError> {
    markup.put("<b data-column=\"why\">")?;
    markup.number(number)?;
    markup.put("</b>")
}

// Adds two numbers with the words around them.
fn put_numbers(
    markup: &mut Markup,
    words: [&'static str; 3],
    one: u64,
    other: u64,
) -> Result<(), AllocError> {
    markup.put(words[0])?;
    told_number(markup, one)?;
    markup.put(words[1])?;
    told_number(markup, other)?;
    markup.put(words[2])
}

// Adds a hop by its place and the name of its link.
fn put_hop(
    markup: &mut Markup,
    facts: &NetworkFacts,
    request: &RequestFacts,
    hop: u64,
) -> Result<(), AllocError> {
    markup.put("Hop ")?;
    told_number(markup, hop)?;
    markup.put(", ")?;
    match link_at(facts, request, hop) {
        Some(link) => markup.text(link.name.as_str())?,
        None => {}
    }
    markup.put(",")
}

// The link at a place of a request's route, from 1.
fn link_at<'a>(facts: &'a NetworkFacts, request: &RequestFacts, hop: u64) -> Option<&'a LinkFacts> {
    let place = usize::try_from(hop.saturating_sub(1)).ok()?;
    let hop = request.hops.get(place)?;
    facts.links.get(hop.link)
}

// Whether the link at a place of a request's route is split between groups.
fn is_split(facts: &NetworkFacts, request: &RequestFacts, hop: u64) -> bool {
    match link_at(facts, request, hop) {
        Some(link) => !link.shares.is_empty(),
        None => false,
    }
}

/// Adds what would help a denied request: the least delay with which it would be accepted, or else the link that is tight.
pub(crate) fn put_help(
    markup: &mut Markup,
    facts: &NetworkFacts,
    request: &RequestFacts,
    why: Denial,
    help: Help,
) -> Result<(), AllocError> {
    match (help, why) {
        (Help::Unasked, _) => {
            markup.put(" What would do is told by ask least ")?;
            markup.text(request.name.as_str())?;
            markup.put(".")
        }
        (Help::Delay(least), Denial::Jitter { .. }) => {
            markup.put(" With a longer jitter, it would be accepted with a delay of ")?;
            told_ticks(markup, "least_delay", least, facts)?;
            markup.put(".")
        }
        (Help::Delay(least), _) => {
            markup.put(" It would be accepted with a delay of ")?;
            told_ticks(markup, "least_delay", least, facts)?;
            markup.put(".")
        }
        (Help::NoDelay, Denial::Wide { .. }) => markup.put(" No delay would do."),
        (Help::NoDelay, _) => put_tight(markup, facts, request.tight),
    }
}

// Adds that no delay would do, and which link is in the way.
fn put_tight(
    markup: &mut Markup,
    facts: &NetworkFacts,
    tight: Option<usize>,
) -> Result<(), AllocError> {
    markup.put(" No delay would do")?;
    if let Some(link) = tight {
        markup.put(": ")?;
        markup.text(link_name(facts, link))?;
        markup.put(" has to be relieved")?;
    }
    markup.put(".")
}

/// The name of the link at a place.
pub(crate) fn link_name(facts: &NetworkFacts, link: usize) -> &str {
    match facts.links.get(link) {
        Some(link) => link.name.as_str(),
        None => "",
    }
}
