//! The lines of the links.
ghost use Rattle.std.specs.Prelude.{◌≡◌, ◌++◌, ◌<◌, ◌≤◌, ◌^◌, List, OnOk, Some, length, string_bytes};
ghost use Rattle.link_steps.specs.declared.replies.Entry.{Entry};
ghost use Rattle.run_record.specs.declared.done.Done.{Done as Step};
ghost use Rattle.channel_report.specs.Links.{takes_best, told_link};
ghost use Rattle.channel_report.specs.Report.{link_lines};
ghost use Rattle.channel_report.specs.Tallies.{AreLinkTallies, link_tally_of};
ghost use Rattle.text_writer.specs.Telling.{Tells};

use crate::link_tally::LinkTally;
use byte_ends::{Gather, Sink};
use call_script::{LinkEntry, Plan, Version};
use net_units::Name;
use std::alloc::{AllocError, Global};
use text_writer::{ReportFault, tell};

// Tells the lines of all links, by these counts.
pub(crate) fn tell_links<K: Sink>(
    alloc: Global,
    plan: &Plan,
    tallies: &[LinkTally],
    gather: &mut Gather,
    sink: &mut K,
) -> Result<(), ReportFault>
    requires { (run : List Step) × AreLinkTallies (length plan.now.links) run tallies.now }
    ensures { (run : List Step) → AreLinkTallies (length plan.now.links) run tallies.now
        → Tells result (K.written sink.old) (K.written sink.new) gather.old gather.new (K.faults sink.old) (K.faults sink.new) (link_lines plan.now run) }
{
    let version = plan.version();
    for (number, entry) in plan.links().iter().enumerate() {
        let best = takes_best(version, entry);
        tell_link(alloc, entry.name, best, &tallies[number], gather, sink)?;
    }
    Ok(())
}

// Tells the line of a link.
fn tell_link<K: Sink>(
    alloc: Global,
    name: Name,
    best: bool,
    tally: &LinkTally,
    gather: &mut Gather,
    sink: &mut K,
) -> Result<(), ReportFault>
    ensures { (h : List Entry) → tally.now ≡ link_tally_of h → Tells result (K.written sink.old) (K.written sink.new) gather.old gather.new (K.faults sink.old) (K.faults sink.new) (told_link name best h) }
{
    let mut line = String::new(alloc);
    push_link(&mut line, name, best, tally)?;
    Ok(tell(gather, sink, line.as_bytes())?)
}

// Whether the link takes best-effort packets.
fn takes_best(version: Version, entry: &LinkEntry) -> bool
    ensures { result ≡ takes_best version entry.now }
{
    version.has_best_effort() && entry.shape.best != 0
}

// The line of a link.
fn push_link(text: &mut String, name: Name, best: bool, tally: &LinkTally) -> Result<(), AllocError>
    ensures { OnOk result ((h : List Entry) → tally.now ≡ link_tally_of h → string_bytes text.new ≡ string_bytes text.old ++ told_link name best h) }
{
    let LinkTally {
        clock,
        sent,
        dropped,
        best_sent,
        best_lost,
        pours_refused,
    } = *tally;
    write!(text, "link {name} clock {clock} sent {sent} full {dropped}")?;
    if best {
        write!(
            text,
            " best {best_sent} lost {best_lost} refused {pours_refused}"
        )?;
    }
    writeln!(text)
}
