//! What the entries of a run add to what is kept of the sources of channels.
ghost use Rattle.std.specs.Prelude.{◌≡◌, ℕ, ◌∷◌, ◌<◌, ◌^◌, [], List, IfOk, IfSome, IfNone, OnOk, Some, length};
ghost use Rattle.std.specs.List.{slice_get};
ghost use Rattle.net_units.specs.Numbers.{channel_number, link_number};
ghost use Rattle.net_units.specs.declared.numbers.ChanNo.{ChanNo as Chan};
ghost use Rattle.link_steps.specs.Scan.{clock_of};
ghost use Rattle.call_script.specs.declared.entries.RequestEntry.{RequestEntry as Asked};
ghost use Rattle.run_record.specs.Runs.{part_of};
ghost use Rattle.run_record.specs.declared.done.Done.{Done as Step};
ghost use Rattle.channel_report.specs.ChannelTallies.{AreChannelTallies};
ghost use Rattle.channel_report.specs.Sources.{chan_of, first_link};

use crate::channel_tally::ChannelTally;
use crate::source_act::{Act, act_of};
use call_script::Plan;
use net_units::{LinkNo, OutOfMemory};
use run_record::Done;
use std::alloc::Global;

// Of a number of channels, before the first entry.
pub(crate) fn new_tallies(alloc: Global, count: usize) -> Result<Vec<ChannelTally>, OutOfMemory>
    ensures { IfOk result (λ tallies. (requests : List Asked) → length requests ≡ count → AreChannelTallies requests [] tallies.items) }
{
    let mut tallies = Vec::new(alloc);
    for _channel in 0..count {
        tallies.push(ChannelTally::new(alloc))?;
    }
    Ok(tallies)
}

// Keeps what an entry does for a source, where its link's clock was this.
pub(crate) fn keep_source(
    alloc: Global,
    plan: &Plan,
    channels: &mut Vec<ChannelTally>,
    clock: u64,
    done: &Done,
) -> Result<(), OutOfMemory>
    requires { (past : List Step) × (AreChannelTallies plan.now.requests past channels.old.items × (length past < 2 ^ 60)) }
    ensures { OnOk result ((past : List Step) → AreChannelTallies plan.now.requests past channels.old.items → clock ≡ clock_of (part_of (link_number done.now.link) past)
        → AreChannelTallies plan.now.requests (done.now ∷ past) channels.new.items) }
{
    let act = act_of(&done.ask, &done.reply);
    match source_of(plan, done.link, &act) {
        Some(place) => channels[place].keep(alloc, clock, &act),
        None => Ok(()),
    }
}

// The place of the channel whose source it is for, where this link is the channel's first.
fn source_of(plan: &Plan, link: LinkNo, act: &Act) -> Option<usize>
    ensures inside { IfSome result (λ place. place < length plan.now.requests) }
    ensures own { IfSome result (λ place. (chan : Chan) × ((chan_of act.now ≡ Some chan) × (channel_number chan ≡ place))) }
    ensures first { IfSome result (λ place. (entry : Asked) → slice_get plan.now.requests place ≡ Some entry → first_link entry.request.route ≡ link_number link) }
    ensures none { IfNone result ((n : ℕ) (entry : Asked) (chan : Chan) → slice_get plan.now.requests n ≡ Some entry → first_link entry.request.route ≡ link_number link → chan_of act.now ≡ Some chan → channel_number chan ≡ n → ⊥) }
{
    let chan = act.chan()?;
    let place = chan.get() as usize;
    let entry = plan.requests().get(place)?;
    if entry.request.route.hop(1).link.get() == link.get() {
        Some(place)
    } else {
        None
    }
}
