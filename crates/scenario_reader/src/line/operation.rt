//! The lines of a caller's operations on channels that it has opened: what they have in common, and a row for each kind.
ghost use Rattle.std.specs.Prelude.{◌≡◌, ◌≤◌, Some, OnOk, OnErr, IfOk, [], length, IfSome, IfNone, string_bytes};
ghost use Rattle.scenario_reader.specs.Causes.{Judges};
ghost use Rattle.scenario_reader.specs.Drafts.{request_named, own_request, uses_said, with_item};
ghost use Rattle.scenario_reader.specs.line.Using.{IsOwn, SaysOwn, load_rule, request_value};
ghost use Rattle.scenario_reader.specs.Uses.{IsLight};
ghost use Rattle.std.specs.List.{slice_get};
ghost use Rattle.net_units.specs.Numbers.{channel_number};
ghost use Rattle.call_script.specs.Growing.{add_op};
ghost use Rattle.call_script.specs.Rules.{hops_of, load_of, loads_in};
ghost use Rattle.scenario_reader.specs.line.Table.{MayAdd};
ghost use Rattle.line_forms.specs.Values.{number_at};
ghost use Rattle.scenario_reader.specs.line.Operation.{op_text};
ghost use Rattle.scenario_reader.specs.declared.item.Item.TheVariants as item;

pub(crate) mod close;
pub(crate) mod moving;
pub(crate) mod pour;
pub(crate) mod send;

use crate::cause::LineCause;
use crate::draft::Draft;
use crate::line::operation::close::close_line;
use crate::line::operation::moving::move_line;
use crate::line::operation::pour::pour_line;
use crate::line::operation::send::send_line;
use crate::line::request::text::open_line;
use crate::uses::{Uses, use_at, use_by};
use crate::values::require;
use call_script::{CallerEntry, LinkEntry, Op, RequestEntry};
use line_forms::{FieldValue, Values};
use net_units::limits::MOST_PACKETS;
use net_units::{ChanNo, Name, OutOfMemory};
use std::alloc::Global;

// The field of a request, which is known by its channel.
pub(crate) fn request_value(entry: &RequestEntry) -> FieldValue
    ensures { result ≡ request_value entry.now }
{
    FieldValue::Known {
        name: entry.name,
        number: entry.request.chan.get() as usize,
    }
}

impl Draft {
    // With these packets added, the load of all is within the limit.
    pub(crate) fn judge_load(&self, packets: u64) -> Result<(), LineCause>
        requires { packets ≤ 4194304 }
        ensures { Judges result (load_rule self.now packets) tt }
    {
        require(self.load + packets <= MOST_PACKETS, LineCause::Load)
    }

    // The request of this name, where the last caller has opened it.
    pub(crate) fn own_request(&self, name: &Name) -> Option<RequestEntry>
        ensures { result ≡ own_request self.now name.now }
    {
        let entry = self.request_named(name)?;
        if usize::from(entry.caller.get()) == self.callers.len().saturating_sub(1) {
            Some(entry)
        } else {
            None
        }
    }

    // The request of this name.
    pub(crate) fn request_named(&self, name: &Name) -> Option<RequestEntry>
        ensures { result ≡ request_named self.now.requests name.now }
    {
        let number = self.request_names.number_of(name)?;
        Some(self.requests[number])
    }

    // The request that the values of a line name, which the last caller has opened.
    pub(crate) fn own_said(&self, values: &Values, place: usize) -> &RequestEntry
        requires { SaysOwn self.now values.now.ones place }
        ensures at { slice_get self.now.requests (number_at values.now.ones place) ≡ Some result.now }
        ensures own { IsOwn self.now result.now }
    {
        &self.requests[values.ones.number(place) as usize]
    }

    // What the last caller has done with a request that it has opened.
    pub(crate) fn uses_of(&self, entry: &RequestEntry) -> Uses
        requires { IsOwn self.now entry.now }
        ensures value { result ≡ uses_said self.now entry.now.request.chan }
        ensures light { IsLight result }
    {
        use_at(&self.uses, entry.request.chan)
    }

    // Adds an operation other than an open, with its packets, once for each hop that they may cross.
    pub(crate) fn put_op(&mut self, op: &Op) -> Result<(), OutOfMemory>
        requires { MayAdd self.old (item.Op op.now) }
        ensures ok { OnOk result (self.new ≡ with_item (item.Op op.now) self.old) }
        ensures err { OnErr result (self.new ≡ self.old) }
    {
        let packets = self.packets_of(op);
        add_op(&mut self.callers, *op)?;
        self.load += packets;
        use_by(&mut self.uses, op);
        Ok(())
    }

    // The packets of an operation, once for each hop.
    fn packets_of(&self, op: &Op) -> u64
        requires { MayAdd self.now (item.Op op.now) }
        ensures { result ≡ load_of self.now.requests (loads_in self.now.callers) op.now }
    {
        match op {
            Op::Open(_) | Op::Close(_) => 0,
            Op::Send { chan, count, .. } => *count * self.hops_of(*chan),
            Op::Pour { count, .. } => *count,
            Op::Move { old, new } => use_at(&self.uses, *old).load * self.hops_of(*new),
        }
    }

    // How many hops the route of a channel has, 0 where it has no request.
    fn hops_of(&self, chan: ChanNo) -> u64
        ensures value { result ≡ hops_of (slice_get self.now.requests (channel_number chan)) }
        ensures most { result ≤ 16 }
    {
        match self.requests.get(chan.get() as usize) {
            Some(entry) => u64::from(entry.request.route.len()),
            None => 0,
        }
    }
}

// Adds an operation after those of the last caller. Where memory runs out, nothing changes.
pub(crate) fn add_op(callers: &mut Vec<CallerEntry>, op: Op) -> Result<(), OutOfMemory>
    requires { 1 ≤ length callers.old.items }
    ensures ok { OnOk result (callers.new.items ≡ add_op op callers.old.items) }
    ensures err { OnErr result (callers.new.items ≡ callers.old.items) }
{
    let last = callers.len() - 1;
    callers[last].ops.push(op)
}

// The line of an operation, where what the operation names is there.
#[tactic(auto, unfolding(crate::specs::line::Operation::op_text))]
pub(crate) fn op_line(
    alloc: Global,
    links: &[LinkEntry],
    requests: &[RequestEntry],
    op: &Op,
) -> Option<Result<String, OutOfMemory>>
    ensures some { IfSome result (λ line. IfOk line (λ l. string_bytes l ≡ op_text links.now requests.now op.now)) }
    ensures none { IfNone result (op_text links.now requests.now op.now ≡ []) }
{
    match op {
        Op::Open(chan) => {
            let entry = requests.get(chan.get() as usize)?;
            Some(open_line(alloc, links, entry))
        }
        Op::Send {
            chan,
            count,
            gap,
            size,
        } => {
            let entry = requests.get(chan.get() as usize)?;
            Some(send_line(alloc, entry, *count, *gap, *size))
        }
        Op::Close(chan) => {
            let entry = requests.get(chan.get() as usize)?;
            Some(close_line(alloc, entry))
        }
        Op::Move { old, new } => {
            let from = requests.get(old.get() as usize)?;
            let to = requests.get(new.get() as usize)?;
            Some(move_line(alloc, from, to))
        }
        Op::Pour {
            link,
            count,
            gap,
            size,
        } => {
            let entry = links.get(usize::from(link.get()))?;
            Some(pour_line(alloc, entry, *count, *gap, *size))
        }
    }
}
