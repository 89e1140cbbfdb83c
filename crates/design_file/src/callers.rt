//! The callers of a plan: what each does, and when.
ghost use Rattle.std.specs.Prelude.{◌≡◌, ◌++◌, ◌∷◌, ◌+◌, [], length, IfOk, OnOk, map};
ghost use Rattle.net_units.specs.Numbers.{actor_number};
ghost use Rattle.call_script.specs.Parts.{openings_of, openings_in, opened_by, opening_of};
ghost use Rattle.design_file.specs.Opened.{opened_so_far};

use crate::later::{Later, before_opens, later_ops};
use crate::refusal::{Key, Refusal, Wrong};
use crate::times::{CallerTimes, OpTime, op_time};
use call_script::{CallerEntry, LinkEntry, Op, Ops, RequestEntry};
use design_text::{Design, DesignStream};
use field_units::Scale;
use net_units::Name;
use std::alloc::Global;

/// The names of which the first caller has the first that no group has.
const FIRST_NAMES: [&str; 5] = ["streams", "others", "rest", "ungrouped", "single"];

/// The callers so far, and what the one after them does up to a moment.
#[derive(Drop)]
pub(crate) struct Draft {
    callers: Vec<CallerEntry>,
    times: Vec<CallerTimes>,
    ops: Vec<Op>,
    own: Vec<OpTime>,
    moment: u64,
}

/// The callers of a plan, and when the operations of each are made.
#[derive(Drop)]
pub(crate) struct Called {
    pub(crate) callers: Vec<CallerEntry>,
    pub(crate) times: Vec<CallerTimes>,
}

/// What the callers are made of.
#[derive(Clone, Copy)]
struct Parts<'a> {
    alloc: Global,
    groups: &'a [Name],
    later: &'a [Later],
}

/// The callers of a design's plan, and when their operations are made: one for the streams of no group, and one for each group.
pub(crate) fn callers_of(
    alloc: Global,
    scale: &Scale,
    design: &Design,
    links: &[LinkEntry],
    requests: &[RequestEntry],
) -> Result<Called, Refusal>
    ensures { IfOk result (λ called. openings_of 0 called.callers.items ≡ map opening_of requests.now) }
{
    let later = later_ops(alloc, scale, design, links, requests)?;
    let parts = Parts {
        alloc,
        groups: &design.groups,
        later: &later,
    };
    let draft = opened(parts, scale, &design.streams, requests)?;
    let draft = up_to(parts, draft, parts.groups.len())?;
    let draft = ended(parts, draft)?;
    Ok(Called {
        callers: draft.callers,
        times: draft.times,
    })
}

// The callers that open these requests.
fn opened(
    parts: Parts,
    scale: &Scale,
    streams: &[DesignStream],
    requests: &[RequestEntry],
) -> Result<Draft, Refusal>
    ensures { IfOk result (λ draft. opened_so_far draft.callers.items draft.ops.items ≡ map opening_of requests.now) }
{
    let mut draft = empty(parts.alloc);
    for entry in requests {
        draft = up_to(parts, draft, usize::from(entry.caller.get()))?;
        add_open(parts, scale, streams, entry, &mut draft)?;
    }
    Ok(draft)
}

// No callers yet.
fn empty(alloc: Global) -> Draft
    ensures { opened_so_far result.callers.items result.ops.items ≡ [] }
{
    Draft {
        callers: Vec::new(alloc),
        times: Vec::new(alloc),
        ops: Vec::new(alloc),
        own: Vec::new(alloc),
        moment: 0,
    }
}

// Ends callers until there are so many.
fn up_to(parts: Parts, begun: Draft, count: usize) -> Result<Draft, Refusal>
    ensures { IfOk result (λ new. opened_so_far new.callers.items new.ops.items ≡ opened_so_far begun.callers.items begun.ops.items) }
{
    let mut draft = begun;
    for _ in draft.callers.len()..count {
        draft = ended(parts, draft)?;
    }
    Ok(draft)
}

// The caller does all that is left, and another one comes after it.
fn ended(parts: Parts, begun: Draft) -> Result<Draft, Refusal>
    ensures same { IfOk result (λ new. opened_so_far new.callers.items new.ops.items ≡ opened_so_far begun.callers.items begun.ops.items) }
    ensures empty { IfOk result (λ new. new.ops.items ≡ []) }
{
    let mut draft = begun;
    add_later(parts.later, u64::MAX, &mut draft)?;
    let group = draft.callers.len();
    let name = caller_name(parts.groups, group).ok_or(Refusal::Wrong(Wrong::Nameless))?;
    let Draft {
        mut callers,
        mut times,
        ops,
        own,
        moment: _,
    } = draft;
    callers.push(CallerEntry {
        name,
        group: u8::try_from(group).unwrap_or(u8::MAX),
        ops: Ops::new(ops),
    })?;
    times.push(CallerTimes { operations: own })?;
    Ok(Draft {
        callers,
        times,
        ops: Vec::new(parts.alloc),
        own: Vec::new(parts.alloc),
        moment: 0,
    })
}

/// The name of the caller of a group, or of the first one.
fn caller_name(groups: &[Name], group: usize) -> Option<Name> {
    match group.checked_sub(1) {
        Some(place) => groups.get(place).copied(),
        None => first_name(groups),
    }
}

/// The first of the names that no group has.
fn first_name(groups: &[Name]) -> Option<Name> {
    let free = FIRST_NAMES.iter().find(|text| !groups.iter().any(|group| group.as_str() == **text));
    Name::new(free?.as_bytes())
}

// The open of a request, by the caller that comes after the others, with what comes before it.
fn add_open(
    parts: Parts,
    scale: &Scale,
    streams: &[DesignStream],
    entry: &RequestEntry,
    draft: &mut Draft,
) -> Result<(), Refusal>
    ensures { OnOk result (opened_so_far draft.new.callers.items draft.new.ops.items ≡ opened_so_far draft.old.callers.items draft.old.ops.items ++ opening_of entry.now ∷ []) }
{
    if draft.callers.len() != usize::from(entry.caller.get()) {
        return Err(Refusal::Wrong(Wrong::Order));
    }
    let time = start_of(scale, streams, entry)?;
    add_later(parts.later, before_opens(time.tick), draft)?;
    add_op(Op::Open(entry.request.chan), time, draft)?;
    Ok(())
}

/// When a request is opened.
fn start_of(
    scale: &Scale,
    streams: &[DesignStream],
    entry: &RequestEntry,
) -> Result<OpTime, Refusal> {
    match streams.get(entry.request.chan.get() as usize) {
        Some(stream) => op_time(scale, stream.start, Key::Start, stream.row),
        None => Err(Refusal::Wrong(Wrong::Order)),
    }
}

// What the caller does up to a moment and opens nothing.
fn add_later(later: &[Later], until: u64, draft: &mut Draft) -> Result<(), Refusal>
    ensures callers { OnOk result (draft.new.callers.items ≡ draft.old.callers.items) }
    ensures same { OnOk result (opened_so_far draft.new.callers.items draft.new.ops.items ≡ opened_so_far draft.old.callers.items draft.old.ops.items) }
{
    let (number, from) = (draft.callers.len(), draft.moment);
    for item in later {
        if usize::from(item.caller) == number && item.moment >= from && item.moment < until {
            add_op(item.what.op(), item.time, draft)?;
        }
    }
    draft.moment = from.max(until);
    Ok(())
}

// One more operation of the caller that comes after the others.
fn add_op(op: Op, time: OpTime, draft: &mut Draft) -> Result<(), Refusal>
    ensures callers { OnOk result (draft.new.callers.items ≡ draft.old.callers.items) }
    ensures opened { OnOk result (opened_so_far draft.new.callers.items draft.new.ops.items ≡ opened_so_far draft.old.callers.items draft.old.ops.items ++ opened_by (length draft.old.callers.items) op) }
{
    draft.own.push(time)?;
    draft.ops.push(op)?;
    Ok(())
}
