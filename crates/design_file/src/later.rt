//! The operations that open nothing: sends, best-effort packets and closes, each at its tick.
ghost use Rattle.std.specs.Prelude.{◌≡◌, ℕ, []};
ghost use Rattle.call_script.specs.Parts.{opened_by};

use crate::refusal::{Key, Refusal, Wrong};
use crate::times::{OpTime, op_time};
use call_script::{LinkEntry, Op, RequestEntry};
use design_text::{Design, DesignPour, DesignStream};
use field_units::{Misfit, Scale};
use net_units::{ChanNo, LinkNo};
use std::alloc::Global;

/// An operation that opens nothing, of the caller of this number.
#[derive(Clone, Copy)]
pub(crate) struct Later {
    pub(crate) caller: u8,
    pub(crate) time: OpTime,
    /// Twice its tick, and one more where it isn't a close: in one tick closes come before opens, and all others after them.
    pub(crate) moment: u64,
    pub(crate) what: What,
}

/// What it does.
#[derive(Clone, Copy)]
pub(crate) enum What {
    Send {
        chan: ChanNo,
        count: u64,
        gap: u64,
        size: u32,
    },
    Pour {
        link: LinkNo,
        count: u64,
        gap: u64,
        size: u32,
    },
    Close(ChanNo),
}

impl What {
    // The operation.
    pub(crate) fn op(&self) -> Op
        ensures { (n : ℕ) → opened_by n result ≡ [] }
    {
        match self {
            What::Send {
                chan,
                count,
                gap,
                size,
            } => Op::Send {
                chan: *chan,
                count: *count,
                gap: *gap,
                size: *size,
            },
            What::Pour {
                link,
                count,
                gap,
                size,
            } => Op::Pour {
                link: *link,
                count: *count,
                gap: *gap,
                size: *size,
            },
            What::Close(chan) => Op::Close(*chan),
        }
    }
}

/// The moment just before the opens of a tick.
pub(crate) fn before_opens(tick: u64) -> u64 {
    tick.saturating_mul(2).saturating_add(1)
}

/// What is done beside the opens, in the order of time.
pub(crate) fn later_ops(
    alloc: Global,
    scale: &Scale,
    design: &Design,
    links: &[LinkEntry],
    requests: &[RequestEntry],
) -> Result<Vec<Later>, Refusal> {
    let mut later = Vec::new(alloc);
    for (stream, entry) in design.streams.iter().zip(requests) {
        add_send(scale, stream, entry.request.chan, &mut later)?;
        add_close(scale, stream, entry.request.chan, &mut later)?;
    }
    for pour in &design.pours {
        add_pour(scale, pour, links, &mut later)?;
    }
    later.sort_by_key(|item| item.moment)?;
    Ok(later)
}

/// Adds the send of a stream's packets, where it has any.
fn add_send(
    scale: &Scale,
    stream: &DesignStream,
    chan: ChanNo,
    later: &mut Vec<Later>,
) -> Result<(), Refusal> {
    if stream.count == 0 {
        return Ok(());
    }
    let gap = scale
        .gap(stream.pace)
        .map_err(|misfit| at(Key::Every, misfit))?;
    let size = scale
        .size(stream.source.size)
        .map_err(|misfit| at(Key::Size, misfit))?;
    let time = op_time(scale, stream.start, Key::Start, stream.row)?;
    later.push(Later {
        caller: stream.group,
        time,
        moment: before_opens(time.tick),
        what: What::Send {
            chan,
            count: stream.count,
            gap: u64::from(gap),
            size,
        },
    })?;
    Ok(())
}

/// Adds the close of a stream, where it ends.
fn add_close(
    scale: &Scale,
    stream: &DesignStream,
    chan: ChanNo,
    later: &mut Vec<Later>,
) -> Result<(), Refusal> {
    let Some(end) = stream.end else {
        return Ok(());
    };
    let time = op_time(scale, end, Key::End, stream.row)?;
    later.push(Later {
        caller: stream.group,
        time,
        moment: time.tick.saturating_mul(2),
        what: What::Close(chan),
    })?;
    Ok(())
}

/// Adds the packets of a best-effort stream, which are the first caller's.
fn add_pour(
    scale: &Scale,
    pour: &DesignPour,
    links: &[LinkEntry],
    later: &mut Vec<Later>,
) -> Result<(), Refusal> {
    let entry = links
        .iter()
        .find(|entry| entry.name == pour.link)
        .ok_or(Refusal::Wrong(Wrong::UnknownLink))?;
    let gap = scale
        .gap(pour.pace)
        .map_err(|misfit| at(Key::Every, misfit))?;
    let size = scale
        .size(pour.size)
        .map_err(|misfit| at(Key::Size, misfit))?;
    let time = op_time(scale, pour.start, Key::Start, pour.row)?;
    later.push(Later {
        caller: 0,
        time,
        moment: before_opens(time.tick),
        what: What::Pour {
            link: entry.shape.link,
            count: pour.count,
            gap: u64::from(gap),
            size,
        },
    })?;
    Ok(())
}

/// A number at a key that has none in the scenario.
fn at(key: Key, misfit: Misfit) -> Refusal {
    Refusal::Misfit { key, misfit }
}
