//! What a link holds at a point of a run, by what it was asked and has replied until then.
ghost use Rattle.std.specs.Prelude.{◌≤◌, IfOk, OnOk, ◌+◌, length};

use crate::crossings::{few, is_of, place_of};
use call_script::{Plan, RequestEntry};
use link_fill::{Crossing, Held};
use link_steps::{Ask, Reply, Sent};
use net_units::{Bounds, ChanNo, Level, LinkNo};
use run_record::Done;
use std::alloc::{AllocError, Global};

// A reservation, as far as the entries so far tell of it.
#[derive(Clone, Copy)]
struct Seen {
    held: Held,
    // Once it is released, how many packets it has taken or will still take.
    closing: Option<u64>,
    // The tick after which it is told that, if it is.
    released: u64,
    // How many of its packets have left.
    sent: u64,
    // The tick at which the last of them was eligible.
    eligible: u64,
}

// The reservations of a link, by the numbers of their channels, and how many ticks it has made.
#[derive(Drop)]
struct Reservations {
    seen: Vec<Option<Seen>>,
    bounds: Bounds,
    ticks: u64,
}

/// The requests over a link, of one group or of all, with what they hold once it has made these entries of a run. Those that are being set up count
/// with what they are offered, and those that are released until their packets have left.
pub(crate) fn crossings_at(
    alloc: Global,
    plan: &Plan,
    entries: &[Done],
    link: LinkNo,
    group: Option<u8>,
) -> Result<Vec<Crossing>, AllocError>
    ensures { IfOk result (λ crossings. length crossings.items ≤ 1024) }
{
    let requests = plan.requests();
    let mut crossings = Vec::new(alloc);
    let Some(reservations) = reservations_at(alloc, plan, entries, link)? else {
        return Ok(crossings);
    };
    for number in 0..few(requests.len()) {
        let entry = &requests[number];
        if is_of(plan, entry, group) {
            push_held(&mut crossings, entry, &reservations, link)?;
        }
    }
    Ok(crossings)
}

// Adds a request, where it goes over the link.
fn push_held(
    crossings: &mut Vec<Crossing>,
    entry: &RequestEntry,
    reservations: &Reservations,
    link: LinkNo,
) -> Result<(), AllocError>
    ensures { OnOk result (length crossings.new.items ≤ length crossings.old.items + 1) }
{
    let request = &entry.request;
    if place_of(&request.route, link).is_some() {
        crossings.push(Crossing {
            contract: request.contract,
            held: reservations.held_by(request.chan),
        })?;
    }
    Ok(())
}

// The reservations of a link of a plan after these entries.
fn reservations_at(
    alloc: Global,
    plan: &Plan,
    entries: &[Done],
    link: LinkNo,
) -> Result<Option<Reservations>, AllocError> {
    let Some(entry) = plan.links().get(usize::from(link.get())) else {
        return Ok(None);
    };
    let mut reservations = Reservations {
        seen: vec![in alloc; None; plan.requests().len()]?,
        bounds: entry.shape.bounds,
        ticks: 0,
    };
    for done in entries {
        if done.link.get() == link.get() {
            reservations.see(&done.ask, &done.reply);
        }
    }
    Ok(Some(reservations))
}

impl Reservations {
    // Sees the next entry of the link.
    fn see(&mut self, ask: &Ask, reply: &Reply) {
        match (ask, reply) {
            (Ask::Reserve { chan, up_reach, .. }, Reply::Offer { level, reach }) => {
                self.put(*chan, *level, *up_reach, *reach);
            }
            (
                Ask::Relax {
                    chan,
                    level,
                    up_bound,
                },
                Reply::Relaxed { .. },
            ) => {
                self.put(*chan, *level, *up_bound, *level);
            }
            (Ask::Deny { chan }, Reply::Denied) => self.set(*chan, None),
            (Ask::Release { chan, .. }, Reply::Closing { count, .. }) => self.close(*chan, *count),
            (Ask::Tick, Reply::Ticked { clock, sent, .. }) => {
                self.ticks = clock.saturating_add(1);
                self.leave(sent);
            }
            _ => {}
        }
    }

    // A channel has this level, and keeps buffer for these two bounds.
    fn put(&mut self, chan: ChanNo, level: Level, before: u64, reach: Level) {
        let here = if reach.get() <= self.bounds.len() {
            self.bounds.at(reach)
        } else {
            0
        };
        let seen = Seen {
            held: Held {
                level,
                before: u32::try_from(before).unwrap_or(0),
                here,
            },
            closing: None,
            released: 0,
            sent: 0,
            eligible: 0,
        };
        self.set(chan, Some(seen));
    }

    // A channel is released, with so many packets.
    fn close(&mut self, chan: ChanNo, count: u64) {
        if let Some(seen) = self.seen_of(chan) {
            let closed = Seen {
                closing: Some(count),
                released: self.ticks,
                ..seen
            };
            self.set(chan, Some(closed));
        }
    }

    // A packet has left, if one has.
    fn leave(&mut self, sent: &Option<Sent>) {
        let Some(sent) = sent else {
            return;
        };
        if let Some(seen) = self.seen_of(sent.packet.chan) {
            let left = Seen {
                sent: seen.sent.saturating_add(1),
                eligible: sent.eligible,
                ..seen
            };
            self.set(sent.packet.chan, Some(left));
        }
    }

    // What is seen of a channel.
    fn seen_of(&self, chan: ChanNo) -> Option<Seen> {
        *self.seen.get(chan.get() as usize)?
    }

    // Sets what is seen of a channel.
    fn set(&mut self, chan: ChanNo, seen: Option<Seen>) {
        let place = chan.get() as usize;
        if place < self.seen.len() {
            self.seen[place] = seen;
        }
    }

    // What a channel holds.
    fn held_by(&self, chan: ChanNo) -> Option<Held> {
        let seen = self.seen_of(chan)?;
        if self.has_expired(&seen) {
            None
        } else {
            Some(seen.held)
        }
    }

    // Whether the hold of a released one has ended: in the first tick after its release or, where it had packets, once the last has been eligible
    // for as long as the last bound.
    fn has_expired(&self, seen: &Seen) -> bool {
        let Some(count) = seen.closing else {
            return false;
        };
        if self.ticks <= seen.released {
            return false;
        }
        count == 0 || (count == seen.sent && self.hold_end(seen) < self.ticks)
    }

    // The tick in which its hold ends.
    fn hold_end(&self, seen: &Seen) -> u64 {
        seen.eligible.saturating_add(self.last_bound())
    }

    // The bound of the last level.
    fn last_bound(&self) -> u64 {
        let Some(last) = Level::new(self.bounds.len()) else {
            return 0;
        };
        if last.get() <= self.bounds.len() {
            u64::from(self.bounds.at(last))
        } else {
            0
        }
    }
}
