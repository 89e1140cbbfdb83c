//! A link as plain lists: its rows in the order of their reserves, and its packets in the order of their arrival. It keeps no
//! sum, no index, no calendar and no line, and goes over all rows and packets for each answer. Generated lists of asks run
//! through it and through a `LinkState`. It has a rate of a unit a tick, three levels and the whole test.
ghost use Rattle.std.specs.Prelude.{◌<◌, IfSome, length};

use link_steps::{Ask, LinkShape, Refusal, Reply};
use net_units::ChanNo;
use row::Row;
use serving::Packet;
use std::alloc::Global;
use std::test::Fail;

mod carrying;
mod row;
mod serving;
mod setup;

#[derive(Drop)]
pub(super) struct PlainLink {
    alloc: Global,
    shape: LinkShape,
    // The bounds of the levels.
    bounds: [u64; 3],
    clock: u64,
    // How many offers it has made, and how many packets it has taken.
    offers: u64,
    taken: u64,
    rows: Vec<Row>,
    here: Vec<Packet>,
    // The packet that occupies it, with the tick at which it started.
    on: Option<(Packet, u64)>,
    // The best-effort packets that are planned and left: the tick and the size of each.
    best: Vec<(u64, u32)>,
}

impl PlainLink {
    // A link of this shape, whose levels have these bounds.
    pub(super) fn new(alloc: Global, shape: LinkShape, bounds: [u64; 3]) -> PlainLink {
        PlainLink {
            alloc,
            shape,
            bounds,
            clock: 0,
            offers: 0,
            taken: 0,
            rows: Vec::new(alloc),
            here: Vec::new(alloc),
            on: None,
            best: Vec::new(alloc),
        }
    }

    // The reply to an ask.
    pub(super) fn answer(&mut self, ask: &Ask) -> Result<Reply, Fail> {
        match ask {
            Ask::Reserve { .. } => self.reserve(ask),
            Ask::Relax {
                chan,
                level,
                up_bound,
            } => Ok(self.relax(*chan, *level, *up_bound)),
            Ask::Deny { chan } => Ok(self.deny(*chan)),
            Ask::Submit {
                chan,
                count,
                gap,
                size,
            } => self.submit(*chan, *count, *gap, *size),
            Ask::Release { chan, upstream } => Ok(self.release(*chan, *upstream)),
            Ask::Arrive { packet } => self.arrive(packet),
            Ask::Tick => self.tick(),
            Ask::Pour { count, gap, size } => self.pour(*count, *gap, *size),
        }
    }

    // The place of the channel's row.
    fn place_of(&self, chan: ChanNo) -> Option<usize>
        ensures { IfSome result (λ place. place < length self.now.rows.items) }
    {
        self.rows
            .iter()
            .position(|row| row.chan.get() == chan.get())
    }
}

// The reply of a refusal.
fn refused(refusal: Refusal) -> Reply {
    Reply::Refused(refusal)
}
