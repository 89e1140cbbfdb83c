//! The hops of the channels of a run while it goes on, and its rows by them.
ghost use Rattle.std.specs.Prelude.{◌≡◌, [], ◌∷◌, ◌++◌, List, IfOk, IfSome, IfNone, OnOk, map, drop, take};
ghost use Rattle.run_record.specs.Hops.{AreHops};
ghost use Rattle.run_record.specs.Rows.{IsEarly, in_order, rows_by};
ghost use Rattle.run_record.specs.ToldHops.{with_hop};
ghost use Rattle.run_record.specs.declared.done.Done.{Done as Step};

use crate::departures::{put_in_order, row};
use crate::done::Done;
use crate::hops::{Hops, hop_at, note};
use crate::rows::{HopRow, HopRows};
use link_steps::Reply;
use net_units::{LinkNo, OutOfMemory};
use std::alloc::Global;

/// Which links have made an offer to each channel, by the entries of a run that were noted so far.
#[derive(Drop)]
pub struct HopTable {
    pub(crate) channels: Vec<Hops>,
}

impl HopTable {
    /// Before the first entry. It takes no memory.
    pub fn new(alloc: Global) -> HopTable
        ensures { AreHops [] result.channels.items }
    {
        let channels = Vec::new(alloc);
        HopTable { channels }
    }

    /// Notes the offer that the next entry tells, if it tells one. An `Err` comes only for want of memory.
    pub fn note(&mut self, done: &Done) -> Result<(), OutOfMemory>
        ensures { OnOk result ((before : List Step) → AreHops before self.old.channels.items → AreHops (before ++ done.now ∷ []) self.new.channels.items) }
    {
        note(&mut self.channels, done)
    }

    /// The row that an entry tells, if it tells one, with its hop by the offers noted so far. A tick that it tells is
    /// before 2^63.
    pub fn row_of(&self, done: &Done) -> Option<HopRow>
        requires { IsEarly done.now.reply }
        ensures some { IfSome result (λ told. (run : List Step) → AreHops run self.now.channels.items → rows_by run done.now.link done.now.reply ≡ told ∷ []) }
        ensures none { IfNone result ((run : List Step) → rows_by run done.now.link done.now.reply ≡ []) }
    {
        self.row_at(done.link, &done.reply)
    }

    /// The row that this reply of a link tells, if it tells one, as [`HopTable::row_of`] does of an entry.
    pub fn row_at(&self, link: LinkNo, reply: &Reply) -> Option<HopRow>
        requires { IsEarly reply.now }
        ensures some { IfSome result (λ told. (run : List Step) → AreHops run self.now.channels.items → rows_by run link reply.now ≡ told ∷ []) }
        ensures none { IfNone result ((run : List Step) → rows_by run link reply.now ≡ []) }
    {
        match reply {
            Reply::Ticked {
                clock,
                sent: Some(sent),
                ..
            } => Some(row(self.channels.as_slice(), link, *clock, sent)),
            _ => None,
        }
    }

    /// These rows in the order of channel, packet and hop, each with its hop by the offers noted so far. An `Err` comes only for want
    /// of memory.
    pub fn in_order(&self, rows: Vec<HopRow>) -> Result<HopRows, OutOfMemory>
        ensures { IfOk result (λ made. (run : List Step) → AreHops run self.now.channels.items → made ≡ in_order (map (with_hop run) rows.items)) }
    {
        let mut told = rows;
        tell_hops(&mut told, self.channels.as_slice());
        put_in_order(&mut told)?;
        Ok(HopRows::new(told))
    }
}

// Gives each row its hop by this table.
fn tell_hops(rows: &mut Vec<HopRow>, table: &[Hops])
    ensures { (run : List Step) → AreHops run table.now → rows.new.items ≡ map (with_hop run) rows.old.items }
{
    for place in 0..rows.len() {
        tell_hop(&mut rows[place], table);
    }
}

// Gives a row its hop by this table.
fn tell_hop(row: &mut HopRow, table: &[Hops])
    ensures { (run : List Step) → AreHops run table.now → row.new ≡ with_hop run row.old }
{
    row.hop = hop_at(table, row.chan, row.link);
}
