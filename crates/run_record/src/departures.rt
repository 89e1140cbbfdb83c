//! The departures that the entries of a run tell, and their order.
ghost use Rattle.std.specs.Prelude.{◌≡◌, ◌<◌, ◌^◌, ◌++◌, List, IfOk, OnOk};
ghost use Rattle.net_units.specs.Numbers.{channel_number};
ghost use Rattle.link_steps.specs.Lists.{Each};
ghost use Rattle.run_record.specs.Hops.{AreHops};
ghost use Rattle.run_record.specs.Rows.{IsEarly, departures_in, in_order, links_of, row_of, rows_by};
ghost use Rattle.run_record.specs.declared.done.Done.{Done as Step};

use crate::done::Done;
use crate::hops::{Hops, hop_at};
use crate::rows::HopRow;
use link_steps::{Reply, Sent};
use net_units::{LinkNo, OutOfMemory};
use std::alloc::Global;

// The rows that these entries tell, in the order of time, with the hops by this table.
pub(crate) fn departures(
    alloc: Global,
    entries: &[Done],
    table: &[Hops],
) -> Result<Vec<HopRow>, OutOfMemory>
    requires early { Each (λ done. IsEarly done.reply) entries.now }
    ensures { IfOk result (λ rows. (run : List Step) → AreHops run table.now → rows.items ≡ departures_in run entries.now) }
{
    let mut rows = Vec::new(alloc);
    for done in entries {
        push_row(&mut rows, table, done)?;
    }
    Ok(rows)
}

// Adds the row that an entry tells, if it tells one.
fn push_row(rows: &mut Vec<HopRow>, table: &[Hops], done: &Done) -> Result<(), OutOfMemory>
    requires { IsEarly done.now.reply }
    ensures { OnOk result ((run : List Step) → AreHops run table.now → rows.new.items ≡ rows.old.items ++ rows_by run done.now.link done.now.reply) }
{
    match &done.reply {
        Reply::Ticked {
            clock,
            sent: Some(sent),
            ..
        } => {
            rows.push(row(table, done.link, *clock, sent))?;
            Ok(())
        }
        _ => Ok(()),
    }
}

// The row of a packet that a tick at this clock tells as sent.
pub(crate) fn row(table: &[Hops], link: LinkNo, clock: u64, sent: &Sent) -> HopRow
    requires early { clock < 2 ^ 63 }
    ensures { (run : List Step) → AreHops run table.now → result ≡ row_of (links_of (channel_number sent.now.packet.chan) run) link clock sent.now }
{
    HopRow {
        chan: sent.packet.chan,
        number: sent.packet.number,
        hop: hop_at(table, sent.packet.chan, link),
        link,
        size: sent.packet.size,
        at: sent.at,
        eligible: sent.eligible,
        departed: clock + 1,
    }
}

// Puts rows in the order of channel, packet and hop.
pub(crate) fn put_in_order(rows: &mut Vec<HopRow>) -> Result<(), OutOfMemory>
    ensures { OnOk result (rows.new.items ≡ in_order rows.old.items) }
{
    rows.sort_by_key(|row| (row.chan.get(), row.number, row.hop))?;
    Ok(())
}
