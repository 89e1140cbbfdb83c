//! Which links have made an offer to each channel, and in which order.
ghost use Rattle.std.specs.Prelude.{◌≡◌, ℕ, ◌<◌, ◌^◌, [], ◌∷◌, ◌++◌, List, IfOk, OnOk, length, min};
ghost use Rattle.run_record.specs.Hops.{AreHops, hops_at};
ghost use Rattle.run_record.specs.Rows.{hop_among, links_of, offer_by};
ghost use Rattle.net_units.specs.Numbers.{channel_number, link_number};
ghost use Rattle.run_record.specs.declared.done.Done.{Done as Step};

use crate::done::Done;
use link_steps::{Ask, Reply};
use net_units::limits::MOST_LINKS;
use net_units::{ChanNo, LinkNo, OutOfMemory};
use std::alloc::Global;

// The links that have made an offer to a channel.
#[derive(Clone, Copy)]
pub(crate) struct Hops {
    // The place of each link among them, from 1, by the link's number. It is 0 where the link has made no offer, and 255
    // from the 255th on.
    places: [u8; MOST_LINKS as usize],
    // How many offers were made, up to 255.
    offers: u8,
}

impl Hops {
    ghost use Rattle.net_units.specs.Numbers.{link_number};
    ghost use Rattle.run_record.specs.Hops.{AreOffered};

    // Before the first offer.
    const NONE: Hops = Hops {
        places: [0; MOST_LINKS as usize],
        offers: 0,
    };

    // Adds an offer of this link.
    fn add(&mut self, link: LinkNo)
        ensures { (links : List ℕ) → AreOffered links self.old → AreOffered (links ++ link_number link ∷ []) self.new }
    {
        self.offers = self.offers.saturating_add(1);
        let place = usize::from(link.get());
        if self.places[place] == 0 {
            self.places[place] = self.offers;
        }
    }

    // The place of a link.
    fn place_of(&self, link: LinkNo) -> u8
        ensures { (links : List ℕ) → AreOffered links self.now → result ≡ hop_among (link_number link) links }
    {
        self.places[usize::from(link.get())]
    }
}

// The hops of each channel, by its number.
pub(crate) fn hops_of(alloc: Global, entries: &[Done]) -> Result<Vec<Hops>, OutOfMemory>
    ensures { IfOk result (λ table. AreHops entries.now table.items) }
{
    let mut table = Vec::new(alloc);
    for done in entries {
        note(&mut table, done)?;
    }
    Ok(table)
}

// Adds what an entry offers.
pub(crate) fn note(table: &mut Vec<Hops>, done: &Done) -> Result<(), OutOfMemory>
    ensures { OnOk result ((before : List Step) → AreHops before table.old.items → AreHops (before ++ done.now ∷ []) table.new.items) }
{
    match offered(&done.ask, &done.reply) {
        Some(chan) => {
            grow(table, chan)?;
            table[chan.get() as usize].add(done.link);
            Ok(())
        }
        None => Ok(()),
    }
}

// The channel that is made an offer.
fn offered(ask: &Ask, reply: &Reply) -> Option<ChanNo>
    ensures { result ≡ offer_by ask.now reply.now }
{
    match (ask, reply) {
        (Ask::Reserve { chan, .. }, Reply::Offer { .. }) => Some(*chan),
        _ => None,
    }
}

// Gives a channel a place in the table.
fn grow(table: &mut Vec<Hops>, chan: ChanNo) -> Result<(), OutOfMemory>
    ensures same { OnOk result ((c : ℕ) → hops_at table.new.items c ≡ hops_at table.old.items c) }
    ensures place { OnOk result (channel_number chan < length table.new.items) }
{
    let place = chan.get() as usize;
    if table.len() <= place {
        table.resize(place + 1, Hops::NONE)?;
    }
    Ok(())
}

// The hop of a channel that is over a link.
pub(crate) fn hop_at(table: &[Hops], chan: ChanNo, link: LinkNo) -> u8
    ensures { (entries : List Step) → AreHops entries table.now → result ≡ hop_among (link_number link) (links_of (channel_number chan) entries) }
{
    match table.get(chan.get() as usize) {
        Some(hops) => hops.place_of(link),
        None => 0,
    }
}
