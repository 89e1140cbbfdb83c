//! The word that stamps are drawn from, and the seats of an opening.
ghost use Rattle.std.specs.Prelude.{◌≡◌, ◌≤◌, ◌<◌, ◌+◌, [], IfOk};
ghost use Rattle.net_units.specs.Numbers.{link_number, actor_number};
ghost use Rattle.step_stamp.specs.Lists.{Has};
ghost use Rattle.step_stamp.specs.Views.{new_link, less_link, new_pass, less_actor};

use crate::rule::{Chosen, OpensLink, OpensPass, StampRule};
use crate::seats::{LinkSeat, PassSeat};
use crate::views::{Opening, View};
use atomic_table::{Seat, Table};
use net_units::{ActorNo, LinkNo, OutOfMemory};
use std::alloc::Global;
use std::marker::Brand;

/// The word that stamps are drawn from. It is shared by all threads of a network.
#[derive(Drop)]
pub struct Stamps {
    pub(crate) table: Table<(), View, Opening, StampRule, Global>,
    ghost words: { table.shared.table_id.words ≡ 1 },
    ghost slots: { table.shared.table_id.slots ≡ 0 },
}

impl Stamps {
    ghost use Rattle.step_stamp.specs.Seats.{stamps_table, link_table, pass_table, pass_view, link_view};
    ghost use Rattle.step_stamp.specs.Opening.{AreLinks, ArePasses, IsFirst};

    /// The stamps of a network of 1 to 32 links and 1 to 65 actors, with a seat for each link and one for each actor, in
    /// the order of their numbers. All lists are empty, and nobody has seen a stamp.
    pub fn open(
        alloc: Global,
        links: u32,
        actors: u32,
    ) -> Result<(Stamps, Vec<LinkSeat>, Vec<PassSeat>), OutOfMemory>
        requires links { (1 ≤ links) × (links ≤ 32) }
        requires actors { (1 ≤ actors) × (actors ≤ 65) }
        ensures links { IfOk result (λ r. AreLinks (stamps_table r.0) actors links r.1.items) }
        ensures passes { IfOk result (λ r. ArePasses (stamps_table r.0) actors actors r.2.items) }
    {
        let about = Opening {
            links: u64::from(links),
            actors: u64::from(actors),
        };
        let (table, mut first) = Table::<(), View, Opening, StampRule, Global>::of_words(
            alloc,
            &[0],
            &about,
        )?;
        let stamps = Stamps { table };
        let seats = stamps.link_seats(alloc, &mut first, links as u8, actors as u8)?;
        let passes = stamps.pass_seats(alloc, &mut first, links as u8, actors as u8)?;
        Ok((stamps, seats, passes))
    }

    // The seats of all links, cut from the first seat.
    fn link_seats(
        &self,
        alloc: Global,
        first: &mut Seat<(), View>,
        links: u8,
        actors: u8,
    ) -> Result<Vec<LinkSeat>, OutOfMemory>
        requires table { first.old.table_id ≡ stamps_table self.now }
        requires first { IsFirst links actors 0 0 first.old.me.0 × (first.old.me.1 ≡ []) }
        requires most { links ≤ 32 }
        ensures seats { IfOk result (λ v. AreLinks (stamps_table self.now) actors links v.items) }
        ensures first { IfOk result (λ _. IsFirst links actors links 0 first.new.me.0 × (first.new.me.1 ≡ []) × (first.new.table_id ≡ first.old.table_id)) }
    {
        let mut seats = Vec::new(alloc);
        for n in 0..links {
            let Some(link) = LinkNo::new(n) else {
                unreachable!()
            };
            let seat = self.link_seat::<Brand>(first, link);
            seats.push(seat)?;
        }
        Ok(seats)
    }

    // The seat of one link.
    fn link_seat<C: Chosen>(&self, first: &mut Seat<(), View>, link: LinkNo) -> LinkSeat
        requires table { first.old.table_id ≡ stamps_table self.now }
        requires mine { Has (link_number link) first.old.me.0.links }
        requires chosen { link_number link ≡ C.number }
        ensures seat { (link_table result ≡ stamps_table self.now) × (result.link ≡ link) × (link_view result ≡ new_link (link_number link) first.old.me.0) }
        ensures first { (first.new.table_id ≡ first.old.table_id) × (first.new.me ≡ (less_link (link_number link) first.old.me.0, first.old.me.1)) }
    {
        LinkSeat {
            seat: self.table.shared.split_seat::<OpensLink<C>>(first),
            link,
        }
    }

    // The passes of all actors, cut from the first seat.
    fn pass_seats(
        &self,
        alloc: Global,
        first: &mut Seat<(), View>,
        links: u8,
        actors: u8,
    ) -> Result<Vec<PassSeat>, OutOfMemory>
        requires table { first.old.table_id ≡ stamps_table self.now }
        requires first { IsFirst links actors links 0 first.old.me.0 × (first.old.me.1 ≡ []) }
        requires most { actors ≤ 65 }
        ensures seats { IfOk result (λ v. ArePasses (stamps_table self.now) actors actors v.items) }
    {
        let mut seats = Vec::new(alloc);
        for n in 0..actors {
            let Some(actor) = ActorNo::new(n) else {
                unreachable!()
            };
            let seat = self.pass_seat::<Brand>(first, actor);
            seats.push(seat)?;
        }
        Ok(seats)
    }

    // The pass of one actor.
    fn pass_seat<C: Chosen>(&self, first: &mut Seat<(), View>, actor: ActorNo) -> PassSeat
        requires table { first.old.table_id ≡ stamps_table self.now }
        requires mine { Has (actor_number actor) first.old.me.0.actors }
        requires nothing { first.old.me.0.drawn ≡ [] }
        requires bare { first.old.me.0.shelves ≡ [] }
        requires among { 1 ≤ first.old.me.0.among }
        requires chosen { actor_number actor ≡ C.number }
        ensures seat { (pass_table result ≡ stamps_table self.now) × (result.actor ≡ actor) × (pass_view result ≡ new_pass (actor_number actor) first.old.me.0) }
        ensures first { (first.new.table_id ≡ first.old.table_id) × (first.new.me ≡ (less_actor (actor_number actor) first.old.me.0, first.old.me.1)) }
    {
        PassSeat {
            seat: self.table.shared.split_seat::<OpensPass<C>>(first),
            actor,
            drawn: 0,
        }
    }
}
