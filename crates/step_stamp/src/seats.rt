//! The seats of links and passes, and the tickets between them.
ghost use Rattle.std.specs.Prelude.{◌≡◌, ◌≤◌, ◌<◌, ◌+◌, ◌^◌, ℕ, [], ◌∷◌, length, take, IfOk, OnErr};
ghost use Rattle.net_units.specs.Numbers.{link_number, actor_number};
ghost use Rattle.step_stamp.specs.Marks.{drawn_for, marks_of};
ghost use Rattle.step_stamp.specs.Views.{known_of};

use crate::marks::Mark;
use crate::rule::{Chosen, Draws, Enters, Gathers, HandsOver, Learns, Sees, Settles, Shows, Takes};
use crate::stamps::Stamps;
use crate::views::View;
use atomic_table::Seat;
use link_steps::Ask;
use net_units::{ActorNo, LinkNo, OutOfMemory};
use std::marker::Brand;

/// The seat of a link. It has the list of the marks entered at the link, and the largest stamp that it has seen.
#[derive(Drop)]
pub struct LinkSeat {
    pub(crate) seat: Seat<(), View>,
    pub(crate) link: LinkNo,
    ghost free: { seat.me.1 ≡ [] },
    ghost links: { seat.me.0.links ≡ link_number link ∷ [] },
    ghost actors: { seat.me.0.actors ≡ [] },
    ghost hand: { seat.me.0.hand ≡ [] },
}

/// The seat of an actor. It has the marks that it has drawn, what it knows of each link's list, and the largest stamp
/// that it has seen. While it has drawn nothing it knows no mark of its actor.
#[derive(Drop)]
pub struct PassSeat {
    pub(crate) seat: Seat<(), View>,
    pub(crate) actor: ActorNo,
    pub(crate) drawn: u64,
    ghost free: { seat.me.1 ≡ [] },
    ghost actors: { take 1 seat.me.0.actors ≡ actor_number actor ∷ [] },
    ghost among: { 1 ≤ seat.me.0.among },
    ghost hand: { seat.me.0.hand ≡ [] },
    ghost count: { drawn ≡ length seat.me.0.drawn },
    ghost fresh: { drawn ≡ 0 → (l : ℕ) → marks_of (actor_number actor) (known_of l seat.me.0) ≡ [] },
}

/// A mark on its way into a link's list.
#[derive(Drop)]
pub struct Ticket {
    seat: Seat<(), View>,
    link: LinkNo,
    mark: Mark,
    ghost free: { seat.me.1 ≡ [] },
    ghost hand: { seat.me.0.hand ≡ drawn_for (link_number link) mark ∷ [] },
    ghost saw: { seat.me.0.seen ≡ mark.stamp },
    ghost links: { seat.me.0.links ≡ [] },
    ghost actors: { seat.me.0.actors ≡ [] },
}

impl PassSeat {
    ghost use Rattle.step_stamp.specs.Views.{saw};
    ghost use Rattle.step_stamp.specs.Seats.{stamps_table, link_table, pass_table, ticket_table, pass_view, link_view, seat_link, knows_of, list_of, Meets, DrawsMark, DrawsNone, Gathered, Settled};

    /// The number of marks that it has drawn, stamps lost to want of memory included.
    pub fn drawn(&self) -> u64
        ensures { result ≡ length (pass_view self.now).drawn }
    {
        self.drawn
    }

    /// The actor that it was opened with.
    pub fn actor(&self) -> ActorNo
        ensures { result ≡ self.now.actor }
    {
        self.actor
    }

    /// Meets a link. What the pass knew of the link begins the link's list, and its own marks there are those that it has
    /// drawn for the link, in their order. It then knows the whole list, and both have seen what either had. Want of
    /// memory leaves all as it was.
    pub fn meet(&mut self, stamps: &Stamps, link: &mut LinkSeat) -> Result<(), OutOfMemory>
        requires pass { pass_table self.old ≡ stamps_table stamps.now }
        requires link { link_table link.old ≡ stamps_table stamps.now }
        ensures met { IfOk result (λ _. Meets (seat_link link.old) (pass_view self.old) (link_view link.old) (pass_view self.new) (link_view link.new)) }
        ensures same { (pass_table self.new ≡ pass_table self.old) × (self.new.actor ≡ self.old.actor) × (link_table link.new ≡ link_table link.old) × (link.new.link ≡ link.old.link) }
        ensures memory { OnErr result ((self.new ≡ self.old) × (link.new ≡ link.old)) }
    {
        self.met::<Brand>(stamps, link);
        Ok(())
    }

    // The same of the link chosen.
    fn met<C: Chosen>(&mut self, stamps: &Stamps, link: &mut LinkSeat)
        requires pass { pass_table self.old ≡ stamps_table stamps.now }
        requires link { link_table link.old ≡ stamps_table stamps.now }
        requires link_is { seat_link link.old ≡ C.number }
        ensures met { Meets (seat_link link.old) (pass_view self.old) (link_view link.old) (pass_view self.new) (link_view link.new) }
        ensures same { (pass_table self.new ≡ pass_table self.old) × (self.new.actor ≡ self.old.actor) × (link_table link.new ≡ link_table link.old) × (link.new.link ≡ link.old.link) }
    {
        let shared = &stamps.table.shared;
        let copy = shared.split_seat::<Shows<C>>(&mut self.seat);
        shared.join_seat::<Enters<C>>(&mut link.seat, copy);
        shared.load::<Learns>(&mut link.seat, 0);
        let back = shared.split_seat::<Shows<C>>(&mut link.seat);
        shared.join_seat::<Takes<C>>(&mut self.seat, back);
        shared.load::<Learns>(&mut self.seat, 0);
    }

    /// Draws a stamp for this ask at this link. The pass has to have met the link (`knows`, `saw`) and drawn fewer than
    /// 2^40 marks (`few`). The stamp is above every stamp that the pass had seen, and so above those of all marks that it
    /// knew of any link and of all that it had drawn; and it is at most 65 * 2^40. After want of memory at most one mark
    /// more is drawn.
    pub fn draw(
        &mut self,
        stamps: &Stamps,
        link: &LinkSeat,
        ask: &Ask,
    ) -> Result<Ticket, OutOfMemory>
        requires pass { pass_table self.old ≡ stamps_table stamps.now }
        requires link { link_table link.now ≡ stamps_table stamps.now }
        requires knows { knows_of self.old (seat_link link.now) ≡ list_of link.now }
        requires saw { (link_view link.now).seen ≤ (pass_view self.old).seen }
        requires few { length (pass_view self.old).drawn < 2 ^ 40 }
        ensures drew { IfOk result (λ t. DrawsMark self.old.actor (seat_link link.now) ask.now (pass_view self.old) (pass_view self.new) t.mark) }
        ensures ticket { IfOk result (λ t. (t.link ≡ link.now.link) × (ticket_table t ≡ stamps_table stamps.now)) }
        ensures same { (pass_table self.new ≡ pass_table self.old) × (self.new.actor ≡ self.old.actor) }
        ensures memory { OnErr result (DrawsNone (pass_view self.old) (pass_view self.new)) }
    {
        Ok(self.drawn_at::<Brand>(stamps, link.link, ask))
    }

    // The same of the link and the ask chosen.
    fn drawn_at<C: Chosen>(&mut self, stamps: &Stamps, link: LinkNo, ask: &Ask) -> Ticket
        requires pass { pass_table self.old ≡ stamps_table stamps.now }
        requires few { length (pass_view self.old).drawn < 2 ^ 40 }
        requires link_is { link_number link ≡ C.number }
        requires draws { (n : ℕ) → C.draws n ≡ drawn_for (link_number link) (record { stamp = n; actor = self.old.actor; ask = ask.now }) ∷ [] }
        ensures drew { DrawsMark self.old.actor (link_number link) ask.now (pass_view self.old) (pass_view self.new) result.mark }
        ensures link_is { result.link ≡ link }
        ensures table { ticket_table result ≡ stamps_table stamps.now }
        ensures same { (pass_table self.new ≡ pass_table self.old) × (self.new.actor ≡ self.old.actor) }
    {
        let shared = &stamps.table.shared;
        let found = shared.fetch_add::<Draws<C>>(&mut self.seat, 0, 1);
        self.drawn += 1;
        let seat = shared.split_seat::<HandsOver<C>>(&mut self.seat);
        Ticket {
            seat,
            link,
            mark: Mark {
                stamp: found + 1,
                actor: self.actor,
                ask: *ask,
            },
        }
    }

    /// How many stamps were drawn by all so far: at least every stamp that the pass had seen. This number then counts as seen.
    pub fn seen(&mut self, stamps: &Stamps) -> u64
        requires pass { pass_table self.old ≡ stamps_table stamps.now }
        ensures least { (pass_view self.old).seen ≤ result }
        ensures saw { pass_view self.new ≡ saw result (pass_view self.old) }
        ensures same { (pass_table self.new ≡ pass_table self.old) × (self.new.actor ≡ self.old.actor) }
    {
        stamps.table.shared.load::<Sees>(&mut self.seat, 0)
    }

    /// Joins another pass's seat into this one at closing. No stamp stands in both drawn lists, and this one's is then its
    /// own followed by the other's, its actors likewise. Of each link it then knows the longer of the two lists, of which
    /// the other is a beginning.
    pub fn gather(&mut self, stamps: &Stamps, other: PassSeat)
        requires this { pass_table self.old ≡ stamps_table stamps.now }
        requires that { pass_table other ≡ stamps_table stamps.now }
        ensures joined { Gathered (pass_view self.old) (pass_view other) (pass_view self.new) }
        ensures same { (pass_table self.new ≡ pass_table self.old) × (self.new.actor ≡ self.old.actor) }
    {
        let PassSeat {
            seat,
            actor: _,
            drawn,
        } = other;
        stamps
            .table
            .shared
            .join_seat::<Gathers>(&mut self.seat, seat);
        stamps.table.shared.load::<Learns>(&mut self.seat, 0);
        self.drawn += drawn;
    }

    /// Joins a link's seat into this one at closing. What this seat knew of the link begins the link's list, and the marks
    /// of its actors there are drawn for the link; where it has all actors of the opening, each mark there is one of these.
    /// It then knows the whole list, and has it: it had no list of this link before, since no two seats are of one link.
    pub fn settle(&mut self, stamps: &Stamps, link: LinkSeat)
        requires this { pass_table self.old ≡ stamps_table stamps.now }
        requires that { link_table link ≡ stamps_table stamps.now }
        ensures joined { Settled (seat_link link) (pass_view self.old) (link_view link) (pass_view self.new) }
        ensures same { (pass_table self.new ≡ pass_table self.old) × (self.new.actor ≡ self.old.actor) }
    {
        self.settle_at::<Brand>(stamps, link);
    }

    // The same of the link chosen.
    fn settle_at<C: Chosen>(&mut self, stamps: &Stamps, link: LinkSeat)
        requires this { pass_table self.old ≡ stamps_table stamps.now }
        requires that { link_table link ≡ stamps_table stamps.now }
        requires chosen { seat_link link ≡ C.number }
        ensures joined { Settled (seat_link link) (pass_view self.old) (link_view link) (pass_view self.new) }
        ensures same { (pass_table self.new ≡ pass_table self.old) × (self.new.actor ≡ self.old.actor) }
    {
        let LinkSeat { seat, link: _ } = link;
        stamps
            .table
            .shared
            .join_seat::<Settles<C>>(&mut self.seat, seat);
        stamps.table.shared.load::<Learns>(&mut self.seat, 0);
    }
}

impl LinkSeat {
    ghost use Rattle.step_stamp.specs.Seats.{stamps_table, link_table, ticket_table, link_view, seat_link, EntersMark};

    /// The number of its link.
    pub fn link(&self) -> LinkNo
        ensures { result ≡ self.now.link }
    {
        self.link
    }

    /// The mark of a ticket goes to the end of the link's list, and its stamp is then seen. The ticket has to be for this
    /// link (`link_is`), with a stamp above what the link has seen (`above`).
    pub fn enter(&mut self, stamps: &Stamps, ticket: Ticket)
        requires link { link_table self.old ≡ stamps_table stamps.now }
        requires ticket { ticket_table ticket ≡ stamps_table stamps.now }
        requires link_is { link_number ticket.link ≡ seat_link self.old }
        requires above { (link_view self.old).seen < ticket.mark.stamp }
        ensures entered { EntersMark (seat_link self.old) (link_view self.old) (link_view self.new) ticket.mark }
        ensures same { (link_table self.new ≡ link_table self.old) × (self.new.link ≡ self.old.link) }
    {
        self.entered_at::<Brand>(stamps, ticket);
    }

    // The same of the link chosen.
    fn entered_at<C: Chosen>(&mut self, stamps: &Stamps, ticket: Ticket)
        requires link { link_table self.old ≡ stamps_table stamps.now }
        requires ticket { ticket_table ticket ≡ stamps_table stamps.now }
        requires link_is { link_number ticket.link ≡ seat_link self.old }
        requires above { (link_view self.old).seen < ticket.mark.stamp }
        requires chosen { seat_link self.old ≡ C.number }
        ensures entered { EntersMark (seat_link self.old) (link_view self.old) (link_view self.new) ticket.mark }
        ensures same { (link_table self.new ≡ link_table self.old) × (self.new.link ≡ self.old.link) }
    {
        let Ticket {
            seat,
            link: _,
            mark: _,
        } = ticket;
        stamps
            .table
            .shared
            .join_seat::<Enters<C>>(&mut self.seat, seat);
    }
}

impl Ticket {
    /// Its mark's stamp.
    pub fn stamp(&self) -> u64
        ensures { result ≡ self.now.mark.stamp }
    {
        self.mark.stamp
    }
}
