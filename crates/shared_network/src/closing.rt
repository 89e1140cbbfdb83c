//! The end of a network.
ghost use Rattle.std.specs.Prelude.{◌≡◌, ◌<◌, ◌≤◌, ℕ, [], length, map, IfOk, IfErr, IsPermutation, vec_capacity};
ghost use Rattle.link_steps.specs.Lists.{Each};
ghost use Rattle.step_stamp.specs.Lists.{Has, Differ, up_to};
ghost use Rattle.step_stamp.specs.Seats.{stamps_table, pass_table, pass_view};
ghost use Rattle.shared_network.specs.Closing.{IsClosed, HaveGivenUp, number_of};
ghost use Rattle.shared_network.specs.Gathering.{AreAll, AreGathered, IsBelow, IsSettled, AreSettled};

use crate::network::Network;
use link_ledger::{Home, Journal, LockedLink, Pass};
use link_steps::LinkStep;
use net_units::{Listed, OutOfMemory};
use std::alloc::Global;
use step_stamp::{PassSeat, Stamps};

/// Journals in their order.
pub type Journals = Listed<Journal>;

/// Passes in their order.
pub type Passes = Listed<Pass>;

/// What is left of a network: the journals of its links, in their order, and the passes, each with its own entries and
/// without its seat.
#[derive(Drop)]
pub struct Closed {
    /// The journal of each link.
    pub journals: Journals,
    /// The passes.
    pub passes: Passes,
}

/// Memory ran out before the network was closed.
#[derive(Drop)]
pub struct CloseFault<L: LinkStep, H: Home> {
    /// The network as it was.
    pub network: Network<L, H>,
    /// The passes as they were.
    pub passes: Passes,
}

// The memory that closing takes.
#[derive(Drop)]
struct Room {
    journals: Vec<Journal>,
    passes: Vec<Pass>,
}

impl<L: LinkStep + Send, H: Home> Network<L, H> {
    /// Closes the network, once no thread shares it. The passes are all those of its opening, in any order (`all`); each has its
    /// seat, and none is spent. They give their seats up and keep their own entries (`passes`). Each journal is legal and its stamps
    /// rise; no stamp stands twice in all journals; each own entry stands in its journal at its place; each entry of a journal
    /// is the own entry of exactly one pass; and a pass's own entries are in order of stamp (`closed`).
    ///
    /// The call takes its memory before it changes anything. Want of memory, and nothing else, makes it hand all back as it was (`fault`).
    pub fn close(self, alloc: Global, passes: Vec<Pass>) -> Result<Closed, CloseFault<L, H>>
        requires all { AreAll H.table H.owners H.links passes.items }
        ensures closed { IfOk result (λ closed. IsClosed H.links passes.items closed.journals) }
        ensures passes { IfOk result (λ closed. HaveGivenUp passes.items closed.passes) }
        ensures fault { IfErr result (λ fault. (fault.network ≡ self) × (fault.passes ≡ passes.items)) }
    {
        let Ok(room) = Room::new(alloc, self.links.len(), passes.len()) else {
            return Err(CloseFault {
                network: self,
                passes: Passes::new(passes),
            });
        };
        let Network { stamps, links } = self;
        let (seat, passes) = gather::<H>(&stamps, passes, room.passes);
        let journals = settle(&stamps, seat, links, room.journals);
        Ok(Closed {
            journals: Journals::new(journals),
            passes: Passes::new(passes),
        })
    }
}

impl Room {
    // Room for this many links and passes.
    fn new(alloc: Global, links: usize, passes: usize) -> Result<Room, OutOfMemory>
        ensures journals { IfOk result (λ room. (room.journals.items ≡ []) × (links ≤ vec_capacity room.journals)) }
        ensures passes { IfOk result (λ room. (room.passes.items ≡ []) × (passes ≤ vec_capacity room.passes)) }
    {
        Ok(Room {
            journals: Vec::with_capacity(alloc, links)?,
            passes: Vec::with_capacity(alloc, passes)?,
        })
    }
}

// The seats of all passes joined into the first one's, and the passes without them.
fn gather<H: Home>(
    stamps: &Stamps,
    passes: Vec<Pass>,
    mut closed: Vec<Pass>,
) -> (PassSeat, Vec<Pass>)
    requires table { stamps_table stamps.now ≡ H.table }
    requires all { AreAll H.table H.owners H.links passes.items }
    requires empty { closed.items ≡ [] }
    requires room { length passes.items ≤ vec_capacity closed }
    ensures gathered { AreGathered (length passes.items) passes.items (pass_view result.0) }
    ensures table { pass_table result.0 ≡ H.table }
    ensures passes { HaveGivenUp passes.items result.1.items }
{
    let mut rest = passes.into_iter();
    let Some(mut first) = rest.next() else {
        unreachable!()
    };
    let Some(mut seat) = first.give_seat() else {
        unreachable!()
    };
    closed.push_reserved(first);
    for pass in rest {
        let mut pass = pass;
        let Some(other) = pass.give_seat() else {
            unreachable!()
        };
        seat.gather(stamps, other);
        closed.push_reserved(pass);
    }
    (seat, closed)
}

// The journals of all links, whose seats are joined into that of all passes. Each stands at the number of the link that lay
// under its lock: no two seats are of one link, so each link has one.
fn settle<L: LinkStep + Send, H: Home>(
    stamps: &Stamps,
    seat: PassSeat,
    links: Vec<LockedLink<L, H>>,
    journals: Vec<Journal>,
) -> Vec<Journal>
    requires table { (stamps_table stamps.now ≡ H.table) × (pass_table seat ≡ H.table) }
    requires acts { (a : ℕ) → a < (pass_view seat).among → Has a (pass_view seat).actors }
    requires all { length links.items ≡ length H.links }
    requires empty { journals.items ≡ [] }
    requires room { length links.items ≤ vec_capacity journals }
    ensures { AreSettled H.links (pass_view seat) result.items }
{
    let mut journals = take_journals(stamps, seat, links, journals);
    put_in_order(&mut journals);
    journals
}

// The journals of all links, in the order of their locks.
fn take_journals<L: LinkStep + Send, H: Home>(
    stamps: &Stamps,
    mut seat: PassSeat,
    links: Vec<LockedLink<L, H>>,
    mut journals: Vec<Journal>,
) -> Vec<Journal>
    requires table { (stamps_table stamps.now ≡ H.table) × (pass_table seat ≡ H.table) }
    requires acts { (a : ℕ) → a < (pass_view seat).among → Has a (pass_view seat).actors }
    requires empty { journals.items ≡ [] }
    requires room { length links.items ≤ vec_capacity journals }
    ensures settled { Each (IsSettled H.links (pass_view seat)) result.items }
    ensures below { Each (IsBelow (length H.links)) result.items }
    ensures apart { Differ (map number_of result.items) }
    ensures all { length result.items ≡ length links.items }
{
    for link in links {
        let (journal, link_seat) = link.into_journal();
        seat.settle(stamps, link_seat);
        journals.push_reserved(journal);
    }
    journals
}

// Puts journals of different links, as many as there are links, in the order of the links.
fn put_in_order(journals: &mut [Journal])
    requires below { Each (IsBelow (length journals.old)) journals.old }
    requires apart { Differ (map number_of journals.old) }
    ensures same { IsPermutation journals.old journals.new }
    ensures order { map number_of journals.new ≡ up_to (length journals.old) }
{
    journals.sort_unstable_by_key(|journal| journal.link.get());
}
