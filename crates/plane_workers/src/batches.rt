//! Asks of several links, made by several workers.
ghost use Rattle.std.specs.Prelude.{◌≡◌, ◌≢◌, ℕ, ◌+◌, ◌^◌, ◌<◌, ◌≤◌, ◌++◌, ◌∷◌, List, [], length, drop, map, false, Some, IfOk, OnOk};
ghost use Rattle.std.specs.List.{slice_get};
ghost use Rattle.net_units.specs.Numbers.{link_number};
ghost use Rattle.link_steps.specs.Legal.{AskFits};
ghost use Rattle.link_steps.specs.Lists.{Each};
ghost use Rattle.link_steps.specs.declared.replies.Entry.{Entry};
ghost use Rattle.plane_workers.specs.Desks.{rules_at, stands_at, left_at};
ghost use Rattle.plane_workers.specs.Answered.{IsAnswered};
ghost use Rattle.link_steps.specs.Split.{Link};
ghost use Rattle.plane_workers.specs.Batches.{AreAhead, MadeInTurn, own_asks};

use crate::desk::{Desk, desks_of, links_of};
use link_steps::{Ask, LinkStep, Reply};
use net_units::{ActorNo, Gate, LinkNo, OutOfMemory};
use std::alloc::Global;
use std::thread;
use std::thread::Threads;

/// Makes these asks, each of the link with its number, by this many workers. It answers the replies that the asks get when they are
/// made one after the other, in their order, and the links, which then stand for the histories that these asks leave (`made`).
///
/// The links stand at the places of their numbers, each ask's link is among them, and each ask meets the conditions on an
/// ask. A worker calls the gate's `within` before each ask and `after` after it, with the ask's link and this actor. An `Err`
/// comes only for want of memory, and the links are given up then.
pub fn batch<R: Threads + Sync, L: LinkStep + Send, G: Gate + Sync>(
    rt: &R,
    alloc: Global,
    links: Vec<L>,
    asks: &[(LinkNo, Ask)],
    workers: u32,
    gate: &G,
    actor: ActorNo,
) -> Result<(Vec<L>, Vec<Reply>), OutOfMemory>
    requires workers { (1 ≤ workers) × (workers ≤ 16) }
    requires order { (n : ℕ) (link : _) → slice_get links.items n ≡ Some link → link_number (L.link_of link).shape.link ≡ n }
    requires among { Each (λ to. link_number to.0 < length links.items) asks.now }
    requires fits { (n : ℕ) (link : _) → slice_get links.items n ≡ Some link → Each (AskFits (L.link_of link).shape) (own_asks n asks.now) }
    requires few { length asks.now < 2 ^ 60 }
    requires early { Each (λ link. L.clock_at link < 2 ^ 60) links.items }
    ensures same { IfOk result (λ r. map L.link_of r.0.items ≡ map L.link_of links.items) }
    ensures made { IfOk result (λ r. (hs : ℕ → List Entry) → ((n : ℕ) (link : _) → slice_get links.items n ≡ Some link → L.stands_for link (hs n)) → (after : ℕ → List Entry) × (MadeInTurn (map L.link_of links.items) hs asks.now r.1.items after × ((n : ℕ) (link : _) → slice_get r.0.items n ≡ Some link → L.stands_for link (after n)))) }
{
    let mut desks = desks_of(alloc, links)?;
    answer_batch(rt, &mut desks, asks, workers as usize, gate, actor);
    if any_wanted(&desks) {
        return Err(OutOfMemory);
    }
    let replies = gather(alloc, &mut desks, asks)?;
    let links = links_of(alloc, desks)?;
    Ok((links, replies))
}

// Each link answers its own asks of these, by this many workers.
fn answer_batch<R: Threads + Sync, L: LinkStep + Send, G: Gate + Sync>(
    rt: &R,
    desks: &mut [Desk<L>],
    asks: &[(LinkNo, Ask)],
    workers: usize,
    gate: &G,
    actor: ActorNo,
)
    requires workers { 0 < workers }
    requires few { length asks.now < 2 ^ 60 }
    requires fits { (n : ℕ) (desk : _) → slice_get desks.old n ≡ Some desk → Each (AskFits (L.link_of desk.link).shape) (own_asks n asks.now) }
    requires early { (n : ℕ) (desk : _) → slice_get desks.old n ≡ Some desk → L.clock_at desk.link < 2 ^ 60 }
    ensures long { length desks.new ≡ length desks.old }
    ensures answered { (n : ℕ) (x y : _) → slice_get desks.old n ≡ Some x → slice_get desks.new n ≡ Some y → y.wanted ≡ false → IsAnswered L.link_of L.stands_for x.link y.link (own_asks n asks.now) (left_at y) }
{
    thread::for_each_mut(
        rt,
        desks,
        workers,
        &move |place: usize, desk: &mut Desk<L>|
            requires { (length asks.now < 2 ^ 60) × Each (AskFits (L.link_of desk.now.link).shape) (own_asks place asks.now) × (L.clock_at desk.now.link < 2 ^ 60) }
            ensures { desk.exit.now.wanted ≡ false → IsAnswered L.link_of L.stands_for desk.entry.now.link desk.exit.now.link (own_asks place asks.entry.now) (drop desk.exit.now.told desk.exit.now.replies.items) }
        { desk.answer_own(asks, place, gate, actor) },
    );
}

// The replies to these asks, in their order, out of those that the links have given.
fn gather<L: LinkStep>(
    alloc: Global,
    desks: &mut [Desk<L>],
    asks: &[(LinkNo, Ask)],
) -> Result<Vec<Reply>, OutOfMemory>
    requires among { Each (λ to. link_number to.0 < length desks.old) asks.now }
    requires has { (n : ℕ) (desk : _) → slice_get desks.old n ≡ Some desk → length (left_at desk) ≡ length (own_asks n asks.now) }
    ensures same { OnOk result (map (λ d. d.link) desks.new ≡ map (λ d. d.link) desks.old) }
    ensures told { IfOk result (λ replies. (links : List Link) (hs : ℕ → List Entry) → AreAhead (rules_at L.link_of) (stands_at L.stands_for) left_at links hs asks.now desks.old → (after : ℕ → List Entry) × (MadeInTurn links hs asks.now replies.items after × ((n : ℕ) (desk : _) → slice_get desks.new n ≡ Some desk → L.stands_for desk.link (after n)))) }
{
    let mut replies = Vec::with_capacity(alloc, asks.len())?;
    for to in asks {
        replies.push(next_reply(desks, usize::from(to.0.get())))?;
    }
    Ok(replies)
}

// The next reply of the link of this number that isn't told yet.
fn next_reply<L: LinkStep>(desks: &mut [Desk<L>], number: usize) -> Reply
    requires inside { number < length desks.old }
    requires left { (desk : _) → slice_get desks.old number ≡ Some desk → desk.told < length desk.replies.items }
    ensures long { length desks.new ≡ length desks.old }
    ensures others { (n : ℕ) → n ≢ number → slice_get desks.new n ≡ slice_get desks.old n }
    ensures link { (x y : _) → slice_get desks.old number ≡ Some x → slice_get desks.new number ≡ Some y → y.link ≡ x.link }
    ensures told { (x y : _) → slice_get desks.old number ≡ Some x → slice_get desks.new number ≡ Some y → drop x.told x.replies.items ≡ result ∷ drop y.told y.replies.items }
{
    desks[number].next_reply()
}

// Whether one of the links has wanted memory.
fn any_wanted<L: LinkStep>(desks: &[Desk<L>]) -> bool
    ensures { result ≡ false → (n : ℕ) (desk : _) → slice_get desks.now n ≡ Some desk → desk.wanted ≡ false }
{
    desks.iter().any(|desk| desk.wanted)
}
