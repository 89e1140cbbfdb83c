//! A link on its own, with what it is asked and what it has replied.
ghost use Rattle.std.specs.Prelude.{◌≡◌, ◌+◌, ◌^◌, ◌<◌, [], ◌∷◌, ◌++◌, length, map, OnOk, IfOk, drop, false};
ghost use Rattle.link_steps.specs.Legal.{AskFits};
ghost use Rattle.link_steps.specs.Lists.{Each};
ghost use Rattle.plane_workers.specs.Answered.{IsAnswered, ticks_in};
ghost use Rattle.plane_workers.specs.Batches.{own_asks};

use link_steps::{Ask, LinkStep, Reply};
use net_units::{ActorNo, Gate, LinkNo, OutOfMemory};
use std::alloc::Global;

/// A link, what it is asked next, and what it has replied to that.
#[derive(Drop)]
pub struct Desk<L: LinkStep> {
    pub link: L,
    pub asks: Vec<Ask>,
    pub replies: Vec<Reply>,
    /// How many of the replies are told.
    pub told: usize,
    /// Whether it ran out of memory. The link is given up then.
    pub wanted: bool,
}

impl<L: LinkStep> Desk<L> {
    // Answers those of these asks that go to its link, of this number.
    pub(crate) fn answer_own<G: Gate>(
        &mut self,
        all: &[(LinkNo, Ask)],
        number: usize,
        gate: &G,
        actor: ActorNo,
    )
        requires fits { Each (AskFits (L.link_of self.old.link).shape) (own_asks number all.now) }
        requires early { L.clock_at self.old.link < 2 ^ 60 }
        requires few { length all.now < 2 ^ 60 }
        ensures { self.new.wanted ≡ false → IsAnswered L.link_of L.stands_for self.old.link self.new.link (own_asks number all.now) (drop self.new.told self.new.replies.items) }
    {
        self.told = 0;
        self.asks.clear();
        self.replies.clear();
        let asked = add_own(all, number, &mut self.asks);
        if asked.is_err() {
            self.wanted = true;
            return;
        }
        let answered = answer(
            gate,
            actor,
            &mut self.link,
            self.asks.as_slice(),
            &mut self.replies,
        );
        self.wanted = answered.is_err();
    }

    // The next of its replies that isn't told yet.
    pub(crate) fn next_reply(&mut self) -> Reply
        requires { self.old.told < length self.old.replies.items }
        ensures link { self.new.link ≡ self.old.link }
        ensures told { drop self.old.told self.old.replies.items ≡ result ∷ drop self.new.told self.new.replies.items }
    {
        let reply = self.replies[self.told];
        self.told += 1;
        reply
    }
}

// The link of this number.
pub(crate) fn link_of(number: usize) -> LinkNo
    requires { number < 32 }
    ensures { result.number ≡ number }
{
    match LinkNo::new(number as u8) {
        Some(link) => link,
        None => unreachable!(),
    }
}

// Adds those of these asks that go to the link of this number.
fn add_own(all: &[(LinkNo, Ask)], number: usize, asks: &mut Vec<Ask>) -> Result<(), OutOfMemory>
    ensures { OnOk result (asks.new.items ≡ asks.old.items ++ own_asks number all.now) }
{
    for to in all {
        if usize::from(to.0.get()) == number {
            asks.push(to.1)?;
        }
    }
    Ok(())
}

// Makes these asks of a link, one after the other, and keeps its replies. The gate is called round each.
pub(crate) fn answer<L: LinkStep, G: Gate>(
    gate: &G,
    actor: ActorNo,
    link: &mut L,
    asks: &[Ask],
    replies: &mut Vec<Reply>,
) -> Result<(), OutOfMemory>
    requires fits { Each (AskFits (L.link_of link.old).shape) asks.now }
    requires early { L.clock_at link.old + ticks_in asks.now < 2 ^ 61 }
    requires none { replies.old.items ≡ [] }
    ensures { OnOk result (IsAnswered L.link_of L.stands_for link.old link.new asks.now replies.new.items) }
{
    let number = link.shape().link;
    for ask in asks {
        gate.within(number, actor);
        let reply = link.step(ask)?;
        gate.after(number, actor);
        replies.reserve(1)?;
        replies.push_reserved(reply);
    }
    Ok(())
}

/// A desk for each link, in their order. An `Err` comes only for want of memory.
pub(crate) fn desks_of<L: LinkStep>(
    alloc: Global,
    links: Vec<L>,
) -> Result<Vec<Desk<L>>, OutOfMemory>
    ensures { IfOk result (λ desks. map (λ d. d.link) desks.items ≡ links.items) }
{
    let mut desks = Vec::with_capacity(alloc, links.len())?;
    for link in links {
        desks.push(Desk {
            link,
            asks: Vec::new(alloc),
            replies: Vec::new(alloc),
            told: 0,
            wanted: false,
        })?;
    }
    Ok(desks)
}

/// The links of these desks, in their order. An `Err` comes only for want of memory.
pub(crate) fn links_of<L: LinkStep>(
    alloc: Global,
    desks: Vec<Desk<L>>,
) -> Result<Vec<L>, OutOfMemory>
    ensures { IfOk result (λ links. links.items ≡ map (λ d. d.link) desks.items) }
{
    let mut links = Vec::with_capacity(alloc, desks.len())?;
    for desk in desks {
        links.push(desk.link)?;
    }
    Ok(links)
}
