//! What a type that acts as a link owes.
ghost use Rattle.std.specs.Prelude.{◌≡◌, ℕ, ◌^◌, ◌<◌, List, ◌∷◌, IfOk, OnErr};
ghost use Rattle.link_steps.specs.declared.asks.Ask.{Ask};
ghost use Rattle.link_steps.specs.declared.replies.Entry.{Entry};
ghost use Rattle.link_steps.specs.Legal.{AskFits};
ghost use Rattle.link_steps.specs.Replies.{reply_to};
ghost use Rattle.link_steps.specs.Split.{Link, SplitFits};
ghost use Rattle.link_steps.specs.Scan.{clock_of, clock_with};

use crate::asks::Ask;
use crate::replies::Reply;
use crate::shape::LinkShape;
use net_units::OutOfMemory;

/// A link that is asked one step at a time.
///
/// It stands for a history when what it keeps is what the rules give for that history. For every history that it stands
/// for, a step gives the legal reply at that point, and the link then stands for that history with the one entry added,
/// newest first.
pub trait LinkStep: Drop {
    /// The link as the rules see it: its shape, and how it is split.
    ghost link_of: { Self → Link };

    /// The number of its next tick.
    ghost clock_at: { Self → ℕ };

    /// Whether it stands for this history, newest first.
    ghost stands_for: { Self → List Entry → Type 0 };

    /// Its shape, which never changes.
    fn shape(&self) -> LinkShape
        ensures { result ≡ (link_of self.now).shape };

    /// The number of its next tick, which is the number of ticks that it has made.
    fn clock(&self) -> u64
        ensures { result ≡ clock_at self.now };

    /// Makes one step. The ask has to keep the limits of its numbers (`fits`), and the clock has to be below 2^61
    /// (`early`). A reply that is a refusal leaves the link as it was, and so does want of memory.
    fn step(&mut self, ask: &Ask) -> Result<Reply, OutOfMemory>
        requires fits { AskFits (link_of self.old).shape ask.now }
        requires early { clock_at self.old < 2 ^ 61 }
        ensures same { link_of self.new ≡ link_of self.old }
        ensures legal { IfOk result (λ reply. (h : List Entry) → stands_for self.old h → reply ≡ reply_to (link_of self.old) h ask.now) }
        ensures entered { IfOk result (λ reply. (h : List Entry) → stands_for self.old h → stands_for self.new (record { ask = ask.now; reply = reply } ∷ h)) }
        ensures memory { OnErr result ((h : List Entry) → stands_for self.old h → stands_for self.new h) }

        // The same for the clock, where no history is at hand.
        ensures ticked { IfOk result (λ _. clock_at self.new ≡ clock_with ask.now (clock_at self.old)) }
        ensures stopped { OnErr result (clock_at self.new ≡ clock_at self.old) };

    /// The clock is that of every history that the link stands for.
    ghost tells_time: { (link : Self) (h : List Entry) → stands_for link h → clock_at link ≡ clock_of h };

    /// A link that stands for a history has a split that fits it.
    ghost is_fit: { (link : Self) (h : List Entry) → stands_for link h → SplitFits (link_of link) };
}
