//! What a run tells of a link.
ghost use Rattle.std.specs.Prelude.{◌≡◌, ℕ, ◌+◌, ◌∷◌, ◌<◌, ◌≤◌, ◌^◌, List, length};
ghost use Rattle.link_steps.specs.Quiet.{quiet_reply};
ghost use Rattle.link_steps.specs.Scan.{clock_with};
ghost use Rattle.link_steps.specs.declared.asks.Ask.TheVariants.{Tick as AskTick};
ghost use Rattle.link_steps.specs.declared.replies.Entry.{Entry};
ghost use Rattle.channel_report.specs.Links.{asks_best, one_if};
ghost use Rattle.channel_report.specs.Tallies.{IsTally, IsToldTally};

use link_steps::{Ask, Reply};

// The counts of a link.
#[derive(Clone, Copy)]
pub(crate) struct LinkTally {
    // Its clock.
    pub(crate) clock: u64,
    // The channels' packets that have departed.
    pub(crate) sent: u64,
    // The source packets that were dropped.
    pub(crate) dropped: u128,
    // The best-effort packets that have departed.
    pub(crate) best_sent: u64,
    // The best-effort packets that were lost.
    pub(crate) best_lost: u64,
    // The pours that were refused.
    pub(crate) pours_refused: u64,
}

impl LinkTally {
    // Before the first entry.
    pub(crate) const NOTHING: LinkTally = LinkTally {
        clock: 0,
        sent: 0,
        dropped: 0,
        best_sent: 0,
        best_lost: 0,
        pours_refused: 0,
    };

    // Counts an entry.
    pub(crate) fn add(&mut self, ask: &Ask, reply: &Reply)
        requires { (h : List Entry) × (IsTally h self.old × (length h < 2 ^ 60)) }
        ensures { (h : List Entry) → IsTally h self.old → IsTally (record { ask = ask.now; reply = reply.now } ∷ h) self.new }
    {
        self.clock += ticks(ask);
        match reply {
            Reply::Ticked {
                full,
                sent,
                best_sent,
                best_lost,
                ..
            } => {
                self.sent += one(sent.is_some());
                self.dropped += wide(*full);
                self.best_sent += one(*best_sent);
                self.best_lost += one(*best_lost);
            }
            Reply::Refused(_) => self.pours_refused += pours(ask),
            _ => {}
        }
    }

    // Counts what a tick tells, and leaves the clock.
    #[inline(always)]
    pub(crate) fn tell(&mut self, reply: &Reply)
        requires { (h : List Entry) × (IsToldTally h self.old × (length h < 2 ^ 60)) }
        ensures { (h : List Entry) → IsToldTally h self.old → IsToldTally (record { ask = AskTick; reply = reply.now } ∷ h) self.new }
    {
        if let Reply::Ticked {
            full,
            sent,
            best_sent,
            best_lost,
            ..
        } = reply
        {
            self.sent += one(sent.is_some());
            self.dropped += wide(*full);
            self.best_sent += one(*best_sent);
            self.best_lost += one(*best_lost);
        }
    }

    // Counts a tick in which nothing happens.
    #[inline(always)]
    pub(crate) fn pass(&mut self)
        requires { (h : List Entry) × (IsTally h self.old × (length h < 2 ^ 60)) }
        ensures { (h : List Entry) (clock : ℕ) → IsTally h self.old → IsTally (record { ask = AskTick; reply = quiet_reply clock } ∷ h) self.new }
    {
        self.clock += 1;
    }
}

// Whether the link's clock goes on: by how many ticks.
fn ticks(ask: &Ask) -> u64
    ensures value { (t : ℕ) → clock_with ask.now t ≡ result + t }
    ensures most { result ≤ 1 }
{
    match ask {
        Ask::Tick => 1,
        _ => 0,
    }
}

// One, if it holds.
fn one(holds: bool) -> u64
    ensures value { result ≡ one_if holds }
    ensures most { result ≤ 1 }
{
    if holds { 1 } else { 0 }
}

// A count of packets, as large as their sum may be.
fn wide(count: u32) -> u128
    ensures value { result ≡ count }
    ensures few { result < 4294967296 }
{
    u128::from(count)
}

// How many pours are refused where this ask is.
fn pours(ask: &Ask) -> u64
    ensures value { result ≡ one_if (asks_best ask.now) }
    ensures most { result ≤ 1 }
{
    match ask {
        Ask::Pour { .. } => 1,
        _ => 0,
    }
}
