//! A link on its own in a window of rounds, for a watcher that may lag.
ghost use Rattle.std.specs.Prelude.{◌≡◌, ◌+◌, ◌^◌, ◌<◌, false, List, IfOk, map};
ghost use Rattle.link_quota.specs.Any.{any_clock, any_rules, AnyStands};
ghost use Rattle.link_steps.specs.Legal.{AskFits};
ghost use Rattle.link_steps.specs.Lists.{Each};
ghost use Rattle.link_steps.specs.declared.replies.Entry.{Entry};
ghost use Rattle.plane_workers.specs.Answered.{ticks_in};
ghost use Rattle.plane_workers.specs.Tracks.{HasTold, next_clock, track_left};
ghost use Rattle.tick_plane.specs.Windows.{window_at};

use crate::desk::link_of;
use crate::told::answer_asked;
use link_quota::AnyLink;
use link_steps::Reply;
use net_units::{ActorNo, Gate, OutOfMemory};
use std::alloc::Global;
use tick_plane::{Asked, Window};

// A link, what it is asked in a window, and those of its replies that tell something.
#[derive(Drop)]
pub(crate) struct Track {
    pub(crate) link: AnyLink,
    pub(crate) asked: Vec<Asked>,
    pub(crate) told: Vec<Reply>,
    // How many of them are shown.
    pub(crate) shown: usize,
    // Whether it ran out of memory. The link is given up then.
    pub(crate) wanted: bool,
}

impl Track {
    // Answers what its link, of this number, is asked in a window.
    pub(crate) fn answer_window<G: Gate>(
        &mut self,
        alloc: Global,
        window: &Window,
        number: usize,
        gate: &G,
        actor: ActorNo,
    )
        requires number { number < 32 }
        requires starts { window.now.at.ticked ≡ 0 }
        requires stands { (h : List Entry) × AnyStands self.old.link h }
        requires fits { Each (AskFits (any_rules self.old.link).shape) (window_at number window.now.until window.now.at) }
        requires early { any_clock self.old.link + ticks_in (window_at number window.now.until window.now.at) < 2 ^ 61 }
        ensures { self.new.wanted ≡ false → HasTold any_rules AnyStands self.old.link self.new.link (window_at number window.now.until window.now.at) (track_left self.new) }
    {
        self.shown = 0;
        self.asked.clear();
        self.told.clear();
        let asked = window.asked(alloc, link_of(number), &mut self.asked);
        if asked.is_err() {
            self.wanted = true;
            return;
        }
        let answered = answer_asked(
            gate,
            actor,
            &mut self.link,
            self.asked.as_slice(),
            &mut self.told,
        );
        self.wanted = answered.is_err();
    }

    // The clock of the next of its replies that isn't shown yet, or `u64::MAX` where all are.
    pub(crate) fn next_clock(&self) -> u64
        ensures { result ≡ next_clock (track_left self.now) }
    {
        match self.told.get(self.shown) {
            Some(Reply::Ticked { clock, .. }) => *clock,
            _ => u64::MAX,
        }
    }
}

// A track for each link, in their order. An `Err` comes only for want of memory.
pub(crate) fn tracks_of(alloc: Global, links: Vec<AnyLink>) -> Result<Vec<Track>, OutOfMemory>
    ensures { IfOk result (λ tracks. map (λ t. t.link) tracks.items ≡ links.items) }
{
    let mut tracks = Vec::with_capacity(alloc, links.len())?;
    for link in links {
        tracks.push(Track {
            link,
            asked: Vec::new(alloc),
            told: Vec::new(alloc),
            shown: 0,
            wanted: false,
        })?;
    }
    Ok(tracks)
}

// The links of these tracks, in their order. An `Err` comes only for want of memory.
pub(crate) fn links_on(alloc: Global, tracks: Vec<Track>) -> Result<Vec<AnyLink>, OutOfMemory>
    ensures { IfOk result (λ links. links.items ≡ map (λ t. t.link) tracks.items) }
{
    let mut links = Vec::with_capacity(alloc, tracks.len())?;
    for track in tracks {
        links.push(track.link)?;
    }
    Ok(links)
}
