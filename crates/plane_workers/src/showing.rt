//! Windows for a watcher that may lag: each link makes its steps alone, and of these the ticks that tell something are shown, in the
//! order in which the plane asks for them.
ghost use Rattle.std.specs.Prelude.{◌≡◌, ◌≢◌, ℕ, ◌+◌, ◌-◌, ◌^◌, ◌<◌, ◌≤◌, ◌++◌, ◌∷◌, suc, List, Some, OnOk, false, drop, length};
ghost use Rattle.std.specs.List.{slice_get};
ghost use Rattle.call_script.specs.Tasks.{network_of};
ghost use Rattle.link_quota.specs.Any.{any_clock, any_rules, AnyStands};
ghost use Rattle.link_steps.specs.Legal.{AskFits};
ghost use Rattle.link_steps.specs.Lists.{Each};
ghost use Rattle.link_steps.specs.declared.replies.Entry.{Entry};
ghost use Rattle.plane_workers.specs.Answered.{ticks_in};
ghost use Rattle.plane_workers.specs.Seen.{GoesTo, SeenBetween};
ghost use Rattle.plane_workers.specs.Showing.{Shows};
ghost use Rattle.plane_workers.specs.Tracks.{HasTold, next_clock, track_left, track_rules, track_stands};
ghost use Rattle.plane_workers.specs.Windows.{IsJobOf};
ghost use Rattle.plane_workers.specs.declared.track.Track.{Track as TrackAt};
ghost use Rattle.run_engine.specs.schedules.Lagging.{MayLag};
ghost use Rattle.run_engine.specs.schedules.Quiet.{the_plane};
ghost use Rattle.run_record.specs.declared.done.Done.{Done as Step};
ghost use Rattle.tick_plane.specs.Planes.{flight_in, IsDueLater};
ghost use Rattle.tick_plane.specs.Windows.{window_at};

use crate::desk::link_of;
use crate::job::Job;
use crate::pace::{Pace, Part};
use crate::track::Track;
use call_script::Plan;
use link_steps::Reply;
use net_units::{Gate, OutOfMemory};
use run_engine::Watch;
use std::thread;
use std::thread::Threads;
use tick_plane::{Plane, Window};

// The window of the part, and then more of them, as long as they pay.
pub(crate) fn show_windows<R: Threads + Sync, W: Watch, G: Gate + Sync>(
    job: &Job<R, G>,
    plane: &mut Plane,
    tracks: &mut [Track],
    watch: &mut W,
    part: &Part,
    pace: &mut Pace,
) -> Result<(), OutOfMemory>
    requires laws { MayLag W.saw W.lags }
    requires starts { plane.old.at.ticked ≡ 0 }
    requires workers { 0 < part.now.workers }
    requires job { IsJobOf job.now.plan.now job.now.actor job.now.gap job.now.rounds }
    requires between { (run : List Step) × SeenBetween track_rules track_stands W.saw job.now.plan.now job.now.gap tracks.old plane.old watch.old run }
    requires early { plane.old.at.round < part.now.until }
    requires near { part.now.until ≤ plane.old.at.round + job.now.gap + 1 }
    requires all { part.now.until ≤ job.now.rounds }
    requires rounds { plane.old.rounds ≡ job.now.rounds }
    requires gap { pace.old.gap ≡ job.now.gap }
    ensures goes { OnOk result ((past : List Step) → SeenBetween track_rules track_stands W.saw job.now.plan.now job.now.gap tracks.old plane.old watch.old past → GoesTo (network_of job.now.plan.now) job.now.actor past (SeenBetween track_rules track_stands W.saw job.now.plan.now job.now.gap tracks.new plane.new watch.new)) }
    ensures at { OnOk result (part.now.until ≤ plane.new.at.round) }
    ensures gap { OnOk result (pace.new.gap ≡ job.now.gap) }
    ensures table { OnOk result (W.has_table watch.new ≡ W.has_table watch.old) }
{
    show_noted(job, plane, tracks, watch, part, pace)?;
    while plane.round() < job.rounds {
        let next = pace.next(plane.round(), job.rounds, plane.flights());
        if next.workers < 2 {
            return Ok(());
        }
        show_noted(job, plane, tracks, watch, &next, pace)?;
    }
    Ok(())
}

// The window of the part, which is noted.
fn show_noted<R: Threads + Sync, W: Watch, G: Gate + Sync>(
    job: &Job<R, G>,
    plane: &mut Plane,
    tracks: &mut [Track],
    watch: &mut W,
    part: &Part,
    pace: &mut Pace,
) -> Result<(), OutOfMemory>
    requires laws { MayLag W.saw W.lags }
    requires starts { plane.old.at.ticked ≡ 0 }
    requires workers { 0 < part.now.workers }
    requires job { IsJobOf job.now.plan.now job.now.actor job.now.gap job.now.rounds }
    requires between { (run : List Step) × SeenBetween track_rules track_stands W.saw job.now.plan.now job.now.gap tracks.old plane.old watch.old run }
    requires early { plane.old.at.round < part.now.until }
    requires near { part.now.until ≤ plane.old.at.round + job.now.gap + 1 }
    requires all { part.now.until ≤ plane.old.rounds }
    ensures goes { OnOk result ((past : List Step) → SeenBetween track_rules track_stands W.saw job.now.plan.now job.now.gap tracks.old plane.old watch.old past → GoesTo (network_of job.now.plan.now) job.now.actor past (SeenBetween track_rules track_stands W.saw job.now.plan.now job.now.gap tracks.new plane.new watch.new)) }
    ensures at { OnOk result (plane.new.at.round ≡ part.now.until) }
    ensures starts { OnOk result (plane.new.at.ticked ≡ 0) }
    ensures rounds { OnOk result (plane.new.rounds ≡ plane.old.rounds) }
    ensures gap { OnOk result (pace.new.gap ≡ pace.old.gap) }
    ensures table { OnOk result (W.has_table watch.new ≡ W.has_table watch.old) }
{
    let round = plane.round();
    tell_until(job, plane, tracks, part.until, part.workers)?;
    let busy = show_window(job.plan, plane, tracks, watch, part.until)?;
    pace.note(part.until.saturating_sub(round), busy);
    Ok(())
}

// Each link answers what the plane asks of it until a round begins, as far as the packets on their way tell that.
fn tell_until<R: Threads + Sync, G: Gate + Sync>(
    job: &Job<R, G>,
    plane: &Plane,
    tracks: &mut [Track],
    until: u64,
    workers: usize,
) -> Result<(), OutOfMemory>
    requires starts { plane.now.at.ticked ≡ 0 }
    requires workers { 0 < workers }
    requires few { length tracks.old ≤ 32 }
    requires stand { (n : ℕ) (track : _) → slice_get tracks.old n ≡ Some track → (h : List Entry) × AnyStands track.link h }
    requires fits { (n : ℕ) (track : _) → slice_get tracks.old n ≡ Some track → Each (AskFits (any_rules track.link).shape) (window_at n until plane.now.at) }
    requires early { (n : ℕ) (track : _) → slice_get tracks.old n ≡ Some track → any_clock track.link + ticks_in (window_at n until plane.now.at) < 2 ^ 61 }
    ensures long { OnOk result (length tracks.new ≡ length tracks.old) }
    ensures told { OnOk result ((n : ℕ) (x y : _) → slice_get tracks.old n ≡ Some x → slice_get tracks.new n ≡ Some y → HasTold any_rules AnyStands x.link y.link (window_at n until plane.now.at) (track_left y)) }
{
    let window = plane.window(job.alloc, until)?;
    tell_windows(job, tracks, &window, workers);
    if any_wanted(tracks) {
        return Err(OutOfMemory);
    }
    Ok(())
}

// Each link answers what it is asked in the window, by this many workers.
fn tell_windows<R: Threads + Sync, G: Gate + Sync>(
    job: &Job<R, G>,
    tracks: &mut [Track],
    window: &Window,
    workers: usize,
)
    requires starts { window.now.at.ticked ≡ 0 }
    requires workers { 0 < workers }
    requires few { length tracks.old ≤ 32 }
    requires stand { (n : ℕ) (track : _) → slice_get tracks.old n ≡ Some track → (h : List Entry) × AnyStands track.link h }
    requires fits { (n : ℕ) (track : _) → slice_get tracks.old n ≡ Some track → Each (AskFits (any_rules track.link).shape) (window_at n window.now.until window.now.at) }
    requires early { (n : ℕ) (track : _) → slice_get tracks.old n ≡ Some track → any_clock track.link + ticks_in (window_at n window.now.until window.now.at) < 2 ^ 61 }
    ensures long { length tracks.new ≡ length tracks.old }
    ensures told { (n : ℕ) (x y : _) → slice_get tracks.old n ≡ Some x → slice_get tracks.new n ≡ Some y → y.wanted ≡ false → HasTold any_rules AnyStands x.link y.link (window_at n window.now.until window.now.at) (track_left y) }
{
    let (alloc, gate, actor) = (job.alloc, job.gate, job.actor);
    thread::for_each_mut(
        job.rt,
        tracks,
        workers,
        &move |place: usize, track: &mut Track|
            requires { (place < 32) × (window.now.at.ticked ≡ 0) × ((h : List Entry) × AnyStands track.now.link h) × Each (AskFits (any_rules track.now.link).shape) (window_at place window.now.until window.now.at) × (any_clock track.now.link + ticks_in (window_at place window.now.until window.now.at) < 2 ^ 61) }
            ensures { track.exit.now.wanted ≡ false → HasTold any_rules AnyStands track.entry.now.link track.exit.now.link (window_at place window.entry.now.until window.entry.now.at) (track_left track.exit.now) }
        { track.answer_window(alloc, window, place, gate, actor) },
    );
}

// Whether one of the links has wanted memory.
fn any_wanted(tracks: &[Track]) -> bool
    ensures { result ≡ false → (n : ℕ) (track : _) → slice_get tracks.now n ≡ Some track → track.wanted ≡ false }
{
    tracks.iter().any(|track| track.wanted)
}

// Shows what the links told in the rounds from where the plane stands until this one begins, to which it goes on, and the watcher
// catches up. Answers in how many of them something was told.
fn show_window<W: Watch>(
    plan: &Plan,
    plane: &mut Plane,
    tracks: &mut [Track],
    watch: &mut W,
    until: u64,
) -> Result<u64, OutOfMemory>
    requires laws { MayLag W.saw W.lags }
    requires early { plane.old.at.round < until }
    requires shows { (past : List Step) × Shows W.lags plan.now until plane.old.at.round 0 tracks.old plane.old watch.old past }
    ensures goes { OnOk result ((past : List Step) → Shows W.lags plan.now until plane.old.at.round 0 tracks.old plane.old watch.old past → GoesTo (network_of plan.now) (the_plane (network_of plan.now)) past (SeenBetween track_rules track_stands W.saw plan.now (until - suc plane.old.at.round) tracks.new plane.new watch.new)) }
    ensures at { OnOk result (plane.new.at.round ≡ until) }
    ensures starts { OnOk result (plane.new.at.ticked ≡ 0) }
    ensures rounds { OnOk result (plane.new.rounds ≡ plane.old.rounds) }
    ensures table { OnOk result (W.has_table watch.new ≡ W.has_table watch.old) }
{
    let from = plane.round();
    let busy = show_rounds(plan, plane, tracks, watch, from, until)?;
    let sent = plane.flights();
    plane.skip_to(until);
    let arrived = sent - plane.flights();
    let ticks = (until - from) * tracks.len() as u64;
    watch.catch_up(plan, until, ticks + arrived as u64);
    Ok(busy)
}

// Shows what the links told in the rounds from one until another begins. Answers in how many of them something was told.
fn show_rounds<W: Watch>(
    plan: &Plan,
    plane: &mut Plane,
    tracks: &mut [Track],
    watch: &mut W,
    from: u64,
    until: u64,
) -> Result<u64, OutOfMemory>
    requires laws { MayLag W.saw W.lags }
    requires from { from ≡ plane.old.at.round }
    requires early { from < until }
    requires shows { (past : List Step) × Shows W.lags plan.now until from 0 tracks.old plane.old watch.old past }
    ensures shows { OnOk result ((past : List Step) → Shows W.lags plan.now until from 0 tracks.old plane.old watch.old past → Shows W.lags plan.now until until 0 tracks.new plane.new watch.new past) }
    ensures round { OnOk result (plane.new.at.round ≡ plane.old.at.round) }
    ensures rounds { OnOk result (plane.new.rounds ≡ plane.old.rounds) }
    ensures table { OnOk result (W.has_table watch.new ≡ W.has_table watch.old) }
{
    let mut busy = 0u64;
    for round in from..until {
        if show_round(plan, plane, tracks, watch, round, until)? {
            busy = busy.saturating_add(1);
        }
    }
    Ok(busy)
}

// Shows what the links told in a round, in their order. Answers whether something was.
fn show_round<W: Watch>(
    plan: &Plan,
    plane: &mut Plane,
    tracks: &mut [Track],
    watch: &mut W,
    round: u64,
    until: u64,
) -> Result<bool, OutOfMemory>
    requires laws { MayLag W.saw W.lags }
    requires early { round < until }
    requires shows { (past : List Step) × Shows W.lags plan.now until round 0 tracks.old plane.old watch.old past }
    ensures shows { OnOk result ((past : List Step) → Shows W.lags plan.now until round 0 tracks.old plane.old watch.old past → Shows W.lags plan.now until (round + 1) 0 tracks.new plane.new watch.new past) }
    ensures round { OnOk result (plane.new.at.round ≡ plane.old.at.round) }
    ensures rounds { OnOk result (plane.new.rounds ≡ plane.old.rounds) }
    ensures table { OnOk result (W.has_table watch.new ≡ W.has_table watch.old) }
{
    let mut busy = false;
    for place in 0..tracks.len() {
        if tracks[place].next_clock() == round {
            show(plan, plane, tracks, watch, place, round, until)?;
            busy = true;
        }
    }
    Ok(busy)
}

// Shows what the link of this number told in a round: its packet, if one left, is on its way.
#[inline(always)]
fn show<W: Watch>(
    plan: &Plan,
    plane: &mut Plane,
    tracks: &mut [Track],
    watch: &mut W,
    place: usize,
    round: u64,
    until: u64,
) -> Result<(), OutOfMemory>
    requires laws { MayLag W.saw W.lags }
    requires early { round < until }
    requires inside { place < length tracks.old }
    requires shows { (past : List Step) × Shows W.lags plan.now until round place tracks.old plane.old watch.old past }
    requires told { (track : TrackAt) → slice_get tracks.old place ≡ Some track → next_clock (track_left track) ≡ round }
    ensures shows { OnOk result ((past : List Step) → Shows W.lags plan.now until round place tracks.old plane.old watch.old past → Shows W.lags plan.now until round (place + 1) tracks.new plane.new watch.new past) }
    ensures long { OnOk result (length tracks.new ≡ length tracks.old) }
    ensures round { OnOk result (plane.new.at.round ≡ plane.old.at.round) }
    ensures rounds { OnOk result (plane.new.rounds ≡ plane.old.rounds) }
    ensures table { OnOk result (W.has_table watch.new ≡ W.has_table watch.old) }
{
    let reply = next_told(tracks, place);
    send(plane, reply)?;
    watch.see_told(plan, link_of(place), reply)?;
    pass_told(tracks, place);
    Ok(())
}

// What the link of this number told next. It told something.
#[inline(always)]
fn next_told(tracks: &[Track], place: usize) -> &Reply
    requires inside { place < length tracks.now }
    requires left { (track : TrackAt) → slice_get tracks.now place ≡ Some track → track.shown < length track.told.items }
    ensures { (track : TrackAt) → slice_get tracks.now place ≡ Some track → track_left track ≡ result.now ∷ drop (track.shown + 1) track.told.items }
{
    let track = &tracks[place];
    &track.told[track.shown]
}

// It is shown.
#[inline(always)]
fn pass_told(tracks: &mut [Track], place: usize)
    requires inside { place < length tracks.old }
    requires left { (track : TrackAt) → slice_get tracks.old place ≡ Some track → track.shown < length track.told.items }
    ensures long { length tracks.new ≡ length tracks.old }
    ensures others { (n : ℕ) → n ≢ place → slice_get tracks.new n ≡ slice_get tracks.old n }
    ensures own { (x y : TrackAt) → slice_get tracks.old place ≡ Some x → slice_get tracks.new place ≡ Some y → y ≡ record x { shown = x.shown + 1 } }
{
    tracks[place].shown += 1;
}

// The packet that left a link with this reply is on its way, if one did.
#[inline(always)]
fn send(plane: &mut Plane, reply: &Reply) -> Result<(), OutOfMemory>
    requires later { IsDueLater plane.old.at.round reply.now }
    ensures sent { OnOk result (plane.new.at ≡ record plane.old.at { flights = plane.old.at.flights ++ flight_in reply.now }) }
    ensures links { OnOk result (plane.new.links ≡ plane.old.links) }
    ensures rounds { OnOk result (plane.new.rounds ≡ plane.old.rounds) }
{
    match reply {
        Reply::Ticked { sent, .. } => plane.send(sent),
        _ => Ok(()),
    }
}
