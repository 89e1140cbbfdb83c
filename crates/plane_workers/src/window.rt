//! A window of rounds, made for each link on its own.
ghost use Rattle.std.specs.Prelude.{◌≡◌, ℕ, ◌+◌, ◌^◌, ◌<◌, ◌≤◌, List, length, false, Some, OnOk};
ghost use Rattle.std.specs.List.{slice_get};
ghost use Rattle.link_steps.specs.Legal.{AskFits};
ghost use Rattle.link_steps.specs.Lists.{Each};
ghost use Rattle.call_script.specs.Tasks.{network_of};
ghost use Rattle.link_quota.specs.Any.{any_clock, any_rules, AnyStands};
ghost use Rattle.plane_workers.specs.Lanes.{lane_left, lane_rules, lane_stands};
ghost use Rattle.plane_workers.specs.Answered.{IsAnswered, ticks_in};
ghost use Rattle.plane_workers.specs.Seen.{GoesTo, SeenBetween};
ghost use Rattle.plane_workers.specs.Windows.{IsJobOf};
ghost use Rattle.run_record.specs.declared.done.Done.{Done as Step};
ghost use Rattle.tick_plane.specs.Windows.{window_at};

use crate::job::Job;
use crate::lane::Lane;
use crate::pace::{Pace, Part};
use crate::telling::tell_all;
use net_units::{Gate, OutOfMemory};
use run_engine::Watch;
use std::thread;
use std::thread::Threads;
use tick_plane::{Plane, Window};

// Each link answers what it is asked in the window, by this many workers.
pub(crate) fn answer_windows<R: Threads + Sync, G: Gate + Sync>(
    job: &Job<R, G>,
    lanes: &mut [Lane],
    window: &Window,
    workers: usize,
)
    requires workers { 0 < workers }
    requires few { length lanes.old ≤ 32 }
    requires fits { (n : ℕ) (lane : _) → slice_get lanes.old n ≡ Some lane → Each (AskFits (any_rules lane.link).shape) (window_at n window.now.until window.now.at) }
    requires early { (n : ℕ) (lane : _) → slice_get lanes.old n ≡ Some lane → any_clock lane.link + ticks_in (window_at n window.now.until window.now.at) < 2 ^ 61 }
    ensures long { length lanes.new ≡ length lanes.old }
    ensures answered { (n : ℕ) (x y : _) → slice_get lanes.old n ≡ Some x → slice_get lanes.new n ≡ Some y → y.wanted ≡ false → IsAnswered any_rules AnyStands x.link y.link (window_at n window.now.until window.now.at) (lane_left y) }
{
    let (alloc, gate, actor) = (job.alloc, job.gate, job.actor);
    thread::for_each_mut(
        job.rt,
        lanes,
        workers,
        &move |place: usize, lane: &mut Lane|
            requires { (place < 32) × Each (AskFits (any_rules lane.now.link).shape) (window_at place window.now.until window.now.at) × (any_clock lane.now.link + ticks_in (window_at place window.now.until window.now.at) < 2 ^ 61) }
            ensures { lane.exit.now.wanted ≡ false → IsAnswered any_rules AnyStands lane.entry.now.link lane.exit.now.link (window_at place window.entry.now.until window.entry.now.at) (lane_left lane.exit.now) }
        { lane.answer_window(alloc, window, place, gate, actor) },
    );
}

// Each link answers what the plane asks of it until a round begins, as far as the packets on their way tell that.
fn answer_until<R: Threads + Sync, G: Gate + Sync>(
    job: &Job<R, G>,
    plane: &Plane,
    lanes: &mut [Lane],
    until: u64,
    workers: usize,
) -> Result<(), OutOfMemory>
    requires workers { 0 < workers }
    requires few { length lanes.old ≤ 32 }
    requires fits { (n : ℕ) (lane : _) → slice_get lanes.old n ≡ Some lane → Each (AskFits (any_rules lane.link).shape) (window_at n until plane.now.at) }
    requires early { (n : ℕ) (lane : _) → slice_get lanes.old n ≡ Some lane → any_clock lane.link + ticks_in (window_at n until plane.now.at) < 2 ^ 61 }
    ensures long { OnOk result (length lanes.new ≡ length lanes.old) }
    ensures answered { OnOk result ((n : ℕ) (x y : _) → slice_get lanes.old n ≡ Some x → slice_get lanes.new n ≡ Some y → IsAnswered any_rules AnyStands x.link y.link (window_at n until plane.now.at) (lane_left y)) }
{
    let window = plane.window(job.alloc, until)?;
    answer_windows(job, lanes, &window, workers);
    if any_wanted(lanes) {
        return Err(OutOfMemory);
    }
    Ok(())
}

// The rounds from where the plane stands until one begins, which is no further than the gap allows: each link answers on its own, by
// this many workers, and then the steps are shown to the watcher of the run in the order in which the plane asks. Answers in how many
// of the rounds something happened.
fn make_window<R: Threads + Sync, W: Watch, G: Gate + Sync>(
    job: &Job<R, G>,
    plane: &mut Plane,
    lanes: &mut [Lane],
    watch: &mut W,
    until: u64,
    workers: usize,
) -> Result<u64, OutOfMemory>
    requires workers { 0 < workers }
    requires job { IsJobOf job.now.plan.now job.now.actor job.now.gap job.now.rounds }
    requires between { (run : List Step) × SeenBetween lane_rules lane_stands W.saw job.now.plan.now job.now.gap lanes.old plane.old watch.old run }
    requires early { plane.old.at.round < until }
    requires near { until ≤ plane.old.at.round + job.now.gap + 1 }
    requires all { until ≤ plane.old.rounds }
    ensures goes { OnOk result ((past : List Step) → SeenBetween lane_rules lane_stands W.saw job.now.plan.now job.now.gap lanes.old plane.old watch.old past → GoesTo (network_of job.now.plan.now) job.now.actor past (SeenBetween lane_rules lane_stands W.saw job.now.plan.now job.now.gap lanes.new plane.new watch.new)) }
    ensures at { OnOk result (until ≤ plane.new.at.round) }
    ensures rounds { OnOk result (plane.new.rounds ≡ plane.old.rounds) }
    ensures table { OnOk result (W.has_table watch.new ≡ W.has_table watch.old) }
{
    let from = plane.round();
    answer_until(job, plane, lanes, until, workers)?;
    tell_all(job.plan, plane, lanes, watch, from, until)
}

// The window of the part, and then more of them, as long as they pay.
pub(crate) fn make_windows<R: Threads + Sync, W: Watch, G: Gate + Sync>(
    job: &Job<R, G>,
    plane: &mut Plane,
    lanes: &mut [Lane],
    watch: &mut W,
    part: &Part,
    pace: &mut Pace,
) -> Result<(), OutOfMemory>
    requires workers { 0 < part.now.workers }
    requires job { IsJobOf job.now.plan.now job.now.actor job.now.gap job.now.rounds }
    requires between { (run : List Step) × SeenBetween lane_rules lane_stands W.saw job.now.plan.now job.now.gap lanes.old plane.old watch.old run }
    requires early { plane.old.at.round < part.now.until }
    requires near { part.now.until ≤ plane.old.at.round + job.now.gap + 1 }
    requires all { part.now.until ≤ job.now.rounds }
    requires rounds { plane.old.rounds ≡ job.now.rounds }
    requires gap { pace.old.gap ≡ job.now.gap }
    ensures goes { OnOk result ((past : List Step) → SeenBetween lane_rules lane_stands W.saw job.now.plan.now job.now.gap lanes.old plane.old watch.old past → GoesTo (network_of job.now.plan.now) job.now.actor past (SeenBetween lane_rules lane_stands W.saw job.now.plan.now job.now.gap lanes.new plane.new watch.new)) }
    ensures at { OnOk result (part.now.until ≤ plane.new.at.round) }
    ensures gap { OnOk result (pace.new.gap ≡ job.now.gap) }
    ensures table { OnOk result (W.has_table watch.new ≡ W.has_table watch.old) }
{
    make_noted(job, plane, lanes, watch, part, pace)?;
    while plane.round() < job.rounds {
        let next = pace.next(plane.round(), job.rounds, plane.flights());
        if next.workers < 2 {
            return Ok(());
        }
        make_noted(job, plane, lanes, watch, &next, pace)?;
    }
    Ok(())
}

// The window of the part, which is noted.
fn make_noted<R: Threads + Sync, W: Watch, G: Gate + Sync>(
    job: &Job<R, G>,
    plane: &mut Plane,
    lanes: &mut [Lane],
    watch: &mut W,
    part: &Part,
    pace: &mut Pace,
) -> Result<(), OutOfMemory>
    requires workers { 0 < part.now.workers }
    requires job { IsJobOf job.now.plan.now job.now.actor job.now.gap job.now.rounds }
    requires between { (run : List Step) × SeenBetween lane_rules lane_stands W.saw job.now.plan.now job.now.gap lanes.old plane.old watch.old run }
    requires early { plane.old.at.round < part.now.until }
    requires near { part.now.until ≤ plane.old.at.round + job.now.gap + 1 }
    requires all { part.now.until ≤ plane.old.rounds }
    ensures goes { OnOk result ((past : List Step) → SeenBetween lane_rules lane_stands W.saw job.now.plan.now job.now.gap lanes.old plane.old watch.old past → GoesTo (network_of job.now.plan.now) job.now.actor past (SeenBetween lane_rules lane_stands W.saw job.now.plan.now job.now.gap lanes.new plane.new watch.new)) }
    ensures at { OnOk result (part.now.until ≤ plane.new.at.round) }
    ensures rounds { OnOk result (plane.new.rounds ≡ plane.old.rounds) }
    ensures gap { OnOk result (pace.new.gap ≡ pace.old.gap) }
    ensures table { OnOk result (W.has_table watch.new ≡ W.has_table watch.old) }
{
    let round = plane.round();
    let busy = make_window(job, plane, lanes, watch, part.until, part.workers)?;
    pace.note(part.until.saturating_sub(round), busy);
    Ok(())
}

// Whether one of the links has wanted memory.
fn any_wanted(lanes: &[Lane]) -> bool
    ensures { result ≡ false → (n : ℕ) (lane : _) → slice_get lanes.now n ≡ Some lane → lane.wanted ≡ false }
{
    lanes.iter().any(|lane| lane.wanted)
}
