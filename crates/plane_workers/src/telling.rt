//! The steps of a window, shown to the watcher of the run in the order in which the plane asks.
ghost use Rattle.std.specs.Prelude.{◌≡◌, ◌+◌, ◌-◌, ◌<◌, ◌≤◌, List, length, IfSome, IsNone, OnOk, None, Some};
ghost use Rattle.call_script.specs.Tasks.{network_of};
ghost use Rattle.net_units.specs.Numbers.{link_number};
ghost use Rattle.link_steps.specs.Lists.{Each};
ghost use Rattle.link_steps.specs.Quiet.{quiet_reply};
ghost use Rattle.link_steps.specs.declared.replies.Reply.{Reply as Replies};
ghost use Rattle.run_engine.specs.runs.Turns.{plane_most};
ghost use Rattle.run_engine.specs.schedules.Quiet.{the_plane};
ghost use Rattle.plane_workers.specs.Lanes.{HandsOn, HasLeft, HaveHanded, IsNextSaid, IsQuietNext, lane_left, lane_rules, lane_stands, next_run};
ghost use Rattle.plane_workers.specs.Seen.{GoesTo, SeenWithin};
ghost use Rattle.plane_workers.specs.declared.lane.Lane.{Lane as LaneAt};
ghost use Rattle.run_record.specs.declared.done.Done.{Done as Entry};
ghost use Rattle.std.specs.List.{slice_get};
ghost use Rattle.tick_plane.specs.Planes.{plane_ask};
ghost use Rattle.tick_plane.specs.QuietRounds.{HasQuietRounds};

use crate::lane::Lane;
use call_script::Plan;
use link_steps::{Ask, Reply};
use net_units::{LinkNo, OutOfMemory};
use run_engine::Watch;
use tick_plane::Plane;

// The plane's steps from where it stands until round `until` begins, each shown to the watcher of the run. Each link has answered
// what it is asked until then. Answers how many of these rounds weren't at rest.
pub(crate) fn tell_all<W: Watch>(
    plan: &Plan,
    plane: &mut Plane,
    lanes: &mut [Lane],
    watch: &mut W,
    from: u64,
    until: u64,
) -> Result<u64, OutOfMemory>
    requires within { (run : List Entry) × SeenWithin lane_rules lane_stands lane_left W.saw plan.now from until lanes.old plane.old watch.old run }
    ensures goes { OnOk result ((past : List Entry) → SeenWithin lane_rules lane_stands lane_left W.saw plan.now from until lanes.old plane.old watch.old past → GoesTo (network_of plan.now) (the_plane (network_of plan.now)) past (SeenWithin lane_rules lane_stands lane_left W.saw plan.now from until lanes.new plane.new watch.new)) }
    ensures over { OnOk result (until ≤ plane.new.at.round) }
    ensures rounds { OnOk result (plane.new.rounds ≡ plane.old.rounds) }
    ensures table { OnOk result (W.has_table watch.new ≡ W.has_table watch.old) }
{
    let first = plane.round();
    let mut rested = 0u64;
    while plane.round() < until {
        let more = tell_some(plan, plane, lanes, watch, from, until)?;
        rested = rested.saturating_add(more);
    }
    Ok(until.saturating_sub(first).saturating_sub(rested))
}

// The plane's next rounds where all rests in them, or else its next step. Answers how many rounds were at rest.
fn tell_some<W: Watch>(
    plan: &Plan,
    plane: &mut Plane,
    lanes: &mut [Lane],
    watch: &mut W,
    from: u64,
    until: u64,
) -> Result<u64, OutOfMemory>
    requires within { (run : List Entry) × SeenWithin lane_rules lane_stands lane_left W.saw plan.now from until lanes.old plane.old watch.old run }
    requires early { plane.old.at.round < until }
    ensures goes { OnOk result ((past : List Entry) → SeenWithin lane_rules lane_stands lane_left W.saw plan.now from until lanes.old plane.old watch.old past → GoesTo (network_of plan.now) (the_plane (network_of plan.now)) past (SeenWithin lane_rules lane_stands lane_left W.saw plan.now from until lanes.new plane.new watch.new)) }
    ensures fewer { OnOk result (plane_most plane.new.links plane.new.rounds plane.new.at < plane_most plane.old.links plane.old.rounds plane.old.at) }
    ensures rounds { OnOk result (plane.new.rounds ≡ plane.old.rounds) }
    ensures table { OnOk result (W.has_table watch.new ≡ W.has_table watch.old) }
{
    let rest = rounds_at_rest(plane, lanes, until);
    if rest > 0 {
        tell_rest(plan, plane, lanes, watch, from, until, rest)?;
        return Ok(rest);
    }
    tell_one(plan, plane, lanes, watch, from, until)?;
    Ok(0)
}

// For how many rounds before this one the plane and the links rest, as far as it can tell.
fn rounds_at_rest(plane: &Plane, lanes: &[Lane], until: u64) -> u64
    ensures plane { 1 ≤ result → HasQuietRounds plane.now.rounds result plane.now.at }
    ensures lanes { 1 ≤ result → Each (IsQuietNext plane.now.at.round result) lanes.now }
    ensures within { 1 ≤ result → plane.now.at.round + result ≤ until }
{
    let round = plane.round();
    let most = plane.quiet_rounds().min(until.saturating_sub(round));
    if most == 0 {
        return 0;
    }
    least_quiet(lanes, round, most)
}

// How many quiet ticks each of these lanes hands on next at least, the first of them at this clock, but at most so many.
fn least_quiet(lanes: &[Lane], clock: u64, most: u64) -> u64
    ensures most { result ≤ most }
    ensures quiet { 1 ≤ result → Each (IsQuietNext clock result) lanes.now }
{
    let mut ticks = most;
    for lane in lanes {
        ticks = ticks.min(lane.quiet_from(clock));
        if ticks == 0 {
            return 0;
        }
    }
    ticks
}

// The plane's next rounds, in which all rests.
fn tell_rest<W: Watch>(
    plan: &Plan,
    plane: &mut Plane,
    lanes: &mut [Lane],
    watch: &mut W,
    from: u64,
    until: u64,
    rounds: u64,
) -> Result<(), OutOfMemory>
    requires within { (run : List Entry) × SeenWithin lane_rules lane_stands lane_left W.saw plan.now from until lanes.old plane.old watch.old run }
    requires some { 1 ≤ rounds }
    requires plane { HasQuietRounds plane.old.rounds rounds plane.old.at }
    requires lanes { Each (IsQuietNext plane.old.at.round rounds) lanes.old }
    requires over { plane.old.at.round + rounds ≤ until }
    ensures goes { OnOk result ((past : List Entry) → SeenWithin lane_rules lane_stands lane_left W.saw plan.now from until lanes.old plane.old watch.old past → GoesTo (network_of plan.now) (the_plane (network_of plan.now)) past (SeenWithin lane_rules lane_stands lane_left W.saw plan.now from until lanes.new plane.new watch.new)) }
    ensures fewer { OnOk result (plane_most plane.new.links plane.new.rounds plane.new.at < plane_most plane.old.links plane.old.rounds plane.old.at) }
    ensures rounds { OnOk result (plane.new.rounds ≡ plane.old.rounds) }
    ensures table { OnOk result (W.has_table watch.new ≡ W.has_table watch.old) }
{
    let first = plane.round();
    pass_lanes(lanes, first, rounds);
    plane.stride(rounds);
    watch.rested(plan, first, rounds)?;
    Ok(())
}

// Each lane hands on so many quiet ticks, the first of them at this clock.
fn pass_lanes(lanes: &mut [Lane], clock: u64, ticks: u64)
    requires some { 1 ≤ ticks }
    requires quiet { Each (IsQuietNext clock ticks) lanes.old }
    ensures { HaveHanded clock ticks lanes.old lanes.new }
{
    for lane in lanes.iter_mut() {
        lane.pass_quiet(clock, ticks);
    }
}

// The plane's next step, whose reply its link has given already.
fn tell_one<W: Watch>(
    plan: &Plan,
    plane: &mut Plane,
    lanes: &mut [Lane],
    watch: &mut W,
    from: u64,
    until: u64,
) -> Result<(), OutOfMemory>
    requires within { (run : List Entry) × SeenWithin lane_rules lane_stands lane_left W.saw plan.now from until lanes.old plane.old watch.old run }
    requires early { plane.old.at.round < until }
    ensures goes { OnOk result ((past : List Entry) → SeenWithin lane_rules lane_stands lane_left W.saw plan.now from until lanes.old plane.old watch.old past → GoesTo (network_of plan.now) (the_plane (network_of plan.now)) past (SeenWithin lane_rules lane_stands lane_left W.saw plan.now from until lanes.new plane.new watch.new)) }
    ensures fewer { OnOk result (plane_most plane.new.links plane.new.rounds plane.new.at < plane_most plane.old.links plane.old.rounds plane.old.at) }
    ensures rounds { OnOk result (plane.new.rounds ≡ plane.old.rounds) }
    ensures table { OnOk result (W.has_table watch.new ≡ W.has_table watch.old) }
{
    match plane.next_tick() {
        Some(link) => tell_asked(plan, plane, lanes, watch, from, until, link, &Ask::Tick),
        None => {
            let Some((link, ask)) = plane.next_ask() else {
                unreachable!()
            };
            tell_asked(plan, plane, lanes, watch, from, until, link, &ask)
        }
    }
}

// The plane's next step, which asks this link this.
fn tell_asked<W: Watch>(
    plan: &Plan,
    plane: &mut Plane,
    lanes: &mut [Lane],
    watch: &mut W,
    from: u64,
    until: u64,
    link: LinkNo,
    ask: &Ask,
) -> Result<(), OutOfMemory>
    requires within { (run : List Entry) × SeenWithin lane_rules lane_stands lane_left W.saw plan.now from until lanes.old plane.old watch.old run }
    requires early { plane.old.at.round < until }
    requires asked { plane_ask plane.old.rounds plane.old.at ≡ Some (link, ask.now) }
    ensures goes { OnOk result ((past : List Entry) → SeenWithin lane_rules lane_stands lane_left W.saw plan.now from until lanes.old plane.old watch.old past → GoesTo (network_of plan.now) (the_plane (network_of plan.now)) past (SeenWithin lane_rules lane_stands lane_left W.saw plan.now from until lanes.new plane.new watch.new)) }
    ensures fewer { OnOk result (plane_most plane.new.links plane.new.rounds plane.new.at < plane_most plane.old.links plane.old.rounds plane.old.at) }
    ensures rounds { OnOk result (plane.new.rounds ≡ plane.old.rounds) }
    ensures table { OnOk result (W.has_table watch.new ≡ W.has_table watch.old) }
{
    match next_quiet(lanes, usize::from(link.get())) {
        Some(clock) => {
            plane.pass();
            watch.passed(plan, link, clock)?;
            Ok(())
        }
        None => tell_replied(plan, plane, lanes, watch, from, until, link, ask),
    }
}

// The plane's next step, which asks this link this, and whose reply is written out.
fn tell_replied<W: Watch>(
    plan: &Plan,
    plane: &mut Plane,
    lanes: &mut [Lane],
    watch: &mut W,
    from: u64,
    until: u64,
    link: LinkNo,
    ask: &Ask,
) -> Result<(), OutOfMemory>
    requires within { (run : List Entry) × SeenWithin lane_rules lane_stands lane_left W.saw plan.now from until lanes.old plane.old watch.old run }
    requires early { plane.old.at.round < until }
    requires asked { plane_ask plane.old.rounds plane.old.at ≡ Some (link, ask.now) }
    requires written { (lane : LaneAt) → slice_get lanes.old (link_number link) ≡ Some lane → next_run lane ≡ None }
    ensures goes { OnOk result ((past : List Entry) → SeenWithin lane_rules lane_stands lane_left W.saw plan.now from until lanes.old plane.old watch.old past → GoesTo (network_of plan.now) (the_plane (network_of plan.now)) past (SeenWithin lane_rules lane_stands lane_left W.saw plan.now from until lanes.new plane.new watch.new)) }
    ensures fewer { OnOk result (plane_most plane.new.links plane.new.rounds plane.new.at < plane_most plane.old.links plane.old.rounds plane.old.at) }
    ensures rounds { OnOk result (plane.new.rounds ≡ plane.old.rounds) }
    ensures table { OnOk result (W.has_table watch.new ≡ W.has_table watch.old) }
{
    plane.ready()?;
    let place = usize::from(link.get());
    let reply = next_reply(lanes, place);
    plane.take_expected(reply);
    watch.see_plane(plan, link, ask, reply)?;
    hand_on(lanes, place);
    Ok(())
}

// The next reply of the link of this number that isn't handed on yet. It is written out.
fn next_reply(lanes: &[Lane], number: usize) -> &Reply
    requires inside { number < length lanes.now }
    requires written { (lane : LaneAt) → slice_get lanes.now number ≡ Some lane → next_run lane ≡ None }
    requires left { (lane : LaneAt) → slice_get lanes.now number ≡ Some lane → HasLeft lane }
    ensures { (lane : LaneAt) → slice_get lanes.now number ≡ Some lane → IsNextSaid result.now lane }
{
    lanes[number].next_reply()
}

// It is handed on.
fn hand_on(lanes: &mut [Lane], number: usize)
    requires inside { number < length lanes.old }
    requires left { (lane : LaneAt) → slice_get lanes.old number ≡ Some lane → lane.told < length lane.said.items }
    ensures { (reply : Replies) → ((lane : LaneAt) → slice_get lanes.old number ≡ Some lane → IsNextSaid reply lane) → HandsOn number reply lanes.old lanes.new }
{
    lanes[number].told += 1;
}

// The clock of the quiet tick that the link of this number hands on next, where it does; then it is handed on.
fn next_quiet(lanes: &mut [Lane], number: usize) -> Option<u64>
    requires inside { number < length lanes.old }
    ensures stays { IsNone result → lanes.new ≡ lanes.old }
    ensures written { IsNone result → (lane : LaneAt) → slice_get lanes.old number ≡ Some lane → next_run lane ≡ None }
    ensures told { IfSome result (λ clock. HandsOn number (quiet_reply clock) lanes.old lanes.new) }
{
    lanes[number].next_quiet()
}
