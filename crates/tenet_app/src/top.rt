//! The public call that the program makes.
ghost use Rattle.std.specs.Prelude.{◌≡◌, ◌↔◌, ℕ, Bool, true, false, IsSome, None, Some, map, string_bytes};
ghost use Rattle.tenet_app.specs.Auditing.{Audits, audit_words};
ghost use Rattle.tenet_app.specs.Making.{Makes, make_words};
ghost use Rattle.tenet_app.specs.Playing.{CountsRise, Plays, play_words};
ghost use Rattle.tenet_app.specs.Racing.{Races, race_words};
ghost use Rattle.tenet_app.specs.Working.{work_words};
ghost use Rattle.tenet_app.specs.declared.status.Status.TheVariants.{Done, Words};

use crate::auditing::audit;
use crate::making::make;
use crate::playing::play;
use crate::racing::race;
use crate::status::{Ended, Status};
use crate::words::{to_audit, to_make, to_play, to_race};
use crate::working::{to_work, work};
use byte_ends::{Sink, Source};
use net_units::Gate;
use std::alloc::Global;
use std::sync::Wait;
use std::thread::Threads;

/// Does what the words after the program's name ask for, over a source and a sink.
///
/// `play` is accepted alone, or with `--packets` before or after it. It reads a scenario, plays its schedule, and writes the report
/// of its run, with the table of packets where it is asked for. `play --workers N` is accepted, too, with N from 1 to 16, and with
/// `--packets` at any place beside it but before N. It writes the same bytes, whatever N is, and at most N workers make the rounds of
/// the plane.
///
/// `race` is accepted alone, or with `--packets` before or after it. It reads a scenario and makes a race of its plan: each caller
/// and the plane make their steps in a thread of their own, where the machine can start one. It writes the schedule that the race has
/// followed and the report of its run, and hands back the journals and passes of the race.
///
/// `make NUMBER SIZE` is accepted, three words with a number from 0 to 2,147,483,647 and a size from 1 to 1,024, in decimal. It reads
/// nothing, and writes the summary of a run by turns of the load that is made from these.
///
/// `audit` is accepted alone. It reads a scenario, the line `report`, a report and its table of packets, and writes in one line what
/// an audit finds in the table. Other words read nothing and write nothing.
///
/// A race may wait, and `--workers` joins threads; no other part does either. The gate is called round each step of a race, and
/// round each ask of a round that workers make.
pub fn top<R: Threads + Wait + Sync, S: Source, K: Sink, G: Gate + Sync>(
    rt: &R,
    alloc: Global,
    words: &[String],
    source: &mut S,
    sink: &mut K,
    gate: &G,
) -> Ended
    ensures words { (result.status ≡ Status.Words) ↔ ((work_words (map string_bytes words.now) ≡ None) × (play_words (map string_bytes words.now) ≡ None) × (race_words (map string_bytes words.now) ≡ None) × (make_words (map string_bytes words.now) ≡ None) × (audit_words (map string_bytes words.now) ≡ false)) }
    ensures nothing { result.status ≡ Status.Words → (source.new ≡ source.old) × (sink.new ≡ sink.old) }
    ensures plays { (packets : Bool) → play_words (map string_bytes words.now) ≡ Some packets → Plays packets result.status
        (record { left = S.left source.old; read_faults = S.faults source.old; written = K.written sink.old; write_faults = K.faults sink.old })
        (record { left = S.left source.new; read_faults = S.faults source.new; written = K.written sink.new; write_faults = K.faults sink.new }) }
    ensures works { (packets : Bool) (workers : ℕ) → work_words (map string_bytes words.now) ≡ Some (packets, workers) → Plays packets result.status
        (record { left = S.left source.old; read_faults = S.faults source.old; written = K.written sink.old; write_faults = K.faults sink.old })
        (record { left = S.left source.new; read_faults = S.faults source.new; written = K.written sink.new; write_faults = K.faults sink.new }) }
    ensures races { (packets : Bool) → race_words (map string_bytes words.now) ≡ Some packets → Races packets result.status result.raced
        (record { left = S.left source.old; read_faults = S.faults source.old; written = K.written sink.old; write_faults = K.faults sink.old })
        (record { left = S.left source.new; read_faults = S.faults source.new; written = K.written sink.new; write_faults = K.faults sink.new }) }
    ensures raced { IsSome result.raced ↔ (IsSome (race_words (map string_bytes words.now)) × (result.status ≡ Status.Done)) }
    ensures makes { (number size : ℕ) → make_words (map string_bytes words.now) ≡ Some (number, size) → Makes number size result.status (K.written sink.old) (K.written sink.new) (K.faults sink.old) (K.faults sink.new) }
    ensures unread { (number size : ℕ) → make_words (map string_bytes words.now) ≡ Some (number, size) → source.new ≡ source.old }
    ensures audits { audit_words (map string_bytes words.now) ≡ true → Audits result.status
        (record { left = S.left source.old; read_faults = S.faults source.old; written = K.written sink.old; write_faults = K.faults sink.old })
        (record { left = S.left source.new; read_faults = S.faults source.new; written = K.written sink.new; write_faults = K.faults sink.new }) }
    ensures counts { CountsRise
        (record { left = S.left source.old; read_faults = S.faults source.old; written = K.written sink.old; write_faults = K.faults sink.old })
        (record { left = S.left source.new; read_faults = S.faults source.new; written = K.written sink.new; write_faults = K.faults sink.new }) }
{
    if let Some((packets, workers)) = to_work(words) {
        return Ended {
            status: work(rt, alloc, packets, workers, source, sink, gate),
            raced: None,
        };
    }
    match (to_play(words), to_race(words), to_make(words)) {
        (Some(packets), _, _) => Ended {
            status: play(alloc, packets, source, sink),
            raced: None,
        },
        (None, Some(packets), _) => race(rt, alloc, packets, source, sink, gate),
        (None, None, Some((number, size))) => Ended {
            status: make(alloc, number, size, sink),
            raced: None,
        },
        (None, None, None) => Ended {
            status: if to_audit(words) {
                audit(alloc, source, sink)
            } else {
                Status::Words
            },
            raced: None,
        },
    }
}
