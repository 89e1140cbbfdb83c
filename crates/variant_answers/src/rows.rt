//! What all variants come to, side by side.
ghost use Rattle.std.specs.Prelude.{◌≡◌, ℕ, ◌<◌, IfOk, Ok, Some, length, map};
ghost use Rattle.std.specs.List.{slice_get};
ghost use Rattle.variant_answers.specs.Outcomes.{IsOutcomeAt, IsSeat};
ghost use Rattle.variant_answers.specs.declared.outcome.Outcome.{Outcome as Said};
ghost use Rattle.variant_answers.specs.declared.rows.Seat.{Seat as Place};

use crate::outcome::{Outcome, Wanted, outcome_of};
use crate::trouble::Trouble;
use network_variants::Variants;
use std::alloc::{AllocError, Global};
use std::thread;
use std::thread::Threads;

// A variant's place: what it comes to, or why there is no answer.
#[derive(Drop)]
pub(crate) struct Seat {
    outcome: Result<Outcome, Trouble>,
}

impl Seat {
    // Judges the variant of a number.
    fn fill(&mut self, alloc: Global, wanted: Wanted, variants: &Variants, number: usize)
        ensures { IsSeat wanted variants.now number self.new }
    {
        self.outcome = outcome_at(alloc, wanted, variants, number);
    }
}

// What the variant of a number comes to.
fn outcome_at(
    alloc: Global,
    wanted: Wanted,
    variants: &Variants,
    number: usize,
) -> Result<Outcome, Trouble>
    ensures { IfOk result (IsOutcomeAt wanted variants.now number) }
{
    let text = variants.text(alloc, number)?;
    outcome_of(alloc, wanted, text.as_slice())
}

/// What each variant comes to on its own, in their order, by at most so many workers. The answer doesn't depend on how many there are.
pub fn outcomes_of<R: Threads + Sync>(
    rt: &R,
    alloc: Global,
    wanted: Wanted,
    variants: &Variants,
    workers: usize,
) -> Result<Vec<Outcome>, Trouble>
    ensures all { IfOk result (λ outcomes. length outcomes.items ≡ variants.now.count) }
    ensures each { IfOk result (λ outcomes. (n : ℕ) (outcome : Said) → slice_get outcomes.items n ≡ Some outcome → IsOutcomeAt wanted variants.now n outcome) }
{
    let mut seats = empty_seats(alloc, variants.count)?;
    fill_all(rt, alloc, wanted, variants, &mut seats, workers.max(1));
    let outcomes = outcomes_in(alloc, seats)?;
    Ok(outcomes)
}

// So many places with no outcome.
fn empty_seats(alloc: Global, count: usize) -> Result<Vec<Seat>, AllocError>
    ensures { IfOk result (λ seats. length seats.items ≡ count) }
{
    let mut seats = Vec::with_capacity(alloc, count)?;
    for _ in 0..count {
        seats.push(Seat {
            outcome: Err(Trouble::Memory),
        })?;
    }
    Ok(seats)
}

// Judges all variants.
fn fill_all<R: Threads + Sync>(
    rt: &R,
    alloc: Global,
    wanted: Wanted,
    variants: &Variants,
    seats: &mut [Seat],
    workers: usize,
)
    requires workers { 0 < workers }
    ensures long { length seats.new ≡ length seats.old }
    ensures each { (n : ℕ) (x y : Place) → slice_get seats.old n ≡ Some x → slice_get seats.new n ≡ Some y → IsSeat wanted variants.now n y }
{
    thread::for_each_mut(
        rt,
        seats,
        workers,
        &move |place: usize, seat: &mut Seat|
            ensures { IsSeat wanted variants.entry.now place seat.exit.now }
        { seat.fill(alloc, wanted, variants, place) },
    );
}

// The outcomes in these places.
fn outcomes_in(alloc: Global, seats: Vec<Seat>) -> Result<Vec<Outcome>, Trouble>
    ensures { IfOk result (λ outcomes. map Ok outcomes.items ≡ map (λ seat. seat.outcome) seats.items) }
{
    let mut outcomes = Vec::with_capacity(alloc, seats.len())?;
    for seat in seats {
        outcomes.push(seat.outcome?)?;
    }
    Ok(outcomes)
}
