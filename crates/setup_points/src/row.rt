//! The row of a request whose own setup begins in the run of a schedule.
ghost use Rattle.std.specs.Prelude.{◌≡◌, ◌<◌, ℕ, Some, IfOk, length};
ghost use Rattle.std.specs.List.{slice_get};
ghost use Rattle.net_units.specs.Numbers.{channel_number};
ghost use Rattle.call_script.specs.declared.entries.RequestEntry.{RequestEntry as Entry};
ghost use Rattle.question_plans.specs.Kept.{changed_plan};
ghost use Rattle.answer_tables.specs.Rows.{loosened, shortened};
ghost use Rattle.setup_points.specs.Least.{IsLeastAt};
ghost use Rattle.setup_points.specs.Rows.{CouldHave, IsDelayAt, IsJitterAt, IsRowAt, delay_told, jitter_told};
ghost use Rattle.setup_points.specs.Runs.{IsRunFor};
ghost use Rattle.setup_points.specs.Starts.{setup_start};

use crate::asked::hops_at;
use crate::fault::PointFault;
use crate::least::{LeastAt, Question, Sought, least_at};
use crate::run::ScheduledRun;
use answer_tables::{HopRow, LeastJitter, RequestRow, hop_rows, loosened, shortened};
use call_script::{Do, Plan};
use plan_answers::Least;
use question_plans::{Change, with_change};
use std::alloc::Global;

/// The row of the request of a number in the run of these items of a schedule: what it comes to there, and what it could have where its setup
/// begins, among the channels that are held then. Where its setup never begins, nothing is known of what it could have, and `Refused(None)`
/// stands for that.
pub fn row_at(
    alloc: Global,
    plan: &Plan,
    items: &[Do],
    run: &ScheduledRun,
    number: usize,
) -> Result<RequestRow, PointFault>
    requires run { IsRunFor plan.now run.now }
    requires inside { number < length plan.now.requests }
    ensures { IfOk result (IsRowAt plan.now items.now run.now number) }
{
    let verdict = run.verdict(plan, number);
    let offers = run.offers(alloc, plan, number)?;
    let hops = hop_rows(alloc, &plan.requests()[number], offers.as_slice(), &verdict)?;
    let could = could_be(alloc, plan, items, run, number, hops.as_slice())?;
    Ok(RequestRow {
        number,
        verdict,
        offers,
        hops,
        least: could.least,
        jitter: could.jitter,
    })
}

// With what a request would be accepted.
#[derive(Clone, Copy)]
pub(crate) struct Could {
    least: Least,
    jitter: LeastJitter,
}

// Nothing is known.
const NOTHING: Could = Could {
    least: Least::Refused(None),
    jitter: LeastJitter::Refused(None),
};

// With what a request would be accepted where its setup begins in a run, in which its hops offer this.
fn could_be(
    alloc: Global,
    plan: &Plan,
    items: &[Do],
    run: &ScheduledRun,
    number: usize,
    hops: &[HopRow],
) -> Result<Could, PointFault>
    requires inside { number < length plan.now.requests }
    ensures { IfOk result (λ could. (entry : Entry) (start : ℕ) → slice_get plan.now.requests number ≡ Some entry → setup_start (channel_number entry.request.chan) run.now.record.entries ≡ Some start → CouldHave plan.now items.now start number could) }
{
    match run.start_of(plan, number) {
        Some(start) => could_have(alloc, plan, items, start, number, hops),
        None => Ok(NOTHING),
    }
}

// With what it would be accepted after so many steps: with what delay, whatever its jitter, and with what jitter, with that delay.
fn could_have(
    alloc: Global,
    plan: &Plan,
    items: &[Do],
    start: usize,
    number: usize,
    hops: &[HopRow],
) -> Result<Could, PointFault>
    requires inside { number < length plan.now.requests }
    ensures { IfOk result (CouldHave plan.now items.now start number) }
{
    let near = near_offer(alloc, plan, items, start, number, hops)?;
    let least = delay_at(alloc, plan, items, start, number, near.sum)?;
    let jitter = jitter_at(alloc, plan, items, start, number, &least, near.last)?;
    Ok(Could { least, jitter })
}

// With what delay it would be accepted, whatever its jitter.
fn delay_at(
    alloc: Global,
    plan: &Plan,
    items: &[Do],
    start: usize,
    number: usize,
    near: u64,
) -> Result<Least, PointFault>
    requires inside { number < length plan.now.requests }
    ensures { IfOk result (IsDelayAt (changed_plan (loosened number plan.now.requests) plan.now) items.now start number) }
{
    let loose = with_change(alloc, plan, &loosened(plan, number))?;
    let least = sought_at(alloc, &loose, items, start, number, Sought::Delay, near)?;
    Ok(delay_told(&least))
}

// With what jitter it would be accepted with its least delay, or with the delay that is wanted where there is none.
fn jitter_at(
    alloc: Global,
    plan: &Plan,
    items: &[Do],
    start: usize,
    number: usize,
    least: &Least,
    near: u64,
) -> Result<LeastJitter, PointFault>
    requires inside { number < length plan.now.requests }
    ensures { IfOk result (IsJitterAt (changed_plan (shortened number least.now) plan.now) items.now start number) }
{
    let short = with_change(alloc, plan, &shortened(number, least))?;
    let jitter = sought_at(alloc, &short, items, start, number, Sought::Jitter, near)?;
    Ok(jitter_told(&jitter))
}

// The least delay or jitter of a plan's request.
fn sought_at(
    alloc: Global,
    plan: &Plan,
    items: &[Do],
    start: usize,
    number: usize,
    sought: Sought,
    near: u64,
) -> Result<LeastAt, PointFault>
    ensures { IfOk result (IsLeastAt plan.now items.now (record { start = start; number = number; sought = sought })) }
{
    if number >= plan.requests().len() {
        return Err(PointFault::Rule { rule: 7 });
    }
    let question = Question {
        start,
        number,
        sought,
    };
    least_at(alloc, plan, items, question, near)
}

// The answer, as a delay.
fn delay_told(least: &LeastAt) -> Least
    ensures { result ≡ delay_told least.now }
{
    match least {
        LeastAt::Ticks(delay) => Least::Delay(*delay),
        LeastAt::Refused(verdict) => Least::Refused(Some(*verdict)),
    }
}

// The answer, as a jitter.
fn jitter_told(least: &LeastAt) -> LeastJitter
    ensures { result ≡ jitter_told least.now }
{
    match least {
        LeastAt::Ticks(jitter) => LeastJitter::Jitter(*jitter),
        LeastAt::Refused(verdict) => LeastJitter::Refused(Some(*verdict)),
    }
}

// What lies near a least delay and a least jitter: the sum of what the hops offer, and what the last offers; 0 where a hop offers nothing.
#[derive(Clone, Copy)]
struct Near {
    sum: u64,
    last: u64,
}

// What the hops of a request offer, with the delay that it wants or, where one refuses that, with a delay of a tick.
fn near_offer(
    alloc: Global,
    plan: &Plan,
    items: &[Do],
    start: usize,
    number: usize,
    hops: &[HopRow],
) -> Result<Near, PointFault>
    requires inside { number < length plan.now.requests }
{
    let near = near_of(hops);
    if near.sum > 0 {
        return Ok(near);
    }
    let change = Change::Delay { number, delay: 1 };
    let offered = hops_at(alloc, plan, items, start, &change, number)?;
    Ok(near_of(offered.as_slice()))
}

// What the last of these hops tells.
fn near_of(hops: &[HopRow]) -> Near {
    match hops.last() {
        Some(
            HopRow {
                offer: Some(offer),
                ..
            },
        ) => Near {
            sum: offer.sum,
            last: offer.bound,
        },
        _ => Near { sum: 0, last: 0 },
    }
}
