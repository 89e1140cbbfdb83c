//! All delays with which a request would be accepted where it is asked at a point of a schedule.
ghost use Rattle.std.specs.Prelude.{◌<◌, IfOk, length};
ghost use Rattle.setup_points.specs.Ranges.{AreRangesAt};

use crate::asked::hops_at;
use crate::fault::PointFault;
use crate::front::copied;
use crate::least::{Question, Sought, is_accepted_with};
use answer_tables::{AskedWithin, HopRow, Range, ranges_asked};
use call_script::{Do, Plan};
use question_plans::Change;
use std::alloc::Global;

/// All delays with which the request of a number would be accepted after so many steps of these items of a schedule: ranges in rising order, with
/// delays between them that are denied. There is none where it is denied with any delay.
pub fn ranges_at(
    alloc: Global,
    plan: &Plan,
    items: &[Do],
    start: usize,
    number: usize,
) -> Result<Vec<Range>, PointFault>
    requires inside { number < length plan.now.requests }
    ensures { IfOk result (λ ranges. AreRangesAt plan.now items.now start number ranges.items) }
{
    let after = AfterSteps {
        items: copied(alloc, items)?,
        start,
    };
    ranges_asked(alloc, plan, number, &after)
}

// After so many steps of these items of a schedule.
#[derive(Drop)]
pub(crate) struct AfterSteps {
    items: Vec<Do>,
    start: usize,
}

impl AskedWithin<PointFault> for AfterSteps {
    ghost use Rattle.setup_points.specs.Ranges.{gives_at};

    ghost gives = { λ after parts number delay accepted. gives_at parts after.items.items after.start number delay accepted };

    fn is_accepted(
        &self,
        alloc: Global,
        plan: &Plan,
        number: usize,
        delay: u64,
    ) -> Result<bool, PointFault> {
        let question = Question {
            start: self.start,
            number,
            sought: Sought::Delay,
        };
        is_accepted_with(alloc, plan, self.items.as_slice(), question, delay)
    }

    fn sum_offered(
        &self,
        alloc: Global,
        plan: &Plan,
        number: usize,
        delay: u64,
    ) -> Result<u64, PointFault> {
        let change = Change::Delay { number, delay };
        let hops = hops_at(
            alloc,
            plan,
            self.items.as_slice(),
            self.start,
            &change,
            number,
        )?;
        Ok(sum_of(hops.as_slice()))
    }
}

// The sum that the last of these hops tells; 0 where it offers nothing.
fn sum_of(hops: &[HopRow]) -> u64 {
    match hops.last() {
        Some(
            HopRow {
                offer: Some(offer),
                ..
            },
        ) => offer.sum,
        _ => 0,
    }
}
