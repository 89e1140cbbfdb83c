//! A request that is asked once more, with another delay.
use crate::asking::Point;
use crate::trouble::Trouble;
use answer_tables::{HopRow, Range, delay_ranges, hop_rows, loosened, with_any_jitter};
use call_script::Plan;
use net_units::limits::MOST_DELAY;
use network_files::Network;
use plan_answers::{Trial, verdict_with};
use question_plans::{Change, requests_alone, with_change};
use setup_points::{asked_at, ranges_at};
use setup_protocol::Verdict;
use std::alloc::Global;

/// A request whose jitter doesn't matter, and where it is asked once more.
#[derive(Drop)]
pub(crate) struct Loose {
    plan: Plan,
    point: Point,
    number: usize,
}

impl Loose {
    /// The request of a number.
    pub(crate) fn of(
        alloc: Global,
        network: &Network,
        point: Point,
        number: usize,
    ) -> Result<Loose, Trouble> {
        let plan = &network.plan;
        if number >= plan.requests().len() {
            return Err(Trouble::Rule(7));
        }
        let plan = match point {
            Point::Alone => with_any_jitter(alloc, plan, number)?,
            _ => with_change(alloc, plan, &loosened(plan, number))?,
        };
        Ok(Loose {
            plan,
            point,
            number,
        })
    }

    /// All delays with which it is accepted.
    pub(crate) fn ranges(&self, alloc: Global, network: &Network) -> Result<Vec<Range>, Trouble> {
        if self.number >= self.plan.requests().len() {
            return Err(Trouble::Rule(7));
        }
        match self.point {
            Point::Alone => Ok(delay_ranges(alloc, &self.plan, self.number)?),
            Point::After(start) => {
                let items = network.schedule.items.as_slice();
                Ok(ranges_at(alloc, &self.plan, items, start, self.number)?)
            }
            Point::Never => Ok(Vec::new(alloc)),
        }
    }

    /// What it comes to with this delay, or with the longest that may be asked for, where this is longer.
    pub(crate) fn verdict(
        &self,
        alloc: Global,
        network: &Network,
        delay: u64,
    ) -> Result<Option<Verdict>, Trouble> {
        let number = self.number;
        if number >= self.plan.requests().len() {
            return Err(Trouble::Rule(7));
        }
        let delay = delay.min(MOST_DELAY);
        let change = Change::Delay { number, delay };
        match self.point {
            Point::Alone => Ok(verdict_with(alloc, &self.plan, &change, number)?),
            Point::After(start) => {
                let items = network.schedule.items.as_slice();
                let decided = asked_at(alloc, &self.plan, items, start, &change, number)?;
                Ok(Some(decided.verdict))
            }
            Point::Never => Ok(None),
        }
    }
}

/// What comes of a request that is asked with a delay of a tick, so that nothing is kept for relaxing.
#[derive(Clone, Copy)]
pub(crate) enum Shortest {
    /// Its hops offer so many ticks in all.
    Offered(u64),
    /// A hop refuses it even then, and so it comes to this.
    Refused(Option<Verdict>),
}

/// What comes of the request of a number with a delay of a tick.
pub(crate) fn shortest_of(
    alloc: Global,
    network: &Network,
    point: Point,
    number: usize,
) -> Result<Shortest, Trouble> {
    let plan = &network.plan;
    if number >= plan.requests().len() {
        return Err(Trouble::Rule(7));
    }
    let change = Change::Delay { number, delay: 1 };
    match point {
        Point::Alone => shortest_alone(alloc, plan, &change, number),
        Point::After(start) => {
            let items = network.schedule.items.as_slice();
            let decided = asked_at(alloc, plan, items, start, &change, number)?;
            let entry = &plan.requests()[number];
            let hops = hop_rows(alloc, entry, decided.offers.as_slice(), &None)?;
            Ok(shortest_in(hops.as_slice(), &Some(decided.verdict)))
        }
        Point::Never => Ok(Shortest::Refused(None)),
    }
}

// The same, among the requests alone.
fn shortest_alone(
    alloc: Global,
    plan: &Plan,
    change: &Change,
    number: usize,
) -> Result<Shortest, Trouble> {
    let trial = Trial::play(alloc, requests_alone(alloc, plan, change)?)?;
    if number >= trial.plan.requests().len() {
        return Err(Trouble::Rule(7));
    }
    let offers = trial.offers(alloc, number)?;
    let verdict = trial.verdict(number);
    let entry = &trial.plan.requests()[number];
    let hops = hop_rows(alloc, entry, offers.as_slice(), &None)?;
    Ok(shortest_in(hops.as_slice(), &verdict))
}

// The sum that the last of these hops tells, or the verdict where it offers nothing.
fn shortest_in(hops: &[HopRow], verdict: &Option<Verdict>) -> Shortest {
    match hops.last() {
        Some(
            HopRow {
                offer: Some(offer),
                ..
            },
        ) => Shortest::Offered(offer.sum),
        _ => Shortest::Refused(*verdict),
    }
}
