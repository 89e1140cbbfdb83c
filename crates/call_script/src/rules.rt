//! The rules that a plan keeps.
ghost use Rattle.std.specs.Prelude.{◌≡◌, None, IsTrue, IfOk};
ghost use Rattle.link_steps.specs.Lists.{Each};
ghost use Rattle.call_script.specs.Broken.{use_rule_broken, range_rule_broken, name_rule_broken, rule_broken};
ghost use Rattle.call_script.specs.Draft.{parts_in};
ghost use Rattle.call_script.specs.Plans.{HasTerms};
ghost use Rattle.call_script.specs.Rules.{have_version, have_links, have_names, are_there, are_in_range, are_few, are_joined, are_unclosed, are_within_load, pours_are_taken, moves_are_fit};

use crate::parts::Parts;
use crate::roles::{Order, Role};
use crate::rules::scripts::all_stand;
use net_units::OutOfMemory;
use net_units::limits::{MOST_CALLERS, MOST_LINKS, MOST_REQUESTS, MOST_ROUNDS};
use std::alloc::Global;

pub(crate) mod groups;
pub(crate) mod load;
pub(crate) mod moves;
pub(crate) mod names;
pub(crate) mod quotas;
pub(crate) mod ranges;
pub(crate) mod routes;
pub(crate) mod scripts;
pub(crate) mod versions;

impl Parts {
    // The least rule that the parts break, by the number of its cause.
    #[tactic(auto, unfolding(crate::specs::Broken::rule_broken))]
    pub(crate) fn broken_rule(&self, alloc: Global) -> Result<Option<u8>, OutOfMemory>
        ensures rule { IfOk result (λ rule. rule ≡ rule_broken (parts_in self.now)) }
        ensures terms { IfOk result (λ rule. rule ≡ None → Each HasTerms self.now.requests.items) }
    {
        if !self.have_version() {
            return Ok(Some(1));
        }
        if !self.groups_have_version() {
            return Ok(Some(1));
        }
        if !self.have_links() {
            return Ok(Some(2));
        }
        self.broken_name_rule(alloc)
    }

    // The least of the rules on names and on what is there, and of those after them.
    #[tactic(auto, unfolding(crate::specs::Broken::name_rule_broken))]
    fn broken_name_rule(&self, alloc: Global) -> Result<Option<u8>, OutOfMemory>
        ensures rule { IfOk result (λ rule. rule ≡ name_rule_broken (parts_in self.now)) }
        ensures terms { IfOk result (λ rule. rule ≡ None → Each HasTerms self.now.requests.items) }
    {
        if !self.have_names(alloc)? {
            return Ok(Some(6));
        }
        if !self.groups_have_names(alloc)? {
            return Ok(Some(6));
        }
        if !self.are_there(alloc)? {
            return Ok(Some(7));
        }
        if !self.groups_are_there() {
            return Ok(Some(7));
        }
        self.broken_range_rule(alloc)
    }

    // The least of the rules on ranges and on how many there are, and of those after them.
    #[tactic(auto, unfolding(crate::specs::Broken::range_rule_broken))]
    fn broken_range_rule(&self, alloc: Global) -> Result<Option<u8>, OutOfMemory>
        ensures rule { IfOk result (λ rule. rule ≡ range_rule_broken (parts_in self.now)) }
        ensures terms { IfOk result (λ rule. rule ≡ None → Each HasTerms self.now.requests.items) }
    {
        if !self.are_in_range() {
            return Ok(Some(8));
        }
        if !self.quotas_are_in_range() {
            return Ok(Some(8));
        }
        if !self.are_few() {
            return Ok(Some(9));
        }
        if !self.groups_are_few() {
            return Ok(Some(9));
        }
        if !self.are_joined() {
            return Ok(Some(12));
        }
        self.broken_use_rule(alloc)
    }

    // The least of the rules on how the scripts use the channels and load the links, on what the quotas come to, and on
    // moves.
    #[tactic(auto, unfolding(crate::specs::Broken::use_rule_broken))]
    fn broken_use_rule(&self, alloc: Global) -> Result<Option<u8>, OutOfMemory>
        requires range { IsTrue (are_in_range (parts_in self.now)) }
        requires few { IsTrue (are_few (parts_in self.now)) }
        ensures { IfOk result (λ rule. rule ≡ use_rule_broken (parts_in self.now)) }
    {
        if !self.are_unclosed(alloc)? {
            return Ok(Some(13));
        }
        if !self.are_within_load(alloc)? {
            return Ok(Some(14));
        }
        if !self.pours_are_taken() {
            return Ok(Some(19));
        }
        if !self.quotas_are_fit() {
            return Ok(Some(23));
        }
        if !self.moves_are_fit(alloc)? {
            return Ok(Some(24));
        }
        Ok(None)
    }

    #[tactic(auto, unfolding(crate::specs::Rules::have_version))]
    fn have_version(&self) -> bool
        ensures { result ≡ have_version (parts_in self.now) }
    {
        versions::links_have_version(self.version, &self.links)
            && versions::requests_have_version(self.version, &self.requests)
            && versions::callers_have_version(self.version, &self.callers)
    }

    #[tactic(auto, unfolding(crate::specs::Rules::have_links))]
    fn have_links(&self) -> bool
        ensures { result ≡ have_links (parts_in self.now) }
    {
        !self.links.is_empty()
    }

    #[tactic(auto, unfolding(crate::specs::Rules::have_names))]
    fn have_names(&self, alloc: Global) -> Result<bool, OutOfMemory>
        ensures { IfOk result (λ kept. kept ≡ have_names (parts_in self.now)) }
    {
        let links = names::link_names(alloc, &self.links)?;
        let callers = names::caller_names(alloc, &self.callers)?;
        let requests = names::request_names(alloc, &self.requests)?;
        Ok(
            names::are_distinct(alloc, &links)?
                && names::are_distinct(alloc, &callers)?
                && names::are_distinct(alloc, &requests)?,
        )
    }

    #[tactic(auto, unfolding(crate::specs::Rules::are_there))]
    fn are_there(&self, alloc: Global) -> Result<bool, OutOfMemory>
        ensures { IfOk result (λ kept. kept ≡ are_there (parts_in self.now)) }
    {
        let opened = scripts::are_opened(alloc, &self.callers)?;
        Ok(
            routes::are_there(&self.links, &self.requests)
                && load::pours_are_there(&self.links, &self.callers)
                && opened,
        )
    }

    #[tactic(auto, unfolding(crate::specs::Rules::are_in_range))]
    fn are_in_range(&self) -> bool
        ensures value { result ≡ are_in_range (parts_in self.now) }
        ensures terms { IsTrue result → Each HasTerms self.now.requests.items }
    {
        ranges::requests_in_range(&self.requests)
            && ranges::callers_in_range(&self.callers)
            && self.rounds <= MOST_ROUNDS
            && self.tail <= MOST_ROUNDS
    }

    #[tactic(auto, unfolding(crate::specs::Rules::are_few))]
    fn are_few(&self) -> bool
        ensures { result ≡ are_few (parts_in self.now) }
    {
        self.links.len() <= usize::from(MOST_LINKS)
            && self.callers.len() <= MOST_CALLERS
            && self.requests.len() <= MOST_REQUESTS
    }

    #[tactic(auto, unfolding(crate::specs::Rules::are_joined))]
    fn are_joined(&self) -> bool
        ensures { result ≡ are_joined (parts_in self.now) }
    {
        routes::are_joined(&self.links, &self.requests)
    }

    #[tactic(auto, unfolding(crate::specs::Rules::are_unclosed))]
    fn are_unclosed(&self, alloc: Global) -> Result<bool, OutOfMemory>
        ensures { IfOk result (λ kept. kept ≡ are_unclosed (parts_in self.now)) }
    {
        Ok(
            all_stand(alloc, Order::Apart, Role::Uses, Role::Closes, &self.callers)?
                && all_stand(
                    alloc,
                    Order::Apart,
                    Role::Keeps,
                    Role::Leaves,
                    &self.callers,
                )?,
        )
    }

    #[tactic(auto, unfolding(crate::specs::Rules::are_within_load, crate::specs::Rules::are_in_range, crate::specs::Rules::are_few))]
    fn are_within_load(&self, alloc: Global) -> Result<bool, OutOfMemory>
        requires range { IsTrue (are_in_range (parts_in self.now)) }
        requires few { IsTrue (are_few (parts_in self.now)) }
        ensures { IfOk result (λ kept. kept ≡ are_within_load (parts_in self.now)) }
    {
        let ticks = (self.rounds + self.tail) * self.links.len() as u64;
        Ok(load::is_small(alloc, &self.requests, &self.callers)? && ticks <= MOST_ROUNDS)
    }

    #[tactic(auto, unfolding(crate::specs::Rules::pours_are_taken))]
    fn pours_are_taken(&self) -> bool
        ensures { result ≡ pours_are_taken (parts_in self.now) }
    {
        load::pours_are_taken(&self.links, &self.callers)
    }

    #[tactic(auto, unfolding(crate::specs::Rules::moves_are_fit))]
    fn moves_are_fit(&self, alloc: Global) -> Result<bool, OutOfMemory>
        ensures { IfOk result (λ kept. kept ≡ moves_are_fit (parts_in self.now)) }
    {
        let unused = all_stand(alloc, Order::Apart, Role::Joins, Role::Uses, &self.callers)?;
        let once = all_stand(alloc, Order::Apart, Role::Joins, Role::Joins, &self.callers)?;
        Ok(moves::are_fit(&self.links, &self.requests, &self.callers) && unused && once)
    }
}
