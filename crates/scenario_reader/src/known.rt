//! The names that a line may use after what was read.
ghost use Rattle.std.specs.Prelude.{◌≡◌, ◌≤◌, ◌<◌, IfSome, length, position};
ghost use Rattle.call_script.specs.Groups.{has_group};
ghost use Rattle.call_script.specs.Rules.{is_named};
ghost use Rattle.link_steps.specs.declared.quota.Quota.{Quota as Share};
ghost use Rattle.scenario_reader.specs.Known.{node_number};
ghost use Rattle.scenario_reader.specs.Drafts.{group_named};

use crate::draft::Draft;
use crate::line::request::nodes::{is_node, node_of};
use call_script::LinkEntry;
use line_forms::{Known, Set};
use link_steps::Quota;
use net_units::Name;

impl Known for Draft {
    ghost use Rattle.scenario_reader.specs.Known.{names_said};

    ghost names = { names_said };

    fn number_of(&self, set: Set, name: &Name) -> Option<usize> {
        match set {
            Set::Links => self.link_names.number_of(name),
            Set::Nodes => node_number(&self.links, name),
            Set::Groups => group_number(&self.groups, name),
            Set::Callers => self.caller_names.number_of(name),
            Set::Requests => self.request_names.number_of(name),
            Set::OwnRequests => {
                let entry = self.own_request(name)?;
                Some(entry.request.chan.get() as usize)
            }
        }
    }

    fn are_paired(&self, first: usize, second: usize) -> bool {
        match self.links.get(first) {
            Some(entry) => has_group(second, entry.quotas.as_slice()),
            None => false,
        }
    }
}

// The number of a node at which some link begins or ends.
fn node_number(links: &[LinkEntry], name: &Name) -> Option<usize>
    requires { length links.now ≤ 32 }
    ensures { result ≡ node_number links.now name.now }
{
    if is_node(links, name) {
        Some(node_of(links, name) as usize)
    } else {
        None
    }
}

// The number of the group of this name, from 1.
fn group_number(groups: &[Name], name: &Name) -> Option<usize>
    ensures { result ≡ group_named groups.now name.now }
{
    let place = place_of(groups, name)?;
    Some(place + 1)
}

// The place of a name among these, from 0.
#[tactic(auto, using(crate::proofs::Finding::NameLookup::place_there))]
fn place_of(names: &[Name], name: &Name) -> Option<usize>
    ensures place { result ≡ position (is_named name.now) names.now }
    ensures within { IfSome result (λ place. place < length names.now) }
{
    names.iter().position(|other| name == other)
}

// Whether a quota of these is of this group.
fn has_group(group: usize, quotas: &[Quota]) -> bool
    ensures { result ≡ has_group group quotas.now }
{
    quotas.iter().any(|quota| usize::from(quota.group) == group)
}
