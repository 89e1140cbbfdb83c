//! The facts of a whole network.
ghost use Rattle.plan_answers.specs.Trials.{IsTrial};

use crate::links::link_facts;
use crate::requests::request_facts;
use crate::trouble::Trouble;
use call_script::{LinkEntry, Plan};
use network_files::Network;
use network_pictures::{LinkFacts, NetworkFacts, Outcome, RequestFacts};
use plan_answers::Trial;
use question_plans::{Change, requests_alone};
use std::alloc::{AllocError, Global};

/// The facts of a network whose file has this name. All its requests are asked for alone, one after another; of packets it says nothing.
pub fn facts_of(alloc: Global, network: &Network, title: &str) -> Result<NetworkFacts, Trouble> {
    let plan = &network.plan;
    let trial = Trial::play(alloc, requests_alone(alloc, plan, &Change::Nothing)?)?;
    let nodes = nodes_of(alloc, plan.links())?;
    let requests = all_requests(alloc, plan, &trial)?;
    let links = all_links(alloc, plan, nodes.as_slice(), requests.as_slice())?;
    Ok(NetworkFacts {
        title: String::from_str(alloc, title)?,
        tick: network.tick,
        written: None,
        nodes,
        links,
        requests,
    })
}

// Of how many denied requests, times those that there are, the delay is asked for that would do: each takes a few runs of the whole network.
const MOST_HELPED: usize = 65_536;

// Of how many denied requests the delay is asked for that would do, where there are so many requests: of all where these are at most 256.
fn most_helped(requests: usize) -> usize {
    MOST_HELPED / requests.max(1)
}

// The facts of all requests.
fn all_requests(alloc: Global, plan: &Plan, trial: &Trial) -> Result<Vec<RequestFacts>, Trouble>
    requires trial { IsTrial trial.now }
{
    let mut requests = Vec::new(alloc);
    let mut helped: usize = 0;
    let most = most_helped(plan.requests().len());
    for number in 0..plan.requests().len() {
        if number >= trial.plan.requests().len() {
            break;
        }
        let request = request_facts(alloc, plan, trial, number, helped < most)?;
        if matches!(request.outcome, Outcome::Denied { .. }) {
            helped = helped.saturating_add(1);
        }
        requests.push(request)?;
    }
    Ok(requests)
}

// The facts of all links.
fn all_links(
    alloc: Global,
    plan: &Plan,
    nodes: &[String],
    requests: &[RequestFacts],
) -> Result<Vec<LinkFacts>, AllocError> {
    let mut links = Vec::new(alloc);
    for place in 0..plan.links().len() {
        links.push(link_facts(alloc, plan, nodes, requests, place)?)?;
    }
    Ok(links)
}

// The names of the nodes, in the order in which links name them.
fn nodes_of(alloc: Global, links: &[LinkEntry]) -> Result<Vec<String>, AllocError> {
    let mut nodes = Vec::new(alloc);
    for link in links {
        add_node(alloc, &mut nodes, link.from.as_str())?;
        add_node(alloc, &mut nodes, link.to.as_str())?;
    }
    Ok(nodes)
}

// Adds a node that isn't there yet.
fn add_node(alloc: Global, nodes: &mut Vec<String>, name: &str) -> Result<(), AllocError> {
    if place_of(nodes.as_slice(), name).is_none() {
        nodes.push(String::from_str(alloc, name)?)?;
    }
    Ok(())
}

/// The place of the node of this name.
pub(crate) fn place_of(nodes: &[String], name: &str) -> Option<usize> {
    for place in 0..nodes.len() {
        if nodes[place].as_str() == name {
            return Some(place);
        }
    }
    None
}
