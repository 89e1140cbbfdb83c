//! In which layer each node stands.
use crate::facts::LinkFacts;
use std::alloc::{AllocError, Global};

/// The layer of each node, from 0 on: along the links where they make no circle, or else by the fewest links from one end of the network.
pub fn layers_of(
    alloc: Global,
    nodes: usize,
    links: &[LinkFacts],
) -> Result<Vec<usize>, AllocError> {
    match layers_along(alloc, nodes, links)? {
        Some(layers) => Ok(layers),
        None => layers_around(alloc, nodes, links),
    }
}

// The layers along the links: None where they make a circle.
fn layers_along(
    alloc: Global,
    nodes: usize,
    links: &[LinkFacts],
) -> Result<Option<Vec<usize>>, AllocError> {
    let mut layers = vec![in alloc; 0usize; nodes]?;
    for _ in 0..nodes {
        if !push_on(&mut layers, links) {
            pull_near(&mut layers, links);
            return Ok(Some(layers));
        }
    }
    Ok(None)
}

// Pushes the end of each link behind its beginning, and answers whether one has moved.
fn push_on(layers: &mut Vec<usize>, links: &[LinkFacts]) -> bool {
    let mut has_moved = false;
    for link in links {
        let least = layer_at(layers.as_slice(), link.from).saturating_add(1);
        if layer_at(layers.as_slice(), link.to) < least {
            set_layer(layers, link.to, least);
            has_moved = true;
        }
    }
    has_moved
}

// Pulls nodes where nothing ends next to those to which they lead.
fn pull_near(layers: &mut Vec<usize>, links: &[LinkFacts]) {
    for node in 0..layers.len() {
        if links.iter().any(|link: &LinkFacts| link.to == node) {
            continue;
        }
        let nearest = nearest_end(layers.as_slice(), links, node);
        if let Some(layer) = nearest {
            set_layer(layers, node, layer.saturating_sub(1));
        }
    }
}

// The least layer in which a link from this node ends.
fn nearest_end(layers: &[usize], links: &[LinkFacts], node: usize) -> Option<usize> {
    let mut nearest = None;
    for link in links {
        if link.from == node {
            let layer = layer_at(layers, link.to);
            nearest = Some(nearest.map_or(layer, |best: usize| best.min(layer)));
        }
    }
    nearest
}

pub(crate) fn layer_at(layers: &[usize], node: usize) -> usize {
    layers.get(node).copied().unwrap_or(0)
}

fn set_layer(layers: &mut Vec<usize>, node: usize, layer: usize) {
    if let Some(place) = layers.get_mut(node) {
        *place = layer;
    }
}

// The layers by the fewest links, whatever their direction, from one end of the network. The end nearer to the first node is taken: the node
// that is farthest from the one that is farthest from the first.
fn layers_around(
    alloc: Global,
    nodes: usize,
    links: &[LinkFacts],
) -> Result<Vec<usize>, AllocError> {
    let near = distances(alloc, nodes, links, 0)?;
    let far = distances(alloc, nodes, links, farthest(near.as_slice()))?;
    let mut layers = distances(alloc, nodes, links, farthest(far.as_slice()))?;
    for place in 0..layers.len() {
        if layers[place] >= nodes {
            layers[place] = 0;
        }
    }
    Ok(layers)
}

// How many links each node is from one; the number of nodes where none leads to it.
fn distances(
    alloc: Global,
    nodes: usize,
    links: &[LinkFacts],
    from: usize,
) -> Result<Vec<usize>, AllocError> {
    let mut far = vec![in alloc; nodes; nodes]?;
    set_layer(&mut far, from, 0);
    for _ in 0..nodes {
        for link in links {
            bring_near(&mut far, link.from, link.to);
            bring_near(&mut far, link.to, link.from);
        }
    }
    Ok(far)
}

// Brings a node next to another.
fn bring_near(far: &mut Vec<usize>, from: usize, to: usize) {
    let next = layer_at(far.as_slice(), from).saturating_add(1);
    if next < layer_at(far.as_slice(), to) {
        set_layer(far, to, next);
    }
}

// The first of the nodes that are farthest, of those that are reached.
fn farthest(far: &[usize]) -> usize {
    let mut best = 0;
    let mut most = 0;
    for node in 0..far.len() {
        if far[node] > most && far[node] < far.len() {
            most = far[node];
            best = node;
        }
    }
    best
}
