//! In which order the nodes of a layer stand.
use crate::facts::LinkFacts;
use crate::layers::layer_at;
use std::alloc::{AllocError, Global};

// How often the layers are put in order, back and forth.
const SWEEPS: u8 = 4;

/// The nodes of each layer in an order in which few links cross: each node near the middle of its neighbours.
pub fn rows_of(
    alloc: Global,
    layers: &[usize],
    links: &[LinkFacts],
) -> Result<Vec<Vec<usize>>, AllocError> {
    let mut rows = first_rows(alloc, layers)?;
    for sweep in 0..SWEEPS {
        let places = places_in(alloc, layers.len(), &rows)?;
        for row in &mut rows {
            settle(row, layers, places.as_slice(), links, sweep % 2 == 0)?;
        }
    }
    Ok(rows)
}

// The nodes of each layer in the order of their places.
fn first_rows(alloc: Global, layers: &[usize]) -> Result<Vec<Vec<usize>>, AllocError> {
    let count = layers
        .iter()
        .copied()
        .max()
        .map_or(0, |most: usize| most.saturating_add(1));
    let mut rows = Vec::new(alloc);
    for layer in 0..count {
        rows.push(nodes_in(alloc, layers, layer)?)?;
    }
    Ok(rows)
}

// The nodes of a layer.
fn nodes_in(alloc: Global, layers: &[usize], layer: usize) -> Result<Vec<usize>, AllocError> {
    let mut nodes = Vec::new(alloc);
    for node in 0..layers.len() {
        if layers[node] == layer {
            nodes.push(node)?;
        }
    }
    Ok(nodes)
}

// Where each node stands in its layer, in thousandths from the layer's middle, and 1,000,000 more.
fn places_in(alloc: Global, nodes: usize, rows: &[Vec<usize>]) -> Result<Vec<u64>, AllocError> {
    let mut places = vec![in alloc; MIDDLE; nodes]?;
    for row in rows {
        for place in 0..row.len() {
            if let Some(slot) = places.get_mut(row[place]) {
                *slot = place_of(place, row.len());
            }
        }
    }
    Ok(places)
}

// The middle of a layer.
const MIDDLE: u64 = 1_000_000;

// The place in a layer of so many nodes.
fn place_of(place: usize, count: usize) -> u64 {
    let place = (place as u64).saturating_mul(1000).saturating_add(MIDDLE);
    let half = (count as u64).saturating_sub(1).saturating_mul(500);
    place.saturating_sub(half)
}

// Puts the nodes of a layer in the order of the middles of their neighbours in the layer before, or behind.
fn settle(
    row: &mut Vec<usize>,
    layers: &[usize],
    places: &[u64],
    links: &[LinkFacts],
    is_forward: bool,
) -> Result<(), AllocError> {
    row.sort_by_key(|node: &usize| middle_of(*node, layers, places, links, is_forward))
}

// The middle of a node's neighbours, or its own place where it has none.
fn middle_of(
    node: usize,
    layers: &[usize],
    places: &[u64],
    links: &[LinkFacts],
    is_forward: bool,
) -> u64 {
    let mut sum: u64 = 0;
    let mut count: u64 = 0;
    for link in links {
        let other = if link.from == node {
            link.to
        } else if link.to == node {
            link.from
        } else {
            continue;
        };
        let is_before = layer_at(layers, other) < layer_at(layers, node);
        if is_before == is_forward {
            sum = sum.saturating_add(places.get(other).copied().unwrap_or(MIDDLE));
            count = count.saturating_add(1);
        }
    }
    match sum.checked_div(count) {
        Some(middle) => middle,
        None => places.get(node).copied().unwrap_or(MIDDLE),
    }
}
