//! An elimination among the sets of nodes whose codewords contain no known block, for lattices of at most 64 nodes. A set of nodes is
//! a word, node i its bit i - 1.

ghost use Rattle.std.specs.Prelude.{◌≤◌};
ghost use Rattle.aea_lattice.specs.Blocks.{HasNode, class_number};

use aea_lattice::{BlockId, Class, Lattice};
use aea_plain::previous;
use std::alloc::{AllocError, Global};

/// A block, and the nodes that decide whether a codeword contains it: it does where an odd number of them are members.
#[derive(Clone, Copy, Drop)]
pub struct Mask {
    pub block: BlockId,
    pub nodes: u64,
}

// What is left of some sets of nodes where one of them is added to each other that has a block, and taken out.
#[derive(Drop)]
struct Split {
    pivot: Option<u64>,
    rest: Vec<u64>,
}

/// Whether an odd number of nodes are in both sets.
pub fn meets_oddly(nodes: u64, mask: u64) -> bool {
    (nodes & mask).count_ones() % 2 == 1
}

// The set of one node.
fn set_with(node: u32) -> u64 {
    1u64.wrapping_shl(node.wrapping_sub(1))
}

// The nodes of the mask of this block, none where it has none yet.
fn nodes_of(masks: &[Mask], b: BlockId) -> u64 {
    let mut nodes = 0;
    for mask in masks {
        if mask.block == b {
            nodes = mask.nodes;
        }
    }
    nodes
}

// Adds the mask of a parity, if the lattice has the class: that of the parity before it on the strand, and its own node.
fn add_parity(
    lattice: &Lattice,
    masks: &mut Vec<Mask>,
    node: u32,
    class: Class,
) -> Result<(), AllocError>
    requires node { HasNode lattice.now node }
    requires parity { 1 ≤ class_number class }
{
    if class as u8 <= lattice.alpha() {
        let mut nodes = set_with(node);
        if let Some(before) = previous(lattice, node, class) {
            let b = BlockId {
                node: before,
                class,
            };
            nodes |= nodes_of(masks.as_slice(), b);
        }
        let block = BlockId { node, class };
        masks.push(Mask { block, nodes })?;
    }
    Ok(())
}

/// The masks of all blocks, in number order. An error is lack of memory, here and below.
pub fn masks_of(alloc: Global, lattice: &Lattice) -> Result<Vec<Mask>, AllocError> {
    let mut masks = Vec::new(alloc);
    for node in 1..lattice.n() + 1 {
        let block = BlockId {
            node,
            class: Class::Datum,
        };
        let nodes = set_with(node);
        masks.push(Mask { block, nodes })?;
        add_parity(lattice, &mut masks, node, Class::Horiz)?;
        add_parity(lattice, &mut masks, node, Class::Right)?;
        add_parity(lattice, &mut masks, node, Class::Left)?;
    }
    Ok(masks)
}

// Takes the first set out whose codeword contains the block of the mask, and adds it to the others of this kind.
fn take_out(alloc: Global, sets: &[u64], mask: u64) -> Result<Split, AllocError> {
    let mut pivot = None;
    let mut rest = Vec::new(alloc);
    for nodes in sets {
        if !meets_oddly(*nodes, mask) {
            rest.push(*nodes)?;
            continue;
        }
        match pivot {
            None => pivot = Some(*nodes),
            Some(first) => rest.push(*nodes ^ first)?,
        }
    }
    Ok(Split { pivot, rest })
}

/// A basis of the sets whose codewords contain no known block.
pub fn escapes(
    alloc: Global,
    lattice: &Lattice,
    masks: &[Mask],
    lost: &[BlockId],
) -> Result<Vec<u64>, AllocError> {
    let mut sets = Vec::new(alloc);
    let mut bit = 1u64;
    for _ in 0..lattice.n() {
        sets.push(bit)?;
        bit = bit.wrapping_mul(2);
    }
    for mask in masks {
        if !lost.contains(&mask.block) {
            sets = take_out(alloc, sets.as_slice(), mask.nodes)?.rest;
        }
    }
    Ok(sets)
}

// Adds the set to each of these whose codeword contains the block of the mask.
fn add_to_each(alloc: Global, sets: &[u64], mask: u64, set: u64) -> Result<Vec<u64>, AllocError> {
    let mut all = Vec::new(alloc);
    for nodes in sets {
        all.push(if meets_oddly(*nodes, mask) {
            *nodes ^ set
        } else {
            *nodes
        })?;
    }
    Ok(all)
}

/// The sets of the ends, that of the greatest end first: each contains its own end alone.
pub fn ends_of(alloc: Global, masks: &[Mask], sets: Vec<u64>) -> Result<Vec<u64>, AllocError> {
    let mut sets = sets;
    let mut ends = Vec::new(alloc);
    for mask in masks.iter().rev() {
        let parted = take_out(alloc, sets.as_slice(), mask.nodes)?;
        if let Some(set) = parted.pivot {
            ends = add_to_each(alloc, ends.as_slice(), mask.nodes, set)?;
            ends.push(set)?;
        }
        sets = parted.rest;
    }
    Ok(ends)
}

/// The set of the least end whose codeword contains the block of the mask, if there is one.
pub fn set_of(ends: &[u64], mask: u64) -> Option<u64> {
    let mut found = None;
    for set in ends {
        if meets_oddly(*set, mask) {
            found = Some(*set);
        }
    }
    found
}
