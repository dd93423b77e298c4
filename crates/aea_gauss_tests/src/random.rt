//! Random damage, against a plain elimination.

use crate::bench::has_fates;
use crate::plain::plain_fates;
use aea_lattice::{BlockId, Lattice};
use std::alloc::{AllocError, Global};

// α, s, p, and the nodes: the first and the second number have a fence each, where they are not 0.
const SHAPES: [(u8, u8, u8, [u32; 3]); 14] = [
    (1, 1, 0, [0, 0, 1]),
    (1, 1, 0, [0, 0, 30]),
    (1, 1, 0, [4, 5, 20]),
    (2, 2, 2, [0, 0, 11]),
    (2, 2, 5, [0, 0, 24]),
    (2, 2, 5, [7, 15, 24]),
    (2, 3, 7, [0, 0, 24]),
    (2, 16, 16, [0, 20, 24]),
    (3, 2, 2, [0, 0, 16]),
    (3, 2, 5, [0, 0, 20]),
    (3, 2, 5, [6, 13, 20]),
    (3, 3, 3, [1, 2, 18]),
    (3, 4, 5, [0, 10, 20]),
    (3, 5, 5, [0, 0, 20]),
];

/// The shapes, each with its nodes.
pub fn shapes() -> [(u8, u8, u8, [u32; 3]); 14] {
    SHAPES
}

// How many of a hundred blocks are lost.
const PERCENTS: [u64; 4] = [10, 30, 50, 75];

/// One step of the linear congruential generator of Knuth's MMIX.
pub fn step(x: u64) -> u64 {
    x.wrapping_mul(6_364_136_223_846_793_005)
        .wrapping_add(1_442_695_040_888_963_407)
}

// The lattice with this number of nodes and a fence after them, where it is not 0.
fn with_fence(lattice: &Lattice, fence: u32) -> Option<Lattice> {
    if fence == 0 {
        Some(*lattice)
    } else {
        lattice.grown(fence).and_then(|longer| longer.fenced())
    }
}

/// A lattice with fences at the first two numbers of nodes, where they are not 0.
pub fn fenced(alpha: u8, s: u8, p: u8, nodes: [u32; 3]) -> Option<Lattice> {
    let [first, second, n] = nodes;
    Lattice::new(alpha, s, p, 0)
        .and_then(|lattice| with_fence(&lattice, first))
        .and_then(|lattice| with_fence(&lattice, second))
        .and_then(|lattice| lattice.grown(n))
}

/// So many percent of the blocks, by the generator that begins with the seed.
pub fn lost_blocks(
    alloc: Global,
    lattice: &Lattice,
    percent: u64,
    seed: u64,
) -> Result<Vec<BlockId>, AllocError> {
    let mut lost = Vec::new(alloc);
    let mut x = seed;
    for k in 0..lattice.blocks() {
        x = step(x);
        if (x >> 32) % 100 < percent {
            lost.push(lattice.block(k))?;
        }
    }
    Ok(lost)
}

// Whether the lost blocks have the fates of the plain elimination.
fn are_plain(alloc: Global, lattice: &Lattice, lost: &[BlockId]) -> bool {
    plain_fates(alloc, lattice, lost).is_some_and(|plain| has_fates(
        alloc,
        lattice,
        lost,
        plain.as_str(),
    ))
}

// Whether the blocks that are lost by this seed do.
fn agree(alloc: Global, lattice: &Lattice, percent: u64, seed: u64) -> bool {
    lost_blocks(alloc, lattice, percent, seed).is_ok_and(|lost| are_plain(
        alloc,
        lattice,
        lost.as_slice(),
    ))
}

#[test]
fn fates_agree_with_the_plain_elimination(rt: HostRuntime) {
    let alloc = rt.alloc();
    let mut seed = 0;
    for (alpha, s, p, nodes) in shapes() {
        let lattice = fenced(alpha, s, p, nodes);
        for percent in PERCENTS {
            seed = step(seed);
            let are_same = lattice.is_some_and(|lattice| agree(alloc, &lattice, percent, seed));
            assert!(rt; are_same, "{percent} of 100 in {lattice:?}, from {seed}");
        }
    }
}
