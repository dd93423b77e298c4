//! What is lost by random damage, against a plain elimination among sets of nodes.

ghost use Rattle.std.specs.Prelude.{◌≡◌, IfOk};
ghost use Rattle.aea_lattice.specs.Blocks.{HasBlock, HasNode, HasParity};

use crate::random::{fenced, step};
use aea_lattice::{BlockId, Class, Lattice};
use aea_sweep::{LossList, losses};
use aea_view::Marks;
use std::alloc::{AllocError, Global};

// α, s, p, and the nodes: the first and the second number have a fence each, where they are not 0.
const SHAPES: [(u8, u8, u8, [u32; 3]); 16] = [
    (1, 1, 0, [0, 0, 0]),
    (1, 1, 0, [0, 0, 1]),
    (1, 1, 0, [0, 0, 30]),
    (1, 1, 0, [4, 20, 20]),
    (2, 2, 2, [0, 0, 11]),
    (2, 2, 5, [0, 0, 24]),
    (2, 2, 5, [7, 15, 24]),
    (2, 16, 16, [0, 20, 24]),
    (3, 2, 2, [0, 0, 16]),
    (3, 2, 5, [0, 0, 20]),
    (3, 2, 5, [0, 0, 50]),
    (3, 2, 5, [6, 33, 50]),
    (3, 3, 3, [1, 2, 18]),
    (3, 4, 5, [0, 10, 20]),
    (3, 5, 5, [0, 0, 20]),
    (3, 5, 5, [0, 0, 60]),
];

// The shapes.
fn shapes() -> [(u8, u8, u8, [u32; 3]); 16] {
    SHAPES
}

// How many of a hundred blocks are lost.
const PERCENTS: [u64; 6] = [10, 50, 70, 80, 95, 100];

// Whether the node is one of a set of nodes below 64.
fn holds(set: u64, node: u32) -> bool {
    (set >> (node % 64)) & 1 == 1
}

// The set of this node.
fn alone(node: u32) -> u64 {
    1 << (node % 64)
}

// Whether the node is on the strand of a later one, and no fence parts them.
fn stands_before(lattice: &Lattice, k: u32, node: u32, class: Class) -> bool
    requires first { HasNode lattice.now k }
    requires second { HasNode lattice.now node }
    requires class { HasParity lattice.now class }
{
    lattice.strand(k, class) == lattice.strand(node, class) && !lattice.fences.parts(k, node)
}

// Whether an odd number of nodes of the set lie up to this one on its strand.
fn is_odd(lattice: &Lattice, set: u64, node: u32, class: Class) -> bool
    requires node { HasNode lattice.now node }
    requires class { HasParity lattice.now class }
{
    let mut odd = holds(set, node);
    for k in 1..node {
        if stands_before(lattice, k, node, class) && holds(set, k) {
            odd = !odd;
        }
    }
    odd
}

// Whether the codeword of the set contains the block.
fn has(lattice: &Lattice, set: u64, b: BlockId) -> bool
    requires { HasBlock lattice.now b }
{
    match b.class {
        Class::Datum => holds(set, b.node),
        Class::Horiz | Class::Right | Class::Left => is_odd(lattice, set, b.node, b.class),
    }
}

// So many sets: more than a lattice here has nodes. Where there are fewer, the others are empty, and no block is in their words.
const ROOM: usize = 64;

// The first of the sets whose codeword contains the block.
fn chosen(lattice: &Lattice, sets: &[u64], b: BlockId) -> Option<u64>
    requires { HasBlock lattice.now b }
{
    for set in sets {
        if *set != 0 && has(lattice, *set, b) {
            return Some(*set);
        }
    }
    None
}

// Adds the pivot to each set whose codeword contains the block, so that it goes.
fn clear(lattice: &Lattice, sets: &mut [u64], pivot: u64, b: BlockId)
    requires { HasBlock lattice.now b }
{
    for set in sets.iter_mut() {
        if *set != 0 && has(lattice, *set, b) {
            *set ^= pivot;
        }
    }
}

// Puts the set first, and each other one in the place of the next one.
fn put_first(sets: &mut [u64], first: u64) {
    let mut next = first;
    for set in sets.iter_mut() {
        let moved = *set;
        *set = next;
        next = moved;
    }
}

// Each node alone.
fn singles(lattice: &Lattice) -> [u64; ROOM] {
    let mut sets = [0; ROOM];
    for (k, set) in sets.iter_mut().enumerate() {
        if k < lattice.n as usize {
            *set = alone(k as u32 + 1);
        }
    }
    sets
}

// The sets of nodes whose codewords contain no known block, as sums of these.
fn basis(lattice: &Lattice, known: &Marks) -> [u64; ROOM]
    requires { known.now.lattice ≡ lattice.now }
{
    let mut sets = singles(lattice);
    for k in 0..lattice.blocks() {
        let b = lattice.block(k);
        if known.get(b) {
            let pivot = chosen(lattice, &sets, b).unwrap_or(0);
            clear(lattice, &mut sets, pivot, b);
        }
    }
    sets
}

// The sets of the ends, the least end first.
fn words(lattice: &Lattice, known: &Marks) -> [u64; ROOM]
    requires { known.now.lattice ≡ lattice.now }
{
    let mut sets = basis(lattice, known);
    let mut words = [0; ROOM];
    for k in 0..lattice.blocks() {
        let b = lattice.block(lattice.blocks() - 1 - k);
        if let Some(pivot) = chosen(lattice, &sets, b) {
            clear(lattice, &mut sets, pivot, b);
            clear(lattice, &mut words, pivot, b);
            put_first(&mut words, pivot);
        }
    }
    words
}

// The nodes as a set.
fn set_of(nodes: &[u32]) -> u64 {
    let mut set = 0;
    for node in nodes {
        set ^= alone(*node);
    }
    set
}

// Whether the list says the same of each block as these sets of the ends.
fn are_words(lattice: &Lattice, list: &LossList, words: &[u64]) -> bool {
    let mut same = list.len() == lattice.blocks() as usize;
    for k in 0..lattice.blocks() {
        let at = k as usize;
        let nodes = if at < list.len() {
            list.nodes(at)
        } else {
            None
        };
        let revealed = match nodes {
            Some(nodes) => Some(set_of(nodes)),
            None => None,
        };
        same = same && revealed == chosen(lattice, words, lattice.block(k));
    }
    same
}

// Whether the list of what is lost does.
fn agree(alloc: Global, lattice: &Lattice, known: &Marks) -> bool
    requires { known.now.lattice ≡ lattice.now }
{
    match losses(alloc, lattice, known) {
        Ok(list) => lattice.n as usize <= ROOM && are_words(lattice, &list, &words(lattice, known)),
        Err(_) => false,
    }
}

// Marks the block of this number, unless it is lost at random.
fn mark(lattice: &Lattice, known: &mut Marks, k: u32, value: bool)
    requires { known.old.lattice ≡ lattice.now }
    ensures { known.new.lattice ≡ lattice.now }
{
    if k < lattice.blocks() {
        known.set(lattice.block(k), value);
    }
}

// Marks of the blocks that are not lost, so many percent of them, by the generator that begins with the seed.
fn damage(alloc: Global, lattice: &Lattice, percent: u64, seed: u64) -> Result<Marks, AllocError>
    ensures { IfOk result (λ m. m.lattice ≡ lattice.now) }
{
    let mut known = Marks::new(alloc, lattice)?;
    let mut x = seed;
    for k in 0..lattice.blocks() {
        x = step(x);
        mark(lattice, &mut known, k, (x >> 33) % 100 >= percent);
    }
    Ok(known)
}

// Whether what is lost by this seed is what the sets of the ends have.
fn agree_on(alloc: Global, lattice: &Lattice, percent: u64, seed: u64) -> bool {
    match damage(alloc, lattice, percent, seed) {
        Ok(known) => agree(alloc, lattice, &known),
        Err(_) => false,
    }
}

#[test]
fn losses_agree_with_the_plain_elimination(rt: HostRuntime) {
    let alloc = rt.alloc();
    let mut seed = 0;
    for (alpha, s, p, nodes) in shapes() {
        let lattice = fenced(alpha, s, p, nodes);
        for percent in PERCENTS {
            seed = step(seed);
            let are_same = lattice.is_some_and(|lattice| agree_on(alloc, &lattice, percent, seed));
            assert!(rt; are_same, "{percent} of 100 in {lattice:?}, from {seed}");
        }
    }
}
