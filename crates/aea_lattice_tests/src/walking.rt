//! Codewords: by hand, beside the plain program, of drawn lattices too, and in what time.

ghost use Rattle.std.specs.Prelude.{◌≡◌, IfOk, IfSome};
ghost use Rattle.aea_walk.specs.Codewords.{AreRising};

use aea_lattice::{BlockId, Lattice, NodeList, parse_block};
use aea_plain::codeword;
use aea_view::Marks;
use aea_walk::{NextIntact, first_touched, is_in_codeword, least_missing};
use std::alloc::{AllocError, Global};

/// The lattice of this shape with these fences and n nodes.
pub fn fenced(alpha: u8, s: u8, p: u8, fences: &[u32], n: u32) -> Option<Lattice> {
    let mut lattice = Lattice::new(alpha, s, p, 0);
    for fence in fences {
        let longer = lattice.and_then(|shorter| shorter.grown(*fence));
        lattice = longer.and_then(|longer| longer.fenced());
    }
    lattice.and_then(|shorter| shorter.grown(n))
}

// The list of these nodes, none where one is not of the lattice or not greater than the one before.
fn rising(alloc: Global, lattice: &Lattice, listed: &[u32]) -> Option<NodeList>
    ensures { IfSome result (AreRising lattice.now) }
{
    let mut nodes = NodeList::new(alloc);
    let mut last = 0;
    for node in listed {
        if *node <= last || lattice.n() < *node {
            return None;
        }
        match nodes.push(*node) {
            Ok(()) => last = *node,
            Err(_) => return None,
        }
    }
    Some(nodes)
}

/// The blocks of a text of one word each.
pub fn blocks(alloc: Global, text: &str) -> Option<Vec<BlockId>> {
    let mut blocks = Vec::new(alloc);
    let mut are_blocks = true;
    for word in text.split_whitespace() {
        let is_put = match parse_block(word.as_bytes()) {
            Some(block) => blocks.push(block).is_ok(),
            None => false,
        };
        are_blocks = are_blocks && is_put;
    }
    are_blocks.then_some(blocks)
}

// Marks of the lattice at these blocks.
fn marked(alloc: Global, lattice: &Lattice, listed: &[BlockId]) -> Result<Marks, AllocError>
    ensures { IfOk result (λ m. m.lattice ≡ lattice.now) }
{
    let mut marks = Marks::new(alloc, lattice)?;
    for k in 0..lattice.blocks() {
        let block = lattice.block(k);
        marks.set(block, listed.contains(&block));
    }
    Ok(marks)
}

// Whether the answer for each block is whether it is one of these.
fn has_answers(lattice: &Lattice, nodes: &NodeList, word: &[BlockId]) -> bool
    requires { AreRising lattice.now nodes.now }
{
    let mut are_right = true;
    for k in 0..lattice.blocks() {
        let block = lattice.block(k);
        are_right = are_right && is_in_codeword(lattice, nodes, block) == word.contains(&block);
    }
    are_right
}

// Whether the codeword of the nodes is answered to be these blocks.
fn is_word(alloc: Global, lattice: &Lattice, listed: &[u32], word: &[BlockId]) -> bool {
    match rising(alloc, lattice, listed) {
        Some(nodes) => has_answers(lattice, &nodes, word),
        None => false,
    }
}

// Whether it is answered to be the blocks of the text.
fn is_text(alloc: Global, lattice: &Lattice, listed: &[u32], text: &str) -> bool {
    blocks(alloc, text).is_some_and(|word| is_word(alloc, lattice, listed, word.as_slice()))
}

// In AE(2,2,2) with a fence after node 4 the strands of the nodes are 1 3, 2 4, 5 7 9 11 and 6 8 10 of Horiz, and 1 4, 2 3,
// 5 8 9 and 6 7 10 11 of Right.
#[test]
fn codewords_are_those_written_down_by_hand(rt: HostRuntime) {
    let alloc = rt.alloc();
    let lattice = fenced(2, 2, 2, &[4], 11);
    for (listed, text) in [
        ([].as_slice(), ""),
        (&[4], "d4 h4 r4"),
        (&[5, 9], "d5 h5 r5 h7 r8 d9"),
        (&[1, 3, 4], "d1 h1 r1 d3 r3 d4 h4"),
        (&[1, 4, 6], "d1 h1 r1 h3 d4 h4 d6 h6 r6 r7 h8 h10 r10 r11"),
    ] {
        let is_right = match &lattice {
            Some(lattice) => is_text(alloc, lattice, listed, text),
            None => false,
        };
        assert!(rt; is_right, "of {listed:?}");
    }
}

// Whether it is answered to be that of the plain program.
fn is_plain(alloc: Global, lattice: &Lattice, listed: &[u32]) -> bool {
    let word = codeword(alloc, lattice, listed);
    word.is_ok_and(|word| is_word(alloc, lattice, listed, word.as_slice()))
}

#[test]
fn codewords_are_those_of_the_plain_program(rt: HostRuntime) {
    let alloc = rt.alloc();
    for (alpha, s, p, fences, n) in [
        (1, 1, 0, [4, 5].as_slice(), 20),
        (2, 2, 5, &[7, 15], 24),
        (3, 2, 5, &[], 20),
        (3, 3, 3, &[1, 2], 20),
        (3, 4, 5, &[10], 20),
    ] {
        let lattice = fenced(alpha, s, p, fences, n);
        for listed in [[1, 2, 3, 6], [4, 5, 14, 20], [2, 9, 11, 17]] {
            let is_same = lattice.is_some_and(|lattice| is_plain(alloc, &lattice, &listed));
            assert!(rt; is_same, "of {listed:?} in {lattice:?}");
        }
    }
}

// The first block of this number or a later one that is in the codeword of the nodes.
fn first_from(lattice: &Lattice, nodes: &NodeList, least: u32) -> Option<BlockId>
    requires { AreRising lattice.now nodes.now }
{
    for k in least..lattice.blocks() {
        let block = lattice.block(k);
        if is_in_codeword(lattice, nodes, block) {
            return Some(block);
        }
    }
    None
}

// The first block of this number or a later one that is in the codeword of nodes 2 and 3.
fn first_of_two(alloc: Global, lattice: &Lattice, least: u32) -> Option<Option<BlockId>> {
    match rising(alloc, lattice, &[2, 3]) {
        Some(nodes) => Some(first_from(lattice, &nodes, least)),
        None => None,
    }
}

// Were each call to go along the nodes up to its block, a million of them, these calls would not end in time.
#[test]
fn a_far_block_costs_no_more_than_a_near_one(rt: HostRuntime) {
    let alloc = rt.alloc();
    let lattice = Lattice::new(1, 1, 0, 1_048_576);
    let block = lattice.and_then(|lattice| first_of_two(alloc, &lattice, 1_900_000));
    assert!(rt; block == Some(None), "{block:?}");
}

// The first block of a text, if there is one.
fn first_of(alloc: Global, text: &str) -> Option<Option<BlockId>> {
    blocks(alloc, text).map(|blocks| blocks.first().copied())
}

// The least of the marked blocks in the codeword of the nodes, if there is one.
fn first_by(alloc: Global, marks: &Marks, nodes: &NodeList) -> Option<Option<BlockId>>
    requires { AreRising marks.now.lattice nodes.now }
{
    match NextIntact::new(alloc, marks) {
        Ok(next) => Some(first_touched(marks, &next, nodes)),
        Err(_) => None,
    }
}

// The least of the intact blocks in the codeword of the listed nodes, if there is one.
fn touched(
    alloc: Global,
    lattice: &Lattice,
    listed: &[u32],
    intact: &[BlockId],
) -> Option<Option<BlockId>> {
    let nodes = rising(alloc, lattice, listed)?;
    match marked(alloc, lattice, intact) {
        Ok(marks) => first_by(alloc, &marks, &nodes),
        Err(_) => None,
    }
}

// Whether it is this one, of nodes 1, 4 and 6.
fn is_touched(alloc: Global, lattice: &Lattice, intact: &str, want: &str) -> bool {
    let intact = blocks(alloc, intact);
    let found = intact.and_then(|intact| touched(alloc, lattice, &[1, 4, 6], intact.as_slice()));
    found.is_some() && found == first_of(alloc, want)
}

// The codeword of the nodes is d1 h1 r1 h3 d4 h4 d6 h6 r6 r7 h8 h10 r10 r11.
#[test]
fn the_least_marked_block_of_a_codeword_is_found(rt: HostRuntime) {
    let alloc = rt.alloc();
    let lattice = fenced(2, 2, 2, &[4], 11);
    for (text, want) in [
        ("", ""),
        (
            "d2 h2 r2 d3 r3 r4 d5 h5 r5 d7 h7 d8 r8 d9 h9 r9 d10 d11 h11",
            "",
        ),
        ("r11 h10 r7 d8 h2", "r7"),
        ("h4 h3 d2 d4", "h3"),
        ("h1 r1 d1", "d1"),
        ("r11", "r11"),
    ] {
        let is_found = match &lattice {
            Some(lattice) => is_touched(alloc, lattice, text, want),
            None => false,
        };
        assert!(rt; is_found, "where {text} are intact");
    }
}

// The next number of a linear congruential generator (Numerical Recipes).
fn drawn(seed: u32) -> u32 {
    seed.wrapping_mul(1_664_525).wrapping_add(1_013_904_223)
}

// Nodes of the lattice in rising order, each drawn with a chance of one in `rarity`.
fn drawn_nodes(alloc: Global, lattice: &Lattice, seed: u32, rarity: u32) -> Option<Vec<u32>> {
    let mut nodes = Vec::new(alloc);
    let mut last = seed;
    for node in 1..lattice.n().saturating_add(1) {
        last = drawn(last);
        if (last >> 16) % rarity.max(1) == 0 {
            nodes.push(node).ok()?;
        }
    }
    Some(nodes)
}

// Blocks of the lattice, each drawn with a chance of one in `rarity`.
fn drawn_blocks(alloc: Global, lattice: &Lattice, seed: u32, rarity: u32) -> Option<Vec<BlockId>> {
    let mut blocks = Vec::new(alloc);
    let mut last = seed;
    for k in 0..lattice.blocks() {
        last = drawn(last);
        if (last >> 16) % rarity.max(1) == 0 {
            blocks.push(lattice.block(k)).ok()?;
        }
    }
    Some(blocks)
}

// The first of these blocks that is one of the others too.
fn first_common(blocks: &[BlockId], others: &[BlockId]) -> Option<BlockId> {
    for block in blocks {
        if others.contains(block) {
            return Some(*block);
        }
    }
    None
}

// Whether the codeword of the listed nodes, and the least intact block in it, are those of the plain program. The intact
// blocks are in number order.
fn is_plainly_touched(
    alloc: Global,
    lattice: &Lattice,
    listed: &[u32],
    intact: &[BlockId],
) -> bool {
    let first = touched(alloc, lattice, listed, intact);
    let word = codeword(alloc, lattice, listed);
    word.is_ok_and(|word| {
        is_word(alloc, lattice, listed, word.as_slice())
            && first == Some(first_common(intact, word.as_slice()))
    })
}

// Whether they are, where the nodes and the intact blocks are drawn.
fn is_drawn_plainly(alloc: Global, lattice: &Lattice, seed: u32, rarities: (u32, u32)) -> bool {
    let nodes = drawn_nodes(alloc, lattice, seed, rarities.0);
    let intact = drawn_blocks(alloc, lattice, drawn(seed), rarities.1);
    match (nodes, intact) {
        (Some(nodes), Some(intact)) => {
            is_plainly_touched(alloc, lattice, nodes.as_slice(), intact.as_slice())
        }
        _ => false,
    }
}

// Few blocks are intact in some draws, so that the least one is far from its stretch's first node.
#[test]
fn drawn_codewords_are_those_of_the_plain_program(rt: HostRuntime) {
    let alloc = rt.alloc();
    for (alpha, s, p, fences, n) in [
        (1, 1, 0, [9, 10].as_slice(), 30),
        (1, 1, 0, &[3, 17, 18], 30),
        (2, 2, 2, &[8], 24),
        (2, 2, 5, &[1, 7, 15], 30),
        (3, 2, 2, &[5, 24], 24),
        (3, 2, 5, &[4, 11, 12, 20], 30),
        (3, 3, 4, &[10], 30),
    ] {
        let lattice = fenced(alpha, s, p, fences, n);
        for (seed, nodes, intact) in [(1, 2, 3), (2, 3, 9), (3, 4, 30), (4, 6, 4), (5, 2, 60)] {
            let is_same = lattice.is_some_and(|lattice| {
                is_drawn_plainly(alloc, &lattice, seed, (nodes, intact))
            });
            assert!(rt; is_same, "draw {seed} in {lattice:?}");
        }
    }
}

// The least block of these numbers that is not intact, if there is one; none where the lattice has fewer.
fn missing(
    alloc: Global,
    lattice: &Lattice,
    intact: &[BlockId],
    range: (u32, u32),
) -> Option<Option<BlockId>> {
    let (least, next) = range;
    match marked(alloc, lattice, intact) {
        Ok(marks) => {
            if next <= lattice.blocks() {
                Some(least_missing(&marks, least, next))
            } else {
                None
            }
        }
        Err(_) => None,
    }
}

// Whether it is this one, where all but h2 and h4 of five nodes are intact.
fn is_missing(alloc: Global, lattice: &Lattice, range: (u32, u32), want: &str) -> bool {
    let intact = blocks(alloc, "d1 h1 d2 d3 h3 d4 d5 h5");
    let found = intact.and_then(|intact| missing(alloc, lattice, intact.as_slice(), range));
    found.is_some() && found == first_of(alloc, want)
}

#[test]
fn the_least_missing_block_is_in_its_range(rt: HostRuntime) {
    let alloc = rt.alloc();
    let lattice = fenced(1, 1, 0, &[2], 5);
    // h2 has number 3, and h4 number 7
    for (least, next, want) in [
        (0, 10, "h2"),
        (3, 4, "h2"),
        (4, 7, ""),
        (4, 8, "h4"),
        (8, 10, ""),
        (10, 10, ""),
        (9, 5, ""),
    ] {
        let range = (least, next);
        let is_found = match &lattice {
            Some(lattice) => is_missing(alloc, lattice, range, want),
            None => false,
        };
        assert!(rt; is_found, "from {least} to {next}");
    }
}
