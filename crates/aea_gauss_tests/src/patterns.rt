//! The smallest patterns of two nodes that have no parity after the second one. How many blocks they have is published
//! in "Alpha Entanglement Codes" (Estrada-Galiñanes, Miller, Felber, Pâris, DSN 2018).

use crate::bench::fates_of;
use aea_lattice::{BlockId, Class, Lattice};
use aea_plain::codeword;
use std::alloc::Global;
use std::test::Fail;

// Whether none of the parities is at the node or after it.
fn ends_before(blocks: &[BlockId], node: u32) -> bool {
    blocks
        .iter()
        .all(|b| b.class == Class::Datum || b.node < node)
}

// The least codeword of a node and one after it that has no parity after that one, with the second node.
fn least_pattern(alloc: Global, lattice: &Lattice, first: u32) -> Option<(u32, Vec<BlockId>)> {
    let mut least: Option<(u32, Vec<BlockId>)> = None;
    for second in 1..lattice.n + 1 {
        let blocks = codeword(alloc, lattice, &[first, second]).ok()?;
        let fewer = match &least {
            Some((_, other)) => blocks.len() < other.len(),
            None => true,
        };
        if first < second && fewer && ends_before(blocks.as_slice(), second) {
            least = Some((second, blocks));
        }
    }
    least
}

// Whether the text has so many lines, and each ends with the word.
fn end_lines(text: &str, word: &str, count: usize) -> bool {
    text.lines().count() == count && text.lines().all(|line| line.ends_with(word))
}

// Whether each of these blocks is lost in the word of the two nodes, where they are lost.
fn have_words(alloc: Global, lattice: &Lattice, nodes: (u32, u32), blocks: &[BlockId]) -> bool {
    let (first, second) = nodes;
    match format!(in alloc; " by {first} {second}") {
        Ok(word) => fates_of(alloc, lattice, blocks).is_some_and(|fates| end_lines(
            fates.as_str(),
            word.as_str(),
            blocks.len(),
        )),
        Err(_) => false,
    }
}

// The number of blocks of the least pattern of the node and a later one; none where one is not lost in its word.
fn size_of(alloc: Global, lattice: &Lattice, first: u32) -> Option<usize> {
    let (second, blocks) = least_pattern(alloc, lattice, first)?;
    let are_lost = have_words(alloc, lattice, (first, second), blocks.as_slice());
    are_lost.then_some(blocks.len())
}

#[test]
fn smallest_patterns_are_the_published_ones(rt: HostRuntime) -> Result<(), Fail> {
    for (alpha, s, p, count) in [(3, 4, 4, 14), (2, 2, 5, 9), (3, 2, 5, 11)] {
        let lattice = Lattice::new(alpha, s, p, 80).ok_or("no lattice")?;
        let mut counts: usize = 1_000;
        for first in 21..21 + u32::from(s) {
            let size = size_of(rt.alloc(), &lattice, first);
            assert!(rt; size.is_some(), "{first} of {alpha} {s} {p}");
            counts = counts.min(size.unwrap_or(1_000));
        }
        assert!(rt; counts == count, "{alpha} {s} {p}");
    }
    Ok(())
}
