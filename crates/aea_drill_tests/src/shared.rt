//! What several of these tests share: lattices with fences, words that are parsed, and sets of nodes. A set of nodes is a word, node i
//! its bit i - 1.

use aea_cli::{Command, parse_words};
use aea_lattice::{BlockId, Lattice};
use aea_runs::words_of;
use aea_test_helpers::{Mask, ends_of, escapes};
use std::alloc::{AllocError, Global};

/// The lattice of this shape with these fences, which rise, and n nodes.
pub fn fenced(shape: (u8, u8, u8), fences: &[u32], n: u32) -> Option<Lattice> {
    let (alpha, s, p) = shape;
    let mut lattice = Lattice::new(alpha, s, p, 0)?;
    for fence in fences {
        lattice = lattice.grown(*fence)?.fenced()?;
    }
    lattice.grown(n)
}

/// The command that the words of the line are; none where they are none or memory runs out.
pub fn command_of(alloc: Global, line: &str) -> Option<Command> {
    let words = words_of(alloc, line).ok()?;
    parse_words(alloc, words.as_slice()).ok()?
}

/// The sets of the ends where these blocks are lost. An error is lack of memory.
pub fn ends_without(
    alloc: Global,
    lattice: &Lattice,
    masks: &[Mask],
    lost: &[BlockId],
) -> Result<Vec<u64>, AllocError> {
    let sets = escapes(alloc, lattice, masks, lost)?;
    ends_of(alloc, masks, sets)
}

/// Adds the word, a lost block and the nodes of its set, as `lost d2 by 2 3`, and ends the line. An error is lack of memory.
pub fn add_lost(text: &mut String, word: &str, b: BlockId, set: u64) -> Result<(), AllocError> {
    let letter = char::from(b.class.letter());
    let lost = b.node;
    write!(text, "{word}{letter}{lost} by")?;
    let mut bit = 1u64;
    for node in 1..65u32 {
        if set & bit != 0 {
            write!(text, " {node}")?;
        }
        bit = bit.wrapping_mul(2);
    }
    text.push_str("\n")
}
