ghost use Rattle.std.specs.Prelude.{◌≡◌, ◌≢◌, ℕ, ◌<◌, length, MatchOption};
ghost use Rattle.aea_lattice.specs.Blocks.{HasBlock};
ghost use Rattle.aea_readings.specs.Small.{block_in, AreListed};

use aea_lattice::{BlockId, Lattice};
use std::cmp::Ordering;

// The place of the block in the list, if it is there. What is left of the list is halved by the numbers of its blocks, which rise.
pub(crate) fn find_column(lattice: &Lattice, blocks: &[BlockId], b: BlockId) -> Option<usize>
    requires listed { AreListed lattice.now blocks.now }
    requires block { HasBlock lattice.now b }
    ensures { MatchOption result ((a : ℕ) → a < length blocks.now → block_in blocks.now a ≢ b)
        (λ a. (a < length blocks.now) × (block_in blocks.now a ≡ b)) }
{
    let number = lattice.number(b);
    let mut low = 0;
    let mut high = blocks.len();
    while low < high {
        let middle = low + (high - low) / 2;
        match lattice.number(blocks[middle]).cmp(&number) {
            Ordering::Less => low = middle + 1,
            Ordering::Equal => return Some(middle),
            Ordering::Greater => high = middle,
        }
    }
    None
}
