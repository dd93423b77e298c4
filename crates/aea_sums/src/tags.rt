//! The tags of the wanted blocks, in a table by number.

ghost use Rattle.std.specs.Prelude.{◌≡◌, ◌≤◌, ◌<◌, ℕ, length, get_or};
ghost use Rattle.aea_lattice.specs.Blocks.{HasBlock, blocks_count};
ghost use Rattle.aea_sums.specs.Sums.{wanted_at};
ghost use Rattle.aea_sums.specs.Tags.{HasTags};

use crate::row::flipped;
use aea_lattice::{BlockId, Lattice};

/// Makes all words 0.
pub(crate) fn clear_words(words: &mut [u64])
    ensures long { length words.new ≡ length words.old }
    ensures none { (t : ℕ) → get_or words.new t 0 ≡ 0 }
{
    for t in 0..words.len() {
        words[t] = 0;
    }
}

/// Gives each wanted block its tag in the table, and no other block one. A block that is wanted more than once has a tag for
/// each time.
pub(crate) fn fill_tags(lattice: &Lattice, wanted: &[BlockId], table: &mut [u64])
    requires few { length wanted.now ≤ 64 }
    requires wanted { (k : ℕ) → k < length wanted.now → HasBlock lattice.now (wanted_at wanted.now k) }
    requires long { length table.old ≡ blocks_count lattice.now }
    ensures long { length table.new ≡ length table.old }
    ensures tags { HasTags lattice.now wanted.now table.new }
{
    clear_words(table);
    for k in 0..wanted.len() {
        let number = lattice.number(wanted[k]) as usize;
        table[number] = flipped(table[number], k as u32);
    }
}
