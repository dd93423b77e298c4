//! The pass back: which equations are in the sums.

ghost use Rattle.std.specs.Prelude.{◌≡◌, ◌⊎◌, ◌≤◌, ◌<◌, ℕ, List, true, false, length, get_or, slice_set};
ghost use Rattle.aea_lattice.specs.declared.blocks.BlockId.{BlockId};
ghost use Rattle.aea_lattice.specs.Blocks.{HasBlock, class_number, blocks_count};
ghost use Rattle.aea_view.specs.Marked.{is_marked};
ghost use Rattle.aea_view.specs.Bits.{has_bit};
ghost use Rattle.aea_sums.specs.Rows.{row_bit, meets};
ghost use Rattle.aea_sums.specs.Places.{places_of, place_at};
ghost use Rattle.aea_sums.specs.Tags.{AreTags, HasTags};
ghost use Rattle.aea_sums.specs.Vectors.{parities_count, record_at, IsTaken};
ghost use Rattle.aea_sums.specs.Backs.{column, IsKnownValue, IsOpenValue, AreTaken, AreBack};

use crate::forward::is_datum;
use crate::place::{parity_number, place};
use crate::row::Row;
use crate::tags::clear_words;
use aea_lattice::{BlockId, Lattice};
use aea_view::Marks;

// The XOR of the row's tags and of the words at its places.
fn value(row: &Row, words: &[u64]) -> u64
    requires few { length words.now < 192 }
    requires narrow { (t : ℕ) → length words.now ≤ t → t < 192 → row_bit row.now t ≡ false }
    ensures { (k : ℕ) → k < 64 → has_bit result k ≡ meets (row_bit row.now) (column words.now k) }
{
    let mut sum = row.tags;
    for t in 0..words.len() {
        if row.has(t as u32) {
            sum = sum ^ words[t];
        }
    }
    sum
}

// What the row that was taken out at a known parity tells of its equation.
fn known_value(row: &Row, words: &[u64], place: u32) -> u64
    requires few { length words.now < 192 }
    requires place { place < length words.now }
    requires narrow { (t : ℕ) → length words.now ≤ t → t < 192 → row_bit row.now t ≡ false }
    requires kind { (row_bit row.now place ≡ true) ⊎ ((t : ℕ) → row_bit row.now t ≡ false) }
    ensures told { (k : ℕ) → k < 64 → meets (row_bit row.now) (column (slice_set words.now place result) k) ≡ false }
    ensures has { (k : ℕ) → has_bit result k ≡ true → row_bit row.now place ≡ true }
{
    if row.has(place) {
        return value(&row.flipped(place), words);
    }
    0
}

// Which sums have the equation of a parity that is not known, and that has these tags.
fn open_value(lattice: &Lattice, words: &[u64], b: BlockId, tags: u64) -> u64
    requires block { HasBlock lattice.now b }
    requires parity { 1 ≤ class_number b.class }
    requires long { length words.now ≡ places_of lattice.now }
    ensures { (wanted : List BlockId) → AreTags wanted b tags → IsOpenValue lattice.now wanted b words.now result }
{
    let at = place(lattice, b.node, b.class);
    match lattice.next(b.node, b.class) {
        Some(_) => words[at as usize] ^ tags,
        None => tags,
    }
}

// Which sums have the equation of a parity that has these tags.
fn parity_value(
    lattice: &Lattice,
    known: &Marks,
    records: &[Row],
    words: &[u64],
    b: BlockId,
    tags: u64,
) -> u64
    requires block { HasBlock lattice.now b }
    requires parity { 1 ≤ class_number b.class }
    requires same { known.now.lattice ≡ lattice.now }
    requires long { length words.now ≡ places_of lattice.now }
    requires count { length records.now ≡ parities_count lattice.now }
    requires taken { is_marked known.now b ≡ true → IsTaken lattice.now b (record_at lattice.now records.now b) }
    ensures known { is_marked known.now b ≡ true → IsKnownValue lattice.now records.now b words.now result }
    ensures lost { is_marked known.now b ≡ false → (wanted : List BlockId) → AreTags wanted b tags
        → IsOpenValue lattice.now wanted b words.now result }
{
    if known.get(b) {
        let k = parity_number(lattice, b);
        return known_value(&records[k as usize], words, place(lattice, b.node, b.class));
    }
    open_value(lattice, words, b, tags)
}

// Goes over all blocks from the last one to the first. The table has the tags of the blocks, and then the words of parities.
pub(crate) fn back_all(
    lattice: &Lattice,
    known: &Marks,
    records: &[Row],
    words: &mut [u64],
    table: &mut [u64],
)
    requires same { known.now.lattice ≡ lattice.now }
    requires long { length words.old ≡ places_of lattice.now }
    requires table { length table.old ≡ blocks_count lattice.now }
    requires count { length records.now ≡ parities_count lattice.now }
    requires taken { AreTaken lattice.now (is_marked known.now) records.now }
    ensures long { length words.new ≡ length words.old }
    ensures table_long { length table.new ≡ length table.old }
    ensures back { (wanted : List BlockId) → HasTags lattice.now wanted table.old
        → (last : List ℕ) × AreBack lattice.now (is_marked known.now) wanted records.now table.new last 0 }
{
    clear_words(words);
    for at in 0..lattice.blocks() {
        let k = lattice.blocks() - 1 - at;
        let b = lattice.block(k);
        if !is_datum(b) {
            let sums = parity_value(lattice, known, records, words, b, table[k as usize]);
            words[place(lattice, b.node, b.class) as usize] = sums;
            table[k as usize] = sums;
        }
    }
}
