//! The pass over the blocks of a lattice in number order.

ghost use Rattle.std.specs.Prelude.{◌≡◌, ◌==◌, ◌++◌, ◌∷◌, [], ◌≤◌, ◌<◌, ℕ, Bool, true, false, List, length, ◌↔◌};
ghost use Rattle.aea_lattice.specs.declared.blocks.Class.TheVariants.{Datum};
ghost use Rattle.aea_lattice.specs.declared.blocks.BlockId.{BlockId};
ghost use Rattle.aea_lattice.specs.Blocks.{HasNode, HasBlock, block_of, class_number, blocks_count};
ghost use Rattle.aea_view.specs.Marked.{is_marked};
ghost use Rattle.aea_view.specs.Bits.{has_bit};
ghost use Rattle.aea_sums.specs.Rows.{row_in, AreSlots, IsTagged, Fits};
ghost use Rattle.aea_sums.specs.Places.{places_of};
ghost use Rattle.aea_sums.specs.Tags.{AreTags, HasTags};
ghost use Rattle.aea_sums.specs.Vectors.{SameFits, PassesDatum, PassesOpen, parities_count, IsPass, ArePassed, AreRecords};

use crate::place::{parity_number, place, row_of};
use crate::row::Row;
use crate::table::{pass_end, pass_known, pass_tag, settle};
use aea_lattice::{BlockId, Class, Lattice};
use aea_view::Marks;

// What came of a block: the row that was taken out there, and which wanted blocks are lost.
#[derive(Clone, Copy, Debug, PartialEq, Eq)]
pub(crate) struct Passed {
    pub row: Row,
    pub lost: u64,
}

// Goes over the datum of the node, which has these tags.
fn pass_datum(
    lattice: &Lattice,
    known: &Marks,
    rows: &mut [Row],
    lost: u64,
    node: u32,
    tags: u64,
) -> u64
    requires node { HasNode lattice.now node }
    requires same { known.now.lattice ≡ lattice.now }
    requires long { length rows.old ≡ places_of lattice.now }
    requires slots { AreSlots rows.old }
    ensures long { length rows.new ≡ length rows.old }
    ensures slots { AreSlots rows.new }
    ensures known { is_marked known.now (block_of node Datum) ≡ true → SameFits rows.old lost rows.new result }
    ensures lost { is_marked known.now (block_of node Datum) ≡ false → (wanted : List BlockId) → AreTags wanted (block_of node Datum) tags
        → PassesDatum lattice.now wanted node rows.old lost rows.new result }
{
    let b = BlockId {
        node,
        class: Class::Datum,
    };
    if known.get(b) {
        return lost;
    }
    settle(rows, lost, &row_of(lattice, node, tags))
}

// Goes over a parity that is not known, and that has these tags.
fn pass_open(lattice: &Lattice, rows: &mut [Row], lost: u64, b: BlockId, tags: u64) -> u64
    requires block { HasBlock lattice.now b }
    requires parity { 1 ≤ class_number b.class }
    requires long { length rows.old ≡ places_of lattice.now }
    requires slots { AreSlots rows.old }
    ensures long { length rows.new ≡ length rows.old }
    ensures slots { AreSlots rows.new }
    ensures passes { (wanted : List BlockId) → AreTags wanted b tags → PassesOpen lattice.now wanted b rows.old lost rows.new result }
{
    let at = place(lattice, b.node, b.class);
    pass_tag(rows, at, tags);
    match lattice.next(b.node, b.class) {
        Some(_) => lost,
        None => pass_end(rows, at, lost),
    }
}

// Whether the block is a datum.
pub(crate) fn is_datum(b: BlockId) -> bool
    ensures { result ≡ (class_number b.class == 0) }
{
    match b.class {
        Class::Datum => true,
        Class::Horiz | Class::Right | Class::Left => false,
    }
}

// Goes over the block, which has these tags.
pub(crate) fn pass_block(
    lattice: &Lattice,
    known: &Marks,
    rows: &mut [Row],
    lost: u64,
    b: BlockId,
    tags: u64,
) -> Passed
    requires block { HasBlock lattice.now b }
    requires same { known.now.lattice ≡ lattice.now }
    requires long { length rows.old ≡ places_of lattice.now }
    requires slots { AreSlots rows.old }
    ensures long { length rows.new ≡ length rows.old }
    ensures slots { AreSlots rows.new }
    ensures passes { (wanted : List BlockId) → AreTags wanted b tags → IsPass lattice.now (is_marked known.now) wanted b result.row rows.old lost rows.new result.lost }
{
    if is_datum(b) {
        return Passed {
            row: Row::none(),
            lost: pass_datum(lattice, known, rows, lost, b.node, tags),
        };
    }
    if known.get(b) {
        return Passed {
            row: pass_known(rows, place(lattice, b.node, b.class)),
            lost,
        };
    }
    Passed {
        row: Row::none(),
        lost: pass_open(lattice, rows, lost, b, tags),
    }
}

// Ends all strands: then no row is left.
fn end_all(rows: &mut [Row], lost: u64) -> u64
    requires { AreSlots rows.old }
    ensures long { length rows.new ≡ length rows.old }
    ensures ends { (k : ℕ) (some : Bool) (y : ℕ → Bool) → k < 64 → IsTagged k some y → ((t : ℕ) → t < 192 → y t ≡ false)
        → Fits rows.old lost k some y ↔ (some ≡ true → has_bit result k ≡ false) }
{
    let mut less = lost;
    for t in 0..rows.len() {
        less = pass_end(rows, t as u32, less);
    }
    less
}

// Takes all bits from the rows.
fn clear(rows: &mut [Row])
    ensures long { length rows.new ≡ length rows.old }
    ensures empty { (r t : ℕ) → row_in rows.new r t ≡ false }
{
    for r in 0..rows.len() {
        rows[r] = Row::none();
    }
}

/// Goes over all blocks, whose tags are in a table by number, and writes down what was taken out at each known parity. It gives which wanted blocks are lost. What the rows and the records had before does not matter, and it takes no memory.
pub(crate) fn pass_all(
    lattice: &Lattice,
    known: &Marks,
    tags: &[u64],
    rows: &mut [Row],
    records: &mut [Row],
) -> u64
    requires same { known.now.lattice ≡ lattice.now }
    requires tags { length tags.now ≡ blocks_count lattice.now }
    requires long { length rows.old ≡ places_of lattice.now }
    requires records { length records.old ≡ parities_count lattice.now }
    ensures long { length rows.new ≡ length rows.old }
    ensures records_long { length records.new ≡ length records.old }
    ensures records { (wanted : List BlockId) → HasTags lattice.now wanted tags.now
        → AreRecords lattice.now (is_marked known.now) wanted records.new result }
{
    clear(rows);
    let mut lost = 0;
    for k in 0..lattice.blocks() {
        let b = lattice.block(k);
        let passed = pass_block(lattice, known, rows, lost, b, tags[k as usize]);
        lost = passed.lost;
        if !is_datum(b) {
            records[parity_number(lattice, b) as usize] = passed.row;
        }
    }
    end_all(rows, lost)
}
