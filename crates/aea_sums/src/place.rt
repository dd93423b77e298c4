//! The places of strands, and the rows of data.

ghost use Rattle.std.specs.Prelude.{◌≡◌, ◌<◌, ◌≤◌, ◌&&◌, ℕ, Bool, false};
ghost use Rattle.aea_lattice.specs.Blocks.{HasNode, HasParity, HasBlock, block_of, class_number};
ghost use Rattle.aea_lattice.specs.Strands.{strand_of};
ghost use Rattle.aea_lattice.specs.Parity.{differ};
ghost use Rattle.aea_view.specs.Bits.{has_bit};
ghost use Rattle.aea_sums.specs.Rows.{row_bit, meets, IsTagged};
ghost use Rattle.aea_sums.specs.Places.{places_of, place_on, place_at, odd_classes};
ghost use Rattle.aea_sums.specs.Vectors.{parity_number, parities_count};

use crate::row::Row;
use aea_lattice::{BlockId, Class, Lattice};

// The number of strands of a lattice of three classes.
pub(crate) fn places(lattice: &Lattice) -> u32
    ensures places { result ≡ places_of lattice.now }
    ensures few { result < 192 }
{
    u32::from(lattice.s()) + 2 * u32::from(lattice.p())
}

// The place of the node's strand of the class.
pub(crate) fn place(lattice: &Lattice, node: u32, class: Class) -> u32
    requires node { HasNode lattice.now node }
    requires class { HasParity lattice.now class }
    ensures place { result ≡ place_on lattice.now class (strand_of lattice.now class node) }
    ensures below { result < places_of lattice.now }
    ensures few { result < 192 }
{
    let strand = lattice.strand(node, class);
    match class {
        Class::Datum | Class::Horiz => strand,
        Class::Right => u32::from(lattice.s()) + strand,
        Class::Left => u32::from(lattice.s()) + u32::from(lattice.p()) + strand,
    }
}

// The place of a parity among the parities in number order.
pub(crate) fn parity_number(lattice: &Lattice, b: BlockId) -> u32
    requires block { HasBlock lattice.now b }
    requires parity { 1 ≤ class_number b.class }
    ensures number { result ≡ parity_number lattice.now b }
    ensures below { result < parities_count lattice.now }
{
    lattice.number(b) - b.node
}

// The row of a datum that is not known: the places of its node, and these tags.
pub(crate) fn row_of(lattice: &Lattice, node: u32, tags: u64) -> Row
    requires { HasNode lattice.now node }
    ensures narrow { (t : ℕ) → places_of lattice.now ≤ t → t < 192 → row_bit result t ≡ false }
    ensures meets { (k : ℕ) (some : Bool) (y : ℕ → Bool) → k < 64 → IsTagged k some y
        → meets (row_bit result) y ≡ differ (some && has_bit tags k) (odd_classes lattice.now (λ c. y (place_at lattice.now (block_of node c)))) }
{
    let horiz = Row::tagged(tags).flipped(place(lattice, node, Class::Horiz));
    if lattice.alpha() < 2 {
        return horiz;
    }
    let right = horiz.flipped(place(lattice, node, Class::Right));
    if lattice.alpha() < 3 {
        return right;
    }
    right.flipped(place(lattice, node, Class::Left))
}
