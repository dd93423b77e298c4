//! Parts of objects.

ghost use Rattle.std.specs.Prelude.{◌≡◌, ◌+◌, ◌*◌, ◌^◌, ◌<◌, ◌≤◌, length};
ghost use Rattle.std.specs.List.{sum_by};
ghost use Rattle.aea_records.specs.Fields.{are_apart, are_parts};

use crate::fields::nodes_for;
use aea_catalog::Extent;
use aea_lattice::Shape;

// Whether each part has a node at least, begins past the end of the one before, and ends at the last node or before.
fn are_apart(nodes: u32, parts: &[Extent]) -> bool
    ensures { result ≡ are_apart 0 nodes parts.now }
{
    let mut after = 0u64;
    for part in parts {
        let (first, count) = (u64::from(part.first), u64::from(part.count));
        if !(after < first && 1 <= count && first + count <= u64::from(nodes) + 1) {
            return false;
        }
        after = first + count - 1;
    }
    true
}

// How many nodes the parts have.
fn total(parts: &[Extent]) -> u64
    requires { length parts.now ≤ 2 ^ 20 }
    ensures { result ≡ sum_by (λ e. e.count) parts.now }
{
    let mut sum = 0u64;
    for part in parts {
        sum += u64::from(part.count);
    }
    sum
}

/// Whether these are the parts of an object of so many bytes where there are so many nodes: they lie apart, in order, and
/// have as many nodes as its length takes.
pub fn are_parts(shape: &Shape, size: u64, nodes: u32, parts: &[Extent]) -> bool
    requires { length parts.now ≤ 2 ^ 20 }
    ensures { result ≡ are_parts shape.now size nodes parts.now }
{
    are_apart(nodes, parts) && total(parts) == nodes_for(shape, size)
}
