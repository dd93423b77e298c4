ghost use Rattle.std.specs.Prelude.{◌≡◌, IfOk};
ghost use Rattle.aea_lattice.specs.Blocks.{HasNode, HasParity};
ghost use Rattle.aea_lattice.specs.Strands.{is_on, prefix, previous, IsNext};
ghost use Rattle.aea_lattice.specs.Ends.{last_open};

use aea_lattice::{Class, Lattice};
use std::alloc::{AllocError, Global};

// Whether the node lies on this strand of the class, with no fence at it or later and before `last`.
pub(crate) fn is_on(lattice: &Lattice, class: Class, strand: u32, last: u32, node: u32) -> bool
    requires node { HasNode lattice.now node }
    requires class { HasParity lattice.now class }
    ensures { result ≡ is_on lattice.now class strand last node }
{
    lattice.strand(node, class) == strand && !lattice.fences.parts(node, last)
}

/// The nodes up to this one on its strand of the class that no fence parts from it, in order, by a scan of the nodes
/// from 1 on.
pub fn prefix(
    alloc: Global,
    lattice: &Lattice,
    node: u32,
    class: Class,
) -> Result<Vec<u32>, AllocError>
    requires node { HasNode lattice.now node }
    requires class { HasParity lattice.now class }
    ensures { IfOk result (λ nodes. nodes.items ≡ prefix lattice.now class node) }
{
    let strand = lattice.strand(node, class);
    let mut nodes = Vec::new(alloc);
    for k in 1..node + 1 {
        if is_on(lattice, class, strand, node, k) {
            nodes.push(k)?;
        }
    }
    Ok(nodes)
}

/// The node just before this one on its strand of the class, None where the strand begins here, by a scan down.
pub fn previous(lattice: &Lattice, node: u32, class: Class) -> Option<u32>
    requires node { HasNode lattice.now node }
    requires class { HasParity lattice.now class }
    ensures { result ≡ previous lattice.now class node }
{
    let strand = lattice.strand(node, class);
    for k in (1..node).rev() {
        if is_on(lattice, class, strand, node, k) {
            return Some(k);
        }
    }
    None
}

/// The node of the lattice that has this one just before it on the class, None where there is none up to n, by a
/// scan up.
pub fn next(lattice: &Lattice, node: u32, class: Class) -> Option<u32>
    requires node { HasNode lattice.now node }
    requires class { HasParity lattice.now class }
    ensures { IsNext lattice.now class node result }
{
    for k in node + 1..lattice.n + 1 {
        if is_on(lattice, class, lattice.strand(k, class), k, node) {
            return Some(k);
        }
    }
    None
}

/// The last node up to n on this strand of the class that no fence parts from a node after n, None where there is none,
/// by a scan down.
pub fn last_on(lattice: &Lattice, class: Class, strand: u32) -> Option<u32>
    requires { HasParity lattice.now class }
    ensures { result ≡ last_open lattice.now class strand }
{
    for k in (1..lattice.n + 1).rev() {
        if is_on(lattice, class, strand, lattice.n + 1, k) {
            return Some(k);
        }
    }
    None
}
