//! What the codeword of some nodes contains.

ghost use Rattle.std.specs.Prelude.{◌≡◌, ◌==◌, ◌≤◌, ◌<◌, ◌⊎◌, ℕ, Bool, List, length, get_or};
ghost use Rattle.aea_lattice.specs.declared.blocks.BlockId.{BlockId};
ghost use Rattle.aea_lattice.specs.declared.blocks.Class.TheVariants.{Datum, Horiz, Right, Left};
ghost use Rattle.aea_lattice.specs.Blocks.{HasNode, HasBlock};
ghost use Rattle.aea_lattice.specs.Equations.{is_in_codeword};
ghost use Rattle.aea_lattice.specs.Lists.{has_node};
ghost use Rattle.aea_view.specs.Marked.{is_marked};
ghost use Rattle.aea_walk.specs.Codewords.{AreRising, touched};
ghost use Rattle.aea_walk.specs.Stretches.{AreNextIntact, IsFirstOn};

use crate::nexts::NextIntact;
use crate::stretches::first_parity;
use aea_lattice::{BlockId, Class, Lattice, NodeList};
use aea_view::Marks;

/// The node at this place of the list, counted from 0.
pub(crate) fn node_at(nodes: &NodeList, place: usize) -> u32
    requires { place < length nodes.now }
    ensures { result ≡ get_or nodes.now place 0 }
{
    nodes.get(place).unwrap_or(0)
}

/// The lesser of two nodes.
pub(crate) fn lesser(a: u32, b: u32) -> u32
    ensures first { result ≤ a }
    ensures second { result ≤ b }
    ensures one { (result ≡ a) ⊎ (result ≡ b) }
{
    if a <= b { a } else { b }
}

// Whether the codeword of this node alone contains the block: the node's datum, and each parity on its strands from the node
// on, up to the next fence.
fn reaches(lattice: &Lattice, node: u32, block: BlockId) -> bool
    requires node { HasNode lattice.now node }
    requires block { HasBlock lattice.now block }
    ensures { result ≡ is_in_codeword lattice.now (λ n. n == node) block }
{
    match block.class {
        Class::Datum => block.node == node,
        Class::Horiz | Class::Right | Class::Left => {
            node <= block.node
                && (lattice.strand(node, block.class) == lattice.strand(block.node, block.class)
                    && !lattice.fences.parts(node, block.node))
        }
    }
}

/// Whether the codeword of these nodes contains the block. The nodes are in rising order. It looks at each of them once.
pub fn is_in_codeword(lattice: &Lattice, nodes: &NodeList, block: BlockId) -> bool
    requires nodes { AreRising lattice.now nodes.now }
    requires block { HasBlock lattice.now block }
    ensures { result ≡ is_in_codeword lattice.now (has_node nodes.now) block }
{
    let mut has = false;
    for k in 0..nodes.len() {
        has = has != reaches(lattice, node_at(nodes, k), block);
    }
    has
}

// The first of these nodes whose datum is marked, n + 1 where there is none.
fn first_datum(marks: &Marks, nodes: &NodeList) -> u32
    requires { AreRising marks.now.lattice nodes.now }
    ensures { IsFirstOn marks.now.lattice (is_marked marks.now) nodes.now Datum result }
{
    let mut first = marks.lattice().n() + 1;
    for k in 0..nodes.len() {
        let node = node_at(nodes, k);
        let block = BlockId {
            node,
            class: Class::Datum,
        };
        if marks.get(block) {
            first = lesser(first, node);
        }
    }
    first
}

// The first block at the least of four nodes, which are of the four classes in order; None where all are n + 1.
fn first_of(lattice: &Lattice, datum: u32, horiz: u32, right: u32, left: u32) -> Option<BlockId>
    ensures { (intact : BlockId → Bool) (nodes : List ℕ) → IsFirstOn lattice.now intact nodes Datum datum → IsFirstOn lattice.now intact nodes Horiz horiz
        → IsFirstOn lattice.now intact nodes Right right → IsFirstOn lattice.now intact nodes Left left → result ≡ touched lattice.now intact nodes }
{
    let node = lesser(lesser(datum, horiz), lesser(right, left));
    if node > lattice.n() {
        return None;
    }
    let class = if datum == node {
        Class::Datum
    } else if horiz == node {
        Class::Horiz
    } else if right == node {
        Class::Right
    } else {
        Class::Left
    };
    Some(BlockId { node, class })
}

/// The marked block of the least number in the codeword of these nodes, None where it contains none. The nodes are in
/// rising order. It looks at each of them four times for each class, and at no block between them.
pub fn first_touched(marks: &Marks, next: &NextIntact, nodes: &NodeList) -> Option<BlockId>
    requires next { AreNextIntact marks.now.lattice (is_marked marks.now) next.now }
    requires nodes { AreRising marks.now.lattice nodes.now }
    ensures { result ≡ touched marks.now.lattice (is_marked marks.now) nodes.now }
{
    let datum = first_datum(marks, nodes);
    let horiz = first_parity(marks, next, nodes, Class::Horiz);
    let right = first_parity(marks, next, nodes, Class::Right);
    let left = first_parity(marks, next, nodes, Class::Left);
    first_of(marks.lattice(), datum, horiz, right, left)
}
