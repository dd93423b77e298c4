ghost use Rattle.std.specs.Prelude.{◌≡◌, ◌==◌, IfOk, filter};
ghost use Rattle.aea_lattice.specs.Lists.{has_node};
ghost use Rattle.aea_lattice.specs.Blocks.{HasBlock, blocks_of};
ghost use Rattle.aea_lattice.specs.Equations.{is_in_codeword};

use crate::strands::is_on;
use aea_lattice::{BlockId, Class, Lattice};
use std::alloc::{AllocError, Global};

// Whether the node is one of these.
fn has_node(nodes: &[u32], node: u32) -> bool
    ensures { result ≡ has_node nodes.now node }
{
    nodes.iter().any(|k| node == *k)
}

// Whether an odd number of these nodes are at or before the block on its strand, or for a datum whether its node
// is one of them.
fn is_in_codeword(lattice: &Lattice, nodes: &[u32], b: BlockId) -> bool
    requires { HasBlock lattice.now b }
    ensures { result ≡ is_in_codeword lattice.now (has_node nodes.now) b }
{
    if b.class == Class::Datum {
        return has_node(nodes, b.node);
    }
    let strand = lattice.strand(b.node, b.class);
    let mut is_odd = false;
    for k in 1..b.node + 1 {
        if is_on(lattice, b.class, strand, b.node, k) && has_node(nodes, k) {
            is_odd = !is_odd;
        }
    }
    is_odd
}

/// The blocks of the codeword of these nodes, in number order. A node counts once, and only where the lattice has it.
pub fn codeword(alloc: Global, lattice: &Lattice, nodes: &[u32]) -> Result<Vec<BlockId>, AllocError>
    ensures { IfOk result (λ blocks.
        blocks.items ≡ filter (is_in_codeword lattice.now (has_node nodes.now)) (blocks_of lattice.now)) }
{
    let mut blocks = Vec::new(alloc);
    for k in 0..lattice.blocks() {
        let b = lattice.block(k);
        if is_in_codeword(lattice, nodes, b) {
            blocks.push(b)?;
        }
    }
    Ok(blocks)
}
