ghost use Rattle.std.specs.Prelude.{◌≡◌, ◌<◌, ◌≤◌, Bool, false, true, [], None, length, get_or, map, take, unwrap_or, IfOk};
ghost use Rattle.aea_lattice.specs.declared.blocks.BlockId.{BlockId};
ghost use Rattle.aea_lattice.specs.Blocks.{blocks_count};
ghost use Rattle.aea_readings.specs.Small.{AreListed};
ghost use Rattle.aea_sweep.specs.Losses.{AreLosses};
ghost use Rattle.aea_gauss.specs.Fates.{block_of_fate};
ghost use Rattle.aea_gauss.specs.Lost.{IsLost, AreLostRight};
ghost use Rattle.aea_gauss.specs.Parts.{StandsIn};

use crate::fates::{Fate, FateList};
use aea_lattice::{BlockId, Lattice, NodeList};
use aea_sweep::LossList;
use std::alloc::{AllocError, Global};

// A list of these nodes.
pub(crate) fn copied(alloc: Global, nodes: &[u32]) -> Result<NodeList, AllocError>
    ensures { IfOk result (λ list. list ≡ nodes.now) }
{
    let mut list = NodeList::with_capacity(alloc, nodes.len())?;
    for k in 0..nodes.len() {
        list.push(nodes[k])?;
    }
    Ok(list)
}

// The nodes of the block of this number; none where the list has none for it.
fn nodes_of(alloc: Global, losses: &LossList, number: u32) -> Result<NodeList, AllocError>
    requires { number < length losses.now }
    ensures { IfOk result (λ list. list ≡ unwrap_or (get_or losses.now number None) []) }
{
    match losses.nodes(number as usize) {
        None => Ok(NodeList::new(alloc)),
        Some(nodes) => copied(alloc, nodes),
    }
}

// For each block that the list has nodes for, that it is lost by these; for each other block, in place of its sum, a word without
// nodes.
pub(crate) fn lost_fates(
    alloc: Global,
    lattice: &Lattice,
    losses: &LossList,
    blocks: &[BlockId],
) -> Result<FateList, AllocError>
    requires listed { AreListed lattice.now blocks.now }
    requires long { length losses.now ≡ blocks_count lattice.now }
    ensures blocks { IfOk result (λ fates. map block_of_fate fates ≡ blocks.now) }
    ensures lost { IfOk result (λ fates. (known : BlockId → Bool) → AreLosses lattice.now known losses.now → AreLostRight lattice.now known blocks.now losses.now fates) }
{
    let mut fates = FateList::new(alloc);
    for at in 0..blocks.len() {
        let block = blocks[at];
        let nodes = nodes_of(alloc, losses, lattice.number(block))?;
        fates.push(Fate::Word { block, nodes })?;
    }
    Ok(fates)
}

// Whether the list has no nodes for some of the blocks.
pub(crate) fn has_determined(lattice: &Lattice, losses: &LossList, blocks: &[BlockId]) -> bool
    requires listed { AreListed lattice.now blocks.now }
    requires long { length losses.now ≡ blocks_count lattice.now }
    ensures lost { result ≡ false → (b : BlockId) → StandsIn blocks.now b → IsLost lattice.now losses.now b }
    ensures some { result ≡ true → 1 ≤ length blocks.now }
{
    for at in 0..blocks.len() {
        let number = lattice.number(blocks[at]);
        match losses.nodes(number as usize) {
            None => return true,
            Some(_) => (),
        }
    }
    false
}
