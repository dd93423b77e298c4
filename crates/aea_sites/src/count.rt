//! Lost blocks are counted in number order, and the first is kept with its nodes.

ghost use Rattle.std.specs.Prelude.{◌≡◌, ◌+◌, ◌-◌, ◌<◌, ◌^◌, ◌++◌, ◌∷◌, [], ℕ, List, length, filter, get_or, Option, None, Some, IfOk, OnOk};
ghost use Rattle.aea_lattice.specs.declared.blocks.BlockId.{BlockId};
ghost use Rattle.aea_lattice.specs.declared.grid.Lattice.{Lattice};
ghost use Rattle.aea_lattice.specs.Blocks.{blocks_count, blocks_of, number_of};
ghost use Rattle.aea_sites.specs.Counts.{has_nodes, with_nodes, IsCountOf};

use crate::lost::{FirstLost, SiteLoss};
use aea_lattice::{BlockId, Lattice, NodeList};
use aea_sweep::LossList;
use std::alloc::{AllocError, Global};

// A list of these nodes.
fn copied(alloc: Global, nodes: &[u32]) -> Result<NodeList, AllocError>
    ensures { IfOk result (λ list. list ≡ nodes.now) }
{
    let mut list = NodeList::with_capacity(alloc, nodes.len())?;
    for k in 0..nodes.len() {
        list.push(nodes[k])?;
    }
    Ok(list)
}

// Counts a lost block that comes after those that were counted. The first one is kept, with its nodes.
fn add_block(
    alloc: Global,
    loss: &mut SiteLoss,
    block: BlockId,
    nodes: &[u32],
) -> Result<(), AllocError>
    requires { loss.old.lost < 2 ^ 32 - 1 }
    ensures { OnOk result ((l : Lattice) (losses : List (Option (List ℕ))) (blocks : List BlockId)
        → get_or losses (number_of l block) None ≡ Some nodes.now → IsCountOf l losses blocks loss.old → IsCountOf l losses (blocks ++ block ∷ []) loss.new) }
{
    if loss.lost == 0 {
        let nodes = copied(alloc, nodes)?;
        loss.first = Some(FirstLost { block, nodes });
    }
    loss.lost += 1;
    Ok(())
}

// Counts the block of this number, if the list has nodes for it.
fn count_block(
    alloc: Global,
    lattice: &Lattice,
    list: &LossList,
    k: u32,
    loss: &mut SiteLoss,
) -> Result<(), AllocError>
    requires long { length list.now ≡ blocks_count lattice.now }
    requires block { k < blocks_count lattice.now }
    requires small { k < 2 ^ 32 - 1 }
    requires count { IsCountOf lattice.now list.now (with_nodes lattice.now list.now k) loss.old }
    ensures { OnOk result (IsCountOf lattice.now list.now (with_nodes lattice.now list.now (k + 1)) loss.new) }
{
    let block = lattice.block(k);
    match list.nodes(k as usize) {
        None => Ok(()),
        Some(nodes) => add_block(alloc, loss, block, nodes),
    }
}

/// Counts the blocks that the list has nodes for, and keeps the first with its nodes.
pub(crate) fn count_lost(
    alloc: Global,
    lattice: &Lattice,
    list: &LossList,
) -> Result<SiteLoss, AllocError>
    requires { length list.now ≡ blocks_count lattice.now }
    ensures { IfOk result (IsCountOf lattice.now list.now (filter (has_nodes lattice.now list.now) (blocks_of lattice.now))) }
{
    let mut loss = SiteLoss {
        lost: 0,
        first: None,
    };
    for k in 0..lattice.blocks() {
        count_block(alloc, lattice, list, k, &mut loss)?;
    }
    Ok(loss)
}
