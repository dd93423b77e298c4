//! The fate of one block.

ghost use Rattle.std.specs.Prelude.{◌≡◌, ◌<◌, ◌++◌, ◌∷◌, [], Bool, false, true, map, length, slice_get, Some, Contains, IfOk, OnOk, MatchOption};
ghost use Rattle.aea_lattice.specs.declared.blocks.BlockId.{BlockId};
ghost use Rattle.aea_lattice.specs.Blocks.{HasBlock};
ghost use Rattle.aea_lattice.specs.Closure.{is_among};
ghost use Rattle.aea_view.specs.Marked.{is_marked};
ghost use Rattle.aea_gauss.specs.Fates.{block_of_fate, IsFate};
ghost use Rattle.aea_search.specs.Searches.{IsRightBy};

use aea_gauss::{Fate, FateList};
use aea_lattice::{BlockId, Items, Lattice, passing_are_among};
use aea_search::Search;
use std::alloc::{AllocError, Global};

// Puts the item of this place last, if there is one.
fn push_from<T: Copy>(copy: &mut Items<T>, items: &Items<T>, k: usize) -> Result<(), AllocError>
    requires { k < length items.now }
    ensures { OnOk result ((x : T) → slice_get items.now k ≡ Some x → copy.new ≡ copy.old ++ x ∷ []) }
{
    match items.get(k) {
        Some(item) => copy.push(item),
        None => Ok(()),
    }
}

// A copy of the items.
fn copy_items<T: Copy>(alloc: Global, items: &Items<T>) -> Result<Items<T>, AllocError>
    ensures { IfOk result (λ copy. copy ≡ items.now) }
{
    let mut copy = Items::with_capacity(alloc, items.len())?;
    for k in 0..items.len() {
        push_from(&mut copy, items, k)?;
    }
    Ok(copy)
}

// A copy of the fate.
fn copy_fate(alloc: Global, fate: &Fate) -> Result<Fate, AllocError>
    ensures { IfOk result (λ copy. copy ≡ fate.now) }
{
    match fate {
        Fate::Sum { block, eqs } => Ok(Fate::Sum {
            block: *block,
            eqs: copy_items(alloc, eqs)?,
        }),
        Fate::Word { block, nodes } => Ok(Fate::Word {
            block: *block,
            nodes: copy_items(alloc, nodes)?,
        }),
    }
}

// The first fate of the block, if there is one.
fn find_fate(fates: &FateList, block: BlockId) -> Option<&Fate>
    ensures { MatchOption result (is_among (map block_of_fate fates.now) block ≡ false)
        (λ fate. Contains fates.now fate.now × (block_of_fate fate.now ≡ block)) }
{
    for k in 0..fates.len() {
        if let Some(fate) = fates.get(k) {
            if fate.block() == block {
                return Some(fate);
            }
        }
    }
    None
}

// A copy of the fate of the block.
fn take_fate(alloc: Global, fates: &FateList, block: BlockId) -> Result<Fate, AllocError>
    requires { is_among (map block_of_fate fates.now) block ≡ true }
    ensures listed { IfOk result (Contains fates.now) }
    ensures block { IfOk result (λ fate. block_of_fate fate ≡ block) }
{
    match find_fate(fates, block) {
        Some(fate) => copy_fate(alloc, fate),
        None => unreachable!(),
    }
}

/// The fate of a block that a search has gone around: where exactly the blocks are known that pass a test that is right about
/// what the search has read. An error is lack of memory.
pub(crate) fn fate_of(
    alloc: Global,
    lattice: &Lattice,
    search: &Search,
    block: BlockId,
) -> Result<Fate, AllocError>
    requires same { search.now.read.lattice ≡ lattice.now }
    requires block { HasBlock lattice.now block }
    requires unknown { is_marked search.now.unknown block ≡ true }
    requires done { search.now.waiting ≡ [] }
    ensures block { IfOk result (λ fate. block_of_fate fate ≡ block) }
    ensures fate { IfOk result (λ fate. (known : BlockId → Bool) → IsRightBy lattice.now known search.now → IsFate lattice.now known fate) }
{
    passing_are_among();
    let fates = search.fates(alloc, lattice)?;
    let fate = take_fate(alloc, &fates, block)?;
    Ok(fate)
}
