//! Sums of determined blocks, found 64 at a time.

ghost use Rattle.std.specs.Prelude.{◌≡◌, ◌≤◌, ◌<◌, ◌+◌, ℕ, Bool, [], true, false, length, get_or, IfOk, OnOk, MatchOption};
ghost use Rattle.aea_lattice.specs.declared.blocks.BlockId.{BlockId};
ghost use Rattle.aea_lattice.specs.declared.grid.Lattice.{Lattice};
ghost use Rattle.aea_lattice.specs.Blocks.{HasBlock, blocks_count};
ghost use Rattle.aea_lattice.specs.Data.{Determines};
ghost use Rattle.aea_fates.specs.Sums.{IsSum};
ghost use Rattle.aea_view.specs.Marked.{is_marked};
ghost use Rattle.aea_sums.specs.Sums.{wanted_at, AreWanted, equations_in, HasSpace};
ghost use Rattle.aea_gauss.specs.Batches.{IsBatch};

use aea_lattice::{BlockId, EqList, Lattice};
use aea_sums::SumTable;
use aea_sweep::LossList;
use aea_view::Marks;
use std::alloc::{AllocError, Global};

// The most blocks whose sums are found at a time: a table has so many tags.
const MOST: usize = 64;

/// Determined blocks, and at the same places their listed equations.
#[derive(Drop)]
pub(crate) struct Batch {
    pub(crate) wanted: Vec<BlockId>,
    pub(crate) lists: Vec<EqList>,
}

// Puts the block last, if it is not known and not lost.
fn keep_determined(
    lattice: &Lattice,
    known: &Marks,
    lost: &LossList,
    wanted: &mut Vec<BlockId>,
    k: u32,
) -> Result<(), AllocError>
    requires same { known.now.lattice ≡ lattice.now }
    requires long { length lost.now ≡ blocks_count lattice.now }
    requires k { k < blocks_count lattice.now }
    requires wanted { AreWanted lattice.now (is_marked known.now) wanted.old.items }
    requires some { 1 ≤ length wanted.old.items }
    ensures wanted { OnOk result (AreWanted lattice.now (is_marked known.now) wanted.new.items) }
    ensures first { OnOk result (wanted_at wanted.new.items 0 ≡ wanted_at wanted.old.items 0) }
    ensures more { OnOk result (length wanted.new.items ≤ length wanted.old.items + 1) }
    ensures some { OnOk result (1 ≤ length wanted.new.items) }
{
    let b = lattice.block(k);
    if known.get(b) {
        return Ok(());
    }
    if lost.nodes(k as usize).is_none() {
        wanted.push(b)?;
    }
    Ok(())
}

// The block, and the determined blocks after it, up to 64.
fn next_wanted(
    alloc: Global,
    lattice: &Lattice,
    known: &Marks,
    lost: &LossList,
    b: BlockId,
) -> Result<Vec<BlockId>, AllocError>
    requires same { known.now.lattice ≡ lattice.now }
    requires long { length lost.now ≡ blocks_count lattice.now }
    requires block { HasBlock lattice.now b }
    requires unknown { is_marked known.now b ≡ false }
    ensures few { IfOk result (λ w. length w.items ≤ 64) }
    ensures some { IfOk result (λ w. 1 ≤ length w.items) }
    ensures wanted { IfOk result (λ w. AreWanted lattice.now (is_marked known.now) w.items) }
    ensures first { IfOk result (λ w. wanted_at w.items 0 ≡ b) }
{
    let mut wanted = Vec::new(alloc);
    wanted.push(b)?;
    for k in lattice.number(b) + 1..lattice.blocks() {
        if wanted.len() >= MOST {
            return Ok(wanted);
        }
        keep_determined(lattice, known, lost, &mut wanted, k)?;
    }
    Ok(wanted)
}

// The block and the determined blocks after it, with their sums.
fn next_batch(
    alloc: Global,
    lattice: &Lattice,
    known: &Marks,
    lost: &LossList,
    b: BlockId,
) -> Result<Batch, AllocError>
    requires same { known.now.lattice ≡ lattice.now }
    requires long { length lost.now ≡ blocks_count lattice.now }
    requires block { HasBlock lattice.now b }
    requires unknown { is_marked known.now b ≡ false }
    ensures batch { IfOk result (IsBatch lattice.now (is_marked known.now)) }
    ensures some { IfOk result (λ batch. 1 ≤ length batch.wanted.items) }
    ensures first { IfOk result (λ batch. wanted_at batch.wanted.items 0 ≡ b) }
{
    let wanted = next_wanted(alloc, lattice, known, lost, b)?;
    let mut table = SumTable::new(alloc, lattice)?;
    table.find(lattice, known, wanted.as_slice());
    let lists = table.lists(alloc, lattice, wanted.len())?;
    Ok(Batch { wanted, lists })
}

// Whether two blocks are the same.
fn is_same(a: BlockId, b: BlockId) -> bool
    ensures { result ≡ true → a ≡ b }
{
    a == b
}

// Where the block is among these.
fn place_of(wanted: &[BlockId], b: BlockId) -> Option<usize>
    ensures { MatchOption result (Unit {0}) (λ k. (k < length wanted.now) × (wanted_at wanted.now k ≡ b)) }
{
    for k in 0..wanted.len() {
        if is_same(wanted[k], b) {
            return Some(k);
        }
    }
    None
}

// Takes the block at this place and its equations out of the batch; the last ones come into their place.
fn take_at(batch: &mut Batch, k: usize) -> EqList
    requires long { length batch.old.lists.items ≡ length batch.old.wanted.items }
    requires inside { k < length batch.old.wanted.items }
    ensures taken { result ≡ get_or batch.old.lists.items k [] }
    ensures batch { (l : Lattice) (known : BlockId → Bool) → IsBatch l known batch.old → IsBatch l known batch.new }
{
    let _block = batch.wanted.swap_remove(k);
    batch.lists.swap_remove(k)
}

/// The listed equations of a determined block, by the batch where it has them, and else by the next one.
pub(crate) fn sum_of(
    alloc: Global,
    lattice: &Lattice,
    known: &Marks,
    lost: &LossList,
    batch: &mut Batch,
    b: BlockId,
) -> Result<EqList, AllocError>
    requires same { known.now.lattice ≡ lattice.now }
    requires long { length lost.now ≡ blocks_count lattice.now }
    requires block { HasBlock lattice.now b }
    requires unknown { is_marked known.now b ≡ false }
    requires determined { Determines lattice.now (is_marked known.now) b }
    requires batch { IsBatch lattice.now (is_marked known.now) batch.old }
    ensures batch { OnOk result (IsBatch lattice.now (is_marked known.now) batch.new) }
    ensures sum { IfOk result (IsSum lattice.now (is_marked known.now) b) }
{
    if let Some(k) = place_of(batch.wanted.as_slice(), b) {
        return Ok(take_at(batch, k));
    }
    *batch = next_batch(alloc, lattice, known, lost, b)?;
    Ok(take_at(batch, 0))
}
