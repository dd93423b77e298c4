//! The fates of all unknown blocks.

ghost use Rattle.std.specs.Prelude.{◌≡◌, ◌++◌, ◌∷◌, [], false, not, map, All, if◌then◌else◌, IfOk, OnOk};
ghost use Rattle.aea_lattice.specs.Blocks.{HasBlock};
ghost use Rattle.aea_view.specs.Marked.{is_marked};
ghost use Rattle.aea_sweep.specs.Losses.{AreLosses};
ghost use Rattle.aea_gauss.specs.Fates.{block_of_fate, IsFate, AreFates};
ghost use Rattle.aea_gauss.specs.Batches.{IsBatch};

use crate::batch::{Batch, sum_of};
use crate::fates::{Fate, FateList};
use crate::lost::copied;
use aea_lattice::{BlockId, Lattice};
use aea_sweep::{LossList, losses};
use aea_view::Marks;
use std::alloc::{AllocError, Global};

// The fate of a block that is not known.
fn fate_of(
    alloc: Global,
    lattice: &Lattice,
    known: &Marks,
    lost: &LossList,
    batch: &mut Batch,
    b: BlockId,
) -> Result<Fate, AllocError>
    requires same { known.now.lattice ≡ lattice.now }
    requires losses { AreLosses lattice.now (is_marked known.now) lost.now }
    requires block { HasBlock lattice.now b }
    requires unknown { is_marked known.now b ≡ false }
    requires batch { IsBatch lattice.now (is_marked known.now) batch.old }
    ensures batch { OnOk result (IsBatch lattice.now (is_marked known.now) batch.new) }
    ensures block { IfOk result (λ fate. block_of_fate fate ≡ b) }
    ensures fate { IfOk result (IsFate lattice.now (is_marked known.now)) }
{
    match lost.nodes(lattice.number(b) as usize) {
        Some(nodes) => Ok(Fate::Word {
            block: b,
            nodes: copied(alloc, nodes)?,
        }),
        None => Ok(Fate::Sum {
            block: b,
            eqs: sum_of(alloc, lattice, known, lost, batch, b)?,
        }),
    }
}

// Puts the fate of the block last, if it is not known.
fn keep_fate(
    alloc: Global,
    lattice: &Lattice,
    known: &Marks,
    lost: &LossList,
    batch: &mut Batch,
    fates: &mut FateList,
    b: BlockId,
) -> Result<(), AllocError>
    requires same { known.now.lattice ≡ lattice.now }
    requires losses { AreLosses lattice.now (is_marked known.now) lost.now }
    requires block { HasBlock lattice.now b }
    requires batch { IsBatch lattice.now (is_marked known.now) batch.old }
    requires each { All (IsFate lattice.now (is_marked known.now)) fates.old }
    ensures batch { OnOk result (IsBatch lattice.now (is_marked known.now) batch.new) }
    ensures each { OnOk result (All (IsFate lattice.now (is_marked known.now)) fates.new) }
    ensures blocks { OnOk result (map block_of_fate fates.new ≡ map block_of_fate fates.old ++ (if not (is_marked known.now b) then b ∷ [] else [])) }
{
    if known.get(b) {
        return Ok(());
    }
    let fate = fate_of(alloc, lattice, known, lost, batch, b)?;
    fates.push(fate)?;
    Ok(())
}

/// The fates that `solve` gives. What is lost, and by which nodes, `losses` of `aea_sweep` says; the sums of the others are found
/// 64 at a time by a `SumTable` of `aea_sums`. So the time grows with the lattice times the number of determined blocks, and with
/// what is listed. Beside the fates it takes what `losses` takes, and if some block is determined 8 bytes for each block of the
/// lattice, 32 for each parity, and the lists of 64 blocks. An error means that memory ran out.
pub(crate) fn all_fates(
    alloc: Global,
    lattice: &Lattice,
    known: &Marks,
) -> Result<FateList, AllocError>
    requires same { known.now.lattice ≡ lattice.now }
    ensures { IfOk result (λ fates. AreFates lattice.now (is_marked known.now) fates) }
{
    let lost = losses(alloc, lattice, known)?;
    let mut batch = Batch {
        wanted: Vec::new(alloc),
        lists: Vec::new(alloc),
    };
    let mut fates = FateList::new(alloc);
    for k in 0..lattice.blocks() {
        let b = lattice.block(k);
        keep_fate(alloc, lattice, known, &lost, &mut batch, &mut fates, b)?;
    }
    Ok(fates)
}
