ghost use Rattle.std.specs.Prelude.{◌≡◌, Bool, not, map, IfOk, OnOk, IfSome};
ghost use Rattle.aea_lattice.specs.declared.blocks.BlockId.{BlockId};
ghost use Rattle.aea_view.specs.Marked.{is_marked};
ghost use Rattle.aea_readings.specs.Small.{AreListed};
ghost use Rattle.aea_gauss.specs.Fates.{AreFates, block_of_fate};
ghost use Rattle.aea_gauss.specs.Parts.{ArePart, IsReady, Rights, IsWanted};

use crate::buckets::{Bucket, bucket_at, has_more_than};
use crate::fates::{Fate, FateList, solve};
use crate::laws::fates_depend_on_blocks;
use crate::marked::marked_blocks;
use crate::outputs::equations_of;
use crate::parts::parts_of;
use crate::put::solve_block;
use crate::small::reduce;
use aea_fates::parts_stand_alone;
use aea_lattice::{BlockId, EqId, Lattice, NodeList};
use aea_readings::unknown_are_listed;
use aea_view::Marks;
use std::alloc::{AllocError, Global};

// The greatest number of blocks of a part whose fates are read off its own rows: so many have at most 1,536 equations, whose rows
// take less than half a megabyte. The time to reduce rows grows as the third power of the blocks, and `solve`, which asks for the
// losses first, has to reduce only what is left where the ends are known.
const LARGEST_PART: usize = 512;

// In place of the fate of each block, a word without nodes.
fn blank_fates(alloc: Global, blocks: &[BlockId]) -> Result<FateList, AllocError>
    ensures { IfOk result (λ fates. map block_of_fate fates ≡ blocks.now) }
{
    let mut fates = FateList::new(alloc);
    for at in 0..blocks.len() {
        let block = blocks[at];
        let nodes = NodeList::new(alloc);
        fates.push(Fate::Word { block, nodes })?;
    }
    Ok(fates)
}

// Puts the fates of the blocks of a part at their places.
fn solve_whole(
    alloc: Global,
    lattice: &Lattice,
    blocks: &[BlockId],
    part_blocks: &[BlockId],
    part_equations: &[EqId],
    fates: &mut FateList,
) -> Result<(), AllocError>
    requires listed { AreListed lattice.now blocks.now }
    requires fates { map block_of_fate fates.old ≡ blocks.now }
    requires ready { IsReady lattice.now blocks.now part_blocks.now part_equations.now }
    ensures fates { OnOk result (map block_of_fate fates.new ≡ blocks.now) }
    ensures rights { OnOk result ((known : BlockId → Bool) → ArePart lattice.now known part_blocks.now part_equations.now
        → Rights lattice.now known IsWanted blocks.now part_blocks.now fates.old fates.new) }
{
    parts_stand_alone();
    if part_blocks.is_empty() {
        return Ok(());
    }
    let reduced = reduce(alloc, lattice, part_blocks, part_equations)?;
    for a in 0..part_blocks.len() {
        solve_block(
            alloc,
            lattice,
            blocks,
            &reduced,
            part_blocks,
            part_equations,
            a,
            fates,
        )?;
    }
    Ok(())
}

// The fates of the marked blocks where all others are known, part by part; nothing where some part is large.
fn solve_parts(
    alloc: Global,
    lattice: &Lattice,
    open: &Marks,
) -> Result<Option<FateList>, AllocError>
    requires same { «open».now.lattice ≡ lattice.now }
    ensures { IfOk result (λ found. IfSome found (AreFates lattice.now (λ b. not (is_marked «open».now b)))) }
{
    unknown_are_listed();
    let blocks = marked_blocks(alloc, lattice, open)?;
    if blocks.is_empty() {
        return Ok(Some(FateList::new(alloc)));
    }
    let blocks = blocks.as_slice();
    let equations = equations_of(alloc, lattice, blocks)?;
    let parts = parts_of(alloc, lattice, blocks, equations.as_slice())?;
    if has_more_than(parts.blocks.as_slice(), LARGEST_PART) {
        return Ok(None);
    }
    let mut fates = blank_fates(alloc, blocks)?;
    for label in 0..parts.blocks.len() {
        let part_blocks = bucket_at(parts.blocks.as_slice(), label);
        let part_equations = bucket_at(parts.equations.as_slice(), label);
        solve_whole(
            alloc,
            lattice,
            blocks,
            part_blocks,
            part_equations,
            &mut fates,
        )?;
    }
    Ok(Some(fates))
}

/// The fates of the marked blocks where all other blocks of the lattice are known, in number order: those of `solve` for the
/// complement of these marks. It goes over the marks word by word, and beyond that its time and memory grow with the marked blocks
/// alone, where parts are small: marked blocks that an equation has together are in one part, and each part of at most 512 blocks
/// has an elimination of its own. It takes a bit for each block of the lattice, and beside the fates some 300 bytes for each marked
/// block and the rows of one part at a time, at most half a megabyte. Where some part has more blocks, it goes on as `solve` does,
/// with its time and memory. An error means that memory ran out.
pub fn solve_open(alloc: Global, lattice: &Lattice, open: &Marks) -> Result<FateList, AllocError>
    requires same { «open».now.lattice ≡ lattice.now }
    ensures { IfOk result (λ fates. AreFates lattice.now (λ b. not (is_marked «open».now b)) fates) }
{
    fates_depend_on_blocks();
    match solve_parts(alloc, lattice, open)? {
        Some(fates) => Ok(fates),
        None => {
            let known = open.complement(alloc)?;
            let fates = solve(alloc, lattice, &known)?;
            Ok(fates)
        }
    }
}
