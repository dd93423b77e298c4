ghost use Rattle.std.specs.Prelude.{◌≡◌, ◌⊎◌, ◌<◌, Bool, length, map, All, OnOk};
ghost use Rattle.aea_lattice.specs.declared.blocks.BlockId.{BlockId};
ghost use Rattle.aea_lattice.specs.Blocks.{blocks_count};
ghost use Rattle.aea_readings.specs.Small.{block_in, AreListed};
ghost use Rattle.aea_sweep.specs.Ends.{AddsEnds};
ghost use Rattle.aea_sweep.specs.Losses.{AreLosses};
ghost use Rattle.aea_gauss.specs.Fates.{block_of_fate};
ghost use Rattle.aea_gauss.specs.Lost.{IsLost, IsNotLost};
ghost use Rattle.aea_gauss.specs.Parts.{ArePart, IsReady, StandsIn, PutsFate, Rights};
ghost use Rattle.aea_gauss.specs.Revealed.{AreReduced};

use crate::fates::FateList;
use crate::lost::has_determined;
use crate::put::solve_block;
use crate::small::{Reduced, reduce};
use aea_fates::parts_stand_alone;
use aea_lattice::{BlockId, EqId, Lattice};
use aea_sweep::{LossList, ends_stand_aside};
use std::alloc::{AllocError, Global};

// Puts the fate of a block of a part at its place, unless the list has nodes for the block: then its fate is there.
fn solve_determined(
    alloc: Global,
    lattice: &Lattice,
    losses: &LossList,
    blocks: &[BlockId],
    reduced: &Reduced,
    part_blocks: &[BlockId],
    part_equations: &[EqId],
    a: usize,
    fates: &mut FateList,
) -> Result<(), AllocError>
    requires listed { AreListed lattice.now blocks.now }
    requires fates { map block_of_fate fates.old ≡ blocks.now }
    requires losses { length losses.now ≡ blocks_count lattice.now }
    requires part { AreListed lattice.now part_blocks.now }
    requires stand { All (StandsIn blocks.now) part_blocks.now }
    requires reduced { AreReduced lattice.now part_blocks.now part_equations.now reduced.now.words.items reduced.now.wide reduced.now.leads.items }
    requires a { a < length part_blocks.now }
    ensures { OnOk result (((fates.new ≡ fates.old) × IsLost lattice.now losses.now (block_in part_blocks.now a))
        ⊎ (PutsFate lattice.now blocks.now part_blocks.now part_equations.now a fates.old fates.new
        × IsNotLost lattice.now losses.now (block_in part_blocks.now a))) }
{
    let number = lattice.number(part_blocks[a]);
    match losses.nodes(number as usize) {
        Some(_) => Ok(()),
        None => {
            solve_block(
                alloc,
                lattice,
                blocks,
                reduced,
                part_blocks,
                part_equations,
                a,
                fates,
            )?;
            Ok(())
        }
    }
}

// Puts the fates of the determined blocks of a part at their places. The part is one of what is not known where the ends are known
// too: the sums are the same.
pub(crate) fn solve_part(
    alloc: Global,
    lattice: &Lattice,
    losses: &LossList,
    blocks: &[BlockId],
    part_blocks: &[BlockId],
    part_equations: &[EqId],
    fates: &mut FateList,
) -> Result<(), AllocError>
    requires listed { AreListed lattice.now blocks.now }
    requires fates { map block_of_fate fates.old ≡ blocks.now }
    requires losses { length losses.now ≡ blocks_count lattice.now }
    requires ready { IsReady lattice.now blocks.now part_blocks.now part_equations.now }
    ensures fates { OnOk result (map block_of_fate fates.new ≡ blocks.now) }
    ensures rights { OnOk result ((known more : BlockId → Bool) → AreLosses lattice.now known losses.now → AddsEnds lattice.now known more
        → ArePart lattice.now more part_blocks.now part_equations.now
        → Rights lattice.now known (IsNotLost lattice.now losses.now) blocks.now part_blocks.now fates.old fates.new) }
{
    parts_stand_alone();
    ends_stand_aside();
    if !has_determined(lattice, losses, part_blocks) {
        return Ok(());
    }
    let reduced = reduce(alloc, lattice, part_blocks, part_equations)?;
    for a in 0..part_blocks.len() {
        solve_determined(
            alloc,
            lattice,
            losses,
            blocks,
            &reduced,
            part_blocks,
            part_equations,
            a,
            fates,
        )?;
    }
    Ok(())
}
