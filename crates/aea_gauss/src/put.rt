ghost use Rattle.std.specs.Prelude.{◌≡◌, ◌<◌, length, map, slice_set, All, OnOk};
ghost use Rattle.std.specs.Prelude.{ℕ};
ghost use Rattle.aea_readings.specs.Small.{block_in, AreListed};
ghost use Rattle.aea_gauss.specs.Fates.{block_of_fate};
ghost use Rattle.aea_gauss.specs.Parts.{StandsIn, PutsFate};
ghost use Rattle.aea_gauss.specs.Revealed.{AreReduced};

use crate::columns::find_column;
use crate::fates::{Fate, FateList};
use crate::read::read_fate;
use crate::small::Reduced;
use aea_lattice::{BlockId, EqId, Lattice};
use aea_readings::small_rows_reveal_fates;
use std::alloc::{AllocError, Global};

// Puts a fate at the place of its block.
fn put_fate(fates: &mut FateList, lattice: &Lattice, blocks: &[BlockId], fate: Fate)
    requires listed { AreListed lattice.now blocks.now }
    requires fates { map block_of_fate fates.old ≡ blocks.now }
    requires stands { StandsIn blocks.now (block_of_fate fate) }
    ensures { (a : ℕ) × (a < length blocks.now) × (block_in blocks.now a ≡ block_of_fate fate) × (fates.new ≡ slice_set fates.old a fate) }
{
    if let Some(at) = find_column(lattice, blocks, fate.block()) {
        fates.put(at, fate);
    }
}

// Reads the fate of a block of a part off the part's reduced rows, and puts it at the block's place.
pub(crate) fn solve_block(
    alloc: Global,
    lattice: &Lattice,
    blocks: &[BlockId],
    reduced: &Reduced,
    part_blocks: &[BlockId],
    part_equations: &[EqId],
    a: usize,
    fates: &mut FateList,
) -> Result<(), AllocError>
    requires listed { AreListed lattice.now blocks.now }
    requires fates { map block_of_fate fates.old ≡ blocks.now }
    requires stand { All (StandsIn blocks.now) part_blocks.now }
    requires reduced { AreReduced lattice.now part_blocks.now part_equations.now reduced.now.words.items reduced.now.wide reduced.now.leads.items }
    requires a { a < length part_blocks.now }
    ensures { OnOk result (PutsFate lattice.now blocks.now part_blocks.now part_equations.now a fates.old fates.new) }
{
    small_rows_reveal_fates();
    let fate = read_fate(
        alloc,
        reduced.words.as_slice(),
        reduced.wide,
        reduced.leads.as_slice(),
        part_blocks,
        part_equations,
        a,
    )?;
    put_fate(fates, lattice, blocks, fate);
    Ok(())
}
