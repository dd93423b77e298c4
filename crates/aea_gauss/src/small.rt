ghost use Rattle.std.specs.Prelude.{◌≡◌, ◌+◌, ◌*◌, ◌<◌, ◌≤◌, ◌^◌, length, All, IfOk};
ghost use Rattle.aea_gauss_words.specs.Words.{words_for, bit_matrix};
ghost use Rattle.aea_gauss_words.specs.Matrices.{IsReduced, IsReduction};
ghost use Rattle.aea_readings.specs.Small.{small_start, AreListed};
ghost use Rattle.aea_lattice.specs.Equations.{HasEquation};
ghost use Rattle.aea_gauss.specs.Revealed.{AreReduced};

use crate::leads::lead_table;
use crate::rows::start_words;
use aea_gauss_words::eliminate;
use aea_lattice::{BlockId, EqId, Lattice};
use std::alloc::{AllocError, Global};

// The rows of some equations over some blocks, reduced.
fn reduced_rows(
    alloc: Global,
    wide: usize,
    lattice: &Lattice,
    blocks: &[BlockId],
    equations: &[EqId],
) -> Result<Vec<u64>, AllocError>
    requires some { 1 ≤ length blocks.now }
    requires wide { wide ≡ words_for (length blocks.now + length equations.now) }
    requires listed { AreListed lattice.now blocks.now }
    requires equations { All (HasEquation lattice.now) equations.now }
    requires few { length equations.now < 2 ^ 23 }
    ensures long { IfOk result (λ words. length words.items ≡ length equations.now * wide) }
    ensures reduction { IfOk result (λ words. IsReduction (length equations.now) (length blocks.now + length equations.now)
        (small_start lattice.now blocks.now equations.now) (bit_matrix wide words.items)) }
    ensures reduced { IfOk result (λ words. IsReduced (length equations.now) (64 * wide) (bit_matrix wide words.items)) }
{
    let mut words = start_words(alloc, wide, lattice, blocks, equations)?;
    let count = blocks.len() + equations.len();
    eliminate(count as u32, equations.len() as u32, words.as_mut_slice());
    Ok(words)
}

// The reduced rows of some equations over some blocks, and for each block the row whose least column it is, if there is one.
#[derive(Drop)]
pub(crate) struct Reduced {
    pub(crate) words: Vec<u64>,
    pub(crate) wide: usize,
    pub(crate) leads: Vec<Option<usize>>,
}

// Reduces the rows of some equations over some blocks.
pub(crate) fn reduce(
    alloc: Global,
    lattice: &Lattice,
    blocks: &[BlockId],
    equations: &[EqId],
) -> Result<Reduced, AllocError>
    requires some { 1 ≤ length blocks.now }
    requires listed { AreListed lattice.now blocks.now }
    requires equations { All (HasEquation lattice.now) equations.now }
    requires few { length equations.now < 2 ^ 23 }
    ensures { IfOk result (λ reduced. AreReduced lattice.now blocks.now equations.now reduced.words.items reduced.wide reduced.leads.items) }
{
    let wide = (blocks.len() + equations.len() + 63) / 64;
    let words = reduced_rows(alloc, wide, lattice, blocks, equations)?;
    let leads = lead_table(alloc, words.as_slice(), equations.len(), wide, blocks.len())?;
    Ok(Reduced { words, wide, leads })
}
