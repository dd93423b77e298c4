ghost use Rattle.std.specs.Prelude.{◌≡◌, ℕ, ◌+◌, ◌*◌, ◌<◌, ◌≤◌, ◌^◌, false, ◌==◌, length, All, IfOk, OnOk, get_or, MatchOption};
ghost use Rattle.std.specs.Option.{ForSome};
ghost use Rattle.aea_lattice.specs.Blocks.{HasBlock};
ghost use Rattle.aea_lattice.specs.Equations.{HasEquation};
ghost use Rattle.aea_gauss_words.specs.Words.{bit_matrix};
ghost use Rattle.aea_readings.specs.Small.{own_column, small_row, small_start, AreListed};
ghost use Rattle.aea_gauss.specs.Fills.{Turns, stands};

use crate::columns::find_column;
use aea_lattice::{BlockId, EqId, Lattice};
use std::alloc::{AllocError, Global};

// Flips the bit of the column in the row that begins at `begin`.
fn turn(words: &mut [u64], begin: usize, wide: usize, column: usize)
    requires inside { begin + wide ≤ length words.old }
    requires column { column < 64 * wide }
    ensures { Turns begin wide (λ k. k == column) words.old words.new }
{
    words[begin + column / 64] ^= 1 << (column % 64);
}

// Flips the bit of the block, if it is in the list.
fn turn_block(
    words: &mut [u64],
    begin: usize,
    wide: usize,
    lattice: &Lattice,
    blocks: &[BlockId],
    b: BlockId,
)
    requires inside { begin + wide ≤ length words.old }
    requires wide { length blocks.now ≤ 64 * wide }
    requires listed { AreListed lattice.now blocks.now }
    requires block { HasBlock lattice.now b }
    ensures { Turns begin wide (stands blocks.now b) words.old words.new }
{
    match find_column(lattice, blocks, b) {
        Some(column) => turn(words, begin, wide, column),
        None => {}
    }
}

// Flips the bit of the input, if there is one and it is in the list.
fn turn_input(
    words: &mut [u64],
    begin: usize,
    wide: usize,
    lattice: &Lattice,
    blocks: &[BlockId],
    input: Option<BlockId>,
)
    requires inside { begin + wide ≤ length words.old }
    requires wide { length blocks.now ≤ 64 * wide }
    requires listed { AreListed lattice.now blocks.now }
    requires block { ForSome input (HasBlock lattice.now) }
    ensures { MatchOption input (Turns begin wide (λ k. false) words.old words.new)
        (λ g. Turns begin wide (stands blocks.now g) words.old words.new) }
{
    match input {
        Some(g) => turn_block(words, begin, wide, lattice, blocks, g),
        None => {}
    }
}

// Fills an empty row with the listed blocks of the equation and the equation's own column.
fn fill_row(
    words: &mut [u64],
    begin: usize,
    wide: usize,
    lattice: &Lattice,
    blocks: &[BlockId],
    e: EqId,
    own: usize,
)
    requires inside { begin + wide ≤ length words.old }
    requires own { length blocks.now ≤ own }
    requires wide { own < 64 * wide }
    requires listed { AreListed lattice.now blocks.now }
    requires equation { HasEquation lattice.now e }
    ensures { Turns begin wide (small_row lattice.now blocks.now e own) words.old words.new }
{
    let q = lattice.equation(e);
    turn_input(words, begin, wide, lattice, blocks, q.input);
    turn_block(words, begin, wide, lattice, blocks, q.datum);
    turn_block(words, begin, wide, lattice, blocks, q.output);
    turn(words, begin, wide, own);
}

// Puts so many words last, all 0.
fn push_zeros(words: &mut Vec<u64>, wide: usize) -> Result<(), AllocError>
    ensures long { OnOk result (length words.new.items ≡ length words.old.items + wide) }
    ensures zero { OnOk result (((k : ℕ) → get_or words.old.items k 0 ≡ 0) → (k : ℕ) → get_or words.new.items k 0 ≡ 0) }
{
    for at in 0..wide {
        words.push(0)?;
    }
    Ok(())
}

// So many words, all 0.
fn zero_words(alloc: Global, rows: usize, wide: usize) -> Result<Vec<u64>, AllocError>
    ensures long { IfOk result (λ words. length words.items ≡ rows * wide) }
    ensures zero { IfOk result (λ words. (k : ℕ) → get_or words.items k 0 ≡ 0) }
{
    let mut words = Vec::new(alloc);
    for row in 0..rows {
        push_zeros(&mut words, wide)?;
    }
    Ok(words)
}

// Fills the rows of the equations, one after the other.
fn fill_rows(
    words: &mut [u64],
    wide: usize,
    lattice: &Lattice,
    blocks: &[BlockId],
    equations: &[EqId],
)
    requires words { length words.old ≡ length equations.now * wide }
    requires zero { (k : ℕ) → get_or words.old k 0 ≡ 0 }
    requires wide { length blocks.now + length equations.now ≤ 64 * wide }
    requires short { length blocks.now + length equations.now < 2 ^ 32 }
    requires listed { AreListed lattice.now blocks.now }
    requires equations { All (HasEquation lattice.now) equations.now }
    ensures long { length words.new ≡ length words.old }
    ensures rows { (i k : ℕ) → i < length equations.now → k < 64 * wide
        → bit_matrix wide words.new i k ≡ small_start lattice.now blocks.now equations.now i k }
{
    for row in 0..equations.len() {
        let own = blocks.len() + (equations.len() - 1 - row);
        fill_row(
            words,
            row * wide,
            wide,
            lattice,
            blocks,
            equations[row],
            own,
        );
    }
}

// The packed rows of the equations over the blocks.
pub(crate) fn start_words(
    alloc: Global,
    wide: usize,
    lattice: &Lattice,
    blocks: &[BlockId],
    equations: &[EqId],
) -> Result<Vec<u64>, AllocError>
    requires wide { length blocks.now + length equations.now ≤ 64 * wide }
    requires short { length blocks.now + length equations.now < 2 ^ 32 }
    requires listed { AreListed lattice.now blocks.now }
    requires equations { All (HasEquation lattice.now) equations.now }
    ensures long { IfOk result (λ words. length words.items ≡ length equations.now * wide) }
    ensures rows { IfOk result (λ words. (i k : ℕ) → i < length equations.now → k < 64 * wide
        → bit_matrix wide words.items i k ≡ small_start lattice.now blocks.now equations.now i k) }
{
    let mut words = zero_words(alloc, equations.len(), wide)?;
    fill_rows(words.as_mut_slice(), wide, lattice, blocks, equations);
    Ok(words)
}
