ghost use Rattle.std.specs.Prelude.{◌≡◌, ℕ, ◌+◌, ◌*◌, ◌/◌, ◌<◌, ◌≤◌, ◌^◌, false, true, ◌++◌, [], ◌∷◌, if◌then◌else◌, ◌&&◌, ◌==◌, length, IfOk, OnOk, MatchOption};
ghost use Rattle.aea_lattice.specs.Blocks.{class_number};
ghost use Rattle.aea_gauss_words.specs.Words.{words_for, is_bit, bit_matrix};
ghost use Rattle.aea_gauss_words.specs.Matrices.{IsReduced};
ghost use Rattle.aea_readings.specs.Readings.{word_at};
ghost use Rattle.aea_readings.specs.Small.{block_in, equation_in, own_column, nodes_at, equations_at};
ghost use Rattle.aea_gauss.specs.Fates.{block_of_fate};
ghost use Rattle.aea_gauss.specs.Revealed.{AreLeads, IsRevealed};

use crate::fates::Fate;
use aea_gauss_words::has;
use aea_lattice::{BlockId, Class, EqId, EqList, Lattice, NodeList};
use std::alloc::{AllocError, Global};

// The least column of the row from `from` on and before `end`, if there is one.
fn next_column(words: &[u64], begin: usize, from: usize, end: usize) -> Option<usize>
    requires inside { begin + (end + 63) / 64 ≤ length words.now }
    requires from { from ≤ end }
    ensures { MatchOption result ((k : ℕ) → from ≤ k → k < end → is_bit words.now begin k ≡ false)
        (λ c. (from ≤ c) × (c < end) × (is_bit words.now begin c ≡ true) × ((k : ℕ) → from ≤ k → k < c → is_bit words.now begin k ≡ false)) }
{
    for column in from..end {
        if has(words, begin, column) {
            return Some(column);
        }
    }
    None
}

// Whether the word of the column f has the column k.
fn word_has(
    words: &[u64],
    rows: usize,
    wide: usize,
    leads: &[Option<usize>],
    f: usize,
    k: usize,
) -> bool
    requires long { length words.now ≡ rows * wide }
    requires leads { AreLeads rows (64 * wide) (bit_matrix wide words.now) leads.now }
    requires f { f < length leads.now }
    requires k { k < length leads.now }
    requires wide { length leads.now ≤ 64 * wide }
    requires reduced { IsReduced rows (64 * wide) (bit_matrix wide words.now) }
    ensures { result ≡ word_at rows (bit_matrix wide words.now) f k }
{
    if k == f {
        return true;
    }
    match leads[k] {
        Some(row) => has(words, row * wide, f),
        None => false,
    }
}

// Whether the class is that of the data.
fn is_datum(class: Class) -> bool
    ensures { result ≡ (class_number class == 0) }
{
    match class {
        Class::Datum => true,
        Class::Horiz => false,
        Class::Right => false,
        Class::Left => false,
    }
}

// Puts the node of a data block of the word last.
fn keep_node(nodes: &mut NodeList, in_word: bool, b: BlockId) -> Result<(), AllocError>
    ensures { OnOk result (nodes.new ≡ nodes.old ++ (if in_word && class_number b.class == 0 then b.node ∷ [] else [])) }
{
    if !in_word {
        return Ok(());
    }
    if is_datum(b.class) {
        nodes.push(b.node)?;
    }
    Ok(())
}

// Puts the equation last, if the row has it.
fn keep_equation(list: &mut EqList, in_row: bool, e: EqId) -> Result<(), AllocError>
    ensures { OnOk result (list.new ≡ list.old ++ (if in_row then e ∷ [] else [])) }
{
    if in_row {
        list.push(e)?;
    }
    Ok(())
}

// The nodes of the word of the column f, in rising order.
fn read_nodes(
    alloc: Global,
    words: &[u64],
    rows: usize,
    wide: usize,
    leads: &[Option<usize>],
    blocks: &[BlockId],
    f: usize,
) -> Result<NodeList, AllocError>
    requires long { length words.now ≡ rows * wide }
    requires leads { AreLeads rows (64 * wide) (bit_matrix wide words.now) leads.now }
    requires blocks { length blocks.now ≡ length leads.now }
    requires f { f < length leads.now }
    requires wide { length leads.now ≤ 64 * wide }
    requires reduced { IsReduced rows (64 * wide) (bit_matrix wide words.now) }
    ensures { IfOk result (λ nodes. nodes ≡ nodes_at (word_at rows (bit_matrix wide words.now) f) blocks.now) }
{
    let mut nodes = NodeList::new(alloc);
    for k in 0..blocks.len() {
        let in_word = word_has(words, rows, wide, leads, f, k);
        keep_node(&mut nodes, in_word, blocks[k])?;
    }
    Ok(nodes)
}

// The equations of the row that begins at `begin`, in equation order, after so many blocks.
fn read_equations(
    alloc: Global,
    words: &[u64],
    begin: usize,
    count: usize,
    equations: &[EqId],
) -> Result<EqList, AllocError>
    requires inside { begin + words_for (count + length equations.now) ≤ length words.now }
    requires short { count + length equations.now < 2 ^ 32 }
    ensures { IfOk result (λ list. list
        ≡ equations_at (λ j. is_bit words.now begin (own_column count (length equations.now) j)) equations.now) }
{
    let mut list = EqList::new(alloc);
    for row in 0..equations.len() {
        let in_row = has(words, begin, count + (equations.len() - 1 - row));
        keep_equation(&mut list, in_row, equations[row])?;
    }
    Ok(list)
}

// The fate of the block at a place, as the reduced rows show it.
pub(crate) fn read_fate(
    alloc: Global,
    words: &[u64],
    wide: usize,
    leads: &[Option<usize>],
    blocks: &[BlockId],
    equations: &[EqId],
    a: usize,
) -> Result<Fate, AllocError>
    requires long { length words.now ≡ length equations.now * wide }
    requires wide { wide ≡ words_for (length blocks.now + length equations.now) }
    requires short { length blocks.now + length equations.now < 2 ^ 32 }
    requires leads { AreLeads (length equations.now) (64 * wide) (bit_matrix wide words.now) leads.now }
    requires blocks { length blocks.now ≡ length leads.now }
    requires reduced { IsReduced (length equations.now) (64 * wide) (bit_matrix wide words.now) }
    requires a { a < length blocks.now }
    ensures block { IfOk result (λ fate. block_of_fate fate ≡ block_in blocks.now a) }
    ensures revealed { IfOk result (IsRevealed blocks.now equations.now (bit_matrix wide words.now)) }
{
    let block = blocks[a];
    match leads[a] {
        None => {
            let nodes = read_nodes(alloc, words, equations.len(), wide, leads, blocks, a)?;
            Ok(Fate::Word { block, nodes })
        }
        Some(row) => match next_column(words, row * wide, a + 1, blocks.len()) {
            None => {
                let eqs = read_equations(alloc, words, row * wide, blocks.len(), equations)?;
                Ok(Fate::Sum { block, eqs })
            }
            Some(f) => {
                let nodes = read_nodes(alloc, words, equations.len(), wide, leads, blocks, f)?;
                Ok(Fate::Word { block, nodes })
            }
        },
    }
}
