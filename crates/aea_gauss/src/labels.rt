ghost use Rattle.std.specs.Prelude.{◌≡◌, ◌≢◌, ℕ, ◌<◌, ◌≤◌, ◌^◌, ◌⊎◌, false, true, length, get_or, All, IfOk, MatchOption};
ghost use Rattle.std.specs.Option.{ForSome};
ghost use Rattle.aea_lattice.specs.Blocks.{HasBlock};
ghost use Rattle.aea_lattice.specs.Equations.{HasEquation, is_in_equation};
ghost use Rattle.aea_readings.specs.Small.{block_in, equation_in, AreListed};
ghost use Rattle.aea_gauss.specs.Parts.{AreParents, IsRoot, Follows, JoinsBlocks, JoinsEquation, JoinsEach, label_at, IsLabelOf};

use crate::columns::find_column;
use aea_lattice::{BlockId, EqId, Lattice};
use std::alloc::{AllocError, Global};

// Gives a place its parent's parent as its parent, and goes on to it.
fn climb(parents: &mut [u32], at: usize) -> usize
    requires inside { at < length parents.old }
    requires parents { AreParents parents.old }
    requires child { get_or parents.old at 0 ≢ at }
    ensures up { result < at }
    ensures parents { AreParents parents.new }
    ensures roots { (r : ℕ) → IsRoot parents.old r → IsRoot parents.new r }
    ensures follows { (label : ℕ → ℕ) → Follows label parents.new → Follows label parents.old × (label at ≡ label result) }
{
    let parent = parents[at] as usize;
    parents[at] = parents[parent];
    parents[at] as usize
}

// The place where the chain of parents from a place ends. The chain is made shorter on the way.
fn find_root(parents: &mut [u32], from: usize) -> usize
    requires inside { from < length parents.old }
    requires parents { AreParents parents.old }
    ensures root { IsRoot parents.new result }
    ensures parents { AreParents parents.new }
    ensures roots { (r : ℕ) → IsRoot parents.old r → IsRoot parents.new r }
    ensures follows { (label : ℕ → ℕ) → Follows label parents.new → Follows label parents.old × (label from ≡ label result) }
{
    let mut at = from;
    while parents[at] as usize != at {
        at = climb(parents, at);
    }
    at
}

// Makes one chain of those of two places: the greater of their ends gets the other as its parent.
fn join(parents: &mut [u32], a: usize, b: usize)
    requires a { a < length parents.old }
    requires b { b < length parents.old }
    requires short { length parents.old < 2 ^ 32 }
    requires parents { AreParents parents.old }
    ensures parents { AreParents parents.new }
    ensures follows { (label : ℕ → ℕ) → Follows label parents.new → Follows label parents.old × (label a ≡ label b) }
{
    let first = find_root(parents, a);
    let second = find_root(parents, b);
    if first < second {
        parents[second] = first as u32;
    } else {
        parents[first] = second as u32;
    }
}

// Makes one chain of those of two blocks, if both are in the list.
fn join_blocks(
    parents: &mut [u32],
    lattice: &Lattice,
    blocks: &[BlockId],
    first: BlockId,
    second: BlockId,
)
    requires parents { AreParents parents.old }
    requires each { length parents.old ≡ length blocks.now }
    requires listed { AreListed lattice.now blocks.now }
    requires first { HasBlock lattice.now first }
    requires second { HasBlock lattice.now second }
    ensures parents { AreParents parents.new }
    ensures follows { (label : ℕ → ℕ) → Follows label parents.new → Follows label parents.old × JoinsBlocks blocks.now first second label }
{
    let a = find_column(lattice, blocks, first);
    let b = find_column(lattice, blocks, second);
    if let Some(a) = a {
        if let Some(b) = b {
            join(parents, a, b);
        }
    }
}

// Makes one chain of those of the input and a block, if there is an input and both are in the list.
fn join_input(
    parents: &mut [u32],
    lattice: &Lattice,
    blocks: &[BlockId],
    input: Option<BlockId>,
    other: BlockId,
)
    requires parents { AreParents parents.old }
    requires each { length parents.old ≡ length blocks.now }
    requires listed { AreListed lattice.now blocks.now }
    requires input { ForSome input (HasBlock lattice.now) }
    requires other { HasBlock lattice.now other }
    ensures parents { AreParents parents.new }
    ensures follows { (label : ℕ → ℕ) → Follows label parents.new
        → Follows label parents.old × ForSome input (λ g. JoinsBlocks blocks.now g other label) }
{
    match input {
        Some(g) => join_blocks(parents, lattice, blocks, g, other),
        None => {}
    }
}

// Makes one chain of those of the blocks of the equation that are in the list.
fn join_equation(parents: &mut [u32], lattice: &Lattice, blocks: &[BlockId], e: EqId)
    requires parents { AreParents parents.old }
    requires each { length parents.old ≡ length blocks.now }
    requires listed { AreListed lattice.now blocks.now }
    requires equation { HasEquation lattice.now e }
    ensures parents { AreParents parents.new }
    ensures follows { (label : ℕ → ℕ) → Follows label parents.new
        → Follows label parents.old × JoinsEquation lattice.now blocks.now e label }
{
    let q = lattice.equation(e);
    join_input(parents, lattice, blocks, q.input, q.datum);
    join_input(parents, lattice, blocks, q.input, q.output);
    join_blocks(parents, lattice, blocks, q.datum, q.output);
}

// Makes one chain of those of the blocks of each equation that are in the list.
fn join_each(parents: &mut [u32], lattice: &Lattice, blocks: &[BlockId], equations: &[EqId])
    requires parents { AreParents parents.old }
    requires each { length parents.old ≡ length blocks.now }
    requires listed { AreListed lattice.now blocks.now }
    requires equations { All (HasEquation lattice.now) equations.now }
    ensures parents { AreParents parents.new }
    ensures follows { (label : ℕ → ℕ) → Follows label parents.new
        → JoinsEach lattice.now blocks.now equations.now (length equations.now) label }
{
    for at in 0..equations.len() {
        join_equation(parents, lattice, blocks, equations[at]);
    }
}

// Gives each place the end of its chain.
fn settle(parents: &mut [u32])
    requires { AreParents parents.old }
    ensures below { (k : ℕ) → k < length parents.old → get_or parents.new k 0 ≤ k }
    ensures follows { Follows (label_at parents.new) parents.old }
{
    for place in 0..parents.len() {
        parents[place] = parents[parents[place] as usize];
    }
}

// So many numbers from 0 on.
fn own_labels(alloc: Global, count: usize) -> Result<Vec<u32>, AllocError>
    requires { count < 2 ^ 32 }
    ensures long { IfOk result (λ labels. length labels.items ≡ count) }
    ensures each { IfOk result (λ labels. (k : ℕ) → k < count → get_or labels.items k 0 ≡ k) }
{
    let mut labels = Vec::new(alloc);
    for k in 0..count {
        labels.push(k as u32)?;
    }
    Ok(labels)
}

// Makes labels of parents: one for all blocks of an equation that are in the list.
fn label_blocks(labels: &mut [u32], lattice: &Lattice, blocks: &[BlockId], equations: &[EqId])
    requires parents { AreParents labels.old }
    requires each { length labels.old ≡ length blocks.now }
    requires listed { AreListed lattice.now blocks.now }
    requires equations { All (HasEquation lattice.now) equations.now }
    ensures below { (k : ℕ) → k < length blocks.now → get_or labels.new k 0 ≤ k }
    ensures joined { JoinsEach lattice.now blocks.now equations.now (length equations.now) (label_at labels.new) }
{
    join_each(labels, lattice, blocks, equations);
    settle(labels);
}

// A label for each block of the list: one for all that an equation has, from block to block. Joined in chains of parents,
// which are made shorter as they are climbed, so the time is nearly linear.
pub(crate) fn block_labels(
    alloc: Global,
    lattice: &Lattice,
    blocks: &[BlockId],
    equations: &[EqId],
) -> Result<Vec<u32>, AllocError>
    requires listed { AreListed lattice.now blocks.now }
    requires equations { All (HasEquation lattice.now) equations.now }
    ensures long { IfOk result (λ labels. length labels.items ≡ length blocks.now) }
    ensures below { IfOk result (λ labels. (k : ℕ) → k < length blocks.now → get_or labels.items k 0 ≤ k) }
    ensures joined { IfOk result (λ labels. JoinsEach lattice.now blocks.now equations.now (length equations.now) (label_at labels.items)) }
{
    let mut labels = own_labels(alloc, blocks.len())?;
    label_blocks(labels.as_mut_slice(), lattice, blocks, equations);
    Ok(labels)
}

// The place of one of two blocks, if one is in the list.
fn find_either(
    lattice: &Lattice,
    blocks: &[BlockId],
    first: BlockId,
    second: BlockId,
) -> Option<usize>
    requires listed { AreListed lattice.now blocks.now }
    requires first { HasBlock lattice.now first }
    requires second { HasBlock lattice.now second }
    ensures { MatchOption result
        (((a : ℕ) → a < length blocks.now → block_in blocks.now a ≢ first) × ((a : ℕ) → a < length blocks.now → block_in blocks.now a ≢ second))
        (λ a. (a < length blocks.now) × ((block_in blocks.now a ≡ first) ⊎ (block_in blocks.now a ≡ second))) }
{
    match find_column(lattice, blocks, first) {
        Some(a) => Some(a),
        None => find_column(lattice, blocks, second),
    }
}

// The place of a block of the equation, if one is in the list.
fn find_in_equation(lattice: &Lattice, blocks: &[BlockId], e: EqId) -> Option<usize>
    requires listed { AreListed lattice.now blocks.now }
    requires equation { HasEquation lattice.now e }
    ensures { MatchOption result ((a : ℕ) → a < length blocks.now → is_in_equation lattice.now e (block_in blocks.now a) ≡ false)
        (λ a. (a < length blocks.now) × (is_in_equation lattice.now e (block_in blocks.now a) ≡ true)) }
{
    let q = lattice.equation(e);
    match find_either(lattice, blocks, q.datum, q.output) {
        Some(a) => Some(a),
        None => match q.input {
            Some(g) => find_column(lattice, blocks, g),
            None => None,
        },
    }
}

// The label of the equation's blocks that are in the list.
fn equation_label(lattice: &Lattice, blocks: &[BlockId], labels: &[u32], e: EqId) -> u32
    requires listed { AreListed lattice.now blocks.now }
    requires equation { HasEquation lattice.now e }
    requires each { length labels.now ≡ length blocks.now }
    requires some { 1 ≤ length blocks.now }
    requires below { (k : ℕ) → k < length blocks.now → get_or labels.now k 0 ≤ k }
    requires joined { JoinsEquation lattice.now blocks.now e (label_at labels.now) }
    ensures label { IsLabelOf lattice.now blocks.now labels.now e result }
    ensures below { result < length blocks.now }
{
    match find_in_equation(lattice, blocks, e) {
        Some(a) => labels[a],
        None => 0,
    }
}

// The label of each equation: that of its blocks that are in the list.
pub(crate) fn equation_labels(
    alloc: Global,
    lattice: &Lattice,
    blocks: &[BlockId],
    labels: &[u32],
    equations: &[EqId],
) -> Result<Vec<u32>, AllocError>
    requires listed { AreListed lattice.now blocks.now }
    requires equations { All (HasEquation lattice.now) equations.now }
    requires each { length labels.now ≡ length blocks.now }
    requires some { 1 ≤ length blocks.now }
    requires below { (k : ℕ) → k < length blocks.now → get_or labels.now k 0 ≤ k }
    requires joined { JoinsEach lattice.now blocks.now equations.now (length equations.now) (label_at labels.now) }
    ensures long { IfOk result (λ own. length own.items ≡ length equations.now) }
    ensures below { IfOk result (λ own. (i : ℕ) → i < length equations.now → get_or own.items i 0 < length blocks.now) }
    ensures label { IfOk result (λ own. (i : ℕ) → i < length equations.now
        → IsLabelOf lattice.now blocks.now labels.now (equation_in equations.now i) (get_or own.items i 0)) }
{
    let mut own = Vec::new(alloc);
    for at in 0..equations.len() {
        own.push(equation_label(lattice, blocks, labels, equations[at]))?;
    }
    Ok(own)
}
