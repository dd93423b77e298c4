//! What the tests share.

ghost use Rattle.std.specs.Prelude.{◌≡◌, IfOk};
ghost use Rattle.aea_gauss.specs.Fates.{AreInOrder};

use aea_gauss::{Fate, FateList, solve, solve_open};
use aea_lattice::{BlockId, Class, EqList, Lattice, NodeList, parse_block};
use aea_view::Marks;
use std::alloc::{AllocError, Global};

/// Marks of all blocks but these.
pub fn marks_without(
    alloc: Global,
    lattice: &Lattice,
    lost: &[BlockId],
) -> Result<Marks, AllocError>
    ensures { IfOk result (λ m. m.lattice ≡ lattice.now) }
{
    let mut marks = Marks::new(alloc, lattice)?;
    for k in 0..lattice.blocks() {
        let b = lattice.block(k);
        marks.set(b, !lost.contains(&b));
    }
    Ok(marks)
}

/// Marks of these blocks alone.
pub fn marks_of(alloc: Global, lattice: &Lattice, blocks: &[BlockId]) -> Result<Marks, AllocError>
    ensures { IfOk result (λ m. m.lattice ≡ lattice.now) }
{
    marks_without(alloc, lattice, blocks)?.complement(alloc)
}

/// The blocks of a text of one word each.
pub fn blocks_of(alloc: Global, text: &str) -> Option<Vec<BlockId>> {
    let mut blocks = Vec::new(alloc);
    let mut are_blocks = true;
    for word in text.split_whitespace() {
        let is_put = match parse_block(word.as_bytes()) {
            Some(block) => blocks.push(block).is_ok(),
            None => false,
        };
        are_blocks = are_blocks && is_put;
    }
    are_blocks.then_some(blocks)
}

// Puts this last. Says whether there was memory for the piece and for the longer text.
fn add(text: &mut String, piece: Result<String, AllocError>) -> bool {
    match piece {
        Ok(piece) => text.push_str(piece.as_str()).is_ok(),
        Err(_) => false,
    }
}

// Puts the text of this node and class last.
fn add_name(alloc: Global, text: &mut String, class: Class, node: u32) -> bool {
    let letter = char::from(class.letter());
    add(text, format!(in alloc; "{letter}{node}"))
}

/// Puts a line last: the block and its equations.
pub fn add_sum(alloc: Global, text: &mut String, block: BlockId, eqs: &EqList) -> bool {
    let mut are_added = add_name(alloc, text, block.class, block.node)
        && text.push_str(" =").is_ok();
    for k in 0..eqs.len() {
        if let Some(e) = eqs.get(k) {
            are_added = are_added
                && text.push_str(" ").is_ok()
                && add_name(alloc, text, e.class, e.node);
        }
    }
    are_added && text.push_str("\n").is_ok()
}

/// Puts a line last: the block and its nodes.
pub fn add_word(alloc: Global, text: &mut String, block: BlockId, nodes: &NodeList) -> bool {
    let mut are_added = add_name(alloc, text, block.class, block.node)
        && text.push_str(" by").is_ok();
    for k in 0..nodes.len() {
        if let Some(node) = nodes.get(k) {
            are_added = are_added && add(text, format!(in alloc; " {node}"));
        }
    }
    are_added && text.push_str("\n").is_ok()
}

// Puts the line of a fate last.
fn add_fate(alloc: Global, text: &mut String, fate: &Fate) -> bool {
    match fate {
        Fate::Sum { block, eqs } => add_sum(alloc, text, *block, eqs),
        Fate::Word { block, nodes } => add_word(alloc, text, *block, nodes),
    }
}

// The fates as text, a line each.
fn text_of(alloc: Global, fates: &FateList) -> Option<String> {
    let mut text = String::new(alloc);
    let mut are_added = true;
    for k in 0..fates.len() {
        if let Some(fate) = fates.get(k) {
            are_added = are_added && add_fate(alloc, &mut text, fate);
        }
    }
    are_added.then_some(text)
}

// Whether the fates of these blocks, and of no others, are found, each with its block.
fn are_found(lattice: &Lattice, fates: &FateList, lost: &[BlockId]) -> bool
    requires { AreInOrder lattice.now fates.now }
{
    let mut are_right = true;
    for k in 0..lattice.blocks() {
        let b = lattice.block(k);
        let found = fates.find(lattice, b).and_then(|at| fates.get(at));
        let block = found.map(|fate| fate.block());
        are_right = are_right && block == lost.contains(&b).then_some(b);
    }
    are_right
}

// Whether the fates have this text.
fn is_text(alloc: Global, fates: &FateList, want: &str) -> bool {
    text_of(alloc, fates).is_some_and(|text| text.as_str() == want)
}

// Whether the fates have this text where these blocks alone are open, and each is found.
fn has_open_fates(
    alloc: Global,
    lattice: &Lattice,
    lost: &[BlockId],
    open: &Marks,
    want: &str,
) -> bool
    requires { «open».now.lattice ≡ lattice.now }
{
    match solve_open(alloc, lattice, open) {
        Ok(fates) => are_found(lattice, &fates, lost) && is_text(alloc, &fates, want),
        Err(_) => false,
    }
}

// The same of the blocks that are not among the marks.
fn has_fates_without(
    alloc: Global,
    lattice: &Lattice,
    lost: &[BlockId],
    marks: &Marks,
    want: &str,
) -> bool
    requires { marks.now.lattice ≡ lattice.now }
{
    match marks.complement(alloc) {
        Ok(open) => has_open_fates(alloc, lattice, lost, &open, want),
        Err(_) => false,
    }
}

// The fates as text where the marked blocks are known.
fn solved(alloc: Global, lattice: &Lattice, marks: &Marks) -> Option<String>
    requires { marks.now.lattice ≡ lattice.now }
{
    match solve(alloc, lattice, marks) {
        Ok(fates) => text_of(alloc, &fates),
        Err(_) => None,
    }
}

/// The fates as text where these blocks are lost; none where `solve_open` gives others, or one is not found.
pub fn fates_of(alloc: Global, lattice: &Lattice, lost: &[BlockId]) -> Option<String> {
    match marks_without(alloc, lattice, lost) {
        Ok(marks) => {
            let text = solved(alloc, lattice, &marks)?;
            let is_same = has_fates_without(alloc, lattice, lost, &marks, text.as_str());
            is_same.then_some(text)
        }
        Err(_) => None,
    }
}

/// Whether the fates have this text where these blocks are lost.
pub fn has_fates(alloc: Global, lattice: &Lattice, lost: &[BlockId], want: &str) -> bool {
    fates_of(alloc, lattice, lost).is_some_and(|text| text.as_str() == want)
}

/// Whether the line is one of the text.
pub fn has_line(text: &str, want: &str) -> bool {
    text.lines().any(|line| line == want)
}
