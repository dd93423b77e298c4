//! What the lines of blocks say.

ghost use Rattle.std.specs.Prelude.{◌≡◌, ◌<◌, ◌≤◌, ◌++◌, ℕ, List, IfSome, IfNone, IfOk, MatchOption, codes};
ghost use Rattle.aea_lattice.specs.declared.blocks.BlockId.{BlockId};
ghost use Rattle.aea_lattice.specs.Blocks.{HasBlock, number_of};
ghost use Rattle.aea_lattice.specs.Texts.{text_of};
ghost use Rattle.aea_report.specs.declared.line.Line.{Line};
ghost use Rattle.aea_report.specs.Format.{numbers_text, line_text};
ghost use Rattle.aea_report.specs.Grammar.{AreNodes, IsLine};
ghost use Rattle.aea_reader.specs.Words.{Starts, spaced};

use crate::words::{behind, cut, spaced_number};
use aea_lattice::{BlockId, Lattice, NodeList, parse_block};
use aea_report::Line;
use std::alloc::{AllocError, Global};

// The block of this text, if the lattice has it and its number is this one or a greater one.
fn block_in(lattice: &Lattice, least: u32, text: &[u8]) -> Option<BlockId>
    ensures found { IfSome result (λ b. text.now ≡ text_of b) }
    ensures has { IfSome result (HasBlock lattice.now) }
    ensures later { IfSome result (λ b. least ≤ number_of lattice.now b) }
    ensures none { IfNone result ((b : BlockId) → HasBlock lattice.now b → least ≤ number_of lattice.now b → text.now ≡ text_of b → ⊥) }
{
    let block = parse_block(text)?;
    if lattice.contains(block) && least <= lattice.number(block) {
        Some(block)
    } else {
        None
    }
}

// The node after a space, if the lattice has it and it is greater than this one, and what follows it.
fn node_after<'a>(lattice: &Lattice, last: u32, text: &'a [u8]) -> Option<(u32, &'a [u8])>
    ensures found { IfSome result (λ q. text.now ≡ spaced q.0 q.1.now) }
    ensures rises { IfSome result (λ q. (last < q.0) × (q.0 ≤ lattice.now.n)) }
    ensures reads { (n : ℕ) (rest : List ℕ) → last < n → n ≤ lattice.now.n → Starts 32 rest → text.now ≡ spaced n rest
        → MatchOption result ⊥ (λ q. (q.0 ≡ n) × (q.1.now ≡ rest)) }
{
    match spaced_number(text) {
        Some((node, rest)) if last < node && node <= lattice.n => Some((node, rest)),
        _ => None,
    }
}

// The nodes, each after a space, if they are one or more of the lattice, each greater than the one before.
fn nodes_in(alloc: Global, lattice: &Lattice, text: &[u8]) -> Result<Option<NodeList>, AllocError>
    ensures found { IfOk result (λ o. IfSome o (λ nodes. (text.now ≡ numbers_text nodes) × AreNodes lattice.now nodes)) }
    ensures none { IfOk result (λ o. IfNone o ((nodes : List ℕ) → AreNodes lattice.now nodes → text.now ≡ numbers_text nodes → ⊥)) }
{
    if text.is_empty() {
        return Ok(None);
    }
    let mut nodes = NodeList::new(alloc);
    let mut last = 0;
    let mut rest = text;
    while !rest.is_empty() {
        let Some((node, more)) = node_after(lattice, last, rest) else {
            return Ok(None);
        };
        nodes.push(node)?;
        last = node;
        rest = more;
    }
    Ok(Some(nodes))
}

// The block and the nodes of a line by which a block is lost, after its first word.
fn lost_in(
    alloc: Global,
    lattice: &Lattice,
    least: u32,
    text: &[u8],
) -> Result<Option<Line>, AllocError>
    ensures found { IfOk result (λ o. IfSome o (λ line. (codes "lost " ++ text.now ≡ line_text line) × IsLine lattice.now least line)) }
    ensures none { IfOk result (λ o. IfNone o ((b : BlockId) (nodes : List ℕ) → IsLine lattice.now least (Line.Lost b nodes)
        → text.now ≡ text_of b ++ (codes " by" ++ numbers_text nodes) → ⊥)) }
{
    let (word, rest) = cut(text);
    let Some(block) = block_in(lattice, least, word) else {
        return Ok(None);
    };
    let Some(list) = behind(rest, b" by") else {
        return Ok(None);
    };
    match nodes_in(alloc, lattice, list)? {
        Some(nodes) => Ok(Some(Line::Lost { block, nodes })),
        None => Ok(None),
    }
}

/// The line of a block of the lattice whose number is this one or a greater one, None where the text is that of no such
/// line. An error is a lack of memory.
pub fn line_in(
    alloc: Global,
    lattice: &Lattice,
    least: u32,
    text: &[u8],
) -> Result<Option<Line>, AllocError>
    ensures found { IfOk result (λ o. IfSome o (λ line. (text.now ≡ line_text line) × IsLine lattice.now least line)) }
    ensures none { IfOk result (λ o. IfNone o ((line : Line) → IsLine lattice.now least line → text.now ≡ line_text line → ⊥)) }
{
    if let Some(rest) = behind(text, b"peeled ") {
        return match block_in(lattice, least, rest) {
            Some(block) => Ok(Some(Line::Peeled { block })),
            None => Ok(None),
        };
    }
    if let Some(rest) = behind(text, b"solved ") {
        return match block_in(lattice, least, rest) {
            Some(block) => Ok(Some(Line::Solved { block })),
            None => Ok(None),
        };
    }
    match behind(text, b"lost ") {
        Some(rest) => lost_in(alloc, lattice, least, rest),
        None => Ok(None),
    }
}
