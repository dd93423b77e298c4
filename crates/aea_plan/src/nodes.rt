//! The text of the nodes of a lost block, made in memory that was taken before.

ghost use Rattle.std.specs.Prelude.{◌≡◌, ◌+◌, ◌*◌, ◌≤◌, ◌++◌, ◌∷◌, [], List, ℕ, length, vec_capacity, Some, IsTrue};
ghost use Rattle.aea_report.specs.Format.{numbers_text};
ghost use Rattle.aea_plan.specs.Texts.{KeepsText};
ghost use Rattle.aea_plan.specs.Verdicts.{nodes_at};

use crate::verdicts::listed_nodes;
use aea_sweep::LossList;
use itoa::Buffer;

/// The most bytes of a node in a text, with the space before it.
pub(crate) const NODE_BYTES: usize = 11;

// Puts the node last, in decimal after a space.
fn push_node(text: &mut Vec<u8>, node: u32)
    requires { length text.old.items + NODE_BYTES ≤ vec_capacity text.old }
    ensures text { text.new.items ≡ text.old.items ++ numbers_text (node ∷ []) }
    ensures long { length text.new.items ≤ length text.old.items + NODE_BYTES }
    ensures room { vec_capacity text.old ≤ vec_capacity text.new }
{
    let mut buffer = Buffer::new();
    let digits = buffer.format(node).as_bytes();
    let Ok(()) = text.extend_from_slice(b" ") else {
        unreachable!()
    };
    let Ok(()) = text.extend_from_slice(digits) else {
        unreachable!()
    };
}

// Makes the text of the nodes, in place of what it was.
fn write_nodes(text: &mut Vec<u8>, nodes: &[u32])
    requires { NODE_BYTES * length nodes.now ≤ vec_capacity text.old }
    ensures text { text.new.items ≡ numbers_text nodes.now }
    ensures room { vec_capacity text.old ≤ vec_capacity text.new }
{
    text.clear();
    for k in 0..nodes.len() {
        let node = nodes[k];
        push_node(text, node);
    }
}

// Whether the text is noted to be that of these nodes.
fn is_noted(losses: &Option<LossList>, noted: Option<u32>, nodes: &[u32]) -> bool
    ensures { IsTrue result → (text : List ℕ) → KeepsText losses.now text noted → text ≡ numbers_text nodes.now }
{
    let Some(number) = noted else {
        return false;
    };
    match listed_nodes(losses, number) {
        Some(others) => others == nodes,
        None => false,
    }
}

/// Makes the text that of the nodes that the list has for the block of this number, if it is not so yet: lost blocks that follow
/// each other often have the same nodes. The number is noted.
pub(crate) fn keep_text(
    text: &mut Vec<u8>,
    noted: &mut Option<u32>,
    losses: &Option<LossList>,
    number: u32,
    nodes: &[u32],
)
    requires kept { KeepsText losses.now text.old.items noted.old }
    requires here { nodes_at losses.now number ≡ Some nodes.now }
    requires room { NODE_BYTES * length nodes.now ≤ vec_capacity text.old }
    ensures text { text.new.items ≡ numbers_text nodes.now }
    ensures kept { KeepsText losses.now text.new.items noted.new }
    ensures room { vec_capacity text.old ≤ vec_capacity text.new }
{
    if !is_noted(losses, *noted, nodes) {
        write_nodes(text, nodes);
        *noted = Some(number);
    }
}
