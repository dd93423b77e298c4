//! The stretches of strands that the codeword of some nodes contains: on each strand the parities from an odd node to
//! before the next even one, or to the next fence.

ghost use Rattle.std.specs.Prelude.{◌≡◌, ◌==◌, ◌+◌, ◌<◌, ◌≤◌, ℕ, Bool, List, true, length, get_or};
ghost use Rattle.aea_lattice.specs.declared.blocks.BlockId.{BlockId};
ghost use Rattle.aea_lattice.specs.declared.blocks.Class.{Class};
ghost use Rattle.aea_lattice.specs.Blocks.{HasNode, HasParity, class_number};
ghost use Rattle.aea_lattice.specs.Lists.{has_node};
ghost use Rattle.aea_lattice.specs.Parity.{differ};
ghost use Rattle.aea_view.specs.Marked.{is_marked};
ghost use Rattle.aea_walk.specs.Codewords.{AreRising};
ghost use Rattle.aea_walk.specs.Stretches.{AreNextOn, AreNextIntact, IsFirstIn, IsFirstOn, ArePassed};

use crate::codewords::{lesser, node_at};
use crate::nexts::NextIntact;
use aea_lattice::{Class, Lattice, NodeList};
use aea_view::Marks;

// The first intact parity from node `from` on, along its strand, before the next fence and before node `limit`; n + 1 where
// there is none, and where `from` is n + 1.
fn first_in(lattice: &Lattice, next: &[u32], from: u32, limit: u32) -> u32
    requires { length next.now ≡ lattice.now.n + 1 }
    ensures { (intact : BlockId → Bool) (c : Class) → AreNextOn lattice.now intact c next.now → (from ≤ lattice.now.n → 1 ≤ from) → IsFirstIn lattice.now intact c from limit result }
{
    let end = lattice.n() + 1;
    if from >= end {
        return end;
    }
    let node = next[from as usize];
    if node < limit && !lattice.fences.parts(from, node) {
        node
    } else {
        end
    }
}

// Ends the stretch that is open on the strand of this node, and begins one where none was, or only one before a fence.
// The answer is the first intact parity of the stretches that have ended, n + 1 where there is none.
fn pass_node(
    lattice: &Lattice,
    next: &[u32],
    opens: &mut [u32],
    first: u32,
    node: u32,
    class: Class,
) -> u32
    requires node { HasNode lattice.now node }
    requires class { HasParity lattice.now class }
    requires long { length next.now ≡ lattice.now.n + 1 }
    requires strands { length opens.old ≡ 64 }
    ensures strands { length opens.new ≡ 64 }
    ensures passed { (intact : BlockId → Bool) (taken : ℕ → Bool) → AreNextOn lattice.now intact class next.now → ((n : ℕ) → taken n ≡ true → n < node)
        → ArePassed lattice.now intact class taken opens.old first → ArePassed lattice.now intact class (λ n. differ (taken n) (n == node)) opens.new result }
{
    let strand = lattice.strand(node, class) as usize;
    let from = opens[strand];
    let ended = first_in(lattice, next, from, node);
    opens[strand] = if from <= node && !lattice.fences.parts(from, node) {
        lattice.n() + 1
    } else {
        node
    };
    lesser(first, ended)
}

// Passes all nodes.
fn pass_nodes(
    lattice: &Lattice,
    next: &[u32],
    opens: &mut [u32],
    nodes: &NodeList,
    class: Class,
) -> u32
    requires nodes { AreRising lattice.now nodes.now }
    requires class { HasParity lattice.now class }
    requires long { length next.now ≡ lattice.now.n + 1 }
    requires strands { length opens.old ≡ 64 }
    requires none { (s : ℕ) → s < 64 → get_or opens.old s 0 ≡ lattice.now.n + 1 }
    ensures strands { length opens.new ≡ 64 }
    ensures passed { (intact : BlockId → Bool) → AreNextOn lattice.now intact class next.now → ArePassed lattice.now intact class (has_node nodes.now) opens.new result }
{
    let mut first = lattice.n() + 1;
    for k in 0..nodes.len() {
        first = pass_node(lattice, next, opens, first, node_at(nodes, k), class);
    }
    first
}

// Ends the stretches that no node ends: each is open on the strand of the node at which it begins.
fn end_stretches(
    lattice: &Lattice,
    next: &[u32],
    opens: &[u32],
    passed: u32,
    nodes: &NodeList,
    class: Class,
) -> u32
    requires nodes { AreRising lattice.now nodes.now }
    requires class { HasParity lattice.now class }
    requires long { length next.now ≡ lattice.now.n + 1 }
    requires strands { length opens.now ≡ 64 }
    ensures { (intact : BlockId → Bool) → AreNextOn lattice.now intact class next.now → ArePassed lattice.now intact class (has_node nodes.now) opens.now passed
        → IsFirstOn lattice.now intact nodes.now class result }
{
    let mut first = passed;
    for k in 0..nodes.len() {
        let strand = lattice.strand(node_at(nodes, k), class) as usize;
        first = lesser(
            first,
            first_in(lattice, next, opens[strand], lattice.n() + 1),
        );
    }
    first
}

// The node of the first marked parity of the class in the codeword of these nodes, where the lattice has the class.
fn first_used(marks: &Marks, next: &NextIntact, nodes: &NodeList, class: Class) -> u32
    requires next { AreNextIntact marks.now.lattice (is_marked marks.now) next.now }
    requires nodes { AreRising marks.now.lattice nodes.now }
    requires class { HasParity marks.now.lattice class }
    ensures { IsFirstOn marks.now.lattice (is_marked marks.now) nodes.now class result }
{
    let lattice = marks.lattice();
    let next = next.of(class);
    let mut strands = [lattice.n() + 1; 64];
    let opens = strands.as_mut_slice();
    let passed = pass_nodes(lattice, next, opens, nodes, class);
    end_stretches(lattice, next, opens, passed, nodes, class)
}

/// The node of the first marked parity of the class in the codeword of these nodes, n + 1 where there is none. The nodes
/// are in rising order.
pub(crate) fn first_parity(marks: &Marks, next: &NextIntact, nodes: &NodeList, class: Class) -> u32
    requires next { AreNextIntact marks.now.lattice (is_marked marks.now) next.now }
    requires nodes { AreRising marks.now.lattice nodes.now }
    requires class { 1 ≤ class_number class }
    ensures { IsFirstOn marks.now.lattice (is_marked marks.now) nodes.now class result }
{
    let lattice = marks.lattice();
    if class as u8 > lattice.alpha() {
        lattice.n() + 1
    } else {
        first_used(marks, next, nodes, class)
    }
}
