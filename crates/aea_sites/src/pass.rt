//! One pass over the blocks that are not marked: where an equation forces one of them, it is marked. What follows only from
//! others that come later is left to a worklist.

ghost use Rattle.std.specs.Prelude.{◌≡◌, ◌≤◌, OnOk};
ghost use Rattle.aea_lattice.specs.Blocks.{HasBlock, HasNode, HasParity, class_number};
ghost use Rattle.aea_view.specs.Marked.{IsWhole};
ghost use Rattle.aea_sites.specs.Passes.{GoesOn};

use aea_lattice::{BlockId, Class, EqId};
use aea_view::Marks;
use std::alloc::{AllocError, Global};

// Marks the block that the equation of this node and class forces, if the lattice has the class and there is such a block, and
// says whether it did.
fn mark_by(marks: &mut Marks, node: u32, class: Class) -> bool
    requires node { HasNode marks.old.lattice node }
    requires parity { 1 ≤ class_number class }
    requires whole { IsWhole marks.old }
    ensures { GoesOn marks.old marks.new }
{
    if class as u8 > marks.lattice().alpha() {
        return false;
    }
    match marks.single_unmarked(EqId { node, class }) {
        None => false,
        Some(block) => {
            marks.set(block, true);
            true
        }
    }
}

// Marks a block of an equation of the node, if one forces it.
fn mark_node(marks: &mut Marks, node: u32)
    requires node { HasNode marks.old.lattice node }
    requires whole { IsWhole marks.old }
    ensures { GoesOn marks.old marks.new }
{
    if mark_by(marks, node, Class::Horiz) || mark_by(marks, node, Class::Right) {
        return;
    }
    mark_by(marks, node, Class::Left);
}

// Marks a block of the one or two equations with a given parity, if one forces it.
fn mark_parity(marks: &mut Marks, node: u32, class: Class)
    requires node { HasNode marks.old.lattice node }
    requires class { HasParity marks.old.lattice class }
    requires whole { IsWhole marks.old }
    ensures { GoesOn marks.old marks.new }
{
    if mark_by(marks, node, class) {
        return;
    }
    if let Some(next) = marks.lattice().next(node, class) {
        mark_by(marks, next, class);
    }
}

// Marks a block of an equation with this one, if one forces it: this one, where it is not marked.
fn mark_around(marks: &mut Marks, b: BlockId)
    requires block { HasBlock marks.old.lattice b }
    requires whole { IsWhole marks.old }
    ensures { GoesOn marks.old marks.new }
{
    match b.class {
        Class::Datum => mark_node(marks, b.node),
        _ => mark_parity(marks, b.node, b.class),
    }
}

/// Marks, in number order, each block without a mark that an equation forces when it is come to.
pub(crate) fn mark_forced(alloc: Global, marks: &mut Marks) -> Result<(), AllocError>
    requires { IsWhole marks.old }
    ensures { OnOk result (GoesOn marks.old marks.new) }
{
    let open = marks.complement(alloc)?;
    let mut from: u32 = 0;
    while let Some(k) = open.next_marked(from) {
        let block = marks.lattice().block(k);
        mark_around(marks, block);
        from = k + 1;
    }
    Ok(())
}
