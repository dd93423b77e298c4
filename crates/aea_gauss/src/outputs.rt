ghost use Rattle.std.specs.Prelude.{◌≡◌, ◌||◌, ◌≤◌, ◌<◌, ◌^◌, Bool, map, All, IfOk};
ghost use Rattle.std.specs.Prelude.{length};
ghost use Rattle.aea_lattice.specs.declared.blocks.BlockId.{BlockId};
ghost use Rattle.aea_lattice.specs.declared.blocks.Class.TheVariants as Class;
ghost use Rattle.aea_lattice.specs.Blocks.{HasNode, HasParity, HasBlock, block_of, class_number, same_block};
ghost use Rattle.aea_lattice.specs.Equations.{HasEquation};
ghost use Rattle.aea_view.specs.Marked.{IsWhole};
ghost use Rattle.aea_fates.specs.Live.{live_equations};
ghost use Rattle.aea_readings.specs.Small.{unknown_blocks, AreListed};
ghost use Rattle.aea_gauss.specs.Outputs.{equation_at, is_output_with, AddsMarks, AreOutputs};

use crate::marked::marked_blocks;
use aea_lattice::{BlockId, Class, EqId, Lattice};
use aea_view::Marks;
use std::alloc::{AllocError, Global};

// Marks the output of the equation of this node and class, if the lattice has the class.
fn mark_output(outputs: &mut Marks, node: u32, class: Class)
    requires node { HasNode outputs.old.lattice node }
    requires whole { IsWhole outputs.old }
    ensures { AddsMarks outputs.old outputs.new (λ d. same_block d (block_of node class)) }
{
    if class as u8 <= outputs.lattice().alpha() {
        outputs.set(BlockId { node, class }, true);
    }
}

// Marks the outputs of the equations of a node.
fn mark_node(outputs: &mut Marks, node: u32)
    requires node { HasNode outputs.old.lattice node }
    requires whole { IsWhole outputs.old }
    ensures { AddsMarks outputs.old outputs.new (is_output_with outputs.old.lattice (block_of node Class.Datum)) }
{
    mark_output(outputs, node, Class::Horiz);
    mark_output(outputs, node, Class::Right);
    mark_output(outputs, node, Class::Left);
}

// Marks the outputs of the one or two equations with a given parity: that of its node, and that of the next node on its strand.
fn mark_parity(outputs: &mut Marks, node: u32, class: Class)
    requires node { HasNode outputs.old.lattice node }
    requires class { HasParity outputs.old.lattice class }
    requires whole { IsWhole outputs.old }
    ensures { AddsMarks outputs.old outputs.new (is_output_with outputs.old.lattice (block_of node class)) }
{
    mark_output(outputs, node, class);
    match outputs.lattice().next(node, class) {
        Some(next) => mark_output(outputs, next, class),
        None => {}
    }
}

// Marks the outputs of the equations that have the block.
fn mark_around(outputs: &mut Marks, b: BlockId)
    requires block { HasBlock outputs.old.lattice b }
    requires whole { IsWhole outputs.old }
    ensures { AddsMarks outputs.old outputs.new (is_output_with outputs.old.lattice b) }
{
    match b.class {
        Class::Datum => mark_node(outputs, b.node),
        _ => mark_parity(outputs, b.node, b.class),
    }
}

// Marks of the outputs of the equations that have one of the blocks.
fn outputs_of(alloc: Global, lattice: &Lattice, blocks: &[BlockId]) -> Result<Marks, AllocError>
    requires { AreListed lattice.now blocks.now }
    ensures { IfOk result (AreOutputs lattice.now blocks.now) }
{
    let mut outputs = Marks::new(alloc, lattice)?;
    for k in 0..blocks.len() {
        mark_around(&mut outputs, blocks[k]);
    }
    Ok(outputs)
}

// The equations that have these outputs.
fn equations_at(alloc: Global, outputs: &[BlockId]) -> Result<Vec<EqId>, AllocError>
    ensures { IfOk result (λ equations. equations.items ≡ map equation_at outputs.now) }
{
    let mut equations = Vec::with_capacity(alloc, outputs.len())?;
    for k in 0..outputs.len() {
        let node = outputs[k].node;
        let class = outputs[k].class;
        equations.push(EqId { node, class })?;
    }
    Ok(equations)
}

// The equations that have one of the blocks, in equation order. Beside the list it takes a bit for each block of the lattice.
pub(crate) fn equations_of(
    alloc: Global,
    lattice: &Lattice,
    blocks: &[BlockId],
) -> Result<Vec<EqId>, AllocError>
    requires { AreListed lattice.now blocks.now }
    ensures { IfOk result (λ equations. (known : BlockId → Bool) → blocks.now ≡ unknown_blocks lattice.now known
        → equations.items ≡ live_equations lattice.now known) }
{
    let marks = outputs_of(alloc, lattice, blocks)?;
    let outputs = marked_blocks(alloc, lattice, &marks)?;
    equations_at(alloc, outputs.as_slice())
}
