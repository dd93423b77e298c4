ghost use Rattle.std.specs.Prelude.{◌≡◌, ◌≤◌, Bool, length, All, IfOk};
ghost use Rattle.aea_lattice.specs.declared.blocks.BlockId.{BlockId};
ghost use Rattle.aea_lattice.specs.Equations.{HasEquation};
ghost use Rattle.aea_view.specs.Marked.{is_marked};
ghost use Rattle.aea_fates.specs.Live.{live_equations};
ghost use Rattle.aea_readings.specs.Small.{unknown_blocks, AreListed};
ghost use Rattle.aea_gauss.specs.Parts.{AreParts, HaveEach};

use crate::buckets::{Bucket, by_label};
use crate::equations::{live_equations, unknown_blocks};
use crate::labels::{block_labels, equation_labels};
use aea_lattice::{BlockId, EqId, Lattice};
use aea_view::Marks;
use std::alloc::{AllocError, Global};

// The blocks and the equations of the parts, each at its label.
#[derive(Drop)]
pub(crate) struct Parts {
    pub(crate) blocks: Vec<Bucket<BlockId>>,
    pub(crate) equations: Vec<Bucket<EqId>>,
}

// The parts of some blocks, by the equations that have one of them. Blocks that an equation has together are in one part.
pub(crate) fn parts_of(
    alloc: Global,
    lattice: &Lattice,
    blocks: &[BlockId],
    equations: &[EqId],
) -> Result<Parts, AllocError>
    requires listed { AreListed lattice.now blocks.now }
    requires equations { All (HasEquation lattice.now) equations.now }
    requires some { 1 ≤ length blocks.now }
    ensures long { IfOk result (λ parts. length parts.equations.items ≡ length parts.blocks.items) }
    ensures each { IfOk result (λ parts. (known : BlockId → Bool) → blocks.now ≡ unknown_blocks lattice.now known
        → equations.now ≡ live_equations lattice.now known → AreParts lattice.now known parts.blocks.items parts.equations.items) }
    ensures whole { IfOk result (λ parts. HaveEach blocks.now parts.blocks.items) }
{
    let labels = block_labels(alloc, lattice, blocks, equations)?;
    let labels = labels.as_slice();
    let own = equation_labels(alloc, lattice, blocks, labels, equations)?;
    let part_blocks = by_label(alloc, blocks, labels, blocks.len())?;
    let part_equations = by_label(alloc, equations, own.as_slice(), blocks.len())?;
    Ok(Parts {
        blocks: part_blocks,
        equations: part_equations,
    })
}

// The parts of the blocks that are not marked, none where all are.
pub(crate) fn unknown_parts(
    alloc: Global,
    lattice: &Lattice,
    marks: &Marks,
) -> Result<Parts, AllocError>
    requires same { marks.now.lattice ≡ lattice.now }
    ensures long { IfOk result (λ parts. length parts.equations.items ≡ length parts.blocks.items) }
    ensures each { IfOk result (λ parts. AreParts lattice.now (is_marked marks.now) parts.blocks.items parts.equations.items) }
    ensures whole { IfOk result (λ parts. HaveEach (unknown_blocks lattice.now (is_marked marks.now)) parts.blocks.items) }
{
    let blocks = unknown_blocks(alloc, lattice, marks)?;
    if blocks.is_empty() {
        return Ok(Parts {
            blocks: Vec::new(alloc),
            equations: Vec::new(alloc),
        });
    }
    let equations = live_equations(alloc, lattice, marks)?;
    let parts = parts_of(alloc, lattice, blocks.as_slice(), equations.as_slice())?;
    Ok(parts)
}
