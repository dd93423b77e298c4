ghost use Rattle.std.specs.Prelude.{◌≡◌, ◌<◌, ◌↔◌, ℕ, Bool, true, false, not, length, filter, All, IsTrue, IfOk, IfSome, IfNone, MatchOption, get_or};
ghost use Rattle.std.specs.Option.{ForSome};
ghost use Rattle.aea_lattice.specs.declared.blocks.BlockId.{BlockId};
ghost use Rattle.aea_lattice.specs.Blocks.{HasBlock, blocks_count, blocks_of, number_of};
ghost use Rattle.aea_view.specs.Marked.{unmarked};
ghost use Rattle.aea_lattice.specs.Equations.{HasEquation};
ghost use Rattle.aea_lattice.specs.Closure.{IsForcedBy, IsReached, is_among};
ghost use Rattle.aea_plain.specs.Sets.{IsClosure};
ghost use Rattle.aea_plain.specs.Marks.{is_marked, IsState, IsSpent};

use crate::sums::all_equations;
use aea_lattice::{BlockId, EqId, Lattice};
use aea_view::Marks;
use std::alloc::{AllocError, Global};

// Whether the block is one of these.
fn has_block(blocks: &[BlockId], b: BlockId) -> bool
    ensures { result ≡ is_among blocks.now b }
{
    blocks.iter().any(|d| b == *d)
}

// A mark for each block of the lattice that is known.
fn known_marks(alloc: Global, lattice: &Lattice, known: &[BlockId]) -> Result<Marks, AllocError>
    ensures same { IfOk result (λ marks. marks.lattice ≡ lattice.now) }
    ensures long { IfOk result (λ marks. length marks.marks ≡ blocks_count lattice.now) }
    ensures marks { IfOk result (λ marks. (b : BlockId) → HasBlock lattice.now b → is_marked lattice.now marks.marks b ≡ is_among known.now b) }
{
    let mut marks = Marks::new(alloc, lattice)?;
    for k in 0..lattice.blocks() {
        let block = lattice.block(k);
        marks.set(block, has_block(known, block));
    }
    Ok(marks)
}

// The one block of the equation without a mark, if it is one.
fn single_unmarked(lattice: &Lattice, marks: &Marks, e: EqId) -> Option<BlockId>
    requires equation { HasEquation lattice.now e }
    requires same { marks.now.lattice ≡ lattice.now }
    ensures forced { IfSome result (λ b. IsForcedBy lattice.now (is_marked lattice.now marks.now.marks) b e) }
    ensures inside { IfSome result (HasBlock lattice.now) }
    ensures no_mark { IfSome result (λ b. get_or marks.now.marks (number_of lattice.now b) false ≡ false) }
    ensures spent { IfNone result (IsSpent lattice.now marks.now.marks e) }
{
    marks.single_unmarked(e)
}

// Marks the one block of the equation that has no mark, if it is one.
fn advance(lattice: &Lattice, marks: &mut Marks, e: EqId) -> bool
    requires equation { HasEquation lattice.now e }
    requires same { marks.old.lattice ≡ lattice.now }
    requires long { length marks.old.marks ≡ blocks_count lattice.now }
    ensures same_lattice { marks.new.lattice ≡ lattice.now }
    ensures long { length marks.new.marks ≡ blocks_count lattice.now }
    ensures state { (known : BlockId → Bool) → IsState lattice.now known marks.old.marks → IsState lattice.now known marks.new.marks }
    ensures fewer { result ≡ true → unmarked marks.new < unmarked marks.old }
    ensures same { result ≡ false → marks.new ≡ marks.old }
    ensures spent { result ≡ false → IsSpent lattice.now marks.old.marks e }
{
    match single_unmarked(lattice, marks, e) {
        None => false,
        Some(b) => {
            marks.set(b, true);
            true
        }
    }
}

// Goes once through the equations, and says whether it marked a block.
fn sweep(lattice: &Lattice, equations: &[EqId], marks: &mut Marks) -> bool
    requires equations { All (HasEquation lattice.now) equations.now }
    requires same { marks.old.lattice ≡ lattice.now }
    requires long { length marks.old.marks ≡ blocks_count lattice.now }
    ensures same_lattice { marks.new.lattice ≡ lattice.now }
    ensures long { length marks.new.marks ≡ blocks_count lattice.now }
    ensures state { (known : BlockId → Bool) → IsState lattice.now known marks.old.marks → IsState lattice.now known marks.new.marks }
    ensures fewer { result ≡ true → unmarked marks.new < unmarked marks.old }
    ensures same { result ≡ false → marks.new ≡ marks.old }
    ensures spent { result ≡ false → All (IsSpent lattice.now marks.new.marks) equations.now }
{
    let mut changed = false;
    for e in equations {
        changed |= advance(lattice, marks, *e);
    }
    changed
}

// The blocks with marks, in number order.
fn marked_blocks(
    alloc: Global,
    lattice: &Lattice,
    marks: &Marks,
) -> Result<Vec<BlockId>, AllocError>
    requires { marks.now.lattice ≡ lattice.now }
    ensures { IfOk result (λ blocks. blocks.items ≡ filter (is_marked lattice.now marks.now.marks) (blocks_of lattice.now)) }
{
    let mut blocks = Vec::new(alloc);
    for k in 0..lattice.blocks() {
        let b = lattice.block(k);
        if marks.get(b) {
            blocks.push(b)?;
        }
    }
    Ok(blocks)
}

/// The blocks of the lattice in the closure of the known ones, in number order: those that are known or that single
/// equations give one after another, by going through all equations until nothing changes. Known blocks outside
/// the lattice count for nothing.
pub fn closure(
    alloc: Global,
    lattice: &Lattice,
    known: &[BlockId],
) -> Result<Vec<BlockId>, AllocError>
    ensures { IfOk result (λ blocks. IsClosure lattice.now (is_among known.now) blocks.items) }
{
    let equations = all_equations(alloc, lattice)?;
    let mut marks = known_marks(alloc, lattice, known)?;
    let mut changed = true;
    while changed {
        changed = sweep(lattice, equations.as_slice(), &mut marks);
    }
    marked_blocks(alloc, lattice, &marks)
}
