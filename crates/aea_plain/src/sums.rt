ghost use Rattle.std.specs.Prelude.{◌≡◌, [], ◌∷◌, ◌++◌, ◌&&◌, IfOk, OnOk, All, filter, map};
ghost use Rattle.std.specs.List.{list_any};
ghost use Rattle.aea_lattice.specs.Blocks.{same_block, blocks_of, classes};
ghost use Rattle.aea_lattice.specs.Equations.{HasEquation, is_in_equation, is_odd_count, adds_up_to, equation_of, equations_of};
ghost use Rattle.aea_lattice.specs.Lists.{is_listed};

use aea_lattice::{BlockId, Class, EqId, Lattice};
use std::alloc::{AllocError, Global};

// Puts the equations of the node last: one for each class of parities that the lattice has.
fn push_equations(lattice: &Lattice, equations: &mut Vec<EqId>, node: u32) -> Result<(), AllocError>
    ensures { OnOk result (equations.new.items ≡ equations.old.items ++ map (equation_of node) (classes lattice.now)) }
{
    for class in [Class::Horiz, Class::Right, Class::Left] {
        if class as u8 <= lattice.alpha {
            equations.push(EqId { node, class })?;
        }
    }
    Ok(())
}

/// The equations of the lattice, in equation order. An error is lack of memory.
pub fn all_equations(alloc: Global, lattice: &Lattice) -> Result<Vec<EqId>, AllocError>
    ensures all { IfOk result (λ equations. equations.items ≡ equations_of lattice.now) }
    ensures inside { IfOk result (λ equations. All (HasEquation lattice.now) equations.items) }
{
    let mut equations = Vec::new(alloc);
    for node in 1..lattice.n + 1 {
        push_equations(lattice, &mut equations, node)?;
    }
    Ok(equations)
}

// Whether the equation is one of these.
fn has_equation(equations: &[EqId], e: EqId) -> bool
    ensures { result ≡ is_listed equations.now e }
{
    equations.iter().any(|d| e == *d)
}

// Whether the two are one block.
fn is_same(b: BlockId, g: BlockId) -> bool
    ensures { result ≡ same_block b g }
{
    b == g
}

// Whether the block is one of the two.
fn is_either(b: BlockId, first: BlockId, second: BlockId) -> bool
    ensures { result ≡ list_any (same_block b) (first ∷ second ∷ []) }
{
    b == first || b == second
}

// Whether the block is in the equation.
fn is_in_equation(lattice: &Lattice, e: EqId, b: BlockId) -> bool
    requires { HasEquation lattice.now e }
    ensures { result ≡ is_in_equation lattice.now e b }
{
    let q = lattice.equation(e);
    match q.input {
        Some(g) => is_same(b, g) || is_either(b, q.datum, q.output),
        None => is_either(b, q.datum, q.output),
    }
}

// Whether an odd number of equations, of all and in the list, have the block.
fn is_in_sum(lattice: &Lattice, all: &[EqId], equations: &[EqId], b: BlockId) -> bool
    requires { All (HasEquation lattice.now) all.now }
    ensures { result ≡ is_odd_count (λ e. is_listed equations.now e && is_in_equation lattice.now e b) all.now }
{
    let mut is_odd = false;
    for e in all {
        if has_equation(equations, *e) && is_in_equation(lattice, *e, b) {
            is_odd = !is_odd;
        }
    }
    is_odd
}

/// The blocks that the set of these equations adds up to, in number order: those in an odd number of them. An
/// equation counts once, and only where the lattice has it.
pub fn sum(alloc: Global, lattice: &Lattice, equations: &[EqId]) -> Result<Vec<BlockId>, AllocError>
    ensures { IfOk result (λ blocks. blocks.items ≡ filter (adds_up_to lattice.now (is_listed equations.now)) (blocks_of lattice.now)) }
{
    let all = all_equations(alloc, lattice)?;
    let mut blocks = Vec::new(alloc);
    for k in 0..lattice.blocks() {
        let b = lattice.block(k);
        if is_in_sum(lattice, all.as_slice(), equations, b) {
            blocks.push(b)?;
        }
    }
    Ok(blocks)
}
