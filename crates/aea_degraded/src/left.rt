//! What equations leave over: the blocks that are in an odd number of them. That is told by names alone, with no look at the
//! tables of the lattice for each of them.

ghost use Rattle.std.specs.Prelude.{◌≡◌, ◌≢◌, All};
ghost use Rattle.aea_lattice.specs.declared.grid.Lattice.{Lattice};
ghost use Rattle.aea_lattice.specs.Blocks.{HasBlock};
ghost use Rattle.aea_lattice.specs.Strands.{IsNext};
ghost use Rattle.aea_lattice.specs.Equations.{HasEquation, is_in_equation};
ghost use Rattle.aea_lattice.specs.Parity.{differ};
ghost use Rattle.aea_restore.specs.Plans.{is_left_over};

use aea_lattice::{BlockId, Class, EqId, EqList, Lattice};

// The node after that of a parity on its strand, if there is one. A datum lies on no strand.
fn next_of(lattice: &Lattice, b: BlockId) -> Option<u32>
    requires { HasBlock lattice.now b }
    ensures { b.class ≢ Class.Datum → IsNext lattice.now b.class b.node result }
{
    if b.class == Class::Datum {
        return None;
    }
    lattice.next(b.node, b.class)
}

// Whether the block is in the equation: a datum is in those of its node, and a parity in that of its node and class, whose output
// it is, and in that of the next node on its strand, whose input it is.
fn is_in(e: EqId, b: BlockId, next: Option<u32>) -> bool
    ensures { (l : Lattice) → HasEquation l e → (b.class ≢ Class.Datum → IsNext l b.class b.node next) → result ≡ is_in_equation l e b }
{
    if b.class == Class::Datum {
        return e.node == b.node;
    }
    if e.class != b.class {
        return false;
    }
    e.node == b.node || next == Some(e.node)
}

// Whether exactly one of the two holds.
fn differ(first: bool, second: bool) -> bool
    ensures { result ≡ differ first second }
{
    first != second
}

/// Whether the block is in an odd number of the equations. It looks at the name of each.
pub(crate) fn is_left(lattice: &Lattice, equations: &EqList, b: BlockId) -> bool
    requires equations { All (HasEquation lattice.now) equations.now }
    requires block { HasBlock lattice.now b }
    ensures { result ≡ is_left_over lattice.now equations.now b }
{
    let next = next_of(lattice, b);
    let mut odd = false;
    for k in 0..equations.len() {
        let Some(e) = equations.get(k) else {
            unreachable!()
        };
        odd = differ(odd, is_in(e, b, next));
    }
    odd
}
