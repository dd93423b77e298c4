//! What is lost, in one pass, of the smallest lattices.

ghost use Rattle.std.specs.Prelude.{◌≡◌, IfOk};

use aea_lattice::{BlockId, Class, Lattice};
use aea_sweep::{LossList, losses, marked_losses};
use aea_view::Marks;
use std::alloc::{AllocError, Global};

// The nodes by which a block is lost, none where it is determined.
type Nodes = Option<&'static [u32]>;

// The number of the first block that is not lost by these nodes; that of all blocks where the list has more.
fn first_wrong(list: &LossList, wants: &[Nodes]) -> Option<usize> {
    for (k, want) in wants.iter().enumerate() {
        if list.len() <= k || list.nodes(k) != *want {
            return Some(k);
        }
    }
    (list.len() != wants.len()).then_some(wants.len())
}

// The same of what is lost where the marked blocks are known; the first block where memory runs out.
fn first_wrong_of(alloc: Global, lattice: &Lattice, known: &Marks, wants: &[Nodes]) -> Option<usize>
    requires { known.now.lattice ≡ lattice.now }
{
    match losses(alloc, lattice, known) {
        Ok(list) => first_wrong(&list, wants),
        Err(_) => Some(0),
    }
}

// The same of two nodes where no block is known.
fn first_wrong_of_two(alloc: Global, lattice: &Lattice) -> Option<usize> {
    let wants: [Nodes; 4] = [Some(&[1, 2]), Some(&[1, 2]), Some(&[1, 2]), Some(&[1])];
    match Marks::new(alloc, lattice) {
        Ok(known) => first_wrong_of(alloc, lattice, &known, &wants),
        Err(_) => Some(0),
    }
}

#[test]
fn all_blocks_lost(rt: HostRuntime) {
    let alloc = rt.alloc();
    let lattice = Lattice::new(1, 1, 0, 2);
    let wrong = lattice.map(|lattice| first_wrong_of_two(alloc, &lattice));
    assert!(rt; wrong == Some(None), "block {wrong:?}");
}

// Marks of h1 alone, where the lattice has it.
fn marks_of_one(alloc: Global, lattice: &Lattice) -> Result<Marks, AllocError>
    ensures { IfOk result (λ m. m.lattice ≡ lattice.now) }
{
    let mut known = Marks::new(alloc, lattice)?;
    let block = BlockId {
        node: 1,
        class: Class::Horiz,
    };
    if lattice.contains(block) {
        known.set(block, true);
    }
    Ok(known)
}

// Whether neither block of one node is lost where h1 is known.
fn none_is_lost(alloc: Global, lattice: &Lattice) -> bool {
    match marks_of_one(alloc, lattice) {
        Ok(known) => first_wrong_of(alloc, lattice, &known, &[None, None]) == None,
        Err(_) => false,
    }
}

#[test]
fn a_determined_block(rt: HostRuntime) {
    let alloc = rt.alloc();
    let lattice = Lattice::new(1, 1, 0, 1);
    assert!(rt; lattice.is_some_and(|lattice| none_is_lost(alloc, &lattice)));
}

// Whether these are the marks of the lattice.
fn are_marks(lattice: &Lattice, marks: &Marks, these: &[bool]) -> bool
    requires { marks.now.lattice ≡ lattice.now }
{
    let mut same = these.len() == lattice.blocks() as usize;
    for k in 0..lattice.blocks() {
        if these.get(k as usize) != Some(&marks.get(lattice.block(k))) {
            same = false;
        }
    }
    same
}

// Whether d1 is determined of three nodes and d3 lost by nodes 2 and 3.
fn are_losses(list: &LossList) -> bool {
    list.len() == 6 && list.nodes(0).is_none() && list.nodes(4) == Some([2, 3].as_slice())
}

// Whether the losses of three nodes and the marks of their ends are right where these are known.
fn are_ends(alloc: Global, lattice: &Lattice, known: &Marks) -> bool
    requires { known.now.lattice ≡ lattice.now }
{
    let ends = [false, true, false, false, true, true];
    match marked_losses(alloc, lattice, known) {
        Ok(marked) => are_losses(&marked.losses) && are_marks(lattice, &marked.marks, &ends),
        Err(_) => false,
    }
}

// The same where h1 is known.
fn ends_are_right(alloc: Global, lattice: &Lattice) -> bool {
    match marks_of_one(alloc, lattice) {
        Ok(known) => are_ends(alloc, lattice, &known),
        Err(_) => false,
    }
}

#[test]
fn ends_are_marked(rt: HostRuntime) {
    let alloc = rt.alloc();
    let lattice = Lattice::new(1, 1, 0, 3);
    assert!(rt; lattice.is_some_and(|lattice| ends_are_right(alloc, &lattice)));
}
