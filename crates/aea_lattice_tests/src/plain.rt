//! The plain programs of the definitions, against the tables of neighbours.

ghost use Rattle.aea_lattice.specs.Blocks.{HasBlock, HasParity};
ghost use Rattle.aea_lattice.specs.Equations.{HasEquation};

use crate::walking::fenced;
use aea_lattice::{BlockId, Class, EqId, Equation, Lattice};
use aea_plain::{all_equations, codeword, last_on, next, prefix, previous};
use std::alloc::{AllocError, Global};

// α, s, p and the number of nodes.
const SHAPES: [(u8, u8, u8, u32); 15] = [
    (1, 1, 0, 0),
    (1, 1, 0, 1),
    (1, 1, 0, 40),
    (2, 2, 2, 60),
    (2, 2, 5, 60),
    (2, 3, 7, 80),
    (2, 16, 16, 200),
    (2, 5, 64, 700),
    (3, 2, 2, 60),
    (3, 2, 5, 80),
    (3, 3, 3, 60),
    (3, 3, 7, 90),
    (3, 4, 5, 90),
    (3, 5, 5, 100),
    (3, 16, 64, 2100),
];

// α, s, p, the fences and the number of nodes.
const FENCED: [(u8, u8, u8, &[u32], u32); 16] = [
    (1, 1, 0, &[1], 1),
    (1, 1, 0, &[1, 2, 30], 60),
    (1, 1, 0, &[40], 40),
    (2, 2, 2, &[11], 30),
    (2, 2, 5, &[13, 14], 60),
    (2, 3, 7, &[1, 40, 80], 80),
    (2, 16, 16, &[100], 200),
    (2, 5, 64, &[320, 321], 400),
    (3, 2, 2, &[1, 2, 3], 60),
    (3, 2, 5, &[39, 40], 40),
    (3, 3, 3, &[7, 20, 21, 50], 60),
    (3, 3, 7, &[90], 90),
    (3, 4, 5, &[1, 90], 90),
    (3, 5, 5, &[13, 25], 40),
    (
        3,
        5,
        5,
        &[1, 2, 4, 8, 9, 15, 21, 22, 30, 31, 47, 48, 50, 60, 77, 100],
        100,
    ),
    (3, 16, 64, &[500, 1023], 1100),
];

// The shapes.
fn shapes() -> [(u8, u8, u8, u32); 15] {
    SHAPES
}

// The shapes with fences.
fn fenced_shapes() -> [(u8, u8, u8, &'static [u32], u32); 16] {
    FENCED
}

// The blocks of an equation, with the input that a scan finds.
fn scanned(lattice: &Lattice, e: EqId) -> Equation
    requires { HasEquation lattice.now e }
{
    let EqId { node, class } = e;
    let output = BlockId { node, class };
    let datum = BlockId {
        class: Class::Datum,
        ..output
    };
    let input = previous(lattice, node, class).map(|node| BlockId { node, class });
    Equation {
        input,
        datum,
        output,
    }
}

// Whether the inputs from the node on, one after another, are these nodes from the end on, and all on its strand.
fn go_back(lattice: &Lattice, e: EqId, nodes: &[u32]) -> bool
    requires { HasEquation lattice.now e }
{
    let class = e.class;
    let mut input = Some(e.node);
    for k in nodes.iter().rev() {
        let node = *k;
        // where one is wrong, 0 stays: it is no node of a lattice
        input = if input == Some(node)
            && lattice.contains(BlockId { node, class })
            && lattice.strand(node, class) == lattice.strand(e.node, class)
        {
            lattice.input(node, class)
        } else {
            Some(0)
        };
    }
    input.is_none()
}

// Whether the inputs from the node on are its prefix.
fn has_inputs(alloc: Global, lattice: &Lattice, e: EqId) -> bool
    requires { HasEquation lattice.now e }
{
    match prefix(alloc, lattice, e.node, e.class) {
        Ok(nodes) => go_back(lattice, e, nodes.as_slice()),
        Err(_) => false,
    }
}

// Whether the neighbours of the node and class and their equation by the tables are those of the plain definitions.
fn is_defined(alloc: Global, lattice: &Lattice, e: EqId) -> bool
    requires { HasEquation lattice.now e }
{
    lattice.input(e.node, e.class) == previous(lattice, e.node, e.class)
        && lattice.next(e.node, e.class) == next(lattice, e.node, e.class)
        && lattice.equation(e) == scanned(lattice, e)
        && has_inputs(alloc, lattice, e)
}

// The first node and class whose neighbours and equation by the tables are not those of the plain definitions.
fn first_difference(alloc: Global, lattice: &Lattice) -> Result<Option<EqId>, AllocError> {
    let mut wrong = None;
    for e in &all_equations(alloc, lattice)? {
        let is_right = is_defined(alloc, lattice, *e);
        wrong = wrong.or((!is_right).then_some(*e));
    }
    Ok(wrong)
}

// Whether each strand of the class has the last node that a scan finds.
fn has_lasts(lattice: &Lattice, class: Class) -> bool
    requires { HasParity lattice.now class }
{
    let mut are_right = true;
    for strand in 0..lattice.strands(class) {
        are_right = are_right && lattice.last_on(class, strand) == last_on(lattice, class, strand);
    }
    are_right
}

// Whether all strands of all classes do.
fn has_all_lasts(lattice: &Lattice) -> bool {
    has_lasts(lattice, Class::Horiz)
        && (lattice.alpha < 2 || has_lasts(lattice, Class::Right))
        && (lattice.alpha < 3 || has_lasts(lattice, Class::Left))
}

// Whether the codeword has the block, where it has these of the blocks before: a datum by its node, and a parity where
// it has one of its input and the datum of its node, but not both.
fn is_next_of_codeword(lattice: &Lattice, nodes: &[u32], before: &[bool], b: BlockId) -> bool
    requires { HasBlock lattice.now b }
{
    let BlockId { node, class } = b;
    let is_member = nodes.contains(&node);
    if class == Class::Datum {
        is_member
    } else {
        match lattice.input(node, class) {
            None => is_member,
            Some(node) => {
                let number = lattice.number(BlockId { node, class }) as usize;
                before.get(number).copied().unwrap_or(false) != is_member
            }
        }
    }
}

// The codeword of the nodes, block by block along the inputs.
fn codeword_by_inputs(alloc: Global, lattice: &Lattice, nodes: &[u32]) -> Option<Vec<BlockId>> {
    let mut blocks = Vec::new(alloc);
    let mut marks = Vec::new(alloc);
    let mut are_put = true;
    for k in 0..lattice.blocks() {
        let b = lattice.block(k);
        let is_in = is_next_of_codeword(lattice, nodes, marks.as_slice(), b);
        are_put = are_put && marks.push(is_in).is_ok();
        if is_in {
            are_put = are_put && blocks.push(b).is_ok();
        }
    }
    are_put.then_some(blocks)
}

#[test]
fn tables_agree_with_the_definitions(rt: HostRuntime) {
    let alloc = rt.alloc();
    for (alpha, s, p, n) in shapes() {
        let lattice = Lattice::new(alpha, s, p, n);
        let difference = lattice.and_then(|lattice| first_difference(alloc, &lattice).ok());
        let are_right = lattice.is_some_and(|lattice| has_all_lasts(&lattice));
        assert!(rt;
            difference == Some(None) && are_right,
            "AE({alpha},{s},{p}) of {n}: {difference:?}"
        );
    }
}

// Whether the lattice has so many fences, and the last nodes that a scan finds.
fn has_fences_and_lasts(lattice: &Lattice, fences: usize) -> bool {
    usize::from(lattice.fence_count()) == fences && has_all_lasts(lattice)
}

#[test]
fn tables_agree_with_the_definitions_over_fences(rt: HostRuntime) {
    let alloc = rt.alloc();
    for (alpha, s, p, fences, n) in fenced_shapes() {
        let lattice = fenced(alpha, s, p, fences, n);
        let difference = lattice.and_then(|lattice| first_difference(alloc, &lattice).ok());
        let are_right = lattice.is_some_and(|lattice| has_fences_and_lasts(&lattice, fences.len()));
        assert!(rt;
            difference == Some(None) && are_right,
            "{lattice:?}: {difference:?}"
        );
    }
}

// Whether the codeword of the nodes is the one along the inputs.
fn goes_along_inputs(alloc: Global, lattice: &Lattice, nodes: &[u32]) -> bool {
    match codeword(alloc, lattice, nodes) {
        Ok(word) => codeword_by_inputs(alloc, lattice, nodes).is_some_and(|want| word.as_slice()
            == want.as_slice()),
        Err(_) => false,
    }
}

#[test]
fn codewords_end_at_fences(rt: HostRuntime) {
    let alloc = rt.alloc();
    for (alpha, s, p, fences, n) in fenced_shapes() {
        if n > 100 {
            continue;
        }
        let lattice = fenced(alpha, s, p, fences, n);
        for nodes in [[1, 2, 40], [1, 14, 21], [30, 31, 50]] {
            let is_same = lattice.is_some_and(|lattice| goes_along_inputs(alloc, &lattice, &nodes));
            assert!(rt; is_same, "{nodes:?} in {lattice:?}");
        }
    }
}
