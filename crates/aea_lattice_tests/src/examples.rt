//! The plain programs of the definitions, against worked examples.

use crate::walking::{blocks, fenced};
use aea_lattice::{BlockId, Class, EqId, Lattice};
use aea_plain::{closure, codeword, next, previous, sum};
use std::alloc::{AllocError, Global};

// Whether these are the blocks of the text.
fn are_blocks(alloc: Global, these: &[BlockId], text: &str) -> bool {
    blocks(alloc, text).is_some_and(|blocks| these == blocks.as_slice())
}

// Whether the codeword of the nodes has these blocks.
fn has_codeword(alloc: Global, lattice: &Lattice, nodes: &[u32], text: &str) -> bool {
    codeword(alloc, lattice, nodes).is_ok_and(|word| are_blocks(alloc, word.as_slice(), text))
}

#[test]
fn the_codeword_of_the_node_before_a_fence_is_the_node(rt: HostRuntime) {
    let lattice = fenced(2, 2, 2, &[4, 7], 11).expect(&rt, "a shape");
    for (node, has) in [(4, "d4 h4 r4"), (3, "d3 h3 r3"), (5, "d5 h5 r5 h7")] {
        assert!(rt; has_codeword(rt.alloc(), &lattice, &[node], has), "{node}");
    }
}

// The first class of which node 26 of AE(3,5,5) has other neighbours, or node 1 has one before it; none where there is no lattice.
fn wrong_class() -> Option<Option<Class>> {
    let wide = Lattice::new(3, 5, 5, 40)?;
    let mut wrong = None;
    for (class, input, output) in [
        (Class::Horiz, 21, 31),
        (Class::Right, 25, 32),
        (Class::Left, 22, 35),
    ] {
        let before = [previous(&wide, 26, class), wide.input(26, class)];
        let after = [next(&wide, 26, class), wide.next(26, class)];
        let is_same = before == [Some(input), Some(input)] && after == [Some(output), Some(output)];
        let is_right = is_same && wide.input(1, class).is_none();
        wrong = wrong.or((!is_right).then_some(class));
    }
    Some(wrong)
}

// Whether the short lattice ends before a neighbour, and two neighbours of the narrow one are the same.
fn has_ends() -> Option<bool> {
    let short = Lattice::new(3, 5, 5, 34)?;
    let narrow = Lattice::new(3, 2, 2, 10)?;
    let after = [
        next(&short, 26, Class::Left),
        next(&narrow, 1, Class::Right),
        next(&narrow, 1, Class::Left),
    ];
    Some(after == [None, Some(4), Some(4)])
}

#[test]
fn neighbours_are_those_of_the_example(rt: HostRuntime) {
    let wrong = wrong_class();
    assert!(rt;
        wrong == Some(None) && has_ends() == Some(true),
        "{wrong:?}"
    );
}

// The blocks of the lattice that are not among these, in number order.
fn others(
    alloc: Global,
    lattice: &Lattice,
    damaged: &[BlockId],
) -> Result<Vec<BlockId>, AllocError> {
    let mut others = Vec::new(alloc);
    for k in 0..lattice.blocks() {
        let b = lattice.block(k);
        if !damaged.contains(&b) {
            others.push(b)?;
        }
    }
    Ok(others)
}

// Whether each of these blocks is among those.
fn are_among(these: &[BlockId], those: &[BlockId]) -> bool {
    these.iter().all(|b| those.contains(b))
}

// The damage of nineteen blocks of which no equation has just one.
const NINETEEN: &str = "d1 d3 d4 d5 d6 d8 d9 d10 d11 h1 h3 h4 h8 h9 r1 r3 r5 r8 r10";

// Whether the closure of the known blocks has them all and, of the others, the reached ones alone.
fn reaches(alloc: Global, lattice: &Lattice, known: &[BlockId], reached: &[BlockId]) -> bool {
    closure(alloc, lattice, known).is_ok_and(|got| {
        got.len() == known.len().saturating_add(reached.len())
            && are_among(known, got.as_slice())
            && are_among(reached, got.as_slice())
    })
}

// Whether the closure of the undamaged blocks has them all and, of the damage, the reached ones alone.
fn closes(alloc: Global, lattice: &Lattice, damage: &[BlockId], reached: &[BlockId]) -> bool {
    let known = others(alloc, lattice, damage);
    known.is_ok_and(|known| reaches(alloc, lattice, known.as_slice(), reached))
}

// The same of reached blocks as a text.
fn closes_to(alloc: Global, lattice: &Lattice, damage: &[BlockId], reached: &str) -> bool {
    blocks(alloc, reached).is_some_and(|reached| closes(alloc, lattice, damage, reached.as_slice()))
}

// The same of damage as a text.
fn closes_texts(alloc: Global, lattice: &Lattice, damage: &str, reached: &str) -> bool {
    blocks(alloc, damage).is_some_and(|damage| closes_to(
        alloc,
        lattice,
        damage.as_slice(),
        reached,
    ))
}

#[test]
fn closures_are_those_of_the_examples(rt: HostRuntime) {
    let alloc = rt.alloc();
    let nineteen = (2, 2, 2, 11);
    let three = (1, 1, 0, 3);
    // the shape, the damage, and which of it the closure of the other blocks has
    for ((alpha, s, p, n), damage, reached) in [
        (nineteen, NINETEEN, ""),
        (three, "d1 h1", "d1 h1"),
        (three, "d3 h3", ""),
        (three, "d2 h2 d3", ""),
    ] {
        let is_right = Lattice::new(alpha, s, p, n).is_some_and(|lattice| closes_texts(
            alloc, &lattice, damage, reached,
        ));
        assert!(rt; is_right, "{damage}");
    }
}

// Whether the blocks are in the damage of nineteen blocks.
fn are_damaged(alloc: Global, these: &[BlockId]) -> bool {
    blocks(alloc, NINETEEN).is_some_and(|nineteen| are_among(these, nineteen.as_slice()))
}

// Whether the codeword of the nodes is in the damage of nineteen blocks.
fn is_damaged(alloc: Global, lattice: &Lattice, nodes: &[u32]) -> bool {
    codeword(alloc, lattice, nodes).is_ok_and(|word| are_damaged(alloc, word.as_slice()))
}

// Whether the codeword of the nodes has these blocks, all in the damage of nineteen blocks.
fn has_damaged_codeword(alloc: Global, nodes: &[u32], text: &str) -> bool {
    Lattice::new(2, 2, 2, 11).is_some_and(|lattice| {
        has_codeword(alloc, &lattice, nodes, text) && is_damaged(alloc, &lattice, nodes)
    })
}

// Whether the codeword of the nodes in a lattice of three has these blocks.
fn has_codeword_of_three(alloc: Global, nodes: &[u32], text: &str) -> bool {
    Lattice::new(1, 1, 0, 3).is_some_and(|lattice| has_codeword(alloc, &lattice, nodes, text))
}

#[test]
fn codewords_are_those_of_the_examples(rt: HostRuntime) {
    let alloc = rt.alloc();
    for (nodes, has) in [
        ([1, 3, 4, 6], "d1 h1 r1 d3 r3 d4 h4 d6"),
        ([8, 9, 10, 11], "d8 h8 r8 d9 h9 d10 r10 d11"),
    ] {
        assert!(rt; has_damaged_codeword(alloc, &nodes, has), "{has}");
    }
    for (nodes, has) in [([3].as_slice(), "d3 h3"), (&[2, 3], "d2 h2 d3")] {
        assert!(rt; has_codeword_of_three(alloc, nodes, has), "{has}");
    }
}

// The equation of the parity.
fn equation_of(b: BlockId) -> EqId {
    let BlockId { node, class } = b;
    EqId { node, class }
}

// The equations of the parities.
fn equations(alloc: Global, parities: &[BlockId]) -> Result<Vec<EqId>, AllocError> {
    parities.iter().map(|b| equation_of(*b)).collect(alloc)
}

// Whether of these blocks d5, and no other one, is among the damage.
fn is_d5_alone(these: &[BlockId], damage: &[BlockId]) -> bool {
    these.iter().all(|b| damage.contains(b) == (b.node == 5 && b.class == Class::Datum))
}

// Whether these are the blocks of the sum, of which d5 alone is among the damage of nineteen blocks.
fn are_of_sum(alloc: Global, these: &[BlockId]) -> bool {
    are_blocks(alloc, these, "h2 r2 r4 d5 h5 h6 r6")
        && blocks(alloc, NINETEEN).is_some_and(|nineteen| is_d5_alone(these, nineteen.as_slice()))
}

// Whether the sum of these equations has its blocks.
fn is_sum(alloc: Global, lattice: &Lattice, nine: &[EqId]) -> bool {
    sum(alloc, lattice, nine).is_ok_and(|got| are_of_sum(alloc, got.as_slice()))
}

// Whether the sum of the equations of these parities does.
fn is_sum_of(alloc: Global, lattice: &Lattice, parities: &[BlockId]) -> bool {
    equations(alloc, parities).is_ok_and(|nine| is_sum(alloc, lattice, nine.as_slice()))
}

#[test]
fn nine_equations_give_a_block_that_no_single_one_gives(rt: HostRuntime) {
    let alloc = rt.alloc();
    let lattice = Lattice::new(2, 2, 2, 11).expect(&rt, "a shape");
    let nine = blocks(alloc, "h1 r1 h3 r3 h4 r4 h5 h6 r6");
    assert!(rt; nine.is_some_and(|nine| is_sum_of(alloc, &lattice, nine.as_slice())));
}
