//! Lists of lost blocks of which parts share no equation, and the same parts alone.

use crate::bench::{fates_of, has_line};
use crate::random::{fenced, lost_blocks, shapes, step};
use aea_lattice::{BlockId, Class, EqId, Lattice};
use std::alloc::{AllocError, Global};

// Whether the equation of a parity has the block.
fn has(lattice: &Lattice, parity: BlockId, b: BlockId) -> bool {
    if parity.class == Class::Datum || !lattice.contains(parity) {
        return false;
    }
    let BlockId { node, class } = parity;
    let q = lattice.equation(EqId { node, class });
    q.input == Some(b) || q.datum == b || q.output == b
}

// Whether some equation has both blocks.
fn meet(lattice: &Lattice, a: BlockId, b: BlockId) -> bool {
    for k in 0..lattice.blocks() {
        let parity = lattice.block(k);
        if has(lattice, parity, a) && has(lattice, parity, b) {
            return true;
        }
    }
    false
}

// Whether the block is not in the part, and an equation has it with one that is.
fn touches(lattice: &Lattice, part: &[BlockId], b: BlockId) -> bool {
    !part.contains(&b) && part.iter().any(|a| meet(lattice, *a, b))
}

// The blocks that an equation has with one of the part, but for those that are in it.
fn touched(
    alloc: Global,
    lattice: &Lattice,
    part: &[BlockId],
    rest: &[BlockId],
) -> Result<Vec<BlockId>, AllocError> {
    rest.iter()
        .copied()
        .filter(|b| touches(lattice, part, *b))
        .collect(alloc)
}

// The part of the first block of the list.
fn first_part(
    alloc: Global,
    lattice: &Lattice,
    lost: &[BlockId],
) -> Result<Vec<BlockId>, AllocError> {
    let mut part = Vec::from_slice(alloc, &lost[..lost.len().min(1)])?;
    for _round in 0..lost.len() {
        let found = touched(alloc, lattice, part.as_slice(), lost)?;
        part.extend_from_slice(found.as_slice())?;
    }
    Ok(part)
}

// The blocks of the list that are not in the part.
fn without(alloc: Global, lost: &[BlockId], part: &[BlockId]) -> Result<Vec<BlockId>, AllocError> {
    lost.iter()
        .copied()
        .filter(|b| !part.contains(b))
        .collect(alloc)
}

// Whether each line of the text is in the other one.
fn lines_stand_in(text: &str, whole: &str) -> bool {
    text.lines().all(|line| has_line(whole, line))
}

// The number of fates of the part alone, none where one is not among those of the whole list.
fn count_in(alloc: Global, lattice: &Lattice, part: &[BlockId], whole: &str) -> Option<usize> {
    let fates = fates_of(alloc, lattice, part)?;
    let stand = lines_stand_in(fates.as_str(), whole);
    stand.then_some(fates.as_str().lines().count())
}

// Whether the part and the others alone have so many fates together, all of them among those of the whole list.
fn are_counted(
    alloc: Global,
    lattice: &Lattice,
    parts: (&[BlockId], &[BlockId]),
    whole: &str,
    count: usize,
) -> bool {
    let (part, others) = parts;
    let first = count_in(alloc, lattice, part, whole);
    match (first, count_in(alloc, lattice, others, whole)) {
        (Some(first), Some(second)) => first.saturating_add(second) == count,
        _ => false,
    }
}

// Whether each block of the list has the same fate in its part alone, of the part and the others.
fn have_fates(
    alloc: Global,
    lattice: &Lattice,
    lost: &[BlockId],
    part: &[BlockId],
    others: &[BlockId],
) -> bool {
    fates_of(alloc, lattice, lost).is_some_and(|whole| {
        are_counted(alloc, lattice, (part, others), whole.as_str(), lost.len())
    })
}

// Whether the list has several parts; none where a block has another fate in its part alone.
fn several(alloc: Global, lattice: &Lattice, lost: &[BlockId]) -> Option<bool> {
    let part = first_part(alloc, lattice, lost).ok()?;
    let others = without(alloc, lost, part.as_slice()).ok()?;
    let are_several = !part.is_empty() && !others.is_empty();
    let are_same = have_fates(alloc, lattice, lost, part.as_slice(), others.as_slice());
    are_same.then_some(are_several)
}

// The same of the blocks that are lost by this seed.
fn several_of(alloc: Global, lattice: &Lattice, percent: u64, seed: u64) -> Option<bool> {
    match lost_blocks(alloc, lattice, percent, seed) {
        Ok(lost) => several(alloc, lattice, lost.as_slice()),
        Err(_) => None,
    }
}

#[test]
fn parts_alone_have_their_fates(rt: HostRuntime) {
    let alloc = rt.alloc();
    let mut seed = 7;
    let mut several: u32 = 0;
    for (alpha, s, p, nodes) in shapes() {
        let lattice = fenced(alpha, s, p, nodes);
        for percent in [15, 40] {
            seed = step(seed);
            let here = lattice.and_then(|lattice| several_of(alloc, &lattice, percent, seed));
            assert!(rt;
                here.is_some(),
                "{percent} of 100 in {lattice:?}, from {seed}"
            );
            if here == Some(true) {
                several = several.saturating_add(1);
            }
        }
    }
    assert!(rt; 20 < several, "{several} lists of several parts");
}
