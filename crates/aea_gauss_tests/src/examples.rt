//! The worked examples as fates.

use crate::bench::{blocks_of, fates_of, has_line, marks_of};
use crate::random::lost_blocks;
use aea_gauss::{FateList, solve_open};
use aea_lattice::{BlockId, Lattice};
use std::alloc::{AllocError, Global};
use std::test::Fail;

const NINETEEN: &str = "d1 d3 d4 d5 d6 d8 d9 d10 d11 h1 h3 h4 h8 h9 r1 r3 r5 r8 r10";

const NINETEEN_FATES: &str = "d1 by 1 3 4 6
h1 by 1 3 4 6
r1 by 1 3 4 6
d3 by 1 3 4 6
h3 = h1 r1 h3 r3 h4 r4 h6 r6
r3 by 1 3 4 6
d4 by 1 3 4 6
h4 by 1 3 4 6
d5 = h1 r1 h3 r3 h4 r4 h5 h6 r6
r5 = h1 r1 h3 r3 h4 r4 h5 r5 h6 r6
d6 by 1 3 4 6
d8 by 8 9 10 11
h8 by 8 9 10 11
r8 by 8 9 10 11
d9 by 8 9 10 11
h9 by 8 9 10 11
d10 by 8 9 10 11
r10 by 8 9 10 11
d11 by 8 9 10 11
";

// α, s, p, the number of nodes, the lost blocks and their fates.
const EXAMPLES: [(u8, u8, u8, u32, &str, &str); 7] = [
    (2, 2, 2, 11, NINETEEN, NINETEEN_FATES),
    (2, 2, 2, 11, "d2", "d2 = h2\n"),
    (1, 1, 0, 3, "d1 h1", "d1 = h1 h2\nh1 = h2\n"),
    (1, 1, 0, 3, "d3 h3", "d3 by 3\nh3 by 3\n"),
    (1, 1, 0, 3, "d2 h2 d3", "d2 by 2 3\nh2 by 2 3\nd3 by 2 3\n"),
    (1, 1, 0, 3, "", ""),
    (3, 2, 5, 0, "", ""),
];

// The worked examples.
fn examples() -> [(u8, u8, u8, u32, &'static str, &'static str); 7] {
    EXAMPLES
}

// The fates as text where the blocks of a text are lost, of the lattice of α, s, p and so many nodes.
fn fates_of_text(alloc: Global, shape: (u8, u8, u8, u32), lost: &str) -> Option<String> {
    let (alpha, s, p, n) = shape;
    let lattice = Lattice::new(alpha, s, p, n)?;
    blocks_of(alloc, lost).and_then(|lost| fates_of(alloc, &lattice, lost.as_slice()))
}

#[test]
fn examples_have_their_fates(rt: HostRuntime) {
    for (alpha, s, p, n, lost, want) in examples() {
        let fates = fates_of_text(rt.alloc(), (alpha, s, p, n), lost);
        assert!(rt; fates.is_some_and(|fates| fates.as_str() == want));
    }
}

// The number of fates where these blocks are lost.
fn count_fates(alloc: Global, lattice: &Lattice, lost: &[BlockId]) -> Option<usize> {
    fates_of(alloc, lattice, lost).map(|fates| fates.as_str().lines().count())
}

// Whether there are 600 fates where all blocks are lost.
fn are_six_hundred(alloc: Global, lattice: &Lattice) -> bool {
    let all = lost_blocks(alloc, lattice, 100, 0);
    all.is_ok_and(|all| count_fates(alloc, lattice, all.as_slice()) == Some(600))
}

#[test]
fn a_part_of_many_blocks_has_its_fates(rt: HostRuntime) {
    let alloc = rt.alloc();
    let lattice = Lattice::new(1, 1, 0, 300);
    assert!(rt; lattice.is_some_and(|lattice| are_six_hundred(alloc, &lattice)));
}

// The fates where these blocks alone are open.
fn open_fates(alloc: Global, lattice: &Lattice, lost: &[BlockId]) -> Result<FateList, AllocError> {
    let open = marks_of(alloc, lattice, lost)?;
    solve_open(alloc, lattice, &open)
}

// Whether the fate that is taken out is that of the first of these three blocks, and two others stay.
fn is_first_taken(alloc: Global, lattice: &Lattice, lost: &[BlockId]) -> bool {
    match open_fates(alloc, lattice, lost) {
        Ok(mut fates) => {
            let first = fates.take(0).map(|fate| fate.block());
            first == lost.first().copied() && fates.len() == 2
        }
        Err(_) => false,
    }
}

// Whether it is so of d2, h2 and d3.
fn is_one_taken(alloc: Global, lattice: &Lattice) -> bool {
    let three = blocks_of(alloc, "d2 h2 d3");
    three.is_some_and(|three| is_first_taken(alloc, lattice, three.as_slice()))
}

#[test]
fn a_fate_is_taken_out(rt: HostRuntime) {
    let alloc = rt.alloc();
    let lattice = Lattice::new(1, 1, 0, 3);
    assert!(rt; lattice.is_some_and(|lattice| is_one_taken(alloc, &lattice)));
}

// Where d2 is lost beside the nineteen blocks.
const TWENTY: &str = "d1 d3 d4 d5 d6 d8 d9 d10 d11 h1 h3 h4 h8 h9 r1 r3 r5 r8 r10 d2";

#[test]
fn an_intact_block_has_its_sum_beside_damage(rt: HostRuntime) -> Result<(), Fail> {
    let fates = fates_of_text(rt.alloc(), (2, 2, 2, 11), TWENTY).ok_or("no fates")?;
    for want in [
        "d2 = h2",
        "d5 = h1 r1 h3 r3 h4 r4 h5 h6 r6",
        "d1 by 1 3 4 6",
    ] {
        assert!(rt;
            has_line(fates.as_str(), want),
            "{want} is not among\n{}",
            fates.as_str()
        );
    }
    Ok(())
}
