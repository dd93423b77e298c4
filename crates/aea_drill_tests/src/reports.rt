//! A plain report of lost blocks, where a lattice has at most 64 nodes: by an elimination among the sets of nodes whose codewords
//! contain no known block.

use crate::shared::{add_lost, ends_without};
use aea_lattice::{BlockId, Lattice};
use aea_test_helpers::{add_line, masks_of, set_of};
use std::alloc::{AllocError, Global};

// How many damaged blocks are peeled, solved and lost, and their lines.
#[derive(Drop)]
struct Fates {
    peeled: u64,
    solved: u64,
    lost: u64,
    lines: String,
}

impl Fates {
    // Counts a damaged block, and adds its line. It is peeled where it is reached, and else lost if there is a set of nodes for it.
    fn add(&mut self, b: BlockId, is_reached: bool, set: Option<u64>) -> Result<(), AllocError> {
        if is_reached {
            self.peeled = self.peeled.wrapping_add(1);
            add_line(&mut self.lines, "peeled ", b)
        } else if let Some(set) = set {
            self.lost = self.lost.wrapping_add(1);
            add_lost(&mut self.lines, "lost ", b, set)
        } else {
            self.solved = self.solved.wrapping_add(1);
            add_line(&mut self.lines, "solved ", b)
        }
    }
}

// What becomes of these lost blocks, in number order, where the closure of the others has the reached ones.
fn fates_of(
    alloc: Global,
    lattice: &Lattice,
    lost: &[BlockId],
    reached: &[BlockId],
) -> Result<Fates, AllocError> {
    let masks = masks_of(alloc, lattice)?;
    let ends = ends_without(alloc, lattice, masks.as_slice(), lost)?;
    let mut fates = Fates {
        peeled: 0,
        solved: 0,
        lost: 0,
        lines: String::new(alloc),
    };
    for mask in masks.iter() {
        let b = mask.block;
        if lost.contains(&b) {
            fates.add(b, reached.contains(&b), set_of(ends.as_slice(), mask.nodes))?;
        }
    }
    Ok(fates)
}

/// The report of these lost blocks, in number order, where the closure of the others has the reached ones.
pub fn plain_report(
    alloc: Global,
    lattice: &Lattice,
    lost: &[BlockId],
    reached: &[BlockId],
) -> Result<String, AllocError> {
    let fates = fates_of(alloc, lattice, lost, reached)?;
    let (alpha, s, p, n) = (lattice.alpha(), lattice.s(), lattice.p(), lattice.n());
    let (peeled, solved, open) = (fates.peeled, fates.solved, fates.lost);
    let damaged = lost.len();
    let lines = fates.lines.as_str();
    format!(in alloc;
        "aea-report 1\nlattice {alpha} {s} {p} {n}\nledger none\ncounts {damaged} {peeled} {solved} {open}\n{lines}"
    )
}
