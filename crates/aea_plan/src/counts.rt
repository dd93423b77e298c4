//! Counts of the damaged blocks, by what happens to them.

ghost use Rattle.std.specs.Prelude.{◌≡◌, ◌+◌, ◌-◌, ◌<◌, ◌≤◌, ◌^◌, ◌++◌, ◌∷◌, [], List, None, length, get_or};
ghost use Rattle.aea_lattice.specs.Blocks.{HasBlock, blocks_count, number_of};
ghost use Rattle.aea_report.specs.declared.line.Line.{Line};
ghost use Rattle.aea_plan.specs.Plans.{AreCounts, AtMost, nodes_count};
ghost use Rattle.aea_plan.specs.Verdicts.{AreVerdicts, lines_by, line_of};

use crate::verdicts::{Verdicts, listed_nodes};
use crate::walk::{Damaged, next_damaged};
use aea_sweep::LossList;

/// How many damaged blocks are peeled, solved and lost.
#[derive(Clone, Copy, Debug, PartialEq, Eq)]
pub struct Counts {
    pub peeled: u32,
    pub solved: u32,
    pub lost: u32,
}

impl Counts {
    // Counts a damaged block.
    fn add(&mut self, verdicts: &Verdicts, damaged: Damaged)
        requires verdicts { AreVerdicts verdicts.now }
        requires few { self.old.peeled + self.old.solved + self.old.lost < 2 ^ 32 - 1 }
        requires block { HasBlock verdicts.now.damaged.lattice damaged.block }
        requires number { number_of verdicts.now.damaged.lattice damaged.block ≡ damaged.number }
        ensures counts { (lines : List Line) → AreCounts self.old lines → AreCounts self.new (lines ++ line_of verdicts.now damaged.block ∷ []) }
        ensures one { self.new.peeled + self.new.solved + self.new.lost ≡ self.old.peeled + self.old.solved + self.old.lost + 1 }
    {
        if verdicts.reached.get(damaged.block) {
            self.peeled += 1;
            return;
        }
        match listed_nodes(&verdicts.losses, damaged.number) {
            None => self.solved += 1,
            Some(_) => self.lost += 1,
        }
    }
}

/// Counts the damaged blocks.
pub(crate) fn count_blocks(verdicts: &Verdicts) -> Counts
    requires { AreVerdicts verdicts.now }
    ensures counts { AreCounts result (lines_by verdicts.now) }
    ensures few { result.peeled + result.solved + result.lost ≤ blocks_count verdicts.now.damaged.lattice }
{
    let mut counts = Counts {
        peeled: 0,
        solved: 0,
        lost: 0,
    };
    let mut from = 0;
    while let Some(damaged) = next_damaged(verdicts, &mut from) {
        counts.add(verdicts, damaged);
    }
    counts
}

// The greater of this number and the number of nodes of the block of the list at this place.
fn most_with(list: &LossList, most: usize, k: usize) -> usize
    requires { k < length list.now }
    ensures kept { most ≤ result }
    ensures here { nodes_count (get_or list.now k None) ≤ result }
{
    let count = match list.nodes(k) {
        None => 0,
        Some(nodes) => nodes.len(),
    };
    if count < most { most } else { count }
}

/// The most nodes by which a block is lost.
pub(crate) fn most_nodes(losses: &Option<LossList>) -> usize
    ensures { AtMost result losses.now }
{
    let Some(list) = losses else {
        return 0;
    };
    let mut most = 0;
    for k in 0..list.len() {
        most = most_with(list, most, k);
    }
    most
}
