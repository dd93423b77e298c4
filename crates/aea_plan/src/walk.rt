//! A walk along the damaged blocks.

ghost use Rattle.std.specs.Prelude.{◌≡◌, ◌<◌, ◌≤◌, ◌∷◌, [], MatchOption, IfSome, OnSome};
ghost use Rattle.aea_lattice.specs.Blocks.{HasBlock, blocks_count, number_of};
ghost use Rattle.aea_plan.specs.Verdicts.{lines_after, line_of};

use crate::verdicts::Verdicts;
use aea_lattice::BlockId;

/// A damaged block and its number.
#[derive(Clone, Copy, Debug)]
pub(crate) struct Damaged {
    pub number: u32,
    pub block: BlockId,
}

/// The next damaged block from a number on, and the number after it; the time is that of finding the next mark.
pub(crate) fn next_damaged(verdicts: &Verdicts, from: &mut u32) -> Option<Damaged>
    requires inside { from.old ≤ blocks_count verdicts.now.damaged.lattice }
    ensures inside { from.new ≤ blocks_count verdicts.now.damaged.lattice }
    ensures later { OnSome result (from.old < from.new) }
    ensures block { IfSome result (λ d. HasBlock verdicts.now.damaged.lattice d.block) }
    ensures number { IfSome result (λ d. number_of verdicts.now.damaged.lattice d.block ≡ d.number) }
    ensures lines { MatchOption result (lines_after verdicts.now from.old ≡ [])
        (λ d. lines_after verdicts.now from.old ≡ line_of verdicts.now d.block ∷ lines_after verdicts.now from.new) }
{
    let number = verdicts.damaged.next_marked(*from)?;
    let block = verdicts.damaged.lattice().block(number);
    *from = number + 1;
    Some(Damaged { number, block })
}
