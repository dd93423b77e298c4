//! What happens to the blocks that are not known.

ghost use Rattle.std.specs.Prelude.{◌≡◌, None, Some, IfSome, MatchOption};
ghost use Rattle.aea_plan.specs.Verdicts.{nodes_at};

use aea_sweep::LossList;
use aea_view::Marks;

/// What happens to each block that is not known, so damaged: it is reached by single equations; or, where all that is reached is
/// known, it is lost by the nodes that are listed for it, and determined where none are. A known block is reached; and where all
/// blocks are, there is no list.
#[derive(Drop)]
pub struct Verdicts {
    pub damaged: Marks,
    pub reached: Marks,
    pub losses: Option<LossList>,
}

// The nodes that the list has for the block of this number, if any.
pub(crate) fn listed_nodes(losses: &Option<LossList>, number: u32) -> Option<&[u32]>
    ensures { MatchOption result (nodes_at losses.now number ≡ None) (λ nodes. nodes_at losses.now number ≡ Some nodes.now) }
{
    let Some(list) = losses else {
        return None;
    };
    if list.len() <= number as usize {
        return None;
    }
    list.nodes(number as usize)
}
