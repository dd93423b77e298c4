//! Blocks that have no mark.

ghost use Rattle.std.specs.Prelude.{◌≡◌, ◌≤◌};
ghost use Rattle.aea_lattice.specs.Blocks.{blocks_count};
ghost use Rattle.aea_view.specs.Marked.{is_marked};
ghost use Rattle.aea_walk.specs.Missing.{missing};

use aea_lattice::BlockId;
use aea_view::Marks;

/// The least block without a mark whose number is at least the first of these and below the second. It looks at the blocks
/// between the two alone.
pub fn least_missing(marks: &Marks, least: u32, next: u32) -> Option<BlockId>
    requires { next ≤ blocks_count marks.now.lattice }
    ensures { result ≡ missing marks.now.lattice (is_marked marks.now) least next }
{
    let lattice = marks.lattice();
    for k in least..next {
        let block = lattice.block(k);
        if !marks.get(block) {
            return Some(block);
        }
    }
    None
}
