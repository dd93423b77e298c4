ghost use Rattle.std.specs.Prelude.{◌≡◌, not, IfOk};
ghost use Rattle.aea_view.specs.Marked.{is_marked};
ghost use Rattle.aea_readings.specs.Small.{unknown_blocks, AreListed};

use aea_lattice::{BlockId, Lattice};
use aea_readings::unknown_are_listed;
use aea_view::Marks;
use std::alloc::{AllocError, Global};

// The blocks that are marked, in number order.
pub(crate) fn marked_blocks(
    alloc: Global,
    lattice: &Lattice,
    marks: &Marks,
) -> Result<Vec<BlockId>, AllocError>
    requires same { marks.now.lattice ≡ lattice.now }
    ensures all { IfOk result (λ blocks. blocks.items ≡ unknown_blocks lattice.now (λ b. not (is_marked marks.now b))) }
    ensures listed { IfOk result (λ blocks. AreListed lattice.now blocks.items) }
{
    unknown_are_listed();
    let mut blocks = Vec::new(alloc);
    let mut from: u32 = 0;
    while let Some(k) = marks.next_marked(from) {
        blocks.push(lattice.block(k))?;
        from = k + 1;
    }
    Ok(blocks)
}
