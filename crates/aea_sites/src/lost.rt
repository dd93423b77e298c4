//! Losses.

ghost use Rattle.std.specs.Prelude.{◌≡◌, Bool, IfOk};
ghost use Rattle.aea_lattice.specs.declared.blocks.BlockId.{BlockId};
ghost use Rattle.aea_view.specs.Presence.{IsCallable, AnswersAs};
ghost use Rattle.aea_view.specs.Marked.{AreMarks, IsWhole, is_marked};
ghost use Rattle.aea_sites.specs.Losses.{IsLossOf};

use crate::count::count_lost;
use crate::few::loss_of_few;
use crate::pass::mark_forced;
use aea_fates::{determined_stay, words_are_open, words_stay};
use aea_lattice::{BlockId, Lattice, NodeList, blocks_are_inside, reached_are_determined};
use aea_peel::peel_marks;
use aea_sweep::losses;
use aea_view::{Marks, View};
use std::alloc::{AllocError, Global};

/// What is lost where some blocks are gone: how many blocks, and the first of them, where there is one.
#[derive(Debug, Drop)]
pub struct SiteLoss {
    pub lost: u32,
    pub first: Option<FirstLost>,
}

/// The first block that is lost, in number order, with the nodes of a codeword that contains it and no block that is left.
#[derive(Debug, Drop)]
pub struct FirstLost {
    pub block: BlockId,
    pub nodes: NodeList,
}

// Where at most one in so many blocks of the lattice is not known, the loss is told by the fates of these blocks: they take some 300
// bytes for each, less than 3 for each block of the lattice, where `losses` takes 14 to 24.
const FEW_AMONG: u32 = 128;

// What is lost where the marked blocks are known. Where all are marked, no block is looked at.
fn loss_beyond(alloc: Global, reached: &Marks) -> Result<SiteLoss, AllocError>
    ensures { IfOk result (IsLossOf reached.now.lattice (is_marked reached.now)) }
{
    blocks_are_inside();
    reached_are_determined();
    words_are_open();
    let lattice = reached.lattice();
    let open = reached.complement(alloc)?;
    match open.next_marked(0) {
        None => Ok(SiteLoss {
            lost: 0,
            first: None,
        }),
        Some(_) => {
            if reached.unmarked() <= lattice.blocks() / FEW_AMONG {
                return loss_of_few(alloc, lattice, &open);
            }
            let list = losses(alloc, lattice, reached)?;
            count_lost(alloc, lattice, &list)
        }
    }
}

/// What is lost of a lattice where the marked blocks are left. Where one pass over the others marks them all, no plan is made.
pub(crate) fn loss_of(alloc: Global, mut left: Marks) -> Result<SiteLoss, AllocError>
    requires { IsWhole left }
    ensures { IfOk result (λ loss. (known : BlockId → Bool) → AreMarks left known → IsLossOf left.lattice known loss) }
{
    reached_are_determined();
    words_stay();
    determined_stay();
    mark_forced(alloc, &mut left)?;
    if left.unmarked() == 0 {
        return Ok(SiteLoss {
            lost: 0,
            first: None,
        });
    }
    let peeled = peel_marks(alloc, left)?;
    loss_beyond(alloc, &peeled.marks)
}

/// What is lost of a lattice where the present blocks of the view are left: the blocks that these do not determine. The others
/// are gone over once, with a bit of memory a block; it takes the time and memory of `peel_marks` too where that leaves a block,
/// and where all single equations do, a bit more for each block and those of `solve_open` for the blocks that are left, if they are
/// at most one in 128, and else those of `losses`. An error is a lack of memory.
pub fn loss<F: Fn(BlockId) -> bool>(
    alloc: Global,
    lattice: &Lattice,
    view: &View<F>,
) -> Result<SiteLoss, AllocError>
    requires lattice { view.now.lattice ≡ lattice.now }
    requires callable { IsCallable F.pre lattice.now view.now.predicate }
    ensures { IfOk result (λ loss. (known : BlockId → Bool) → AnswersAs F.post lattice.now view.now.predicate known
        → IsLossOf lattice.now known loss) }
{
    loss_of(alloc, view.marks(alloc)?)
}
