//! Marks of the known blocks and of the ends.

ghost use Rattle.std.specs.Prelude.{◌≡◌, ◌+◌, ◌<◌, ◌^◌, List, ℕ, [], ◌∷◌, length, IfOk};
ghost use Rattle.aea_lattice.specs.Blocks.{blocks_count};
ghost use Rattle.aea_view.specs.Marked.{is_marked};
ghost use Rattle.aea_sweep.specs.Words.{word_in};
ghost use Rattle.aea_sweep.specs.States.{AreEndWords};
ghost use Rattle.aea_sweep.specs.Firsts.{AreFirst};
ghost use Rattle.aea_sweep.specs.Ends.{AddsEnds, AreMarkedFrom};

use crate::word_list::WordList;
use aea_lattice::Lattice;
use aea_view::Marks;
use std::alloc::{AllocError, Global};

// Marks the block of this number where it is known, or the greatest end that is left, and returns how many ends are left then.
// The last block with an end's label is that end.
fn mark_one(
    lattice: &Lattice,
    known: &Marks,
    first: &[u32],
    marks: &mut Marks,
    left: u32,
    k: u32,
) -> u32
    requires same { known.now.lattice ≡ lattice.now }
    requires marks { marks.old.lattice ≡ lattice.now }
    requires long { length first.now ≡ blocks_count lattice.now }
    requires inside { k < blocks_count lattice.now }
    ensures lattice { marks.new.lattice ≡ lattice.now }
    ensures marked { (words : List (List ℕ)) (s : AreEndWords lattice.now (is_marked known.now) words)
        → AreFirst lattice.now 1 (length words + 1) (word_in ([] ∷ words)) first.now
        → AreMarkedFrom lattice.now (is_marked known.now) (length words) s.ends (k + 1) left marks.old
        → AreMarkedFrom lattice.now (is_marked known.now) (length words) s.ends k result marks.new }
{
    let b = lattice.block(k);
    if left != 0 && first[k as usize] == left {
        marks.set(b, true);
        return left - 1;
    }
    marks.set(b, known.get(b));
    left
}

// Marks of the known blocks and of the ends, where these are the words of the ends and the labels of the blocks.
pub(crate) fn mark_ends(
    alloc: Global,
    lattice: &Lattice,
    known: &Marks,
    words: &WordList,
    first: &[u32],
) -> Result<Marks, AllocError>
    requires same { known.now.lattice ≡ lattice.now }
    requires words { AreEndWords lattice.now (is_marked known.now) words.now }
    requires few { length words.now < 2 ^ 32 }
    requires long { length first.now ≡ blocks_count lattice.now }
    requires first { AreFirst lattice.now 1 (length words.now + 1) (word_in ([] ∷ words.now)) first.now }
    ensures lattice { IfOk result (λ marks. marks.lattice ≡ lattice.now) }
    ensures ends { IfOk result (λ marks. AddsEnds lattice.now (is_marked known.now) (is_marked marks)) }
{
    let mut marks = Marks::new(alloc, lattice)?;
    let mut left = words.len() as u32;
    for at in 0..lattice.blocks() {
        let k = lattice.blocks() - 1 - at;
        left = mark_one(lattice, known, first, &mut marks, left, k);
    }
    Ok(marks)
}
