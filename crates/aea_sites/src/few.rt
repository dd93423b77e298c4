//! Where few blocks are open, the loss is told by their fates.

ghost use Rattle.std.specs.Prelude.{◌≡◌, ◌<◌, ◌^◌, ℕ, Bool, false, true, not, length, count_by, IfOk, MatchOption};
ghost use Rattle.aea_lattice.specs.declared.blocks.BlockId.{BlockId};
ghost use Rattle.aea_lattice.specs.declared.grid.Lattice.{Lattice};
ghost use Rattle.aea_view.specs.Marked.{AreMarks};
ghost use Rattle.aea_gauss.specs.Fates.{AreFates};
ghost use Rattle.aea_sites.specs.Losses.{IsLossOf};
ghost use Rattle.aea_sites.specs.Words.{is_word, is_word_at, named, HasFirst};

use crate::lost::{FirstLost, SiteLoss};
use aea_fates::{sums_are_determined, words_are_open};
use aea_gauss::{Fate, FateList, fates_depend_on_blocks, solve_open};
use aea_lattice::{Lattice, blocks_are_inside};
use aea_view::Marks;
use std::alloc::{AllocError, Global};

// Whether the fate at this place is a word: its block is lost.
fn is_word_at(fates: &FateList, k: usize) -> bool
    ensures { result ≡ is_word_at fates.now k }
{
    match fates.get(k) {
        Some(Fate::Word { block: _, nodes: _ }) => true,
        Some(Fate::Sum { block: _, eqs: _ }) => false,
        None => false,
    }
}

// The number of words.
fn count_words(fates: &FateList) -> u32
    requires { length fates.now < 2 ^ 32 }
    ensures { result ≡ count_by is_word fates.now }
{
    let mut count = 0;
    for k in 0..fates.len() {
        if is_word_at(fates, k) {
            count += 1;
        }
    }
    count
}

// The place of the first word, if there is one.
fn first_word(fates: &FateList) -> Option<usize>
    ensures { MatchOption result ((k : ℕ) → k < length fates.now → is_word_at fates.now k ≡ false)
        (λ k. (k < length fates.now) × (is_word_at fates.now k ≡ true) × ((j : ℕ) → j < k → is_word_at fates.now j ≡ false)) }
{
    for k in 0..fates.len() {
        if is_word_at(fates, k) {
            return Some(k);
        }
    }
    None
}

// The block and the nodes of a word; nothing of a sum.
fn named(fate: Fate) -> Option<FirstLost>
    ensures { result ≡ named fate }
{
    match fate {
        Fate::Word { block, nodes } => Some(FirstLost { block, nodes }),
        Fate::Sum { block: _, eqs: _ } => None,
    }
}

// The block and the nodes of the first word, if there is one. The nodes are moved out of the list.
fn first_lost(mut fates: FateList) -> Option<FirstLost>
    ensures { HasFirst fates result }
{
    match first_word(&fates) {
        None => None,
        Some(k) => match fates.take(k) {
            None => None,
            Some(fate) => named(fate),
        },
    }
}

// What is lost by these fates.
fn loss_by(fates: FateList) -> SiteLoss
    requires { length fates < 2 ^ 32 }
    ensures { (l : Lattice) (known : BlockId → Bool) → AreFates l known fates → IsLossOf l known result }
{
    blocks_are_inside();
    sums_are_determined();
    words_are_open();
    let lost = count_words(&fates);
    let first = first_lost(fates);
    SiteLoss { lost, first }
}

/// What is lost where the marked blocks are gone and all others known: told by the fates of these alone.
pub(crate) fn loss_of_few(
    alloc: Global,
    lattice: &Lattice,
    open: &Marks,
) -> Result<SiteLoss, AllocError>
    requires { «open».now.lattice ≡ lattice.now }
    ensures { IfOk result (λ loss. (known : BlockId → Bool) → AreMarks «open».now (λ b. not (known b)) → IsLossOf lattice.now known loss) }
{
    fates_depend_on_blocks();
    let fates = solve_open(alloc, lattice, open)?;
    Ok(loss_by(fates))
}
