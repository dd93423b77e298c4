//! Which data block of an object is not determined, and where the fates of the others are.

ghost use Rattle.std.specs.Prelude.{◌≡◌, true, List, ℕ, IfSome, IfNone, All, slice_get, Some};
ghost use Rattle.std.specs.FinMap.{get};
ghost use Rattle.aea_lattice.specs.declared.blocks.BlockId.{BlockId};
ghost use Rattle.aea_lattice.specs.Blocks.{HasBlock};
ghost use Rattle.aea_view.specs.Marked.{Marked, is_marked};
ghost use Rattle.aea_gauss.specs.declared.fates.Fate.TheVariants.{Word};
ghost use Rattle.aea_archive.specs.Objects.{data_under, IsFirstWithout};
ghost use Rattle.aea_degraded.specs.Found.{IsSumAt};
ghost use Rattle.aea_degraded.specs.Planned.{AreFatesOf, IsGiven};

use crate::block::is_lost;
use aea_fates::lists_are_one;
use aea_fetch::DataBlocks;
use aea_gauss::FateList;
use aea_lattice::{BlockId, Lattice, passing_are_among};
use aea_ledger::Ledger;

// The place of the fate of a block that is marked as damaged; of another one it says nothing.
pub(crate) fn place_of(lattice: &Lattice, fates: &FateList, b: BlockId) -> usize
    requires block { HasBlock lattice.now b }
    requires order { (damaged : Marked) × AreFatesOf lattice.now damaged fates.now }
    ensures { (damaged : Marked) → AreFatesOf lattice.now damaged fates.now → IsGiven fates.now b → is_marked damaged b ≡ true → IsSumAt fates.now b result }
{
    passing_are_among();
    match fates.find(lattice, b) {
        Some(at) => at,
        None => 0,
    }
}

// The place of the fate of the first data block of the object under the name that no equations give, if there is one.
pub(crate) fn first_lost(ledger: &Ledger, name: &[u8], fates: &FateList) -> Option<usize>
    requires { (damaged : Marked) × AreFatesOf ledger.now.lattice damaged fates.now }
    ensures none { IfNone result (All (IsGiven fates.now) (data_under (get ledger.now.objects name.now))) }
    ensures some { IfSome result (λ at. (b : BlockId) × (nodes : List ℕ) × (slice_get fates.now at ≡ Some (Word b nodes)) × IsFirstWithout (IsGiven fates.now) (data_under (get ledger.now.objects name.now)) b) }
{
    lists_are_one();
    let lattice = ledger.lattice();
    let mut blocks = DataBlocks::new(ledger, name);
    while let Some(b) = blocks.next() {
        if let Some(at) = fates.find(&lattice, b) {
            if is_lost(fates, at) {
                return Some(at);
            }
        }
    }
    None
}
