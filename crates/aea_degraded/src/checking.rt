//! The end of the first pass: each damaged data block of an object is computed once, and judged.

ghost use Rattle.std.specs.Prelude.{◌≡◌, false, Bool, ℕ, List, length, All, OnOk, Err};
ghost use Rattle.std.specs.FinMap.{get};
ghost use Rattle.aea_lattice.specs.declared.blocks.BlockId.{BlockId};
ghost use Rattle.aea_lattice.specs.Blocks.{HasBlock};
ghost use Rattle.aea_disk.specs.Frames.{OnlyReads};
ghost use Rattle.aea_shelf.specs.Places.{cell_size};
ghost use Rattle.aea_archive.specs.Objects.{data_under, IsOneOf};
ghost use Rattle.aea_restore.specs.Drawn.{IsOtherDigest, IsClash};
ghost use Rattle.aea_degraded.specs.Found.{IsFoundBy};
ghost use Rattle.aea_degraded.specs.Planned.{AreFatesOf, IsGiven, IsRightPlan, IsChecked};

use crate::block::block_payload;
use crate::fault::PayloadFault;
use crate::planning::place_of;
use aea_disk::Disk;
use aea_fates::lists_are_one;
use aea_fetch::DataBlocks;
use aea_gauss::FateList;
use aea_lattice::BlockId;
use aea_ledger::Ledger;
use aea_view::Marks;

// Computes the payload of a block, if it is marked as damaged, and judges it by the digest that the ledger keeps.
fn check_sum<D: Disk>(
    ledger: &Ledger,
    disk: &mut D,
    damaged: &Marks,
    fates: &FateList,
    b: BlockId,
    cell: &mut [u8],
    sum: &mut [u8],
) -> Result<(), PayloadFault>
    requires lattice { damaged.now.lattice ≡ ledger.now.lattice }
    requires fates { AreFatesOf ledger.now.lattice damaged.now fates.now }
    requires block { HasBlock ledger.now.lattice b }
    requires given { IsGiven fates.now b }
    requires cell { length cell.old ≡ cell_size ledger.now.shape }
    requires sum { length sum.old ≡ ledger.now.shape.block }
    ensures checked { OnOk result (D.reveals → (known : BlockId → Bool) → IsFoundBy ledger.now (D.state disk.old).files damaged.now fates.now b known → IsChecked ledger.now (D.state disk.old).files damaged.now fates.now b) }
    ensures clash { (d : BlockId) (revealed computed : List ℕ) → result ≡ Err (PayloadFault.Clash d revealed computed) → IsOtherDigest ledger.now d revealed computed }
    ensures computed { (d : BlockId) (revealed computed : List ℕ) → result ≡ Err (PayloadFault.Clash d revealed computed) → D.reveals → (known : BlockId → Bool) → IsFoundBy ledger.now (D.state disk.old).files damaged.now fates.now b known
        → (d ≡ b) × ((known b ≡ false) × IsClash ledger.now known (D.state disk.old).files d revealed computed) }
    ensures reads { OnlyReads D.reveals (result ≡ Err PayloadFault.DiskFault) (D.state disk.old) (D.state disk.new) }
{
    lists_are_one();
    if !damaged.get(b) {
        return Ok(());
    }
    let at = place_of(&ledger.lattice(), fates, b);
    block_payload(ledger, disk, damaged, fates, b, at, cell, sum)
}

/// Computes each data block of the object under the name that is marked as damaged, and judges it by the digest that the ledger
/// keeps. `cell` has the bytes of a cell, B + 48, and `sum` those of a block, B; what is in them is of no use. It takes no memory,
/// and nothing is written.
pub(crate) fn check_sums<D: Disk>(
    ledger: &Ledger,
    disk: &mut D,
    name: &[u8],
    damaged: &Marks,
    fates: &FateList,
    cell: &mut [u8],
    sum: &mut [u8],
) -> Result<(), PayloadFault>
    requires lattice { damaged.now.lattice ≡ ledger.now.lattice }
    requires fates { AreFatesOf ledger.now.lattice damaged.now fates.now }
    requires given { All (IsGiven fates.now) (data_under (get ledger.now.objects name.now)) }
    requires cell { length cell.old ≡ cell_size ledger.now.shape }
    requires sum { length sum.old ≡ ledger.now.shape.block }
    ensures checked { OnOk result (D.reveals → (known : BlockId → Bool) → IsRightPlan ledger.now (D.state disk.old).files damaged.now fates.now (data_under (get ledger.now.objects name.now)) known
        → All (IsChecked ledger.now (D.state disk.old).files damaged.now fates.now) (data_under (get ledger.now.objects name.now))) }
    ensures clash { (d : BlockId) (revealed computed : List ℕ) → result ≡ Err (PayloadFault.Clash d revealed computed) → IsOtherDigest ledger.now d revealed computed }
    ensures computed { (d : BlockId) (revealed computed : List ℕ) → result ≡ Err (PayloadFault.Clash d revealed computed) → D.reveals → (known : BlockId → Bool)
        → IsRightPlan ledger.now (D.state disk.old).files damaged.now fates.now (data_under (get ledger.now.objects name.now)) known
        → IsOneOf (data_under (get ledger.now.objects name.now)) d × ((known d ≡ false) × IsClash ledger.now known (D.state disk.old).files d revealed computed) }
    ensures reads { OnlyReads D.reveals (result ≡ Err PayloadFault.DiskFault) (D.state disk.old) (D.state disk.new) }
{
    let mut blocks = DataBlocks::new(ledger, name);
    while let Some(b) = blocks.next() {
        match check_sum(ledger, disk, damaged, fates, b, cell, sum) {
            Ok(()) => (),
            Err(fault) => return Err(fault),
        }
    }
    Ok(())
}
