//! The payload of one block, read where it is intact and else computed by its fate.

ghost use Rattle.std.specs.Prelude.{◌≡◌, ◌+◌, ◌<◌, true, false, not, Bool, ℕ, List, length, take, drop, slice_get, All, Some, IfSome, OnOk, Err};
ghost use Rattle.aea_lattice.specs.declared.blocks.BlockId.{BlockId};
ghost use Rattle.aea_lattice.specs.Blocks.{HasBlock};
ghost use Rattle.aea_view.specs.Marked.{is_marked};
ghost use Rattle.aea_disk.specs.Frames.{OnlyReads};
ghost use Rattle.aea_envelope.specs.Cells.{block_digest};
ghost use Rattle.aea_shelf.specs.Places.{cell_size};
ghost use Rattle.aea_shelf.specs.Intact.{payload_at};
ghost use Rattle.aea_gauss.specs.declared.fates.Fate.{Fate};
ghost use Rattle.aea_gauss.specs.Fates.{IsFate};
ghost use Rattle.aea_archive.specs.Blocks.{recorded_in, IsIntactBy};
ghost use Rattle.aea_restore.specs.Drawn.{IsDrawn, IsOtherDigest, IsClash};
ghost use Rattle.aea_restore.specs.Judged.{IsJudged, IsReadClash};
ghost use Rattle.aea_degraded.specs.Fetched.{IsOfReadings};
ghost use Rattle.aea_degraded.specs.Summed.{is_word, sum_at};
ghost use Rattle.aea_degraded.specs.Found.{IsSumAt, IsFoundBy};

use crate::computing::payload;
use crate::fault::PayloadFault;
use aea_disk::Disk;
use aea_gauss::{Fate, FateList};
use aea_lattice::BlockId;
use aea_ledger::Ledger;
use aea_restore::read_payload;
use aea_view::Marks;

// Copies the payload of a cell.
fn take_payload(cell: &[u8], sum: &mut [u8])
    requires { length cell.now ≡ length sum.old + 48 }
    ensures { sum.new ≡ take (length sum.old) (drop 16 cell.now) }
{
    let size = sum.len();
    sum.copy_from_slice(&cell[16..16 + size]);
}

// Reads the payload of a block.
fn read_own<D: Disk>(
    ledger: &Ledger,
    disk: &mut D,
    b: BlockId,
    cell: &mut [u8],
    sum: &mut [u8],
) -> Result<(), PayloadFault>
    requires block { HasBlock ledger.now.lattice b }
    requires cell { length cell.old ≡ cell_size ledger.now.shape }
    requires sum { length sum.old ≡ ledger.now.shape.block }
    ensures digest { OnOk result (block_digest b sum.new ≡ recorded_in ledger.now.shape ledger.now.digests b) }
    ensures judged { OnOk result (IsJudged D.reveals ledger.now (D.state disk.old).files b sum.new) }
    ensures intact { OnOk result (D.reveals → IsIntactBy ledger.now.shape ledger.now.digests (D.state disk.old).files b → sum.new ≡ payload_at ledger.now.shape (D.state disk.old).files b) }
    ensures found { (d : BlockId) (revealed computed : List ℕ) → result ≡ Err (PayloadFault.Clash d revealed computed) → (d ≡ b) × IsReadClash D.reveals ledger.now (D.state disk.old).files d revealed computed }
    ensures reads { OnlyReads D.reveals (result ≡ Err PayloadFault.DiskFault) (D.state disk.old) (D.state disk.new) }
{
    match read_payload(ledger, disk, b, cell) {
        Ok(()) => {
            take_payload(cell, sum);
            Ok(())
        }
        Err(fault) => Err(PayloadFault::from(fault)),
    }
}

/// Makes `sum` the payload of a block: of one that is marked as damaged by its fate, which is a Sum at this place of the list,
/// and of another one by reading it. `cell` has the bytes of a cell, B + 48, and `sum` those of a block, B. It takes no memory, and
/// nothing is written.
pub(crate) fn block_payload<D: Disk>(
    ledger: &Ledger,
    disk: &mut D,
    damaged: &Marks,
    fates: &FateList,
    b: BlockId,
    at: usize,
    cell: &mut [u8],
    sum: &mut [u8],
) -> Result<(), PayloadFault>
    requires lattice { damaged.now.lattice ≡ ledger.now.lattice }
    requires block { HasBlock ledger.now.lattice b }
    requires fates { All (IsFate ledger.now.lattice (λ d. not (is_marked damaged.now d))) fates.now }
    requires found { is_marked damaged.now b ≡ true → IsSumAt fates.now b at }
    requires cell { length cell.old ≡ cell_size ledger.now.shape }
    requires sum { length sum.old ≡ ledger.now.shape.block }
    ensures digest { OnOk result (block_digest b sum.new ≡ recorded_in ledger.now.shape ledger.now.digests b) }

    // Over any disk it is the XOR of payloads that were read and have their digests.
    ensures readings { OnOk result (IsOfReadings D.reveals ledger.now (D.state disk.old).files b sum.new) }

    // Where the disk tells its files, and the marks and fates are right for the intact blocks, it is drawn from these, and a clash
    // is one of such a payload, of this block, which is damaged then.
    ensures drawn { OnOk result (D.reveals → (known : BlockId → Bool) → IsFoundBy ledger.now (D.state disk.old).files damaged.now fates.now b known → IsDrawn ledger.now known (D.state disk.old).files b sum.new) }
    ensures clash { (d : BlockId) (revealed computed : List ℕ) → result ≡ Err (PayloadFault.Clash d revealed computed) → IsOtherDigest ledger.now d revealed computed }
    ensures computed { (d : BlockId) (revealed computed : List ℕ) → result ≡ Err (PayloadFault.Clash d revealed computed) → D.reveals → (known : BlockId → Bool) → IsFoundBy ledger.now (D.state disk.old).files damaged.now fates.now b known
        → (d ≡ b) × ((known b ≡ false) × IsClash ledger.now known (D.state disk.old).files d revealed computed) }

    // What is computed there is the sum of what is at the homes of the blocks that the fate adds up to; so a second run of it makes
    // the same.
    ensures summed { OnOk result (D.reveals → (known : BlockId → Bool) → IsFoundBy ledger.now (D.state disk.old).files damaged.now fates.now b known → is_marked damaged.now b ≡ true
        → (fate : Fate) → slice_get fates.now at ≡ Some fate → sum.new ≡ sum_at ledger.now.lattice ledger.now.shape (D.state disk.old).files fate) }
    ensures summed_clash { (d : BlockId) (revealed computed : List ℕ) → result ≡ Err (PayloadFault.Clash d revealed computed) → D.reveals → (known : BlockId → Bool) → IsFoundBy ledger.now (D.state disk.old).files damaged.now fates.now b known
        → (fate : Fate) → slice_get fates.now at ≡ Some fate → computed ≡ block_digest b (sum_at ledger.now.lattice ledger.now.shape (D.state disk.old).files fate) }
    ensures reads { OnlyReads D.reveals (result ≡ Err PayloadFault.DiskFault) (D.state disk.old) (D.state disk.new) }
{
    let _lattice = ledger.lattice();
    if !damaged.get(b) {
        return read_own(ledger, disk, b, cell, sum);
    }
    let Some(fate) = fates.get(at) else {
        unreachable!()
    };
    payload(ledger, disk, fate, cell, sum)
}

/// Whether the fate at this place is listed nodes: that of a block that the known ones do not determine.
pub(crate) fn is_lost(fates: &FateList, at: usize) -> bool
    requires { at < length fates.now }
    ensures { IfSome (slice_get fates.now at) (λ fate. result ≡ is_word fate) }
{
    match fates.get(at) {
        Some(Fate::Word { block: _, nodes: _ }) => true,
        Some(Fate::Sum { block: _, eqs: _ }) => false,
        None => unreachable!(),
    }
}
