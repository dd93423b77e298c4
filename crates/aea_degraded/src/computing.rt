//! The payload of a determined block.

ghost use Rattle.std.specs.Prelude.{◌≡◌, ◌≢◌, ℕ, List, length, replicate, OnOk, Err};
ghost use Rattle.aea_lattice.specs.declared.blocks.BlockId.{BlockId};
ghost use Rattle.aea_lattice.specs.Blocks.{HasBlock};
ghost use Rattle.aea_disk.specs.Frames.{OnlyReads};
ghost use Rattle.aea_envelope.specs.Cells.{block_digest};
ghost use Rattle.aea_shelf.specs.Places.{cell_size};
ghost use Rattle.aea_archive.specs.Blocks.{recorded_in};
ghost use Rattle.aea_gauss.specs.Fates.{block_of_fate};
ghost use Rattle.aea_restore.specs.Drawn.{AreAllIntact, IsOtherDigest};
ghost use Rattle.aea_degraded.specs.Summed.{AddUpTo, IsSumIn, is_summand, sum_at, IsSummed, IsPayloadClash};

use crate::fault::PayloadFault;
use crate::sum::add_equations;
use aea_archive::recorded;
use aea_disk::Disk;
use aea_gauss::Fate;
use aea_lattice::{BlockId, EqList};
use aea_ledger::Ledger;
use aea_restore::{RestoreFault, other_digest};

// Makes all bytes of a sum zeros.
fn clear(sum: &mut [u8])
    ensures { sum.new ≡ replicate (length sum.old) 0 }
{
    sum.fill(0);
}

// Judges a computed payload by the digest that the ledger keeps.
fn judge_sum(ledger: &Ledger, b: BlockId, sum: &[u8]) -> Result<(), RestoreFault>
    requires block { HasBlock ledger.now.lattice b }
    requires sum { length sum.now ≡ ledger.now.shape.block }
    ensures digest { OnOk result (block_digest b sum.now ≡ recorded_in ledger.now.shape ledger.now.digests b) }
    ensures clash { (d : BlockId) (revealed computed : List ℕ) → result ≡ Err (RestoreFault.Clash d revealed computed) → (d ≡ b) × (IsOtherDigest ledger.now b revealed computed × (computed ≡ block_digest b sum.now)) }
    ensures disk { result ≢ Err RestoreFault.DiskFault }
{
    let want = recorded(ledger, b);
    match other_digest(b, &want, sum) {
        None => Ok(()),
        Some(computed) => Err(RestoreFault::Clash {
            block: b,
            recorded: want,
            computed,
        }),
    }
}

// Makes the sum the XOR of the payloads of what the equations leave over but b, and judges it.
fn sum_payload<D: Disk>(
    ledger: &Ledger,
    disk: &mut D,
    b: BlockId,
    equations: &EqList,
    cell: &mut [u8],
    sum: &mut [u8],
) -> Result<(), RestoreFault>
    requires sum_in { AddUpTo ledger.now.lattice b equations.now }
    requires cell { length cell.old ≡ cell_size ledger.now.shape }
    requires sum { length sum.old ≡ ledger.now.shape.block }
    ensures digest { OnOk result (block_digest b sum.new ≡ recorded_in ledger.now.shape ledger.now.digests b) }
    ensures judged { OnOk result (IsSummed D.reveals ledger.now (D.state disk.old).files (Fate.Sum b equations.now) sum.new) }
    ensures found { (d : BlockId) (revealed computed : List ℕ) → result ≡ Err (RestoreFault.Clash d revealed computed) → IsPayloadClash D.reveals ledger.now (D.state disk.old).files (Fate.Sum b equations.now) d revealed computed }
    ensures reads { OnlyReads D.reveals (result ≡ Err RestoreFault.DiskFault) (D.state disk.old) (D.state disk.new) }
{
    clear(sum);
    match add_equations(ledger, disk, b, equations, cell, sum) {
        Ok(()) => (),
        Err(fault) => return Err(fault),
    }
    judge_sum(ledger, b, sum)
}

/// Makes `sum` the payload of the block of a Sum: the XOR of the payloads of the blocks that its equations add up to beside
/// it. Each payload that is read is judged by the digest that the ledger keeps before it is used, and so is what was
/// computed. `cell` has the bytes of a cell, B + 48, and `sum` those of a block, B; it takes no memory. Nothing is written.
/// Of L equations it reads at most 3·L cells, and compares names 3·L² times to tell which. An error is a Clash or a fault of
/// the disk; `sum` is then of no use.
pub fn payload<D: Disk>(
    ledger: &Ledger,
    disk: &mut D,
    fate: &Fate,
    cell: &mut [u8],
    sum: &mut [u8],
) -> Result<(), PayloadFault>
    requires fate { IsSumIn ledger.now.lattice fate.now }
    requires cell { length cell.old ≡ cell_size ledger.now.shape }
    requires sum { length sum.old ≡ ledger.now.shape.block }

    // What is computed is the sum of judged payloads, and has the recorded digest. Where the disk tells its files, and the
    // summands are intact, it is the sum of what is at their homes.
    ensures digest { OnOk result (block_digest (block_of_fate fate.now) sum.new ≡ recorded_in ledger.now.shape ledger.now.digests (block_of_fate fate.now)) }
    ensures judged { OnOk result (IsSummed D.reveals ledger.now (D.state disk.old).files fate.now sum.new) }
    ensures sum { OnOk result (D.reveals → AreAllIntact ledger.now (is_summand ledger.now.lattice fate.now) (D.state disk.old).files → sum.new ≡ sum_at ledger.now.lattice ledger.now.shape (D.state disk.old).files fate.now) }

    // A clash is one of two digests that differ, the first of them the ledger's: of a summand that was read, which is then not
    // intact, or of the computed payload. Where the disk tells its files, and the summands are intact, it is the latter.
    ensures clash { (d : BlockId) (revealed computed : List ℕ) → result ≡ Err (PayloadFault.Clash d revealed computed) → IsOtherDigest ledger.now d revealed computed }
    ensures found { (d : BlockId) (revealed computed : List ℕ) → result ≡ Err (PayloadFault.Clash d revealed computed) → IsPayloadClash D.reveals ledger.now (D.state disk.old).files fate.now d revealed computed }
    ensures computed { (d : BlockId) (revealed computed : List ℕ) → result ≡ Err (PayloadFault.Clash d revealed computed) → D.reveals → AreAllIntact ledger.now (is_summand ledger.now.lattice fate.now) (D.state disk.old).files
        → (d ≡ block_of_fate fate.now) × (computed ≡ block_digest (block_of_fate fate.now) (sum_at ledger.now.lattice ledger.now.shape (D.state disk.old).files fate.now)) }
    ensures reads { OnlyReads D.reveals (result ≡ Err PayloadFault.DiskFault) (D.state disk.old) (D.state disk.new) }
{
    match fate {
        Fate::Sum { block, eqs } => match sum_payload(ledger, disk, *block, eqs, cell, sum) {
            Ok(()) => Ok(()),
            Err(fault) => Err(PayloadFault::from(fault)),
        },
        Fate::Word { block: _, nodes: _ } => unreachable!(),
    }
}
