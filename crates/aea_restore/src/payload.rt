//! One payload: read from the disk and judged, or judged and written.

ghost use Rattle.std.specs.Prelude.{◌≡◌, ◌≢◌, ℕ, List, length, IsNone, IfSome, IsErr, OnOk, Err};
ghost use Rattle.aea_lattice.specs.declared.blocks.BlockId.{BlockId};
ghost use Rattle.aea_lattice.specs.Blocks.{HasBlock};
ghost use Rattle.aea_lattice.specs.Shapes.{IsBlockOf};
ghost use Rattle.aea_disk.specs.Frames.{OnlyReads};
ghost use Rattle.aea_envelope.specs.Cells.{block_digest};
ghost use Rattle.aea_shelf.specs.Places.{cell_size, home_file};
ghost use Rattle.aea_shelf.specs.Intact.{payload_in, payload_at};
ghost use Rattle.aea_shelf.specs.Writes.{KeepsPadded};
ghost use Rattle.aea_archive.specs.Blocks.{recorded_in, IsIntactBy};
ghost use Rattle.aea_restore.specs.Drawn.{IsOtherDigest};
ghost use Rattle.aea_restore.specs.Judged.{IsJudged, IsReadClash};
ghost use Rattle.aea_restore.specs.Repairs.{WritesBlocks};

use crate::fault::RestoreFault;
use aea_archive::{read_block, recorded};
use aea_disk::Disk;
use aea_envelope::{cells_have_lengths, cells_have_parts, digest_of};
use aea_lattice::BlockId;
use aea_ledger::Ledger;
use aea_shelf::{
    Cell, cells_are_apart, homes_are_in_rows, homes_are_on_its_sites, judge, write_cell,
};

/// Reads the cell of a block into the buffer, and judges its payload by the digest that the ledger keeps, whatever else
/// is there. The buffer has the bytes of a cell, B + 48; the payload is what comes after its first 16. An intact cell has
/// this digest, and is hashed once. It takes no memory. An error is a Clash of this block, which is then not intact, or a fault
/// of the disk.
pub fn read_payload<D: Disk>(
    ledger: &Ledger,
    disk: &mut D,
    b: BlockId,
    read: &mut [u8],
) -> Result<(), RestoreFault>
    requires block { HasBlock ledger.now.lattice b }
    requires buffer { length read.old ≡ cell_size ledger.now.shape }
    ensures judged { OnOk result (IsJudged D.reveals ledger.now (D.state disk.old).files b (payload_in ledger.now.shape read.new)) }
    ensures intact { OnOk result (D.reveals → IsIntactBy ledger.now.shape ledger.now.digests (D.state disk.old).files b → payload_in ledger.now.shape read.new ≡ payload_at ledger.now.shape (D.state disk.old).files b) }
    ensures clash { (d : BlockId) (revealed computed : List ℕ) → result ≡ Err (RestoreFault.Clash d revealed computed) → IsOtherDigest ledger.now d revealed computed }
    ensures found { (d : BlockId) (revealed computed : List ℕ) → result ≡ Err (RestoreFault.Clash d revealed computed) → (d ≡ b) × IsReadClash D.reveals ledger.now (D.state disk.old).files d revealed computed }
    ensures reads { OnlyReads D.reveals (result ≡ Err RestoreFault.DiskFault) (D.state disk.old) (D.state disk.new) }
{
    let want = recorded(ledger, b);
    match read_block(disk, ledger, b, read) {
        Err(_) => Err(RestoreFault::DiskFault),
        Ok(Cell::Intact) => Ok(()),
        Ok(Cell::Bad) => match judge(b, &want, read) {
            None => Ok(()),
            Some(computed) => Err(RestoreFault::Clash {
                block: b,
                recorded: want,
                computed,
            }),
        },
    }
}

/// The digest of a computed payload of the block, where it is not the wanted one. It takes no memory.
pub fn other_digest(b: BlockId, want: &[u8; 32], sum: &[u8]) -> Option<[u8; 32]>
    ensures none { IsNone result → block_digest b sum.now ≡ want.now }
    ensures some { IfSome result (λ d. (d ≡ block_digest b sum.now) × (d ≢ want.now)) }
{
    let computed = digest_of(b, sum);
    if computed == *want {
        return None;
    }
    Some(computed)
}

/// Judges a computed payload by the digest that the ledger keeps, and then writes the cell of its block.
pub(crate) fn write_payload<D: Disk>(
    ledger: &Ledger,
    disk: &mut D,
    b: BlockId,
    sum: &[u8],
    write: &mut [u8],
) -> Result<(), RestoreFault>
    requires block { HasBlock ledger.now.lattice b }
    requires sum { length sum.now ≡ ledger.now.shape.block }
    requires buffer { length write.old ≡ cell_size ledger.now.shape }
    ensures intact { OnOk result (D.reveals → IsIntactBy ledger.now.shape ledger.now.digests (D.state disk.new).files b) }
    ensures digest { OnOk result (block_digest b sum.now ≡ recorded_in ledger.now.shape ledger.now.digests b) }
    ensures payload { OnOk result (D.reveals → payload_at ledger.now.shape (D.state disk.new).files b ≡ sum.now) }
    ensures clash { (d : BlockId) (revealed computed : List ℕ) → result ≡ Err (RestoreFault.Clash d revealed computed) → (d ≡ b) × (IsOtherDigest ledger.now b revealed computed × (computed ≡ block_digest b sum.now)) }
    // A clash comes before the write.
    ensures before { IsErr result → result ≢ Err RestoreFault.DiskFault → D.reveals → (D.state disk.new).files ≡ (D.state disk.old).files }
    ensures padded { OnOk result (D.reveals → KeepsPadded ledger.now.shape (λ a. a ≢ b) (D.state disk.old).files (D.state disk.new).files) }
    ensures elsewhere { D.reveals → KeepsPadded ledger.now.shape (λ a. home_file ledger.now.shape a ≢ home_file ledger.now.shape b) (D.state disk.old).files (D.state disk.new).files }
    ensures writes { WritesBlocks D.reveals ledger.now (λ a. a ≢ b) (result ≡ Err RestoreFault.DiskFault) (D.state disk.old) (D.state disk.new) }
{
    cells_have_lengths();
    cells_have_parts();
    cells_are_apart();
    homes_are_in_rows();
    homes_are_on_its_sites();
    let shape = ledger.shape();
    let lattice = ledger.lattice();
    let want = recorded(ledger, b);
    if let Some(computed) = other_digest(b, &want, sum) {
        return Err(RestoreFault::Clash {
            block: b,
            recorded: want,
            computed,
        });
    }
    match write_cell(disk, &shape, b, sum, write) {
        Err(_) => Err(RestoreFault::DiskFault),
        Ok(_) => Ok(()),
    }
}
