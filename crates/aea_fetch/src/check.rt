//! The first pass: whether all data blocks of an object are intact.

ghost use Rattle.std.specs.Prelude.{◌≡◌, length, All, IfOk, IsErr};
ghost use Rattle.std.specs.FinMap.{get};
ghost use Rattle.aea_lattice.specs.Blocks.{HasBlock};
ghost use Rattle.aea_disk.specs.Frames.{OnlyReads};
ghost use Rattle.aea_shelf.specs.Places.{cell_size};
ghost use Rattle.aea_archive.specs.Objects.{data_under};
ghost use Rattle.aea_fetch.specs.Gets.{IsFound};

use crate::cursor::DataBlocks;
use aea_archive::is_block_intact;
use aea_disk::{Disk, DiskFault};
use aea_lattice::BlockId;
use aea_ledger::Ledger;

// The first of the blocks that is not intact.
fn check_blocks<D: Disk>(
    disk: &mut D,
    ledger: &Ledger,
    mut blocks: DataBlocks<'_>,
    cell: &mut [u8],
) -> Result<Option<BlockId>, DiskFault>
    requires inside { All (HasBlock ledger.now.lattice) blocks }
    requires buffer { length cell.old ≡ cell_size ledger.now.shape }
    ensures found { IfOk result (IsFound D.reveals ledger.now.shape ledger.now.digests (D.state disk.old).files blocks.entry) }
    ensures reads { OnlyReads D.reveals (IsErr result) (D.state disk.old) (D.state disk.new) }
{
    while let Some(b) = blocks.next() {
        match is_block_intact(disk, ledger, b, cell) {
            Ok(true) => (),
            Ok(false) => return Ok(Some(b)),
            Err(fault) => return Err(fault),
        }
    }
    Ok(None)
}

/// The first data block of the object under the name that is not intact, in the order of its parts; None where all are, or
/// no object has the name. It reads the cells up to that block. What is in the buffer, which has the bytes of a cell, B + 48,
/// is of no use.
pub fn check_object<D: Disk>(
    disk: &mut D,
    ledger: &Ledger,
    name: &[u8],
    cell: &mut [u8],
) -> Result<Option<BlockId>, DiskFault>
    requires buffer { length cell.old ≡ cell_size ledger.now.shape }
    ensures found { IfOk result (IsFound D.reveals ledger.now.shape ledger.now.digests (D.state disk.old).files (data_under (get ledger.now.objects name.now))) }
    ensures reads { OnlyReads D.reveals (IsErr result) (D.state disk.old) (D.state disk.new) }
{
    check_blocks(disk, ledger, DataBlocks::new(ledger, name), cell)
}
