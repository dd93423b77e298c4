//! A block of the archive that is read, and the buffer that it takes.

ghost use Rattle.std.specs.Prelude.{◌≡◌, ◌↔◌, Bool, List, ℕ, length, take, IsTrue, IsErr, IfOk};
ghost use Rattle.aea_lattice.specs.Blocks.{HasBlock};
ghost use Rattle.aea_lattice.specs.Data.{value_of};
ghost use Rattle.aea_envelope.specs.Cells.{block_digest, cell_of};
ghost use Rattle.aea_disk.specs.State.{Settles};
ghost use Rattle.aea_disk.specs.Frames.{OnlyReads};
ghost use Rattle.aea_shelf.specs.Places.{cell_size, home_bytes, HasAtHome};
ghost use Rattle.aea_shelf.specs.Intact.{payload_in};
ghost use Rattle.aea_archive.specs.Blocks.{recorded_in, IsIntactBy};
ghost use Rattle.aea_archive.specs.Data.{AreSomeHonest};

use aea_disk::{Disk, DiskFault};
use aea_lattice::BlockId;
use aea_ledger::Ledger;
use aea_shelf::{Cell, read_cell};
use std::alloc::{AllocError, Global};

/// The digest that the ledger keeps of a block of its lattice.
pub fn recorded(ledger: &Ledger, b: BlockId) -> [u8; 32]
    requires block { HasBlock ledger.now.lattice b }
    ensures { result ≡ recorded_in ledger.now.shape ledger.now.digests b }
{
    ledger.digest(ledger.lattice().number(b))
}

/// Reads the cell of a block of the archive into the buffer, which has the bytes of a cell, B + 48, and compares its
/// digest with the one that the ledger keeps. Of an intact cell the buffer has the payload at bytes 16 to 15+B.
pub fn read_block<D: Disk>(
    disk: &mut D,
    ledger: &Ledger,
    b: BlockId,
    cell: &mut [u8],
) -> Result<Cell, DiskFault>
    requires block { HasBlock ledger.now.lattice b }
    requires buffer { length cell.old ≡ cell_size ledger.now.shape }

    ensures intact { IfOk result (λ r. D.reveals → (r ≡ Cell.Intact) ↔ IsIntactBy ledger.now.shape ledger.now.digests (D.state disk.old).files b) }
    ensures bad { IfOk result (λ r. D.reveals → (r ≡ Cell.Bad) ↔ (¬ IsIntactBy ledger.now.shape ledger.now.digests (D.state disk.old).files b)) }

    // Over any disk, the buffer then has this cell.
    ensures cell { IfOk result (λ r. r ≡ Cell.Intact → cell.new ≡ cell_of b (payload_in ledger.now.shape cell.new)) }
    ensures digest { IfOk result (λ r. r ≡ Cell.Intact → block_digest b (payload_in ledger.now.shape cell.new) ≡ recorded_in ledger.now.shape ledger.now.digests b) }
    ensures bytes { IfOk result (λ r. r ≡ Cell.Intact → D.reveals → HasAtHome ledger.now.shape b cell.new (D.state disk.old).files) }

    // Of survivors that are honest for a data list, at least those of a test that picks this block, it is the cell of the
    // block of the list's lattice.
    ensures honest { IfOk result (λ r. r ≡ Cell.Intact → D.reveals → (picks : BlockId → Bool) (datas : List (List ℕ)) → IsTrue (picks b) → AreSomeHonest picks ledger.now.shape ledger.now.lattice ledger.now.digests datas (D.state disk.old).files → payload_in ledger.now.shape cell.new ≡ value_of ledger.now.lattice ledger.now.shape.block datas b) }

    // Also of a bad cell the buffer begins with what is at the home, all within the file.
    ensures home { IfOk result (λ r. D.reveals → take (length (home_bytes ledger.now.shape b (D.state disk.old).files)) cell.new ≡ home_bytes ledger.now.shape b (D.state disk.old).files) }

    ensures settled { Settles (D.state disk.old) (D.state disk.new) }
    ensures reads { OnlyReads D.reveals (IsErr result) (D.state disk.old) (D.state disk.new) }
{
    let want = recorded(ledger, b);
    read_cell(disk, &ledger.shape(), b, &want, cell)
}

/// Whether a block of the archive is intact. It reads its cell into the buffer, which has the bytes of a cell, B + 48, and is of
/// no use afterwards.
pub fn is_block_intact<D: Disk>(
    disk: &mut D,
    ledger: &Ledger,
    b: BlockId,
    cell: &mut [u8],
) -> Result<bool, DiskFault>
    requires block { HasBlock ledger.now.lattice b }
    requires buffer { length cell.old ≡ cell_size ledger.now.shape }
    ensures intact { IfOk result (λ intact. D.reveals → IsTrue intact ↔ IsIntactBy ledger.now.shape ledger.now.digests (D.state disk.old).files b) }
    ensures reads { OnlyReads D.reveals (IsErr result) (D.state disk.old) (D.state disk.new) }
{
    match read_block(disk, ledger, b, cell) {
        Ok(Cell::Intact) => Ok(true),
        Ok(Cell::Bad) => Ok(false),
        Err(fault) => Err(fault),
    }
}

/// A buffer for a cell of the archive, B + 48 bytes.
pub fn cell_buffer(alloc: Global, ledger: &Ledger) -> Result<Vec<u8>, AllocError>
    ensures { IfOk result (λ cell. length cell.items ≡ cell_size ledger.now.shape) }
{
    let size = ledger.shape().block() as usize;
    vec![in alloc; 0; size + 48]
}
