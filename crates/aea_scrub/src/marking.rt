//! The blocks of an archive that are marked where they are intact.

ghost use Rattle.std.specs.Prelude.{◌≡◌, ◌↔◌, IsTrue, length, Err, IfOk, OnOk, IsErr};
ghost use Rattle.aea_lattice.specs.Blocks.{HasBlock};
ghost use Rattle.aea_view.specs.Marked.{IsWhole, is_marked};
ghost use Rattle.aea_disk.specs.Frames.{OnlyReads};
ghost use Rattle.aea_shelf.specs.Places.{cell_size};
ghost use Rattle.aea_archive.specs.Blocks.{IsIntactBy, RevealsSurvivors};
ghost use Rattle.aea_scrub.specs.Scans.{AreIntact};

use aea_archive::{cell_buffer, is_block_intact};
use aea_disk::{Disk, DiskFault};
use aea_ledger::Ledger;
use aea_view::Marks;
use std::alloc::Global;

/// Why an archive was not scanned.
#[derive(Clone, Copy, Debug, PartialEq, Eq)]
pub enum ScanFault {
    /// The disk failed. It has counted it.
    DiskFault,
    /// There was no memory. Nothing was read.
    NoMemory,
}

// Gives each block of the archive its mark, in number order.
fn mark_all<D: Disk>(
    disk: &mut D,
    ledger: &Ledger,
    marks: &mut Marks,
    cell: &mut [u8],
) -> Result<(), DiskFault>
    requires lattice { marks.old.lattice ≡ ledger.now.lattice }
    requires whole { IsWhole marks.old }
    requires buffer { length cell.old ≡ cell_size ledger.now.shape }
    ensures lattice { marks.new.lattice ≡ ledger.now.lattice }
    ensures intact { OnOk result (D.reveals → AreIntact ledger.now (D.state disk.old).files marks.new) }
    ensures survivors { OnOk result (D.reveals → RevealsSurvivors ledger.now.shape ledger.now.lattice.n ledger.now.digests (D.state disk.old).files (is_marked marks.new)) }
    ensures reads { OnlyReads D.reveals (IsErr result) (D.state disk.old) (D.state disk.new) }
{
    let lattice = ledger.lattice();
    let count = lattice.blocks();
    let mut k: u32 = 0;
    while k < count {
        let b = lattice.block(k);
        let intact = match is_block_intact(disk, ledger, b, cell) {
            Ok(intact) => intact,
            Err(fault) => return Err(fault),
        };
        marks.set(b, intact);
        k += 1;
    }
    Ok(())
}

/// Reads the cell of each block of the archive once, in number order, which goes through each site's file forward, and
/// marks the blocks that are intact. A file that is missing or too short and a cell with another digest are damage; a read
/// that fails is a fault. It takes memory for the marks, a bit a block, and for one cell, B + 48 bytes; both before the
/// first read. Nothing is written.
pub fn scan<D: Disk>(alloc: Global, ledger: &Ledger, disk: &mut D) -> Result<Marks, ScanFault>
    ensures lattice { IfOk result (λ m. m.lattice ≡ ledger.now.lattice) }
    ensures intact { IfOk result (λ m. D.reveals → AreIntact ledger.now (D.state disk.old).files m) }
    ensures survivors { IfOk result (λ m. D.reveals → RevealsSurvivors ledger.now.shape ledger.now.lattice.n ledger.now.digests (D.state disk.old).files (is_marked m)) }

    ensures memory { result ≡ Err ScanFault.NoMemory → disk.new ≡ disk.old }
    ensures reads { OnlyReads D.reveals (result ≡ Err ScanFault.DiskFault) (D.state disk.old) (D.state disk.new) }
{
    let Ok(mut marks) = Marks::new(alloc, &ledger.lattice()) else {
        return Err(ScanFault::NoMemory);
    };
    let Ok(mut cell) = cell_buffer(alloc, ledger) else {
        return Err(ScanFault::NoMemory);
    };
    match mark_all(disk, ledger, &mut marks, cell.as_mut_slice()) {
        Ok(()) => Ok(marks),
        Err(_) => Err(ScanFault::DiskFault),
    }
}
