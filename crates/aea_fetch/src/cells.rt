//! Payloads that are read from their cells.

ghost use Rattle.std.specs.Prelude.{◌≡◌, ◌-◌, ◌≤◌, length, take, drop};
ghost use Rattle.aea_shelf.specs.Places.{cell_size};
ghost use Rattle.aea_fetch.specs.Payloads.{IsPayload};
ghost use Rattle.aea_fetch.specs.Cells.{IsCellFault};

use crate::source::PayloadSource;
use aea_archive::read_block;
use aea_disk::Disk;
use aea_lattice::BlockId;
use aea_ledger::Ledger;
use aea_shelf::Cell;

/// Why a payload is not read from its cell.
#[derive(Clone, Copy, Debug, PartialEq, Eq)]
pub enum CellFault {
    /// The block is damaged.
    Damaged { block: BlockId },
    /// The disk failed. It has counted it.
    DiskFault,
}

/// Payloads that are read from intact cells, each into the buffer, which has the bytes of a cell, B + 48.
#[derive(Drop)]
pub struct CellReader<'a> {
    /// The buffer.
    pub cell: &'a mut [u8],
}

impl<'a> PayloadSource for CellReader<'a> {
    type Fault = CellFault;

    ghost has = { λ reveals v c b p. IsPayload reveals v.shape v.digests c b p };

    ghost says = { λ reveals v c b fault. IsCellFault reveals v.shape v.digests c b fault };

    ghost use Rattle.aea_fetch.specs.declared.cells.CellFault.TheVariants.{DiskFault};

    ghost is_disk = { λ fault. fault ≡ DiskFault };

    ghost ready = { λ s reveals v c b. length s.cell.now ≡ cell_size v.shape };

    ghost has_one = { λ s. 48 ≤ length s.cell.now };

    ghost held = { λ s. take (length s.cell.now - 48) (drop 16 s.cell.now) };

    fn get_one<D: Disk>(
        &mut self,
        ledger: &Ledger,
        disk: &mut D,
        b: BlockId,
    ) -> Result<(), CellFault> {
        match read_block(disk, ledger, b, self.cell) {
            Ok(Cell::Intact) => Ok(()),
            Ok(Cell::Bad) => Err(CellFault::Damaged { block: b }),
            Err(_) => Err(CellFault::DiskFault),
        }
    }

    fn payload(&self) -> &[u8] {
        &self.cell[16..self.cell.len() - 32]
    }
}
