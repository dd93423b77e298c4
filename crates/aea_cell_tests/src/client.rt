//! A client of the shelf, over any disk.

ghost use Rattle.std.specs.Prelude.{◌≡◌, ◌≢◌, List, ℕ, length, OnOk};
ghost use Rattle.aea_lattice.specs.Shapes.{IsBlockOf};
ghost use Rattle.aea_envelope.specs.Cells.{block_digest};
ghost use Rattle.aea_shelf.specs.Places.{cell_size};
ghost use Rattle.aea_shelf.specs.Intact.{IsBlockHeld};

use aea_disk::{Disk, DiskFault};
use aea_lattice::{BlockId, Shape};
use aea_shelf::write_cell;

/// Writes the cells of two blocks, and syncs.
pub fn write_two<D: Disk>(
    disk: &mut D,
    shape: &Shape,
    a: BlockId,
    b: BlockId,
    payload: &[u8],
    cell: &mut [u8],
) -> Result<(), DiskFault>
    requires first { IsBlockOf shape.now a }
    requires second { IsBlockOf shape.now b }
    requires apart { a ≢ b }
    requires payload { length payload.now ≡ shape.now.block }
    requires buffer { length cell.old ≡ cell_size shape.now }

    ensures first { OnOk result (D.reveals → IsBlockHeld shape.now a (block_digest a payload.now) (D.state disk.new)) }
    ensures second { OnOk result (D.reveals → IsBlockHeld shape.now b (block_digest b payload.now) (D.state disk.new)) }
    ensures held { D.reveals → (e : BlockId) (recorded : List ℕ) → IsBlockOf shape.now e → e ≢ a → e ≢ b → IsBlockHeld shape.now e recorded (D.state disk.old) → IsBlockHeld shape.now e recorded (D.state disk.new) }
{
    write_cell(disk, shape, a, payload, cell)?;
    write_cell(disk, shape, b, payload, cell)?;
    disk.sync()
}
