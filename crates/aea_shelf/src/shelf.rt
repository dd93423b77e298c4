//! A cell read at its home, and a cell written there.

ghost use Rattle.std.specs.Prelude.{◌≡◌, ◌≢◌, ◌↔◌, ◌+◌, ◌-◌, ◌≤◌, Bool, List, ℕ, length, take, drop, IsTrue, IsNone, IsErr, IfSome, IfOk, OnOk};
ghost use Rattle.aea_lattice.specs.declared.grid.Lattice.{Lattice};
ghost use Rattle.aea_lattice.specs.Blocks.{HasBlock};
ghost use Rattle.aea_lattice.specs.Data.{value_of};
ghost use Rattle.aea_lattice.specs.Shapes.{IsBlockOf};
ghost use Rattle.aea_envelope.specs.Cells.{block_digest, cell_of};
ghost use Rattle.aea_disk.specs.Files.{ChangesFile, Holds};
ghost use Rattle.aea_disk.specs.State.{Settles, AtEachMoment, HasRoom, HasRoomTo, IsReady};
ghost use Rattle.aea_disk.specs.Frames.{OnlyReads, OnlyWrites};
ghost use Rattle.aea_shelf.specs.Places.{cell_size, home_file, home_place, home_bytes, HasAtHome};
ghost use Rattle.aea_shelf.specs.Intact.{IsRecorded, IsIntact, IsBlockHeld, IsHeldIn, payload_in};
ghost use Rattle.aea_shelf.specs.Honest.{IsHonestOn};
ghost use Rattle.aea_shelf.specs.Writes.{ChangesHome, KeepsShelf, KeepsPadded};

use crate::places::home_place;
use aea_disk::{Disk, DiskFault};
use aea_envelope::{decode, digest_of, encode};
use aea_lattice::{BlockId, Shape};
use aea_place::rows_go_over_sites;

/// What is at the home of a block: its cell with the digest that is recorded, or something else.
#[derive(Clone, Copy, Debug, PartialEq, Eq)]
pub enum Cell {
    Intact,
    Bad,
}

// Whether the bytes are a cell of the block with this digest. They are then that of the payload between its head and
// the digest.
fn is_recorded(b: BlockId, want: &[u8; 32], cell: &[u8]) -> bool
    ensures recorded { IsTrue result ↔ IsRecorded b want.now cell.now }
    ensures cell { IsTrue result → cell.now ≡ cell_of b (take (length cell.now - 48) (drop 16 cell.now)) }
    ensures digest { IsTrue result → block_digest b (take (length cell.now - 48) (drop 16 cell.now)) ≡ want.now }
{
    match decode(b, cell) {
        Some(found) => found.1 == *want,
        None => false,
    }
}

// The last 32 bytes of a cell.
fn digest_in(cell: &[u8]) -> [u8; 32]
    requires { 32 ≤ length cell.now }
    ensures { result ≡ drop (length cell.now - 32) cell.now }
{
    match cell.split_last_chunk::<32>() {
        Some(found) => *found.1,
        None => unreachable!(),
    }
}

/// Reads the cell of a block into the buffer, which has the bytes of a cell, B + 48. A file that is missing, or ends
/// before the cell does, has a bad one there. Of an intact cell the buffer has the payload at bytes 16 to 15+B.
pub fn read_cell<D: Disk>(
    disk: &mut D,
    shape: &Shape,
    b: BlockId,
    want: &[u8; 32],
    cell: &mut [u8],
) -> Result<Cell, DiskFault>
    requires block { IsBlockOf shape.now b }
    requires buffer { length cell.old ≡ cell_size shape.now }

    ensures intact { IfOk result (λ r. D.reveals → (r ≡ Cell.Intact) ↔ IsIntact shape.now b want.now (D.state disk.old).files) }
    ensures bad { IfOk result (λ r. D.reveals → (r ≡ Cell.Bad) ↔ (¬ IsIntact shape.now b want.now (D.state disk.old).files)) }

    // Over any disk, the buffer then has this cell.
    ensures cell { IfOk result (λ r. r ≡ Cell.Intact → cell.new ≡ cell_of b (payload_in shape.now cell.new)) }
    ensures digest { IfOk result (λ r. r ≡ Cell.Intact → block_digest b (payload_in shape.now cell.new) ≡ want.now) }
    ensures bytes { IfOk result (λ r. r ≡ Cell.Intact → D.reveals → HasAtHome shape.now b cell.new (D.state disk.old).files) }

    // Of survivors that are honest for a data list, at least those of a test that picks this block, it is the cell of the
    // block of the list's lattice.
    ensures honest { IfOk result (λ r. r ≡ Cell.Intact → D.reveals → (picks : BlockId → Bool) (l : Lattice) (recorded : BlockId → List ℕ) (datas : List (List ℕ)) → HasBlock l b → IsTrue (picks b) → recorded b ≡ want.now → IsHonestOn picks l shape.now recorded datas (D.state disk.old).files → payload_in shape.now cell.new ≡ value_of l shape.now.block datas b) }

    // Also of a bad cell the buffer begins with what is at the home, all within the file.
    ensures home { IfOk result (λ r. D.reveals → take (length (home_bytes shape.now b (D.state disk.old).files)) cell.new ≡ home_bytes shape.now b (D.state disk.old).files) }

    ensures settled { Settles (D.state disk.old) (D.state disk.new) }
    ensures reads { OnlyReads D.reveals (IsErr result) (D.state disk.old) (D.state disk.new) }
{
    let home = home_place(shape, b);
    let count = disk.read(home.file, home.at, cell)?;
    if count < cell.len() || !is_recorded(b, want, cell) {
        return Ok(Cell::Bad);
    }
    Ok(Cell::Intact)
}

/// Judges the payload in a cell, its bytes but the first 16 and the last 32, as one of the block: None where it has the
/// digest that is wanted, and else the digest that it has. The cell's own head and digest are not looked at.
pub fn judge(b: BlockId, want: &[u8; 32], cell: &[u8]) -> Option<[u8; 32]>
    requires { 48 ≤ length cell.now }
    ensures none { IsNone result ↔ (block_digest b (take (length cell.now - 48) (drop 16 cell.now)) ≡ want.now) }
    ensures some { IfSome result (λ d. (d ≡ block_digest b (take (length cell.now - 48) (drop 16 cell.now))) × (d ≢ want.now)) }
{
    let digest = digest_of(b, &cell[16..cell.len() - 32]);
    if digest == *want {
        return None;
    }
    Some(digest)
}

// Writes the bytes of a cell at a block's home.
fn write_home<D: Disk>(
    disk: &mut D,
    shape: &Shape,
    b: BlockId,
    cell: &[u8],
) -> Result<(), DiskFault>
    requires block { IsBlockOf shape.now b }
    requires cell { length cell.now ≡ cell_size shape.now }
    ensures written { OnOk result (D.reveals → ChangesFile (home_file shape.now b) (Holds (home_place shape.now b) cell.now) (D.state disk.old).files (D.state disk.new).files) }
    ensures settled { Settles (D.state disk.old) (D.state disk.new) }
    ensures writes { OnlyWrites D.reveals (IsReady (D.state disk.old)) (HasRoomTo (D.state disk.old) (home_file shape.now b) (home_place shape.now b + cell_size shape.now)) (IsErr result) (ChangesHome shape.now b) (D.state disk.old) (D.state disk.new) }
    ensures full { OnOk result (HasRoom (D.state disk.old) → HasRoomTo (D.state disk.old) (home_file shape.now b) (home_place shape.now b + cell_size shape.now)) }
{
    let home = home_place(shape, b);
    disk.write(home.file, home.at, cell)
}

/// Writes the cell of a block at its home, and gives its digest. The payload has the B bytes of a block, and the
/// buffer those of a cell, B + 48. After a fault, and until a sync in what a crash leaves, the bytes at the home and
/// whatever lies past the file's old end may be any.
pub fn write_cell<D: Disk>(
    disk: &mut D,
    shape: &Shape,
    b: BlockId,
    payload: &[u8],
    cell: &mut [u8],
) -> Result<[u8; 32], DiskFault>
    requires block { IsBlockOf shape.now b }
    requires payload { length payload.now ≡ shape.now.block }
    requires buffer { length cell.old ≡ cell_size shape.now }

    ensures digest { IfOk result (λ d. d ≡ block_digest b payload.now) }
    ensures cell { cell.new ≡ cell_of b payload.now }
    ensures intact { IfOk result (λ d. D.reveals → IsIntact shape.now b d (D.state disk.new).files) }
    ensures home { OnOk result (D.reveals → HasAtHome shape.now b (cell_of b payload.now) (D.state disk.new).files) }

    // The file grows by zeros up to the cell, and nothing else changes.
    ensures written { OnOk result (D.reveals → ChangesFile (home_file shape.now b) (Holds (home_place shape.now b) (cell_of b payload.now)) (D.state disk.old).files (D.state disk.new).files) }
    ensures writes { OnlyWrites D.reveals (IsReady (D.state disk.old)) (HasRoomTo (D.state disk.old) (home_file shape.now b) (home_place shape.now b + cell_size shape.now)) (IsErr result) (ChangesHome shape.now b) (D.state disk.old) (D.state disk.new) }
    ensures settled { Settles (D.state disk.old) (D.state disk.new) }
    ensures full { OnOk result (HasRoom (D.state disk.old) → HasRoomTo (D.state disk.old) (home_file shape.now b) (home_place shape.now b + cell_size shape.now)) }

    // The other blocks, as they read and in what a crash leaves; after any answer those in other files also with zeros past
    // the ends.
    ensures padded { OnOk result (D.reveals → KeepsPadded shape.now (λ a. a ≢ b) (D.state disk.old).files (D.state disk.new).files) }
    ensures elsewhere { D.reveals → KeepsPadded shape.now (λ a. home_file shape.now a ≢ home_file shape.now b) (D.state disk.old).files (D.state disk.new).files }
    ensures shelf { KeepsShelf D.reveals shape.now (λ a. a ≢ b) (D.state disk.old) (D.state disk.new) }
    ensures held { D.reveals → (a : BlockId) (recorded : List ℕ) → IsBlockOf shape.now a → a ≢ b → IsBlockHeld shape.now a recorded (D.state disk.old) → IsBlockHeld shape.now a recorded (D.state disk.new) }
    ensures any_moment { (a : BlockId) (recorded : List ℕ) → IsBlockOf shape.now a → a ≢ b → IsHeldIn shape.now a recorded ((D.state disk.old).image (D.state disk.old).moment) → AtEachMoment (D.state disk.old) (D.state disk.new) (IsHeldIn shape.now a recorded) }
{
    rows_go_over_sites();
    encode(b, payload, cell);
    let digest = digest_in(cell);
    write_home(disk, shape, b, cell)?;
    Ok(digest)
}
