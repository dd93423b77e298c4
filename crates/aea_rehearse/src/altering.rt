//! The blocks that are altered.

ghost use Rattle.std.specs.Prelude.{◌≡◌, ◌+◌, ◌<◌, ◌≤◌, ℕ, List, cond, length};
ghost use Rattle.aea_lattice.specs.declared.blocks.BlockId.{BlockId};
ghost use Rattle.aea_lattice.specs.Blocks.{HasBlock, blocks_count, number_of};
ghost use Rattle.aea_disk.specs.Files.{ChangesFile, Holds};
ghost use Rattle.aea_disk.specs.State.{Passes, HasRoomTo};
ghost use Rattle.aea_disk.specs.Frames.{OnlyReads};
ghost use Rattle.aea_envelope.specs.Cells.{block_digest, cell_of};
ghost use Rattle.aea_shelf.specs.Places.{cell_size, home_file, home_place, HasAtHome};
ghost use Rattle.aea_shelf.specs.Writes.{ChangesHome};
ghost use Rattle.aea_archive.specs.Blocks.{recorded_in, IsIntactBy};
ghost use Rattle.aea_rehearse.specs.Generator.{next_state, state_after};
ghost use Rattle.aea_rehearse.specs.Rehearsed.{IsRehearsalShape, flipped_cell, keeps_digest};
ghost use Rattle.aea_rehearse.specs.Rooms.{IsWilling, HasCellsRoom};
ghost use Rattle.aea_rehearse.specs.Building.{AreRecordedPayloads, AreWoven, AreGoneThrough, AreLeft};

use crate::generator::Generator;
use aea_archive::{read_block, recorded};
use aea_disk::Disk;
use aea_envelope::{cells_have_lengths, cells_have_parts};
use aea_lattice::{BlockId, numbers_reveal_blocks};
use aea_ledger::Ledger;
use aea_place::home;
use aea_shelf::{Cell, cells_are_apart, homes_are_in_rows, homes_are_on_its_sites, judge};

// The bytes of a cell.
const CELL: usize = 560;

// Reads the cell of a block, which is intact.
fn read_intact<D: Disk>(disk: &mut D, ledger: &Ledger, b: BlockId, cell: &mut [u8])
    requires reveals { D.reveals }
    requires willing { IsWilling (D.state disk.old) }
    requires block { HasBlock ledger.now.lattice b }
    requires buffer { length cell.old ≡ cell_size ledger.now.shape }
    requires intact { IsIntactBy ledger.now.shape ledger.now.digests (D.state disk.old).files b }
    ensures cell { (payload : List ℕ) → length payload ≡ ledger.now.shape.block → HasAtHome ledger.now.shape b (cell_of b payload) (D.state disk.old).files → cell.new ≡ cell_of b payload }
    ensures reads { OnlyReads D.reveals ⊥ (D.state disk.old) (D.state disk.new) }
{
    cells_have_lengths();
    match read_block(disk, ledger, b, cell) {
        Ok(Cell::Intact) => (),
        Ok(Cell::Bad) => unreachable!(),
        Err(_) => unreachable!(),
    }
}

// Writes the bytes of a cell at the home of a block.
fn write_home<D: Disk>(disk: &mut D, ledger: &Ledger, b: BlockId, cell: &[u8])
    requires reveals { D.reveals }
    requires shape { IsRehearsalShape ledger.now.shape }
    requires block { HasBlock ledger.now.lattice b }
    requires cell { length cell.now ≡ cell_size ledger.now.shape }
    requires free { (D.state disk.old).free }
    requires room { HasRoomTo (D.state disk.old) (home_file ledger.now.shape b) (home_place ledger.now.shape b + cell_size ledger.now.shape) }
    ensures written { ChangesFile (home_file ledger.now.shape b) (Holds (home_place ledger.now.shape b) cell.now) (D.state disk.old).files (D.state disk.new).files }
    ensures time { Passes (D.state disk.old) (D.state disk.new) }
    ensures steady { (D.state disk.new).faults ≡ (D.state disk.old).faults }
{
    let lattice = ledger.lattice();
    let spot = home(10, u64::from(lattice.number(b)));
    match disk.write(spot.site, spot.cell * 560, cell) {
        Ok(()) => (),
        Err(_) => unreachable!(),
    }
}

// Flips a bit of the first byte of a block's payload on the disk, unless the payload would keep its digest.
fn alter_block<D: Disk>(disk: &mut D, ledger: &Ledger, b: BlockId, cell: &mut [u8])
    requires reveals { D.reveals }
    requires shape { IsRehearsalShape ledger.now.shape }
    requires few { ledger.now.lattice.n ≤ 2000 }
    requires room { HasCellsRoom (D.state disk.old) }
    requires block { HasBlock ledger.now.lattice b }
    requires buffer { length cell.old ≡ cell_size ledger.now.shape }
    requires intact { IsIntactBy ledger.now.shape ledger.now.digests (D.state disk.old).files b }
    ensures flipped { (payload : List ℕ) → length payload ≡ ledger.now.shape.block → block_digest b payload ≡ recorded_in ledger.now.shape ledger.now.digests b
        → HasAtHome ledger.now.shape b (cell_of b payload) (D.state disk.old).files
        → HasAtHome ledger.now.shape b (cond (keeps_digest b payload) (cell_of b payload) (flipped_cell b payload)) (D.state disk.new).files }
    ensures step { ChangesHome ledger.now.shape b (D.state disk.old).files (D.state disk.new).files }
    ensures time { Passes (D.state disk.old) (D.state disk.new) }
    ensures steady { (D.state disk.new).faults ≡ (D.state disk.old).faults }
{
    cells_have_lengths();
    homes_are_in_rows();
    homes_are_on_its_sites();
    let _lattice = ledger.lattice();
    read_intact(disk, ledger, b, cell);
    cell[16] ^= 1;
    if judge(b, &recorded(ledger, b), cell).is_some() {
        write_home(disk, ledger, b, cell);
    }
}

// Alters the block with this number, if the next step of the generator strikes it.
fn alter_next<D: Disk>(
    disk: &mut D,
    ledger: &Ledger,
    generator: &mut Generator,
    permille: u32,
    k: u32,
    cell: &mut [u8],
)
    requires reveals { D.reveals }
    requires shape { IsRehearsalShape ledger.now.shape }
    requires few { ledger.now.lattice.n ≤ 2000 }
    requires room { HasCellsRoom (D.state disk.old) }
    requires number { k < blocks_count ledger.now.lattice }
    requires buffer { length cell.old ≡ cell_size ledger.now.shape }
    requires intact { (b : BlockId) → HasBlock ledger.now.lattice b → number_of ledger.now.lattice b ≡ k → IsIntactBy ledger.now.shape ledger.now.digests (D.state disk.old).files b }
    ensures state { generator.new.state ≡ next_state generator.old.state }
    ensures goes { (x : ℕ) (payload : BlockId → List ℕ) → AreRecordedPayloads ledger.now payload → generator.old.state ≡ state_after x k
        → AreGoneThrough ledger.now x permille k payload (D.state disk.old).files → AreGoneThrough ledger.now x permille (k + 1) payload (D.state disk.new).files }
    ensures ledger { (D.state disk.new).files 0 ≡ (D.state disk.old).files 0 }
    ensures time { Passes (D.state disk.old) (D.state disk.new) }
    ensures steady { (D.state disk.new).faults ≡ (D.state disk.old).faults }
{
    cells_have_lengths();
    cells_are_apart();
    homes_are_in_rows();
    numbers_reveal_blocks();
    let lattice = ledger.lattice();
    let b = lattice.block(k);
    if generator.strike(permille) {
        alter_block(disk, ledger, b, cell);
    }
}

/// Goes through the blocks in number order, a step of the generator for each, and alters those that it strikes.
pub(crate) fn alter<D: Disk>(
    disk: &mut D,
    ledger: &Ledger,
    generator: &mut Generator,
    permille: u32,
)
    requires reveals { D.reveals }
    requires shape { IsRehearsalShape ledger.now.shape }
    requires few { ledger.now.lattice.n ≤ 2000 }
    requires room { HasCellsRoom (D.state disk.old) }
    requires woven { (payload : BlockId → List ℕ) × AreWoven ledger.now payload (D.state disk.old).files }
    ensures left { (payload : BlockId → List ℕ) → AreWoven ledger.now payload (D.state disk.old).files → AreLeft ledger.now generator.old.state permille payload (D.state disk.new).files }
    ensures ledger { (D.state disk.new).files 0 ≡ (D.state disk.old).files 0 }
    ensures time { Passes (D.state disk.old) (D.state disk.new) }
    ensures steady { (D.state disk.new).faults ≡ (D.state disk.old).faults }
{
    cells_have_lengths();
    cells_have_parts();
    let lattice = ledger.lattice();
    let count = lattice.blocks();
    let mut cell = [0; CELL];
    for k in 0..count {
        alter_next(disk, ledger, generator, permille, k, &mut cell);
    }
}
