//! The second pass over the data blocks of an object: their payloads, printed in order and cut to its length.

ghost use Rattle.std.specs.Prelude.{◌≡◌, ◌≢◌, ◌-◌, [], ◌∷◌, length, take, All, IfErr, OnOk, Err};
ghost use Rattle.std.specs.FinMap.{get};
ghost use Rattle.aea_io.specs.Written.{IsFlushed};
ghost use Rattle.aea_lattice.specs.Blocks.{HasBlock};
ghost use Rattle.aea_disk.specs.Frames.{OnlyReads};
ghost use Rattle.aea_shelf.specs.Places.{cell_size};
ghost use Rattle.aea_archive.specs.Objects.{data_under};
ghost use Rattle.aea_fetch.specs.Copies.{HasCopied};
ghost use Rattle.aea_fetch.specs.Gets.{HasBroken, IsCopyFault};
ghost use Rattle.aea_fetch.specs.Payloads.{IsPayload};

use aea_disk::Disk;
use aea_fetch::{CellFault, CellReader, DataBlocks, GetFault, PayloadSource};
use aea_io::{Page, Sink, finish, print};
use aea_lattice::BlockId;
use aea_ledger::Ledger;

// The first bytes of a payload, at most so many.
fn front(payload: &[u8], most: u64) -> &[u8]
    ensures { result.now ≡ take most payload.now }
{
    if most < payload.len() as u64 {
        return &payload[..most as usize];
    }
    payload
}

// Prints the first bytes of the payload of a block, at most so many.
fn copy_block<D: Disk, O: Sink>(
    payloads: &mut CellReader<'_>,
    ledger: &Ledger,
    disk: &mut D,
    b: BlockId,
    most: u64,
    page: &mut Page,
    out: &mut O,
) -> Result<(), GetFault>
    requires buffer { length payloads.old.cell.now ≡ cell_size ledger.now.shape }
    requires block { HasBlock ledger.now.lattice b }
    ensures buffer { length payloads.new.cell.now ≡ cell_size ledger.now.shape }
    ensures copied { OnOk result (HasCopied (IsPayload D.reveals ledger.now.shape ledger.now.digests (D.state disk.old).files) (b ∷ []) most (O.state out.old) page.old (O.state out.new) page.new) }
    ensures broken { IfErr result (HasBroken D.reveals ledger.now.shape ledger.now.digests (D.state disk.old).files (b ∷ []) most (O.state out.old) page.old (O.state out.new)) }
    ensures faults { IfErr result IsCopyFault }
    ensures still { result ≢ Err GetFault.WriteFault → (O.state out.new).faults ≡ (O.state out.old).faults }
    ensures reads { OnlyReads D.reveals (result ≡ Err GetFault.DiskFault) (D.state disk.old) (D.state disk.new) }
{
    match payloads.get_one(ledger, disk, b) {
        Ok(()) => (),
        Err(CellFault::Damaged { block }) => return Err(GetFault::Damaged { block }),
        Err(CellFault::DiskFault) => return Err(GetFault::DiskFault),
    }
    match print(out, page, front(payloads.payload(), most)) {
        Ok(()) => Ok(()),
        Err(_) => Err(GetFault::WriteFault),
    }
}

// How many bytes are left of so many where one block more was copied.
fn left_behind(most: u64, size: u32) -> u64
    ensures { result ≡ most - size }
{
    most.saturating_sub(u64::from(size))
}

// Prints the payloads of the blocks, of them the first bytes, at most so many.
fn copy_blocks<D: Disk, O: Sink>(
    payloads: &mut CellReader<'_>,
    ledger: &Ledger,
    disk: &mut D,
    mut blocks: DataBlocks<'_>,
    most: u64,
    page: &mut Page,
    out: &mut O,
) -> Result<(), GetFault>
    requires buffer { length payloads.old.cell.now ≡ cell_size ledger.now.shape }
    requires inside { All (HasBlock ledger.now.lattice) blocks }
    ensures copied { OnOk result (HasCopied (IsPayload D.reveals ledger.now.shape ledger.now.digests (D.state disk.old).files) blocks.entry most (O.state out.old) page.old (O.state out.new) page.new) }
    ensures broken { IfErr result (HasBroken D.reveals ledger.now.shape ledger.now.digests (D.state disk.old).files blocks.entry most (O.state out.old) page.old (O.state out.new)) }
    ensures faults { IfErr result IsCopyFault }
    ensures still { result ≢ Err GetFault.WriteFault → (O.state out.new).faults ≡ (O.state out.old).faults }
    ensures reads { OnlyReads D.reveals (result ≡ Err GetFault.DiskFault) (D.state disk.old) (D.state disk.new) }
{
    let size = ledger.shape().block();
    let mut left = most;
    while let Some(b) = blocks.next() {
        match copy_block(payloads, ledger, disk, b, left, page, out) {
            Ok(()) => (),
            Err(fault) => return Err(fault),
        }
        left = left_behind(left, size);
    }
    Ok(())
}

/// Appends the payloads of the data blocks of the object under the name, one after the other and cut to so many bytes, through
/// a page without bytes, and flushes. It reads each cell once, into the buffer, which has the bytes of a cell, B + 48. It is the
/// second pass of `aea_fetch`, which does not say what it takes from the output's space.
pub(crate) fn send_blocks<D: Disk, O: Sink>(
    disk: &mut D,
    ledger: &Ledger,
    name: &[u8],
    most: u64,
    cell: &mut [u8],
    page: &mut Page,
    out: &mut O,
) -> Result<(), GetFault>
    requires buffer { length cell.old ≡ cell_size ledger.now.shape }
    requires empty { page.old ≡ [] }
    ensures copied { OnOk result (HasCopied (IsPayload D.reveals ledger.now.shape ledger.now.digests (D.state disk.old).files) (data_under (get ledger.now.objects name.now)) most (O.state out.old) [] (O.state out.new) []) }
    ensures broken { IfErr result (HasBroken D.reveals ledger.now.shape ledger.now.digests (D.state disk.old).files (data_under (get ledger.now.objects name.now)) most (O.state out.old) [] (O.state out.new)) }
    ensures faults { IfErr result IsCopyFault }
    ensures still { result ≢ Err GetFault.WriteFault → (O.state out.new).faults ≡ (O.state out.old).faults }
    ensures flushed { OnOk result (IsFlushed (O.state out.new)) }
    ensures reads { OnlyReads D.reveals (result ≡ Err GetFault.DiskFault) (D.state disk.old) (D.state disk.new) }
{
    let blocks = DataBlocks::new(ledger, name);
    let mut payloads = CellReader { cell };
    match copy_blocks(&mut payloads, ledger, disk, blocks, most, page, out) {
        Ok(()) => (),
        Err(fault) => return Err(fault),
    }
    match finish(out, page) {
        Ok(()) => Ok(()),
        Err(_) => Err(GetFault::WriteFault),
    }
}
