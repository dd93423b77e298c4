//! Bytes that join an upload, and the blocks that they fill.

ghost use Rattle.std.specs.Prelude.{◌≡◌, ◌≢◌, ◌+◌, ◌-◌, ◌*◌, ◌^◌, ◌<◌, ◌≤◌, ◌++◌, ℕ, length, take, min, IfOk, IfErr, OnOk};
ghost use Rattle.aea_lattice.specs.Profile.{greatest_nodes};
ghost use Rattle.aea_shelf.specs.Places.{cell_size};
ghost use Rattle.aea_shelf.specs.Writes.{KeepsPadded};
ghost use Rattle.aea_archive.specs.Blocks.{IsBlockIn};
ghost use Rattle.aea_archive.specs.Cells.{WritesCells};
ghost use Rattle.aea_append.specs.Weaving.{IsStopping};
ghost use Rattle.aea_uploads.specs.Slots.{KeepsSome};
ghost use Rattle.aea_uploads.specs.Gathering.{Gathers};

use crate::runs::push_node;
use crate::slot::Slot;
use aea_append::{PutFault, weave_node};
use aea_disk::Disk;
use aea_lattice::Shape;
use aea_weave::Heads;
use sha2::Digest;

// Puts the first of the bytes after the slot's rest, as many as the block holds. Returns how many.
fn fill_rest(slot: &mut Slot, bytes: &[u8]) -> usize
    requires less { slot.old.have ≤ length slot.old.block.items }
    ensures count { result ≡ min (length slot.old.block.items - slot.old.have) (length bytes.now) }
    ensures have { slot.new.have ≡ slot.old.have + result }
    ensures filled { take slot.new.have slot.new.block.items ≡ take slot.old.have slot.old.block.items ++ take result bytes.now }
    ensures long { length slot.new.block.items ≡ length slot.old.block.items }
    ensures name { slot.new.name ≡ slot.old.name }
    ensures parts { slot.new.parts.items ≡ slot.old.parts.items }
    ensures length { slot.new.length ≡ slot.old.length }
    ensures hasher { slot.new.hasher ≡ slot.old.hasher }
{
    let free = slot.block.len() - slot.have;
    let count = free.min(bytes.len());
    let end = slot.have + count;
    slot.block[slot.have..end].copy_from_slice(&bytes[..count]);
    slot.have = end;
    count
}

// Lets the first of the bytes join the upload, as many as fill its block, and weaves this where it is full. Returns how many
// they were.
fn gather<D: Disk>(
    disk: &mut D,
    shape: &Shape,
    heads: &mut Heads,
    digests: &mut Vec<[u8; 32]>,
    slot: &mut Slot,
    cell: &mut [u8],
    bytes: &[u8],
) -> Result<usize, PutFault>
    requires alpha { heads.old.lattice.alpha ≡ shape.now.alpha }
    requires size { heads.old.size ≡ shape.now.block }
    requires keeps { KeepsSome shape.now heads.old.lattice.n slot.old }
    requires fits { shape.now.block ≤ slot.old.have + length bytes.now → heads.old.lattice.n + 1 ≤ greatest_nodes }
    requires small { slot.old.length + length bytes.now < 2 ^ 64 }
    requires buffer { length cell.old ≡ cell_size shape.now }
    ensures count { IfOk result (λ k. k ≡ min (shape.now.block - slot.old.have) (length bytes.now)) }
    ensures gathers { IfOk result (λ k. Gathers D.reveals shape.now (take k bytes.now) heads.old heads.new slot.old slot.new digests.old.items digests.new.items (D.state disk.old).files (D.state disk.new).files) }
    ensures writes { (nodes : ℕ) → (shape.now.block ≤ slot.old.have + length bytes.now → heads.old.lattice.n + 1 ≤ nodes) → WritesCells D.reveals shape.now nodes (λ a. a.node ≢ heads.old.lattice.n + 1) (result ≡ Err PutFault.DiskFault) (D.state disk.old) (D.state disk.new) }
    ensures padded { result ≢ Err PutFault.DiskFault → D.reveals → KeepsPadded shape.now (λ a. a.node ≢ heads.old.lattice.n + 1) (D.state disk.old).files (D.state disk.new).files }
    ensures faults { IfErr result IsStopping }
{
    let size = shape.block() as usize;
    let count = fill_rest(slot, bytes);
    slot.hasher.update(&bytes[..count]);
    slot.length += count as u64;
    if slot.have < size {
        return Ok(count);
    }
    match push_node(&mut slot.parts, heads.next_node()) {
        Ok(()) => (),
        Err(_) => return Err(PutFault::NoMemory),
    }
    match weave_node(disk, shape, heads, slot.block.as_slice(), cell, digests) {
        Ok(()) => (),
        Err(fault) => return Err(fault),
    }
    slot.have = 0;
    Ok(count)
}

/// Lets all of the bytes join the upload, and weaves each block that they fill, in order, at the nodes that come next; the rest
/// stays at the front of the slot's block. The buffer has the bytes of a cell, B + 48. The digests of the new blocks are put
/// after the others, in number order, and nothing is synced. For each block it takes memory for its digests, 32 bytes each, and
/// for a part, 8 bytes, where its node does not go on from the last one; both in lists that grow by doubling. After a fault of
/// the disk, or want of memory, the slot, the heads and the digests are of no use.
pub fn gather_all<D: Disk>(
    disk: &mut D,
    shape: &Shape,
    heads: &mut Heads,
    digests: &mut Vec<[u8; 32]>,
    slot: &mut Slot,
    cell: &mut [u8],
    bytes: &[u8],
) -> Result<(), PutFault>
    requires alpha { heads.old.lattice.alpha ≡ shape.now.alpha }
    requires size { heads.old.size ≡ shape.now.block }
    requires keeps { KeepsSome shape.now heads.old.lattice.n slot.old }
    requires fits { heads.old.lattice.n * shape.now.block + slot.old.have + length bytes.now < (greatest_nodes + 1) * shape.now.block }
    requires small { slot.old.length + length bytes.now < 2 ^ 64 }
    requires buffer { length cell.old ≡ cell_size shape.now }

    // The bytes joined what the slot keeps, and their blocks were woven.
    ensures gathers { OnOk result (Gathers D.reveals shape.now bytes.now heads.old heads.new slot.old slot.new digests.old.items digests.new.items (D.state disk.old).files (D.state disk.new).files) }

    // Cells of new nodes alone are written.
    ensures writes { (nodes : ℕ) → heads.old.lattice.n * shape.now.block + slot.old.have + length bytes.now < (nodes + 1) * shape.now.block → WritesCells D.reveals shape.now nodes (IsBlockIn shape.now heads.old.lattice.n) (result ≡ Err PutFault.DiskFault) (D.state disk.old) (D.state disk.new) }
    ensures padded { result ≢ Err PutFault.DiskFault → D.reveals → KeepsPadded shape.now (IsBlockIn shape.now heads.old.lattice.n) (D.state disk.old).files (D.state disk.new).files }
    ensures faults { IfErr result IsStopping }
{
    let mut done: usize = 0;
    while done < bytes.len() {
        let count = match gather(disk, shape, heads, digests, slot, cell, &bytes[done..]) {
            Ok(count) => count,
            Err(fault) => return Err(fault),
        };
        done += count;
    }
    Ok(())
}
