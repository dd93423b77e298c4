//! The last block of an upload.

ghost use Rattle.std.specs.Prelude.{◌≡◌, ◌≢◌, ◌+◌, ◌-◌, ◌≤◌, ◌++◌, ℕ, length, take, replicate, IfErr, OnOk};
ghost use Rattle.aea_lattice.specs.Profile.{greatest_nodes};
ghost use Rattle.aea_shelf.specs.Places.{cell_size};
ghost use Rattle.aea_shelf.specs.Writes.{KeepsPadded};
ghost use Rattle.aea_archive.specs.Cells.{WritesCells};
ghost use Rattle.aea_append.specs.Weaving.{IsStopping};
ghost use Rattle.aea_uploads.specs.Slots.{KeepsSome};
ghost use Rattle.aea_uploads.specs.Gathering.{Finishes};

use crate::runs::push_node;
use crate::slot::Slot;
use aea_append::{PutFault, weave_node};
use aea_disk::Disk;
use aea_lattice::Shape;
use aea_weave::Heads;

// Fills the block after the rest with zeros.
fn pad_rest(slot: &mut Slot)
    requires less { slot.old.have ≤ length slot.old.block.items }
    ensures filled { slot.new.block.items ≡ take slot.old.have slot.old.block.items ++ replicate (length slot.old.block.items - slot.old.have) 0 }
    ensures long { length slot.new.block.items ≡ length slot.old.block.items }
    ensures name { slot.new.name ≡ slot.old.name }
    ensures parts { slot.new.parts.items ≡ slot.old.parts.items }
    ensures length { slot.new.length ≡ slot.old.length }
    ensures hasher { slot.new.hasher ≡ slot.old.hasher }
{
    slot.block[slot.have..].fill(0);
}

/// Fills the rest of an upload with zeros and weaves it as its last block, where it has a rest. The buffer has the bytes of a
/// cell, B + 48. The digests of its blocks are put after the others, in number order, and nothing is synced. It takes memory for
/// these digests, 32 bytes each, and for a part, 8 bytes, where the node does not go on from the last one; both in lists that
/// grow by doubling. After a fault of the disk, or want of memory, the slot, the heads and the digests are of no use.
pub fn finish_rest<D: Disk>(
    disk: &mut D,
    shape: &Shape,
    heads: &mut Heads,
    digests: &mut Vec<[u8; 32]>,
    slot: &mut Slot,
    cell: &mut [u8],
) -> Result<(), PutFault>
    requires alpha { heads.old.lattice.alpha ≡ shape.now.alpha }
    requires size { heads.old.size ≡ shape.now.block }
    requires keeps { KeepsSome shape.now heads.old.lattice.n slot.old }
    requires fits { 1 ≤ slot.old.have → heads.old.lattice.n + 1 ≤ greatest_nodes }
    requires buffer { length cell.old ≡ cell_size shape.now }
    ensures finishes { OnOk result (Finishes D.reveals shape.now heads.old heads.new slot.old slot.new digests.old.items digests.new.items (D.state disk.old).files (D.state disk.new).files) }
    ensures writes { (nodes : ℕ) → (1 ≤ slot.old.have → heads.old.lattice.n + 1 ≤ nodes) → WritesCells D.reveals shape.now nodes (λ a. a.node ≢ heads.old.lattice.n + 1) (result ≡ Err PutFault.DiskFault) (D.state disk.old) (D.state disk.new) }
    ensures padded { result ≢ Err PutFault.DiskFault → D.reveals → KeepsPadded shape.now (λ a. a.node ≢ heads.old.lattice.n + 1) (D.state disk.old).files (D.state disk.new).files }
    ensures faults { IfErr result IsStopping }
{
    if slot.have == 0 {
        return Ok(());
    }
    pad_rest(slot);
    match push_node(&mut slot.parts, heads.next_node()) {
        Ok(()) => (),
        Err(_) => return Err(PutFault::NoMemory),
    }
    match weave_node(disk, shape, heads, slot.block.as_slice(), cell, digests) {
        Ok(()) => Ok(()),
        Err(fault) => Err(fault),
    }
}
