//! Nodes that are woven, and their cells.

ghost use Rattle.std.specs.Prelude.{◌≡◌, ◌≢◌, ◌+◌, ◌≤◌, [], ◌∷◌, ◌++◌, ℕ, List, length, map, filter, nat_le, IfErr, OnOk};
ghost use Rattle.aea_lattice.specs.declared.blocks.Class.{Class};
ghost use Rattle.aea_lattice.specs.declared.grid.Lattice.{Lattice};
ghost use Rattle.aea_lattice.specs.Blocks.{block_of, class_number, classes};
ghost use Rattle.aea_lattice.specs.Growth.{IsGrown};
ghost use Rattle.aea_lattice.specs.Profile.{greatest_nodes};
ghost use Rattle.aea_lattice.specs.Shapes.{IsBlockOf};
ghost use Rattle.aea_lattice.specs.Strands.{strand_of};
ghost use Rattle.aea_disk.specs.Files.{Files};
ghost use Rattle.aea_envelope.specs.Cells.{block_digest, cell_of};
ghost use Rattle.aea_shelf.specs.Places.{cell_size, HasAtHome};
ghost use Rattle.aea_shelf.specs.Writes.{KeepsPadded};
ghost use Rattle.aea_weave.specs.Woven.{head_of};
ghost use Rattle.aea_archive.specs.Cells.{WritesCells};
ghost use Rattle.aea_append.specs.Weaving.{last_payload, last_digest, AreLastAtHome, HasWoven, IsWovenOf, AreIntactOn, IsStopping};

use crate::fault::PutFault;
use aea_disk::Disk;
use aea_envelope::{cells_have_lengths, cells_have_parts};
use aea_lattice::{BlockId, Class, Shape, lasts_enter};
use aea_shelf::{cells_are_apart, homes_are_in_rows, homes_are_on_its_sites, write_cell};
use aea_weave::{Heads, longer_data_keep_values};

// Writes the cell of a block, and keeps its digest.
fn write_block<D: Disk>(
    disk: &mut D,
    shape: &Shape,
    b: BlockId,
    payload: &[u8],
    cell: &mut [u8],
    digests: &mut Vec<[u8; 32]>,
) -> Result<(), PutFault>
    requires block { IsBlockOf shape.now b }
    requires payload { length payload.now ≡ shape.now.block }
    requires buffer { length cell.old ≡ cell_size shape.now }
    ensures digest { OnOk result (digests.new.items ≡ digests.old.items ++ block_digest b payload.now ∷ []) }
    ensures home { OnOk result (D.reveals → HasAtHome shape.now b (cell_of b payload.now) (D.state disk.new).files) }
    ensures writes { (nodes : ℕ) → b.node ≤ nodes → WritesCells D.reveals shape.now nodes (λ a. a ≢ b) (result ≡ Err PutFault.DiskFault) (D.state disk.old) (D.state disk.new) }
    ensures padded { result ≢ Err PutFault.DiskFault → D.reveals → KeepsPadded shape.now (λ a. a ≢ b) (D.state disk.old).files (D.state disk.new).files }
    ensures faults { IfErr result IsStopping }
{
    cells_are_apart();
    homes_are_in_rows();
    homes_are_on_its_sites();
    let digest = write_cell(disk, shape, b, payload, cell)?;
    match digests.push(digest) {
        Ok(()) => Ok(()),
        Err(_) => Err(PutFault::NoMemory),
    }
}

// Writes the cell of the last node's parity of a class, where the lattice has parities of it.
fn write_parity<D: Disk>(
    disk: &mut D,
    shape: &Shape,
    heads: &Heads,
    class: Class,
    cell: &mut [u8],
    digests: &mut Vec<[u8; 32]>,
) -> Result<(), PutFault>
    requires alpha { heads.now.lattice.alpha ≡ shape.now.alpha }
    requires size { heads.now.size ≡ shape.now.block }
    requires node { 1 ≤ heads.now.lattice.n }
    requires class { 1 ≤ class_number class }
    requires buffer { length cell.old ≡ cell_size shape.now }
    ensures digest { (datum : List ℕ) → OnOk result (digests.new.items ≡ digests.old.items ++ map (last_digest heads.now datum) (filter (λ c. nat_le (class_number c) heads.now.lattice.alpha) (class ∷ []))) }
    ensures home { OnOk result (D.reveals → class_number class ≤ shape.now.alpha → (datum : List ℕ) → HasAtHome shape.now (block_of heads.now.lattice.n class) (cell_of (block_of heads.now.lattice.n class) (last_payload heads.now datum class)) (D.state disk.new).files) }
    ensures wide { class_number class ≤ shape.now.alpha → length (head_of heads.now class (strand_of heads.now.lattice class heads.now.lattice.n)) ≡ shape.now.block }
    ensures writes { (nodes : ℕ) → heads.now.lattice.n ≤ nodes → WritesCells D.reveals shape.now nodes (λ a. a ≢ block_of heads.now.lattice.n class) (result ≡ Err PutFault.DiskFault) (D.state disk.old) (D.state disk.new) }
    ensures padded { result ≢ Err PutFault.DiskFault → D.reveals → KeepsPadded shape.now (λ a. a ≢ block_of heads.now.lattice.n class) (D.state disk.old).files (D.state disk.new).files }
    ensures faults { IfErr result IsStopping }
{
    if class as u8 > shape.alpha() {
        return Ok(());
    }
    let node = heads.next_node() - 1;
    write_block(
        disk,
        shape,
        BlockId { node, class },
        heads.parity(class),
        cell,
        digests,
    )
}

// Writes the cells of the last node that was woven, whose datum this is.
fn write_node<D: Disk>(
    disk: &mut D,
    shape: &Shape,
    heads: &Heads,
    datum: &[u8],
    cell: &mut [u8],
    digests: &mut Vec<[u8; 32]>,
) -> Result<(), PutFault>
    requires alpha { heads.now.lattice.alpha ≡ shape.now.alpha }
    requires size { heads.now.size ≡ shape.now.block }
    requires node { 1 ≤ heads.now.lattice.n }
    requires datum { length datum.now ≡ shape.now.block }
    requires buffer { length cell.old ≡ cell_size shape.now }
    ensures digests { OnOk result (digests.new.items ≡ digests.old.items ++ map (last_digest heads.now datum.now) (Class.Datum ∷ classes heads.now.lattice)) }
    ensures cells { OnOk result (D.reveals → AreLastAtHome shape.now heads.now datum.now (D.state disk.new).files) }
    ensures wide { OnOk result ((c : Class) → class_number c ≤ shape.now.alpha → length (last_payload heads.now datum.now c) ≡ shape.now.block) }
    ensures writes { (nodes : ℕ) → heads.now.lattice.n ≤ nodes → WritesCells D.reveals shape.now nodes (λ a. a.node ≢ heads.now.lattice.n) (result ≡ Err PutFault.DiskFault) (D.state disk.old) (D.state disk.new) }
    ensures padded { result ≢ Err PutFault.DiskFault → D.reveals → KeepsPadded shape.now (λ a. a.node ≢ heads.now.lattice.n) (D.state disk.old).files (D.state disk.new).files }
    ensures faults { IfErr result IsStopping }
{
    cells_have_lengths();
    let node = heads.next_node() - 1;
    let b = BlockId {
        node,
        class: Class::Datum,
    };
    match write_block(disk, shape, b, datum, cell, digests) {
        Ok(()) => (),
        Err(fault) => return Err(fault),
    }
    match write_parity(disk, shape, heads, Class::Horiz, cell, digests) {
        Ok(()) => (),
        Err(fault) => return Err(fault),
    }
    match write_parity(disk, shape, heads, Class::Right, cell, digests) {
        Ok(()) => (),
        Err(fault) => return Err(fault),
    }
    write_parity(disk, shape, heads, Class::Left, cell, digests)
}

/// Weaves one more node, and writes its cells. The datum has the B bytes of a block, and the buffer those of a cell, B + 48. The
/// digests of its blocks are put after the others, in number order, and nothing is synced. It takes memory for these digests
/// alone, in a list that grows by doubling. After a fault the heads have the node, and the cells and digests are of no use.
pub fn weave_node<D: Disk>(
    disk: &mut D,
    shape: &Shape,
    heads: &mut Heads,
    datum: &[u8],
    cell: &mut [u8],
    digests: &mut Vec<[u8; 32]>,
) -> Result<(), PutFault>
    requires alpha { heads.old.lattice.alpha ≡ shape.now.alpha }
    requires size { heads.old.size ≡ shape.now.block }
    requires node { heads.old.lattice.n + 1 ≤ greatest_nodes }
    requires datum { length datum.now ≡ shape.now.block }
    requires buffer { length cell.old ≡ cell_size shape.now }
    ensures woven { OnOk result ((l : Lattice) (recorded : List (List ℕ)) (first : Files) (datas : List (List ℕ))
        → HasWoven D.reveals shape.now l recorded first (D.state disk.old).files heads.old datas digests.old.items
        → HasWoven D.reveals shape.now l recorded first (D.state disk.new).files heads.new (datas ++ datum.now ∷ []) digests.new.items) }

    // Of a data list, the heads go on to be its strand sums, and the digests those of its lattice.
    ensures values { OnOk result ((l : Lattice) (datas more : List (List ℕ)) → IsWovenOf shape.now l heads.old datas more digests.old.items → IsWovenOf shape.now l heads.new datas (more ++ datum.now ∷ []) digests.new.items) }

    // Blocks that are intact by the digests stay so, and those of the new node are.
    ensures intact { OnOk result ((before : ℕ) → before ≤ heads.old.lattice.n → AreIntactOn D.reveals shape.now before heads.old.lattice.n digests.old.items (D.state disk.old).files
        → AreIntactOn D.reveals shape.now before heads.new.lattice.n digests.new.items (D.state disk.new).files) }
    ensures grown { IsGrown heads.old.lattice (heads.old.lattice.n + 1) heads.new.lattice }
    ensures size { heads.new.size ≡ heads.old.size }
    ensures writes { (nodes : ℕ) → heads.old.lattice.n + 1 ≤ nodes → WritesCells D.reveals shape.now nodes (λ a. a.node ≢ heads.old.lattice.n + 1) (result ≡ Err PutFault.DiskFault) (D.state disk.old) (D.state disk.new) }
    ensures padded { result ≢ Err PutFault.DiskFault → D.reveals → KeepsPadded shape.now (λ a. a.node ≢ heads.old.lattice.n + 1) (D.state disk.old).files (D.state disk.new).files }
    ensures faults { IfErr result IsStopping }
{
    cells_have_lengths();
    cells_have_parts();
    lasts_enter();
    longer_data_keep_values();
    heads.step(datum);
    match write_node(disk, shape, heads, datum, cell, digests) {
        Ok(()) => Ok(()),
        Err(fault) => Err(fault),
    }
}
