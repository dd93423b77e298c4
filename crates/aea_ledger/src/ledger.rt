//! An opened ledger.

ghost use Rattle.std.specs.Prelude.{◌≡◌, ◌<◌, ◌≤◌, ◌+◌, true, false, slice_get, length, Some, List, ℕ};
ghost use Rattle.std.specs.FinMap.{len, get};
ghost use Rattle.aea_lattice.specs.Blocks.{blocks_count};
ghost use Rattle.aea_records.specs.Format.{greatest_objects, limit_when};
ghost use Rattle.aea_ledger.specs.Recorded.{IsLatticeOf};
ghost use Rattle.aea_ledger.specs.Values.{Opened, HasSomeRecords};
ghost use Rattle.aea_ledger.specs.Lying.{LieWithin};

use aea_catalog::Catalog;
use aea_lattice::{Lattice, Shape};
use aea_records::{
    digests_are_counted, objects_are_counted, objects_are_of_records, records_are_few,
};
use sha2::Sha256;
use std::marker::Model;

/// A ledger that was read whole: the shape of its archive, its objects by their names, and the digests of all blocks.
/// It takes 32 bytes of memory a block, and some 100 bytes and the name for each object.
#[derive(Drop)]
pub struct Ledger {
    pub(crate) shape: Shape,
    pub(crate) lattice: Lattice,
    pub(crate) catalog: Catalog,
    pub(crate) raised: bool,
    // those of all blocks, in number order
    pub(crate) digests: Vec<[u8; 32]>,
    // it has taken the bytes before the gate that ends the ledger
    pub(crate) hasher: Sha256,
    pub(crate) seal: [u8; 32],
    // the place of that gate
    pub(crate) end: u64,
    pub(crate) live: bool,
}

impl Model for Ledger {
    ghost use Rattle.aea_ledger.specs.Values.{Opened, opened_code, HasSomeRecords};

    ghost Value = { Opened };

    ghost coded = { opened_code };

    ghost view = { λ l. record { shape = l.shape; lattice = l.lattice; objects = l.catalog.objects; raised = l.raised; digests = l.digests.items; hasher = l.hasher; seal = l.seal; end = l.end; live = l.live } };

    ghost invariant = { λ l. HasSomeRecords (record { shape = l.shape; lattice = l.lattice; objects = l.catalog.objects; raised = l.raised; digests = l.digests.items; hasher = l.hasher; seal = l.seal; end = l.end; live = l.live }) };
}

impl Ledger {
    /// The shape of the archive.
    pub fn shape(&self) -> Shape
        ensures value { result ≡ self.now.shape }
        ensures records { HasSomeRecords self.now }
    {
        self.shape
    }

    /// The lattice of the archive: of its shape, with the nodes of all its objects, and its fences.
    pub fn lattice(&self) -> Lattice
        ensures value { result ≡ self.now.lattice }
        ensures of_shape { IsLatticeOf self.now.shape result.n result.fences result }
    {
        self.lattice
    }

    /// The objects of the archive. Their nodes are those of its lattice.
    pub fn catalog(&self) -> &Catalog
        ensures objects { result.now.objects ≡ self.now.objects }
        ensures few { len result.now.objects ≤ greatest_objects }
        ensures within { LieWithin self.now.shape self.now.lattice.n result.now.objects }
    {
        objects_are_counted();
        objects_are_of_records();
        records_are_few();
        &self.catalog
    }

    /// The most nodes that the archive may have.
    pub fn limit(&self) -> u32
        ensures value { result ≡ limit_when self.now.raised }
        ensures nodes { self.now.lattice.n ≤ result }
    {
        records_are_few();
        if self.raised { 1_048_576 } else { 65_536 }
    }

    /// Whether records may be added: after a fault of the disk while one was added, the ledger has to be opened anew.
    pub fn live(&self) -> bool
        ensures { result ≡ self.now.live }
    {
        self.live
    }

    /// The seal of the archive: the SHA-256 of the ledger's bytes before the gate that ends it.
    pub fn seal(&self) -> [u8; 32]
        ensures { result ≡ self.now.seal }
    {
        self.seal
    }

    /// The digest of the block with this number, which is that of the block's cell.
    pub fn digest(&self, k: u32) -> [u8; 32]
        requires { k < blocks_count self.now.lattice }
        ensures { slice_get self.now.digests k ≡ Some result }
    {
        digests_are_counted();
        self.digests[k as usize]
    }

    /// Lets no more records be added.
    pub fn retire(&mut self)
        ensures { self.new ≡ record self.old { live = false } }
    {
        self.live = false;
    }
}
