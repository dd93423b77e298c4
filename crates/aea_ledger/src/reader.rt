// A reader of a ledger, which goes from gate to gate.

ghost use Rattle.std.specs.Prelude.{◌≡◌, ◌+◌, ◌*◌, ◌^◌, ◌<◌, ◌≤◌, List, ℕ, length, false, IsTrue, IfOk, IfErr, OnOk, Err};
ghost use Rattle.std.specs.List.{sum_by};
ghost use Rattle.aea_lattice.specs.Profile.{greatest_nodes};
ghost use Rattle.aea_lattice.specs.Fences.{greatest_fences, last_fence};
ghost use Rattle.aea_lattice.specs.Growth.{IsGrown, IsFenced};
ghost use Rattle.aea_records.specs.Tables.{bytes_at};
ghost use Rattle.aea_records.specs.Catalogued.{first_of};
ghost use Rattle.aea_disk.specs.Frames.{OnlyReads};
ghost use Rattle.aea_ledger.specs.Readings.{IsReading, IsWhole, IsAtHead, IsBadAsSaid};

use crate::input::{Input, read_digests, read_parts};
use crate::open::OpenFault;
use aea_catalog::{Catalog, Extent, ObjectRef};
use aea_disk::Disk;
use aea_lattice::{Lattice, Shape};
use aea_records::{
    Found, HeadFields, ObjectFields, are_parts, gate_in, new_names_are_free, readers_know,
    records_are_few, tails_are_judged, tails_are_spelled,
};
use std::alloc::{AllocError, Global};

// The most bytes of a gate and the head after it.
const HEAD: usize = 315;

// What was read up to a gate: the nodes and fences of the lattice, the objects, whether the limit was raised, and the
// digests of all blocks.
#[derive(Drop)]
pub(crate) struct Reader {
    pub(crate) input: Input,
    pub(crate) shape: Shape,
    pub(crate) lattice: Lattice,
    pub(crate) catalog: Catalog,
    pub(crate) raised: bool,
    pub(crate) digests: Vec<[u8; 32]>,
}

// The lattice with so many more nodes.
pub(crate) fn more_nodes(lattice: &Lattice, count: u32) -> Lattice
    requires { lattice.now.n + count ≤ greatest_nodes }
    ensures { IsGrown lattice.now (lattice.now.n + count) result }
{
    let Some(lattice) = lattice.grown(lattice.n() + count) else {
        unreachable!();
    };
    lattice
}

// The lattice with a fence after its last node.
fn with_fence(lattice: &Lattice) -> Lattice
    requires before { last_fence lattice.now.fences < lattice.now.n }
    requires few { length lattice.now.fences < greatest_fences }
    ensures { IsFenced lattice.now result }
{
    let Some(lattice) = lattice.fenced() else {
        unreachable!();
    };
    lattice
}

// The name of this length after a head's first fields.
fn name_in(alloc: Global, input: &Input, long: usize) -> Result<Vec<u8>, AllocError>
    requires long { long ≤ 255 }
    requires there { 8 + long ≤ length input.now.cursor.bytes }
    ensures { IfOk result (λ name. name.items ≡ bytes_at long 8 input.now.cursor.bytes) }
{
    let window = input.cursor.window(8 + long);
    Vec::from_slice(alloc, &window[8..8 + long])
}

// How many blocks so many nodes have.
fn blocks_of(shape: &Shape, nodes: u32) -> usize
    requires { nodes ≤ 1048576 }
    ensures value { result ≡ nodes * (1 + shape.now.alpha) }
    ensures few { result ≤ 4194304 }
{
    nodes as usize * (1 + usize::from(shape.alpha()))
}

// What is kept of an object whose nodes are all new.
pub(crate) fn object_ref(object: &ObjectFields) -> ObjectRef
    ensures { result ≡ record { first = object.now.first; count = object.now.count; length = object.now.size; digest = object.now.digest } }
{
    let digest = object.digest;
    ObjectRef {
        first: object.first,
        count: object.count,
        length: object.size,
        digest,
    }
}

// How many nodes the parts have.
fn total(parts: &[Extent]) -> u32
    requires { sum_by (λ e. e.count) parts.now < 2 ^ 32 }
    ensures { result ≡ sum_by (λ e. e.count) parts.now }
{
    let mut sum = 0u32;
    for part in parts {
        sum += part.count;
    }
    sum
}

// What is kept of an object in parts.
pub(crate) fn joined_ref(object: &ObjectFields, parts: &[Extent]) -> ObjectRef
    requires { sum_by (λ e. e.count) parts.now < 2 ^ 32 }
    ensures { result ≡ record { first = first_of parts.now; count = sum_by (λ e. e.count) parts.now; length = object.now.size; digest = object.now.digest } }
{
    let digest = object.digest;
    let first = match parts.first() {
        Some(part) => part.first,
        None => 0,
    };
    ObjectRef {
        first,
        count: total(parts),
        length: object.size,
        digest,
    }
}

impl Reader {
    // Reads the record of an object whose nodes are all new, at whose head the reader is.
    fn read_alone<D: Disk>(
        &mut self,
        disk: &mut D,
        object: &ObjectFields,
        bytes: u32,
    ) -> Result<(), OpenFault>
        requires range { self.old.input.cursor.place ≤ 2 ^ 45 }
        requires stands { IsAtHead D.reveals ((D.state disk.old).files 0) self.old (record { bytes = bytes; fields = HeadFields.Alone object.now }) }
        ensures more { OnOk result (IsReading D.reveals ((D.state disk.old).files 0) self.new) }
        ensures on { OnOk result (self.old.input.cursor.place < self.new.input.cursor.place) }
        ensures bad { IfErr result (λ fault. D.reveals → IsBadAsSaid ((D.state disk.old).files 0) fault) }
        ensures reads { OnlyReads D.reveals (result ≡ Err OpenFault.DiskFault) (D.state disk.old) (D.state disk.new) }
    {
        new_names_are_free();
        tails_are_judged();
        tails_are_spelled();
        let gate = self.input.cursor.place();
        let end = 8 + object.long + 8 + 32 + 4 + 4;
        let name = name_in(*self.digests.allocator(), &self.input, object.long)?;
        self.input.pass(end);
        let count = blocks_of(&self.shape, object.count);
        if !read_digests(&mut self.input, disk, count, &mut self.digests)? {
            return Err(OpenFault::LedgerBad {
                at: gate + end as u64,
            });
        }
        if u64::from(bytes) != 50 + object.long as u64 + 32 * count as u64 {
            return Err(OpenFault::LedgerBad { at: gate + 2 });
        }
        self.catalog.reserve()?;
        self.catalog.insert_owned(name, object_ref(object));
        self.lattice = more_nodes(&self.lattice, object.count);
        Ok(())
    }

    // Reads the record of an object in so many parts, at whose head the reader is.
    fn read_joined<D: Disk>(
        &mut self,
        disk: &mut D,
        object: &ObjectFields,
        parts: u32,
        bytes: u32,
    ) -> Result<(), OpenFault>
        requires range { self.old.input.cursor.place ≤ 2 ^ 45 }
        requires stands { IsAtHead D.reveals ((D.state disk.old).files 0) self.old (record { bytes = bytes; fields = HeadFields.InParts object.now parts }) }
        ensures more { OnOk result (IsReading D.reveals ((D.state disk.old).files 0) self.new) }
        ensures on { OnOk result (self.old.input.cursor.place < self.new.input.cursor.place) }
        ensures bad { IfErr result (λ fault. D.reveals → IsBadAsSaid ((D.state disk.old).files 0) fault) }
        ensures reads { OnlyReads D.reveals (result ≡ Err OpenFault.DiskFault) (D.state disk.old) (D.state disk.new) }
    {
        new_names_are_free();
        tails_are_judged();
        tails_are_spelled();
        let gate = self.input.cursor.place();
        let end = 8 + object.long + 8 + 32 + 4 + 4 + 4;
        let alloc = *self.digests.allocator();
        let name = name_in(alloc, &self.input, object.long)?;
        self.input.pass(end);
        let mut extents = Vec::new(alloc);
        if !read_parts(&mut self.input, disk, parts as usize, &mut extents)? {
            return Err(OpenFault::LedgerBad {
                at: gate + end as u64,
            });
        }
        if !are_parts(
            &self.shape,
            object.size,
            self.lattice.n + object.count,
            &extents,
        ) {
            return Err(OpenFault::LedgerBad {
                at: gate + end as u64,
            });
        }
        let count = blocks_of(&self.shape, object.count);
        if !read_digests(&mut self.input, disk, count, &mut self.digests)? {
            return Err(OpenFault::LedgerBad {
                at: gate + end as u64 + 8 * u64::from(parts),
            });
        }
        if u64::from(bytes) != 54 + 8 * u64::from(parts) + object.long as u64 + 32 * count as u64 {
            return Err(OpenFault::LedgerBad { at: gate + 2 });
        }
        self.catalog.reserve()?;
        self.catalog
            .insert_parts_owned(name, joined_ref(object, &extents), extents);
        self.lattice = more_nodes(&self.lattice, object.count);
        Ok(())
    }

    // Reads the record at whose head the reader is.
    fn read_record<D: Disk>(&mut self, disk: &mut D, found: &Found) -> Result<(), OpenFault>
        requires range { self.old.input.cursor.place ≤ 2 ^ 45 }
        requires stands { IsAtHead D.reveals ((D.state disk.old).files 0) self.old found.now }
        ensures more { OnOk result (IsReading D.reveals ((D.state disk.old).files 0) self.new) }
        ensures on { OnOk result (self.old.input.cursor.place < self.new.input.cursor.place) }
        ensures bad { IfErr result (λ fault. D.reveals → IsBadAsSaid ((D.state disk.old).files 0) fault) }
        ensures reads { OnlyReads D.reveals (result ≡ Err OpenFault.DiskFault) (D.state disk.old) (D.state disk.new) }
    {
        tails_are_judged();
        tails_are_spelled();
        let gate = self.input.cursor.place();
        match found.fields {
            HeadFields::Alone(object) => self.read_alone(disk, &object, found.bytes),
            HeadFields::InParts(object, parts) => {
                self.read_joined(disk, &object, parts, found.bytes)
            }
            HeadFields::Fenced(_) => {
                if found.bytes != 4 {
                    return Err(OpenFault::LedgerBad { at: gate + 2 });
                }
                self.lattice = with_fence(&self.lattice);
                self.input.pass(10);
                Ok(())
            }
            HeadFields::Raised => {
                if found.bytes != 4 {
                    return Err(OpenFault::LedgerBad { at: gate + 2 });
                }
                self.raised = true;
                self.input.pass(10);
                Ok(())
            }
        }
    }

    // Reads a gate and the record after it, if it is open: it says whether it was.
    fn read_gate<D: Disk>(&mut self, disk: &mut D) -> Result<bool, OpenFault>
        requires reading { IsReading D.reveals ((D.state disk.old).files 0) self.old }
        ensures more { IfOk result (λ more. IsTrue more → IsReading D.reveals ((D.state disk.old).files 0) self.new) }
        ensures on { IfOk result (λ more. IsTrue more → (self.old.input.cursor.place < self.new.input.cursor.place) × (self.old.input.cursor.place ≤ 2 ^ 45)) }
        ensures last { IfOk result (λ more. more ≡ false → IsWhole D.reveals ((D.state disk.old).files 0) self.new) }
        ensures bad { IfErr result (λ fault. D.reveals → IsBadAsSaid ((D.state disk.old).files 0) fault) }
        ensures reads { OnlyReads D.reveals (result ≡ Err OpenFault.DiskFault) (D.state disk.old) (D.state disk.new) }
    {
        records_are_few();
        readers_know();
        let size = self.input.cursor.fill(disk, HEAD)?;
        match gate_in(
            &self.shape,
            &self.lattice,
            &self.catalog,
            self.raised,
            self.input.cursor.window(size),
        ) {
            Err(at) => Err(OpenFault::LedgerBad {
                at: self.input.cursor.place() + at,
            }),
            Ok(None) => Ok(false),
            Ok(Some(found)) => {
                self.read_record(disk, &found)?;
                Ok(true)
            }
        }
    }

    // Reads all records that are left.
    pub(crate) fn read_all<D: Disk>(&mut self, disk: &mut D) -> Result<(), OpenFault>
        requires reading { IsReading D.reveals ((D.state disk.old).files 0) self.old }
        ensures whole { OnOk result (IsWhole D.reveals ((D.state disk.old).files 0) self.new) }
        ensures bad { IfErr result (λ fault. D.reveals → IsBadAsSaid ((D.state disk.old).files 0) fault) }
        ensures reads { OnlyReads D.reveals (result ≡ Err OpenFault.DiskFault) (D.state disk.old) (D.state disk.new) }
    {
        'gates: loop {
            if !self.read_gate(disk)? {
                return Ok(());
            }
        }
    }
}
