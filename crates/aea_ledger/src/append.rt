//! One more record.

ghost use Rattle.std.specs.Prelude.{◌≡◌, ◌≢◌, ◌⊎◌, ◌↔◌, ◌+◌, ◌*◌, ◌≤◌, ◌<◌, ◌^◌, [], ◌∷◌, ◌++◌, None, true, false, ℕ, List, length, vec_len, vec_capacity, option_map, IsTrue, All, IfOk, OnOk, IfSome};
ghost use Rattle.std.specs.List.{sum_by};
ghost use Rattle.std.specs.FinMap.{get, len};
ghost use Rattle.sha2.specs.Hashers.{Holds256};
ghost use Rattle.sha2.specs.Sha256.{sha256};
ghost use Rattle.aea_disk.specs.Files.{ChangesOnly};
ghost use Rattle.aea_disk.specs.State.{IsFixed, IsReady};
ghost use Rattle.aea_disk.specs.Frames.{OnlyWrites};
ghost use Rattle.aea_lattice.specs.Data.{IsBytes};
ghost use Rattle.aea_catalog.specs.Names.{IsName};
ghost use Rattle.aea_records.specs.TableLaws.{AreBytes};
ghost use Rattle.aea_records.specs.Format.{Object, Joined, greatest_objects, raised_limit, nodes_for, limit_when, entry};
ghost use Rattle.aea_records.specs.Objects.{stored_as, made};
ghost use Rattle.aea_records.specs.Fields.{are_parts};
ghost use Rattle.aea_records.specs.Catalogued.{with_record};
ghost use Rattle.aea_ledger.specs.Values.{IsThisOne};
ghost use Rattle.aea_ledger.specs.Taking.{FitsAdding};
ghost use Rattle.aea_ledger.specs.Next.{next_stored, HasNodes};
ghost use Rattle.aea_ledger.specs.Committing.{IsNextOf, LeavesOldOrNew, HasCommitted};

use crate::entry::write_next_entry;
use crate::ledger::Ledger;
use crate::reader::{joined_ref, more_nodes, object_ref};
use aea_catalog::{Catalog, Extent};
use aea_disk::Disk;
use aea_records::{
    ObjectFields, body_front, new_names_are_free, objects_are_counted, records_are_few,
};
use sha2::{Digest, Sha256};
use std::alloc::{AllocError, Global};

// The greatest number of objects.
const MAX_OBJECTS: usize = 65_536;

/// Why a record was not added.
#[derive(Clone, Copy, Debug, PartialEq, Eq)]
pub enum AppendFault {
    /// The archive has the most objects that there may be.
    CatalogFull,
    /// The disk failed. It has counted it.
    DiskFault,
    /// There was no memory for it.
    NoMemory,
}

impl From<AllocError> for AppendFault {
    ghost use Rattle.aea_ledger.specs.declared.append.AppendFault.TheVariants.{NoMemory};

    ghost from_gives = { λ _ fault. fault ≡ NoMemory };

    fn from(_error: AllocError) -> AppendFault {
        AppendFault::NoMemory
    }
}

// These are bytes.
fn are_bytes(bytes: &[u8])
    ensures { AreBytes bytes.now }
{
    let _first = bytes.first();
}

// This is a digest.
fn is_digest(digest: &[u8; 32])
    ensures { IsBytes 32 digest.now }
{
    are_bytes(digest);
}

// These are digests.
fn are_digests(digests: &[[u8; 32]])
    ensures { All (IsBytes 32) digests.now }
{
    are_bytes(digests.as_flattened());
}

// The record of this object may follow.
fn may_follow(
    ledger: &Ledger,
    name: &[u8],
    object: &ObjectFields,
    parts: Option<&[Extent]>,
    digests: &[[u8; 32]],
)
    requires few { len ledger.now.objects < greatest_objects }
    requires name { IsName name.now }
    requires absent { get ledger.now.objects name.now ≡ None }
    requires size { object.now.size < 2 ^ 64 }
    requires first { object.now.first ≡ ledger.now.lattice.n + 1 }
    requires nodes { HasNodes ledger.now object.now.size object.now.count (option_map (λ extents. extents.now) parts) }
    requires fits { ledger.now.lattice.n + object.now.count ≤ limit_when ledger.now.raised }
    requires digests { length digests.now ≡ object.now.count * (1 + ledger.now.shape.alpha) }
    ensures next { IsNextOf ledger.now (made (stored_as name.now object.now digests.now) (option_map (λ extents. extents.now) parts.entry)) }
    ensures few { length digests.now ≤ 2 ^ 22 }
    ensures parts { IfSome parts.entry (λ extents. length extents.now ≤ 2 ^ 20) }
{
    objects_are_counted();
    new_names_are_free();
    is_digest(&object.digest);
    are_digests(digests);
}

// The parts, where there are some, in memory of their own.
fn owned(alloc: Global, parts: Option<&[Extent]>) -> Result<Option<Vec<Extent>>, AllocError>
    ensures { IfOk result (λ owned. option_map (λ extents. extents.items) owned ≡ option_map (λ extents. extents.now) parts.entry) }
{
    match parts {
        None => Ok(None),
        Some(parts) => Ok(Some(Vec::from_slice(alloc, parts)?)),
    }
}

// Takes the memory for one more object and its digests.
fn reserve(
    catalog: &mut Catalog,
    digests: &mut Vec<[u8; 32]>,
    more: usize,
) -> Result<(), AllocError>
    ensures objects { catalog.new.objects ≡ catalog.old.objects }
    ensures digests { digests.new.items ≡ digests.old.items }
    ensures len { vec_len digests.new ≡ vec_len digests.old }
    ensures room { OnOk result (1 ≤ catalog.new.room) }
    ensures capacity { OnOk result (vec_len digests.new + more ≤ vec_capacity digests.new) }
{
    catalog.reserve()?;
    digests.reserve(more)
}

// Puts an object, in parts where there are some, where there is space for it.
fn put_object(
    catalog: &mut Catalog,
    name: Vec<u8>,
    object: &ObjectFields,
    parts: Option<Vec<Extent>>,
)
    requires name { IsName name.items }
    requires absent { get catalog.old.objects name.items ≡ None }
    requires room { 1 ≤ catalog.old.room }
    requires few { IfSome parts (λ extents. sum_by (λ e. e.count) extents.items < 2 ^ 32) }
    ensures { catalog.new.objects ≡ with_record catalog.old.objects (made (stored_as name.items object.now []) (option_map (λ extents. extents.items) parts)) }
{
    match parts {
        None => catalog.insert_owned(name, object_ref(object)),
        Some(parts) => {
            let joined = joined_ref(object, &parts);
            catalog.insert_parts_owned(name, joined, parts);
        }
    }
}

// Puts digests where there is space for them.
fn put_digests(digests: &mut Vec<[u8; 32]>, more: &[[u8; 32]])
    requires capacity { vec_len digests.old + length more.now ≤ vec_capacity digests.old }
    ensures { digests.new.items ≡ digests.old.items ++ more.now }
{
    let added = digests.extend_from_slice(more);
    prove!(added.is_ok());
}

// Lets the hasher take an open gate and a body in two pieces, and gives the digest of all that it then has.
pub(crate) fn take_entry(hasher: &mut Sha256, front: &[u8], rest: &[u8]) -> [u8; 32]
    ensures taken { (m : List ℕ) → Holds256 hasher.old m → Holds256 hasher.new (m ++ 1 ∷ (front.now ++ rest.now)) }
    ensures seal { (m : List ℕ) → Holds256 hasher.old m → result ≡ sha256 (m ++ 1 ∷ (front.now ++ rest.now)) }
{
    hasher.update(&[1u8]);
    hasher.update(front);
    hasher.update(rest);
    hasher.clone().unwrap().finalize()
}

impl Ledger {
    // The fields of an object after the nodes that there are.
    fn next_fields(&self, name: &[u8], size: u64, digest: [u8; 32], count: u32) -> ObjectFields
        ensures { result ≡ record { long = length name.now; size = size; digest = digest; first = self.now.lattice.n + 1; count = count } }
    {
        ObjectFields {
            long: name.len(),
            size,
            digest,
            first: self.lattice.n + 1,
            count,
        }
    }

    // Adds a record of an object, which is in parts where there are some.
    fn add<D: Disk>(
        &mut self,
        disk: &mut D,
        name: &[u8],
        object: &ObjectFields,
        parts: Option<&[Extent]>,
        digests: &[[u8; 32]],
    ) -> Result<(), AppendFault>
        requires live { self.old.live ≡ true }
        requires name { IsName name.now }
        requires absent { get self.old.objects name.now ≡ None }
        requires size { object.now.size < 2 ^ 64 }
        requires first { object.now.first ≡ self.old.lattice.n + 1 }
        requires nodes { HasNodes self.old object.now.size object.now.count (option_map (λ extents. extents.now) parts) }
        requires fits { self.old.lattice.n + object.now.count ≤ limit_when self.old.raised }
        requires digests { length digests.now ≡ object.now.count * (1 + self.old.shape.alpha) }
        requires this { D.reveals → IsThisOne self.old ((D.state disk.old).files 0) }
        requires fixed { D.reveals → IsFixed (D.state disk.old) 0 }
        ensures full { (result ≡ Err AppendFault.CatalogFull) ↔ (len self.old.objects ≡ greatest_objects) }
        ensures unchanged { (result ≡ Err AppendFault.CatalogFull) ⊎ (result ≡ Err AppendFault.NoMemory) → (self.new ≡ self.old) × (disk.new ≡ disk.old) }
        ensures leaves { LeavesOldOrNew D.reveals self.old (made (stored_as name.now object.now digests.now) (option_map (λ extents. extents.now) parts.entry)) (D.state disk.old) (D.state disk.new) }
        ensures committed { OnOk result (HasCommitted D.reveals self.old self.new (made (stored_as name.now object.now digests.now) (option_map (λ extents. extents.now) parts.entry)) (D.state disk.old) (D.state disk.new)) }
        ensures dead { result ≡ Err AppendFault.DiskFault → self.new ≡ record self.old { live = false } }
        ensures writes { OnlyWrites D.reveals (IsReady (D.state disk.old)) (FitsAdding (D.state disk.old) 1 (self.old.end + length (entry (made (stored_as name.now object.now digests.now) (option_map (λ extents. extents.now) parts.entry))))) (result ≡ Err AppendFault.DiskFault) (ChangesOnly 0) (D.state disk.old) (D.state disk.new) }
    {
        objects_are_counted();
        records_are_few();
        if self.catalog.len() >= MAX_OBJECTS {
            return Err(AppendFault::CatalogFull);
        }
        may_follow(self, name, object, parts, digests);
        let alloc = *self.digests.allocator();
        let owned_name = Vec::from_slice(alloc, name)?;
        let owned_parts = owned(alloc, parts)?;
        let front = body_front(alloc, name, object, parts, digests)?;
        let rest = digests.as_flattened();
        reserve(&mut self.catalog, &mut self.digests, digests.len())?;
        if write_next_entry(disk, self.end, &front, rest).is_err() {
            self.live = false;
            return Err(AppendFault::DiskFault);
        }
        put_object(&mut self.catalog, owned_name, object, owned_parts);
        put_digests(&mut self.digests, digests);
        self.seal = take_entry(&mut self.hasher, &front, rest);
        self.lattice = more_nodes(&self.lattice, object.count);
        self.end += 1 + front.len() as u64 + rest.len() as u64;
        Ok(())
    }

    /// Adds a record of an object whose nodes are all new: its name; its length in bytes, its SHA-256 (FIPS 180-4) and its
    /// number of nodes; and the digests of its blocks in number order, which are written as they are lent. All memory is
    /// taken before the first write. At `Ok` every file is synced. After a fault of the disk, which may have left the record
    /// or not, the ledger has to be opened anew.
    pub fn append<D: Disk>(
        &mut self,
        disk: &mut D,
        name: &[u8],
        size: u64,
        digest: [u8; 32],
        count: u32,
        digests: &[[u8; 32]],
    ) -> Result<(), AppendFault>
        requires live { self.old.live ≡ true }
        requires name { IsName name.now }
        requires absent { get self.old.objects name.now ≡ None }
        requires count { count ≡ nodes_for self.old.shape size }
        requires fits { self.old.lattice.n + count ≤ limit_when self.old.raised }
        requires digests { length digests.now ≡ count * (1 + self.old.shape.alpha) }
        requires this { D.reveals → IsThisOne self.old ((D.state disk.old).files 0) }
        requires fixed { D.reveals → IsFixed (D.state disk.old) 0 }

        // Refusals, before anything is written.
        ensures full { (result ≡ Err AppendFault.CatalogFull) ↔ (len self.old.objects ≡ greatest_objects) }
        ensures unchanged { (result ≡ Err AppendFault.CatalogFull) ⊎ (result ≡ Err AppendFault.NoMemory) → (self.new ≡ self.old) × (disk.new ≡ disk.old) }

        // The old ledger or the new one at each moment, and the new one at Ok.
        ensures leaves { LeavesOldOrNew D.reveals self.old (Object (next_stored self.old name.now size digest count digests.now)) (D.state disk.old) (D.state disk.new) }
        ensures committed { OnOk result (HasCommitted D.reveals self.old self.new (Object (next_stored self.old name.now size digest count digests.now)) (D.state disk.old) (D.state disk.new)) }
        ensures dead { result ≡ Err AppendFault.DiskFault → self.new ≡ record self.old { live = false } }

        // No other file changes, and when the disk is at fault.
        ensures writes { OnlyWrites D.reveals (IsReady (D.state disk.old)) (FitsAdding (D.state disk.old) 1 (self.old.end + length (entry (Object (next_stored self.old name.now size digest count digests.now))))) (result ≡ Err AppendFault.DiskFault) (ChangesOnly 0) (D.state disk.old) (D.state disk.new) }
    {
        let object = self.next_fields(name, size, digest, count);
        self.add(disk, name, &object, None, digests)
    }

    /// Adds a record of an object in parts, which may be of earlier nodes too: its name; its length in bytes, its SHA-256
    /// (FIPS 180-4) and its number of new nodes; the digests of their blocks in number order, which are written as they are
    /// lent; and its parts. All memory is taken before the first write. At `Ok` every file is synced. After a fault of the
    /// disk, which may have left the record or not, the ledger has to be opened anew.
    pub fn append_parts<D: Disk>(
        &mut self,
        disk: &mut D,
        name: &[u8],
        size: u64,
        digest: [u8; 32],
        count: u32,
        digests: &[[u8; 32]],
        parts: &[Extent],
    ) -> Result<(), AppendFault>
        requires live { self.old.live ≡ true }
        requires name { IsName name.now }
        requires absent { get self.old.objects name.now ≡ None }
        requires raised { self.old.raised ≡ true }
        requires fits { self.old.lattice.n + count ≤ raised_limit }
        requires parts { IsTrue (are_parts self.old.shape size (self.old.lattice.n + count) parts.now) }
        requires digests { length digests.now ≡ count * (1 + self.old.shape.alpha) }
        requires this { D.reveals → IsThisOne self.old ((D.state disk.old).files 0) }
        requires fixed { D.reveals → IsFixed (D.state disk.old) 0 }

        // Refusals, before anything is written.
        ensures full { (result ≡ Err AppendFault.CatalogFull) ↔ (len self.old.objects ≡ greatest_objects) }
        ensures unchanged { (result ≡ Err AppendFault.CatalogFull) ⊎ (result ≡ Err AppendFault.NoMemory) → (self.new ≡ self.old) × (disk.new ≡ disk.old) }

        // The old ledger or the new one at each moment, and the new one at Ok.
        ensures leaves { LeavesOldOrNew D.reveals self.old (Joined (next_stored self.old name.now size digest count digests.now) parts.now) (D.state disk.old) (D.state disk.new) }
        ensures committed { OnOk result (HasCommitted D.reveals self.old self.new (Joined (next_stored self.old name.now size digest count digests.now) parts.now) (D.state disk.old) (D.state disk.new)) }
        ensures dead { result ≡ Err AppendFault.DiskFault → self.new ≡ record self.old { live = false } }

        // No other file changes, and when the disk is at fault.
        ensures writes { OnlyWrites D.reveals (IsReady (D.state disk.old)) (FitsAdding (D.state disk.old) 1 (self.old.end + length (entry (Joined (next_stored self.old name.now size digest count digests.now) parts.now)))) (result ≡ Err AppendFault.DiskFault) (ChangesOnly 0) (D.state disk.old) (D.state disk.new) }
    {
        let object = self.next_fields(name, size, digest, count);
        self.add(disk, name, &object, Some(parts), digests)
    }
}
