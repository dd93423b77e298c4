//! An object that is put.

ghost use Rattle.std.specs.Prelude.{◌≡◌, ◌≢◌, ◌⊎◌, ◌↔◌, ◌+◌, ◌*◌, ◌^◌, ◌≤◌, ◌<◌, true, false, ℕ, List, length, max, None, Some, IfOk, IfSome, OnOk, IsOk, IsErr, IsSome};
ghost use Rattle.std.specs.FinMap.{len};
ghost use Rattle.aea_faults.specs.Faults.{Rose};
ghost use Rattle.aea_io.specs.Taken.{TakesAtMost, Counts};
ghost use Rattle.aea_lattice.specs.declared.blocks.BlockId.{BlockId};
ghost use Rattle.aea_disk.specs.State.{IsFixed, IsReady, IsRoomy, NeverFails};
ghost use Rattle.aea_disk.specs.Frames.{OnlyReads, OnlyWrites};
ghost use Rattle.aea_shelf.specs.Writes.{KeepsPadded};
ghost use Rattle.aea_catalog.specs.Names.{IsName};
ghost use Rattle.aea_records.specs.Format.{greatest_objects, nodes_for, limit_when};
ghost use Rattle.aea_ledger.specs.Values.{HasSomeRecords, IsThisOne};
ghost use Rattle.aea_archive.specs.Blocks.{IsBlockIn};
ghost use Rattle.aea_archive.specs.Cells.{IsBesides, ChangesArchive};
ghost use Rattle.aea_archive.specs.Lasts.{IsLastParity, IsDamagedLast, IsFirstDamagedLast, AreLastsIntact};
ghost use Rattle.aea_append.specs.Taking.{HasPassedRoom, IsOver, IsThere, HasEnded, room_left, most_of, long_of};
ghost use Rattle.aea_append.specs.Puts.{IsWhole, IsWanted, HasKept, HasPut, MayHaveStored, LeavesLedger};
ghost use Rattle.aea_append.specs.Wanted.{StoresWanted};
ghost use Rattle.aea_append.specs.Keeping.{HasKeptHeads};
ghost use Rattle.aea_append.specs.declared.store.Stored.{Stored};
ghost use Rattle.aea_append.specs.Causes.{IsTaken, MayEnter, IsEarly, IsHeadRefused, HasEarlyReason, HasPutRoom, HasWantedRoom, next_end};

use crate::commit::commit_object;
use crate::fault::PutFault;
use crate::object::{Taken, weave_object};
use aea_archive::{lasts_are_values, next_records_more, survivors_stay_honest};
use aea_catalog::check_name;
use aea_disk::Disk;
use aea_envelope::{cells_have_lengths, cells_have_parts};
use aea_io::Source;
use aea_ledger::{AppendFault, Ledger};
use aea_records::{digests_are_counted, ledgers_have_one_reading};
use aea_weave::Heads;
use std::alloc::Global;

/// What was stored: the nodes of the object, its bytes, and their SHA-256 (FIPS 180-4).
#[derive(Clone, Copy, Debug, PartialEq, Eq)]
pub struct Stored {
    pub nodes: u32,
    pub length: u64,
    pub digest: [u8; 32],
}

// The most objects of a ledger.
const MAX_OBJECTS: usize = 65_536;

/// Whether an object may be put under the name.
pub(crate) fn may_enter(ledger: &Ledger, name: &[u8]) -> Result<(), PutFault>
    ensures bad_name { (result ≡ Err PutFault.BadName) ↔ (¬ IsName name.now) }
    ensures taken { (result ≡ Err PutFault.NameTaken) ↔ (IsName name.now × IsTaken ledger.now name.now) }
    ensures many { (result ≡ Err PutFault.CatalogFull) ↔ (IsName name.now × (¬ IsTaken ledger.now name.now) × (len ledger.now.objects ≡ greatest_objects)) }
    ensures may { OnOk result (MayEnter ledger.now name.now) }
    ensures enters { MayEnter ledger.now name.now → IsOk result }
    ensures early { (result ≡ Ok tt) ⊎ IsEarly result }
    ensures opened { HasSomeRecords ledger.now }
{
    let _shape = ledger.shape();
    if !check_name(name) {
        return Err(PutFault::BadName);
    }
    if ledger.catalog().find(name).is_some() {
        return Err(PutFault::NameTaken);
    }
    if ledger.catalog().len() == MAX_OBJECTS {
        return Err(PutFault::CatalogFull);
    }
    Ok(())
}

// Whether fewer bytes were taken than the number that was wanted.
fn is_short(want: Option<u64>, length: u64) -> bool
    ensures yes { result ≡ true → (n : ℕ) × (want ≡ Some n) × (length < n) }
    ensures no { result ≡ false → (n : ℕ) → want ≡ Some n → n ≤ length }
{
    match want {
        Some(wanted) => length < wanted,
        None => false,
    }
}

/// Stores what is wanted of the source under a name that may enter: a number of bytes, or all that it has. Returns None
/// where it ends before that number. `at` grows by the bytes that were taken, whatever the result. Heads that were kept are
/// taken in place of the last parities; after `Stored` those that go on from the object are kept, after all else none.
///
/// Its clauses: `stores` says what is left, by how it ended (`StoresWanted`, with a record for each end); the others what
/// holds in any case.
pub(crate) fn put_wanted<D: Disk, S: Source>(
    alloc: Global,
    ledger: &mut Ledger,
    disk: &mut D,
    name: &[u8],
    source: &mut S,
    want: Option<u64>,
    at: &mut u64,
    kept: &mut Option<Heads>,
) -> Result<Option<Stored>, PutFault>
    requires enters { MayEnter ledger.old name.now }
    requires opened { HasSomeRecords ledger.old }
    requires live { ledger.old.live ≡ true }
    requires this { D.reveals → IsThisOne ledger.old ((D.state disk.old).files 0) }
    requires fixed { D.reveals → IsFixed (D.state disk.old) 0 }
    requires count { at.old ≤ 2 ^ 63 + 265 }
    requires kept { HasKeptHeads D.reveals ledger.old (D.state disk.old).files kept.old }

    ensures stores { StoresWanted D.reveals (source.new ≡ source.old) ledger.old ledger.new name.now want (S.state source.old).left (S.state source.new).left at.old at.new (D.state disk.old) (D.state disk.new) result }
    ensures late { IsEarly result → ⊥ }
    ensures whole { want ≡ None → result ≡ Ok None → ⊥ }

    // The heads that are kept go on from the ledger, and where they were kept no last parity is found damaged.
    ensures kept { HasKeptHeads D.reveals ledger.new (D.state disk.new).files kept.new }
    ensures keeps { (stored : Stored) → result ≡ Ok (Some stored) → IsSome kept.new }
    ensures unread { (b : BlockId) → IsSome kept.old → result ≢ Err (PutFault.HeadDamaged b) }

    // Where a last parity is damaged, the disk needs space to sync alone.
    ensures head_in_room { D.reveals → (a : BlockId) → IsDamagedLast ledger.old.shape ledger.old.lattice ledger.old.digests (D.state disk.old).files a → IsReady (D.state disk.old) → NeverFails (IsRoomy (D.state disk.old)) (result ≢ Err PutFault.DiskFault) (D.state disk.old) (D.state disk.new) }

    // The blocks that the archive had and the other files stay, no site grows past the rows that the archive can have, and
    // when the disk is at fault.
    ensures writes { OnlyWrites D.reveals (IsReady (D.state disk.old)) (HasWantedRoom ledger.old name.now want (S.state source.old).left (S.state source.new).left (D.state disk.old)) (result ≡ Err PutFault.DiskFault) (ChangesArchive ledger.old.shape (limit_when ledger.old.raised) (IsBlockIn ledger.old.shape ledger.old.lattice.n) (IsBesides ledger.old.shape)) (D.state disk.old) (D.state disk.new) }

    // How many bytes are taken, and when the source is at fault.
    ensures counted { Counts (S.state source.old).left (S.state source.new).left at.old at.new (most_of want (room_left ledger.old)) }
    ensures source_kept { (S.state source.old).faults ≤ (S.state source.new).faults }
    ensures read_cause { result ≡ Err PutFault.ReadFault → Rose (S.state source.old).faults (S.state source.new).faults }
    ensures source_still { result ≢ Err PutFault.ReadFault → (S.state source.new).faults ≡ (S.state source.old).faults }
{
    ledgers_have_one_reading();
    next_records_more();
    lasts_are_values();
    survivors_stay_honest();
    digests_are_counted();
    cells_have_lengths();
    cells_have_parts();
    let taken = match weave_object(alloc, disk, ledger, kept.take(), source, want, at) {
        Ok(taken) => taken,
        Err(PutFault::DiskFault) => {
            ledger.retire();
            return Err(PutFault::DiskFault);
        }
        Err(PutFault::HeadDamaged { block }) => return Err(PutFault::HeadDamaged { block }),
        Err(PutFault::Full { nodes }) => return Err(PutFault::Full { nodes }),
        Err(PutFault::ReadFault) => return Err(PutFault::ReadFault),
        Err(PutFault::NoMemory) => return Err(PutFault::NoMemory),
        Err(_) => unreachable!(),
    };
    let Taken {
        length,
        nodes,
        digest,
        digests,
        heads,
    } = taken;
    if is_short(want, length) {
        return Ok(None);
    }
    let digests = digests.as_slice();
    match commit_object(ledger, disk, name, length, digest, nodes, digests) {
        Ok(()) => {
            *kept = Some(heads);
            Ok(Some(Stored {
                nodes,
                length,
                digest,
            }))
        }
        Err(AppendFault::DiskFault) => Err(PutFault::DiskFault),
        Err(AppendFault::NoMemory) => Err(PutFault::NoMemory),
        Err(AppendFault::CatalogFull) => unreachable!(),
    }
}

/// Stores all that the source has as one object under the name. The cells of the object are written and synced
/// before its record is committed, and at `Ok` every file is synced. The last parity of each strand has to be intact. It
/// takes memory for a block, a cell, the heads, and 64 bytes for each new block, in lists that grow by doubling; none from
/// the first write of the record on.
pub fn put<D: Disk, S: Source>(
    alloc: Global,
    ledger: &mut Ledger,
    disk: &mut D,
    name: &[u8],
    source: &mut S,
) -> Result<Stored, PutFault>
    requires live { ledger.old.live ≡ true }
    requires this { D.reveals → IsThisOne ledger.old ((D.state disk.old).files 0) }
    requires fixed { D.reveals → IsFixed (D.state disk.old) 0 }

    // Stored.
    ensures stored { IfOk result (HasPut D.reveals ledger.old ledger.new name.now (S.state source.old).left (S.state source.new).left (D.state disk.old) (D.state disk.new)) }

    // Refusals by the name and the number of objects, before anything is read or written.
    ensures bad_name { (result ≡ Err PutFault.BadName) ↔ (¬ IsName name.now) }
    ensures taken { (result ≡ Err PutFault.NameTaken) ↔ (IsName name.now × IsTaken ledger.old name.now) }
    ensures many { (result ≡ Err PutFault.CatalogFull) ↔ (IsName name.now × (¬ IsTaken ledger.old name.now) × (len ledger.old.objects ≡ greatest_objects)) }
    ensures early { IsEarly result → (disk.new ≡ disk.old) × (source.new ≡ source.old) }

    // A last parity that is damaged.
    ensures head { (b : BlockId) → result ≡ Err (PutFault.HeadDamaged b) → IsLastParity ledger.old.lattice b × (D.reveals → IsFirstDamagedLast ledger.old.shape ledger.old.lattice ledger.old.digests (D.state disk.old).files b) }
    ensures head_leaves { (b : BlockId) → result ≡ Err (PutFault.HeadDamaged b) → (source.new ≡ source.old) × OnlyReads D.reveals ⊥ (D.state disk.old) (D.state disk.new) }
    ensures head_refused { D.reveals → MayEnter ledger.old name.now → (a : BlockId) → IsDamagedLast ledger.old.shape ledger.old.lattice ledger.old.digests (D.state disk.old).files a → IsHeadRefused result }

    // Where a reason holds for a refusal before the source is read, the disk needs space to sync alone.
    ensures refused_in_room { D.reveals → HasEarlyReason ledger.old name.now (D.state disk.old).files → IsReady (D.state disk.old) → NeverFails (IsRoomy (D.state disk.old)) (result ≢ Err PutFault.DiskFault) (D.state disk.old) (D.state disk.new) }

    // More bytes than there are nodes for.
    ensures full { (nodes : ℕ) → result ≡ Err (PutFault.Full nodes) → (nodes ≡ ledger.old.lattice.n) × (HasPassedRoom ledger.old (S.state source.old).left (S.state source.new).left × (D.reveals → AreLastsIntact ledger.old.shape ledger.old.lattice ledger.old.digests (D.state disk.old).files)) }
    ensures full_refused { (bytes : List ℕ) → (S.state source.old).left ≡ Some bytes → MayEnter ledger.old name.now → limit_when ledger.old.raised < ledger.old.lattice.n + nodes_for ledger.old.shape (length bytes)
        → (result ≡ Err (PutFault.Full ledger.old.lattice.n)) ⊎ ((result ≡ Err PutFault.ReadFault) ⊎ IsHeadRefused result) }

    // Where no reason for refusal holds and no count of faults rises, it is stored, unless memory runs out.
    ensures complete { D.reveals → (bytes : List ℕ) → (S.state source.old).left ≡ Some bytes → MayEnter ledger.old name.now
        → AreLastsIntact ledger.old.shape ledger.old.lattice ledger.old.digests (D.state disk.old).files
        → ledger.old.lattice.n + nodes_for ledger.old.shape (length bytes) ≤ limit_when ledger.old.raised
        → (Rose (D.state disk.old).faults (D.state disk.new).faults → ⊥) → (Rose (S.state source.old).faults (S.state source.new).faults → ⊥)
        → IsOk result ⊎ (result ≡ Err PutFault.NoMemory) }

    // What holds after each other result.
    ensures refused { IsErr result → result ≢ Err PutFault.DiskFault → ledger.new ≡ ledger.old }
    ensures refused_leaves { IsErr result → result ≢ Err PutFault.DiskFault → D.reveals → LeavesLedger (D.state disk.old) (D.state disk.new) }
    ensures dead { result ≡ Err PutFault.DiskFault → ledger.new ≡ record ledger.old { live = false } }
    ensures stopped { result ≡ Err PutFault.DiskFault → D.reveals → MayHaveStored ledger.old (IsWhole name.now (S.state source.old).left (S.state source.new).left) (D.state disk.old) (D.state disk.new) }

    // The blocks that the archive had and the other files stay, no site grows past the rows that the archive can have, and
    // when the disk is at fault.
    ensures writes { OnlyWrites D.reveals (IsReady (D.state disk.old)) (HasPutRoom ledger.old name.now (S.state source.old).left (S.state source.new).left (D.state disk.old)) (result ≡ Err PutFault.DiskFault) (ChangesArchive ledger.old.shape (limit_when ledger.old.raised) (IsBlockIn ledger.old.shape ledger.old.lattice.n) (IsBesides ledger.old.shape)) (D.state disk.old) (D.state disk.new) }
    ensures padded { result ≢ Err PutFault.DiskFault → D.reveals → KeepsPadded ledger.old.shape (IsBlockIn ledger.old.shape ledger.old.lattice.n) (D.state disk.old).files (D.state disk.new).files }

    // At most one byte past what fits is read, and when the source is at fault.
    ensures reads { TakesAtMost (S.state source.old).left (S.state source.new).left (room_left ledger.old + 1) }
    ensures source_kept { (S.state source.old).faults ≤ (S.state source.new).faults }
    ensures read_cause { result ≡ Err PutFault.ReadFault → Rose (S.state source.old).faults (S.state source.new).faults }
    ensures source_still { result ≢ Err PutFault.ReadFault → (S.state source.new).faults ≡ (S.state source.old).faults }

    // No write goes past the gate that ends the new ledger.
    ensures ledger { IfOk result (λ stored. D.reveals → length ((D.state disk.new).files 0) ≤ max (length ((D.state disk.old).files 0)) (next_end ledger.old.end (length name.now) (stored.nodes * (1 + ledger.old.shape.alpha)) + 1)) }
{
    match may_enter(ledger, name) {
        Ok(()) => (),
        Err(fault) => return Err(fault),
    }
    let mut count = 0;
    let mut kept = None;
    match put_wanted(
        alloc, ledger, disk, name, source, None, &mut count, &mut kept,
    ) {
        Ok(Some(stored)) => Ok(stored),
        Ok(None) => unreachable!(),
        Err(fault) => Err(fault),
    }
}
