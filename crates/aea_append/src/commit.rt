//! The commit of an object whose cells are written.

ghost use Rattle.std.specs.Prelude.{◌≡◌, ◌⊎◌, ◌+◌, ◌*◌, ◌≤◌, [], ◌∷◌, ◌++◌, None, true, false, ℕ, List, length, max, OnOk};
ghost use Rattle.std.specs.FinMap.{get, len};
ghost use Rattle.aea_lattice.specs.declared.blocks.BlockId.{BlockId};
ghost use Rattle.aea_disk.specs.Files.{ChangesOnly};
ghost use Rattle.aea_disk.specs.State.{KeepsImages, IsSynced, IsFixed, IsReady};
ghost use Rattle.aea_disk.specs.Frames.{OnlyWrites};
ghost use Rattle.aea_catalog.specs.Names.{IsName};
ghost use Rattle.aea_records.specs.Format.{Record, Object, greatest_objects, nodes_for, limit_when, body, entry};
ghost use Rattle.aea_ledger.specs.Values.{HasRecords, IsThisOne};
ghost use Rattle.aea_ledger.specs.Taking.{FitsAdding};
ghost use Rattle.aea_ledger.specs.Next.{next_stored, AreItsRecords};
ghost use Rattle.aea_ledger.specs.Stops.{HasLedger, committed};
ghost use Rattle.aea_archive.specs.Cells.{AreAtHome};
ghost use Rattle.aea_archive.specs.Stretches.{Adds};

use aea_disk::Disk;
use aea_ledger::{AppendFault, Ledger};
use aea_records::ledgers_have_one_reading;

/// Syncs the cells of an object, and then commits its record. All memory is taken before the record's first write.
pub(crate) fn commit_object<D: Disk>(
    ledger: &mut Ledger,
    disk: &mut D,
    name: &[u8],
    size: u64,
    digest: [u8; 32],
    count: u32,
    digests: &[[u8; 32]],
) -> Result<(), AppendFault>
    requires live { ledger.old.live ≡ true }
    requires name { IsName name.now }
    requires absent { get ledger.old.objects name.now ≡ None }
    requires count { count ≡ nodes_for ledger.old.shape size }
    requires fits { ledger.old.lattice.n + count ≤ limit_when ledger.old.raised }
    requires digests { length digests.now ≡ count * (1 + ledger.old.shape.alpha) }
    requires this { D.reveals → IsThisOne ledger.old ((D.state disk.old).files 0) }
    requires fixed { D.reveals → IsFixed (D.state disk.old) 0 }

    // One record more, with the cells that are at their homes.
    ensures adds { D.reveals → (records : List Record) (payload : BlockId → List ℕ) → AreItsRecords ledger.old records ((D.state disk.old).files 0)
        → AreAtHome ledger.old.shape ledger.old.lattice.n (ledger.old.lattice.n + count) payload (D.state disk.old).files
        → Adds ledger.old.shape records (Object (next_stored ledger.old name.now size digest count digests.now) ∷ []) payload (D.state disk.old) (D.state disk.new) }
    ensures appended { OnOk result (D.reveals → (records : List Record) → AreItsRecords ledger.old records ((D.state disk.old).files 0) → HasLedger ledger.old.shape (records ++ Object (next_stored ledger.old name.now size digest count digests.now) ∷ []) ((D.state disk.new).files 0)) }
    ensures exactly { OnOk result (D.reveals → (D.state disk.new).files 0 ≡ committed ((D.state disk.old).files 0) ledger.old.end (body (Object (next_stored ledger.old name.now size digest count digests.now)) ++ 0 ∷ [])) }
    ensures value { OnOk result ((records : List Record) → HasRecords ledger.old records → HasRecords ledger.new (records ++ Object (next_stored ledger.old name.now size digest count digests.now) ∷ [])) }
    ensures shape { OnOk result (ledger.new.shape ≡ ledger.old.shape) }
    ensures live_on { OnOk result (ledger.new.live ≡ true) }
    ensures this_one { OnOk result (D.reveals → IsThisOne ledger.new ((D.state disk.new).files 0)) }
    ensures durable { OnOk result (D.reveals → IsSynced (D.state disk.new)) }

    // Refusals, and a fault of the disk.
    ensures full { result ≡ Err AppendFault.CatalogFull → len ledger.old.objects ≡ greatest_objects }
    ensures unchanged { (result ≡ Err AppendFault.CatalogFull) ⊎ (result ≡ Err AppendFault.NoMemory) → (ledger.new ≡ ledger.old) × (KeepsImages (D.state disk.old) (D.state disk.new) × (D.reveals → (D.state disk.new).files ≡ (D.state disk.old).files)) }
    ensures dead { result ≡ Err AppendFault.DiskFault → ledger.new ≡ record ledger.old { live = false } }

    // How long the record's entry is: a digest has 32 bytes.
    ensures size { length digest ≡ 32 → length (entry (Object (next_stored ledger.old name.now size digest count digests.now))) ≡ 56 + length name.now + 32 * length digests.now }

    // No other file changes, none is written past the gate that ends the new ledger, and when the disk is at fault.
    ensures long { D.reveals → length ((D.state disk.new).files 0) ≤ max (length ((D.state disk.old).files 0)) (ledger.old.end + length (entry (Object (next_stored ledger.old name.now size digest count digests.now))) + 1) }
    ensures writes { OnlyWrites D.reveals (IsReady (D.state disk.old)) (FitsAdding (D.state disk.old) 1 (ledger.old.end + length (entry (Object (next_stored ledger.old name.now size digest count digests.now))))) (result ≡ Err AppendFault.DiskFault) (ChangesOnly 0) (D.state disk.old) (D.state disk.new) }
{
    ledgers_have_one_reading();
    let Ok(()) = disk.sync() else {
        ledger.retire();
        return Err(AppendFault::DiskFault);
    };
    ledger.append(disk, name, size, digest, count, digests)
}
