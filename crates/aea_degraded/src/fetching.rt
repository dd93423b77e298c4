//! Objects that are fetched without repair.

ghost use Rattle.std.specs.Prelude.{◌≡◌, ◌≢◌, ◌⊎◌, ◌↔◌, ◌≤◌, ℕ, Bool, false, List, length, None, Some, All, Err, IfOk, OnOk, IsOk, IfErr};
ghost use Rattle.std.specs.FinMap.{get};
ghost use Rattle.std.specs.Io.KnownBytes.{Appends};
ghost use Rattle.aea_faults.specs.Faults.{Rose};
ghost use Rattle.aea_io.specs.Written.{IsFlushed};
ghost use Rattle.aea_lattice.specs.declared.blocks.BlockId.{BlockId};
ghost use Rattle.aea_lattice.specs.Data.{IsDataList, Determines};
ghost use Rattle.aea_lattice.specs.LeastWord.{IsWord};
ghost use Rattle.aea_disk.specs.Frames.{OnlyReads};
ghost use Rattle.aea_catalog.specs.Catalogs.{Placed};
ghost use Rattle.aea_records.specs.Format.{Record};
ghost use Rattle.aea_ledger.specs.Recorded.{AreRecordsOf};
ghost use Rattle.aea_ledger.specs.Values.{HasRecords};
ghost use Rattle.aea_archive.specs.Blocks.{RevealsSurvivors};
ghost use Rattle.aea_archive.specs.Data.{AreSurvivorsHonest};
ghost use Rattle.aea_archive.specs.Objects.{data_of, object_in, IsOneOf};
ghost use Rattle.aea_restore.specs.Drawn.{IsOtherDigest, IsClash};
ghost use Rattle.aea_degraded.specs.Fetched.{HasFetched, HasFetchedPart, IsFirstOpen, IsClashing, IsOutside};

use crate::fault::FetchFault;
use crate::first::first_pass;
use crate::sending::send_fetched;
use aea_archive::{cell_buffer, survivors_are_revealed};
use aea_disk::Disk;
use aea_fates::lists_are_one;
use aea_io::{Page, Sink};
use aea_ledger::Ledger;
use aea_records::objects_are_of_records;
use std::alloc::{AllocError, Global};

// A buffer for a block, B bytes.
fn block_buffer(alloc: Global, ledger: &Ledger) -> Result<Vec<u8>, AllocError>
    ensures { IfOk result (λ sum. length sum.items ≡ ledger.now.shape.block) }
{
    let size = ledger.shape().block() as usize;
    vec![in alloc; 0; size]
}

/// Appends the bytes of the object under the name, without padding, and returns how many; a data block that is damaged is
/// computed from the intact blocks that determine it. Nothing is written to the disk. A first pass reads the cells of the object's
/// data blocks; where some are damaged also those that equations join with them, from block to block, and the intact ones around
/// these, and no others; it finds out by which equations these give each damaged data block, or that they do not, and computes each
/// of them once. A second pass reads and computes again, and appends the payloads in pieces of 64 KiB, and flushes. All memory is
/// taken before the second pass: two bits a block of the archive, 8 bytes for each damaged block that was found, what `solve_open`
/// of `aea_gauss` takes for these, a cell, B + 48 bytes, a block, B bytes, and one such piece. After an error but a clash of the
/// second pass, which never comes of a disk whose contents are known, and a fault of the disk or the output nothing was appended.
pub fn fetch<D: Disk, O: Sink>(
    alloc: Global,
    ledger: &Ledger,
    disk: &mut D,
    name: &[u8],
    out: &mut O,
) -> Result<u64, FetchFault>
    // Fetched.
    ensures fetched { IfOk result (λ n. (p : Placed) × (get ledger.now.objects name.now ≡ Some p) × (n ≡ p.object.length)
        × HasFetched D.reveals ledger.now (D.state disk.old).files p (O.state out.old) (O.state out.new)) }
    ensures flushed { OnOk result (IsFlushed (O.state out.new)) }

    // Of survivors that are honest for a data list it is the object in that list.
    ensures own { OnOk result (D.reveals → (p : Placed) (datas : List (List ℕ)) → get ledger.now.objects name.now ≡ Some p → IsDataList ledger.now.lattice ledger.now.shape.block datas
        → AreSurvivorsHonest ledger.now.shape ledger.now.lattice ledger.now.digests datas (D.state disk.old).files → Appends (O.state out.old).written (O.state out.new).written (object_in p datas)) }

    // No object has the name.
    ensures unknown { (result ≡ Err FetchFault.UnknownName) ↔ (get ledger.now.objects name.now ≡ None) }

    // The intact blocks do not determine a data block: the first one, found before anything is written. Over any disk the nodes
    // are those that are listed for some known blocks.
    ensures undetermined { (b : BlockId) (nodes : List ℕ) → result ≡ Err (FetchFault.Undetermined b nodes) → (p : Placed) × (get ledger.now.objects name.now ≡ Some p) × IsOneOf (data_of p.parts) b
        × ((test : BlockId → Bool) × IsWord ledger.now.lattice test b nodes) × (out.new ≡ out.old)
        × (D.reveals → (known : BlockId → Bool) → RevealsSurvivors ledger.now.shape ledger.now.lattice.n ledger.now.digests (D.state disk.old).files known → IsFirstOpen ledger.now.lattice known (data_of p.parts) b nodes) }
    ensures open_refused { D.reveals → (p : Placed) (known : BlockId → Bool) (b : BlockId) (nodes : List ℕ) → get ledger.now.objects name.now ≡ Some p
        → RevealsSurvivors ledger.now.shape ledger.now.lattice.n ledger.now.digests (D.state disk.old).files known → IsFirstOpen ledger.now.lattice known (data_of p.parts) b nodes
        → (result ≡ Err (FetchFault.Undetermined b nodes)) ⊎ IsOutside result }

    // A clash is one of two digests that differ, the first of them the ledger's; where the disk's contents are known, it is one
    // of a damaged data block of the object, of which the survivors' sum has another digest, and nothing was written; and
    // there is none where the survivors are honest for a data list that the ledger records.
    ensures clash { (b : BlockId) (revealed computed : List ℕ) → result ≡ Err (FetchFault.Clash b revealed computed) → IsOtherDigest ledger.now b revealed computed }
    ensures computed { D.reveals → (known : BlockId → Bool) → RevealsSurvivors ledger.now.shape ledger.now.lattice.n ledger.now.digests (D.state disk.old).files known
        → (b : BlockId) (revealed computed : List ℕ) → result ≡ Err (FetchFault.Clash b revealed computed)
        → ((p : Placed) → get ledger.now.objects name.now ≡ Some p → IsOneOf (data_of p.parts) b) × (known b ≡ false) × IsClash ledger.now known (D.state disk.old).files b revealed computed × (out.new ≡ out.old) }
    ensures no_clash { D.reveals → (records : List Record) (datas : List (List ℕ)) → HasRecords ledger.now records → AreRecordsOf ledger.now.shape records datas
        → AreSurvivorsHonest ledger.now.shape ledger.now.lattice ledger.now.digests datas (D.state disk.old).files
        → (b : BlockId) (revealed computed : List ℕ) → result ≢ Err (FetchFault.Clash b revealed computed) }

    // Where the intact blocks determine all data blocks it is fetched, but for a clash, faults and lack of memory.
    ensures complete { D.reveals → (p : Placed) (known : BlockId → Bool) → get ledger.now.objects name.now ≡ Some p
        → RevealsSurvivors ledger.now.shape ledger.now.lattice.n ledger.now.digests (D.state disk.old).files known → All (Determines ledger.now.lattice known) (data_of p.parts)
        → IsOk result ⊎ (IsClashing result ⊎ ((result ≡ Err FetchFault.WriteFault) ⊎ IsOutside result)) }

    // What was appended where it was not fetched: nothing, or where the second pass was cut short a first part.
    ensures unused { (result ≡ Err FetchFault.UnknownName) ⊎ (result ≡ Err FetchFault.NoMemory) → out.new ≡ out.old }
    ensures part { IfErr result (λ fault. (p : Placed) → get ledger.now.objects name.now ≡ Some p
        → (out.new ≡ out.old) ⊎ HasFetchedPart D.reveals ledger.now (D.state disk.old).files p (O.state out.old) (O.state out.new)) }

    // The disk is only read, and when the disk and the sink are at fault.
    ensures reads { OnlyReads D.reveals (result ≡ Err FetchFault.DiskFault) (D.state disk.old) (D.state disk.new) }
    ensures out_kept { (O.state out.old).faults ≤ (O.state out.new).faults }
    ensures out_cause { result ≡ Err FetchFault.WriteFault → Rose (O.state out.old).faults (O.state out.new).faults }
    ensures out_still { result ≢ Err FetchFault.WriteFault → (O.state out.new).faults ≡ (O.state out.old).faults }
    ensures in_room { (p : Placed) (room : ℕ) → get ledger.now.objects name.now ≡ Some p → (O.state out.old).room ≡ Some room → p.object.length ≤ room
        → (result ≡ Err FetchFault.WriteFault → ⊥) × ((O.state out.new).faults ≡ (O.state out.old).faults) }
{
    lists_are_one();
    survivors_are_revealed();
    objects_are_of_records();
    let _lattice = ledger.lattice();
    let Some(object) = ledger.catalog().find(name) else {
        return Err(FetchFault::UnknownName);
    };
    let Ok(mut cell) = cell_buffer(alloc, ledger) else {
        return Err(FetchFault::NoMemory);
    };
    let Ok(mut sum) = block_buffer(alloc, ledger) else {
        return Err(FetchFault::NoMemory);
    };
    let Ok(mut page) = Page::large(alloc) else {
        return Err(FetchFault::NoMemory);
    };
    let cell = cell.as_mut_slice();
    let sum = sum.as_mut_slice();
    let plan = match first_pass(alloc, ledger, disk, name, cell, sum) {
        Ok(plan) => plan,
        Err(fault) => return Err(fault),
    };
    match send_fetched(
        ledger,
        disk,
        name,
        plan.search.unknown(),
        &plan.fates,
        object.length,
        cell,
        sum,
        &mut page,
        out,
    ) {
        Ok(()) => Ok(object.length),
        Err(fault) => Err(fault),
    }
}
