//! An object that is got.

ghost use Rattle.std.specs.Prelude.{◌≡◌, ◌≢◌, ◌⊎◌, ◌↔◌, ◌≤◌, ℕ, List, length, take, None, Some, All, [], Err, IfOk, OnOk, IsOk, IsErr, IfErr};
ghost use Rattle.std.specs.List.{Contains};
ghost use Rattle.std.specs.FinMap.{get};
ghost use Rattle.std.specs.Io.KnownBytes.{Appends};
ghost use Rattle.aea_faults.specs.Faults.{Rose};
ghost use Rattle.aea_io.specs.Written.{IsFlushed};
ghost use Rattle.aea_lattice.specs.declared.blocks.BlockId.{BlockId};
ghost use Rattle.aea_lattice.specs.Data.{IsDataList};
ghost use Rattle.aea_disk.specs.Frames.{OnlyReads};
ghost use Rattle.aea_shelf.specs.Places.{cell_size};
ghost use Rattle.aea_catalog.specs.Catalogs.{Placed};
ghost use Rattle.aea_records.specs.Format.{Record};
ghost use Rattle.aea_ledger.specs.Recorded.{AreRecordsOf};
ghost use Rattle.aea_ledger.specs.Values.{HasRecords};
ghost use Rattle.aea_archive.specs.Blocks.{IsIntactBy};
ghost use Rattle.aea_archive.specs.Data.{AreSurvivorsHonest};
ghost use Rattle.aea_archive.specs.Next.{NewObject};
ghost use Rattle.aea_archive.specs.Objects.{data_of, data_under, object_in, IsOneOf};
ghost use Rattle.aea_fetch.specs.Payloads.{IsPayload, IsFirstDamaged};
ghost use Rattle.aea_fetch.specs.Copies.{HasSent};
ghost use Rattle.aea_fetch.specs.Gets.{HasGot, HasBroken, IsCopyFault, IsOutside};
ghost use Rattle.aea_fetch.specs.Puts.{AreOfPuts, datas_of};

use crate::cells::{CellFault, CellReader};
use crate::check::check_object;
use crate::copy::send_payloads;
use crate::fault::GetFault;
use crate::source::SendFault;
use aea_archive::cell_buffer;
use aea_disk::Disk;
use aea_io::{Page, Sink};
use aea_ledger::Ledger;
use aea_records::objects_are_of_records;
use std::alloc::Global;

/// Appends the payloads of the data blocks of the object under the name, one after the other and cut to so many bytes, through
/// a page without bytes, and flushes. It reads each cell once, into the buffer, which has the bytes of a cell, B + 48. Of a
/// fault it says whether a block is damaged, at which no byte of it is written, the disk failed, or the output did.
pub fn send_object<D: Disk, O: Sink>(
    disk: &mut D,
    ledger: &Ledger,
    name: &[u8],
    most: u64,
    cell: &mut [u8],
    page: &mut Page,
    out: &mut O,
) -> Result<(), GetFault>
    requires buffer { length cell.old ≡ cell_size ledger.now.shape }
    requires empty { page.old ≡ [] }
    ensures sent { OnOk result (HasSent (IsPayload D.reveals ledger.now.shape ledger.now.digests (D.state disk.old).files) (data_under (get ledger.now.objects name.now)) most (O.state out.old) (O.state out.new)) }
    ensures broken { IfErr result (HasBroken D.reveals ledger.now.shape ledger.now.digests (D.state disk.old).files (data_under (get ledger.now.objects name.now)) most (O.state out.old) [] (O.state out.new)) }
    ensures faults { IfErr result IsCopyFault }
    ensures still { result ≢ Err GetFault.WriteFault → (O.state out.new).faults ≡ (O.state out.old).faults }
    ensures flushed { OnOk result (IsFlushed (O.state out.new)) }
    ensures reads { OnlyReads D.reveals (result ≡ Err GetFault.DiskFault) (D.state disk.old) (D.state disk.new) }
{
    let mut payloads = CellReader { cell };
    match send_payloads(&mut payloads, ledger, disk, name, most, page, out) {
        Ok(()) => Ok(()),
        Err(SendFault::Payload(CellFault::Damaged { block })) => Err(GetFault::Damaged { block }),
        Err(SendFault::Payload(CellFault::DiskFault)) => Err(GetFault::DiskFault),
        Err(SendFault::Output) => Err(GetFault::WriteFault),
    }
}

/// Appends the bytes of the object under the name, without padding, and returns how many. A first pass reads all cells of its
/// data blocks, in the order of its parts, and writes nothing; a second one reads them again, and appends their payloads in
/// pieces of 64 KiB, and flushes. It takes memory for a cell, B + 48 bytes, and for one such piece, both before the first read;
/// none after it. A block that was intact in the first pass and is not in the second, which never happens on a disk whose
/// contents are known, is damaged too.
pub fn get<D: Disk, O: Sink>(
    alloc: Global,
    ledger: &Ledger,
    disk: &mut D,
    name: &[u8],
    out: &mut O,
) -> Result<u64, GetFault>
    // Got.
    ensures got { IfOk result (λ n. (p : Placed) × (get ledger.now.objects name.now ≡ Some p) × (n ≡ p.object.length)
        × HasGot D.reveals ledger.now.shape ledger.now.digests (D.state disk.old).files p (O.state out.old) (O.state out.new)) }
    ensures flushed { OnOk result (IsFlushed (O.state out.new)) }

    // Of survivors that are honest for a data list it is the object in that list.
    ensures own { OnOk result (D.reveals → (p : Placed) (datas : List (List ℕ)) → get ledger.now.objects name.now ≡ Some p → IsDataList ledger.now.lattice ledger.now.shape.block datas
        → AreSurvivorsHonest ledger.now.shape ledger.now.lattice ledger.now.digests datas (D.state disk.old).files → Appends (O.state out.old).written (O.state out.new).written (object_in p datas)) }

    // Of objects that were put one after the other, and whose blocks are recorded, it is the one that was put under the name.
    ensures put { OnOk result (D.reveals → (records : List Record) (puts : List NewObject) (o : NewObject) → HasRecords ledger.now records → AreOfPuts records puts
        → AreRecordsOf ledger.now.shape records (datas_of ledger.now.shape puts) → AreSurvivorsHonest ledger.now.shape ledger.now.lattice ledger.now.digests (datas_of ledger.now.shape puts) (D.state disk.old).files
        → Contains puts o → o.name ≡ name.now → Appends (O.state out.old).written (O.state out.new).written o.bytes) }

    // No object has the name.
    ensures unknown { (result ≡ Err GetFault.UnknownName) ↔ (get ledger.now.objects name.now ≡ None) }

    // A data block is damaged: the first one, found before anything is written.
    ensures damaged { (b : BlockId) → result ≡ Err (GetFault.Damaged b) → (p : Placed) × (get ledger.now.objects name.now ≡ Some p) × IsOneOf (data_of p.parts) b
        × (D.reveals → IsFirstDamaged ledger.now.shape ledger.now.digests (D.state disk.old).files (data_of p.parts) b × (out.new ≡ out.old)) }
    ensures damage_refused { D.reveals → (p : Placed) (b : BlockId) → get ledger.now.objects name.now ≡ Some p → IsFirstDamaged ledger.now.shape ledger.now.digests (D.state disk.old).files (data_of p.parts) b
        → (result ≡ Err (GetFault.Damaged b)) ⊎ IsOutside result }

    // Where all data blocks are intact it is got, but for faults and lack of memory.
    ensures complete { D.reveals → (p : Placed) → get ledger.now.objects name.now ≡ Some p → All (IsIntactBy ledger.now.shape ledger.now.digests (D.state disk.old).files) (data_of p.parts)
        → IsOk result ⊎ ((result ≡ Err GetFault.WriteFault) ⊎ IsOutside result) }

    // What was appended where it was not got: nothing, or where the second pass was cut short a first part.
    ensures unused { (result ≡ Err GetFault.UnknownName) ⊎ (result ≡ Err GetFault.NoMemory) → (out.new ≡ out.old) × (disk.new ≡ disk.old) }
    ensures part { IfErr result (λ fault. (p : Placed) → get ledger.now.objects name.now ≡ Some p
        → (out.new ≡ out.old) ⊎ HasBroken D.reveals ledger.now.shape ledger.now.digests (D.state disk.old).files (data_of p.parts) p.object.length (O.state out.old) [] (O.state out.new) fault) }

    // The disk is only read, and when the disk and the sink are at fault.
    ensures reads { OnlyReads D.reveals (result ≡ Err GetFault.DiskFault) (D.state disk.old) (D.state disk.new) }
    ensures out_kept { (O.state out.old).faults ≤ (O.state out.new).faults }
    ensures out_cause { result ≡ Err GetFault.WriteFault → Rose (O.state out.old).faults (O.state out.new).faults }
    ensures out_still { result ≢ Err GetFault.WriteFault → (O.state out.new).faults ≡ (O.state out.old).faults }
    ensures in_room { (p : Placed) (room : ℕ) → get ledger.now.objects name.now ≡ Some p → (O.state out.old).room ≡ Some room → p.object.length ≤ room
        → (result ≡ Err GetFault.WriteFault → ⊥) × ((O.state out.new).faults ≡ (O.state out.old).faults) }
{
    objects_are_of_records();
    let Some(object) = ledger.catalog().find(name) else {
        return Err(GetFault::UnknownName);
    };
    let Ok(mut cell) = cell_buffer(alloc, ledger) else {
        return Err(GetFault::NoMemory);
    };
    let Ok(mut page) = Page::large(alloc) else {
        return Err(GetFault::NoMemory);
    };
    match check_object(disk, ledger, name, cell.as_mut_slice()) {
        Ok(None) => (),
        Ok(Some(block)) => return Err(GetFault::Damaged { block }),
        Err(_) => return Err(GetFault::DiskFault),
    }
    match send_object(
        disk,
        ledger,
        name,
        object.length,
        cell.as_mut_slice(),
        &mut page,
        out,
    ) {
        Ok(()) => Ok(object.length),
        Err(fault) => Err(fault),
    }
}
