//! The archive of a rehearsal, made anew.

ghost use Rattle.std.specs.Prelude.{◌≡◌, ◌*◌, ◌≤◌, true, [], length, IfOk, OnOk};
ghost use Rattle.aea_lattice.specs.declared.shape.Shape.{Shape};
ghost use Rattle.aea_disk.specs.State.{Passes, IsFixed, IsSynced, HasRoomTo};
ghost use Rattle.aea_disk.specs.Frames.{OnlyReads};
ghost use Rattle.aea_records.specs.Format.{nodes_for};
ghost use Rattle.aea_records.specs.Laws.{IsSomeLedger};
ghost use Rattle.aea_ledger.specs.Values.{IsThisOne};
ghost use Rattle.aea_ledger.specs.Next.{AreItsRecords};
ghost use Rattle.aea_ledger.specs.Stops.{empty_ledger};
ghost use Rattle.aea_rehearse.specs.Rehearsed.{IsRehearsalShape};
ghost use Rattle.aea_rehearse.specs.Rooms.{IsWilling, HasRehearsalRoom};
ghost use Rattle.aea_rehearse.specs.Building.{IsBuilt};

use aea_append::{PutFault, put};
use aea_archive::none_record_none;
use aea_disk::Disk;
use aea_envelope::{cells_have_lengths, cells_have_parts};
use aea_io::SureSource;
use aea_lattice::Shape;
use aea_ledger::{CreateFault, Ledger, OpenFault, create_ledger, open_ledger};
use aea_records::ledgers_have_one_reading;
use std::alloc::{AllocError, Global};

// The shape of the archive of a rehearsal: AE(3,2,5), blocks of 512 bytes, ten sites.
const SHAPE: Shape = Shape {
    alpha: 3,
    s: 2,
    p: 5,
    block: 512,
    sites: 10,
};

/// The shape of a rehearsal.
pub fn rehearsal_shape() -> Shape
    ensures { IsRehearsalShape result }
{
    SHAPE
}

/// Makes an archive without objects of this shape on a disk whose ledger is empty.
pub fn create<D: Disk>(disk: &mut D, shape: &Shape)
    requires reveals { D.reveals }
    requires empty { (D.state disk.old).files 0 ≡ [] }
    requires willing { IsWilling (D.state disk.old) }
    requires room { HasRoomTo (D.state disk.old) 0 18 }
    ensures made { (D.state disk.new).files 0 ≡ empty_ledger shape.now }
    ensures time { Passes (D.state disk.old) (D.state disk.new) }
    ensures steady { (D.state disk.new).faults ≡ (D.state disk.old).faults }
{
    match create_ledger(disk, shape) {
        Ok(()) => (),
        Err(CreateFault::Occupied) => unreachable!(),
        Err(CreateFault::DiskFault) => unreachable!(),
    }
}

/// Opens the archive, which is one.
pub fn open<D: Disk>(alloc: Global, disk: &mut D) -> Result<Ledger, AllocError>
    requires reveals { D.reveals }
    requires archive { IsSomeLedger ((D.state disk.old).files 0) }
    requires willing { IsWilling (D.state disk.old) }
    ensures this { IfOk result (λ v. IsThisOne v ((D.state disk.old).files 0)) }
    ensures live { IfOk result (λ v. v.live ≡ true) }
    ensures synced { IsSynced (D.state disk.new) }
    ensures reads { OnlyReads D.reveals ⊥ (D.state disk.old) (D.state disk.new) }
{
    match open_ledger(alloc, disk) {
        Ok(ledger) => Ok(ledger),
        Err(OpenFault::NoMemory) => Err(AllocError),
        Err(OpenFault::NoArchive) => unreachable!(),
        Err(OpenFault::LedgerBad { .. }) => unreachable!(),
        Err(OpenFault::DiskFault) => unreachable!(),
    }
}

// Puts the object into the archive, which has none.
fn store<D: Disk>(
    alloc: Global,
    ledger: &mut Ledger,
    disk: &mut D,
    bytes: &[u8],
) -> Result<(), AllocError>
    requires reveals { D.reveals }
    requires live { ledger.old.live ≡ true }
    requires none { AreItsRecords ledger.old [] ((D.state disk.old).files 0) }
    requires fixed { IsFixed (D.state disk.old) 0 }
    requires shape { IsRehearsalShape ledger.old.shape }
    requires few { length bytes.now ≤ 2000 * 512 }
    requires room { HasRehearsalRoom (nodes_for ledger.old.shape (length bytes.now)) (D.state disk.old) }
    ensures built { OnOk result (IsBuilt bytes.now ledger.new (D.state disk.new).files) }
    ensures time { Passes (D.state disk.old) (D.state disk.new) }
    ensures steady { (D.state disk.new).faults ≡ (D.state disk.old).faults }
{
    cells_have_lengths();
    cells_have_parts();
    none_record_none();
    let mut source = SureSource::new(bytes);
    match put(alloc, ledger, disk, b"rehearsal", &mut source) {
        Ok(_) => Ok(()),
        Err(PutFault::NoMemory) => Err(AllocError),
        Err(PutFault::BadName) => unreachable!(),
        Err(PutFault::NameTaken) => unreachable!(),
        Err(PutFault::CatalogFull) => unreachable!(),
        Err(PutFault::HeadDamaged { .. }) => unreachable!(),
        Err(PutFault::Full { .. }) => unreachable!(),
        Err(PutFault::ReadFault) => unreachable!(),
        Err(PutFault::DiskFault) => unreachable!(),
    }
}

/// Makes an archive on a disk whose ledger is empty, with one object of these bytes.
pub(crate) fn build<D: Disk>(
    alloc: Global,
    disk: &mut D,
    bytes: &[u8],
) -> Result<Ledger, AllocError>
    requires reveals { D.reveals }
    requires empty { (D.state disk.old).files 0 ≡ [] }
    requires few { length bytes.now ≤ 2000 * 512 }
    requires room { (shape : Shape) → IsRehearsalShape shape → HasRehearsalRoom (nodes_for shape (length bytes.now)) (D.state disk.old) }
    ensures built { IfOk result (λ v. IsBuilt bytes.now v (D.state disk.new).files) }
    ensures time { Passes (D.state disk.old) (D.state disk.new) }
    ensures steady { (D.state disk.new).faults ≡ (D.state disk.old).faults }
{
    ledgers_have_one_reading();
    let shape = rehearsal_shape();
    create(disk, &shape);
    let mut ledger = open(alloc, disk)?;
    store(alloc, &mut ledger, disk, bytes)?;
    Ok(ledger)
}
