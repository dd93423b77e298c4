//! A new archive: its ledger.

ghost use Rattle.std.specs.Prelude.{◌≡◌, ◌≢◌, ◌↔◌, ◌+◌, ◌≤◌, [], ◌∷◌, length, drop, max, IsErr, IsTrue, IfOk, OnOk};
ghost use Rattle.aea_disk.specs.Files.{ChangesFile, ChangesOnly, MayBeCut};
ghost use Rattle.aea_disk.specs.State.{KeepsImages, During, IsSynced, IsFixed, HasRoom, HasRoomTo, IsReady, IsRoomy, TakesFrom, NeverFails};
ghost use Rattle.aea_disk.specs.Frames.{OnlyReads, OnlyWrites};
ghost use Rattle.aea_records.specs.Faults.{HasOpenHeader, IsNoArchive};
ghost use Rattle.aea_ledger.specs.Taking.{FitsTo, FitsMaking};
ghost use Rattle.aea_ledger.specs.Stops.{empty_ledger, IsNoneOrEmpty, IsBeingMade, MakesArchive, IsOpened, HasOpening};

use crate::entry::write_through;
use aea_disk::{Disk, DiskFault};
use aea_lattice::Shape;

/// Why no archive was made.
#[derive(Clone, Copy, Debug, PartialEq, Eq)]
pub enum CreateFault {
    /// There is an archive, or what was one.
    Occupied,
    /// The disk failed. It has counted it.
    DiskFault,
}

impl From<DiskFault> for CreateFault {
    ghost use Rattle.aea_ledger.specs.declared.create.CreateFault.TheVariants.{DiskFault};

    ghost from_gives = { λ _ fault. fault ≡ DiskFault };

    fn from(_fault: DiskFault) -> CreateFault {
        CreateFault::DiskFault
    }
}

// Syncs all files, and looks whether the ledger's file has an open header.
fn is_occupied<D: Disk>(disk: &mut D) -> Result<bool, DiskFault>
    ensures occupied { IfOk result (λ found. D.reveals → IsTrue found ↔ HasOpenHeader ((D.state disk.old).files 0)) }
    ensures durable { OnOk result (D.reveals → IsSynced (D.state disk.new)) }
    ensures reads { OnlyReads D.reveals (IsErr result) (D.state disk.old) (D.state disk.new) }
{
    disk.sync()?;
    let mut front = [0; 18];
    let count = disk.read(0, 0, &mut front)?;
    Ok(count == 18 && front[0] == 1)
}

// Empties the ledger's file, and syncs that.
fn empty<D: Disk>(disk: &mut D) -> Result<(), DiskFault>
    ensures emptied { OnOk result (D.reveals → (D.state disk.new).files 0 ≡ []) }
    ensures durable { OnOk result (D.reveals → IsSynced (D.state disk.new)) }
    ensures writes { OnlyWrites D.reveals (TakesFrom (D.state disk.old) 0 0) (FitsTo (D.state disk.old) 0 []) (IsErr result) (ChangesFile 0 (MayBeCut 0)) (D.state disk.old) (D.state disk.new) }
{
    disk.cut(0, 0)?;
    disk.sync()
}

// Makes the ledger's file one closed gate. No crash leaves an archive on the way.
fn begin<D: Disk>(disk: &mut D) -> Result<(), DiskFault>
    requires none { D.reveals → IsNoArchive ((D.state disk.old).files 0) }
    requires fixed { D.reveals → IsFixed (D.state disk.old) 0 }
    ensures any_moment { D.reveals → During (D.state disk.old) (D.state disk.new) (λ c. IsNoArchive (c 0)) }
    ensures reads { D.reveals → IsNoArchive ((D.state disk.new).files 0) }
    ensures begun { OnOk result (D.reveals → (D.state disk.new).files 0 ≡ 0 ∷ []) }
    ensures durable { OnOk result (D.reveals → IsSynced (D.state disk.new)) }
    ensures length { D.reveals → length ((D.state disk.new).files 0) ≤ max (length ((D.state disk.old).files 0)) 1 }
    ensures writes { OnlyWrites D.reveals (IsReady (D.state disk.old)) (FitsTo (D.state disk.old) 1 ((D.state disk.old).files 0)) (IsErr result) (ChangesOnly 0) (D.state disk.old) (D.state disk.new) }
{
    empty(disk)?;
    write_through(disk, 0, &[0])
}

// What follows the gate of the header in an empty ledger.
pub(crate) fn behind_gate(shape: &Shape) -> [u8; 17]
    ensures { result ≡ drop 1 (empty_ledger shape.now) }
{
    let [b0, b1, b2, b3] = shape.block().to_be_bytes();
    [
        b'A',
        b'E',
        b'A',
        b'L',
        b'E',
        b'D',
        b'G',
        b'1',
        shape.alpha(),
        shape.s(),
        shape.p(),
        shape.sites(),
        b0,
        b1,
        b2,
        b3,
        0,
    ]
}

// Writes what follows a closed gate at the start of the ledger's file, and then opens the gate.
fn finish<D: Disk>(disk: &mut D, shape: &Shape) -> Result<(), DiskFault>
    requires begun { D.reveals → (D.state disk.old).files 0 ≡ 0 ∷ [] }
    requires fixed { D.reveals → IsFixed (D.state disk.old) 0 }
    ensures any_moment { D.reveals → During (D.state disk.old) (D.state disk.new) (λ c. IsNoneOrEmpty shape.now (c 0)) }
    ensures reads { D.reveals → IsNoneOrEmpty shape.now ((D.state disk.new).files 0) }
    ensures created { OnOk result (D.reveals → (D.state disk.new).files 0 ≡ empty_ledger shape.now) }
    ensures durable { OnOk result (D.reveals → IsSynced (D.state disk.new)) }
    ensures length { D.reveals → length ((D.state disk.new).files 0) ≤ 18 }
    ensures writes { OnlyWrites D.reveals (IsReady (D.state disk.old)) (FitsMaking (D.state disk.old) shape.now) (IsErr result) (ChangesOnly 0) (D.state disk.old) (D.state disk.new) }
    ensures full { OnOk result (HasRoom (D.state disk.old) → HasRoomTo (D.state disk.new) 0 18) }
{
    write_through(disk, 1, &behind_gate(shape))?;
    write_through(disk, 0, &[1])
}

// Makes an archive where there is none.
fn make<D: Disk>(disk: &mut D, shape: &Shape) -> Result<(), DiskFault>
    requires none { D.reveals → IsNoArchive ((D.state disk.old).files 0) }
    requires fixed { D.reveals → IsFixed (D.state disk.old) 0 }
    ensures any_moment { D.reveals → During (D.state disk.old) (D.state disk.new) (λ c. IsNoneOrEmpty shape.now (c 0)) }
    ensures reads { D.reveals → IsNoneOrEmpty shape.now ((D.state disk.new).files 0) }
    ensures created { OnOk result (D.reveals → (D.state disk.new).files 0 ≡ empty_ledger shape.now) }
    ensures durable { OnOk result (D.reveals → IsSynced (D.state disk.new)) }
    ensures length { D.reveals → length ((D.state disk.new).files 0) ≤ max (length ((D.state disk.old).files 0)) 18 }
    ensures writes { OnlyWrites D.reveals (IsReady (D.state disk.old)) (FitsMaking (D.state disk.old) shape.now) (IsErr result) (ChangesOnly 0) (D.state disk.old) (D.state disk.new) }
    ensures full { OnOk result (HasRoom (D.state disk.old) → HasRoomTo (D.state disk.new) 0 18) }
{
    begin(disk)?;
    finish(disk, shape)
}

/// Makes an archive of this shape in file 0, the ledger, of a folder that has none. At `Ok` the file has exactly the
/// 18 bytes of a ledger without records, and every file is synced. The folder is occupied where the file has at least 18
/// bytes and the first of them is 1, and is then left as it is. It takes no memory.
pub fn create_ledger<D: Disk>(disk: &mut D, shape: &Shape) -> Result<(), CreateFault>
    // When the folder is occupied, and that it is left as it is.
    ensures occupied { result ≡ Err CreateFault.Occupied → D.reveals → HasOpenHeader ((D.state disk.old).files 0) }
    ensures free { OnOk result (D.reveals → IsNoArchive ((D.state disk.old).files 0)) }
    ensures untouched { result ≡ Err CreateFault.Occupied → KeepsImages (D.state disk.old) (D.state disk.new) × (D.reveals → (D.state disk.new).files ≡ (D.state disk.old).files) }

    // What holds at Ok. Nothing is pending on any file after any result but a fault.
    ensures created { OnOk result (D.reveals → (D.state disk.new).files 0 ≡ empty_ledger shape.now) }
    ensures durable { result ≢ Err CreateFault.DiskFault → D.reveals → IsSynced (D.state disk.new) }

    // What a stop at any moment leaves, and what is there after a fault. Any other result comes after the first sync.
    ensures stops { D.reveals → HasOpening (D.state disk.old) (D.state disk.new) (MakesArchive shape.now (D.state disk.old).files) }
    ensures opened { result ≢ Err CreateFault.DiskFault → D.reveals → IsOpened (D.state disk.old) (D.state disk.new) (MakesArchive shape.now (D.state disk.old).files) }
    ensures reads { D.reveals → IsBeingMade shape.now ((D.state disk.old).files 0) ((D.state disk.new).files 0) }
    ensures length { D.reveals → length ((D.state disk.new).files 0) ≤ max (length ((D.state disk.old).files 0)) 18 }

    // No other file changes, and when the disk is at fault.
    ensures writes { OnlyWrites D.reveals (IsReady (D.state disk.old)) (FitsMaking (D.state disk.old) shape.now) (result ≡ Err CreateFault.DiskFault) (ChangesOnly 0) (D.state disk.old) (D.state disk.new) }
    ensures full { OnOk result (HasRoom (D.state disk.old) → HasRoomTo (D.state disk.new) 0 18) }
    ensures refused { D.reveals → HasOpenHeader ((D.state disk.old).files 0) → IsReady (D.state disk.old) → NeverFails (IsRoomy (D.state disk.old)) (result ≡ Err CreateFault.Occupied) (D.state disk.old) (D.state disk.new) }
{
    if is_occupied(disk)? {
        return Err(CreateFault::Occupied);
    }
    make(disk, shape)?;
    Ok(())
}
