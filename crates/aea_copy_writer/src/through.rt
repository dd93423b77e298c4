// Writes that are synced.
ghost use Rattle.std.specs.Prelude.{◌≡◌, ◌+◌, ◌^◌, ◌≤◌, [], ◌∷◌, length, IsErr, OnOk};
ghost use Rattle.aea_disk.specs.Files.{ChangesFile, Holds, Torn, MayBeCut};
ghost use Rattle.aea_disk.specs.State.{Settles, IsSynced};
ghost use Rattle.aea_disk.specs.Frames.{OnlyWrites};
ghost use Rattle.aea_copy_writer.specs.Changes.{FitsChange};

use aea_disk::{Disk, DiskFault};

// Writes bytes of a file, and makes them durable.
pub(crate) fn write_through<D: Disk>(
    disk: &mut D,
    file: u8,
    at: u64,
    bytes: &[u8],
) -> Result<(), DiskFault>
    requires file { file ≤ 66 }
    requires range { at + length bytes.now ≤ 2 ^ 62 }
    ensures written { OnOk result (D.reveals → ChangesFile file (Holds at bytes.now) (D.state disk.old).files (D.state disk.new).files) }
    ensures durable { OnOk result (D.reveals → IsSynced (D.state disk.new)) }
    ensures settled { Settles (D.state disk.old) (D.state disk.new) }
    ensures writes { OnlyWrites D.reveals (D.state disk.old).free (FitsChange (D.state disk.old) file (at + length bytes.now)) (IsErr result) (ChangesFile file (Torn at (length bytes.now))) (D.state disk.old) (D.state disk.new) }
{
    disk.write(file, at, bytes)?;
    disk.sync()
}

// Empties a file, and makes that durable.
pub(crate) fn empty<D: Disk>(disk: &mut D, file: u8) -> Result<(), DiskFault>
    requires { file ≤ 66 }
    ensures emptied { OnOk result (D.reveals → (D.state disk.new).files file ≡ []) }
    ensures durable { OnOk result (D.reveals → IsSynced (D.state disk.new)) }
    ensures writes { OnlyWrites D.reveals (D.state disk.old).free (FitsChange (D.state disk.old) file 0) (IsErr result) (ChangesFile file (MayBeCut 0)) (D.state disk.old) (D.state disk.new) }
{
    disk.cut(file, 0)?;
    disk.sync()
}

/// Opens the gate at this place of a file, and makes that durable. Only this byte changes, also in what a crash leaves.
pub fn open_gate_at<D: Disk>(disk: &mut D, file: u8, at: u64) -> Result<(), DiskFault>
    requires file { file ≤ 66 }
    requires place { at ≤ 2 ^ 60 }
    ensures opened { OnOk result (D.reveals → ChangesFile file (Holds at (1 ∷ [])) (D.state disk.old).files (D.state disk.new).files) }
    ensures durable { OnOk result (D.reveals → IsSynced (D.state disk.new)) }
    ensures settled { Settles (D.state disk.old) (D.state disk.new) }
    ensures writes { OnlyWrites D.reveals (D.state disk.old).free (FitsChange (D.state disk.old) file (at + 1)) (IsErr result) (ChangesFile file (Torn at 1)) (D.state disk.old) (D.state disk.new) }
{
    write_through(disk, file, at, &[1])
}

/// Closes the gate at this place of the ledger's file, and makes that durable. Only this byte changes, also in what a crash
/// leaves.
pub fn close_gate<D: Disk>(disk: &mut D, at: u64) -> Result<(), DiskFault>
    requires place { at ≤ 2 ^ 60 }
    ensures closed { OnOk result (D.reveals → ChangesFile 0 (Holds at (0 ∷ [])) (D.state disk.old).files (D.state disk.new).files) }
    ensures durable { OnOk result (D.reveals → IsSynced (D.state disk.new)) }
    ensures writes { OnlyWrites D.reveals (D.state disk.old).free (FitsChange (D.state disk.old) 0 (at + 1)) (IsErr result) (ChangesFile 0 (Torn at 1)) (D.state disk.old) (D.state disk.new) }
{
    write_through(disk, 0, at, &[0])
}
