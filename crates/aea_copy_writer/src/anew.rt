// A file is emptied, so that it can be made anew.
ghost use Rattle.std.specs.Prelude.{◌≡◌, ◌≤◌, [], ◌∷◌, IsErr, OnOk};
ghost use Rattle.aea_disk.specs.Files.{ChangesOnly};
ghost use Rattle.aea_disk.specs.State.{During, IsSynced, IsFixed};
ghost use Rattle.aea_disk.specs.Frames.{OnlyWrites};
ghost use Rattle.aea_copy_writer.specs.Changes.{FitsChange};
ghost use Rattle.aea_copy_writer.specs.Anew.{IsOldOrNone};

use crate::through::{empty, write_through};
use aea_disk::{Disk, DiskFault};

// Makes a file one closed gate. At each moment it is as it was, or not begun.
pub(crate) fn clear<D: Disk>(disk: &mut D, file: u8) -> Result<(), DiskFault>
    requires file { file ≤ 66 }
    requires fixed { D.reveals → IsFixed (D.state disk.old) file }
    ensures any_moment { D.reveals → During (D.state disk.old) (D.state disk.new) (λ c. IsOldOrNone ((D.state disk.old).files file) (c file)) }
    ensures reads { D.reveals → IsOldOrNone ((D.state disk.old).files file) ((D.state disk.new).files file) }
    ensures cleared { OnOk result (D.reveals → (D.state disk.new).files file ≡ 0 ∷ []) }
    ensures durable { OnOk result (D.reveals → IsSynced (D.state disk.new)) }
    ensures writes { OnlyWrites D.reveals (D.state disk.old).free (FitsChange (D.state disk.old) file 1) (IsErr result) (ChangesOnly file) (D.state disk.old) (D.state disk.new) }
{
    empty(disk, file)?;
    write_through(disk, file, 0, &[0])
}
