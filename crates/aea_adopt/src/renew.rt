// A copy that is bad, or has less text than is kept, is made anew.
ghost use Rattle.std.specs.Prelude.{◌≡◌, ◌≢◌, ◌+◌, ◌<◌, ◌≤◌, ℕ, List, false, IsTrue, IsErr, OnOk};
ghost use Rattle.aea_disk.specs.Ends.{greatest_place};
ghost use Rattle.aea_disk.specs.Files.{ChangesOnly};
ghost use Rattle.aea_disk.specs.State.{During, KeepsImages, IsSynced};
ghost use Rattle.aea_disk.specs.Frames.{OnlyWrites};
ghost use Rattle.aea_copies.specs.Format.{whole_copy};
ghost use Rattle.aea_copies.specs.Kept.{IsCopyFile};
ghost use Rattle.aea_copy_writer.specs.Anew.{FitsCopy, CanMake};
ghost use Rattle.aea_adopt.specs.Mending.{MayBeRenewed, IsUp};

use aea_copy_reader::Judged;
use aea_copy_writer::make_copy;
use aea_disk::{Disk, DiskFault};

// Whether a copy was judged to have so much text.
fn is_up(judged: &Judged, text: u64) -> bool
    ensures is { IsTrue result → IsUp judged.now text }
    ensures other { result ≡ false → IsUp judged.now text → ⊥ }
{
    match judged {
        Judged::Good(standing) => standing.text == text,
        Judged::Bad { at: _ } => false,
    }
}

// A copy becomes good with the pieces that the ledger begins with, up to this place, where it was not judged to have them.
pub(crate) fn renew<D: Disk>(
    disk: &mut D,
    file: u8,
    judged: &Judged,
    text: u64,
) -> Result<(), DiskFault>
    requires file { IsCopyFile file }
    requires close { text ≤ greatest_place }
    requires synced { D.reveals → IsSynced (D.state disk.old) }
    ensures any_moment { D.reveals → (pieces : List (List ℕ)) → CanMake pieces text ((D.state disk.old).files 0) → During (D.state disk.old) (D.state disk.new) (λ c. MayBeRenewed pieces ((D.state disk.old).files file) (c file)) }
    ensures reads { D.reveals → (pieces : List (List ℕ)) → CanMake pieces text ((D.state disk.old).files 0) → MayBeRenewed pieces ((D.state disk.old).files file) ((D.state disk.new).files file) }
    ensures renewed { OnOk result (D.reveals → (pieces : List (List ℕ)) → CanMake pieces text ((D.state disk.old).files 0) → (IsUp judged.now text → ⊥) → (D.state disk.new).files file ≡ whole_copy pieces) }
    ensures up { IsUp judged.now text → (D.reveals → (D.state disk.new).files ≡ (D.state disk.old).files) × KeepsImages (D.state disk.old) (D.state disk.new) }
    ensures durable { OnOk result (D.reveals → (pieces : List (List ℕ)) → CanMake pieces text ((D.state disk.old).files 0) → IsSynced (D.state disk.new)) }
    ensures writes { OnlyWrites D.reveals (D.state disk.old).free (FitsCopy (D.state disk.old) file text) (IsErr result) (ChangesOnly file) (D.state disk.old) (D.state disk.new) }
{
    if is_up(judged, text) {
        return Ok(());
    }
    let _made = make_copy(disk, file, text)?;
    Ok(())
}
