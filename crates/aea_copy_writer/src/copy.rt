// A copy is made anew of what the ledger begins with.
ghost use Rattle.std.specs.Prelude.{◌≡◌, ◌+◌, ◌^◌, ◌≤◌, [], ◌∷◌, ◌++◌, ℕ, List, true, length, drop, IsErr, IfOk, IfSome, MatchOption, OnOk};
ghost use Rattle.aea_disk.specs.Files.{ChangesFile, ChangesOnly};
ghost use Rattle.aea_disk.specs.State.{During, IsSynced, IsFixed};
ghost use Rattle.aea_disk.specs.Frames.{OnlyWrites};
ghost use Rattle.aea_copies.specs.Format.{whole_copy};
ghost use Rattle.aea_copies.specs.Kept.{IsCopyFile};
ghost use Rattle.aea_copy_writer.specs.Changes.{KeepsFront};
ghost use Rattle.aea_records.specs.TableLaws.{AreBytes};
ghost use Rattle.aea_copy_writer.specs.Parts.{part_of};
ghost use Rattle.aea_copy_writer.specs.Anew.{IsOldNoneOrMade, IsClosed, RevealsCopy, CanMake, FitsCopy};

use crate::anew::clear;
use crate::entries::{Written, write_entries};
use crate::through::open_gate_at;
use aea_disk::{Disk, DiskFault};

// A file of one closed gate becomes a copy of the pieces that the ledger begins with, up to this place, but for its own gate,
// which stays closed.
fn fill_copy<D: Disk>(disk: &mut D, file: u8, until: u64) -> Result<Option<Written>, DiskFault>
    requires file { IsCopyFile file }
    requires place { until ≤ 2 ^ 58 }
    requires begun { D.reveals → (D.state disk.old).files file ≡ 0 ∷ [] }
    ensures filled { IfOk result (λ found. D.reveals → (pieces : List (List ℕ)) → CanMake pieces until ((D.state disk.old).files 0) → MatchOption found ⊥ (λ w. RevealsCopy pieces w × IsClosed (whole_copy pieces) ((D.state disk.new).files file))) }
    ensures bytes { IfOk result (λ found. IfSome found (λ w. D.reveals → AreBytes (part_of ((D.state disk.old).files 0) 0 until))) }
    ensures near { IfOk result (λ found. IfSome found (λ w. w.gate ≤ 2 ^ 58)) }
    ensures durable { IfOk result (λ found. IfSome found (λ w. D.reveals → IsSynced (D.state disk.new))) }
    ensures writes { OnlyWrites D.reveals (D.state disk.old).free (FitsCopy (D.state disk.old) file until) (IsErr result) (ChangesFile file (KeepsFront 1)) (D.state disk.old) (D.state disk.new) }
{
    disk.write(file, 1, b"AEACOPY1\x01")?;
    let Some(written) = write_entries(disk, file, 9, 0, until, &[0; 32])? else {
        return Ok(None);
    };
    disk.sync()?;
    Ok(Some(written))
}

/// Makes a copy anew, of the pieces that the ledger's file begins with, up to this place. At each moment it is as it was, or
/// not begun, or whole. At `Ok` it is whole, and it answers where the gate that ends its entries is, and the last link; `None`
/// where the ledger does not begin with pieces that a copy can have.
pub fn make_copy<D: Disk>(disk: &mut D, file: u8, until: u64) -> Result<Option<Written>, DiskFault>
    requires file { IsCopyFile file }
    requires place { until ≤ 2 ^ 58 }
    requires fixed { D.reveals → IsFixed (D.state disk.old) file }
    ensures any_moment { D.reveals → (pieces : List (List ℕ)) → CanMake pieces until ((D.state disk.old).files 0) → During (D.state disk.old) (D.state disk.new) (λ c. IsOldNoneOrMade (whole_copy pieces) ((D.state disk.old).files file) (c file)) }
    ensures reads { D.reveals → (pieces : List (List ℕ)) → CanMake pieces until ((D.state disk.old).files 0) → IsOldNoneOrMade (whole_copy pieces) ((D.state disk.old).files file) ((D.state disk.new).files file) }
    ensures made { IfOk result (λ found. D.reveals → (pieces : List (List ℕ)) → CanMake pieces until ((D.state disk.old).files 0) → MatchOption found ⊥ (λ w. RevealsCopy pieces w × ((D.state disk.new).files file ≡ whole_copy pieces))) }
    ensures bytes { IfOk result (λ found. IfSome found (λ w. D.reveals → AreBytes (part_of ((D.state disk.old).files 0) 0 until))) }
    ensures near { IfOk result (λ found. IfSome found (λ w. w.gate ≤ 2 ^ 58)) }
    ensures durable { IfOk result (λ found. IfSome found (λ w. D.reveals → IsSynced (D.state disk.new))) }
    ensures writes { OnlyWrites D.reveals (D.state disk.old).free (FitsCopy (D.state disk.old) file until) (IsErr result) (ChangesOnly file) (D.state disk.old) (D.state disk.new) }
{
    if until == 0 {
        return Ok(None);
    }
    clear(disk, file)?;
    let Some(written) = fill_copy(disk, file, until)? else {
        return Ok(None);
    };
    open_gate_at(disk, file, 0)?;
    Ok(Some(written))
}
