// The ledger becomes the one that is made where a text is kept.
ghost use Rattle.std.specs.Prelude.{◌≡◌, ◌≢◌, ◌+◌, ◌<◌, ◌≤◌, ℕ, List, length, take, slice_index, IsErr, IfOk, OnOk};
ghost use Rattle.aea_disk.specs.Ends.{greatest_place};
ghost use Rattle.aea_disk.specs.Files.{ChangesOnly};
ghost use Rattle.aea_disk.specs.State.{During, KeepsImages, IsSynced, IsRoomy};
ghost use Rattle.aea_disk.specs.Frames.{OnlyReads, OnlyWrites};
ghost use Rattle.aea_copies.specs.Format.{text_of};
ghost use Rattle.aea_copies.specs.Kept.{IsCopyFile, mended};
ghost use Rattle.aea_copy_writer.specs.Changes.{FitsChange};
ghost use Rattle.aea_adopt.specs.Choosing.{IsKept};
ghost use Rattle.aea_adopt.specs.Mending.{IsGateAt, IsGateAfter, MayBeMended};

use crate::choice::Kept;
use aea_copy_writer::{close_gate, make_ledger};
use aea_disk::{Disk, DiskFault};

// What is after a text of the ledger.
#[derive(Clone, Copy, Debug)]
pub(crate) enum Gate {
    Missing,
    Open,
    Closed,
}

// Which gate is at a place of the ledger.
fn gate_at<D: Disk>(disk: &mut D, at: u64) -> Result<Gate, DiskFault>
    requires { at ≤ greatest_place }
    ensures gate { IfOk result (λ gate. D.reveals → IsGateAt ((D.state disk.old).files 0) at gate) }
    ensures reads { OnlyReads D.reveals (IsErr result) (D.state disk.old) (D.state disk.new) }
{
    let mut byte = [0; 1];
    let count = disk.read(0, at, &mut byte)?;
    if count == 0 {
        return Ok(Gate::Missing);
    }
    if byte[0] == 1 {
        Ok(Gate::Open)
    } else {
        Ok(Gate::Closed)
    }
}

// Which gate is after the text that is kept, where the ledger begins with it.
fn gate_after<D: Disk>(disk: &mut D, kept: &Kept) -> Result<Gate, DiskFault>
    requires { kept.now.standing.text ≤ greatest_place }
    ensures gate { IfOk result (λ gate. D.reveals → (pieces : List (List ℕ)) → IsKept (D.state disk.old).files pieces kept.now → IsGateAfter (text_of pieces) ((D.state disk.old).files 0) gate) }
    ensures reads { OnlyReads D.reveals (IsErr result) (D.state disk.old) (D.state disk.new) }
{
    if !kept.standing.in_ledger {
        return Ok(Gate::Missing);
    }
    gate_at(disk, kept.standing.text)
}

// The ledger becomes the one that is made: it stays, or one gate is closed, or it is made anew of a copy.
pub(crate) fn mend_ledger<D: Disk>(disk: &mut D, kept: &Kept) -> Result<(), DiskFault>
    requires close { kept.now.standing.text ≤ greatest_place }
    requires source { IsCopyFile kept.now.source }
    requires synced { D.reveals → IsSynced (D.state disk.old) }
    ensures any_moment { D.reveals → (pieces : List (List ℕ)) → IsKept (D.state disk.old).files pieces kept.now → During (D.state disk.old) (D.state disk.new) (λ c. MayBeMended (text_of pieces) ((D.state disk.old).files 0) (c 0)) }
    ensures reads { D.reveals → (pieces : List (List ℕ)) → IsKept (D.state disk.old).files pieces kept.now → MayBeMended (text_of pieces) ((D.state disk.old).files 0) ((D.state disk.new).files 0) }
    ensures mended { OnOk result (D.reveals → (pieces : List (List ℕ)) → IsKept (D.state disk.old).files pieces kept.now → (D.state disk.new).files 0 ≡ mended (text_of pieces) ((D.state disk.old).files 0)) }
    ensures idle { D.reveals → (pieces : List (List ℕ)) → IsKept (D.state disk.old).files pieces kept.now → mended (text_of pieces) ((D.state disk.old).files 0) ≡ (D.state disk.old).files 0 → KeepsImages (D.state disk.old) (D.state disk.new) }
    ensures durable { OnOk result (D.reveals → (pieces : List (List ℕ)) → IsKept (D.state disk.old).files pieces kept.now → IsSynced (D.state disk.new)) }
    ensures writes { OnlyWrites D.reveals (D.state disk.old).free (FitsChange (D.state disk.old) 0 (kept.now.standing.text + 1)) (IsErr result) (ChangesOnly 0) (D.state disk.old) (D.state disk.new) }
{
    match gate_after(disk, kept)? {
        Gate::Missing => {
            let _made = make_ledger(disk, kept.source, kept.standing.text)?;
            Ok(())
        }
        Gate::Open => close_gate(disk, kept.standing.text),
        Gate::Closed => Ok(()),
    }
}
