//! A copy gets the entries of further records.

ghost use Rattle.std.specs.Prelude.{◌≡◌, ◌+◌, ◌^◌, ◌<◌, ◌≤◌, false, ℕ, List, length, get_or, IsErr, IfOk, IfSome, MatchOption};
ghost use Rattle.aea_disk.specs.Ends.{greatest_place};
ghost use Rattle.aea_disk.specs.Files.{ChangesOnly, KeepsFiles};
ghost use Rattle.aea_disk.specs.Frames.{OnlyWrites};
ghost use Rattle.aea_disk.specs.State.{During, IsSynced};
ghost use Rattle.aea_records.specs.Format.{open_gate};
ghost use Rattle.aea_copies.specs.Format.{chain};
ghost use Rattle.aea_copies.specs.Kept.{IsCopyFile};
ghost use Rattle.aea_copy_writer.specs.Entries.{HasPieces, FitsEntries};
ghost use Rattle.aea_mirror.specs.Extending.{IsGated, IsShut, IsGateOf, Extends, Phase, HasEntries, EndsAfter, FitsBoth, HasExtended, FitsExtending};

use crate::tail::Tail;
use aea_copy_writer::{open_gate_at, write_entries};
use aea_disk::{Disk, DiskFault};

/// Writes an entry for each record of the ledger from one place up to another after the gate that ends a copy, with a closed
/// gate after the last, syncs them, and then opens the gate, and syncs that. It answers where the copy ends then; None where the
/// ledger has no whole records there.
pub(crate) fn extend_copy<D: Disk>(
    disk: &mut D,
    file: u8,
    tail: &Tail,
    from: u64,
    until: u64,
) -> Result<Option<Tail>, DiskFault>
    requires file { IsCopyFile file }
    requires places { (1 ≤ from) × (from ≤ until) × (until ≤ 2 ^ 58) }
    requires gate { tail.now.gate ≤ 2 ^ 58 }
    requires gated { D.reveals → IsGated (D.state disk.old) file tail.now.gate }
    ensures extends { D.reveals → Extends file tail.now.gate (D.state disk.old) (D.state disk.new) }
    ensures body { D.reveals → (more : List (List ℕ)) → HasPieces false more from until ((D.state disk.old).files 0) → tail.now.gate + length (chain tail.now.link more) ≤ greatest_place → During (D.state disk.old) (D.state disk.new) (λ c. get_or (c file) tail.now.gate 0 ≡ open_gate → HasEntries tail.now.gate tail.now.link more (c file)) }
    ensures opened { IfOk result (λ found. D.reveals → (more : List (List ℕ)) → HasPieces false more from until ((D.state disk.old).files 0) → tail.now.gate + length (chain tail.now.link more) ≤ greatest_place → MatchOption found ⊥ (λ next. EndsAfter tail.now next more × ((get_or ((D.state disk.new).files file) tail.now.gate 0 ≡ open_gate) × HasEntries tail.now.gate tail.now.link more ((D.state disk.new).files file)))) }
    ensures near { IfOk result (λ found. IfSome found (λ next. next.gate ≤ 2 ^ 58)) }
    ensures durable { IfOk result (λ found. IfSome found (λ next. D.reveals → IsSynced (D.state disk.new))) }
    ensures writes { OnlyWrites D.reveals (D.state disk.old).free (FitsEntries (D.state disk.old) file tail.now.gate tail.now.link from until) (IsErr result) (ChangesOnly file) (D.state disk.old) (D.state disk.new) }
{
    let Some(written) = write_entries(disk, file, tail.gate, from, until, &tail.link)? else {
        return Ok(None);
    };
    disk.sync()?;
    open_gate_at(disk, file, tail.gate)?;
    let gate = written.gate;
    let link = written.link;
    Ok(Some(Tail { gate, link }))
}

/// Extends the first copy and then the second, as `extend_copy` does. It answers where both end then; None where the ledger has
/// no whole records there.
pub(crate) fn extend_both<D: Disk>(
    disk: &mut D,
    first: &Tail,
    second: &Tail,
    from: u64,
    until: u64,
) -> Result<Option<(Tail, Tail)>, DiskFault>
    requires places { (1 ≤ from) × (from ≤ until) × (until ≤ 2 ^ 58) }
    requires gates { (first.now.gate ≤ 2 ^ 58) × (second.now.gate ≤ 2 ^ 58) }
    requires synced { D.reveals → IsSynced (D.state disk.old) }
    requires shut { D.reveals → (f g : ℕ) → IsGateOf first.now.gate second.now.gate f g → IsShut g ((D.state disk.old).files f) }
    ensures phase { D.reveals → Phase first.now.gate second.now.gate (D.state disk.old) (D.state disk.new) }
    ensures bodies { D.reveals → (more : List (List ℕ)) → FitsBoth first.now second.now more from until ((D.state disk.old).files 0) → During (D.state disk.old) (D.state disk.new) (λ c. (f g : ℕ) → IsGateOf first.now.gate second.now.gate f g → get_or (c f) g 0 ≡ open_gate → HasEntries g first.now.link more (c f)) }
    ensures opened { IfOk result (λ found. D.reveals → (more : List (List ℕ)) → FitsBoth first.now second.now more from until ((D.state disk.old).files 0) → MatchOption found ⊥ (λ both. HasExtended first.now second.now both.0 both.1 more (D.state disk.new).files)) }
    ensures near { IfOk result (λ found. IfSome found (λ both. (both.0.gate ≤ 2 ^ 58) × (both.1.gate ≤ 2 ^ 58))) }
    ensures durable { IfOk result (λ found. IfSome found (λ both. D.reveals → IsSynced (D.state disk.new))) }
    ensures writes { OnlyWrites D.reveals (D.state disk.old).free (FitsExtending (D.state disk.old) first.now second.now from until) (IsErr result) (KeepsFiles (λ f. f ≤ 64)) (D.state disk.old) (D.state disk.new) }
{
    let Some(one) = extend_copy(disk, 65, first, from, until)? else {
        return Ok(None);
    };
    let Some(two) = extend_copy(disk, 66, second, from, until)? else {
        return Ok(None);
    };
    Ok(Some((one, two)))
}
