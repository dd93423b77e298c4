//! Copies are made of a ledger that has none.

ghost use Rattle.std.specs.Prelude.{◌≡◌, ◌^◌, ◌≤◌, ℕ, List, get_or, IsTrue, ◌↔◌, IsErr, IfOk, IfSome, MatchOption};
ghost use Rattle.aea_disk.specs.Ends.{EndsAt};
ghost use Rattle.aea_disk.specs.Files.{KeepsFiles};
ghost use Rattle.aea_disk.specs.Frames.{OnlyReads, OnlyWrites};
ghost use Rattle.aea_disk.specs.State.{During, IsSynced};
ghost use Rattle.aea_records.specs.TableLaws.{AreBytes};
ghost use Rattle.aea_copies.specs.Format.{whole_copy};
ghost use Rattle.aea_copies.specs.Kept.{IsCopyFile};
ghost use Rattle.aea_copy_writer.specs.Anew.{CanMake};
ghost use Rattle.aea_copy_writer.specs.Parts.{part_of};
ghost use Rattle.aea_mirror.specs.Guarding.{AreFixed, EndsCopy};
ghost use Rattle.aea_mirror.specs.Refusing.{NeverEnds, WritesNone};
ghost use Rattle.aea_mirror.specs.Shown.{NoneBegun};
ghost use Rattle.aea_mirror.specs.Starting.{MayBeStarted, HasStarted, FitsMaking, FitsStart, ShowsNoMore};

use crate::further::{Further, look_further};
use crate::tail::Tail;
use aea_copy_writer::{Written, make_copy};
use aea_disk::{Disk, DiskFault};

/// Where the text of copies that were begun ends, and where the entries of each do.
#[derive(Clone, Copy, Debug)]
pub(crate) struct Begun {
    pub(crate) end: u64,
    pub(crate) first: Tail,
    pub(crate) second: Tail,
}

// The ledger has a header, whose gate is open.
fn is_headed<D: Disk>(disk: &mut D) -> Result<bool, DiskFault>
    ensures headed { IfOk result (λ is. D.reveals → (IsTrue is ↔ get_or ((D.state disk.old).files 0) 0 0 ≡ 1)) }
    ensures reads { OnlyReads D.reveals (IsErr result) (D.state disk.old) (D.state disk.new) }
{
    let mut gate = [0; 1];
    let count = disk.read(0, 0, &mut gate)?;
    Ok(count == 1 && gate[0] == 1)
}

// Where the records of the ledger end, at a gate that is not open; None where no whole records lead there from a header.
fn records_end<D: Disk>(disk: &mut D) -> Result<Option<u64>, DiskFault>
    ensures ends { IfOk result (λ found. D.reveals → MatchOption found (NeverEnds ((D.state disk.old).files 0)) (λ last. EndsAt ((D.state disk.old).files 0) last)) }
    ensures near { IfOk result (λ found. IfSome found (λ last. (17 ≤ last) × (last ≤ 2 ^ 58))) }
    ensures reads { OnlyReads D.reveals (IsErr result) (D.state disk.old) (D.state disk.new) }
{
    if !is_headed(disk)? {
        return Ok(None);
    }
    match look_further(disk, 17, 63)? {
        Further::Nothing => Ok(Some(17)),
        Further::Until { last } => Ok(Some(last)),
        Further::Broken => Ok(None),
    }
}

// Where a copy ends that was written.
fn tail_of(written: &Written) -> Tail
    ensures gate { result.gate ≡ written.now.gate }
    ensures link { result.link ≡ written.now.link }
{
    let gate = written.gate;
    let link = written.link;
    Tail { gate, link }
}

// Makes the first copy and then the second, of the pieces that the ledger begins with, up to this place. It answers where each
// ends; None where the ledger does not begin with pieces that a copy can have.
fn make_both<D: Disk>(disk: &mut D, until: u64) -> Result<Option<(Tail, Tail)>, DiskFault>
    requires place { until ≤ 2 ^ 58 }
    requires synced { D.reveals → IsSynced (D.state disk.old) }
    requires none { D.reveals → NoneBegun (D.state disk.old).files }
    ensures any_moment { D.reveals → (pieces : List (List ℕ)) → CanMake pieces until ((D.state disk.old).files 0) → During (D.state disk.old) (D.state disk.new) (λ c. MayBeStarted pieces c) }
    ensures made { IfOk result (λ found. D.reveals → (pieces : List (List ℕ)) → CanMake pieces until ((D.state disk.old).files 0) → MatchOption found ⊥ (λ both. HasStarted pieces until both.0 both.1 (D.state disk.new).files)) }
    ensures bytes { IfOk result (λ found. IfSome found (λ both. D.reveals → AreBytes (part_of ((D.state disk.old).files 0) 0 until))) }
    ensures near { IfOk result (λ found. IfSome found (λ both. (both.0.gate ≤ 2 ^ 58) × (both.1.gate ≤ 2 ^ 58))) }
    ensures durable { IfOk result (λ found. IfSome found (λ both. D.reveals → IsSynced (D.state disk.new))) }
    ensures writes { OnlyWrites D.reveals (D.state disk.old).free (FitsMaking (D.state disk.old) until) (IsErr result) (KeepsFiles (λ f. f ≤ 64)) (D.state disk.old) (D.state disk.new) }
{
    let Some(one) = make_copy(disk, 65, until)? else {
        return Ok(None);
    };
    let Some(two) = make_copy(disk, 66, until)? else {
        return Ok(None);
    };
    Ok(Some((tail_of(&one), tail_of(&two))))
}

/// Makes both copies of a ledger of which no copy is begun, once all is synced. It answers where they end; None where the
/// ledger has no header with whole records up to a gate that is not open, and then nothing is written.
pub(crate) fn begin_copies<D: Disk>(disk: &mut D) -> Result<Option<Begun>, DiskFault>
    requires none { D.reveals → NoneBegun (D.state disk.old).files }
    requires fixed { D.reveals → AreFixed (D.state disk.old) }
    ensures any_moment { D.reveals → (last : ℕ) (pieces : List (List ℕ)) → EndsAt ((D.state disk.old).files 0) last → CanMake pieces last ((D.state disk.old).files 0) → During (D.state disk.old) (D.state disk.new) (λ c. MayBeStarted pieces c) }
    ensures made { IfOk result (λ found. D.reveals → (last : ℕ) (pieces : List (List ℕ)) → EndsAt ((D.state disk.old).files 0) last → CanMake pieces last ((D.state disk.old).files 0) → MatchOption found ⊥ (λ b. HasStarted pieces b.end b.first b.second (D.state disk.new).files)) }
    ensures ends { IfOk result (λ found. IfSome found (λ b. D.reveals → EndsAt ((D.state disk.old).files 0) b.end × AreBytes (part_of ((D.state disk.old).files 0) 0 b.end))) }
    ensures bare { D.reveals → NeverEnds ((D.state disk.old).files 0) → WritesNone D.reveals (D.state disk.old) (D.state disk.new) }
    ensures shown { D.reveals → ShowsNoMore (D.state disk.old) (D.state disk.new) }
    ensures near { IfOk result (λ found. IfSome found (λ b. (17 ≤ b.end) × (b.end ≤ 2 ^ 58) × (b.first.gate ≤ 2 ^ 58) × (b.second.gate ≤ 2 ^ 58))) }
    ensures durable { IfOk result (λ found. IfSome found (λ b. D.reveals → IsSynced (D.state disk.new))) }
    ensures writes { OnlyWrites D.reveals (D.state disk.old).free (FitsStart (D.state disk.old)) (IsErr result) (KeepsFiles (λ f. f ≤ 64)) (D.state disk.old) (D.state disk.new) }
{
    disk.sync()?;
    let Some(end) = records_end(disk)? else {
        return Ok(None);
    };
    let Some((first, second)) = make_both(disk, end)? else {
        return Ok(None);
    };
    Ok(Some(Begun { end, first, second }))
}
