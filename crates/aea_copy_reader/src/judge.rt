//! The copies are judged, and compared.

ghost use Rattle.std.specs.Prelude.{◌≡◌, ◌≤◌, ℕ, List, true, IsErr, IfOk, IfSome, IfNone};
ghost use Rattle.aea_disk.specs.Ends.{greatest_place};
ghost use Rattle.aea_disk.specs.Frames.{OnlyReads};
ghost use Rattle.aea_copies.specs.Format.{first_link};
ghost use Rattle.aea_copies.specs.Grammar.{IsBegun, HasMark, IsBadCopyAt};
ghost use Rattle.aea_copy_reader.specs.Judging.{Apart, IsJudged, IsNear};
ghost use Rattle.aea_copy_reader.specs.Walking.{HaveCommon};
ghost use Rattle.aea_copy_reader.specs.Comparing.{IsComparison, IsComparedAs, IsCompared};
ghost use Rattle.aea_copy_reader.specs.Seen.{AreSeen};

use crate::entries::{begin, turn_at};
use crate::known::{Judged, Judgement, Standing, Turn, Walked};
use crate::parts::range_parting;
use crate::range::Pair;
use crate::walk::walk;
use crate::window::Window;
use aea_disk::{Disk, DiskFault};

// A reader of a copy that is begun and has the mark, before its first entry.
fn beginning() -> Standing
    ensures place { (result.place ≡ 9) × (result.text ≡ 0) }
    ensures none { (result.link ≡ first_link) × (result.first ≡ true) × (result.in_ledger ≡ true) }
{
    Standing {
        place: 9,
        text: 0,
        link: [0; 32],
        first: true,
        in_ledger: true,
    }
}

// The first place at which the texts of both copies differ, if neither begins with the other, where the copies are the same up
// to this gate and not up to the next.
fn difference_after<D: Disk>(
    disk: &mut D,
    stands: &Standing,
    first: &mut Window,
    second: &mut Window,
    ledger: &mut Window,
) -> Result<Option<u64>, DiskFault>
    requires place { stands.now.place ≤ greatest_place }
    requires small { stands.now.text ≤ stands.now.place }
    requires seen { D.reveals → AreSeen (D.state disk.old).files 65 66 first.old second.old ledger.old }
    ensures differ { IfOk result (λ differ. D.reveals → (pieces : List (List ℕ)) → Apart ((D.state disk.old).files 0) ((D.state disk.old).files 65) ((D.state disk.old).files 66) pieces stands.now → IsComparison ((D.state disk.old).files 65) ((D.state disk.old).files 66) differ) }
    ensures reads { OnlyReads D.reveals (IsErr result) (D.state disk.old) (D.state disk.new) }
{
    let one = Pair {
        file: 65,
        other: 66,
    };
    let Turn::GoesOn { next: a, .. } = turn_at(disk, one, stands, first, second, ledger, false)?
    else {
        return Ok(None);
    };
    let two = Pair {
        file: 66,
        other: 65,
    };
    let Turn::GoesOn { next: b, .. } = turn_at(disk, two, stands, second, first, ledger, false)?
    else {
        return Ok(None);
    };
    let count = a.text.min(b.text) - stands.text;
    match range_parting(disk, 65, stands.place + 5, 66, stands.place + 5, count)? {
        Some(at) => Ok(Some(stands.text + at)),
        None => Ok(None),
    }
}

// Compares two copies, which were walked side by side.
fn compare<D: Disk>(
    disk: &mut D,
    walked: &Walked,
    judged: &Judged,
    first: &mut Window,
    second: &mut Window,
    ledger: &mut Window,
) -> Result<Option<u64>, DiskFault>
    requires small { (walked.now.common.place ≤ greatest_place) × (walked.now.common.text ≤ walked.now.common.place) }
    requires common { D.reveals → HaveCommon ((D.state disk.old).files 0) ((D.state disk.old).files 65) ((D.state disk.old).files 66) walked.now }
    requires seen { D.reveals → AreSeen (D.state disk.old).files 65 66 first.old second.old ledger.old }
    ensures differ { IfOk result (λ differ. D.reveals → IsComparedAs (D.state disk.old).files walked.now.judged judged.now differ) }
    ensures reads { OnlyReads D.reveals (IsErr result) (D.state disk.old) (D.state disk.new) }
{
    match (&walked.judged, judged) {
        (Judged::Good(_), Judged::Good(_)) => {
            if walked.same {
                return Ok(None);
            }
            difference_after(disk, &walked.common, first, second, ledger)
        }
        _ => Ok(None),
    }
}

// Judges both copies, which are begun and have the mark.
fn judge_both<D: Disk>(
    disk: &mut D,
    first: &mut Window,
    second: &mut Window,
    ledger: &mut Window,
) -> Result<Judgement, DiskFault>
    requires begun { D.reveals → (IsBegun ((D.state disk.old).files 65) × HasMark ((D.state disk.old).files 65)) × (IsBegun ((D.state disk.old).files 66) × HasMark ((D.state disk.old).files 66)) }
    requires seen { D.reveals → AreSeen (D.state disk.old).files 65 66 first.old second.old ledger.old }
    ensures first { IfOk result (λ j. D.reveals → IsJudged (D.state disk.old).files 65 j.first) }
    ensures second { IfOk result (λ j. D.reveals → IsJudged (D.state disk.old).files 66 j.second) }
    ensures differ { IfOk result (λ j. D.reveals → IsCompared (D.state disk.old).files j) }
    ensures near { IfOk result (λ j. IsNear j.first × IsNear j.second) }
    ensures reads { OnlyReads D.reveals (IsErr result) (D.state disk.old) (D.state disk.new) }
{
    let one = Pair {
        file: 65,
        other: 66,
    };
    let walked = walk(disk, one, &beginning(), first, second, ledger, true)?;
    let two = Pair {
        file: 66,
        other: 65,
    };
    let other = walk(disk, two, &walked.common, second, first, ledger, false)?;
    let differ = compare(disk, &walked, &other.judged, first, second, ledger)?;
    Ok(Judgement {
        first: walked.judged,
        second: other.judged,
        differ,
    })
}

// Judges one copy, which is begun and has the mark, where the other is not.
fn judge_one<D: Disk>(
    disk: &mut D,
    file: u8,
    other: u8,
    own: &mut Window,
    twin: &mut Window,
    ledger: &mut Window,
) -> Result<Judged, DiskFault>
    requires file { (file ≤ 66) × (other ≤ 66) }
    requires begun { D.reveals → IsBegun ((D.state disk.old).files file) × HasMark ((D.state disk.old).files file) }
    requires seen { D.reveals → AreSeen (D.state disk.old).files file other own.old twin.old ledger.old }
    ensures judged { IfOk result (λ judged. D.reveals → IsJudged (D.state disk.old).files file judged) }
    ensures near { IfOk result (λ judged. IsNear judged) }
    ensures reads { OnlyReads D.reveals (IsErr result) (D.state disk.old) (D.state disk.new) }
{
    let pair = Pair { file, other };
    let walked = walk(disk, pair, &beginning(), own, twin, ledger, false)?;
    Ok(walked.judged)
}

// Judges both copies, of each of which is known where its beginning is bad, if it is.
fn judge_begun<D: Disk>(
    disk: &mut D,
    one: Option<u64>,
    two: Option<u64>,
    first: &mut Window,
    second: &mut Window,
    ledger: &mut Window,
) -> Result<Judgement, DiskFault>
    requires bad { IfSome one (λ at. D.reveals → IsBadCopyAt ((D.state disk.old).files 65) at) × IfSome two (λ at. D.reveals → IsBadCopyAt ((D.state disk.old).files 66) at) }
    requires near { IfSome one (λ at. at ≤ 1) × IfSome two (λ at. at ≤ 1) }
    requires good { IfNone one (D.reveals → IsBegun ((D.state disk.old).files 65) × HasMark ((D.state disk.old).files 65)) × IfNone two (D.reveals → IsBegun ((D.state disk.old).files 66) × HasMark ((D.state disk.old).files 66)) }
    requires seen { D.reveals → AreSeen (D.state disk.old).files 65 66 first.old second.old ledger.old }
    ensures first { IfOk result (λ j. D.reveals → IsJudged (D.state disk.old).files 65 j.first) }
    ensures second { IfOk result (λ j. D.reveals → IsJudged (D.state disk.old).files 66 j.second) }
    ensures differ { IfOk result (λ j. D.reveals → IsCompared (D.state disk.old).files j) }
    ensures near { IfOk result (λ j. IsNear j.first × IsNear j.second) }
    ensures reads { OnlyReads D.reveals (IsErr result) (D.state disk.old) (D.state disk.new) }
{
    match (one, two) {
        (None, None) => judge_both(disk, first, second, ledger),
        (None, Some(at)) => {
            let judged = judge_one(disk, 65, 66, first, second, ledger)?;
            Ok(Judgement {
                first: judged,
                second: Judged::Bad { at },
                differ: None,
            })
        }
        (Some(at), None) => {
            let judged = judge_one(disk, 66, 65, second, first, ledger)?;
            Ok(Judgement {
                first: Judged::Bad { at },
                second: judged,
                differ: None,
            })
        }
        (Some(at), Some(also)) => Ok(Judgement {
            first: Judged::Bad { at },
            second: Judged::Bad { at: also },
            differ: None,
        }),
    }
}

/// Reads files 65 and 66, and the ledger beside them, and judges the copies. It takes no memory.
pub fn judge_copies<D: Disk>(disk: &mut D) -> Result<Judgement, DiskFault>
    ensures first { IfOk result (λ j. D.reveals → IsJudged (D.state disk.old).files 65 j.first) }
    ensures second { IfOk result (λ j. D.reveals → IsJudged (D.state disk.old).files 66 j.second) }
    ensures differ { IfOk result (λ j. D.reveals → IsCompared (D.state disk.old).files j) }
    ensures near { IfOk result (λ j. IsNear j.first × IsNear j.second) }
    ensures reads { OnlyReads D.reveals (IsErr result) (D.state disk.old) (D.state disk.new) }
{
    let mut first = Window::new();
    let mut second = Window::new();
    let mut ledger = Window::new();
    let one = begin(disk, 65, &mut first)?;
    let two = begin(disk, 66, &mut second)?;
    judge_begun(disk, one, two, &mut first, &mut second, &mut ledger)
}
