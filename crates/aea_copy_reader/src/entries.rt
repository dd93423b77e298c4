//! What is at the gates of a copy, entry by entry, with the other copy and the ledger beside it.

ghost use Rattle.std.specs.Prelude.{◌≡◌, ◌+◌, ◌^◌, ◌<◌, ◌≤◌, ℕ, List, take, drop, IsErr, IfOk, IfSome, IfNone, OnOk};
ghost use Rattle.aea_disk.specs.Ends.{greatest_place};
ghost use Rattle.aea_disk.specs.Frames.{OnlyReads};
ghost use Rattle.aea_records.specs.TableLaws.{AreBytes};
ghost use Rattle.aea_copies.specs.Grammar.{IsBegun, HasMark, IsBadCopyAt};
ghost use Rattle.aea_copy_reader.specs.Heads.{IsHead};
ghost use Rattle.aea_copy_reader.specs.Judging.{HasRead, IsOn, IsTurn, IsSame};
ghost use Rattle.aea_copy_reader.specs.Seen.{IsSeen, AreSeen};

use crate::hashing::link_at;
use crate::heads::{Opening, front_fault, opening_in};
use crate::keeping::{is_linked, keeps};
use crate::known::{Standing, Turn};
use crate::parts::are_bytes;
use crate::range::{Along, Pair, Range};
use crate::window::Window;
use aea_disk::{Disk, DiskFault};

// Reads the entry after an open gate, whose first bytes may be those of one with a piece of so many bytes, where the other copy had
// all that was before the piece, or not.
fn entry_at<D: Disk>(
    disk: &mut D,
    pair: Pair,
    stands: &Standing,
    len: u64,
    own: &mut Window,
    twin: &mut Window,
    ledger: &mut Window,
    had: bool,
) -> Result<Turn, DiskFault>
    requires file { (pair.file ≤ 66) × (pair.other ≤ 66) }
    requires place { stands.now.place ≤ greatest_place }
    requires small { stands.now.text ≤ stands.now.place }
    requires some { (1 ≤ len) × (len < 2 ^ 32) }
    requires head { D.reveals → IsHead stands.now.first (take 11 (drop stands.now.place ((D.state disk.old).files pair.file))) len }
    requires bytes { D.reveals → AreBytes (take 11 (drop stands.now.place ((D.state disk.old).files pair.file))) }
    requires seen { D.reveals → AreSeen (D.state disk.old).files pair.file pair.other own.old twin.old ledger.old }
    ensures turn { IfOk result (λ turn. D.reveals → (pieces : List (List ℕ)) → HasRead ((D.state disk.old).files 0) ((D.state disk.old).files pair.file) pieces stands.now → IsTurn ((D.state disk.old).files 0) ((D.state disk.old).files pair.file) pieces stands.now turn) }
    ensures on { IfOk result (λ turn. IsOn stands.now turn) }
    ensures same { IfOk result (λ turn. D.reveals → IsSame ((D.state disk.old).files pair.file) ((D.state disk.old).files pair.other) (stands.now.place + 5) had turn) }
    ensures seen { OnOk result (D.reveals → AreSeen (D.state disk.old).files pair.file pair.other own.new twin.new ledger.new) }
    ensures reads { OnlyReads D.reveals (IsErr result) (D.state disk.old) (D.state disk.new) }
{
    let end = stands.place + 37 + len;
    let far = end > 288_230_376_151_711_744;
    if far {
        return Ok(Turn::BadHere);
    }
    let range = Range {
        file: pair.file,
        other: pair.other,
        at: stands.place + 5,
        from: stands.text,
        count: len,
    };
    let mut along = Along {
        same: had,
        in_ledger: stands.in_ledger,
    };
    let Some(link) = link_at(disk, range, &stands.link, own, twin, ledger, &mut along)? else {
        return Ok(Turn::BadHere);
    };
    if !is_linked(disk, pair.file, own, end - 32, &link)? {
        return Ok(Turn::BadHere);
    }
    let same = keeps(disk, pair.other, twin, end - 32, &link, along.same)?;
    Ok(Turn::GoesOn {
        next: Standing {
            place: end,
            text: stands.text + len,
            link,
            first: false,
            in_ledger: along.in_ledger,
        },
        same,
    })
}

/// Reads what is at a gate, where the other copy had all that was before it, or not.
pub fn turn_at<D: Disk>(
    disk: &mut D,
    pair: Pair,
    stands: &Standing,
    own: &mut Window,
    twin: &mut Window,
    ledger: &mut Window,
    had: bool,
) -> Result<Turn, DiskFault>
    requires file { (pair.file ≤ 66) × (pair.other ≤ 66) }
    requires place { stands.now.place ≤ greatest_place }
    requires small { stands.now.text ≤ stands.now.place }
    requires seen { D.reveals → AreSeen (D.state disk.old).files pair.file pair.other own.old twin.old ledger.old }
    ensures turn { IfOk result (λ turn. D.reveals → (pieces : List (List ℕ)) → HasRead ((D.state disk.old).files 0) ((D.state disk.old).files pair.file) pieces stands.now → IsTurn ((D.state disk.old).files 0) ((D.state disk.old).files pair.file) pieces stands.now turn) }
    ensures on { IfOk result (λ turn. IsOn stands.now turn) }
    ensures same { IfOk result (λ turn. D.reveals → IsSame ((D.state disk.old).files pair.file) ((D.state disk.old).files pair.other) stands.now.place had turn) }
    ensures seen { OnOk result (D.reveals → AreSeen (D.state disk.old).files pair.file pair.other own.new twin.new ledger.new) }
    ensures reads { OnlyReads D.reveals (IsErr result) (D.state disk.old) (D.state disk.new) }
{
    own.reach(disk, pair.file, stands.place, 11)?;
    let head = own.look(stands.place, 11);
    are_bytes(head);
    match opening_in(head, stands.first) {
        Opening::Missing => Ok(Turn::BadHere),
        Opening::Closed => {
            if stands.first {
                return Ok(Turn::BadHere);
            }
            Ok(Turn::Ends)
        }
        Opening::Broken => Ok(Turn::BadHere),
        Opening::Piece(len) => {
            let before = keeps(disk, pair.other, twin, stands.place, &head[..5], had)?;
            entry_at(
                disk,
                pair,
                stands,
                u64::from(len),
                own,
                twin,
                ledger,
                before,
            )
        }
    }
}

/// Reads the beginning of a copy: what is bad of it, if anything is.
pub fn begin<D: Disk>(disk: &mut D, file: u8, window: &mut Window) -> Result<Option<u64>, DiskFault>
    requires file { file ≤ 66 }
    requires seen { D.reveals → IsSeen ((D.state disk.old).files file) window.old }
    ensures bad { IfOk result (λ fault. IfSome fault (λ at. D.reveals → IsBadCopyAt ((D.state disk.old).files file) at)) }
    ensures near { IfOk result (λ fault. IfSome fault (λ at. at ≤ 1)) }
    ensures good { IfOk result (λ fault. IfNone fault (D.reveals → IsBegun ((D.state disk.old).files file) × HasMark ((D.state disk.old).files file))) }
    ensures seen { OnOk result (D.reveals → IsSeen ((D.state disk.old).files file) window.new) }
    ensures reads { OnlyReads D.reveals (IsErr result) (D.state disk.old) (D.state disk.new) }
{
    window.reach(disk, file, 0, 10)?;
    Ok(front_fault(window.look(0, 10)))
}
