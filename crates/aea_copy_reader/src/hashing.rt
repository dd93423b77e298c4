//! Ranges of a copy are put into a hash, and compared with the other copy and the ledger beside them.

ghost use Rattle.std.specs.Prelude.{◌≡◌, ◌+◌, ◌^◌, ◌<◌, ◌≤◌, length, false, IsTrue, IsErr, IfOk, IfSome, IfNone, OnOk};
ghost use Rattle.aea_disk.specs.Frames.{OnlyReads};
ghost use Rattle.aea_copy_reader.specs.Seen.{AreSeen, GoAlong};
ghost use Rattle.aea_copy_reader.specs.Taking.{HasTaken, HasPieceAt};

use crate::keeping::keeps;
use crate::parts::are_bytes;
use crate::range::{Along, Range};
use crate::window::Window;
use aea_disk::{Disk, DiskFault};
use sha2::{Digest, Sha256};

// Puts the first bytes of a range into a hash, as many as were read at once: it says how many, 0 where the file has none.
fn hash_next<D: Disk>(
    disk: &mut D,
    range: Range,
    own: &mut Window,
    twin: &mut Window,
    ledger: &mut Window,
    hasher: &mut Sha256,
    along: &mut Along,
) -> Result<u64, DiskFault>
    requires file { (range.file ≤ 66) × (range.other ≤ 66) }
    requires near { (range.at + range.count ≤ 2 ^ 61) × (range.from + range.count ≤ 2 ^ 61) }
    requires some { 1 ≤ range.count }
    requires seen { D.reveals → AreSeen (D.state disk.old).files range.file range.other own.old twin.old ledger.old }
    ensures bound { IfOk result (λ n. n ≤ range.count) }
    ensures taken { IfOk result (λ n. D.reveals → HasTaken ((D.state disk.old).files range.file) range.at n hasher.old hasher.new) }
    ensures short { IfOk result (λ n. n ≡ 0 → D.reveals → length ((D.state disk.old).files range.file) ≤ range.at) }
    ensures along { IfOk result (λ n. D.reveals → GoAlong ((D.state disk.old).files range.file) ((D.state disk.old).files range.other) ((D.state disk.old).files 0) range.at range.from n along.old along.new) }
    ensures seen { OnOk result (D.reveals → AreSeen (D.state disk.old).files range.file range.other own.new twin.new ledger.new) }
    ensures reads { OnlyReads D.reveals (IsErr result) (D.state disk.old) (D.state disk.new) }
{
    own.reach(disk, range.file, range.at, 1)?;
    let part = own.look(range.at, range.count.min(4144) as usize);
    let same = keeps(disk, range.other, twin, range.at, part, along.same)?;
    let in_ledger = keeps(disk, 0, ledger, range.from, part, along.in_ledger)?;
    *along = Along { same, in_ledger };
    are_bytes(part);
    hasher.update(part);
    Ok(part.len() as u64)
}

// Puts a range into a hash, where the file has it all: it says whether it has.
fn hash_range<D: Disk>(
    disk: &mut D,
    range: Range,
    own: &mut Window,
    twin: &mut Window,
    ledger: &mut Window,
    hasher: &mut Sha256,
    along: &mut Along,
) -> Result<bool, DiskFault>
    requires file { (range.file ≤ 66) × (range.other ≤ 66) }
    requires near { (range.at + range.count ≤ 2 ^ 61) × (range.from + range.count ≤ 2 ^ 61) }
    requires seen { D.reveals → AreSeen (D.state disk.old).files range.file range.other own.old twin.old ledger.old }
    ensures whole { IfOk result (λ whole. IsTrue whole → D.reveals → HasTaken ((D.state disk.old).files range.file) range.at range.count hasher.old hasher.new) }
    ensures short { IfOk result (λ whole. whole ≡ false → D.reveals → length ((D.state disk.old).files range.file) < range.at + range.count) }
    ensures along { IfOk result (λ whole. IsTrue whole → D.reveals → GoAlong ((D.state disk.old).files range.file) ((D.state disk.old).files range.other) ((D.state disk.old).files 0) range.at range.from range.count along.old along.new) }
    ensures seen { OnOk result (D.reveals → AreSeen (D.state disk.old).files range.file range.other own.new twin.new ledger.new) }
    ensures reads { OnlyReads D.reveals (IsErr result) (D.state disk.old) (D.state disk.new) }
{
    let mut done = 0;
    'parts: loop {
        if done == range.count {
            return Ok(true);
        }
        let rest = Range {
            file: range.file,
            other: range.other,
            at: range.at + done,
            from: range.from + done,
            count: range.count - done,
        };
        let size = hash_next(disk, rest, own, twin, ledger, hasher, along)?;
        if size == 0 {
            return Ok(false);
        }
        done += size;
    }
}

/// The link of an entry whose piece is this range, where the file has all of it.
pub fn link_at<D: Disk>(
    disk: &mut D,
    range: Range,
    link: &[u8; 32],
    own: &mut Window,
    twin: &mut Window,
    ledger: &mut Window,
    along: &mut Along,
) -> Result<Option<[u8; 32]>, DiskFault>
    requires file { (range.file ≤ 66) × (range.other ≤ 66) }
    requires near { (range.at + range.count ≤ 2 ^ 61) × (range.from + range.count ≤ 2 ^ 61) }
    requires some { (1 ≤ range.count) × (range.count < 2 ^ 32) }
    requires seen { D.reveals → AreSeen (D.state disk.old).files range.file range.other own.old twin.old ledger.old }
    ensures link { IfOk result (λ found. IfSome found (λ next. D.reveals → HasPieceAt ((D.state disk.old).files range.file) range.at range.count link.now next)) }
    ensures along { IfOk result (λ found. IfSome found (λ next. D.reveals → GoAlong ((D.state disk.old).files range.file) ((D.state disk.old).files range.other) ((D.state disk.old).files 0) range.at range.from range.count along.old along.new)) }
    ensures none { IfOk result (λ found. IfNone found (D.reveals → length ((D.state disk.old).files range.file) < range.at + range.count)) }
    ensures seen { OnOk result (D.reveals → AreSeen (D.state disk.old).files range.file range.other own.new twin.new ledger.new) }
    ensures reads { OnlyReads D.reveals (IsErr result) (D.state disk.old) (D.state disk.new) }
{
    let mut hasher = Sha256::new();
    hasher.update(link);
    hasher.update(&(range.count as u32).to_be_bytes());
    if !hash_range(disk, range, own, twin, ledger, &mut hasher, along)? {
        return Ok(None);
    }
    Ok(Some(hasher.finalize()))
}
