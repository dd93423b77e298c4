// Entries are written after the closed gate of a copy, one for each piece of a part of the ledger.
ghost use Rattle.std.specs.Prelude.{◌≡◌, ◌+◌, ◌-◌, ◌^◌, ◌<◌, ◌≤◌, ◌==◌, ◌∷◌, ℕ, List, Some, length, IsErr, IfOk, IfSome, MatchOption};
ghost use Rattle.std.specs.Int.{w32, from_be_bytes};
ghost use Rattle.aea_disk.specs.Ends.{greatest_place};
ghost use Rattle.aea_disk.specs.Files.{ChangesFile};
ghost use Rattle.aea_disk.specs.Frames.{OnlyReads, OnlyWrites};
ghost use Rattle.aea_copies.specs.Format.{chain};
ghost use Rattle.aea_copies.specs.Kept.{IsCopyFile};
ghost use Rattle.aea_copy_writer.specs.Changes.{KeepsFront};
ghost use Rattle.aea_records.specs.TableLaws.{AreBytes};
ghost use Rattle.aea_copy_writer.specs.Parts.{part_of, IsThere};
ghost use Rattle.aea_copy_writer.specs.Entries.{HasPieces, HasWritten, HasNext, FitsEntries, FitsNext};

use crate::entry::{Piece, write_entry};
use crate::parts::read_part;
use aea_disk::{Disk, DiskFault};

/// Where entries end: the place of the gate after them, and the last link.
#[derive(Clone, Copy, Debug)]
pub struct Written {
    pub gate: u64,
    pub link: [u8; 32],
}

// After an entry: where the next piece begins in the ledger, and where the entry ends.
#[derive(Clone, Copy, Debug)]
pub struct Next {
    pub at: u64,
    pub last: Written,
}

// The greatest place of a copy.
pub(crate) const GREATEST: u64 = 1 << 58;

// The number of 4 bytes, high byte first.
pub(crate) fn number_in(bytes: &[u8]) -> u32
    requires { length bytes.now ≡ 4 }
    ensures { result ≡ from_be_bytes w32 bytes.now }
{
    match bytes.first_chunk::<4>() {
        Some(chunk) => u32::from_be_bytes(*chunk),
        None => unreachable!(),
    }
}

// How many bytes the piece has that begins at this place of the ledger, before another: the header at the start, and else a
// record, which says how many. None where no piece is there that ends in time.
fn next_piece<D: Disk>(disk: &mut D, at: u64, until: u64) -> Result<Option<u32>, DiskFault>
    requires places { (at < until) × (until ≤ 2 ^ 58) }
    ensures found { IfOk result (λ found. D.reveals → (piece : List ℕ) (others : List (List ℕ)) → HasPieces (at == 0) (piece ∷ others) at until ((D.state disk.old).files 0) → found ≡ Some (length piece)) }
    ensures within { IfOk result (λ found. IfSome found (λ len. (1 ≤ len) × (at + len ≤ until))) }
    ensures reads { OnlyReads D.reveals (IsErr result) (D.state disk.old) (D.state disk.new) }
{
    let mut front = [0; 6];
    if !read_part(disk, 0, at, &mut front)? || front[0] != 1 {
        return Ok(None);
    }
    let len = if at == 0 {
        17
    } else {
        u64::from(number_in(&front[2..])) + 6
    };
    if len > until - at {
        return Ok(None);
    }
    Ok(u32::try_from(len).ok())
}

// Writes the entry of the next piece after where the entries end, and a gate after it, which is open where more pieces follow.
fn write_next<D: Disk>(
    disk: &mut D,
    file: u8,
    at: u64,
    until: u64,
    last: &Written,
    buffer: &mut [u8],
) -> Result<Option<Next>, DiskFault>
    requires file { IsCopyFile file }
    requires places { (at < until) × (until ≤ 2 ^ 58) }
    requires gate { last.now.gate ≤ 2 ^ 58 }
    requires buffer { length buffer.old ≡ 4133 }
    ensures next { IfOk result (λ found. D.reveals → (piece : List ℕ) (others : List (List ℕ)) → HasPieces (at == 0) (piece ∷ others) at until ((D.state disk.old).files 0) → MatchOption found (last.now.gate + (37 + length piece) ≤ greatest_place → ⊥) (λ next. HasNext file at until last.now piece next (D.state disk.old).files (D.state disk.new).files)) }
    ensures there { IfOk result (λ found. IfSome found (λ next. D.reveals → IsThere ((D.state disk.old).files 0) at (next.at - at))) }
    ensures buffer { IfOk result (λ found. IfSome found (λ next. length buffer.new ≡ 4133)) }
    ensures on { IfOk result (λ found. IfSome found (λ next. (at < next.at) × (next.at ≤ until) × (last.now.gate ≤ next.last.gate) × (next.last.gate ≤ 2 ^ 58))) }
    ensures writes { OnlyWrites D.reveals (D.state disk.old).free (FitsNext (D.state disk.old) file at until last.now.gate) (IsErr result) (ChangesFile file (KeepsFront (last.now.gate + 1))) (D.state disk.old) (D.state disk.new) }
{
    let Some(len) = next_piece(disk, at, until)? else {
        return Ok(None);
    };
    let size = u64::from(len);
    let gate = last.gate + 37 + size;
    if gate > GREATEST {
        return Ok(None);
    }
    let piece = Piece {
        at,
        len,
        more: at + size < until,
    };
    let Some(link) = write_entry(disk, file, last, &piece, buffer)? else {
        return Ok(None);
    };
    Ok(Some(Next {
        at: at + size,
        last: Written { gate, link },
    }))
}

/// After the closed gate at this place of a copy it writes an entry for each piece of the ledger's bytes from one place up to
/// another, each linked to the one before and the first of them to `link`, with open gates between them and a closed gate after
/// the last. The gate itself stays closed, and all before it stays as it is, also in what a crash leaves. It answers where the
/// closed gate after the last entry is, and the last link; `None` where there are no such pieces, or a copy cannot have so
/// much. Nothing is synced.
///
/// A piece of up to 4,096 bytes takes two reads and one write, and a longer one a read and a write more for each further 4,096
/// bytes.
pub fn write_entries<D: Disk>(
    disk: &mut D,
    file: u8,
    gate: u64,
    from: u64,
    until: u64,
    link: &[u8; 32],
) -> Result<Option<Written>, DiskFault>
    requires file { IsCopyFile file }
    requires places { (from ≤ until) × (until ≤ 2 ^ 58) }
    requires gate { gate ≤ 2 ^ 58 }
    requires there { D.reveals → gate < length ((D.state disk.old).files file) }
    ensures written { IfOk result (λ found. D.reveals → (pieces : List (List ℕ)) → HasPieces (from == 0) pieces from until ((D.state disk.old).files 0) → gate + length (chain link.now pieces) ≤ greatest_place → MatchOption found ⊥ (λ w. HasWritten file gate link.now pieces w (D.state disk.old).files (D.state disk.new).files)) }
    ensures bytes { IfOk result (λ found. IfSome found (λ w. D.reveals → AreBytes (part_of ((D.state disk.old).files 0) from (until - from)))) }
    ensures near { IfOk result (λ found. IfSome found (λ w. (gate ≤ w.gate) × (w.gate ≤ 2 ^ 58))) }
    ensures writes { OnlyWrites D.reveals (D.state disk.old).free (FitsEntries (D.state disk.old) file gate link.now from until) (IsErr result) (ChangesFile file (KeepsFront (gate + 1))) (D.state disk.old) (D.state disk.new) }
{
    let mut buffer = [0; 4133];
    let mut at = from;
    let mut last = Written { gate, link: *link };
    'entries: while at < until {
        let Some(next) = write_next(disk, file, at, until, &last, &mut buffer)? else {
            return Ok(None);
        };
        at = next.at;
        last = next.last;
    }
    Ok(Some(last))
}
