// The ledger is made anew of a copy.
ghost use Rattle.std.specs.Prelude.{◌≡◌, ◌+◌, ◌^◌, ◌<◌, ◌≤◌, [], ◌∷◌, ◌++◌, ℕ, List, true, false, IsTrue, length, IsErr, IfOk, IfSome, MatchOption, OnOk};
ghost use Rattle.aea_disk.specs.Ends.{greatest_place};
ghost use Rattle.aea_disk.specs.Files.{ChangesFile, ChangesOnly, Holds, Torn};
ghost use Rattle.aea_disk.specs.State.{During, IsSynced, IsFixed};
ghost use Rattle.aea_disk.specs.Frames.{OnlyWrites};
ghost use Rattle.aea_copies.specs.Format.{text_of};
ghost use Rattle.aea_copies.specs.Kept.{IsCopyFile, IsGood};
ghost use Rattle.aea_copy_writer.specs.Changes.{KeepsFront, FitsChange};
ghost use Rattle.aea_copy_writer.specs.Anew.{IsOldNoneOrMade, IsClosed, whole_text};
ghost use Rattle.aea_copy_writer.specs.Parts.{part_of, IsThere};
ghost use Rattle.aea_copy_writer.specs.Pieces.{IsTextAt, HasMoved};

use crate::anew::clear;
use crate::entries::{GREATEST, number_in};
use crate::parts::read_part;
use crate::through::{open_gate_at, write_through};
use aea_disk::{Disk, DiskFault};

// Copies a part of a file into the ledger's, where the file has all of it: it says whether it has.
fn move_part<D: Disk>(
    disk: &mut D,
    source: u8,
    from: u64,
    to: u64,
    part: &mut [u8],
) -> Result<bool, DiskFault>
    requires source { (1 ≤ source) × (source ≤ 66) }
    requires from { from + length part.old ≤ 2 ^ 62 }
    requires to { to + length part.old ≤ 2 ^ 62 }
    ensures there { IfOk result (λ whole. IsTrue whole → D.reveals → IsThere ((D.state disk.old).files source) from (length part.old)) }
    ensures moved { IfOk result (λ whole. IsTrue whole → D.reveals → ChangesFile 0 (Holds to (part_of ((D.state disk.old).files source) from (length part.old))) (D.state disk.old).files (D.state disk.new).files) }
    ensures short { IfOk result (λ whole. whole ≡ false → D.reveals → length ((D.state disk.old).files source) < from + length part.old) }
    ensures writes { OnlyWrites D.reveals (D.state disk.old).free (FitsChange (D.state disk.old) 0 (to + length part.old)) (IsErr result) (ChangesFile 0 (Torn to (length part.old))) (D.state disk.old) (D.state disk.new) }
{
    if !read_part(disk, source, from, part)? {
        return Ok(false);
    }
    disk.write(0, to, part)?;
    Ok(true)
}

// Copies so many bytes of a file into the ledger's, through a buffer, where the file has them all: it says whether it has.
fn move_range<D: Disk>(
    disk: &mut D,
    source: u8,
    from: u64,
    to: u64,
    count: u64,
    buffer: &mut [u8],
) -> Result<bool, DiskFault>
    requires source { (1 ≤ source) × (source ≤ 66) }
    requires from { from + count ≤ 2 ^ 61 }
    requires to { to + count ≤ 2 ^ 61 }
    requires buffer { length buffer.old ≡ 4096 }
    requires there { D.reveals → to ≤ length ((D.state disk.old).files 0) }
    ensures moved { IfOk result (λ whole. IsTrue whole → D.reveals → ChangesFile 0 (Holds to (part_of ((D.state disk.old).files source) from count)) (D.state disk.old).files (D.state disk.new).files) }
    ensures there { IfOk result (λ whole. IsTrue whole → D.reveals → to + count ≤ length ((D.state disk.new).files 0)) }
    ensures short { IfOk result (λ whole. whole ≡ false → D.reveals → length ((D.state disk.old).files source) < from + count) }
    ensures buffer { length buffer.new ≡ 4096 }
    ensures writes { OnlyWrites D.reveals (D.state disk.old).free (FitsChange (D.state disk.old) 0 (to + count)) (IsErr result) (ChangesFile 0 (KeepsFront to)) (D.state disk.old) (D.state disk.new) }
{
    let mut done = 0;
    'parts: while done < count {
        let size = (count - done).min(4096) as usize;
        if !move_part(disk, source, from + done, to + done, &mut buffer[..size])? {
            return Ok(false);
        }
        done += size as u64;
    }
    Ok(true)
}

// Where a reader of a copy is: at the gate at this place, after so many bytes of text.
#[derive(Clone, Copy, Debug)]
pub(crate) struct At {
    pub(crate) place: u64,
    pub(crate) text: u64,
}

// Copies the piece of the entry at this gate of a copy into the ledger's file, but for the ledger's first byte, and goes on to
// the next gate. None where no entry is there, or one with more text than there is to be.
fn move_piece<D: Disk>(
    disk: &mut D,
    source: u8,
    until: u64,
    at: At,
    buffer: &mut [u8],
) -> Result<Option<At>, DiskFault>
    requires source { IsCopyFile source }
    requires places { (at.place ≤ 2 ^ 58) × (at.text < until) × (until ≤ 2 ^ 58) }
    requires buffer { length buffer.old ≡ 4096 }
    requires there { D.reveals → (1 ≤ length ((D.state disk.old).files 0)) × (at.text ≤ length ((D.state disk.old).files 0)) }
    ensures moved { IfOk result (λ found. D.reveals → (piece rest : List ℕ) → IsTextAt ((D.state disk.old).files source) at piece rest → at.text + length piece ≤ until → at.place + (37 + length piece) ≤ greatest_place → MatchOption found ⊥ (λ next. HasMoved at piece next (D.state disk.old).files (D.state disk.new).files)) }
    ensures on { IfOk result (λ found. IfSome found (λ next. (at.text < next.text) × (next.text ≤ until) × (next.place ≤ 2 ^ 58))) }
    ensures there { IfOk result (λ found. IfSome found (λ next. D.reveals → (1 ≤ length ((D.state disk.new).files 0)) × (next.text ≤ length ((D.state disk.new).files 0)))) }
    ensures buffer { length buffer.new ≡ 4096 }
    ensures writes { OnlyWrites D.reveals (D.state disk.old).free (FitsChange (D.state disk.old) 0 (until + 1)) (IsErr result) (ChangesFile 0 (KeepsFront 1)) (D.state disk.old) (D.state disk.new) }
{
    let mut head = [0; 5];
    if !read_part(disk, source, at.place, &mut head)? {
        return Ok(None);
    }
    let len = u64::from(number_in(&head[1..]));
    if len == 0 || len > until - at.text || at.place + 37 + len > GREATEST {
        return Ok(None);
    }
    let skip = u64::from(at.text == 0);
    let from = at.place + 5 + skip;
    if !move_range(disk, source, from, at.text + skip, len - skip, buffer)? {
        return Ok(None);
    }
    Ok(Some(At {
        place: at.place + 37 + len,
        text: at.text + len,
    }))
}

// Copies the text of a good copy into the ledger's file, which is one closed gate, but for the first byte, and a closed gate
// after it. It says whether it could.
fn fill_ledger<D: Disk>(disk: &mut D, source: u8, until: u64) -> Result<bool, DiskFault>
    requires source { IsCopyFile source }
    requires place { until ≤ 2 ^ 58 }
    requires begun { D.reveals → (D.state disk.old).files 0 ≡ 0 ∷ [] }
    ensures filled { IfOk result (λ whole. D.reveals → (pieces : List (List ℕ)) → IsGood pieces ((D.state disk.old).files source) → until ≡ length (text_of pieces) → (whole ≡ true) × IsClosed (whole_text pieces) ((D.state disk.new).files 0)) }
    ensures durable { IfOk result (λ whole. IsTrue whole → D.reveals → IsSynced (D.state disk.new)) }
    ensures writes { OnlyWrites D.reveals (D.state disk.old).free (FitsChange (D.state disk.old) 0 (until + 1)) (IsErr result) (ChangesFile 0 (KeepsFront 1)) (D.state disk.old) (D.state disk.new) }
{
    let mut buffer = [0; 4096];
    let mut at = At { place: 9, text: 0 };
    'pieces: while at.text < until {
        let Some(next) = move_piece(disk, source, until, at, &mut buffer)? else {
            return Ok(false);
        };
        at = next;
    }
    if until == 0 {
        return Ok(false);
    }
    write_through(disk, 0, until, &[0])?;
    Ok(true)
}

/// Makes the ledger's file anew: the text of a good copy, of which so many bytes are given, and a closed gate. At each moment
/// it is as it was, or not begun, or whole, and at `Ok` it is whole where it answers so; it does where the copy is good and
/// has so much text.
pub fn make_ledger<D: Disk>(disk: &mut D, source: u8, until: u64) -> Result<bool, DiskFault>
    requires source { IsCopyFile source }
    requires place { until ≤ 2 ^ 58 }
    requires fixed { D.reveals → IsFixed (D.state disk.old) 0 }
    ensures any_moment { D.reveals → (pieces : List (List ℕ)) → IsGood pieces ((D.state disk.old).files source) → until ≡ length (text_of pieces) → During (D.state disk.old) (D.state disk.new) (λ c. IsOldNoneOrMade (whole_text pieces) ((D.state disk.old).files 0) (c 0)) }
    ensures reads { D.reveals → (pieces : List (List ℕ)) → IsGood pieces ((D.state disk.old).files source) → until ≡ length (text_of pieces) → IsOldNoneOrMade (whole_text pieces) ((D.state disk.old).files 0) ((D.state disk.new).files 0) }
    ensures made { IfOk result (λ whole. D.reveals → (pieces : List (List ℕ)) → IsGood pieces ((D.state disk.old).files source) → until ≡ length (text_of pieces) → (whole ≡ true) × ((D.state disk.new).files 0 ≡ whole_text pieces)) }
    ensures durable { IfOk result (λ whole. IsTrue whole → D.reveals → IsSynced (D.state disk.new)) }
    ensures writes { OnlyWrites D.reveals (D.state disk.old).free (FitsChange (D.state disk.old) 0 (until + 1)) (IsErr result) (ChangesOnly 0) (D.state disk.old) (D.state disk.new) }
{
    clear(disk, 0)?;
    if !fill_ledger(disk, source, until)? {
        return Ok(false);
    }
    open_gate_at(disk, 0, 0)?;
    Ok(true)
}
