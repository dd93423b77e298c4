// The entry of one piece of the ledger is written.
ghost use Rattle.std.specs.Prelude.{◌≡◌, ◌+◌, ◌-◌, ◌^◌, ◌<◌, ◌≤◌, ◌++◌, [], ◌∷◌, ℕ, List, length, take, IsTrue, IsErr, IfOk, IfSome, IfNone, MatchOption, false};
ghost use Rattle.std.specs.Int.{w32, to_be_bytes};
ghost use Rattle.sha2.specs.Sha256.{sha256};
ghost use Rattle.sha2.specs.Hashers.{Holds256};
ghost use Rattle.aea_disk.specs.Files.{ChangesFile, Holds, Torn};
ghost use Rattle.aea_disk.specs.Frames.{OnlyWrites};
ghost use Rattle.aea_copies.specs.Kept.{IsCopyFile};
ghost use Rattle.aea_copy_writer.specs.Changes.{KeepsFront, FitsChange};
ghost use Rattle.aea_copy_writer.specs.Parts.{part_of, IsThere, Takes, IsLinkOf, gate_byte};
ghost use Rattle.aea_copy_writer.specs.Pieces.{HasEntry, HasWhole};

use crate::entries::Written;
use crate::parts::{put_part, read_part};
use aea_disk::{Disk, DiskFault};
use sha2::{Digest, Sha256};

// A piece of the ledger: where it begins, how many bytes it has, and whether more pieces follow.
#[derive(Clone, Copy, Debug)]
pub(crate) struct Piece {
    pub(crate) at: u64,
    pub(crate) len: u32,
    pub(crate) more: bool,
}

// Puts a link and a gate at the end of a buffer.
fn finish(buffer: &mut [u8], link: &[u8; 32], more: bool)
    requires { 33 ≤ length buffer.old }
    ensures { buffer.new ≡ take (length buffer.old - 33) buffer.old ++ (link.now ++ gate_byte more ∷ []) }
{
    let size = buffer.len() - 33;
    buffer[size..size + 32].copy_from_slice(link);
    buffer[size + 32] = u8::from(more);
}

// Puts the last part of a piece into a hash, and into a copy after the first bytes of the buffer, so many, and the link and
// a gate after it, where the ledger has all of the part.
fn put_last<D: Disk>(
    disk: &mut D,
    from: u64,
    file: u8,
    to: u64,
    buffer: &mut [u8],
    head: usize,
    mut hasher: Sha256,
    more: bool,
) -> Result<Option<[u8; 32]>, DiskFault>
    requires file { (1 ≤ file) × (file ≤ 66) }
    requires head { head + 33 ≤ length buffer.old }
    requires from { from + length buffer.old ≤ 2 ^ 62 }
    requires to { to + length buffer.old ≤ 2 ^ 62 }
    ensures there { IfOk result (λ found. IfSome found (λ link. D.reveals → IsThere ((D.state disk.old).files 0) from (length buffer.old - head - 33))) }
    ensures put { IfOk result (λ found. IfSome found (λ link. D.reveals → ChangesFile file (Holds to ((take head buffer.old ++ part_of ((D.state disk.old).files 0) from (length buffer.old - head - 33)) ++ (link ++ gate_byte more ∷ []))) (D.state disk.old).files (D.state disk.new).files)) }
    ensures link { IfOk result (λ found. IfSome found (λ link. D.reveals → IsLinkOf hasher (part_of ((D.state disk.old).files 0) from (length buffer.old - head - 33)) link)) }
    ensures short { IfOk result (λ found. IfNone found (D.reveals → length ((D.state disk.old).files 0) < from + (length buffer.old - head - 33))) }
    ensures writes { OnlyWrites D.reveals (D.state disk.old).free (FitsChange (D.state disk.old) file (to + length buffer.old)) (IsErr result) (ChangesFile file (Torn to (length buffer.old))) (D.state disk.old) (D.state disk.new) }
{
    let size = buffer.len() - 33;
    if !read_part(disk, 0, from, &mut buffer[head..size])? {
        return Ok(None);
    }
    hasher.update(&buffer[head..size]);
    let link = hasher.finalize();
    finish(buffer, &link, more);
    disk.write(file, to, buffer)?;
    Ok(Some(link))
}

// Puts so many bytes of the ledger into a copy and into a hash, where the ledger has them all: it says whether it has. They
// go through a buffer.
fn put_range<D: Disk>(
    disk: &mut D,
    from: u64,
    file: u8,
    to: u64,
    count: u64,
    buffer: &mut [u8],
    hasher: &mut Sha256,
) -> Result<bool, DiskFault>
    requires file { (1 ≤ file) × (file ≤ 66) }
    requires from { from + count ≤ 2 ^ 61 }
    requires to { to + count ≤ 2 ^ 61 }
    requires buffer { length buffer.old ≡ 4133 }
    requires there { D.reveals → to ≤ length ((D.state disk.old).files file) }
    ensures there { IfOk result (λ whole. IsTrue whole → D.reveals → IsThere ((D.state disk.old).files 0) from count) }
    ensures put { IfOk result (λ whole. IsTrue whole → D.reveals → ChangesFile file (Holds to (part_of ((D.state disk.old).files 0) from count)) (D.state disk.old).files (D.state disk.new).files) }
    ensures taken { IfOk result (λ whole. IsTrue whole → D.reveals → Takes hasher.old (part_of ((D.state disk.old).files 0) from count) hasher.new) }
    ensures short { IfOk result (λ whole. whole ≡ false → D.reveals → length ((D.state disk.old).files 0) < from + count) }
    ensures buffer { length buffer.new ≡ 4133 }
    ensures writes { OnlyWrites D.reveals (D.state disk.old).free (FitsChange (D.state disk.old) file (to + count)) (IsErr result) (ChangesFile file (KeepsFront to)) (D.state disk.old) (D.state disk.new) }
{
    let mut done = 0;
    'parts: while done < count {
        let size = (count - done).min(4096) as usize;
        if !put_part(
            disk,
            from + done,
            file,
            to + done,
            &mut buffer[..size],
            0,
            hasher,
        )? {
            return Ok(false);
        }
        done += size as u64;
    }
    Ok(true)
}

// Puts the first part of a piece, after its length in the buffer, and further bytes of it into a copy and into a hash, where the
// ledger has them all: it says whether it has.
fn write_front<D: Disk>(
    disk: &mut D,
    file: u8,
    gate: u64,
    at: u64,
    part: usize,
    middle: u64,
    buffer: &mut [u8],
    hasher: &mut Sha256,
) -> Result<bool, DiskFault>
    requires file { (1 ≤ file) × (file ≤ 66) }
    requires places { (gate ≤ 2 ^ 59) × (at ≤ 2 ^ 59) × (middle ≤ 2 ^ 59) }
    requires part { part + 4 ≤ 4133 }
    requires buffer { length buffer.old ≡ 4133 }
    ensures there { IfOk result (λ whole. IsTrue whole → D.reveals → IsThere ((D.state disk.old).files 0) at (part + middle)) }
    ensures put { IfOk result (λ whole. IsTrue whole → D.reveals → ChangesFile file (Holds (gate + 1) (take 4 buffer.old ++ part_of ((D.state disk.old).files 0) at (part + middle))) (D.state disk.old).files (D.state disk.new).files) }
    ensures taken { IfOk result (λ whole. IsTrue whole → D.reveals → Takes hasher.old (part_of ((D.state disk.old).files 0) at (part + middle)) hasher.new) }
    ensures short { IfOk result (λ whole. whole ≡ false → D.reveals → length ((D.state disk.old).files 0) < at + (part + middle)) }
    ensures buffer { IfOk result (λ whole. length buffer.new ≡ 4133) }
    ensures writes { OnlyWrites D.reveals (D.state disk.old).free (FitsChange (D.state disk.old) file (gate + 5 + (part + middle))) (IsErr result) (ChangesFile file (KeepsFront (gate + 1))) (D.state disk.old) (D.state disk.new) }
{
    let to = gate + 1;
    if !put_part(disk, at, file, to, &mut buffer[..part + 4], 4, hasher)? {
        return Ok(false);
    }
    let done = part as u64;
    put_range(disk, at + done, file, to + 4 + done, middle, buffer, hasher)
}

// Writes the entry of a piece that is longer than its first part, which is given by its length, and has at most 4,096 bytes.
fn write_long<D: Disk>(
    disk: &mut D,
    file: u8,
    gate: u64,
    piece: &Piece,
    part: usize,
    buffer: &mut [u8],
    mut hasher: Sha256,
) -> Result<Option<[u8; 32]>, DiskFault>
    requires file { (1 ≤ file) × (file ≤ 66) }
    requires places { (gate ≤ 2 ^ 59) × (piece.now.at ≤ 2 ^ 59) }
    requires part { (part + 4 ≤ 4133) × (part < piece.now.len) }
    requires buffer { length buffer.old ≡ 4133 }
    ensures entry { IfOk result (λ found. IfSome found (λ link. D.reveals → HasEntry file gate (take 4 buffer.old) piece.now hasher link (D.state disk.old).files (D.state disk.new).files)) }
    ensures short { IfOk result (λ found. IfNone found (D.reveals → length ((D.state disk.old).files 0) < piece.now.at + piece.now.len)) }
    ensures writes { OnlyWrites D.reveals (D.state disk.old).free (FitsChange (D.state disk.old) file (gate + (37 + piece.now.len) + 1)) (IsErr result) (ChangesFile file (KeepsFront (gate + 1))) (D.state disk.old) (D.state disk.new) }
{
    let rest = piece.len as usize - part;
    let last = rest.min(4096);
    let middle = (rest - last) as u64;
    if !write_front(
        disk,
        file,
        gate,
        piece.at,
        part,
        middle,
        buffer,
        &mut hasher,
    )? {
        return Ok(None);
    }
    let done = part as u64 + middle;
    put_last(
        disk,
        piece.at + done,
        file,
        gate + 5 + done,
        &mut buffer[..last + 33],
        0,
        hasher,
        piece.more,
    )
}

// Writes the entry of a piece of up to 4,096 bytes, after its length in the buffer: with one read and one write.
fn write_short<D: Disk>(
    disk: &mut D,
    file: u8,
    gate: u64,
    piece: &Piece,
    buffer: &mut [u8],
    hasher: Sha256,
) -> Result<Option<[u8; 32]>, DiskFault>
    requires file { (1 ≤ file) × (file ≤ 66) }
    requires places { (gate ≤ 2 ^ 59) × (piece.now.at ≤ 2 ^ 59) }
    requires short { piece.now.len ≤ 4096 }
    requires buffer { length buffer.old ≡ 4133 }
    ensures entry { IfOk result (λ found. IfSome found (λ link. D.reveals → HasEntry file gate (take 4 buffer.old) piece.now hasher link (D.state disk.old).files (D.state disk.new).files)) }
    ensures short { IfOk result (λ found. IfNone found (D.reveals → length ((D.state disk.old).files 0) < piece.now.at + piece.now.len)) }
    ensures writes { OnlyWrites D.reveals (D.state disk.old).free (FitsChange (D.state disk.old) file (gate + (37 + piece.now.len) + 1)) (IsErr result) (ChangesFile file (KeepsFront (gate + 1))) (D.state disk.old) (D.state disk.new) }
{
    let size = piece.len as usize;
    put_last(
        disk,
        piece.at,
        file,
        gate + 1,
        &mut buffer[..size + 37],
        4,
        hasher,
        piece.more,
    )
}

// Puts the length of a piece at the start of a buffer, and the link before it and the length into a hash.
fn begin(link: &[u8; 32], len: u32, buffer: &mut [u8]) -> Sha256
    requires { 4 ≤ length buffer.old }
    ensures number { take 4 buffer.new ≡ to_be_bytes w32 len }
    ensures hashed { Holds256 result (link.now ++ to_be_bytes w32 len) }
{
    let number = len.to_be_bytes();
    buffer[..4].copy_from_slice(&number);
    let mut hasher = Sha256::new();
    hasher.update(link);
    hasher.update(&number);
    hasher
}

// Writes the entry of a piece after the gate at which the last one ends, and a gate after it. A piece of up to 4,096 bytes takes
// one read and one write.
pub(crate) fn write_entry<D: Disk>(
    disk: &mut D,
    file: u8,
    last: &Written,
    piece: &Piece,
    buffer: &mut [u8],
) -> Result<Option<[u8; 32]>, DiskFault>
    requires file { (1 ≤ file) × (file ≤ 66) }
    requires places { (last.now.gate ≤ 2 ^ 59) × (piece.now.at ≤ 2 ^ 59) }
    requires buffer { length buffer.old ≡ 4133 }
    ensures entry { IfOk result (λ found. IfSome found (λ link. D.reveals → HasWhole file last.now piece.now link (D.state disk.old).files (D.state disk.new).files)) }
    ensures short { IfOk result (λ found. IfNone found (D.reveals → length ((D.state disk.old).files 0) < piece.now.at + piece.now.len)) }
    ensures writes { OnlyWrites D.reveals (D.state disk.old).free (FitsChange (D.state disk.old) file (last.now.gate + (37 + piece.now.len) + 1)) (IsErr result) (ChangesFile file (KeepsFront (last.now.gate + 1))) (D.state disk.old) (D.state disk.new) }
{
    let hasher = begin(&last.link, piece.len, buffer);
    if piece.len > 4096 {
        return write_long(disk, file, last.gate, piece, 4096, buffer, hasher);
    }
    write_short(disk, file, last.gate, piece, buffer, hasher)
}
