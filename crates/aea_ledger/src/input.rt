// The bytes of a ledger file that are read, and the running hash of those that were taken in.

ghost use Rattle.std.specs.Prelude.{◌≡◌, ◌+◌, ◌*◌, ◌^◌, ◌<◌, ◌≤◌, ◌++◌, false, List, ℕ, length, take, drop, IsTrue, IfOk, IfErr, IfSome, IfNone, Err};
ghost use Rattle.std.specs.Int.{w32, from_be_bytes};
ghost use Rattle.sha2.specs.Hashers.{Holds256};
ghost use Rattle.aea_records.specs.TableLaws.{AreBytes};
ghost use Rattle.aea_records.specs.Fields.{extents};
ghost use Rattle.aea_disk.specs.Frames.{OnlyReads};
ghost use Rattle.aea_ledger.specs.Reads.{IsAhead};
ghost use Rattle.aea_ledger.specs.Readings.{HasDigests, HasParts, IsOutside};

use crate::cursor::Cursor;
use crate::open::OpenFault;
use aea_catalog::Extent;
use aea_disk::Disk;
use sha2::{Digest, Sha256};

#[derive(Drop)]
pub(crate) struct Input {
    pub(crate) cursor: Cursor,
    pub(crate) hasher: Sha256,
}

impl Input {
    // Takes in the first bytes of those that were read.
    pub(crate) fn pass(&mut self, count: usize)
        requires { count ≤ length self.old.cursor.bytes }
        ensures are { AreBytes (take count self.old.cursor.bytes) }
        ensures holds { (message : List ℕ) → Holds256 self.old.hasher message → Holds256 self.new.hasher (message ++ take count self.old.cursor.bytes) }
        ensures place { self.new.cursor.place ≡ self.old.cursor.place + count }
        ensures revealed { (file : List ℕ) → IsAhead self.old.cursor file → IsAhead self.new.cursor file }
    {
        let window = self.cursor.window(count);
        self.hasher.update(window);
        self.cursor.skip(count);
    }
}

// The digest that these bytes are.
fn digest_in(bytes: &[u8]) -> [u8; 32]
    requires { length bytes.now ≡ 32 }
    ensures { result ≡ bytes.now }
{
    match bytes.first_chunk::<32>() {
        Some(chunk) => *chunk,
        None => unreachable!(),
    }
}

// The number of 4 bytes, high byte first.
fn number_in(bytes: &[u8]) -> u32
    requires { length bytes.now ≡ 4 }
    ensures { result ≡ from_be_bytes w32 bytes.now }
{
    match bytes.first_chunk::<4>() {
        Some(chunk) => u32::from_be_bytes(*chunk),
        None => unreachable!(),
    }
}

// The part that these bytes are.
fn part_in(bytes: &[u8]) -> Extent
    requires { length bytes.now ≡ 8 }
    ensures { result ≡ record { first = from_be_bytes w32 (take 4 bytes.now); count = from_be_bytes w32 (drop 4 bytes.now) } }
{
    let (first, count) = bytes.split_at(4);
    Extent {
        first: number_in(first),
        count: number_in(count),
    }
}

// Reads a digest, where the file has all of it.
fn read_digest<D: Disk>(
    input: &mut Input,
    disk: &mut D,
    digests: &mut Vec<[u8; 32]>,
) -> Result<bool, OpenFault>
    requires range { input.old.cursor.place ≤ 2 ^ 61 }
    requires ahead { D.reveals → IsAhead input.old.cursor ((D.state disk.old).files 0) }
    ensures more { IfOk result (λ more. IsTrue more → HasDigests D.reveals ((D.state disk.old).files 0) input.old input.new 1 digests.old.items digests.new.items) }
    ensures last { IfOk result (λ more. more ≡ false → D.reveals → length (drop input.old.cursor.place ((D.state disk.old).files 0)) < 32) }
    ensures outside { IfErr result IsOutside }
    ensures reads { OnlyReads D.reveals (result ≡ Err OpenFault.DiskFault) (D.state disk.old) (D.state disk.new) }
{
    if input.cursor.fill(disk, 32)? < 32 {
        return Ok(false);
    }
    let digest = digest_in(input.cursor.window(32));
    if digests.push(digest).is_err() {
        return Err(OpenFault::NoMemory);
    }
    input.pass(32);
    Ok(true)
}

// Reads so many digests, where the file has them all.
pub(crate) fn read_digests<D: Disk>(
    input: &mut Input,
    disk: &mut D,
    count: usize,
    digests: &mut Vec<[u8; 32]>,
) -> Result<bool, OpenFault>
    requires range { input.old.cursor.place + 32 * count ≤ 2 ^ 61 }
    requires ahead { D.reveals → IsAhead input.old.cursor ((D.state disk.old).files 0) }
    ensures more { IfOk result (λ more. IsTrue more → HasDigests D.reveals ((D.state disk.old).files 0) input.old input.new count digests.old.items digests.new.items) }
    ensures last { IfOk result (λ more. more ≡ false → D.reveals → length (drop input.old.cursor.place ((D.state disk.old).files 0)) < 32 * count) }
    ensures outside { IfErr result IsOutside }
    ensures reads { OnlyReads D.reveals (result ≡ Err OpenFault.DiskFault) (D.state disk.old) (D.state disk.new) }
{
    for _ in 0..count {
        if !read_digest(input, disk, digests)? {
            return Ok(false);
        }
    }
    Ok(true)
}

// Reads a part, where the file has all of it.
fn read_part<D: Disk>(
    input: &mut Input,
    disk: &mut D,
    parts: &mut Vec<Extent>,
) -> Result<bool, OpenFault>
    requires range { input.old.cursor.place ≤ 2 ^ 61 }
    requires ahead { D.reveals → IsAhead input.old.cursor ((D.state disk.old).files 0) }
    ensures more { IfOk result (λ more. IsTrue more → HasParts D.reveals ((D.state disk.old).files 0) input.old input.new 1 parts.old.items parts.new.items) }
    ensures last { IfOk result (λ more. more ≡ false → D.reveals → length (drop input.old.cursor.place ((D.state disk.old).files 0)) < 8) }
    ensures outside { IfErr result IsOutside }
    ensures reads { OnlyReads D.reveals (result ≡ Err OpenFault.DiskFault) (D.state disk.old) (D.state disk.new) }
{
    if input.cursor.fill(disk, 8)? < 8 {
        return Ok(false);
    }
    let part = part_in(input.cursor.window(8));
    if parts.push(part).is_err() {
        return Err(OpenFault::NoMemory);
    }
    input.pass(8);
    Ok(true)
}

// Reads so many parts, where the file has them all.
pub(crate) fn read_parts<D: Disk>(
    input: &mut Input,
    disk: &mut D,
    count: usize,
    parts: &mut Vec<Extent>,
) -> Result<bool, OpenFault>
    requires range { input.old.cursor.place + 8 * count ≤ 2 ^ 61 }
    requires ahead { D.reveals → IsAhead input.old.cursor ((D.state disk.old).files 0) }
    ensures more { IfOk result (λ more. IsTrue more → HasParts D.reveals ((D.state disk.old).files 0) input.old input.new count parts.old.items parts.new.items) }
    ensures last { IfOk result (λ more. more ≡ false → D.reveals → length (drop input.old.cursor.place ((D.state disk.old).files 0)) < 8 * count) }
    ensures outside { IfErr result IsOutside }
    ensures reads { OnlyReads D.reveals (result ≡ Err OpenFault.DiskFault) (D.state disk.old) (D.state disk.new) }
{
    for _ in 0..count {
        if !read_part(input, disk, parts)? {
            return Ok(false);
        }
    }
    Ok(true)
}
