// Parts of a file, of up to 4,096 bytes, that go through a buffer.
ghost use Rattle.std.specs.Prelude.{◌≡◌, ◌+◌, ◌-◌, ◌^◌, ◌<◌, ◌≤◌, ◌++◌, [], ◌∷◌, ℕ, List, length, take, drop, IsTrue, IsErr, IfOk, false};
ghost use Rattle.aea_disk.specs.Files.{ChangesFile, Holds, Torn};
ghost use Rattle.aea_disk.specs.Frames.{OnlyReads, OnlyWrites};
ghost use Rattle.aea_records.specs.TableLaws.{AreBytes};
ghost use Rattle.aea_copy_writer.specs.Changes.{FitsChange};
ghost use Rattle.aea_copy_writer.specs.Parts.{part_of, IsThere, Takes};

use aea_disk::{Disk, DiskFault};
use sha2::{Digest, Sha256};

// These are bytes.
fn are_bytes(bytes: &[u8])
    ensures { AreBytes bytes.now }
{
    let _first = bytes.first();
}

// Reads a part of a file, where the file has all of it: it says whether it has.
pub(crate) fn read_part<D: Disk>(
    disk: &mut D,
    file: u8,
    from: u64,
    part: &mut [u8],
) -> Result<bool, DiskFault>
    requires file { file ≤ 66 }
    requires range { from + length part.old ≤ 2 ^ 62 }
    ensures whole { IfOk result (λ whole. IsTrue whole → D.reveals → part.new ≡ part_of ((D.state disk.old).files file) from (length part.old)) }
    ensures there { IfOk result (λ whole. IsTrue whole → D.reveals → IsThere ((D.state disk.old).files file) from (length part.old)) }
    ensures short { IfOk result (λ whole. whole ≡ false → D.reveals → length ((D.state disk.old).files file) < from + length part.old) }
    ensures reads { OnlyReads D.reveals (IsErr result) (D.state disk.old) (D.state disk.new) }
{
    let count = disk.read(file, from, part)?;
    are_bytes(part);
    Ok(count == part.len())
}

// Puts a part of the ledger into a hash, and into a copy after the first bytes of the buffer, so many, where the ledger has
// all of it: it says whether it has.
pub(crate) fn put_part<D: Disk>(
    disk: &mut D,
    from: u64,
    file: u8,
    to: u64,
    buffer: &mut [u8],
    head: usize,
    hasher: &mut Sha256,
) -> Result<bool, DiskFault>
    requires file { (1 ≤ file) × (file ≤ 66) }
    requires head { head ≤ length buffer.old }
    requires from { from + length buffer.old ≤ 2 ^ 62 }
    requires to { to + length buffer.old ≤ 2 ^ 62 }
    ensures there { IfOk result (λ whole. IsTrue whole → D.reveals → IsThere ((D.state disk.old).files 0) from (length buffer.old - head)) }
    ensures put { IfOk result (λ whole. IsTrue whole → D.reveals → ChangesFile file (Holds to (take head buffer.old ++ part_of ((D.state disk.old).files 0) from (length buffer.old - head))) (D.state disk.old).files (D.state disk.new).files) }
    ensures taken { IfOk result (λ whole. IsTrue whole → D.reveals → Takes hasher.old (part_of ((D.state disk.old).files 0) from (length buffer.old - head)) hasher.new) }
    ensures short { IfOk result (λ whole. whole ≡ false → D.reveals → length ((D.state disk.old).files 0) < from + (length buffer.old - head)) }
    ensures writes { OnlyWrites D.reveals (D.state disk.old).free (FitsChange (D.state disk.old) file (to + length buffer.old)) (IsErr result) (ChangesFile file (Torn to (length buffer.old))) (D.state disk.old) (D.state disk.new) }
{
    if !read_part(disk, 0, from, &mut buffer[head..])? {
        return Ok(false);
    }
    hasher.update(&buffer[head..]);
    disk.write(file, to, buffer)?;
    Ok(true)
}
