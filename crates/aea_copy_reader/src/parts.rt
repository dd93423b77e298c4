//! Ranges of two files are compared, part by part.

ghost use Rattle.std.specs.Prelude.{◌≡◌, ◌+◌, ◌^◌, ◌≤◌, length, take, drop, IsErr, IfOk, IfSome, IfNone};
ghost use Rattle.aea_disk.specs.Frames.{OnlyReads};
ghost use Rattle.aea_records.specs.TableLaws.{AreBytes};
ghost use Rattle.aea_copy_reader.specs.Taking.{PartsAt};

use aea_disk::{Disk, DiskFault};

// These are bytes.
pub fn are_bytes(bytes: &[u8])
    ensures { AreBytes bytes.now }
{}

// The first place at which two slices part, if they do: they have other bytes there, or one of them ends.
fn parting(first: &[u8], second: &[u8]) -> Option<usize>
    ensures parts { IfSome result (λ at. PartsAt at first.now second.now) }
    ensures within { IfSome result (λ at. at ≤ length first.now) }
    ensures same { IfNone result (first.now ≡ second.now) }
{
    let mut at = 0;
    'places: loop {
        if at == first.len() && at == second.len() {
            return None;
        }
        if at == first.len() || at == second.len() || first[at] != second[at] {
            return Some(at);
        }
        at += 1;
    }
}

// Where the bytes of two files, each from a place on and as many as two buffers of one length hold, part first, if they do.
fn next_parting<D: Disk>(
    disk: &mut D,
    file: u8,
    at: u64,
    other: u8,
    from: u64,
    first: &mut [u8],
    second: &mut [u8],
) -> Result<Option<usize>, DiskFault>
    requires file { (file ≤ 66) × (other ≤ 66) }
    requires range { (at + length first.old ≤ 2 ^ 62) × (from + length first.old ≤ 2 ^ 62) }
    requires buffers { length second.old ≡ length first.old }
    ensures parts { IfOk result (λ d. IfSome d (λ k. D.reveals → PartsAt k (take (length first.old) (drop at ((D.state disk.old).files file))) (take (length first.old) (drop from ((D.state disk.old).files other))))) }
    ensures within { IfOk result (λ d. IfSome d (λ k. k ≤ length first.old)) }
    ensures same { IfOk result (λ d. IfNone d (D.reveals → take (length first.old) (drop at ((D.state disk.old).files file)) ≡ take (length first.old) (drop from ((D.state disk.old).files other)))) }
    ensures buffers { (length first.new ≡ length first.old) × (length second.new ≡ length first.old) }
    ensures reads { OnlyReads D.reveals (IsErr result) (D.state disk.old) (D.state disk.new) }
{
    let one = disk.read(file, at, first)?;
    let two = disk.read(other, from, second)?;
    Ok(parting(&first[..one], &second[..two]))
}

// Where so many bytes of two files, each from a place on, part first, if they do.
pub fn range_parting<D: Disk>(
    disk: &mut D,
    file: u8,
    at: u64,
    other: u8,
    from: u64,
    count: u64,
) -> Result<Option<u64>, DiskFault>
    requires file { (file ≤ 66) × (other ≤ 66) }
    requires range { (at + count ≤ 2 ^ 62) × (from + count ≤ 2 ^ 62) }
    ensures parts { IfOk result (λ d. IfSome d (λ k. D.reveals → PartsAt k (take count (drop at ((D.state disk.old).files file))) (take count (drop from ((D.state disk.old).files other))))) }
    ensures within { IfOk result (λ d. IfSome d (λ k. k ≤ count)) }
    ensures same { IfOk result (λ d. IfNone d (D.reveals → take count (drop at ((D.state disk.old).files file)) ≡ take count (drop from ((D.state disk.old).files other)))) }
    ensures reads { OnlyReads D.reveals (IsErr result) (D.state disk.old) (D.state disk.new) }
{
    let mut first = [0; 2048];
    let mut second = [0; 2048];
    let mut done = 0;
    'parts: loop {
        if done == count {
            return Ok(None);
        }
        let size = (count - done).min(2048) as usize;
        let parted = next_parting(
            disk,
            file,
            at + done,
            other,
            from + done,
            &mut first[..size],
            &mut second[..size],
        )?;
        if let Some(k) = parted {
            return Ok(Some(done + k as u64));
        }
        done += size as u64;
    }
}
