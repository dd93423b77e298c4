//! Whether a file goes on with the same bytes.

ghost use Rattle.std.specs.Prelude.{◌≡◌, ◌↔◌, ◌+◌, ◌^◌, ◌≤◌, length, take, drop, true, IsTrue, IsErr, IfOk, OnOk};
ghost use Rattle.aea_disk.specs.Frames.{OnlyReads};
ghost use Rattle.aea_copy_reader.specs.Seen.{IsSeen};

use crate::window::Window;
use aea_disk::{Disk, DiskFault};

// How many of these bytes a file has at a place, of those that were read at once; 0 where it has others there, or none.
fn next_kept<D: Disk>(
    disk: &mut D,
    file: u8,
    window: &mut Window,
    at: u64,
    part: &[u8],
) -> Result<usize, DiskFault>
    requires file { file ≤ 66 }
    requires range { at ≤ 2 ^ 61 }
    requires some { 1 ≤ length part.now }
    requires seen { D.reveals → IsSeen ((D.state disk.old).files file) window.old }
    ensures bound { IfOk result (λ n. n ≤ length part.now) }
    ensures kept { IfOk result (λ n. D.reveals → take n (drop at ((D.state disk.old).files file)) ≡ take n part.now) }
    ensures none { IfOk result (λ n. n ≡ 0 → D.reveals → take (length part.now) (drop at ((D.state disk.old).files file)) ≡ part.now → ⊥) }
    ensures seen { OnOk result (D.reveals → IsSeen ((D.state disk.old).files file) window.new) }
    ensures reads { OnlyReads D.reveals (IsErr result) (D.state disk.old) (D.state disk.new) }
{
    window.reach(disk, file, at, 1)?;
    let there = window.look(at, part.len());
    let count = there.len();
    let same = there == &part[..count];
    if same {
        return Ok(count);
    }
    Ok(0)
}

/// Whether a file, which had all that was before, goes on at a place with these bytes.
pub fn keeps<D: Disk>(
    disk: &mut D,
    file: u8,
    window: &mut Window,
    at: u64,
    part: &[u8],
    had: bool,
) -> Result<bool, DiskFault>
    requires file { file ≤ 66 }
    requires range { at + length part.now ≤ 2 ^ 61 }
    requires seen { D.reveals → IsSeen ((D.state disk.old).files file) window.old }
    ensures is { IfOk result (λ is. D.reveals → is ≡ true ↔ ((had ≡ true) × (take (length part.now) (drop at ((D.state disk.old).files file)) ≡ part.now))) }
    ensures seen { OnOk result (D.reveals → IsSeen ((D.state disk.old).files file) window.new) }
    ensures reads { OnlyReads D.reveals (IsErr result) (D.state disk.old) (D.state disk.new) }
{
    if !had {
        return Ok(false);
    }
    let mut done = 0;
    'parts: loop {
        if done == part.len() {
            return Ok(true);
        }
        let size = next_kept(disk, file, window, at + done as u64, &part[done..])?;
        if size == 0 {
            return Ok(false);
        }
        done += size;
    }
}

/// Whether these 32 bytes are in a file at a place.
pub fn is_linked<D: Disk>(
    disk: &mut D,
    file: u8,
    window: &mut Window,
    at: u64,
    link: &[u8; 32],
) -> Result<bool, DiskFault>
    requires file { file ≤ 66 }
    requires range { at ≤ 2 ^ 60 }
    requires seen { D.reveals → IsSeen ((D.state disk.old).files file) window.old }
    ensures linked { IfOk result (λ is. D.reveals → IsTrue is ↔ (take 32 (drop at ((D.state disk.old).files file)) ≡ link.now)) }
    ensures seen { OnOk result (D.reveals → IsSeen ((D.state disk.old).files file) window.new) }
    ensures reads { OnlyReads D.reveals (IsErr result) (D.state disk.old) (D.state disk.new) }
{
    keeps(disk, file, window, at, link, true)
}
