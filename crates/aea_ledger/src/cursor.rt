// A cursor over the ledger file, which reads it piece by piece, each byte once.

ghost use Rattle.std.specs.Prelude.{◌≡◌, ◌+◌, ◌-◌, ◌^◌, ◌≤◌, ◌++◌, [], ℕ, List, length, take, drop, min, IfOk, IsErr, OnOk};
ghost use Rattle.aea_faults.specs.Faults.{HasCause};
ghost use Rattle.aea_disk.specs.State.{Passes, KeepsImages, IsSure, HasRoom};
ghost use Rattle.aea_disk.specs.Frames.{OnlyReads};
ghost use Rattle.aea_ledger.specs.Reads.{IsAhead};

use aea_disk::{Disk, DiskFault};
use std::alloc::{AllocError, Global};
use std::marker::Model;

// The number of bytes of a piece.
const PIECE: usize = 65_536;

// A place in the file, and bytes from there on, which were read.
#[derive(Drop)]
pub(crate) struct Cursor {
    buffer: Vec<u8>,
    start: usize,
    end: usize,
    next: u64,
}

impl Model for Cursor {
    ghost use Rattle.std.specs.Prelude.{◌≡◌, ◌≤◌, ◌-◌, take, drop, length};
    ghost use Rattle.aea_ledger.specs.Reads.{Ahead};

    ghost Value = { Ahead };

    ghost view = { λ a. record { place = a.next - (a.end - a.start); bytes = take (a.end - a.start) (drop a.start a.buffer.items) } };

    ghost invariant = { λ a. (a.start ≤ a.end) × (a.end ≤ 65536) × (length a.buffer.items ≡ 65536) × (a.end - a.start ≤ a.next) };
}

// Reads bytes of the file after the first ones of the buffer.
fn read_behind<D: Disk>(
    disk: &mut D,
    at: u64,
    buffer: &mut [u8],
    kept: usize,
) -> Result<usize, DiskFault>
    requires kept { kept ≤ length buffer.old }
    requires range { at + length buffer.old ≤ 2 ^ 62 }
    ensures bound { IfOk result (λ k. kept + k ≤ length buffer.new) }
    ensures bytes { IfOk result (λ k. D.reveals → take (kept + k) buffer.new ≡ take kept buffer.old ++ take (length buffer.old - kept) (drop at ((D.state disk.old).files 0))) }
    ensures len { length buffer.new ≡ length buffer.old }
    ensures front { take kept buffer.new ≡ take kept buffer.old }
    ensures reads { OnlyReads D.reveals (IsErr result) (D.state disk.old) (D.state disk.new) }
{
    let (_, behind) = buffer.split_at_mut(kept);
    disk.read(0, at, behind)
}

impl Cursor {
    // The beginning of the file, of which nothing was read yet.
    pub(crate) fn new(alloc: Global) -> Result<Cursor, AllocError>
        ensures place { IfOk result (λ c. c.place ≡ 0) }
        ensures bytes { IfOk result (λ c. c.bytes ≡ []) }
    {
        Ok(Cursor {
            buffer: vec![in alloc; 0; PIECE]?,
            start: 0,
            end: 0,
            next: 0,
        })
    }

    // Reads on, as far as the buffer has space.
    fn refill<D: Disk>(&mut self, disk: &mut D) -> Result<(), DiskFault>
        requires range { self.old.place ≤ 2 ^ 61 }
        requires revealed { D.reveals → IsAhead self.old ((D.state disk.old).files 0) }
        ensures place { OnOk result (self.new.place ≡ self.old.place) }
        ensures bytes { OnOk result (D.reveals → self.new.bytes ≡ take 65536 (drop self.old.place ((D.state disk.old).files 0))) }
        ensures reads { OnlyReads D.reveals (IsErr result) (D.state disk.old) (D.state disk.new) }
    {
        let kept = self.end - self.start;
        self.buffer.copy_within(self.start..self.end, 0);
        self.start = 0;
        self.end = kept;
        let more = read_behind(disk, self.next, &mut self.buffer, kept)?;
        self.end = kept + more;
        self.next += more as u64;
        Ok(())
    }

    // Reads on until there are this many bytes, or all that the file has; at most as many as a piece has. It says how
    // many of them there are.
    pub(crate) fn fill<D: Disk>(&mut self, disk: &mut D, count: usize) -> Result<usize, DiskFault>
        requires few { count ≤ 65536 }
        requires range { self.old.place ≤ 2 ^ 61 }
        requires revealed { D.reveals → IsAhead self.old ((D.state disk.old).files 0) }
        ensures there { IfOk result (λ k. k ≡ min count (length self.new.bytes)) }
        ensures place { OnOk result (self.new.place ≡ self.old.place) }
        ensures revealed { OnOk result (D.reveals → IsAhead self.new ((D.state disk.new).files 0)) }
        ensures window { IfOk result (λ k. D.reveals → take k self.new.bytes ≡ take count (drop self.old.place ((D.state disk.old).files 0))) }
        ensures reads { OnlyReads D.reveals (IsErr result) (D.state disk.old) (D.state disk.new) }
    {
        if count <= self.end - self.start {
            return Ok(count);
        }
        self.refill(disk)?;
        Ok(count.min(self.end - self.start))
    }

    // The first bytes of those that were read.
    pub(crate) fn window(&self, count: usize) -> &[u8]
        requires { count ≤ length self.now.bytes }
        ensures { result.now ≡ take count self.now.bytes }
    {
        &self.buffer[self.start..self.start + count]
    }

    // Goes on after the first bytes of those that were read.
    pub(crate) fn skip(&mut self, count: usize)
        requires { count ≤ length self.old.bytes }
        ensures place { self.new.place ≡ self.old.place + count }
        ensures bytes { self.new.bytes ≡ drop count self.old.bytes }
        ensures revealed { (file : List ℕ) → IsAhead self.old file → IsAhead self.new file }
    {
        self.start += count;
    }

    // The place in the file.
    pub(crate) fn place(&self) -> u64
        ensures { result ≡ self.now.place }
    {
        self.next - (self.end - self.start) as u64
    }
}
