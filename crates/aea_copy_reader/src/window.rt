//! A part of a file, as it was read, so that one who reads on through the file reads each byte once.

ghost use Rattle.std.specs.Prelude.{◌≡◌, ◌⊎◌, ◌↔◌, ◌+◌, ◌-◌, ◌^◌, ◌≤◌, ◌++◌, ℕ, List, length, take, drop, min, [], true, false, IfOk, IfSome, IsErr, OnOk};
ghost use Rattle.aea_disk.specs.Frames.{OnlyReads};
ghost use Rattle.aea_copy_reader.specs.Seen.{IsSeen, Covers};

use aea_disk::{Disk, DiskFault};
use std::marker::Model;

// The bytes of one file from a place on, as many as were read, and whether the file has none after them.
#[derive(Drop)]
pub struct Window {
    buffer: [u8; 4144],
    start: u64,
    size: usize,
    last: bool,
}

impl Model for Window {
    ghost use Rattle.std.specs.Prelude.{◌≡◌, ◌≤◌, take, length};
    ghost use Rattle.aea_copy_reader.specs.Seen.{Seen};

    ghost Value = { Seen };

    ghost view = { λ a. record { place = a.start; bytes = take a.size a.buffer; ended = a.last } };

    ghost invariant = { λ a. (a.size ≤ 4144) × (length a.buffer ≡ 4144) };
}

// Reads bytes of a file after the first ones of a buffer.
fn read_after<D: Disk>(
    disk: &mut D,
    file: u8,
    at: u64,
    buffer: &mut [u8],
    kept: usize,
) -> Result<usize, DiskFault>
    requires file { file ≤ 66 }
    requires kept { kept ≤ length buffer.old }
    requires range { at + length buffer.old ≤ 2 ^ 62 }
    ensures bound { IfOk result (λ k. kept + k ≤ length buffer.new) }
    ensures bytes { IfOk result (λ k. D.reveals → take (kept + k) buffer.new ≡ take kept buffer.old ++ take (length buffer.old - kept) (drop at ((D.state disk.old).files file))) }
    ensures count { IfOk result (λ k. D.reveals → k ≡ min (length buffer.old - kept) (length ((D.state disk.old).files file) - at)) }
    ensures len { length buffer.new ≡ length buffer.old }
    ensures reads { OnlyReads D.reveals (IsErr result) (D.state disk.old) (D.state disk.new) }
{
    let (_, after) = buffer.split_at_mut(kept);
    disk.read(file, at, after)
}

impl Window {
    /// Nothing was read yet.
    pub fn new() -> Window
        ensures { (file : List ℕ) → IsSeen file result }
    {
        Window {
            buffer: [0; 4144],
            start: 0,
            size: 0,
            last: false,
        }
    }

    // How many of the first bytes that were read are not needed from a place on, where fewer than 48 are left of them.
    fn passed(&self, at: u64) -> Option<usize>
        ensures { IfSome result (λ k. (k ≤ length self.now.bytes) × (self.now.place + k ≡ at) × (length self.now.bytes ≤ k + 48)) }
    {
        if at < self.start || at - self.start > self.size as u64 {
            return None;
        }
        let passed = (at - self.start) as usize;
        if self.size - passed > 48 {
            return None;
        }
        Some(passed)
    }

    // Lets go of the first bytes that were read.
    fn pass(&mut self, count: usize)
        requires within { count ≤ length self.old.bytes }
        requires near { self.old.place + count ≤ 2 ^ 61 }
        ensures place { self.new.place ≡ self.old.place + count }
        ensures bytes { self.new.bytes ≡ drop count self.old.bytes }
    {
        self.buffer.copy_within(count..self.size, 0);
        self.size -= count;
        self.start += count as u64;
        self.last = false;
    }

    // Goes to another place, of which nothing was read yet.
    fn leave(&mut self, at: u64)
        ensures place { self.new.place ≡ at }
        ensures bytes { self.new.bytes ≡ [] }
    {
        self.start = at;
        self.size = 0;
        self.last = false;
    }

    // Goes to another place, with what was read from there on, if few bytes were.
    fn go_to(&mut self, at: u64)
        requires { at ≤ 2 ^ 61 }
        ensures place { self.new.place ≡ at }
        ensures few { length self.new.bytes ≤ 48 }
        ensures seen { (file : List ℕ) → IsSeen file self.old → self.new.bytes ≡ take (length self.new.bytes) (drop self.new.place file) }
    {
        match self.passed(at) {
            Some(count) => self.pass(count),
            None => self.leave(at),
        }
    }

    // Reads on after what was read, as far as there is space: 4,096 bytes at least.
    fn refill<D: Disk>(&mut self, disk: &mut D, file: u8) -> Result<(), DiskFault>
        requires file { file ≤ 66 }
        requires few { length self.old.bytes ≤ 48 }
        requires range { self.old.place ≤ 2 ^ 61 }
        requires seen { D.reveals → self.old.bytes ≡ take (length self.old.bytes) (drop self.old.place ((D.state disk.old).files file)) }
        ensures place { OnOk result (self.new.place ≡ self.old.place) }
        ensures more { OnOk result ((48 ≤ length self.new.bytes) ⊎ (self.new.ended ≡ true)) }
        ensures seen { OnOk result (D.reveals → IsSeen ((D.state disk.old).files file) self.new) }
        ensures reads { OnlyReads D.reveals (IsErr result) (D.state disk.old) (D.state disk.new) }
    {
        let kept = self.size;
        let more = read_after(disk, file, self.start + kept as u64, &mut self.buffer, kept)?;
        self.size = kept + more;
        self.last = self.size < 4144;
        Ok(())
    }

    /// Reads on until so many bytes of the file from a place on were read, few of them, as far as the file has them.
    pub fn reach<D: Disk>(
        &mut self,
        disk: &mut D,
        file: u8,
        at: u64,
        n: u64,
    ) -> Result<(), DiskFault>
        requires file { file ≤ 66 }
        requires few { n ≤ 48 }
        requires range { at ≤ 2 ^ 61 }
        requires seen { D.reveals → IsSeen ((D.state disk.old).files file) self.old }
        ensures covers { OnOk result (Covers self.new at n) }
        ensures seen { OnOk result (D.reveals → IsSeen ((D.state disk.old).files file) self.new) }
        ensures reads { OnlyReads D.reveals (IsErr result) (D.state disk.old) (D.state disk.new) }
    {
        let has = self.has(at, n);
        if has {
            return Ok(());
        }
        self.go_to(at);
        self.refill(disk, file)
    }

    // Whether these bytes were read, as far as the file has them.
    fn has(&self, at: u64, n: u64) -> bool
        requires { n ≤ 48 }
        ensures { result ≡ true → Covers self.now at n }
    {
        if at < self.start || at - self.start > self.size as u64 {
            return false;
        }
        self.last || at - self.start + n <= self.size as u64
    }

    /// So many bytes from a place on, or as many as were read.
    pub fn look(&self, at: u64, n: usize) -> &[u8]
        requires { (self.now.place ≤ at) × (at ≤ self.now.place + length self.now.bytes) }
        ensures size { length result.now ≡ min n (self.now.place + length self.now.bytes - at) }
        ensures part { result.now ≡ take (length result.now) (drop (at - self.now.place) self.now.bytes) }
    {
        let start = (at - self.start) as usize;
        let size = n.min(self.size - start);
        &self.buffer[start..start + size]
    }
}
