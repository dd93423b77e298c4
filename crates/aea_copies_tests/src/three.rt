//! The three files of a ledger and its copies, on a disk.

use crate::example::{example_copy, ledger};
use aea_adopt::{AdoptFault, Adopted, adopt};
use aea_disk::{Disk, DiskFault, FailDisk, MemDisk, SureDisk};
use std::alloc::Global;

/// What the three files have.
#[derive(Clone, Copy)]
pub struct Three<'a> {
    pub ledger: &'a [u8],
    pub first: &'a [u8],
    pub second: &'a [u8],
}

/// What adopting copies answers.
#[derive(Clone, Copy, Debug, PartialEq, Eq)]
pub enum Answer {
    Off,
    On { end: u64, gate: u64 },
    Bad { first: u64, second: u64 },
    Differ { at: u64 },
    Fault,
}

/// The ledger of the example and its two copies.
pub fn whole<'a>(ledger: &'a [u8], copy: &'a [u8]) -> Three<'a> {
    Three {
        ledger,
        first: copy,
        second: copy,
    }
}

// Cuts a file to nothing, if it has bytes.
fn empty<D: Disk>(disk: &mut D, file: u8) -> bool {
    let file = file.min(66);
    match disk.len(file) {
        Ok(long) => long == 0 || disk.cut(file, 0).is_ok(),
        Err(_) => false,
    }
}

/// Makes these the bytes of a file, of one of those that are used here. None of them has more than 65,536 bytes.
pub fn set<D: Disk>(disk: &mut D, file: u8, bytes: &[u8]) -> bool {
    file <= 66 && bytes.len() <= 65_536 && empty(disk, file) && disk.write(file, 0, bytes).is_ok()
}

/// Writes some bytes, at most 65,536 of them, into a file that is used here.
pub fn put<D: Disk>(disk: &mut D, file: u8, at: u64, bytes: &[u8]) -> Result<(), DiskFault> {
    if 66 < file || 1 << 40 < at || 65_536 < bytes.len() {
        Err(DiskFault)
    } else {
        disk.write(file, at, bytes)
    }
}

/// Cuts a file that is used here to this length. No call is made where it is shorter.
pub fn cut<D: Disk>(disk: &mut D, file: u8, long: u64) -> Result<(), DiskFault> {
    if 66 < file || 1 << 40 < long || disk.len(file)? < long {
        Err(DiskFault)
    } else {
        disk.cut(file, long)
    }
}

/// Makes these the three files.
pub fn set_all<D: Disk>(disk: &mut D, three: &Three) -> bool {
    set(disk, 0, three.ledger)
        && set(disk, 65, three.first)
        && set(disk, 66, three.second)
        && disk.sync().is_ok()
}

/// A disk with these files, with space for 1,024 bytes in each.
pub fn disk_of(alloc: Global, three: &Three) -> Option<SureDisk> {
    let mut disk = SureDisk::new(alloc, 0, 1024, 0).ok()?;
    set_all(&mut disk, three).then_some(disk)
}

/// A disk with these files that lists its calls.
pub fn listed_disk(alloc: Global, three: &Three) -> Option<MemDisk> {
    let mut disk = MemDisk::new(alloc, 0, 1024, 0, 512, 8192).ok()?;
    set_all(&mut disk, three).then_some(disk)
}

/// A disk with these files whose call of this number, counted from 1, fails.
pub fn failing_disk(alloc: Global, three: &Three, call: u64) -> Option<FailDisk<SureDisk>> {
    FailDisk::new(alloc, disk_of(alloc, three)?, &[call]).ok()
}

/// A disk with this ledger and two copies of the example.
pub fn copied_disk(alloc: Global, ledger: &[u8]) -> Option<SureDisk> {
    let copy = example_copy(alloc)?;
    disk_of(alloc, &whole(ledger, copy.as_slice()))
}

/// Whether a file has exactly these bytes, fewer than 1,024.
pub fn has<D: Disk>(disk: &mut D, file: u8, want: &[u8]) -> bool {
    let mut bytes = [9u8; 1024];
    match disk.read(file.min(66), 0, &mut bytes) {
        Ok(count) => count == want.len() && bytes.starts_with(want),
        Err(_) => false,
    }
}

/// Whether the three files have exactly these bytes.
pub fn has_all<D: Disk>(disk: &mut D, want: &Three) -> bool {
    has(disk, 0, want.ledger) && has(disk, 65, want.first) && has(disk, 66, want.second)
}

// The answer in short; both gates and links are to be the same.
fn in_short(found: Result<Adopted, AdoptFault>) -> Answer {
    match found {
        Ok(found) => {
            if found.on {
                Answer::On {
                    end: found.end,
                    gate: found.gates[0],
                }
            } else {
                Answer::Off
            }
        }
        Err(AdoptFault::CopiesBad { first, second }) => Answer::Bad { first, second },
        Err(AdoptFault::CopiesDiffer { at }) => Answer::Differ { at },
        Err(AdoptFault::DiskFault) => Answer::Fault,
    }
}

/// Adopts the copies of a disk.
pub fn adopts<D: Disk>(disk: &mut D) -> Answer {
    in_short(adopt(disk))
}

/// Whether adopting these files answers so, and leaves those.
pub fn leaves(alloc: Global, old: &Three, want: Answer, new: &Three) -> bool {
    match disk_of(alloc, old) {
        Some(mut disk) => adopts(&mut disk) == want && has_all(&mut disk, new),
        None => false,
    }
}

/// What is answered where the example is adopted.
pub const EXAMPLE: Answer = Answer::On {
    end: 202,
    gate: 285,
};

/// Whether the example's files are there.
pub fn has_example<D: Disk>(alloc: Global, disk: &mut D) -> bool {
    match example_copy(alloc) {
        Some(copy) => has_all(disk, &whole(&ledger(), copy.as_slice())),
        None => false,
    }
}
