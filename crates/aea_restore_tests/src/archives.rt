//! What the tests of repairs share: archives in memory with one object, and what a scan finds.

use aea_append::{PutFault, put};
use aea_disk::{Disk, SureDisk};
use aea_io::MemSource;
use aea_lattice::Shape;
use aea_ledger::{create_ledger, open_ledger};
use aea_scrub::scan;
use aea_test_helpers::{spoil, spoil_block};
use std::alloc::Global;

/// Puts an object of these bytes. It says whether the answer is the wanted one.
pub fn puts<D: Disk>(
    alloc: Global,
    disk: &mut D,
    name: &[u8],
    bytes: &[u8],
    want: Result<(), PutFault>,
) -> bool {
    let Ok(mut source) = MemSource::new(alloc, bytes, &[]) else {
        return false;
    };
    let Ok(mut ledger) = open_ledger(alloc, disk) else {
        return false;
    };
    match put(alloc, &mut ledger, disk, name, &mut source) {
        Ok(_) => want == Ok(()),
        Err(fault) => want == Err(fault),
    }
}

/// Makes an archive of the shape with one object. It says whether it did.
pub fn begin<D: Disk>(alloc: Global, disk: &mut D, shape: &Shape, bytes: &[u8]) -> bool {
    create_ledger(disk, shape).is_ok() && puts(alloc, disk, b"one", bytes, Ok(()))
}

/// An archive of the shape with one object, the blocks of these numbers damaged; none where it could not be made.
pub fn damaged_archive(
    alloc: Global,
    shape: &Shape,
    bytes: &[u8],
    numbers: &[u32],
) -> Option<SureDisk> {
    let Ok(mut disk) = SureDisk::new(alloc, 4, 8192, 4096) else {
        return None;
    };
    if begin(alloc, &mut disk, shape, bytes) && spoil_blocks(&mut disk, shape, numbers) {
        return Some(disk);
    }
    None
}

/// An archive of the shape with one object; none where it could not be made.
pub fn archive(alloc: Global, shape: &Shape, bytes: &[u8]) -> Option<SureDisk> {
    damaged_archive(alloc, shape, bytes, &[])
}

/// Flips the first payload byte of each block of these numbers in an archive of the shape. It says whether they are there.
pub fn spoil_blocks<D: Disk>(disk: &mut D, shape: &Shape, numbers: &[u32]) -> bool {
    for number in numbers {
        if spoil_block(disk, shape, *number) != Ok(true) {
            return false;
        }
    }
    true
}

/// How many blocks a scan finds damaged.
pub fn damaged<D: Disk>(alloc: Global, disk: &mut D) -> Option<u32> {
    let Ok(ledger) = open_ledger(alloc, disk) else {
        return None;
    };
    let Ok(marks) = scan(alloc, &ledger, disk) else {
        return None;
    };
    Some(marks.unmarked())
}

/// Flips the first byte of the digest of a datum that the ledger has, with that of its parity and the gate, at its end. It says
/// whether it is as long.
pub fn spoil_digest<D: Disk>(disk: &mut D) -> bool {
    match disk.len(0) {
        Ok(long) => spoil(disk, 0, long.saturating_sub(65)) == Ok(true),
        Err(_) => false,
    }
}

/// Whether the ledger and four sites have the same bytes.
pub fn same_files<D: Disk, E: Disk>(one: &mut D, other: &mut E) -> bool {
    for file in 0..5u8 {
        if !same_file(one, other, file) {
            return false;
        }
    }
    true
}

// Whether this file has the same bytes.
fn same_file<D: Disk, E: Disk>(one: &mut D, other: &mut E, file: u8) -> bool {
    let file = file.min(64);
    let mut first = [0; 8192];
    let mut second = [0; 8192];
    let (Ok(long), Ok(size)) = (
        one.read(file, 0, &mut first),
        other.read(file, 0, &mut second),
    ) else {
        return false;
    };
    first.get(..long) == second.get(..size)
}
