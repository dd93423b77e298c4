//! Ledgers that are made: what is in their file then, and after faults and stops.

use crate::example::SHAPE;
use crate::stops::{is_durable, left_by, losses};
use aea_disk::{Disk, FailDisk, Loss, MemDisk, SureDisk};
use aea_ledger::{CreateFault, create_ledger};
use aea_test_helpers::{fill_file, has_file};
use std::alloc::Global;
use std::test::Fail;

/// The ledger of the example without records.
pub const EMPTY: &[u8; 18] = b"\x01AEALEDG1\x03\x02\x05\x04\0\0\0\x40\0";

// The same before its first byte is written, which says that it is one.
const FILLED: &[u8; 18] = b"\0AEALEDG1\x03\x02\x05\x04\0\0\0\x40\0";

// A file of 24 bytes whose first is 7.
const CLOSED: &[u8; 24] = b"\x07AEALEDG1 and then more.";

// What a file has, and whether that is an archive already.
fn files() -> [(&'static [u8], bool); 6] {
    [
        (b"", false),
        (&EMPTY[..17], false),
        (CLOSED, false),
        (&CLOSED[..18], false),
        (EMPTY, true),
        (b"\x01 but no ledger at all", true),
    ]
}

// Makes an archive. It says whether the answer is the wanted one, and then the file has these bytes.
fn leaves<D: Disk>(disk: &mut D, want: Result<(), CreateFault>, left: &[u8]) -> bool {
    create_ledger(disk, &SHAPE) == want && has_file(disk, 0, left) == Ok(true)
}

// Whether an archive is made over a file with these bytes, or is refused and leaves them.
fn makes_one(alloc: Global, bytes: &[u8], is_occupied: bool) -> bool {
    let Ok(mut disk) = SureDisk::new(alloc, 0, 32, 0) else {
        return false;
    };
    if fill_file(&mut disk, 0, bytes).is_err() {
        return false;
    }
    if is_occupied {
        leaves(&mut disk, Err(CreateFault::Occupied), bytes)
    } else {
        leaves(&mut disk, Ok(()), EMPTY)
    }
}

#[test]
fn makes_one_where_there_is_none(rt: HostRuntime) -> Result<(), Fail> {
    for (bytes, is_occupied) in files() {
        assert!(rt; makes_one(rt.alloc(), bytes, is_occupied), "{bytes:?}");
    }
    Ok(())
}

// Whether a stop left no archive, or the empty one.
fn is_none_or_empty(disk: &mut SureDisk) -> bool {
    let mut bytes = [9u8; 32];
    let Ok(count) = disk.read(0, 0, &mut bytes) else {
        return false;
    };
    count < 18 || bytes[0] != 1 || count == 18 && bytes.starts_with(EMPTY)
}

// Whether a stop after this call with this loss leaves one of these two.
fn leaves_none_or_empty(alloc: Global, disk: &MemDisk, after: u64, loss: Loss) -> bool {
    match left_by(alloc, disk, after, loss) {
        Some(mut left) => is_none_or_empty(&mut left),
        None => false,
    }
}

// The first call after which a stop leaves anything but these two, from the first sync on; 0 where there is none.
fn first_wrong_stop(alloc: Global, disk: &MemDisk) -> u64 {
    for after in 2..=disk.calls() {
        for loss in losses() {
            if !leaves_none_or_empty(alloc, disk, after, loss) {
                return after;
            }
        }
    }
    0
}

// Whether the closed file is written, and an archive is made over it; that takes eleven calls, and lasts.
fn makes_over_closed(alloc: Global, disk: &mut MemDisk) -> bool {
    disk.write(0, 0, CLOSED).is_ok()
        && create_ledger(disk, &SHAPE).is_ok()
        && disk.calls() == 11
        && is_durable(alloc, disk, EMPTY)
}

#[test]
fn stopped_after_each_call(rt: HostRuntime) -> Result<(), Fail> {
    let mut disk = MemDisk::new(rt.alloc(), 0, 32, 0, 11, 43)?;
    assert!(rt; makes_over_closed(rt.alloc(), &mut disk));
    let after = first_wrong_stop(rt.alloc(), &disk);
    assert!(rt; after == 0, "after {after}");
    Ok(())
}

// What is in the file where the call of this number fails.
fn after_faults() -> [(u64, &'static [u8]); 10] {
    [
        (2, CLOSED),
        (3, CLOSED),
        (4, CLOSED),
        (5, b""),
        (6, b""),
        (7, b"\0"),
        (8, b"\0"),
        (9, FILLED),
        (10, FILLED),
        (11, EMPTY),
    ]
}

// Whether an archive is not made over the closed file where this call of the disk fails, and the file has these bytes then.
fn is_at_fault(alloc: Global, call: u64, left: &[u8]) -> bool {
    let Ok(inner) = SureDisk::new(alloc, 0, 32, 0) else {
        return false;
    };
    let Ok(mut disk) = FailDisk::new(alloc, inner, &[call]) else {
        return false;
    };
    disk.write(0, 0, CLOSED).is_ok() && leaves(&mut disk, Err(CreateFault::DiskFault), left)
}

#[test]
fn failing_at_each_call(rt: HostRuntime) -> Result<(), Fail> {
    for (k, left) in after_faults() {
        assert!(rt; is_at_fault(rt.alloc(), k, left), "call {k}");
    }
    Ok(())
}
