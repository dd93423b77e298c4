//! Archives in memory, and what runs of `get` and `fetch` over them have to leave: the object or a refusal, and after a fetch all
//! files as they were.

use aea_catalog::Extent;
use aea_cli::Status;
use aea_disk::{Disk, SureDisk};
use aea_runs::{
    Faults, NONE, all_bytes, has_bytes, run_failing, run_get, run_over, run_put, share_parts,
};
use aea_test_helpers::{FlippingDisk, spoil_cell};
use std::alloc::Global;

/// The bytes of the object `x` of the archive of parts.
pub const PARTS: &[u8; 20] = b"0123456789abcdefwxyz";

/// Whether a run of the line over the disk is done.
pub fn is_done<D: Disk>(alloc: Global, disk: &mut D, line: &str) -> bool {
    match run_over(alloc, line, disk, 99) {
        Ok(left) => left.status == Status::Done,
        Err(_) => false,
    }
}

/// Whether `put` of the object is done.
pub fn takes<D: Disk>(alloc: Global, disk: &mut D, name: &str, bytes: &[u8]) -> bool {
    match run_put(alloc, disk, name, bytes) {
        Ok(left) => left.status == Status::Done,
        Err(_) => false,
    }
}

/// The archive that a line makes on a disk of so many sites, where the ledger and each site have so much space.
pub fn archive_of(
    alloc: Global,
    line: &str,
    sites: u8,
    ledger: usize,
    site: usize,
) -> Option<SureDisk> {
    let mut disk = SureDisk::new(alloc, sites, ledger, site).ok()?;
    is_done(alloc, &mut disk, line).then_some(disk)
}

/// An archive of AE(1,1,0) with three nodes and blocks of 16 bytes on one site: the object `a` of all of them, and the object `x` in
/// parts, of nodes 1 and 3.
pub fn archive_of_parts(alloc: Global) -> Option<SureDisk> {
    let mut disk = archive_of(alloc, "create 1 1 0 16 1", 1, 1024, 1024)?;
    let whole = b"0123456789abcdefghijklmnopqrstuvwxyz";
    let parts = [Extent { first: 1, count: 1 }, Extent { first: 3, count: 1 }];
    let is_full = is_done(alloc, &mut disk, "upgrade")
        && takes(alloc, &mut disk, "a", whole)
        && share_parts(alloc, &mut disk, b"x", PARTS, &parts);
    is_full.then_some(disk)
}

/// Flips a byte of each of the cells with these numbers, of so many bytes, over so many sites. False where the disk fails, or a
/// cell is not there.
pub fn spoil_cells(disk: &mut SureDisk, sites: u8, size: u64, numbers: &[u32]) -> bool {
    let mut is_written = true;
    for number in numbers {
        is_written = is_written && spoil_cell(disk, sites, size, *number, 20) == Ok(true);
    }
    is_written
}

/// The disk, but that a bit is flipped of this byte of what is read of the file, from the read of it with this number on.
pub fn flipping(inner: SureDisk, file: u8, byte: usize, from: u64) -> FlippingDisk<SureDisk> {
    FlippingDisk {
        inner,
        file,
        byte,
        from,
        reads: 0,
    }
}

/// Whether these bytes are got as the object over an output of so much space, all of them flushed, and no input is read.
pub fn is_got<D: Disk>(alloc: Global, disk: &mut D, name: &str, bytes: &[u8], room: usize) -> bool {
    match run_get(alloc, disk, name, room) {
        Ok(left) => {
            left.status == Status::Done
                && left.err.bytes().is_empty()
                && left.out.bytes() == bytes
                && left.out.flushed == bytes.len()
                && left.unread == 6
        }
        Err(_) => false,
    }
}

// Whether a run of the line ends with this status, with these bytes on the output and this on the errors, and reads no input.
fn ends<D: Disk>(
    alloc: Global,
    disk: &mut D,
    line: &str,
    status: Status,
    out: &[u8],
    err: &str,
) -> bool {
    let faults = Faults {
        err_room: 400,
        ..NONE
    };
    match run_failing(alloc, line, disk, b"unread", faults) {
        Ok(left) => {
            left.status == status
                && left.err.bytes() == err.as_bytes()
                && left.out.bytes() == out
                && left.unread == 6
        }
        Err(_) => false,
    }
}

// Whether a fetch of the object ends so.
fn fetch_ends<D: Disk>(
    alloc: Global,
    disk: &mut D,
    name: &str,
    status: Status,
    out: &[u8],
    err: &str,
) -> bool {
    match format!(in alloc; "fetch {name}") {
        Ok(line) => ends(alloc, disk, line.as_str(), status, out, err),
        Err(_) => false,
    }
}

/// Whether a fetch of the object ends with this status, with these bytes on the output and this on the errors, and reads no input and
/// changes no file.
pub fn leaves<D: Disk>(
    alloc: Global,
    disk: &mut D,
    name: &str,
    status: Status,
    out: &[u8],
    err: &str,
) -> bool {
    match all_bytes(alloc, disk) {
        Some(stands) => {
            fetch_ends(alloc, disk, name, status, out, err)
                && has_bytes(alloc, disk, stands.as_slice())
        }
        None => false,
    }
}

/// Whether these bytes are fetched as the object, and all files stay as they are.
pub fn is_fetched<D: Disk>(alloc: Global, disk: &mut D, name: &str, bytes: &[u8]) -> bool {
    leaves(alloc, disk, name, Status::Done, bytes, "")
}

/// Whether a fetch of the object is refused with this line, with nothing on the output, and all files stay as they are.
pub fn is_refused<D: Disk>(alloc: Global, disk: &mut D, name: &str, line: &str) -> bool {
    leaves(alloc, disk, name, Status::Refused, b"", line)
}

/// Whether a fetch of the object is refused with this line; where the line is empty, whether these bytes are fetched.
pub fn is_as_revealed<D: Disk>(
    alloc: Global,
    disk: &mut D,
    name: &str,
    bytes: &[u8],
    line: &str,
) -> bool {
    if line.is_empty() {
        is_fetched(alloc, disk, name, bytes)
    } else {
        is_refused(alloc, disk, name, line)
    }
}
