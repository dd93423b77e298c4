//! Archives in memory, and repairs of them.

use aea_cli::Status;
use aea_disk::{Disk, SureDisk};
use aea_runs::{Ended, Faults, all_bytes, has_bytes, run_failing, run_get, run_over, run_put};
use aea_test_helpers::{fill_file, report_of};
use std::alloc::{AllocError, Global};

/// A disk with the archive that this line makes, and in it the object `a` of these bytes. The space is of so many sites, and so
/// many bytes for the ledger and for each site.
pub fn filled(
    alloc: Global,
    space: (u8, usize, usize),
    line: &str,
    bytes: &[u8],
) -> Option<SureDisk> {
    let (sites, ledger_room, site_room) = space;
    let mut disk = SureDisk::new(alloc, sites, ledger_room, site_room).ok()?;
    let is_made = run_over(alloc, line, &mut disk, 99).is_ok();
    let is_filled = is_made && run_put(alloc, &mut disk, "a", bytes).is_ok();
    is_filled.then_some(disk)
}

/// A disk with an archive of AE(3,2,5) with blocks of 64 bytes, so cells of 112, on four sites, and the object `a` of these bytes.
/// Of one node it is: d1 is first in the file of site 1, h1 in that of site 2, r1 of site 3 and l1 of site 4.
pub fn archive_of_four(alloc: Global, bytes: &[u8]) -> Option<SureDisk> {
    filled(alloc, (4, 4096, 4096), "create 3 2 5 64 4", bytes)
}

/// The files of that archive.
pub fn files_of_four(alloc: Global, bytes: &[u8]) -> Option<Vec<Vec<u8>>> {
    all_bytes(alloc, &mut archive_of_four(alloc, bytes)?)
}

/// Makes these the bytes of the ledger and of the sites that follow it. Whether each file is made so.
pub fn fill_files<D: Disk>(disk: &mut D, files: &[Vec<u8>]) -> bool {
    let mut is_each = true;
    for (file, bytes) in files.iter().enumerate() {
        is_each = is_each && fill_file(disk, file.min(64) as u8, bytes.as_slice()).is_ok();
    }
    is_each
}

/// Whether a run of the command ends with this status and prints this, and this on the errors.
pub fn ends<D: Disk>(
    alloc: Global,
    disk: &mut D,
    line: &str,
    status: Status,
    out: &str,
    err: &str,
) -> bool {
    run_over(alloc, line, disk, 999).is_ok_and(|left| left.is(status, out, err))
}

/// Whether `put` of the object `b` with the bytes `abc` ends so.
pub fn puts<D: Disk>(alloc: Global, disk: &mut D, status: Status, out: &str, err: &str) -> bool {
    run_put(alloc, disk, "b", b"abc").is_ok_and(|left| left.is(status, out, err))
}

/// Whether `get` of this object prints these bytes and no more, with space for more.
pub fn gets<D: Disk>(alloc: Global, disk: &mut D, name: &str, bytes: &[u8]) -> bool {
    let room = bytes.len().saturating_add(99);
    run_get(alloc, disk, name, room).is_ok_and(|left| left.out.bytes() == bytes)
}

// Whether `repair` ends with this status, prints and flushes this report and no more, and reads nothing.
fn reports<D: Disk>(alloc: Global, disk: &mut D, report: &str, status: Status) -> bool {
    run_over(alloc, "repair", disk, 1 << 17).is_ok_and(|left| {
        left.is(status, report, "") && left.out.flushed == report.len() && left.unread == 6
    })
}

/// Whether `repair` ends with this status, prints and flushes the report of this archive with these numbers and lines and no more,
/// reads nothing, and leaves these files.
pub fn repairs<D: Disk>(
    alloc: Global,
    disk: &mut D,
    numbers: &str,
    lines: &str,
    status: Status,
    files: &[Vec<u8>],
) -> bool {
    match report_of(alloc, disk, numbers, lines) {
        Some(report) => {
            reports(alloc, disk, report.as_str(), status) && has_bytes(alloc, disk, files)
        }
        None => false,
    }
}

/// Whether a repair of an archive of four blocks reports these lines and is done, and leaves these files.
pub fn repairs_four<D: Disk>(alloc: Global, disk: &mut D, lines: &str, files: &[Vec<u8>]) -> bool {
    repairs(alloc, disk, "3 2 5 1", lines, Status::Done, files)
}

/// Runs `repair` over an output and errors of these capacities, where this call of the output fails, counted from 1; at 0 none does.
pub fn run_repair<D: Disk>(
    alloc: Global,
    disk: &mut D,
    out_room: usize,
    out_call: u32,
    err_room: usize,
) -> Result<Ended, AllocError> {
    let faults = Faults {
        read: 0,
        out_call,
        out_room,
        err_call: 0,
        err_room,
    };
    run_failing(alloc, "repair", disk, b"unread", faults)
}
