//! Runs of `get` and `fetch` of an object of three pages and 7 bytes, which is written page by page.

use crate::archives::{flipping, spoil_cells};
use aea_cli::Status;
use aea_disk::{Disk, SureDisk};
use aea_runs::{Ended, Faults, NONE, archive_of_pages, run_failing};
use std::alloc::{AllocError, Global};

/// Whether d1 is damaged, and from which read of a cell on which byte of what is read is changed.
#[derive(Clone, Copy)]
pub struct Change {
    pub is_damaged: bool,
    pub byte: usize,
    pub from: u64,
}

/// The archive of the object of these bytes, in which the blocks with these numbers are damaged.
pub fn damaged_pages(alloc: Global, bytes: &[u8], numbers: &[u32]) -> Option<SureDisk> {
    let mut disk = archive_of_pages(alloc, bytes).ok()?;
    spoil_cells(&mut disk, 1, 4144, numbers).then_some(disk)
}

/// Runs the line, `get pages` or `fetch pages`, over an output of this space, where this call of it fails, counted from 1; at 0 none
/// does.
pub fn run_pages<D: Disk>(
    alloc: Global,
    line: &str,
    disk: &mut D,
    out_call: u32,
    out_room: usize,
) -> Result<Ended, AllocError> {
    let faults = Faults {
        out_call,
        out_room,
        err_room: 200,
        ..NONE
    };
    run_failing(alloc, line, disk, b"unread", faults)
}

/// Whether a run has ended with this status and line, has written this many bytes of the object, and has read no input.
pub fn has_ended(left: &Ended, bytes: &[u8], want: (Status, &str, usize)) -> bool {
    let (status, line, written) = want;
    let out = left.out.bytes();
    left.status == status
        && left.err.bytes() == line.as_bytes()
        && left.unread == 6
        && out.len() == written
        && bytes.starts_with(out)
}

/// Whether such a run ends so over an output of which this call fails, and which has this space.
pub fn ends_over<D: Disk>(
    alloc: Global,
    line: &str,
    disk: &mut D,
    bytes: &[u8],
    output: (u32, usize),
    want: (Status, &str, usize),
) -> bool {
    let (call, room) = output;
    match run_pages(alloc, line, disk, call, room) {
        Ok(left) => has_ended(&left, bytes, want),
        Err(_) => false,
    }
}

/// Whether such a run ends so where cells are damaged and change like this.
pub fn ends_changed(
    alloc: Global,
    line: &str,
    bytes: &[u8],
    change: Change,
    want: (Status, &str, usize),
) -> bool {
    let numbers: &[u32] = if change.is_damaged { &[0] } else { &[] };
    match damaged_pages(alloc, bytes, numbers) {
        Some(inner) => {
            let mut disk = flipping(inner, 1, change.byte, change.from);
            ends_over(alloc, line, &mut disk, bytes, (0, bytes.len()), want)
        }
        None => false,
    }
}
