//! Archives in memory: how they are made, and runs over them. Where memory runs out, what
//! says whether something is so says no, and what gives something gives none, or names the case that was wrong.

use crate::lines::text_in;
use aea_cli::Status;
use aea_disk::{Disk, SureDisk};
use aea_lattice::{BlockId, parse_block};
use aea_runs::{Left, run_over, run_put, run_words};
use aea_test_helpers::{NINETEEN, some_bytes, spoil_cell};
use std::alloc::{AllocError, Global};

/// Runs the command of a line over this disk, with so many bytes of space on its output. What it leaves is not looked at.
pub fn run_only<D: Disk>(alloc: Global, disk: &mut D, line: &str, room: usize) -> bool {
    run_over(alloc, line, disk, room).is_ok()
}

/// Stores an object of this name and these bytes. What the run leaves is not looked at.
pub fn put_only<D: Disk>(alloc: Global, disk: &mut D, name: &str, bytes: &[u8]) -> bool {
    run_put(alloc, disk, name, bytes).is_ok()
}

/// A disk with an archive that this line makes, and an object `a` of these bytes.
pub fn archive_of(alloc: Global, line: &str, bytes: &[u8]) -> Option<SureDisk> {
    let mut disk = SureDisk::new(alloc, 4, 8192, 4096).ok()?;
    let is_made = run_only(alloc, &mut disk, line, 99) && put_only(alloc, &mut disk, "a", bytes);
    is_made.then_some(disk)
}

/// A disk with an archive that this line makes, and an object `a` of so many bytes.
pub fn archive_with(alloc: Global, line: &str, count: u32) -> Option<SureDisk> {
    match some_bytes(alloc, count, 0) {
        Ok(bytes) => archive_of(alloc, line, bytes.as_slice()),
        Err(_) => None,
    }
}

/// Damages the blocks with these numbers in an archive on so many sites whose blocks have 16 bytes.
pub fn spoil_cells(disk: &mut SureDisk, sites: u8, numbers: &[u32]) -> bool {
    let mut goes_on = true;
    for number in numbers {
        goes_on = goes_on && spoil_cell(disk, sites, 64, *number, 20).is_ok();
    }
    goes_on
}

/// An archive in which the nineteen blocks are damaged.
pub fn nineteen(alloc: Global) -> Option<SureDisk> {
    let mut disk = archive_with(alloc, "create 2 2 2 16 3", 176)?;
    spoil_cells(&mut disk, 3, &NINETEEN).then_some(disk)
}

/// Runs `verify` of this report over this disk.
pub fn run_verify<D: Disk>(alloc: Global, disk: &mut D, report: &[u8]) -> Result<Left, AllocError> {
    run_words(alloc, &["verify"], disk, report, 99)
}

/// Runs `explain` of this block over this disk.
pub fn run_explain<D: Disk>(alloc: Global, disk: &mut D, block: &str) -> Result<Left, AllocError> {
    run_words(alloc, &["explain", block], disk, b"unread", 999)
}

/// Whether a run said this, on its output or on its errors, and ended with the status that goes with it.
pub fn reveals(left: &Left, want: &str) -> bool {
    if want.starts_with("refused: ") {
        left.is(Status::Refused, "", want)
    } else if want == "accepted\n" {
        left.is(Status::Done, want, "")
    } else {
        left.is(Status::Damage, want, "")
    }
}

/// Whether `verify` says this of the report.
pub fn judges<D: Disk>(alloc: Global, disk: &mut D, report: &str, want: &str) -> bool {
    judges_bytes(alloc, disk, report.as_bytes(), want)
}

/// Whether `verify` says this of these bytes.
pub fn judges_bytes<D: Disk>(alloc: Global, disk: &mut D, bytes: &[u8], want: &str) -> bool {
    run_verify(alloc, disk, bytes).is_ok_and(|left| reveals(&left, want))
}

/// The first of these reports of which `verify` says something else; each has beside it what is to be said. None where there is none.
pub fn first_misjudged<D: Disk>(
    alloc: Global,
    disk: &mut D,
    rows: &[(&'static str, &'static str)],
) -> Option<&'static str> {
    for (report, want) in rows {
        if !judges(alloc, disk, report, want) {
            return Some(report);
        }
    }
    None
}

/// Whether a repair ends with this status and prints this report.
pub fn repairs<D: Disk>(alloc: Global, disk: &mut D, status: Status, report: &str) -> bool {
    run_over(alloc, "repair", disk, 16_384).is_ok_and(|left| left.is(status, report, ""))
}

/// Whether a scrub ends with this status and prints this.
pub fn scrubs<D: Disk>(alloc: Global, disk: &mut D, status: Status, out: &str) -> bool {
    run_over(alloc, "scrub", disk, 999).is_ok_and(|left| left.is(status, out, ""))
}

/// The text that the command of a line prints over this disk, with so many bytes of space.
pub fn printed<D: Disk>(alloc: Global, disk: &mut D, line: &str, room: usize) -> Option<String> {
    match run_over(alloc, line, disk, room) {
        Ok(left) => text_in(alloc, left.out.bytes()),
        Err(_) => None,
    }
}

// The text that this run printed, none where its status is another, or it said something on its errors.
fn out_with(alloc: Global, left: &Left, status: Status) -> Option<String> {
    if left.status == status && left.err.bytes().is_empty() {
        text_in(alloc, left.out.bytes())
    } else {
        None
    }
}

/// The report of a repair that ends with this status, none where it ends with another.
pub fn report_with<D: Disk>(alloc: Global, disk: &mut D, status: Status) -> Option<String> {
    match run_over(alloc, "repair", disk, 16_384) {
        Ok(left) => out_with(alloc, &left, status),
        Err(_) => None,
    }
}

// The blocks that these lines of a scrub name.
fn blocks_named(alloc: Global, lines: &str) -> Option<Vec<BlockId>> {
    let mut blocks = Vec::new(alloc);
    for line in lines.lines() {
        if let Some(text) = line.strip_prefix("damaged ") {
            blocks.push(parse_block(text.as_bytes())?).ok()?;
        }
    }
    Some(blocks)
}

/// The blocks that a scrub of this archive names.
pub fn damaged_blocks<D: Disk>(alloc: Global, disk: &mut D) -> Option<Vec<BlockId>> {
    match printed(alloc, disk, "scrub", 65_536) {
        Some(text) => blocks_named(alloc, text.as_str()),
        None => None,
    }
}
