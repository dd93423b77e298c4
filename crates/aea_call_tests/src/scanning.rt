//! Scans: each mark beside a read of the block, damage of each kind, and each read failing in turn.

use crate::archives::{Failing, Scanned, fresh, open_and_scan, open_to_fail, read_cell, store};
use aea_disk::{Disk, SureDisk};
use aea_lattice::{BlockId, Class};
use aea_ledger::Ledger;
use aea_scrub::{ScanFault, scan};
use aea_shelf::Cell;
use aea_test_helpers::{WIDE, shorten};
use aea_view::Marks;
use std::alloc::Global;
use std::test::Fail;

// Whether the mark of the block is what reading the block says.
fn agrees<D: Disk>(disk: &mut D, ledger: &Ledger, marks: &Marks, b: BlockId) -> bool {
    let found = read_cell(disk, ledger, b);
    if !marks.lattice().contains(b) {
        false
    } else if marks.get(b) {
        found == Some(Cell::Intact)
    } else {
        found == Some(Cell::Bad)
    }
}

// Whether each mark of four nodes says what the cell of its block is.
fn all_agree<D: Disk>(disk: &mut D, ledger: &Ledger, marks: &Marks) -> bool {
    let mut are_alike = true;
    for node in 1..=4u32 {
        for class in [Class::Datum, Class::Horiz, Class::Right, Class::Left] {
            are_alike = are_alike && agrees(disk, ledger, marks, BlockId { node, class });
        }
    }
    are_alike
}

// How many blocks of four nodes a scan finds damaged; none where it fails, or where a mark is not what reading the block
// says.
fn damaged<D: Disk>(alloc: Global, disk: &mut D) -> Option<u32> {
    match open_and_scan(alloc, disk) {
        Some(Scanned { ledger, marks }) => {
            all_agree(disk, &ledger, &marks).then_some(marks.unmarked())
        }
        None => None,
    }
}

// An archive of two objects, with four nodes, so that each site's file has four cells.
fn two_objects(alloc: Global) -> Option<SureDisk> {
    let mut disk = fresh(alloc, 4, &WIDE)?;
    let first = b"an object of three blocks, 36 bytes.";
    let are_stored = store(alloc, &mut disk, b"first", first)
        && store(alloc, &mut disk, b"second", b"abc");
    are_stored.then_some(disk)
}

// Whether a scan finds cells damaged whose bytes are changed or are gone, and no more where bytes come past the last cell.
fn are_cells_found(alloc: Global, disk: &mut SureDisk) -> bool {
    damaged(alloc, disk) == Some(0)
        // the first byte of a cell
        && disk.write(1, 64, &[255]).is_ok()
        && damaged(alloc, disk) == Some(1)
        // a cell that is too short, and a file without bytes
        && shorten(disk, 2, 255) == Ok(true)
        && damaged(alloc, disk) == Some(2)
        && shorten(disk, 3, 0) == Ok(true)
        && damaged(alloc, disk) == Some(6)
        // bytes past the last cell
        && disk.write(4, 256, &[255; 100]).is_ok()
        && damaged(alloc, disk) == Some(6)
}

// Whether it does so in the archive of two objects.
fn is_damage_found(alloc: Global) -> bool {
    match two_objects(alloc) {
        Some(mut disk) => are_cells_found(alloc, &mut disk),
        None => false,
    }
}

#[test]
fn damage_is_found(rt: HostRuntime) -> Result<(), Fail> {
    assert!(rt; is_damage_found(rt.alloc()));
    Ok(())
}

// Whether each mark is what reading the block says once this byte is written at a place that it gives.
fn is_counted(alloc: Global, disk: &mut SureDisk, k: u8) -> bool {
    let place = u64::from(k) * 379 % 256;
    disk.write(k % 4 + 1, place, &[k]).is_ok() && damaged(alloc, disk).is_some()
}

#[test]
fn each_byte_counts(rt: HostRuntime) -> Result<(), Fail> {
    let mut disk = two_objects(rt.alloc()).ok_or("no archive")?;
    for k in 0..40u8 {
        let place = u64::from(k) * 379 % 256;
        assert!(rt; is_counted(rt.alloc(), &mut disk, k), "{k} at {place}");
    }
    Ok(())
}

// Whether a scan, once the archive is opened, ends so over a disk of which this read fails.
fn ends_on(alloc: Global, disk: SureDisk, read: u64, want: Option<ScanFault>) -> bool {
    match open_to_fail(alloc, disk, read) {
        Some(Failing { ledger, mut disk }) => scan(alloc, &ledger, &mut disk).err() == want,
        None => false,
    }
}

// The same of the archive of two objects.
fn ends(alloc: Global, read: u64, want: Option<ScanFault>) -> bool {
    match two_objects(alloc) {
        Some(disk) => ends_on(alloc, disk, read, want),
        None => false,
    }
}

#[test]
fn a_read_that_fails_is_a_fault(rt: HostRuntime) -> Result<(), Fail> {
    for k in 1..=17u64 {
        let want = if k <= 16 {
            Some(ScanFault::DiskFault)
        } else {
            None
        };
        assert!(rt; ends(rt.alloc(), k, want), "read {k}");
    }
    Ok(())
}
