//! What the tests of single calls share: archives in memory.

use aea_append::put;
use aea_archive::read_block;
use aea_disk::{Disk, FailDisk, SureDisk};
use aea_io::MemSource;
use aea_lattice::{BlockId, Shape};
use aea_ledger::{Ledger, create_ledger, open_ledger};
use aea_scrub::scan;
use aea_shelf::Cell;
use aea_view::Marks;
use std::alloc::Global;

// Opens the archive and puts an object of what the source has; false where it could not be put.
fn store_read<D: Disk>(alloc: Global, disk: &mut D, name: &[u8], source: &mut MemSource) -> bool {
    match open_ledger(alloc, disk) {
        Ok(mut ledger) => put(alloc, &mut ledger, disk, name, source).is_ok(),
        Err(_) => false,
    }
}

/// Puts an object of these bytes; false where it could not be put.
pub fn store<D: Disk>(alloc: Global, disk: &mut D, name: &[u8], bytes: &[u8]) -> bool {
    match MemSource::new(alloc, bytes, &[]) {
        Ok(mut source) => store_read(alloc, disk, name, &mut source),
        Err(_) => false,
    }
}

/// An archive of the shape without objects, on a disk of so many sites with little space.
pub fn fresh(alloc: Global, sites: u8, shape: &Shape) -> Option<SureDisk> {
    let mut disk = SureDisk::new(alloc, sites, 4096, 4096).ok()?;
    create_ledger(&mut disk, shape).is_ok().then_some(disk)
}

/// An undamaged archive of the shape with one object of these bytes.
pub fn archive(alloc: Global, shape: &Shape, bytes: &[u8]) -> Option<SureDisk> {
    let mut disk = SureDisk::new(alloc, 5, 65536, 65536).ok()?;
    let is_stored = create_ledger(&mut disk, shape).is_ok()
        && store(alloc, &mut disk, b"one", bytes);
    is_stored.then_some(disk)
}

/// What is at the home of a block; none where it cannot be read, or blocks have not 16 bytes, or there is no such block.
pub fn read_cell<D: Disk>(disk: &mut D, ledger: &Ledger, b: BlockId) -> Option<Cell> {
    if ledger.shape().block() == 16 && ledger.lattice().contains(b) {
        let mut cell = [0; 64];
        read_block(disk, ledger, b, &mut cell).ok()
    } else {
        None
    }
}

/// A ledger that is opened, and the marks of a scan.
#[derive(Drop)]
pub struct Scanned {
    pub ledger: Ledger,
    pub marks: Marks,
}

/// Opens an archive and scans it.
pub fn open_and_scan<D: Disk>(alloc: Global, disk: &mut D) -> Option<Scanned> {
    let ledger = open_ledger(alloc, disk).ok()?;
    let marks = scan(alloc, &ledger, disk).ok()?;
    Some(Scanned { ledger, marks })
}

/// A ledger that is opened, and its disk, of which a call fails.
#[derive(Drop)]
pub struct Failing {
    pub ledger: Ledger,
    pub disk: FailDisk<SureDisk>,
}

/// Opens an archive on a disk of which this call fails, counted from 1 once it is opened.
pub fn open_to_fail(alloc: Global, disk: SureDisk, call: u64) -> Option<Failing> {
    let mut disk = disk;
    let ledger = open_ledger(alloc, &mut disk).ok()?;
    let disk = FailDisk::new(alloc, disk, &[call]).ok()?;
    Some(Failing { ledger, disk })
}
