//! Archives in memory with blocks of 16 bytes, what they have, and what a stop leaves of them.

use aea_catalog::Extent;
use aea_disk::{Disk, Loss, MemDisk, SureDisk};
use aea_lattice::Shape;
use aea_ledger::{create_ledger, open_ledger};
use aea_test_helpers::SMALL;
use std::alloc::{AllocError, Global};

/// Makes an archive of AE(1) with blocks of 16 bytes on one site, and raises its limit. Says whether it did.
pub fn make<D: Disk>(alloc: Global, disk: &mut D) -> bool {
    make_of(alloc, disk, &SMALL)
}

/// Makes an archive of this shape, and raises its limit. Says whether it did.
pub fn make_of<D: Disk>(alloc: Global, disk: &mut D, shape: &Shape) -> bool {
    create_ledger(disk, shape).is_ok() && raise(alloc, disk)
}

// Raises the limit of the archive. Says whether it did.
fn raise<D: Disk>(alloc: Global, disk: &mut D) -> bool {
    match open_ledger(alloc, disk) {
        Ok(mut ledger) => ledger.append_upgrade(disk).is_ok(),
        Err(_) => false,
    }
}

/// A raised archive on a disk with space for some hundred nodes. None where it is not made.
pub fn raised(alloc: Global) -> Option<SureDisk> {
    let mut disk = SureDisk::new(alloc, 1, 65_536, 65_536).ok()?;
    make(alloc, &mut disk).then_some(disk)
}

/// How many objects an archive has, how many nodes, and the one part of `a`, if it has one.
pub type Holdings = (usize, u32, Option<Extent>);

/// What the archive has. None where it is not opened.
pub fn contents<D: Disk>(alloc: Global, disk: &mut D) -> Option<Holdings> {
    match open_ledger(alloc, disk) {
        Ok(ledger) => {
            let catalog = ledger.catalog();
            let part = if catalog.parts(b"a") == Some(1) {
                catalog.part(b"a", 0)
            } else {
                None
            };
            Some((catalog.len(), ledger.lattice().n(), part))
        }
        Err(_) => None,
    }
}

/// What the archive has after the first example.
pub const WITH_A: Option<Holdings> = Some((1, 2, Some(Extent { first: 2, count: 1 })));

/// A disk that keeps its calls.
pub fn listed(alloc: Global) -> Result<MemDisk, AllocError> {
    MemDisk::new(alloc, 1, 4096, 1024, 400, 8192)
}

/// The disk that a stop with this loss leaves after so many calls. None where there were fewer, or memory runs out.
pub fn stopped(alloc: Global, disk: &MemDisk, after: u64, loss: Loss) -> Option<SureDisk> {
    if disk.calls() < after {
        None
    } else {
        disk.image(alloc, after, loss).ok()
    }
}

/// Whether the object is there where the disk stops after so many calls with this loss, and it is closed after so many: the gate of its
/// record is written by the last call of the close but one, and made durable by the last.
pub fn is_there(after: u64, loss: Loss, closed: u64) -> bool {
    let early = loss == Loss::Kept || loss == Loss::Ones;
    after >= closed || early && after.saturating_add(1) == closed
}
