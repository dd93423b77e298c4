//! Objects that are put one by one: their blocks, and refusals.

use crate::archives::{fresh, read_cell};
use aea_append::{PutFault, put};
use aea_disk::{Disk, SureDisk};
use aea_io::MemSource;
use aea_lattice::{BlockId, Class};
use aea_ledger::open_ledger;
use aea_shelf::Cell;
use aea_test_helpers::WIDE;
use std::alloc::Global;
use std::test::Fail;

// Whether the block is intact, by the ledger as it is opened.
fn is_intact<D: Disk>(alloc: Global, disk: &mut D, b: BlockId) -> bool {
    match open_ledger(alloc, disk) {
        Ok(ledger) => read_cell(disk, &ledger, b) == Some(Cell::Intact),
        Err(_) => false,
    }
}

// Opens the archive and puts an object of what the source has. It says whether it takes so many nodes for so many bytes.
fn puts<D: Disk>(
    alloc: Global,
    disk: &mut D,
    name: &[u8],
    source: &mut MemSource,
    nodes: u32,
    length: u64,
) -> bool {
    match open_ledger(alloc, disk) {
        Ok(mut ledger) => put(alloc, &mut ledger, disk, name, source).is_ok_and(
            |stored| stored.nodes == nodes && stored.length == length,
        ),
        Err(_) => false,
    }
}

// The same of an object of these bytes.
fn is_put(
    alloc: Global,
    disk: &mut SureDisk,
    name: &[u8],
    bytes: &[u8],
    nodes: u32,
    length: u64,
) -> bool {
    match MemSource::new(alloc, bytes, &[]) {
        Ok(mut source) => puts(alloc, disk, name, &mut source, nodes, length),
        Err(_) => false,
    }
}

// Whether all blocks of the node are intact.
fn is_node_intact(alloc: Global, disk: &mut SureDisk, node: u32) -> bool {
    let mut are_intact = true;
    for class in [Class::Datum, Class::Horiz, Class::Right, Class::Left] {
        are_intact = are_intact && is_intact(alloc, disk, BlockId { node, class });
    }
    are_intact
}

// The first of four nodes of which a block is not intact.
fn first_damaged(alloc: Global, disk: &mut SureDisk) -> Option<&'static str> {
    for (node, name) in [(1, "node 1"), (2, "node 2"), (3, "node 3"), (4, "node 4")] {
        if !is_node_intact(alloc, disk, node) {
            return Some(name);
        }
    }
    None
}

// Puts two objects, and names what is wrong: one of them, or a node.
fn first_wrong(alloc: Global, disk: &mut SureDisk) -> Option<&'static str> {
    let first = b"the first object has 33 bytes in all";
    if !is_put(alloc, disk, b"first", first, 3, 36) {
        Some("first")
    } else if !is_put(alloc, disk, b"second", b"abc", 1, 3) {
        Some("second")
    } else {
        first_damaged(alloc, disk)
    }
}

#[test]
fn two_objects_are_put(rt: HostRuntime) -> Result<(), Fail> {
    let mut disk = fresh(rt.alloc(), 4, &WIDE).ok_or("no archive")?;
    let wrong = first_wrong(rt.alloc(), &mut disk);
    assert!(rt; wrong == None, "{wrong:?}");
    Ok(())
}

// Opens the archive and puts an object of what the source has. It says whether this fault is the answer; none is where
// the object is put.
fn ends<D: Disk>(
    alloc: Global,
    disk: &mut D,
    name: &[u8],
    source: &mut MemSource,
    want: Option<PutFault>,
) -> bool {
    match open_ledger(alloc, disk) {
        Ok(mut ledger) => put(alloc, &mut ledger, disk, name, source).err() == want,
        Err(_) => false,
    }
}

// Whether one source is refused under a bad name, put under a good one, and refused under that.
fn are_names_refused(alloc: Global, disk: &mut SureDisk) -> bool {
    match MemSource::new(alloc, b"abc", &[]) {
        Ok(mut source) => {
            ends(alloc, disk, &[0u8; 1], &mut source, Some(PutFault::BadName))
                && ends(alloc, disk, b"a", &mut source, None)
                && ends(alloc, disk, b"a", &mut source, Some(PutFault::NameTaken))
        }
        Err(_) => false,
    }
}

// Whether a source whose first read fails is refused.
fn is_source_refused(alloc: Global, disk: &mut SureDisk) -> bool {
    match MemSource::new(alloc, b"abc", &[1]) {
        Ok(mut failing) => ends(alloc, disk, b"b", &mut failing, Some(PutFault::ReadFault)),
        Err(_) => false,
    }
}

#[test]
fn refusals_come_in_their_order(rt: HostRuntime) -> Result<(), Fail> {
    let mut disk = fresh(rt.alloc(), 4, &WIDE).ok_or("no archive")?;
    assert!(rt;
        are_names_refused(rt.alloc(), &mut disk) && is_source_refused(rt.alloc(), &mut disk)
    );
    Ok(())
}
