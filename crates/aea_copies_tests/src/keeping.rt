//! A disk that keeps two copies up: what it hides and refuses, and records that are added over it.

use crate::adding::{RAISED, adds, adds_over, raised};
use crate::example::{copy_of, example_copy, ledger};
use crate::three::{adopts, copied_disk, cut, disk_of, has, has_all, has_example, put, whole};
use crate::watched::Watched;
use aea_adopt::adopt;
use aea_disk::{Disk, DiskFault, SureDisk};
use aea_mirror::Mirror;
use std::alloc::Global;
use std::test::Fail;

// Whether a Mirror shows no copies, and refuses what would change them, also where it would change nothing.
fn hides<D: Disk>(mirror: &mut Mirror<D>) -> bool {
    let mut bytes = [9; 4];
    let refused = [
        put(mirror, 65, 285, b"\0"),
        put(mirror, 66, 0, b""),
        cut(mirror, 65, 0),
        cut(mirror, 66, 0),
    ];
    mirror.len(65) == Ok(0)
        && mirror.read(66, 0, &mut bytes) == Ok(0)
        && refused == [Err(DiskFault); 4]
}

// Whether a Mirror refuses what would change the kept text, and takes what is after it.
fn guards<D: Disk>(mirror: &mut Mirror<D>) -> bool {
    let refused = [
        put(mirror, 0, 201, b"xx"),
        put(mirror, 0, 0, b""),
        cut(mirror, 0, 202),
        cut(mirror, 0, 0),
    ];
    let taken = [
        put(mirror, 0, 202, b"\0more"),
        cut(mirror, 0, 203),
        mirror.sync(),
    ];
    refused == [Err(DiskFault); 4] && taken == [Ok(()); 3]
}

// Whether a Mirror over this disk does both.
fn refuses<D: Disk>(disk: &mut D) -> bool {
    match adopt(disk) {
        Ok(adopted) => {
            let mut mirror = Mirror::new(disk, adopted);
            hides(&mut mirror) && guards(&mut mirror)
        }
        Err(_) => false,
    }
}

// Whether a Mirror over the example does both, and leaves its files.
fn refuses_rightly(alloc: Global) -> bool {
    match copied_disk(alloc, &ledger()) {
        Some(mut disk) => refuses(&mut disk) && has_example(alloc, &mut disk),
        None => false,
    }
}

#[test]
fn copies_and_the_kept_text_are_refused(rt: HostRuntime) -> Result<(), Fail> {
    assert!(rt; refuses_rightly(rt.alloc()));
    Ok(())
}

// Whether this text, the example with both records, is in the ledger and in both copies.
fn has_text<D: Disk>(alloc: Global, disk: &mut D, text: &[u8]) -> bool {
    match copy_of(alloc, text, &[17, 202, 212, 222]) {
        Some(new) => has_all(disk, &whole(text, new.as_slice())),
        None => false,
    }
}

// Whether the example with both records is there.
fn has_raised<D: Disk>(alloc: Global, disk: &mut D) -> bool {
    match raised(alloc) {
        Some(text) => has_text(alloc, disk, text.as_slice()),
        None => false,
    }
}

// Whether both records are in the ledger and in both copies, once they were added one after the other.
fn keeps_up(alloc: Global) -> bool {
    match copied_disk(alloc, &ledger()) {
        Some(mut disk) => {
            adds_over(alloc, &mut disk, true)
                && has_raised(alloc, &mut disk)
                && adopts(&mut disk) == RAISED
        }
        None => false,
    }
}

#[test]
fn each_record_gets_into_both_copies(rt: HostRuntime) -> Result<(), Fail> {
    assert!(rt; keeps_up(rt.alloc()));
    Ok(())
}

// A disk with the example's ledger, and its copies where this is said.
fn example_disk(alloc: Global, copied: bool) -> Option<SureDisk> {
    if copied {
        copied_disk(alloc, &ledger())
    } else {
        disk_of(alloc, &whole(&ledger(), b""))
    }
}

// What a commit takes of a disk: writes, syncs and reads.
type Taken = (u64, u64, u64);

// What adding a fence over this disk takes of it; none where it is not added, or copies are there and 66 is not written after 65.
fn taken_of(alloc: Global, disk: &mut Watched<SureDisk>, copied: bool) -> Option<Taken> {
    match adopt(disk) {
        Ok(adopted) => {
            let before = (disk.writes, disk.syncs, disk.reads);
            let is_added = adds(alloc, &mut Mirror::new(disk, adopted), false);
            let writes = disk.writes.saturating_sub(before.0);
            let syncs = disk.syncs.saturating_sub(before.1);
            let reads = disk.reads.saturating_sub(before.2);
            let is_ordered = disk.last_of_first < disk.first_of_second || !copied;
            (is_added && is_ordered).then_some((writes, syncs, reads))
        }
        Err(_) => None,
    }
}

// What it takes of the example's disk.
fn taken(alloc: Global, copied: bool) -> Option<Taken> {
    match example_disk(alloc, copied) {
        Some(inner) => taken_of(alloc, &mut Watched::new(inner), copied),
        None => None,
    }
}

// Whether a commit takes four writes and four syncs more than this where copies are there, and at most eight reads more.
fn takes_eight_more(alloc: Global, alone: Taken) -> bool {
    match taken(alloc, true) {
        Some(copied) => {
            copied.0 == alone.0.saturating_add(4)
                && copied.1 == alone.1.saturating_add(4)
                && copied.2 <= alone.2.saturating_add(8)
        }
        None => false,
    }
}

// The same of what it takes without copies.
fn takes_eight_more_than_alone(alloc: Global) -> bool {
    match taken(alloc, false) {
        Some(alone) => takes_eight_more(alloc, alone),
        None => false,
    }
}

// Both copies together cost a commit eight writes and syncs, four of them syncs, and at most eight reads; 65 comes before 66.
#[test]
fn a_commit_costs_eight_calls_more(rt: HostRuntime) -> Result<(), Fail> {
    assert!(rt; takes_eight_more_than_alone(rt.alloc()));
    Ok(())
}

// Whether a sync of what is no list of whole records is refused by this Mirror, and taken once the gate is closed.
fn refuses_bytes<D: Disk>(mirror: &mut Mirror<D>, behind: &[u8]) -> bool {
    let calls = [put(mirror, 0, 203, behind), put(mirror, 0, 202, b"\x01")];
    let refused = mirror.sync();
    let closed = [put(mirror, 0, 202, b"\0"), mirror.sync()];
    calls == [Ok(()); 2] && refused == Err(DiskFault) && closed == [Ok(()); 2]
}

// The same of a Mirror of this disk.
fn refuses_until_closed<D: Disk>(disk: &mut D, behind: &[u8]) -> bool {
    match adopt(disk) {
        Ok(adopted) => refuses_bytes(&mut Mirror::new(disk, adopted), behind),
        Err(_) => false,
    }
}

// Whether both copies are those of the example.
fn has_copies<D: Disk>(alloc: Global, disk: &mut D) -> bool {
    match example_copy(alloc) {
        Some(copy) => has(disk, 65, copy.as_slice()) && has(disk, 66, copy.as_slice()),
        None => false,
    }
}

// Whether a sync of what is no list of whole records is refused before a copy of this disk is written, and taken once the gate is
// closed.
fn refuses_unwritten(alloc: Global, disk: &mut Watched<SureDisk>, behind: &[u8]) -> bool {
    refuses_until_closed(disk, behind)
        && disk.last_of_first == 0
        && disk.first_of_second == 0
        && has_copies(alloc, disk)
}

// The same of a disk with the example and its copies.
fn refuses_broken(alloc: Global, behind: &[u8]) -> bool {
    match copied_disk(alloc, &ledger()) {
        Some(inner) => refuses_unwritten(alloc, &mut Watched::new(inner), behind),
        None => false,
    }
}

#[test]
fn a_broken_record_is_refused(rt: HostRuntime) -> Result<(), Fail> {
    let rows = [
        b"".as_slice(),
        b"\x02\0\0\0\x04",
        b"\x02\0\0\0\x04\0\0\0\x01",
        b"\x02\xff\xff\xff\xff\0\0\0\x01\0",
        b"\x02\0\0\0\x04\0\0\0\x01\x01\x04",
    ];
    for behind in rows {
        assert!(rt; refuses_broken(rt.alloc(), behind));
    }
    Ok(())
}
