//! Fences, raises and objects in parts in archives of AE(1,1,0).

use crate::example::ABC;
use crate::kinds::{add_parts, fence, has_parts, raise};
use crate::openings::open_disk;
use crate::plain::{Reading, part};
use crate::stops::{add, adds_abc, made};
use aea_catalog::Extent;
use aea_disk::Disk;
use aea_ledger::{FenceFault, Ledger, UpgradeFault, open_ledger};
use aea_test_helpers::SMALL;
use std::alloc::Global;
use std::test::Fail;

// Whether the file has so many bytes, the last of which are these.
fn ends_with<D: Disk>(disk: &mut D, long: usize, end: &[u8]) -> bool {
    let mut bytes = [0u8; 1024];
    match disk.read(0, 0, &mut bytes) {
        Ok(count) => count == long && part(&bytes, 0, long as u64).ends_with(end),
        Err(_) => false,
    }
}

// Whether the file with another byte at this place is bad there. The disk keeps its own byte.
fn is_bad_with<D: Disk>(alloc: Global, disk: &mut D, place: u8, value: u8, at: u64) -> bool {
    let place = u64::from(place);
    let mut kept = [0u8; 1];
    if disk.read(0, place, &mut kept) != Ok(1) || disk.write(0, place, &[value]).is_err() {
        return false;
    }
    let opened = open_disk(alloc, disk);
    disk.write(0, place, &kept).is_ok() && opened == Reading::Bad { at }
}

// Whether a fence is refused before the first node, put after it, and refused then, and its record ends the file.
fn is_fenced_once<D: Disk>(alloc: Global, disk: &mut D) -> bool {
    fence(alloc, disk, Err(FenceFault::AlreadyFenced { nodes: 0 }))
        && adds_abc(alloc, disk, &[[1; 32], [2; 32]])
        && fence(alloc, disk, Ok(1))
        && fence(alloc, disk, Err(FenceFault::AlreadyFenced { nodes: 1 }))
        && ends_with(disk, 149, b"\x01\x02\0\0\0\x04\0\0\0\x01\0")
}

#[test]
fn a_fence_after_one_node(rt: HostRuntime) -> Result<(), Fail> {
    let mut disk = made(rt.alloc(), &SMALL, 1024)?;
    assert!(rt; is_fenced_once(rt.alloc(), &mut disk));
    for (place, value, at) in [(147u8, 2u8, 144u64), (139, 3, 139), (143, 5, 140)] {
        assert!(rt;
            is_bad_with(rt.alloc(), &mut disk, place, value, at),
            "{place}"
        );
    }
    Ok(())
}

// Whether the limit is raised, and not once more, and its record ends the file.
fn is_raised_once<D: Disk>(alloc: Global, disk: &mut D) -> bool {
    raise(alloc, disk, Ok(()))
        && raise(alloc, disk, Err(UpgradeFault::AlreadyUpgraded))
        && ends_with(disk, 28, b"\x01\x04\0\0\0\x04\0\x10\0\0\0")
}

#[test]
fn a_raise_of_an_empty_archive(rt: HostRuntime) -> Result<(), Fail> {
    let mut disk = made(rt.alloc(), &SMALL, 1024)?;
    assert!(rt; is_raised_once(rt.alloc(), &mut disk));
    for (place, value, at) in [(18u8, 3u8, 18u64), (24, 32, 23)] {
        assert!(rt;
            is_bad_with(rt.alloc(), &mut disk, place, value, at),
            "{place}"
        );
    }
    Ok(())
}

// The parts of the object `x`: the first and the last of three nodes.
fn ends() -> [Extent; 2] {
    [Extent { first: 1, count: 1 }, Extent { first: 3, count: 1 }]
}

// Whether the ledger has three nodes, and the object `x` in its parts and as the other one has it, whose seal is the same.
fn has_ends(ledger: &Ledger, other: &Ledger) -> bool {
    let objects = ledger.catalog();
    ledger.lattice().n() == 3
        && objects.parts(b"x") == Some(2)
        && has_parts(ledger, b"x", &ends())
        && objects.find(b"x") == other.catalog().find(b"x")
        && ledger.seal() == other.seal()
}

// Opens the ledger and adds an object of three nodes, and the object `x` of the first and the last of them. It gives the ledger where
// it did.
fn with_parts<D: Disk>(alloc: Global, disk: &mut D) -> Option<Ledger> {
    let Ok(mut ledger) = open_ledger(alloc, disk) else {
        return None;
    };
    let Ok(true) = add(&mut ledger, disk, b"a", 36, *ABC, &[[1; 32]; 6]) else {
        return None;
    };
    let Ok(true) = add_parts(&mut ledger, disk, b"x", 20, &[], &ends()) else {
        return None;
    };
    Some(ledger)
}

// Raises the limit, adds both objects, and opens the ledger once more. It says whether that is as `x` was added.
fn is_opened_again<D: Disk>(alloc: Global, disk: &mut D) -> bool {
    if !raise(alloc, disk, Ok(())) {
        return false;
    }
    let Some(added) = with_parts(alloc, disk) else {
        return false;
    };
    match open_ledger(alloc, disk) {
        Ok(opened) => has_ends(&opened, &added),
        Err(_) => false,
    }
}

#[test]
fn parts_without_a_new_node(rt: HostRuntime) -> Result<(), Fail> {
    let mut disk = made(rt.alloc(), &SMALL, 1024)?;
    assert!(rt; is_opened_again(rt.alloc(), &mut disk));
    Ok(())
}

// Opens the ledger and adds an object of one node to AE(1,1,0), and then a fence. It says whether the fence gave what is wanted.
fn fences_node<D: Disk>(
    alloc: Global,
    disk: &mut D,
    name: u8,
    want: Result<u32, FenceFault>,
) -> bool {
    let Ok(mut ledger) = open_ledger(alloc, disk) else {
        return false;
    };
    let Ok(true) = add(&mut ledger, disk, &[name], 3, *ABC, &[[1; 32], [2; 32]]) else {
        return false;
    };
    ledger.append_fence(disk) == want
}

// Does so sixteen times, and says how many of these gave what is wanted before one did not.
fn fences_sixteen<D: Disk>(alloc: Global, disk: &mut D) -> u8 {
    for k in 0..16u8 {
        if !fences_node(alloc, disk, b'a' + k, Ok(u32::from(k) + 1)) {
            return k;
        }
    }
    16
}

#[test]
fn as_many_fences_as_there_may_be(rt: HostRuntime) -> Result<(), Fail> {
    let mut disk = made(rt.alloc(), &SMALL, 4096)?;
    let count = fences_sixteen(rt.alloc(), &mut disk);
    assert!(rt; count == 16, "{count}");
    let many = Err(FenceFault::TooManyFences);
    assert!(rt; fences_node(rt.alloc(), &mut disk, b'z', many));
    Ok(())
}
