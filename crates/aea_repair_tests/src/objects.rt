//! An archive of many objects that loses a site.

use crate::lattices::restores_site;
use aea_cli::Status;
use aea_disk::{Disk, SureDisk};
use aea_lattice::Lattice;
use aea_runs::{run_get, run_over, run_put};
use aea_test_helpers::some_bytes;
use std::alloc::Global;

// How many objects the archive of many has.
const OBJECTS: u32 = 75;

// Whether `put` of this object is done.
fn is_put<D: Disk>(alloc: Global, disk: &mut D, name: &str, bytes: &[u8]) -> bool {
    run_put(alloc, disk, name, bytes).is_ok_and(|left| left.status == Status::Done)
}

// Whether `get` of this object is done, and prints these bytes.
fn is_got<D: Disk>(alloc: Global, disk: &mut D, name: &str, bytes: &[u8]) -> bool {
    run_get(alloc, disk, name, bytes.len()).is_ok_and(|left| left.status == Status::Done
        && left.out.bytes() == bytes)
}

// Puts the object of number k, which has 125 k bytes, or gets it. Whether it is done so.
fn is_done<D: Disk>(alloc: Global, disk: &mut D, k: u32, puts: bool) -> bool {
    if let Ok(name) = format!(in alloc; "object {k}")
        && let Ok(bytes) = some_bytes(alloc, k.wrapping_mul(125), k)
    {
        if puts {
            is_put(alloc, disk, name.as_str(), bytes.as_slice())
        } else {
            is_got(alloc, disk, name.as_str(), bytes.as_slice())
        }
    } else {
        false
    }
}

// Puts all objects, or gets them. Whether each is done so.
fn put_or_get<D: Disk>(alloc: Global, disk: &mut D, puts: bool) -> bool {
    let mut is_each = true;
    for k in 1..OBJECTS + 1 {
        is_each = is_each && is_done(alloc, disk, k, puts);
    }
    is_each
}

// Whether the second site, once it is lost, is told and restored to the byte.
fn is_site_peeled<D: Disk>(alloc: Global, disk: &mut D) -> bool {
    let lost = (2, 1, "counts 2817 2817 0 0\n");
    match Lattice::new(3, 2, 5, 2817) {
        Some(lattice) => restores_site(alloc, disk, &lattice, "3 2 5 2817", lost),
        None => false,
    }
}

// The first step that goes wrong where objects are put into a new archive, it loses a site, and they are got.
fn wrong_step<D: Disk>(alloc: Global, disk: &mut D) -> Option<&'static str> {
    if run_over(alloc, "create 3 2 5 128 4", disk, 99).is_err() {
        Some("create")
    } else if !put_or_get(alloc, disk, true) {
        Some("put")
    } else if !is_site_peeled(alloc, disk) {
        Some("repair")
    } else if !put_or_get(alloc, disk, false) {
        Some("get")
    } else {
        None
    }
}

// The same on a disk with space for 2,817 nodes of blocks of 128 bytes, so cells of 176.
fn wrong_step_of_many(alloc: Global) -> Option<&'static str> {
    match SureDisk::new(alloc, 4, 1 << 19, 1 << 19) {
        Ok(mut disk) => wrong_step(alloc, &mut disk),
        Err(_) => Some("the disk"),
    }
}

#[test]
fn many_objects_are_got_back_without_a_site(rt: HostRuntime) {
    let wrong = wrong_step_of_many(rt.alloc());
    assert!(rt; wrong.is_none(), "{wrong:?}");
}
