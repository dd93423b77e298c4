//! Damaged heads of strands: a put is refused before a repair, or before a fence where blocks are lost.

use crate::archives::{archive_of_four, ends, filled, gets, puts, repairs, repairs_four};
use aea_cli::Status;
use aea_disk::{Disk, SureDisk};
use aea_runs::all_bytes;
use aea_test_helpers::{shorten, spoil, spoil_cell};
use std::alloc::Global;

const STORED: &str =
    "stored 1 3 ba7816bf8f01cfea414140de5dae2223b00361a396177a9cb410ff61f20015ad b\n";

// Whether a put is refused where the block r1 is damaged, and a repair then restores it.
fn is_head_repaired<D: Disk>(alloc: Global, disk: &mut D) -> bool {
    let refused = "refused: head damaged r1\n";
    let lines = "counts 1 1 0 0\npeeled r1\n";
    match all_bytes(alloc, disk) {
        Some(whole) => {
            spoil(disk, 3, 20).is_ok()
                && puts(alloc, disk, Status::Refused, "", refused)
                && repairs_four(alloc, disk, lines, whole.as_slice())
        }
        None => false,
    }
}

// What goes wrong first where r1 is damaged: the repair, or the put after it.
fn wrong_of_head<D: Disk>(alloc: Global, disk: &mut D) -> Option<&'static str> {
    if !is_head_repaired(alloc, disk) {
        Some("the repair")
    } else if !puts(alloc, disk, Status::Done, STORED, "") {
        Some("the put")
    } else {
        None
    }
}

// The same of an archive of four blocks.
fn wrong_of_four(alloc: Global) -> Option<&'static str> {
    match archive_of_four(alloc, b"abc") {
        Some(mut disk) => wrong_of_head(alloc, &mut disk),
        None => Some("no archive"),
    }
}

#[test]
fn a_damaged_head_is_repaired_before_the_next_put(rt: HostRuntime) {
    let wrong = wrong_of_four(rt.alloc());
    assert!(rt; wrong.is_none(), "{wrong:?}");
}

// An archive of AE(1,1,0) whose one node is lost.
fn lost_node(alloc: Global) -> Option<SureDisk> {
    let mut disk = filled(alloc, (1, 4096, 1024), "create 1 1 0 16 1", b"abc")?;
    shorten(&mut disk, 1, 0).is_ok().then_some(disk)
}

const LOST: &str = "counts 2 0 0 2\nlost d1 by 1\nlost h1 by 1\n";

// Whether a repair says of an archive with these numbers that the blocks of its first node are lost, and leaves the files.
fn reveals_lost<D: Disk>(alloc: Global, disk: &mut D, numbers: &str) -> bool {
    match all_bytes(alloc, disk) {
        Some(files) => repairs(alloc, disk, numbers, LOST, Status::Damage, files.as_slice()),
        None => false,
    }
}

// Whether a fence is put after the lost node, and then an object is stored and got, which is refused before.
fn goes_on<D: Disk>(alloc: Global, disk: &mut D) -> bool {
    let refused = "refused: head damaged h1\n";
    puts(alloc, disk, Status::Refused, "", refused)
        && ends(alloc, disk, "fence", Status::Done, "fence 1\n", "")
        && disk.len(0) == Ok(149)
        && puts(alloc, disk, Status::Done, STORED, "")
        && gets(alloc, disk, "b", b"abc")
}

// Whether what is damaged of a second node is restored where the first one is lost.
fn is_second_restored<D: Disk>(alloc: Global, disk: &mut D) -> bool {
    let lines = "counts 3 1 0 2\nlost d1 by 1\nlost h1 by 1\npeeled d2\n";
    match all_bytes(alloc, disk) {
        Some(whole) => {
            let files = whole.as_slice();
            spoil_cell(disk, 1, 64, 2, 16).is_ok()
                && repairs(alloc, disk, "1 1 0 2", lines, Status::Damage, files)
        }
        None => false,
    }
}

// What goes wrong first of an archive whose one node is lost, and which goes on after a fence.
fn wrong_of_lost<D: Disk>(alloc: Global, disk: &mut D) -> Option<&'static str> {
    if !reveals_lost(alloc, disk, "1 1 0 1") {
        Some("the first report")
    } else if disk.len(1) != Ok(0) {
        Some("the length of the site")
    } else if !goes_on(alloc, disk) {
        Some("the fence")
    } else if !reveals_lost(alloc, disk, "1 1 0 2") {
        // the codeword of node 1 ends at the fence, so that the second object reveals nothing of the first
        Some("the second report")
    } else if !is_second_restored(alloc, disk) {
        // and what is damaged of the second one is restored without it
        Some("the second node")
    } else {
        None
    }
}

// The same of that archive.
fn wrong_of_lost_node(alloc: Global) -> Option<&'static str> {
    match lost_node(alloc) {
        Some(mut disk) => wrong_of_lost(alloc, &mut disk),
        None => Some("no archive"),
    }
}

#[test]
fn lost_blocks_stay_lost_before_a_fence(rt: HostRuntime) {
    let wrong = wrong_of_lost_node(rt.alloc());
    assert!(rt; wrong.is_none(), "{wrong:?}");
}
