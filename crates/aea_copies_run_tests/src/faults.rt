//! Runs of whose disk each call fails in turn, and of which a file is then removed.

use crate::archives::archive;
use crate::commits::{Commit, copies, put, records, stands};
use crate::harms::remove_any;
use aea_cli::Status;
use aea_disk::{Disk, FailDisk, SureDisk};
use aea_runs::{Left, run_input};
use std::alloc::Global;
use std::test::Fail;

// How a run over a disk that fails once ends.
#[derive(Clone, Copy, PartialEq, Eq)]
enum Fate {
    /// It was whole before that call.
    Whole,
    /// It says that the disk failed, and leaves the archive of before it or of after it.
    Borne,
    Wrong,
}

// How the run ended that left this, by its status and what it printed alone.
fn printed_fate(left: &Left, commit: &Commit) -> Fate {
    if left.is(Status::Done, commit.out, "") {
        Fate::Whole
    } else if left.is(Status::Disk, "", "fault: disk\n") {
        Fate::Borne
    } else {
        Fate::Wrong
    }
}

// The same of a run over this disk.
fn revealed_fate<D: Disk>(alloc: Global, disk: &mut D, commit: &Commit) -> Fate {
    match run_input(alloc, commit.line, disk, commit.input.as_bytes()) {
        Ok(left) => printed_fate(&left, commit),
        Err(_) => Fate::Wrong,
    }
}

// The archive over which the run is made, on a disk whose call of this number, counted from 1, fails.
fn failing(alloc: Global, commit: &Commit, call: u64) -> Option<FailDisk<SureDisk>> {
    FailDisk::new(alloc, archive(alloc, !commit.begins)?, &[call]).ok()
}

// How the run over this disk ends, after which the file is removed, if one is.
fn fate_over<D: Disk>(alloc: Global, disk: &mut D, commit: &Commit, removed: Option<u8>) -> Fate {
    let revealed = revealed_fate(alloc, disk, commit);
    if revealed != Fate::Borne {
        revealed
    } else if remove_any(disk, removed) && stands(alloc, disk, commit, false) {
        Fate::Borne
    } else {
        Fate::Wrong
    }
}

// How the run ends whose call of this number fails, and after which this file is removed, if one is.
fn fate_of(alloc: Global, commit: &Commit, call: u64, removed: Option<u8>) -> Fate {
    match failing(alloc, commit, call) {
        Some(mut disk) => fate_over(alloc, &mut disk, commit, removed),
        None => Fate::Wrong,
    }
}

// More calls than such a run makes, and fewer.
const MANY: u64 = 400;

const FEW: u64 = 20;

// Whether each call that fails is borne, up to one with which the run is whole, and that is not too early.
fn bears_each_fault(alloc: Global, commit: &Commit, removed: Option<u8>) -> bool {
    let mut ended = (MANY, Fate::Wrong);
    for call in 1..MANY {
        ended = (call, fate_of(alloc, commit, call, removed));
        if ended.1 != Fate::Borne {
            break;
        }
    }
    FEW < ended.0 && ended.1 == Fate::Whole
}

// The same, with each of the three files removed afterwards, and none.
fn bears_each_fault_over_copies(alloc: Global, commit: &Commit) -> bool {
    [None, Some(0u8), Some(65), Some(66)]
        .iter()
        .all(|removed| bears_each_fault(alloc, commit, *removed))
}

#[test]
fn copies_end_with_each_fault(rt: HostRuntime) -> Result<(), Fail> {
    assert!(rt; bears_each_fault(rt.alloc(), &copies(), None));
    Ok(())
}

#[test]
fn a_put_over_copies_ends_with_each_fault(rt: HostRuntime) -> Result<(), Fail> {
    assert!(rt; bears_each_fault_over_copies(rt.alloc(), &put()));
    Ok(())
}

#[test]
fn a_fence_and_a_raise_over_copies_end_with_each_fault(rt: HostRuntime) -> Result<(), Fail> {
    for commit in records() {
        assert!(rt;
            bears_each_fault_over_copies(rt.alloc(), &commit),
            "{}",
            commit.line
        );
    }
    Ok(())
}
