//! Runs whose disk is stopped after each of its calls, with each loss, and of which a file is then removed.

use crate::archives::store_abc;
use crate::commits::{Commit, commits, copies, put, records, stands};
use crate::harms::remove_any;
use aea_disk::{Loss, MemDisk};
use std::alloc::Global;
use std::test::Fail;

// What a stop leaves of what is pending.
const LOSSES: [Loss; 4] = [Loss::Kept, Loss::Dropped, Loss::Ones, Loss::Zeros];

// A disk that keeps its calls, and on it the archive with the object `a`.
fn listed(alloc: Global) -> Option<MemDisk> {
    let mut disk = MemDisk::new(alloc, 4, 1024, 1024, 1024, 16_384).ok()?;
    store_abc(alloc, &mut disk).then_some(disk)
}

// Whether a stop after so many calls with this loss leaves the archive of before the run or of after it, once the file is removed,
// if one is; only the one of after it where all calls were made.
fn is_stopped_well(
    alloc: Global,
    commit: &Commit,
    disk: &MemDisk,
    after: u64,
    loss: Loss,
    removed: Option<u8>,
) -> bool {
    let calls = disk.calls();
    if calls < after {
        return false;
    }
    match disk.image(alloc, after, loss) {
        Ok(mut stopped) => {
            remove_any(&mut stopped, removed) && stands(alloc, &mut stopped, commit, after == calls)
        }
        Err(_) => false,
    }
}

// Whether this is so of each loss, and of each of these files removed.
fn are_stopped_well(
    alloc: Global,
    commit: &Commit,
    disk: &MemDisk,
    after: u64,
    removed: &[Option<u8>],
) -> bool {
    let mut are_well = true;
    for loss in LOSSES {
        for file in removed {
            are_well = are_well && is_stopped_well(alloc, commit, disk, after, loss, *file);
        }
    }
    are_well
}

// Whether this is so after each call, from so many on.
fn survives_stops(
    alloc: Global,
    commit: &Commit,
    disk: &MemDisk,
    begun: u64,
    removed: &[Option<u8>],
) -> bool {
    let mut survives = true;
    for after in begun..=disk.calls() {
        survives = survives && are_stopped_well(alloc, commit, disk, after, removed);
    }
    survives
}

// Whether the run over this disk ends as where nothing fails, and survives a stop after each of its calls.
fn survives_each_stop(
    alloc: Global,
    commit: &Commit,
    disk: &mut MemDisk,
    removed: &[Option<u8>],
) -> bool {
    let begun = disk.calls();
    commits(alloc, disk, commit) && survives_stops(alloc, commit, disk, begun, removed)
}

// The same of a run over an archive whose ledger has copies, one of the three files removed each time.
fn survives_each_stop_over_copies(alloc: Global, commit: &Commit) -> bool {
    let removed = [Some(0), Some(65), Some(66)];
    match listed(alloc) {
        Some(mut disk) => {
            commits(alloc, &mut disk, &copies())
                && survives_each_stop(alloc, commit, &mut disk, &removed)
        }
        None => false,
    }
}

// The same of the run that begins the copies, with no file removed.
fn copies_survive_each_stop(alloc: Global) -> bool {
    match listed(alloc) {
        Some(mut disk) => survives_each_stop(alloc, &copies(), &mut disk, &[None]),
        None => false,
    }
}

#[test]
fn a_put_survives_each_stop_and_the_loss_of_a_file(rt: HostRuntime) -> Result<(), Fail> {
    assert!(rt; survives_each_stop_over_copies(rt.alloc(), &put()));
    Ok(())
}

#[test]
fn a_fence_and_a_raise_survive_them(rt: HostRuntime) -> Result<(), Fail> {
    for commit in records() {
        assert!(rt;
            survives_each_stop_over_copies(rt.alloc(), &commit),
            "{}",
            commit.line
        );
    }
    Ok(())
}

#[test]
fn copies_that_are_begun_leave_the_archive(rt: HostRuntime) -> Result<(), Fail> {
    assert!(rt; copies_survive_each_stop(rt.alloc()));
    Ok(())
}
