//! Disks that fail and disks that are stopped: one table of runs, and what is there after each fault and each stop.

use crate::cases::{Case, cases};
use crate::standing::{is_printed, is_whole, prepare, prepared, run_case, stands};
use aea_cli::Status;
use aea_disk::{Disk, FailDisk, Loss, MemDisk, SureDisk};
use aea_runs::{Left, run_over, run_put};
use std::alloc::Global;
use std::test::Fail;

// What a stop leaves of what is pending, and whether a gate that is pending is open then.
const LOSSES: [(Loss, bool); 4] = [
    (Loss::Kept, true),
    (Loss::Dropped, false),
    (Loss::Ones, true),
    (Loss::Zeros, false),
];

// How many commits of the run so many calls of its disk make durable.
fn commits_by(case: &Case, calls: u64) -> usize {
    case.commits
        .iter()
        .filter(|commit| commit.calls <= calls)
        .count()
}

// Whether a run whose disk has failed has printed what so many commits print; a run without commits has printed a first part of
// the whole.
fn is_printed_before(alloc: Global, case: &Case, commits: usize, out: &[u8]) -> bool {
    if case.commits.is_empty() {
        case.out.as_bytes().starts_with(out)
    } else {
        is_printed(alloc, case, commits, out)
    }
}

// Whether a run whose disk has failed says so, and has printed that.
fn is_revealed(alloc: Global, case: &Case, left: &Left, commits: usize) -> bool {
    left.status == Status::Disk
        && left.err.bytes() == b"fault: disk\n".as_slice()
        && is_printed_before(alloc, case, commits, left.out.bytes())
}

// Whether the run over this disk ends as where nothing fails.
fn ends_whole<D: Disk>(alloc: Global, disk: &mut D, case: &Case) -> bool {
    run_case(alloc, case, disk).is_ok_and(|left| {
        is_whole(case, left.status, left.out.bytes(), left.err.bytes())
    })
}

// Whether the run over this disk, which fails, says so, and has printed what so many commits print.
fn reveals_fault<D: Disk>(alloc: Global, disk: &mut D, case: &Case, commits: usize) -> bool {
    run_case(alloc, case, disk).is_ok_and(|left| is_revealed(alloc, case, &left, commits))
}

// A disk on which is made what is there before the run, and whose call of this number, counted from 1, then fails.
fn failing(alloc: Global, case: &Case, call: u64) -> Option<FailDisk<SureDisk>> {
    match prepared(alloc, case) {
        Some(disk) => FailDisk::new(alloc, disk, &[call]).ok(),
        None => None,
    }
}

// Whether the run over this disk whose call of this number fails ends as it should, and leaves what it should. There is no call
// after the last one, so that the run is whole then.
fn bears<D: Disk>(alloc: Global, disk: &mut D, case: &Case, call: u64) -> bool {
    // the calls before it have been made: a gate that they opened is open
    let sure = commits_by(case, call.saturating_sub(1));
    if case.calls < call {
        ends_whole(alloc, disk, case)
    } else {
        reveals_fault(alloc, disk, case, sure)
            && stands(alloc, disk, case, sure, commits_by(case, call))
    }
}

// The same over a new disk.
fn is_borne(alloc: Global, case: &Case, call: u64) -> bool {
    match failing(alloc, case, call) {
        Some(mut disk) => bears(alloc, &mut disk, case, call),
        None => false,
    }
}

// The first failing call of the disk that the run does not bear as it should.
fn first_not_borne(alloc: Global, case: &Case) -> Option<u64> {
    (1..case.calls.saturating_add(2)).find(|call| !is_borne(alloc, case, *call))
}

#[test]
fn each_call_of_the_disk_fails(rt: HostRuntime) -> Result<(), Fail> {
    for case in cases() {
        let found = first_not_borne(rt.alloc(), case);
        assert!(rt; found.is_none(), "{}", case.line);
    }
    Ok(())
}

// The disk that a stop with this loss leaves after so many calls. None where there were fewer, or memory runs out.
fn stopped(alloc: Global, disk: &MemDisk, after: u64, loss: Loss) -> Option<SureDisk> {
    if disk.calls() < after {
        None
    } else {
        disk.image(alloc, after, loss).ok()
    }
}

// Whether such a stop leaves what so many commits leave, of which so many are durable.
fn leaves(
    alloc: Global,
    case: &Case,
    disk: &MemDisk,
    after: u64,
    loss: Loss,
    sure: usize,
    commits: usize,
) -> bool {
    match stopped(alloc, disk, after, loss) {
        Some(mut image) => stands(alloc, &mut image, case, sure, commits),
        None => false,
    }
}

// Whether the run leaves what it should, where it is stopped once so many of its calls of the disk have returned, `begun` calls
// after the first of the disk.
fn is_stopped_well(alloc: Global, case: &Case, disk: &MemDisk, begun: u64, calls: u64) -> bool {
    let after = begun.saturating_add(calls);
    let sure = commits_by(case, calls);
    let mut is_well = true;
    for (loss, is_open) in LOSSES {
        let commits = commits_by(case, calls.saturating_add(u64::from(is_open)));
        is_well = is_well && leaves(alloc, case, disk, after, loss, sure, commits);
    }
    is_well
}

// After how many calls of the run, `begun` calls after the first of the disk, a stop does not leave what it should, the fewest.
fn first_wrong_stop_since(alloc: Global, case: &Case, disk: &MemDisk, begun: u64) -> Option<u64> {
    (0..case.calls.saturating_add(1)).find(|calls| {
        !is_stopped_well(alloc, case, disk, begun, *calls)
    })
}

// The same of a run over this disk, which has nothing; 0 where it is not prepared, or the run does not end as it should, or not with
// as many calls.
fn first_wrong_stop_over(alloc: Global, case: &Case, disk: &mut MemDisk) -> Option<u64> {
    let is_made = prepare(alloc, case, disk);
    let begun = disk.calls();
    let is_whole = ends_whole(alloc, disk, case);
    if is_made && is_whole && disk.calls() == begun.saturating_add(case.calls) {
        first_wrong_stop_since(alloc, case, disk, begun)
    } else {
        Some(0)
    }
}

// The same over a new disk.
fn first_wrong_stop(alloc: Global, case: &Case) -> Option<u64> {
    match MemDisk::new(alloc, 4, 2048, 1024, 256, 8192) {
        Ok(mut disk) => first_wrong_stop_over(alloc, case, &mut disk),
        Err(_) => Some(0),
    }
}

#[test]
fn each_run_is_stopped_after_each_call(rt: HostRuntime) -> Result<(), Fail> {
    for case in cases() {
        if !case.commits.is_empty() {
            let found = first_wrong_stop(rt.alloc(), case);
            assert!(rt; found.is_none(), "{}", case.line);
        }
    }
    Ok(())
}

// Makes an archive with an object of one node. Says whether there was memory.
fn store_abc(alloc: Global, disk: &mut SureDisk) -> bool {
    run_over(alloc, "create 3 2 5 64 4", disk, 99).is_ok()
        && run_put(alloc, disk, "a", b"abc").is_ok()
}

// Whether a scrub finds four intact blocks.
fn is_intact(alloc: Global, disk: &mut SureDisk) -> bool {
    let text = "total 4 damaged 0\n";
    run_over(alloc, "scrub", disk, 99).is_ok_and(|left| left.is(Status::Done, text, ""))
}

// Whether a scrub finds all intact where bytes are written behind the last cell of a site.
fn bears_more_bytes(alloc: Global, disk: &mut SureDisk) -> bool {
    store_abc(alloc, disk)
        && disk.len(1) == Ok(112)
        && disk.write(1, 112, &[255; 1000]).is_ok()
        && is_intact(alloc, disk)
}

// The same over a new disk.
fn bears_bytes_behind(alloc: Global) -> bool {
    match SureDisk::new(alloc, 4, 1024, 2048) {
        Ok(mut disk) => bears_more_bytes(alloc, &mut disk),
        Err(_) => false,
    }
}

#[test]
fn bytes_behind_the_last_cell_are_no_damage(rt: HostRuntime) -> Result<(), Fail> {
    assert!(rt; bears_bytes_behind(rt.alloc()));
    Ok(())
}
