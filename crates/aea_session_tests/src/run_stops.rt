//! Whole runs of `session` whose disk stops after each call, or fails at each.

use crate::archives::{is_there, listed, stopped};
use crate::runs::{goes_on, make_raised, raised, says};
use crate::sessions::{first_messages, replies, stream};
use aea_cli::Status;
use aea_disk::{Disk, FailDisk, Loss, MemDisk, SureDisk};
use aea_runs::run_input;
use std::alloc::Global;
use std::test::Fail;

// After how many calls of this disk an archive is made, and after how many it has replied to the first messages of the example.
// None where the archive is not made; what the run leaves is not looked at.
fn calls_over(alloc: Global, disk: &mut MemDisk, messages: usize) -> Option<(u64, u64)> {
    let is_made = make_raised(alloc, disk);
    let made = disk.calls();
    match run_input(alloc, "session", disk, first_messages(messages)) {
        Ok(_) if is_made => Some((made, disk.calls())),
        _ => None,
    }
}

// The same of a new disk.
fn calls_of(alloc: Global, messages: usize) -> Option<(u64, u64)> {
    match listed(alloc) {
        Ok(mut disk) => calls_over(alloc, &mut disk, messages),
        Err(_) => None,
    }
}

// After how many calls of a disk an archive is made, the object closed, and the example replied to, each later than the one before.
fn calls_of_steps(alloc: Global) -> Option<(u64, u64, u64)> {
    match (calls_of(alloc, 5), calls_of(alloc, 8)) {
        (Some((made, closed)), Some((_, done))) => {
            let is_rising = made < closed && closed < done;
            is_rising.then_some((made, closed, done))
        }
        _ => None,
    }
}

// Makes a raised archive, and replies to the example. Says whether it did.
fn is_given(alloc: Global, disk: &mut MemDisk) -> bool {
    make_raised(alloc, disk) && says(alloc, disk, stream(), Status::Done, replies(), "")
}

// A disk on which that was done. None where it was not.
fn given(alloc: Global) -> Option<MemDisk> {
    let mut disk = listed(alloc).ok()?;
    is_given(alloc, &mut disk).then_some(disk)
}

// Whether the archive goes on where the disk stops after so many calls with this loss, and the object is closed after so many.
fn survives(alloc: Global, disk: &MemDisk, after: u64, loss: Loss, closed: u64) -> bool {
    match stopped(alloc, disk, after, loss) {
        Some(mut image) => goes_on(alloc, &mut image, is_there(after, loss, closed)),
        None => false,
    }
}

// The first stop of this disk, from one after so many calls on, that the archive does not survive.
fn first_fatal(alloc: Global, disk: &MemDisk, made: u64, closed: u64) -> Option<(Loss, u64)> {
    for loss in [Loss::Kept, Loss::Dropped, Loss::Ones, Loss::Zeros] {
        for after in made..=disk.calls() {
            if !survives(alloc, disk, after, loss, closed) {
                return Some((loss, after));
            }
        }
    }
    None
}

// The same of a disk on which the example was replied to; one after no call where it was not.
fn fatal_stop(alloc: Global) -> Option<(Loss, u64)> {
    match given(alloc) {
        Some(disk) => match calls_of(alloc, 5) {
            Some((made, closed)) => first_fatal(alloc, &disk, made, closed),
            None => Some((Loss::Kept, 0)),
        },
        None => Some((Loss::Kept, 0)),
    }
}

#[test]
fn each_stop_leaves_the_object_or_none(rt: HostRuntime) -> Result<(), Fail> {
    let fatal = fatal_stop(rt.alloc());
    assert!(rt; fatal.is_none(), "{fatal:?}");
    Ok(())
}

// Whether a run over a disk one of whose calls fails says so, and prints a first part of the replies.
fn reveals_of_the_disk<D: Disk>(alloc: Global, disk: &mut D) -> bool {
    run_input(alloc, "session", disk, stream()).is_ok_and(|left| {
        left.status == Status::Disk
            && left.err.bytes() == b"fault: disk\n".as_slice()
            && replies().starts_with(left.out.bytes())
    })
}

// A raised archive on a disk whose call of this number fails.
fn failing(alloc: Global, fails: u64) -> Option<FailDisk<SureDisk>> {
    FailDisk::new(alloc, raised(alloc)?, &[fails]).ok()
}

// Whether a run over such a disk says so; and whether the archive then has the object or has none, as it is said.
fn bears_no_disk(alloc: Global, fails: u64, there: bool) -> bool {
    match failing(alloc, fails) {
        Some(mut disk) => reveals_of_the_disk(alloc, &mut disk) && goes_on(alloc, &mut disk, there),
        None => false,
    }
}

// The first call of the disk, counted from 1, whose failing a run does not bear, where those are the calls.
fn first_not_borne(alloc: Global, calls: (u64, u64, u64)) -> Option<u64> {
    let (made, closed, done) = calls;
    for before in made..done {
        // the object is there, too, where the last sync of its commit alone failed
        let there = before.saturating_add(1) >= closed;
        let fails = before.saturating_sub(made).saturating_add(1);
        if !bears_no_disk(alloc, fails, there) {
            return Some(fails);
        }
    }
    None
}

// The same; 0 where the calls are not counted.
fn call_not_borne(alloc: Global) -> Option<u64> {
    match calls_of_steps(alloc) {
        Some(calls) => first_not_borne(alloc, calls),
        None => Some(0),
    }
}

#[test]
fn each_call_of_the_disk_fails(rt: HostRuntime) -> Result<(), Fail> {
    let wrong = call_not_borne(rt.alloc());
    assert!(rt; wrong.is_none(), "{wrong:?}");
    Ok(())
}
