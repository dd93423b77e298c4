//! Sessions whose disk stops after each call, or fails at each.

use crate::archives::{WITH_A, contents, is_there, listed, make, raised, stopped};
use crate::sessions::{Ended, first_messages, replies, replies_again, serve_bytes, serves, stream};
use aea_disk::{Disk, FailDisk, Loss, MemDisk, SureDisk};
use aea_session::{Stop, TakeFault};
use std::alloc::Global;
use std::test::Fail;

// After how many calls of this disk an archive is made, and after how many it has replied to the first messages of the example.
// None where the archive is not made; how the session ends is not looked at.
fn calls_over(alloc: Global, disk: &mut MemDisk, messages: usize) -> Option<(u64, u64)> {
    let is_made = make(alloc, disk);
    let made = disk.calls();
    match serve_bytes(alloc, disk, first_messages(messages), 1024) {
        Ok(_) if is_made => Some((made, disk.calls())),
        _ => None,
    }
}

// The same of a new disk.
fn calls_of(alloc: Global, messages: usize) -> Option<(u64, u64)> {
    match listed(alloc) {
        Ok(mut disk) => calls_over(alloc, &mut disk, messages),
        Err(_) => None,
    }
}

// Whether the archive has the object or has none, as it is said, in what is read of it and in what it has; and whether the session
// is given over it again, after which it has the object.
fn goes_on<D: Disk>(alloc: Global, disk: &mut D, there: bool) -> bool {
    let nothing = Some((0, 0, None));
    let (has, read, again) = if there {
        (
            WITH_A,
            b"\x05\0\0\0\0\0\0\0\0\x03abc".as_slice(),
            replies_again(),
        )
    } else {
        (nothing, b"\x05\x09".as_slice(), replies())
    };
    contents(alloc, disk) == has
        && serves(alloc, disk, b"\x05\0\x01a", Ended::Done, read)
        && serves(alloc, disk, stream(), Ended::Done, again)
        && contents(alloc, disk) == WITH_A
}

// Makes a raised archive, and replies to the example. Says whether it did.
fn is_given(alloc: Global, disk: &mut MemDisk) -> bool {
    make(alloc, disk) && serves(alloc, disk, stream(), Ended::Done, replies())
}

// A disk on which that was done. None where it was not.
fn given(alloc: Global) -> Option<MemDisk> {
    let mut disk = listed(alloc).ok()?;
    is_given(alloc, &mut disk).then_some(disk)
}

// Whether the archive goes on where the disk stops after so many calls with this loss, and the object is closed after so many.
fn survives(alloc: Global, disk: &MemDisk, after: u64, loss: Loss, closed: u64) -> bool {
    match stopped(alloc, disk, after, loss) {
        Some(mut image) => goes_on(alloc, &mut image, is_there(after, loss, closed)),
        None => false,
    }
}

// The first stop of this disk, from one after so many calls on, that the archive does not survive.
fn first_fatal(alloc: Global, disk: &MemDisk, made: u64, closed: u64) -> Option<(Loss, u64)> {
    for loss in [Loss::Kept, Loss::Dropped, Loss::Ones, Loss::Zeros] {
        for after in made..=disk.calls() {
            if !survives(alloc, disk, after, loss, closed) {
                return Some((loss, after));
            }
        }
    }
    None
}

// The same of a disk on which the example was replied to; one after no call where it was not.
fn fatal_stop(alloc: Global) -> Option<(Loss, u64)> {
    match given(alloc) {
        Some(disk) => match calls_of(alloc, 5) {
            Some((made, closed)) => first_fatal(alloc, &disk, made, closed),
            None => Some((Loss::Kept, 0)),
        },
        None => Some((Loss::Kept, 0)),
    }
}

#[test]
fn each_stop_leaves_the_object_or_none(rt: HostRuntime) -> Result<(), Fail> {
    let fatal = fatal_stop(rt.alloc());
    assert!(rt; fatal.is_none(), "{fatal:?}");
    Ok(())
}

// Whether a session over a disk one of whose calls fails ends so, gives the replies before, and may not be used any more.
fn ends_early<D: Disk>(alloc: Global, disk: &mut D, ended: Ended) -> bool {
    serve_bytes(alloc, disk, stream(), 1024).is_ok_and(|served| {
        served.ended == ended && !served.live && replies().starts_with(served.out.bytes())
    })
}

// A raised archive on a disk whose call of this number fails.
fn failing(alloc: Global, fails: u64) -> Option<FailDisk<SureDisk>> {
    FailDisk::new(alloc, raised(alloc)?, &[fails]).ok()
}

// Whether a session over such a disk ends so; and whether the archive then has the object or has none, as it is said, and goes on.
fn fails_well(alloc: Global, fails: u64, there: bool, ended: Ended) -> bool {
    match failing(alloc, fails) {
        Some(mut disk) => ends_early(alloc, &mut disk, ended) && goes_on(alloc, &mut disk, there),
        None => false,
    }
}

// After how many calls of a disk an archive is made, its session begun, the object closed, and the example replied to, each later than
// the one before.
fn calls_of_steps(alloc: Global) -> Option<(u64, u64, u64, u64)> {
    match (calls_of(alloc, 0), calls_of(alloc, 5), calls_of(alloc, 8)) {
        (Some((made, begun)), Some((_, closed)), Some((_, done))) => {
            let is_rising = made < begun && begun < closed && closed < done;
            is_rising.then_some((made, begun, closed, done))
        }
        _ => None,
    }
}

// The first call of the disk, counted from 1, whose failing a session does not bear, where those are the calls.
fn first_not_borne(alloc: Global, calls: (u64, u64, u64, u64)) -> Option<u64> {
    let (made, begun, closed, done) = calls;
    for before in made..done {
        // of an archive without nodes no head is read
        let ended = if before < begun {
            Ended::NoLedger
        } else {
            Ended::Stopped(Stop::Taken {
                fault: TakeFault::DiskFault,
            })
        };
        // the object is there, too, where the last sync of its commit alone failed
        let there = before.saturating_add(1) >= closed;
        let fails = before.saturating_sub(made).saturating_add(1);
        if !fails_well(alloc, fails, there, ended) {
            return Some(fails);
        }
    }
    None
}

// The same; 0 where the calls are not counted.
fn call_not_borne(alloc: Global) -> Option<u64> {
    match calls_of_steps(alloc) {
        Some(calls) => first_not_borne(alloc, calls),
        None => Some(0),
    }
}

#[test]
fn each_call_of_the_disk_fails(rt: HostRuntime) -> Result<(), Fail> {
    let wrong = call_not_borne(rt.alloc());
    assert!(rt; wrong.is_none(), "{wrong:?}");
    Ok(())
}
