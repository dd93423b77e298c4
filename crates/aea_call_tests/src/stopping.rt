//! Two frames that are taken one by one, over disks that stop after a call, or of which a call fails.

use crate::ingesting::{A, Answer, count, take_one, takes};
use aea_append::IngestFault;
use aea_disk::{Disk, FailDisk, Loss, MemDisk, SureDisk};
use aea_io::MemSource;
use aea_ledger::create_ledger;
use aea_test_helpers::WIDE;
use std::alloc::Global;
use std::test::Fail;

// The frames of `a` with the bytes `abc`, and of `b` with 17 bytes, which take two nodes.
const LONGER: &[u8; 42] = b"\0\x01a\0\0\0\0\0\0\0\x03abc\0\x01b\0\0\0\0\0\0\0\x110123456789abcdefg";

// What is answered of the second of them.
const LONG_B: Answer = Answer::Stored {
    first: b'b',
    nodes: 2,
    length: 17,
};

// A disk whose calls are kept, and after how many of them the archive is made, the first of two frames stored, and the second.
#[derive(Drop)]
struct Kept {
    disk: MemDisk,
    calls: [u64; 3],
}

// Makes an archive on such a disk, and stores two frames; none where one is not stored.
fn store_two(alloc: Global) -> Option<Kept> {
    let mut disk = MemDisk::new(alloc, 4, 1024, 512, 128, 4096).ok()?;
    let mut source = MemSource::new(alloc, LONGER, &[]).ok()?;
    let mut at = 0;
    let is_made = create_ledger(&mut disk, &WIDE).is_ok();
    let made = disk.calls();
    let is_first = is_made && takes(alloc, &mut disk, &mut source, &mut at, A, 14);
    let first = disk.calls();
    let is_second = is_first && takes(alloc, &mut disk, &mut source, &mut at, LONG_B, 42);
    let calls = [made, first, disk.calls()];
    is_second.then_some(Kept { disk, calls })
}

// How many objects and nodes are there after so many calls, where the frames are stored after these.
fn stands_after(after: u64, calls: [u64; 3]) -> (usize, u32) {
    let [_made, first, second] = calls;
    if after >= second {
        (2, 3)
    } else if after >= first {
        (1, 1)
    } else {
        (0, 0)
    }
}

// The same for a stop after so many calls. The gate of a record is written by the last call but one, and made durable by the last.
fn stands_at_stop(after: u64, loss: Loss, calls: [u64; 3]) -> (usize, u32) {
    if loss == Loss::Kept || loss == Loss::Ones {
        stands_after(after.saturating_add(1), calls)
    } else {
        stands_after(after, calls)
    }
}

// Whether a stop after so many calls with this loss leaves the objects that are stored by then.
fn leaves_stored(alloc: Global, disk: &MemDisk, after: u64, loss: Loss, calls: [u64; 3]) -> bool {
    if after > disk.calls() {
        false
    } else {
        match disk.image(alloc, after, loss) {
            Ok(mut stopped) => {
                count(alloc, &mut stopped) == Some(stands_at_stop(after, loss, calls))
            }
            Err(_) => false,
        }
    }
}

// The first stop, from when the archive is made on, that leaves other objects: after how many calls, and with which loss.
fn first_wrong_stop(alloc: Global, disk: &MemDisk, calls: [u64; 3]) -> Option<(u64, Loss)> {
    let [made, _first, _second] = calls;
    for after in made..=disk.calls() {
        for loss in [Loss::Kept, Loss::Dropped, Loss::Ones, Loss::Zeros] {
            if !leaves_stored(alloc, disk, after, loss, calls) {
                return Some((after, loss));
            }
        }
    }
    None
}

#[test]
fn each_stop_leaves_the_first_objects(rt: HostRuntime) -> Result<(), Fail> {
    let Kept { disk, calls } = store_two(rt.alloc()).ok_or("not stored")?;
    let wrong = first_wrong_stop(rt.alloc(), &disk, calls);
    assert!(rt; wrong == None, "{wrong:?}");
    Ok(())
}

// Whether the disk failed, as the archive was opened or as a frame was taken.
fn is_disk_fault(answer: Answer) -> bool {
    answer == Answer::NoLedger || answer == Answer::Fault(IngestFault::DiskFault)
}

// Two frames that were taken: the answers, and how many objects and nodes are there then.
#[derive(Clone, Copy)]
struct Taken {
    first: Answer,
    second: Answer,
    left: Option<(usize, u32)>,
}

// Takes two frames, the second one where the disk did not fail at the first.
fn take_two<D: Disk>(alloc: Global, disk: &mut D, source: &mut MemSource) -> Taken {
    let mut at = 0;
    let first = take_one(alloc, disk, source, &mut at);
    let second = if is_disk_fault(first) {
        Answer::NoLedger
    } else {
        take_one(alloc, disk, source, &mut at)
    };
    let left = count(alloc, disk);
    Taken {
        first,
        second,
        left,
    }
}

// Makes an archive on a disk of which this call fails, and takes two frames; none where memory runs out.
fn take_failing(alloc: Global, call: u64) -> Option<Taken> {
    let inner = SureDisk::new(alloc, 4, 1024, 512).ok()?;
    let mut disk = FailDisk::new(alloc, inner, &[call]).ok()?;
    let mut source = MemSource::new(alloc, LONGER, &[]).ok()?;
    let _made = create_ledger(&mut disk, &WIDE);
    Some(take_two(alloc, &mut disk, &mut source))
}

// Whether the disk is at fault at the frame that takes the call that fails, and those objects are there that are stored by then.
fn is_fault_at(alloc: Global, call: u64, calls: [u64; 3]) -> bool {
    match take_failing(alloc, call) {
        Some(
            Taken {
                first,
                second,
                left,
            },
        ) => {
            let is_fault = if call <= calls[1] {
                is_disk_fault(first)
            } else {
                first == A && is_disk_fault(second)
            };
            // an object is there where the last sync of its commit alone failed
            is_fault && left == Some(stands_after(call, calls))
        }
        None => false,
    }
}

// Whether both frames are stored where the call that fails comes after all of theirs.
fn are_stored(alloc: Global, call: u64) -> bool {
    match take_failing(alloc, call) {
        Some(taken) => taken.first == A && taken.second == LONG_B,
        None => false,
    }
}

// The first call, from when the archive is made on, whose failure ends otherwise than it should; or one past the last, if the
// objects are not stored where that fails.
fn first_wrong_call(alloc: Global, calls: [u64; 3]) -> Option<u64> {
    let [made, _first, second] = calls;
    for past in made..second {
        let call = past.saturating_add(1);
        if !is_fault_at(alloc, call, calls) {
            return Some(call);
        }
    }
    let after = second.saturating_add(9);
    (!are_stored(alloc, after)).then_some(after)
}

#[test]
fn each_call_of_the_disk_fails(rt: HostRuntime) -> Result<(), Fail> {
    let Kept { disk: _, calls } = store_two(rt.alloc()).ok_or("not stored")?;
    let wrong = first_wrong_call(rt.alloc(), calls);
    assert!(rt; wrong == None, "call {wrong:?}");
    Ok(())
}
