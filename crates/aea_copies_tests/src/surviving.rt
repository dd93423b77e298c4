//! Records that are added over a disk that keeps two copies up, with a stop after each call and each loss, and with each call
//! failing.

use crate::adding::{FENCED, RAISED, adds_over, adds_two, is_opened};
use crate::example::{example_copy, fenced, ledger};
use crate::stops::LOSSES;
use crate::three::{Answer, EXAMPLE, adopts, failing_disk, listed_disk, set, whole};
use aea_disk::{Disk, FailDisk, Loss, MemDisk, SureDisk};
use std::alloc::Global;
use std::test::Fail;

// Whether this disk is adopted with the new text, or with the text of before where that is said, and is opened then.
fn is_old_or_new<D: Disk>(alloc: Global, disk: &mut D, may_be_old: bool, new: Answer) -> bool {
    let found = adopts(disk);
    (found == new || may_be_old && found == EXAMPLE) && is_opened(alloc, disk)
}

// Whether what is left of a stop, with one of the three files taken away, is adopted with the text of before or the new one; only
// the new one at the end.
fn survives(alloc: Global, disk: &MemDisk, after: u64, loss: Loss, file: u8, new: Answer) -> bool {
    let calls = disk.calls();
    if calls < after {
        return false;
    }
    match disk.image(alloc, after, loss) {
        Ok(mut left) => {
            set(&mut left, file, b"") && is_old_or_new(alloc, &mut left, after < calls, new)
        }
        Err(_) => false,
    }
}

// Whether this is so of each loss, whichever file is taken away.
fn survives_stop(alloc: Global, disk: &MemDisk, after: u64, new: Answer) -> bool {
    let mut survives_all = true;
    for loss in LOSSES {
        for file in [0u8, 65, 66] {
            survives_all = survives_all && survives(alloc, disk, after, loss, file, new);
        }
    }
    survives_all
}

// Whether this is so after each call, from so many on.
fn survives_stops(alloc: Global, disk: &MemDisk, begun: u64, new: Answer) -> bool {
    let mut survives_all = true;
    for after in begun..=disk.calls() {
        survives_all = survives_all && survives_stop(alloc, disk, after, new);
    }
    survives_all
}

// A disk that lists its calls, with the example and its copies.
fn listed(alloc: Global) -> Option<MemDisk> {
    let copy = example_copy(alloc)?;
    listed_disk(alloc, &whole(&ledger(), copy.as_slice()))
}

// Whether a fence is added to the example, and survives a stop after each call.
fn fence_survives(alloc: Global) -> bool {
    match listed(alloc) {
        Some(mut disk) => {
            let begun = disk.calls();
            adds_over(alloc, &mut disk, false) && survives_stops(alloc, &disk, begun, FENCED)
        }
        None => false,
    }
}

#[test]
fn a_record_survives_each_stop_and_loss(rt: HostRuntime) -> Result<(), Fail> {
    assert!(rt; fence_survives(rt.alloc()));
    Ok(())
}

// Whether both records are added to the example, and survive a stop after each call.
fn two_survive(alloc: Global) -> bool {
    match listed(alloc) {
        Some(mut disk) => {
            let begun = disk.calls();
            adds_two(alloc, &mut disk) && survives_stops(alloc, &disk, begun, RAISED)
        }
        None => false,
    }
}

#[test]
fn two_records_are_copied_at_once(rt: HostRuntime) -> Result<(), Fail> {
    assert!(rt; two_survive(rt.alloc()));
    Ok(())
}

// With a call of this disk failing while a record is added: whether the next adoption finds the old text or the new one, and the
// ledger is opened. None where the record is added.
fn bears<D: Disk>(alloc: Global, disk: &mut D) -> Option<bool> {
    if adds_over(alloc, disk, false) {
        None
    } else {
        Some(is_old_or_new(alloc, disk, true, FENCED))
    }
}

// A disk with the example and its copies whose call of this number fails.
fn failing(alloc: Global, call: u64) -> Option<FailDisk<SureDisk>> {
    let copy = example_copy(alloc)?;
    failing_disk(alloc, &whole(&ledger(), copy.as_slice()), call)
}

// Whether a disk whose call of this number fails bears that; none where no call fails.
fn bears_fault(alloc: Global, call: u64) -> Option<bool> {
    match failing(alloc, call) {
        Some(mut disk) => bears(alloc, &mut disk),
        None => Some(false),
    }
}

// Whether this is so of each call, until no call fails.
fn fails_and_stays(alloc: Global) -> bool {
    let mut ended = (0, Some(false));
    for call in 1..400u64 {
        ended = (call, bears_fault(alloc, call));
        if ended.1 != Some(true) {
            break;
        }
    }
    ended.1 == None && ended.0 > 20
}

// Whether the example with a fence more is as long as it should be.
fn is_fenced(alloc: Global) -> bool {
    match fenced(alloc) {
        Some(text) => text.len() == 213,
        None => false,
    }
}

#[test]
fn each_call_of_a_commit_may_fail(rt: HostRuntime) -> Result<(), Fail> {
    assert!(rt; fails_and_stays(rt.alloc()) && is_fenced(rt.alloc()));
    Ok(())
}
