//! Copies that are begun, with a stop after each call and each loss, and with each call failing.

use crate::example::{example_copy, ledger};
use crate::stops::LOSSES;
use crate::three::{
    Answer, EXAMPLE, Three, adopts, disk_of, failing_disk, has, has_all, has_example, listed_disk,
    whole,
};
use aea_adopt::adopt;
use aea_disk::{Disk, DiskFault, Loss, MemDisk};
use aea_mirror::{Mirror, StartFault};
use std::alloc::Global;
use std::test::Fail;

// What beginning the copies of a disk answers, once they were adopted; none where they were not.
fn starts<D: Disk>(disk: &mut D) -> Option<Result<(), StartFault>> {
    match adopt(disk) {
        Ok(adopted) => Some(Mirror::new(disk, adopted).start()),
        Err(_) => None,
    }
}

// The example's ledger without copies.
fn alone(ledger: &[u8]) -> Three {
    whole(ledger, b"")
}

// Begins the example's copies, and once more. It says whether they are whole, and the second time are on already.
fn starts_once(alloc: Global) -> bool {
    match disk_of(alloc, &alone(&ledger())) {
        Some(mut disk) => {
            starts(&mut disk) == Some(Ok(()))
                && has_example(alloc, &mut disk)
                && starts(&mut disk) == Some(Err(StartFault::AlreadyOn))
                && has_example(alloc, &mut disk)
        }
        None => false,
    }
}

#[test]
fn copies_are_begun_once(rt: HostRuntime) -> Result<(), Fail> {
    assert!(rt; starts_once(rt.alloc()));
    Ok(())
}

// Whether this disk has the example's ledger and no copy, or is adopted as the example.
fn is_old_or_whole<D: Disk>(alloc: Global, disk: &mut D) -> bool {
    has(disk, 0, &ledger())
        && match adopts(disk) {
            Answer::Off => has(disk, 0, &ledger()),
            EXAMPLE => has_example(alloc, disk),
            _ => false,
        }
}

// Whether this is so of what a stop leaves.
fn is_image_right(alloc: Global, disk: &MemDisk, after: u64, loss: Loss) -> bool {
    if disk.calls() < after {
        return false;
    }
    match disk.image(alloc, after, loss) {
        Ok(mut left) => is_old_or_whole(alloc, &mut left),
        Err(_) => false,
    }
}

// Whether this is so of each stop, from so many calls on, and each loss.
fn are_images_right(alloc: Global, disk: &MemDisk, begun: u64) -> bool {
    let mut are_right = true;
    for after in begun..=disk.calls() {
        for loss in LOSSES {
            are_right = are_right && is_image_right(alloc, disk, after, loss);
        }
    }
    are_right
}

// Whether copies are begun, and this is so of each of their calls.
fn survives_each_stop(alloc: Global) -> bool {
    match listed_disk(alloc, &alone(&ledger())) {
        Some(mut disk) => {
            let begun = disk.calls();
            starts(&mut disk) == Some(Ok(())) && are_images_right(alloc, &disk, begun)
        }
        None => false,
    }
}

#[test]
fn each_stop_leaves_no_copy_or_whole_ones(rt: HostRuntime) -> Result<(), Fail> {
    assert!(rt; survives_each_stop(rt.alloc()));
    Ok(())
}

// Whether the copies of a disk are begun, or are on already, and the example's files are there then.
fn is_whole_at_last<D: Disk>(alloc: Global, disk: &mut D) -> bool {
    let again = starts(disk);
    let is_on = again == Some(Ok(())) || again == Some(Err(StartFault::AlreadyOn));
    is_on && has_example(alloc, disk)
}

// Whether beginning the copies of this disk, one of whose calls fails, answers that, and the next time they are whole; none where
// it makes fewer calls.
fn bears<D: Disk>(alloc: Global, disk: &mut D) -> Option<bool> {
    match starts(disk) {
        Some(Ok(())) => None,
        None | Some(Err(StartFault::DiskFault)) => Some(is_whole_at_last(alloc, disk)),
        Some(Err(StartFault::AlreadyOn)) => Some(false),
    }
}

// The same of a disk whose call of this number fails.
fn bears_fault(alloc: Global, call: u64) -> Option<bool> {
    match failing_disk(alloc, &alone(&ledger()), call) {
        Some(mut disk) => bears(alloc, &mut disk),
        None => Some(false),
    }
}

// Whether this is so of each call, until beginning copies makes fewer calls.
fn fails_and_starts(alloc: Global) -> bool {
    let mut ended = (0, Some(false));
    for call in 1..400u64 {
        ended = (call, bears_fault(alloc, call));
        if ended.1 != Some(true) {
            break;
        }
    }
    ended.1 == None && ended.0 > 20
}

#[test]
fn each_call_may_fail(rt: HostRuntime) -> Result<(), Fail> {
    assert!(rt; fails_and_starts(rt.alloc()));
    Ok(())
}

// Whether a Mirror refuses to write, to cut, to sync and to begin copies, and reads the ledger.
fn is_dead<D: Disk>(mirror: &mut Mirror<D>) -> bool {
    let calls = [
        mirror.write(1, 0, b"x"),
        mirror.write(0, 203, b""),
        mirror.cut(1, 0),
        mirror.sync(),
    ];
    calls == [Err(DiskFault); 4]
        && mirror.start() == Err(StartFault::DiskFault)
        && has(mirror, 0, &ledger())
}

// Whether a Mirror is dead after a fault of beginning copies; none where there is no fault.
fn is_dead_after<D: Disk>(mirror: &mut Mirror<D>) -> Option<bool> {
    match mirror.start() {
        Ok(()) => None,
        Err(_) => Some(is_dead(mirror)),
    }
}

// The same of a Mirror of this disk; yes where its copies are not adopted.
fn is_ended<D: Disk>(disk: &mut D) -> Option<bool> {
    match adopt(disk) {
        Ok(adopted) => is_dead_after(&mut Mirror::new(disk, adopted)),
        Err(_) => Some(true),
    }
}

// The same of a disk whose call of this number fails.
fn is_ended_at(alloc: Global, call: u64) -> Option<bool> {
    match failing_disk(alloc, &alone(&ledger()), call) {
        Some(mut disk) => is_ended(&mut disk),
        None => Some(false),
    }
}

// Whether a Mirror is dead after a fault of beginning copies, with each call failing.
fn dies(alloc: Global) -> bool {
    let mut ended = (0, Some(false));
    for call in 2..400u64 {
        ended = (call, is_ended_at(alloc, call));
        if ended.1 != Some(true) {
            break;
        }
    }
    ended.1 == None && ended.0 > 20
}

#[test]
fn a_fault_ends_a_mirror(rt: HostRuntime) -> Result<(), Fail> {
    assert!(rt; dies(rt.alloc()));
    Ok(())
}

// Whether beginning copies of such a ledger, which is none, is a fault and leaves all.
fn leaves_all(alloc: Global, ledger: &[u8]) -> bool {
    match disk_of(alloc, &alone(ledger)) {
        Some(mut disk) => {
            starts(&mut disk) == Some(Err(StartFault::DiskFault))
                && has_all(&mut disk, &alone(ledger))
        }
        None => false,
    }
}

// Whether this is so of no bytes, of a closed gate, and of the example's ledger that is cut.
fn leaves_each(alloc: Global) -> bool {
    let text = ledger();
    [b"".as_slice(), b"\0AEALEDG1", &text[..100], &text[..202]]
        .iter()
        .all(|ledger| leaves_all(alloc, ledger))
}

// Whether the example's copy is as long as it should be.
fn is_example_long(alloc: Global) -> bool {
    match example_copy(alloc) {
        Some(copy) => copy.len() == 286,
        None => false,
    }
}

#[test]
fn no_copies_are_begun_of_no_ledger(rt: HostRuntime) -> Result<(), Fail> {
    assert!(rt; leaves_each(rt.alloc()) && is_example_long(rt.alloc()));
    Ok(())
}
