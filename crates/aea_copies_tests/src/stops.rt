//! Copies that are adopted, with a stop after each call and each loss, and with each call failing.

use crate::example::{closed, copy_of, example_copy, fenced, ledger};
use crate::joining::joined;
use crate::plain::part;
use crate::three::{Answer, EXAMPLE, Three, adopts, failing_disk, has_all, listed_disk, whole};
use aea_disk::{Disk, Loss, MemDisk};
use std::alloc::Global;
use std::test::Fail;

/// What may be lost in a stop.
pub const LOSSES: [Loss; 4] = [Loss::Kept, Loss::Dropped, Loss::Ones, Loss::Zeros];

// The files from which adopting begins, by a number: the ledger is missing (0); it is damaged (1); it has a record more (2); a copy
// is missing (3, 4); one is bad (5), or has less text (6); or the ledger is missing, and the second copy has less text (7), or the
// first is missing (8). Here the ledger.
fn damaged_ledger(alloc: Global, kind: u64) -> Option<Vec<u8>> {
    let text = ledger();
    match kind {
        0 | 7 | 8 => joined(alloc, &[]),
        1 => joined(alloc, &[part(&text, 0, 100)]),
        2 => fenced(alloc),
        _ => joined(alloc, &[text.as_slice()]),
    }
}

// Their first copy.
fn damaged_first(alloc: Global, kind: u64) -> Option<Vec<u8>> {
    let mut copy = example_copy(alloc)?;
    match kind {
        3 | 8 => copy.truncate(0),
        5 => copy.truncate(200),
        _ => {}
    }
    Some(copy)
}

// Their second copy.
fn damaged_second(alloc: Global, kind: u64) -> Option<Vec<u8>> {
    match kind {
        4 => joined(alloc, &[]),
        6 | 7 => copy_of(alloc, &ledger(), &[17]),
        _ => example_copy(alloc),
    }
}

// What adopting leaves of the ledger of such files. A ledger that has a record more keeps what is behind its gate.
fn mended(alloc: Global, kind: u64) -> Option<Vec<u8>> {
    if kind == 2 {
        closed(alloc)
    } else {
        joined(alloc, &[ledger().as_slice()])
    }
}

// All three files; and what adopting leaves of the ledger, and of either copy.
#[derive(Drop)]
struct Case {
    ledger: Vec<u8>,
    first: Vec<u8>,
    second: Vec<u8>,
    mended: Vec<u8>,
    copy: Vec<u8>,
}

impl Case {
    // The files from which adopting begins.
    fn old(&self) -> Three {
        Three {
            ledger: self.ledger.as_slice(),
            first: self.first.as_slice(),
            second: self.second.as_slice(),
        }
    }

    // The files that it leaves.
    fn want(&self) -> Three {
        whole(self.mended.as_slice(), self.copy.as_slice())
    }
}

// The case of this kind.
fn case_of(alloc: Global, kind: u64) -> Option<Case> {
    Some(Case {
        ledger: damaged_ledger(alloc, kind)?,
        first: damaged_first(alloc, kind)?,
        second: damaged_second(alloc, kind)?,
        mended: mended(alloc, kind)?,
        copy: example_copy(alloc)?,
    })
}

// How many kinds there are.
const KINDS: u64 = 9;

// Whether a disk is adopted as the example, and has these files then.
fn becomes<D: Disk>(disk: &mut D, want: &Three) -> bool {
    adopts(disk) == EXAMPLE && has_all(disk, want)
}

// Whether this is so of what a stop leaves.
fn is_mended(alloc: Global, disk: &MemDisk, after: u64, loss: Loss, want: &Three) -> bool {
    if disk.calls() < after {
        return false;
    }
    match disk.image(alloc, after, loss) {
        Ok(mut left) => becomes(&mut left, want),
        Err(_) => false,
    }
}

// Whether this is so of each stop, from so many calls on, and each loss.
fn are_stops_mended(alloc: Global, disk: &MemDisk, begun: u64, want: &Three) -> bool {
    let mut are_mended = true;
    for after in begun..=disk.calls() {
        for loss in LOSSES {
            are_mended = are_mended && is_mended(alloc, disk, after, loss, want);
        }
    }
    are_mended
}

// Whether these files are adopted, and mended after a stop at each call.
fn survives_each_stop(alloc: Global, old: &Three, want: &Three) -> bool {
    match listed_disk(alloc, old) {
        Some(mut disk) => {
            let begun = disk.calls();
            becomes(&mut disk, want) && are_stops_mended(alloc, &disk, begun, want)
        }
        None => false,
    }
}

// The same of the files of this kind.
fn kind_survives(alloc: Global, kind: u64) -> bool {
    match case_of(alloc, kind) {
        Some(case) => survives_each_stop(alloc, &case.old(), &case.want()),
        None => false,
    }
}

#[test]
fn each_stop_is_adopted_again(rt: HostRuntime) -> Result<(), Fail> {
    for kind in 0..KINDS {
        assert!(rt; kind_survives(rt.alloc(), kind), "{kind}");
    }
    Ok(())
}

// Whether adopting this disk, one of whose calls fails, answers that, and the next time mends all; none where it makes fewer calls.
fn bears<D: Disk>(disk: &mut D, want: &Three) -> Option<bool> {
    match adopts(disk) {
        EXAMPLE => None,
        Answer::Fault => Some(becomes(disk, want)),
        _ => Some(false),
    }
}

// The same with this call of the disk failing.
fn bears_fault(alloc: Global, old: &Three, want: &Three, call: u64) -> Option<bool> {
    match failing_disk(alloc, old, call) {
        Some(mut disk) => bears(&mut disk, want),
        None => Some(false),
    }
}

// Whether this is so of each call, until adopting makes fewer calls, and of more than one: adopting looks at the files at least.
fn fails_and_mends(alloc: Global, old: &Three, want: &Three) -> bool {
    let mut ended = (0, Some(false));
    for call in 1..400u64 {
        ended = (call, bears_fault(alloc, old, want, call));
        if ended.1 != Some(true) {
            break;
        }
    }
    ended.1 == None && ended.0 > 1
}

// The same of the files of this kind.
fn kind_fails_and_mends(alloc: Global, kind: u64) -> bool {
    match case_of(alloc, kind) {
        Some(case) => fails_and_mends(alloc, &case.old(), &case.want()),
        None => false,
    }
}

#[test]
fn each_call_may_fail(rt: HostRuntime) -> Result<(), Fail> {
    for kind in 0..KINDS {
        assert!(rt; kind_fails_and_mends(rt.alloc(), kind), "{kind}");
    }
    Ok(())
}
