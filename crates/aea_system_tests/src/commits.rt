//! A file with a gate, over disks that fail, and over the images of a stop.

mod gate;

use aea_disk::{Disk, DiskFault, FailDisk, Loss, MemDisk, SureDisk};
use gate::{begin, commit, write_apart};
use std::alloc::Global;

// Begins a file with a gate, and commits a body.
fn begin_and_commit<D: Disk>(disk: &mut D) -> Result<(), DiskFault> {
    begin(disk)?;
    commit(disk, 0, &[7, 8, 0])
}

// A disk with a committed body, after six calls.
fn committed(alloc: Global) -> Option<MemDisk> {
    let mut disk = MemDisk::new(alloc, 1, 100, 100, 20, 100).ok()?;
    let is_right = begin_and_commit(&mut disk).is_ok() && disk.calls() == 6;
    is_right.then_some(disk)
}

// Whether the ledger after a crash has the old bytes, or the new ones after an open gate.
fn is_old_or_new(disk: &mut SureDisk) -> bool {
    let mut bytes = [9u8; 4];
    match disk.read(0, 0, &mut bytes) {
        Ok(count) => count >= 1 && (bytes[0] != 1 || bytes == [1, 7, 8, 0]),
        Err(_) => false,
    }
}

// The number of the first call after which a stop leaves something else.
fn first_wrong(alloc: Global, disk: &MemDisk) -> Option<u64> {
    let mut wrong = None;
    for after in 2..=disk.calls() {
        for loss in [Loss::Kept, Loss::Dropped, Loss::Ones, Loss::Zeros] {
            let is_right = match disk.image(alloc, after, loss) {
                Ok(mut left) => is_old_or_new(&mut left),
                Err(_) => false,
            };
            wrong = wrong.or((!is_right).then_some(after));
        }
    }
    wrong
}

#[test]
fn stopped_after_each_call(rt: HostRuntime) {
    let alloc = rt.alloc();
    let wrong = committed(alloc).map(|disk| first_wrong(alloc, &disk));
    assert!(rt; wrong == Some(None), "after {wrong:?}");
}

// Whether a disk that fails at its call of this number fails at the step that makes the call, and what can be read then is what was
// written before.
fn fails_at<D: Disk>(disk: &mut D, k: u64) -> bool {
    let want = match k {
        3 => Ok(1),
        7 => Err(DiskFault),
        _ => Ok(4),
    };
    match begin(disk) {
        Ok(()) => {
            2 < k && commit(disk, 0, &[7, 8, 0]).is_err() == (k <= 6) && disk.len(0) == want
        }
        Err(_) => k <= 2,
    }
}

// A disk that fails at its call of this number.
fn failing(alloc: Global, k: u64) -> Option<FailDisk<SureDisk>> {
    let inner = SureDisk::new(alloc, 1, 100, 100).ok()?;
    FailDisk::new(alloc, inner, &[k]).ok()
}

#[test]
fn failing_at_each_call(rt: HostRuntime) {
    for k in 1..=8u64 {
        let is_right = match failing(rt.alloc(), k) {
            Some(mut disk) => fails_at(&mut disk, k),
            None => false,
        };
        assert!(rt; is_right, "call {k}");
    }
}

// A disk with bytes that are kept, and others that are pending, after three calls.
fn pending(alloc: Global) -> Option<MemDisk> {
    let mut disk = MemDisk::new(alloc, 1, 10, 10, 10, 10).ok()?;
    let is_right = write_apart(&mut disk, 1, 0, b"abc").is_ok()
        && disk.write(1, 5, b"XY") == Ok(())
        && disk.calls() == 3;
    is_right.then_some(disk)
}

// Whether the file has these bytes.
fn has_bytes(disk: &mut SureDisk, want: &[u8]) -> bool {
    let mut buf = [9u8; 10];
    disk.read(1, 0, &mut buf) == Ok(want.len()) && buf.starts_with(want)
}

// The first loss of what is pending at the end that leaves other bytes.
fn wrong_loss(alloc: Global, disk: &MemDisk) -> Option<Loss> {
    let mut wrong = None;
    for (loss, want) in [
        (Loss::Kept, &b"abc\0\0XY"[..]),
        (Loss::Dropped, b"abc"),
        (Loss::Ones, b"abc\x01\x01\x01\x01"),
        (Loss::Zeros, b"abc\0\0\0\0"),
    ] {
        let is_right = match disk.image(alloc, disk.calls(), loss) {
            Ok(mut left) => has_bytes(&mut left, want),
            Err(_) => false,
        };
        wrong = wrong.or((!is_right).then_some(loss));
    }
    wrong
}

#[test]
fn loses_what_is_pending(rt: HostRuntime) {
    let alloc = rt.alloc();
    let wrong = pending(alloc).map(|disk| wrong_loss(alloc, &disk));
    assert!(rt; wrong == Some(None), "{wrong:?}");
}
