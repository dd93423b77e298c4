//! Worked examples.

use crate::archives::{WITH_A, contents, listed, make, raised};
use crate::sessions::{Ended, replies, replies_again, serves, stream};
use aea_disk::{MemDisk, SureDisk};
use aea_ledger::create_ledger;
use aea_session::{BeginFault, Stop};
use aea_test_helpers::SMALL;
use std::alloc::Global;
use std::test::Fail;

// Whether the example is served with these replies, and leaves the object `a`.
fn leaves_a(alloc: Global, disk: &mut MemDisk, wanted: &[u8]) -> bool {
    serves(alloc, disk, stream(), Ended::Done, wanted) && contents(alloc, disk) == WITH_A
}

// The first step that goes wrong where an archive is made on this disk, and the example is served twice.
fn first_wrong_step(alloc: Global, disk: &mut MemDisk) -> Option<&'static str> {
    let steps = [
        ("make", make(alloc, disk)),
        ("first", leaves_a(alloc, disk, replies())),
        ("again", leaves_a(alloc, disk, replies_again())),
    ];
    steps.iter().find(|step| !step.1).map(|step| step.0)
}

// The same of a new disk.
fn wrong_step(alloc: Global) -> Option<&'static str> {
    match listed(alloc) {
        Ok(mut disk) => first_wrong_step(alloc, &mut disk),
        Err(_) => Some("no memory"),
    }
}

#[test]
fn the_first_example(rt: HostRuntime) -> Result<(), Fail> {
    let wrong = wrong_step(rt.alloc());
    assert!(rt; wrong.is_none(), "{wrong:?}");
    Ok(())
}

// Sessions over an archive, each with how it ends, and its replies.
fn sessions() -> [(&'static [u8], Ended, &'static [u8]); 7] {
    [
        // refusals, and then what begins no message
        (
            b"\x01\0\0\x01a\x01\0\0\x01b\x02\x03\0\0\0\0\x01\x10\0\x01c\x07",
            Ended::Stopped(Stop::BadMessage { at: 21 }),
            b"\x01\0\x01\x02\x02\x03\x01\x01",
        ),
        // the same, and then a message that is cut
        (
            b"\x01\0\0\x01a\x01\0\0\x01b\x02\x03\0\0\0\0\x01\x10\0\x01c\x03",
            Ended::Stopped(Stop::BadStream { at: 22 }),
            b"\x01\0\x01\x02\x02\x03\x01\x01",
        ),
        // no message
        (b"", Ended::Done, b""),
        // the first example
        (stream(), Ended::Done, replies()),
        // a name that is taken, one that is not known, and a range that is too long
        (
            b"\x01\0\0\x01a\x05\0\x01b\x06\0\0\0\0\0\0\0\x05",
            Ended::Done,
            b"\x01\x05\x05\x09\x06\x0b",
        ),
        // an object of no byte, and a name that another slot has
        (
            b"\x01\x0f\0\x01e\x01\x02\0\x01e\x03\x0f\x05\0\x01e",
            Ended::Done,
            b"\x01\0\x01\x06\x03\0\0\0\0\0\0\0\0\0\0\0\0\0\
\xe3\xb0\xc4\x42\x98\xfc\x1c\x14\x9a\xfb\xf4\xc8\x99\x6f\xb9\x24\
\x27\xae\x41\xe4\x64\x9b\x93\x4c\xa4\x95\x99\x1b\x78\x52\xb8\x55\
\x05\0\0\0\0\0\0\0\0\0",
        ),
        // names that are none, a free slot, and empty ranges
        (
            b"\x01\0\0\0\x01\0\0\x01\x7f\x04\x07\x06\0\0\0\0\0\0\0\0\x06\0\0\0\x04\0\0\0\x01",
            Ended::Done,
            b"\x01\x04\x01\x04\x04\x03\x06\x0b\x06\x0b",
        ),
    ]
}

// The number of the first of these sessions that ends otherwise, none where there is none.
fn first_unlike(alloc: Global, disk: &mut SureDisk) -> Option<usize> {
    let rows = sessions();
    for (case, row) in rows.iter().enumerate() {
        let (bytes, ended, wanted) = *row;
        if !serves(alloc, disk, bytes, ended, wanted) {
            return Some(case);
        }
    }
    None
}

// The same over a new archive; 99 where it is not made.
fn unlike_session(alloc: Global) -> Option<usize> {
    match raised(alloc) {
        Some(mut disk) => first_unlike(alloc, &mut disk),
        None => Some(99),
    }
}

#[test]
fn sessions_one_after_the_other(rt: HostRuntime) -> Result<(), Fail> {
    let unlike = unlike_session(rt.alloc());
    assert!(rt; unlike.is_none(), "{unlike:?}");
    Ok(())
}

// Whether an archive is made on this disk, and begins no session, since it was not raised.
fn begins_none(alloc: Global, disk: &mut SureDisk) -> bool {
    let ended = Ended::NotBegun(BeginFault::NotUpgraded);
    create_ledger(disk, &SMALL).is_ok() && serves(alloc, disk, stream(), ended, &[])
}

// The same of a new disk.
fn is_not_begun(alloc: Global) -> bool {
    match SureDisk::new(alloc, 1, 4096, 1024) {
        Ok(mut disk) => begins_none(alloc, &mut disk),
        Err(_) => false,
    }
}

#[test]
fn an_archive_that_was_not_raised(rt: HostRuntime) -> Result<(), Fail> {
    assert!(rt; is_not_begun(rt.alloc()));
    Ok(())
}
