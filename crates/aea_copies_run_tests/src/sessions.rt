//! Sessions over an archive whose ledger has copies.

use crate::archives::{LISTED, archive, ends};
use crate::harms::remove_both;
use aea_cli::Status;
use aea_disk::{Disk, FailDisk, SureDisk};
use aea_runs::{Left, run_input, run_over};
use std::alloc::Global;
use std::test::Fail;

// Messages that begin an upload, add the bytes `abc` to it and close it: of the object `b`, and then of `c`.
fn stream() -> &'static [u8] {
    b"\x01\0\0\x01b\x02\0\0\0\0\x03abc\x03\0\x01\x01\0\x01c\x02\x01\0\0\0\x03abc\x03\x01"
}

// How many bytes of replies each of the two uploads has.
const REPLIES: usize = 50;

// What `list` prints after neither, one and both of them.
fn lists() -> [&'static str; 3] {
    [
        LISTED,
        "3 ba7816bf8f01cfea414140de5dae2223b00361a396177a9cb410ff61f20015ad a\n\
            3 ba7816bf8f01cfea414140de5dae2223b00361a396177a9cb410ff61f20015ad b\n",
        "3 ba7816bf8f01cfea414140de5dae2223b00361a396177a9cb410ff61f20015ad a\n\
            3 ba7816bf8f01cfea414140de5dae2223b00361a396177a9cb410ff61f20015ad b\n\
            3 ba7816bf8f01cfea414140de5dae2223b00361a396177a9cb410ff61f20015ad c\n",
    ]
}

// The archive with the object `a`, whose limit was raised, with copies where this is said.
fn raised(alloc: Global, has_copies: bool) -> Option<SureDisk> {
    let mut disk = archive(alloc, has_copies)?;
    let is_run = run_over(alloc, "upgrade", &mut disk, 99).is_ok();
    is_run.then_some(disk)
}

// Whether this is listed where one copy alone is left, either of them, and then where the ledger alone is.
fn is_kept_by_each<D: Disk>(alloc: Global, disk: &mut D, listed: &str) -> bool {
    let mut is_kept = true;
    for removed in [[0u8, 65], [0, 66], [65, 66]] {
        is_kept = is_kept
            && remove_both(disk, removed)
            && ends(alloc, disk, "list", (Status::Done, listed, ""));
    }
    is_kept
}

// What `list`, which left this, printed, if that is the objects of so many uploads or of more.
fn list_of(found: &Left, least: usize) -> Option<&'static str> {
    let mut printed = None;
    for (count, listed) in lists().iter().enumerate() {
        if least <= count && found.is(Status::Done, listed, "") {
            printed = Some(*listed);
        }
    }
    printed
}

// Whether the objects of so many uploads or of more are there, and each of the three files alone keeps them.
fn has_uploads<D: Disk>(alloc: Global, disk: &mut D, least: usize) -> bool {
    let listed = match run_over(alloc, "list", disk, 999) {
        Ok(found) => list_of(&found, least),
        Err(_) => None,
    };
    match listed {
        Some(listed) => is_kept_by_each(alloc, disk, listed),
        None => false,
    }
}

// Whether a session whose disk failed says so, and gave a first part of the replies.
fn is_revealed(left: &Left, replies: &[u8]) -> bool {
    left.status == Status::Disk
        && left.err.bytes() == b"fault: disk\n".as_slice()
        && replies.starts_with(left.out.bytes())
}

// What the session over the archive without copies leaves.
fn plain_session(alloc: Global) -> Option<Left> {
    let mut disk = raised(alloc, false)?;
    run_input(alloc, "session", &mut disk, stream()).ok()
}

// Whether both sessions are done, with the same replies, all of them, and leave as much of the input.
fn are_same(left: &Left, plain: &Left) -> bool {
    plain.status == Status::Done
        && left.status == Status::Done
        && left.out.bytes() == plain.out.bytes()
        && left.unread == plain.unread
        && left.out.bytes().len() == 2 * REPLIES
}

// Whether the session over this disk ends as this one, the one without copies.
fn ends_as<D: Disk>(alloc: Global, disk: &mut D, plain: &Left) -> bool {
    match run_input(alloc, "session", disk, stream()) {
        Ok(left) => are_same(&left, plain),
        Err(_) => false,
    }
}

// Whether a session over copies ends as this one, the one without, and its objects are kept.
fn is_as(alloc: Global, plain: &Left) -> bool {
    match raised(alloc, true) {
        Some(mut disk) => ends_as(alloc, &mut disk, plain) && has_uploads(alloc, &mut disk, 2),
        None => false,
    }
}

// The same of the session over the archive without copies.
fn is_as_without(alloc: Global) -> bool {
    match plain_session(alloc) {
        Some(plain) => is_as(alloc, &plain),
        None => false,
    }
}

#[test]
fn a_session_over_copies_ends_as_without(rt: HostRuntime) -> Result<(), Fail> {
    assert!(rt; is_as_without(rt.alloc()));
    Ok(())
}

// More calls than such a session makes, and fewer.
const MANY: u64 = 600;

const FEW: u64 = 20;

// Whether the session that left this over a disk that failed bears the fault as it should, when an upload whose close was replied
// to is there; none where it is whole.
fn bears<D: Disk>(alloc: Global, disk: &mut D, left: &Left, replies: &[u8]) -> Option<bool> {
    if left.status == Status::Done {
        None
    } else {
        let closed = left.out.bytes().len() / REPLIES;
        Some(is_revealed(left, replies) && has_uploads(alloc, disk, closed))
    }
}

// The same of the session over this disk.
fn bears_over<D: Disk>(alloc: Global, disk: &mut D, replies: &[u8]) -> Option<bool> {
    match run_input(alloc, "session", disk, stream()) {
        Ok(left) => bears(alloc, disk, &left, replies),
        Err(_) => Some(false),
    }
}

// The archive with copies, on a disk whose call of this number fails.
fn failing(alloc: Global, call: u64) -> Option<FailDisk<SureDisk>> {
    FailDisk::new(alloc, raised(alloc, true)?, &[call]).ok()
}

// Whether such a session over a disk whose call of this number fails ends as it should; none where no call fails.
fn bears_fault(alloc: Global, call: u64, replies: &[u8]) -> Option<bool> {
    match failing(alloc, call) {
        Some(mut disk) => bears_over(alloc, &mut disk, replies),
        None => Some(false),
    }
}

// Whether the session bears each call's fault, up to one with which it is whole, and that is not too early. Its replies are a first
// part of these.
fn bears_each_fault(alloc: Global, replies: &[u8]) -> bool {
    let mut ended = (MANY, Some(false));
    for call in 1..MANY {
        ended = (call, bears_fault(alloc, call, replies));
        if ended.1 != Some(true) {
            break;
        }
    }
    FEW <= ended.0 && ended.1 == None
}

// The same with the replies of the session over the archive without copies.
fn bears_faults(alloc: Global) -> bool {
    match plain_session(alloc) {
        Some(plain) => bears_each_fault(alloc, plain.out.bytes()),
        None => false,
    }
}

#[test]
fn a_session_over_copies_ends_with_each_fault(rt: HostRuntime) -> Result<(), Fail> {
    assert!(rt; bears_faults(rt.alloc()));
    Ok(())
}
