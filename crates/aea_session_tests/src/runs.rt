//! Whole runs of `session`.

use crate::sessions::{ends, replies, replies_again, reply_ends, stream};
use aea_cli::Status;
use aea_disk::{Disk, SureDisk};
use aea_runs::{Ended, Faults, NONE, run_failing, run_input, run_over, run_slowly, run_words};
use std::alloc::Global;
use std::test::Fail;

// The line that makes an archive of AE(1) with blocks of 16 bytes on one site.
const CREATE: &str = "create 1 1 0 16 1";

// Whether the command of a line is done.
fn is_done<D: Disk>(alloc: Global, disk: &mut D, line: &str) -> bool {
    run_over(alloc, line, disk, 99).is_ok_and(|left| left.status == Status::Done)
}

/// Makes an archive of AE(1) with blocks of 16 bytes on one site, and raises its limit. Says whether it did.
pub fn make_raised<D: Disk>(alloc: Global, disk: &mut D) -> bool {
    is_done(alloc, disk, CREATE) && is_done(alloc, disk, "upgrade")
}

/// A raised archive on a disk that does not fail. None where it is not made.
pub fn raised(alloc: Global) -> Option<SureDisk> {
    let mut disk = SureDisk::new(alloc, 1, 8192, 8192).ok()?;
    make_raised(alloc, &mut disk).then_some(disk)
}

/// Whether a run over these messages ends so, and prints these replies, and this on the errors.
pub fn says<D: Disk>(
    alloc: Global,
    disk: &mut D,
    bytes: &[u8],
    status: Status,
    out: &[u8],
    err: &str,
) -> bool {
    run_input(alloc, "session", disk, bytes).is_ok_and(|left| {
        left.status == status && left.out.bytes() == out && left.err.bytes() == err.as_bytes()
    })
}

// Runs one after the other over an archive that was raised, each with its input, its status, its replies, and its line on the
// errors.
fn runs() -> [(&'static [u8], Status, &'static [u8], &'static str); 5] {
    [
        // the second example
        (
            b"\x01\0\0\x01a\x01\0\0\x01b\x02\x03\0\0\0\0\x01\x10\0\x01c\x07",
            Status::Refused,
            b"\x01\0\x01\x02\x02\x03\x01\x01",
            "refused: bad message at 21\n",
        ),
        (
            b"\x01\0\0\x01a\x01\0\0\x01b\x02\x03\0\0\0\0\x01\x10\0\x01c\x03",
            Status::Refused,
            b"\x01\0\x01\x02\x02\x03\x01\x01",
            "refused: bad stream at 22\n",
        ),
        // the first one
        (stream(), Status::Done, replies(), ""),
        // the third one
        (
            b"\x01\0\0\x01a\x05\0\x01b\x06\0\0\0\0\0\0\0\x05",
            Status::Done,
            b"\x01\x05\x05\x09\x06\x0b",
            "",
        ),
        (b"", Status::Done, b"", ""),
    ]
}

// Whether the archive has the object `a` alone.
fn lists_a(alloc: Global, disk: &mut SureDisk) -> bool {
    let list = "3 ba7816bf8f01cfea414140de5dae2223b00361a396177a9cb410ff61f20015ad a\n";
    run_over(alloc, "list", disk, 999).is_ok_and(|left| left.is(Status::Done, list, ""))
}

// The number of the first of these runs that ends otherwise, that of the run behind the last where the archive then has other
// objects than `a`, and none where all is right.
fn first_unlike(alloc: Global, disk: &mut SureDisk) -> Option<usize> {
    let rows = runs();
    for (case, row) in rows.iter().enumerate() {
        let (bytes, status, out, err) = *row;
        if !says(alloc, disk, bytes, status, out, err) {
            return Some(case);
        }
    }
    (!lists_a(alloc, disk)).then_some(rows.len())
}

// The same over a new archive; 99 where it is not made.
fn unlike_run(alloc: Global) -> Option<usize> {
    match raised(alloc) {
        Some(mut disk) => first_unlike(alloc, &mut disk),
        None => Some(99),
    }
}

#[test]
fn the_examples(rt: HostRuntime) -> Result<(), Fail> {
    let unlike = unlike_run(rt.alloc());
    assert!(rt; unlike.is_none(), "{unlike:?}");
    Ok(())
}

// Whether the session is refused, with this on the errors.
fn is_refused(alloc: Global, disk: &mut SureDisk, err: &str) -> bool {
    says(alloc, disk, stream(), Status::Refused, b"", err)
}

// The first step that goes wrong where the session is refused over this disk, which has no archive, and then an archive that was
// not raised.
fn first_wrong_refusal(alloc: Global, disk: &mut SureDisk) -> Option<&'static str> {
    let steps = [
        ("none", is_refused(alloc, disk, "refused: no archive\n")),
        ("create", is_done(alloc, disk, CREATE)),
        (
            "not raised",
            is_refused(alloc, disk, "refused: not upgraded\n"),
        ),
    ];
    steps.iter().find(|step| !step.1).map(|step| step.0)
}

// The same of a new disk.
fn wrong_refusal(alloc: Global) -> Option<&'static str> {
    match SureDisk::new(alloc, 1, 8192, 8192) {
        Ok(mut disk) => first_wrong_refusal(alloc, &mut disk),
        Err(_) => Some("no memory"),
    }
}

#[test]
fn an_archive_that_was_not_raised_and_none(rt: HostRuntime) -> Result<(), Fail> {
    let wrong = wrong_refusal(rt.alloc());
    assert!(rt; wrong.is_none(), "{wrong:?}");
    Ok(())
}

// How many bytes of replies there are to the messages that end within so many bytes of the stream.
fn given_by(end: usize) -> usize {
    let mut given = 0;
    for (place, long) in ends().iter().zip(reply_ends().iter()) {
        if *place <= end {
            given = *long;
        }
    }
    given
}

// Whether `get` of the object ends so, and prints this, and this on the errors.
fn gets<D: Disk>(alloc: Global, disk: &mut D, status: Status, out: &str, err: &str) -> bool {
    run_words(alloc, &["get", "a"], disk, b"", 99).is_ok_and(|left| left.is(status, out, err))
}

/// Whether the archive has the object, or has none, as it is said; and whether the session is given over it again.
pub fn goes_on<D: Disk>(alloc: Global, disk: &mut D, there: bool) -> bool {
    if there {
        gets(alloc, disk, Status::Done, "abc", "")
            && says(alloc, disk, stream(), Status::Done, replies_again(), "")
    } else {
        gets(alloc, disk, Status::Refused, "", "refused: unknown name\n")
            && says(alloc, disk, stream(), Status::Done, replies(), "")
    }
}

// Whether a run whose input fails at the read behind so many bytes says so, and prints so many bytes of the replies.
fn ends_early(alloc: Global, disk: &mut SureDisk, end: usize, given: usize) -> bool {
    run_slowly(alloc, "session", disk, stream(), end.saturating_add(1)).is_ok_and(|left| {
        left.status == Status::Input
            && left.err.bytes() == b"fault: input\n".as_slice()
            && replies().get(..given) == Some(left.out.bytes())
    })
}

// Whether such a run prints the replies to what came before it, and the archive goes on with what was closed there.
fn bears_no_input(alloc: Global, disk: &mut SureDisk, end: usize) -> bool {
    let given = given_by(end);
    ends_early(alloc, disk, end, given) && goes_on(alloc, disk, given >= 54)
}

// Whether a run over an input that does not fail prints the replies.
fn is_read_slowly(alloc: Global, disk: &mut SureDisk) -> bool {
    run_slowly(alloc, "session", disk, stream(), 0).is_ok_and(|left| {
        left.status == Status::Done && left.out.bytes() == replies()
    })
}

// Whether a run over a new archive bears that the read of this number fails, counted from 1; at 0 none does.
fn bears_read(alloc: Global, read: usize) -> bool {
    match raised(alloc) {
        Some(mut disk) => {
            if read == 0 {
                is_read_slowly(alloc, &mut disk)
            } else {
                bears_no_input(alloc, &mut disk, read.saturating_sub(1))
            }
        }
        None => false,
    }
}

// The first read whose failing a run does not bear, 0 where it does not even bear that none fails. There are as many reads as bytes, and
// one that finds the end.
fn first_wrong_read(alloc: Global) -> Option<usize> {
    (0..stream().len().saturating_add(2)).find(|read| !bears_read(alloc, *read))
}

#[test]
fn each_read_of_the_input_fails(rt: HostRuntime) -> Result<(), Fail> {
    let wrong = first_wrong_read(rt.alloc());
    assert!(rt; wrong.is_none(), "{wrong:?}");
    Ok(())
}

// Whether the object was closed in a run whose output failed; none where the run does not say so, or prints anything but a first
// part of the replies.
fn closed_in(ended: &Ended) -> Option<bool> {
    let revealed = ended.status == Status::Output
        && ended.err.bytes() == b"fault: output\n".as_slice();
    let out = ended.out.bytes();
    // a close is made where its reply fails: what it is refused for then is that of a reply which fits
    let there = out.len() >= 8 && ended.unread <= stream().len().saturating_sub(43);
    (revealed && replies().starts_with(out)).then_some(there)
}

// The same of the run over this disk whose output fails so.
fn closed_before(alloc: Global, disk: &mut SureDisk, faults: Faults) -> Option<bool> {
    match run_failing(alloc, "session", disk, stream(), faults) {
        Ok(ended) => closed_in(&ended),
        Err(_) => None,
    }
}

// Whether such a run says so, and prints a first part of the replies, and the archive goes on with what was closed there.
fn goes_on_behind(alloc: Global, disk: &mut SureDisk, faults: Faults) -> bool {
    match closed_before(alloc, disk, faults) {
        Some(there) => goes_on(alloc, disk, there),
        None => false,
    }
}

// The same over a new archive.
fn bears_no_output(alloc: Global, faults: Faults) -> bool {
    match raised(alloc) {
        Some(mut disk) => goes_on_behind(alloc, &mut disk, faults),
        None => false,
    }
}

// Whether a run bears an output with so little space.
fn bears_space(alloc: Global, space: usize) -> bool {
    let faults = Faults {
        out_room: space,
        ..NONE
    };
    bears_no_output(alloc, faults)
}

// The first capacity of the output, too small for the replies, that a run does not bear.
fn first_wrong_space(alloc: Global) -> Option<usize> {
    (0..replies().len()).find(|space| !bears_space(alloc, *space))
}

// Whether a run bears that the call of the output with this number, counted from 1, fails.
fn bears_call(alloc: Global, call: u32) -> bool {
    let faults = Faults {
        out_call: call,
        ..NONE
    };
    bears_no_output(alloc, faults)
}

// The first such call that a run does not bear. There are eight replies, each with a write and a flush, and the last flush.
fn first_wrong_call(alloc: Global) -> Option<u32> {
    (1..18).find(|call| !bears_call(alloc, *call))
}

#[test]
fn the_output_has_too_little_space_or_fails(rt: HostRuntime) -> Result<(), Fail> {
    let space = first_wrong_space(rt.alloc());
    let call = first_wrong_call(rt.alloc());
    assert!(rt; space.is_none() && call.is_none(), "{space:?} {call:?}");
    Ok(())
}
